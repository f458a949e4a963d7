ghost use Rattle.std.specs.Prelude.{◌≡◌, ◌⊎◌, ◌↔◌, IsTrue, All};
ghost use Rattle.pim_vectors.specs.Tiles.{IsVector};

/// Whether a line has exactly that many bytes, each of them the character `0` or `1`. Linear in the line.
pub fn vector_fits(line: &[u8], inputs: u32) -> bool
    ensures { IsTrue result ↔ IsVector inputs line.now }
{
    line.len() == inputs as usize && are_digits(line)
}

/// Whether each byte is the character `0` or `1`. All bytes are judged, with no early end, so that many are judged at once.
fn are_digits(line: &[u8]) -> bool
    ensures { IsTrue result ↔ All (λ b. (b ≡ 48) ⊎ (b ≡ 49)) line.now }
{
    let mut fit = true;
    for b in line {
        fit &= *b == b'0' || *b == b'1';
    }
    fit
}
