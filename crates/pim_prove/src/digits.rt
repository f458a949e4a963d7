ghost use Rattle.std.specs.Prelude.{◌≡◌, ℕ, ◌+◌, ◌*◌, ◌^◌, ◌<◌, length};
ghost use Rattle.pim_io.specs.Lanes.{is_set, lane};
ghost use Rattle.pim_prove.specs.declared.proving.TheConstants.{MAX_PROVE_INPUTS};

/// The digit 2^k of the numbers of 64 vectors, from 64 times the word's number on: a lane for each.
pub(crate) fn digit_word(k: u32, word: u32) -> u64
    requires { k < MAX_PROVE_INPUTS }
    ensures { (r : ℕ) → r < 64 → is_set result r ≡ is_set (64 * word + r) k }
{
    match k {
        0 => 0xaaaa_aaaa_aaaa_aaaa,
        1 => 0xcccc_cccc_cccc_cccc,
        2 => 0xf0f0_f0f0_f0f0_f0f0,
        3 => 0xff00_ff00_ff00_ff00,
        4 => 0xffff_0000_ffff_0000,
        5 => 0xffff_ffff_0000_0000,
        _ => spread((word >> (k - 6)) & 1),
    }
}

/// The bit in all lanes.
fn spread(bit: u32) -> u64
    requires { bit < 2 }
    ensures { (r : ℕ) → r < 64 → is_set result r ≡ is_set bit 0 }
{
    if bit == 1 { u64::MAX } else { 0 }
}

/// The digit 2^k of the numbers of vectors, from 64 times the first word's number on.
pub(crate) fn fill_digits(column: &mut [u64], k: u32, start: u32)
    requires small { k < MAX_PROVE_INPUTS }
    requires room { start + length column.old < 2 ^ 32 }
    ensures { (r : ℕ) → r < 64 * length column.old → lane column.new r ≡ is_set (64 * start + r) k }
{
    for (place, word) in column.iter_mut().enumerate() {
        *word = digit_word(k, start + place as u32);
    }
}
