ghost use Rattle.std.specs.Prelude.{◌≡◌, ℕ, ◌<◌, ◌==◌, if◌then◌else◌};
ghost use Rattle.pim_io.specs.Lanes.{is_set};
ghost use Rattle.pim_io.specs.Bits.{digit_of};

/// A word with one bit written.
pub(crate) fn with_bit(word: u64, place: u32, bit: bool) -> u64
    requires { place < 64 }
    ensures { (i : ℕ) → i < 64 → is_set result i ≡ (if i == place then bit else is_set word i) }
{
    let mask = 1u64 << place;
    if bit { word | mask } else { word & !mask }
}

/// Whether a bit of a word is one.
pub(crate) fn bit(word: u64, place: u32) -> bool
    requires { place < 64 }
    ensures { result ≡ is_set word place }
{
    (word >> place) & 1 == 1
}

/// The character of a bit.
pub(crate) fn digit(bit: bool) -> u8
    ensures { result ≡ digit_of bit }
{
    if bit { b'1' } else { b'0' }
}
