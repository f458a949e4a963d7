ghost use Rattle.std.specs.Prelude.{◌≡◌, ◌+◌, ◌≤◌, ◌<◌, ◌^◌, ◌++◌, ℕ, List, length, vec_len, OnOk, OnErr};
ghost use Rattle.pim_io.specs.Codes.{code_of, code_at, first_code, EndsWithin};

use crate::NoMemory;

/// What stands at a place of bytes: the code of a number and the place after it; a code of more than five bytes or of a
/// number of 2^32 or more; or bytes that end inside a code.
#[derive(Clone, Copy, Debug, PartialEq, Eq)]
pub enum Code {
    Got { value: u32, next: usize },
    Long,
    Short,
}

/// Appends the shortest seven-bit code of a number, of at most five bytes: seven bits a byte, low part first, the high bit
/// set on all bytes but the last. Without memory nothing is appended.
pub fn put_code(out: &mut Vec<u8>, value: u32) -> Result<(), NoMemory>
    ensures appended { OnOk result (out.new.items ≡ out.old.items ++ code_of value) }
    ensures reads_back { OnOk result ((rest : List ℕ) →
        code_at (out.new.items ++ rest) (vec_len out.old) ≡ Code.Got value (vec_len out.new)) }

    // Bytes that are read as this number are no fewer.
    ensures shortest { OnOk result ((bytes : List ℕ) (next : ℕ) →
        code_at bytes 0 ≡ Code.Got value next → vec_len out.new ≤ vec_len out.old + next) }

    ensures stays { OnErr result (out.new.items ≡ out.old.items) }
{
    let mut bytes = [0; 5];
    let mut len = 0;
    let mut rest = value;
    while rest >= 128 {
        bytes[len] = (rest % 128 + 128) as u8;
        rest /= 128;
        len += 1;
    }
    bytes[len] = rest as u8;
    out.extend_from_slice(&bytes[..len + 1])?;
    Ok(())
}

/// Reads the seven-bit code at a place of the bytes, in at most five steps. Longer spellings of a number within five bytes are read too.
#[tactic(auto, unfolding(crate::specs::Codes::code_at))]
pub fn get_code(bytes: &[u8], at: usize) -> Code
    requires { at ≤ length bytes.now }
    ensures value { result ≡ code_at bytes.now at }
    ensures within { EndsWithin result at (length bytes.now) }
{
    let (_, rest) = bytes.split_at(at);
    first_code(rest, at)
}

/// Reads the seven-bit code that bytes begin with, where they stand at a place.
fn first_code(bytes: &[u8], at: usize) -> Code
    requires { at + length bytes.now < 2 ^ 64 }
    ensures value { result ≡ first_code bytes.now at }
    ensures within { EndsWithin result at (at + length bytes.now) }
{
    let mut value: u64 = 0;
    let mut scale: u64 = 1;
    for k in 0..5 {
        if k == bytes.len() {
            return Code::Short;
        }
        let b = bytes[k];
        value += u64::from(b % 128) * scale;
        if b < 128 {
            let Ok(value) = u32::try_from(value) else {
                return Code::Long;
            };
            return Code::Got {
                value,
                next: at + k + 1,
            };
        }
        scale *= 128;
    }
    Code::Long
}
