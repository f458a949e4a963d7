ghost use Rattle.std.specs.Prelude.{◌≡◌, ◌+◌, ◌<◌, ◌≤◌, ◌++◌, ◌≢◌, length, take, vec_len, IfOk, IfErr, OnOk, OnErr};
ghost use Rattle.pim_io.specs.Outside.{Rose, Gave, GaveAll, GaveFirst, GaveAtMost, IsSpent};

use crate::Source;
use std::alloc::Global;
use thiserror::Error;

/// Why bytes were not read to their end.
#[derive(Clone, Copy, Debug, PartialEq, Eq, Error)]
pub enum ReadAllFault {
    /// A read failed, and the source counted it.
    #[error("the source could not be read")]
    Fault,
    /// One byte more came than the limit allows.
    #[error("the source has too many bytes")]
    TooLong,
    /// An allocation was refused.
    #[error("no memory")]
    NoMemory,
}

/// How many bytes are asked for at once.
const CHUNK: usize = 16_384;

/// Reads all bytes of a source to their end, at most `limit` of them. `TooLong` exactly where one byte more was taken. On a
/// refusal the bytes that were taken are lost. Linear in the bytes; each turn takes at least one.
pub fn read_all<S: Source>(
    alloc: Global,
    source: &mut S,
    limit: u32,
) -> Result<Vec<u8>, ReadAllFault>
    ensures within { IfOk result (λ bytes. vec_len bytes ≤ limit) }
    ensures all { IfOk result (λ bytes. GaveAll (S.left source.old) (S.left source.new) bytes.items) }

    // Exactly where limit + 1 bytes were taken.
    ensures too_long { result ≡ Err ReadAllFault.TooLong
        → GaveFirst (S.left source.old) (S.left source.new) (limit + 1) }
    ensures others { IfErr result (λ fault. fault ≢ ReadAllFault.TooLong
        → GaveAtMost (S.left source.old) (S.left source.new) limit) }

    ensures steady { OnOk result (S.faults source.new ≡ S.faults source.old) }
    ensures spared { IfErr result (λ fault. fault ≢ ReadAllFault.Fault → S.faults source.new ≡ S.faults source.old) }
    ensures fault { result ≡ Err ReadAllFault.Fault → Rose (S.faults source.old) (S.faults source.new) }
    ensures never_falls { S.faults source.old ≤ S.faults source.new }
{
    let too_many = limit as usize + 1;
    let mut bytes = Vec::new(alloc);
    let mut chunk = [0; CHUNK];
    while bytes.len() < too_many {
        let room = chunk.len().min(too_many - bytes.len());
        if read_on(source, &mut bytes, &mut chunk[..room])? == 0 {
            return Ok(bytes);
        }
    }
    Err(ReadAllFault::TooLong)
}

/// Appends what one read of a source gives into a buffer that is not empty, and returns how many bytes that is: 0 at the end.
/// The memory is taken before the bytes are.
fn read_on<S: Source>(
    source: &mut S,
    bytes: &mut Vec<u8>,
    buf: &mut [u8],
) -> Result<usize, ReadAllFault>
    requires { 0 < length buf.old }
    ensures within { IfOk result (λ n. n ≤ length buf.old) }
    ensures appended { IfOk result (λ n. bytes.new.items ≡ bytes.old.items ++ take n buf.new) }
    ensures len { IfOk result (λ n. vec_len bytes.new ≡ vec_len bytes.old + n) }
    ensures gave { IfOk result (λ n. Gave (S.left source.old) (S.left source.new) (take n buf.new)) }
    ensures end { IfOk result (λ n. n ≡ 0 → IsSpent (S.left source.old) (S.left source.new)) }
    ensures stays { OnErr result (S.left source.new ≡ S.left source.old) }
    ensures kept { OnErr result (vec_len bytes.new ≡ vec_len bytes.old) }
    ensures steady { OnOk result (S.faults source.new ≡ S.faults source.old) }
    ensures spared { IfErr result (λ fault. fault ≢ ReadAllFault.Fault → S.faults source.new ≡ S.faults source.old) }
    ensures fault { result ≡ Err ReadAllFault.Fault → Rose (S.faults source.old) (S.faults source.new) }
    ensures short { result ≢ Err ReadAllFault.TooLong }
    ensures never_falls { S.faults source.old ≤ S.faults source.new }
{
    let Ok(()) = bytes.reserve(buf.len()) else {
        return Err(ReadAllFault::NoMemory);
    };
    let Ok(n) = source.read(buf) else {
        return Err(ReadAllFault::Fault);
    };
    let Ok(()) = bytes.extend_from_slice(&buf[..n]) else {
        unreachable!();
    };
    Ok(n)
}
