//! Reading a source whole.
ghost use Rattle.std.specs.Prelude.{◌≡◌, IfErr, IfOk, option_map};
ghost use Rattle.pim_top.specs.Reads.{IsReadBy};
ghost use Rattle.pim_top.specs.Streams.{stream, IsUntouched};
ghost use Rattle.pim_top.specs.inner.NotWhole.{IsNotWhole};

use crate::refusal::{Origin, Refusal};
use pim_io::{ReadAllFault, Source, read_all};
use std::alloc::Global;

/// All bytes of a source, at most as many as the limit says. Where there is none, the source isn't touched, and gives no bytes.
pub(crate) fn bytes_of<S: Source>(
    alloc: Global,
    source: &mut S,
    origin: Origin,
    limit: Option<u32>,
) -> Result<Vec<u8>, Refusal>
    ensures read { IfOk result (λ bytes. IsReadBy limit (stream S.left S.faults source.old source.new) bytes.items) }
    ensures refused { IfErr result (IsNotWhole origin limit (stream S.left S.faults source.old source.new)) }
    ensures apart { limit ≡ None → IsUntouched (stream S.left S.faults source.old source.new) }
{
    let Some(limit) = limit else {
        return Ok(Vec::new(alloc));
    };
    match read_all(alloc, source, limit) {
        Ok(bytes) => Ok(bytes),
        Err(ReadAllFault::Fault) => Err(Refusal::ReadFault(origin)),
        Err(ReadAllFault::TooLong) => Err(Refusal::TooLong(origin)),
        Err(ReadAllFault::NoMemory) => Err(Refusal::NoMemory),
    }
}
