ghost use Rattle.std.specs.Prelude.{◌≤◌, [], map};
ghost use Rattle.pim_io.specs.Outside.{Wrote, with_pieces};
ghost use Rattle.pim_io.specs.Writes.{WritesAddUp};

use crate::{Sink, SinkFault};

/// Writes a whole piece to a sink. On a fault the sink took a prefix of the piece. Linear in the calls that the sink needs;
/// each takes at least one byte.
pub fn write_all<K: Sink>(sink: &mut K, piece: &[u8]) -> Result<(), SinkFault>
    ensures wrote { Wrote result (K.taken sink.old) (K.taken sink.new) (K.faults sink.old) (K.faults sink.new) piece.now }
    ensures never_falls { K.faults sink.old ≤ K.faults sink.new }
{
    let mut at = 0;
    while at < piece.len() {
        at += sink.write(&piece[at..])?;
    }
    Ok(())
}

/// How writes that follow one another make up one. Computes nothing.
pub fn tell_writes()
    ensures { WritesAddUp }
{}

/// Writes pieces to a sink, one after another. On a fault the sink took a prefix of them all. Linear in the pieces and the
/// calls that the sink needs.
pub fn write_pieces<K: Sink>(sink: &mut K, pieces: &[&[u8]]) -> Result<(), SinkFault>
    ensures wrote { Wrote result (K.taken sink.old) (K.taken sink.new) (K.faults sink.old) (K.faults sink.new)
        (with_pieces [] (map (λ piece. piece.now) pieces.now)) }
    ensures never_falls { K.faults sink.old ≤ K.faults sink.new }
{
    for piece in pieces {
        write_all(sink, piece)?;
    }
    Ok(())
}
