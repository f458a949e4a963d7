ghost use Rattle.std.specs.Prelude.{◌≡◌, ◌≤◌, [], length, IfOk};
ghost use Rattle.pim_io.specs.Readings.{Gives};
ghost use Rattle.pim_io.specs.declared.limits.TheConstants.{MAX_PROGRAM};
ghost use Rattle.pim_net.specs.Netlist.{draft_of};
ghost use Rattle.pim_net.specs.declared.limits.TheConstants.{MAX_EQUATIONS};
ghost use Rattle.pim_blif.specs.Statements.{statements};
ghost use Rattle.pim_blif.specs.inner.Readers.{words_used};
ghost use Rattle.pim_blif.specs.inner.Judging.{known_from, known_after};
ghost use Rattle.pim_blif.specs.Files.{net_of};

use crate::fault::BlifFault;
use crate::reader::Reader;
use crate::statement::Statement;
use crate::statements::Statements;
use pim_net::Net;
use std::alloc::Global;

/// The netlist of a BLIF file, or its first fault: each statement is judged from those before it, and a fault is told by the
/// number of the statement's first line; where no statement is faulty, the netlist may still be one that is not well-formed.
/// Signals are numbered in the order in which their names first come. Expected linear in the bytes.
#[tactic(auto, using(crate::proofs::Whole::net_from_known), unfolding(crate::specs::Files::net_of))]
pub fn read(alloc: Global, bytes: &[u8]) -> Result<Net, BlifFault>
    requires { length bytes.now ≤ MAX_PROGRAM }
    ensures { Gives BlifFault.NoMemory draft_of result (net_of bytes.now) }
{
    let reader = read_statements(alloc, bytes)?;
    reader.net()
}

/// What all statements of a file tell, or the fault of the first faulty one.
fn read_statements(alloc: Global, bytes: &[u8]) -> Result<Reader<'_>, BlifFault>
    requires { length bytes.now ≤ MAX_PROGRAM }
    ensures exact { Gives BlifFault.NoMemory (λ k. k) result (known_after (known_from []) (statements bytes.now)) }
    ensures used { IfOk result (λ k. words_used k ≤ MAX_EQUATIONS) }
{
    let mut reader = Reader::new(alloc, bytes.len())?;
    let mut walk = Statements::new(alloc, bytes);
    while let Some(line) = walk.advance()? {
        reader.take(&Statement::new(line, walk.words()))?;
    }
    Ok(reader)
}
