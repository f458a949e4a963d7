ghost use Rattle.std.specs.Prelude.{◌≡◌, ◌==◌, ◌+◌, ◌*◌, ◌^◌, ◌<◌, ◌≤◌, ℕ, length, slice_index, slice_set, if◌then◌else◌, IfOk, vec_len};
ghost use Rattle.pim_aig.specs.Graph.{IsAig, nodes};
ghost use Rattle.pim_aig.specs.Literals.{node};
ghost use Rattle.pim_nor.specs.Leaves.{is_among, operand_reads};
ghost use Rattle.pim_nor.specs.inner.Plans.{TellsSingle};

use pim_aig::{Aig, Lit};
use pim_io::NoMemory;
use std::alloc::Global;

/// Counts one more read of a literal's node.
fn count(counts: &mut Vec<u32>, literal: Lit)
    requires there { literal.0 < 2 * vec_len counts.old }
    requires room { slice_index counts.old.items (node literal) + 1 < 2 ^ 32 }
    ensures counts { counts.new.items ≡ slice_set counts.old.items (node literal)
        (slice_index counts.old.items (node literal) + 1) }
    ensures len { vec_len counts.new ≡ vec_len counts.old }
{
    counts[literal.node() as usize] += 1;
}

/// How often each node is an operand of AND nodes. Linear.
fn read_counts(alloc: Global, aig: &Aig) -> Result<Vec<u32>, NoMemory>
    ensures len { IfOk result (λ counts. vec_len counts ≡ nodes aig.now) }
    ensures counts { IfOk result (λ counts. (n : ℕ) → n < nodes aig.now →
        slice_index counts.items n ≡ operand_reads aig.now.ands n) }
    ensures sound { IsAig aig.now }
{
    let nodes = 1 + aig.inputs() as usize + aig.ands().len();
    let mut counts = vec![in alloc; 0u32; nodes]?;
    for and in aig.ands() {
        count(&mut counts, and.x);
        count(&mut counts, and.y);
    }
    Ok(counts)
}

/// A number for each node, which is 1 exactly where the node is single: an operand of AND nodes once in all, and no
/// output's. Linear.
pub(crate) fn singles(alloc: Global, aig: &Aig) -> Result<Vec<u32>, NoMemory>
    ensures { IfOk result (λ counts. TellsSingle aig.now counts.items) }
{
    let mut counts = read_counts(alloc, aig)?;
    for out in aig.outputs() {
        counts[out.node() as usize] = 0;
    }
    Ok(counts)
}
