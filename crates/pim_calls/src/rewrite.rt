//! Rewriting of majority graphs.

use crate::graphs::mig_of;
use pim_aig::Lit;
use pim_mig::{Maj, Mig};
use pim_rewrite::{MAX_REWRITTEN, rewrite};
use std::alloc::Global;
use std::test::Fail;

/// A majority node by the numbers of its operands.
fn node(x: u32, y: u32, z: u32) -> Maj {
    Maj {
        x: Lit(x),
        y: Lit(y),
        z: Lit(z),
    }
}

/// The graph rewritten, if it is not too large.
fn rewritten(alloc: Global, mig: &Mig) -> Result<Mig, Fail> {
    if mig.nodes().len() as u32 > MAX_REWRITTEN {
        Err("too large")?;
    }
    Ok(rewrite(alloc, mig)?)
}

/// Whether a graph becomes these nodes and this output, and rewriting it again changes nothing.
fn becomes(alloc: Global, mig: &Mig, nodes: &[Maj], output: u32) -> Result<bool, Fail> {
    let once = rewritten(alloc, mig)?;
    let twice = rewritten(alloc, &once)?;
    let outputs = [Lit(output)];
    Ok(
        once.nodes() == nodes
            && once.outputs() == outputs.as_slice()
            && twice.nodes() == nodes
            && twice.outputs() == outputs.as_slice(),
    )
}

/// The node that comes has two complemented operands, so the flip pass behind turns it.
#[test]
fn inner_node_turned(rt: HostRuntime) -> Result<(), Fail> {
    let mig = mig_of(rt.alloc(), 3, &[(6, 4, 1), (4, 6, 3), (8, 5, 10)], 12)?;
    let wanted = [node(0, 2, 4), node(6, 4, 9)];
    assert!(rt; becomes(rt.alloc(), &mig, &wanted, 10)?);
    Ok(())
}
