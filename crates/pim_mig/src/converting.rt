ghost use Rattle.std.specs.Prelude.{◌≡◌, ◌<◌, ◌≤◌, [], All, Bool, List, length, map, IfOk, OnOk};
ghost use Rattle.pim_aig.specs.Graph.{IsOfFirst, nodes};
ghost use Rattle.pim_aig.specs.Moving.{moved};
ghost use Rattle.pim_aig.specs.Values.{aval};
ghost use Rattle.pim_mig.specs.Graph.{size};
ghost use Rattle.pim_mig.specs.Majs.{majs, making};
ghost use Rattle.pim_mig.specs.Values.{mval};

use crate::Mig;
use pim_aig::{Aig, Lit, moved, plain_literals};
use pim_io::NoMemory;
use std::alloc::Global;

/// The majority graph of an and-inverter graph: each AND becomes the majority of its operands and false. Each output keeps its
/// value. Expected linear time.
pub fn from_aig(alloc: Global, aig: &Aig) -> Result<Mig, NoMemory>
    ensures majs { IfOk result (λ mig. mig ≡ majs aig.now) }
    ensures values { IfOk result (λ mig. (bits : List Bool) → length bits ≡ aig.now.inputs
        → map (mval mig bits) mig.outputs ≡ map (aval aig.now bits) aig.now.outputs) }
    ensures no_more { IfOk result (λ mig. length mig.nodes ≤ length aig.now.ands) }
{
    let mut mig = Mig::new(alloc, aig.inputs());
    let lits = add_nodes(alloc, &mut mig, aig)?;
    add_outputs(&mut mig, &lits, aig)?;
    aig.has_values();
    mig.has_values();
    Ok(mig)
}

/// Makes a node of each AND, and gives the literals of all nodes of the and-inverter graph.
fn add_nodes(alloc: Global, mig: &mut Mig, aig: &Aig) -> Result<Vec<Lit>, NoMemory>
    requires none { mig.old.nodes ≡ [] }
    requires same { mig.old.inputs ≡ aig.now.inputs }
    ensures literals { IfOk result (λ lits. lits.items ≡ (making aig.now).lits) }
    ensures nodes { OnOk result (mig.new ≡ record mig.old { nodes = (making aig.now).nodes }) }
    ensures there { IfOk result (λ lits. All (IsOfFirst (size mig.new)) lits.items) }
    ensures count { IfOk result (λ lits. length lits.items ≡ nodes aig.now) }
    ensures few { OnOk result (length mig.new.nodes ≤ length aig.now.ands) }
{
    let mut lits = plain_literals(alloc, mig.inputs())?;
    let ands = aig.ands();
    for and in ands {
        let x = moved(&lits, and.x);
        let y = moved(&lits, and.y);
        lits.push(mig.node(x, y, Lit::FALSE)?)?;
    }
    Ok(lits)
}

/// Adds the outputs of an and-inverter graph, whose nodes have these literals.
fn add_outputs(mig: &mut Mig, lits: &[Lit], aig: &Aig) -> Result<(), NoMemory>
    requires none { mig.old.outputs ≡ [] }
    requires count { length lits.now ≡ nodes aig.now }
    requires there { All (IsOfFirst (size mig.old)) lits.now }
    ensures { OnOk result (mig.new ≡ record mig.old { outputs = map (moved lits.now) aig.now.outputs }) }
{
    let outputs = aig.outputs();
    for output in outputs {
        mig.add_output(moved(lits, *output))?;
    }
    Ok(())
}
