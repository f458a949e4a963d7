//! Graphs and ports by numbers, for tests: a number that isn't there fails the test.

use pim_aig::{Aig, Lit, MAX_ANDS, MAX_INPUTS, MAX_OUTPUTS};
use pim_isa::Ports;
use pim_mig::{MAX_NODES, Mig};
use std::alloc::Global;
use std::test::Fail;

/// An and-inverter graph of these AND nodes and this output.
pub(crate) fn aig_of(
    alloc: Global,
    inputs: u32,
    ands: &[(u32, u32)],
    output: u32,
) -> Result<Aig, Fail> {
    if inputs > MAX_INPUTS {
        Err("too many inputs")?;
    }
    let mut aig = Aig::new(alloc, inputs);
    for (x, y) in ands {
        add_and(&mut aig, *x, *y)?;
    }
    let literals = 2 * (1 + aig.inputs() + aig.ands().len() as u32);
    if output < literals && (aig.outputs().len() as u32) < MAX_OUTPUTS {
        aig.add_output(Lit(output))?;
        return Ok(aig);
    }
    Err("no such output")?
}

/// Appends an AND node.
fn add_and(aig: &mut Aig, x: u32, y: u32) -> Result<(), Fail> {
    let count = aig.ands().len() as u32;
    let literals = 2 * (1 + aig.inputs() + count);
    if x < literals && y < literals && count < MAX_ANDS {
        aig.and(Lit(x), Lit(y))?;
        return Ok(());
    }
    Err("no such operands")?
}

/// A majority graph of these nodes and this output.
pub(crate) fn mig_of(
    alloc: Global,
    inputs: u32,
    nodes: &[(u32, u32, u32)],
    output: u32,
) -> Result<Mig, Fail> {
    if inputs > MAX_INPUTS {
        Err("too many inputs")?;
    }
    let mut mig = Mig::new(alloc, inputs);
    for (x, y, z) in nodes {
        add_node(&mut mig, *x, *y, *z)?;
    }
    let literals = 2 * (1 + mig.inputs() + mig.nodes().len() as u32);
    if output < literals && (mig.outputs().len() as u32) < MAX_OUTPUTS {
        mig.add_output(Lit(output))?;
        return Ok(mig);
    }
    Err("no such output")?
}

/// Makes a majority node.
fn add_node(mig: &mut Mig, x: u32, y: u32, z: u32) -> Result<(), Fail> {
    let count = mig.nodes().len() as u32;
    let literals = 2 * (1 + mig.inputs() + count);
    if x < literals && y < literals && z < literals && count < MAX_NODES {
        mig.node(Lit(x), Lit(y), Lit(z))?;
        return Ok(());
    }
    Err("no such operands")?
}

/// So many ports, all inputs with one label and all outputs with another.
pub(crate) fn ports_of(alloc: Global, inputs: u32, outputs: usize) -> Result<Ports, Fail> {
    let mut ports = Ports::new(alloc);
    for _k in 0..inputs {
        ports.add_input(b"i")?;
    }
    for _k in 0..outputs {
        ports.add_output(b"o")?;
    }
    Ok(ports)
}
