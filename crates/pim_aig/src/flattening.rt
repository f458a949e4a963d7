ghost use Rattle.std.specs.Prelude.{◌≡◌, ◌+◌, ◌<◌, ◌≤◌, ◌++◌, List, Bool, All, Some, map, length, IfErr, IfOk, OnOk};
ghost use Rattle.pim_net.specs.Netlist.{draft_of};
ghost use Rattle.pim_net.specs.Values.{outs};
ghost use Rattle.pim_net.specs.WellFormed.{IsNet};
ghost use Rattle.pim_net.specs.declared.limits.TheConstants.{MAX_EQUATIONS};
ghost use Rattle.pim_net.specs.Tables.{values as literals_of};
ghost use Rattle.pim_aig.specs.inner.Tables.{AreOfFirst};
ghost use Rattle.pim_aig.specs.Faults.{Says};
ghost use Rattle.pim_aig.specs.Flat.{ands, equation_from, equations_from, flat, inputs_from, no_literals, output_literal};
ghost use Rattle.pim_aig.specs.Graph.{nodes};
ghost use Rattle.pim_aig.specs.inner.Growing.{Grows};
ghost use Rattle.pim_aig.specs.Values.{aval};
ghost use Rattle.pim_aig.specs.declared.graph.TheConstants.{MAX_ANDS, MAX_INPUTS, MAX_OUTPUTS};

use crate::cover::cover_literal;
use crate::{Aig, FlatFault, Lit};
use pim_io::NoMemory;
use pim_net::{Equation, Net, OutRef, SignalTable};
use std::alloc::Global;

/// The table of the signals' literals before any equation: inputs have the plain literals of their nodes. Where the signals that
/// are driven are the first ones, as in most files, all of them stand in the table's list.
fn input_table(
    alloc: Global,
    inputs: &[u32],
    equations: &[Equation],
) -> Result<SignalTable<Lit>, NoMemory>
    requires few { length inputs.now ≤ MAX_INPUTS }
    requires equations_few { length equations.now < MAX_EQUATIONS }
    ensures made { IfOk result (λ t. literals_of t ≡ inputs_from no_literals 0 inputs.now) }
    ensures there { IfOk result (λ t. AreOfFirst (1 + length inputs.now) (literals_of t)) }
{
    let mut table = SignalTable::new(alloc, inputs.len() + equations.len(), Lit::FALSE)?;
    for (k, signal) in inputs.iter().enumerate() {
        table.put(*signal, Lit::plain(1 + k as u32))?;
    }
    Ok(table)
}

/// Makes the AND nodes of one equation, and puts its literal into the table. The list is for the literals of its rows.
fn equation(
    aig: &mut Aig,
    table: &mut SignalTable<Lit>,
    equation: &Equation,
    literals: &mut Vec<Lit>,
) -> Result<(), FlatFault>
    requires there { AreOfFirst (nodes aig.old) (literals_of table.old) }
    ensures made { OnOk result (record { ands = aig.new.ands; lits = literals_of table.new }
        ≡ equation_from aig.old.inputs (literals_of table.old) aig.old.ands (Some equation.now)) }
    ensures there { OnOk result (AreOfFirst (nodes aig.new) (literals_of table.new)) }
    ensures grown { Grows aig.old aig.new }
    ensures fault { IfErr result (λ fault. Says fault
        (length (equation_from aig.old.inputs (literals_of table.old) aig.old.ands (Some equation.now)).ands)) }
{
    let literal = cover_literal(aig, table, &equation.cover, literals)?;
    table.put(equation.sig, literal)?;
    Ok(())
}

/// Makes the AND nodes of all equations by depth, and puts their literals into the table.
fn equations(
    alloc: Global,
    aig: &mut Aig,
    table: &mut SignalTable<Lit>,
    net: &Net,
) -> Result<(), FlatFault>
    requires there { AreOfFirst (nodes aig.old) (literals_of table.old) }
    ensures made { OnOk result (record { ands = aig.new.ands; lits = literals_of table.new }
        ≡ equations_from aig.old.inputs net.now.equations (literals_of table.old) aig.old.ands net.now.topo) }
    ensures there { OnOk result (AreOfFirst (nodes aig.new) (literals_of table.new)) }
    ensures grown { Grows aig.old aig.new }
    ensures fault { IfErr result (λ fault. Says fault
        (length (equations_from aig.old.inputs net.now.equations (literals_of table.old) aig.old.ands net.now.topo).ands)) }
{
    let equations = net.equations();
    let mut literals = Vec::new(alloc);
    for k in net.topo() {
        equation(aig, table, &equations[*k as usize], &mut literals)?;
    }
    Ok(())
}

/// The literal that an output puts out.
fn output_literal(table: &SignalTable<Lit>, out: OutRef) -> Lit
    ensures { result ≡ output_literal (literals_of table.now) out }
{
    let literal = table.at(out.sig);
    if out.neg {
        literal.complement()
    } else {
        literal
    }
}

/// Appends an output for each of the netlist's.
fn outputs(aig: &mut Aig, table: &SignalTable<Lit>, outputs: &[OutRef]) -> Result<(), NoMemory>
    requires there { AreOfFirst (nodes aig.old) (literals_of table.now) }
    requires few { length aig.old.outputs + length outputs.now ≤ MAX_OUTPUTS }
    ensures { OnOk result (aig.new ≡ record aig.old {
      outputs = aig.old.outputs ++ map (output_literal (literals_of table.now)) outputs.now;
    }) }
{
    for out in outputs {
        aig.add_output(output_literal(table, *out))?;
    }
    Ok(())
}

/// The flat graph of a netlist: each equation, by depth and then in order, becomes chains of AND nodes. Nothing is folded
/// or shared, and at each assignment of the inputs the graph's outputs have the netlist's values. Expected linear in the
/// cells of all covers and the other parts, however great the numbers of the signals are.
pub fn flatten(alloc: Global, net: &Net) -> Result<Aig, FlatFault>
    ensures flat { IfOk result (λ aig. aig ≡ flat net.now) }
    ensures values { IfOk result (λ aig. (bits : List Bool) → length bits ≡ length net.now.inputs
        → map (aval aig bits) aig.outputs ≡ outs net.now bits) }
    ensures counted { OnOk result (length (flat net.now).ands ≡ ands net.now) }
    ensures accepted { OnOk result (ands net.now ≤ MAX_ANDS) }
    ensures fault { IfErr result (λ fault. Says fault (ands net.now)) }
{
    net.has_values();
    let mut aig = Aig::new(alloc, net.inputs().len() as u32);
    let mut table = input_table(alloc, net.inputs(), net.equations())?;
    equations(alloc, &mut aig, &mut table, net)?;
    outputs(&mut aig, &table, net.outputs())?;
    Ok(aig)
}
