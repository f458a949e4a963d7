ghost use Rattle.std.specs.Prelude.{◌≡◌, ◌⊎◌, IfErr, IfOk, None, OnOk, Some};
ghost use Rattle.pim_isa.specs.Sound.{IsProgram};
ghost use Rattle.pim_prove.specs.Proving.{IsVerdict, ports_differ, refusal_of};
ghost use Rattle.pim_prove.specs.inner.Comparing.{verdict_of};
ghost use Rattle.pim_prove.specs.declared.fault.ProveFault.TheVariants as faults;

use crate::comparing::{Difference, first_difference};
use crate::fault::ProveFault;
use crate::unset::first_unset;
use crate::verdict::Verdict;
use pim_aig::{FlatFault, flatten};
use pim_isa::Program;
use pim_net::Net;
use std::alloc::Global;

/// The most inputs that a program and a netlist are compared on: there are 1,048,576 vectors then.
pub const MAX_PROVE_INPUTS: usize = 20;

/// Compares a program with a netlist for all vectors and all earlier contents of the other cells. Labels are not compared. It
/// executes the program in 64 rows for each word, and evaluates the flat graph on as many.
pub fn prove(alloc: Global, program: &Program, net: &Net) -> Result<Verdict, ProveFault>
    ensures verdict { IfOk result (IsVerdict program.now net.now) }
    ensures accepted { OnOk result (refusal_of program.now net.now ≡ None) }
    ensures refused { IfErr result (λ fault. (fault ≡ faults.NoMemory) ⊎ (refusal_of program.now net.now ≡ Some fault)) }
{
    if ports_differ(program, net) {
        return Err(ProveFault::Ports);
    }
    if net.inputs().len() > MAX_PROVE_INPUTS {
        return Err(ProveFault::Inputs);
    }
    let aig = match flatten(alloc, net) {
        Ok(aig) => aig,
        Err(FlatFault::TooLarge) => return Err(ProveFault::Nodes),
        Err(FlatFault::NoMemory) => return Err(ProveFault::NoMemory),
    };
    if let Some(unset) = first_unset(alloc, program)? {
        return Err(ProveFault::NotClean(unset));
    }
    let found = first_difference(alloc, program, &aig)?;
    Ok(verdict_of(found))
}

/// What a first difference means.
fn verdict_of(found: Option<Difference>) -> Verdict
    ensures { result ≡ verdict_of found }
{
    match found {
        None => Verdict::Equal,
        Some(Difference { vector, output }) => Verdict::Differs { vector, output },
    }
}

/// Whether the numbers of inputs or of outputs are not the same.
fn ports_differ(program: &Program, net: &Net) -> bool
    ensures value { result ≡ ports_differ program.now net.now }
    ensures valid { IsProgram program.now }
{
    let inputs = program.inputs().len() == net.inputs().len();
    let outputs = program.outputs().len() == net.outputs().len();
    !inputs || !outputs
}
