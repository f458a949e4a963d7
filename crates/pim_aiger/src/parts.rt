ghost use Rattle.std.specs.Prelude.{◌≡◌, ◌<◌, ◌∷◌, [], length, All, IfOk};
ghost use Rattle.std.specs.List.{range_with_len};
ghost use Rattle.pim_io.specs.Readings.{Gives};
ghost use Rattle.pim_aiger.specs.Steps.{many, with_front};
ghost use Rattle.pim_aiger.specs.Literals.{input_at, output_at, gate_at, constant};
ghost use Rattle.pim_aiger.specs.Deltas.{binary_gate_at};
ghost use Rattle.pim_aiger.specs.inner.Kept.{IsGates, IsWithin};
ghost use Rattle.pim_net.specs.declared.limits.TheConstants.{MAX_SIGNALS};
ghost use Rattle.pim_aiger.specs.inner.Views.{header_view};

use crate::fault::AigerFault;
use crate::header::Header;
use crate::reader::Reader;
use pim_io::NoMemory;
use pim_net::{Cover, Draft, OutRef};
use std::alloc::Global;

/// The variables of the input lines that a header tells.
pub(crate) fn inputs(
    alloc: Global,
    reader: &mut Reader,
    header: &Header,
) -> Result<Vec<u32>, AigerFault>
    requires { IsWithin (header_view header.now) }
    ensures exact { Gives AigerFault.NoMemory (λ inputs. (inputs.items, reader.new)) result
        (many (λ k. input_at header.now.greatest) 0 header.now.inputs reader.old) }
    ensures below { IfOk result (λ inputs. All (λ v. v < MAX_SIGNALS) inputs.items) }
    ensures count { IfOk result (λ inputs. length inputs.items ≡ header.now.inputs) }
{
    let mut inputs = Vec::new(alloc);
    for _ in 0..header.inputs {
        let input = reader.input(header.greatest)?;
        inputs.push(input)?;
    }
    Ok(inputs)
}

/// The signals of the output lines that a header tells.
pub(crate) fn outputs(
    alloc: Global,
    reader: &mut Reader,
    header: &Header,
) -> Result<Vec<OutRef>, AigerFault>
    requires { IsWithin (header_view header.now) }
    ensures exact { Gives AigerFault.NoMemory (λ outputs. (outputs.items, reader.new)) result
        (many (λ k. output_at header.now.greatest) 0 header.now.outputs reader.old) }
    ensures below { IfOk result (λ outputs. All (λ o. o.sig < MAX_SIGNALS) outputs.items) }
    ensures count { IfOk result (λ outputs. length outputs.items ≡ header.now.outputs) }
{
    let mut outputs = Vec::new(alloc);
    for _ in 0..header.outputs {
        let output = reader.output(header.greatest)?;
        outputs.push(output)?;
    }
    Ok(outputs)
}

/// A draft with the equation of signal 0, which is false: a cover without columns and rows.
fn constant(alloc: Global) -> Result<Draft, NoMemory>
    ensures gates { IfOk result IsGates }
    ensures equations { IfOk result (λ draft. draft.equations ≡ constant ∷ []) }
{
    let mut draft = Draft::new(alloc);
    let cover = Cover::new(alloc, &[], true)?;
    draft.add_cover(0, cover)?;
    Ok(draft)
}

/// The equations of the gate lines that a header tells, after that of signal 0.
pub(crate) fn gates(
    alloc: Global,
    reader: &mut Reader,
    header: &Header,
) -> Result<Draft, AigerFault>
    requires { IsWithin (header_view header.now) }
    ensures exact { Gives AigerFault.NoMemory (λ draft. (draft.equations, reader.new)) result
        (with_front (constant ∷ []) (many (λ k. gate_at header.now.greatest) 0 header.now.gates reader.old)) }
    ensures gates { IfOk result IsGates }
{
    let mut draft = constant(alloc)?;
    for _ in 0..header.gates {
        let gate = reader.gate(alloc, header.greatest)?;
        draft.add_cover(gate.sig, gate.cover)?;
    }
    Ok(draft)
}

/// The equations of the coded gates that a header tells, after that of signal 0.
pub(crate) fn binary_gates(
    alloc: Global,
    reader: &mut Reader,
    header: &Header,
) -> Result<Draft, AigerFault>
    requires { IsWithin (header_view header.now) }
    ensures exact { Gives AigerFault.NoMemory (λ draft. (draft.equations, reader.new)) result
        (with_front (constant ∷ []) (many (binary_gate_at header.now.inputs) 0 header.now.gates reader.old)) }
    ensures gates { IfOk result IsGates }
{
    let mut draft = constant(alloc)?;
    for k in 0..header.gates {
        let gate = reader.binary_gate(alloc, header.inputs, k)?;
        draft.add_cover(gate.sig, gate.cover)?;
    }
    Ok(draft)
}

/// The variables from 1 on, as many as `count`.
pub(crate) fn variables(alloc: Global, count: u32) -> Result<Vec<u32>, NoMemory>
    requires { count < MAX_SIGNALS }
    ensures range { IfOk result (λ variables. variables.items ≡ range_with_len 1 count) }
    ensures below { IfOk result (λ variables. All (λ v. v < MAX_SIGNALS) variables.items) }
    ensures count { IfOk result (λ variables. length variables.items ≡ count) }
{
    let mut variables = Vec::new(alloc);
    for k in 0..count {
        variables.push(k + 1)?;
    }
    Ok(variables)
}
