ghost use Rattle.std.specs.Prelude.{◌≡◌, ◌<◌, ◌++◌, All, length, OnOk};
ghost use Rattle.pim_rm3.specs.Schedules.{output_cell, output_ports};

use crate::gate_graph::is_input;
use pim_aig::Lit;
use pim_io::{Name, NoMemory};
use pim_isa::ProgramDraft;

/// Where an output lies.
fn output_cell(inputs: u32, cells: &[u32], output: Lit) -> u32
    requires there { output.0 < length cells.now }
    ensures { result ≡ output_cell inputs cells.now output }
{
    if is_input(inputs, output) {
        output.0 / 2 - 1
    } else {
        cells[output.0 as usize]
    }
}

/// Adds the output ports, each in the cell where its output lies.
pub(crate) fn add_outputs(
    draft: &mut ProgramDraft,
    inputs: u32,
    cells: &[u32],
    outputs: &[Lit],
    labels: &[Name],
) -> Result<(), NoMemory>
    requires there { All (λ o. o.0 < length cells.now) outputs.now }
    requires same { length outputs.now ≡ length labels.now }
    ensures { OnOk result (draft.new ≡ record draft.old {
      outputs = draft.old.outputs ++ output_ports inputs cells.now outputs.now labels.now;
    }) }
{
    for (k, output) in outputs.iter().enumerate() {
        draft.add_output(output_cell(inputs, cells, *output), labels[k].bytes())?;
    }
    Ok(())
}
