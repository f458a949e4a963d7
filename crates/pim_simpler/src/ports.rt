ghost use Rattle.std.specs.Prelude.{◌≡◌, ◌++◌, length, OnOk};
ghost use Rattle.pim_nor.specs.Network.{AreInputsOrFirst, IsInputOrFirst};
ghost use Rattle.pim_simpler.specs.inner.Kept.{cell_of, output_ports};

use pim_io::{Name, NoMemory};
use pim_isa::ProgramDraft;
use pim_nor::Pin;

/// The cell of what a gate or an output reads, where the gates have these cells.
pub(crate) fn cell_of(cells: &[u32], pin: Pin) -> u32
    requires { IsInputOrFirst (length cells.now) pin }
    ensures { result ≡ cell_of cells.now pin }
{
    match pin {
        Pin::Input(input) => input,
        Pin::Gate(gate) => cells[gate as usize],
    }
}

/// Adds the output ports, each in the cell of what it reads.
pub(crate) fn add_outputs(
    draft: &mut ProgramDraft,
    cells: &[u32],
    outs: &[Pin],
    labels: &[Name],
) -> Result<(), NoMemory>
    requires same { length outs.now ≡ length labels.now }
    requires there { AreInputsOrFirst (length cells.now) outs.now }
    ensures { OnOk result (draft.new ≡ record draft.old {
      outputs = draft.old.outputs ++ output_ports (cell_of cells.now) outs.now labels.now;
    }) }
{
    for (k, pin) in outs.iter().enumerate() {
        draft.add_output(cell_of(cells, *pin), labels[k].bytes())?;
    }
    Ok(())
}
