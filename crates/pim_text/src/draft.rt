ghost use Rattle.std.specs.Prelude.{◌≡◌, ◌≤◌, IfOk, OnOk};
ghost use Rattle.pim_io.specs.Names.{IsLabel, label};
ghost use Rattle.pim_text.specs.PortLines.{port_view};
ghost use Rattle.pim_text.specs.Parts.{IsKind, Kind, Parts};
ghost use Rattle.pim_text.specs.Reading.{aimed, begun, with_input, with_output, with_instr};

use crate::lines::PortLine;
use pim_io::NoMemory;
use pim_isa::{MAX_CELLS, Target};
use std::alloc::Global;

/// A draft of a program whose kind has a text: it grows by one port or one instruction at a time.
pub trait Draft: Drop {
    /// An instruction of the kind.
    type Instr: Drop;

    /// How the lines of the kind are spelled and read.
    ghost kind: { Kind Self.Instr };

    /// The parts of the draft.
    ghost parts: { Self → Parts Self.Instr };

    /// The first line.
    fn first_line() -> &'static [u8]
        ensures { result.now ≡ kind.first };

    /// The target of all programs of the kind, unless a line tells it.
    fn only_target() -> Option<Target>
        ensures { result ≡ kind.target };

    /// The instruction of a line.
    fn instr(alloc: Global, line: &[u8]) -> Result<Option<Self::Instr>, NoMemory>
        ensures { IfOk result (λ instr. instr ≡ kind.instr_of line.now) };

    /// A draft without ports and instructions, for this target where the kind has several.
    fn begun(alloc: Global, target: Target, cells: u32) -> Self
        requires { cells ≤ MAX_CELLS }
        ensures { parts result ≡ begun (aimed kind.target target) cells };

    /// Adds an input.
    fn put_input(&mut self, port: PortLine) -> Result<(), NoMemory>
        requires label { IsLabel port.label.now }
        requires same { label port.label.now ≡ port.label.now }
        ensures { OnOk result (parts self.new ≡ with_input (port_view port.entry) (parts self.old)) };

    /// Adds an output.
    fn put_output(&mut self, port: PortLine) -> Result<(), NoMemory>
        requires label { IsLabel port.label.now }
        requires same { label port.label.now ≡ port.label.now }
        ensures { OnOk result (parts self.new ≡ with_output (port_view port.entry) (parts self.old)) };

    /// Adds an instruction.
    fn put(&mut self, instr: Self::Instr) -> Result<(), NoMemory>
        ensures { OnOk result (parts self.new ≡ with_instr instr (parts self.old)) };

    /// A law, which computes nothing: an instruction is read from its line alone.
    fn tell_kind()
        ensures { IsKind kind };
}
