ghost use Rattle.std.specs.Prelude.{◌≡◌, Some, None, if◌then◌else◌, IfOk, OnOk, option_map};
ghost use Rattle.std.specs.Bool.{OnFalse};
ghost use Rattle.pim_io.specs.Lines.{line_view};
ghost use Rattle.pim_io.specs.Readings.{Gives};
ghost use Rattle.pim_io.specs.Names.{IsLabel, label as label_of};
ghost use Rattle.pim_text.specs.PortLines.{port_view};
ghost use Rattle.pim_text.specs.Reading.{start, aimed, begun, with_input, with_output, with_instr, after_first, after_target, after_cells, after_input, after_output, after_cycles, after_outputs, after_inputs, after_end, after_instrs, after, finished, line_read};
ghost use Rattle.pim_text.specs.inner.Kept.{within_limit, reading};

use crate::draft::Draft;
use crate::fault::TextFault;
use crate::fields::is_text;
use crate::lines::{PortLine, counted, port, target};
use crate::section::Section;
use pim_io::{Line, NoMemory};
use pim_isa::{MAX_CELLS, Target};
use std::alloc::Global;

/// How far the text of a program is read, line by line.
#[derive(Drop)]
pub(crate) struct Reader<D: Draft> {
    alloc: Global,

    // Which lines may come next.
    section: Section,

    // What was read: none before the number of cells is told, and none where that is above the limit, so that the lines behind
    // it are judged and not kept.
    draft: Option<D>,
}

impl<D: Draft> Reader<D> {
    /// A reader of which no line is read.
    pub(crate) fn new(alloc: Global) -> Reader<D>
        ensures { reading D.parts result.section result.draft ≡ start }
    {
        Reader {
            alloc,
            section: Section::First,
            draft: None,
        }
    }

    /// The next line.
    pub(crate) fn line(&mut self, line: Line) -> Result<(), TextFault>
        ensures { Gives TextFault.NoMemory (λ _. reading D.parts self.new.section self.new.draft) result
            (line_read D.kind within_limit (reading D.parts self.old.section self.old.draft) (line_view line.entry)) }
    {
        if !line.ended && self.section != Section::Ended {
            return Err(TextFault::Truncated);
        }
        if !self.accept(line.text)? {
            return Err(TextFault::Line(line.number));
        }
        Ok(())
    }

    /// The draft, where all lines are read.
    pub(crate) fn finish(self) -> Result<D, TextFault>
        ensures { Gives TextFault.NoMemory D.parts result (finished (reading D.parts self.section self.draft)) }
    {
        if self.section != Section::Ended {
            return Err(TextFault::Truncated);
        }
        match self.draft {
            Some(draft) => Ok(draft),
            None => Err(TextFault::TooLarge),
        }
    }

    /// The next line, without its newline; the answer is whether it is right there.
    fn accept(&mut self, line: &[u8]) -> Result<bool, NoMemory>
        ensures { IfOk result (λ right. after D.kind within_limit (reading D.parts self.old.section self.old.draft) line.now
            ≡ (if right then Some (reading D.parts self.new.section self.new.draft) else None)) }
    {
        match self.section {
            Section::First => Ok(self.first(line)),
            Section::Target => Ok(self.target(line)),
            Section::Cells(target) => Ok(self.cells(target, line)),
            Section::Inputs => self.behind_input(line),
            Section::Outputs => self.behind_output(line),
            Section::Instrs(left) => self.body(left, line),
            Section::Ended => Ok(false),
        }
    }

    /// The first line.
    fn first(&mut self, line: &[u8]) -> bool
        ensures { after_first D.kind (option_map D.parts self.old.draft) line.now
            ≡ (if result then Some (reading D.parts self.new.section self.new.draft) else None) }
    {
        if !is_text(line, D::first_line()) {
            return false;
        }
        self.section = match D::only_target() {
            Some(target) => Section::Cells(target),
            None => Section::Target,
        };
        true
    }

    /// The line of the target.
    fn target(&mut self, line: &[u8]) -> bool
        ensures { after_target (option_map D.parts self.old.draft) line.now
            ≡ (if result then Some (reading D.parts self.new.section self.new.draft) else None) }
    {
        let Some(target) = target(line) else {
            return false;
        };
        self.section = Section::Cells(target);
        true
    }

    /// The line of the number of cells, where the draft begins.
    fn cells(&mut self, target: Target, line: &[u8]) -> bool
        ensures { after_cells D.kind within_limit target line.now
            ≡ (if result then Some (reading D.parts self.new.section self.new.draft) else None) }
    {
        let Some(cells) = counted(b"cells ", line) else {
            return false;
        };
        self.section = Section::Inputs;
        self.draft = begun(self.alloc, target, cells);
        true
    }

    /// The line of an input.
    fn input(&mut self, line: &[u8]) -> Result<bool, NoMemory>
        ensures right { IfOk result (λ right. after_input (option_map D.parts self.old.draft) line.now
            ≡ (if right then Some (reading D.parts self.new.section self.new.draft) else None)) }
        ensures same { IfOk result (λ right. OnFalse right (self.new ≡ self.old)) }
    {
        let Some(port) = port(b"input ", line) else {
            return Ok(false);
        };
        self.section = Section::Inputs;
        put_input(&mut self.draft, port)?;
        Ok(true)
    }

    /// The line of an output.
    fn output(&mut self, line: &[u8]) -> Result<bool, NoMemory>
        ensures right { IfOk result (λ right. after_output (option_map D.parts self.old.draft) line.now
            ≡ (if right then Some (reading D.parts self.new.section self.new.draft) else None)) }
        ensures same { IfOk result (λ right. OnFalse right (self.new ≡ self.old)) }
    {
        let Some(port) = port(b"output ", line) else {
            return Ok(false);
        };
        self.section = Section::Outputs;
        put_output(&mut self.draft, port)?;
        Ok(true)
    }

    /// The line of the number of cycles.
    fn cycles(&mut self, line: &[u8]) -> bool
        ensures { after_cycles (option_map D.parts self.old.draft) line.now
            ≡ (if result then Some (reading D.parts self.new.section self.new.draft) else None) }
    {
        let Some(cycles) = counted(b"cycles ", line) else {
            return false;
        };
        self.section = Section::Instrs(cycles);
        true
    }

    /// A line behind an output.
    fn behind_output(&mut self, line: &[u8]) -> Result<bool, NoMemory>
        ensures { IfOk result (λ right. after_outputs (option_map D.parts self.old.draft) line.now
            ≡ (if right then Some (reading D.parts self.new.section self.new.draft) else None)) }
    {
        Ok(self.output(line)? || self.cycles(line))
    }

    /// A line behind the number of cells or an input.
    fn behind_input(&mut self, line: &[u8]) -> Result<bool, NoMemory>
        ensures { IfOk result (λ right. after_inputs (option_map D.parts self.old.draft) line.now
            ≡ (if right then Some (reading D.parts self.new.section self.new.draft) else None)) }
    {
        Ok(self.input(line)? || self.behind_output(line)?)
    }

    /// The last line.
    fn end(&mut self, line: &[u8]) -> bool
        ensures { after_end (option_map D.parts self.old.draft) line.now
            ≡ (if result then Some (reading D.parts self.new.section self.new.draft) else None) }
    {
        if !is_text(line, b"end") {
            return false;
        }
        self.section = Section::Ended;
        true
    }

    /// A line where so many instructions are left.
    fn body(&mut self, left: u32, line: &[u8]) -> Result<bool, NoMemory>
        ensures { IfOk result (λ right. after_instrs D.kind left (option_map D.parts self.old.draft) line.now
            ≡ (if right then Some (reading D.parts self.new.section self.new.draft) else None)) }
    {
        if left == 0 {
            return Ok(self.end(line));
        }
        let Some(instr) = D::instr(self.alloc, line)? else {
            return Ok(false);
        };
        self.section = Section::Instrs(left - 1);
        put(&mut self.draft, instr)?;
        Ok(true)
    }
}

/// A draft without ports and instructions, if it has not too many cells.
fn begun<D: Draft>(alloc: Global, target: Target, cells: u32) -> Option<D>
    ensures { option_map D.parts result ≡ within_limit (begun (aimed D.kind.target target) cells) }
{
    if cells > MAX_CELLS {
        return None;
    }
    Some(D::begun(alloc, target, cells))
}

/// Adds an input to a draft that is kept.
fn put_input<D: Draft>(draft: &mut Option<D>, port: PortLine) -> Result<(), NoMemory>
    requires label { IsLabel port.label.now }
    requires same { label_of port.label.now ≡ port.label.now }
    ensures { OnOk result (option_map D.parts draft.new ≡ option_map (with_input (port_view port.entry)) (option_map D.parts draft.old)) }
{
    match draft {
        Some(draft) => draft.put_input(port),
        None => Ok(()),
    }
}

/// Adds an output to a draft that is kept.
fn put_output<D: Draft>(draft: &mut Option<D>, port: PortLine) -> Result<(), NoMemory>
    requires label { IsLabel port.label.now }
    requires same { label_of port.label.now ≡ port.label.now }
    ensures { OnOk result (option_map D.parts draft.new ≡ option_map (with_output (port_view port.entry)) (option_map D.parts draft.old)) }
{
    match draft {
        Some(draft) => draft.put_output(port),
        None => Ok(()),
    }
}

/// Adds an instruction to a draft that is kept.
fn put<D: Draft>(draft: &mut Option<D>, instr: D::Instr) -> Result<(), NoMemory>
    ensures { OnOk result (option_map D.parts draft.new ≡ option_map (with_instr instr) (option_map D.parts draft.old)) }
{
    match draft {
        Some(draft) => draft.put(instr),
        None => Ok(()),
    }
}
