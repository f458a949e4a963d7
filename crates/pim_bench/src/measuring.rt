//! The text that tells of three programs.
ghost use Rattle.std.specs.Prelude.{◌≡◌, ◌+◌, ◌*◌, ◌<◌, ◌≤◌, ◌++◌, length, IfOk, OnOk};
ghost use Rattle.pim_adder.specs.declared.netlist.TheConstants.{MAX_BITS};
ghost use Rattle.pim_bench.specs.Summaries.{IsSummary, head_line, program_line};
ghost use Rattle.pim_bench.specs.Trials.{wrong_of};

use crate::compiled::{compiled, needed};
use crate::trial::{ROWS, count_wrong};
use pim_adder::adder;
use pim_io::NoMemory;
use pim_isa::{Program, Target};
use pim_text::Text;
use std::alloc::Global;

/// The cells that the wide program may use.
pub(crate) const WIDE_CELLS: u32 = 65_536;

/// Compiles the adder of numbers of so many bits three times, at level 0: for MAGIC with 65,536 cells and with those that it needs,
/// and for PLiM with those that it needs. Tries each program on 262,144 rows, 4,096 at a time. Tells the size of each, and how many
/// of the rows it answers wrongly. The only error is `NoMemory`.
pub fn measured(alloc: Global, bits: u32) -> Result<Vec<u8>, NoMemory>
    requires some { 0 < bits }
    requires few { bits ≤ MAX_BITS }
    ensures { IfOk result (λ text. IsSummary bits text.items) }
{
    let net = adder(alloc, bits)?;
    let tight_cells = needed(alloc, &net, bits, Target::Magic)?;
    let plim_cells = needed(alloc, &net, bits, Target::Plim)?;
    let wide = compiled(alloc, &net, bits, Target::Magic, WIDE_CELLS)?;
    let tight = compiled(alloc, &net, bits, Target::Magic, tight_cells)?;
    let plim = compiled(alloc, &net, bits, Target::Plim, plim_cells)?;
    let mut text = Text::new(alloc);
    add_head(&mut text, bits)?;
    add_program(alloc, &mut text, b"wide", &wide, bits)?;
    add_program(alloc, &mut text, b"tight", &tight, bits)?;
    add_program(alloc, &mut text, b"plim", &plim, bits)?;
    Ok(text.into_bytes())
}

/// Appends the first line.
fn add_head(text: &mut Text, bits: u32) -> Result<(), NoMemory>
    requires few { bits ≤ MAX_BITS }
    ensures { OnOk result (text.new ≡ text.old ++ head_line bits) }
{
    text.bytes(b"bench ")?;
    text.number(bits)?;
    text.bytes(b" inputs ")?;
    text.number(2 * bits + 1)?;
    text.bytes(b" outputs ")?;
    text.number(bits + 1)?;
    text.counted(b" rows ", ROWS)
}

/// Tries a program of the adder, and appends its line.
fn add_program(
    alloc: Global,
    text: &mut Text,
    name: &[u8],
    program: &Program,
    bits: u32,
) -> Result<(), NoMemory>
    requires some { 0 < bits }
    requires few { bits ≤ MAX_BITS }
    requires inputs { length program.now.inputs ≡ 2 * bits + 1 }
    requires outputs { length program.now.outputs ≡ bits + 1 }
    ensures { OnOk result (text.new ≡ text.old ++ program_line name.now program.now (wrong_of program.now bits)) }
{
    let wrong = count_wrong(alloc, program, bits)?;
    text.bytes(name)?;
    text.bytes(b" cells ")?;
    text.number(program.cells())?;
    text.bytes(b" cycles ")?;
    text.number(program.instrs().len() as u32)?;
    text.counted(b" wrong ", wrong)
}
