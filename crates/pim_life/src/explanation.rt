ghost use Rattle.std.specs.Prelude.{◌≡◌, ℕ, ◌++◌, ◌≤◌, length, decimal, IfOk, OnOk};
ghost use Rattle.std.specs.List.{flat_map};
ghost use Rattle.pim_life.specs.Explanations.{cell_text, end_text, explanation, life_text, start_text, summary_text};
ghost use Rattle.pim_life.specs.inner.Tracks.{track_lives, tracks_text};

use crate::life::{End, Life, Start};
use crate::track::Track;
use crate::tracks::Tracks;
use itoa::Buffer;
use pim_io::NoMemory;
use pim_isa::{MAX_CELLS, Program};
use std::alloc::Global;

/// The text that explains a program: a line for each cell that has a life, and a line of the numbers of cells and cycles. Linear
/// in the cells and in those that the instructions name.
pub fn explain(alloc: Global, program: &Program) -> Result<Vec<u8>, NoMemory>
    ensures { IfOk result (λ text. text.items ≡ explanation program.now) }
{
    let tracks = Tracks::follow(alloc, program)?;
    let mut text = Vec::new(alloc);
    push_cells(&mut text, tracks.list())?;
    push_summary(&mut text, program.cells(), program.instrs().len() as u32)?;
    Ok(text)
}

/// A number in decimal, without leading zeros.
pub(crate) fn push_number(text: &mut Vec<u8>, number: u32) -> Result<(), NoMemory>
    ensures { OnOk result (text.new.items ≡ text.old.items ++ decimal number) }
{
    let mut digits = Buffer::new();
    text.extend_from_slice(digits.format(number).as_bytes())?;
    Ok(())
}

/// Where a life begins.
fn push_start(text: &mut Vec<u8>, start: Start) -> Result<(), NoMemory>
    ensures { OnOk result (text.new.items ≡ text.old.items ++ start_text start) }
{
    match start {
        Start::Load => text.extend_from_slice(b"in")?,
        Start::At(place) => push_number(text, place)?,
    }
    Ok(())
}

/// Where a life ends.
fn push_end(text: &mut Vec<u8>, end: End) -> Result<(), NoMemory>
    ensures { OnOk result (text.new.items ≡ text.old.items ++ end_text end) }
{
    match end {
        End::Unread => text.extend_from_slice(b"-")?,
        End::Read(place) => push_number(text, place)?,
        End::Output => text.extend_from_slice(b"out")?,
    }
    Ok(())
}

/// A life, after a space.
fn push_life(text: &mut Vec<u8>, life: Life) -> Result<(), NoMemory>
    ensures { OnOk result (text.new.items ≡ text.old.items ++ life_text life) }
{
    text.extend_from_slice(b" ")?;
    push_start(text, life.start)?;
    text.extend_from_slice(b"..")?;
    push_end(text, life.end)
}

/// Lives, one after another.
fn push_lives(text: &mut Vec<u8>, lives: &[Life]) -> Result<(), NoMemory>
    ensures { OnOk result (text.new.items ≡ text.old.items ++ flat_map life_text lives.now) }
{
    for life in lives {
        push_life(text, *life)?;
    }
    Ok(())
}

/// The lives of one cell.
fn push_track(text: &mut Vec<u8>, track: &Track) -> Result<(), NoMemory>
    ensures { OnOk result (text.new.items ≡ text.old.items ++ flat_map life_text (track_lives track.now)) }
{
    push_lives(text, track.past())?;
    if let Some(life) = track.current() {
        push_life(text, life)?;
    }
    Ok(())
}

/// The line of a cell, if it has a life.
fn push_cell(text: &mut Vec<u8>, cell: u32, track: &Track) -> Result<(), NoMemory>
    ensures { OnOk result (text.new.items ≡ text.old.items ++ cell_text cell (track_lives track.now)) }
{
    if track.is_unused() {
        return Ok(());
    }
    text.extend_from_slice(b"cell ")?;
    push_number(text, cell)?;
    text.extend_from_slice(b":")?;
    push_track(text, track)?;
    text.extend_from_slice(b"\n")?;
    Ok(())
}

/// The lines of the cells, from the first on.
fn push_cells(text: &mut Vec<u8>, tracks: &[Track]) -> Result<(), NoMemory>
    requires { length tracks.now ≤ MAX_CELLS }
    ensures { OnOk result (text.new.items ≡ text.old.items ++ tracks_text 0 tracks.now) }
{
    for (cell, track) in tracks.iter().enumerate() {
        push_cell(text, cell as u32, track)?;
    }
    Ok(())
}

/// The last line: the numbers of cells and of cycles.
fn push_summary(text: &mut Vec<u8>, cells: u32, cycles: u32) -> Result<(), NoMemory>
    ensures { OnOk result (text.new.items ≡ text.old.items ++ summary_text cells cycles) }
{
    text.extend_from_slice(b"cells ")?;
    push_number(text, cells)?;
    text.extend_from_slice(b" cycles ")?;
    push_number(text, cycles)?;
    text.extend_from_slice(b"\n")?;
    Ok(())
}
