ghost use Rattle.std.specs.Prelude.{◌≡◌, ◌++◌, IfOk, OnOk};
ghost use Rattle.std.specs.List.{flat_map};
ghost use Rattle.pim_life.specs.Lives.{lives_of};
ghost use Rattle.pim_life.specs.inner.Tracks.{track_lives};

use crate::life::Life;
use crate::track::Track;
use crate::tracks::Tracks;
use pim_io::NoMemory;
use pim_isa::Program;
use std::alloc::Global;

/// The lives of a program's cells, by rising cell, and for one cell by their start. Linear in the cells and in those that the
/// instructions name.
pub fn lives(alloc: Global, program: &Program) -> Result<Vec<Life>, NoMemory>
    ensures { IfOk result (λ lives. lives.items ≡ lives_of program.now) }
{
    let tracks = Tracks::follow(alloc, program)?;
    let mut lives = Vec::new(alloc);
    push_all(&mut lives, tracks.list())?;
    Ok(lives)
}

/// Appends the lives of the cells.
fn push_all(lives: &mut Vec<Life>, tracks: &[Track]) -> Result<(), NoMemory>
    ensures { OnOk result (lives.new.items ≡ lives.old.items ++ flat_map track_lives tracks.now) }
{
    for track in tracks {
        push_lives(lives, track)?;
    }
    Ok(())
}

/// Appends the lives of one cell.
fn push_lives(lives: &mut Vec<Life>, track: &Track) -> Result<(), NoMemory>
    ensures { OnOk result (lives.new.items ≡ lives.old.items ++ track_lives track.now) }
{
    lives.extend_from_slice(track.past())?;
    if let Some(life) = track.current() {
        lives.push(life)?;
    }
    Ok(())
}
