ghost use Rattle.std.specs.Prelude.{◌≡◌, ◌==◌, length, OnOk};
ghost use Rattle.pim_life.specs.inner.Tracks.{blank, ended, loaded, track_lives, written};

use crate::life::{End, Life, Start};
use pim_io::NoMemory;
use std::alloc::Global;
use std::marker::Model;

/// The lives of one cell as they are found: those that are over, and the one that may go on.
#[derive(Debug, Drop)]
pub(crate) struct Track {
    past: Vec<Life>,
    current: Option<Life>,
}

impl Model for Track {
    ghost use Rattle.pim_life.specs.inner.Tracks.{TrackView};

    ghost Value = { TrackView };

    ghost view = { λ t. record { past = t.past.items; current = t.current } };
}

impl Track {
    /// A cell before its first life. Takes no memory.
    pub(crate) fn new(alloc: Global) -> Track
        ensures { result ≡ blank }
    {
        Track {
            past: Vec::new(alloc),
            current: None,
        }
    }

    /// The cell holds an input's bit.
    pub(crate) fn load(&mut self, cell: u32)
        ensures { self.new ≡ loaded cell self.old }
    {
        self.current = Some(Life {
            cell,
            start: Start::Load,
            end: End::Unread,
        });
    }

    /// The instruction at this place writes the cell.
    pub(crate) fn write(&mut self, place: u32, cell: u32) -> Result<(), NoMemory>
        ensures { OnOk result (self.new ≡ written place cell self.old) }
    {
        if let Some(life) = self.current {
            self.past.push(life)?;
        }
        self.current = Some(Life {
            cell,
            start: Start::At(place),
            end: End::Unread,
        });
        Ok(())
    }

    /// The current life, if there is one, ends so as far as is known.
    pub(crate) fn end(&mut self, end: End)
        ensures { self.new ≡ ended end self.old }
    {
        if let Some(life) = &mut self.current {
            life.end = end;
        }
    }

    /// Whether the cell has no life so far.
    pub(crate) fn is_unused(&self) -> bool
        ensures { result ≡ (length (track_lives self.now) == 0) }
    {
        self.past.is_empty() && self.current.is_none()
    }

    /// The lives that are over, in order.
    pub(crate) fn past(&self) -> &[Life]
        ensures { result.now ≡ self.now.past }
    {
        self.past.as_slice()
    }

    /// The life that may go on, if there is one.
    pub(crate) fn current(&self) -> Option<Life>
        ensures { result ≡ self.now.current }
    {
        self.current
    }
}
