ghost use Rattle.std.specs.Prelude.{◌≡◌, ℕ, ◌≤◌, [], ◌∷◌, length, map, replicate, IfOk, OnOk};
ghost use Rattle.std.specs.List.{range_with_len};
ghost use Rattle.pim_isa.specs.Sound.{cells_of};
ghost use Rattle.pim_isa.specs.Touches.{operands, operand_cells};
ghost use Rattle.pim_life.specs.declared.life.End.TheVariants as ends;
ghost use Rattle.pim_life.specs.Lives.{cell_lives};
ghost use Rattle.pim_life.specs.inner.Tracks.{after_instr, after_instrs, all_ended, all_loaded, all_written, blank, track_lives, tracks_of};

use crate::life::End;
use crate::track::Track;
use pim_io::NoMemory;
use pim_isa::{Ins, Instr, MAX_CELLS, MAX_INSTRS, Operand, Port, Program};
use std::alloc::Global;
use std::marker::Model;

/// The track of each cell of a row.
#[derive(Debug, Drop)]
pub(crate) struct Tracks {
    tracks: Vec<Track>,
}

impl Model for Tracks {
    ghost use Rattle.std.specs.Prelude.{List};
    ghost use Rattle.pim_life.specs.inner.Tracks.{TrackView};

    ghost Value = { List TrackView };

    ghost view = { λ t. t.tracks.items };
}

impl Tracks {
    /// The tracks of a program's cells, with all their lives. Linear in the cells and in those that the instructions name.
    pub(crate) fn follow(alloc: Global, program: &Program) -> Result<Tracks, NoMemory>
        ensures tracks { IfOk result (λ tracks. tracks ≡ tracks_of program.now) }
        ensures few { IfOk result (λ tracks. length tracks ≤ MAX_CELLS) }
        ensures lives { IfOk result (λ tracks.
            map track_lives tracks ≡ map (cell_lives program.now) (range_with_len 0 program.now.cells)) }
    {
        let mut tracks = Tracks::new(alloc, program.cells())?;
        tracks.load(program.inputs());
        tracks.execute(program.instrs())?;
        tracks.put_out(program.outputs());
        Ok(tracks)
    }

    /// So many cells before their first lives.
    fn new(alloc: Global, cells: u32) -> Result<Tracks, NoMemory>
        ensures { IfOk result (λ tracks. tracks ≡ replicate cells blank) }
    {
        let mut tracks = Vec::with_capacity(alloc, cells as usize)?;
        for _cell in 0..cells {
            tracks.push(Track::new(alloc))?;
        }
        Ok(Tracks { tracks })
    }

    /// The cells of the inputs hold their bits.
    fn load(&mut self, inputs: &[Port])
        ensures { self.new ≡ all_loaded (cells_of inputs.now) self.old }
    {
        for port in inputs {
            self.load_cell(port.cell);
        }
    }

    /// The cell holds an input's bit.
    fn load_cell(&mut self, cell: u32)
        ensures { self.new ≡ all_loaded (cell ∷ []) self.old }
    {
        if let Some(track) = self.tracks.get_mut(cell as usize) {
            track.load(cell);
        }
    }

    /// The cells of the outputs are read at the end.
    fn put_out(&mut self, outputs: &[Port])
        ensures { self.new ≡ all_ended ends.Output (cells_of outputs.now) self.old }
    {
        for port in outputs {
            self.end(End::Output, port.cell);
        }
    }

    /// The current life of the cell ends so as far as is known.
    fn end(&mut self, end: End, cell: u32)
        ensures { self.new ≡ all_ended end (cell ∷ []) self.old }
    {
        if let Some(track) = self.tracks.get_mut(cell as usize) {
            track.end(end);
        }
    }

    /// The instruction at this place writes the cell.
    fn write(&mut self, place: u32, cell: u32) -> Result<(), NoMemory>
        ensures { OnOk result (self.new ≡ all_written place (cell ∷ []) self.old) }
    {
        if let Some(track) = self.tracks.get_mut(cell as usize) {
            track.write(place, cell)?;
        }
        Ok(())
    }

    /// The instruction at this place writes the cells.
    fn write_all(&mut self, place: u32, cells: &[u32]) -> Result<(), NoMemory>
        ensures { OnOk result (self.new ≡ all_written place cells.now self.old) }
    {
        for cell in cells {
            self.write(place, *cell)?;
        }
        Ok(())
    }

    /// The instruction at this place reads the operands of a NOR.
    fn read_operands(&mut self, place: u32, ins: Ins)
        ensures { self.new ≡ all_ended (ends.Read place) (operands ins) self.old }
    {
        let end = End::Read(place);
        match ins {
            Ins::One(a) => self.end(end, a),
            Ins::Two(a, b) => {
                self.end(end, a);
                self.end(end, b);
            }
            Ins::Three(a, b, c) => {
                self.end(end, a);
                self.end(end, b);
                self.end(end, c);
            }
            Ins::Four(a, b, c, d) => {
                self.end(end, a);
                self.end(end, b);
                self.end(end, c);
                self.end(end, d);
            }
        }
    }

    /// The instruction at this place reads an operand of an RM3, if that is a cell.
    fn read_operand(&mut self, place: u32, operand: Operand)
        ensures { self.new ≡ all_ended (ends.Read place) (operand_cells operand) self.old }
    {
        if let Operand::Cell(cell) = operand {
            self.end(End::Read(place), cell);
        }
    }

    /// The instruction at this place: what it reads is read before its cells are written.
    fn step(&mut self, place: u32, instr: &Instr) -> Result<(), NoMemory>
        ensures { OnOk result (self.new ≡ after_instr place instr.now self.old) }
    {
        match instr {
            Instr::Init(cells) => self.write_all(place, cells.list()),
            Instr::Nor { t, ins } => {
                self.read_operands(place, *ins);
                self.write(place, *t)
            }
            Instr::Rm3 { p, q, z } => {
                self.end(End::Read(place), *z);
                self.read_operand(place, *p);
                self.read_operand(place, *q);
                self.write(place, *z)
            }
        }
    }

    /// The instructions, from the first on.
    fn execute(&mut self, instrs: &[Instr]) -> Result<(), NoMemory>
        requires { length instrs.now ≤ MAX_INSTRS }
        ensures { OnOk result (self.new ≡ after_instrs 0 instrs.now self.old) }
    {
        for (place, instr) in instrs.iter().enumerate() {
            self.step(place as u32, instr)?;
        }
        Ok(())
    }

    /// The tracks by cell.
    pub(crate) fn list(&self) -> &[Track]
        ensures { result.now ≡ self.now }
    {
        self.tracks.as_slice()
    }
}
