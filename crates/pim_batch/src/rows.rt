ghost use Rattle.std.specs.Prelude.{◌≡◌, ℕ, ◌+◌, ◌*◌, ◌<◌, ◌≤◌, length, map};
ghost use Rattle.pim_isa.specs.Results.{load};
ghost use Rattle.pim_isa.specs.Steps.{bit};
ghost use Rattle.pim_lanes.specs.Banks.{row_of, SameFrame};
ghost use Rattle.pim_vectors.specs.Tiles.{vector_of};

use pim_isa::{Fill, Program};
use pim_lanes::Bank;
use pim_vectors::Tile;

/// Makes each row of a bank the row at the start for that row's vector.
pub fn load_vectors(bank: &mut Bank, program: &Program, fill: Fill, vectors: &Tile)
    requires cells { bank.old.cells ≡ program.now.cells }
    requires columns { vectors.now.columns ≡ length program.now.inputs }
    requires words { vectors.now.words ≡ bank.old.words }
    ensures rows { (r : ℕ) → r < 64 * bank.old.words → row_of bank.new r ≡ load program.now fill (vector_of vectors.now r) }
    ensures frame { SameFrame bank.old bank.new }
{
    load_lanes(bank, program, fill, vectors, 0);
}

/// The same for the vector in one of a tile's lanes, from the first lane of a word on.
pub(crate) fn load_lanes(
    bank: &mut Bank,
    program: &Program,
    fill: Fill,
    vectors: &Tile,
    first: usize,
)
    requires cells { bank.old.cells ≡ program.now.cells }
    requires columns { vectors.now.columns ≡ length program.now.inputs }
    requires there { first + bank.old.words ≤ vectors.now.words }
    ensures rows { (r : ℕ) → r < 64 * bank.old.words
        → row_of bank.new r ≡ load program.now fill (vector_of vectors.now (64 * first + r)) }
    ensures frame { SameFrame bank.old bank.new }
{
    bank.fill(fill);
    let words = bank.words();
    for (k, port) in program.inputs().iter().enumerate() {
        bank.put_column(port.cell, &vectors.column(k as u32)[first..][..words]);
    }
}

/// Makes each row of a tile the bits of the output cells in that row of a bank.
pub fn gather_results(results: &mut Tile, program: &Program, bank: &Bank)
    requires cells { bank.now.cells ≡ program.now.cells }
    requires columns { results.old.columns ≡ length program.now.outputs }
    requires words { results.old.words ≡ bank.now.words }
    ensures rows { (r : ℕ) → r < 64 * bank.now.words
        → vector_of results.new r ≡ map (λ o. bit (row_of bank.now r) o.cell) program.now.outputs }
    ensures columns { results.new.columns ≡ results.old.columns }
    ensures words { results.new.words ≡ results.old.words }
{
    for (k, port) in program.outputs().iter().enumerate() {
        results.put_column(k as u32, bank.column(port.cell));
    }
}
