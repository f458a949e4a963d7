ghost use Rattle.std.specs.Prelude.{◌≡◌, ◌≢◌, ℕ, ◌+◌, ◌-◌, ◌<◌, ◌≤◌, ◌&&◌, ◌||◌, not, true, false, List, length, replicate, slice_set, IfOk, All};
ghost use Rattle.pim_isa.specs.Steps.{bit, majority, set_ones, step, exec};
ghost use Rattle.pim_isa.specs.Results.{fill_bit};
ghost use Rattle.pim_io.specs.Lanes.{lane};
ghost use Rattle.pim_lanes.specs.Banks.{column_of, column_at, with_column, row_of, IsRow, SameFrame, FitsCells, place_of, fill_word};

use crate::columns;
use crate::parts::part_mut;
use pim_io::NoMemory;
use pim_isa::{Fill, Ins, Instr, MAX_CELLS, Operand, Program};
use std::alloc::Global;
use std::marker::Model;

/// Rows of cells side by side: a column of words for each cell, with a lane of each column for each row. One list has all
/// columns. A column of zeros and a column of ones, which are never written, stand first in it; they are told as the two columns
/// behind those of the cells.
#[derive(Debug, Drop)]
pub struct Bank {
    buffer: Vec<u64>,
    cells: u32,
    words: usize,
}

impl Model for Bank {
    ghost use Rattle.pim_io.specs.Lanes.{lane};
    ghost use Rattle.std.specs.Prelude.{◌*◌, drop};
    ghost use Rattle.pim_lanes.specs.Banks.{BankView, IsBuffer};

    ghost Value = { BankView };

    ghost view = { λ b. record { cells = b.cells; words = b.words; buffer = drop (2 * b.words) b.buffer.items } };

    ghost invariant = { λ b. IsBuffer b.cells b.words b.buffer.items };
}

impl Bank {
    ghost use Rattle.std.specs.Borrow.{sem};
    ghost use Rattle.pim_lanes.specs.Lending.{LendsColumn};

    /// A bank of that many cells, and 64 rows for each word of a column, all zero. Takes memory for the cells and the two
    /// constant columns at once.
    pub fn new(alloc: Global, cells: u32, words: usize) -> Result<Bank, NoMemory>
        requires small { cells ≤ MAX_CELLS }
        requires short { words ≤ 64 }
        ensures cells { IfOk result (λ bank. bank.cells ≡ cells) }
        ensures words { IfOk result (λ bank. bank.words ≡ words) }
        ensures rows { IfOk result (λ bank. (r : ℕ) → IsRow bank r → row_of bank r ≡ replicate cells false) }
    {
        let columns = cells as usize + 2;
        let mut buffer = vec![in alloc; 0; columns * words]?;
        columns::fill_column(&mut buffer, words, 1, u64::MAX);
        Ok(Bank {
            buffer,
            cells,
            words,
        })
    }

    /// How many words a column has.
    pub fn words(&self) -> usize
        ensures { result ≡ self.now.words }
    {
        self.words
    }

    /// Fills all cells of all rows. Linear in the cells and words.
    pub fn fill(&mut self, fill: Fill)
        ensures rows { (r : ℕ) → IsRow self.old r → row_of self.new r ≡ replicate self.old.cells (fill_bit fill) }
        ensures frame { SameFrame self.old self.new }
    {
        columns::fill_columns(&mut self.buffer, self.words, 2, fill_word(fill));
    }

    /// The words of a cell's column, or of the column of zeros or of ones behind the cells.
    pub fn column(&self, c: u32) -> &[u64]
        requires { c < self.now.cells + 2 }
        ensures value { result.now ≡ column_of self.now c }
        ensures long { length result.now ≡ self.now.words }
        ensures lanes { c < self.now.cells → (r : ℕ) → IsRow self.now r → lane result.now r ≡ bit (row_of self.now r) c }
    {
        let start = place_in(self.cells, c) * self.words;
        &self.buffer[start..start + self.words]
    }

    /// The words of a cell's column, for writing.
    pub fn column_mut(&mut self, c: u32) -> &mut [u64]
        requires { c < self.old.cells }
        ensures* lends { sem 𝓛 (LendsColumn self.entry c result) }
        ensures value { result.now ≡ column_of self.old c }
        ensures long { length result.now ≡ self.old.words }

        // What the rows are then.
        ensures rows { (column : List ℕ) → length column ≡ self.old.words → (r : ℕ) → IsRow self.old r
            → row_of (with_column self.old c column) r ≡ slice_set (row_of self.old r) c (lane column r) }
    {
        let start = (c as usize + 2) * self.words;
        let end = start + self.words;
        self.buffer.slice_mut(start..end)
    }

    /// The words of the column of cell t, for writing, and those of two other columns, for reading, all in the bank's one list. A
    /// column for reading is a cell's, or the column of zeros or of ones behind the cells; the two may be one.
    pub fn triple(&mut self, t: u32, a: u32, b: u32) -> (&mut [u64], &[u64], &[u64])
        requires t_within { t < self.old.cells }
        requires a_within { a < self.old.cells + 2 }
        requires b_within { b < self.old.cells + 2 }
        requires a_apart { a ≢ t }
        requires b_apart { b ≢ t }
        ensures* lends { sem 𝓛 (LendsColumn self.entry t result.0) }
        ensures target { result.0.now ≡ column_of self.old t }
        ensures first { result.1.now ≡ column_of self.old a }
        ensures second { result.2.now ≡ column_of self.old b }
        ensures target_long { length result.0.now ≡ self.old.words }
        ensures first_long { length result.1.now ≡ self.old.words }
        ensures second_long { length result.2.now ≡ self.old.words }

        // What the rows are then.
        ensures rows { (column : List ℕ) → length column ≡ self.old.words → (r : ℕ) → IsRow self.old r
            → row_of (with_column self.old t column) r ≡ slice_set (row_of self.old r) t (lane column r) }
    {
        let words = self.words;
        let place = t as usize + 2;
        let first = place_in(self.cells, a);
        let second = place_in(self.cells, b);
        let start = place * words;
        let (target, below, above) = part_mut(&mut self.buffer, start, start + words);
        (
            target,
            columns::column_beside(below, above, words, place, first),
            columns::column_beside(below, above, words, place, second),
        )
    }

    /// Writes the words of a cell's column. Linear in the words.
    pub fn put_column(&mut self, c: u32, words: &[u64])
        requires cell { c < self.old.cells }
        requires long { length words.now ≡ self.old.words }
        ensures rows { (r : ℕ) → IsRow self.old r → row_of self.new r ≡ slice_set (row_of self.old r) c (lane words.now r) }
        ensures frame { SameFrame self.old self.new }
    {
        columns::put_column(&mut self.buffer, self.words, c as usize + 2, words);
    }

    /// Executes one instruction in every row, as the machine does in one row. The cost is a kernel's for each cell that an
    /// Init names, one kernel for a NOR of one or two operands and for an RM3, and two kernels for other NORs.
    pub fn apply(&mut self, instr: &Instr)
        requires { FitsCells self.old.cells instr.now }
        ensures rows { (r : ℕ) → IsRow self.old r → row_of self.new r ≡ step (row_of self.old r) instr.now }
        ensures frame { SameFrame self.old self.new }
    {
        match instr {
            Instr::Init(cells) => self.init(cells.list()),
            Instr::Nor { t, ins } => self.nor(*t, *ins),
            Instr::Rm3 { p, q, z } => self.rm3(*p, *q, *z),
        }
    }

    /// Executes the instructions of a program in every row, as the machine does in one row. The cost is that of `apply` for each.
    pub fn run(&mut self, program: &Program)
        requires { program.now.cells ≤ self.old.cells }
        ensures rows { (r : ℕ) → IsRow self.old r → row_of self.new r ≡ exec program.now.instrs (row_of self.old r) }
        ensures frame { SameFrame self.old self.new }
    {
        for instr in program.instrs() {
            self.apply(instr);
        }
    }

    /// Sets cells to one.
    fn init(&mut self, cells: &[u32])
        requires { All (λ c. c < self.old.cells) cells.now }
        ensures rows { (r : ℕ) → IsRow self.old r → row_of self.new r ≡ set_ones cells.now (row_of self.old r) }
        ensures frame { SameFrame self.old self.new }
    {
        for cell in cells {
            self.set(*cell);
        }
    }

    /// Executes a NOR of one to four operands. The third and the fourth are a second NOR into what the first one left.
    fn nor(&mut self, t: u32, ins: Ins)
        requires { FitsCells self.old.cells (Instr.Nor t ins) }
        ensures rows { (r : ℕ) → IsRow self.old r → row_of self.new r ≡ step (row_of self.old r) (Instr.Nor t ins) }
        ensures frame { SameFrame self.old self.new }
    {
        match ins {
            Ins::One(a) => self.nor1(t, a),
            Ins::Two(a, b) => self.nor2(t, a, b),
            Ins::Three(a, b, c) => {
                self.nor2(t, a, b);
                self.nor1(t, c);
            }
            Ins::Four(a, b, c, d) => {
                self.nor2(t, a, b);
                self.nor2(t, c, d);
            }
        }
    }

    /// Executes an RM3. A constant operand is the column of zeros or of ones.
    fn rm3(&mut self, p: Operand, q: Operand, z: u32)
        requires { FitsCells self.old.cells (Instr.Rm3 p q z) }
        ensures rows { (r : ℕ) → IsRow self.old r → row_of self.new r ≡ step (row_of self.old r) (Instr.Rm3 p q z) }
        ensures frame { SameFrame self.old self.new }
    {
        self.rm3_columns(place_of(p), place_of(q), z);
    }

    /// Sets a cell to one.
    fn set(&mut self, t: u32)
        requires { t < self.old.cells }
        ensures rows { (r : ℕ) → IsRow self.old r → row_of self.new r ≡ slice_set (row_of self.old r) t true }
        ensures frame { SameFrame self.old self.new }
    {
        columns::set_column(&mut self.buffer, self.words, t as usize + 2);
    }

    /// Executes a NOR of one cell.
    fn nor1(&mut self, t: u32, a: u32)
        requires t_within { t < self.old.cells }
        requires a_within { a < self.old.cells }
        requires a_apart { a ≢ t }
        ensures rows { (r : ℕ) → IsRow self.old r → row_of self.new r ≡ slice_set (row_of self.old r) t
            (bit (row_of self.old r) t && not (bit (row_of self.old r) a)) }
        ensures frame { SameFrame self.old self.new }
    {
        columns::nor1_column(&mut self.buffer, self.words, t as usize + 2, a as usize + 2);
    }

    /// Executes a NOR of two cells.
    fn nor2(&mut self, t: u32, a: u32, b: u32)
        requires t_within { t < self.old.cells }
        requires a_within { a < self.old.cells }
        requires b_within { b < self.old.cells }
        requires a_apart { a ≢ t }
        requires b_apart { b ≢ t }
        ensures rows { (r : ℕ) → IsRow self.old r → row_of self.new r ≡ slice_set (row_of self.old r) t
            (bit (row_of self.old r) t && not (bit (row_of self.old r) a || bit (row_of self.old r) b)) }
        ensures frame { SameFrame self.old self.new }
    {
        columns::nor2_column(
            &mut self.buffer,
            self.words,
            t as usize + 2,
            a as usize + 2,
            b as usize + 2,
        );
    }

    /// Executes an RM3 of the columns at two places on a cell.
    fn rm3_columns(&mut self, p: usize, q: usize, z: u32)
        requires z_within { z < self.old.cells }
        requires p_within { p < self.old.cells + 2 }
        requires q_within { q < self.old.cells + 2 }
        requires p_apart { p ≢ z + 2 }
        requires q_apart { q ≢ z + 2 }
        ensures rows { (r : ℕ) → IsRow self.old r → row_of self.new r ≡ slice_set (row_of self.old r) z
            (majority (lane (column_at self.old p) r) (not (lane (column_at self.old q) r)) (bit (row_of self.old r) z)) }
        ensures frame { SameFrame self.old self.new }
    {
        columns::rm3_column(&mut self.buffer, self.words, z as usize + 2, p, q);
    }
}

/// Where the column of an operand stands.
fn place_of(operand: Operand) -> usize
    ensures { result ≡ place_of operand }
{
    match operand {
        Operand::Zero => 0,
        Operand::One => 1,
        Operand::Cell(c) => c as usize + 2,
    }
}

/// Where column c stands in a bank of so many cells.
fn place_in(cells: u32, c: u32) -> usize
    ensures cell { c < cells → result ≡ c + 2 }
    ensures constant { cells ≤ c → result ≡ c - cells }
{
    if c < cells {
        return c as usize + 2;
    }
    (c - cells) as usize
}

/// The word that fills a column.
fn fill_word(fill: Fill) -> u64
    ensures { result ≡ fill_word fill }
{
    match fill {
        Fill::Zeros => 0,
        Fill::Ones => u64::MAX,
    }
}
