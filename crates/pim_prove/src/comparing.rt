ghost use Rattle.std.specs.Prelude.{◌≡◌, ℕ, ◌+◌, ◌*◌, ◌%◌, ◌<◌, ◌≤◌, ◌^◌, All, length, IfOk, OnOk};
ghost use Rattle.pim_aig.specs.Values.{literal_value, node_values};
ghost use Rattle.pim_io.specs.Lanes.{is_set};
ghost use Rattle.pim_isa.specs.Results.{load};
ghost use Rattle.pim_isa.specs.Sound.{cells_of};
ghost use Rattle.pim_isa.specs.Steps.{bit};
ghost use Rattle.pim_isa.specs.declared.target.Fill.TheVariants as fills;
ghost use Rattle.pim_lanes.specs.Banks.{row_of, SameFrame};
ghost use Rattle.pim_prove.specs.Vectors.{digits};
ghost use Rattle.pim_prove.specs.inner.Comparing.{HasBlock, HoldsBlock, IsFound, block_start, differ, first_unlike, lanes_of, row_at, words_at};
ghost use Rattle.pim_prove.specs.declared.proving.TheConstants.{MAX_PROVE_INPUTS};

use crate::blocks::BLOCK;
use crate::digits::fill_digits;
use crate::values::Values;
use pim_aig::{Aig, Lit};
use pim_io::NoMemory;
use pim_isa::{Fill, Port, Program};
use pim_lanes::{Bank, LARGE_WORDS, MAX_LARGE};
use std::alloc::Global;

/// A vector for which a program doesn't give what a graph gives, and the first output that isn't the same.
#[derive(Clone, Copy, Debug, PartialEq, Eq)]
pub(crate) struct Difference {
    pub(crate) vector: u32,
    pub(crate) output: u32,
}

/// The first vector for which the outputs of the program are not the graph's, if the cells that are no inputs hold zeros at the start.
pub(crate) fn first_difference(
    alloc: Global,
    program: &Program,
    aig: &Aig,
) -> Result<Option<Difference>, NoMemory>
    requires inputs { length program.now.inputs ≡ aig.now.inputs }
    requires outputs { length program.now.outputs ≡ length aig.now.outputs }
    requires few { aig.now.inputs ≤ MAX_PROVE_INPUTS }
    ensures { IfOk result (IsFound program.now aig.now 0 (2 ^ aig.now.inputs)) }
{
    let total = words_of(aig.inputs());
    let words = tile_words(program).min(total);
    let mut bank = Bank::new(alloc, program.cells(), words as usize)?;
    let mut column = vec![in alloc; 0; words as usize]?;
    let mut values = Values::new(alloc);
    let mut start = 0;
    while start < total {
        let found = compare_tile(program, aig, &mut bank, &mut column, &mut values, start)?;
        if found.is_some() {
            return Ok(found);
        }
        start += words;
    }
    Ok(None)
}

/// How many words have a lane for each vector of so many inputs.
fn words_of(inputs: u32) -> u32
    requires { inputs ≤ MAX_PROVE_INPUTS }
    ensures enough { 2 ^ inputs ≤ 64 * result }
    ensures few { result ≤ 2 ^ 14 }
    ensures some { 0 < result }
{
    if inputs < 6 { 1 } else { 1 << (inputs - 6) }
}

/// How many words of vectors are executed together: those of a large tile, or a block of them for a program with many cells.
fn tile_words(program: &Program) -> u32
    ensures few { result ≤ 64 }
    ensures some { 0 < result }
{
    if program.cells() <= MAX_LARGE {
        LARGE_WORDS as u32
    } else {
        BLOCK as u32
    }
}

/// Compares for the vectors of a tile, from 64 times the number of the first word on.
fn compare_tile(
    program: &Program,
    aig: &Aig,
    bank: &mut Bank,
    column: &mut [u64],
    values: &mut Values,
    start: u32,
) -> Result<Option<Difference>, NoMemory>
    requires inputs { length program.now.inputs ≡ aig.now.inputs }
    requires outputs { length program.now.outputs ≡ length aig.now.outputs }
    requires few { aig.now.inputs ≤ MAX_PROVE_INPUTS }
    requires cells { bank.old.cells ≡ program.now.cells }
    requires words { length column.old ≡ bank.old.words }
    requires room { 64 * (start + bank.old.words) < 2 ^ 32 }
    ensures found { IfOk result (IsFound program.now aig.now (64 * start) (64 * (start + bank.old.words))) }
    ensures frame { SameFrame bank.old bank.new }
{
    load_tile(bank, column, program, start);
    bank.run(program);
    for place in 0..column.len() {
        reach(aig, values, start, place)?;
        let word = start + place as u32;
        let found = compare_word(program, aig, bank, values, place, word);
        if found.is_some() {
            return Ok(found);
        }
    }
    Ok(None)
}

/// Makes the values those of the block that has the word at a place of a tile.
fn reach(aig: &Aig, values: &mut Values, start: u32, place: usize) -> Result<(), NoMemory>
    requires few { aig.now.inputs ≤ MAX_PROVE_INPUTS }
    requires room { start + place + BLOCK < 2 ^ 32 }
    requires held { HoldsBlock aig.now values.old start place }
    ensures { OnOk result (HasBlock aig.now values.new (block_start start place)) }
{
    if place % BLOCK != 0 {
        return Ok(());
    }
    values.evaluate(aig, start + place as u32)
}

/// Makes each row of a bank the row at the start for its vector.
fn load_tile(bank: &mut Bank, column: &mut [u64], program: &Program, start: u32)
    requires few { length program.now.inputs ≤ MAX_PROVE_INPUTS }
    requires cells { bank.old.cells ≡ program.now.cells }
    requires words { length column.old ≡ bank.old.words }
    requires room { start + bank.old.words < 2 ^ 32 }
    ensures rows { (r : ℕ) → r < 64 * bank.old.words
        → row_of bank.new r ≡ load program.now fills.Zeros (digits (length program.now.inputs) (64 * start + r)) }
    ensures frame { SameFrame bank.old bank.new }
{
    bank.fill(Fill::Zeros);
    let inputs = program.inputs();
    let mut left = inputs.len() as u32;
    for port in inputs {
        left -= 1;
        fill_digits(column, left, start);
        bank.put_column(port.cell, column);
    }
}

/// Compares for the vectors of one word, whose rows stand at a place of the bank.
fn compare_word(
    program: &Program,
    aig: &Aig,
    bank: &Bank,
    values: &Values,
    place: usize,
    word: u32,
) -> Option<Difference>
    requires outputs { length program.now.outputs ≡ length aig.now.outputs }
    requires cells { bank.now.cells ≡ program.now.cells }
    requires place { place < bank.now.words }
    requires room { 64 * word + 64 < 2 ^ 32 }
    requires rows { (r : ℕ) → r < 64 → row_of bank.now (64 * place + r) ≡ row_at program.now (64 * word + r) }
    requires values { (r : ℕ) → r < 64 → lanes_of (words_at values.now (place % BLOCK)) r ≡ node_values aig.now (digits aig.now.inputs (64 * word + r)) }
    ensures { IsFound program.now aig.now (64 * word) (64 * word + 64) result }
{
    let outputs = program.outputs();
    let literals = aig.outputs();
    let lanes = unlike_lanes(bank, outputs, literals, values, place);
    if lanes == 0 {
        return None;
    }
    let lane = lanes.trailing_zeros();
    let output = unlike_output(bank, outputs, literals, values, place, lane)?;
    let vector = 64 * word + lane;
    Some(Difference { vector, output })
}

/// The lanes in which an output of the bank's rows isn't that of the values.
fn unlike_lanes(
    bank: &Bank,
    outputs: &[Port],
    literals: &[Lit],
    values: &Values,
    place: usize,
) -> u64
    requires long { length outputs.now ≡ length literals.now }
    requires within { All (λ c. c < bank.now.cells) (cells_of outputs.now) }
    requires place { place < bank.now.words }
    ensures { (r : ℕ) → r < 64
        → is_set result r ≡ differ (bit (row_of bank.now (64 * place + r))) (literal_value (lanes_of (words_at values.now (place % BLOCK)) r)) outputs.now literals.now }
{
    let mut lanes = 0;
    for (k, port) in outputs.iter().enumerate() {
        lanes |= bank.column(port.cell)[place] ^ values.word(literals[k], place % BLOCK);
    }
    lanes
}

/// The first output that isn't the same in this lane.
fn unlike_output(
    bank: &Bank,
    outputs: &[Port],
    literals: &[Lit],
    values: &Values,
    place: usize,
    lane: u32,
) -> Option<u32>
    requires long { length outputs.now ≡ length literals.now }
    requires few { length outputs.now < 2 ^ 32 }
    requires within { All (λ c. c < bank.now.cells) (cells_of outputs.now) }
    requires place { place < bank.now.words }
    requires lane { lane < 64 }
    ensures { result ≡ first_unlike (bit (row_of bank.now (64 * place + lane))) (literal_value (lanes_of (words_at values.now (place % BLOCK)) lane)) 0
        outputs.now literals.now }
{
    for (k, port) in outputs.iter().enumerate() {
        let lanes = bank.column(port.cell)[place] ^ values.word(literals[k], place % BLOCK);
        if (lanes >> lane) & 1 == 1 {
            return Some(k as u32);
        }
    }
    None
}
