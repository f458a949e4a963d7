ghost use Rattle.std.specs.Prelude.{◌≡◌, ℕ, ◌+◌, ◌*◌, ◌≤◌, ◌<◌, ◌^◌, [], ◌++◌, slice_index, OnOk};
ghost use Rattle.pim_aig.specs.Values.{literal_value, values_from};
ghost use Rattle.pim_io.specs.Lanes.{is_set};
ghost use Rattle.pim_prove.specs.Vectors.{digits};
ghost use Rattle.pim_prove.specs.inner.Comparing.{lanes_of, words_at, HasBlock};
ghost use Rattle.pim_prove.specs.declared.proving.TheConstants.{MAX_PROVE_INPUTS};

use crate::blocks::{BLOCK, both, flipped};
use crate::digits::fill_digits;
use pim_aig::{Aig, And, Lit};
use pim_io::NoMemory;
use std::alloc::Global;
use std::marker::Model;

/// The values of a graph's nodes for 64 vectors a word: some words for each node, a lane for each vector.
#[derive(Debug, Drop)]
pub(crate) struct Values {
    blocks: Vec<[u64; BLOCK]>,
}

impl Model for Values {
    ghost use Rattle.std.specs.Prelude.{ℕ, List};

    ghost Value = { List (List ℕ) };

    ghost view = { λ v. v.blocks.items };
}

impl Values {
    /// No values yet.
    pub(crate) fn new(alloc: Global) -> Values
        ensures { result ≡ [] }
    {
        Values {
            blocks: Vec::new(alloc),
        }
    }

    /// The values for the vectors from 64 times the first word's number on. Linear in the nodes.
    pub(crate) fn evaluate(&mut self, aig: &Aig, word: u32) -> Result<(), NoMemory>
        requires few { aig.now.inputs ≤ MAX_PROVE_INPUTS }
        requires room { word + BLOCK < 2 ^ 32 }
        ensures { OnOk result (HasBlock aig.now self.new word) }
    {
        self.blocks.clear();
        self.blocks.push([0; BLOCK])?;
        self.push_inputs(aig.inputs(), word)?;
        self.push_ands(aig.ands())
    }

    /// Appends the words of the inputs.
    fn push_inputs(&mut self, inputs: u32, word: u32) -> Result<(), NoMemory>
        requires few { inputs ≤ MAX_PROVE_INPUTS }
        requires room { word + BLOCK < 2 ^ 32 }
        ensures { OnOk result ((j r : ℕ) → j < BLOCK → r < 64
            → lanes_of (words_at self.new j) r ≡ lanes_of (words_at self.old j) r ++ digits inputs (64 * (word + j) + r)) }
    {
        let mut left = inputs;
        while left > 0 {
            left -= 1;
            self.blocks.push(digit_words(left, word))?;
        }
        Ok(())
    }

    /// Appends the words of the AND nodes.
    fn push_ands(&mut self, ands: &[And]) -> Result<(), NoMemory>
        ensures { OnOk result ((j r : ℕ) → j < BLOCK → r < 64
            → lanes_of (words_at self.new j) r ≡ values_from (lanes_of (words_at self.old j) r) ands.now) }
    {
        for and in ands {
            let block = both(self.literal(and.x), self.literal(and.y));
            self.blocks.push(block)?;
        }
        Ok(())
    }

    /// The values of a literal.
    fn literal(&self, literal: Lit) -> [u64; BLOCK]
        ensures { (j r : ℕ) → j < BLOCK → r < 64
            → is_set (slice_index result j) r ≡ literal_value (lanes_of (words_at self.now j) r) literal }
    {
        let block = self.node(literal.node());
        if literal.is_complemented() {
            flipped(block, u64::MAX)
        } else {
            block
        }
    }

    /// The values of a literal in one of the words.
    pub(crate) fn word(&self, literal: Lit, at: usize) -> u64
        requires { at < BLOCK }
        ensures { (r : ℕ) → r < 64 → is_set result r ≡ literal_value (lanes_of (words_at self.now at) r) literal }
    {
        let words = self.literal(literal);
        words[at]
    }

    /// The values of a node.
    fn node(&self, node: u32) -> [u64; BLOCK]
        ensures { (j : ℕ) → j < BLOCK → slice_index result j ≡ slice_index (words_at self.now j) node }
    {
        self.blocks
            .get(node as usize)
            .copied()
            .unwrap_or([0; BLOCK])
    }
}

/// The digit 2^k of the numbers of vectors, from 64 times the first word's number on.
fn digit_words(k: u32, word: u32) -> [u64; BLOCK]
    requires small { k < MAX_PROVE_INPUTS }
    requires room { word + BLOCK < 2 ^ 32 }
    ensures { (j r : ℕ) → j < BLOCK → r < 64 → is_set (slice_index result j) r ≡ is_set (64 * (word + j) + r) k }
{
    let mut words = [0; BLOCK];
    fill_digits(&mut words, k, word);
    words
}
