ghost use Rattle.std.specs.Prelude.{◌≡◌, ◌+◌, ◌*◌, ◌≤◌, ◌<◌, ◌^◌, ℕ, length, map, slice_index, IfOk, vec_len};
ghost use Rattle.pim_aig.specs.Graph.{IsAig};
ghost use Rattle.pim_nor.specs.Leaves.{leaves};
ghost use Rattle.pim_nor.specs.Lowered.{roots};
ghost use Rattle.pim_nor.specs.Named.{gate_at, slots};
ghost use Rattle.pim_nor.specs.Network.{pins, AreInputsOrFirst, IsInputOrFirst};
ghost use Rattle.pim_nor.specs.Reached.{kept, number, numbered, numbered_gate};

use crate::plan::Plan;
use crate::slots::source;
use crate::{Gate, Pin};
use pim_io::NoMemory;
use std::alloc::Global;
use std::marker::Model;

/// Which slots' gates are kept, and the number that each of them gets: how many kept gates stand before it.
#[derive(Drop)]
pub(crate) struct Kept {
    marks: Vec<bool>,
    numbers: Vec<u32>,
}

impl Model for Kept {
    ghost use Rattle.std.specs.Prelude.{◌≡◌, ◌<◌, ℕ, Bool, List, length, slice_index};
    ghost use Rattle.pim_nor.specs.Reached.{number};

    ghost Value = { List Bool };

    ghost view = { λ k. k.marks.items };

    ghost invariant = { λ k. (length k.numbers.items ≡ length k.marks.items)
        × ((s : ℕ) → s < length k.marks.items → slice_index k.numbers.items s ≡ number k.marks.items s) };
}

impl Kept {
    /// Numbers the marked slots. Linear in the slots.
    pub(crate) fn of(alloc: Global, marks: Vec<bool>) -> Result<Kept, NoMemory>
        requires { vec_len marks < 2 ^ 31 }
        ensures { IfOk result (λ kept. kept ≡ marks.items) }
    {
        let numbers = numbers(alloc, &marks)?;
        Ok(Kept { marks, numbers })
    }

    /// What a pin is in the network: an input stays, and a gate goes by its number.
    pub(crate) fn pin(&self, pin: Pin) -> Pin
        requires { IsInputOrFirst (length self.now) pin }
        ensures { result ≡ numbered self.now pin }
    {
        match pin {
            Pin::Input(input) => Pin::Input(input),
            Pin::Gate(slot) => Pin::Gate(self.numbers[slot as usize]),
        }
    }

    /// The gate that reads the same, by the numbers of the network.
    #[inline(always)]
    fn gate(&self, gate: Gate) -> Gate
        requires { AreInputsOrFirst (length self.now) (pins gate) }
        ensures { result ≡ numbered_gate self.now gate }
    {
        match gate {
            Gate::One => Gate::One,
            Gate::Not(a) => Gate::Not(self.pin(a)),
            Gate::Nor(a, b) => Gate::Nor(self.pin(a), self.pin(b)),
            Gate::Nor3(a, b, c) => Gate::Nor3(self.pin(a), self.pin(b), self.pin(c)),
            Gate::Nor4(a, b, c, d) => Gate::Nor4(
                self.pin(a),
                self.pin(b),
                self.pin(c),
                self.pin(d),
            ),
        }
    }

    /// The kept gates of a graph, each by its numbers. Linear in the slots.
    pub(crate) fn gates(&self, alloc: Global, plan: &Plan) -> Result<Vec<Gate>, NoMemory>
        requires { length self.now ≡ slots plan.now.graph }
        ensures { IfOk result (λ gates. gates.items
            ≡ kept (λ s. numbered_gate self.now
            (gate_at plan.now.graph (leaves plan.now.graph plan.now.width) s)) 0 self.now) }
    {
        let mut gates = Vec::new(alloc);
        for slot in 0..plan.slots() {
            if self.marks[slot as usize] {
                gates.push(self.gate(plan.gate_at(slot)))?;
            }
        }
        Ok(gates)
    }

    /// What the outputs of a graph read. Linear in the outputs.
    pub(crate) fn outs(&self, alloc: Global, plan: &Plan) -> Result<Vec<Pin>, NoMemory>
        requires { length self.now ≡ slots plan.now.graph }
        ensures { IfOk result (λ outs. outs.items ≡ map (numbered self.now) (roots plan.now.graph)) }
    {
        let aig = plan.aig();
        let inputs = aig.inputs();
        let mut outs = Vec::new(alloc);
        for out in aig.outputs() {
            outs.push(self.pin(source(inputs, *out)))?;
        }
        Ok(outs)
    }
}

/// How many marks stand before each.
fn numbers(alloc: Global, marks: &[bool]) -> Result<Vec<u32>, NoMemory>
    requires { length marks.now < 2 ^ 31 }
    ensures len { IfOk result (λ ns. vec_len ns ≡ length marks.now) }
    ensures counts { IfOk result
        (λ ns. (s : ℕ) → s < length marks.now → slice_index ns.items s ≡ number marks.now s) }
{
    let mut numbers = Vec::new(alloc);
    let mut count = 0;
    for marked in marks {
        numbers.push(count)?;
        if *marked {
            count += 1;
        }
    }
    Ok(numbers)
}
