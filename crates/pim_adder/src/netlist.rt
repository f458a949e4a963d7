ghost use Rattle.std.specs.Prelude.{◌≡◌, ◌+◌, ◌*◌, ◌<◌, ◌≤◌, ◌++◌, [], length, map, IfOk, OnOk};
ghost use Rattle.std.specs.List.{flat_map, range_with_len};
ghost use Rattle.pim_net.specs.Netlist.{draft_of};
ghost use Rattle.pim_net.specs.WellFormed.{IsNet};
ghost use Rattle.pim_adder.specs.Adders.{adder, bit_equations, carry_equation, numbered, plain, sum, sum_equation};

use pim_io::NoMemory;
use pim_net::{Bit3, Cover, Draft, Net, OutRef, numbered};
use std::alloc::Global;

/// The most bits of a number.
pub const MAX_BITS: u32 = 64;

/// The netlist of an adder of two numbers of so many bits and a carry. Linear in the bits.
pub fn adder(alloc: Global, bits: u32) -> Result<Net, NoMemory>
    requires some { 0 < bits }
    requires few { bits ≤ MAX_BITS }
    ensures exact { IfOk result (λ net. draft_of net ≡ adder bits) }
    ensures checked { IfOk result IsNet }
{
    let mut draft = Draft::new(alloc);
    add_inputs(alloc, &mut draft, b'a', 0, bits)?;
    add_inputs(alloc, &mut draft, b'b', bits, bits)?;
    let carry = numbered(alloc, b'c', 0)?;
    draft.add_input(2 * bits, &carry)?;
    add_bits(alloc, &mut draft, bits)?;
    add_sums(alloc, &mut draft, bits)?;
    let carry = numbered(alloc, b'c', bits)?;
    let last = OutRef {
        sig: 2 * bits + 2 * bits,
        neg: false,
    };
    draft.add_output(last, &carry)?;
    match Net::check(alloc, draft) {
        Ok(net) => Ok(net),
        Err(_) => Err(NoMemory),
    }
}

/// Adds the bits of a number as inputs, by its letter, from the signal of its first bit on.
fn add_inputs(
    alloc: Global,
    draft: &mut Draft,
    letter: u8,
    start: u32,
    bits: u32,
) -> Result<(), NoMemory>
    requires few { bits ≤ MAX_BITS }
    requires low { start ≤ MAX_BITS }
    requires room { length draft.old.inputs ≤ MAX_BITS }
    ensures made { OnOk result (draft.new ≡ record draft.old {
      inputs = draft.old.inputs ++ range_with_len start bits;
      input_labels = draft.old.input_labels ++ map (numbered letter) (range_with_len 0 bits);
    }) }
    ensures count { OnOk result (length draft.new.inputs ≡ length draft.old.inputs + bits) }
{
    for k in 0..bits {
        let name = numbered(alloc, letter, k)?;
        draft.add_input(start + k, &name)?;
    }
    Ok(())
}

/// Adds the bits of the sum as outputs.
fn add_sums(alloc: Global, draft: &mut Draft, bits: u32) -> Result<(), NoMemory>
    requires few { bits ≤ MAX_BITS }
    requires none { draft.old.outputs ≡ [] }
    ensures { OnOk result (draft.new ≡ record draft.old {
      outputs = draft.old.outputs ++ map (λ i. plain (sum bits i)) (range_with_len 0 bits);
      output_labels = draft.old.output_labels ++ map (numbered 115) (range_with_len 0 bits);
    }) }
{
    for k in 0..bits {
        let name = numbered(alloc, b's', k)?;
        let out = OutRef {
            sig: 2 * bits + 2 * k + 1,
            neg: false,
        };
        draft.add_output(out, &name)?;
    }
    Ok(())
}

/// Adds the equations of all bits.
fn add_bits(alloc: Global, draft: &mut Draft, bits: u32) -> Result<(), NoMemory>
    requires few { bits ≤ MAX_BITS }
    requires none { draft.old.equations ≡ [] }
    ensures { OnOk result (draft.new ≡ record draft.old {
      equations = flat_map (bit_equations bits) (range_with_len 0 bits);
    }) }
{
    for i in 0..bits {
        let sum = sum_cover(alloc, bits, i)?;
        draft.add_cover(2 * bits + 2 * i + 1, sum)?;
        let carry = carry_cover(alloc, bits, i)?;
        draft.add_cover(2 * bits + 2 * (i + 1), carry)?;
    }
    Ok(())
}

/// The cover of bit i of the sum.
fn sum_cover(alloc: Global, bits: u32, i: u32) -> Result<Cover, NoMemory>
    requires few { bits ≤ MAX_BITS }
    requires within { i < bits }
    ensures { IfOk result (λ cover. cover ≡ (sum_equation bits i).cover) }
{
    let mut cover = Cover::new(alloc, &[i, bits + i, 2 * bits + 2 * i], true)?;
    cover.add_row(&[Bit3::One, Bit3::Zero, Bit3::Zero])?;
    cover.add_row(&[Bit3::Zero, Bit3::One, Bit3::Zero])?;
    cover.add_row(&[Bit3::Zero, Bit3::Zero, Bit3::One])?;
    cover.add_row(&[Bit3::One, Bit3::One, Bit3::One])?;
    Ok(cover)
}

/// The cover of the carry into bit i + 1.
fn carry_cover(alloc: Global, bits: u32, i: u32) -> Result<Cover, NoMemory>
    requires few { bits ≤ MAX_BITS }
    requires within { i < bits }
    ensures { IfOk result (λ cover. cover ≡ (carry_equation bits i).cover) }
{
    let mut cover = Cover::new(alloc, &[i, bits + i, 2 * bits + 2 * i], true)?;
    cover.add_row(&[Bit3::One, Bit3::One, Bit3::Any])?;
    cover.add_row(&[Bit3::One, Bit3::Any, Bit3::One])?;
    cover.add_row(&[Bit3::Any, Bit3::One, Bit3::One])?;
    Ok(cover)
}
