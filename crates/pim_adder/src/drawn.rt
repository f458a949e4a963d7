ghost use Rattle.std.specs.Prelude.{◌≡◌, ◌+◌, ◌*◌, ◌<◌, ◌≤◌, length};
ghost use Rattle.pim_adder.specs.Drawn.{after, digits, draw, row_line, row_sum};
ghost use Rattle.pim_adder.specs.declared.netlist.TheConstants.{MAX_BITS};

use std::marker::Model;

/// Random rows for an adder, from a fixed seed, one after another and without an end. They take no memory.
#[derive(Debug, Drop)]
pub struct Rows {
    bits: u32,
    state: u64,
}

impl Model for Rows {
    ghost use Rattle.std.specs.Prelude.{◌<◌, ◌≤◌};
    ghost use Rattle.pim_adder.specs.Drawn.{RowsView};
    ghost use Rattle.pim_adder.specs.declared.netlist.TheConstants.{MAX_BITS};

    ghost Value = { RowsView };

    ghost view = { λ r. record { bits = r.bits; state = r.state } };

    ghost invariant = { λ r. (0 < r.bits) × (r.bits ≤ MAX_BITS) };
}

impl Rows {
    /// The rows of an adder of numbers of so many bits.
    pub fn new(bits: u32) -> Rows
        requires some { 0 < bits }
        requires few { bits ≤ MAX_BITS }
        ensures { result ≡ record { bits = bits; state = bits } }
    {
        Rows {
            bits,
            state: u64::from(bits),
        }
    }

    /// Writes the next row, a character for each input, and the characters of its sum, the lowest bit first.
    pub fn next(&mut self, line: &mut [u8], sum: &mut [u8])
        requires line { length line.old ≡ 2 * self.old.bits + 1 }
        requires sum { length sum.old ≡ self.old.bits + 1 }
        ensures line { line.new ≡ row_line self.old }
        ensures sum { sum.new ≡ row_sum self.old }
        ensures after { self.new ≡ after self.old }
    {
        let bits = self.bits as usize;
        let first = self.draw() >> (64 - self.bits);
        let second = self.draw() >> (64 - self.bits);
        let carry = self.draw() >> 63;
        write_digits(&mut line[..bits], u128::from(first));
        write_digits(&mut line[bits..2 * bits], u128::from(second));
        write_digits(&mut line[2 * bits..], u128::from(carry));
        write_digits(
            sum,
            u128::from(first) + u128::from(second) + u128::from(carry),
        );
    }

    /// Draws the next number.
    fn draw(&mut self) -> u64
        ensures drawn { result ≡ draw self.old.state }
        ensures after { self.new ≡ record self.old { state = draw self.old.state } }
    {
        self.state = self
            .state
            .wrapping_mul(6_364_136_223_846_793_005)
            .wrapping_add(1_442_695_040_888_963_407);
        self.state
    }
}

/// Writes the lowest bits of a number as characters, the lowest one first.
fn write_digits(out: &mut [u8], value: u128)
    ensures { out.new ≡ digits (length out.old) value }
{
    let mut rest = value;
    for character in out.iter_mut() {
        *character = b'0' + (rest % 2) as u8;
        rest /= 2;
    }
}
