ghost use Rattle.std.specs.Prelude.{◌≡◌, ◌/◌, ◌<◌, IfOk};
ghost use Rattle.pim_aiger.specs.Literals.{is_literal, is_plain, reference, asked, and_gate};
ghost use Rattle.pim_net.specs.declared.limits.TheConstants.{MAX_SIGNALS};

use pim_io::NoMemory;
use pim_net::{Bit3, Cover, Equation, OutRef};
use std::alloc::Global;

/// Whether a literal is of a variable up to the greatest one.
pub(crate) fn is_literal(greatest: u32, literal: u32) -> bool
    requires { greatest < MAX_SIGNALS }
    ensures { result ≡ is_literal greatest literal }
{
    literal <= 2 * greatest + 1
}

/// Whether a literal may be that of an input or of a gate: a variable from 1 on, and not its complement.
pub(crate) fn is_plain(greatest: u32, literal: u32) -> bool
    requires { greatest < MAX_SIGNALS }
    ensures { result ≡ is_plain greatest literal }
{
    literal >= 2 && literal % 2 == 0 && is_literal(greatest, literal)
}

/// The output that a literal names.
pub(crate) fn reference(literal: u32) -> OutRef
    ensures { result ≡ reference literal }
{
    OutRef {
        sig: literal / 2,
        neg: literal % 2 == 1,
    }
}

/// What a literal asks of its variable.
fn asked(literal: u32) -> Bit3
    ensures { result ≡ asked literal }
{
    if literal % 2 == 1 {
        Bit3::Zero
    } else {
        Bit3::One
    }
}

/// A variable as the conjunction of two literals: a cover of their variables, with one row.
pub(crate) fn and_gate(
    alloc: Global,
    variable: u32,
    left: u32,
    right: u32,
) -> Result<Equation, NoMemory>
    requires left_in { left / 2 < MAX_SIGNALS }
    requires right_in { right / 2 < MAX_SIGNALS }
    ensures { IfOk result (λ gate. gate ≡ and_gate variable left right) }
{
    let mut cover = Cover::new(alloc, &[left / 2, right / 2], true)?;
    cover.add_row(&[asked(left), asked(right)])?;
    Ok(Equation {
        sig: variable,
        cover,
    })
}
