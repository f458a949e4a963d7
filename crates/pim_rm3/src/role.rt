ghost use Rattle.std.specs.Prelude.{◌≡◌, ◌≤◌};
ghost use Rattle.pim_rm3.specs.Roles.{cheaper, first_cost, is_plain, least_role, role, role_cost, second_cost, temporary, third_cost};

use crate::loads::is_inverted;
use pim_aig::Lit;
use pim_mig::Maj;

/// The operands of a majority in the one instruction that computes it: `p`, `q`, which the instruction complements, and `z`, which
/// the target holds before. With `over` the target is the cell of `z` itself.
#[derive(Clone, Copy, Debug, PartialEq, Eq)]
pub(crate) struct Role {
    pub(crate) p: Lit,
    pub(crate) q: Lit,
    pub(crate) z: Lit,
    pub(crate) over: bool,
}

/// Whether the literal is the plain one of a node other than the constant one.
pub(crate) fn is_plain(literal: Lit) -> bool
    ensures { result ≡ is_plain literal }
{
    literal.0 % 2 == 0 && 0 < literal.0 / 2
}

/// The cycles that make the first operand.
fn first_cost(literal: Lit) -> u32
    ensures cost { result ≡ first_cost literal }
    ensures few { result ≤ 2 }
{
    if is_inverted(literal) { 2 } else { 0 }
}

/// The cycles that make the second operand.
fn second_cost(literal: Lit) -> u32
    ensures cost { result ≡ second_cost literal }
    ensures few { result ≤ 2 }
{
    if is_plain(literal) { 2 } else { 0 }
}

/// The cycles that bring the third operand into the target.
fn third_cost(over: bool, literal: Lit) -> u32
    ensures cost { result ≡ third_cost over literal }
    ensures few { result ≤ 2 }
{
    if literal.0 / 2 == 0 {
        1
    } else if over {
        0
    } else {
        2
    }
}

/// The cycles that come before the instruction itself.
pub(crate) fn role_cost(role: Role) -> u32
    ensures cost { result ≡ role_cost role }
    ensures few { result ≤ 6 }
{
    first_cost(role.p) + second_cost(role.q) + third_cost(role.over, role.z)
}

/// The second of two roles where it costs less, else the first.
fn cheaper(first: Role, second: Role) -> Role
    ensures { result ≡ cheaper first second }
{
    if role_cost(second) < role_cost(first) {
        second
    } else {
        first
    }
}

/// Three literals in these roles.
fn in_roles(p: Lit, q: Lit, z: Lit, over: bool) -> Role
    ensures { result ≡ role p q z over }
{
    Role { p, q, z, over }
}

/// The first of all the roles of a node's operands that costs least, where these operands' cells can be taken over.
pub(crate) fn least_role(node: Maj, x: bool, y: bool, z: bool) -> Role
    ensures { result ≡ least_role node x y z }
{
    let first = in_roles(node.x, node.y, node.z, z);
    let second = cheaper(first, in_roles(node.x, node.z, node.y, y));
    let third = cheaper(second, in_roles(node.y, node.x, node.z, z));
    let fourth = cheaper(third, in_roles(node.y, node.z, node.x, x));
    let fifth = cheaper(fourth, in_roles(node.z, node.x, node.y, y));
    cheaper(fifth, in_roles(node.z, node.y, node.x, x))
}

/// The literal for which the roles want a temporary.
pub(crate) fn temporary(role: Role) -> Option<Lit>
    ensures { result ≡ temporary role }
{
    if is_inverted(role.p) {
        Some(role.p)
    } else if is_plain(role.q) {
        Some(role.q)
    } else {
        None
    }
}
