ghost use Rattle.std.specs.Prelude.{◌≡◌, ◌*◌, ◌+◌, ◌<◌, ◌&&◌, ℕ, is_some, IfSome};
ghost use Rattle.pim_aig.specs.Graph.{IsOfFirst};
ghost use Rattle.pim_mig.specs.Graph.{size};
ghost use Rattle.pim_mig.specs.Needs.{is_needed};
ghost use Rattle.pim_rewrite.specs.Cases.{case_of, has, has_case, is_spreadable, match_nodes, match_pair, node_at, other};
ghost use Rattle.pim_rewrite.specs.inner.Tables.{IsBefore, IsCaseBefore};

use crate::reading::Reading;
use pim_aig::Lit;
use pim_mig::Maj;

/// A node that reads two majorities of s and t, one with u and one with v, and beside them w.
#[derive(Clone, Copy, Debug, PartialEq, Eq)]
pub(crate) struct Case {
    pub(crate) s: Lit,
    pub(crate) t: Lit,
    pub(crate) u: Lit,
    pub(crate) v: Lit,
    pub(crate) w: Lit,
}

/// Whether a node reads a literal.
fn has(node: Maj, literal: Lit) -> bool
    ensures { result ≡ has node literal }
{
    node.x.0 == literal.0 || node.y.0 == literal.0 || node.z.0 == literal.0
}

/// The operand of a node that is neither of two of its operands.
fn other(node: Maj, s: Lit, t: Lit) -> Lit
    ensures { result ≡ other node s t }
{
    if node.x.0 == s.0 || node.x.0 == t.0 {
        if node.y.0 == s.0 || node.y.0 == t.0 {
            node.z
        } else {
            node.y
        }
    } else {
        node.x
    }
}

/// The first two operands of a node that the other one reads too, and the remaining ones, beside a third literal.
fn match_nodes(a: Maj, b: Maj, w: Lit) -> Option<Case>
    ensures { result ≡ match_nodes a b w }
{
    let Maj { x, y, z } = a;
    if has(b, x) && has(b, y) {
        Some(Case {
            s: x,
            t: y,
            u: z,
            v: other(b, x, y),
            w,
        })
    } else if has(b, x) && has(b, z) {
        Some(Case {
            s: x,
            t: z,
            u: y,
            v: other(b, x, z),
            w,
        })
    } else if has(b, y) && has(b, z) {
        Some(Case {
            s: y,
            t: z,
            u: x,
            v: other(b, y, z),
            w,
        })
    } else {
        None
    }
}

/// Whether a literal is a plain one of a node that is read once in all.
fn is_spreadable(reading: &Reading, literal: Lit) -> bool
    requires { IsOfFirst (size reading.now) literal }
    ensures { result ≡ is_spreadable reading.now literal }
{
    literal.0 % 2 == 0 && reading.is_single(literal.node())
}

/// The case of two operands beside the third, if they have one.
fn match_pair(reading: &Reading, e: Lit, f: Lit, w: Lit) -> Option<Case>
    requires e_there { IsOfFirst (size reading.now) e }
    requires f_there { IsOfFirst (size reading.now) f }
    ensures { result ≡ match_pair reading.now e f w }
{
    if is_spreadable(reading, e) && is_spreadable(reading, f) {
        match_nodes(reading.node_at(e), reading.node_at(f), w)
    } else {
        None
    }
}

/// The case of a needed node, if it has one: a pair of operands that are plain literals of majorities which nobody else reads, and
/// which share two literals.
pub(crate) fn case_of(reading: &Reading, node: Maj) -> Option<Case>
    requires there { IsBefore (size reading.now) node }
    ensures case { result ≡ case_of reading.now node }
    ensures before { IfSome result (λ case. (n : ℕ) → IsBefore n node → IsCaseBefore n case) }
{
    let _ = reading.nodes();
    if let Some(case) = match_pair(reading, node.x, node.y, node.z) {
        return Some(case);
    }
    if let Some(case) = match_pair(reading, node.x, node.z, node.y) {
        return Some(case);
    }
    let last = match_pair(reading, node.y, node.z, node.x);
    match last {
        Some(case) => Some(case),
        None => None,
    }
}

/// Whether a node is needed and has a case.
fn is_case(reading: &Reading, number: u32, node: Maj) -> bool
    requires number_there { number < size reading.now }
    requires there { IsBefore (size reading.now) node }
    ensures { result ≡ (is_needed reading.now number && is_some (case_of reading.now node)) }
{
    reading.is_needed(number) && case_of(reading, node).is_some()
}

/// Whether a needed node has a case. Linear time.
pub(crate) fn has_case(reading: &Reading) -> bool
    ensures { result ≡ has_case reading.now }
{
    let nodes = reading.nodes();
    let mut number = 1 + reading.inputs();
    for node in nodes {
        if is_case(reading, number, *node) {
            return true;
        }
        number += 1;
    }
    false
}
