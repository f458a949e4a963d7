ghost use Rattle.std.specs.Prelude.{◌≡◌, ◌+◌, ◌*◌, ◌<◌, ◌≤◌, ◌∷◌, ◌++◌, [], None, All, Bool, List, length, map, IfOk, OnOk};
ghost use Rattle.pim_aig.specs.Graph.{IsOfFirst, nodes};
ghost use Rattle.pim_aig.specs.Moving.{moved};
ghost use Rattle.pim_aig.specs.Values.{aval};
ghost use Rattle.pim_aig.specs.declared.graph.TheConstants.{MAX_ANDS};
ghost use Rattle.pim_tidy.specs.Tidied.{folded, joined, joined_by, place_of, tidied, tidying};
ghost use Rattle.pim_tidy.specs.Tidy.{IsTidy};
ghost use Rattle.pim_tidy.specs.inner.Pairs.{pair_of};

use crate::pair::Pair;
use indexmap::IndexSet;
use pim_aig::{Aig, And, Lit, moved, plain_literals};
use pim_io::NoMemory;
use std::alloc::Global;

/// The tidied graph: it goes through the nodes in order and leaves out each that folds to a literal or reads what an earlier
/// one does, in either order of its operands. Each output keeps its value. Expected linear time.
pub fn tidy(alloc: Global, aig: &Aig) -> Result<Aig, NoMemory>
    ensures tidied { IfOk result (λ tidy. tidy ≡ tidied aig.now) }
    ensures values { IfOk result (λ tidy. (bits : List Bool) → length bits ≡ aig.now.inputs
        → map (aval tidy bits) tidy.outputs ≡ map (aval aig.now bits) aig.now.outputs) }
    ensures tidy { IfOk result IsTidy }
    ensures no_more { IfOk result (λ tidy. length tidy.ands ≤ length aig.now.ands) }
{
    let mut tidy = Aig::new(alloc, aig.inputs());
    let lits = add_nodes(alloc, &mut tidy, aig)?;
    add_outputs(&mut tidy, &lits, aig)?;
    aig.has_values();
    tidy.has_values();
    Ok(tidy)
}

/// The literal that the AND of two literals is without a node, if there is one.
fn folded(x: Lit, y: Lit) -> Option<Lit>
    ensures { result ≡ folded x y }
{
    if x.0 == 0 || y.0 == 0 {
        Some(Lit::FALSE)
    } else if x.0 == 1 {
        Some(y)
    } else if y.0 == 1 || x.0 == y.0 {
        Some(x)
    } else if x.complement().0 == y.0 {
        Some(Lit::FALSE)
    } else {
        None
    }
}

/// The key of the AND of two literals.
fn pair_of(x: Lit, y: Lit) -> Pair
    ensures { result ≡ pair_of (record { x = x; y = y }) }
{
    Pair {
        low: x.0.min(y.0),
        high: x.0.max(y.0),
    }
}

/// The AND of two literals, as a literal of the graph: the one that it folds to, that of the node which reads the same, or
/// that of a new node.
fn join(tidy: &mut Aig, pairs: &mut IndexSet<Pair>, x: Lit, y: Lit) -> Result<Lit, NoMemory>
    requires keys { pairs.old.keys ≡ map pair_of tidy.old.ands }
    requires x_there { IsOfFirst (nodes tidy.old) x }
    requires y_there { IsOfFirst (nodes tidy.old) y }
    requires room { length tidy.old.ands < MAX_ANDS }
    ensures literal { IfOk result (λ l. l ≡ (joined tidy.old.inputs tidy.old.ands (record { x = x; y = y })).lit) }
    ensures nodes { OnOk result (tidy.new ≡ record tidy.old {
      ands = (joined tidy.old.inputs tidy.old.ands (record { x = x; y = y })).ands;
    }) }
    ensures keys { OnOk result (pairs.new.keys ≡ map pair_of tidy.new.ands) }
    ensures there { IfOk result (IsOfFirst (nodes tidy.new)) }
    ensures no_fewer { OnOk result (length tidy.old.ands ≤ length tidy.new.ands) }
    ensures one_more { OnOk result (length tidy.new.ands ≤ length tidy.old.ands + 1) }
{
    match folded(x, y) {
        Some(literal) => Ok(literal),
        None => share(tidy, pairs, x, y),
    }
}

/// The AND of two literals that does not fold: the literal of the node that reads the same, or of a new one.
fn share(tidy: &mut Aig, pairs: &mut IndexSet<Pair>, x: Lit, y: Lit) -> Result<Lit, NoMemory>
    requires keys { pairs.old.keys ≡ map pair_of tidy.old.ands }
    requires x_there { IsOfFirst (nodes tidy.old) x }
    requires y_there { IsOfFirst (nodes tidy.old) y }
    requires room { length tidy.old.ands < MAX_ANDS }
    ensures literal { IfOk result (λ l. l ≡ (joined_by None tidy.old.inputs tidy.old.ands (record { x = x; y = y })).lit) }
    ensures nodes { OnOk result (tidy.new ≡ record tidy.old {
      ands = (joined_by None tidy.old.inputs tidy.old.ands (record { x = x; y = y })).ands;
    }) }
    ensures keys { OnOk result (pairs.new.keys ≡ map pair_of tidy.new.ands) }
    ensures there { IfOk result (IsOfFirst (nodes tidy.new)) }
    ensures no_fewer { OnOk result (length tidy.old.ands ≤ length tidy.new.ands) }
    ensures one_more { OnOk result (length tidy.new.ands ≤ length tidy.old.ands + 1) }
{
    let place = enter(tidy.ands(), pairs, x, y)?;
    let literal = Lit::plain(1 + tidy.inputs() + place);
    if place as usize == tidy.ands().len() {
        tidy.and(x, y)?;
        return Ok(literal);
    }
    Ok(literal)
}

/// The place of the node that reads two literals, which is entered at the end of the table if there is none.
fn enter(ands: &[And], pairs: &mut IndexSet<Pair>, x: Lit, y: Lit) -> Result<u32, NoMemory>
    requires keys { pairs.old.keys ≡ map pair_of ands.now }
    requires few { length ands.now ≤ MAX_ANDS }
    ensures place { IfOk result (λ place. place ≡ place_of ands.now (record { x = x; y = y })) }
    ensures within { IfOk result (λ place. place ≤ length ands.now) }
    ensures found { IfOk result (λ place. place < length ands.now → pairs.new.keys ≡ map pair_of ands.now) }
    ensures new { IfOk result (λ place. place ≡ length ands.now
        → pairs.new.keys ≡ map pair_of (ands.now ++ record { x = x; y = y } ∷ [])) }
{
    let (place, _) = pairs.insert_full(pair_of(x, y))?;
    Ok(place as u32)
}

/// Goes through the nodes of a graph, adds what is new of them to the tidy one, and gives each node's literal there.
fn add_nodes(alloc: Global, tidy: &mut Aig, aig: &Aig) -> Result<Vec<Lit>, NoMemory>
    requires none { tidy.old.ands ≡ [] }
    requires same { tidy.old.inputs ≡ aig.now.inputs }
    ensures literals { IfOk result (λ lits. lits.items ≡ (tidying aig.now).lits) }
    ensures nodes { OnOk result (tidy.new ≡ record tidy.old { ands = (tidying aig.now).ands }) }
    ensures there { IfOk result (λ lits. All (IsOfFirst (nodes tidy.new)) lits.items) }
    ensures count { IfOk result (λ lits. length lits.items ≡ nodes aig.now) }
{
    let mut pairs = IndexSet::new(alloc);
    let mut lits = plain_literals(alloc, tidy.inputs())?;
    let ands = aig.ands();
    for and in ands {
        let x = moved(&lits, and.x);
        let y = moved(&lits, and.y);
        lits.push(join(tidy, &mut pairs, x, y)?)?;
    }
    Ok(lits)
}

/// Adds the outputs of a graph to the tidy one, whose nodes its own have become.
fn add_outputs(tidy: &mut Aig, lits: &[Lit], aig: &Aig) -> Result<(), NoMemory>
    requires none { tidy.old.outputs ≡ [] }
    requires count { length lits.now ≡ nodes aig.now }
    requires there { All (IsOfFirst (nodes tidy.old)) lits.now }
    ensures { OnOk result (tidy.new ≡ record tidy.old { outputs = map (moved lits.now) aig.now.outputs }) }
{
    let outputs = aig.outputs();
    for output in outputs {
        tidy.add_output(moved(lits, *output))?;
    }
    Ok(())
}
