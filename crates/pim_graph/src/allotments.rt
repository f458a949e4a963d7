ghost use Rattle.std.specs.Prelude.{◌≡◌, ◌+◌, ◌-◌, ◌<◌, ◌≤◌, ◌^◌, ℕ, true, All, List, Some, None, drop, length, slice_index, slice_set, IfOk, OnOk, MatchOption, vec_len};
ghost use Rattle.pim_graph.specs.Allotments.{IsAllotment, IsOver, cells_along, taken_at};
ghost use Rattle.pim_graph.specs.Peaks.{IsPlaced, needed, peak};
ghost use Rattle.pim_graph.specs.Readers.{occurrences};
ghost use Rattle.pim_graph.specs.inner.Pools.{IsChoice, IsPool, holds, is_taken};

use crate::spares::Spares;
use crate::{Graph, Readers};
use pim_io::NoMemory;
use std::alloc::Global;
use std::marker::Model;

/// A cell for each gate of an order, which keeps the gate's value for as long as it is needed.
#[derive(Debug, Drop)]
pub struct Allotment {
    cells: Vec<u32>,
    width: u32,
}

impl Model for Allotment {
    ghost use Rattle.pim_graph.specs.Allotments.{AllotmentView};

    ghost Value = { AllotmentView };

    ghost view = { λ a. record { cells = a.cells.items; width = a.width } };
}

impl Allotment {
    /// The cell of each gate by its number, and 0 for a gate that the order doesn't hold.
    pub fn cells(&self) -> &[u32]
        ensures { result.now ≡ self.now.cells }
    {
        self.cells.as_slice()
    }

    /// A number that all the cells are below: the number of cells, those before the first one counted.
    pub fn width(&self) -> u32
        ensures { result ≡ self.now.width }
    {
        self.width
    }
}

/// Allots a cell to each gate of an order, from the cell `first` on. A gate takes the least cell that no needed value holds,
/// while what it reads is still held; a gate at a place for which `over` names one of its children takes that child's cell
/// over. An empty `over` names none.
///
/// Near linear in the gates, and in the order and what its gates read.
pub fn allot(
    alloc: Global,
    graph: &Graph,
    order: &[u32],
    first: u32,
    over: &[Option<u32>],
) -> Result<Allotment, NoMemory>
    requires placed { IsPlaced graph.now order.now }
    requires needed { (p : ℕ) → p < length order.now →
        needed graph.now (drop (p + 1) order.now) (slice_index order.now p) ≡ true }
    requires over { IsOver graph.now order.now over.now }
    requires room { first + length order.now < 2 ^ 32 }
    ensures allotment { IfOk result (λ a. IsAllotment graph.now order.now over.now first a) }

    // As many cells as are in use at once: no more than the order holds values at once, and as many where no cell is taken over.
    ensures cells { IfOk result (λ a. a.width ≡ first + cells_along graph.now order.now over.now) }
    ensures width { IfOk result (λ a. a.width ≤ first + peak graph.now order.now) }
    ensures exact { IfOk result (λ a. ((p : ℕ) → taken_at over.now p ≡ None) → a.width ≡ first + peak graph.now order.now) }
{
    let mut left = Readers::new(alloc, graph, order)?;
    let mut spares = Spares::new(alloc, first);
    let mut cells = vec![in alloc; 0u32; graph.len() as usize]?;
    for (place, gate) in order.iter().enumerate() {
        let taken = taken_at(over, place);
        let cell = choose(&mut spares, &cells, taken);
        cells[*gate as usize] = cell;
        let children = graph.children(*gate);
        release(graph, &mut left, &mut spares, &cells, children, taken)?;
    }
    Ok(Allotment {
        cells,
        width: spares.width(),
    })
}

/// The gate whose cell the gate at a place takes over.
fn taken_at(over: &[Option<u32>], place: usize) -> Option<u32>
    ensures { result ≡ taken_at over.now place }
{
    match over.get(place) {
        Some(taken) => *taken,
        None => None,
    }
}

/// The cell for a gate that takes over this one, if it takes over any.
fn choose(spares: &mut Spares, cells: &[u32], taken: Option<u32>) -> u32
    requires there { MatchOption taken (Unit {0}) (λ c. c < length cells.now) }
    requires room { length spares.old.free ≡ 0 → spares.old.next + 1 < 2 ^ 32 }
    ensures { IsChoice taken cells.now spares.old spares.new result }
{
    match taken {
        Some(child) => cells[child as usize],
        None => spares.take(),
    }
}

/// Whether the gate is the one that is taken over.
fn is_taken(taken: Option<u32>, gate: u32) -> bool
    ensures { result ≡ is_taken taken gate }
{
    match taken {
        Some(child) => child == gate,
        None => false,
    }
}

/// Takes back one read of a gate. If it is needed no longer its cell becomes free, unless it was taken over.
fn give_back(
    graph: &Graph,
    left: &mut Readers,
    spares: &mut Spares,
    cells: &[u32],
    child: u32,
    taken: Option<u32>,
) -> Result<(), NoMemory>
    requires len { length left.old ≡ length graph.now.kids }
    requires cells { length cells.now ≡ length graph.now.kids }
    requires there { child < length graph.now.kids }
    requires read { 0 < slice_index left.old child }
    ensures left { left.new ≡ slice_set left.old child (slice_index left.old child - 1) }
    ensures len { length left.new ≡ length graph.now.kids }
    ensures next { spares.new.next ≡ spares.old.next }
    ensures pool { OnOk result ((placed : List ℕ) (first : ℕ) → occurrences placed child ≡ 1 →
        IsPool (holds graph.now left.old taken) placed cells.now first spares.old →
        IsPool (holds graph.now left.new taken) placed cells.now first spares.new) }
{
    left.take_back(child);
    if !left.is_spent(child) || graph.is_root(child) || is_taken(taken, child) {
        return Ok(());
    }
    spares.give_back(cells[child as usize])
}

/// Takes back one gate's reads. The cells of those that are needed no longer become free, but for that taken over.
fn release(
    graph: &Graph,
    left: &mut Readers,
    spares: &mut Spares,
    cells: &[u32],
    children: &[u32],
    taken: Option<u32>,
) -> Result<(), NoMemory>
    requires len { length left.old ≡ length graph.now.kids }
    requires cells { length cells.now ≡ length graph.now.kids }
    requires there { All (λ c. c < length graph.now.kids) children.now }
    requires read { (x : ℕ) → x < length graph.now.kids → occurrences children.now x ≤ slice_index left.old x }
    ensures left { OnOk result ((x : ℕ) → x < length graph.now.kids →
        slice_index left.new x + occurrences children.now x ≡ slice_index left.old x) }
    ensures len { length left.new ≡ length graph.now.kids }
    ensures next { spares.new.next ≡ spares.old.next }
    ensures pool { OnOk result ((placed : List ℕ) (first : ℕ) → All (λ c. occurrences placed c ≡ 1) children.now →
        IsPool (holds graph.now left.old taken) placed cells.now first spares.old →
        IsPool (holds graph.now left.new taken) placed cells.now first spares.new) }
{
    for child in children {
        give_back(graph, left, spares, cells, *child, taken)?;
    }
    Ok(())
}
