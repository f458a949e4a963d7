ghost use Rattle.std.specs.Prelude.{◌≡◌, ◌<◌, ◌≤◌, ◌+◌, ◌++◌, ◌∷◌, [], All, length, IfOk, OnOk, OnErr, Some, slice_get};
ghost use Rattle.pim_net.specs.declared.limits.TheConstants.{MAX_COLUMNS, MAX_ROWS, MAX_SIGNALS};

use crate::lists::Lists;
use pim_io::NoMemory;
use std::alloc::Global;
use std::marker::Model;

/// What a row of a cover asks of one column.
#[derive(Clone, Copy, Debug, PartialEq, Eq)]
pub enum Bit3 {
    /// The column is false.
    Zero,
    /// The column is true.
    One,
    /// The column is not asked.
    Any,
}

/// Two columns, and a row of them.
#[derive(Clone, Copy, Debug)]
pub(crate) struct OneRow {
    pub(crate) ins: [u32; 2],
    pub(crate) row: [Bit3; 2],
}

/// Where the columns and rows of a cover stand. A cover of two columns and at most one row, as most are, takes no memory of
/// its own, and is near to the covers before and behind it.
#[derive(Debug, Drop)]
pub(crate) enum Store {
    /// Two columns and no row.
    Columns([u32; 2]),
    /// Two columns and one row.
    Row(OneRow),
    /// As many as there are.
    Lists(Box<Lists>),
}

/// A sum of products: it is `phase` where some row holds, and otherwise not `phase`. A row holds where each column that
/// it asks has the value that it asks for.
#[derive(Debug, Drop)]
pub struct Cover {
    store: Store,
    phase: bool,
    alloc: Global,
}

impl Model for Cover {
    ghost use Rattle.pim_net.specs.Covers.{CoverView};
    ghost use Rattle.pim_net.specs.inner.Stores.{IsStore, store_ins, store_rows};

    ghost Value = { CoverView };

    ghost view = { λ c. record { ins = store_ins c.store; rows = store_rows c.store; phase = c.phase } };

    ghost invariant = { λ c. IsStore c.store };
}

impl Cover {
    ghost use Rattle.pim_net.specs.Covers.{CoverView};

    /// A cover of these columns with no rows, so that it is not `phase` everywhere. Linear in the columns.
    pub fn new(alloc: Global, ins: &[u32], phase: bool) -> Result<Cover, NoMemory>
        requires below { All (λ s. s < MAX_SIGNALS) ins.now }
        requires narrow { length ins.now < MAX_COLUMNS }
        ensures { IfOk result (λ cover. cover ≡ record { ins = ins.now; rows = []; phase = phase }) }
    {
        let store = match ins {
            [first, second] => Store::Columns([*first, *second]),
            _ => Store::Lists(Box::new(alloc, Lists::new(alloc, ins)?)?),
        };
        Ok(Cover {
            store,
            phase,
            alloc,
        })
    }

    /// Adds a row, one cell per column. After a refusal the cover is as before. Linear in the columns.
    pub fn add_row(&mut self, row: &[Bit3]) -> Result<(), NoMemory>
        requires whole { length row.now ≡ length self.old.ins }
        requires room { length self.old.rows < MAX_ROWS }
        ensures ok { OnOk result (self.new ≡ record self.old { rows = self.old.rows ++ row.now ∷ [] }) }
        ensures err { OnErr result (self.new ≡ self.old) }
    {
        match &mut self.store {
            Store::Columns(ins) => {
                let only = OneRow {
                    ins: *ins,
                    row: [row[0], row[1]],
                };
                self.store = Store::Row(only);
            }
            Store::Row(first) => {
                let lists = two_rows(self.alloc, *first, row)?;
                self.store = Store::Lists(lists);
            }
            Store::Lists(lists) => lists.add_row(row)?,
        }
        Ok(())
    }

    /// Changes what the cover is where some row holds. It takes no memory.
    pub fn set_phase(&mut self, phase: bool)
        ensures { self.new ≡ record self.old { phase = phase } }
    {
        self.phase = phase;
    }

    /// The signals of the columns, in order.
    pub fn ins(&self) -> &[u32]
        ensures ins { result.now ≡ self.now.ins }
        ensures below { All (λ s. s < MAX_SIGNALS) result.now }
        ensures narrow { length result.now < MAX_COLUMNS }
    {
        match &self.store {
            Store::Columns(ins) => ins.as_slice(),
            Store::Row(only) => only.ins.as_slice(),
            Store::Lists(lists) => lists.ins(),
        }
    }

    /// How many rows there are.
    pub fn row_count(&self) -> u32
        ensures count { result ≡ length self.now.rows }
        ensures whole { All (λ row. length row ≡ length self.now.ins) self.now.rows }
        ensures short { result ≤ MAX_ROWS }
    {
        match &self.store {
            Store::Columns(_) => 0,
            Store::Row(_) => 1,
            Store::Lists(lists) => lists.row_count(),
        }
    }

    /// The cells of row k, one per column.
    pub fn row(&self, k: u32) -> &[Bit3]
        requires { k < length self.now.rows }
        ensures row { slice_get self.now.rows k ≡ Some result.now }
        ensures whole { length result.now ≡ length self.now.ins }
    {
        match &self.store {
            Store::Columns(_) => unreachable!(),
            Store::Row(only) => only.row.as_slice(),
            Store::Lists(lists) => lists.row(k),
        }
    }

    /// What the cover is where some row holds.
    pub fn phase(&self) -> bool
        ensures { result ≡ self.now.phase }
    {
        self.phase
    }
}

/// Lists of a row, and of a second behind it.
fn two_rows(alloc: Global, first: OneRow, second: &[Bit3]) -> Result<Box<Lists>, NoMemory>
    requires below { All (λ s. s < MAX_SIGNALS) first.ins }
    requires second { length second.now ≡ length first.ins }
    ensures { IfOk result (λ lists. lists.value ≡ record { ins = first.ins; rows = first.row ∷ second.now ∷ [] }) }
{
    let mut lists = Lists::new(alloc, &first.ins)?;
    lists.add_row(&first.row)?;
    lists.add_row(second)?;
    Ok(Box::new(alloc, lists)?)
}
