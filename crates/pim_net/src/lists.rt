ghost use Rattle.std.specs.Prelude.{◌≡◌, ◌<◌, ◌≤◌, ◌+◌, ◌++◌, ◌∷◌, [], All, length, IfOk, OnOk, OnErr, Some, slice_get};
ghost use Rattle.pim_net.specs.declared.limits.TheConstants.{MAX_COLUMNS, MAX_ROWS, MAX_SIGNALS};

use crate::Bit3;
use pim_io::NoMemory;
use std::alloc::Global;
use std::marker::Model;

/// The columns of a cover and the cells of its rows, in a list each.
#[derive(Debug, Drop)]
pub(crate) struct Lists {
    ins: Vec<u32>,
    cells: Vec<Bit3>,
    count: u32,
}

impl Model for Lists {
    ghost use Rattle.std.specs.Prelude.{◌≡◌, ◌≤◌, ◌<◌, ◌*◌, All, length};
    ghost use Rattle.pim_net.specs.declared.limits.TheConstants.{MAX_COLUMNS, MAX_ROWS, MAX_SIGNALS};
    ghost use Rattle.pim_net.specs.Covers.{rows_of};
    ghost use Rattle.pim_net.specs.inner.ListsViews.{ListsView};

    ghost Value = { ListsView };

    ghost view = { λ c. record {
      ins = c.ins.items;
      rows = rows_of (length c.ins.items) c.count c.cells.items;
    } };

    ghost invariant = { λ c. record {
      filled : length c.cells.items ≡ c.count * length c.ins.items;
      below : All (λ s. s < MAX_SIGNALS) c.ins.items;
      narrow : length c.ins.items < MAX_COLUMNS;
      short : c.count ≤ MAX_ROWS;
    } };
}

impl Lists {
    ghost use Rattle.pim_net.specs.inner.ListsViews.{ListsView};

    /// Lists of these columns and no rows.
    pub(crate) fn new(alloc: Global, ins: &[u32]) -> Result<Lists, NoMemory>
        requires below { All (λ s. s < MAX_SIGNALS) ins.now }
        requires narrow { length ins.now < MAX_COLUMNS }
        ensures { IfOk result (λ lists. lists ≡ record { ins = ins.now; rows = [] }) }
    {
        Ok(Lists {
            ins: Vec::from_slice(alloc, ins)?,
            cells: Vec::new(alloc),
            count: 0,
        })
    }

    /// Adds a row, one cell per column. After a refusal the lists are as before.
    pub(crate) fn add_row(&mut self, row: &[Bit3]) -> Result<(), NoMemory>
        requires whole { length row.now ≡ length self.old.ins }
        requires room { length self.old.rows < MAX_ROWS }
        ensures ok { OnOk result (self.new ≡ record self.old { rows = self.old.rows ++ row.now ∷ [] }) }
        ensures err { OnErr result (self.new ≡ self.old) }
    {
        self.cells.extend_from_slice(row)?;
        self.count += 1;
        Ok(())
    }

    /// The signals of the columns, in order.
    pub(crate) fn ins(&self) -> &[u32]
        ensures { result.now ≡ self.now.ins }
    {
        self.ins.as_slice()
    }

    /// How many rows there are.
    pub(crate) fn row_count(&self) -> u32
        ensures { result ≡ length self.now.rows }
    {
        self.count
    }

    /// The cells of row k, one per column.
    pub(crate) fn row(&self, k: u32) -> &[Bit3]
        requires { k < length self.now.rows }
        ensures { slice_get self.now.rows k ≡ Some result.now }
    {
        let width = self.ins.len();
        let start = k as usize * width;
        &self.cells[start..start + width]
    }
}
