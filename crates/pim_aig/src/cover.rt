ghost use Rattle.std.specs.Prelude.{◌≡◌, ◌<◌, ◌≤◌, [], List, All, length, IfErr, IfOk, OnOk};
ghost use Rattle.pim_aig.specs.Chains.{chain, cover_from, row_literals, rows_from};
ghost use Rattle.pim_net.specs.Tables.{values as literals_of};
ghost use Rattle.pim_aig.specs.Faults.{Says};
ghost use Rattle.pim_aig.specs.Graph.{IsOfFirst, nodes};
ghost use Rattle.pim_aig.specs.inner.Tables.{AreOfFirst};
ghost use Rattle.pim_aig.specs.inner.Growing.{Grows};

use crate::chain::{chain, link};
use crate::{Aig, FlatFault, Lit};
use pim_net::{Bit3, Cover, SignalTable};

/// The chain of the literals that a row asks: a column's literal where the cell is one, its complement where it is zero.
fn row_chain(
    aig: &mut Aig,
    table: &SignalTable<Lit>,
    ins: &[u32],
    row: &[Bit3],
) -> Result<Lit, FlatFault>
    requires there { AreOfFirst (nodes aig.old) (literals_of table.now) }
    requires whole { length row.now ≡ length ins.now }
    ensures made { IfOk result (λ l. record { ands = aig.new.ands; lit = l }
        ≡ chain aig.old.inputs aig.old.ands (row_literals (literals_of table.now) ins.now row.now)) }
    ensures there { IfOk result (IsOfFirst (nodes aig.new)) }
    ensures grown { Grows aig.old aig.new }
    ensures fault { IfErr result (λ fault. Says fault
        (length (chain aig.old.inputs aig.old.ands (row_literals (literals_of table.now) ins.now row.now)).ands)) }
{
    let mut last = None;
    for (k, cell) in row.iter().enumerate() {
        let literal = table.at(ins[k]);
        match cell {
            Bit3::Any => {}
            Bit3::One => last = Some(link(aig, last, literal)?),
            Bit3::Zero => last = Some(link(aig, last, literal.complement())?),
        }
    }
    Ok(last.unwrap_or(Lit::TRUE))
}

/// Puts the complements of the rows' chains, one after another, in the place of other literals.
fn put_rows(
    aig: &mut Aig,
    table: &SignalTable<Lit>,
    cover: &Cover,
    literals: &mut Vec<Lit>,
) -> Result<(), FlatFault>
    requires there { AreOfFirst (nodes aig.old) (literals_of table.now) }
    ensures made { OnOk result (record { ands = aig.new.ands; lits = literals.new.items }
        ≡ rows_from aig.old.inputs (literals_of table.now) cover.now.ins aig.old.ands [] cover.now.rows) }
    ensures there { OnOk result (All (IsOfFirst (nodes aig.new)) literals.new.items) }
    ensures grown { Grows aig.old aig.new }
    ensures fault { IfErr result (λ fault. Says fault
        (length (rows_from aig.old.inputs (literals_of table.now) cover.now.ins aig.old.ands [] cover.now.rows).ands)) }
{
    literals.clear();
    for k in 0..cover.row_count() {
        let chain = row_chain(aig, table, cover.ins(), cover.row(k))?;
        literals.push(chain.complement())?;
    }
    Ok(())
}

/// The literal of a cover: the complement of the chain of its rows' complements, and with phase 0 complemented once more. Those
/// complements are put in the place of other literals.
pub(crate) fn cover_literal(
    aig: &mut Aig,
    table: &SignalTable<Lit>,
    cover: &Cover,
    literals: &mut Vec<Lit>,
) -> Result<Lit, FlatFault>
    requires there { AreOfFirst (nodes aig.old) (literals_of table.now) }
    ensures made { IfOk result (λ l. record { ands = aig.new.ands; lit = l }
        ≡ cover_from aig.old.inputs (literals_of table.now) aig.old.ands cover.now) }
    ensures there { IfOk result (IsOfFirst (nodes aig.new)) }
    ensures grown { Grows aig.old aig.new }
    ensures fault { IfErr result (λ fault. Says fault
        (length (cover_from aig.old.inputs (literals_of table.now) aig.old.ands cover.now).ands)) }
{
    put_rows(aig, table, cover, literals)?;
    let off = chain(aig, literals)?;
    let on = off.complement();
    Ok(if cover.phase() { on } else { on.complement() })
}
