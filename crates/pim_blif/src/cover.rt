ghost use Rattle.std.specs.Prelude.{◌≡◌, ◌+◌, ◌<◌, ◌≤◌, nat_lt, is_some, All, length, IfOk, IfSome};
ghost use Rattle.pim_io.specs.Readings.{Gives};
ghost use Rattle.pim_net.specs.declared.limits.TheConstants.{MAX_COLUMNS, MAX_ROWS, MAX_SIGNALS};
ghost use Rattle.pim_blif.specs.inner.Judging.{empty_cover, first_value, with_row_at};

use crate::fault::BlifFault;
use crate::row::read_row;
use crate::word::Word;
use pim_io::NoMemory;
use pim_net::{Bit3, Cover, Equation};
use std::alloc::Global;

/// The equation of a cover without rows, of which the last of these signals is driven by the others, if there is one. Linear
/// in them.
pub(crate) fn empty_cover(alloc: Global, signals: &[u32]) -> Result<Option<Equation>, NoMemory>
    requires few { length signals.now ≤ MAX_COLUMNS }
    requires below { All (λ s. s < MAX_SIGNALS) signals.now }
    ensures some { IfOk result (λ made. is_some made ≡ nat_lt 0 (length signals.now)) }
    ensures exact { IfOk result (λ made. IfSome made (λ e. e ≡ empty_cover signals.now)) }
    ensures below { IfOk result (λ made. IfSome made (λ e. e.sig < MAX_SIGNALS)) }
{
    let count = signals.len();
    if count == 0 {
        return Ok(None);
    }
    let cover = Cover::new(alloc, &signals[..count - 1], true)?;
    let sig = signals[count - 1];
    Ok(Some(Equation { sig, cover }))
}

/// The value of a cover's first row, if there is one.
fn first_value(cover: &Cover) -> Option<bool>
    ensures { result ≡ first_value cover.now }
{
    if cover.row_count() == 0 {
        None
    } else {
        Some(cover.phase())
    }
}

/// An equation with the row of a line, which is read into `cells`. Linear in the row.
#[tactic(auto, unfolding(crate::specs::inner::Judging::with_row_at))]
pub(crate) fn add_row(
    line: u32,
    words: &[Word],
    equation: Equation,
    cells: &mut Vec<Bit3>,
) -> Result<Equation, BlifFault>
    requires { length equation.cover.rows < MAX_ROWS }
    ensures exact { Gives BlifFault.NoMemory (λ e. e) result (with_row_at line equation words.now) }
    ensures same { IfOk result (λ e. e.sig ≡ equation.sig) }
    ensures rows { IfOk result (λ e. length e.cover.rows ≡ length equation.cover.rows + 1) }
{
    let Equation { sig, mut cover } = equation;
    let first = first_value(&cover);
    let value = read_row(line, cover.ins().len(), first, words, cells)?;
    // The first row tells whether the cover is true or false where a row holds, and the others tell the same.
    cover.set_phase(value);
    cover.add_row(cells)?;
    Ok(Equation { sig, cover })
}
