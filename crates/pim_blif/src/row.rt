ghost use Rattle.std.specs.Prelude.{◌≡◌, ◌==◌, length, Some, None, false, is_some, IfSome, IfOk, OnOk, if◌then◌else◌};
ghost use Rattle.std.specs.List.{list_all};
ghost use Rattle.pim_io.specs.Readings.{Gives};
ghost use Rattle.pim_blif.specs.Rows.{is_cell, cell_of, cells_of, pattern_of, output_of, row_words, value_of, is_mixed, row_at};

use crate::fault::BlifFault;
use crate::word::Word;
use pim_net::Bit3;

/// The two parts of a row, as they stand in the file.
#[derive(Clone, Copy)]
struct RowText<'a> {
    pattern: &'a [u8],
    output: &'a [u8],
}

/// The parts of a row with these words in a cover of so many columns: without columns it is an output character alone, and
/// otherwise it has a pattern before that.
fn parts<'a>(width: usize, words: &[Word<'a>]) -> Option<RowText<'a>>
    ensures shape { is_some result ≡ (length words.now == row_words width) }
    ensures pattern { IfSome result (λ row. row.pattern.now ≡ pattern_of words.now) }
    ensures output { IfSome result (λ row. row.output.now ≡ output_of words.now) }
{
    match words {
        [output] if width == 0 => Some(RowText {
            pattern: &[],
            output: output.bytes(),
        }),
        [pattern, output] if width != 0 => Some(RowText {
            pattern: pattern.bytes(),
            output: output.bytes(),
        }),
        _ => None,
    }
}

/// The value that an output character tells: it is `0` or `1`, and a word of its own.
fn value_of(output: &[u8]) -> Option<bool>
    ensures { result ≡ value_of output.now }
{
    match output {
        [b'0'] => Some(false),
        [b'1'] => Some(true),
        _ => None,
    }
}

/// What a byte of a pattern asks of its column: it is `0`, `1` or `-`.
fn cell_of(b: u8) -> Option<Bit3>
    ensures { result ≡ (if is_cell b then Some (cell_of b) else None) }
{
    match b {
        b'0' => Some(Bit3::Zero),
        b'1' => Some(Bit3::One),
        b'-' => Some(Bit3::Any),
        _ => None,
    }
}

/// Puts the cells of a pattern in the place of others. Linear in the pattern.
fn put_cells(line: u32, pattern: &[u8], cells: &mut Vec<Bit3>) -> Result<(), BlifFault>
    ensures { Gives BlifFault.NoMemory (λ _. cells.new.items) result
        (if list_all is_cell pattern.now then Ok (cells_of pattern.now) else Err (BlifFault.Syntax line)) }
{
    cells.clear();
    for b in pattern {
        let Some(cell) = cell_of(*b) else {
            return Err(BlifFault::Syntax(line));
        };
        cells.push(cell)?;
    }
    Ok(())
}

/// Reads the row of a line, in a cover of so many columns whose first row has this value, if there is one: its cells are put
/// in the place of others, and its value is given. Linear in the row.
#[tactic(auto, unfolding(crate::specs::Rows::row_at))]
pub(crate) fn read_row(
    line: u32,
    width: usize,
    first: Option<bool>,
    words: &[Word],
    cells: &mut Vec<Bit3>,
) -> Result<bool, BlifFault>
    ensures exact { Gives BlifFault.NoMemory (λ value. record { cells = cells.new.items; value = value }) result
        (row_at line width first words.now) }
    ensures whole { OnOk result (length cells.new.items ≡ width) }
    ensures phase { IfOk result (λ value. is_mixed first value ≡ false) }
{
    let Some(row) = parts(width, words) else {
        return Err(BlifFault::Syntax(line));
    };
    let Some(value) = value_of(row.output) else {
        return Err(BlifFault::Syntax(line));
    };
    if row.pattern.len() != width {
        return Err(BlifFault::RowWidth(line));
    }
    put_cells(line, row.pattern, cells)?;
    if first.is_some_and(|first| first != value) {
        return Err(BlifFault::MixedPhase(line));
    }
    Ok(value)
}
