ghost use Rattle.std.specs.Prelude.{◌≡◌, ◌-◌, ◌≤◌, take, drop, vec_len};
ghost use Rattle.std.specs.Borrow.{sem};
ghost use Rattle.pim_lanes.specs.inner.Parts.{LendsWords, LendsPart};

use std::slice::{from_raw_parts, from_raw_parts_mut};

/// The words of a list from one place up to another, for writing, beside those before them and those behind them, for reading.
pub(crate) fn part_mut(
    list: &mut Vec<u64>,
    start: usize,
    end: usize,
) -> (&mut [u64], &[u64], &[u64])
    requires ordered { start ≤ end }
    requires within { end ≤ vec_len list.old }
    ensures* lends { sem 𝓛 (LendsPart list.entry start result.0) }
    ensures part { result.0.now ≡ take (end - start) (drop start list.old.items) }
    ensures below { result.1.now ≡ take start list.old.items }
    ensures above { result.2.now ≡ drop end list.old.items }
{
    let words = words_mut(list);
    let count = words.len();
    let at = words.as_mut_ptr();
    unsafe {
        (
            from_raw_parts_mut(at.add(start), end - start),
            from_raw_parts(at, start),
            from_raw_parts(at.add(end), count - end),
        )
    }
}

/// All words of a list, for writing.
fn words_mut(list: &mut Vec<u64>) -> &mut [u64]
    ensures* lends { sem 𝓛 (LendsWords list.entry result) }
    ensures value { result.now ≡ list.old.items }
{
    list.as_mut_slice()
}
