ghost use Rattle.std.specs.Prelude.{◌≡◌, ℕ, ◌+◌, ◌<◌, ◌≤◌, true, false, length, take, drop, slice_index, IfOk, OnOk, OnErr};
ghost use Rattle.pim_io.specs.Lines.{is_newline};
ghost use Rattle.pim_io.specs.Outside.{Rose, Gave, IsSpent};
ghost use Rattle.pim_vectors.specs.inner.Found.{NoNewline};

use memchr::memchr;
use pim_io::{Source, SourceFault};

/// The place of the first newline from a place on, where none stands before that, or the number of bytes. Linear in the bytes
/// from the place on.
pub(crate) fn newline_from(bytes: &[u8], from: usize) -> usize
    requires within { from ≤ length bytes.now }
    requires none { NoNewline bytes.now from }
    ensures from { from ≤ result }
    ensures within { result ≤ length bytes.now }
    ensures before { NoNewline bytes.now result }
    ensures found { result < length bytes.now → is_newline (slice_index bytes.now result) ≡ true }
{
    match memchr(b'\n', &bytes[from..]) {
        Some(at) => from + at,
        None => bytes.len(),
    }
}

/// Moves bytes that begin at a place to the front. Linear in the bytes that are moved, and these are none where they stand there.
fn move_to_front(buffer: &mut [u8], start: usize, len: usize)
    requires { start + len ≤ length buffer.old }
    ensures { take len buffer.new ≡ take len (drop start buffer.old) }
{
    if start > 0 {
        buffer.copy_within(start..start + len, 0);
    }
}

/// Moves the held bytes, which begin at a place, to the front of the buffer, and reads at most `limit` bytes behind them. Returns
/// how many were read: 0 at the end of the source.
pub(crate) fn refill<S: Source>(
    source: &mut S,
    buffer: &mut [u8],
    start: usize,
    held: usize,
    limit: usize,
) -> Result<usize, SourceFault>
    requires some { 0 < limit }
    requires room { held + limit ≤ length buffer.old }
    requires within { start + held ≤ length buffer.old }
    ensures kept { take held buffer.new ≡ take held (drop start buffer.old) }
    ensures within { IfOk result (λ n. n ≤ limit) }
    ensures gave { IfOk result (λ n. Gave (S.left source.old) (S.left source.new) (take n (drop held buffer.new))) }
    ensures end { IfOk result (λ n. n ≡ 0 → IsSpent (S.left source.old) (S.left source.new)) }
    ensures stays { OnErr result (S.left source.new ≡ S.left source.old) }
    ensures steady { OnOk result (S.faults source.new ≡ S.faults source.old) }
    ensures counted { OnErr result (Rose (S.faults source.old) (S.faults source.new)) }
    ensures never_falls { S.faults source.old ≤ S.faults source.new }
{
    move_to_front(buffer, start, held);
    read_behind(source, buffer, held, limit)
}

/// Reads at most `limit` bytes into a buffer, behind the bytes that it holds, and returns how many: 0 at the end of the source.
fn read_behind<S: Source>(
    source: &mut S,
    buffer: &mut [u8],
    held: usize,
    limit: usize,
) -> Result<usize, SourceFault>
    requires some { 0 < limit }
    requires room { held + limit ≤ length buffer.old }
    ensures kept { take held buffer.new ≡ take held buffer.old }
    ensures within { IfOk result (λ n. n ≤ limit) }
    ensures gave { IfOk result (λ n. Gave (S.left source.old) (S.left source.new) (take n (drop held buffer.new))) }
    ensures end { IfOk result (λ n. n ≡ 0 → IsSpent (S.left source.old) (S.left source.new)) }
    ensures stays { OnErr result (S.left source.new ≡ S.left source.old) }
    ensures steady { OnOk result (S.faults source.new ≡ S.faults source.old) }
    ensures counted { OnErr result (Rose (S.faults source.old) (S.faults source.new)) }
    ensures never_falls { S.faults source.old ≤ S.faults source.new }
{
    source.read(&mut buffer[held..held + limit])
}
