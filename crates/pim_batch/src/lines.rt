ghost use Rattle.std.specs.Prelude.{◌≡◌, ℕ, ◌+◌, ◌*◌, ◌/◌, ◌^◌, ◌<◌, ◌≤◌, length};
ghost use Rattle.pim_io.specs.Outside.{Wrote};
ghost use Rattle.pim_vectors.specs.Stages.{staged};
ghost use Rattle.pim_vectors.specs.Tiles.{vector_of};
ghost use Rattle.pim_batch.specs.inner.TileLines.{IsStage, row_line, row_lines, row_lines_from};

use pim_io::{Sink, SinkFault, tell_writes, write_all};
use pim_vectors::{Stage, Tile};

/// Writes the vectors in the first lanes of a tile, a line of characters for each, as many lines at once as the chunk has room
/// for. A line takes `width` bytes with its newline. The rows come by way of a stage.
pub(crate) fn write_results<K: Sink>(
    results: &Tile,
    stage: &mut Stage,
    lanes: u32,
    width: usize,
    chunk: &mut [u8],
    output: &mut K,
) -> Result<(), SinkFault>
    requires lanes { lanes ≤ 64 * results.now.words }
    requires width { width ≡ results.now.columns + 1 }
    requires room { width ≤ length chunk.old }
    requires columns { stage.old.columns ≡ results.now.columns }
    ensures wrote { Wrote result (K.taken output.old) (K.taken output.new) (K.faults output.old) (K.faults output.new)
        (row_lines results.now lanes) }
    ensures never_falls { K.faults output.old ≤ K.faults output.new }
    ensures stage { stage.new.columns ≡ stage.old.columns }
    ensures room { length chunk.new ≡ length chunk.old }
{
    tell_writes();
    let mut from = 0;
    while from < lanes {
        let count = count_at_once(lanes - from, width, chunk);
        write_lanes(results, stage, from, count, width, chunk, output)?;
        from += count;
    }
    Ok(())
}

/// How many of the lanes that are left are written at once: as many as have room in the chunk.
fn count_at_once(left: u32, width: usize, chunk: &[u8]) -> u32
    requires left { 0 < left }
    requires width { 0 < width }
    requires room { width ≤ length chunk.now }
    ensures some { 0 < result }
    ensures within { result ≤ left }
    ensures room { result * width ≤ length chunk.now }
{
    (left as usize).min(chunk.len() / width) as u32
}

/// Writes some lanes of a tile at once, a line of characters for each; the chunk is room for them.
fn write_lanes<K: Sink>(
    results: &Tile,
    stage: &mut Stage,
    from: u32,
    count: u32,
    width: usize,
    chunk: &mut [u8],
    output: &mut K,
) -> Result<(), SinkFault>
    requires lanes { from + count ≤ 64 * results.now.words }
    requires fits { from + count < 2 ^ 32 }
    requires width { width ≡ results.now.columns + 1 }
    requires room { count * width ≤ length chunk.old }
    requires stage { IsStage results.now stage.old from }
    ensures wrote { Wrote result (K.taken output.old) (K.taken output.new) (K.faults output.old) (K.faults output.new)
        (row_lines_from results.now from count) }
    ensures never_falls { K.faults output.old ≤ K.faults output.new }
    ensures stage { IsStage results.now stage.new (from + count) }
    ensures columns { stage.new.columns ≡ stage.old.columns }
    ensures room { length chunk.new ≡ length chunk.old }
{
    let lines = &mut chunk[..count as usize * width];
    put_lines(results, stage, from, count, width, lines);
    write_all(output, lines)
}

/// Fills a list with lanes of a tile, a line of characters for each.
fn put_lines(
    results: &Tile,
    stage: &mut Stage,
    from: u32,
    count: u32,
    width: usize,
    lines: &mut [u8],
)
    requires lanes { from + count ≤ 64 * results.now.words }
    requires fits { from + count < 2 ^ 32 }
    requires width { width ≡ results.now.columns + 1 }
    requires long { length lines.old ≡ count * width }
    requires stage { IsStage results.now stage.old from }
    ensures value { lines.new ≡ row_lines_from results.now from count }
    ensures long { length lines.new ≡ length lines.old }
    ensures stage { IsStage results.now stage.new (from + count) }
    ensures columns { stage.new.columns ≡ stage.old.columns }
{
    let mut at = 0;
    for k in 0..count {
        put_line(results, stage, from + k, &mut lines[at..at + width]);
        at += width;
    }
}

/// Fills a list with one lane of a tile as a line of characters, with a newline behind it.
fn put_line(results: &Tile, stage: &mut Stage, index: u32, line: &mut [u8])
    requires lane { index < 64 * results.now.words }
    requires long { length line.old ≡ results.now.columns + 1 }
    requires stage { IsStage results.now stage.old index }
    ensures value { line.new ≡ row_line results.now index }
    ensures long { length line.new ≡ length line.old }
    ensures stage { IsStage results.now stage.new (index + 1) }
    ensures columns { stage.new.columns ≡ stage.old.columns }
{
    load_stage(results, stage, index);
    let columns = line.len() - 1;
    stage.unpack(index % 64, &mut line[..columns]);
    line[columns] = b'\n';
}

/// Makes a stage hold the rows that share a word with this one.
fn load_stage(results: &Tile, stage: &mut Stage, index: u32)
    requires lane { index < 64 * results.now.words }
    requires stage { IsStage results.now stage.old index }
    ensures held { (r : ℕ) → r < 64 → staged stage.new r ≡ vector_of results.now (64 * (index / 64) + r) }
    ensures columns { stage.new.columns ≡ stage.old.columns }
{
    if index % 64 != 0 {
        return;
    }
    stage.take_block(results, (index / 64) as usize);
}
