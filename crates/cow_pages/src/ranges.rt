// Chunks side by side, and what is written over a range of their cells.
ghost use Rattle.std.specs.Prelude.{◌≡◌, ◌+◌, ◌*◌, ◌-◌, ◌%◌, ◌<◌, ◌≤◌, ◌/◌, ◌^◌, [], ◌∷◌, IfOk, OnOk, OnErr, length};
ghost use Rattle.cow_pages.specs.Cells.{written, part};
ghost use Rattle.cow_pages.specs.code.Chunks.{chunk_cells, AreWhole, FitsSource, Writes, cells_of, source_cells};

use crate::chunk::{CHUNK, Chunk};
use std::alloc::{AllocError, Global};

/// Where the cells come from that are written over a range.
#[derive(Clone, Copy)]
pub enum Source<'a> {
    /// All of them are this one.
    Cell(u64),
    /// They are these.
    Cells(&'a [u64]),
    /// They are those from this place on, as they are before the range is written.
    Place(usize),
}

/// Equal chunks, which share their cells with these.
pub fn share_all(alloc: Global, chunks: &[Chunk]) -> Result<Vec<Chunk>, AllocError>
    ensures { IfOk result (λ v. v.items ≡ chunks.now) }
{
    let mut out = Vec::with_capacity(alloc, chunks.len())?;
    for k in 0..chunks.len() {
        out.push(chunks[k].share()?)?;
    }
    Ok(out)
}

// The cells from a place on, chunk by chunk.
fn read(chunks: &[Chunk], at: usize, out: &mut [u64])
    requires whole { AreWhole chunks.now }
    requires within { at + length out.old ≤ chunk_cells * length chunks.now }
    requires small { at + length out.old < 2 ^ 64 }
    ensures { out.new ≡ part at (length out.old) (cells_of chunks.now) }
{
    let mut done = 0;
    while done < out.len() {
        let place = at + done;
        let start = place % CHUNK;
        let count = (out.len() - done).min(CHUNK - start);
        chunks[place / CHUNK].read(start, &mut out[done..done + count]);
        done += count;
    }
}

// So many cells of a source, past those that are done.
fn take_piece(chunks: &[Chunk], source: &Source, count: usize, done: usize, out: &mut [u64])
    requires whole { AreWhole chunks.now }
    requires fits { FitsSource chunks.now count source.now }
    requires within { done + length out.old ≤ count }
    ensures { out.new ≡ part done (length out.old) (source_cells chunks.now count source.now) }
{
    match source {
        Source::Cell(cell) => out.fill(*cell),
        Source::Cells(cells) => out.copy_from_slice(&cells[done..done + out.len()]),
        Source::Place(from) => read(chunks, *from + done, out),
    }
}

// The chunks that have one of so many places, from a place on, as they are once the source is written there.
#[inline(never)]
fn make(
    alloc: Global,
    chunks: &[Chunk],
    at: usize,
    count: usize,
    source: &Source,
) -> Result<Vec<Chunk>, AllocError>
    requires whole { AreWhole chunks.now }
    requires within { at + count ≤ chunk_cells * length chunks.now }
    requires small { at + count < 2 ^ 64 }
    requires fits { FitsSource chunks.now count source.now }
    ensures writes { IfOk result (λ v. Writes chunks.now at (source_cells chunks.now count source.now) (written (at / chunk_cells) v.items chunks.now)) }
    ensures few { IfOk result (λ v. at / chunk_cells + length v.items ≤ length chunks.now) }
{
    let mut made = Vec::new(alloc);
    let mut buffer = [0; CHUNK];
    let mut done = 0;
    while done < count {
        let place = at + done;
        let start = place % CHUNK;
        let piece = (count - done).min(CHUNK - start);
        let cells = &mut buffer[..piece];
        take_piece(chunks, source, count, done, cells);
        let mut chunk = chunks[place / CHUNK].share()?;
        chunk.write(alloc, start, cells)?;
        made.push(chunk)?;
        done += piece;
    }
    Ok(made)
}

// Chunks take the places of others, from a place on.
fn commit(chunks: &mut [Chunk], first: usize, mut made: Vec<Chunk>)
    requires { first + length made.items ≤ length chunks.old }
    ensures { chunks.new ≡ written first made.items chunks.old }
{
    while let Some(chunk) = made.pop() {
        chunks[first + made.len()] = chunk;
    }
}

/// A cell is written, in place where its chunk has one owner.
#[inline]
pub fn put_cell(alloc: Global, chunks: &mut [Chunk], at: usize, cell: u64) -> Result<(), AllocError>
    requires whole { AreWhole chunks.old }
    requires within { at < chunk_cells * length chunks.old }
    ensures written { OnOk result (Writes chunks.old at (cell ∷ []) chunks.new) }
    ensures refused { OnErr result (chunks.new ≡ chunks.old) }
    ensures long { length chunks.new ≡ length chunks.old }
{
    chunks[at / CHUNK].set(alloc, at % CHUNK, cell)?;
    Ok(())
}

/// A source is written over so many cells, from a place on. A range in one chunk is written in place; one that lies in several
/// is made aside first, so that a refusal leaves all as it was.
pub fn put(
    alloc: Global,
    chunks: &mut [Chunk],
    at: usize,
    count: usize,
    source: &Source,
) -> Result<(), AllocError>
    requires whole { AreWhole chunks.old }
    requires within { at + count ≤ chunk_cells * length chunks.old }
    requires small { at + count < 2 ^ 64 }
    requires fits { FitsSource chunks.old count source.now }
    ensures written { OnOk result (Writes chunks.old at (source_cells chunks.old count source.now) chunks.new) }
    ensures refused { OnErr result (chunks.new ≡ chunks.old) }
    ensures long { length chunks.new ≡ length chunks.old }
{
    if count == 0 {
        return Ok(());
    }
    if count <= CHUNK - at % CHUNK {
        if let Source::Cells(cells) = source {
            chunks[at / CHUNK].write(alloc, at % CHUNK, cells)?;
            return Ok(());
        }
        if let Source::Cell(cell) = source {
            chunks[at / CHUNK].fill(alloc, at % CHUNK, count, *cell)?;
            return Ok(());
        }
        return put_in_chunk(alloc, chunks, at, count, source);
    }
    let made = make(alloc, chunks, at, count, source)?;
    commit(chunks, at / CHUNK, made);
    Ok(())
}

// A range that lies in one chunk.
#[inline(never)]
fn put_in_chunk(
    alloc: Global,
    chunks: &mut [Chunk],
    at: usize,
    count: usize,
    source: &Source,
) -> Result<(), AllocError>
    requires whole { AreWhole chunks.old }
    requires some { 0 < count }
    requires within { at + count ≤ chunk_cells * length chunks.old }
    requires one { count ≤ chunk_cells - at % chunk_cells }
    requires fits { FitsSource chunks.old count source.now }
    ensures written { OnOk result (Writes chunks.old at (source_cells chunks.old count source.now) chunks.new) }
    ensures refused { OnErr result (chunks.new ≡ chunks.old) }
    ensures long { length chunks.new ≡ length chunks.old }
{
    let mut buffer = [0; CHUNK];
    let cells = &mut buffer[..count];
    take_piece(chunks, source, count, 0, cells);
    chunks[at / CHUNK].write(alloc, at % CHUNK, cells)?;
    Ok(())
}
