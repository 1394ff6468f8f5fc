// The cells of a memory, which may be forked.
ghost use Rattle.std.specs.Prelude.{◌≡◌, ◌+◌, ◌<◌, ◌≤◌, ◌++◌, IfOk, OnOk, OnErr, Some, length, replicate, slice_get, slice_set};
ghost use Rattle.cow_pages.specs.Cells.{written, part};
ghost use Rattle.cow_pages.specs.code.Chunks.{ZerosAdded, chunk_cells};

use crate::chunk::{CHUNK, Chunk};
use crate::ranges::{Source, put, put_cell, share_all};
use std::alloc::{AllocError, Global};
use std::marker::Model;

/// A list of cells. A fork shares the cells of the list that it was made of, until one of both is written; contracts see two lists
/// that have nothing to do with one another. After each refusal a list is as it was before.
#[derive(Drop)]
pub struct Pages {
    alloc: Global,
    zeros: Chunk,
    chunks: Vec<Chunk>,
    cells: u64,
}

impl Model for Pages {
    ghost use Rattle.std.specs.Prelude.{◌≡◌, ℕ, List, replicate, take};
    ghost use Rattle.cow_pages.specs.code.Chunks.{IsPadded, chunk_cells, cells_of};

    ghost Value = { List ℕ };

    ghost view = { λ p. take p.cells (cells_of p.chunks.items) };

    ghost invariant = { λ p. IsPadded p.chunks.items p.cells × (p.zeros ≡ replicate chunk_cells 0) };
}

impl Pages {
    /// So many cells of 0.
    pub fn new(alloc: Global, cells: u64) -> Result<Pages, AllocError>
        ensures { IfOk result (λ p. p ≡ replicate cells 0) }
    {
        let mut pages = Pages {
            alloc,
            zeros: Chunk::new(alloc)?,
            chunks: Vec::new(alloc),
            cells: 0,
        };
        pages.grow(cells)?;
        Ok(pages)
    }

    /// How many cells there are.
    pub fn len(&self) -> u64
        ensures { result ≡ length self.now }
    {
        self.cells
    }

    /// The cell at a place.
    pub fn get(&self, at: u64) -> u64
        requires { at < length self.now }
        ensures { slice_get self.now at ≡ Some result }
    {
        let at = at as usize;
        self.chunks[at / CHUNK].get(at % CHUNK)
    }

    /// A cell is written.
    pub fn set(&mut self, at: u64, cell: u64) -> Result<(), AllocError>
        requires { at < length self.old }
        ensures set { OnOk result (self.new ≡ slice_set self.old at cell) }
        ensures refused { OnErr result (self.new ≡ self.old) }
    {
        let chunks = self.chunks.as_mut_slice();
        put_cell(self.alloc, chunks, at as usize, cell)?;
        Ok(())
    }

    /// So many more cells of 0, at the end.
    pub fn grow(&mut self, cells: u64) -> Result<(), AllocError>
        ensures grown { OnOk result (self.new ≡ self.old ++ replicate cells 0) }
        ensures refused { OnErr result (self.new ≡ self.old) }
    {
        let Some(more) = self.cells.checked_add(cells) else {
            return Err(AllocError);
        };
        add_chunks(&self.zeros, &mut self.chunks, more.div_ceil(CHUNK as u64))?;
        self.cells = more;
        Ok(())
    }

    /// A cell is written to each place of a range.
    pub fn fill(&mut self, at: u64, count: u64, cell: u64) -> Result<(), AllocError>
        requires { at + count ≤ length self.old }
        ensures filled { OnOk result (self.new ≡ written at (replicate count cell) self.old) }
        ensures refused { OnErr result (self.new ≡ self.old) }
    {
        let source = Source::Cell(cell);
        let chunks = self.chunks.as_mut_slice();
        put(self.alloc, chunks, at as usize, count as usize, &source)?;
        Ok(())
    }

    /// A range is written over another one, as if through a second list.
    pub fn copy(&mut self, to: u64, from: u64, count: u64) -> Result<(), AllocError>
        requires to_within { to + count ≤ length self.old }
        requires from_within { from + count ≤ length self.old }
        ensures copied { OnOk result (self.new ≡ written to (part from count self.old) self.old) }
        ensures refused { OnErr result (self.new ≡ self.old) }
    {
        let source = Source::Place(from as usize);
        let chunks = self.chunks.as_mut_slice();
        put(self.alloc, chunks, to as usize, count as usize, &source)?;
        Ok(())
    }

    /// Cells are written, from a place on.
    pub fn write(&mut self, at: u64, cells: &[u64]) -> Result<(), AllocError>
        requires { at + length cells.now ≤ length self.old }
        ensures written { OnOk result (self.new ≡ written at cells.now self.old) }
        ensures refused { OnErr result (self.new ≡ self.old) }
    {
        let source = Source::Cells(cells);
        let chunks = self.chunks.as_mut_slice();
        put(self.alloc, chunks, at as usize, cells.len(), &source)?;
        Ok(())
    }

    /// An equal list. What is written to one of both leaves the other as it was.
    pub fn fork(&self) -> Result<Pages, AllocError>
        ensures { IfOk result (λ p. p ≡ self.now) }
    {
        Ok(Pages {
            alloc: self.alloc,
            zeros: self.zeros.share()?,
            chunks: share_all(self.alloc, self.chunks.as_slice())?,
            cells: self.cells,
        })
    }
}

// Chunks of zeros are added until there are so many chunks.
fn add_chunks(zeros: &Chunk, chunks: &mut Vec<Chunk>, wanted: u64) -> Result<(), AllocError>
    requires { zeros.now ≡ replicate chunk_cells 0 }
    ensures added { ZerosAdded chunks.old.items chunks.new.items }
    ensures enough { OnOk result (wanted ≤ length chunks.new.items) }
{
    let old = chunks.len();
    if wanted <= old as u64 {
        return Ok(());
    }
    let more = wanted as usize - old;
    chunks.reserve(more)?;
    for _ in 0..more {
        chunks.push(zeros.share()?)?;
    }
    Ok(())
}
