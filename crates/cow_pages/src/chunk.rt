// A chunk of cells.
ghost use Rattle.std.specs.Prelude.{◌≡◌, ◌+◌, ◌<◌, ◌≤◌, IfOk, OnOk, OnErr, Some, length, replicate, slice_get, slice_set};
ghost use Rattle.std.specs.Arc.{arc_value};
ghost use Rattle.cow_pages.specs.Cells.{written, part};
ghost use Rattle.cow_pages.specs.code.Chunks.{chunk_cells};

use std::alloc::{AllocError, Global};
use std::marker::Model;
use std::sync::Arc;

/// How many cells a chunk has.
pub const CHUNK: usize = 1_024;

/// A chunk: 1,024 cells, which several owners may share until one of them writes.
#[derive(Drop)]
pub struct Chunk {
    cells: Arc<[u64; CHUNK]>,
}

impl Model for Chunk {
    ghost use Rattle.std.specs.Prelude.{◌≡◌, ℕ, List, length};
    ghost use Rattle.std.specs.Arc.{arc_value};
    ghost use Rattle.cow_pages.specs.code.Chunks.{chunk_cells};

    ghost Value = { List ℕ };

    ghost view = { λ c. arc_value c.cells };

    ghost invariant = { λ c. length (arc_value c.cells) ≡ chunk_cells };
}

impl Chunk {
    /// A chunk of zeros.
    pub fn new(alloc: Global) -> Result<Chunk, AllocError>
        ensures { IfOk result (λ c. c ≡ replicate chunk_cells 0) }
    {
        Ok(Chunk {
            cells: Arc::new(alloc, [0; CHUNK])?,
        })
    }

    /// The cell at a place.
    pub fn get(&self, at: usize) -> u64
        requires { at < chunk_cells }
        ensures { slice_get self.now at ≡ Some result }
    {
        self.cells[at]
    }

    /// The cells from a place on.
    pub fn read(&self, at: usize, out: &mut [u64])
        requires { at + length out.old ≤ chunk_cells }
        ensures { out.new ≡ part at (length out.old) self.now }
    {
        out.copy_from_slice(&self.cells[at..at + out.len()]);
    }

    /// An equal chunk, which shares its cells with this one.
    pub fn share(&self) -> Result<Chunk, AllocError>
        ensures { IfOk result (λ c. c ≡ self.now) }
    {
        Ok(Chunk {
            cells: Arc::try_clone(&self.cells)?,
        })
    }

    /// Cells are written, from a place on. Where the chunk is shared it is copied first.
    pub fn write(&mut self, alloc: Global, at: usize, cells: &[u64]) -> Result<(), AllocError>
        requires { at + length cells.now ≤ chunk_cells }
        ensures written { OnOk result (self.new ≡ written at cells.now self.old) }
        ensures refused { OnErr result (self.new ≡ self.old) }
    {
        match Arc::get_mut(&mut self.cells) {
            Some(own) => {
                own[at..at + cells.len()].copy_from_slice(cells);
                Ok(())
            }
            None => {
                let copy = self.copied(alloc, at, cells)?;
                *self = copy;
                Ok(())
            }
        }
    }

    /// A cell is written. Where the chunk is shared it is copied first.
    #[inline]
    pub fn set(&mut self, alloc: Global, at: usize, cell: u64) -> Result<(), AllocError>
        requires { at < chunk_cells }
        ensures set { OnOk result (self.new ≡ slice_set self.old at cell) }
        ensures refused { OnErr result (self.new ≡ self.old) }
    {
        match Arc::get_mut(&mut self.cells) {
            Some(own) => {
                own[at] = cell;
                Ok(())
            }
            None => {
                let copy = self.copied(alloc, at, &[cell])?;
                *self = copy;
                Ok(())
            }
        }
    }

    /// One cell is written to each place of a range. Where the chunk is shared it is copied first.
    pub fn fill(
        &mut self,
        alloc: Global,
        at: usize,
        count: usize,
        cell: u64,
    ) -> Result<(), AllocError>
        requires { at + count ≤ chunk_cells }
        ensures filled { OnOk result (self.new ≡ written at (replicate count cell) self.old) }
        ensures refused { OnErr result (self.new ≡ self.old) }
    {
        match Arc::get_mut(&mut self.cells) {
            Some(own) => {
                own[at..at + count].fill(cell);
                Ok(())
            }
            None => {
                let copy = self.filled(alloc, at, count, cell)?;
                *self = copy;
                Ok(())
            }
        }
    }

    // A chunk of its own, in which cells are written from a place on. As a large array is cleared where its function begins, this
    // one stands apart from its callers, and so do all that have one.
    #[inline(never)]
    fn copied(&self, alloc: Global, at: usize, cells: &[u64]) -> Result<Chunk, AllocError>
        requires { at + length cells.now ≤ chunk_cells }
        ensures { IfOk result (λ c. c ≡ written at cells.now self.now) }
    {
        let mut own = *self.cells;
        own[at..at + cells.len()].copy_from_slice(cells);
        Ok(Chunk {
            cells: Arc::new(alloc, own)?,
        })
    }

    // A chunk of its own, in which one cell is written to each place of a range.
    #[inline(never)]
    fn filled(&self, alloc: Global, at: usize, count: usize, cell: u64) -> Result<Chunk, AllocError>
        requires { at + count ≤ chunk_cells }
        ensures { IfOk result (λ c. c ≡ written at (replicate count cell) self.now) }
    {
        let mut own = *self.cells;
        own[at..at + count].fill(cell);
        Ok(Chunk {
            cells: Arc::new(alloc, own)?,
        })
    }
}
