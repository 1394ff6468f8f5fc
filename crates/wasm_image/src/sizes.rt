// Memories and tables that are too large to be run.
ghost use Rattle.std.specs.Prelude.{MatchOption, map};
ghost use Rattle.wasm_image.specs.Sizes.{AreAtMost, IsFirstAbove, FitsSizes, IsTooLarge};

use crate::images::Image;
use wasm_ast::{Limits, TableType};

/// The most pages that a memory may have at the start, each of 65,536 bytes.
const MOST_PAGES: u32 = 1_024;

/// The most tables that a module may have.
const MOST_TABLES: usize = 64;

/// The most elements that a table may have at the start.
const MOST_ELEMENTS: u32 = 65_536;

/// A size that is too large.
#[derive(Clone, Copy, Debug, PartialEq, Eq)]
pub enum Large {
    /// A memory has at least this many pages, more than 1,024.
    Memory(u32),
    /// There are this many tables, more than 64.
    Tables(u64),
    /// A table has at least this many elements, more than 65,536.
    Table(u32),
}

// The first minimum of a memory that is above the bound.
fn large_memory(memories: &[Limits], bound: u32) -> Option<u32>
    ensures { MatchOption result (AreAtMost bound memories.now) (IsFirstAbove bound memories.now) }
{
    for limits in memories {
        if limits.min > bound {
            return Some(limits.min);
        }
    }
    None
}

// The first minimum of a table that is above the bound.
fn large_table(tables: &[TableType], bound: u32) -> Option<u32>
    ensures { MatchOption result (AreAtMost bound (map (λ t. t.limits) tables.now)) (IsFirstAbove bound (map (λ t. t.limits) tables.now)) }
{
    for table in tables {
        if table.limits.min > bound {
            return Some(table.limits.min);
        }
    }
    None
}

/// The first size that is too large: of a memory, else the number of tables, else of the first table whose size is.
/// Imports are counted. Where there is none, the module can be run. It takes no memory.
pub fn too_large(i: &Image) -> Option<Large>
    ensures { MatchOption result (FitsSizes i.now) (IsTooLarge i.now) }
{
    if let Some(min) = large_memory(i.memories(), MOST_PAGES) {
        return Some(Large::Memory(min));
    }
    let tables = i.tables();
    if tables.len() > MOST_TABLES {
        return Some(Large::Tables(tables.len() as u64));
    }
    if let Some(min) = large_table(tables, MOST_ELEMENTS) {
        return Some(Large::Table(min));
    }
    None
}
