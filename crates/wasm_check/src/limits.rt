// The types of tables and memories (Validation, Types: Limits, Table Types, Memory Types).
ghost use Rattle.std.specs.Prelude.{◌↔◌, IsTrue};
ghost use Rattle.wasm_check.specs.Modules.{AreWithin, IsTableType, IsMemoryType};

use wasm_ast::{Limits, TableType};

/// The greatest size of a memory, in pages of 65,536 bytes.
const MOST_PAGES: u32 = 65_536;

fn are_within(bound: u32, limits: Limits) -> bool
    ensures { IsTrue result ↔ AreWithin bound limits }
{
    match limits.max {
        None => limits.min <= bound,
        Some(max) => limits.min <= bound && max <= bound && limits.min <= max,
    }
}

/// Whether the limits of a table's size are in order.
pub fn is_table_type(ty: TableType) -> bool
    ensures { IsTrue result ↔ IsTableType ty }
{
    are_within(u32::MAX, ty.limits)
}

/// Whether the limits of a memory's size are in order, and within 65,536 pages.
pub fn is_memory_type(limits: Limits) -> bool
    ensures { IsTrue result ↔ IsMemoryType limits }
{
    are_within(MOST_PAGES, limits)
}
