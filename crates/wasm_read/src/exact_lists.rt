// Lists in memory of their own size.
ghost use Rattle.std.specs.Prelude.{◌≡◌, IfOk};

use std::alloc::{AllocError, Global};
use wasm_ast::List;

// Up to so many items are moved.
const FEW: usize = 64;

/// The list of these items, without memory beyond them. A few are moved, so that the block in which they stood serves for
/// what is read next: shrunk, it would leave a hole too small for most. More of them stay where they are.
pub(crate) fn exact_list<T: Drop>(alloc: Global, items: Vec<T>) -> Result<List<T>, AllocError>
    ensures { IfOk result (λ list. list ≡ items.items) }
{
    let mut items = items;
    if items.len() > FEW {
        items.shrink_to_fit();
        return Ok(List::new(items));
    }
    let mut moved = Vec::with_capacity(alloc, items.len())?;
    moved.append(&mut items)?;
    Ok(List::new(moved))
}
