// A second machine, equal to the first.
ghost use Rattle.std.specs.Prelude.{◌≡◌, IfOk, map};

use crate::machine::Machine;
use crate::values::Reference;
use std::alloc::{AllocError, Global};

// The same items.
fn copy_items<T: Copy>(alloc: Global, items: &[T]) -> Result<Vec<T>, AllocError>
    ensures { IfOk result (λ v. v.items ≡ items.now) }
{
    let mut copied = Vec::new(alloc);
    copied.extend_from_slice(items)?;
    Ok(copied)
}

// The same lists.
fn copy_lists(alloc: Global, lists: &[Vec<Reference>]) -> Result<Vec<Vec<Reference>>, AllocError>
    ensures { IfOk result (λ v. map (λ t. t.items) v.items ≡ map (λ t. t.items) lists.now) }
{
    let mut copied = Vec::new(alloc);
    for list in lists {
        copied.push(copy_items(alloc, list.as_slice())?)?;
    }
    Ok(copied)
}

impl<W: Copy> Machine<W> {
    /// An equal machine. The only error is that memory ran out.
    pub fn copy(&self, alloc: Global) -> Result<Machine<W>, AllocError>
        ensures { IfOk result (λ s. s ≡ self.now) }
    {
        let operands = copy_items(alloc, self.operands.as_slice())?;
        let locals = copy_items(alloc, self.locals.as_slice())?;
        let labels = copy_items(alloc, self.labels.as_slice())?;
        let callers = copy_items(alloc, self.callers.as_slice())?;
        let globals = copy_items(alloc, self.globals.as_slice())?;
        let tables = copy_lists(alloc, self.tables.as_slice())?;
        let elems = copy_lists(alloc, self.elems.as_slice())?;
        let dropped = copy_items(alloc, self.dropped.as_slice())?;
        let answers = copy_items(alloc, self.answers.as_slice())?;
        Ok(Machine {
            operands,
            locals,
            labels,
            frame: self.frame,
            callers,
            globals,
            tables,
            elems,
            dropped,
            answers,
            units: self.units,
            entry: self.entry,
        })
    }
}
