// Locals of one type in a row make one group.
ghost use Rattle.std.specs.Prelude.{◌≡◌, ◌++◌, ◌∷◌, [], map, IfOk, OnOk};
ghost use Rattle.wasm_text.specs.Resolved.{groups_of};
ghost use Rattle.wat_resolve.specs.code.Spaces.{with_last};

use crate::types::kinds_equal;
use std::alloc::{AllocError, Global};
use wasm_ast::{Group, List, ValType};
use wasm_text::Local;

// Goes on with the last group, or puts it behind the others and begins one.
fn grow(done: &mut Vec<Group>, last: Group, kind: ValType) -> Result<Group, AllocError>
    ensures { IfOk result (λ g. done.new.items ++ g ∷ [] ≡ with_last done.old.items last kind) }
{
    if kinds_equal(last.kind, kind) {
        return match last.count.checked_add(1) {
            None => Err(AllocError),
            Some(count) => Ok(Group {
                count,
                kind: last.kind,
            }),
        };
    }
    done.push(last)?;
    Ok(Group { count: 1, kind })
}

// The groups of a local of this type and of others behind it.
fn groups_from(alloc: Global, first: ValType, rest: &[Local]) -> Result<List<Group>, AllocError>
    ensures { IfOk result (λ l. l ≡ groups_of (first ∷ map (λ l. l.kind) rest.now)) }
{
    let mut done = Vec::new(alloc);
    let mut last = Group {
        count: 1,
        kind: first,
    };
    for local in rest {
        last = grow(&mut done, last, local.kind)?;
    }
    done.push(last)?;
    Ok(List::new(done))
}

/// The groups of these locals.
pub(crate) fn groups(alloc: Global, locals: &[Local]) -> Result<List<Group>, AllocError>
    ensures { IfOk result (λ l. l ≡ groups_of (map (λ l. l.kind) locals.now)) }
{
    match locals.split_first() {
        None => Ok(List::new(Vec::new(alloc))),
        Some((first, rest)) => groups_from(alloc, first.kind, rest),
    }
}
