// Vectors (Binary Format, Conventions: Vectors).
ghost use Rattle.std.specs.Prelude.{◌≤◌, length, IfOk};
ghost use Rattle.grammar_forms.specs.Forms.{many};
ghost use Rattle.wasm_binary.specs.Values.{vec};
ghost use Rattle.wasm_read.specs.Views.{Agrees};

use crate::bad::ReadBad;
use crate::numbers::read_u32;
use crate::types::read_val_type;
use crate::views::View;
use std::alloc::Global;
use wasm_ast::{List, ValType};

/// What stands in vectors, with its form in the grammar.
pub(crate) trait Entry: Drop {
    ghost use Rattle.grammar_forms.specs.Forms.{Form};
    ghost use Rattle.wasm_binary.specs.Faults.{Fault};

    ghost form: { Form Fault Self };

    /// The entry that begins at a place, and the place after it.
    fn read(alloc: Global, view: &View, at: usize) -> Result<(Self, usize), ReadBad>
        requires { at ≤ length view.now.bytes }
        ensures agrees { Agrees (form.read view.now at) result }
        ensures within { IfOk result (λ x. x.1 ≤ length view.now.bytes) };
}

/// A vector: a count and that many entries.
pub(crate) fn read_vec<T: Entry>(
    alloc: Global,
    view: &View,
    at: usize,
) -> Result<(List<T>, usize), ReadBad>
    requires { at ≤ length view.now.bytes }
    ensures agrees { Agrees ((vec T.form).read view.now at) result }
    ensures within { IfOk result (λ x. x.1 ≤ length view.now.bytes) }
{
    let (count, at) = read_u32(view, at)?;
    read_many(alloc, view, at, count)
}

/// This many entries. It takes memory for an entry once that entry is read.
pub(crate) fn read_many<T: Entry>(
    alloc: Global,
    view: &View,
    start: usize,
    count: u32,
) -> Result<(List<T>, usize), ReadBad>
    requires { start ≤ length view.now.bytes }
    ensures agrees { Agrees ((many T.form count).read view.now start) result }
    ensures within { IfOk result (λ x. x.1 ≤ length view.now.bytes) }
{
    let mut entries = List::new(Vec::new(alloc));
    let mut at = start;
    for _ in 0..count {
        let (entry, next) = T::read(alloc, view, at)?;
        entries.push(entry)?;
        at = next;
    }
    entries.shrink();
    Ok((entries, at))
}

impl Entry for u32 {
    ghost use Rattle.wasm_binary.specs.Values.{u32 as u32_form};

    ghost form = { u32_form };

    fn read(_alloc: Global, view: &View, at: usize) -> Result<(u32, usize), ReadBad> {
        read_u32(view, at)
    }
}

impl Entry for ValType {
    ghost use Rattle.wasm_binary.specs.Types.{val_type};

    ghost form = { val_type };

    fn read(_alloc: Global, view: &View, at: usize) -> Result<(ValType, usize), ReadBad> {
        read_val_type(view, at)
    }
}
