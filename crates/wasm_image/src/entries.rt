// The function that a run begins with.
ghost use Rattle.std.specs.Prelude.{◌≡◌, ◌↔◌, ℕ, IsTrue, MatchOption, MatchResult, map};
ghost use Rattle.wasm_image.specs.Entries.{type_of as type_of_value, IsExported, IsEntry, IsNoEntry};
ghost use Rattle.wasm_image.specs.Kept.{ExportsFunction};

use crate::images::Image;
use wasm_ast::{Export, Module, Space, ValType, Value};

/// Why there is no entry.
#[derive(Clone, Copy, Debug, PartialEq, Eq)]
pub enum EntryBad {
    /// No function is exported by the name.
    NoExport,
    /// The types of the arguments aren't the parameters of the function that is. Its index counts imports.
    Args { function: u32 },
}

// The type of a value.
fn type_of(value: Value) -> ValType
    ensures { result ≡ type_of_value value }
{
    match value {
        Value::I32(_) => ValType::I32,
        Value::I64(_) => ValType::I64,
        Value::Func(_) => ValType::FuncRef,
        Value::Extern => ValType::ExternRef,
    }
}

fn has_type(value: Value, kind: ValType) -> bool
    ensures { IsTrue result ↔ (type_of_value value ≡ kind) }
{
    type_of(value) == kind
}

// Whether the values have these types.
fn have_types(values: &[Value], types: &[ValType]) -> bool
    ensures { IsTrue result ↔ (map type_of_value values.now ≡ types.now) }
{
    if values.len() != types.len() {
        return false;
    }
    for i in 0..values.len() {
        if !has_type(values[i], types[i]) {
            return false;
        }
    }
    true
}

// Whether the export is of a function, by the name.
fn exports_function(export: &Export, name: &str) -> bool
    ensures { IsTrue result ↔ ExportsFunction name.now export.now }
{
    export.space == Space::Func && export.name.as_slice() == name
}

// The function that is exported by the name.
fn exported(m: &Module, name: &str) -> Option<u32>
    ensures { MatchOption result ((f : ℕ) → ¬ IsExported m.now name.now f) (IsExported m.now name.now) }
{
    for export in m.exports.as_slice() {
        if exports_function(export, name) {
            return Some(export.index);
        }
    }
    None
}

/// The function that is exported by the name and takes these arguments, by its index, imports counted. It takes no
/// memory.
pub fn entry_of(i: &Image, name: &str, args: &[Value]) -> Result<u32, EntryBad>
    ensures { MatchResult result (IsEntry i.now name.now args.now) (IsNoEntry i.now name.now args.now) }
{
    match exported(i.module(), name) {
        None => Err(EntryBad::NoExport),
        Some(f) => {
            let ty = i.function_type(f);
            if have_types(args, ty.params.as_slice()) {
                Ok(f)
            } else {
                Err(EntryBad::Args { function: f })
            }
        }
    }
}
