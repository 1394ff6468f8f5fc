// The rules of entries, bodies aside (Validation, Modules).
ghost use Rattle.std.specs.Prelude.{◌≡◌, ◌↔◌, ◌+◌, ◌<◌, ◌≤◌, [], IsTrue, All, length, slice_get};
ghost use Rattle.wasm_check.specs.Modules.{ImportNoMemory, ImportIsValid, IsType, MemoryIsValid, space_size as space_size_of, GlobalIsValid, StartIsValid, IsOffset, HasTable, ElemModeIsValid, ElemIsValid, DataModeIsValid};
ghost use Rattle.wasm_check.specs.Constants.{IsConstant};
ghost use Rattle.wasm_check.specs.Contexts.{funcs_of, globals_of, imported_globals};
ghost use Rattle.wasm_check.specs.Spaces.{AreSpacesOf};

use crate::constants::{are_constant, is_constant};
use crate::limits::{is_memory_type, is_table_type};
use crate::spaces::{Spaces, memory_import};
use wasm_ast::{
    Elem, Export, Expr, GlobalDef, Import, ImportKind, Limits, Mode, Module, Segment, Space,
    ValType,
};

// Whether none of the imports is a memory.
fn import_no_memory(imports: &[Import]) -> bool
    ensures { IsTrue result ↔ ImportNoMemory imports.now }
{
    imports.iter().all(|i| memory_import(i.kind).is_none())
}

fn is_type(m: &Module, ty: u32) -> bool
    ensures { IsTrue result ↔ IsType m.now ty }
{
    (ty as usize) < m.types.len()
}

/// Whether the entry `k` of the imports may import this.
pub fn import_is_valid(m: &Module, k: usize, kind: ImportKind) -> bool
    requires { k ≤ length m.now.imports }
    ensures { IsTrue result ↔ ImportIsValid m.now k kind }
{
    match kind {
        ImportKind::Func(ty) => is_type(m, ty),
        ImportKind::Table(ty) => is_table_type(ty),
        ImportKind::Memory(limits) => {
            is_memory_type(limits) && import_no_memory(&m.imports.as_slice()[..k])
        }
        ImportKind::Global(_) => true,
    }
}

/// Whether a function may have the type of this number.
pub fn func_is_valid(m: &Module, ty: u32) -> bool
    ensures { IsTrue result ↔ IsType m.now ty }
{
    is_type(m, ty)
}

/// Whether the entry `k` of the memories may have these limits.
pub fn memory_is_valid(m: &Module, k: usize, limits: Limits) -> bool
    ensures { IsTrue result ↔ MemoryIsValid m.now k limits }
{
    is_memory_type(limits) && k == 0 && import_no_memory(m.imports.as_slice())
}

// How many globals stand before the entry `k` of the globals.
fn globals_before(m: &Module, spaces: &Spaces, k: usize) -> usize
    requires spaces { AreSpacesOf m.now spaces.now }
    requires here { k < length m.now.globals }
    ensures number { result ≡ length (imported_globals m.now) + k }
    ensures within { result ≤ length spaces.now.globals.items }
{
    spaces.globals.len() - m.globals.len() + k
}

/// Whether the first value of the entry `k` of the globals is a constant of its type.
pub fn global_is_valid(m: &Module, spaces: &Spaces, k: usize, global: &GlobalDef) -> bool
    requires spaces { AreSpacesOf m.now spaces.now }
    requires here { k < length m.now.globals }
    ensures { IsTrue result ↔ GlobalIsValid m.now k global.now }
{
    let before = &spaces.globals.as_slice()[..globals_before(m, spaces, k)];
    is_constant(spaces.funcs.len(), before, &global.init, global.ty.kind)
}

fn space_size(m: &Module, spaces: &Spaces, space: Space) -> usize
    requires { AreSpacesOf m.now spaces.now }
    ensures { result ≡ space_size_of m.now space }
{
    match space {
        Space::Func => spaces.funcs.len(),
        Space::Table => spaces.tables.len(),
        Space::Memory => spaces.memories.len(),
        Space::Global => spaces.globals.len(),
    }
}

/// Whether what is exported is there.
pub fn export_is_there(m: &Module, spaces: &Spaces, export: &Export) -> bool
    requires { AreSpacesOf m.now spaces.now }
    ensures { IsTrue result ↔ (export.now.index < space_size_of m.now export.now.space) }
{
    (export.index as usize) < space_size(m, spaces, export.space)
}

/// Whether the module may start by this function.
pub fn start_is_valid(m: &Module, spaces: &Spaces, x: u32) -> bool
    requires { AreSpacesOf m.now spaces.now }
    ensures { IsTrue result ↔ StartIsValid m.now x }
{
    match spaces.funcs.get(x as usize) {
        None => false,
        Some(ty) => takes_and_gives_nothing(m, *ty),
    }
}

fn takes_and_gives_nothing(m: &Module, ty: u32) -> bool
    ensures { IsTrue result ↔ (slice_get m.now.types ty ≡ Some (record { params = []; results = [] })) }
{
    match m.types.as_slice().get(ty as usize) {
        None => false,
        Some(ty) => ty.params.is_empty() && ty.results.is_empty(),
    }
}

fn table_has_kind(m: &Module, spaces: &Spaces, x: u32, kind: ValType) -> bool
    requires { AreSpacesOf m.now spaces.now }
    ensures { IsTrue result ↔ HasTable m.now x kind }
{
    match spaces.tables.get(x as usize) {
        None => false,
        Some(ty) => ty.kind == kind,
    }
}

fn offset_is_valid(m: &Module, spaces: &Spaces, offset: &Expr) -> bool
    requires { AreSpacesOf m.now spaces.now }
    ensures { IsTrue result ↔ IsOffset m.now offset.now }
{
    is_constant(
        spaces.funcs.len(),
        spaces.globals.as_slice(),
        offset,
        ValType::I32,
    )
}

fn elem_mode_is_valid(m: &Module, spaces: &Spaces, kind: ValType, mode: &Mode) -> bool
    requires { AreSpacesOf m.now spaces.now }
    ensures { IsTrue result ↔ ElemModeIsValid m.now kind mode.now }
{
    match mode {
        Mode::Active { index, offset } => {
            table_has_kind(m, spaces, *index, kind) && offset_is_valid(m, spaces, offset)
        }
        _ => true,
    }
}

fn elem_items_are_valid(m: &Module, spaces: &Spaces, elem: &Elem) -> bool
    requires { AreSpacesOf m.now spaces.now }
    ensures { IsTrue result ↔ All (λ item. IsConstant (length (funcs_of m.now)) (globals_of m.now) item elem.now.kind) elem.now.items }
{
    are_constant(
        spaces.funcs.len(),
        spaces.globals.as_slice(),
        elem.items.as_slice(),
        elem.kind,
    )
}

/// Whether an element segment is valid.
pub fn elem_is_valid(m: &Module, spaces: &Spaces, elem: &Elem) -> bool
    requires { AreSpacesOf m.now spaces.now }
    ensures { IsTrue result ↔ ElemIsValid m.now elem.now }
{
    elem_items_are_valid(m, spaces, elem) && elem_mode_is_valid(m, spaces, elem.kind, &elem.mode)
}

/// Whether a data segment is valid.
pub fn segment_is_valid(m: &Module, spaces: &Spaces, segment: &Segment) -> bool
    requires { AreSpacesOf m.now spaces.now }
    ensures { IsTrue result ↔ DataModeIsValid m.now segment.now.mode }
{
    match &segment.mode {
        Mode::Active { index, offset } => {
            (*index as usize) < spaces.memories.len() && offset_is_valid(m, spaces, offset)
        }
        _ => true,
    }
}
