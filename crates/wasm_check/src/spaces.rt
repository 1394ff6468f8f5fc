// The index spaces of a module (Structure, Modules: Indices).
ghost use Rattle.std.specs.Prelude.{◌≡◌, IfOk};
ghost use Rattle.wasm_check.specs.Contexts.{func_import as func_import_of, table_import as table_import_of, memory_import as memory_import_of, global_import as global_import_of, funcs_of as module_funcs, tables_of as module_tables, memories_of as module_memories, globals_of as module_globals};
ghost use Rattle.wasm_check.specs.Spaces.{AreSpacesOf};

use std::alloc::{AllocError, Global};
use wasm_ast::{GlobalType, ImportKind, Limits, Module, TableType};

fn func_import(kind: ImportKind) -> Option<u32>
    ensures { result ≡ func_import_of kind }
{
    match kind {
        ImportKind::Func(ty) => Some(ty),
        _ => None,
    }
}

fn table_import(kind: ImportKind) -> Option<TableType>
    ensures { result ≡ table_import_of kind }
{
    match kind {
        ImportKind::Table(ty) => Some(ty),
        _ => None,
    }
}

/// The limits of an imported memory.
pub fn memory_import(kind: ImportKind) -> Option<Limits>
    ensures { result ≡ memory_import_of kind }
{
    match kind {
        ImportKind::Memory(limits) => Some(limits),
        _ => None,
    }
}

fn global_import(kind: ImportKind) -> Option<GlobalType>
    ensures { result ≡ global_import_of kind }
{
    match kind {
        ImportKind::Global(ty) => Some(ty),
        _ => None,
    }
}

fn funcs_of(alloc: Global, m: &Module) -> Result<Vec<u32>, AllocError>
    ensures { IfOk result (λ v. v.items ≡ module_funcs m.now) }
{
    let imports = m
        .imports
        .as_slice()
        .iter()
        .filter_map(|i| func_import(i.kind));
    imports
        .chain(m.funcs.as_slice().iter().map(|f| f.ty))
        .collect(alloc)
}

fn tables_of(alloc: Global, m: &Module) -> Result<Vec<TableType>, AllocError>
    ensures { IfOk result (λ v. v.items ≡ module_tables m.now) }
{
    let imports = m
        .imports
        .as_slice()
        .iter()
        .filter_map(|i| table_import(i.kind));
    imports
        .chain(m.tables.as_slice().iter().copied())
        .collect(alloc)
}

fn memories_of(alloc: Global, m: &Module) -> Result<Vec<Limits>, AllocError>
    ensures { IfOk result (λ v. v.items ≡ module_memories m.now) }
{
    let imports = m
        .imports
        .as_slice()
        .iter()
        .filter_map(|i| memory_import(i.kind));
    imports
        .chain(m.memories.as_slice().iter().copied())
        .collect(alloc)
}

fn globals_of(alloc: Global, m: &Module) -> Result<Vec<GlobalType>, AllocError>
    ensures { IfOk result (λ v. v.items ≡ module_globals m.now) }
{
    let imports = m
        .imports
        .as_slice()
        .iter()
        .filter_map(|i| global_import(i.kind));
    imports
        .chain(m.globals.as_slice().iter().map(|g| g.ty))
        .collect(alloc)
}

/// What there is in each index space, imports first: for each function the number of its type, for each table, memory and
/// global its type.
#[derive(Drop)]
pub struct Spaces {
    pub funcs: Vec<u32>,
    pub tables: Vec<TableType>,
    pub memories: Vec<Limits>,
    pub globals: Vec<GlobalType>,
}

/// The index spaces of the module.
pub fn spaces_of(alloc: Global, m: &Module) -> Result<Spaces, AllocError>
    ensures { IfOk result (λ spaces. AreSpacesOf m.now spaces) }
{
    let funcs = funcs_of(alloc, m)?;
    let tables = tables_of(alloc, m)?;
    let memories = memories_of(alloc, m)?;
    let globals = globals_of(alloc, m)?;
    Ok(Spaces {
        funcs,
        tables,
        memories,
        globals,
    })
}
