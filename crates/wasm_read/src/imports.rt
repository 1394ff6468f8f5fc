// Imports, globals and exports (Binary Format, Modules: Import Section, Global Section, Export Section).
ghost use Rattle.std.specs.Prelude.{◌≡◌, ◌<◌, ◌≤◌, length, IfOk};
ghost use Rattle.wasm_binary.specs.SectionEntries.{import_kind as import_kind_form, import as import_form, global as global_form, export as export_form, space_of as space_by_byte};
ghost use Rattle.wasm_read.specs.Views.{Agrees};

use crate::bad::ReadBad;
use crate::entries::Entry;
use crate::expressions::read_expr;
use crate::names::read_name;
use crate::numbers::read_u32;
use crate::types::{read_global_type, read_limits, read_one_of, read_table_type};
use crate::views::View;
use std::alloc::Global;
use wasm_ast::{Export, GlobalDef, Import, ImportKind, Space};

// What an import is, by the byte before it.
fn read_import_kind(view: &View, at: usize, byte: u8) -> Result<(ImportKind, usize), ReadBad>
    requires { at ≤ length view.now.bytes }
    ensures agrees { Agrees ((import_kind_form byte).read view.now at) result }
    ensures within { IfOk result (λ x. x.1 ≤ length view.now.bytes) }
{
    match byte {
        0 => {
            let (ty, at) = read_u32(view, at)?;
            Ok((ImportKind::Func(ty), at))
        }
        1 => {
            let (ty, at) = read_table_type(view, at)?;
            Ok((ImportKind::Table(ty), at))
        }
        2 => {
            let (ty, at) = read_limits(view, at)?;
            Ok((ImportKind::Memory(ty), at))
        }
        _ => {
            let (ty, at) = read_global_type(view, at)?;
            Ok((ImportKind::Global(ty), at))
        }
    }
}

/// An import: the name of the module that it comes from, its name there, and what it is.
pub(crate) fn read_import(alloc: Global, view: &View, at: usize) -> Result<(Import, usize), ReadBad>
    requires { at ≤ length view.now.bytes }
    ensures agrees { Agrees (import_form.read view.now at) result }
    ensures within { IfOk result (λ x. x.1 ≤ length view.now.bytes) }
{
    let (module, at) = read_name(alloc, view, at)?;
    let (name, at) = read_name(alloc, view, at)?;
    let (byte, at) = read_one_of(view, at, 4)?;
    let (kind, at) = read_import_kind(view, at, byte)?;
    Ok((Import { module, name, kind }, at))
}

/// A global: its type and the expression that gives its first value.
pub(crate) fn read_global(
    alloc: Global,
    view: &View,
    at: usize,
) -> Result<(GlobalDef, usize), ReadBad>
    requires { at ≤ length view.now.bytes }
    ensures agrees { Agrees (global_form.read view.now at) result }
    ensures within { IfOk result (λ x. x.1 ≤ length view.now.bytes) }
{
    let (ty, at) = read_global_type(view, at)?;
    let (init, at) = read_expr(alloc, view, at, true)?;
    Ok((GlobalDef { ty, init }, at))
}

// What an export's index counts, by its byte.
fn space_of(byte: u8) -> Space
    ensures { result ≡ space_by_byte byte }
{
    match byte {
        0 => Space::Func,
        1 => Space::Table,
        2 => Space::Memory,
        _ => Space::Global,
    }
}

/// An export: its name, what its index counts, and the index.
pub(crate) fn read_export(alloc: Global, view: &View, at: usize) -> Result<(Export, usize), ReadBad>
    requires { at ≤ length view.now.bytes }
    ensures agrees { Agrees (export_form.read view.now at) result }
    ensures within { IfOk result (λ x. x.1 ≤ length view.now.bytes) }
{
    let (name, at) = read_name(alloc, view, at)?;
    let (byte, at) = read_one_of(view, at, 4)?;
    let (index, at) = read_u32(view, at)?;
    let space = space_of(byte);
    Ok((Export { name, space, index }, at))
}

impl Entry for Import {
    ghost use Rattle.wasm_binary.specs.SectionEntries.{import};

    ghost form = { import };

    fn read(alloc: Global, view: &View, at: usize) -> Result<(Import, usize), ReadBad> {
        read_import(alloc, view, at)
    }
}

impl Entry for GlobalDef {
    ghost use Rattle.wasm_binary.specs.SectionEntries.{global};

    ghost form = { global };

    fn read(alloc: Global, view: &View, at: usize) -> Result<(GlobalDef, usize), ReadBad> {
        read_global(alloc, view, at)
    }
}

impl Entry for Export {
    ghost use Rattle.wasm_binary.specs.SectionEntries.{export};

    ghost form = { export };

    fn read(alloc: Global, view: &View, at: usize) -> Result<(Export, usize), ReadBad> {
        read_export(alloc, view, at)
    }
}
