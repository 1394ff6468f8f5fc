// The entries of the sections of types, tables and memories (Binary Format, Modules: Type Section, Table Section, Memory
// Section).
ghost use Rattle.std.specs.Prelude.{◌≤◌, length, IfOk};
ghost use Rattle.wasm_binary.specs.Types.{func_type};
ghost use Rattle.wasm_read.specs.Views.{Agrees};

use crate::bad::ReadBad;
use crate::entries::{Entry, read_vec};
use crate::numbers::read_tag;
use crate::types::{read_limits, read_table_type};
use crate::views::View;
use std::alloc::Global;
use wasm_ast::{FuncType, Limits, TableType};

/// A function type: a byte 60, the params and the results.
pub(crate) fn read_func_type(
    alloc: Global,
    view: &View,
    at: usize,
) -> Result<(FuncType, usize), ReadBad>
    requires { at ≤ length view.now.bytes }
    ensures agrees { Agrees (func_type.read view.now at) result }
    ensures within { IfOk result (λ x. x.1 ≤ length view.now.bytes) }
{
    let (_, at) = read_tag(view, at, 0x60)?;
    let (params, at) = read_vec(alloc, view, at)?;
    let (results, at) = read_vec(alloc, view, at)?;
    Ok((FuncType { params, results }, at))
}

impl Entry for FuncType {
    ghost use Rattle.wasm_binary.specs.Types.{func_type};

    ghost form = { func_type };

    fn read(alloc: Global, view: &View, at: usize) -> Result<(FuncType, usize), ReadBad> {
        read_func_type(alloc, view, at)
    }
}

impl Entry for TableType {
    ghost use Rattle.wasm_binary.specs.Types.{table_type};

    ghost form = { table_type };

    fn read(_alloc: Global, view: &View, at: usize) -> Result<(TableType, usize), ReadBad> {
        read_table_type(view, at)
    }
}

impl Entry for Limits {
    ghost use Rattle.wasm_binary.specs.Types.{limits};

    ghost form = { limits };

    fn read(_alloc: Global, view: &View, at: usize) -> Result<(Limits, usize), ReadBad> {
        read_limits(view, at)
    }
}
