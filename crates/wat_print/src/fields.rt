// The fields of a module (Text Format, Modules).
ghost use Rattle.std.specs.Prelude.{◌≡◌, ◌++◌, OnOk, All, string_bytes, flat_map, codes, decimal};
ghost use Rattle.wasm_ast.specs.Shape.{ModeHasShape, ExprHasShape};
ghost use Rattle.wasm_text.specs.PrintedTypes.{locals_text};
ghost use Rattle.wasm_text.specs.Printing.{inline_text, import_kind_text, space_word as word_of_space, start_line, elem_mode_text, item_text, data_mode_text};

use crate::expressions::put_expr;
use crate::lists::Field;
use crate::strings::put_string;
use crate::types::{
    put_func_type, put_global_type, put_limits, put_locals, put_table_type, type_word,
};
use std::alloc::{AllocError, Global};
use wasm_ast::{
    Elem, Export, Expr, Func, FuncType, GlobalDef, Import, ImportKind, Limits, List, Mode, Segment,
    Space, TableType,
};

// Puts an expression on the field's line.
fn put_inline(alloc: Global, out: &mut String, expr: &Expr) -> Result<(), AllocError>
    requires { ExprHasShape expr.now }
    ensures { OnOk result (string_bytes out.new ≡ string_bytes out.old ++ inline_text expr.now) }
{
    put_expr(alloc, out, " ", expr)
}

impl Field for FuncType {
    ghost use Rattle.wasm_text.specs.Printing.{type_field};

    ghost Shape = { λ ty. Unit {0} };

    ghost text_of = { type_field };

    fn put(&self, _alloc: Global, out: &mut String) -> Result<(), AllocError> {
        out.push_str("(type ")?;
        put_func_type(out, self)?;
        out.push_str(")")
    }
}

fn put_import_kind(out: &mut String, kind: &ImportKind) -> Result<(), AllocError>
    ensures { OnOk result (string_bytes out.new ≡ string_bytes out.old ++ import_kind_text kind.now) }
{
    match kind {
        ImportKind::Func(ty) => {
            write!(out, "(func (type {ty}))")?;
            Ok(())
        }
        ImportKind::Table(ty) => {
            out.push_str("(table ")?;
            put_table_type(out, ty)?;
            out.push_str(")")
        }
        ImportKind::Memory(ty) => {
            out.push_str("(memory ")?;
            put_limits(out, ty)?;
            out.push_str(")")
        }
        ImportKind::Global(ty) => {
            out.push_str("(global ")?;
            put_global_type(out, ty)?;
            out.push_str(")")
        }
    }
}

impl Field for Import {
    ghost use Rattle.wasm_text.specs.Printing.{import_field};

    ghost Shape = { λ i. Unit {0} };

    ghost text_of = { import_field };

    fn put(&self, _alloc: Global, out: &mut String) -> Result<(), AllocError> {
        out.push_str("(import ")?;
        put_string(out, self.module.as_slice().as_bytes())?;
        out.push_str(" ")?;
        put_string(out, self.name.as_slice().as_bytes())?;
        out.push_str(" ")?;
        put_import_kind(out, &self.kind)?;
        out.push_str(")")
    }
}

// Puts the index of a function's type and its locals at the end.
fn put_func_head(out: &mut String, func: &Func) -> Result<(), AllocError>
    ensures { OnOk result (string_bytes out.new ≡ string_bytes out.old
        ++ (codes "(func (type " ++ decimal func.now.ty ++ codes ")" ++ locals_text func.now.locals)) }
{
    let ty = func.ty;
    write!(out, "(func (type {ty})")?;
    put_locals(out, &func.locals)?;
    Ok(())
}

impl Field for Func {
    ghost use Rattle.wasm_ast.specs.Shape.{FuncHasShape};
    ghost use Rattle.wasm_text.specs.Printing.{func_field};

    ghost Shape = { FuncHasShape };

    ghost text_of = { func_field };

    fn put(&self, alloc: Global, out: &mut String) -> Result<(), AllocError> {
        put_func_head(out, self)?;
        put_expr(alloc, out, "\n    ", &self.body)?;
        out.push_str("\n  )")
    }
}

impl Field for TableType {
    ghost use Rattle.wasm_text.specs.Printing.{table_field};

    ghost Shape = { λ ty. Unit {0} };

    ghost text_of = { table_field };

    fn put(&self, _alloc: Global, out: &mut String) -> Result<(), AllocError> {
        out.push_str("(table ")?;
        put_table_type(out, self)?;
        out.push_str(")")
    }
}

impl Field for Limits {
    ghost use Rattle.wasm_text.specs.Printing.{memory_field};

    ghost Shape = { λ ty. Unit {0} };

    ghost text_of = { memory_field };

    fn put(&self, _alloc: Global, out: &mut String) -> Result<(), AllocError> {
        out.push_str("(memory ")?;
        put_limits(out, self)?;
        out.push_str(")")
    }
}

impl Field for GlobalDef {
    ghost use Rattle.wasm_ast.specs.Shape.{ExprHasShape};
    ghost use Rattle.wasm_text.specs.Printing.{global_field};

    ghost Shape = { λ g. ExprHasShape g.init };

    ghost text_of = { global_field };

    fn put(&self, alloc: Global, out: &mut String) -> Result<(), AllocError> {
        out.push_str("(global ")?;
        put_global_type(out, &self.ty)?;
        put_inline(alloc, out, &self.init)?;
        out.push_str(")")
    }
}

fn space_word(space: Space) -> &'static str
    ensures { result.now ≡ word_of_space space }
{
    match space {
        Space::Func => "func",
        Space::Table => "table",
        Space::Memory => "memory",
        Space::Global => "global",
    }
}

impl Field for Export {
    ghost use Rattle.wasm_text.specs.Printing.{export_field};

    ghost Shape = { λ e. Unit {0} };

    ghost text_of = { export_field };

    fn put(&self, _alloc: Global, out: &mut String) -> Result<(), AllocError> {
        let index = self.index;
        out.push_str("(export ")?;
        put_string(out, self.name.as_slice().as_bytes())?;
        out.push_str(" (")?;
        out.push_str(space_word(self.space))?;
        write!(out, " {index}))")?;
        Ok(())
    }
}

// Puts the line of the start function at the end, where there is one.
pub(crate) fn put_start(out: &mut String, start: Option<u32>) -> Result<(), AllocError>
    ensures { OnOk result (string_bytes out.new ≡ string_bytes out.old ++ start_line start) }
{
    match start {
        None => Ok(()),
        Some(func) => {
            write!(out, "  (start {func})\n")?;
            Ok(())
        }
    }
}

// Puts what stands before an element segment's type at the end.
fn put_elem_mode(alloc: Global, out: &mut String, mode: &Mode) -> Result<(), AllocError>
    requires { ModeHasShape mode.now }
    ensures { OnOk result (string_bytes out.new ≡ string_bytes out.old ++ elem_mode_text mode.now) }
{
    match mode {
        Mode::Passive => Ok(()),
        Mode::Declared => out.push_str("declare "),
        Mode::Active { index, offset } => {
            write!(out, "(table {index}) (offset")?;
            put_inline(alloc, out, offset)?;
            out.push_str(") ")
        }
    }
}

fn put_item(alloc: Global, out: &mut String, item: &Expr) -> Result<(), AllocError>
    requires { ExprHasShape item.now }
    ensures { OnOk result (string_bytes out.new ≡ string_bytes out.old ++ item_text item.now) }
{
    out.push_str(" (item")?;
    put_inline(alloc, out, item)?;
    out.push_str(")")
}

fn put_items(alloc: Global, out: &mut String, list: &List<Expr>) -> Result<(), AllocError>
    requires { All ExprHasShape list.now }
    ensures { OnOk result (string_bytes out.new ≡ string_bytes out.old ++ flat_map item_text list.now) }
{
    let items = list.as_slice();
    for item in items {
        put_item(alloc, out, item)?;
    }
    Ok(())
}

impl Field for Elem {
    ghost use Rattle.wasm_ast.specs.Shape.{ElemHasShape};
    ghost use Rattle.wasm_text.specs.Printing.{elem_field};

    ghost Shape = { ElemHasShape };

    ghost text_of = { elem_field };

    fn put(&self, alloc: Global, out: &mut String) -> Result<(), AllocError> {
        out.push_str("(elem ")?;
        put_elem_mode(alloc, out, &self.mode)?;
        out.push_str(type_word(self.kind))?;
        put_items(alloc, out, &self.items)?;
        out.push_str(")")
    }
}

// Puts what stands before a data segment's bytes at the end.
fn put_data_mode(alloc: Global, out: &mut String, mode: &Mode) -> Result<(), AllocError>
    requires { ModeHasShape mode.now }
    ensures { OnOk result (string_bytes out.new ≡ string_bytes out.old ++ data_mode_text mode.now) }
{
    match mode {
        Mode::Passive => Ok(()),
        Mode::Declared => Ok(()),
        Mode::Active { index, offset } => {
            write!(out, "(memory {index}) (offset")?;
            put_inline(alloc, out, offset)?;
            out.push_str(") ")
        }
    }
}

impl Field for Segment {
    ghost use Rattle.wasm_ast.specs.Shape.{SegmentHasShape};
    ghost use Rattle.wasm_text.specs.Printing.{data_field};

    ghost Shape = { SegmentHasShape };

    ghost text_of = { data_field };

    fn put(&self, alloc: Global, out: &mut String) -> Result<(), AllocError> {
        out.push_str("(data ")?;
        put_data_mode(alloc, out, &self.mode)?;
        put_string(out, self.bytes.as_slice())?;
        out.push_str(")")
    }
}
