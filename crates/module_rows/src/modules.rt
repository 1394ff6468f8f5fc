// Modules as a row shows them, part by part.
use crate::instructions::{kind_word, put_expr, put_kinds};
use row_words::put_bytes;
use std::alloc::AllocError;
use std::fmt::Write;
use wasm_ast::{
    Custom, Elem, Export, Func, FuncType, GlobalDef, GlobalType, Import, ImportKind, Limits, Mode,
    Module, Segment, Space, TableType,
};

/// A part of a module that a row shows.
trait Shown {
    /// Appends the part.
    fn put(&self, out: &mut String) -> Result<(), AllocError>;
}

fn put_all<T: Shown>(out: &mut String, parts: &[T]) -> Result<(), AllocError> {
    for part in parts {
        part.put(out)?;
        out.push_str("; ")?;
    }
    Ok(())
}

impl Shown for FuncType {
    fn put(&self, out: &mut String) -> Result<(), AllocError> {
        out.push_str("type")?;
        put_kinds(out, self.params.as_slice())?;
        out.push_str(" ->")?;
        put_kinds(out, self.results.as_slice())
    }
}

fn put_limits(out: &mut String, limits: &Limits) -> Result<(), AllocError> {
    let min = limits.min;
    write!(out, " {min}")?;
    match limits.max {
        Some(max) => write!(out, " {max}"),
        None => Ok(()),
    }
}

impl Shown for Limits {
    fn put(&self, out: &mut String) -> Result<(), AllocError> {
        out.push_str("memory")?;
        put_limits(out, self)
    }
}

impl Shown for TableType {
    fn put(&self, out: &mut String) -> Result<(), AllocError> {
        out.push_str("table ")?;
        out.push_str(kind_word(self.kind))?;
        put_limits(out, &self.limits)
    }
}

impl Shown for GlobalType {
    fn put(&self, out: &mut String) -> Result<(), AllocError> {
        out.push_str(if self.mutable {
            "global mut "
        } else {
            "global "
        })?;
        out.push_str(kind_word(self.kind))
    }
}

fn put_kind(out: &mut String, kind: &ImportKind) -> Result<(), AllocError> {
    match kind {
        ImportKind::Func(ty) => {
            let ty = *ty;
            write!(out, "func {ty}")
        }
        ImportKind::Table(ty) => ty.put(out),
        ImportKind::Memory(limits) => limits.put(out),
        ImportKind::Global(ty) => ty.put(out),
    }
}

impl Shown for Import {
    fn put(&self, out: &mut String) -> Result<(), AllocError> {
        let from = self.module.as_slice();
        let name = self.name.as_slice();
        write!(out, "import '{from}' '{name}' ")?;
        put_kind(out, &self.kind)
    }
}

impl Shown for Func {
    fn put(&self, out: &mut String) -> Result<(), AllocError> {
        let ty = self.ty;
        write!(out, "func {ty}")?;
        for group in self.locals.as_slice() {
            let count = group.count;
            let kind = kind_word(group.kind);
            write!(out, " local {kind} {count}")?;
        }
        out.push_str(":")?;
        put_expr(out, &self.body)
    }
}

impl Shown for GlobalDef {
    fn put(&self, out: &mut String) -> Result<(), AllocError> {
        self.ty.put(out)?;
        out.push_str(":")?;
        put_expr(out, &self.init)
    }
}

fn space_word(space: Space) -> &'static str {
    match space {
        Space::Func => "func",
        Space::Table => "table",
        Space::Memory => "memory",
        Space::Global => "global",
    }
}

impl Shown for Export {
    fn put(&self, out: &mut String) -> Result<(), AllocError> {
        let name = self.name.as_slice();
        let space = space_word(self.space);
        let index = self.index;
        write!(out, "export '{name}' {space} {index}")
    }
}

fn put_mode(out: &mut String, mode: &Mode) -> Result<(), AllocError> {
    match mode {
        Mode::Passive => out.push_str(" passive"),
        Mode::Declared => out.push_str(" declared"),
        Mode::Active { index, offset } => {
            let index = *index;
            write!(out, " active {index} at")?;
            put_expr(out, offset)
        }
    }
}

impl Shown for Elem {
    fn put(&self, out: &mut String) -> Result<(), AllocError> {
        out.push_str("elem ")?;
        out.push_str(kind_word(self.kind))?;
        put_mode(out, &self.mode)?;
        out.push_str(":")?;
        for item in self.items.as_slice() {
            put_expr(out, item)?;
        }
        Ok(())
    }
}

impl Shown for Segment {
    fn put(&self, out: &mut String) -> Result<(), AllocError> {
        out.push_str("data")?;
        put_mode(out, &self.mode)?;
        out.push_str(": ")?;
        put_bytes(out, self.bytes.as_slice())
    }
}

impl Shown for Custom {
    fn put(&self, out: &mut String) -> Result<(), AllocError> {
        let after = self.after;
        let name = self.name.as_slice();
        write!(out, "custom after {after} '{name}': ")?;
        put_bytes(out, self.bytes.as_slice())
    }
}

fn put_start(out: &mut String, start: Option<u32>) -> Result<(), AllocError> {
    match start {
        Some(index) => write!(out, "start {index}; "),
        None => Ok(()),
    }
}

/// Appends all parts of the module, each with a semicolon after it.
pub fn put_module(out: &mut String, module: &Module) -> Result<(), AllocError> {
    put_all(out, module.types.as_slice())?;
    put_all(out, module.imports.as_slice())?;
    put_all(out, module.funcs.as_slice())?;
    put_all(out, module.tables.as_slice())?;
    put_all(out, module.memories.as_slice())?;
    put_all(out, module.globals.as_slice())?;
    put_all(out, module.exports.as_slice())?;
    put_start(out, module.start)?;
    put_all(out, module.elems.as_slice())?;
    put_all(out, module.segments.as_slice())?;
    put_all(out, module.customs.as_slice())?;
    out.push_str("end")
}
