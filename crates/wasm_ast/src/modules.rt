// Modules and their parts (Structure, Modules).
use crate::instructions::Expr;
use crate::lists::List;
use crate::texts::Text;
use crate::types::{FuncType, GlobalType, Limits, TableType, ValType};
use std::alloc::AllocError;

/// What an import is (Structure, Modules: Imports).
#[derive(Clone, Copy, Debug, PartialEq, Eq)]
pub enum ImportKind {
    /// A function whose type has this number among the module's types.
    Func(u32),
    /// A table.
    Table(TableType),
    /// A memory; its limits are in pages of 65,536 bytes.
    Memory(Limits),
    /// A global.
    Global(GlobalType),
}

/// An import (Structure, Modules: Imports).
#[derive(Debug, Drop)]
pub struct Import {
    /// The name of the module that it comes from.
    pub module: Text,
    /// Its name there.
    pub name: Text,
    /// What it is.
    pub kind: ImportKind,
}

impl Clone for Import {
    ghost use Rattle.std.specs.Prelude.{◌≡◌};

    ghost is_clone = { λ x y. y ≡ x };

    fn clone(&self) -> Result<Import, AllocError> {
        let module = self.module.copy()?;
        let name = self.name.copy()?;
        Ok(Import {
            module,
            name,
            kind: self.kind,
        })
    }
}

/// Locals of one type that stand together (Structure, Modules: Functions). Neighbouring groups have different types.
#[derive(Clone, Copy, Debug, PartialEq, Eq)]
pub struct Group {
    /// How many there are, at least 1. The groups of one function hold at most 50,000 locals.
    pub count: u32,
    /// Their type.
    pub kind: ValType,
}

/// A function of the module (Structure, Modules: Functions).
#[derive(Drop)]
pub struct Func {
    /// The number of its type among the module's types.
    pub ty: u32,
    /// The locals that aren't parameters.
    pub locals: List<Group>,
    /// What it runs.
    pub body: Expr,
}

impl Clone for Func {
    ghost use Rattle.std.specs.Prelude.{◌≡◌};

    ghost is_clone = { λ x y. y ≡ x };

    fn clone(&self) -> Result<Func, AllocError> {
        let locals = self.locals.copy()?;
        let body = self.body.clone()?;
        Ok(Func {
            ty: self.ty,
            locals,
            body,
        })
    }
}

/// A global of the module (Structure, Modules: Globals).
#[derive(Drop)]
pub struct GlobalDef {
    /// Its type.
    pub ty: GlobalType,
    /// The expression that gives its first value.
    pub init: Expr,
}

impl Clone for GlobalDef {
    ghost use Rattle.std.specs.Prelude.{◌≡◌};

    ghost is_clone = { λ x y. y ≡ x };

    fn clone(&self) -> Result<GlobalDef, AllocError> {
        let init = self.init.clone()?;
        Ok(GlobalDef { ty: self.ty, init })
    }
}

/// What an index of an export counts (Structure, Modules: Indices).
#[derive(Clone, Copy, Debug, PartialEq, Eq)]
pub enum Space {
    /// The functions, imports first.
    Func,
    /// The tables, imports first.
    Table,
    /// The memories, imports first.
    Memory,
    /// The globals, imports first.
    Global,
}

/// An export (Structure, Modules: Exports).
#[derive(Debug, Drop)]
pub struct Export {
    /// The name by which it is known outside.
    pub name: Text,
    /// Whether it is a function, a table, a memory or a global.
    pub space: Space,
    /// Its index among these.
    pub index: u32,
}

impl Clone for Export {
    ghost use Rattle.std.specs.Prelude.{◌≡◌};

    ghost is_clone = { λ x y. y ≡ x };

    fn clone(&self) -> Result<Export, AllocError> {
        let name = self.name.copy()?;
        Ok(Export {
            name,
            space: self.space,
            index: self.index,
        })
    }
}

/// When a segment is used (Structure, Modules: Element Segments).
#[derive(Drop)]
pub enum Mode {
    /// By `table.init` or `memory.init` alone.
    Passive,
    /// Never, but the functions that it names may be referred to. Element segments alone can be so.
    Declared,
    /// When the module starts: it is copied into the table or memory of this index, from the place on that `offset`
    /// gives.
    Active { index: u32, offset: Expr },
}

impl Clone for Mode {
    ghost use Rattle.std.specs.Prelude.{◌≡◌};

    ghost is_clone = { λ x y. y ≡ x };

    fn clone(&self) -> Result<Mode, AllocError> {
        Ok(match self {
            Mode::Passive => Mode::Passive,
            Mode::Declared => Mode::Declared,
            Mode::Active { index, offset } => {
                let offset = offset.clone()?;
                Mode::Active {
                    index: *index,
                    offset,
                }
            }
        })
    }
}

/// An element segment: references for a table (Structure, Modules: Element Segments).
#[derive(Drop)]
pub struct Elem {
    /// The type of the references, a reference type.
    pub kind: ValType,
    /// An expression for each reference.
    pub items: List<Expr>,
    /// When it is used.
    pub mode: Mode,
}

impl Clone for Elem {
    ghost use Rattle.std.specs.Prelude.{◌≡◌};

    ghost is_clone = { λ x y. y ≡ x };

    fn clone(&self) -> Result<Elem, AllocError> {
        let items = self.items.copy()?;
        let mode = self.mode.clone()?;
        Ok(Elem {
            kind: self.kind,
            items,
            mode,
        })
    }
}

/// A data segment: bytes for the memory (Structure, Modules: Data Segments).
#[derive(Drop)]
pub struct Segment {
    /// The bytes.
    pub bytes: List<u8>,
    /// When it is used; never `Declared`.
    pub mode: Mode,
}

impl Clone for Segment {
    ghost use Rattle.std.specs.Prelude.{◌≡◌};

    ghost is_clone = { λ x y. y ≡ x };

    fn clone(&self) -> Result<Segment, AllocError> {
        let bytes = self.bytes.copy()?;
        let mode = self.mode.clone()?;
        Ok(Segment { bytes, mode })
    }
}

/// A custom section (Binary Format, Modules: Custom Section). It means nothing to a run and is kept as bytes.
#[derive(Debug, Drop)]
pub struct Custom {
    /// The slot of the section that it stands after, or 0 where it stands before all of them.
    ///
    /// A slot is a section's place in a binary module. The slots 1 to 12 are those of types, imports, functions, tables,
    /// memories, globals, exports, start, elements, data count, code and data: the sections with the ids 1 to 9, 12, 10
    /// and 11. The section of the slot is one that is written; custom sections stand in order of their slots.
    pub after: u8,
    /// Its name.
    pub name: Text,
    /// What follows the name.
    pub bytes: List<u8>,
}

impl Clone for Custom {
    ghost use Rattle.std.specs.Prelude.{◌≡◌};

    ghost is_clone = { λ x y. y ≡ x };

    fn clone(&self) -> Result<Custom, AllocError> {
        let name = self.name.copy()?;
        let bytes = self.bytes.copy()?;
        Ok(Custom {
            after: self.after,
            name,
            bytes,
        })
    }
}

/// A module (Structure, Modules).
#[derive(Drop)]
pub struct Module {
    /// The function types.
    pub types: List<FuncType>,
    /// The imports, which come before the module's own functions, tables, memories and globals in their indices.
    pub imports: List<Import>,
    /// The functions.
    pub funcs: List<Func>,
    /// The tables.
    pub tables: List<TableType>,
    /// The memories; their limits are in pages of 65,536 bytes.
    pub memories: List<Limits>,
    /// The globals.
    pub globals: List<GlobalDef>,
    /// The exports.
    pub exports: List<Export>,
    /// The index of the function that runs when the module starts.
    pub start: Option<u32>,
    /// The element segments.
    pub elems: List<Elem>,
    /// The data segments.
    pub segments: List<Segment>,
    /// The custom sections.
    pub customs: List<Custom>,
}

impl Clone for Module {
    ghost use Rattle.std.specs.Prelude.{◌≡◌};

    ghost is_clone = { λ x y. y ≡ x };

    fn clone(&self) -> Result<Module, AllocError> {
        let types = self.types.copy()?;
        let imports = self.imports.copy()?;
        let funcs = self.funcs.copy()?;
        let tables = self.tables.copy()?;
        let memories = self.memories.copy()?;
        let globals = self.globals.copy()?;
        let exports = self.exports.copy()?;
        let elems = self.elems.copy()?;
        let segments = self.segments.copy()?;
        let customs = self.customs.copy()?;
        Ok(Module {
            types,
            imports,
            funcs,
            tables,
            memories,
            globals,
            exports,
            start: self.start,
            elems,
            segments,
            customs,
        })
    }
}
