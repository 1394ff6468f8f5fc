// What the sections of a module hold (Binary Format, Modules).
ghost use Rattle.std.specs.Prelude.{◌≡◌};
ghost use Rattle.wasm_binary.specs.Modules.{no_sections};

use crate::codes::Code;
use std::alloc::Global;
use std::marker::Model;
use wasm_ast::{
    Custom, Elem, Export, FuncType, GlobalDef, Import, Limits, List, Segment, TableType,
};

/// What the sections so far hold. Contracts see it as the grammar's. The codes and the custom sections are moved out of it
/// in the end.
#[derive(Drop)]
pub(crate) struct Sections {
    /// The slot of the last section, custom ones aside; 0 where there is none.
    pub(crate) slot: u8,
    pub(crate) types: List<FuncType>,
    pub(crate) imports: List<Import>,
    /// The functions' types.
    pub(crate) type_indices: List<u32>,
    pub(crate) tables: List<TableType>,
    pub(crate) memories: List<Limits>,
    pub(crate) globals: List<GlobalDef>,
    pub(crate) exports: List<Export>,
    pub(crate) start: Option<u32>,
    pub(crate) elems: List<Elem>,
    pub(crate) data_count: Option<u32>,
    pub(crate) codes: Vec<Code>,
    pub(crate) segments: List<Segment>,
    /// The custom sections, each after the slot at which it stands.
    pub(crate) customs: Vec<Custom>,
}

impl Model for Sections {
    ghost use Rattle.wasm_binary.specs.Modules.{Sections as AllSections};

    ghost Value = { AllSections };

    ghost view = { λ s. record {
      slot = s.slot;
      types = s.types;
      imports = s.imports;
      type_indices = s.type_indices;
      tables = s.tables;
      memories = s.memories;
      globals = s.globals;
      exports = s.exports;
      start = s.start;
      elems = s.elems;
      data_count = s.data_count;
      codes = s.codes.items;
      segments = s.segments;
      customs = s.customs.items;
    } };
}

impl Sections {
    /// No sections.
    pub(crate) fn new(alloc: Global) -> Sections
        ensures { result ≡ no_sections }
    {
        Sections {
            slot: 0,
            types: List::new(Vec::new(alloc)),
            imports: List::new(Vec::new(alloc)),
            type_indices: List::new(Vec::new(alloc)),
            tables: List::new(Vec::new(alloc)),
            memories: List::new(Vec::new(alloc)),
            globals: List::new(Vec::new(alloc)),
            exports: List::new(Vec::new(alloc)),
            start: None,
            elems: List::new(Vec::new(alloc)),
            data_count: None,
            codes: Vec::new(alloc),
            segments: List::new(Vec::new(alloc)),
            customs: Vec::new(alloc),
        }
    }
}
