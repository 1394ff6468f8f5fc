// The types of WebAssembly (Structure, Types): of values, functions, limits, tables, globals and blocks.
use crate::lists::List;
use std::alloc::AllocError;

/// A value type (Structure, Types: Value Types). Of the standard's, floating-point numbers and vectors are left out.
#[derive(Clone, Copy, Debug, PartialEq, Eq)]
pub enum ValType {
    /// `i32`: an integer of 32 bits.
    I32,
    /// `i64`: an integer of 64 bits.
    I64,
    /// `funcref`: null, or a reference to a function.
    FuncRef,
    /// `externref`: null, or a reference to something outside the module.
    ExternRef,
}

impl ValType {
    ghost use Rattle.std.specs.Prelude.{◌↔◌, IsTrue};
    ghost use Rattle.wasm_ast.specs.Shape.{IsReference};

    /// Whether it is a reference type (Structure, Types: Reference Types).
    pub fn is_reference(self) -> bool
        ensures { IsTrue result ↔ IsReference self }
    {
        matches!(self, ValType::FuncRef | ValType::ExternRef)
    }
}

/// A function type: what a function takes and gives, in order (Structure, Types: Function Types).
#[derive(Debug, Drop)]
pub struct FuncType {
    /// The types of the parameters.
    pub params: List<ValType>,
    /// The types of the results.
    pub results: List<ValType>,
}

impl Clone for FuncType {
    ghost use Rattle.std.specs.Prelude.{◌≡◌};

    ghost is_clone = { λ x y. y ≡ x };

    fn clone(&self) -> Result<FuncType, AllocError> {
        let params = self.params.copy()?;
        let results = self.results.copy()?;
        Ok(FuncType { params, results })
    }
}

/// The size of a memory in pages of 65,536 bytes, or of a table in elements (Structure, Types: Limits).
#[derive(Clone, Copy, Debug, PartialEq, Eq)]
pub struct Limits {
    /// The size at the start.
    pub min: u32,
    /// The size up to which it may grow, where one is given. That it isn't below `min` is validity's matter.
    pub max: Option<u32>,
}

/// A table type (Structure, Types: Table Types).
#[derive(Clone, Copy, Debug, PartialEq, Eq)]
pub struct TableType {
    /// The type of the elements, a reference type.
    pub kind: ValType,
    /// The size, in elements.
    pub limits: Limits,
}

/// A global type (Structure, Types: Global Types).
#[derive(Clone, Copy, Debug, PartialEq, Eq)]
pub struct GlobalType {
    /// The type of the value.
    pub kind: ValType,
    /// Whether the value may be set.
    pub mutable: bool,
}

/// What a block takes and gives (Structure, Instructions: Control Instructions).
#[derive(Clone, Copy, Debug, PartialEq, Eq)]
pub enum BlockType {
    /// Takes nothing and gives nothing.
    Empty,
    /// Takes nothing and gives one value of this type.
    One(ValType),
    /// Takes and gives what the module's function type of this number says.
    Index(u32),
}
