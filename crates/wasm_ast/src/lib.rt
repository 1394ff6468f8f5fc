// WebAssembly modules as data, without floating-point numbers and vectors, and what a run gives.
//
// The types follow the chapter Structure of the WebAssembly Core Specification 2.0, and the modules here are named
// after its sections. Contracts see a `List` as the list of its items and a `Text` as its UTF-8 bytes, so a module is
// plain data in them. `has_shape` tells whether a module is well-formed, which is what whoever makes one promises and
// whoever takes one asks for; `same` tells whether two modules are equal. Validity is another matter, of a crate above.
#![tactic(auto)]

ghost use Rattle.std.specs.Prelude.{◌≡◌, ◌↔◌, IsTrue};

pub mod crossing;
pub mod equals;
pub mod instructions;
pub mod lists;
pub mod modules;
pub mod numbering;
pub mod opcodes;
pub mod ranges;
pub mod runs;
pub mod sections;
pub mod shape;
pub mod texts;
pub mod types;

use equals::Same;
pub use instructions::{Expr, Instr};
pub use lists::List;
pub use modules::{
    Custom, Elem, Export, Func, GlobalDef, Group, Import, ImportKind, Mode, Module, Segment, Space,
};
pub use runs::{Cause, Draw, Outcome, Ran, Value};
pub use shape::has_shape;
pub use texts::Text;
pub use types::{BlockType, FuncType, GlobalType, Limits, TableType, ValType};

/// Whether the two modules are equal. It takes no memory.
pub fn same(a: &Module, b: &Module) -> bool
    ensures { IsTrue result ↔ (a.now ≡ b.now) }
{
    a.same(b)
}
