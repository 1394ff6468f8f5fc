// Modules in the binary format, spelled shortest.
//
// `specs/Modules.antt` says which bytes those are (`shortest`), and the files beside it say it of the parts. `write_module`
// gives exactly these, and `laws` has what follows of the definition: they spell the module.
#![tactic(auto)]

ghost use Rattle.std.specs.Prelude.{◌≡◌, ℕ, IfOk, Some, None, Err};
ghost use Rattle.wasm_ast.specs.Shape.{HasShape};
ghost use Rattle.wasm_binary.specs.Modules.{IsBinary};
ghost use Rattle.wasm_write.specs.Modules.{shortest, sections, first_long};

mod expressions;
mod instructions;
pub mod laws;
mod section_entries;
mod sections;
mod types;
mod values;

use sections::put_sections;
use std::alloc::{AllocError, Global};
use wasm_ast::Module;
use wasm_ast::ranges::is_in_range;

/// Why a module isn't written.
#[derive(Clone, Copy, Debug, PartialEq, Eq)]
pub enum WriteBad {
    /// The contents of a section would have 4,294,967,296 bytes or more. The id of the first such section in the order of
    /// writing: 0 for a custom section, 1 to 12 for the others (Binary Format, Modules: Sections).
    TooLong(u8),
    /// Memory is wanting.
    NoMemory,
}

impl From<AllocError> for WriteBad {
    ghost use Rattle.std.specs.Prelude.{◌≡◌};
    ghost use Rattle.wasm_write.specs.declared.WriteBad.TheVariants.{NoMemory};

    ghost from_gives = { λ _ bad. bad ≡ NoMemory };

    fn from(_error: AllocError) -> WriteBad {
        WriteBad::NoMemory
    }
}

// The magic number and the version.
const FRONT: [u8; 8] = [0x00, 0x61, 0x73, 0x6D, 0x01, 0x00, 0x00, 0x00];

/// The module in the binary format (Binary Format, Modules), each number in the fewest bytes and no section without entries.
///
/// It refuses with `TooLong` exactly where a section's contents are too long for their size to be written.
pub fn write_module(alloc: Global, m: &Module) -> Result<Vec<u8>, WriteBad>
    requires { HasShape m.now }

    ensures shortest { IfOk result (λ v. v.items ≡ shortest m.now) }
    ensures binary { IfOk result (λ v. IsBinary m.now v.items) }
    ensures short { IfOk result (λ v. first_long (sections m.now) ≡ None) }
    ensures too_long { (id : ℕ) → result ≡ Err (WriteBad.TooLong id) → first_long (sections m.now) ≡ Some id }
{
    is_in_range(m);
    let mut out = Vec::from_slice(alloc, &FRONT)?;
    match put_sections(alloc, &mut out, m) {
        Ok(()) => Ok(out),
        Err(bad) => Err(bad),
    }
}
