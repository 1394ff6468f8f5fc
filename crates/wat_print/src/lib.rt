// Modules printed in the text format.
//
// `Printing.antt` of wasm_text says which text that is (`printed`), and `print_text` gives exactly it.
#![tactic(auto)]

ghost use Rattle.std.specs.Prelude.{◌≡◌, IfOk};
ghost use Rattle.wasm_ast.specs.Shape.{HasShape};
ghost use Rattle.wasm_text.specs.Printing.{printed};

mod expressions;
mod fields;
mod instructions;
mod lists;
mod modules;
mod strings;
mod types;
mod words;

use modules::put_module;
use std::alloc::{AllocError, Global};
use wasm_ast::Module;
pub use words::opcode_word;

/// The module in the text format, a field a line, with numbers for all indices. Custom sections aren't printed.
pub fn print_text(alloc: Global, m: &Module) -> Result<Vec<u8>, AllocError>
    requires { HasShape m.now }
    ensures { IfOk result (λ v. v.items ≡ printed m.now) }
{
    let mut out = String::new(alloc);
    put_module(alloc, &mut out, m)?;
    Ok(out.into_bytes())
}
