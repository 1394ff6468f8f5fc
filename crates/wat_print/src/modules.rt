// Modules (Text Format, Modules).
ghost use Rattle.std.specs.Prelude.{◌≡◌, ◌++◌, OnOk, string_bytes};
ghost use Rattle.wasm_ast.specs.Shape.{HasShape};
ghost use Rattle.wasm_text.specs.Printing.{first_lines, last_lines, printed};

use crate::fields::put_start;
use crate::lists::put_lines;
use std::alloc::{AllocError, Global};
use wasm_ast::Module;

// Types, imports, functions, tables and memories.
fn put_first(alloc: Global, out: &mut String, m: &Module) -> Result<(), AllocError>
    requires { HasShape m.now }
    ensures { OnOk result (string_bytes out.new ≡ string_bytes out.old ++ first_lines m.now) }
{
    put_lines(alloc, out, &m.types)?;
    put_lines(alloc, out, &m.imports)?;
    put_lines(alloc, out, &m.funcs)?;
    put_lines(alloc, out, &m.tables)?;
    put_lines(alloc, out, &m.memories)
}

// Globals, exports, the start function and segments.
fn put_last(alloc: Global, out: &mut String, m: &Module) -> Result<(), AllocError>
    requires { HasShape m.now }
    ensures { OnOk result (string_bytes out.new ≡ string_bytes out.old ++ last_lines m.now) }
{
    put_lines(alloc, out, &m.globals)?;
    put_lines(alloc, out, &m.exports)?;
    put_start(out, m.start)?;
    put_lines(alloc, out, &m.elems)?;
    put_lines(alloc, out, &m.segments)
}

// Puts the module at the end.
pub(crate) fn put_module(alloc: Global, out: &mut String, m: &Module) -> Result<(), AllocError>
    requires { HasShape m.now }
    ensures { OnOk result (string_bytes out.new ≡ string_bytes out.old ++ printed m.now) }
{
    out.push_str("(module\n")?;
    put_first(alloc, out, m)?;
    put_last(alloc, out, m)?;
    out.push_str(")\n")
}
