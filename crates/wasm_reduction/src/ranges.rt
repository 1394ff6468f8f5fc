// What the types of a module's parts and of arguments say of the numbers that a run computes with, as `wasm_ast` finds it.
ghost use Rattle.std.specs.Prelude.{All};
ghost use Rattle.wasm_ast.specs.Shape.{HasShape};
ghost use Rattle.wasm_reduction.specs.Widths.{ArgumentFits, HasNumbers};

use wasm_ast::ranges::{are_in_range, is_in_range};
use wasm_ast::{Module, Value};

/// Law: what the types of the parts of a well-formed module say of its numbers holds of it as data.
pub fn module_has_numbers(m: &Module)
    requires { HasShape m.now }
    ensures { HasNumbers m.now }
{
    is_in_range(m);
}

/// Law: what the types of arguments say of their numbers holds of them as data.
pub fn arguments_fit(args: &[Value])
    ensures { All ArgumentFits args.now }
{
    are_in_range(args);
}
