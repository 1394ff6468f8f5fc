// The code of a function (Binary Format, Modules: Code Section).
ghost use Rattle.std.specs.Prelude.{◌≤◌, length, IfOk};
ghost use Rattle.wasm_binary.specs.Locals.{code, code_contents};
ghost use Rattle.wasm_read.specs.Views.{Agrees};

use crate::bad::ReadBad;
use crate::expressions::read_expr;
use crate::groups::read_locals;
use crate::numbers::read_u32;
use crate::views::View;
use std::alloc::Global;
use std::marker::Model;
use wasm_ast::{Expr, Group, List};

/// An entry of the code section. Contracts see it as the grammar's.
#[derive(Drop)]
pub(crate) struct Code {
    pub(crate) locals: List<Group>,
    pub(crate) body: Expr,
}

impl Model for Code {
    ghost use Rattle.wasm_binary.specs.Locals.{Code as OneCode};

    ghost Value = { OneCode };

    ghost view = { λ c. record { locals = c.locals; body = c.body } };
}

/// An entry of the code section: a size, the locals and the body.
pub(crate) fn read_code(
    alloc: Global,
    view: &View,
    at: usize,
    has_data_count: bool,
) -> Result<(Code, usize), ReadBad>
    requires { at ≤ length view.now.bytes }
    ensures agrees { Agrees ((code has_data_count).read view.now at) result }
    ensures within { IfOk result (λ x. x.1 ≤ length view.now.bytes) }
{
    let (len, at) = read_u32(view, at)?;
    let end = view.end_after(at, len);
    let inner = view.up_to(end);
    let (code, next) = read_code_contents(alloc, &inner, at, has_data_count)?;
    if next != end {
        return Err(inner.left_over(next));
    }
    Ok((code, next))
}

// The locals and the body.
fn read_code_contents(
    alloc: Global,
    view: &View,
    at: usize,
    has_data_count: bool,
) -> Result<(Code, usize), ReadBad>
    requires { at ≤ length view.now.bytes }
    ensures agrees { Agrees ((code_contents has_data_count).read view.now at) result }
    ensures within { IfOk result (λ x. x.1 ≤ length view.now.bytes) }
{
    let (locals, at) = read_locals(alloc, view, at)?;
    let (body, at) = read_expr(alloc, view, at, has_data_count)?;
    Ok((Code { locals, body }, at))
}
