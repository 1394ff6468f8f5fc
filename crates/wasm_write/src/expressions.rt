// Expressions (Binary Format, Instructions: Expressions), by a stack of open sequences in place of recursion.
ghost use Rattle.std.specs.Prelude.{◌≡◌, ◌+◌, ◌^◌, ◌<◌, [], ◌∷◌, ◌++◌, length, OnOk, All, IfSome, Some, slice_get, slice_index_or};
ghost use Rattle.std.specs.List.{AllByRecursion};
ghost use Rattle.wasm_ast.specs.Numbering.{IsNumbered, named_by};
ghost use Rattle.wasm_ast.specs.Shape.{ExprHasShape};
ghost use Rattle.wasm_write.specs.Instructions.{else_part, text_of, expr_bytes};
ghost use Rattle.wasm_write.specs.Writing.{tail_bytes, ending, IsGood, left};

use crate::instructions::put_front;
use std::alloc::{AllocError, Global};
use std::collections::VecDeque;
use wasm_ast::{Expr, Instr, List};

// A sequence that is being written.
#[derive(Clone, Copy, Debug, PartialEq, Eq)]
pub(crate) struct Open {
    // Its number.
    seq: usize,
    // How many of its instructions are written.
    at: usize,
    // The number of the sequence that follows it after an else, where there is one with instructions.
    other: Option<usize>,
}

// The sequence that follows after an else: the other of an if, where that has instructions.
fn after_else(seqs: &[List<Instr>], other: usize) -> Option<usize>
    requires numbered { IsNumbered seqs.now }
    requires there { other < length seqs.now }
    ensures follows { ending (text_of 0 seqs.now) result ≡ else_part (text_of 0 seqs.now other) ++ 0x0B ∷ [] }
    ensures there { IfSome result (λ j. j < length seqs.now) }
{
    if seqs[other].is_empty() {
        None
    } else {
        Some(other)
    }
}

// Opens a sequence inside those that are open.
fn open_sequence(
    seqs: &[List<Instr>],
    stack: &mut VecDeque<Open>,
    seq: usize,
    other: Option<usize>,
) -> Result<(), AllocError>
    requires numbered { IsNumbered seqs.now }
    requires there { seq < length seqs.now }
    requires other_there { IfSome other (λ j. j < length seqs.now) }
    requires good { All (IsGood seqs.now) stack.old.items }
    ensures left { OnOk result (left seqs.now stack.new.items ≡ text_of 0 seqs.now seq
        ++ ending (text_of 0 seqs.now) other ++ left seqs.now stack.old.items) }
    ensures good { OnOk result (All (IsGood seqs.now) stack.new.items) }
{
    stack.push_front(Open { seq, at: 0, other })?;
    Ok(())
}

// Opens the first sequence inside an instruction, if there is one.
fn open_inside(
    seqs: &[List<Instr>],
    stack: &mut VecDeque<Open>,
    instr: &Instr,
) -> Result<(), AllocError>
    requires numbered { IsNumbered seqs.now }
    requires there { AllByRecursion (λ j. j < length seqs.now) (named_by instr.now) }
    requires good { All (IsGood seqs.now) stack.old.items }
    ensures left { OnOk result (left seqs.now stack.new.items
        ≡ tail_bytes (text_of 0 seqs.now) instr.now ++ left seqs.now stack.old.items) }
    ensures good { OnOk result (All (IsGood seqs.now) stack.new.items) }
{
    match instr {
        Instr::Block { body, .. } => open_sequence(seqs, stack, *body as usize, None),
        Instr::Loop { body, .. } => open_sequence(seqs, stack, *body as usize, None),
        Instr::If { then, other, .. } => {
            let next = after_else(seqs, *other as usize);
            open_sequence(seqs, stack, *then as usize, next)
        }
        _ => Ok(()),
    }
}

// Puts the next instruction of a sequence at the end.
fn put_next(
    alloc: Global,
    out: &mut Vec<u8>,
    seqs: &[List<Instr>],
    stack: &mut VecDeque<Open>,
    top: Open,
    instr: &Instr,
) -> Result<(), AllocError>
    requires numbered { IsNumbered seqs.now }
    requires top { IsGood seqs.now top }
    requires more { top.at < length (slice_index_or seqs.now top.seq []) }
    requires next { slice_get (slice_index_or seqs.now top.seq []) top.at ≡ Some instr.now }
    requires fits { top.at + 1 < 2 ^ 64 }
    requires good { All (IsGood seqs.now) stack.old.items }
    ensures left { OnOk result (out.new.items ++ left seqs.now stack.new.items
        ≡ out.old.items ++ left seqs.now (top ∷ stack.old.items)) }
    ensures good { OnOk result (All (IsGood seqs.now) stack.new.items) }
    ensures further { OnOk result (length out.old.items < length out.new.items) }
{
    put_front(alloc, out, instr)?;
    stack.push_front(Open {
        seq: top.seq,
        at: top.at + 1,
        other: top.other,
    })?;
    open_inside(seqs, stack, instr)?;
    Ok(())
}

// Puts the end of a sequence at the end, or an else.
fn put_end(
    out: &mut Vec<u8>,
    seqs: &[List<Instr>],
    stack: &mut VecDeque<Open>,
    other: Option<usize>,
) -> Result<(), AllocError>
    requires numbered { IsNumbered seqs.now }
    requires there { IfSome other (λ j. j < length seqs.now) }
    requires good { All (IsGood seqs.now) stack.old.items }
    ensures left { OnOk result (out.new.items ++ left seqs.now stack.new.items
        ≡ out.old.items ++ (ending (text_of 0 seqs.now) other ++ left seqs.now stack.old.items)) }
    ensures good { OnOk result (All (IsGood seqs.now) stack.new.items) }
    ensures further { OnOk result (length out.old.items < length out.new.items) }
{
    match other {
        None => {
            out.push(0x0B)?;
            Ok(())
        }
        Some(other) => {
            out.push(0x05)?;
            open_sequence(seqs, stack, other, None)
        }
    }
}

// Puts an instruction or an end of the innermost open sequence at the end.
fn step(
    alloc: Global,
    out: &mut Vec<u8>,
    seqs: &[List<Instr>],
    stack: &mut VecDeque<Open>,
    top: Open,
) -> Result<(), AllocError>
    requires numbered { IsNumbered seqs.now }
    requires top { IsGood seqs.now top }
    requires good { All (IsGood seqs.now) stack.old.items }
    ensures left { OnOk result (out.new.items ++ left seqs.now stack.new.items
        ≡ out.old.items ++ left seqs.now (top ∷ stack.old.items)) }
    ensures good { OnOk result (All (IsGood seqs.now) stack.new.items) }
    ensures further { OnOk result (length out.old.items < length out.new.items) }
{
    let instrs = &seqs[top.seq];
    if top.at < instrs.len() {
        put_next(alloc, out, seqs, stack, top, instrs.get(top.at))
    } else {
        put_end(out, seqs, stack, top.other)
    }
}

// Puts an expression at the end.
pub(crate) fn put_expr(alloc: Global, out: &mut Vec<u8>, expr: &Expr) -> Result<(), AllocError>
    requires { ExprHasShape expr.now }
    ensures { OnOk result (out.new.items ≡ out.old.items ++ expr_bytes expr.now) }
{
    let seqs = expr.seqs.as_slice();
    let mut stack = VecDeque::new(alloc);
    open_sequence(seqs, &mut stack, 0, None)?;
    while let Some(top) = stack.pop_front() {
        step(alloc, out, seqs, &mut stack, top)?;
    }
    Ok(())
}
