// Expressions (Text Format, Instructions: Expressions), by a stack of open sequences in place of recursion.
ghost use Rattle.std.specs.Prelude.{◌≡◌, ◌+◌, ◌*◌, ◌^◌, ◌<◌, ◌≤◌, [], ◌∷◌, ◌++◌, length, OnOk, All, Some, slice_get, slice_index_or, string_bytes, codes};
ghost use Rattle.std.specs.List.{AllByRecursion};
ghost use Rattle.wasm_ast.specs.Numbering.{IsNumbered, named_by};
ghost use Rattle.wasm_ast.specs.Shape.{InstrHasShape, SeqHasShape, ExprHasShape};
ghost use Rattle.wasm_text.specs.PrintedInstructions.{head_text, else_part, inside_text, sequence_text, expr_text};
ghost use Rattle.wat_print.specs.code.Walking.{ending_text, EndsWell, IsGood, left};

use crate::instructions::put_head;
use std::alloc::{AllocError, Global};
use std::collections::VecDeque;
use wasm_ast::{Expr, Instr, List};

// What follows the instructions of a sequence.
#[derive(Clone, Copy, Debug, PartialEq, Eq)]
pub(crate) enum Ending {
    // Nothing: it is the outermost.
    Nothing,
    // An end.
    End,
    // An else, the sequence of this number, and an end.
    Else(usize),
}

// A sequence that is being printed.
#[derive(Clone, Copy, Debug, PartialEq, Eq)]
pub(crate) struct Open {
    // Its number.
    seq: usize,
    // How many of its instructions are printed.
    at: usize,
    // What follows them.
    ending: Ending,
}

// What follows the first sequence of an if: an else only where the other has instructions.
fn after_then(before: &str, seqs: &[List<Instr>], other: usize) -> Ending
    requires some { 0 < length before.now }
    requires numbered { IsNumbered seqs.now }
    requires there { other < length seqs.now }
    ensures follows { ending_text before.now (sequence_text before.now 0 seqs.now) result
        ≡ else_part before.now (sequence_text before.now 0 seqs.now other) ++ before.now ++ codes "end" }
    ensures there { EndsWell seqs.now result }
{
    let _text = before;
    if seqs[other].is_empty() {
        Ending::End
    } else {
        Ending::Else(other)
    }
}

// Opens a sequence inside those that are open.
fn open_sequence(
    before: &str,
    seqs: &[List<Instr>],
    stack: &mut VecDeque<Open>,
    seq: usize,
    ending: Ending,
) -> Result<(), AllocError>
    requires numbered { IsNumbered seqs.now }
    requires there { seq < length seqs.now }
    requires ending_there { EndsWell seqs.now ending }
    requires good { All (IsGood seqs.now) stack.old.items }
    ensures left { OnOk result (left before.now seqs.now stack.new.items ≡ sequence_text before.now 0 seqs.now seq
        ++ ending_text before.now (sequence_text before.now 0 seqs.now) ending ++ left before.now seqs.now stack.old.items) }
    ensures good { OnOk result (All (IsGood seqs.now) stack.new.items) }
    ensures deeper { OnOk result (length stack.new.items ≡ length stack.old.items + 1) }
{
    let _text = before;
    stack.push_front(Open { seq, at: 0, ending })?;
    Ok(())
}

// Opens the first sequence inside an instruction, if there is one.
fn open_inside(
    before: &str,
    seqs: &[List<Instr>],
    stack: &mut VecDeque<Open>,
    instr: &Instr,
) -> Result<(), AllocError>
    requires some { 0 < length before.now }
    requires numbered { IsNumbered seqs.now }
    requires there { AllByRecursion (λ j. j < length seqs.now) (named_by instr.now) }
    requires good { All (IsGood seqs.now) stack.old.items }
    ensures left { OnOk result (left before.now seqs.now stack.new.items
        ≡ inside_text before.now (sequence_text before.now 0 seqs.now) instr.now ++ left before.now seqs.now stack.old.items) }
    ensures good { OnOk result (All (IsGood seqs.now) stack.new.items) }
    ensures deeper { OnOk result (length stack.new.items ≤ length stack.old.items + 1) }
{
    match instr {
        Instr::Block { body, .. } => {
            open_sequence(before, seqs, stack, *body as usize, Ending::End)
        }
        Instr::Loop { body, .. } => {
            open_sequence(before, seqs, stack, *body as usize, Ending::End)
        }
        Instr::If { then, other, .. } => {
            let next = after_then(before, seqs, *other as usize);
            open_sequence(before, seqs, stack, *then as usize, next)
        }
        _ => Ok(()),
    }
}

// Puts the instruction at the end, without the sequences inside it, after the text that stands before each.
fn put_front(out: &mut String, before: &str, instr: &Instr) -> Result<(), AllocError>
    requires { InstrHasShape instr.now }
    ensures { OnOk result (string_bytes out.new ≡ string_bytes out.old ++ (before.now ++ head_text instr.now)) }
{
    out.push_str(before)?;
    put_head(out, instr)
}

// Puts the next instruction of a sequence at the end.
fn put_next(
    out: &mut String,
    before: &str,
    seqs: &[List<Instr>],
    stack: &mut VecDeque<Open>,
    top: Open,
    instr: &Instr,
) -> Result<(), AllocError>
    requires some { 0 < length before.now }
    requires numbered { IsNumbered seqs.now }
    requires shape { InstrHasShape instr.now }
    requires top { IsGood seqs.now top }
    requires more { top.at < length (slice_index_or seqs.now top.seq []) }
    requires next { slice_get (slice_index_or seqs.now top.seq []) top.at ≡ Some instr.now }
    requires fits { top.at + 1 < 2 ^ 64 }
    requires good { All (IsGood seqs.now) stack.old.items }
    ensures left { OnOk result (string_bytes out.new ++ left before.now seqs.now stack.new.items
        ≡ string_bytes out.old ++ left before.now seqs.now (top ∷ stack.old.items)) }
    ensures good { OnOk result (All (IsGood seqs.now) stack.new.items) }
    ensures further { OnOk result (2 * length (string_bytes out.old) + length stack.new.items
        < 2 * length (string_bytes out.new) + length stack.old.items + 1) }
{
    put_front(out, before, instr)?;
    stack.push_front(Open {
        seq: top.seq,
        at: top.at + 1,
        ending: top.ending,
    })?;
    open_inside(before, seqs, stack, instr)?;
    Ok(())
}

// Puts what follows a sequence at the end.
fn put_ending(
    out: &mut String,
    before: &str,
    seqs: &[List<Instr>],
    stack: &mut VecDeque<Open>,
    ending: Ending,
) -> Result<(), AllocError>
    requires numbered { IsNumbered seqs.now }
    requires there { EndsWell seqs.now ending }
    requires good { All (IsGood seqs.now) stack.old.items }
    ensures left { OnOk result (string_bytes out.new ++ left before.now seqs.now stack.new.items
        ≡ string_bytes out.old ++ (ending_text before.now (sequence_text before.now 0 seqs.now) ending ++ left before.now seqs.now stack.old.items)) }
    ensures good { OnOk result (All (IsGood seqs.now) stack.new.items) }
    ensures further { OnOk result (2 * length (string_bytes out.old) + length stack.new.items
        < 2 * length (string_bytes out.new) + length stack.old.items + 1) }
{
    match ending {
        Ending::Nothing => Ok(()),
        Ending::End => {
            out.push_str(before)?;
            out.push_str("end")?;
            Ok(())
        }
        Ending::Else(other) => {
            out.push_str(before)?;
            out.push_str("else")?;
            open_sequence(before, seqs, stack, other, Ending::End)?;
            Ok(())
        }
    }
}

// Puts an instruction of the innermost open sequence at the end, or what follows the sequence.
fn step(
    out: &mut String,
    before: &str,
    seqs: &[List<Instr>],
    stack: &mut VecDeque<Open>,
    top: Open,
) -> Result<(), AllocError>
    requires some { 0 < length before.now }
    requires numbered { IsNumbered seqs.now }
    requires shape { All SeqHasShape seqs.now }
    requires top { IsGood seqs.now top }
    requires good { All (IsGood seqs.now) stack.old.items }
    ensures left { OnOk result (string_bytes out.new ++ left before.now seqs.now stack.new.items
        ≡ string_bytes out.old ++ left before.now seqs.now (top ∷ stack.old.items)) }
    ensures good { OnOk result (All (IsGood seqs.now) stack.new.items) }
    ensures further { OnOk result (2 * length (string_bytes out.old) + length stack.new.items
        < 2 * length (string_bytes out.new) + length stack.old.items + 1) }
{
    let instrs = &seqs[top.seq];
    if top.at < instrs.len() {
        put_next(out, before, seqs, stack, top, instrs.get(top.at))
    } else {
        put_ending(out, before, seqs, stack, top.ending)
    }
}

// Puts an expression at the end, with a text before each of its instructions.
pub(crate) fn put_expr(
    alloc: Global,
    out: &mut String,
    before: &str,
    expr: &Expr,
) -> Result<(), AllocError>
    requires some { 0 < length before.now }
    requires shape { ExprHasShape expr.now }
    ensures { OnOk result (string_bytes out.new ≡ string_bytes out.old ++ expr_text before.now expr.now) }
{
    let seqs = expr.seqs.as_slice();
    let mut stack = VecDeque::new(alloc);
    open_sequence(before, seqs, &mut stack, 0, Ending::Nothing)?;
    while let Some(top) = stack.pop_front() {
        step(out, before, seqs, &mut stack, top)?;
    }
    Ok(())
}
