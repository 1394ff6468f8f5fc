// Constant expressions (Validation, Instructions: Constant Expressions).
ghost use Rattle.std.specs.Prelude.{◌≡◌, ◌↔◌, ◌<◌, ◌^◌, ◌∷◌, [], List as Instrs, IsTrue, MatchOption, All};
ghost use Rattle.wasm_ast.specs.declared.instructions.Instr.{Instr as AnInstr};
ghost use Rattle.wasm_check.specs.Constants.{IsConstant};
ghost use Rattle.wasm_check.specs.code.Counts.{puts as puts_one, combines as combines_two, depth_after as depth_of, leaves_one as leaves_only_one};

use crate::numbers::is_from;
use crate::stack::same;
use wasm_ast::{Expr, GlobalType, Instr, List, ValType};

// Whether the instruction puts a constant of the type on the operands.
fn puts(funcs: usize, globals: &[GlobalType], instr: &Instr, kind: ValType) -> bool
    ensures { result ≡ puts_one funcs globals.now instr.now kind }
{
    match instr {
        Instr::Const32(_) => same(ValType::I32, kind),
        Instr::Const64(_) => same(ValType::I64, kind),
        Instr::RefNull(null) => same(*null, kind),
        Instr::RefFunc(x) => same(ValType::FuncRef, kind) && (*x as usize) < funcs,
        Instr::GlobalGet(x) => match globals.get(*x as usize) {
            None => false,
            Some(ty) => same(ty.kind, kind) && !ty.mutable,
        },
        _ => false,
    }
}

// Whether the operator is constant, and takes and gives the type.
fn combines(op: u8, kind: ValType) -> bool
    ensures { result ≡ combines_two op kind }
{
    match kind {
        ValType::I32 => is_from(0x6A, 0x6C, op),
        ValType::I64 => is_from(0x7C, 0x7E, op),
        ValType::FuncRef => false,
        ValType::ExternRef => false,
    }
}

// How many operands there are after the instruction, all of the type, where there were `depth`; none where it isn't such an
// instruction or operands are missing.
fn depth_after(
    funcs: usize,
    globals: &[GlobalType],
    kind: ValType,
    depth: usize,
    instr: &Instr,
) -> Option<usize>
    requires { depth < 2 ^ 63 }
    ensures { result ≡ depth_of funcs globals.now kind depth instr.now }
{
    match instr {
        Instr::Num(op) => {
            if !combines(*op, kind) {
                return None;
            }
            if 1 < depth { Some(depth - 1) } else { None }
        }
        _ => {
            if puts(funcs, globals, instr, kind) {
                Some(depth + 1)
            } else {
                None
            }
        }
    }
}

// Whether the instructions are constant, and leave one operand of the type where there was none.
fn leaves_one(funcs: usize, globals: &[GlobalType], kind: ValType, instrs: &[Instr]) -> bool
    ensures { result ≡ leaves_only_one funcs globals.now kind instrs.now 0 }
{
    let mut depth = 0;
    for instr in instrs {
        match depth_after(funcs, globals, kind, depth, instr) {
            None => return false,
            Some(after) => depth = after,
        }
    }
    depth == 1
}

// The sequence of an expression that has only one.
fn only_sequence(e: &Expr) -> Option<&List<Instr>>
    ensures { MatchOption result ((instrs : Instrs AnInstr) → e.now.seqs ≡ instrs ∷ [] → ⊥) (λ instrs. e.now.seqs ≡ instrs.now ∷ []) }
{
    match e.seqs.as_slice() {
        [instrs] => Some(instrs),
        _ => None,
    }
}

/// Whether the expression is constant and gives a value of this type, where there are so many functions and its
/// `global.get` may name these globals.
pub fn is_constant(funcs: usize, globals: &[GlobalType], e: &Expr, kind: ValType) -> bool
    ensures { IsTrue result ↔ IsConstant funcs globals.now e.now kind }
{
    match only_sequence(e) {
        None => false,
        Some(instrs) => leaves_one(funcs, globals, kind, instrs.as_slice()),
    }
}

/// Whether each of the expressions is so.
pub fn are_constant(funcs: usize, globals: &[GlobalType], items: &[Expr], kind: ValType) -> bool
    ensures { IsTrue result ↔ All (λ e. IsConstant funcs globals.now e kind) items.now }
{
    items.iter().all(|e| is_constant(funcs, globals, e, kind))
}
