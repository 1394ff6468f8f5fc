// What the checker does with table instructions (Validation, Instructions: Table Instructions).
ghost use Rattle.std.specs.Prelude.{[], IfOk};
ghost use Rattle.wasm_ast.specs.declared.instructions.Instr.TheVariants.{TableGet, TableSet, TableInit, ElemDrop, TableCopy, TableGrow, TableSize, TableFill};
ghost use Rattle.wasm_check.specs.code.Runs.{known};
ghost use Rattle.wasm_check.specs.code.Checker.{Answers, acts as acts_of};
ghost use Rattle.wasm_check.specs.code.Kept.{context};

use crate::act::applies;
use crate::scope::Scope;
use crate::stack::{Stack, same};
use std::alloc::AllocError;
use wasm_ast::ValType;

/// `table.get`
pub fn table_get(scope: &Scope, x: u32, s: &mut Stack) -> Result<bool, AllocError>
    ensures { IfOk result (λ b. Answers b (acts_of (context scope.now) [] (TableGet x) (known scope.now.types s.old)) (known scope.now.types s.new)) }
{
    match scope.table(x) {
        None => Ok(false),
        Some(ty) => Ok(applies(scope, s, &[ValType::I32], &[ty.kind])?),
    }
}

/// `table.set`
pub fn table_set(scope: &Scope, x: u32, s: &mut Stack) -> Result<bool, AllocError>
    ensures { IfOk result (λ b. Answers b (acts_of (context scope.now) [] (TableSet x) (known scope.now.types s.old)) (known scope.now.types s.new)) }
{
    match scope.table(x) {
        None => Ok(false),
        Some(ty) => Ok(applies(scope, s, &[ValType::I32, ty.kind], &[])?),
    }
}

/// `table.init`
pub fn table_init(scope: &Scope, elem: u32, x: u32, s: &mut Stack) -> Result<bool, AllocError>
    ensures { IfOk result (λ b. Answers b (acts_of (context scope.now) [] (TableInit elem x) (known scope.now.types s.old)) (known scope.now.types s.new)) }
{
    let Some(ty) = scope.table(x) else {
        return Ok(false);
    };
    let Some(kind) = scope.elem(elem) else {
        return Ok(false);
    };
    if !same(kind, ty.kind) {
        return Ok(false);
    }
    Ok(applies(scope, s, &[ValType::I32, ValType::I32, ValType::I32], &[])?)
}

/// `elem.drop`
pub fn elem_drop(scope: &Scope, elem: u32, s: &mut Stack) -> Result<bool, AllocError>
    ensures { IfOk result (λ b. Answers b (acts_of (context scope.now) [] (ElemDrop elem) (known scope.now.types s.old)) (known scope.now.types s.new)) }
{
    match scope.elem(elem) {
        None => Ok(false),
        Some(_) => Ok(applies(scope, s, &[], &[])?),
    }
}

/// `table.copy`
pub fn table_copy(scope: &Scope, x: u32, y: u32, s: &mut Stack) -> Result<bool, AllocError>
    ensures { IfOk result (λ b. Answers b (acts_of (context scope.now) [] (TableCopy x y) (known scope.now.types s.old)) (known scope.now.types s.new)) }
{
    let Some(to) = scope.table(x) else {
        return Ok(false);
    };
    let Some(from) = scope.table(y) else {
        return Ok(false);
    };
    if !same(to.kind, from.kind) {
        return Ok(false);
    }
    Ok(applies(scope, s, &[ValType::I32, ValType::I32, ValType::I32], &[])?)
}

/// `table.grow`
pub fn table_grow(scope: &Scope, x: u32, s: &mut Stack) -> Result<bool, AllocError>
    ensures { IfOk result (λ b. Answers b (acts_of (context scope.now) [] (TableGrow x) (known scope.now.types s.old)) (known scope.now.types s.new)) }
{
    match scope.table(x) {
        None => Ok(false),
        Some(ty) => Ok(applies(scope, s, &[ty.kind, ValType::I32], &[ValType::I32])?),
    }
}

/// `table.size`
pub fn table_size(scope: &Scope, x: u32, s: &mut Stack) -> Result<bool, AllocError>
    ensures { IfOk result (λ b. Answers b (acts_of (context scope.now) [] (TableSize x) (known scope.now.types s.old)) (known scope.now.types s.new)) }
{
    match scope.table(x) {
        None => Ok(false),
        Some(_) => Ok(applies(scope, s, &[], &[ValType::I32])?),
    }
}

/// `table.fill`
pub fn table_fill(scope: &Scope, x: u32, s: &mut Stack) -> Result<bool, AllocError>
    ensures { IfOk result (λ b. Answers b (acts_of (context scope.now) [] (TableFill x) (known scope.now.types s.old)) (known scope.now.types s.new)) }
{
    match scope.table(x) {
        None => Ok(false),
        Some(ty) => Ok(applies(scope, s, &[ValType::I32, ty.kind, ValType::I32], &[])?),
    }
}
