// What the checker does with calls, references and `select` with types (Validation, Instructions).
ghost use Rattle.std.specs.Prelude.{[], IfOk};
ghost use Rattle.wasm_ast.specs.declared.instructions.Instr.TheVariants.{Call, CallIndirect, RefFunc, SelectTyped};
ghost use Rattle.wasm_check.specs.Contexts.{Context};
ghost use Rattle.wasm_check.specs.code.Runs.{known};
ghost use Rattle.wasm_check.specs.code.Checker.{Answers, acts as acts_of};
ghost use Rattle.wasm_check.specs.code.Kept.{context};

use crate::act::{applies, applies_lists};
use crate::scope::Scope;
use crate::stack::{Stack, same};
use std::alloc::AllocError;
use wasm_ast::ValType;

/// `call`
pub fn call(scope: &Scope, x: u32, s: &mut Stack) -> Result<bool, AllocError>
    ensures { IfOk result (λ b. Answers b (acts_of (context scope.now) [] (Call x) (known scope.now.types s.old)) (known scope.now.types s.new)) }
{
    match scope.function(x) {
        None => Ok(false),
        Some((params, results)) => Ok(applies_lists(scope, s, params, results)?),
    }
}

/// `call_indirect`
pub fn call_indirect(scope: &Scope, ty: u32, x: u32, s: &mut Stack) -> Result<bool, AllocError>
    ensures { IfOk result (λ b. Answers b (acts_of (context scope.now) [] (CallIndirect ty x) (known scope.now.types s.old)) (known scope.now.types s.new)) }
{
    let Some(table) = scope.table(x) else {
        return Ok(false);
    };
    if !same(table.kind, ValType::FuncRef) {
        return Ok(false);
    }
    let Some((params, results)) = scope.function_type(ty) else {
        return Ok(false);
    };
    if !s.take(scope, ValType::I32) {
        return Ok(false);
    }
    Ok(applies_lists(scope, s, params, results)?)
}

/// `ref.func`
pub fn ref_func(scope: &Scope, x: u32, s: &mut Stack) -> Result<bool, AllocError>
    ensures { IfOk result (λ b. Answers b (acts_of (context scope.now) [] (RefFunc x) (known scope.now.types s.old)) (known scope.now.types s.new)) }
{
    if !scope.is_declared(x) {
        return Ok(false);
    }
    Ok(applies(scope, s, &[], &[ValType::FuncRef])?)
}

/// `select` with types
pub fn select_typed(scope: &Scope, kinds: &[ValType], s: &mut Stack) -> Result<bool, AllocError>
    ensures { IfOk result (λ b. (C : Context) → Answers b (acts_of C [] (SelectTyped kinds.now) (known scope.now.types s.old)) (known scope.now.types s.new)) }
{
    match kinds {
        [kind] => Ok(applies(scope, s, &[*kind, *kind, ValType::I32], &[*kind])?),
        _ => Ok(false),
    }
}
