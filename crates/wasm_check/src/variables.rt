// What the checker does with variable instructions (Validation, Instructions: Variable Instructions).
ghost use Rattle.std.specs.Prelude.{[], IfOk};
ghost use Rattle.wasm_ast.specs.declared.instructions.Instr.TheVariants.{LocalGet, LocalSet, LocalTee, GlobalGet, GlobalSet};
ghost use Rattle.wasm_check.specs.code.Runs.{known};
ghost use Rattle.wasm_check.specs.code.Checker.{Answers, acts as acts_of};
ghost use Rattle.wasm_check.specs.code.Kept.{context};

use crate::act::applies;
use crate::scope::Scope;
use crate::stack::Stack;
use std::alloc::AllocError;

/// `local.get`
pub fn local_get(scope: &Scope, x: u32, s: &mut Stack) -> Result<bool, AllocError>
    ensures { IfOk result (λ b. Answers b (acts_of (context scope.now) [] (LocalGet x) (known scope.now.types s.old)) (known scope.now.types s.new)) }
{
    match scope.local(x) {
        None => Ok(false),
        Some(kind) => Ok(applies(scope, s, &[], &[kind])?),
    }
}

/// `local.set`
pub fn local_set(scope: &Scope, x: u32, s: &mut Stack) -> Result<bool, AllocError>
    ensures { IfOk result (λ b. Answers b (acts_of (context scope.now) [] (LocalSet x) (known scope.now.types s.old)) (known scope.now.types s.new)) }
{
    match scope.local(x) {
        None => Ok(false),
        Some(kind) => Ok(applies(scope, s, &[kind], &[])?),
    }
}

/// `local.tee`
pub fn local_tee(scope: &Scope, x: u32, s: &mut Stack) -> Result<bool, AllocError>
    ensures { IfOk result (λ b. Answers b (acts_of (context scope.now) [] (LocalTee x) (known scope.now.types s.old)) (known scope.now.types s.new)) }
{
    match scope.local(x) {
        None => Ok(false),
        Some(kind) => Ok(applies(scope, s, &[kind], &[kind])?),
    }
}

/// `global.get`
pub fn global_get(scope: &Scope, x: u32, s: &mut Stack) -> Result<bool, AllocError>
    ensures { IfOk result (λ b. Answers b (acts_of (context scope.now) [] (GlobalGet x) (known scope.now.types s.old)) (known scope.now.types s.new)) }
{
    match scope.global(x) {
        None => Ok(false),
        Some(ty) => Ok(applies(scope, s, &[], &[ty.kind])?),
    }
}

/// `global.set`
pub fn global_set(scope: &Scope, x: u32, s: &mut Stack) -> Result<bool, AllocError>
    ensures { IfOk result (λ b. Answers b (acts_of (context scope.now) [] (GlobalSet x) (known scope.now.types s.old)) (known scope.now.types s.new)) }
{
    match scope.global(x) {
        None => Ok(false),
        Some(ty) => {
            if !ty.mutable {
                return Ok(false);
            }
            Ok(applies(scope, s, &[ty.kind], &[])?)
        }
    }
}
