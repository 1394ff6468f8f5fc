// What the checker does with operators on integers, by opcode byte (Validation, Instructions: Numeric Instructions).
ghost use Rattle.std.specs.Prelude.{◌≡◌, [], IfOk};
ghost use Rattle.wasm_ast.specs.Opcodes.{is_from as is_from_to};
ghost use Rattle.wasm_ast.specs.declared.instructions.Instr.TheVariants.{Num};
ghost use Rattle.wasm_check.specs.Contexts.{Context};
ghost use Rattle.wasm_check.specs.code.Runs.{known};
ghost use Rattle.wasm_check.specs.code.Checker.{Answers, acts as acts_of};

use crate::act::applies;
use crate::scope::Scope;
use crate::stack::Stack;
use std::alloc::AllocError;
use wasm_ast::ValType;

/// Whether the opcode byte is one of those from the first to the last, both included.
pub fn is_from(first: u8, last: u8, op: u8) -> bool
    ensures { result ≡ is_from_to first last op }
{
    first <= op && op <= last
}

/// An operator.
pub fn operator(scope: &Scope, op: u8, s: &mut Stack) -> Result<bool, AllocError>
    ensures { IfOk result (λ b. (C : Context) → Answers b (acts_of C [] (Num op) (known scope.now.types s.old)) (known scope.now.types s.new)) }
{
    if op == 0x45 || is_from(0x67, 0x69, op) || is_from(0xC0, 0xC1, op) {
        Ok(applies(scope, s, &[ValType::I32], &[ValType::I32])?)
    } else if is_from(0x46, 0x4F, op) || is_from(0x6A, 0x78, op) {
        Ok(applies(scope, s, &[ValType::I32, ValType::I32], &[ValType::I32])?)
    } else if op == 0x50 || op == 0xA7 {
        Ok(applies(scope, s, &[ValType::I64], &[ValType::I32])?)
    } else if is_from(0x79, 0x7B, op) || is_from(0xC2, 0xC4, op) {
        Ok(applies(scope, s, &[ValType::I64], &[ValType::I64])?)
    } else if is_from(0x51, 0x5A, op) {
        Ok(applies(scope, s, &[ValType::I64, ValType::I64], &[ValType::I32])?)
    } else if is_from(0x7C, 0x8A, op) {
        Ok(applies(scope, s, &[ValType::I64, ValType::I64], &[ValType::I64])?)
    } else if is_from(0xAC, 0xAD, op) {
        Ok(applies(scope, s, &[ValType::I32], &[ValType::I64])?)
    } else {
        Ok(false)
    }
}
