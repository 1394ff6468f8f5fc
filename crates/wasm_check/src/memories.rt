// What the checker does with memory instructions (Validation, Instructions: Memory Instructions).
ghost use Rattle.std.specs.Prelude.{◌≡◌, ◌<◌, [], IfOk};
ghost use Rattle.wasm_ast.specs.declared.instructions.Instr.TheVariants.{Load, Store, MemorySize, MemoryGrow, MemoryInit, DataDrop, MemoryCopy, MemoryFill};
ghost use Rattle.wasm_check.specs.Operators.{accessed_type as accessed_type_of, accessed_bytes as accessed_bytes_of};
ghost use Rattle.wasm_check.specs.code.Runs.{known};
ghost use Rattle.wasm_check.specs.code.Checker.{Answers, acts as acts_of, is_aligned as is_aligned_to};
ghost use Rattle.wasm_check.specs.code.Kept.{context};

use crate::act::applies;
use crate::numbers::is_from;
use crate::scope::Scope;
use crate::stack::Stack;
use std::alloc::AllocError;
use wasm_ast::ValType;

// The type of what a load gives or a store takes.
fn accessed_type(op: u8) -> ValType
    ensures { result ≡ accessed_type_of op }
{
    if op == 0x28 || is_from(0x2C, 0x2F, op) || op == 0x36 || is_from(0x3A, 0x3B, op) {
        ValType::I32
    } else {
        ValType::I64
    }
}

// How many bytes a load or store accesses.
fn accessed_bytes(op: u8) -> u32
    ensures { result ≡ accessed_bytes_of op }
{
    if is_from(0x2C, 0x2D, op) || is_from(0x30, 0x31, op) || op == 0x3A || op == 0x3C {
        1
    } else if is_from(0x2E, 0x2F, op) || is_from(0x32, 0x33, op) || op == 0x3B || op == 0x3D {
        2
    } else if op == 0x28 || is_from(0x34, 0x35, op) || op == 0x36 || op == 0x3E {
        4
    } else {
        8
    }
}

// Whether a load or store of this alignment's exponent is aligned to no more than it accesses.
fn is_aligned(op: u8, align: u32) -> bool
    ensures { result ≡ is_aligned_to op align }
{
    align < 4 && (1 << align) <= accessed_bytes(op)
}

/// A load.
pub fn load(
    scope: &Scope,
    op: u8,
    align: u32,
    offset: u32,
    s: &mut Stack,
) -> Result<bool, AllocError>
    ensures { IfOk result (λ b. Answers b (acts_of (context scope.now) [] (Load op align offset) (known scope.now.types s.old)) (known scope.now.types s.new)) }
{
    if !scope.has_memory() {
        return Ok(false);
    }
    if !is_aligned(op, align) {
        return Ok(false);
    }
    Ok(applies(scope, s, &[ValType::I32], &[accessed_type(op)])?)
}

/// A store.
pub fn store(
    scope: &Scope,
    op: u8,
    align: u32,
    offset: u32,
    s: &mut Stack,
) -> Result<bool, AllocError>
    ensures { IfOk result (λ b. Answers b (acts_of (context scope.now) [] (Store op align offset) (known scope.now.types s.old)) (known scope.now.types s.new)) }
{
    if !scope.has_memory() {
        return Ok(false);
    }
    if !is_aligned(op, align) {
        return Ok(false);
    }
    Ok(applies(scope, s, &[ValType::I32, accessed_type(op)], &[])?)
}

/// `memory.size`
pub fn memory_size(scope: &Scope, s: &mut Stack) -> Result<bool, AllocError>
    ensures { IfOk result (λ b. Answers b (acts_of (context scope.now) [] MemorySize (known scope.now.types s.old)) (known scope.now.types s.new)) }
{
    if !scope.has_memory() {
        return Ok(false);
    }
    Ok(applies(scope, s, &[], &[ValType::I32])?)
}

/// `memory.grow`
pub fn memory_grow(scope: &Scope, s: &mut Stack) -> Result<bool, AllocError>
    ensures { IfOk result (λ b. Answers b (acts_of (context scope.now) [] MemoryGrow (known scope.now.types s.old)) (known scope.now.types s.new)) }
{
    if !scope.has_memory() {
        return Ok(false);
    }
    Ok(applies(scope, s, &[ValType::I32], &[ValType::I32])?)
}

/// `memory.init`
pub fn memory_init(scope: &Scope, x: u32, s: &mut Stack) -> Result<bool, AllocError>
    ensures { IfOk result (λ b. Answers b (acts_of (context scope.now) [] (MemoryInit x) (known scope.now.types s.old)) (known scope.now.types s.new)) }
{
    if !scope.has_memory() {
        return Ok(false);
    }
    if !scope.is_data(x) {
        return Ok(false);
    }
    Ok(applies(scope, s, &[ValType::I32, ValType::I32, ValType::I32], &[])?)
}

/// `data.drop`
pub fn data_drop(scope: &Scope, x: u32, s: &mut Stack) -> Result<bool, AllocError>
    ensures { IfOk result (λ b. Answers b (acts_of (context scope.now) [] (DataDrop x) (known scope.now.types s.old)) (known scope.now.types s.new)) }
{
    if !scope.is_data(x) {
        return Ok(false);
    }
    Ok(applies(scope, s, &[], &[])?)
}

/// `memory.copy`
pub fn memory_copy(scope: &Scope, s: &mut Stack) -> Result<bool, AllocError>
    ensures { IfOk result (λ b. Answers b (acts_of (context scope.now) [] MemoryCopy (known scope.now.types s.old)) (known scope.now.types s.new)) }
{
    if !scope.has_memory() {
        return Ok(false);
    }
    Ok(applies(scope, s, &[ValType::I32, ValType::I32, ValType::I32], &[])?)
}

/// `memory.fill`
pub fn memory_fill(scope: &Scope, s: &mut Stack) -> Result<bool, AllocError>
    ensures { IfOk result (λ b. Answers b (acts_of (context scope.now) [] MemoryFill (known scope.now.types s.old)) (known scope.now.types s.new)) }
{
    if !scope.has_memory() {
        return Ok(false);
    }
    Ok(applies(scope, s, &[ValType::I32, ValType::I32, ValType::I32], &[])?)
}
