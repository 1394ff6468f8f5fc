// Constant expressions (Validation, Instructions: Constant Expressions; Execution, Modules: Instantiation), evaluated by their
// instructions on a stack of plain values.
ghost use Rattle.std.specs.Prelude.{◌≡◌, ◌∷◌, [], IfOk, List as Instrs, MatchOption, OnOk, None, false, map, true};
ghost use Rattle.wasm_ast.specs.Opcodes.{is_from as is_from_to};
ghost use Rattle.wasm_ast.specs.declared.instructions.Instr.{Instr as AnInstr};
ghost use Rattle.wasm_ast.specs.declared.runs.Value.{Value as PlainValue};
ghost use Rattle.wasm_rules.specs.Words.{numbers};
ghost use Rattle.wasm_reduction.specs.Configurations.{I32 as OfI32, I64 as OfI64, Ref as OfRef};
ghost use Rattle.wasm_reduction.specs.Instantiation.{argument, combined, operated, constant as constant_of, evaluated, value_of as value_in, reference_in, offset_in};
ghost use Rattle.wasm_reduction.specs.Tables.{null_of};
ghost use Rattle.wasm_start.specs.code.Evaluations.{stack_of, last_word, Applied};
ghost use Rattle.wasm_start.specs.code.Starts.{Represents};
ghost use Rattle.wasm_machine.specs.Values.{reference as reference_as};

use int_ops::total;
use std::alloc::{AllocError, Global};
use wasm_ast::{Expr, Instr, List, ValType, Value};
use wasm_machine::values::Reference;

// The null of a reference type.
pub(crate) fn null(kind: ValType) -> Option<Reference>
    ensures { Represents reference_as (null_of kind) result }
{
    match kind {
        ValType::FuncRef => Some(Reference::Func(None)),
        ValType::ExternRef => Some(Reference::Extern),
        _ => None,
    }
}

// A reference as a plain value.
fn referring(r: Reference) -> Value
    ensures { argument result ≡ OfRef (reference_as r) }
{
    match r {
        Reference::Func(f) => Value::Func(f),
        Reference::Extern => Value::Extern,
    }
}

// The sum, the difference or the product of two i32.
fn combine32(op: u8, x: u32, y: u32) -> u32
    requires { is_from_to 0x6A 0x6C op ≡ true }
    ensures { result ≡ numbers.binary op x y }
{
    total(op, x as u64, y as u64) as u32
}

// The sum, the difference or the product of two i64.
fn combine64(op: u8, x: u64, y: u64) -> u64
    requires { is_from_to 0x7C 0x7E op ≡ true }
    ensures { result ≡ numbers.binary op x y }
{
    total(op, x, y)
}

// Puts an operand on the stack.
fn push(stack: &mut Vec<Value>, v: Value) -> Result<(), AllocError>
    ensures { OnOk result (stack_of stack.new.items ≡ argument v ∷ stack_of stack.old.items) }
{
    stack.push(v)?;
    Ok(())
}

// Takes the last operand.
fn pop(stack: &mut Vec<Value>) -> Option<Value>
    ensures { MatchOption result (stack_of stack.old.items ≡ []) (λ v. stack_of stack.old.items ≡ argument v ∷ stack_of stack.new.items) }
{
    match stack.pop() {
        None => None,
        Some(v) => Some(v),
    }
}

// Takes the last operand, where it is an i32.
fn pop32(stack: &mut Vec<Value>) -> Option<u32>
    ensures { MatchOption result (last_word false (stack_of stack.old.items) ≡ None) (λ n. stack_of stack.old.items ≡ OfI32 n ∷ stack_of stack.new.items) }
{
    match pop(stack) {
        Some(Value::I32(n)) => Some(n),
        _ => None,
    }
}

// Takes the last operand, where it is an i64.
fn pop64(stack: &mut Vec<Value>) -> Option<u64>
    ensures { MatchOption result (last_word true (stack_of stack.old.items) ≡ None) (λ n. stack_of stack.old.items ≡ OfI64 n ∷ stack_of stack.new.items) }
{
    match pop(stack) {
        Some(Value::I64(n)) => Some(n),
        _ => None,
    }
}

// Combines the last two operands, where they are i32.
fn combines32(op: u8, stack: &mut Vec<Value>) -> Result<bool, AllocError>
    requires { is_from_to 0x6A 0x6C op ≡ true }
    ensures { IfOk result (λ b. Applied b (combined false op (stack_of stack.old.items)) (stack_of stack.new.items)) }
{
    let Some(y) = pop32(stack) else {
        return Ok(false);
    };
    let Some(x) = pop32(stack) else {
        return Ok(false);
    };
    push(stack, Value::I32(combine32(op, x, y)))?;
    Ok(true)
}

// Combines the last two operands, where they are i64.
fn combines64(op: u8, stack: &mut Vec<Value>) -> Result<bool, AllocError>
    requires { is_from_to 0x7C 0x7E op ≡ true }
    ensures { IfOk result (λ b. Applied b (combined true op (stack_of stack.old.items)) (stack_of stack.new.items)) }
{
    let Some(y) = pop64(stack) else {
        return Ok(false);
    };
    let Some(x) = pop64(stack) else {
        return Ok(false);
    };
    push(stack, Value::I64(combine64(op, x, y)))?;
    Ok(true)
}

// Whether the opcode byte is one of those from the first to the last.
fn is_from(first: u8, last: u8, op: u8) -> bool
    ensures { result ≡ is_from_to first last op }
{
    first <= op && op <= last
}

// An operator.
fn operate(op: u8, stack: &mut Vec<Value>) -> Result<bool, AllocError>
    ensures { IfOk result (λ b. Applied b (operated op (stack_of stack.old.items)) (stack_of stack.new.items)) }
{
    if is_from(0x6A, 0x6C, op) {
        return Ok(combines32(op, stack)?);
    }
    if is_from(0x7C, 0x7E, op) {
        return Ok(combines64(op, stack)?);
    }
    Ok(false)
}

// A constant instruction, where the globals have these values. The answer is whether it is one that has its operands.
fn apply(globals: &[Value], i: &Instr, stack: &mut Vec<Value>) -> Result<bool, AllocError>
    ensures { IfOk result (λ b. Applied b (constant_of (map argument globals.now) i.now (stack_of stack.old.items)) (stack_of stack.new.items)) }
{
    match i {
        Instr::Const32(n) => {
            push(stack, Value::I32(*n))?;
            Ok(true)
        }
        Instr::Const64(n) => {
            push(stack, Value::I64(*n))?;
            Ok(true)
        }
        Instr::RefNull(kind) => {
            let Some(r) = null(*kind) else {
                return Ok(false);
            };
            push(stack, referring(r))?;
            Ok(true)
        }
        Instr::RefFunc(x) => {
            push(stack, Value::Func(Some(*x)))?;
            Ok(true)
        }
        Instr::GlobalGet(x) => {
            let Some(v) = globals.get(*x as usize).copied() else {
                return Ok(false);
            };
            push(stack, v)?;
            Ok(true)
        }
        Instr::Num(op) => Ok(operate(*op, stack)?),
        _ => Ok(false),
    }
}

// The instructions, one after another.
fn evaluate(globals: &[Value], instrs: &[Instr], stack: &mut Vec<Value>) -> Result<bool, AllocError>
    ensures { IfOk result (λ b. Applied b (evaluated (map argument globals.now) instrs.now (stack_of stack.old.items)) (stack_of stack.new.items)) }
{
    for i in instrs {
        if !apply(globals, i, stack)? {
            return Ok(false);
        }
    }
    Ok(true)
}

// The sequence of an expression that has only one.
fn only_sequence(e: &Expr) -> Option<&List<Instr>>
    ensures { MatchOption result ((instrs : Instrs AnInstr) → e.now.seqs ≡ instrs ∷ [] → ⊥) (λ instrs. e.now.seqs ≡ instrs.now ∷ []) }
{
    match e.seqs.as_slice() {
        [instrs] => Some(instrs),
        _ => None,
    }
}

// The value of a list that has only one.
fn only_value(values: &[Value]) -> Option<Value>
    ensures { MatchOption result ((v : PlainValue) → values.now ≡ v ∷ [] → ⊥) (λ v. values.now ≡ v ∷ []) }
{
    match values {
        [v] => Some(*v),
        _ => None,
    }
}

// The value of a constant expression, where the globals have these values.
pub(crate) fn value_of(
    alloc: Global,
    globals: &[Value],
    e: &Expr,
) -> Result<Option<Value>, AllocError>
    ensures { IfOk result (λ told. Represents argument (value_in (map argument globals.now) e.now) told) }
{
    let Some(instrs) = only_sequence(e) else {
        return Ok(None);
    };
    let mut stack = Vec::new(alloc);
    if !evaluate(globals, instrs.as_slice(), &mut stack)? {
        return Ok(None);
    }
    Ok(only_value(stack.as_slice()))
}

// The reference that a constant expression gives.
pub(crate) fn reference_of(
    alloc: Global,
    globals: &[Value],
    e: &Expr,
) -> Result<Option<Reference>, AllocError>
    ensures { IfOk result (λ told. Represents reference_as (reference_in (map argument globals.now) e.now) told) }
{
    match value_of(alloc, globals, e)? {
        Some(Value::Func(f)) => Ok(Some(Reference::Func(f))),
        Some(Value::Extern) => Ok(Some(Reference::Extern)),
        _ => Ok(None),
    }
}

// The i32 that a constant expression gives.
pub(crate) fn offset_of(
    alloc: Global,
    globals: &[Value],
    e: &Expr,
) -> Result<Option<u32>, AllocError>
    ensures { IfOk result (λ told. told ≡ offset_in (map argument globals.now) e.now) }
{
    match value_of(alloc, globals, e)? {
        Some(Value::I32(n)) => Ok(Some(n)),
        _ => Ok(None),
    }
}
