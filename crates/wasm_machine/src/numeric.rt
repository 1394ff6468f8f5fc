// Numeric instructions (Execution, Instructions: Numeric Instructions).
ghost use Rattle.std.specs.Prelude.{◌≡◌, true, IfOk, Some};
ghost use Rattle.wasm_ast.specs.declared.modules.Module.{Module as OneModule};
ghost use Rattle.wasm_ast.specs.declared.instructions.Instr.{Instr};
ghost use Rattle.int_ops.specs.declared.operators.Unary.{Unary as OneUnary};
ghost use Rattle.int_ops.specs.declared.operators.Operation.{Operation as OneOperation};
ghost use Rattle.int_ops.specs.Operators.{operator_of, bits_of, divides as divides_of, is_div_s as is_div_s_of};
ghost use Rattle.wasm_rules.specs.Words.{Kept};
ghost use Rattle.wasm_reduction.specs.Numeric.{is_wide as is_wide_of, eqz_op as eqz_op_of, eq_op as eq_op_of, is_overflow as is_overflow_of};
ghost use Rattle.wasm_machine.specs.States.{own};
ghost use Rattle.wasm_machine.specs.Values.{word_at};
ghost use Rattle.wasm_machine.specs.Acts.{Ready, Acts};
ghost use Rattle.wasm_machine.specs.code.Divisions.{check_of, check_overflow};

use crate::machine::Machine;
use crate::next::{End, Next, Question};
use crate::values::Value;
use int_ops::{Binary, Operation, Operator, Width, operator};
use std::alloc::AllocError;
use wasm_ast::Cause;
use wasm_rules::Algebra;

/// `i32.const`.
#[inline(always)]
pub fn const32<A: Algebra>(
    a: &mut A,
    s: &mut Machine<A::Word>,
    n: u32,
) -> Result<Next<A::Word>, AllocError>
    requires { Ready A.holds A.Has A.means a.old s.old }
    ensures kept { Kept A.holds A.means a.old a.new }
    ensures acts { IfOk result (λ x. (m : OneModule) → Acts A.holds A.means A.kind m (Instr.Const32 n) a.old s.old a.new s.new x) }
{
    let w = a.constant(n as u64);
    s.pass();
    s.push(Value::I32(w))?;
    Ok(Next::Goes)
}

/// `i64.const`.
#[inline(always)]
pub fn const64<A: Algebra>(
    a: &mut A,
    s: &mut Machine<A::Word>,
    n: u64,
) -> Result<Next<A::Word>, AllocError>
    requires { Ready A.holds A.Has A.means a.old s.old }
    ensures kept { Kept A.holds A.means a.old a.new }
    ensures acts { IfOk result (λ x. (m : OneModule) → Acts A.holds A.means A.kind m (Instr.Const64 n) a.old s.old a.new s.new x) }
{
    let w = a.constant(n);
    s.pass();
    s.push(Value::I64(w))?;
    Ok(Next::Goes)
}

fn is_wide(width: Width) -> bool
    ensures { result ≡ is_wide_of width }
{
    match width {
        Width::W32 => false,
        Width::W64 => true,
    }
}

/// An operator, by its opcode.
#[inline(always)]
pub fn num<A: Algebra>(
    a: &mut A,
    s: &mut Machine<A::Word>,
    op: u8,
) -> Result<Next<A::Word>, AllocError>
    requires { Ready A.holds A.Has A.means a.old s.old }
    ensures kept { Kept A.holds A.means a.old a.new }
    ensures acts { IfOk result (λ x. (m : OneModule) → Acts A.holds A.means A.kind m (Instr.Num op) a.old s.old a.new s.new x) }
{
    match operator(op) {
        None => Ok(Next::Ends(End::Stuck)),
        Some(o) => match o.operation {
            Operation::OfOne(_) => {
                let x = unary(a, s, op, o)?;
                Ok(x)
            }
            Operation::OfTwo(operation) => {
                let x = binary(a, s, op, o, operation)?;
                Ok(x)
            }
        },
    }
}

// An operator with one operand.
#[inline(always)]
fn unary<A: Algebra>(
    a: &mut A,
    s: &mut Machine<A::Word>,
    op: u8,
    o: Operator,
) -> Result<Next<A::Word>, AllocError>
    requires ready { Ready A.holds A.Has A.means a.old s.old }
    requires operator { operator_of op ≡ Some o }
    requires one { (u : OneUnary) × (o.operation ≡ OneOperation.OfOne u) }
    ensures kept { Kept A.holds A.means a.old a.new }
    ensures acts { IfOk result (λ x. (m : OneModule) → Acts A.holds A.means A.kind m (Instr.Num op) a.old s.old a.new s.new x) }
{
    match s.word(0, is_wide(o.operand)) {
        None => Ok(Next::Ends(End::Stuck)),
        Some(x) => {
            let w = a.un(op, x)?;
            s.pass();
            s.replace(1, Value::of_word(is_wide(o.result), w));
            Ok(Next::Goes)
        }
    }
}

/// Where the questions of a division stand.
#[derive(Clone, Copy)]
pub enum Check {
    /// It is to be asked whether the divisor is 0.
    AskZero,
    /// It is to be asked whether the signed quotient doesn't fit.
    AskOverflow,
    /// The divisor is 0.
    DivZero,
    /// The signed quotient doesn't fit.
    Overflow,
    /// There is nothing more to ask.
    Fine,
}

// Whether the operator divides, and whether it is the signed quotient.
fn divides(operation: Binary) -> bool
    ensures { result ≡ divides_of operation }
{
    matches!(
        operation,
        Binary::DivS | Binary::DivU | Binary::RemS | Binary::RemU
    )
}

fn is_div_s(operation: Binary) -> bool
    ensures { result ≡ is_div_s_of operation }
{
    matches!(operation, Binary::DivS)
}

// Where the questions of an operator stand after these answers.
fn checked(operation: Binary, answers: &[u64]) -> Check
    ensures { result ≡ check_of (divides_of operation) (is_div_s_of operation) answers.now }
{
    if !divides(operation) {
        return Check::Fine;
    }
    match answers {
        [] => Check::AskZero,
        [zero, rest @ ..] => {
            if *zero != 0 {
                return Check::DivZero;
            }
            if !is_div_s(operation) {
                return Check::Fine;
            }
            overflow_checked(rest)
        }
    }
}

// The same of a signed quotient whose divisor isn't 0.
fn overflow_checked(answers: &[u64]) -> Check
    ensures { result ≡ check_overflow true answers.now }
{
    match answers {
        [] => Check::AskOverflow,
        [overflow, ..] => {
            if *overflow != 0 {
                Check::Overflow
            } else {
                Check::Fine
            }
        }
    }
}

// The opcodes of `eqz` and `eq`.
fn eqz_op(width: Width) -> u8
    ensures { result ≡ eqz_op_of width }
{
    match width {
        Width::W32 => 0x45,
        Width::W64 => 0x50,
    }
}

fn eq_op(width: Width) -> u8
    ensures { result ≡ eq_op_of width }
{
    match width {
        Width::W32 => 0x46,
        Width::W64 => 0x51,
    }
}

// Whether a signed quotient doesn't fit, as a word.
fn overflow<A: Algebra>(
    a: &mut A,
    width: Width,
    x: A::Word,
    y: A::Word,
) -> Result<A::Word, AllocError>
    requires x_held { A.holds a.old x }
    requires y_held { A.holds a.old y }
    requires x_wide { A.Has (bits_of width) (A.means a.old x) }
    requires y_wide { A.Has (bits_of width) (A.means a.old y) }
    ensures kept { Kept A.holds A.means a.old a.new }
    ensures held { IfOk result (λ w. A.holds a.new w) }
    ensures means { IfOk result (λ w. A.means a.new w ≡ is_overflow_of A.kind width (A.means a.old x) (A.means a.old y)) }
{
    let least = a.constant(width.least());
    let is_least = a.bin(eq_op(width), x, least)?;
    let minus_one = a.constant(width.minus_one());
    let is_minus_one = a.bin(eq_op(width), y, minus_one)?;
    let w = a.bin(0x71, is_least, is_minus_one)?;
    Ok(w)
}

// An operator with two operands.
#[inline(always)]
fn binary<A: Algebra>(
    a: &mut A,
    s: &mut Machine<A::Word>,
    op: u8,
    o: Operator,
    operation: Binary,
) -> Result<Next<A::Word>, AllocError>
    requires ready { Ready A.holds A.Has A.means a.old s.old }
    requires operator { operator_of op ≡ Some o }
    requires two { o.operation ≡ OneOperation.OfTwo operation }
    ensures kept { Kept A.holds A.means a.old a.new }
    ensures acts { IfOk result (λ x. (m : OneModule) → Acts A.holds A.means A.kind m (Instr.Num op) a.old s.old a.new s.new x) }
{
    match s.word(0, is_wide(o.operand)) {
        None => Ok(Next::Ends(End::Stuck)),
        Some(y) => match s.word(1, is_wide(o.operand)) {
            None => Ok(Next::Ends(End::Stuck)),
            Some(x) => {
                let next = apply(a, s, op, o, operation, x, y)?;
                Ok(next)
            }
        },
    }
}

// An operator with its two operands.
#[inline(always)]
fn apply<A: Algebra>(
    a: &mut A,
    s: &mut Machine<A::Word>,
    op: u8,
    o: Operator,
    operation: Binary,
    x: A::Word,
    y: A::Word,
) -> Result<Next<A::Word>, AllocError>
    requires ready { Ready A.holds A.Has A.means a.old s.old }
    requires operator { operator_of op ≡ Some o }
    requires two { o.operation ≡ OneOperation.OfTwo operation }
    requires second { Some y ≡ word_at (is_wide_of o.operand) (own s.old) 0 }
    requires first { Some x ≡ word_at (is_wide_of o.operand) (own s.old) 1 }
    ensures kept { Kept A.holds A.means a.old a.new }
    ensures acts { IfOk result (λ x. (m : OneModule) → Acts A.holds A.means A.kind m (Instr.Num op) a.old s.old a.new s.new x) }
{
    match checked(operation, s.given()) {
        Check::AskZero => {
            let w = a.un(eqz_op(o.operand), y)?;
            Ok(Next::Asks(Question::Test, w))
        }
        Check::AskOverflow => {
            let w = overflow(a, o.operand, x, y)?;
            Ok(Next::Asks(Question::Test, w))
        }
        Check::DivZero => Ok(Next::Ends(End::Traps(Cause::DivZero))),
        Check::Overflow => Ok(Next::Ends(End::Traps(Cause::Overflow))),
        Check::Fine => {
            let w = a.bin(op, x, y)?;
            s.pass();
            s.replace(2, Value::of_word(is_wide(o.result), w));
            Ok(Next::Goes)
        }
    }
}
