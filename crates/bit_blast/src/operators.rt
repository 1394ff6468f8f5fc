// The wires of the results of the integer operators, by their opcodes.
ghost use Rattle.std.specs.Prelude.{◌≡◌, IfOk, map};
ghost use Rattle.int_ops.specs.Operators.{operand_bits as operand_bits_of};
ghost use Rattle.bit_blast.specs.Gates.{negation as negation_of, true_wire};
ghost use Rattle.bit_blast.specs.Blocks.{Builds, less as less_of};
ghost use Rattle.bit_blast.specs.Operators.{answer as answer_of, count_to as count_to_of, unary_wires, equal as equal_of, compared, compared_not, plus as plus_of, quotient as quotient_of, remainder as remainder_of, magnitude as magnitude_of, divide_magnitudes as divide_magnitudes_of, signed_quotient as signed_quotient_of, signed_remainder as signed_remainder_of, either as either_of, binary_wires, unary_operator as unary_operator_of, binary_operator as binary_operator_of, sign_turned as turned_of};

use crate::blocks::{
    Division, Shift, add, ands, count, divide, less, multiply, negate_if, none, shifted, xors,
    zeros,
};
use crate::gates::Gate;
use crate::netlist::Netlist;
use crate::wires::{
    FALSE, TRUE, Wires, backwards, fitted, highest, negation, negations, sign_extended, sign_turned,
};
use int_ops::{Binary, Operation, Unary, Width, operator};
use refute_check::Items;
use std::alloc::{AllocError, Global};

/// How many bits the operands of the operator have, 0 where there is none of this opcode.
pub fn operand_bits(op: u8) -> usize
    ensures { result ≡ operand_bits_of op }
{
    match operator(op) {
        Some(operator) => operator.operand.bits() as usize,
        None => 0,
    }
}

/// The result of a unary operator; no wires where there is none of this opcode.
pub fn unary_operator(netlist: &mut Netlist, op: u8, a: &[u64]) -> Result<Wires, AllocError>
    ensures { IfOk result (λ wires. Builds (unary_operator_of op a.now) netlist.old wires netlist.new) }
{
    match operator(op) {
        Some(operator) => {
            let bits = operator.result.bits() as usize;
            match operator.operation {
                Operation::OfOne(operation) => unary(netlist, operation, bits, a),
                Operation::OfTwo(_) => Ok(Items::new(Vec::new(netlist.alloc()))),
            }
        }
        None => Ok(Items::new(Vec::new(netlist.alloc()))),
    }
}

/// The result of a binary operator; no wires where there is none of this opcode.
pub fn binary_operator(
    netlist: &mut Netlist,
    op: u8,
    a: &[u64],
    b: &[u64],
) -> Result<Wires, AllocError>
    ensures { IfOk result (λ wires. Builds (binary_operator_of op a.now b.now) netlist.old wires netlist.new) }
{
    match operator(op) {
        Some(operator) => {
            let bits = operator.result.bits() as usize;
            match operator.operation {
                Operation::OfOne(_) => Ok(Items::new(Vec::new(netlist.alloc()))),
                Operation::OfTwo(operation) => {
                    binary(netlist, operation, operator.operand, bits, a, b)
                }
            }
        }
        None => Ok(Items::new(Vec::new(netlist.alloc()))),
    }
}

/// So many wires: the answer, and 0 above.
fn answer(alloc: Global, bits: usize, wire: u64) -> Result<Wires, AllocError>
    ensures { IfOk result (λ wires. wires ≡ answer_of bits wire) }
{
    fitted(alloc, bits, FALSE, &[wire])
}

fn count_to(netlist: &mut Netlist, bits: usize, wires: &[u64]) -> Result<Wires, AllocError>
    ensures { IfOk result (λ all. Builds (count_to_of bits wires.now) netlist.old all netlist.new) }
{
    let bits_on = count(netlist, wires)?;
    fitted(netlist.alloc(), bits, FALSE, bits_on.as_slice())
}

fn is_zero(netlist: &mut Netlist, bits: usize, a: &[u64]) -> Result<Wires, AllocError>
    ensures { IfOk result (λ wires. Builds (unary_wires Unary.Eqz bits a.now) netlist.old wires netlist.new) }
{
    let wire = none(netlist, a)?;
    answer(netlist.alloc(), bits, wire)
}

fn trailing_zeros(netlist: &mut Netlist, bits: usize, a: &[u64]) -> Result<Wires, AllocError>
    ensures { IfOk result (λ wires. Builds (unary_wires Unary.Ctz bits a.now) netlist.old wires netlist.new) }
{
    let zero_below = zeros(netlist, a)?;
    count_to(netlist, bits, zero_below.as_slice())
}

fn leading_zeros(netlist: &mut Netlist, bits: usize, a: &[u64]) -> Result<Wires, AllocError>
    ensures { IfOk result (λ wires. Builds (unary_wires Unary.Clz bits a.now) netlist.old wires netlist.new) }
{
    let downwards = backwards(netlist.alloc(), a)?;
    let zero_above = zeros(netlist, downwards.as_slice())?;
    count_to(netlist, bits, zero_above.as_slice())
}

fn unary(
    netlist: &mut Netlist,
    operation: Unary,
    bits: usize,
    a: &[u64],
) -> Result<Wires, AllocError>
    ensures { IfOk result (λ wires. Builds (unary_wires operation bits a.now) netlist.old wires netlist.new) }
{
    match operation {
        Unary::Eqz => is_zero(netlist, bits, a),
        Unary::Popcnt => count_to(netlist, bits, a),
        Unary::Ctz => trailing_zeros(netlist, bits, a),
        Unary::Clz => leading_zeros(netlist, bits, a),
        Unary::Wrap => fitted(netlist.alloc(), bits, FALSE, a),
        Unary::ExtendU => fitted(netlist.alloc(), bits, FALSE, a),
        Unary::Extend8 => sign_extended(netlist.alloc(), 8, bits, a),
        Unary::Extend16 => sign_extended(netlist.alloc(), 16, bits, a),
        Unary::Extend32 => sign_extended(netlist.alloc(), 32, bits, a),
    }
}

fn equal(netlist: &mut Netlist, a: &[u64], b: &[u64]) -> Result<u64, AllocError>
    ensures { IfOk result (λ wire. Builds (equal_of a.now b.now) netlist.old wire netlist.new) }
{
    let differ = xors(netlist, a, b)?;
    none(netlist, differ.as_slice())
}

fn is_equal(netlist: &mut Netlist, bits: usize, a: &[u64], b: &[u64]) -> Result<Wires, AllocError>
    ensures { IfOk result (λ wires. Builds (compared bits (equal_of a.now b.now)) netlist.old wires netlist.new) }
{
    let wire = equal(netlist, a, b)?;
    answer(netlist.alloc(), bits, wire)
}

fn is_unequal(netlist: &mut Netlist, bits: usize, a: &[u64], b: &[u64]) -> Result<Wires, AllocError>
    ensures { IfOk result (λ wires. Builds (compared_not bits (equal_of a.now b.now)) netlist.old wires netlist.new) }
{
    let wire = equal(netlist, a, b)?;
    answer(netlist.alloc(), bits, negation(wire))
}

fn is_less(netlist: &mut Netlist, bits: usize, a: &[u64], b: &[u64]) -> Result<Wires, AllocError>
    ensures { IfOk result (λ wires. Builds (compared bits (less_of a.now b.now)) netlist.old wires netlist.new) }
{
    let wire = less(netlist, a, b)?;
    answer(netlist.alloc(), bits, wire)
}

fn is_not_less(
    netlist: &mut Netlist,
    bits: usize,
    a: &[u64],
    b: &[u64],
) -> Result<Wires, AllocError>
    ensures { IfOk result (λ wires. Builds (compared_not bits (less_of a.now b.now)) netlist.old wires netlist.new) }
{
    let wire = less(netlist, a, b)?;
    answer(netlist.alloc(), bits, negation(wire))
}

fn is_less_signed(
    netlist: &mut Netlist,
    bits: usize,
    a: &[u64],
    b: &[u64],
) -> Result<Wires, AllocError>
    ensures { IfOk result (λ wires. Builds (compared bits (less_of (turned_of a.now) (turned_of b.now))) netlist.old wires netlist.new) }
{
    let first = sign_turned(netlist.alloc(), a)?;
    let second = sign_turned(netlist.alloc(), b)?;
    is_less(netlist, bits, first.as_slice(), second.as_slice())
}

fn is_not_less_signed(
    netlist: &mut Netlist,
    bits: usize,
    a: &[u64],
    b: &[u64],
) -> Result<Wires, AllocError>
    ensures { IfOk result (λ wires. Builds (compared_not bits (less_of (turned_of a.now) (turned_of b.now))) netlist.old wires netlist.new) }
{
    let first = sign_turned(netlist.alloc(), a)?;
    let second = sign_turned(netlist.alloc(), b)?;
    is_not_less(netlist, bits, first.as_slice(), second.as_slice())
}

fn plus(netlist: &mut Netlist, a: &[u64], b: &[u64], carry: u64) -> Result<Wires, AllocError>
    ensures { IfOk result (λ wires. Builds (plus_of a.now b.now carry) netlist.old wires netlist.new) }
{
    let sum = add(netlist, a, b, carry)?;
    Ok(sum.sums)
}

fn minus(netlist: &mut Netlist, a: &[u64], b: &[u64]) -> Result<Wires, AllocError>
    ensures { IfOk result (λ wires. Builds (plus_of a.now (map negation_of b.now) true_wire) netlist.old wires netlist.new) }
{
    let opposite = negations(netlist.alloc(), b)?;
    plus(netlist, a, opposite.as_slice(), TRUE)
}

fn quotient(netlist: &mut Netlist, a: &[u64], b: &[u64]) -> Result<Wires, AllocError>
    ensures { IfOk result (λ wires. Builds (quotient_of a.now b.now) netlist.old wires netlist.new) }
{
    let divided = divide(netlist, a, b)?;
    Ok(divided.quotient)
}

fn remainder(netlist: &mut Netlist, a: &[u64], b: &[u64]) -> Result<Wires, AllocError>
    ensures { IfOk result (λ wires. Builds (remainder_of a.now b.now) netlist.old wires netlist.new) }
{
    let divided = divide(netlist, a, b)?;
    Ok(divided.remainder)
}

fn magnitude(netlist: &mut Netlist, a: &[u64]) -> Result<Wires, AllocError>
    ensures { IfOk result (λ wires. Builds (magnitude_of a.now) netlist.old wires netlist.new) }
{
    negate_if(netlist, highest(a), a)
}

fn divide_magnitudes(netlist: &mut Netlist, a: &[u64], b: &[u64]) -> Result<Division, AllocError>
    ensures { IfOk result (λ all. Builds (divide_magnitudes_of a.now b.now) netlist.old all netlist.new) }
{
    let dividend = magnitude(netlist, a)?;
    let divisor = magnitude(netlist, b)?;
    let divided = divide(netlist, dividend.as_slice(), divisor.as_slice())?;
    Ok(divided)
}

fn signed_quotient(netlist: &mut Netlist, a: &[u64], b: &[u64]) -> Result<Wires, AllocError>
    ensures { IfOk result (λ wires. Builds (signed_quotient_of a.now b.now) netlist.old wires netlist.new) }
{
    let divided = divide_magnitudes(netlist, a, b)?;
    let sign = netlist.put(Gate::Xor(highest(a), highest(b)))?;
    negate_if(netlist, sign, divided.quotient.as_slice())
}

fn signed_remainder(netlist: &mut Netlist, a: &[u64], b: &[u64]) -> Result<Wires, AllocError>
    ensures { IfOk result (λ wires. Builds (signed_remainder_of a.now b.now) netlist.old wires netlist.new) }
{
    let divided = divide_magnitudes(netlist, a, b)?;
    negate_if(netlist, highest(a), divided.remainder.as_slice())
}

fn either(netlist: &mut Netlist, a: &[u64], b: &[u64]) -> Result<Wires, AllocError>
    ensures { IfOk result (λ wires. Builds (either_of a.now b.now) netlist.old wires netlist.new) }
{
    let not_first = negations(netlist.alloc(), a)?;
    let not_second = negations(netlist.alloc(), b)?;
    let neither = ands(netlist, not_first.as_slice(), not_second.as_slice())?;
    negations(netlist.alloc(), neither.as_slice())
}

fn binary(
    netlist: &mut Netlist,
    operation: Binary,
    width: Width,
    bits: usize,
    a: &[u64],
    b: &[u64],
) -> Result<Wires, AllocError>
    ensures { IfOk result (λ wires. Builds (binary_wires operation width bits a.now b.now) netlist.old wires netlist.new) }
{
    match operation {
        Binary::Eq => is_equal(netlist, bits, a, b),
        Binary::Ne => is_unequal(netlist, bits, a, b),
        Binary::LtU => is_less(netlist, bits, a, b),
        Binary::GtU => is_less(netlist, bits, b, a),
        Binary::LeU => is_not_less(netlist, bits, b, a),
        Binary::GeU => is_not_less(netlist, bits, a, b),
        Binary::LtS => is_less_signed(netlist, bits, a, b),
        Binary::GtS => is_less_signed(netlist, bits, b, a),
        Binary::LeS => is_not_less_signed(netlist, bits, b, a),
        Binary::GeS => is_not_less_signed(netlist, bits, a, b),
        Binary::Add => plus(netlist, a, b, FALSE),
        Binary::Sub => minus(netlist, a, b),
        Binary::Mul => multiply(netlist, a, b),
        Binary::DivU => quotient(netlist, a, b),
        Binary::RemU => remainder(netlist, a, b),
        Binary::DivS => signed_quotient(netlist, a, b),
        Binary::RemS => signed_remainder(netlist, a, b),
        Binary::And => ands(netlist, a, b),
        Binary::Xor => xors(netlist, a, b),
        Binary::Or => either(netlist, a, b),
        Binary::Shl => shifted(netlist, Shift::Left, width, a, b),
        Binary::ShrU => shifted(netlist, Shift::Right, width, a, b),
        Binary::ShrS => shifted(netlist, Shift::RightSigned, width, a, b),
        Binary::Rotl => shifted(netlist, Shift::RotateLeft, width, a, b),
        Binary::Rotr => shifted(netlist, Shift::RotateRight, width, a, b),
    }
}
