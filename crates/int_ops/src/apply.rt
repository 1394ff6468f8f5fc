// Operators applied by their opcodes.
ghost use Rattle.std.specs.Prelude.{◌≡◌, ◌<◌, ◌^◌, IsTrue};
ghost use Rattle.int_ops.specs.Operators.{is_unary, is_binary, operand_bits, unary, binary, total as total_of, bits_of, partial_value, total_value};

use crate::operators::{Binary, Operation, Operator, Trap, Width};
use crate::table::operator;
use crate::values::{is_division, value_by_zero, value_of_one, value_of_two};

/// What the operator of a unary opcode gives of x.
///
/// Source: Execution, Numerics: Integer Operations, Conversions.
#[inline(always)]
pub fn un(op: u8, x: u64) -> u64
    requires unary { IsTrue (is_unary op) }
    requires in_width { x < 2 ^ operand_bits op }
    ensures { result ≡ unary op x }
{
    match operator(op) {
        Some(
            Operator {
                operation: Operation::OfOne(operation),
                operand,
                result,
            },
        ) => value_of_one(operation, operand, result, x),
        _ => unreachable!(),
    }
}

/// What the operator of a binary opcode gives of x and y.
///
/// `DivZero` comes exactly where it divides and y is 0; `Overflow` exactly where it is a signed quotient of the least
/// number by -1.
///
/// Source: Execution, Numerics: Integer Operations, whose undefined results are traps.
pub fn bin(op: u8, x: u64, y: u64) -> Result<u64, Trap>
    requires binary { IsTrue (is_binary op) }
    requires x_in_width { x < 2 ^ operand_bits op }
    requires y_in_width { y < 2 ^ operand_bits op }
    ensures { result ≡ binary op x y }
{
    match operator(op) {
        Some(
            Operator {
                operation: Operation::OfTwo(operation),
                operand,
                result: _,
            },
        ) => partial(operation, operand, x, y),
        _ => unreachable!(),
    }
}

/// The same without traps: a quotient by 0 is all ones where it is unsigned, and where it is signed -1 or, of a negative
/// x, 1; a remainder by 0 is x; the least number by -1 is the least.
///
/// Source: SMT-LIB's theory of bit-vectors.
#[inline(always)]
pub fn total(op: u8, x: u64, y: u64) -> u64
    requires binary { IsTrue (is_binary op) }
    requires x_in_width { x < 2 ^ operand_bits op }
    requires y_in_width { y < 2 ^ operand_bits op }
    ensures { result ≡ total_of op x y }
{
    match operator(op) {
        Some(
            Operator {
                operation: Operation::OfTwo(operation),
                operand,
                result: _,
            },
        ) => without_traps(operation, operand, x, y),
        _ => unreachable!(),
    }
}

fn partial(operation: Binary, width: Width, x: u64, y: u64) -> Result<u64, Trap>
    requires x_fits { x < 2 ^ bits_of width }
    requires y_fits { y < 2 ^ bits_of width }
    ensures { result ≡ partial_value operation (bits_of width) x y }
{
    if is_division(operation) && y == 0 {
        return Err(Trap::DivZero);
    }
    if operation == Binary::DivS && x == width.least() && y == width.minus_one() {
        return Err(Trap::Overflow);
    }
    Ok(value_of_two(operation, width, x, y))
}

#[inline(always)]
fn without_traps(operation: Binary, width: Width, x: u64, y: u64) -> u64
    requires x_fits { x < 2 ^ bits_of width }
    requires y_fits { y < 2 ^ bits_of width }
    ensures { result ≡ total_value operation (bits_of width) x y }
{
    if is_division(operation) && y == 0 {
        return value_by_zero(operation, width, x);
    }
    value_of_two(operation, width, x, y)
}
