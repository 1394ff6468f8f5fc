// What each operation gives.
ghost use Rattle.std.specs.Prelude.{◌≡◌, ◌<◌, ◌^◌, IsTrue};
ghost use Rattle.int_ops.specs.Operators.{bits_of, unary_value, binary_value, divides, by_zero};

use crate::integers::{
    divide_signed, leading_zeros, remainder_signed, rotate, shift_count, shift_right_signed,
    signed, trailing_zeros, unsigned, wrapped,
};
use crate::operators::{Binary, Unary, Width};

// The value of an operation on one integer.
#[inline(always)]
pub fn value_of_one(operation: Unary, from: Width, to: Width, x: u64) -> u64
    requires { x < 2 ^ bits_of from }
    ensures { result ≡ unary_value operation (bits_of from) (bits_of to) x }
{
    match operation {
        Unary::Eqz => u64::from(x == 0),
        Unary::Clz => leading_zeros(x, from.bits()),
        Unary::Ctz => trailing_zeros(x, from.bits()),
        Unary::Popcnt => u64::from(x.count_ones()),
        Unary::Wrap => wrapped(x, to.bits()),
        Unary::ExtendU => x,
        Unary::Extend8 => unsigned(signed(x, 8), to.bits()),
        Unary::Extend16 => unsigned(signed(x, 16), to.bits()),
        Unary::Extend32 => unsigned(signed(x, 32), to.bits()),
    }
}

// The value of an operation on two integers of one width, where it is defined.
#[inline(always)]
pub fn value_of_two(operation: Binary, width: Width, x: u64, y: u64) -> u64
    requires x_fits { x < 2 ^ bits_of width }
    requires y_fits { y < 2 ^ bits_of width }
    requires defined { IsTrue (divides operation) → 0 < y }
    ensures { result ≡ binary_value operation (bits_of width) x y }
{
    let bits = width.bits();
    match operation {
        Binary::Eq => u64::from(x == y),
        Binary::Ne => u64::from(x != y),
        Binary::LtS => u64::from(signed(x, bits) < signed(y, bits)),
        Binary::LtU => u64::from(x < y),
        Binary::GtS => u64::from(signed(x, bits) > signed(y, bits)),
        Binary::GtU => u64::from(x > y),
        Binary::LeS => u64::from(signed(x, bits) <= signed(y, bits)),
        Binary::LeU => u64::from(x <= y),
        Binary::GeS => u64::from(signed(x, bits) >= signed(y, bits)),
        Binary::GeU => u64::from(x >= y),
        Binary::Add => wrapped(x.wrapping_add(y), bits),
        Binary::Sub => wrapped(x.wrapping_sub(y), bits),
        Binary::Mul => wrapped(x.wrapping_mul(y), bits),
        Binary::DivS => divide_signed(x, y, bits),
        Binary::DivU => x / y,
        Binary::RemS => remainder_signed(x, y, bits),
        Binary::RemU => x % y,
        Binary::And => x & y,
        Binary::Or => x | y,
        Binary::Xor => x ^ y,
        Binary::Shl => wrapped(x << shift_count(y, bits), bits),
        Binary::ShrS => shift_right_signed(x, y, bits),
        Binary::ShrU => x >> shift_count(y, bits),
        Binary::Rotl => rotate(x, shift_count(y, bits), bits),
        Binary::Rotr => rotate(x, bits - shift_count(y, bits), bits),
    }
}

// Whether the operation is a division.
pub fn is_division(operation: Binary) -> bool
    ensures { result ≡ divides operation }
{
    matches!(
        operation,
        Binary::DivS | Binary::DivU | Binary::RemS | Binary::RemU
    )
}

// What a division by 0 gives where nothing traps.
pub fn value_by_zero(operation: Binary, width: Width, x: u64) -> u64
    requires { x < 2 ^ bits_of width }
    ensures { result ≡ by_zero operation (bits_of width) x }
{
    match operation {
        Binary::DivU => width.minus_one(),
        Binary::DivS if signed(x, width.bits()) < 0 => 1,
        Binary::DivS => width.minus_one(),
        _ => x,
    }
}
