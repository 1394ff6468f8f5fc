// The table of the operators.
ghost use Rattle.std.specs.Prelude.{◌≡◌, Some};
ghost use Rattle.int_ops.specs.Operators.{operator_of};
ghost use Rattle.int_ops.specs.declared.operators.Width.TheVariants.{W32 as Narrow};
ghost use Rattle.int_ops.specs.declared.operators.Operation.TheVariants.{OfOne, OfTwo};

use crate::operators::{Binary, Operation, Operator, Unary, Width};
use Width::{W32, W64};

/// The operator of an opcode; None where the opcode is of no numeric operator of integers.
///
/// Source: Binary Format, Instructions: Numeric Instructions.
#[tactic(auto, unfolding(crate::specs::Operators::operator_of))]
#[inline(always)]
pub fn operator(op: u8) -> Option<Operator>
    ensures { result ≡ operator_of op }
{
    match op {
        0x45 => test(W32, Unary::Eqz),
        0x46 => comparison(W32, Binary::Eq),
        0x47 => comparison(W32, Binary::Ne),
        0x48 => comparison(W32, Binary::LtS),
        0x49 => comparison(W32, Binary::LtU),
        0x4A => comparison(W32, Binary::GtS),
        0x4B => comparison(W32, Binary::GtU),
        0x4C => comparison(W32, Binary::LeS),
        0x4D => comparison(W32, Binary::LeU),
        0x4E => comparison(W32, Binary::GeS),
        0x4F => comparison(W32, Binary::GeU),
        0x50 => test(W64, Unary::Eqz),
        0x51 => comparison(W64, Binary::Eq),
        0x52 => comparison(W64, Binary::Ne),
        0x53 => comparison(W64, Binary::LtS),
        0x54 => comparison(W64, Binary::LtU),
        0x55 => comparison(W64, Binary::GtS),
        0x56 => comparison(W64, Binary::GtU),
        0x57 => comparison(W64, Binary::LeS),
        0x58 => comparison(W64, Binary::LeU),
        0x59 => comparison(W64, Binary::GeS),
        0x5A => comparison(W64, Binary::GeU),
        0x67 => unop(W32, Unary::Clz),
        0x68 => unop(W32, Unary::Ctz),
        0x69 => unop(W32, Unary::Popcnt),
        0x6A => binop(W32, Binary::Add),
        0x6B => binop(W32, Binary::Sub),
        0x6C => binop(W32, Binary::Mul),
        0x6D => binop(W32, Binary::DivS),
        0x6E => binop(W32, Binary::DivU),
        0x6F => binop(W32, Binary::RemS),
        0x70 => binop(W32, Binary::RemU),
        0x71 => binop(W32, Binary::And),
        0x72 => binop(W32, Binary::Or),
        0x73 => binop(W32, Binary::Xor),
        0x74 => binop(W32, Binary::Shl),
        0x75 => binop(W32, Binary::ShrS),
        0x76 => binop(W32, Binary::ShrU),
        0x77 => binop(W32, Binary::Rotl),
        0x78 => binop(W32, Binary::Rotr),
        0x79 => unop(W64, Unary::Clz),
        0x7A => unop(W64, Unary::Ctz),
        0x7B => unop(W64, Unary::Popcnt),
        0x7C => binop(W64, Binary::Add),
        0x7D => binop(W64, Binary::Sub),
        0x7E => binop(W64, Binary::Mul),
        0x7F => binop(W64, Binary::DivS),
        0x80 => binop(W64, Binary::DivU),
        0x81 => binop(W64, Binary::RemS),
        0x82 => binop(W64, Binary::RemU),
        0x83 => binop(W64, Binary::And),
        0x84 => binop(W64, Binary::Or),
        0x85 => binop(W64, Binary::Xor),
        0x86 => binop(W64, Binary::Shl),
        0x87 => binop(W64, Binary::ShrS),
        0x88 => binop(W64, Binary::ShrU),
        0x89 => binop(W64, Binary::Rotl),
        0x8A => binop(W64, Binary::Rotr),
        0xA7 => conversion(W64, W32, Unary::Wrap),
        0xAC => conversion(W32, W64, Unary::Extend32),
        0xAD => conversion(W32, W64, Unary::ExtendU),
        0xC0 => unop(W32, Unary::Extend8),
        0xC1 => unop(W32, Unary::Extend16),
        0xC2 => unop(W64, Unary::Extend8),
        0xC3 => unop(W64, Unary::Extend16),
        0xC4 => unop(W64, Unary::Extend32),
        _ => None,
    }
}

fn test(width: Width, operation: Unary) -> Option<Operator>
    ensures { result ≡ Some (record { operation = OfOne operation; operand = width; result = Narrow }) }
{
    conversion(width, W32, operation)
}

fn unop(width: Width, operation: Unary) -> Option<Operator>
    ensures { result ≡ Some (record { operation = OfOne operation; operand = width; result = width }) }
{
    conversion(width, width, operation)
}

fn conversion(from: Width, to: Width, operation: Unary) -> Option<Operator>
    ensures { result ≡ Some (record { operation = OfOne operation; operand = from; result = to }) }
{
    Some(Operator {
        operation: Operation::OfOne(operation),
        operand: from,
        result: to,
    })
}

fn comparison(width: Width, operation: Binary) -> Option<Operator>
    ensures { result ≡ Some (record { operation = OfTwo operation; operand = width; result = Narrow }) }
{
    Some(Operator {
        operation: Operation::OfTwo(operation),
        operand: width,
        result: W32,
    })
}

fn binop(width: Width, operation: Binary) -> Option<Operator>
    ensures { result ≡ Some (record { operation = OfTwo operation; operand = width; result = width }) }
{
    Some(Operator {
        operation: Operation::OfTwo(operation),
        operand: width,
        result: width,
    })
}
