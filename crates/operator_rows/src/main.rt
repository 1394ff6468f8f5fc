// The operators of integers, one case a line.
//
// A line has the opcode of an operator, in hexadecimal, and its operands. It is answered by what the operator gives; that of
// two operands by what it gives without traps, and then by what it gives with them: the number again, or the trap. `byte X I`
// is byte I of a number, `join B ..` the number of these bytes, the lowest first, and `opcodes` how many operators there are.
// Operands out of their width, and opcodes without such an operator, give `no such operation`. Lines that begin with `#` and empty ones are
// written as they are. `stdout` has what the standard's chapter on numerics says.
#![tactic(auto)]

use int_ops::{Operation, Operator, Trap, bin, byte, join, operator, total, un};
use std::alloc::{AllocError, Global};
use std::io;

fn main(rt: HostRuntime) -> io::Result<()> {
    for line in rt.lines(rt.alloc()) {
        let line = line?;
        if line.is_empty() || line.starts_with('#') {
            println!(rt; "{line}")?;
        } else {
            let answer = answer_of(rt.alloc(), line.as_str())?;
            println!(rt; "{answer}")?;
        }
    }
    Ok(())
}

// The answer to a line: its first word, and the numbers after it.
fn answer_of(alloc: Global, line: &str) -> Result<String, AllocError> {
    let mut words = line.split(' ');
    let first = words.next().unwrap_or("");
    let mut numbers = Vec::new(alloc);
    for word in words {
        numbers.push(word.parse::<u64>().unwrap_or(0))?;
    }
    match (first, numbers.as_slice()) {
        ("opcodes", _) => format!(in alloc; "{}", opcodes()),
        ("byte", [x, i]) => byte_answer(alloc, *x, *i),
        ("join", bytes) => join_answer(alloc, bytes),
        (op, operands) => operator_answer(alloc, op, operands),
    }
}

fn opcodes() -> usize {
    (0..=255u8).filter(|op| operator(*op).is_some()).count()
}

fn byte_answer(alloc: Global, x: u64, i: u64) -> Result<String, AllocError> {
    if i < 8 {
        format!(in alloc; "{}", byte(x, i as u32))
    } else {
        String::from_str(alloc, "no such byte")
    }
}

fn join_answer(alloc: Global, bytes: &[u64]) -> Result<String, AllocError> {
    if bytes.len() <= 8 && bytes.iter().all(|byte| *byte < 256) {
        format!(in alloc; "{}", join(bytes))
    } else {
        String::from_str(alloc, "no such bytes")
    }
}

fn operator_answer(alloc: Global, op: &str, operands: &[u64]) -> Result<String, AllocError> {
    let Ok(op) = u8::from_str_radix(op, 16) else {
        return String::from_str(alloc, "no opcode");
    };
    match operands {
        [x] => match unary_at(op, *x) {
            Some(number) => format!(in alloc; "{number}"),
            None => String::from_str(alloc, "no such operation"),
        },
        [x, y] => match binary_at(op, *x, *y) {
            Some((without, Ok(number))) => format!(in alloc; "{without} {number}"),
            Some((without, Err(Trap::DivZero))) => format!(in alloc; "{without} divide by zero"),
            Some((without, Err(Trap::Overflow))) => format!(in alloc; "{without} overflow"),
            None => String::from_str(alloc, "no such operation"),
        },
        _ => String::from_str(alloc, "no such operation"),
    }
}

// What the operator of the opcode gives, where it is a unary one and x in its width.
fn unary_at(op: u8, x: u64) -> Option<u64> {
    match operator(op) {
        Some(
            Operator {
                operation: Operation::OfOne(_),
                operand,
                result: _,
            },
        ) if x <= operand.minus_one() => Some(un(op, x)),
        _ => None,
    }
}

// The same of a binary one, without and with traps.
fn binary_at(op: u8, x: u64, y: u64) -> Option<(u64, Result<u64, Trap>)> {
    match operator(op) {
        Some(
            Operator {
                operation: Operation::OfTwo(_),
                operand,
                result: _,
            },
        ) if x <= operand.minus_one() && y <= operand.minus_one() => {
            Some((total(op, x, y), bin(op, x, y)))
        }
        _ => None,
    }
}
