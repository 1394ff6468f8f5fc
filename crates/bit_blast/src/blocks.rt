// Blocks of gates. The wires of an integer are listed from the lowest bit on.
ghost use Rattle.std.specs.Prelude.{◌≡◌, ◌≤◌, length, drop, IfOk, map, zip};
ghost use Rattle.bit_blast.specs.declared.gates.Gate.TheVariants.{And, Xor, Mux, Same};
ghost use Rattle.bit_blast.specs.Blocks.{Builds, each, each_two, times as times_of, add as add_of, less as less_of, zeros as zeros_of, none as none_of, negate_if as negate_of, count as count_of, divide_bit as divide_bit_of, divide as divide_of, add_row as add_row_of, multiply as multiply_of, shift_by, choose as choose_of};
ghost use Rattle.bit_blast.specs.Operators.{shift_bits as shift_bits_of, shift as shift_of};

use crate::gates::Gate;
use crate::netlist::Netlist;
use crate::wires::{
    FALSE, TRUE, Wires, fitted, highest, joined, moved, negation, negations, repeated,
};
use int_ops::Width;
use refute_check::Items;
use std::alloc::{AllocError, Global};

/// The wires of a sum, and its last carry.
#[derive(Drop)]
pub struct Sum {
    pub sums: Wires,
    pub carry: u64,
}

/// The wires of a quotient and of a remainder.
#[derive(Drop)]
pub struct Division {
    pub quotient: Wires,
    pub remainder: Wires,
}

/// The ways in which bits are moved by a number of places.
#[derive(Clone, Copy)]
pub enum Shift {
    /// Upwards, with zeros below.
    Left,
    /// Downwards, with zeros above.
    Right,
    /// Downwards, with the sign above.
    RightSigned,
    /// Upwards, and from the top to the bottom.
    RotateLeft,
    /// Downwards, and from the bottom to the top.
    RotateRight,
}

fn and_gates(alloc: Global, a: &[u64], b: &[u64]) -> Result<Vec<Gate>, AllocError>
    ensures { IfOk result (λ gates. gates.items ≡ map (λ p. And p.0 p.1) (zip a.now b.now)) }
{
    a.iter()
        .zip(b)
        .map(|(x, y)| Gate::And(*x, *y))
        .collect(alloc)
}

/// Whether both are true, of each two wires at one place.
pub fn ands(netlist: &mut Netlist, a: &[u64], b: &[u64]) -> Result<Wires, AllocError>
    ensures { IfOk result (λ wires. Builds (each_two And a.now b.now) netlist.old wires netlist.new) }
{
    let gates = and_gates(netlist.alloc(), a, b)?;
    netlist.put_all(gates.as_slice())
}

fn xor_gates(alloc: Global, a: &[u64], b: &[u64]) -> Result<Vec<Gate>, AllocError>
    ensures { IfOk result (λ gates. gates.items ≡ map (λ p. Xor p.0 p.1) (zip a.now b.now)) }
{
    a.iter()
        .zip(b)
        .map(|(x, y)| Gate::Xor(*x, *y))
        .collect(alloc)
}

/// Whether they differ, of each two wires at one place.
pub fn xors(netlist: &mut Netlist, a: &[u64], b: &[u64]) -> Result<Wires, AllocError>
    ensures { IfOk result (λ wires. Builds (each_two Xor a.now b.now) netlist.old wires netlist.new) }
{
    let gates = xor_gates(netlist.alloc(), a, b)?;
    netlist.put_all(gates.as_slice())
}

fn mux_gates(alloc: Global, s: u64, a: &[u64], b: &[u64]) -> Result<Vec<Gate>, AllocError>
    ensures { IfOk result (λ gates. gates.items ≡ map (λ p. Mux s p.0 p.1) (zip a.now b.now)) }
{
    a.iter()
        .zip(b)
        .map(|(x, y)| Gate::Mux(s, *x, *y))
        .collect(alloc)
}

/// The first wires where s is true, else the second.
pub fn muxes(netlist: &mut Netlist, s: u64, a: &[u64], b: &[u64]) -> Result<Wires, AllocError>
    ensures { IfOk result (λ wires. Builds (each_two (Mux s) a.now b.now) netlist.old wires netlist.new) }
{
    let gates = mux_gates(netlist.alloc(), s, a, b)?;
    netlist.put_all(gates.as_slice())
}

fn turn_gates(alloc: Global, a: &[u64], sign: u64) -> Result<Vec<Gate>, AllocError>
    ensures { IfOk result (λ gates. gates.items ≡ map (λ x. Xor x sign) a.now) }
{
    a.iter().map(|x| Gate::Xor(*x, sign)).collect(alloc)
}

/// The wires, each negated where the sign is true.
pub fn turned(netlist: &mut Netlist, a: &[u64], sign: u64) -> Result<Wires, AllocError>
    ensures { IfOk result (λ wires. Builds (each (λ x. Xor x sign) a.now) netlist.old wires netlist.new) }
{
    let gates = turn_gates(netlist.alloc(), a, sign)?;
    netlist.put_all(gates.as_slice())
}

fn time_gates(alloc: Global, a: &[u64], y: u64) -> Result<Vec<Gate>, AllocError>
    ensures { IfOk result (λ gates. gates.items ≡ map (λ x. And x y) a.now) }
{
    a.iter().map(|x| Gate::And(*x, y)).collect(alloc)
}

/// The wires where y is true, else 0.
pub fn times(netlist: &mut Netlist, a: &[u64], y: u64) -> Result<Wires, AllocError>
    ensures { IfOk result (λ wires. Builds (times_of a.now y) netlist.old wires netlist.new) }
{
    let gates = time_gates(netlist.alloc(), a, y)?;
    netlist.put_all(gates.as_slice())
}

fn same_gates(alloc: Global, a: &[u64]) -> Result<Vec<Gate>, AllocError>
    ensures { IfOk result (λ gates. gates.items ≡ map (λ x. Same x) a.now) }
{
    a.iter().map(|x| Gate::Same(*x)).collect(alloc)
}

/// A gate for each wire, which has the same value.
pub fn sames(netlist: &mut Netlist, a: &[u64]) -> Result<Wires, AllocError>
    ensures { IfOk result (λ wires. Builds (each Same a.now) netlist.old wires netlist.new) }
{
    let gates = same_gates(netlist.alloc(), a)?;
    netlist.put_all(gates.as_slice())
}

/// The sum of two integers of one width and a carry.
pub fn add(netlist: &mut Netlist, a: &[u64], b: &[u64], carry: u64) -> Result<Sum, AllocError>
    ensures { IfOk result (λ sum. Builds (add_of a.now b.now carry) netlist.old sum netlist.new) }
{
    let mut sums = Items::new(Vec::new(netlist.alloc()));
    let mut last = carry;
    for i in 0..a.len().min(b.len()) {
        let differ = netlist.put(Gate::Xor(a[i], b[i]))?;
        let wire = netlist.put(Gate::Xor(differ, last))?;
        last = netlist.put(Gate::Maj(a[i], b[i], last))?;
        sums.push(wire)?;
    }
    Ok(Sum { sums, carry: last })
}

/// Whether the first integer is below the second, of one width.
pub fn less(netlist: &mut Netlist, a: &[u64], b: &[u64]) -> Result<u64, AllocError>
    ensures { IfOk result (λ wire. Builds (less_of a.now b.now) netlist.old wire netlist.new) }
{
    let mut lower = FALSE;
    for i in 0..a.len().min(b.len()) {
        lower = netlist.put(Gate::Maj(negation(a[i]), b[i], lower))?;
    }
    Ok(lower)
}

/// For each wire, whether it and those before it are all false.
pub fn zeros(netlist: &mut Netlist, wires: &[u64]) -> Result<Wires, AllocError>
    ensures { IfOk result (λ zeros. Builds (zeros_of wires.now) netlist.old zeros netlist.new) }
{
    let mut zeros = Items::new(Vec::new(netlist.alloc()));
    if wires.is_empty() {
        return Ok(zeros);
    }
    let mut before = negation(wires[0]);
    zeros.push(before)?;
    for i in 1..wires.len() {
        before = netlist.put(Gate::And(before, negation(wires[i])))?;
        zeros.push(before)?;
    }
    Ok(zeros)
}

/// Whether all wires are false.
pub fn none(netlist: &mut Netlist, wires: &[u64]) -> Result<u64, AllocError>
    ensures { IfOk result (λ wire. Builds (none_of wires.now) netlist.old wire netlist.new) }
{
    let zeros = zeros(netlist, wires)?;
    Ok(highest(zeros.as_slice()))
}

/// The negation of an integer where the sign is true, else the integer.
pub fn negate_if(netlist: &mut Netlist, sign: u64, a: &[u64]) -> Result<Wires, AllocError>
    ensures { IfOk result (λ wires. Builds (negate_of sign a.now) netlist.old wires netlist.new) }
{
    let turned = turned(netlist, a, sign)?;
    let nothing = repeated(netlist.alloc(), FALSE, a.len())?;
    let sum = add(netlist, turned.as_slice(), nothing.as_slice(), sign)?;
    Ok(sum.sums)
}

/// How many of the wires are true, in seven bits.
pub fn count(netlist: &mut Netlist, wires: &[u64]) -> Result<Wires, AllocError>
    ensures { IfOk result (λ bits. Builds (count_of wires.now) netlist.old bits netlist.new) }
{
    let mut bits = repeated(netlist.alloc(), FALSE, 7)?;
    for wire in wires {
        let one = fitted(netlist.alloc(), 7, FALSE, &[*wire])?;
        let sum = add(netlist, bits.as_slice(), one.as_slice(), FALSE)?;
        bits = sum.sums;
    }
    Ok(bits)
}

/// One bit of a quotient: the bit of the dividend below what was divided.
fn divide_bit(
    netlist: &mut Netlist,
    divisor: &[u64],
    bit: u64,
    above: &Division,
) -> Result<Division, AllocError>
    ensures { IfOk result (λ all. Builds (divide_bit_of divisor.now bit above.now) netlist.old all netlist.new) }
{
    let alloc = netlist.alloc();
    let kept = divisor.len().min(above.remainder.len());
    let shifted = joined(alloc, &[bit], &above.remainder.as_slice()[..kept])?;
    let opposite = negations(alloc, divisor)?;
    let taken = joined(alloc, opposite.as_slice(), &[TRUE])?;
    let sum = add(netlist, shifted.as_slice(), taken.as_slice(), TRUE)?;
    let remainder = muxes(netlist, sum.carry, sum.sums.as_slice(), shifted.as_slice())?;
    let quotient = joined(alloc, &[sum.carry], above.quotient.as_slice())?;
    Ok(Division {
        quotient,
        remainder,
    })
}

/// The quotient and the remainder of two integers of one width.
pub fn divide(netlist: &mut Netlist, a: &[u64], b: &[u64]) -> Result<Division, AllocError>
    ensures { IfOk result (λ all. Builds (divide_of a.now b.now) netlist.old all netlist.new) }
{
    let alloc = netlist.alloc();
    let mut above = Division {
        quotient: Items::new(Vec::new(alloc)),
        remainder: repeated(alloc, FALSE, b.len() + 1)?,
    };
    let mut left = a.len();
    while left > 0 {
        left -= 1;
        above = divide_bit(netlist, b, a[left], &above)?;
    }
    let kept = b.len().min(above.remainder.len());
    let remainder = joined(alloc, &above.remainder.as_slice()[..kept], &[])?;
    Ok(Division {
        quotient: above.quotient,
        remainder,
    })
}

/// One more row of a product is added to the sum above its lowest wire.
fn add_row(netlist: &mut Netlist, a: &[u64], y: u64, sum: &[u64]) -> Result<Wires, AllocError>
    requires { 1 ≤ length sum.now }
    ensures { IfOk result (λ next. Builds (add_row_of a.now y (drop 1 sum.now)) netlist.old next netlist.new) }
{
    let above = &sum[1..];
    let kept = above.len().min(a.len());
    let row = times(netlist, &a[..kept], y)?;
    let next = add(netlist, above, row.as_slice(), FALSE)?;
    Ok(next.sums)
}

/// The product of two integers of one width, in that width.
pub fn multiply(netlist: &mut Netlist, a: &[u64], b: &[u64]) -> Result<Wires, AllocError>
    ensures { IfOk result (λ product. Builds (multiply_of a.now b.now) netlist.old product netlist.new) }
{
    let mut low = Items::new(Vec::new(netlist.alloc()));
    if b.is_empty() {
        return Ok(low);
    }
    let mut sum = times(netlist, a, b[0])?;
    for i in 1..b.len() {
        if sum.is_empty() {
            return Ok(low);
        }
        low.push(*sum.get(0))?;
        sum = add_row(netlist, a, b[i], sum.as_slice())?;
    }
    joined(netlist.alloc(), low.as_slice(), sum.as_slice())
}

/// The bits moved by 1 place where the first of the amounts is true, by 2 more where the second is, and so on.
fn move_by(
    netlist: &mut Netlist,
    kind: Shift,
    amounts: &[u64],
    a: &[u64],
) -> Result<Wires, AllocError>
    requires { length amounts.now ≤ 6 }
    ensures { IfOk result (λ wires. Builds (shift_by kind 1 amounts.now a.now) netlist.old wires netlist.new) }
{
    let mut bits = joined(netlist.alloc(), a, &[])?;
    for i in 0..amounts.len() {
        let apart = moved(netlist.alloc(), kind, 1 << i, bits.as_slice())?;
        bits = muxes(netlist, amounts[i], apart.as_slice(), bits.as_slice())?;
    }
    Ok(bits)
}

fn shift_bits(width: Width) -> usize
    ensures value { result ≡ shift_bits_of width }
    ensures within { result ≤ 6 }
{
    match width {
        Width::W32 => 5,
        Width::W64 => 6,
    }
}

/// The bits moved by the number of places that the lowest bits of the second operand say.
pub fn shifted(
    netlist: &mut Netlist,
    kind: Shift,
    width: Width,
    a: &[u64],
    b: &[u64],
) -> Result<Wires, AllocError>
    ensures { IfOk result (λ wires. Builds (shift_of kind width a.now b.now) netlist.old wires netlist.new) }
{
    let bits = shift_bits(width).min(b.len());
    move_by(netlist, kind, &b[..bits], a)
}

/// The first wires where the condition isn't 0, else the second.
pub fn choose(
    netlist: &mut Netlist,
    condition: &[u64],
    a: &[u64],
    b: &[u64],
) -> Result<Wires, AllocError>
    ensures { IfOk result (λ wires. Builds (choose_of condition.now a.now b.now) netlist.old wires netlist.new) }
{
    let zero = none(netlist, condition)?;
    muxes(netlist, negation(zero), a, b)
}
