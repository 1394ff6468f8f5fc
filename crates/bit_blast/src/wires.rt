// Wires that no gate is needed for. The wires of an integer are listed from the lowest bit on.
ghost use Rattle.std.specs.Prelude.{◌≡◌, ◌++◌, ◌≤◌, ◌<◌, ◌+◌, ◌^◌, map, replicate, reverse, IfOk, ◌%◌, ◌==◌, if◌then◌else◌};
ghost use Rattle.bit_blast.specs.Gates.{true_wire, false_wire, negation as negation_of, number_wires as wires_of_number};
ghost use Rattle.bit_blast.specs.Blocks.{highest as highest_of, moved as moved_by};
ghost use Rattle.bit_blast.specs.Operators.{fitted as fitted_to, sign_extended as sign_extended_to, sign_turned as turned};
ghost use Rattle.bit_blast.specs.Formulas.{falling_wires as falling};

use crate::blocks::Shift;
use refute_check::Items;
use std::alloc::{AllocError, Global};

/// The wires of an integer.
pub type Wires = Items<u64>;

/// The literal of variable 1, which is true.
pub const TRUE: u64 = 2;

/// Its negation.
pub const FALSE: u64 = 3;

pub fn negation(wire: u64) -> u64
    ensures { result ≡ negation_of wire }
{
    if wire % 2 == 0 { wire + 1 } else { wire - 1 }
}

pub fn negations(alloc: Global, wires: &[u64]) -> Result<Wires, AllocError>
    ensures { IfOk result (λ list. list ≡ map negation_of wires.now) }
{
    let items = wires.iter().map(|wire| negation(*wire)).collect(alloc)?;
    Ok(Items::new(items))
}

/// One wire so many times.
pub fn repeated(alloc: Global, wire: u64, count: usize) -> Result<Wires, AllocError>
    ensures { IfOk result (λ list. list ≡ replicate count wire) }
{
    let items = vec![in alloc; wire; count]?;
    Ok(Items::new(items))
}

pub fn backwards(alloc: Global, wires: &[u64]) -> Result<Wires, AllocError>
    ensures { IfOk result (λ list. list ≡ reverse wires.now) }
{
    let items = wires.iter().rev().copied().collect(alloc)?;
    Ok(Items::new(items))
}

/// The first wires, and the second after them.
pub fn joined(alloc: Global, first: &[u64], second: &[u64]) -> Result<Wires, AllocError>
    ensures { IfOk result (λ list. list ≡ first.now ++ second.now) }
{
    let mut items = Vec::from_slice(alloc, first)?;
    items.extend_from_slice(second)?;
    Ok(Items::new(items))
}

/// The highest wire.
pub fn highest(wires: &[u64]) -> u64
    ensures { result ≡ highest_of wires.now }
{
    let mut wire = FALSE;
    for next in wires {
        wire = *next;
    }
    wire
}

/// Cut to so many wires, or filled up to them with one wire.
pub fn fitted(alloc: Global, bits: usize, fill: u64, wires: &[u64]) -> Result<Wires, AllocError>
    ensures { IfOk result (λ list. list ≡ fitted_to bits fill wires.now) }
{
    if bits <= wires.len() {
        let items = Vec::from_slice(alloc, &wires[..bits])?;
        return Ok(Items::new(items));
    }
    let above = repeated(alloc, fill, bits - wires.len())?;
    joined(alloc, wires, above.as_slice())
}

/// The lowest wires, with the highest of these above them.
pub fn sign_extended(
    alloc: Global,
    from: usize,
    bits: usize,
    wires: &[u64],
) -> Result<Wires, AllocError>
    ensures { IfOk result (λ list. list ≡ sign_extended_to from bits wires.now) }
{
    let low = &wires[..from.min(wires.len())];
    fitted(alloc, bits, highest(low), low)
}

/// The highest wire is negated.
pub fn sign_turned(alloc: Global, wires: &[u64]) -> Result<Wires, AllocError>
    ensures { IfOk result (λ list. list ≡ turned wires.now) }
{
    let sign = negation(highest(wires));
    joined(alloc, &wires[..wires.len().saturating_sub(1)], &[sign])
}

/// The wires moved by so many places.
pub fn moved(alloc: Global, kind: Shift, places: usize, wires: &[u64]) -> Result<Wires, AllocError>
    ensures { IfOk result (λ list. list ≡ moved_by kind places wires.now) }
{
    let kept = wires.len().saturating_sub(places);
    let past = places.min(wires.len());
    match kind {
        Shift::Left => {
            let below = repeated(alloc, FALSE, places)?;
            joined(alloc, below.as_slice(), &wires[..kept])
        }
        Shift::Right => {
            let above = repeated(alloc, FALSE, places)?;
            joined(alloc, &wires[past..], above.as_slice())
        }
        Shift::RightSigned => {
            let above = repeated(alloc, highest(wires), places)?;
            joined(alloc, &wires[past..], above.as_slice())
        }
        Shift::RotateLeft => joined(alloc, &wires[kept..], &wires[..kept]),
        Shift::RotateRight => joined(alloc, &wires[past..], &wires[..past]),
    }
}

fn lowest_wire(number: u64) -> u64
    ensures { result ≡ (if number % 2 == 0 then false_wire else true_wire) }
{
    if number % 2 == 0 { FALSE } else { TRUE }
}

/// The bits of a number.
pub fn number_wires(alloc: Global, bits: usize, number: u64) -> Result<Wires, AllocError>
    ensures { IfOk result (λ list. list ≡ wires_of_number bits number) }
{
    let mut wires = Items::new(Vec::new(alloc));
    let mut rest = number;
    for _bit in 0..bits {
        wires.push(lowest_wire(rest))?;
        rest /= 2;
    }
    Ok(wires)
}

/// So many wires, the highest of which has the first variable.
pub fn falling_wires(alloc: Global, first: u64, bits: u64) -> Result<Wires, AllocError>
    requires { first + bits ≤ 2 ^ 63 }
    ensures { IfOk result (λ list. list ≡ falling first bits) }
{
    let mut wires = Items::new(Vec::new(alloc));
    for above in 0..bits {
        wires.push(2 * (first + (bits - 1 - above)))?;
    }
    Ok(wires)
}
