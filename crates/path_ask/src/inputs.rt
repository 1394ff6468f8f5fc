// Inputs that models spell.
ghost use Rattle.std.specs.Prelude.{◌≡◌, ◌+◌, ◌-◌, ◌≤◌, All, length, map, IfOk};
ghost use Rattle.wasm_rules.specs.Words.{bits_where};
ghost use Rattle.clause_solver.specs.Answers.{assignment_of};
ghost use Rattle.bit_blast.specs.Formulas.{symbols_end};
ghost use Rattle.bit_blast.specs.Meanings.{input_of};
ghost use Rattle.path_ask.specs.Reading.{spelled_down};

use std::alloc::{AllocError, Global};
use wasm_ast::List;

/// The number that bits spell, the highest first.
pub fn number(bits: &[bool]) -> u64
    requires { length bits.now ≤ 64 }
    ensures { result ≡ spelled_down bits.now }
{
    let mut number = 0;
    for bit in bits {
        number = 2 * number + u64::from(*bit);
    }
    number
}

/// The number that the values of variables spell, the highest bit first.
pub fn number_at(values: &[bool], variables: &[u64]) -> u64
    requires few { length variables.now ≤ 64 }
    requires within { All (λ variable. (1 ≤ variable) × (variable ≤ length values.now)) variables.now }
    ensures { result ≡ spelled_down (map (assignment_of values.now) variables.now) }
{
    let mut number = 0;
    for variable in variables {
        let bit = values[(*variable - 1) as usize];
        number = 2 * number + u64::from(bit);
    }
    number
}

// How many bits a symbol has.
fn bits(wide: bool) -> usize
    ensures { result ≡ bits_where wide }
{
    if wide { 64 } else { 32 }
}

/// The input whose bits the values spell: the symbols have the variables from 2 on, each from its highest bit down.
pub fn input(alloc: Global, values: &[bool], draws: &[bool]) -> Result<List<u64>, AllocError>
    requires { symbols_end 2 draws.now ≤ length values.now + 1 }
    ensures { IfOk result (λ input. input ≡ input_of (assignment_of values.now) draws.now) }
{
    let mut input = List::new(Vec::new(alloc));
    let mut at = 1;
    for wide in draws {
        let bits = bits(*wide);
        input.push(number(&values[at..at + bits]))?;
        at += bits;
    }
    Ok(input)
}
