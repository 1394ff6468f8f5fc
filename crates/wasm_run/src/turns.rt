// The turns of a bounded run: in each the questions of the next instruction, answered by their numbers, and then its last step.
ghost use Rattle.std.specs.Prelude.{◌≡◌, ◌≢◌, ◌++◌, ◌∷◌, [], ◌<◌, ◌^◌, IfOk, OnOk, Some, length, map, slice_index};
ghost use Rattle.wasm_rules.specs.Words.{HasNumber, taken};
ghost use Rattle.wasm_image.specs.Hosts.{AreLinked};
ghost use Rattle.wasm_reduction.specs.Configurations.{Stuck};
ghost use Rattle.wasm_reduction.specs.Maps.{ValueHas, ValuesHave};
ghost use Rattle.wasm_reduction.specs.Runs.{answer_of, outcome_of_end, plain_value};
ghost use Rattle.wasm_reduction.specs.Widths.{EndHasWidths};
ghost use Rattle.wasm_machine.specs.code.Moves.{pushed};
ghost use Rattle.wasm_machine.specs.Values.{question as question_of, value as value_as, valued, end_of};
ghost use Rattle.wasm_run.specs.Bounded.{RunGives};
ghost use Rattle.wasm_run.specs.code.Places.{IsAsked, IsInOrder, IsInOrderAfter, config_at, told_at, Place, IsFit, Settled};

use crate::bytes::Bytes;
use crate::fast_path::fast_step;
use std::alloc::{AllocError, Global};
use wasm_ast::{Draw, List, Outcome, Ran, Value};
use wasm_image::Image;
use wasm_machine::bounds::{is_deep, is_spent};
use wasm_machine::machine::Machine;
use wasm_machine::next::{End, Next, Question};
use wasm_machine::step::step;
use wasm_machine::values::{Reference, Value as Word};
use wasm_rules::Numbers;

/// What is to be run.
#[derive(Clone, Copy)]
pub struct Request<'a> {
    pub image: &'a Image,
    pub entry: u32,
    pub args: &'a [Value],
    pub input: &'a [u64],
    pub steps: u64,
}

/// One turn after another, to the end.
pub fn go(
    alloc: Global,
    request: &Request,
    numbers: &mut Numbers,
    s: &mut Machine<u64>,
    memory: &mut Bytes,
) -> Result<Ran, AllocError>
    requires asked { IsAsked request.now.image.now request.now.entry request.now.args.now request.now.steps }
    requires order { IsInOrder numbers.old s.old memory.old }
    requires place { Place request.now.image.now request.now.entry request.now.args.now request.now.input.now request.now.steps
        (config_at request.now.image.now memory.old s.old) [] }
    ensures { IfOk result (λ ran. RunGives request.now.image.now request.now.entry request.now.args.now request.now.input.now request.now.steps ran) }
{
    let mut draws = Vec::new(alloc);
    'turning: loop {
        if is_deep(numbers, s) {
            return Ok(Ran {
                outcome: Outcome::Deep,
                draws: List::new(draws),
            });
        }
        if is_spent(numbers, s, request.image.module(), request.steps) {
            return Ok(Ran {
                outcome: Outcome::Bound,
                draws: List::new(draws),
            });
        }
        if fast_step(alloc, request.image, request.steps, numbers, s, memory)? {
            continue 'turning;
        }
        match settle(alloc, request.image, request.steps, numbers, s, memory)? {
            Next::Goes => continue 'turning,
            Next::Draws(wide) => {
                draw(s, &mut draws, request.input, wide)?;
                continue 'turning;
            }
            Next::Ends(end) => {
                let outcome = outcome_of(alloc, end)?;
                return Ok(Ran {
                    outcome,
                    draws: List::new(draws),
                });
            }
            Next::Asks(_, _) => unreachable!(),
        }
    }
}

// Answers what the next instruction asks, and carries out its last step.
#[cold]
#[inline(never)]
fn settle(
    alloc: Global,
    image: &Image,
    steps: u64,
    numbers: &mut Numbers,
    s: &mut Machine<u64>,
    memory: &mut Bytes,
) -> Result<Next<u64>, AllocError>
    requires linked { AreLinked image.now }
    requires order { IsInOrder numbers.old s.old memory.old }
    requires fit { IsFit steps (config_at image.now memory.old s.old) }
    requires steps { steps < 2 ^ 63 }
    ensures settled { IfOk result (λ x. Settled image.now steps (config_at image.now memory.old s.old) (told_at image.now memory.new s.new x)) }
    ensures order { IfOk result (λ x. IsInOrderAfter numbers.new s.new memory.new x) }
{
    'asking: loop {
        match step(alloc, numbers, s, memory, image)? {
            Next::Asks(q, w) => s.note(answer(q, w))?,
            x => return Ok(x),
        }
    }
}

// How a question is answered: 1 where its number isn't 0, and a pick by the number.
fn answer(q: Question, n: u64) -> u64
    ensures { result ≡ answer_of (question_of q) n }
{
    match q {
        Question::Pick => n,
        Question::Test => (n != 0) as u64,
        Question::Assume => (n != 0) as u64,
    }
}

// The next symbol takes its number, and is the next operand.
fn draw(
    s: &mut Machine<u64>,
    draws: &mut Vec<Draw>,
    input: &[u64],
    wide: bool,
) -> Result<(), AllocError>
    ensures symbol { OnOk result (s.new ≡ pushed (valued wide (taken input.now (length draws.old.items) wide)) s.old) }
    ensures draws { OnOk result (draws.new.items ≡ draws.old.items ++ record { wide = wide; value = taken input.now (length draws.old.items) wide } ∷ []) }
{
    let n = taken_at(input, draws.as_slice().len(), wide);
    s.push(Word::of_word(wide, n))?;
    draws.push(Draw { wide, value: n })?;
    Ok(())
}

// The k-th number, or 0 past the end.
fn number_at(input: &[u64], k: usize) -> u64
    ensures { result ≡ slice_index input.now k }
{
    match input.get(k) {
        Some(n) => *n,
        None => 0,
    }
}

// The k-th number of the input, or 0 past its end, modulo 2^32 where it is of 32 bits.
fn taken_at(input: &[u64], k: usize, wide: bool) -> u64
    ensures { result ≡ taken input.now k wide }
{
    let n = number_at(input, k);
    if wide { n } else { n % 4_294_967_296 }
}

// A result as a value.
fn value_of(v: Word<u64>) -> Value
    requires { ValueHas HasNumber (value_as (λ n. n) v) }
    ensures { result ≡ plain_value (value_as (λ n. n) v) }
{
    match v {
        Word::I32(n) => Value::I32(n as u32),
        Word::I64(n) => Value::I64(n),
        Word::Ref(Reference::Func(f)) => Value::Func(f),
        Word::Ref(Reference::Extern) => Value::Extern,
    }
}

// The outcome of a run that ends.
fn outcome_of(alloc: Global, end: End<u64>) -> Result<Outcome, AllocError>
    requires widths { EndHasWidths HasNumber (end_of (λ n. n) end) }
    requires goes { end_of (λ n. n) end ≢ Stuck }
    ensures { IfOk result (λ outcome. outcome_of_end (end_of (λ n. n) end) ≡ Some outcome) }
{
    match end {
        End::Returns(values) => {
            let values = values_of(alloc, values.as_slice())?;
            Ok(Outcome::Returns(List::new(values)))
        }
        End::Traps(cause) => Ok(Outcome::Traps(cause)),
        End::Fails => Ok(Outcome::Fails),
        End::Assumes => Ok(Outcome::Assumes),
        End::Stuck => unreachable!(),
    }
}

// The results as values.
fn values_of(alloc: Global, words: &[Word<u64>]) -> Result<Vec<Value>, AllocError>
    requires { ValuesHave HasNumber (map (value_as (λ n. n)) words.now) }
    ensures { IfOk result (λ v. v.items ≡ map plain_value (map (value_as (λ n. n)) words.now)) }
{
    let mut values = Vec::new(alloc);
    for v in words {
        values.push(value_of(*v))?;
    }
    Ok(values)
}
