// The value of a word at an input.
ghost use Rattle.std.specs.Prelude.{◌≡◌, ◌+◌, ◌<◌, ◌≤◌, All, length, IfOk};
ghost use Rattle.wasm_rules.specs.Words.{taken};
ghost use Rattle.bv_terms.specs.declared.words.Word.TheVariants.{Term as Numbered};
ghost use Rattle.bv_terms.specs.Terms.{value_of};
ghost use Rattle.bv_terms.specs.Graphs.{IsBelow, Holds, terms_of, term_of};
ghost use Rattle.bv_terms.specs.code.KnownValues.{IsKnown, known_value, AreValues, Looks, LooksAll, Evaluates};

use crate::graph::Graph;
use crate::words::{FIRST, Form, TermId, Word};
use int_ops::{byte, join, total, un};
use std::alloc::{AllocError, Global};
use std::marker::Model;

/// Room for the values of so many terms, which `value_at` uses. Contracts see it as that number.
#[derive(Drop)]
pub struct Marks {
    rounds: Vec<u64>,
    values: Vec<u64>,
    stack: Vec<u64>,
    round: u64,
}

impl Model for Marks {
    ghost use Rattle.std.specs.Prelude.{ℕ, length};
    ghost use Rattle.bv_terms.specs.code.KnownValues.{HaveRoom};

    ghost Value = { ℕ };

    ghost view = { λ m. length m.rounds.items };

    ghost invariant = { λ m. HaveRoom m.rounds.items m.values.items m.stack.items m.round };
}

impl Marks {
    /// Room for so many terms.
    pub fn new(alloc: Global, room: u64) -> Result<Marks, AllocError>
        ensures { IfOk result (λ marks. marks ≡ room) }
    {
        let room = room as usize;
        let rounds = vec![in alloc; 0; room]?;
        let values = vec![in alloc; 0; room]?;
        let stack = vec![in alloc; 0; room]?;
        Ok(Marks {
            rounds,
            values,
            stack,
            round: 0,
        })
    }
}

/// The value of a word of the graph at an input: of a symbol the number of its place there, or 0 past the end.
///
/// It takes no memory, and time linear in the number of the terms below the word: each is looked at once for each of its
/// operands, and once more.
pub fn value_at(g: &Graph, w: Word, input: &[u64], marks: &mut Marks) -> u64
    requires held { Holds g.now w }
    requires room { length g.now.forms ≤ marks.old }
    ensures value { result ≡ value_of input.now (term_of g.now w) }
    ensures same_room { marks.new ≡ marks.old }
{
    match w {
        Word::Num(n) => n,
        Word::Term(t) => {
            let round = next_round(&mut marks.rounds, marks.round);
            marks.round = round;
            walk(
                g,
                t,
                input,
                &mut marks.rounds,
                &mut marks.values,
                &mut marks.stack,
                round,
            )
        }
    }
}

/// A round in which no value is known yet.
fn next_round(rounds: &mut [u64], round: u64) -> u64
    requires { All (λ r. r ≤ round) rounds.old }
    ensures { All (λ r. r < result) rounds.new }
{
    if round < u64::MAX {
        return round + 1;
    }
    rounds.fill(0);
    1
}

/// The value of a term. The stack has the terms whose values are wanted, each below the one before it.
fn walk(
    g: &Graph,
    t: TermId,
    input: &[u64],
    rounds: &mut [u64],
    values: &mut [u64],
    stack: &mut [u64],
    round: u64,
) -> u64
    requires held { Holds g.now (Numbered t) }
    requires room { length g.now.forms ≤ length rounds.old }
    requires values_long { length values.old ≡ length rounds.old }
    requires stack_long { length stack.old ≡ length rounds.old }
    requires fresh { All (λ r. r < round) rounds.old }
    ensures value { result ≡ value_of input.now (term_of g.now (Numbered t)) }
    ensures rounds { All (λ r. r ≤ round) rounds.new }
{
    stack[0] = t;
    let mut depth = 1;
    while depth > 0 {
        let at = stack[depth - 1];
        match evaluated(g, at, input, rounds, values, round) {
            Ok(value) => {
                rounds[(at - FIRST) as usize] = round;
                values[(at - FIRST) as usize] = value;
                depth -= 1;
            }
            Err(operand) => {
                stack[depth] = operand;
                depth += 1;
            }
        }
    }
    values[(t - FIRST) as usize]
}

/// The value of a term, where those of its operands are known, else an operand whose value isn't.
fn evaluated(
    g: &Graph,
    t: TermId,
    input: &[u64],
    rounds: &[u64],
    values: &[u64],
    round: u64,
) -> Result<u64, TermId>
    requires held { Holds g.now (Numbered t) }
    requires known { AreValues (terms_of g.now.forms) input.now rounds.now values.now round }
    ensures { Evaluates input.now rounds.now round t (term_of g.now (Numbered t)) result }
{
    match g.form(t) {
        Form::Symbol { number, wide } => Ok(symbol_value(input, *number, *wide)),
        Form::Un { op, a } => match known(rounds, values, round, *a) {
            Ok(x) => Ok(un(*op, x)),
            Err(open) => Err(open),
        },
        Form::Bin { op, a, b } => match known(rounds, values, round, *a) {
            Ok(x) => match known(rounds, values, round, *b) {
                Ok(y) => Ok(total(*op, x, y)),
                Err(open) => Err(open),
            },
            Err(open) => Err(open),
        },
        Form::Choose { wide: _, c, a, b } => match known(rounds, values, round, *c) {
            Ok(0) => known(rounds, values, round, *b),
            Ok(_) => known(rounds, values, round, *a),
            Err(open) => Err(open),
        },
        Form::Byte { a, i } => match known(rounds, values, round, *a) {
            Ok(x) => Ok(byte(x, *i)),
            Err(open) => Err(open),
        },
        Form::Join { wide: _, bytes } => all_known(rounds, values, round, bytes.as_slice()),
    }
}

/// The number of a symbol in an input: 0 past its end, and modulo 2^32 where it isn't wide.
fn symbol_value(input: &[u64], number: u64, wide: bool) -> u64
    ensures { result ≡ taken input.now number wide }
{
    let whole = if number < input.len() as u64 {
        input[number as usize]
    } else {
        0
    };
    if wide { whole } else { whole % (1 << 32) }
}

/// The value of a word, where it is known, else the term that it is.
fn known(rounds: &[u64], values: &[u64], round: u64, w: Word) -> Result<u64, TermId>
    requires held { IsBelow (256 + length rounds.now) w }
    requires long { length values.now ≡ length rounds.now }
    ensures { Looks rounds.now values.now round w result }
{
    match w {
        Word::Num(n) => Ok(n),
        Word::Term(t) => {
            let i = (t - FIRST) as usize;
            if rounds[i] == round {
                Ok(values[i])
            } else {
                Err(t)
            }
        }
    }
}

/// The number whose bytes words are, where their values are known, else a term among them whose value isn't.
fn all_known(rounds: &[u64], values: &[u64], round: u64, words: &[Word]) -> Result<u64, TermId>
    requires few { length words.now ≤ 8 }
    requires held { All (IsBelow (256 + length rounds.now)) words.now }
    requires long { length values.now ≡ length rounds.now }
    requires small { All (λ w. IsKnown rounds.now round w → known_value values.now w < 256) words.now }
    ensures { LooksAll rounds.now values.now round words.now result }
{
    let mut all = [0; 8];
    for i in 0..words.len() {
        match known(rounds, values, round, words[i]) {
            Ok(x) => all[i] = x,
            Err(open) => return Err(open),
        }
    }
    Ok(join(&all[..words.len()]))
}
