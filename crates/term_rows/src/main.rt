// Terms that are made by lines, their values, their formulas, and questions about them.
//
// `reset` begins with an empty graph and no words. A line that makes a word puts it at the end of the list of words, whose
// places are counted from 0: `const32 N`, `const64 N`, `draw32`, `draw64`, `symbol32 K`, `symbol64 K`, `un OP A`, `bin OP A B`,
// `choose32 C A B`, `choose64 C A B`, `byte A I`, `join32 A ..`, `join64 A ..`, where A, B and C are places and OP is an opcode, as
// `0x6a`. It is answered by the word, or by `refused` where the operands don't fit, and then nothing is made. `again COUNT OP A`
// is `un OP` that many times, one over the other, and `chain COUNT OP A` is `bin OP` that many times, of the one before and A. `value A : N ..` asks for the value of a word at an input, `form A` for the form
// of a term, `number A` for the number that a word is, `count` for the number of terms. `freeze` goes on with the second of the
// two graphs, and `first` exchanges it with the first.
//
// Conditions are written `W .. : A .. : B ..`: the terms at A .. aren't 0 and those at B .. are, over symbols of the widths W .. .
// `formula W .. : A .. : B .. : C` asks for their formula, where the term of 32 bits at C, or none, is to be least: how many
// variables and clauses it has, and a print of its literals and its order. `ask N : W .. : A .. : B ..` asks for the least input
// that meets them, within N conflicts, `pick N : W .. : A .. : B .. : C` for the least value of the term at C and the least input
// that gives it, `log N : W .. : A .. : B ..` for the number of chains and steps of the log that refutes them. All are answered by
// `refused` where a place has no term over these symbols.
//
// Lines that begin with `#` and empty ones are written as they are.
#![tactic(auto)]

mod asks;
mod drawn;
mod forms;
mod lines;
mod prints;
mod questions;
mod session;

use lines::answer;
use session::Session;
use std::{io, mem};

fn main(rt: HostRuntime) -> io::Result<()> {
    let mut session = Session::new(rt.alloc())?;
    let mut first = Session::new(rt.alloc())?;
    for line in rt.lines(rt.alloc()) {
        let line = line?;
        let text = line.as_str();
        if text.is_empty() || text.starts_with("#") {
            println!(rt; "{text}")?;
        } else if text == "reset" {
            session = Session::new(rt.alloc())?;
            println!(rt; "{text}")?;
        } else if text == "freeze" {
            let (one, other) = session.freeze()?;
            first = one;
            session = other;
            println!(rt; "{text}")?;
        } else if text == "first" {
            mem::swap(&mut session, &mut first);
            println!(rt; "{text}")?;
        } else {
            let answer = answer(rt.alloc(), &mut session, text)?;
            println!(rt; "{answer}: {text}")?;
        }
    }
    Ok(())
}
