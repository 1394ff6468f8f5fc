// Clauses, logs and their solver by lines.
//
// Clauses are written as their literals, each clause with `;` after it; chains as their start and then a number of a clause
// and a variable for each step, each with `;` after it. Variables are numbered from 1, the literals of v are 2 v and 2 v + 1.
//
// `accept CLAUSES : CHAINS` asks whether the log refutes the clauses. It is answered by `accepted` with the log that the
// refutation has, or by `refused` with the number.
//
// `solve N : ORDER : CLAUSES` asks for the answer within N conflicts: `model` with the values of the variables from 1 on,
// `refuted` with the log, or `spent`. It is answered by `no formula` where N is 0, or the order doesn't name the variables
// of the clauses from 1 to its length, each once.
//
// `chain N` solves {vN} and {vi, not v(i+1)} for i from 1 to N - 1, within one conflict, and is answered by how many
// variables are true.
//
// Lines that begin with `#` and empty ones are written as they are.
#![tactic(auto)]

mod chains;
mod lines;
mod places;
mod readings;

use lines::answer;
use std::io;

fn main(rt: HostRuntime) -> io::Result<()> {
    for line in rt.lines(rt.alloc()) {
        let line = line?;
        let text = line.as_str();
        if text.is_empty() || text.starts_with("#") {
            println!(rt; "{text}")?;
        } else {
            let answer = answer(rt.alloc(), text)?;
            println!(rt; "{answer}: {text}")?;
        }
    }
    Ok(())
}
