// Reports, rows that are read back from their lines, and listeners, one case a line.
//
// A line is a task, a colon and a space, and lines of rows with semicolons between them. The task `read` tells of each line whether it
// is read as a row, and by which words it is printed again, or that its spelling is none. The task `report` prints the report of the rows,
// `terms` that of a row whose result is a term, and `tell` what the two listeners say after one row. In an answer a semicolon stands
// for each line feed. Lines that begin with `#` and empty ones are written as they are. The answers in `stdout` are what the docs of the
// report say, by hand.
#![tactic(auto)]

mod answers;

use answers::{read_answer, report_answer, tell_answer, terms_answer};
use std::alloc::{AllocError, Global};
use std::io;

fn main(rt: HostRuntime) -> io::Result<()> {
    for line in rt.lines(rt.alloc()) {
        let line = line?;
        match line.as_str().split_once(": ") {
            None => println!(rt; "{line}")?,
            Some((task, rest)) => {
                let answer = answer_of(rt.alloc(), task, rest)?;
                println!(rt; "{answer}: {line}")?;
            }
        }
    }
    Ok(())
}

fn answer_of(alloc: Global, task: &str, rest: &str) -> Result<String, AllocError> {
    match task {
        "read" => read_answer(alloc, rest),
        "report" => report_answer(alloc, rest),
        "terms" => terms_answer(alloc),
        "tell" => tell_answer(alloc, rest),
        _ => String::from_str(alloc, "no task"),
    }
}
