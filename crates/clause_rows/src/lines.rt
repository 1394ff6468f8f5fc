// What a line asks.
use crate::chains::{chain, checked};
use crate::readings::{clauses, log, log_text, numbers, reads};
use clause_solver::{Answer, solve};
use refute_check::{AcceptBad, Cnf, Items, accept};
use row_words::{Words, words_of};
use std::alloc::{AllocError, Global};

fn text(alloc: Global, text: &str) -> Result<String, AllocError> {
    String::from_str(alloc, text)
}

fn accept_line(alloc: Global, words: &mut Words) -> Result<String, AllocError> {
    let clauses = clauses(alloc, words)?;
    let _colon = reads(words, ":");
    let log = log(alloc, words)?;
    let formula = Cnf {
        vars: 0,
        clauses,
        order: Items::new(Vec::new(alloc)),
    };
    match accept(alloc, formula, log) {
        Ok(refutation) => log_text(alloc, "accepted", refutation.log().as_slice()),
        Err(AcceptBad::Bad(number)) => format!(in alloc; "refused {number}"),
        Err(AcceptBad::NoMemory) => Err(AllocError),
    }
}

fn model_text(alloc: Global, values: &[bool]) -> Result<String, AllocError> {
    let mut text = String::from_str(alloc, "model")?;
    for value in values {
        let digit = if *value { 1 } else { 0 };
        text = format!(in alloc; "{text} {digit}")?;
    }
    Ok(text)
}

fn solve_line(alloc: Global, words: &mut Words) -> Result<String, AllocError> {
    let Some(conflicts) = words.number() else {
        return text(alloc, "no formula");
    };
    let _colon = reads(words, ":");
    let order = numbers(alloc, words)?;
    let _other_colon = reads(words, ":");
    let clauses = clauses(alloc, words)?;
    let vars = order.len() as u64;
    let formula = Cnf {
        vars,
        clauses,
        order,
    };
    let Some(formula) = checked(alloc, formula)? else {
        return text(alloc, "no formula");
    };
    if conflicts == 0 {
        return text(alloc, "no formula");
    }
    match solve(alloc, &formula, conflicts)? {
        Answer::Model(values) => model_text(alloc, values.as_slice()),
        Answer::Refuted(log) => log_text(alloc, "refuted", log.as_slice()),
        Answer::Spent => text(alloc, "spent"),
    }
}

fn count_true(values: &[bool]) -> usize {
    values.iter().filter(|value| **value).count()
}

fn chain_line(alloc: Global, words: &mut Words) -> Result<String, AllocError> {
    let Some(count) = words.number() else {
        return text(alloc, "no formula");
    };
    let Some(formula) = chain(alloc, count)? else {
        return text(alloc, "no formula");
    };
    match solve(alloc, &formula, 1)? {
        Answer::Model(values) => {
            let count = count_true(values.as_slice());
            format!(in alloc; "true {count}")
        }
        Answer::Refuted(log) => log_text(alloc, "refuted", log.as_slice()),
        Answer::Spent => text(alloc, "spent"),
    }
}

/// The answer to the line.
pub fn answer(alloc: Global, line: &str) -> Result<String, AllocError> {
    let mut words = words_of(alloc, line)?;
    match words.next() {
        Some("accept") => accept_line(alloc, &mut words),
        Some("solve") => solve_line(alloc, &mut words),
        Some("chain") => chain_line(alloc, &mut words),
        _ => text(alloc, "no question"),
    }
}
