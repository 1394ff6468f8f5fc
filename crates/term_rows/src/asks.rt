// What a line asks about conditions.
ghost use Rattle.std.specs.Prelude.{◌≤◌, IfOk, IfSome};
ghost use Rattle.term_rows.specs.Sessions.{IsQuestion};

use crate::prints::fingerprint;
use crate::questions::{Question, ask, formula, least_value_of, question_about, refuting_log};
use crate::session::Session;
use path_ask::{Pick, Verdict};
use refute_check::Chain;
use row_words::{Words, numbers};
use std::alloc::{AllocError, Global};

// Whether each of the symbols is wide, by their widths.
fn draws_of(alloc: Global, widths: &[u64]) -> Result<Vec<bool>, AllocError> {
    widths.iter().map(|width| *width == 64).collect(alloc)
}

// The question of a line: `W .. : A .. : B .. : C`.
fn question_of(
    alloc: Global,
    session: &Session,
    words: &mut Words,
) -> Result<Option<Question>, AllocError>
    ensures { IfOk result (λ found. IfSome found (IsQuestion session.now)) }
{
    let widths = numbers(alloc, words)?;
    let draws = draws_of(alloc, widths.as_slice())?;
    let _colon = words.next();
    let nonzero = numbers(alloc, words)?;
    let _other_colon = words.next();
    let zero = numbers(alloc, words)?;
    let _last_colon = words.next();
    let least = words.number();
    question_about(
        alloc,
        session,
        draws,
        nonzero.as_slice(),
        zero.as_slice(),
        least,
    )
}

// The bound of conflicts of a line: `N :`, where N is at least 1.
fn bound(words: &mut Words) -> Option<u64>
    ensures { IfSome result (λ n. 1 ≤ n) }
{
    let n = words.number()?;
    let _colon = words.next();
    if n >= 1 { Some(n) } else { None }
}

fn refused(alloc: Global) -> Result<String, AllocError> {
    String::from_str(alloc, "refused")
}

// Numbers after a text, each after a space.
fn with_numbers(alloc: Global, head: String, numbers: &[u64]) -> Result<String, AllocError> {
    let mut text = head;
    for number in numbers {
        text = format!(in alloc; "{text} {number}")?;
    }
    Ok(text)
}

/// How many variables and clauses a formula has, and its print.
pub fn formula_line(
    alloc: Global,
    session: &Session,
    words: &mut Words,
) -> Result<String, AllocError> {
    let Some(question) = question_of(alloc, session, words)? else {
        return refused(alloc);
    };
    let cnf = formula(alloc, session.graph(), &question)?;
    let vars = cnf.vars;
    let count = cnf.clauses.len();
    let print = fingerprint(&cnf);
    format!(in alloc; "vars {vars} clauses {count} print {print}")
}

/// The least input that meets conditions, or that none does.
pub fn ask_line(alloc: Global, session: &Session, words: &mut Words) -> Result<String, AllocError> {
    let Some(conflicts) = bound(words) else {
        return refused(alloc);
    };
    let Some(question) = question_of(alloc, session, words)? else {
        return refused(alloc);
    };
    match ask(alloc, session.graph(), &question, conflicts)? {
        Verdict::Least(input) => {
            let head = String::from_str(alloc, "least")?;
            with_numbers(alloc, head, input.as_slice())
        }
        Verdict::Dropped(_) => String::from_str(alloc, "dropped"),
        Verdict::Undecided => String::from_str(alloc, "undecided"),
    }
}

/// The least value of a term at the inputs that meet conditions.
pub fn pick_line(
    alloc: Global,
    session: &Session,
    words: &mut Words,
) -> Result<String, AllocError> {
    let Some(conflicts) = bound(words) else {
        return refused(alloc);
    };
    let Some(question) = question_of(alloc, session, words)? else {
        return refused(alloc);
    };
    match least_value_of(alloc, session.graph(), &question, conflicts)? {
        Some(Pick::Least { value, input }) => {
            let head = format!(in alloc; "value {value} at")?;
            with_numbers(alloc, head, input.as_slice())
        }
        Some(Pick::Undecided) => String::from_str(alloc, "undecided"),
        None => String::from_str(alloc, "none"),
    }
}

fn steps_of(chains: &[Chain]) -> usize {
    let mut steps: usize = 0;
    for chain in chains {
        steps = steps.saturating_add(chain.steps.len());
    }
    steps
}

/// How many chains and steps the log has that refutes conditions.
pub fn log_line(alloc: Global, session: &Session, words: &mut Words) -> Result<String, AllocError> {
    let Some(conflicts) = bound(words) else {
        return refused(alloc);
    };
    let Some(question) = question_of(alloc, session, words)? else {
        return refused(alloc);
    };
    match refuting_log(alloc, session.graph(), &question, conflicts)? {
        Some(log) => {
            let chains = log.len();
            let steps = steps_of(log.as_slice());
            format!(in alloc; "chains {chains} steps {steps}")
        }
        None => String::from_str(alloc, "no log"),
    }
}
