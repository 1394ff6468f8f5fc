// Questions about conditions on terms.
ghost use Rattle.std.specs.Prelude.{◌≡◌, ◌≤◌, IfOk, IfSome, OnOk, All};
ghost use Rattle.bit_blast.specs.Formulas.{formula as formula_of};
ghost use Rattle.bit_blast.specs.GraphConditions.{conditions_of, first_of};
ghost use Rattle.path_ask.specs.Verdicts.{IsCorrectVerdict};
ghost use Rattle.term_rows.specs.Sessions.{AreOver, IsAsked, IsQuestion};

use crate::drawn::Drawn;
use crate::session::Session;
use bit_blast::clauses;
use bv_terms::{Cond, Graph, TermId};
use clause_solver::{Answer, solve};
use path_ask::{Pick, Verdict, least_value, other_side};
use refute_check::{Cnf, Log};
use std::alloc::{AllocError, Global};

/// Conditions on terms over symbols, and a term of 32 bits that is to be least, where there is one.
#[derive(Drop)]
pub struct Question {
    pub drawn: Drawn,
    pub conds: Vec<Cond>,
    pub least: Option<TermId>,
}

// Conditions with one answer on the terms at these places come after the others; false where there is no term over the symbols
// at one of them.
fn put_conds(
    session: &Session,
    drawn: &Drawn,
    conds: &mut Vec<Cond>,
    places: &[u64],
    answer: bool,
) -> Result<bool, AllocError>
    requires over { AreOver session.now drawn.now }
    requires asked { All (λ cond. IsAsked session.now drawn.now cond.term) conds.old.items }
    ensures { OnOk result (All (λ cond. IsAsked session.now drawn.now cond.term) conds.new.items) }
{
    for place in places {
        let Some(term) = session.term(*place) else {
            return Ok(false);
        };
        if !drawn.has(session.graph(), term) {
            return Ok(false);
        }
        conds.push(Cond { term, answer })?;
    }
    Ok(true)
}

/// The conditions that the terms at the first places aren't 0 and those at the second are, over symbols of these widths, with
/// the term at a place to be least; None where one of them is no term over the symbols, or the last has other than 32 bits.
pub fn question_about(
    alloc: Global,
    session: &Session,
    draws: Vec<bool>,
    nonzero: &[u64],
    zero: &[u64],
    least: Option<u64>,
) -> Result<Option<Question>, AllocError>
    ensures { IfOk result (λ found. IfSome found (IsQuestion session.now)) }
{
    let drawn = Drawn::new(alloc, session.graph(), draws)?;
    let mut conds = Vec::new(alloc);
    if !put_conds(session, &drawn, &mut conds, nonzero, true)? {
        return Ok(None);
    }
    if !put_conds(session, &drawn, &mut conds, zero, false)? {
        return Ok(None);
    }
    let Some(place) = least else {
        return Ok(Some(Question {
            drawn,
            conds,
            least: None,
        }));
    };
    let Some(term) = session.narrow(place) else {
        return Ok(None);
    };
    if !drawn.has(session.graph(), term) {
        return Ok(None);
    }
    Ok(Some(Question {
        drawn,
        conds,
        least: Some(term),
    }))
}

/// The formula of a question.
pub fn formula(alloc: Global, g: &Graph, q: &Question) -> Result<Cnf, AllocError>
    requires { IsQuestion g.now q.now }
    ensures { IfOk result (λ cnf. cnf ≡ formula_of (conditions_of g.now q.now.conds.items) q.now.drawn.draws.items (first_of g.now q.now.least)) }
{
    clauses(
        alloc,
        g,
        q.conds.as_slice(),
        q.drawn.draws.as_slice(),
        q.least,
    )
}

/// The log that refutes the formula of a question, where the solver gives one within so many conflicts.
pub fn refuting_log(
    alloc: Global,
    g: &Graph,
    q: &Question,
    conflicts: u64,
) -> Result<Option<Log>, AllocError>
    requires question { IsQuestion g.now q.now }
    requires conflicts { 1 ≤ conflicts }
{
    let cnf = formula(alloc, g, q)?;
    match solve(alloc, &cnf, conflicts)? {
        Answer::Refuted(log) => Ok(Some(log)),
        _ => Ok(None),
    }
}

/// Whether an input meets the conditions.
pub fn ask(alloc: Global, g: &Graph, q: &Question, conflicts: u64) -> Result<Verdict, AllocError>
    requires question { IsQuestion g.now q.now }
    requires conflicts { 1 ≤ conflicts }
    ensures { IfOk result (λ verdict. IsCorrectVerdict (conditions_of g.now q.now.conds.items) q.now.drawn.draws.items verdict) }
{
    other_side(
        alloc,
        g,
        q.conds.as_slice(),
        q.drawn.draws.as_slice(),
        conflicts,
    )
}

/// The least value of a term at the inputs that meet the conditions; None where there is no such term, or no such input.
pub fn least_value_of(
    alloc: Global,
    g: &Graph,
    q: &Question,
    conflicts: u64,
) -> Result<Option<Pick>, AllocError>
    requires question { IsQuestion g.now q.now }
    requires conflicts { 1 ≤ conflicts }
{
    let Some(term) = q.least else {
        return Ok(None);
    };
    match ask(alloc, g, q, conflicts)? {
        Verdict::Least(_) => {
            let pick = least_value(
                alloc,
                g,
                q.conds.as_slice(),
                q.drawn.draws.as_slice(),
                term,
                conflicts,
            )?;
            Ok(Some(pick))
        }
        Verdict::Dropped(_) => Ok(None),
        Verdict::Undecided => Ok(Some(Pick::Undecided)),
    }
}
