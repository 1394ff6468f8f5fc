// The analysis of a conflict.
ghost use Rattle.std.specs.Prelude.{◌≡◌, ◌<◌, ◌+◌, ◌^◌, ℕ, Some, None, IfOk, MatchOption};
ghost use Rattle.refute_check.specs.Logs.{after_step};
ghost use Rattle.refute_check.specs.Resolution.{each_once};
ghost use Rattle.refute_check.specs.Machine.{analysed as analysed_of, count_at as count_of, highest_but as highest_of, has_variable as has_variable_of, level_now};
ghost use Rattle.refute_check.specs.Clauses.{variable_of};
ghost use Rattle.clause_solver.specs.code.Analysis.{enough_for};
ghost use Rattle.clause_solver.specs.code.Literals.{clause_now};

use crate::literals::Literals;
use crate::resolution::{put_all, resolve};
use crate::trail::{Entry, Trail};
use refute_check::{Clause, Items};
use std::alloc::{AllocError, Global};

/// How far an analysis goes.
#[derive(Clone, Copy, Debug, PartialEq, Eq)]
pub enum Until {
    /// Until one literal of the last level is left, at most.
    Learnt,
    /// Until no literal is left.
    Empty,
}

/// A clause, and the steps that led to it.
#[derive(Drop)]
pub struct Learnt {
    pub clause: Clause,
    pub steps: Items<(u64, u64)>,
}

/// Resolves the clause with the reasons of its variables, the latest on the trail first, until it has come far enough. It takes as
/// long as the trail and the reasons are. The literals are where it keeps those of the clause meanwhile.
pub fn analysed(
    alloc: Global,
    clauses: &[Clause],
    trail: &Trail,
    literals: &mut Literals,
    clause: Clause,
    until: Until,
) -> Result<Learnt, AllocError>
    ensures clause { IfOk result (λ learnt. learnt.clause ≡ (analysed_of clauses.now (enough_for until trail.now) trail.now clause).clause) }
    ensures steps { IfOk result (λ learnt. learnt.steps ≡ (analysed_of clauses.now (enough_for until trail.now) trail.now clause).steps) }
{
    let steps = steps_of(alloc, clauses, trail, literals, &clause, until)?;
    if steps.is_empty() {
        return Ok(Learnt { clause, steps });
    }
    let clause = literals.list(alloc)?;
    Ok(Learnt { clause, steps })
}

// The steps of an analysis. The literals are then those of what it gives, where there was a step.
fn steps_of(
    alloc: Global,
    clauses: &[Clause],
    trail: &Trail,
    literals: &mut Literals,
    clause: &Clause,
    until: Until,
) -> Result<Items<(u64, u64)>, AllocError>
    ensures clause { IfOk result (λ steps. clause_now steps clause.now literals.new ≡ (analysed_of clauses.now (enough_for until trail.now) trail.now clause.now).clause) }
    ensures steps { IfOk result (λ steps. steps ≡ (analysed_of clauses.now (enough_for until trail.now) trail.now clause.now).steps) }
{
    let last = trail.last_level();
    let mut steps = Items::new(Vec::new(alloc));
    let mut many = put_all(trail, last, literals, clause.as_slice())?;
    let mut far = is_enough(until, trail, clause);
    for after in 0..trail.len() {
        if far {
            return Ok(steps);
        }
        let entry = trail.get(after);
        let variable = entry.variable();
        if has_variable(literals, variable) {
            let Some((reason, next)) = step(clauses, trail, last, literals, many, entry)? else {
                return Ok(steps);
            };
            steps.push((reason, variable))?;
            many = next;
            far = are_enough(until, trail, literals, many);
        }
    }
    Ok(steps)
}

// Whether a clause as it was is far enough.
fn is_enough(until: Until, trail: &Trail, clause: &Clause) -> bool
    ensures { result ≡ enough_for until trail.now clause.now }
{
    match until {
        Until::Learnt => count_at(trail, trail.last_level(), clause.as_slice()) < 2,
        Until::Empty => clause.is_empty(),
    }
}

// Whether the literals are far enough, of which so many have the last level.
fn are_enough(until: Until, trail: &Trail, literals: &Literals, many: usize) -> bool
    requires { many ≡ count_of trail.now (level_now trail.now) literals.now }
    ensures { result ≡ enough_for until trail.now literals.now }
{
    match until {
        Until::Learnt => many < 2,
        Until::Empty => literals.len() == 0,
    }
}

fn has_variable(literals: &Literals, variable: u64) -> bool
    requires { variable < 2 ^ 63 }
    ensures { result ≡ has_variable_of variable literals.now }
{
    literals.has(2 * variable) || literals.has(2 * variable + 1)
}

// Resolves the literals, of which so many have this level, with the entry's reason. It gives the reason's number and how many
// of the result's have the level, or None where there is no reason, or it doesn't resolve.
fn step(
    clauses: &[Clause],
    trail: &Trail,
    level: u64,
    literals: &mut Literals,
    many: usize,
    entry: Entry,
) -> Result<Option<(u64, usize)>, AllocError>
    requires once { each_once literals.old ≡ literals.old }
    requires counted { many ≡ count_of trail.now level literals.old }
    ensures { IfOk result (λ found. MatchOption found
        (((reason : ℕ) → entry.reason ≡ Some reason → after_step clauses.now (reason, variable_of entry.literal) literals.old ≡ None) × (literals.new ≡ literals.old))
        (λ next. (entry.reason ≡ Some next.0) × (after_step clauses.now (next.0, variable_of entry.literal) literals.old ≡ Some literals.new)
        × (next.1 ≡ count_of trail.now level literals.new))) }
{
    let Some(reason) = entry.reason else {
        return Ok(None);
    };
    let number = reason as usize;
    if number >= clauses.len() {
        return Ok(None);
    }
    let other = clauses[number].as_slice();
    match resolve(trail, level, literals, many, other, entry.variable())? {
        None => Ok(None),
        Some(many) => Ok(Some((reason, many))),
    }
}

/// How many literals have this level.
pub fn count_at(trail: &Trail, level: u64, clause: &[u64]) -> usize
    ensures { result ≡ count_of trail.now level clause.now }
{
    let mut count = 0;
    for literal in clause {
        if trail.level(*literal) == level {
            count += 1;
        }
    }
    count
}

/// The highest level of the literals of other levels than this, 0 where there is none.
pub fn highest_but(trail: &Trail, level: u64, clause: &[u64]) -> u64
    ensures { result ≡ highest_of trail.now level clause.now }
{
    let mut highest = 0;
    for literal in clause {
        let other = trail.level(*literal);
        if other != level && other > highest {
            highest = other;
        }
    }
    highest
}
