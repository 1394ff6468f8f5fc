// What the clauses are on a trail.
ghost use Rattle.std.specs.Prelude.{◌≡◌, IsTrue, slice_get, take};
ghost use Rattle.refute_check.specs.Machine.{status as status_of, unset as unset_of, value_of, True as IsNowTrue, Unset as IsNowUnset};
ghost use Rattle.clause_solver.specs.code.Seen.{status_seen};
ghost use Rattle.clause_solver.specs.code.Watching.{status_at, AllSet};
ghost use Rattle.clause_solver.specs.code.Guarding.{IsHeld, LookIs, IsChosen};
ghost use Rattle.clause_solver.specs.declared.rules.Look.TheVariants.{Two as TwoUnset};

use crate::trail::{Trail, Value};
use refute_check::{Clause, Items};

/// What a clause is on a trail.
#[derive(Clone, Copy, Debug, PartialEq, Eq)]
pub enum Status {
    /// All its literals are false.
    Falsified,
    /// This one literal is unset, and the others are false.
    Forces(u64),
    /// A literal is true, or two are unset.
    Idle,
}

/// What is seen of a clause.
#[derive(Clone, Copy, Debug, PartialEq, Eq)]
pub enum Look {
    /// A literal is true.
    Met,
    /// All literals are false.
    Falsified,
    /// This one literal is unset, and the others are false.
    Forces(u64),
    /// These two are unset.
    Two(u64, u64),
}

/// Two literals to watch, and what the clause is.
#[derive(Clone, Copy, Debug, PartialEq, Eq)]
pub struct Choice {
    pub first: u64,
    pub second: u64,
    pub status: Status,
}

/// Looks through a clause.
pub fn look_through(trail: &Trail, clause: &[u64]) -> Look
    ensures { LookIs result trail.now clause.now }
{
    let mut unset = None;
    for literal in clause {
        match trail.value(*literal) {
            Value::True => return Look::Met,
            Value::False => {}
            Value::Unset => {
                if let Some(first) = unset {
                    return Look::Two(first, *literal);
                }
                unset = Some(*literal);
            }
        }
    }
    match unset {
        None => Look::Falsified,
        Some(literal) => Look::Forces(literal),
    }
}

fn is_true(trail: &Trail, literal: u64) -> bool
    ensures { IsTrue result → value_of trail.now literal ≡ IsNowTrue }
{
    matches!(trail.value(literal), Value::True)
}

fn is_unset(trail: &Trail, literal: u64) -> bool
    ensures { IsTrue result → value_of trail.now literal ≡ IsNowUnset }
{
    matches!(trail.value(literal), Value::Unset)
}

/// Chooses which literals a clause watches in place of these, of which the second stays where that serves.
pub fn chosen(trail: &Trail, clause: &[u64], first: u64, second: u64) -> Choice
    requires { IsHeld clause.now (first, second) }
    ensures { IsChosen trail.now clause.now first second result }
{
    if !clause.is_empty() && is_true(trail, second) {
        return Choice {
            first,
            second,
            status: Status::Idle,
        };
    }
    match look_through(trail, clause) {
        Look::Met => Choice {
            first,
            second,
            status: Status::Idle,
        },
        Look::Falsified => Choice {
            first,
            second,
            status: Status::Falsified,
        },
        Look::Forces(literal) => {
            if literal == second {
                return Choice {
                    first,
                    second,
                    status: Status::Forces(literal),
                };
            }
            Choice {
                first: literal,
                second,
                status: Status::Forces(literal),
            }
        }
        Look::Two(one, other) => of_two(trail, clause, (first, second), (one, other)),
    }
}

// The same, where these two of its literals are unset.
fn of_two(trail: &Trail, clause: &[u64], watched: (u64, u64), unset: (u64, u64)) -> Choice
    requires held { IsHeld clause.now watched }
    requires two { LookIs (TwoUnset unset.0 unset.1) trail.now clause.now }
    ensures { IsChosen trail.now clause.now watched.0 watched.1 result }
{
    let (one, other) = unset;
    let second = watched.1;
    if one == second {
        return Choice {
            first: other,
            second: one,
            status: Status::Idle,
        };
    }
    if is_unset(trail, second) {
        return Choice {
            first: one,
            second,
            status: Status::Idle,
        };
    }
    Choice {
        first: one,
        second: other,
        status: Status::Idle,
    }
}

/// The first variable of the order that is unset. So many variables were known to be set.
pub fn unset(trail: &Trail, order: &[u64], ahead: &mut usize) -> Option<u64>
    requires { AllSet trail.now (take ahead.old order.now) }
    ensures set { AllSet trail.now (take ahead.new order.now) }
    ensures first { result ≡ unset_of trail.now order.now }
{
    while *ahead < order.len() {
        let variable = order[*ahead];
        match trail.entry(variable) {
            None => return Some(variable),
            Some(_) => *ahead += 1,
        }
    }
    None
}

/// What a clause is on a trail.
pub fn clause_status(trail: &Trail, clause: &[u64]) -> Status
    ensures { status_seen result ≡ status_of trail.now clause.now }
{
    let mut unset = None;
    for literal in clause {
        match trail.value(*literal) {
            Value::True => return Status::Idle,
            Value::False => {}
            Value::Unset => {
                if unset.is_some() {
                    return Status::Idle;
                }
                unset = Some(*literal);
            }
        }
    }
    match unset {
        None => Status::Falsified,
        Some(literal) => Status::Forces(literal),
    }
}

/// What the clause of this number is, idle where there is none.
pub fn numbered_status(trail: &Trail, clauses: &Items<Clause>, number: u64) -> Status
    ensures { status_seen result ≡ status_at trail.now (slice_get clauses.now number) }
{
    let number = number as usize;
    if number >= clauses.len() {
        return Status::Idle;
    }
    clause_status(trail, clauses.get(number).as_slice())
}
