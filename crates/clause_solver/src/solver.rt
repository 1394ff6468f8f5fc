// The solver.
ghost use Rattle.std.specs.Prelude.{◌≡◌, ◌<◌, ◌≤◌, IfOk};
ghost use Rattle.clause_solver.specs.Answers.{IsFormula, IsAnswer, IsCorrectAnswer, values_of};

use crate::answer::Answer;
use crate::machine::{State, Turned};
use crate::trail::Trail;
use refute_check::{Cnf, Items, Log};
use std::alloc::{AllocError, Global};

/// Solves the formula, within so many conflicts.
///
/// It gives what the clause machine gives: the least model in the decision order, a log that refutes the formula, or
/// `Spent` where it counted so many conflicts.
pub fn solve(alloc: Global, cnf: &Cnf, conflicts: u64) -> Result<Answer, AllocError>
    requires formula { IsFormula cnf.now }
    requires conflicts { 1 ≤ conflicts }
    ensures exact { IfOk result (λ answer. IsAnswer cnf.now conflicts answer) }
    ensures right { IfOk result (λ answer. IsCorrectAnswer cnf.now answer) }
{
    let answer = run(alloc, cnf, conflicts)?;
    Ok(answer)
}

fn run(alloc: Global, cnf: &Cnf, conflicts: u64) -> Result<Answer, AllocError>
    requires formula { IsFormula cnf.now }
    requires conflicts { 1 ≤ conflicts }
    ensures { IfOk result (λ answer. IsAnswer cnf.now conflicts answer) }
{
    let clauses = cnf.clauses.copy()?;
    let order = cnf.order.as_slice();
    let mut state = State::start(alloc, clauses)?;
    'turns: loop {
        match state.turn(alloc, order, conflicts)? {
            Turned::On => {}
            Turned::Model => {
                let values = values(alloc, &state.trail, cnf.vars)?;
                return Ok(Answer::Model(values));
            }
            Turned::Refuted => return Ok(Answer::Refuted(into_log(state))),
            Turned::Spent => return Ok(Answer::Spent),
        }
    }
}

fn into_log(state: State) -> Log
    ensures { result ≡ state.log }
{
    state.log
}

// The values of the variables from 1 to the last.
fn values(alloc: Global, trail: &Trail, vars: u64) -> Result<Items<bool>, AllocError>
    ensures { IfOk result (λ values. values ≡ values_of trail.now vars) }
{
    let mut values = Items::new(Vec::new(alloc));
    for before in 0..vars {
        values.push(trail.assigns(before + 1))?;
    }
    Ok(values)
}
