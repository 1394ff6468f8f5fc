// Whether clauses with an order are a formula, in time that is linear in them.
ghost use Rattle.std.specs.Prelude.{◌≡◌, ◌≤◌, ◌+◌, ◌/◌, ◌&&◌, ℕ, IsTrue, IfOk, nat_le};
ghost use Rattle.std.specs.List.{list_all};
ghost use Rattle.refute_check.specs.Orders.{Names};
ghost use Rattle.clause_solver.specs.Answers.{IsFormula};

use refute_check::{Clause, Cnf};
use std::alloc::{AllocError, Global};

/// Whether the order names the variables, each once, and the literals are of these.
pub fn is_formula(alloc: Global, formula: &Cnf) -> Result<bool, AllocError>
    ensures { IfOk result (λ yes. IsTrue yes → IsFormula formula.now) }
{
    let order = formula.order.as_slice();
    if order.len() as u64 != formula.vars {
        return Ok(false);
    }
    if !has_only(order, formula.vars) {
        return Ok(false);
    }
    let places = places_of(alloc, order)?;
    if !names_each(order, places.as_slice(), formula.vars) {
        return Ok(false);
    }
    Ok(are_within(formula.vars, formula.clauses.as_slice()))
}

// For each number up to the length of the order where the order has it, if it does.
fn places_of(alloc: Global, order: &[u64]) -> Result<Vec<usize>, AllocError> {
    let mut places = Vec::new(alloc);
    places.resize(order.len(), 0)?;
    for (place, variable) in order.iter().enumerate() {
        let before = variable.saturating_sub(1) as usize;
        if before < places.len() {
            places[before] = place;
        }
    }
    Ok(places)
}

// Whether the order has this variable at the place that the places say.
fn is_at(order: &[u64], places: &[usize], before: usize) -> bool
    ensures { IsTrue result → Names order.now (before + 1) }
{
    if before >= places.len() {
        return false;
    }
    let place = places[before];
    place < order.len() && order[place] as usize == before + 1
}

fn names_each(order: &[u64], places: &[usize], vars: u64) -> bool
    ensures { IsTrue result → (variable : ℕ) → 1 ≤ variable → variable ≤ vars → Names order.now variable }
{
    for before in 0..vars {
        if !is_at(order, places, before as usize) {
            return false;
        }
    }
    true
}

fn has_only(order: &[u64], vars: u64) -> bool
    ensures { result ≡ list_all (λ variable. nat_le 1 variable && nat_le variable vars) order.now }
{
    order
        .iter()
        .all(|variable| 1 <= *variable && *variable <= vars)
}

fn is_within(vars: u64, clause: &Clause) -> bool
    ensures { result ≡ list_all (λ literal. nat_le 1 (literal / 2) && nat_le (literal / 2) vars) clause.now }
{
    clause
        .as_slice()
        .iter()
        .all(|literal| 1 <= *literal / 2 && *literal / 2 <= vars)
}

fn are_within(vars: u64, clauses: &[Clause]) -> bool
    ensures { result ≡ list_all (λ clause. list_all (λ literal. nat_le 1 (literal / 2) && nat_le (literal / 2) vars) clause) clauses.now }
{
    clauses.iter().all(|clause| is_within(vars, clause))
}
