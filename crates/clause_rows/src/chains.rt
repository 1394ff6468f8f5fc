// A formula in which each variable but the last hangs on the one after it.
ghost use Rattle.std.specs.Prelude.{IfOk, IfSome};
ghost use Rattle.clause_solver.specs.Answers.{IsFormula};

use crate::places::is_formula;
use refute_check::{Clause, Cnf, Items};
use std::alloc::{AllocError, Global};

/// The formula, where it is one.
pub fn checked(alloc: Global, formula: Cnf) -> Result<Option<Cnf>, AllocError>
    ensures { IfOk result (λ found. IfSome found (λ formula. IsFormula formula)) }
{
    if is_formula(alloc, &formula)? {
        Ok(Some(formula))
    } else {
        Ok(None)
    }
}

fn clause_of(alloc: Global, literals: &[u64]) -> Result<Clause, AllocError> {
    Ok(Items::new(literals.to_vec(alloc)?))
}

/// {vN}, and {vi, not v(i+1)} for i from 1 to N - 1, to be decided upwards: one of its models has all variables true, and
/// there is no other. In time that is linear in N.
pub fn chain(alloc: Global, count: u64) -> Result<Option<Cnf>, AllocError>
    ensures { IfOk result (λ found. IfSome found (λ formula. IsFormula formula)) }
{
    if count == 0 || count > 1_000_000 {
        return Ok(None);
    }
    let mut clauses = Items::new(Vec::new(alloc));
    let mut order = Items::new(Vec::new(alloc));
    clauses.push(clause_of(alloc, &[2 * count])?)?;
    for before in 0..count {
        order.push(before + 1)?;
    }
    for before in 0..count - 1 {
        clauses.push(clause_of(alloc, &[2 * before + 2, 2 * before + 5])?)?;
    }
    checked(
        alloc,
        Cnf {
            vars: count,
            clauses,
            order,
        },
    )
}
