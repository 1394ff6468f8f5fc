// Resolution on sets of literals, in which a clause is looked up and changed at one place in logarithmic time.
ghost use Rattle.std.specs.Prelude.{◌≡◌, ◌++◌, ◌&&◌, Option, Some, None, IfOk, OnOk, MatchBool, slice_get, option_map};
ghost use Rattle.refute_check.specs.Resolution.{has, joined, resolvent};
ghost use Rattle.refute_check.specs.Logs.{result_of};
ghost use Rattle.refute_check.specs.code.Alike.{AreAlike, BothAlike};

use crate::formulas::Clause;
use crate::items::Items;
use crate::logs::Chain;
use std::alloc::{AllocError, Global};
use std::collections::BTreeSet;

// What a chain gives over the clauses and then the results, or None where it can't be resolved.
pub(crate) fn result(
    alloc: Global,
    clauses: &[Clause],
    results: &[Clause],
    chain: &Chain,
) -> Result<Option<Clause>, AllocError>
    ensures { IfOk result (λ found. BothAlike found (result_of (clauses.now ++ results.now) chain.now)) }
{
    let Some(first) = numbered(clauses, results, chain.start) else {
        return Ok(None);
    };
    let mut literals = set_of(alloc, first)?;
    for (number, variable) in chain.steps.as_slice() {
        let Some(other) = numbered(clauses, results, *number) else {
            return Ok(None);
        };
        if !resolve(&mut literals, other, *variable)? {
            return Ok(None);
        }
    }
    let clause = list_of(alloc, &literals)?;
    Ok(Some(clause))
}

// The clause of a number: those of the formula come first, and the results after them.
fn numbered<'c>(clauses: &'c [Clause], results: &'c [Clause], number: u64) -> Option<&'c [u64]>
    ensures { option_map (λ c. c.now) result ≡ slice_get (clauses.now ++ results.now) number }
{
    let number = number as usize;
    if number < clauses.len() {
        return Some(clauses[number].as_slice());
    }
    let number = number - clauses.len();
    if number < results.len() {
        Some(results[number].as_slice())
    } else {
        None
    }
}

fn set_of(alloc: Global, clause: &[u64]) -> Result<BTreeSet<u64>, AllocError>
    ensures { IfOk result (λ literals. AreAlike literals.keys clause.now) }
{
    let mut literals = BTreeSet::new(alloc);
    for literal in clause {
        literals.insert(*literal)?;
    }
    Ok(literals)
}

fn list_of(alloc: Global, literals: &BTreeSet<u64>) -> Result<Clause, AllocError>
    ensures { IfOk result (λ clause. clause ≡ literals.now.keys) }
{
    let items = literals.iter().copied().collect(alloc)?;
    Ok(Items::new(items))
}

// Resolves the literals with the other clause, or says that the two don't resolve; the literals then stay.
fn resolve(literals: &mut BTreeSet<u64>, other: &[u64], variable: u64) -> Result<bool, AllocError>
    ensures { IfOk result (λ done. MatchBool done
        (BothAlike (Some literals.new.keys) (resolvent literals.old.keys other.now variable))
        (resolvent literals.old.keys other.now variable ≡ None)) }
{
    if variable > u64::MAX / 2 {
        return Ok(false);
    }
    let positive = 2 * variable;
    let negative = positive + 1;
    if fit(literals, positive, other, negative) {
        join(literals, positive, other, negative)?;
        return Ok(true);
    }
    if fit(literals, negative, other, positive) {
        join(literals, negative, other, positive)?;
        return Ok(true);
    }
    Ok(false)
}

// Whether the literals hold this one, and the other clause its negation.
fn fit(literals: &BTreeSet<u64>, literal: u64, other: &[u64], negation: u64) -> bool
    ensures { result ≡ (has literals.now.keys literal && has other.now negation) }
{
    literals.contains(&literal) && holds(other, negation)
}

fn holds(clause: &[u64], literal: u64) -> bool
    ensures { result ≡ has clause.now literal }
{
    clause.iter().any(|other| *other == literal)
}

// The literals but this one, and those of the other clause but its negation.
fn join(
    literals: &mut BTreeSet<u64>,
    literal: u64,
    other: &[u64],
    negation: u64,
) -> Result<(), AllocError>
    ensures { OnOk result (AreAlike literals.new.keys (joined literal negation literals.old.keys other.now)) }
{
    literals.remove(&literal);
    for found in other {
        if *found != negation {
            literals.insert(*found)?;
        }
    }
    Ok(())
}
