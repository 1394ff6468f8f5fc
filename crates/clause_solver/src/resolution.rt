// Resolution of a clause, whose literals are kept apart, with others.
ghost use Rattle.std.specs.Prelude.{◌≡◌, ◌<◌, ◌^◌, ◌++◌, ◌∷◌, [], ◌&&◌, ℕ, List, Some, None, true, IfOk, OnOk, MatchOption};
ghost use Rattle.refute_check.specs.Resolution.{has, without, each_once, joined as joined_of, resolvent as resolvent_of};
ghost use Rattle.refute_check.specs.Machine.{count_at as count_of};

use crate::literals::Literals;
use crate::trail::Trail;
use std::alloc::AllocError;

/// Resolves the clause of these literals, of which so many have this level, with another one on a variable. It says how many
/// of the result's have that level, or None where the two don't resolve; the literals then stay. It takes as long as the
/// other clause is.
pub fn resolve(
    trail: &Trail,
    level: u64,
    literals: &mut Literals,
    many: usize,
    other: &[u64],
    variable: u64,
) -> Result<Option<usize>, AllocError>
    requires small { variable < 2 ^ 63 }
    requires once { each_once literals.old ≡ literals.old }
    requires counted { many ≡ count_of trail.now level literals.old }
    ensures { IfOk result (λ found. MatchOption found ((resolvent_of literals.old other.now variable ≡ None) × (literals.new ≡ literals.old))
        (λ many. (resolvent_of literals.old other.now variable ≡ Some literals.new) × (many ≡ count_of trail.now level literals.new))) }
{
    let positive = 2 * variable;
    let negative = positive + 1;
    if fit(literals, positive, other, negative) {
        let many = join(trail, level, literals, many, other, (positive, negative))?;
        return Ok(Some(many));
    }
    if fit(literals, negative, other, positive) {
        let many = join(trail, level, literals, many, other, (negative, positive))?;
        return Ok(Some(many));
    }
    Ok(None)
}

// Whether the first holds the literal, and the second its negation.
fn fit(first: &Literals, literal: u64, second: &[u64], negation: u64) -> bool
    ensures { result ≡ (has first.now literal && has second.now negation) }
{
    first.has(literal) && has_literal(second, negation)
}

fn has_literal(clause: &[u64], literal: u64) -> bool
    ensures { result ≡ has clause.now literal }
{
    clause.iter().any(|other| *other == literal)
}

// Takes off the first of the pair, and puts in the literals of the other clause but the second.
fn join(
    trail: &Trail,
    level: u64,
    literals: &mut Literals,
    many: usize,
    other: &[u64],
    pair: (u64, u64),
) -> Result<usize, AllocError>
    requires there { has literals.old pair.0 ≡ true }
    requires once { each_once literals.old ≡ literals.old }
    requires counted { many ≡ count_of trail.now level literals.old }
    ensures joined { OnOk result (literals.new ≡ joined_of pair.0 pair.1 literals.old other.now) }
    ensures counted { IfOk result (λ many. many ≡ count_of trail.now level literals.new) }
{
    let left = take_off(trail, level, literals, many, pair.0);
    let many = put_others(trail, level, literals, left, other, pair.1)?;
    Ok(many)
}

fn take_off(trail: &Trail, level: u64, literals: &mut Literals, many: usize, literal: u64) -> usize
    requires there { has literals.old literal ≡ true }
    requires once { each_once literals.old ≡ literals.old }
    requires counted { many ≡ count_of trail.now level literals.old }
    ensures off { literals.new ≡ without literal literals.old }
    ensures counted { result ≡ count_of trail.now level literals.new }
{
    literals.take_off(literal);
    if trail.level(literal) == level {
        many - 1
    } else {
        many
    }
}

/// Lets the literals be those of a clause, each once, and says how many of them have this level.
pub fn put_all(
    trail: &Trail,
    level: u64,
    literals: &mut Literals,
    clause: &[u64],
) -> Result<usize, AllocError>
    ensures put { OnOk result (literals.new ≡ each_once clause.now) }
    ensures counted { IfOk result (λ many. many ≡ count_of trail.now level literals.new) }
{
    literals.clear();
    let mut many = 0;
    for literal in clause {
        many = put(trail, level, literals, many, *literal)?;
    }
    Ok(many)
}

// Puts in the literals of a clause but one, where they aren't there yet.
fn put_others(
    trail: &Trail,
    level: u64,
    literals: &mut Literals,
    many: usize,
    clause: &[u64],
    but: u64,
) -> Result<usize, AllocError>
    requires counted { many ≡ count_of trail.now level literals.old }
    ensures put { OnOk result ((before : List ℕ) → literals.old ≡ each_once before → literals.new ≡ each_once (before ++ without but clause.now)) }
    ensures counted { IfOk result (λ many. many ≡ count_of trail.now level literals.new) }
{
    let mut many = many;
    for literal in clause {
        if *literal != but {
            many = put(trail, level, literals, many, *literal)?;
        }
    }
    Ok(many)
}

// Puts one in, where it isn't there yet.
fn put(
    trail: &Trail,
    level: u64,
    literals: &mut Literals,
    many: usize,
    literal: u64,
) -> Result<usize, AllocError>
    requires { many ≡ count_of trail.now level literals.old }
    ensures put { OnOk result ((before : List ℕ) → literals.old ≡ each_once before → literals.new ≡ each_once (before ++ literal ∷ [])) }
    ensures counted { IfOk result (λ many. many ≡ count_of trail.now level literals.new) }
{
    if literals.has(literal) {
        return Ok(many);
    }
    let _many = literals.len();
    literals.put(literal)?;
    if trail.level(literal) == level {
        Ok(many + 1)
    } else {
        Ok(many)
    }
}
