// The questions.
ghost use Rattle.std.specs.Prelude.{◌≤◌, All, IfOk, Some, None};
ghost use Rattle.bv_terms.specs.declared.words.Word.TheVariants.{Term as Numbered};
ghost use Rattle.bv_terms.specs.Graphs.{Holds};
ghost use Rattle.bit_blast.specs.Meanings.{AreProper, CanBeLeast};
ghost use Rattle.bit_blast.specs.GraphConditions.{term_at, conditions_of};
ghost use Rattle.path_ask.specs.Verdicts.{IsVerdict, IsCorrectVerdict, IsPick, IsLeast, SomeMeets};

use crate::inputs::{input, number_at};
use crate::verdicts::{Pick, Verdict};
use bit_blast::clauses;
use bv_terms::{Cond, Graph, TermId};
use clause_solver::{Answer, solve};
use refute_check::{AcceptBad, accept};
use std::alloc::{AllocError, Global};

/// How many bits a term has whose least value is asked for.
const BITS: usize = 32;

/// Whether an input meets conditions on terms of a graph, over symbols of these widths (true is 64 bits), within so many
/// conflicts.
///
/// `Least` has the least input that does; `Dropped` has the conditions' formula, which says that none does, with a log that
/// refutes it; `Undecided` comes exactly where the clause machine counted that many conflicts.
pub fn other_side(
    alloc: Global,
    g: &Graph,
    conds: &[Cond],
    draws: &[bool],
    conflicts: u64,
) -> Result<Verdict, AllocError>
    requires held { All (λ cond. Holds g.now (Numbered cond.term)) conds.now }
    requires proper { AreProper draws.now (conditions_of g.now conds.now) }
    requires conflicts { 1 ≤ conflicts }
    ensures exact { IfOk result (λ verdict. IsVerdict (conditions_of g.now conds.now) draws.now conflicts verdict) }
    ensures right { IfOk result (λ verdict. IsCorrectVerdict (conditions_of g.now conds.now) draws.now verdict) }
{
    let cnf = clauses(alloc, g, conds, draws, None)?;
    let answer = solve(alloc, &cnf, conflicts)?;
    match answer {
        Answer::Model(values) => {
            let least = input(alloc, values.as_slice(), draws)?;
            Ok(Verdict::Least(least))
        }
        Answer::Refuted(log) => match accept(alloc, cnf, log) {
            Ok(refutation) => Ok(Verdict::Dropped(refutation)),
            Err(AcceptBad::NoMemory) => Err(AllocError),
            Err(AcceptBad::Bad(_)) => unreachable!(),
        },
        Answer::Spent => Ok(Verdict::Undecided),
    }
}

/// The least value of a term of 32 bits at the inputs that meet conditions, of which there is one, and the least input that
/// gives it, within so many conflicts. `Undecided` comes exactly where the clause machine counted that many.
pub fn least_value(
    alloc: Global,
    g: &Graph,
    conds: &[Cond],
    draws: &[bool],
    term: TermId,
    conflicts: u64,
) -> Result<Pick, AllocError>
    requires held { All (λ cond. Holds g.now (Numbered cond.term)) conds.now }
    requires term_held { Holds g.now (Numbered term) }
    requires proper { AreProper draws.now (conditions_of g.now conds.now) }
    requires term_proper { CanBeLeast draws.now (Some (term_at g.now term)) }
    requires conflicts { 1 ≤ conflicts }
    requires some { SomeMeets (conditions_of g.now conds.now) draws.now }
    ensures exact { IfOk result (λ pick. IsPick (conditions_of g.now conds.now) draws.now (term_at g.now term) conflicts pick) }
    ensures least { IfOk result (λ pick. IsLeast (conditions_of g.now conds.now) draws.now (term_at g.now term) pick) }
{
    let cnf = clauses(alloc, g, conds, draws, Some(term))?;
    let answer = solve(alloc, &cnf, conflicts)?;
    match answer {
        Answer::Model(values) => {
            let value = number_at(values.as_slice(), &cnf.order.as_slice()[..BITS]);
            let least = input(alloc, values.as_slice(), draws)?;
            Ok(Pick::Least {
                value,
                input: least,
            })
        }
        Answer::Refuted(_) => unreachable!(),
        Answer::Spent => Ok(Pick::Undecided),
    }
}
