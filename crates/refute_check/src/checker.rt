// The checker of logs.
ghost use Rattle.std.specs.Prelude.{◌≡◌, ◌⊎◌, ℕ, Err, IfOk, OnOk, IsOkUnless};
ghost use Rattle.refute_check.specs.Clauses.{IsUnsatisfiable};
ghost use Rattle.refute_check.specs.Logs.{IsAccepted, IsRefused};

use crate::formulas::{Clause, Cnf};
use crate::items::Items;
use crate::logs::{Chain, Log};
use crate::refutation::Refutation;
use crate::resolution::result;
use std::alloc::{AllocError, Global};

/// Why a log is refused.
#[derive(Clone, Copy, Debug, PartialEq, Eq)]
pub enum AcceptBad {
    /// The number of the first chain that can't be resolved, or the length of the log where all can, but no last one
    /// gives the empty clause.
    Bad(u64),
    /// Memory was not to be had.
    NoMemory,
}

impl From<AllocError> for AcceptBad {
    ghost use Rattle.std.specs.Prelude.{◌≡◌};
    ghost use Rattle.refute_check.specs.declared.checker.AcceptBad.TheVariants.{NoMemory};

    ghost from_gives = { λ _ bad. bad ≡ NoMemory };

    fn from(_error: AllocError) -> AcceptBad {
        AcceptBad::NoMemory
    }
}

/// Checks that the log refutes the formula, and keeps the two together.
///
/// A chain names the clauses of the formula by the numbers from 0, and the results of the chains before it by those
/// after. Its time is linear in the literals of the clauses that the chains name, within a logarithm.
pub fn accept(alloc: Global, cnf: Cnf, log: Log) -> Result<Refutation, AcceptBad>
    // No assignment meets what is accepted, and the type of what comes back says so too.
    ensures unsatisfiable { OnOk result (IsUnsatisfiable cnf.clauses) }
    ensures kept { IfOk result (λ refutation. (refutation.cnf ≡ cnf) × (refutation.log ≡ log)) }
    ensures accepted { OnOk result (IsAccepted cnf.clauses log) }
    ensures refused { (number : ℕ) → result ≡ Err (AcceptBad.Bad number) → IsRefused cnf.clauses log number }

    // Only for want of memory does it answer otherwise than the log deserves.
    ensures accepts { IsAccepted cnf.clauses log → IsOkUnless result AcceptBad.NoMemory }
    ensures refuses { (number : ℕ) → IsRefused cnf.clauses log number → (result ≡ Err (AcceptBad.Bad number)) ⊎ (result ≡ Err AcceptBad.NoMemory) }
{
    match check(alloc, cnf.clauses.as_slice(), log.as_slice()) {
        Ok(()) => Ok(Refutation { cnf, log }),
        Err(bad) => Err(bad),
    }
}

// Resolves each chain in turn.
fn check(alloc: Global, clauses: &[Clause], log: &[Chain]) -> Result<(), AcceptBad>
    ensures accepted { OnOk result (IsAccepted clauses.now log.now) }
    ensures refused { (number : ℕ) → result ≡ Err (AcceptBad.Bad number) → IsRefused clauses.now log.now number }
{
    let mut results = Items::new(Vec::new(alloc));
    let mut closed = false;
    for (number, chain) in log.iter().enumerate() {
        let Some(clause) = result(alloc, clauses, results.as_slice(), chain)? else {
            return Err(AcceptBad::Bad(number as u64));
        };
        closed = clause.is_empty();
        results.push(clause)?;
    }
    if closed {
        Ok(())
    } else {
        Err(AcceptBad::Bad(log.len() as u64))
    }
}
