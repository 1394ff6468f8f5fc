// Which clauses a turn has to look at.
ghost use Rattle.std.specs.Prelude.{◌≡◌, ◌≤◌, ◌<◌, ◌⊎◌, ℕ, List, [], ◌∷◌, Some, None, true, IsTrue, length, slice_get, OnOk, MatchOption};
ghost use Rattle.refute_check.specs.Machine.{falsified as falsified_of, forced as forced_of};
ghost use Rattle.refute_check.specs.Resolution.{has};
ghost use Rattle.clause_solver.specs.code.Guarding.{AllKept};
ghost use Rattle.clause_solver.specs.code.Watching.{IsSeen, AreAmong, IsNoted};

use crate::rules::{Status, numbered_status};
use crate::trail::Trail;
use refute_check::{Clause, Items};
use std::alloc::{AllocError, Global};
use std::collections::BTreeSet;

/// Numbers of clauses: those of all that are falsified, and those of all that force a literal, each with others.
#[derive(Drop)]
pub struct Candidates {
    pub falsified: BTreeSet<u64>,
    pub forcing: BTreeSet<u64>,
}

impl Candidates {
    pub fn new(alloc: Global) -> Candidates {
        Candidates {
            falsified: BTreeSet::new(alloc),
            forcing: BTreeSet::new(alloc),
        }
    }

    /// Notes what a clause is.
    pub fn note(&mut self, number: u64, status: Status) -> Result<(), AllocError>
        ensures kept { OnOk result ((AreAmong self.old.falsified.keys self.new.falsified.keys) × (AreAmong self.old.forcing.keys self.new.forcing.keys)) }
        ensures noted { OnOk result (IsNoted status self.new.falsified.keys self.new.forcing.keys number) }
    {
        match status {
            Status::Falsified => put(&mut self.falsified, number),
            Status::Forces(_) => put(&mut self.forcing, number),
            Status::Idle => Ok(()),
        }
    }

    /// Forgets all.
    pub fn clear(&mut self) {
        self.falsified.clear();
        self.forcing.clear();
    }

    /// The number of the first clause that is falsified.
    pub fn first_falsified(&mut self, trail: &Trail, clauses: &Items<Clause>) -> Option<usize>
        requires { (number : ℕ) → IsSeen trail.now clauses.now self.old.falsified.keys self.old.forcing.keys number }
        ensures seen { (number : ℕ) → IsSeen trail.now clauses.now self.new.falsified.keys self.new.forcing.keys number }
        ensures kept { (pairs : List (ℕ × ℕ)) → AllKept trail.now clauses.now pairs self.old.falsified.keys self.old.forcing.keys → AllKept trail.now clauses.now pairs self.new.falsified.keys self.new.forcing.keys }
        ensures found { MatchOption result (falsified_of trail.now 0 clauses.now ≡ None)
            (λ number. (clause : List ℕ) × (slice_get clauses.now number ≡ Some clause) × (falsified_of trail.now 0 clauses.now ≡ Some (number, clause))) }
    {
        while let Some(number) = least(&self.falsified) {
            match numbered_status(trail, clauses, number) {
                Status::Falsified => return Some(number as usize),
                _ => take_off(&mut self.falsified, number),
            }
        }
        None
    }

    /// The number of the first clause that forces a literal, and the literal.
    pub fn first_forcing(&mut self, trail: &Trail, clauses: &Items<Clause>) -> Option<(usize, u64)>
        requires { (number : ℕ) → IsSeen trail.now clauses.now self.old.falsified.keys self.old.forcing.keys number }
        ensures seen { (number : ℕ) → IsSeen trail.now clauses.now self.new.falsified.keys self.new.forcing.keys number }
        ensures kept { (pairs : List (ℕ × ℕ)) → AllKept trail.now clauses.now pairs self.old.falsified.keys self.old.forcing.keys → AllKept trail.now clauses.now pairs self.new.falsified.keys self.new.forcing.keys }
        ensures found { result ≡ forced_of trail.now 0 clauses.now }
    {
        while let Some(number) = least(&self.forcing) {
            match numbered_status(trail, clauses, number) {
                Status::Forces(literal) => return Some((number as usize, literal)),
                _ => take_off(&mut self.forcing, number),
            }
        }
        None
    }
}

/// The least of the numbers.
pub fn least(numbers: &BTreeSet<u64>) -> Option<u64>
    ensures { MatchOption result ((number : ℕ) → has numbers.now.keys number ≡ true → ⊥)
        (λ least. (has numbers.now.keys least ≡ true) × ((number : ℕ) → has numbers.now.keys number ≡ true → least ≤ number)) }
{
    match numbers.first() {
        None => None,
        Some(number) => Some(*number),
    }
}

/// Takes one of the numbers off.
pub fn take_off(numbers: &mut BTreeSet<u64>, number: u64)
    requires { has numbers.old.keys number ≡ true }
    ensures kept { (other : ℕ) → has numbers.old.keys other ≡ true → (other ≡ number) ⊎ (has numbers.new.keys other ≡ true) }
    ensures fewer { length numbers.new.keys < length numbers.old.keys }
{
    numbers.remove(&number);
}

fn put(numbers: &mut BTreeSet<u64>, number: u64) -> Result<(), AllocError>
    ensures { OnOk result (AreAmong numbers.old.keys numbers.new.keys × (has numbers.new.keys number ≡ true)) }
{
    numbers.insert(number)?;
    Ok(())
}
