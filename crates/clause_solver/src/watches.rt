// Which clauses watch which literals.
ghost use Rattle.std.specs.Prelude.{◌≡◌, ◌<◌, ◌⊎◌, [], ℕ, suc, true, List, Some, IsTrue, length, slice_get, IfOk, OnOk};
ghost use Rattle.refute_check.specs.Resolution.{has};
ghost use Rattle.refute_check.specs.Machine.{Entry as OneEntry, level_of, level_now};
ghost use Rattle.clause_solver.specs.code.Guarding.{IsHeld, GuardedAs, IsBelow};
ghost use Rattle.clause_solver.specs.code.Renewing.{Renewed, Visited, HeldAs, IsWatchedBy, IsKeptIn, IsGuardedIn, IsListedIn, IsSound, pair_at};

use crate::candidates::Candidates;
use crate::lists::Lists;
use crate::rules::chosen;
use crate::trail::Trail;
use refute_check::{Clause, Items};
use std::alloc::{AllocError, Global};

/// Two literals of each clause, for each literal the numbers of the clauses that watch it, and the numbers of the clauses
/// that are falsified or force a literal.
#[derive(Drop)]
pub struct Watches {
    pub lists: Lists,
    pub pairs: Vec<(u64, u64)>,
    pub candidates: Candidates,
}

impl Watches {
    // Looks at a clause that watches these two, and chooses anew what it watches, the second again where that serves.
    fn renew(
        &mut self,
        alloc: Global,
        trail: &Trail,
        clauses: &Items<Clause>,
        number: u64,
        watched: (u64, u64),
    ) -> Result<(), AllocError>
        requires clause { (clause : List ℕ) × (slice_get clauses.now number ≡ Some clause) × IsHeld clause watched }
        requires within { number < length self.old.pairs.items }
        ensures { OnOk result (Renewed trail.now clauses.now number watched.0 watched.1 self.old self.new) }
    {
        let at = number as usize;
        let choice = chosen(trail, clauses.get(at).as_slice(), watched.0, watched.1);
        self.candidates.note(number, choice.status)?;
        self.pairs[at] = (choice.first, choice.second);
        self.lists
            .relist(alloc, number, (choice.first, choice.second), watched)?;
        Ok(())
    }

    // Looks at a clause that may watch a literal that has become false.
    fn visit(
        &mut self,
        alloc: Global,
        trail: &Trail,
        clauses: &Items<Clause>,
        literal: u64,
        number: u64,
    ) -> Result<(), AllocError>
        requires count { length self.old.pairs.items ≡ length clauses.now }
        requires held { HeldAs (slice_get clauses.now number) (pair_at self.old number) }
        ensures { OnOk result (Visited trail.now clauses.now literal number self.old self.new) }
    {
        let at = number as usize;
        if at >= clauses.len() {
            return Ok(());
        }
        let (first, second) = self.pairs[at];
        if first == literal {
            self.renew(alloc, trail, clauses, number, (first, second))?;
            return Ok(());
        }
        if second == literal {
            self.renew(alloc, trail, clauses, number, (second, first))?;
            return Ok(());
        }
        Ok(())
    }

    /// Looks at all clauses that watch a literal that has become false.
    pub fn visit_all(
        &mut self,
        alloc: Global,
        trail: &Trail,
        clauses: &Items<Clause>,
        literal: u64,
    ) -> Result<(), AllocError>
        requires count { length self.old.pairs.items ≡ length clauses.now }
        requires held { (number : ℕ) → HeldAs (slice_get clauses.now number) (pair_at self.old number) }
        requires listed { (number : ℕ) → IsListedIn self.old number }
        requires kept { (number : ℕ) → IsWatchedBy literal (pair_at self.old number) ⊎ IsKeptIn trail.now clauses.now self.old number }
        ensures sound { OnOk result (IsSound trail.now clauses.now self.new (length clauses.now)) }
        ensures before { OnOk result ((below : List OneEntry) → IsBelow below trail.now → ((number : ℕ) → IsGuardedIn below clauses.now self.old number) → (number : ℕ) → IsGuardedIn below clauses.now self.new number) }
    {
        let numbers = self.lists.take(alloc, literal);
        for number in &numbers {
            self.visit(alloc, trail, clauses, literal, *number)?;
        }
        Ok(())
    }

    /// Lets one clause more watch these two of its literals, where all others are known to do nothing on the trail that was
    /// cut; else makes all watches anew.
    pub fn learn(
        &mut self,
        alloc: Global,
        trail: &Trail,
        clauses: &Items<Clause>,
        pair: (u64, u64),
        settled: bool,
    ) -> Result<(), AllocError>
        requires { (clause : List ℕ) × (slice_get clauses.now (length self.old.pairs.items) ≡ Some clause) × IsHeld clause pair }
        ensures sound { OnOk result (length clauses.now ≡ suc (length self.old.pairs.items) → (IsTrue settled → (number : ℕ) → number < length self.old.pairs.items → IsGuardedIn trail.now clauses.now self.old number)
            → ((number : ℕ) → HeldAs (slice_get clauses.now number) (pair_at self.old number)) → ((number : ℕ) → IsListedIn self.old number)
            → IsSound trail.now clauses.now self.new (length clauses.now)) }
        ensures before { OnOk result (IsTrue settled → (below : List OneEntry) → IsBelow below trail.now
            → ((number : ℕ) → number < length self.old.pairs.items → IsGuardedIn below clauses.now self.old number)
            → GuardedAs below (slice_get clauses.now (length self.old.pairs.items)) (Some pair)
            → (number : ℕ) → number < suc (length self.old.pairs.items) → IsGuardedIn below clauses.now self.new number) }
    {
        if !settled {
            *self = watches_of(alloc, trail, clauses)?;
            return Ok(());
        }
        self.candidates.clear();
        self.add(alloc, trail, clauses, pair)?;
        Ok(())
    }

    /// Lets the next clause watch these two of its literals, and looks at it.
    pub fn add(
        &mut self,
        alloc: Global,
        trail: &Trail,
        clauses: &Items<Clause>,
        pair: (u64, u64),
    ) -> Result<(), AllocError>
        requires { (clause : List ℕ) × (slice_get clauses.now (length self.old.pairs.items) ≡ Some clause) × IsHeld clause pair }
        ensures sound { OnOk result (IsSound trail.now clauses.now self.old (length self.old.pairs.items) → IsSound trail.now clauses.now self.new (suc (length self.old.pairs.items))) }
        ensures before { OnOk result ((below : List OneEntry) → IsBelow below trail.now
            → ((number : ℕ) → number < length self.old.pairs.items → IsGuardedIn below clauses.now self.old number)
            → GuardedAs below (slice_get clauses.now (length self.old.pairs.items)) (Some pair)
            → (number : ℕ) → number < suc (length self.old.pairs.items) → IsGuardedIn below clauses.now self.new number) }
    {
        let number = self.pairs.len() as u64;
        self.pairs.push(pair)?;
        self.lists.put_one(alloc, number, pair.1)?;
        self.renew(alloc, trail, clauses, number, pair)?;
        Ok(())
    }
}

/// Two literals of a clause: one of the last level, and one of this level, where it has such.
pub fn pair_of(trail: &Trail, level: u64, clause: &[u64]) -> (u64, u64)
    ensures held { IsHeld clause.now result }
    ensures last { (literal : ℕ) → has clause.now literal ≡ true → level_of trail.now literal ≡ level_now trail.now → level_of trail.now result.0 ≡ level_now trail.now }
    ensures level { (literal : ℕ) → has clause.now literal ≡ true → level_of trail.now literal ≡ level → level_of trail.now result.1 ≡ level }
{
    let last = literal_at(trail, trail.last_level(), clause);
    let other = literal_at(trail, level, clause);
    (last, other)
}

// A literal of this level, or else the first, or 0 where there is none.
fn literal_at(trail: &Trail, level: u64, clause: &[u64]) -> u64
    ensures held { (clause.now ≡ []) ⊎ (has clause.now result ≡ true) }
    ensures found { (literal : ℕ) → has clause.now literal ≡ true → level_of trail.now literal ≡ level → level_of trail.now result ≡ level }
{
    for literal in clause {
        if trail.level(*literal) == level {
            return *literal;
        }
    }
    first_of(clause)
}

/// The watches of all clauses on a trail.
pub fn watches_of(
    alloc: Global,
    trail: &Trail,
    clauses: &Items<Clause>,
) -> Result<Watches, AllocError>
    ensures { IfOk result (λ watches. IsSound trail.now clauses.now watches (length clauses.now)) }
{
    let mut watches = Watches {
        lists: Lists::new(alloc),
        pairs: Vec::new(alloc),
        candidates: Candidates::new(alloc),
    };
    for number in 0..clauses.len() {
        let literal = first_of(clauses.get(number).as_slice());
        watches.add(alloc, trail, clauses, (literal, literal))?;
    }
    Ok(watches)
}

/// The first literal of a clause, 0 where there is none.
pub fn first_of(clause: &[u64]) -> u64
    ensures { (clause.now ≡ []) ⊎ (has clause.now result ≡ true) }
{
    if clause.is_empty() { 0 } else { clause[0] }
}
