// The state of the machine, and its turns.
ghost use Rattle.std.specs.Prelude.{◌≡◌, ◌+◌, ◌++◌, ◌∷◌, [], ◌^◌, ◌<◌, ◌≤◌, ℕ, List, Some, None, IsTrue, IfOk, OnOk, length, slice_get};
ghost use Rattle.refute_check.specs.Clauses.{variable_of};
ghost use Rattle.refute_check.specs.Machine.{On as GoesOn, level_now, highest_but as highest_of, count_at as count_of, cut as cut_to, entry_of, turn as turn_of, conflict as conflict_of, decide as decide_of, puts as puts_of, unset as unset_of, start as start_of};
ghost use Rattle.refute_check.specs.Orders.{Names};
ghost use Rattle.refute_check.specs.Rising.{Rises, level_after};
ghost use Rattle.clause_solver.specs.code.Turned.{seen, IsTurn, IsWatched};
ghost use Rattle.clause_solver.specs.code.Watching.{opposite};
ghost use Rattle.clause_solver.specs.code.Guarding.{AreGuarded, WereGuarded};
ghost use Rattle.clause_solver.specs.code.Renewing.{IsSound};

use crate::analysis::{Until, analysed, count_at, highest_but};
use crate::literals::Literals;
use crate::rules::unset;
use crate::trail::{Entry, Trail};
use crate::watches::{Watches, pair_of, watches_of};
use refute_check::{Chain, Clause, Items, Log};
use std::alloc::{AllocError, Global};

/// What a turn came to.
#[derive(Clone, Copy, Debug, PartialEq, Eq)]
pub enum Turned {
    /// The machine goes on.
    On,
    /// The trail is a model.
    Model,
    /// The log refutes the formula.
    Refuted,
    /// The conflicts are spent.
    Spent,
}

/// The clauses, of which those that were learnt come last, with the trail and the chains of what was learnt.
#[derive(Drop)]
pub struct State {
    pub clauses: Items<Clause>,
    pub trail: Trail,
    pub log: Log,
    /// How many conflicts were counted.
    pub conflicts: u64,
    /// Which clauses watch which literals, and which are falsified or force one.
    pub watches: Watches,
    /// The literals of a clause that is being resolved.
    pub literals: Literals,
    /// So many variables of the order are set.
    pub ahead: usize,
    /// Whether it is known that before each decision every clause was true, or what it watches was unset.
    pub settled: bool,
}

impl State {
    pub fn start(alloc: Global, clauses: Items<Clause>) -> Result<State, AllocError>
        ensures seen { IfOk result (λ state. seen state ≡ start_of clauses) }
        ensures watched { IfOk result (λ state. (order : List ℕ) → IsWatched order state) }
    {
        let trail = Trail::new(alloc);
        let watches = watches_of(alloc, &trail, &clauses)?;
        Ok(State {
            clauses,
            trail,
            log: Items::new(Vec::new(alloc)),
            conflicts: 0,
            watches,
            literals: Literals::new(alloc),
            ahead: 0,
            settled: true,
        })
    }

    /// Carries out the first rule that fits.
    pub fn turn(&mut self, alloc: Global, order: &[u64], bound: u64) -> Result<Turned, AllocError>
        requires rises { Rises self.old.trail }
        requires left { self.old.conflicts < bound }
        requires small { (variable : ℕ) → Names order.now variable → variable < 2 ^ 63 }
        requires watched { IsWatched order.now self.old }
        ensures turned { IfOk result (λ turned. IsTurn turned self.new (turn_of order.now bound (seen self.old))) }
        ensures watched { OnOk result (IsWatched order.now self.new) }
    {
        if let Some(number) = self
            .watches
            .candidates
            .first_falsified(&self.trail, &self.clauses)
        {
            let turned = self.conflict(alloc, number, bound)?;
            return Ok(turned);
        }
        if let Some((number, literal)) = self
            .watches
            .candidates
            .first_forcing(&self.trail, &self.clauses)
        {
            let level = self.trail.last_level();
            let reason = Some(number as u64);
            self.put(
                alloc,
                Entry {
                    literal,
                    level,
                    reason,
                },
            )?;
            return Ok(Turned::On);
        }
        let turned = self.decide(alloc, order)?;
        Ok(turned)
    }

    // A clause is falsified.
    fn conflict(&mut self, alloc: Global, number: usize, bound: u64) -> Result<Turned, AllocError>
        requires clause { (clause : List ℕ) × (slice_get self.old.clauses number ≡ Some clause) }
        requires left { self.old.conflicts < bound }
        requires count { length self.old.watches.pairs.items ≡ length self.old.clauses }
        ensures turned { IfOk result (λ turned. (clause : List ℕ) → slice_get self.old.clauses number ≡ Some clause → IsTurn turned self.new (conflict_of bound (seen self.old) (number, clause))) }
        ensures watched { OnOk result ((order : List ℕ) → IsWatched order self.old → IsWatched order self.new) }
    {
        let clause = self.clauses.get(number).copy()?;
        let start = number as u64;
        if !self.trail.has_decision() {
            let learnt = analysed(
                alloc,
                self.clauses.as_slice(),
                &self.trail,
                &mut self.literals,
                clause,
                Until::Empty,
            )?;
            self.log.push(Chain {
                start,
                steps: learnt.steps,
            })?;
            return Ok(Turned::Refuted);
        }
        if self.conflicts + 1 >= bound {
            return Ok(Turned::Spent);
        }
        let learnt = analysed(
            alloc,
            self.clauses.as_slice(),
            &self.trail,
            &mut self.literals,
            clause,
            Until::Learnt,
        )?;
        let last = self.trail.last_level();
        let level = highest_but(&self.trail, last, learnt.clause.as_slice());
        self.log.push(Chain {
            start,
            steps: learnt.steps,
        })?;
        self.conflicts += 1;
        self.learn(alloc, learnt.clause, level)?;
        Ok(Turned::On)
    }

    // Cuts the trail to the highest level of a clause's other literals, and appends the clause.
    fn learn(&mut self, alloc: Global, clause: Clause, level: u64) -> Result<(), AllocError>
        requires level { level ≡ highest_of self.old.trail (level_now self.old.trail) clause }
        requires count { length self.old.watches.pairs.items ≡ length self.old.clauses }
        ensures learnt { OnOk result ((self.new.clauses ≡ self.old.clauses ++ clause ∷ []) × (self.new.trail ≡ cut_to level self.old.trail)
            × (self.new.log ≡ self.old.log) × (self.new.conflicts ≡ self.old.conflicts)) }
        ensures watched { OnOk result ((order : List ℕ) → IsWatched order self.old → IsWatched order self.new) }
    {
        let settled = self.stays_settled(clause.as_slice(), level);
        let pair = pair_of(&self.trail, level, clause.as_slice());
        self.trail.cut(level);
        self.clauses.push(clause)?;
        self.ahead = 0;
        self.settled = settled;
        self.watches
            .learn(alloc, &self.trail, &self.clauses, pair, settled)?;
        Ok(())
    }

    // Whether no clause but this one can do anything once it is learnt, on the trail up to this level: it has a literal of the
    // last level, which is higher.
    fn stays_settled(&self, clause: &[u64], level: u64) -> bool
        ensures { IsTrue result → (IsTrue self.now.settled) × (level < level_now self.now.trail) × (1 ≤ count_of self.now.trail (level_now self.now.trail) clause.now) }
    {
        let last = self.trail.last_level();
        self.settled && level < last && count_at(&self.trail, last, clause) >= 1
    }

    // Decides on the first variable that is unset, if there is one.
    fn decide(&mut self, alloc: Global, order: &[u64]) -> Result<Turned, AllocError>
        requires rises { Rises self.old.trail }
        requires small { (variable : ℕ) → Names order.now variable → variable < 2 ^ 63 }
        requires watched { IsWatched order.now self.old }
        requires guarded { AreGuarded self.old.trail self.old.clauses self.old.watches.pairs.items }
        ensures turned { IfOk result (λ turned. IsTurn turned self.new (decide_of (seen self.old) (unset_of self.old.trail order.now))) }
        ensures watched { OnOk result (IsWatched order.now self.new) }
    {
        let Some(variable) = unset(&self.trail, order, &mut self.ahead) else {
            return Ok(Turned::Model);
        };
        let literal = 2 * variable + 1;
        let level = self.trail.next_level();
        self.put(
            alloc,
            Entry {
                literal,
                level,
                reason: None,
            },
        )?;
        Ok(Turned::On)
    }

    // Puts the entry of a variable that has none on the trail, and looks at the clauses that this may touch.
    fn put(&mut self, alloc: Global, entry: Entry) -> Result<(), AllocError>
        requires free { entry_of self.old.trail (variable_of entry.literal) ≡ None }
        requires sound { IsSound self.old.trail self.old.clauses self.old.watches (length self.old.clauses) }
        ensures put { OnOk result (puts_of (seen self.old) entry ≡ GoesOn (seen self.new)) }
        ensures watched { OnOk result ((order : List ℕ) → IsWatched order self.old → entry.level ≡ level_after entry.reason self.old.trail
            → WereGuarded entry.reason self.old.trail self.old.clauses self.old.watches.pairs.items → IsWatched order self.new) }
    {
        self.trail.put(entry)?;
        self.watches.visit_all(
            alloc,
            &self.trail,
            &self.clauses,
            opposite_of(entry.literal),
        )?;
        Ok(())
    }
}

fn opposite_of(literal: u64) -> u64
    ensures { result ≡ opposite literal }
{
    if literal % 2 == 0 {
        literal + 1
    } else {
        literal - 1
    }
}
