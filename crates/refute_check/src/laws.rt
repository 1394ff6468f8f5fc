// Laws of the clause machine.
ghost use Rattle.std.specs.Prelude.{◌≡◌, ◌≤◌, ◌⊎◌, ℕ, List};
ghost use Rattle.refute_check.specs.Clauses.{Clause, Assignment, SatisfiesAll, IsUnsatisfiable};
ghost use Rattle.refute_check.specs.Logs.{IsAccepted};
ghost use Rattle.refute_check.specs.Machine.{State, Trail, On, Model, Refuted, turns, start, assigned, count_at, level_now};
ghost use Rattle.refute_check.specs.Latest.{latest, is_held, is_held_at};
ghost use Rattle.refute_check.specs.Orders.{NamesAll, AreSame, IsGreater};
ghost use Rattle.refute_check.specs.declared.logs.Chain.{Chain as OneChain};

/// No assignment meets clauses that a log refutes.
pub fn accepted_refutes()
    ensures { (clauses : List Clause) (log : List OneChain) → IsAccepted clauses log → IsUnsatisfiable clauses }
{}

/// The machine ends: after some turns it doesn't go on.
pub fn machine_ends()
    ensures { (clauses : List Clause) (order : List ℕ) (bound : ℕ) → NamesAll order clauses
        → (count : ℕ) × ((state : State) → turns order bound count (start clauses) ≡ On state → ⊥) }
{}

/// The log of a refutation is accepted.
pub fn refuted_is_accepted()
    ensures { (clauses : List Clause) (order : List ℕ) (bound count : ℕ) (log : List OneChain)
        → turns order bound count (start clauses) ≡ Refuted log → IsAccepted clauses log }
{}

/// A model meets the clauses, and every assignment that does is the same in the order or greater.
pub fn model_is_least()
    ensures meets { (clauses : List Clause) (order : List ℕ) (bound : ℕ) → NamesAll order clauses → (count : ℕ) (trail : Trail)
        → turns order bound count (start clauses) ≡ Model trail → SatisfiesAll (assigned trail) clauses }
    ensures least { (clauses : List Clause) (order : List ℕ) (bound : ℕ) → NamesAll order clauses → (count : ℕ) (trail : Trail)
        → turns order bound count (start clauses) ≡ Model trail → (other : Assignment) → SatisfiesAll other clauses
        → AreSame (assigned trail) other order ⊎ IsGreater order (assigned trail) other }
{}

/// Where a clause has a literal of the last level, the latest variable of that level that it holds and the latest variable that
/// it holds are one. So an analysis resolves on the latest variable of the last level.
pub fn latest_is_of_the_last_level()
    ensures { (clauses : List Clause) (order : List ℕ) (bound count : ℕ) (state : State) → turns order bound count (start clauses) ≡ On state
        → (clause : Clause) → 1 ≤ count_at state.trail (level_now state.trail) clause
        → latest (is_held_at (level_now state.trail) clause) state.trail ≡ latest (is_held clause) state.trail }
{}
