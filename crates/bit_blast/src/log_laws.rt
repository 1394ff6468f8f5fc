// What a log says of conditions.
ghost use Rattle.std.specs.Prelude.{ℕ, Bool, List, Option, All};
ghost use Rattle.bv_terms.specs.Terms.{Term as OneTerm};
ghost use Rattle.refute_check.specs.Logs.{IsAccepted};
ghost use Rattle.refute_check.specs.declared.logs.Chain.{Chain as OneChain};
ghost use Rattle.bit_blast.specs.Formulas.{Condition, formula};
ghost use Rattle.bit_blast.specs.Meanings.{AreProper, CanBeLeast, IsAnswered};
ghost use Rattle.bit_blast.specs.Inputs.{IsInput};

/// Where a log is accepted for the formula of conditions, no input meets them.
pub fn accepted_log_means_no_input()
    ensures { (conditions : List Condition) (draws : List Bool) (first : Option OneTerm) (log : List OneChain) → AreProper draws conditions → CanBeLeast draws first
        → IsAccepted (formula conditions draws first).clauses log → (input : List ℕ) → IsInput draws input → All (IsAnswered input) conditions → ⊥ }
{}
