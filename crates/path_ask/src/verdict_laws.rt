// Laws of verdicts.
ghost use Rattle.std.specs.Prelude.{◌≡◌, ℕ, Bool, List, None};
ghost use Rattle.refute_check.specs.Logs.{IsAccepted};
ghost use Rattle.refute_check.specs.declared.refutation.Refutation.{Refutation as OneRefutation};
ghost use Rattle.bit_blast.specs.Formulas.{Condition, formula};
ghost use Rattle.bit_blast.specs.Meanings.{AreProper};
ghost use Rattle.path_ask.specs.Verdicts.{IsVerdict, IsLeastInput, SomeMeets};
ghost use Rattle.path_ask.specs.declared.verdicts.Verdict.{Verdict as OneVerdict};
ghost use Rattle.path_ask.specs.declared.verdicts.Verdict.TheVariants.{Least as IsLeast, Dropped as IsDropped};

/// Each list of conditions has a verdict within so many conflicts, and no other one.
pub fn each_question_has_one_verdict()
    ensures some { (conditions : List Condition) (draws : List Bool) (bound : ℕ) → AreProper draws conditions → (verdict : OneVerdict) × IsVerdict conditions draws bound verdict }
    ensures one { (conditions : List Condition) (draws : List Bool) (bound : ℕ) (one other : OneVerdict)
        → IsVerdict conditions draws bound one → IsVerdict conditions draws bound other → one ≡ other }
{}

/// The input of a verdict is the least that meets the conditions. Where they are refuted, none does, and the log is accepted for
/// their formula.
pub fn verdicts_are_right()
    ensures least { (conditions : List Condition) (draws : List Bool) (bound : ℕ) (input : List ℕ) → AreProper draws conditions
        → IsVerdict conditions draws bound (IsLeast input) → IsLeastInput conditions draws input }
    ensures none { (conditions : List Condition) (draws : List Bool) (bound : ℕ) (refutation : OneRefutation) → AreProper draws conditions
        → IsVerdict conditions draws bound (IsDropped refutation) → SomeMeets conditions draws → ⊥ }
    ensures accepted { (conditions : List Condition) (draws : List Bool) (bound : ℕ) (refutation : OneRefutation) → AreProper draws conditions
        → IsVerdict conditions draws bound (IsDropped refutation) → IsAccepted (formula conditions draws None).clauses refutation.log }
{}
