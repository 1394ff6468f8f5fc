// Laws of the solver.
ghost use Rattle.std.specs.Prelude.{◌≡◌, ℕ};
ghost use Rattle.refute_check.specs.declared.formulas.Cnf.{Cnf as Formula};
ghost use Rattle.clause_solver.specs.Answers.{IsFormula, IsAnswer};
ghost use Rattle.clause_solver.specs.declared.answer.Answer.{Answer as OneAnswer};

/// The clause machine gives an answer on each formula within so many conflicts, and no other one. So `solve` says `Spent` exactly
/// where the machine counts that many conflicts, a model exactly where it gives this one, and a log exactly where it gives
/// this one.
pub fn machine_gives_one_answer()
    ensures some { (cnf : Formula) (bound : ℕ) → IsFormula cnf → (answer : OneAnswer) × IsAnswer cnf bound answer }
    ensures one { (cnf : Formula) (bound : ℕ) (one other : OneAnswer) → IsAnswer cnf bound one → IsAnswer cnf bound other → one ≡ other }
{}
