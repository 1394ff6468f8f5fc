// Formulas that are known to be unsatisfiable.
ghost use Rattle.std.specs.Prelude.{◌≡◌};
ghost use Rattle.refute_check.specs.Clauses.{IsUnsatisfiable};
ghost use Rattle.refute_check.specs.Logs.{IsAccepted};

use crate::formulas::{Clause, Cnf};
use crate::items::Items;
use crate::logs::Log;

/// A formula with a log that refutes it. That there is one means that the log is accepted for the formula's clauses, and that no
/// assignment meets them.
#[derive(Debug, Drop)]
pub struct Refutation {
    pub(crate) cnf: Cnf,
    pub(crate) log: Log,
    pub ghost accepted: { ∥ IsAccepted cnf.clauses log ∥₁ },
    pub ghost refuted: { IsUnsatisfiable cnf.clauses },
}

impl Refutation {
    /// The log. It takes no memory.
    pub fn log(&self) -> &Log
        ensures same { result.now ≡ self.now.log }
        ensures accepted { IsAccepted self.now.cnf.clauses result.now }
    {
        &self.log
    }

    /// The clauses that the log refutes. It takes no memory.
    pub fn clauses(&self) -> &Items<Clause>
        ensures same { result.now ≡ self.now.cnf.clauses }
        ensures refuted { IsUnsatisfiable result.now }
    {
        &self.cnf.clauses
    }
}
