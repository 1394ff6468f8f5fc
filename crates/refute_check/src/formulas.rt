// Formulas in conjunctive normal form.
ghost use Rattle.std.specs.Prelude.{◌≡◌, IfOk};

use crate::items::Items;
use std::alloc::AllocError;

/// The literals of a clause: 2 v for the variable v, and 2 v + 1 for its negation. It says that one of them is true.
pub type Clause = Items<u64>;

/// A formula: all of its clauses are to be met.
#[derive(Debug, Drop)]
pub struct Cnf {
    /// How many variables there are. They are numbered from 1.
    pub vars: u64,
    /// The clauses, numbered from 0.
    pub clauses: Items<Clause>,
    /// The variables in the order in which a solver decides them.
    pub order: Items<u64>,
}

impl Clone for Cnf {
    ghost use Rattle.std.specs.Prelude.{◌≡◌};

    // A clone is equal.
    ghost is_clone = { λ x y. y ≡ x };

    fn clone(&self) -> Result<Cnf, AllocError> {
        let clauses = self.clauses.copy()?;
        let order = self.order.copy()?;
        Ok(Cnf {
            vars: self.vars,
            clauses,
            order,
        })
    }
}

impl Cnf {
    /// An equal formula.
    pub fn copy(&self) -> Result<Cnf, AllocError>
        ensures { IfOk result (λ formula. formula ≡ self.now) }
    {
        self.clone()
    }
}
