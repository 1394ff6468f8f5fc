// Logs of resolutions.
ghost use Rattle.std.specs.Prelude.{◌≡◌, IfOk};

use crate::items::Items;
use std::alloc::AllocError;

/// A chain of resolutions. It begins with a clause, and each step resolves the clause so far with one more.
///
/// The clauses of the formula have the numbers from 0, and the results of earlier chains of a log those after.
#[derive(Debug, Drop)]
pub struct Chain {
    /// The number of the clause that it begins with.
    pub start: u64,
    /// The number of a clause, and the variable to resolve on.
    pub steps: Items<(u64, u64)>,
}

impl Clone for Chain {
    ghost use Rattle.std.specs.Prelude.{◌≡◌};

    // A clone is equal.
    ghost is_clone = { λ x y. y ≡ x };

    fn clone(&self) -> Result<Chain, AllocError> {
        let steps = self.steps.copy()?;
        Ok(Chain {
            start: self.start,
            steps,
        })
    }
}

impl Chain {
    /// An equal chain.
    pub fn copy(&self) -> Result<Chain, AllocError>
        ensures { IfOk result (λ chain. chain ≡ self.now) }
    {
        self.clone()
    }
}

/// Chains, each of which may use the results of those before it.
pub type Log = Items<Chain>;

/// An equal log.
pub fn copy_log(log: &Log) -> Result<Log, AllocError>
    ensures { IfOk result (λ copy. copy ≡ log.now) }
{
    log.copy()
}
