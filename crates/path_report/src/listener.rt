// What is told the rows of a report.
ghost use Rattle.std.specs.Prelude.{◌≡◌, ℕ, Bool, List, IfOk, OnErr, true, false};
ghost use Rattle.path_report.specs.declared.counts.Counts.{Counts as AllCounts};
ghost use Rattle.path_report.specs.Listeners.{counted, AreSmall, is_enough};

use fork_tree::Row;
use std::alloc::AllocError;

/// Whether a listener wants to be told more rows.
#[derive(Clone, Copy, Debug, PartialEq, Eq)]
pub enum Wish {
    /// It does.
    More,
    /// It doesn't.
    Enough,
}

/// Something that is told the rows of a report, in order. What it holds is how many rows of each kind it was told.
pub trait Listener: Drop {
    /// How many rows of each kind it was told.
    ghost counts: { Self → AllCounts };

    /// At which counts it wants no more rows.
    ghost enough: { Self → AllCounts → Bool };

    /// What it says after all rows, at these counts.
    ghost ending: { Self → AllCounts → List ℕ };

    /// It is told a row. A refusal changes nothing.
    fn row(&mut self, r: &Row) -> Result<Wish, AllocError>
        requires few { AreSmall (counts self.old) }
        ensures counted { IfOk result (λ wish. counts self.new ≡ counted (counts self.old) r.now.kind) }
        ensures wish { IfOk result (λ wish. is_enough wish ≡ enough self.old (counts self.new)) }
        ensures same { (enough self.new ≡ enough self.old) × (ending self.new ≡ ending self.old) }
        ensures refused { OnErr result (counts self.new ≡ counts self.old) };

    /// What it says after all rows. It takes no memory.
    fn tail(&self) -> &[u8]
        ensures { result.now ≡ ending self.now (counts self.now) };
}
