// Why a line is no row.
ghost use Rattle.std.specs.Prelude.{◌≡◌};
ghost use Rattle.path_report.specs.declared.bad.RowBad.TheVariants.{NoMemory};

use std::alloc::AllocError;
use thiserror::Error;

/// Why a line is no row.
#[derive(Clone, Copy, Debug, PartialEq, Eq, Error)]
pub enum RowBad {
    /// The line isn't the line `path` of a row that ends in an outcome.
    #[error("not the line of a path that ends in an outcome")]
    Spelling,
    /// Memory ran out.
    #[error("out of memory")]
    NoMemory,
}

impl From<AllocError> for RowBad {
    ghost from_gives = { λ _ bad. bad ≡ NoMemory };

    fn from(_wanting: AllocError) -> RowBad {
        RowBad::NoMemory
    }
}
