// Whether no path traps or fails.
ghost use Rattle.std.specs.Prelude.{◌≡◌, ◌==◌, ◌&&◌, not, codes};
ghost use Rattle.path_report.specs.Endings.{clean_enough, clean_ending};
ghost use Rattle.path_report.specs.Listeners.{no_rows};

use crate::counts::Counts;
use crate::listener::{Listener, Wish};
use fork_tree::Row;
use std::alloc::AllocError;

/// It stays as long as no row traps or fails, and then says `clean`.
#[derive(Drop)]
pub struct Clean {
    counts: Counts,
}

impl Clean {
    /// One that was told no row.
    pub fn new() -> Clean
        ensures { result.counts ≡ no_rows }
    {
        Clean {
            counts: Counts::new(),
        }
    }
}

impl Listener for Clean {
    ghost counts = { λ it. it.counts };

    ghost enough = { λ it. clean_enough };

    ghost ending = { λ it. clean_ending };

    fn row(&mut self, r: &Row) -> Result<Wish, AllocError> {
        self.counts.count(&r.kind);
        if self.counts.traps == 0 && self.counts.fails == 0 {
            Ok(Wish::More)
        } else {
            Ok(Wish::Enough)
        }
    }

    fn tail(&self) -> &[u8] {
        b"clean\n"
    }
}
