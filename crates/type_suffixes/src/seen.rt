// Which lists a `br_table` has seen to be carried, so that it looks at labels that carry one list once.
ghost use Rattle.std.specs.Prelude.{◌≡◌, false, OnOk};
ghost use Rattle.type_suffixes.specs.declared.lists.Listed.{Listed as AnyList};
ghost use Rattle.type_suffixes.specs.Seen.{is_seen, IsPut};

use crate::lists::Listed;
use std::alloc::{AllocError, Global};
use std::collections::BTreeSet;

/// Which lists were seen to be carried. Those of no type or one are looked at each time.
#[derive(Drop)]
pub struct Seen {
    pub takes: BTreeSet<u32>,
    pub gives: BTreeSet<u32>,
}

impl Seen {
    /// None.
    pub fn new(alloc: Global) -> Seen
        ensures { (list : AnyList) → is_seen result list ≡ false }
    {
        Seen {
            takes: BTreeSet::new(alloc),
            gives: BTreeSet::new(alloc),
        }
    }

    /// Whether this was seen.
    pub fn has(&self, list: Listed) -> bool
        ensures { result ≡ is_seen self.now list }
    {
        match list {
            Listed::Nothing | Listed::One(_) => false,
            Listed::Takes(x) => self.takes.contains(&x),
            Listed::Gives(x) => self.gives.contains(&x),
        }
    }

    /// This was seen too.
    pub fn put(&mut self, list: Listed) -> Result<(), AllocError>
        ensures { OnOk result (IsPut list self.old self.new) }
    {
        match list {
            Listed::Nothing | Listed::One(_) => Ok(()),
            Listed::Takes(x) => {
                self.takes.insert(x)?;
                Ok(())
            }
            Listed::Gives(x) => {
                self.gives.insert(x)?;
                Ok(())
            }
        }
    }
}
