// How many rows of each kind a listener was told.
ghost use Rattle.std.specs.Prelude.{◌≡◌, ◌<◌, ◌^◌};
ghost use Rattle.path_report.specs.Listeners.{counted, no_rows, AreSmall};

use fork_tree::Kind;

/// How many rows of each kind there were.
#[derive(Clone, Copy, Debug, PartialEq, Eq)]
pub struct Counts {
    pub returns: u64,
    pub traps: u64,
    pub fails: u64,
    pub bound: u64,
    pub deep: u64,
    pub cut: u64,
    pub undecided: u64,
    pub void: u64,
}

impl Counts {
    /// No rows.
    pub fn new() -> Counts
        ensures { result ≡ no_rows }
    {
        Counts {
            returns: 0,
            traps: 0,
            fails: 0,
            bound: 0,
            deep: 0,
            cut: 0,
            undecided: 0,
            void: 0,
        }
    }

    /// One more row of a kind.
    pub fn count(&mut self, kind: &Kind)
        requires { AreSmall self.old }
        ensures { self.new ≡ counted self.old kind.now }
    {
        match kind {
            Kind::Returns(_) => self.returns += 1,
            Kind::Traps(_) => self.traps += 1,
            Kind::Fails => self.fails += 1,
            Kind::Bound => self.bound += 1,
            Kind::Deep => self.deep += 1,
            Kind::Cut => self.cut += 1,
            Kind::Undecided => self.undecided += 1,
            Kind::Void => self.void += 1,
        }
    }
}
