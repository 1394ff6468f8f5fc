// What gives bytes and what takes them.
ghost use Rattle.std.specs.Prelude.{◌≡◌, ◌↔◌, ℕ, ◌<◌, ◌≤◌, [], List, Option, length, take, drop, IfOk, OnErr, IfSome};
ghost use Rattle.std.specs.Io.KnownBytes.{Appends, Consumes, Keeps};
ghost use Rattle.owi_base.specs.Outside.{Rose};

/// A call to the outside failed. The count of faults of what was called shows it.
#[derive(Clone, Copy, Debug, PartialEq, Eq)]
pub struct Failed;

/// What gives bytes: a file, a stream, a list in memory.
pub trait Source {
    /// The bytes still to come, where the source tells them.
    ghost left: { Self → Option (List ℕ) };

    /// How many calls have failed. It never falls, and stays at the last value of a u64.
    ghost faults: { Self → ℕ };

    /// Puts the next bytes at the front of `into`, which isn't empty, and says how many: 0 only where none is left.
    /// A call that fails takes nothing from what is left.
    fn read(&mut self, into: &mut [u8]) -> Result<usize, Failed>
        requires { 0 < length into.old }
        ensures within { IfOk result (λ n. n ≤ length into.new) }
        ensures bytes { IfOk result (λ n. Consumes (left self.old) (left self.new) (take n into.new)) }
        ensures rest { IfOk result (λ n. drop n into.new ≡ drop n into.old) }
        ensures end { IfOk result (λ n. IfSome (left self.old) (λ bytes. n ≡ 0 ↔ (bytes ≡ []))) }
        ensures failed { OnErr result (Rose (faults self.old) (faults self.new)) }
        ensures kept { OnErr result (Keeps (left self.old) (left self.new)) }
        ensures never_falls { faults self.old ≤ faults self.new };
}

/// What takes bytes.
pub trait Sink {
    /// The bytes that were written, where the sink tells them.
    ghost written: { Self → Option (List ℕ) };

    /// How many calls have failed. It never falls, and stays at the last value of a u64.
    ghost faults: { Self → ℕ };

    /// Writes bytes from the front of `piece`, which isn't empty, and says how many: at least one. Where the sink tells
    /// what is written, a call that fails writes nothing.
    fn write(&mut self, piece: &[u8]) -> Result<usize, Failed>
        requires { 0 < length piece.now }
        ensures some { IfOk result (λ n. 0 < n) }
        ensures within { IfOk result (λ n. n ≤ length piece.now) }
        ensures bytes { IfOk result (λ n. Appends (written self.old) (written self.new) (take n piece.now)) }
        ensures failed { OnErr result (Rose (faults self.old) (faults self.new)) }
        ensures kept { OnErr result (Keeps (written self.old) (written self.new)) }
        ensures never_falls { faults self.old ≤ faults self.new };
}
