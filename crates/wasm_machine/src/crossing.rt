// That the types may move between threads and be shared by them.
use crate::machine::Machine;
use crate::next::Next;

fn crosses<T: Send + Sync>(_x: &T) {}

/// A machine, and what a step says, may move between threads and be shared by them where the words may.
pub fn all_cross<W: Copy + Send + Sync>(machine: &Machine<W>, next: &Next<W>) {
    crosses(machine);
    crosses(next);
}
