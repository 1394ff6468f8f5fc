// That the types may move between threads and be shared by them.
use crate::verdicts::{Pick, Verdict};

fn crosses<T: Send + Sync>(_x: &T) {}

/// A verdict may move between threads and be shared by them.
pub fn verdict_crosses(verdict: &Verdict) {
    crosses(verdict);
}

/// A pick may move between threads and be shared by them.
pub fn pick_crosses(pick: &Pick) {
    crosses(pick);
}
