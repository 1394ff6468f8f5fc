// That the types may move between threads and be shared by them.
use crate::formulas::Cnf;
use crate::items::Items;
use crate::logs::Log;
use crate::refutation::Refutation;

fn crosses<T: Send + Sync>(_x: &T) {}

/// A list may move between threads and be shared by them where its items may.
pub fn list_crosses<T: Send + Sync>(list: &Items<T>) {
    crosses(list);
}

/// So may a formula, a log and a refutation, with all that is inside them.
pub fn all_cross(formula: &Cnf, log: &Log, refutation: &Refutation) {
    crosses(formula);
    crosses(log);
    crosses(refutation);
}
