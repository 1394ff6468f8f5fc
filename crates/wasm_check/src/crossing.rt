// That the types may move between threads and be shared by them.
use crate::checked::Checked;

fn crosses<T: Send + Sync>(_x: &T) {}

/// A checked module may move between threads and be shared by them.
pub fn checked_crosses(checked: &Checked) {
    crosses(checked);
}
