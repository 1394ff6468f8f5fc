// That the types may move between threads and be shared by them.
use crate::drops::Dropped;
use crate::rows::Row;

fn crosses<T: Send + Sync>(_x: &T) {}

/// A row may move between threads and be shared by them.
pub fn row_crosses(row: &Row) {
    crosses(row);
}

/// A dropped side may move between threads and be shared by them.
pub fn dropped_crosses(dropped: &Dropped) {
    crosses(dropped);
}
