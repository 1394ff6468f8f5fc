// That the types may move between threads and be shared by them.
use crate::pages::Pages;

fn crosses<T: Send + Sync>(_x: &T) {}

/// A list of cells may move between threads and be shared by them.
pub fn pages_cross(pages: &Pages) {
    crosses(pages);
}
