// That the types may move between threads and be shared by them.
use crate::answer::Answer;

fn crosses<T: Send + Sync>(_x: &T) {}

/// An answer may move between threads and be shared by them.
pub fn answer_crosses(answer: &Answer) {
    crosses(answer);
}
