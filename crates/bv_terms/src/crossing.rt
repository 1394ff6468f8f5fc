// That the types may move between threads and be shared by them.
use crate::graph::Graph;
use crate::values::Marks;
use crate::words::{Cond, Form, Word};

fn crosses<T: Send + Sync>(_x: &T) {}

/// Graphs, what they are made of, and what walks them may move between threads and be shared by them.
pub fn all_cross(graph: &Graph, form: &Form, word: Word, cond: Cond, marks: &Marks) {
    crosses(graph);
    crosses(form);
    crosses(&word);
    crosses(&cond);
    crosses(marks);
}
