// What a report is of.
use fork_tree::Bounds;
use wasm_ast::{List, Text, Value};

/// What is explored: an export, its arguments, and within which bounds.
#[derive(Drop)]
pub struct Head {
    /// The name of the export.
    pub name: Text,
    pub args: List<Value>,
    pub bounds: Bounds,
}
