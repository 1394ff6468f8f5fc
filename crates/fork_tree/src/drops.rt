// Sides that an expansion drops.
use refute_check::Refutation;
use wasm_ast::List;

/// A side of a question that was left out, since no input is on it.
#[derive(Drop)]
pub struct Dropped {
    /// The choices of the node at the question.
    pub choices: List<u8>,
    /// How many questions of its run were answered before.
    pub ask: u64,
    /// What refutes the node's conditions with that of the side.
    pub refutation: Refutation,
}
