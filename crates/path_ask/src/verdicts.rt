// What is found out about conditions on inputs.
use refute_check::Refutation;
use wasm_ast::List;

/// Whether an input meets conditions.
#[derive(Debug, Drop)]
pub enum Verdict {
    /// The least input that does, with one number for each draw, below 2^32 where the draw isn't wide.
    Least(List<u64>),
    /// None does: a formula that says so, and a log that refutes it.
    Dropped(Refutation),
    /// The solver counted as many conflicts as were allowed.
    Undecided,
}

/// The least value of a term at the inputs that meet conditions.
#[derive(Debug, Drop)]
pub enum Pick {
    /// The value, and the least input that gives it, with one number for each draw, below 2^32 where the draw isn't wide.
    Least { value: u64, input: List<u64> },
    /// The solver counted as many conflicts as were allowed.
    Undecided,
}
