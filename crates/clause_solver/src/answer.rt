// What the solver answers.
use refute_check::{Items, Log};

/// What a solver found out about a formula.
#[derive(Debug, Drop)]
pub enum Answer {
    /// The values of the variables, from the first on: the least in the decision order that meet the formula.
    Model(Items<bool>),
    /// A log that refutes the formula.
    Refuted(Log),
    /// As many conflicts as were allowed have been counted.
    Spent,
}
