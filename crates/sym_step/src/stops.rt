// Where a path stops.
use bv_terms::TermId;
use sym_state::End;

/// Where a path stops: at a question of a term, or at its end.
#[derive(Drop)]
pub enum Stop {
    /// Whether the term isn't 0.
    Test(TermId),
    /// Which number the term is.
    Pick(TermId),
    /// Whether the term isn't 0, as an assumption.
    Assume(TermId),
    /// The run has ended.
    End(End),
}
