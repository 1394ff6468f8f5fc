// Examples of nodes, computed.
ghost use Rattle.sym_state.specs.Examples.{NodeExamples};

/// The nodes of a run that takes an element of a table, at the place that a symbol says: its test and its pick, and some of their
/// members.
pub fn nodes_have_their_members()
    ensures { NodeExamples }
{}
