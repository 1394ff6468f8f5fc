// Laws of the tree of paths.
ghost use Rattle.std.specs.Prelude.{◌≡◌, ℕ, Bool, List};
ghost use Rattle.wasm_reduction.specs.Runs.{MeetsAssumptions};
ghost use Rattle.sym_state.specs.Nodes.{Invocation, CanExplore, Node, root};
ghost use Rattle.fork_tree.specs.declared.rows.Row.{Row as OneRow};
ghost use Rattle.refute_check.specs.declared.refutation.Refutation.{Refutation};
ghost use Rattle.wasm_reduction.specs.Scripts.{Script, drawn, widths};
ghost use Rattle.fork_tree.specs.Marks.{Words, Marks, AreWords, AreMarks};
ghost use Rattle.fork_tree.specs.Nodes.{IsLeastAt, Query};
ghost use Rattle.fork_tree.specs.Refutations.{IsBelow, IsLeftOut, IsRefutedBy, side_conditions};
ghost use Rattle.fork_tree.specs.Tree.{Rows, IsTree, Tree, leaves, rows_of};
ghost use Rattle.fork_tree.specs.Covers.{Covers, OneOf, OneAtMost};
ghost use Rattle.fork_tree.specs.Order.{Rising, EachLeaf, PrintsItsLeast, TellsOutcome};

/// A node has at most one list of rows.
pub fn rows_are_unique()
    ensures { (words : Words) (marks : Marks) (F : ℕ) (n : Node) → CanExplore n.invocation → (rows others : List OneRow) → Rows words marks F n rows → Rows words marks F n others → rows ≡ others }
{}

/// Each input that meets its assumptions is covered by exactly one leaf of the tree below the root, and each other input by one
/// at most.
pub fn each_input_is_covered_once()
    ensures one { (words : Words) (marks : Marks) (F : ℕ) (i : Invocation) (t : Tree) → CanExplore i → IsTree words marks F t (root i) → (input : List ℕ) → MeetsAssumptions i.module i.entry i.args input i.steps → OneOf (Covers input) (leaves t) }
    ensures at_most { (words : Words) (marks : Marks) (F : ℕ) (i : Invocation) (t : Tree) → CanExplore i → IsTree words marks F t (root i) → (input : List ℕ) → OneAtMost (Covers input) (leaves t) }
{}

/// The choices of the rows rise strictly, 0 before 1, and none's begin with another's.
pub fn rows_are_in_order()
    ensures { (words : Words) (marks : Marks) (F : ℕ) (i : Invocation) (t : Tree) → IsTree words marks F t (root i) → Rising (rows_of (leaves t)) }
{}

/// The input that a row prints is the least of its node, and the run of that input has the outcome of the row. Undecided and
/// void rows print none.
pub fn rows_print_the_least()
    ensures { (words : Words) (marks : Marks) (F : ℕ) (i : Invocation) (t : Tree) → CanExplore i → IsTree words marks F t (root i) → EachLeaf PrintsItsLeast (leaves t) }
{}

/// A row of an outcome says how the run of each input that it covers ends, but for the numbers of results; and the run of the
/// input that it prints has exactly the row's outcome and draws, so that the row can be replayed.
pub fn rows_tell_their_runs()
    ensures { (words : Words) (marks : Marks) (F : ℕ) (i : Invocation) (t : Tree) → CanExplore i → IsTree words marks F t (root i) → EachLeaf TellsOutcome (leaves t) }
{}

/// At the root and at every node below it, the side that is left out of a question about a term, a test or a pick, or an assume
/// that no member meets, is refuted: the clause machine refutes the formula of the node's conditions with that of the side, and
/// its log is accepted.
pub fn left_out_sides_are_refuted()
    ensures { (words : Words) (marks : Marks) (F bound : ℕ) (i : Invocation) → CanExplore i → AreWords i words → AreMarks words bound marks
        → (nodes : List Node) (n : Node) → IsBelow words marks F nodes (root i) n
        → (left : Script) → IsLeastAt n left → (q : Query) (side : Bool) → IsLeftOut words marks n left q side
        → (refutation : Refutation) × IsRefutedBy (side_conditions words n q side) (widths (drawn left)) bound refutation }
{}
