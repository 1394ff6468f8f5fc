// Laws of nodes.
ghost use Rattle.std.specs.Prelude.{◌≡◌, ◌≢◌, ℕ, Bool, true, false, List, [], ◌∷◌, ◌++◌};
ghost use Rattle.wasm_reduction.specs.Configurations.{Question, Test, Pick, Assume};
ghost use Rattle.wasm_rules.specs.Words.{numbers, taken};
ghost use Rattle.wasm_reduction.specs.Maps.{KeepsOperations};
ghost use Rattle.wasm_reduction.specs.Runs.{Going, On, Over, Stands, Trace};
ghost use Rattle.wasm_reduction.specs.Widths.{HasWidths};
ghost use Rattle.wasm_reduction.specs.RunImages.{BeginsWith, IsAnswered, KeepsSymbols, turned_image};
ghost use Rattle.bv_terms.specs.Terms.{HasBits, Term, value_of};
ghost use Rattle.bv_terms.specs.Making.{terms};
ghost use Rattle.sym_state.specs.States.{Follows, FollowsBefore, HasOver, IsAtQuestion, IsLeastGiven, Least, Path, over_terms, resumed, run_at, sided, supposed};
ghost use Rattle.sym_state.specs.Nodes.{AreMet, CanExplore, Invocation, IsMember, IsMet, Node, root};
ghost use Rattle.sym_state.specs.NextNodes.{IsExact, IsOther, MembersAnswer, MembersAsk, assumed, gone_on, pick_side, test_side};

/// Every input is a member of the root of a valid and ready module with fitting arguments, and meets its conditions, of which
/// there are none.
pub fn roots_are_exact()
    ensures { (i : Invocation) → CanExplore i → IsExact (root i) }
{}

/// An input meets the conditions of a node exactly where it is a member: where that holds of a node with a member, whose members
/// are next asked about a term, it holds of the nodes that follow. Those are the sides of a test; where an assume is met; the
/// sides of a pick, where a member picks the number on side 0; and the node that goes on, where all members answer alike and
/// no assume is failed.
pub fn conditions_say_who_is_a_member()
    ensures tests { (n : Node) (input : List ℕ) (t : Term) (side : Bool) → IsExact n → IsMember n input → MembersAsk n Test t → IsExact (test_side n t side) }
    ensures assumes { (n : Node) (input : List ℕ) (t : Term) → IsExact n → IsMember n input → MembersAsk n Assume t → IsExact (assumed n t) }
    ensures picks { (n : Node) (input : List ℕ) (t other : Term) (a : ℕ) → CanExplore n.invocation → IsExact n → IsMember n input → MembersAsk n Pick t → IsOther other t a → value_of input t ≡ a → IsExact (pick_side n other a false) }
    ensures others { (n : Node) (t other : Term) (a : ℕ) → IsExact n → MembersAsk n Pick t → IsOther other t a → IsExact (pick_side n other a true) }
    ensures goes_on { (n : Node) (input : List ℕ) (q : Question) (t : Term) (answer : ℕ) → CanExplore n.invocation → IsExact n → IsMember n input → MembersAsk n q t → MembersAnswer n q t answer → (q ≡ Assume → answer ≢ 0) → IsExact (gone_on n answer) }
{}

/// The value at an input keeps the operations on terms, of the operators' widths, and the symbols: what is made of terms has the
/// value that the operation gives of their values, and the k-th symbol is the input's k-th number.
pub fn values_keep_operations()
    ensures operations { (input : List ℕ) → KeepsOperations HasBits terms numbers (value_of input) }
    ensures symbols { (input : List ℕ) → KeepsSymbols HasBits (value_of input) terms.symbol (taken input) }
{}

/// The run over terms that is answered by a node's answers stands for the bounded runs of all its members: while it doesn't stand
/// at a question, its value at a member is what the member's run comes to after as many turns; and where it asks about a term,
/// each member's run next asks the same question, of the number that the term is there.
pub fn runs_over_terms_stand_for_all()
    ensures values { (n : Node) (input : List ℕ) (turns : ℕ) → CanExplore n.invocation → IsMember n input → IsAnswered (over_terms n turns) → run_at n input turns ≡ turned_image (value_of input) (over_terms n turns) }
    ensures asks { (n : Node) (q : Question) (t : Term) (turns : ℕ) (trace : Trace) → CanExplore n.invocation → over_terms n turns ≡ Over (Stands q t) trace → MembersAsk n q t }
{}

/// What the calls make of the state of a path stands for the next node. Where a path of a node stands at a question of a term, and
/// the inputs given meet the conditions and are on their sides: a side of a test, or side 0 of a pick, or the path that
/// supposes an assume, stands for its node before its answer, and side 1 of a pick for its node at once.
pub fn sides_stand_for_their_nodes()
    ensures tests { (n : Node) (p : Path) (t : Term) (side : Bool) (input : List ℕ) → CanExplore n.invocation → (h : Follows n p) → IsAtQuestion n h.place.turns Test t → AreMet input p.conditions → IsMet input (t, side) → FollowsBefore n (test_side n t side) Test t (sided p t side input) }
    ensures picks { (n : Node) (p : Path) (t other : Term) (a : ℕ) (input : List ℕ) → CanExplore n.invocation → (h : Follows n p) → IsAtQuestion n h.place.turns Pick t → IsOther other t a → AreMet input p.conditions → IsMet input (other, false) → FollowsBefore n (pick_side n other a false) Pick t (sided p other false input) }
    ensures others { (n : Node) (p : Path) (t other : Term) (a : ℕ) (input : List ℕ) → CanExplore n.invocation → (h : Follows n p) → IsAtQuestion n h.place.turns Pick t → IsOther other t a → AreMet input p.conditions → IsMet input (other, true) → Follows (pick_side n other a true) (sided p other true input) }
    ensures assumes { (n : Node) (p : Path) (t : Term) (input : List ℕ) → CanExplore n.invocation → (h : Follows n p) → IsAtQuestion n h.place.turns Assume t → AreMet input p.conditions → IsMet input (t, true) → FollowsBefore n (assumed n t) Assume t (supposed p t input) }
{}

/// An answer leads a path to the node that it stood for before that answer. Where all members answer a question alike, and no
/// assume is failed, it leads a path that stands for a node to the node that goes on.
pub fn answers_lead_on()
    ensures before { (n m : Node) (q : Question) (t : Term) (p : Path) (answer : ℕ) → CanExplore n.invocation → m.invocation ≡ n.invocation → m.answers ≡ n.answers ++ answer ∷ [] → FollowsBefore n m q t p → Follows m (resumed p answer) }
    ensures goes_on { (n : Node) (q : Question) (t : Term) (p : Path) (answer : ℕ) → CanExplore n.invocation → (h : Follows n p) → IsAtQuestion n h.place.turns q t → MembersAnswer n q t answer → (q ≡ Assume → answer ≢ 0) → Follows (gone_on n answer) (resumed p answer) }
{}

/// The words of a run over terms have their widths, and their symbols are among those that the run has drawn; so does a term
/// that it asks about.
pub fn terms_are_over_the_draws()
    ensures words { (n : Node) (turns : ℕ) (g : Going Term) → CanExplore n.invocation → over_terms n turns ≡ On g → HasWidths (HasOver g.trace.symbols) g.config }
    ensures asks { (n : Node) (q : Question) (t : Term) (turns : ℕ) (trace : Trace) → CanExplore n.invocation → over_terms n turns ≡ Over (Stands q t) trace → HasOver trace.symbols 32 t }
{}

/// Where the input that a path carries is the least that meets its conditions, over the symbols that it has drawn, it is the least
/// of the path's node: what its members draw before their next question or their end. So is it before an answer.
pub fn least_inputs_are_least()
    ensures follows { (n : Node) (p : Path) → CanExplore n.invocation → Follows n p → IsLeastGiven p.conditions p.draws p.least → Least n p }
    ensures before { (n m : Node) (q : Question) (t : Term) (p : Path) → CanExplore n.invocation → m.invocation ≡ n.invocation → BeginsWith m.answers n.answers → FollowsBefore n m q t p → IsLeastGiven p.conditions p.draws p.least → Least m p }
{}
