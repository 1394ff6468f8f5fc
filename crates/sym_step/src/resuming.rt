// The answer to a question.
ghost use Rattle.std.specs.Prelude.{◌≡◌, ◌++◌, ℕ, [], ◌∷◌};
ghost use Rattle.wasm_machine.specs.Values.{question as question_of};
ghost use Rattle.wasm_machine.specs.declared.next.Question.{Question as OneQuestion};
ghost use Rattle.sym_state.specs.Nodes.{Node};
ghost use Rattle.sym_state.specs.NextNodes.{gone_on};
ghost use Rattle.sym_state.specs.States.{Least};
ghost use Rattle.sym_state.specs.Fields.{StandsBefore, StandsFor, path_of};
ghost use Rattle.sym_step.specs.Steps.{IsAnswer, StandsSomewhere, with_noted};

use sym_state::{PathState, Standing};

/// The question at which the state stands is answered: the answer is noted beside it, and the next `go` carries it out. It takes no
/// memory. Each input that meets the state's conditions gives this answer, which is 0 or 1 for a Test, 1 for an Assume, and the number
/// for a Pick.
///
/// A state that stood for a node before this answer stands for that node. One that stood for a node at this question stands for the
/// node that goes on. Where the carried input was the least, it still is.
pub fn resume(s: &mut PathState, answer: u64)
    requires somewhere { (steps : ℕ) × StandsSomewhere s.old steps }
    requires answers { IsAnswer s.old answer }
    ensures noted { s.new ≡ with_noted s.old answer }
    ensures before { (n m : Node) (q : OneQuestion) (t : ℕ) → StandsBefore n m q t s.old → m.answers ≡ n.answers ++ answer ∷ [] → StandsFor m s.new }
    ensures goes_on { (n : Node) → StandsFor n s.old → StandsFor (gone_on n answer) s.new }
    ensures least_before { (m : Node) → Least m (path_of s.old) → Least m (path_of s.new) }
    ensures least { (n : Node) → StandsFor n s.old → Least n (path_of s.old) → Least (gone_on n answer) (path_of s.new) }
{
    if let Standing::Asks(q, t) = &s.config.standing {
        s.config.standing = Standing::Answered(*q, *t, answer);
        s.asks += 1;
    }
}
