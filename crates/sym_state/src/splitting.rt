// The children of a state, and what is added to one.
ghost use Rattle.std.specs.Prelude.{◌≡◌, ℕ, Bool, ◌++◌, [], ◌∷◌, IfOk, IfErr, OnOk, OnErr, true, false};
ghost use Rattle.std.specs.Arc.{arc_value};
ghost use Rattle.bv_terms.specs.declared.words.Word.TheVariants.{Term as Numbered};
ghost use Rattle.bv_terms.specs.Graphs.{Holds};
ghost use Rattle.wasm_machine.specs.declared.next.Question.TheVariants.{Test, Pick, Assume};
ghost use Rattle.sym_state.specs.declared.config.Standing.TheVariants.{Asks};
ghost use Rattle.sym_state.specs.Nodes.{AreMet, IsMet, Node};
ghost use Rattle.sym_state.specs.NextNodes.{IsOther, bit, assumed, pick_side, test_side};
ghost use Rattle.sym_state.specs.States.{Least};
ghost use Rattle.sym_state.specs.Fields.{LeastIfGiven, StandsBefore, StandsFor, conditions_of, path_of, term_at, with_assumed, with_side};

use crate::config::Config;
use crate::path_state::PathState;
use bv_terms::{Cond, TermId};
use std::alloc::AllocError;
use std::sync::Arc;
use wasm_ast::List;
use wasm_image::Image;

/// A split for which there was no memory, with the state as it was.
#[derive(Drop)]
pub struct SplitNoMemory {
    pub state: PathState,
}

// The conditions and the choices of one side of a question.
#[derive(Drop)]
struct Sided {
    conds: List<Cond>,
    choices: List<u8>,
}

// What the second child of a split has of its own.
#[derive(Drop)]
struct Second {
    image: Arc<Image>,
    config: Config,
    draws: List<bool>,
    conds: List<Cond>,
    choices: List<u8>,
}

impl PathState {
    // The conditions and the choices, with those of a side.
    fn sided(&self, question: TermId, answer: bool) -> Result<Sided, AllocError>
        ensures conds { IfOk result (λ r. r.conds ≡ self.now.conds ++ record { term = question; answer = answer } ∷ []) }
        ensures choices { IfOk result (λ r. r.choices ≡ self.now.choices ++ bit answer ∷ []) }
    {
        let mut conds = self.conds.copy()?;
        conds.push(Cond {
            term: question,
            answer,
        })?;
        let mut choices = self.choices.copy()?;
        choices.push(u8::from(answer))?;
        Ok(Sided { conds, choices })
    }

    // What the children of a split have of their own, but for the graph.
    fn parts(&self, question: TermId) -> Result<(Sided, Second), AllocError>
        ensures first_conds { IfOk result (λ r. r.0.conds ≡ self.now.conds ++ record { term = question; answer = false } ∷ []) }
        ensures first_choices { IfOk result (λ r. r.0.choices ≡ self.now.choices ++ bit false ∷ []) }
        ensures conds { IfOk result (λ r. r.1.conds ≡ self.now.conds ++ record { term = question; answer = true } ∷ []) }
        ensures choices { IfOk result (λ r. r.1.choices ≡ self.now.choices ++ bit true ∷ []) }
        ensures image { IfOk result (λ r. arc_value r.1.image ≡ self.now.«module») }
        ensures config { IfOk result (λ r. r.1.config ≡ self.now.config) }
        ensures draws { IfOk result (λ r. r.1.draws ≡ self.now.draws) }
    {
        let first = self.sided(question, false)?;
        let Sided { conds, choices } = self.sided(question, true)?;
        let image = Arc::try_clone(&self.image)?;
        let config = self.config.copy(self.alloc)?;
        let draws = self.draws.copy()?;
        let second = Second {
            image,
            config,
            draws,
            conds,
            choices,
        };
        Ok((first, second))
    }

    // The two children of a state, field by field.
    fn halves(
        self,
        question: TermId,
        zero: List<u64>,
        one: List<u64>,
    ) -> Result<(PathState, PathState), SplitNoMemory>
        ensures first { IfOk result (λ both. both.0 ≡ with_side self question false zero) }
        ensures second { IfOk result (λ both. both.1 ≡ with_side self question true one) }
        ensures refused { IfErr result (λ refusal. refusal.state ≡ self) }
    {
        let Ok((first, second)) = self.parts(question) else {
            return Err(SplitNoMemory { state: self });
        };
        let Sided {
            conds: zero_conds,
            choices: zero_choices,
        } = first;
        let Second {
            image: one_image,
            config: one_config,
            draws: one_draws,
            conds: one_conds,
            choices: one_choices,
        } = second;
        let PathState {
            alloc,
            image,
            config,
            graph,
            conds,
            draws,
            least,
            choices,
            asks,
            units,
            broken,
        } = self;
        match graph.freeze() {
            Ok((graph, other)) => Ok((
                PathState {
                    alloc,
                    image,
                    config,
                    graph,
                    conds: zero_conds,
                    draws,
                    least: zero,
                    choices: zero_choices,
                    asks,
                    units,
                    broken,
                },
                PathState {
                    alloc,
                    image: one_image,
                    config: one_config,
                    graph: other,
                    conds: one_conds,
                    draws: one_draws,
                    least: one,
                    choices: one_choices,
                    asks,
                    units,
                    broken,
                },
            )),
            Err(graph) => Err(SplitNoMemory {
                state: PathState {
                    alloc,
                    image,
                    config,
                    graph,
                    conds,
                    draws,
                    least,
                    choices,
                    asks,
                    units,
                    broken,
                },
            }),
        }
    }

    /// The two sides of a question of a term: the first child supposes that the term is 0 and carries the input `zero`, the second
    /// that it isn't, and carries `one`. Each has its side's condition and its choice, and is else as the state.
    ///
    /// Where the state stands for a node at a Test of the term, the children stand for its sides before their answers. Where it
    /// stands at a Pick and the term says whether another number than a is picked, the first stands so for side 0, on which a is
    /// picked, and the second stands for side 1, which is at the same Pick. Where the input that is given is the least that meets
    /// a child's conditions, it is the least of its node.
    pub fn split(
        self,
        question: TermId,
        zero: List<u64>,
        one: List<u64>,
    ) -> Result<(PathState, PathState), SplitNoMemory>
        requires held { Holds self.graph (Numbered question) }
        requires zero_meets { AreMet zero (conditions_of self.graph self.conds) }
        requires zero_answers { IsMet zero (term_at self.graph question, false) }
        requires one_meets { AreMet one (conditions_of self.graph self.conds) }
        requires one_answers { IsMet one (term_at self.graph question, true) }
        ensures first { IfOk result (λ both. both.0 ≡ with_side self question false zero) }
        ensures second { IfOk result (λ both. both.1 ≡ with_side self question true one) }
        ensures tests { IfOk result (λ both. (n : Node) → StandsFor n self → self.config.standing ≡ Asks Test question →
            StandsBefore n (test_side n (term_at self.graph question) false) Test question both.0 × StandsBefore n (test_side n (term_at self.graph question) true) Test question both.1) }
        ensures picks { IfOk result (λ both. (n : Node) (t a : ℕ) → StandsFor n self → self.config.standing ≡ Asks Pick t → IsOther (term_at self.graph question) (term_at self.graph t) a →
            StandsBefore n (pick_side n (term_at self.graph question) a false) Pick t both.0 × StandsFor (pick_side n (term_at self.graph question) a true) both.1) }
        ensures least_of_tests { IfOk result (λ both. (n : Node) → StandsFor n self → self.config.standing ≡ Asks Test question →
            LeastIfGiven (test_side n (term_at self.graph question) false) both.0 × LeastIfGiven (test_side n (term_at self.graph question) true) both.1) }
        ensures least_of_picks { IfOk result (λ both. (n : Node) (t a : ℕ) → StandsFor n self → self.config.standing ≡ Asks Pick t → IsOther (term_at self.graph question) (term_at self.graph t) a →
            LeastIfGiven (pick_side n (term_at self.graph question) a false) both.0 × LeastIfGiven (pick_side n (term_at self.graph question) a true) both.1) }
        ensures refused { IfErr result (λ refusal. refusal.state ≡ self) }
    {
        self.halves(question, zero, one)
    }

    // The condition and the choice of a side are added.
    fn add_side(&mut self, question: TermId, answer: bool) -> Result<(), AllocError>
        ensures kept { OnOk result (self.new ≡ with_side self.old question answer self.old.least) }
        ensures refused { OnErr result (self.new ≡ self.old) }
    {
        let sided = self.sided(question, answer)?;
        self.conds = sided.conds;
        self.choices = sided.choices;
        Ok(())
    }

    /// One side of a question of a term, which the carried input is on: its condition and its choice are added. The state then stands
    /// for the node of that side as a child of a split does, and where the carried input was the node's least, it still is. A refusal
    /// changes nothing.
    pub fn keep(&mut self, question: TermId, answer: bool) -> Result<(), AllocError>
        requires held { Holds self.old.graph (Numbered question) }
        requires meets { IsMet self.old.least (term_at self.old.graph question, answer) }
        ensures kept { OnOk result (self.new ≡ with_side self.old question answer self.old.least) }
        ensures tests { OnOk result ((n : Node) → StandsFor n self.old → self.old.config.standing ≡ Asks Test question →
            StandsBefore n (test_side n (term_at self.old.graph question) answer) Test question self.new) }
        ensures picks { OnOk result ((n : Node) (t a : ℕ) → StandsFor n self.old → self.old.config.standing ≡ Asks Pick t → IsOther (term_at self.old.graph question) (term_at self.old.graph t) a → answer ≡ false →
            StandsBefore n (pick_side n (term_at self.old.graph question) a false) Pick t self.new) }
        ensures others { OnOk result ((n : Node) (t a : ℕ) → StandsFor n self.old → self.old.config.standing ≡ Asks Pick t → IsOther (term_at self.old.graph question) (term_at self.old.graph t) a → answer ≡ true →
            StandsFor (pick_side n (term_at self.old.graph question) a true) self.new) }
        ensures least_of_tests { OnOk result ((n : Node) → StandsFor n self.old → self.old.config.standing ≡ Asks Test question → Least n (path_of self.old) →
            Least (test_side n (term_at self.old.graph question) answer) (path_of self.new)) }
        ensures least_of_picks { OnOk result ((n : Node) (t a : ℕ) → StandsFor n self.old → self.old.config.standing ≡ Asks Pick t → IsOther (term_at self.old.graph question) (term_at self.old.graph t) a → Least n (path_of self.old) →
            Least (pick_side n (term_at self.old.graph question) a answer) (path_of self.new)) }
        ensures refused { OnErr result (self.new ≡ self.old) }
    {
        self.add_side(question, answer)
    }

    // The condition that a term isn't 0 is added, with an input that meets it.
    fn suppose(&mut self, term: TermId, least: List<u64>) -> Result<(), AllocError>
        ensures supposed { OnOk result (self.new ≡ with_assumed self.old term least) }
        ensures refused { OnErr result (self.new ≡ self.old) }
    {
        self.conds.push(Cond { term, answer: true })?;
        self.least = least;
        Ok(())
    }

    /// The condition that a term of an `assume` isn't 0 is added, and the carried input becomes this one. The state then stands for
    /// the node that goes on with the inputs that meet the assume, before its answer. A refusal changes nothing.
    pub fn assume(&mut self, term: TermId, least: List<u64>) -> Result<(), AllocError>
        requires held { Holds self.old.graph (Numbered term) }
        requires meets { AreMet least (conditions_of self.old.graph self.old.conds) }
        requires answers { IsMet least (term_at self.old.graph term, true) }
        ensures assumed { OnOk result (self.new ≡ with_assumed self.old term least) }
        ensures stands { OnOk result ((n : Node) → StandsFor n self.old → self.old.config.standing ≡ Asks Assume term →
            StandsBefore n (assumed n (term_at self.old.graph term)) Assume term self.new) }
        ensures least_given { OnOk result ((n : Node) → StandsFor n self.old → self.old.config.standing ≡ Asks Assume term →
            LeastIfGiven (assumed n (term_at self.old.graph term)) self.new) }
        ensures refused { OnErr result (self.new ≡ self.old) }
    {
        self.suppose(term, least)
    }
}
