// The turns of a path: in each the next step of the machine, its symbol or its answer.
ghost use Rattle.std.specs.Prelude.{◌≡◌, ◌≢◌, ◌+◌, ◌++◌, ◌∷◌, [], IfOk, OnOk, Some, None, length, ℕ, Bool as Flag, List as Items, true, false};
ghost use Rattle.wasm_rules.specs.Words.{Kept};
ghost use Rattle.wasm_reduction.specs.Configurations.{Assume};
ghost use Rattle.wasm_reduction.specs.Runs.{answer_of};
ghost use Rattle.bv_terms.specs.declared.words.Word.{Word as OneWord};
ghost use Rattle.bv_terms.specs.Terms.{Symbol};
ghost use Rattle.bv_terms.specs.Graphs.{Holds, Makes, term_of};
ghost use Rattle.wasm_image.specs.Hosts.{AreLinked};
ghost use Rattle.sym_state.specs.Nodes.{Node};
ghost use Rattle.sym_state.specs.States.{Path};
ghost use Rattle.sym_state.specs.Fields.{StandingHeld};
ghost use Rattle.sym_step.specs.code.Turning.{IsFree, IsHeld, IsHeldUnlessEnded, IsOf, RunsSomewhere, Settles, StandsThere, config_at, running};
ghost use Rattle.wasm_machine.specs.code.Moves.{pushed};
ghost use Rattle.wasm_machine.specs.Values.{question as question_of, valued};
ghost use Rattle.sym_step.specs.code.Ends.{ended};

use crate::results::results_of;
use bv_terms::{Graph, Word};
use std::alloc::{AllocError, Global};
use sym_state::cells::Cells;
use sym_state::{End, Standing};
use wasm_ast::List;
use wasm_image::Image;
use wasm_machine::bounds::{is_deep, is_spent};
use wasm_machine::machine::Machine;
use wasm_machine::next::{End as MachineEnd, Next, Question};
use wasm_machine::step::step;
use wasm_machine::values::Value;

/// One turn after another, to the next question of a term or to the end.
pub fn turns(
    alloc: Global,
    image: &Image,
    steps: u64,
    graph: &mut Graph,
    s: &mut Machine<Word>,
    memory: &mut Cells,
    draws: &mut List<bool>,
    asks: &mut u64,
    units: &mut u64,
) -> Result<Standing, AllocError>
    requires linked { AreLinked image.now }
    requires held { IsHeld graph.old s.old memory.old }
    requires somewhere { RunsSomewhere image.now steps (config_at image.now graph.old s.old memory.old) draws.old asks.old }
    ensures there { IfOk result (λ standing. (n : Node) (p : Path) → IsOf image.now steps n (running p (config_at image.now graph.old s.old memory.old) draws.old asks.old) →
        StandsThere image.now n p graph.new (record { machine = s.new; memory = memory.new }) draws.new asks.new units.new standing) }
    ensures order { IfOk result (λ standing. StandingHeld graph.new standing) }
    ensures held { IfOk result (λ standing. IsHeldUnlessEnded graph.new s.new memory.new standing) }
    ensures kept { IfOk result (λ standing. Kept Holds term_of graph.old graph.new) }
{
    'turning: loop {
        *units = s.units;
        if is_deep(graph, s) {
            return Ok(Standing::Ends(End::Deep));
        }
        if is_spent(graph, s, image.module(), steps) {
            return Ok(Standing::Ends(End::Bound));
        }
        match settle(alloc, image, graph, s, memory, asks)? {
            Next::Goes => continue 'turning,
            Next::Draws(wide) => {
                draw(graph, s, draws, wide)?;
                continue 'turning;
            }
            Next::Asks(_, Word::Num(_)) => return Ok(Standing::Ends(End::Void)),
            Next::Asks(q, Word::Term(t)) => return Ok(Standing::Asks(q, t)),
            Next::Ends(end) => {
                let end = end_of(alloc, end)?;
                return Ok(Standing::Ends(end));
            }
        }
    }
}

// Answers what the next instruction asks of numbers, and carries out its next step: no question of a number comes of it but an assume
// that the number fails.
fn settle(
    alloc: Global,
    image: &Image,
    graph: &mut Graph,
    s: &mut Machine<Word>,
    memory: &mut Cells,
    asks: &mut u64,
) -> Result<Next<Word>, AllocError>
    requires linked { AreLinked image.now }
    requires held { IsHeld graph.old s.old memory.old }
    requires somewhere { (steps : ℕ) × (draws : Items Flag) × IsFree steps (config_at image.now graph.old s.old memory.old)
        × RunsSomewhere image.now steps (config_at image.now graph.old s.old memory.old) draws asks.old }
    ensures kept { Kept Holds term_of graph.old graph.new }
    ensures settles { IfOk result (λ x. (steps : ℕ) (draws : Items Flag) → IsFree steps (config_at image.now graph.old s.old memory.old)
        → Settles image.now steps (config_at image.now graph.old s.old memory.old) draws asks.old graph.new s.new memory.new asks.new x) }
{
    'asking: loop {
        match step(alloc, graph, s, memory, image)? {
            Next::Goes => return Ok(Next::Goes),
            Next::Draws(wide) => return Ok(Next::Draws(wide)),
            Next::Asks(q, Word::Term(t)) => return Ok(Next::Asks(q, Word::Term(t))),
            Next::Asks(q, Word::Num(n)) => {
                if is_failed(q, n) {
                    return Ok(Next::Asks(q, Word::Num(n)));
                }
                s.note(answer(q, n))?;
                *asks += 1;
            }
            Next::Ends(end) => return Ok(Next::Ends(end)),
        }
    }
}

// The next symbol is drawn, and is the next operand.
fn draw(
    graph: &mut Graph,
    s: &mut Machine<Word>,
    draws: &mut List<bool>,
    wide: bool,
) -> Result<(), AllocError>
    ensures symbol { OnOk result ((w : OneWord) × Makes graph.old (Symbol (length draws.old) wide) w graph.new × (s.new ≡ pushed (valued wide w) s.old)) }
    ensures draws { OnOk result (draws.new ≡ draws.old ++ wide ∷ []) }
{
    let w = graph.symbol(draws.len() as u64, wide)?;
    s.push(Value::of_word(wide, w))?;
    draws.push(wide)?;
    Ok(())
}

// Whether it is an assume that the number fails.
fn is_failed(q: Question, n: u64) -> bool
    ensures fails { result ≡ true → (question_of q ≡ Assume) × (n ≡ 0) }
    ensures passes { result ≡ false → question_of q ≡ Assume → n ≢ 0 }
{
    match q {
        Question::Assume => n == 0,
        _ => false,
    }
}

// How a number answers a question: 1 where it isn't 0, and a pick by itself.
fn answer(q: Question, n: u64) -> u64
    ensures { result ≡ answer_of (question_of q) n }
{
    match q {
        Question::Pick => n,
        Question::Test => (n != 0) as u64,
        Question::Assume => (n != 0) as u64,
    }
}

// How the run ends.
fn end_of(alloc: Global, end: MachineEnd<Word>) -> Result<End, AllocError>
    requires { ended end ≢ None }
    ensures { IfOk result (λ e. ended end ≡ Some e) }
{
    match end {
        MachineEnd::Returns(values) => {
            let results = results_of(alloc, values.as_slice())?;
            Ok(End::Returns(List::new(results)))
        }
        MachineEnd::Traps(cause) => Ok(End::Traps(cause)),
        MachineEnd::Fails => Ok(End::Fails),
        MachineEnd::Assumes => unreachable!(),
        MachineEnd::Stuck => unreachable!(),
    }
}
