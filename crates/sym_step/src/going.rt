// From one question of a term to the next.
ghost use Rattle.std.specs.Prelude.{◌≡◌, ◌≢◌, ◌⊎◌, ℕ, ◌≤◌, ◌++◌, IfOk, OnErr, OnOk, Some, None, true, false};
ghost use Rattle.sym_state.specs.Nodes.{Node, most_steps};
ghost use Rattle.sym_state.specs.Fields.{StandsFor};
ghost use Rattle.sym_step.specs.Steps.{GoesOn, StandsSomewhere, stop_of};
ghost use Rattle.sym_step.specs.code.Turning.{CanRunOn, IsCarriedOn, IsRunOn, left_of, noted_on};

use crate::stops::Stop;
use crate::turns::turns;
use bv_terms::Word;
use std::alloc::{AllocError, Global};
use sym_state::cells::Cells;
use sym_state::{End, Execution, PathState, Standing};
use wasm_machine::machine::Machine;
use wasm_machine::next::Question;

/// Runs to the next question of a term, or to the end, in at most `steps` units, from 1 to 10,000,000, and 1,024 frames. Questions on
/// numbers are answered by them, and counted.
///
/// The state stands for a node with this bound on steps, or for one before its answer; or a call on it was refused. It then stands
/// for the node to which the answers of the numbers lead, at what is answered. Where it already stands at a question of a term, or at
/// its end, that is answered again, and nothing is changed. The only error is that memory ran out; then each later call answers so.
pub fn go(alloc: Global, s: &mut PathState, steps: u64) -> Result<Stop, AllocError>
    requires some { 1 ≤ steps }
    requires few { steps ≤ most_steps }
    requires somewhere { (s.old.broken ≡ true) ⊎ StandsSomewhere s.old steps }
    ensures goes { IfOk result (λ stop. (n : Node) → n.invocation.steps ≡ steps → StandsFor n s.old → GoesOn n s.old s.new stop) }
    ensures again { IfOk result (λ stop. stop_of s.old.config.standing ≢ None → (stop_of s.old.config.standing ≡ Some stop) × (s.new ≡ s.old)) }
    ensures whole { IfOk result (λ stop. (s.old.broken ≡ false) × (s.new.broken ≡ false)) }
    ensures refused { OnErr result (s.new.broken ≡ true) }
    ensures broken { s.old.broken ≡ true → s.new ≡ s.old }
{
    if s.broken {
        return Err(AllocError);
    }
    match advance(alloc, s, steps) {
        Ok(stop) => Ok(stop),
        Err(AllocError) => {
            s.broken = true;
            Err(AllocError)
        }
    }
}

// The same, but that a refusal isn't noted.
fn advance(alloc: Global, s: &mut PathState, steps: u64) -> Result<Stop, AllocError>
    requires somewhere { StandsSomewhere s.old steps }
    ensures goes { IfOk result (λ stop. (n : Node) → n.invocation.steps ≡ steps → StandsFor n s.old → GoesOn n s.old s.new stop) }
    ensures again { IfOk result (λ stop. stop_of s.old.config.standing ≢ None → (stop_of s.old.config.standing ≡ Some stop) × (s.new ≡ s.old)) }
    ensures whole { IfOk result (λ stop. s.new.broken ≡ s.old.broken) }
{
    if let Some(stop) = stop_at(alloc, &s.config.standing)? {
        return Ok(stop);
    }
    let Some(execution) = s.config.execution.take() else {
        unreachable!()
    };
    let stop = carry_on(alloc, s, execution, steps)?;
    Ok(stop)
}

// What is said of a run that stands there, where it stops.
fn stop_at(alloc: Global, standing: &Standing) -> Result<Option<Stop>, AllocError>
    ensures { IfOk result (λ stop. stop ≡ stop_of standing.now) }
{
    match standing {
        Standing::Goes => Ok(None),
        Standing::Answered(_, _, _) => Ok(None),
        Standing::Asks(Question::Test, t) => Ok(Some(Stop::Test(*t))),
        Standing::Asks(Question::Pick, t) => Ok(Some(Stop::Pick(*t))),
        Standing::Asks(Question::Assume, t) => Ok(Some(Stop::Assume(*t))),
        Standing::Ends(end) => {
            let end = end.copy(alloc)?;
            Ok(Some(Stop::End(end)))
        }
    }
}

// Carries the noted answer out, and runs to where the path stops.
fn carry_on(
    alloc: Global,
    s: &mut PathState,
    execution: Execution,
    steps: u64,
) -> Result<Stop, AllocError>
    requires { CanRunOn steps s.old execution }
    ensures { IfOk result (λ stop. IsCarriedOn steps s.old execution s.new stop) }
{
    let (standing, execution) = executed(alloc, s, execution, steps)?;
    let Some(stop) = stop_at(alloc, &standing)? else {
        unreachable!()
    };
    s.config.execution = left(&standing, execution);
    s.config.standing = standing;
    Ok(stop)
}

// Where the run stands then, and what is executed there.
fn executed(
    alloc: Global,
    s: &mut PathState,
    execution: Execution,
    steps: u64,
) -> Result<(Standing, Execution), AllocError>
    requires { CanRunOn steps s.old execution }
    ensures { IfOk result (λ r. IsRunOn steps s.old execution s.new r.1 r.0) }
{
    let Execution { machine, memory } = execution;
    let mut machine = machine;
    let mut cells = Cells { pages: memory };
    let standing = run_on(alloc, s, &mut machine, &mut cells, steps)?;
    let memory = cells.pages;
    Ok((standing, Execution { machine, memory }))
}

// The answer and the turns, on what is executed in its two parts.
fn run_on(
    alloc: Global,
    s: &mut PathState,
    machine: &mut Machine<Word>,
    cells: &mut Cells,
    steps: u64,
) -> Result<Standing, AllocError>
    requires { CanRunOn steps s.old (record { machine = machine.old; memory = cells.old }) }
    ensures { IfOk result (λ standing. IsRunOn steps s.old (record { machine = machine.old; memory = cells.old }) s.new (record { machine = machine.new; memory = cells.new }) standing) }
{
    carry_out(&s.config.standing, machine)?;
    let standing = turns(
        alloc,
        &s.image,
        steps,
        &mut s.graph,
        machine,
        cells,
        &mut s.draws,
        &mut s.asks,
        &mut s.units,
    )?;
    Ok(standing)
}

// The answer that is noted beside the question is the machine's next one.
fn carry_out(standing: &Standing, machine: &mut Machine<Word>) -> Result<(), AllocError>
    ensures { OnOk result (machine.new ≡ noted_on standing.now machine.old) }
{
    match standing {
        Standing::Answered(_, _, answer) => machine.note(*answer),
        _ => Ok(()),
    }
}

// What is left to execute: nothing where the last step ended the run.
fn left(standing: &Standing, execution: Execution) -> Option<Execution>
    ensures { result ≡ left_of standing.now execution }
{
    match standing {
        Standing::Ends(End::Returns(_) | End::Traps(_) | End::Fails) => None,
        _ => Some(execution),
    }
}
