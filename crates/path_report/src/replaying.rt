// Whether a row's input comes to the same again.
ghost use Rattle.std.specs.Prelude.{◌≡◌, ◌↔◌, IsTrue, IfOk, map};
ghost use Rattle.wasm_run.specs.Bounded.{CanRun};
ghost use Rattle.path_report.specs.Replays.{ComesTo, IsOutcomeKind, Replays, input_of};

use fork_tree::{Kind, Row};
use std::alloc::{AllocError, Global};
use wasm_ast::equals::Same;
use wasm_ast::{Outcome, Ran, Value};
use wasm_image::Image;
use wasm_run::run;

/// What the bounded run at a row's input says of the row.
#[derive(Drop)]
pub enum Replayed {
    /// It has the row's outcome and draws.
    Agrees,
    /// It has this outcome and these draws, and one of both isn't the row's.
    Differs(Ran),
}

/// Runs the function `entry` once more, at the numbers that a row says its symbols took, in at most `steps` units, from 1 to 10,000,000.
/// `Agrees` exactly where the run's outcome and draws are the row's, else `Differs` with those of the run. The only error is that memory
/// ran out.
pub fn replay(
    alloc: Global,
    image: &Image,
    entry: u32,
    args: &[Value],
    row: &Row,
    steps: u64,
) -> Result<Replayed, AllocError>
    requires { CanRun image.now entry args.now steps }
    ensures { IfOk result (Replays image.now entry args.now row.now steps) }
{
    let input = numbers_of(alloc, row)?;
    let ran = run(alloc, image, entry, args, input.as_slice(), steps)?;
    if comes_to(row, &ran) {
        return Ok(Replayed::Agrees);
    }
    Ok(Replayed::Differs(ran))
}

// The numbers that the row's symbols took.
fn numbers_of(alloc: Global, row: &Row) -> Result<Vec<u64>, AllocError>
    ensures { IfOk result (λ numbers. numbers.items ≡ input_of row.now) }
{
    row.draws
        .as_slice()
        .iter()
        .map(|draw| draw.value)
        .collect(alloc)
}

// Whether a run comes to what a row says.
fn comes_to(row: &Row, ran: &Ran) -> bool
    ensures { IsTrue result ↔ ComesTo row.now ran.now }
{
    is_kind_of(&row.kind, &ran.outcome) && row.draws.same(&ran.draws)
}

// Whether this kind of row is this outcome of a run.
fn is_kind_of(kind: &Kind, outcome: &Outcome) -> bool
    ensures { IsTrue result ↔ IsOutcomeKind kind.now outcome.now }
{
    match (kind, outcome) {
        (Kind::Returns(values), Outcome::Returns(results)) => values.same(results),
        (Kind::Traps(cause), Outcome::Traps(other)) => cause.same(other),
        (Kind::Fails, Outcome::Fails) => true,
        (Kind::Bound, Outcome::Bound) => true,
        (Kind::Deep, Outcome::Deep) => true,
        _ => false,
    }
}
