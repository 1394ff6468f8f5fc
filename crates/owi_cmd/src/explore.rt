// Exploring a function of a module without imports: it makes no symbol, so it has one path.
ghost use Rattle.std.specs.Prelude.{◌≡◌, [], ◌∷◌, IfOk};
ghost use Rattle.wasm_image.specs.Entries.{IsEntry};
ghost use Rattle.owi_cmd.specs.Report.{report_of};
ghost use Rattle.owi_cmd.specs.Rows.{only_row as row_of, status_of as found_in, kind_of as path_kind};
ghost use Rattle.owi_cmd.specs.Sources.{SpellsReady, AnswersShort, IsOfSource};
ghost use Rattle.owi_cmd.specs.Words.{IsSpelled};
ghost use Rattle.owi_cmd.specs.declared.words.Command.TheVariants.{Explore};

use crate::entry::{Entry, read_entry};
use crate::report::{Bounds, Head, Kind, Row, is_found, report_text};
use crate::source::not_yet;
use crate::status::Status;
use crate::written::Written;
use std::alloc::{AllocError, Global};
use wasm_ast::{List, Outcome, Text, Value};
use wasm_run::run;

/// What is written of the function that the source exports by this name, with these arguments.
pub fn explore(
    alloc: Global,
    name: Text,
    args: List<Value>,
    bounds: Bounds,
    source: &[u8],
) -> Result<Written, AllocError>
    requires { IsSpelled (Explore name args bounds) }
    ensures answered { IfOk result (λ w. AnswersShort (Explore name args bounds) source.now w.status w.bytes.items) }
    ensures drained { IfOk result (λ w. IsOfSource w.status) }
{
    match read_entry(alloc, &name, args.as_slice(), source)? {
        Ok(entry) => explore_entry(alloc, name, args, bounds, source, &entry),
        Err(refusal) => Ok(refusal),
    }
}

// What is written of this function, which the module of the source exports by this name.
fn explore_entry(
    alloc: Global,
    name: Text,
    args: List<Value>,
    bounds: Bounds,
    source: &[u8],
    entry: &Entry,
) -> Result<Written, AllocError>
    requires spelled { IsSpelled (Explore name args bounds) }
    requires ready { SpellsReady source.now entry.now.image }
    requires entry { IsEntry entry.now.image name args entry.now.function }
    ensures answered { IfOk result (λ w. AnswersShort (Explore name args bounds) source.now w.status w.bytes.items) }
    ensures drained { IfOk result (λ w. IsOfSource w.status) }
{
    if !entry.image.module().imports.is_empty() {
        return Ok(not_yet(alloc)?);
    }
    let ran = run(
        alloc,
        &entry.image,
        entry.function,
        args.as_slice(),
        &[],
        bounds.steps,
    )?;
    Ok(report_of_run(alloc, name, args, bounds, ran.outcome)?)
}

// How a path without symbols ends.
fn kind_of(outcome: Outcome) -> Kind
    ensures { result ≡ path_kind outcome }
{
    match outcome {
        Outcome::Returns(values) => Kind::Returns(values),
        Outcome::Traps(cause) => Kind::Traps(cause),
        Outcome::Fails => Kind::Fails,
        Outcome::Assumes => Kind::Void,
        Outcome::Bound => Kind::Bound,
        Outcome::Deep => Kind::Deep,
    }
}

// The one row of a run without symbols.
fn only_row(alloc: Global, outcome: Outcome) -> Row
    ensures { result ≡ row_of outcome }
{
    Row {
        choices: List::new(Vec::new(alloc)),
        kind: kind_of(outcome),
        draws: List::new(Vec::new(alloc)),
    }
}

fn report_of_run(
    alloc: Global,
    name: Text,
    args: List<Value>,
    bounds: Bounds,
    outcome: Outcome,
) -> Result<Written, AllocError>
    ensures bytes { IfOk result (λ w. w.bytes.items ≡ report_of (record { name = name; args = args; bounds = bounds }) (row_of outcome ∷ [])) }
    ensures status { IfOk result (λ w. w.status ≡ found_in (row_of outcome ∷ [])) }
{
    let row = only_row(alloc, outcome);
    let status = if is_found(&row) {
        Status::Found
    } else {
        Status::Done
    };
    let head = Head { name, args, bounds };
    let mut rows = Vec::new(alloc);
    rows.push(row)?;
    let bytes = report_text(alloc, &head, rows.as_slice())?;
    Ok(Written { status, bytes })
}
