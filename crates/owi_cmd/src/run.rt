// Running a function of a module once, on an input.
ghost use Rattle.std.specs.Prelude.{◌≡◌, ◌++◌, IfOk, OnOk, codes, map, string_bytes};
ghost use Rattle.wasm_image.specs.Entries.{IsEntry};
ghost use Rattle.owi_cmd.specs.Report.{line, draw_text, list_text};
ghost use Rattle.owi_cmd.specs.RunText.{run_text as text_of_run, run_head_text, export_text, args_text, steps_text, outcome_text, status_of_run};
ghost use Rattle.owi_cmd.specs.Sources.{SpellsReady, AnswersShort, IsOfSource};
ghost use Rattle.owi_cmd.specs.Words.{IsSpelled};
ghost use Rattle.owi_cmd.specs.declared.words.Command.TheVariants.{Run};

use crate::entry::{Entry, read_entry};
use crate::report::{cause_words, put_list, put_name};
use crate::status::Status;
use crate::words::RunOptions;
use crate::written::Written;
use std::alloc::{AllocError, Global};
use wasm_ast::{Draw, List, Outcome, Ran, Text, Value};
use wasm_run::run;

/// What is written of one run of the function that the source exports by this name, with these arguments.
pub fn run_once(
    alloc: Global,
    name: Text,
    args: List<Value>,
    options: RunOptions,
    source: &[u8],
) -> Result<Written, AllocError>
    requires { IsSpelled (Run name args options) }
    ensures answered { IfOk result (λ w. AnswersShort (Run name args options) source.now w.status w.bytes.items) }
    ensures drained { IfOk result (λ w. IsOfSource w.status) }
{
    match read_entry(alloc, &name, args.as_slice(), source)? {
        Ok(entry) => run_entry(alloc, &name, &args, &options, source, &entry),
        Err(refusal) => Ok(refusal),
    }
}

// What is written of this function, which the module of the source exports by this name.
fn run_entry(
    alloc: Global,
    name: &Text,
    args: &List<Value>,
    options: &RunOptions,
    source: &[u8],
    entry: &Entry,
) -> Result<Written, AllocError>
    requires spelled { IsSpelled (Run name.now args.now options.now) }
    requires ready { SpellsReady source.now entry.now.image }
    requires entry { IsEntry entry.now.image name.now args.now entry.now.function }
    ensures answered { IfOk result (λ w. AnswersShort (Run name.now args.now options.now) source.now w.status w.bytes.items) }
    ensures drained { IfOk result (λ w. IsOfSource w.status) }
{
    let steps = options.steps;
    let ran = run(
        alloc,
        &entry.image,
        entry.function,
        args.as_slice(),
        options.input.as_slice(),
        steps,
    )?;
    let bytes = run_text(alloc, name, args.as_slice(), steps, &ran)?;
    Ok(Written {
        status: status_of(&ran.outcome),
        bytes,
    })
}

// Whether something was found: the run traps or fails.
fn status_of(outcome: &Outcome) -> Status
    ensures { result ≡ status_of_run outcome.now }
{
    match outcome {
        Outcome::Traps(_) | Outcome::Fails => Status::Found,
        _ => Status::Done,
    }
}

// The lines that tell the run.
fn run_text(
    alloc: Global,
    name: &Text,
    args: &[Value],
    steps: u64,
    ran: &Ran,
) -> Result<Vec<u8>, AllocError>
    ensures { IfOk result (λ bytes. bytes.items ≡ text_of_run name.now args.now steps ran.now) }
{
    let mut out = String::new(alloc);
    put_head(&mut out, name, args, steps)?;
    put_outcome(&mut out, &ran.outcome)?;
    put_draws(&mut out, ran.draws.as_slice())?;
    Ok(out.into_bytes())
}

fn put_head(out: &mut String, name: &Text, args: &[Value], steps: u64) -> Result<(), AllocError>
    ensures { OnOk result (string_bytes out.new ≡ string_bytes out.old ++ run_head_text name.now args.now steps) }
{
    put_export(out, name)?;
    put_args(out, args)?;
    put_steps(out, steps)?;
    Ok(())
}

fn put_export(out: &mut String, name: &Text) -> Result<(), AllocError>
    ensures { OnOk result (string_bytes out.new ≡ string_bytes out.old ++ export_text name.now) }
{
    out.push_str("owi run 1\nexport ")?;
    put_name(out, name)?;
    Ok(())
}

fn put_args(out: &mut String, args: &[Value]) -> Result<(), AllocError>
    ensures { OnOk result (string_bytes out.new ≡ string_bytes out.old ++ args_text args.now) }
{
    out.push_str(" args ")?;
    put_list(out, args)?;
    Ok(())
}

fn put_steps(out: &mut String, steps: u64) -> Result<(), AllocError>
    ensures { OnOk result (string_bytes out.new ≡ string_bytes out.old ++ steps_text steps) }
{
    writeln!(out, " steps {steps}")?;
    Ok(())
}

fn put_outcome(out: &mut String, outcome: &Outcome) -> Result<(), AllocError>
    ensures { OnOk result (string_bytes out.new ≡ string_bytes out.old ++ line (codes "outcome " ++ outcome_text outcome.now)) }
{
    out.push_str("outcome ")?;
    put_end(out, outcome)?;
    out.push('\n')?;
    Ok(())
}

fn put_end(out: &mut String, outcome: &Outcome) -> Result<(), AllocError>
    ensures { OnOk result (string_bytes out.new ≡ string_bytes out.old ++ outcome_text outcome.now) }
{
    match outcome {
        Outcome::Returns(values) => {
            out.push_str("returns ")?;
            put_list(out, values.as_slice())
        }
        Outcome::Traps(cause) => {
            out.push_str("traps ")?;
            out.push_str(cause_words(*cause))
        }
        Outcome::Fails => out.push_str("fails"),
        Outcome::Assumes => out.push_str("assumes"),
        Outcome::Bound => out.push_str("bound"),
        Outcome::Deep => out.push_str("deep"),
    }
}

fn put_draws(out: &mut String, draws: &[Draw]) -> Result<(), AllocError>
    ensures { OnOk result (string_bytes out.new ≡ string_bytes out.old ++ line (codes "draws " ++ list_text (map draw_text draws.now))) }
{
    out.push_str("draws ")?;
    put_list(out, draws)?;
    out.push('\n')?;
    Ok(())
}
