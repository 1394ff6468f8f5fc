// The line `path` of a row.
ghost use Rattle.std.specs.Prelude.{◌≡◌, ◌++◌, OnOk, string_bytes};
ghost use Rattle.path_report.specs.Report.{path_text, choices_text, kind_text, cause_text, input_text};

use crate::values::put_list;
use fork_tree::{Kind, Row};
use std::alloc::AllocError;
use wasm_ast::{Cause, Draw};

/// Appends the line `path` of a row, without its line feed. After a refusal a part of it may have been appended.
pub fn put_path(out: &mut String, row: &Row) -> Result<(), AllocError>
    ensures { OnOk result (string_bytes out.new ≡ string_bytes out.old ++ path_text row.now) }
{
    out.push_str("path ")?;
    put_choices(out, row.choices.as_slice())?;
    out.push(' ')?;
    put_kind(out, &row.kind)?;
    put_input(out, &row.kind, row.draws.as_slice())?;
    Ok(())
}

fn put_choices(out: &mut String, choices: &[u8]) -> Result<(), AllocError>
    ensures { OnOk result (string_bytes out.new ≡ string_bytes out.old ++ choices_text choices.now) }
{
    if choices.is_empty() {
        return out.push('-');
    }
    for side in choices {
        write!(out, "{side}")?;
    }
    Ok(())
}

fn put_kind(out: &mut String, kind: &Kind) -> Result<(), AllocError>
    ensures { OnOk result (string_bytes out.new ≡ string_bytes out.old ++ kind_text kind.now) }
{
    match kind {
        Kind::Returns(values) => {
            out.push_str("returns ")?;
            put_list(out, values.as_slice())
        }
        Kind::Traps(cause) => {
            out.push_str("traps ")?;
            out.push_str(cause_words(*cause))
        }
        Kind::Fails => out.push_str("fails"),
        Kind::Bound => out.push_str("bound"),
        Kind::Deep => out.push_str("deep"),
        Kind::Cut => out.push_str("cut"),
        Kind::Undecided => out.push_str("undecided"),
        Kind::Void => out.push_str("void"),
    }
}

/// The words for the cause of a trap.
pub fn cause_words(cause: Cause) -> &'static str
    ensures { result.now ≡ cause_text cause }
{
    match cause {
        Cause::Unreachable => "unreachable",
        Cause::DivZero => "integer divide by zero",
        Cause::Overflow => "integer overflow",
        Cause::Memory => "out of bounds memory access",
        Cause::Table => "out of bounds table access",
        Cause::Undefined => "undefined element",
        Cause::Uninitialized => "uninitialized element",
        Cause::Mismatch => "indirect call type mismatch",
    }
}

fn put_input(out: &mut String, kind: &Kind, draws: &[Draw]) -> Result<(), AllocError>
    ensures { OnOk result (string_bytes out.new ≡ string_bytes out.old ++ input_text kind.now draws.now) }
{
    if matches!(kind, Kind::Undecided | Kind::Void) {
        return Ok(());
    }
    out.push_str(" input ")?;
    put_list(out, draws)?;
    Ok(())
}
