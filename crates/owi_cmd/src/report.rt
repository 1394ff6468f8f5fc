// The report of an exploration.
ghost use Rattle.std.specs.Prelude.{◌≡◌, ◌++◌, IfOk, OnOk, string_bytes, flat_map};
ghost use Rattle.owi_cmd.specs.Report.{report_of, head_text, bounds_text, row_text, choices_text, kind_text, cause_text, input_text, counts_text, is_found as counts_as_found};

mod names;
#[cfg(test)]
mod tests;
mod values;

pub use names::put_name;
use std::alloc::{AllocError, Global};
pub use values::put_list;
use wasm_ast::{Cause, Draw, List, Text, Value};

/// The bounds of an exploration.
#[derive(Clone, Copy, Debug, PartialEq, Eq)]
pub struct Bounds {
    /// The most units that a run may spend, from 1 to 10,000,000.
    pub steps: u64,
    /// The most choices of a path, from 0 to 64.
    pub forks: u64,
    /// The most conflicts of a question, from 1 to 1,000,000.
    pub conflicts: u64,
}

/// What is explored: an export, its arguments, and within which bounds.
#[derive(Drop)]
pub struct Head {
    /// The name of the export.
    pub name: Text,
    pub args: List<Value>,
    pub bounds: Bounds,
}

/// How a path ends.
#[derive(Drop)]
pub enum Kind {
    /// The export returns these results.
    Returns(List<Value>),
    /// It traps, for this cause.
    Traps(Cause),
    /// An assertion doesn't hold.
    Fails,
    /// All steps are spent.
    Bound,
    /// A call would nest too deep.
    Deep,
    /// It would need one more choice than the bounds allow.
    Cut,
    /// The solver spent its conflicts before it knew whether an input goes on here.
    Undecided,
    /// No input meets the assumptions.
    Void,
}

/// A path of an exploration.
#[derive(Drop)]
pub struct Row {
    /// The side that it took at each fork, 0 or 1.
    pub choices: List<u8>,
    pub kind: Kind,
    /// The numbers that its least input gives to the symbols, below 2^32 where not wide; none of an undecided or void path.
    pub draws: List<Draw>,
}

/// The bytes of a report: the two head lines, a line for each row, and the line that counts them.
pub fn report_text(alloc: Global, head: &Head, rows: &[Row]) -> Result<Vec<u8>, AllocError>
    ensures { IfOk result (λ bytes. bytes.items ≡ report_of head.now rows.now) }
{
    let mut out = String::new(alloc);
    put_head(&mut out, head)?;
    put_rows(&mut out, rows)?;
    put_counts(&mut out, rows)?;
    Ok(out.into_bytes())
}

/// Whether a row counts as found: it traps or fails.
pub fn is_found(row: &Row) -> bool
    ensures { result ≡ counts_as_found row.now }
{
    matches!(row.kind, Kind::Traps(_) | Kind::Fails)
}

fn put_head(out: &mut String, head: &Head) -> Result<(), AllocError>
    ensures { OnOk result (string_bytes out.new ≡ string_bytes out.old ++ head_text head.now) }
{
    out.push_str("owi report 1\nexport ")?;
    put_name(out, &head.name)?;
    out.push_str(" args ")?;
    put_list(out, head.args.as_slice())?;
    out.push(' ')?;
    put_bounds(out, &head.bounds)?;
    out.push('\n')?;
    Ok(())
}

fn put_bounds(out: &mut String, bounds: &Bounds) -> Result<(), AllocError>
    ensures { OnOk result (string_bytes out.new ≡ string_bytes out.old ++ bounds_text bounds.now) }
{
    let Bounds {
        steps,
        forks,
        conflicts,
    } = *bounds;
    write!(out, "steps {steps} forks {forks} conflicts {conflicts}")?;
    Ok(())
}

fn put_rows(out: &mut String, rows: &[Row]) -> Result<(), AllocError>
    ensures { OnOk result (string_bytes out.new ≡ string_bytes out.old ++ flat_map row_text rows.now) }
{
    for row in rows {
        put_row(out, row)?;
    }
    Ok(())
}

fn put_row(out: &mut String, row: &Row) -> Result<(), AllocError>
    ensures { OnOk result (string_bytes out.new ≡ string_bytes out.old ++ row_text row.now) }
{
    out.push_str("path ")?;
    put_choices(out, row.choices.as_slice())?;
    out.push(' ')?;
    put_kind(out, &row.kind)?;
    put_input(out, &row.kind, row.draws.as_slice())?;
    out.push('\n')?;
    Ok(())
}

fn put_choices(out: &mut String, choices: &[u8]) -> Result<(), AllocError>
    ensures { OnOk result (string_bytes out.new ≡ string_bytes out.old ++ choices_text choices.now) }
{
    if choices.is_empty() {
        return out.push('-');
    }
    for side in choices {
        write!(out, "{side}")?;
    }
    Ok(())
}

fn put_kind(out: &mut String, kind: &Kind) -> Result<(), AllocError>
    ensures { OnOk result (string_bytes out.new ≡ string_bytes out.old ++ kind_text kind.now) }
{
    match kind {
        Kind::Returns(values) => {
            out.push_str("returns ")?;
            put_list(out, values.as_slice())
        }
        Kind::Traps(cause) => {
            out.push_str("traps ")?;
            out.push_str(cause_words(*cause))
        }
        Kind::Fails => out.push_str("fails"),
        Kind::Bound => out.push_str("bound"),
        Kind::Deep => out.push_str("deep"),
        Kind::Cut => out.push_str("cut"),
        Kind::Undecided => out.push_str("undecided"),
        Kind::Void => out.push_str("void"),
    }
}

/// The words for the cause of a trap.
pub fn cause_words(cause: Cause) -> &'static str
    ensures { result.now ≡ cause_text cause }
{
    match cause {
        Cause::Unreachable => "unreachable",
        Cause::DivZero => "integer divide by zero",
        Cause::Overflow => "integer overflow",
        Cause::Memory => "out of bounds memory access",
        Cause::Table => "out of bounds table access",
        Cause::Undefined => "undefined element",
        Cause::Uninitialized => "uninitialized element",
        Cause::Mismatch => "indirect call type mismatch",
    }
}

fn put_input(out: &mut String, kind: &Kind, draws: &[Draw]) -> Result<(), AllocError>
    ensures { OnOk result (string_bytes out.new ≡ string_bytes out.old ++ input_text kind.now draws.now) }
{
    if matches!(kind, Kind::Undecided | Kind::Void) {
        return Ok(());
    }
    out.push_str(" input ")?;
    put_list(out, draws)?;
    Ok(())
}

fn put_counts(out: &mut String, rows: &[Row]) -> Result<(), AllocError>
    ensures { OnOk result (string_bytes out.new ≡ string_bytes out.old ++ counts_text rows.now) }
{
    let paths = rows.len();
    let found = rows.iter().filter(|row| is_found(row)).count();
    writeln!(out, "paths {paths} found {found}")?;
    Ok(())
}
