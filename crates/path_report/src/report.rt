// The report of an exploration.
ghost use Rattle.std.specs.Prelude.{◌≡◌, ◌++◌, IfOk, OnOk, string_bytes, flat_map};
ghost use Rattle.path_report.specs.Report.{report_of, head_text, bounds_text, row_text, terms_text, counts_text, is_found as counts_as_found};

use crate::heads::Head;
use crate::names::put_name;
use crate::rows::put_path;
use crate::terms::put_terms;
use crate::values::put_list;
use fork_tree::{Bounds, Kind, Row};
use std::alloc::{AllocError, Global};

/// The bytes of a report: the two head lines, the lines of each row, and the line that counts them. The only refusal is want of
/// memory.
pub fn report_text(alloc: Global, head: &Head, rows: &[Row]) -> Result<Vec<u8>, AllocError>
    ensures { IfOk result (λ bytes. bytes.items ≡ report_of head.now rows.now) }
{
    let mut out = String::new(alloc);
    put_head(&mut out, head)?;
    put_rows(&mut out, rows)?;
    put_counts(&mut out, rows)?;
    Ok(out.into_bytes())
}

/// Whether a row counts as found: it traps or fails.
pub fn is_found(row: &Row) -> bool
    ensures { result ≡ counts_as_found row.now }
{
    matches!(row.kind, Kind::Traps(_) | Kind::Fails)
}

fn put_head(out: &mut String, head: &Head) -> Result<(), AllocError>
    ensures { OnOk result (string_bytes out.new ≡ string_bytes out.old ++ head_text head.now) }
{
    out.push_str("owi report 2\nexport ")?;
    put_name(out, &head.name)?;
    out.push_str(" args ")?;
    put_list(out, head.args.as_slice())?;
    out.push(' ')?;
    put_bounds(out, &head.bounds)?;
    out.push('\n')?;
    Ok(())
}

fn put_bounds(out: &mut String, bounds: &Bounds) -> Result<(), AllocError>
    ensures { OnOk result (string_bytes out.new ≡ string_bytes out.old ++ bounds_text bounds.now) }
{
    let Bounds {
        steps,
        forks,
        conflicts,
    } = *bounds;
    write!(out, "steps {steps} forks {forks} conflicts {conflicts}")?;
    Ok(())
}

fn put_rows(out: &mut String, rows: &[Row]) -> Result<(), AllocError>
    ensures { OnOk result (string_bytes out.new ≡ string_bytes out.old ++ flat_map row_text rows.now) }
{
    for row in rows {
        put_row(out, row)?;
    }
    Ok(())
}

fn put_row(out: &mut String, row: &Row) -> Result<(), AllocError>
    ensures { OnOk result (string_bytes out.new ≡ string_bytes out.old ++ row_text row.now) }
{
    put_path(out, row)?;
    out.push('\n')?;
    put_row_terms(out, row)?;
    Ok(())
}

// What a row that returns goes on with.
fn put_row_terms(out: &mut String, row: &Row) -> Result<(), AllocError>
    ensures { OnOk result (string_bytes out.new ≡ string_bytes out.old ++ terms_text row.now.kind row.now.terms) }
{
    if matches!(row.kind, Kind::Returns(_)) {
        put_terms(out, &row.terms)?;
    }
    Ok(())
}

fn put_counts(out: &mut String, rows: &[Row]) -> Result<(), AllocError>
    ensures { OnOk result (string_bytes out.new ≡ string_bytes out.old ++ counts_text rows.now) }
{
    let paths = rows.len();
    let found = rows.iter().filter(|row| is_found(row)).count();
    writeln!(out, "paths {paths} found {found}")?;
    Ok(())
}
