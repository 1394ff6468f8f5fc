// The answer of each task.
use fork_tree::{Bounds, Kind, Line, LineOp, Operand, Row, Shown, Terms};
use path_report::{Clean, Head, Listener, RowBad, Tally, Wish, read_row, report_text, tell};
use std::alloc::{AllocError, Global};
use wasm_ast::{Draw, List, Text, Value};

// A text in which semicolons stand for line feeds.
fn shown(alloc: Global, bytes: &[u8]) -> Result<String, AllocError> {
    let mut out = String::new(alloc);
    put_shown(&mut out, bytes)?;
    Ok(out)
}

fn put_shown(out: &mut String, bytes: &[u8]) -> Result<(), AllocError> {
    for byte in bytes {
        out.push(if *byte == b'\n' { ';' } else { *byte as char })?;
    }
    Ok(())
}

fn head_of(alloc: Global) -> Result<Head, AllocError> {
    Ok(Head {
        name: Text::new(String::from_str(alloc, "f")?),
        args: List::new(Vec::new(alloc)),
        bounds: Bounds {
            steps: 1000,
            forks: 8,
            conflicts: 100_000,
        },
    })
}

/// Of each line, its row printed again, or why it is none.
pub fn read_answer(alloc: Global, lines: &str) -> Result<String, AllocError> {
    let head = head_of(alloc)?;
    let mut out = String::new(alloc);
    for line in lines.split(';') {
        match read_row(alloc, line) {
            Ok(row) => {
                let text = report_text(alloc, &head, &[row])?;
                out.push_str(shown(alloc, text.as_slice())?.as_str())?;
            }
            Err(RowBad::Spelling) => out.push_str("spelling;")?,
            Err(RowBad::NoMemory) => return Err(AllocError),
        }
    }
    Ok(out)
}

// The rows of these lines; those that aren't read are left out.
fn rows_of(alloc: Global, lines: &str) -> Result<Vec<Row>, AllocError> {
    let mut rows = Vec::new(alloc);
    for line in lines.split(';') {
        match read_row(alloc, line) {
            Ok(row) => rows.push(row)?,
            Err(RowBad::Spelling) => rows.push(without_input(alloc, line))?,
            Err(RowBad::NoMemory) => return Err(AllocError),
        }
    }
    Ok(rows)
}

// A row of a kind that isn't read back.
fn without_input(alloc: Global, line: &str) -> Row {
    Row {
        choices: List::new(Vec::new(alloc)),
        kind: match line {
            "undecided" => Kind::Undecided,
            "cut" => Kind::Cut,
            _ => Kind::Void,
        },
        draws: List::new(Vec::new(alloc)),
        terms: no_terms(alloc),
    }
}

fn no_terms(alloc: Global) -> Terms {
    Terms {
        lines: List::new(Vec::new(alloc)),
        results: List::new(Vec::new(alloc)),
    }
}

/// The report of the rows.
pub fn report_answer(alloc: Global, lines: &str) -> Result<String, AllocError> {
    let head = head_of(alloc)?;
    let rows = rows_of(alloc, lines)?;
    let text = report_text(alloc, &head, rows.as_slice())?;
    shown(alloc, text.as_slice())
}

// 100 divided by a symbol, and then each other form of lines and results.
fn some_terms(alloc: Global) -> Result<Terms, AllocError> {
    let mut lines = List::new(Vec::new(alloc));
    lines.push(Line {
        op: LineOp::Op(0x6E),
        args: two(alloc, Operand::Number(100), Operand::Symbol(0))?,
    })?;
    lines.push(Line {
        op: LineOp::Choose,
        args: two(alloc, Operand::Line(1), Operand::Symbol(1))?,
    })?;
    lines.push(Line {
        op: LineOp::Byte(3),
        args: two(alloc, Operand::Line(2), Operand::Line(1))?,
    })?;
    lines.push(Line {
        op: LineOp::Join(true),
        args: two(alloc, Operand::Line(3), Operand::Line(3))?,
    })?;
    lines.push(Line {
        op: LineOp::Join(false),
        args: two(alloc, Operand::Line(3), Operand::Number(0))?,
    })?;
    let mut results = List::new(Vec::new(alloc));
    results.push(Shown::I32(Operand::Line(1)))?;
    results.push(Shown::I64(Operand::Line(4)))?;
    results.push(Shown::Func(Some(7)))?;
    results.push(Shown::Func(None))?;
    results.push(Shown::Extern)?;
    Ok(Terms { lines, results })
}

fn two(alloc: Global, a: Operand, b: Operand) -> Result<List<Operand>, AllocError> {
    let mut args = List::new(Vec::new(alloc));
    args.push(a)?;
    args.push(b)?;
    Ok(args)
}

/// The report of a row with terms.
pub fn terms_answer(alloc: Global) -> Result<String, AllocError> {
    let head = head_of(alloc)?;
    let mut values = List::new(Vec::new(alloc));
    values.push(Value::I32(100))?;
    let mut draws = List::new(Vec::new(alloc));
    draws.push(Draw {
        wide: false,
        value: 1,
    })?;
    let row = Row {
        choices: List::new(Vec::new(alloc)),
        kind: Kind::Returns(values),
        draws,
        terms: some_terms(alloc)?,
    };
    let text = report_text(alloc, &head, &[row])?;
    shown(alloc, text.as_slice())
}

/// What each of the two listeners says after a row, where it wants more.
pub fn tell_answer(alloc: Global, lines: &str) -> Result<String, AllocError> {
    let rows = rows_of(alloc, lines)?;
    let mut none: Vec<Box<dyn Listener>> = Vec::new(alloc);
    tell(&mut none, rows.as_slice())?;
    let mut out = String::new(alloc);
    match rows.as_slice() {
        [] => Ok(out),
        [row, ..] => {
            put_tally(&mut out, row)?;
            put_clean(&mut out, row)?;
            Ok(out)
        }
    }
}

fn put_tally(out: &mut String, row: &Row) -> Result<(), AllocError> {
    let mut tally = Tally::new()?;
    match tally.row(row)? {
        Wish::More => put_shown(out, tally.tail()),
        Wish::Enough => Ok(()),
    }
}

fn put_clean(out: &mut String, row: &Row) -> Result<(), AllocError> {
    let mut clean = Clean::new();
    match clean.row(row)? {
        Wish::More => put_shown(out, clean.tail()),
        Wish::Enough => Ok(()),
    }
}
