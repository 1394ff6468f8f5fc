use crate::report::{Bounds, Head, Kind, Row, is_found, report_text};
use std::alloc::{AllocError, Global};
use std::test::Fail;
use wasm_ast::{Cause, Draw, List, Text, Value};

fn list<T: Clone>(alloc: Global, items: &[T]) -> Result<List<T>, AllocError> {
    Ok(List::new(items.to_vec(alloc)?))
}

fn head(alloc: Global, name: &str, args: &[Value]) -> Result<Head, AllocError> {
    let bounds = Bounds {
        steps: 1000,
        forks: 8,
        conflicts: 100000,
    };
    let name = Text::new(String::from_str(alloc, name)?);
    let args = list(alloc, args)?;
    Ok(Head { name, args, bounds })
}

fn row(alloc: Global, choices: &[u8], kind: Kind, draws: &[Draw]) -> Result<Row, AllocError> {
    let choices = list(alloc, choices)?;
    let draws = list(alloc, draws)?;
    Ok(Row {
        choices,
        kind,
        draws,
    })
}

fn narrow(value: u64) -> Draw {
    Draw { wide: false, value }
}

// A row of each way that a path ends, but `bound` and `deep`.
fn ended_rows(alloc: Global) -> Result<Vec<Row>, AllocError> {
    let wide = Draw {
        wide: true,
        value: 4294967296,
    };
    let two = Kind::Returns(list(alloc, &[Value::I32(7), Value::I64(u64::MAX)])?);
    let mut rows = Vec::new(alloc);
    rows.push(row(alloc, &[0], two, &[narrow(1), wide])?)?;
    rows.push(row(alloc, &[1, 0], Kind::Traps(Cause::DivZero), &[narrow(0)])?)?;
    rows.push(row(alloc, &[1, 1, 0], Kind::Fails, &[narrow(11)])?)?;
    rows.push(row(alloc, &[1, 1, 1, 0], Kind::Cut, &[narrow(2)])?)?;
    rows.push(row(alloc, &[1, 1, 1, 1, 0], Kind::Undecided, &[])?)?;
    rows.push(row(alloc, &[1, 1, 1, 1, 1], Kind::Void, &[])?)?;
    Ok(rows)
}

#[test]
fn many_paths(rt: HostRuntime) -> Result<(), Fail> {
    let alloc = rt.alloc();
    let args = [Value::Func(None), Value::Func(Some(3)), Value::Extern];
    let head = head(alloc, "a \\\0\u{e9}", &args)?;
    let rows = ended_rows(alloc)?;
    let text = report_text(alloc, &head, rows.as_slice())?;
    let want = b"owi report 1\n\
        export a\\20\\5c\\00\\c3\\a9 args funcref:null funcref:3 externref:null steps 1000 forks 8 conflicts 100000\n\
        path 0 returns i32:7 i64:18446744073709551615 input i32:1 i64:4294967296\n\
        path 10 traps integer divide by zero input i32:0\n\
        path 110 fails input i32:11\n\
        path 1110 cut input i32:2\n\
        path 11110 undecided\n\
        path 11111 void\n\
        paths 6 found 2\n";
    assert_eq!(rt; text.as_slice(), want.as_slice());
    assert_eq!(rt; rows.iter().filter(|row| is_found(row)).count(), 2);
    Ok(())
}
