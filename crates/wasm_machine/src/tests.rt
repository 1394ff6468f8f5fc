// That a machine can be copied.
use crate::crossing::all_cross;
use crate::machine::{Frame, Label, Machine};
use crate::next::Next;
use crate::values::{Reference, Value};
use std::alloc::{AllocError, Global};
use std::test::Fail;

// A machine in a function, at a question that has had an answer.
fn machine(alloc: Global) -> Result<Machine<u64>, AllocError> {
    let here = Label {
        seq: 0,
        place: 3,
        height: 0,
        arity: 1,
        again: false,
    };
    let frame = Frame {
        func: Some(2),
        arity: 1,
        base: 0,
        labels: 0,
        floor: 0,
        here,
    };
    let table = vec![in alloc; Reference::Extern, Reference::Func(Some(2))]?;
    Ok(Machine {
        operands: vec![in alloc; Value::I32(7)]?,
        locals: Vec::new(alloc),
        labels: Vec::new(alloc),
        frame,
        callers: vec![in alloc; frame]?,
        globals: Vec::new(alloc),
        tables: vec![in alloc; table]?,
        elems: Vec::new(alloc),
        dropped: Vec::new(alloc),
        answers: vec![in alloc; 1]?,
        units: 5,
        entry: 2,
    })
}

#[test]
fn a_copy_is_equal(rt: HostRuntime) -> Result<(), Fail> {
    let mut first = machine(rt.alloc())?;
    let second = first.copy(rt.alloc())?;
    first.answers.clear();
    all_cross(&second, &Next::Goes);
    assert_eq!(rt; second.word(0, false), Some(7));
    assert_eq!(rt; second.answer(0), Some(1));
    assert_eq!(rt; second.depth(), 1);
    assert_eq!(rt; second.tables.len(), 1);
    assert_eq!(rt; second.units, 5);
    assert_eq!(rt; second.entry, 2);
    Ok(())
}
