// Modules on other threads.
use row_words::{empty_module, one};
use std::test::Fail;
use std::thread::join;
use wasm_ast::{Expr, Func, Instr, List, same};

// A module of one function, which adds two constants.
#[test]
fn a_copy_is_equal_on_other_threads(rt: HostRuntime) -> Result<(), Fail> {
    let alloc = rt.alloc();
    let instrs = vec![in alloc; Instr::Const32(2), Instr::Const32(3), Instr::Num(0x6A)]?;
    let body = Expr {
        seqs: one(alloc, List::new(instrs))?,
    };
    let mut module = empty_module(alloc);
    module.funcs = one(
        alloc,
        Func {
            ty: 0,
            locals: List::new(Vec::new(alloc)),
            body,
        },
    )?;
    let copy = module.clone()?;
    let (module, copy) = join(&rt, move || module, move || copy);
    assert!(rt; same(&module, &copy));
    Ok(())
}
