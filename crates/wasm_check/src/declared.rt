// The functions that `ref.func` may name in a body (Validation, Conventions: Contexts).
ghost use Rattle.std.specs.Prelude.{◌==◌, IfOk};
ghost use Rattle.std.specs.List.{list_any};
ghost use Rattle.wasm_check.specs.Contexts.{is_ref_of, refers_to, exports_func};
ghost use Rattle.wasm_check.specs.code.Sections.{Marks, AreDeclared};

use std::alloc::{AllocError, Global};
use wasm_ast::{Elem, Export, Expr, GlobalDef, Instr, Module, Space};

// Marks the function that the instruction refers to.
fn mark_instr(flags: &mut [bool], instr: &Instr)
    ensures { Marks flags.old flags.new (λ x. is_ref_of x instr.now) }
{
    if let Instr::RefFunc(x) = instr {
        mark(flags, *x);
    }
}

fn mark(flags: &mut [bool], x: u32)
    ensures { Marks flags.old flags.new (λ y. y == x) }
{
    let x = x as usize;
    if x < flags.len() {
        flags[x] = true;
    }
}

fn mark_instrs(flags: &mut [bool], instrs: &[Instr])
    ensures { Marks flags.old flags.new (λ x. list_any (is_ref_of x) instrs.now) }
{
    for instr in instrs {
        mark_instr(flags, instr);
    }
}

fn mark_expr(flags: &mut [bool], e: &Expr)
    ensures { Marks flags.old flags.new (λ x. refers_to x e.now) }
{
    for instrs in e.seqs.as_slice() {
        mark_instrs(flags, instrs.as_slice());
    }
}

fn mark_exprs(flags: &mut [bool], items: &[Expr])
    ensures { Marks flags.old flags.new (λ x. list_any (refers_to x) items.now) }
{
    for e in items {
        mark_expr(flags, e);
    }
}

fn mark_globals(flags: &mut [bool], globals: &[GlobalDef])
    ensures { Marks flags.old flags.new (λ x. list_any (λ g. refers_to x g.init) globals.now) }
{
    for g in globals {
        mark_expr(flags, &g.init);
    }
}

fn mark_elems(flags: &mut [bool], elems: &[Elem])
    ensures { Marks flags.old flags.new (λ x. list_any (λ e. list_any (refers_to x) e.items) elems.now) }
{
    for e in elems {
        mark_exprs(flags, e.items.as_slice());
    }
}

fn mark_export(flags: &mut [bool], export: &Export)
    ensures { Marks flags.old flags.new (λ x. exports_func x export.now) }
{
    if let Space::Func = export.space {
        mark(flags, export.index);
    }
}

fn mark_exports(flags: &mut [bool], exports: &[Export])
    ensures { Marks flags.old flags.new (λ x. list_any (exports_func x) exports.now) }
{
    for export in exports {
        mark_export(flags, export);
    }
}

/// For each of so many functions, whether `ref.func` may name it in a body.
pub fn declared_of(alloc: Global, m: &Module, funcs: usize) -> Result<Vec<bool>, AllocError>
    ensures { IfOk result (λ v. AreDeclared m.now funcs v.items) }
{
    let mut flags = vec![in alloc; false; funcs]?;
    mark_globals(&mut flags, m.globals.as_slice());
    mark_elems(&mut flags, m.elems.as_slice());
    mark_exports(&mut flags, m.exports.as_slice());
    Ok(flags)
}
