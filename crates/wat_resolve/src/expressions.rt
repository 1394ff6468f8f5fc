// Instructions and expressions.
ghost use Rattle.std.specs.Prelude.{◌≡◌, IfOk, OnOk};
ghost use Rattle.wasm_text.specs.Resolved.{one_instr};

use crate::each::{Entry, resolve_all};
use crate::inside::Inside;
use std::alloc::{AllocError, Global};
use wasm_ast::{Expr, Instr, List};
use wasm_text::{Idx, OneIndex, TextBad, Written, WrittenExpr};

// The instruction of one index.
fn with_number(form: OneIndex, n: u32) -> Instr
    ensures { result ≡ one_instr form n }
{
    match form {
        OneIndex::Br => Instr::Br(n),
        OneIndex::BrIf => Instr::BrIf(n),
        OneIndex::Call => Instr::Call(n),
        OneIndex::RefFunc => Instr::RefFunc(n),
        OneIndex::LocalGet => Instr::LocalGet(n),
        OneIndex::LocalSet => Instr::LocalSet(n),
        OneIndex::LocalTee => Instr::LocalTee(n),
        OneIndex::GlobalGet => Instr::GlobalGet(n),
        OneIndex::GlobalSet => Instr::GlobalSet(n),
        OneIndex::TableGet => Instr::TableGet(n),
        OneIndex::TableSet => Instr::TableSet(n),
        OneIndex::TableGrow => Instr::TableGrow(n),
        OneIndex::TableSize => Instr::TableSize(n),
        OneIndex::TableFill => Instr::TableFill(n),
        OneIndex::ElemDrop => Instr::ElemDrop(n),
        OneIndex::MemoryInit => Instr::MemoryInit(n),
        OneIndex::DataDrop => Instr::DataDrop(n),
    }
}

impl Entry for Idx {
    ghost use Rattle.std.specs.Prelude.{[]};
    ghost use Rattle.wasm_text.specs.Resolved.{number as number_of};
    ghost use Rattle.wasm_text.specs.NameTroubles.{unknown};

    type Made = u32;

    // A label.
    ghost meaning = { λ s x. number_of s [] x };

    ghost faults = { λ s x. unknown s.types.text [] x };

    fn resolve(
        &self,
        _alloc: Global,
        inside: &Inside,
        found: &mut Option<TextBad>,
    ) -> Result<u32, AllocError> {
        let scope = inside.scope;
        Ok(scope.labels.number(*self, found))
    }
}

#[tactic(auto, using(crate::proofs::NotingLaws::noted_append))]
impl Entry for Written {
    ghost use Rattle.wasm_text.specs.Resolved.{instr_of};
    ghost use Rattle.wasm_text.specs.NameTroubles.{instr_troubles};

    type Made = Instr;

    ghost meaning = { instr_of };

    ghost faults = { instr_troubles };

    fn resolve(
        &self,
        alloc: Global,
        inside: &Inside,
        found: &mut Option<TextBad>,
    ) -> Result<Instr, AllocError> {
        let scope = inside.scope;
        match self {
            Written::Plain(instr) => {
                let instr = instr.clone()?;
                Ok(instr)
            }
            Written::One(form, x) => {
                let n = inside.ids_for(*form).number(*x, found);
                Ok(with_number(*form, n))
            }
            Written::BrTable { labels, last } => {
                let labels = resolve_all(alloc, labels.as_slice(), inside, found)?;
                let last = last.resolve(alloc, inside, found)?;
                Ok(Instr::BrTable { labels, last })
            }
            Written::CallIndirect { table, ty } => {
                let table = scope.tables.number(*table, found);
                let ty = scope.use_type(alloc, *ty)?;
                Ok(Instr::CallIndirect { ty, table })
            }
            Written::TableInit { table, elem } => {
                let table = scope.tables.number(*table, found);
                let elem = scope.elems.number(*elem, found);
                Ok(Instr::TableInit { elem, table })
            }
            Written::TableCopy { to, from } => {
                let to = scope.tables.number(*to, found);
                let from = scope.tables.number(*from, found);
                Ok(Instr::TableCopy { to, from })
            }
            Written::Block { ty, body } => {
                let ty = scope.use_block(alloc, *ty)?;
                Ok(Instr::Block { ty, body: *body })
            }
            Written::Loop { ty, body } => {
                let ty = scope.use_block(alloc, *ty)?;
                Ok(Instr::Loop { ty, body: *body })
            }
            Written::If { ty, then, other } => {
                let ty = scope.use_block(alloc, *ty)?;
                Ok(Instr::If {
                    ty,
                    then: *then,
                    other: *other,
                })
            }
        }
    }
}

impl Entry for List<Written> {
    ghost use Rattle.std.specs.Prelude.{map, flat_map};
    ghost use Rattle.wasm_text.specs.Resolved.{instr_of};
    ghost use Rattle.wasm_text.specs.NameTroubles.{instr_troubles};

    type Made = List<Instr>;

    ghost meaning = { λ s instrs. map (instr_of s) instrs };

    ghost faults = { λ s instrs. flat_map (instr_troubles s) instrs };

    fn resolve(
        &self,
        alloc: Global,
        inside: &Inside,
        found: &mut Option<TextBad>,
    ) -> Result<List<Instr>, AllocError> {
        resolve_all(alloc, self.as_slice(), inside, found)
    }
}

impl Entry for WrittenExpr {
    ghost use Rattle.wasm_text.specs.Resolved.{expr_of};
    ghost use Rattle.wasm_text.specs.NameTroubles.{expr_troubles};

    type Made = Expr;

    ghost meaning = { expr_of };

    ghost faults = { expr_troubles };

    fn resolve(
        &self,
        alloc: Global,
        inside: &Inside,
        found: &mut Option<TextBad>,
    ) -> Result<Expr, AllocError> {
        let seqs = resolve_all(alloc, self.seqs.as_slice(), inside, found)?;
        Ok(Expr { seqs })
    }
}
