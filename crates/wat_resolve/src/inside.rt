// A scope with the identifiers of a function's locals.
ghost use Rattle.std.specs.Prelude.{◌≡◌, ◌++◌, [], map, replicate, None, IfOk, OnOk};
ghost use Rattle.wasm_text.specs.declared.named.OneIndex.{OneIndex as Form};
ghost use Rattle.wasm_text.specs.Uses.{param_ids};
ghost use Rattle.wasm_text.specs.Resolved.{inside, ids_for as ids_of_form, ids_in as ids_of_space, use_params};
ghost use Rattle.wasm_text.specs.NameTroubles.{twice};
ghost use Rattle.wat_resolve.specs.code.Noting.{noted};
ghost use Rattle.wat_resolve.specs.code.Spaces.{with_locals};

use crate::ids::Ids;
use crate::scopes::Scope;
use crate::types::bare;
use std::alloc::{AllocError, Global};
use std::marker::Model;
use wasm_ast::Space;
use wasm_text::{Id, Local, OneIndex, TextBad, Use, WrittenFunc};

/// What is known where an instruction stands.
#[derive(Drop)]
pub(crate) struct Inside<'s, 'a> {
    pub(crate) scope: &'s Scope<'a>,
    pub(crate) locals: Ids<'a>,
}

impl<'s, 'a> Model for Inside<'s, 'a> {
    ghost use Rattle.std.specs.Prelude.{◌≡◌};
    ghost use Rattle.wasm_text.specs.Resolved.{Scope as Known};
    ghost use Rattle.wat_resolve.specs.code.Spaces.{with_locals};

    ghost Value = { Known };

    ghost view = { λ i. with_locals i.scope.now i.locals.ids };

    ghost invariant = { λ i. i.locals.text ≡ i.scope.now.types.text };
}

fn ids_of(alloc: Global, params: &[Local], locals: &[Local]) -> Result<Vec<Option<Id>>, AllocError>
    ensures { IfOk result (λ v. v.items ≡ map (λ p. p.id) params.now ++ map (λ l. l.id) locals.now) }
{
    let params = params.iter().map(|p| p.id);
    params.chain(locals.iter().map(|l| l.id)).collect(alloc)
}

// How many params without identifiers stand before those that a use writes.
fn unnamed(scope: &Scope, u: &Use) -> usize
    ensures { replicate result None ++ map (λ p. p.id) u.now.params ≡ param_ids scope.now.types u.now }
{
    let x = match u.ty {
        None => return 0,
        Some(x) => x,
    };
    if !bare(u) {
        return 0;
    }
    let n = match scope.types.find(x) {
        None => return 0,
        Some(n) => n,
    };
    match scope.all.get(n) {
        None => 0,
        Some(ty) => ty.params.len(),
    }
}

/// The identifiers of the params of a use and of these locals. It notes those that are defined again.
pub(crate) fn params_and_locals<'a>(
    alloc: Global,
    scope: &Scope<'a>,
    k: u32,
    locals: &[Local],
    found: &mut Option<TextBad>,
) -> Result<Ids<'a>, AllocError>
    ensures value { IfOk result (λ s. s ≡ record { text = scope.now.types.text; ids = use_params scope.now k ++ map (λ l. l.id) locals.now }) }
    ensures found { OnOk result (found.new ≡ noted (twice scope.now.types.text (use_params scope.now k ++ map (λ l. l.id) locals.now)) found.old) }
{
    let text = scope.labels.text();
    match scope.at(k) {
        None => {
            let ids = ids_of(alloc, &[], locals)?;
            Ids::new(alloc, text, 0, ids, found)
        }
        Some(u) => {
            let ids = ids_of(alloc, u.params.as_slice(), locals)?;
            Ids::new(alloc, text, unnamed(scope, u), ids, found)
        }
    }
}

impl<'s, 'a> Inside<'s, 'a> {
    /// Outside of functions.
    pub(crate) fn outside(alloc: Global, scope: &'s Scope<'a>) -> Inside<'s, 'a>
        ensures { result ≡ with_locals scope.now [] }
    {
        Inside {
            scope,
            locals: Ids::none(alloc, scope.labels.text()),
        }
    }

    /// Inside a function. It notes params and locals that are defined again.
    pub(crate) fn function(
        alloc: Global,
        scope: &'s Scope<'a>,
        f: &WrittenFunc,
        found: &mut Option<TextBad>,
    ) -> Result<Inside<'s, 'a>, AllocError>
        ensures value { IfOk result (λ i. i ≡ inside scope.now f.now) }
        ensures found { OnOk result (found.new ≡ noted (twice scope.now.types.text (inside scope.now f.now).locals) found.old) }
    {
        let locals = params_and_locals(alloc, scope, f.ty, f.locals.as_slice(), found)?;
        Ok(Inside { scope, locals })
    }

    /// Among what the index of an instruction counts.
    pub(crate) fn ids_for(&self, form: OneIndex) -> &Ids<'a>
        ensures { result.now ≡ record { text = self.now.types.text; ids = ids_of_form self.now form } }
    {
        let scope = self.scope;
        match form {
            OneIndex::Br => &scope.labels,
            OneIndex::BrIf => &scope.labels,
            OneIndex::Call => &scope.funcs,
            OneIndex::RefFunc => &scope.funcs,
            OneIndex::LocalGet => &self.locals,
            OneIndex::LocalSet => &self.locals,
            OneIndex::LocalTee => &self.locals,
            OneIndex::GlobalGet => &scope.globals,
            OneIndex::GlobalSet => &scope.globals,
            OneIndex::TableGet => &scope.tables,
            OneIndex::TableSet => &scope.tables,
            OneIndex::TableGrow => &scope.tables,
            OneIndex::TableSize => &scope.tables,
            OneIndex::TableFill => &scope.tables,
            OneIndex::ElemDrop => &scope.elems,
            OneIndex::MemoryInit => &scope.segments,
            OneIndex::DataDrop => &scope.segments,
        }
    }

    /// Among what the index of an export counts.
    pub(crate) fn ids_in(&self, space: Space) -> &Ids<'a>
        ensures { result.now ≡ record { text = self.now.types.text; ids = ids_of_space self.now.names space } }
    {
        let scope = self.scope;
        match space {
            Space::Func => &scope.funcs,
            Space::Table => &scope.tables,
            Space::Memory => &scope.memories,
            Space::Global => &scope.globals,
        }
    }
}
