// The context of a function's body, as slices of what the module and the function say.
ghost use Rattle.std.specs.Prelude.{◌≡◌, MatchOption, None, Some, nat_lt, reverse, slice_get, take, true};
ghost use Rattle.wasm_check.specs.Operators.{arrow};
ghost use Rattle.type_suffixes.specs.Words.{EndsWith};
ghost use Rattle.type_suffixes.specs.Lists.{listed};
ghost use Rattle.wasm_check.specs.Contexts.{func_type, block_type};
ghost use Rattle.wasm_check.specs.code.Checker.{has_memory as has_memory_in};
ghost use Rattle.wasm_check.specs.code.Kept.{context, kept_of};

use crate::locals::Locals;
use crate::spaces::Spaces;
use std::marker::Model;
use type_suffixes::{Ends, Listed};
use wasm_ast::{BlockType, FuncType, GlobalType, Module, TableType, ValType};

/// The context of a function's body (Validation, Conventions: Contexts).
#[derive(Drop)]
pub struct Scope<'a> {
    m: &'a Module,
    spaces: &'a Spaces,
    declared: &'a [bool],
    ends: &'a Ends<'a>,
    ty: u32,
    own: &'a FuncType,
    locals: &'a Locals<'a>,
}

impl<'a> Model for Scope<'a> {
    ghost use Rattle.std.specs.Prelude.{◌≡◌, Some, slice_get};
    ghost use Rattle.wasm_check.specs.code.Kept.{Kept, kept_of};

    ghost Value = { Kept };

    ghost view = { λ s. kept_of s.m.now s.spaces.now s.declared.now s.own.now s.locals.now };

    ghost invariant = { λ s. (s.ends.now ≡ s.m.now.types) × (slice_get s.m.now.types s.ty ≡ Some s.own.now) };
}

impl<'a> Scope<'a> {
    /// The context of the body of a function of the type `own`, which has the number `ty`, whose other locals are these.
    pub fn new(
        m: &'a Module,
        spaces: &'a Spaces,
        declared: &'a [bool],
        ends: &'a Ends<'a>,
        ty: u32,
        own: &'a FuncType,
        locals: &'a Locals<'a>,
    ) -> Scope<'a>
        requires ends { ends.now ≡ m.now.types }
        requires own { slice_get m.now.types ty ≡ Some own.now }
        ensures { result ≡ kept_of m.now spaces.now declared.now own.now locals.now }
    {
        Scope {
            m,
            spaces,
            declared,
            ends,
            ty,
            own,
            locals,
        }
    }

    /// The types of the list.
    pub fn list(&self, list: Listed) -> &'a [ValType]
        ensures { result.now ≡ listed self.now.types list }
    {
        self.ends.get(list)
    }

    /// Whether the first `count` types of a list end with the first `n` types of another, as far as that is known.
    pub fn ends_with(&self, longer: Listed, count: usize, shorter: Listed, n: usize) -> bool
        ensures { result ≡ true → EndsWith (take count (listed self.now.types longer)) (take n (listed self.now.types shorter)) }
    {
        self.ends.ends_with(longer, count, shorter, n)
    }

    /// Whether the last `n` types of two lists are the same, as far as that is known.
    pub fn ends_alike(&self, one: Listed, other: Listed, n: usize) -> bool
        ensures { result ≡ true → take n (reverse (listed self.now.types one)) ≡ take n (reverse (listed self.now.types other)) }
    {
        self.ends.ends_alike(one, other, n)
    }

    /// What the function type of this number takes and gives.
    pub fn function_type(&self, x: u32) -> Option<(Listed, Listed)>
        ensures { MatchOption result (slice_get self.now.types x ≡ None) (λ t. slice_get self.now.types x ≡ Some (arrow (listed self.now.types t.0) (listed self.now.types t.1))) }
    {
        match self.m.types.as_slice().get(x as usize) {
            None => None,
            Some(_) => Some((self.ends.takes(x), self.ends.gives(x))),
        }
    }

    /// What the function of this number takes and gives.
    pub fn function(&self, x: u32) -> Option<(Listed, Listed)>
        ensures { MatchOption result (func_type (context self.now) x ≡ None) (λ t. func_type (context self.now) x ≡ Some (arrow (listed self.now.types t.0) (listed self.now.types t.1))) }
    {
        match self.spaces.funcs.get(x as usize) {
            None => None,
            Some(ty) => self.function_type(*ty),
        }
    }

    /// What a block takes and gives.
    pub fn block(&self, ty: &BlockType) -> Option<(Listed, Listed)>
        ensures { MatchOption result (block_type (context self.now) ty.now ≡ None) (λ t. block_type (context self.now) ty.now ≡ Some (arrow (listed self.now.types t.0) (listed self.now.types t.1))) }
    {
        match ty {
            BlockType::Empty => Some((Listed::Nothing, Listed::Nothing)),
            BlockType::One(kind) => Some((Listed::Nothing, Listed::One(*kind))),
            BlockType::Index(x) => self.function_type(*x),
        }
    }

    /// The table of this number.
    pub fn table(&self, x: u32) -> Option<TableType>
        ensures { result ≡ slice_get self.now.tables x }
    {
        self.spaces.tables.get(x as usize).copied()
    }

    /// The global of this number.
    pub fn global(&self, x: u32) -> Option<GlobalType>
        ensures { result ≡ slice_get self.now.globals x }
    {
        self.spaces.globals.get(x as usize).copied()
    }

    /// The type of the references of the element segment of this number.
    pub fn elem(&self, x: u32) -> Option<ValType>
        ensures { result ≡ slice_get self.now.elems x }
    {
        self.m.elems.as_slice().get(x as usize).map(|e| e.kind)
    }

    /// Whether there is a data segment of this number.
    pub fn is_data(&self, x: u32) -> bool
        ensures { result ≡ nat_lt x self.now.datas }
    {
        (x as usize) < self.m.segments.len()
    }

    /// Whether there is a memory.
    pub fn has_memory(&self) -> bool
        ensures { result ≡ has_memory_in (context self.now) }
    {
        !self.spaces.memories.is_empty()
    }

    /// Whether `ref.func` may name the function of this number.
    pub fn is_declared(&self, x: u32) -> bool
        ensures { result ≡ (context self.now).declared x }
    {
        match self.declared.get(x as usize) {
            None => false,
            Some(flag) => *flag,
        }
    }

    /// The type of the local of this number.
    pub fn local(&self, x: u32) -> Option<ValType>
        ensures { result ≡ slice_get self.now.locals x }
    {
        let x = x as usize;
        let params = self.own.params.as_slice();
        if x < params.len() {
            Some(params[x])
        } else {
            self.locals.get(x - params.len())
        }
    }

    /// What the function gives.
    pub fn results(&self) -> Listed
        ensures { listed self.now.types result ≡ self.now.results }
    {
        self.ends.gives(self.ty)
    }
}
