// The function types of a module, found by what they take and give.
ghost use Rattle.std.specs.Prelude.{◌≡◌, ◌++◌, ◌∷◌, [], ℕ, List as Items, Option as Maybe, length, map, IfOk, OnOk, Some, option_copied, slice_get};
ghost use Rattle.wasm_ast.specs.declared.types.FuncType.{FuncType as OneType};
ghost use Rattle.wasm_text.specs.Uses.{written_type, type_position, with_use_of, same_kind, same_kinds, same_type, is_bare, is_short};
ghost use Rattle.wat_resolve.specs.code.Firsts.{AreFirsts, type_words, type_word, kind_code};

use std::alloc::{AllocError, Global};
use std::collections::BTreeMap;
use std::marker::Model;
use wasm_ast::{FuncType, List, ValType};
use wasm_text::{Local, Use};

/// Function types, with the place where each stands first.
#[derive(Drop)]
pub(crate) struct Types {
    all: Vec<FuncType>,
    places: BTreeMap<Vec<u8>, u32>,
}

impl Model for Types {
    ghost use Rattle.std.specs.Prelude.{List as Items};
    ghost use Rattle.wasm_ast.specs.declared.types.FuncType.{FuncType as OneType};
    ghost use Rattle.wat_resolve.specs.code.Firsts.{type_words, AreFirsts};

    ghost Value = { Items OneType };

    ghost view = { λ t. t.all.items };

    ghost invariant = { λ t. AreFirsts (λ k. k.items) (type_words t.all.items) t.places };
}

// A byte for each type.
fn code(kind: ValType) -> u8
    ensures { result ≡ kind_code kind }
{
    match kind {
        ValType::I32 => 0,
        ValType::I64 => 1,
        ValType::FuncRef => 2,
        ValType::ExternRef => 3,
    }
}

// The word by which a type is found.
fn word_of_type(alloc: Global, ty: &FuncType) -> Result<Vec<u8>, AllocError>
    ensures { IfOk result (λ w. w.items ≡ type_word ty.now) }
{
    let mut word = Vec::new(alloc);
    put_kinds(&mut word, ty.params.as_slice())?;
    word.push(4)?;
    put_kinds(&mut word, ty.results.as_slice())?;
    Ok(word)
}

fn put_kinds(word: &mut Vec<u8>, kinds: &[ValType]) -> Result<(), AllocError>
    ensures { OnOk result (word.new.items ≡ word.old.items ++ map kind_code kinds.now) }
{
    for kind in kinds {
        word.push(code(*kind))?;
    }
    Ok(())
}

fn put_locals(word: &mut Vec<u8>, locals: &[Local]) -> Result<(), AllocError>
    ensures { OnOk result (word.new.items ≡ word.old.items ++ map kind_code (map (λ l. l.kind) locals.now)) }
{
    for local in locals {
        word.push(code(local.kind))?;
    }
    Ok(())
}

// The word by which the type that a use writes is found.
fn word_of_use(alloc: Global, u: &Use) -> Result<Vec<u8>, AllocError>
    ensures { IfOk result (λ w. w.items ≡ type_word (written_type u.now)) }
{
    let mut word = Vec::new(alloc);
    put_locals(&mut word, u.params.as_slice())?;
    word.push(4)?;
    put_kinds(&mut word, u.results.as_slice())?;
    Ok(word)
}

// The type that a use writes.
fn type_of_use(alloc: Global, u: &Use) -> Result<FuncType, AllocError>
    ensures { IfOk result (λ ty. ty ≡ written_type u.now) }
{
    let params = kinds_of(alloc, u.params.as_slice())?;
    let results = u.results.copy()?;
    Ok(FuncType {
        params: List::new(params),
        results,
    })
}

fn kinds_of(alloc: Global, locals: &[Local]) -> Result<Vec<ValType>, AllocError>
    ensures { IfOk result (λ v. v.items ≡ map (λ l. l.kind) locals.now) }
{
    locals.iter().map(|l| l.kind).collect(alloc)
}

/// Whether a use writes no params and no results.
pub(crate) fn bare(u: &Use) -> bool
    ensures { result ≡ is_bare u.now }
{
    u.params.len() == 0 && u.results.len() == 0
}

/// Whether a use that names no type is of none.
pub(crate) fn short(u: &Use) -> bool
    ensures { result ≡ is_short u.now }
{
    u.of_block && u.params.len() == 0 && u.results.len() <= 1
}

/// Whether two value types are equal.
pub(crate) fn kinds_equal(a: ValType, b: ValType) -> bool
    ensures { result ≡ same_kind a b }
{
    match a {
        ValType::I32 => matches!(b, ValType::I32),
        ValType::I64 => matches!(b, ValType::I64),
        ValType::FuncRef => matches!(b, ValType::FuncRef),
        ValType::ExternRef => matches!(b, ValType::ExternRef),
    }
}

/// Whether what a use writes is the type. It costs what the use writes.
#[tactic(auto, using(crate::proofs::TypeLaws::words_equal, crate::proofs::TypeLaws::lengths_apart, crate::proofs::TypeLaws::params_apart))]
pub(crate) fn agrees(alloc: Global, u: &Use, ty: &FuncType) -> Result<bool, AllocError>
    ensures { IfOk result (λ b. b ≡ same_type (written_type u.now) ty.now) }
{
    if u.params.len() != ty.params.len() {
        return Ok(false);
    }
    if u.results.len() != ty.results.len() {
        return Ok(false);
    }
    let written = word_of_use(alloc, u)?;
    let named = word_of_type(alloc, ty)?;
    Ok(named == written)
}

impl Types {
    /// No types.
    pub(crate) fn new(alloc: Global) -> Types
        ensures { result ≡ [] }
    {
        Types {
            all: Vec::new(alloc),
            places: BTreeMap::new(alloc),
        }
    }

    /// The place of the first equal type.
    fn find(&self, word: &Vec<u8>) -> Option<u32>
        ensures { (ty : OneType) → word.now.items ≡ type_word ty → result ≡ type_position ty self.now }
    {
        self.places.get(word).copied()
    }

    /// The place of the first type that is what a use writes.
    pub(crate) fn find_written(&self, alloc: Global, u: &Use) -> Result<Option<u32>, AllocError>
        ensures { IfOk result (λ at. at ≡ type_position (written_type u.now) self.now) }
    {
        let word = word_of_use(alloc, u)?;
        Ok(self.find(&word))
    }

    /// The type at a place.
    pub(crate) fn get(&self, at: u32) -> Option<&FuncType>
        ensures { option_copied result ≡ slice_get self.now at }
    {
        self.all.get(at as usize)
    }

    /// All of them.
    pub(crate) fn into_list(self) -> List<FuncType>
        ensures { result ≡ self }
    {
        let Types { all, places: _ } = self;
        List::new(all)
    }
}

// Puts one more word behind those whose places these are.
fn put_word(
    places: &mut BTreeMap<Vec<u8>, u32>,
    place: usize,
    word: Vec<u8>,
) -> Result<(), AllocError>
    ensures { OnOk result ((words : Items (Maybe (Items ℕ))) → length words ≡ place → AreFirsts (λ k. k.items) words places.old
        → AreFirsts (λ k. k.items) (words ++ Some word.items ∷ []) places.new) }
{
    match places.get(&word).copied() {
        Some(_) => Ok(()),
        None => {
            let at = match u32::try_from(place) {
                Err(_) => return Err(AllocError),
                Ok(at) => at,
            };
            places.insert(word, at)?;
            Ok(())
        }
    }
}

// Puts a type at the end.
fn push(types: Types, word: Vec<u8>, ty: FuncType) -> Result<Types, AllocError>
    requires { word.items ≡ type_word ty }
    ensures { IfOk result (λ t. t ≡ types ++ ty ∷ []) }
{
    let Types {
        mut all,
        mut places,
    } = types;
    let place = all.len();
    put_word(&mut places, place, word)?;
    all.push(ty)?;
    Ok(Types { all, places })
}

/// The types with one that the text writes.
pub(crate) fn with_written(alloc: Global, types: Types, ty: &FuncType) -> Result<Types, AllocError>
    ensures { IfOk result (λ t. t ≡ types ++ ty.now ∷ []) }
{
    let word = word_of_type(alloc, ty)?;
    push(types, word, ty.clone()?)
}

/// The types with what a use appends.
pub(crate) fn with_use(alloc: Global, types: Types, u: &Use) -> Result<Types, AllocError>
    ensures { IfOk result (λ t. t ≡ with_use_of u.now types u.now.ty) }
{
    if u.ty.is_some() || short(u) {
        return Ok(types);
    }
    let word = word_of_use(alloc, u)?;
    if types.find(&word).is_some() {
        return Ok(types);
    }
    push(types, word, type_of_use(alloc, u)?)
}
