// A module.
ghost use Rattle.std.specs.Prelude.{◌≡◌, ◌⊎◌, ◌++◌, [], flat_map, map, drop, length, None, Ok, Err, IfOk, IfErr, OnOk};
ghost use Rattle.wasm_text.specs.Uses.{types_with};
ghost use Rattle.wasm_text.specs.declared.bad.TextBad.TheVariants as TextBad;
ghost use Rattle.wasm_text.specs.Resolved.{Scope as Known, scope_of, module_in, start_of};
ghost use Rattle.wasm_text.specs.NameTroubles.{unknown, use_troubles, twice, twice_in_names, start_troubles, troubles, resolved};
ghost use Rattle.wat_resolve.specs.code.Noting.{noted};
ghost use Rattle.wat_resolve.specs.code.Spaces.{field_troubles, with_locals};

use crate::each::resolve_all;
use crate::ids::Ids;
use crate::inside::Inside;
use crate::noting::{join, note};
use crate::scopes::Scope;
use crate::types::{Types, with_use, with_written};
use std::alloc::{AllocError, Global};
use wasm_ast::{FuncType, List, Module};
use wasm_text::{Id, Named, Names, TextBad, Use, WrittenStart};

// The types that the text writes, and those that its uses append.
fn types_of(alloc: Global, written: &[FuncType], uses: &[Use]) -> Result<Types, AllocError>
    ensures { IfOk result (λ t. t ≡ types_with written.now uses.now) }
{
    let mut types = written_types(alloc, written)?;
    for u in uses {
        types = with_use(alloc, types, u)?;
    }
    Ok(types)
}

fn written_types(alloc: Global, written: &[FuncType]) -> Result<Types, AllocError>
    ensures { IfOk result (λ t. t ≡ written.now) }
{
    let mut types = Types::new(alloc);
    for ty in written {
        types = with_written(alloc, types, ty)?;
    }
    Ok(types)
}

// The identifiers of a space. It notes those that are defined again.
fn ids_of<'a>(
    alloc: Global,
    text: &'a [u8],
    ids: &List<Option<Id>>,
    found: &mut Option<TextBad>,
) -> Result<Ids<'a>, AllocError>
    ensures value { IfOk result (λ s. s ≡ record { text = text.now; ids = ids.now }) }
    ensures found { OnOk result (found.new ≡ noted (twice text.now ids.now) found.old) }
{
    let mut list = Vec::new(alloc);
    list.extend_from_slice(ids.as_slice())?;
    Ids::new(alloc, text, 0, list, found)
}

// What is known outside of functions. It notes identifiers that are defined again.
#[tactic(auto, using(crate::proofs::NotingLaws::noted_append))]
fn scope<'a>(
    alloc: Global,
    text: &'a [u8],
    named: &Named,
    uses: &'a [Use],
    found: &mut Option<TextBad>,
) -> Result<Scope<'a>, AllocError>
    ensures value { IfOk result (λ s. s ≡ scope_of text.now named.now uses.now) }
    ensures found { OnOk result (found.new ≡ noted (twice_in_names text.now named.now.names) found.old) }
{
    let names = &named.names;
    let types = ids_of(alloc, text, &names.types, found)?;
    let funcs = ids_of(alloc, text, &names.funcs, found)?;
    let tables = ids_of(alloc, text, &names.tables, found)?;
    let memories = ids_of(alloc, text, &names.memories, found)?;
    let globals = ids_of(alloc, text, &names.globals, found)?;
    let elems = ids_of(alloc, text, &names.elems, found)?;
    let segments = ids_of(alloc, text, &names.segments, found)?;
    let all = types_of(alloc, named.types.as_slice(), uses)?;
    Ok(Scope {
        uses,
        all,
        types,
        funcs,
        tables,
        memories,
        globals,
        elems,
        segments,
        labels: Ids::none(alloc, text),
    })
}

// Notes what the uses are at fault with.
#[tactic(auto, using(crate::proofs::NotingLaws::noted_append))]
fn check_uses(
    alloc: Global,
    scope: &Scope,
    uses: &[Use],
    found: &mut Option<TextBad>,
) -> Result<(), AllocError>
    ensures { OnOk result (found.new ≡ noted (flat_map (use_troubles scope.now.types) uses.now) found.old) }
{
    for u in uses {
        scope.check_use(alloc, u, found)?;
    }
    Ok(())
}

// Notes what the functions of the starts are at fault with.
#[tactic(auto, using(crate::proofs::NotingLaws::noted_append))]
fn check_functions(scope: &Scope, starts: &[WrittenStart], found: &mut Option<TextBad>)
    ensures { found.new ≡ noted (flat_map (λ x. unknown scope.now.types.text scope.now.names.funcs x.func) starts.now) found.old }
{
    for start in starts {
        scope.funcs.number(start.func, found);
    }
}

// Notes these starts, which stand after the first.
#[tactic(auto, using(crate::proofs::NotingLaws::noted_append))]
fn note_starts(starts: &[WrittenStart], found: &mut Option<TextBad>)
    ensures { found.new ≡ noted (map (λ x. TextBad.Twice x.at) starts.now) found.old }
{
    for start in starts {
        note(
            found,
            TextBad::Twice {
                at: start.at as u64,
            },
        );
    }
}

fn note_later(starts: &[WrittenStart], found: &mut Option<TextBad>)
    ensures { found.new ≡ noted (map (λ x. TextBad.Twice x.at) (drop 1 starts.now)) found.old }
{
    if let Some((_, rest)) = starts.split_first() {
        note_starts(rest, found);
    }
}

// Notes what the starts are at fault with.
#[tactic(auto, using(crate::proofs::NotingLaws::noted_append))]
fn check_starts(scope: &Scope, starts: &[WrittenStart], found: &mut Option<TextBad>)
    ensures { found.new ≡ noted (start_troubles scope.now starts.now) found.old }
{
    check_functions(scope, starts, found);
    note_later(starts, found);
}

// The function of the first start.
fn start(scope: &Scope, starts: &[WrittenStart]) -> Option<u32>
    ensures { result ≡ start_of scope.now starts.now }
{
    match starts.first() {
        None => None,
        Some(x) => match scope.funcs.find(x.func) {
            None => Some(0),
            Some(n) => Some(n),
        },
    }
}

// All but the types, which are still used.
#[tactic(auto, using(crate::proofs::NotingLaws::noted_append))]
fn fields(
    alloc: Global,
    scope: &Scope,
    named: &Named,
    found: &mut Option<TextBad>,
) -> Result<Module, AllocError>
    ensures made { IfOk result (λ m. m ≡ record (module_in (with_locals scope.now []) named.now) { types = [] }) }
    ensures found { OnOk result (found.new ≡ noted (field_troubles (with_locals scope.now []) named.now) found.old) }
{
    let inside = Inside::outside(alloc, scope);
    let imports = resolve_all(alloc, named.imports.as_slice(), &inside, found)?;
    let funcs = resolve_all(alloc, named.funcs.as_slice(), &inside, found)?;
    let globals = resolve_all(alloc, named.globals.as_slice(), &inside, found)?;
    let exports = resolve_all(alloc, named.exports.as_slice(), &inside, found)?;
    check_starts(scope, named.starts.as_slice(), found);
    let elems = resolve_all(alloc, named.elems.as_slice(), &inside, found)?;
    let segments = resolve_all(alloc, named.segments.as_slice(), &inside, found)?;
    let tables = named.tables.copy()?;
    let memories = named.memories.copy()?;
    Ok(Module {
        types: List::new(Vec::new(alloc)),
        imports,
        funcs,
        tables,
        memories,
        globals,
        exports,
        start: start(scope, named.starts.as_slice()),
        elems,
        segments,
        customs: List::new(Vec::new(alloc)),
    })
}

// The module and the trouble of least place, whichever there is.
#[tactic(auto, using(crate::proofs::NotingLaws::noted_append))]
fn resolve_all_of(
    alloc: Global,
    text: &[u8],
    named: &Named,
    uses: &[Use],
    found: &mut Option<TextBad>,
) -> Result<Module, AllocError>
    ensures made { IfOk result (λ m. m ≡ module_in (scope_of text.now named.now uses.now) named.now) }
    ensures found { OnOk result (found.new ≡ noted (troubles (scope_of text.now named.now uses.now) named.now) found.old) }
{
    let mut again = None;
    let known = scope(alloc, text, named, uses, &mut again)?;
    check_uses(alloc, &known, uses, found)?;
    join(found, again);
    let module = fields(alloc, &known, named, found)?;
    let Scope { all, .. } = known;
    Ok(Module {
        types: all.into_list(),
        ..module
    })
}

/// The module that a written one stands for, by its uses of types in the order of the text, or the first trouble of its names and uses,
/// which is the one of least place. Without a trouble it refuses only where memory runs out (Text Format, Modules).
pub fn resolve(alloc: Global, text: &str, named: &Named, uses: &[Use]) -> Result<Module, TextBad>
    ensures module { IfOk result (λ m. resolved text.now named.now uses.now ≡ Ok m) }
    ensures trouble { IfErr result (λ bad. (bad ≡ TextBad.NoMemory) ⊎ (resolved text.now named.now uses.now ≡ Err bad)) }
{
    let mut found = None;
    let module = match resolve_all_of(alloc, text.as_bytes(), named, uses, &mut found) {
        Err(_) => return Err(TextBad::NoMemory),
        Ok(module) => module,
    };
    match found {
        None => Ok(module),
        Some(bad) => Err(bad),
    }
}
