// Modules written in words, part by part.
use crate::exprs::expr;
use row_words::{Words, empty_module, words_of};
use std::alloc::{AllocError, Global};
use wasm_ast::{
    Elem, Export, Expr, Func, FuncType, GlobalDef, GlobalType, Group, Import, ImportKind, Limits,
    List, Mode, Module, Segment, Space, TableType, Text, ValType,
};

/// The value types that come next.
pub fn kinds(alloc: Global, words: &mut Words) -> Result<List<ValType>, AllocError> {
    let mut kinds = List::new(Vec::new(alloc));
    for _ in 0..1_000_000 {
        let Some(kind) = words.kind() else {
            break;
        };
        kinds.push(kind)?;
    }
    Ok(kinds)
}

fn func_type(alloc: Global, words: &mut Words) -> Result<FuncType, AllocError> {
    let params = kinds(alloc, words)?;
    let _ = words.next_is("->");
    let results = kinds(alloc, words)?;
    Ok(FuncType { params, results })
}

fn limits(words: &mut Words) -> Option<Limits> {
    let min = words.index()?;
    let max = words.index();
    Some(Limits { min, max })
}

fn table_type(words: &mut Words) -> Option<TableType> {
    let kind = words.kind()?;
    let limits = limits(words)?;
    Some(TableType { kind, limits })
}

fn global_type(words: &mut Words) -> Option<GlobalType> {
    let mutable = words.next_is("mut");
    let kind = words.kind()?;
    Some(GlobalType { kind, mutable })
}

fn import_kind(words: &mut Words) -> Option<ImportKind> {
    if words.next_is("func") {
        return Some(ImportKind::Func(words.index()?));
    }
    if words.next_is("table") {
        return Some(ImportKind::Table(table_type(words)?));
    }
    if words.next_is("memory") {
        return Some(ImportKind::Memory(limits(words)?));
    }
    if words.next_is("global") {
        return Some(ImportKind::Global(global_type(words)?));
    }
    None
}

fn text(alloc: Global, word: &str) -> Result<Text, AllocError> {
    Ok(Text::new(String::from_str(alloc, word)?))
}

fn import(alloc: Global, words: &mut Words) -> Result<Option<Import>, AllocError> {
    let Some(from) = words.next() else {
        return Ok(None);
    };
    let Some(name) = words.next() else {
        return Ok(None);
    };
    let Some(kind) = import_kind(words) else {
        return Ok(None);
    };
    let from = text(alloc, from)?;
    let name = text(alloc, name)?;
    Ok(Some(Import {
        module: from,
        name,
        kind,
    }))
}

fn space(words: &mut Words) -> Option<Space> {
    if words.next_is("func") {
        return Some(Space::Func);
    }
    if words.next_is("table") {
        return Some(Space::Table);
    }
    if words.next_is("memory") {
        return Some(Space::Memory);
    }
    if words.next_is("global") {
        return Some(Space::Global);
    }
    None
}

fn export(alloc: Global, words: &mut Words) -> Result<Option<Export>, AllocError> {
    let Some(name) = words.next() else {
        return Ok(None);
    };
    let Some(space) = space(words) else {
        return Ok(None);
    };
    let Some(index) = words.index() else {
        return Ok(None);
    };
    let name = text(alloc, name)?;
    Ok(Some(Export { name, space, index }))
}

fn locals(alloc: Global, words: &mut Words) -> Result<List<Group>, AllocError> {
    let mut groups = List::new(Vec::new(alloc));
    if !words.next_is("local") {
        return Ok(groups);
    }
    for _ in 0..1_000_000 {
        let Some(kind) = words.kind() else {
            break;
        };
        let Some(count) = words.index() else {
            break;
        };
        groups.push(Group { count, kind })?;
    }
    Ok(groups)
}

fn func(alloc: Global, words: &mut Words) -> Result<Option<Func>, AllocError> {
    let Some(ty) = words.index() else {
        return Ok(None);
    };
    let locals = locals(alloc, words)?;
    if !words.next_is(":") {
        return Ok(None);
    }
    let Some(body) = expr(alloc, words)? else {
        return Ok(None);
    };
    Ok(Some(Func { ty, locals, body }))
}

fn global(alloc: Global, words: &mut Words) -> Result<Option<GlobalDef>, AllocError> {
    let Some(ty) = global_type(words) else {
        return Ok(None);
    };
    if !words.next_is(":") {
        return Ok(None);
    }
    let Some(init) = expr(alloc, words)? else {
        return Ok(None);
    };
    Ok(Some(GlobalDef { ty, init }))
}

// An active segment's index and offset.
fn active(alloc: Global, words: &mut Words) -> Result<Option<Mode>, AllocError> {
    let Some(index) = words.index() else {
        return Ok(None);
    };
    if !words.next_is(":") {
        return Ok(None);
    }
    let Some(offset) = expr(alloc, words)? else {
        return Ok(None);
    };
    Ok(Some(Mode::Active { index, offset }))
}

fn mode(alloc: Global, words: &mut Words) -> Result<Option<Mode>, AllocError> {
    if words.next_is("passive") {
        return Ok(Some(Mode::Passive));
    }
    if words.next_is("declared") {
        return Ok(Some(Mode::Declared));
    }
    if words.next_is("active") {
        return Ok(active(alloc, words)?);
    }
    Ok(None)
}

// Expressions, each after a comma.
fn items(alloc: Global, words: &mut Words) -> Result<Option<List<Expr>>, AllocError> {
    let mut items = List::new(Vec::new(alloc));
    for _ in 0..1_000_000 {
        if !words.next_is(",") {
            break;
        }
        let Some(item) = expr(alloc, words)? else {
            return Ok(None);
        };
        items.push(item)?;
    }
    Ok(Some(items))
}

fn elem(alloc: Global, words: &mut Words) -> Result<Option<Elem>, AllocError> {
    let Some(kind) = words.kind() else {
        return Ok(None);
    };
    let Some(mode) = mode(alloc, words)? else {
        return Ok(None);
    };
    let Some(items) = items(alloc, words)? else {
        return Ok(None);
    };
    Ok(Some(Elem { kind, items, mode }))
}

fn segment(alloc: Global, words: &mut Words) -> Result<Option<Segment>, AllocError> {
    let Some(mode) = mode(alloc, words)? else {
        return Ok(None);
    };
    Ok(Some(Segment {
        bytes: List::new(Vec::new(alloc)),
        mode,
    }))
}

// Types, tables, memories and the start.
fn small_part(
    alloc: Global,
    m: &mut Module,
    words: &mut Words,
    word: &str,
) -> Result<bool, AllocError> {
    if word == "type" {
        m.types.push(func_type(alloc, words)?)?;
        return Ok(true);
    }
    if word == "table" {
        let Some(ty) = table_type(words) else {
            return Ok(false);
        };
        m.tables.push(ty)?;
        return Ok(true);
    }
    if word == "memory" {
        let Some(limits) = limits(words) else {
            return Ok(false);
        };
        m.memories.push(limits)?;
        return Ok(true);
    }
    if word == "start" {
        m.start = words.index();
        return Ok(true);
    }
    Ok(false)
}

fn named_part(
    alloc: Global,
    m: &mut Module,
    words: &mut Words,
    word: &str,
) -> Result<bool, AllocError> {
    if word == "import" {
        let Some(import) = import(alloc, words)? else {
            return Ok(false);
        };
        m.imports.push(import)?;
        return Ok(true);
    }
    if word == "export" {
        let Some(export) = export(alloc, words)? else {
            return Ok(false);
        };
        m.exports.push(export)?;
        return Ok(true);
    }
    small_part(alloc, m, words, word)
}

fn segment_part(
    alloc: Global,
    m: &mut Module,
    words: &mut Words,
    word: &str,
) -> Result<bool, AllocError> {
    if word == "elem" {
        let Some(elem) = elem(alloc, words)? else {
            return Ok(false);
        };
        m.elems.push(elem)?;
        return Ok(true);
    }
    if word == "data" {
        let Some(segment) = segment(alloc, words)? else {
            return Ok(false);
        };
        m.segments.push(segment)?;
        return Ok(true);
    }
    named_part(alloc, m, words, word)
}

fn part(alloc: Global, m: &mut Module, words: &mut Words, word: &str) -> Result<bool, AllocError> {
    if word == "func" {
        let Some(func) = func(alloc, words)? else {
            return Ok(false);
        };
        m.funcs.push(func)?;
        return Ok(true);
    }
    if word == "global" {
        let Some(global) = global(alloc, words)? else {
            return Ok(false);
        };
        m.globals.push(global)?;
        return Ok(true);
    }
    segment_part(alloc, m, words, word)
}

/// Something in each index space. Types: 0 takes and gives nothing, 1 takes an i32 and gives an i64, 2 takes two i32 and
/// gives one, 3 gives an i32 and an i64. Functions: 0 is imported, of the type 1. Tables: 0 of functions, 1 of others, 2 of
/// functions. Globals: 0 is imported, an i32; 1 is a mutable i64. Element segments: 0 of functions, 1 of others. One
/// memory, one data segment.
const FULL: &str =
    "type -> ; type i32 -> i64 ; type i32 i32 -> i32 ; type -> i32 i64 ; import env f func 1 ; import env g global i32 ; table funcref 10 ; table externref 10 ; table funcref 1 ; memory 1 ; global mut i64 : i64.const ; elem funcref passive , ref.func 0 ; elem externref declared ; data passive ;";

fn parts(alloc: Global, m: &mut Module, line: &str) -> Result<bool, AllocError> {
    let mut words = words_of(alloc, line)?;
    for _ in 0..1_000_000 {
        let Some(word) = words.next() else {
            break;
        };
        if word == ";" || word == "full" {
            continue;
        }
        if word == "image" {
            let _ = words.next();
            let _ = kinds(alloc, &mut words)?;
            continue;
        }
        if !part(alloc, m, &mut words, word)? {
            return Ok(false);
        }
    }
    Ok(true)
}

/// The module that the line writes.
pub fn module_of(alloc: Global, line: &str) -> Result<Option<Module>, AllocError> {
    let mut m = empty_module(alloc);
    if line.starts_with("full") {
        if !parts(alloc, &mut m, FULL)? {
            return Ok(None);
        }
    }
    if !parts(alloc, &mut m, line)? {
        return Ok(None);
    }
    Ok(Some(m))
}
