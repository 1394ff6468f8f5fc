// What is asked of modules.
use crate::given::given;
use crate::modules::put_module;
use row_words::{Words, none, one, put_bytes};
use std::alloc::{AllocError, Global};
use std::fmt::Write;
use wasm_ast::{Expr, Func, Module, has_shape, same};
use wasm_read::{ReadBad, read_module, read_stripped};
use wasm_write::{WriteBad, write_module};

fn put_trouble(out: &mut String, bad: ReadBad) -> Result<(), AllocError> {
    write!(out, "{bad}")
}

fn put_shape(alloc: Global, out: &mut String, module: &Module) -> Result<bool, AllocError> {
    let is = has_shape(alloc, module)?;
    if !is {
        out.push_str("not well-formed")?;
    }
    Ok(is)
}

/// The module that the bytes spell, or the trouble of both readers.
pub fn read_case(alloc: Global, out: &mut String, words: &mut Words) -> Result<(), AllocError> {
    let bytes = given(alloc, words)?;
    let stripped = read_stripped(alloc, bytes.as_slice());
    match read_module(alloc, bytes.as_slice()) {
        Ok(module) => {
            if put_shape(alloc, out, &module)? {
                put_module(out, &module)?;
            }
            if stripped.is_err() {
                out.push_str(", but not without custom sections")?;
            }
            Ok(())
        }
        Err(bad) => {
            put_trouble(out, bad)?;
            if stripped.err() != Some(bad) {
                out.push_str(", but another without custom sections")?;
            }
            Ok(())
        }
    }
}

/// The module that the bytes spell, without custom sections.
pub fn strip_case(alloc: Global, out: &mut String, words: &mut Words) -> Result<(), AllocError> {
    let bytes = given(alloc, words)?;
    match read_stripped(alloc, bytes.as_slice()) {
        Ok(module) => put_module(out, &module),
        Err(bad) => put_trouble(out, bad),
    }
}

// What a well-formed module is written to, or why it isn't.
fn written(alloc: Global, out: &mut String, module: &Module) -> Result<Vec<u8>, AllocError> {
    if has_shape(alloc, module)? {
        match write_module(alloc, module) {
            Ok(bytes) => return Ok(bytes),
            Err(WriteBad::TooLong(id)) => write!(out, "section {id} is too long")?,
            Err(WriteBad::NoMemory) => out.push_str("no memory")?,
        }
    } else {
        out.push_str("not well-formed")?;
    }
    Ok(Vec::new(alloc))
}

/// The bytes to which the module that the bytes spell is written.
pub fn write_case(alloc: Global, out: &mut String, words: &mut Words) -> Result<(), AllocError> {
    let bytes = given(alloc, words)?;
    match read_module(alloc, bytes.as_slice()) {
        Ok(module) => {
            let bytes = written(alloc, out, &module)?;
            put_bytes(out, bytes.as_slice())
        }
        Err(bad) => put_trouble(out, bad),
    }
}

// How many sequences the first function has.
fn sequences_of(module: &Module) -> usize {
    match module.funcs.as_slice().first() {
        Some(func) => func.body.seqs.len(),
        None => 0,
    }
}

/// How many sequences the first function of the module has, and how many bytes it is written to.
pub fn size_case(alloc: Global, out: &mut String, words: &mut Words) -> Result<(), AllocError> {
    let bytes = given(alloc, words)?;
    match read_module(alloc, bytes.as_slice()) {
        Ok(module) => {
            let count = sequences_of(&module);
            let size = written(alloc, out, &module)?.len();
            write!(out, "{count} sequences, {size} bytes")
        }
        Err(bad) => put_trouble(out, bad),
    }
}

/// Whether the modules that the bytes before and after a slash spell are equal.
pub fn same_case(alloc: Global, out: &mut String, words: &mut Words) -> Result<(), AllocError> {
    let first = given(alloc, words)?;
    let second = given(alloc, words)?;
    let Ok(one) = read_module(alloc, first.as_slice()) else {
        return out.push_str("the first is refused");
    };
    let Ok(other) = read_module(alloc, second.as_slice()) else {
        return out.push_str("the second is refused");
    };
    out.push_str(if same(&one, &other) {
        "same"
    } else {
        "another"
    })
}

fn shape_text(is: bool) -> &'static str {
    if is { "well-formed" } else { "not well-formed" }
}

/// Whether the module is well-formed, and then with a function whose body has no sequence at all.
pub fn hollow_case(alloc: Global, out: &mut String, words: &mut Words) -> Result<(), AllocError> {
    let bytes = given(alloc, words)?;
    let Ok(mut module) = read_module(alloc, bytes.as_slice()) else {
        return out.push_str("refused");
    };
    out.push_str(shape_text(has_shape(alloc, &module)?))?;
    let hollow = Func {
        ty: 0,
        locals: none(alloc),
        body: Expr { seqs: none(alloc) },
    };
    module.funcs = one(alloc, hollow)?;
    out.push_str(", then ")?;
    out.push_str(shape_text(has_shape(alloc, &module)?))
}
