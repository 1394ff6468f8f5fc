// What an image says of a valid module.
use crate::parts::kinds;
use row_words::words_of;
use std::alloc::{AllocError, Global};
use wasm_ast::{ValType, Value};
use wasm_check::Checked;
use wasm_image::crossing::image_crosses;
use wasm_image::{EntryBad, Host, Image, Large, entry_of, too_large, unlinked};

fn linked(alloc: Global, image: &Image) -> Result<String, AllocError> {
    match unlinked(image) {
        None => String::from_str(alloc, "linked"),
        Some(k) => format!(in alloc; "unlinked {k}"),
    }
}

fn size(alloc: Global, image: &Image) -> Result<String, AllocError> {
    match too_large(image) {
        None => String::from_str(alloc, "small"),
        Some(Large::Memory(pages)) => format!(in alloc; "memory {pages}"),
        Some(Large::Tables(count)) => format!(in alloc; "tables {count}"),
        Some(Large::Table(elements)) => format!(in alloc; "table {elements}"),
    }
}

// The host function that the first function is.
fn host(image: &Image) -> &'static str {
    match image.host(0) {
        None => "no host",
        Some(Host::SymbolI32) => "i32_symbol",
        Some(Host::SymbolI64) => "i64_symbol",
        Some(Host::Assume) => "assume",
        Some(Host::Assert) => "assert",
    }
}

fn entry(alloc: Global, image: &Image, name: &str, args: &[Value]) -> Result<String, AllocError> {
    match entry_of(image, name, args) {
        Ok(f) => format!(in alloc; "entry {f}"),
        Err(EntryBad::NoExport) => String::from_str(alloc, "no export"),
        Err(EntryBad::Args { function }) => format!(in alloc; "arguments of {function}"),
    }
}

// A value of the type.
fn value(kind: ValType) -> Value {
    match kind {
        ValType::I32 => Value::I32(1),
        ValType::I64 => Value::I64(1),
        ValType::FuncRef => Value::Func(None),
        ValType::ExternRef => Value::Extern,
    }
}

/// Of a line that begins with `image`, the name of an export and the types of arguments: what the image of its module says.
pub fn image_says(alloc: Global, line: &str, checked: Checked) -> Result<String, AllocError> {
    let mut words = words_of(alloc, line)?;
    let _ = words.next_is("image");
    let name = words.next().unwrap_or("");
    let mut args = Vec::new(alloc);
    for kind in kinds(alloc, &mut words)?.as_slice() {
        args.push(value(*kind))?;
    }
    let image = Image::new(alloc, checked)?;
    image_crosses(&image);
    let linked = linked(alloc, &image)?;
    let size = size(alloc, &image)?;
    let functions = image.function_count();
    let imported = image.imported_count();
    let host = host(&image);
    let entry = entry(alloc, &image, name, args.as_slice())?;
    format!(in alloc;
        "{linked}, {size}, functions {functions} imported {imported}, {host}, {entry}"
    )
}
