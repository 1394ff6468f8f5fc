// Lists and modules to begin with.
use std::alloc::{AllocError, Global};
use wasm_ast::{List, Module};

/// The empty list.
pub fn none<T>(alloc: Global) -> List<T> {
    List::new(Vec::new(alloc))
}

/// The list of one item.
pub fn one<T: Drop>(alloc: Global, item: T) -> Result<List<T>, AllocError> {
    let mut list = none(alloc);
    list.push(item)?;
    Ok(list)
}

/// The module without any section.
pub fn empty_module(alloc: Global) -> Module {
    Module {
        types: none(alloc),
        imports: none(alloc),
        funcs: none(alloc),
        tables: none(alloc),
        memories: none(alloc),
        globals: none(alloc),
        exports: none(alloc),
        start: None,
        elems: none(alloc),
        segments: none(alloc),
        customs: none(alloc),
    }
}
