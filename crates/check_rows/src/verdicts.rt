// What the validator says of a module.
use crate::images::image_says;
use crate::parts::module_of;
use std::alloc::{AllocError, Global};
use wasm_ast::{Module, has_shape};
use wasm_check::crossing::checked_crosses;
use wasm_check::{Checked, Why, check};

// Of a valid module: that it is the one that was given is proved.
fn passes(checked: &Checked) -> &'static str {
    checked_crosses(checked);
    if checked.module().customs.is_empty() {
        "valid"
    } else {
        "valid, with custom sections"
    }
}

fn said(alloc: Global, why: Why) -> Result<String, AllocError> {
    match why {
        Why::Field { section, entry } => {
            format!(in alloc; "invalid section {section} entry {entry}")
        }
        Why::Code { function, place } => {
            format!(in alloc; "invalid function {function} at {place}")
        }
        Why::NoMemory => String::from_str(alloc, "no memory"),
    }
}

fn verdict(alloc: Global, line: &str, m: Module) -> Result<String, AllocError> {
    if !has_shape(alloc, &m)? {
        return String::from_str(alloc, "no shape");
    }
    match check(alloc, m) {
        Ok(checked) => {
            if line.starts_with("image") {
                return image_says(alloc, line, checked);
            }
            String::from_str(alloc, passes(&checked))
        }
        Err(refused) => said(alloc, refused.why),
    }
}

/// The verdict on the module that the line writes.
pub fn verdict_of(alloc: Global, line: &str) -> Result<String, AllocError> {
    match module_of(alloc, line)? {
        None => String::from_str(alloc, "no module"),
        Some(m) => verdict(alloc, line, m),
    }
}
