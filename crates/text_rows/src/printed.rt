// The answers of the printer.
use row_words::bytes_of;
use std::alloc::{AllocError, Global};
use wasm_read::read_module;
use wat_print::print_text;

// The text of the module that the bytes spell, with `↵` in the place of each line feed.
pub(crate) fn text_of(alloc: Global, digits: &str) -> Result<String, AllocError> {
    let bytes = bytes_of(alloc, digits)?;
    match read_module(alloc, bytes.as_slice()) {
        Err(_) => String::from_str(alloc, "no module"),
        Ok(m) => {
            let text = print_text(alloc, &m)?;
            shown(alloc, text.as_slice())
        }
    }
}

fn shown(alloc: Global, text: &[u8]) -> Result<String, AllocError> {
    let mut out = String::new(alloc);
    for byte in text {
        if *byte == b'\n' {
            out.push('↵')?;
        } else {
            out.push(*byte as char)?;
        }
    }
    Ok(out)
}
