// Strings (Text Format, Values: Strings).
ghost use Rattle.std.specs.Prelude.{◌≡◌, ◌++◌, OnOk, string_bytes, flat_map};
ghost use Rattle.wasm_text.specs.PrintedTypes.{is_plain as is_plain_char, string_byte, string_text};

use std::alloc::AllocError;

fn is_plain(byte: u8) -> bool
    ensures { result ≡ is_plain_char byte }
{
    byte >= 0x20 && byte <= 0x7E && byte != b'"' && byte != b'\\'
}

fn put_byte(out: &mut String, byte: u8) -> Result<(), AllocError>
    ensures { OnOk result (string_bytes out.new ≡ string_bytes out.old ++ string_byte byte) }
{
    if is_plain(byte) {
        return out.push(byte as char);
    }
    write!(out, "\\{byte:02x}")?;
    Ok(())
}

fn put_bytes(out: &mut String, bytes: &[u8]) -> Result<(), AllocError>
    ensures { OnOk result (string_bytes out.new ≡ string_bytes out.old ++ flat_map string_byte bytes.now) }
{
    for byte in bytes {
        put_byte(out, *byte)?;
    }
    Ok(())
}

// Puts a string of these bytes at the end, with its quotes.
pub(crate) fn put_string(out: &mut String, bytes: &[u8]) -> Result<(), AllocError>
    ensures { OnOk result (string_bytes out.new ≡ string_bytes out.old ++ string_text bytes.now) }
{
    out.push_str("\"")?;
    put_bytes(out, bytes)?;
    out.push_str("\"")
}
