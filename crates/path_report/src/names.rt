// Names as a line has them: of printable bytes alone.
ghost use Rattle.std.specs.Prelude.{◌≡◌, ◌++◌, OnOk, string_bytes, flat_map};
ghost use Rattle.path_report.specs.Report.{is_plain, name_byte, name_text};

use std::alloc::AllocError;
use wasm_ast::Text;

/// Appends a name: bytes from 0x21 to 0x7E but the backslash stand for themselves, each other one is `\hh`, in lower case.
/// The empty name is `-`, and the name `-` is `\2d`. After a refusal a part of it may have been appended.
pub fn put_name(out: &mut String, name: &Text) -> Result<(), AllocError>
    ensures { OnOk result (string_bytes out.new ≡ string_bytes out.old ++ name_text name.now) }
{
    match name.as_slice() {
        "" => out.push_str("-"),
        "-" => out.push_str("\\2d"),
        text => put_bytes(out, text.as_bytes()),
    }
}

fn put_bytes(out: &mut String, bytes: &[u8]) -> Result<(), AllocError>
    ensures { OnOk result (string_bytes out.new ≡ string_bytes out.old ++ flat_map name_byte bytes.now) }
{
    for byte in bytes {
        put_byte(out, *byte)?;
    }
    Ok(())
}

fn put_byte(out: &mut String, byte: u8) -> Result<(), AllocError>
    ensures { OnOk result (string_bytes out.new ≡ string_bytes out.old ++ name_byte byte) }
{
    if is_plain_byte(byte) {
        return out.push(byte as char);
    }
    write!(out, "\\{byte:02x}")?;
    Ok(())
}

fn is_plain_byte(byte: u8) -> bool
    ensures { result ≡ is_plain byte }
{
    byte.is_ascii_graphic() && byte != b'\\'
}
