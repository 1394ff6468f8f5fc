// The characters of a text (Text Format, Lexical Format: Characters, White Space; Values: Strings).
ghost use Rattle.std.specs.Prelude.{◌≡◌, ◌<◌, IsTrue};
ghost use Rattle.wasm_text.specs.Characters.{is_space as is_space_char, is_word_char as is_of_word, is_in_line as is_of_line, is_string_char as is_of_string, is_short_escape as is_escape_char, is_hex as is_hex_digit, hex_value as value_of_hex, is_scalar as is_scalar_value};

pub(crate) fn is_space(c: u8) -> bool
    ensures { result ≡ is_space_char c }
{
    matches!(c, b' ' | b'\t' | b'\n' | b'\r')
}

// A character of which words are made.
pub(crate) fn is_word_char(c: u8) -> bool
    ensures { result ≡ is_of_word c }
{
    matches!(c, 0x21 | 0x23..=0x27 | 0x2A..=0x2B | 0x2D..=0x3A | 0x3C..=0x5A | 0x5C | 0x5E..=0x7A | 0x7C | 0x7E)
}

// A character that stands in a line comment.
pub(crate) fn is_in_line(c: u8) -> bool
    ensures { result ≡ is_of_line c }
{
    c != b'\n'
}

// A character that stands for itself in a string, or its quote or a backslash.
pub(crate) fn is_string_char(c: u8) -> bool
    ensures { result ≡ is_of_string c }
{
    c >= 0x20 && c != 0x7F
}

// A character that is an escape after a backslash.
pub(crate) fn is_short_escape(c: u8) -> bool
    ensures { result ≡ is_escape_char c }
{
    matches!(c, b't' | b'n' | b'r' | b'"' | b'\'' | b'\\')
}

pub(crate) fn is_hex(c: u8) -> bool
    ensures { result ≡ is_hex_digit c }
{
    matches!(c, b'0'..=b'9' | b'A'..=b'F' | b'a'..=b'f')
}

// What a hexadecimal digit counts.
pub(crate) fn hex_value(c: u8) -> u32
    requires { IsTrue (is_hex_digit c) }
    ensures value { result ≡ value_of_hex c }
    ensures below { result < 16 }
{
    if c <= b'9' {
        u32::from(c - b'0')
    } else if c <= b'F' {
        u32::from(c - 0x37)
    } else {
        u32::from(c - 0x57)
    }
}

// Whether it is the number of a character.
pub(crate) fn is_scalar(n: u32) -> bool
    ensures { result ≡ is_scalar_value n }
{
    n < 0xD800 || matches!(n, 0xE000..=0x10FFFF)
}
