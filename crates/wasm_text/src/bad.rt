// Why a text is no module.
use crate::tokens::{LexBad, Token};

/// Why a text is no module, and where: places are bytes of the source, from 0.
///
/// What tokens and literals are at fault with comes before all that names and uses of types are at fault with.
#[derive(Clone, Copy, Debug, PartialEq, Eq)]
pub enum TextBad {
    /// An import's or an export's name isn't UTF-8; its quote.
    Utf8 { at: u64 },
    /// The first trouble of the source's characters.
    Lex(LexBad),
    /// A type or an instruction of floating-point numbers or vectors; the start of the word.
    Outside { at: u64 },
    /// A number out of its range, or an alignment that isn't a power of two; the start of the word.
    Range { at: u64 },
    /// No form goes on with this token: its start, or the source's length where the source ends.
    Want { token: Option<Token>, at: u64 },
    /// A function has more than 50,000 locals, params aside: the count at which they pass this bound, and the parenthesis of the part.
    Locals { sum: u64, at: u64 },
    /// An identifier isn't defined; its start.
    Unknown { at: u64 },
    /// An identifier other than a label's is defined again in its space; its start. Or there is a second start; its parenthesis.
    Twice { at: u64 },
    /// A use of a type has written params or results that differ from the type that it names, or that type isn't there; the use's
    /// start.
    Use { at: u64 },
    /// Memory is wanting.
    NoMemory,
}
