// Tokens, and why characters are none (Text Format, Lexical Format).

/// What a token is (Text Format, Lexical Format: Tokens).
#[derive(Clone, Copy, Debug, PartialEq, Eq)]
pub enum TokenKind {
    /// `(`
    Open,
    /// `)`
    Close,
    /// A string, with its quotes.
    Str,
    /// A keyword, a number, an identifier, or another longest run of the characters of which these are made.
    Word,
}

/// A token: the characters from one place to another, as places of bytes in the source.
#[derive(Clone, Copy, Debug, PartialEq, Eq)]
pub struct Token {
    /// What it is.
    pub kind: TokenKind,
    /// The place of its first character.
    pub start: usize,
    /// The place after its last.
    pub end: usize,
}

/// Why characters don't go on with a token.
#[derive(Clone, Copy, Debug, PartialEq, Eq)]
pub enum LexReason {
    /// A character begins no token, or can't stand in a string.
    Char,
    /// A string isn't closed.
    OpenString,
    /// A block comment isn't closed.
    OpenComment,
    /// A backslash in a string begins no escape.
    BadEscape,
}

/// The first trouble of a source's characters.
#[derive(Clone, Copy, Debug, PartialEq, Eq)]
pub struct LexBad {
    /// What it is.
    pub reason: LexReason,
    /// Its place: the character, the opening of the string or of the outermost comment, or the backslash.
    pub at: u64,
}
