// The answers of the lexer.
use std::alloc::{AllocError, Global};
use wat_lex::{LexBad, LexReason, Lexer, Token, TokenKind};

fn kind_word(kind: TokenKind) -> &'static str {
    match kind {
        TokenKind::Open => "open",
        TokenKind::Close => "close",
        TokenKind::Str => "str",
        TokenKind::Word => "word",
    }
}

fn reason_word(reason: LexReason) -> &'static str {
    match reason {
        LexReason::Char => "char",
        LexReason::OpenString => "string",
        LexReason::OpenComment => "comment",
        LexReason::BadEscape => "escape",
    }
}

// Appends an answer, and tells whether it is a token.
fn put_answer(out: &mut String, answer: Result<Option<Token>, LexBad>) -> Result<bool, AllocError> {
    match answer {
        Ok(Some(token)) => {
            let word = kind_word(token.kind);
            write!(out, "{word} {}-{} ", token.start, token.end)?;
            Ok(true)
        }
        Ok(None) => {
            out.push_str("end")?;
            Ok(false)
        }
        Err(bad) => {
            let word = reason_word(bad.reason);
            write!(out, "{word} at {}", bad.at)?;
            Ok(false)
        }
    }
}

// The tokens, and the two answers after them.
pub(crate) fn tokens_of(alloc: Global, source: &str) -> Result<String, AllocError> {
    let mut out = String::new(alloc);
    let mut lexer = Lexer::new(source);
    for _ in 0..=source.len() {
        if !put_answer(&mut out, lexer.next())? {
            break;
        }
    }
    out.push_str(", again ")?;
    put_answer(&mut out, lexer.next())?;
    Ok(out)
}
