// The tokens of a source in the text format (Text Format, Lexical Format), one after another.
//
// `Lexing.antt` of wasm_text says what the next token is from a place on, or the first trouble (`next_token`). `Lexer::next`
// answers exactly that, takes no memory, and gives each token as the places of its characters.
#![tactic(auto)]

ghost use Rattle.std.specs.Prelude.{◌≡◌, ◌≤◌, ◌<◌, length, IfOk, IfSome, OnErr};
ghost use Rattle.wasm_text.specs.Lexing.{next_token};
ghost use Rattle.wat_lex.specs.Places.{at_start, after};

mod characters;
mod comments;
mod strings;
mod words;

use comments::gap_end;
use std::marker::Model;
pub use wasm_text::{LexBad, LexReason, Token, TokenKind};
use words::token_at;

/// A source, and how far its tokens have been given. Contracts see it as the bytes of the source and a place.
#[derive(Drop)]
pub struct Lexer<'a> {
    bytes: &'a [u8],
    at: usize,
}

impl<'a> Model for Lexer<'a> {
    ghost use Rattle.std.specs.Prelude.{◌≤◌, length};
    ghost use Rattle.wat_lex.specs.Places.{Place};

    ghost Value = { Place };

    ghost view = { λ l. record { source = l.bytes.now; at = l.at } };

    ghost invariant = { λ l. l.at ≤ length l.bytes.now };
}

impl<'a> Lexer<'a> {
    /// At the start of a source. It takes no memory.
    pub fn new(source: &'a str) -> Lexer<'a>
        ensures { result ≡ at_start source.now }
    {
        Lexer {
            bytes: source.as_bytes(),
            at: 0,
        }
    }

    /// The next token, None where only separators and whole comments are left, or why no token goes on. It takes no memory.
    ///
    /// A token's text is the slice of the source between its places. After a refusal, each call answers it again.
    pub fn next(&mut self) -> Result<Option<Token>, LexBad>
        ensures token { result ≡ next_token self.old.source self.old.at }
        ensures after { self.new ≡ after self.old result }
        ensures start { IfOk result (λ found. IfSome found (λ t. self.old.at ≤ t.start)) }
        ensures some { IfOk result (λ found. IfSome found (λ t. t.start < t.end)) }
        ensures within { IfOk result (λ found. IfSome found (λ t. t.end ≤ length self.old.source)) }
        ensures again { OnErr result (self.new ≡ self.old) }
    {
        let start = match gap_end(self.bytes, self.at) {
            Ok(start) => start,
            Err(bad) => return Err(bad),
        };
        match token_at(self.bytes, start) {
            Ok(Some(token)) => {
                self.at = token.end;
                Ok(Some(token))
            }
            Ok(None) => Ok(None),
            Err(bad) => Err(bad),
        }
    }
}
