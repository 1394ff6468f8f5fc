// Modules in the text format, as definitions (Text Format).
//
// A text is related to a module in three layers, and each says what the first trouble is of a text that has none:
//
// - characters to tokens (`specs/Lexing.antt`): the tokens of a text with their places, or the first trouble of its characters;
// - tokens to a written module (`specs/TextFields.antt`, `specs/TextInstructions.antt`): what each field says, with identifiers where
//   they stand;
// - names to positions (`specs/Resolved.antt`, `specs/NameTroubles.antt`): what each identifier means, and which is at fault.
//
// `specs/Texts.antt` puts them together: which text is one of which module (`IsText`), and the first trouble of any other (`TextFault`).
// `specs/Printing.antt` says which text is printed of a module (`printed`).
#![tactic(auto)]

pub mod bad;
pub mod keywords;
pub mod laws;
pub mod named;
pub mod tokens;

pub use bad::TextBad;
pub use keywords::Keyword;
pub use named::{
    Id, Idx, Local, Named, Names, OneIndex, Use, Written, WrittenData, WrittenElem, WrittenExport,
    WrittenExpr, WrittenFunc, WrittenGlobal, WrittenImport, WrittenKind, WrittenMode, WrittenStart,
};
pub use tokens::{LexBad, LexReason, Token, TokenKind};
