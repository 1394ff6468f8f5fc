// What the word of an instruction stands for (Text Format, Instructions).
use crate::named::OneIndex;
use wasm_ast::Instr;

/// What the word of an instruction asks for after it.
#[derive(Drop)]
pub enum Keyword {
    /// Nothing: the word is the whole instruction.
    Alone(Instr),
    /// One index.
    Index(OneIndex),
    /// The index of a table, 0 where it is missing.
    TableIndex(OneIndex),
    /// A load: an offset and an alignment.
    Load(u8),
    /// A store: an offset and an alignment.
    Store(u8),
    /// A number of 32 bits.
    Const32,
    /// A number of 64 bits.
    Const64,
    /// The indices of labels.
    BrTable,
    /// A table's index and a use of a type.
    CallIndirect,
    /// `func` or `extern`.
    RefNull,
    /// Maybe result types.
    Select,
    /// A table's index, where it isn't missing, and an element segment's.
    TableInit,
    /// The indices of two tables, where they aren't missing.
    TableCopy,
    /// A block.
    Block,
    /// A loop.
    Loop,
    /// An if.
    If,
}
