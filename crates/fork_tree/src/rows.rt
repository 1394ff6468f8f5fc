// The rows of a tree of paths.
use wasm_ast::{Cause, Draw, List, Value};

/// The bounds of an exploration.
#[derive(Clone, Copy, Debug, PartialEq, Eq)]
pub struct Bounds {
    /// The most units that a run may spend, from 1 to 10,000,000.
    pub steps: u64,
    /// The most choices of a path, from 0 to 64.
    pub forks: u64,
    /// The most conflicts of a question, from 1 to 1,000,000.
    pub conflicts: u64,
}

/// How a path ends.
#[derive(Drop)]
pub enum Kind {
    /// The export returns these results.
    Returns(List<Value>),
    /// It traps, for this cause.
    Traps(Cause),
    /// An assertion doesn't hold.
    Fails,
    /// All steps are spent.
    Bound,
    /// A call would nest too deep.
    Deep,
    /// It would need one more choice than the bounds allow.
    Cut,
    /// The solver spent its conflicts before it knew whether an input goes on here.
    Undecided,
    /// No input meets the assumptions.
    Void,
}

/// An operand of a line of terms.
#[derive(Clone, Copy, Debug, PartialEq, Eq)]
pub enum Operand {
    /// A number.
    Number(u64),
    /// A symbol by its number, from 0.
    Symbol(u64),
    /// What an earlier line gives, by its number, from 1.
    Line(u64),
}

/// The operation of a line of terms.
#[derive(Clone, Copy, Debug, PartialEq, Eq)]
pub enum LineOp {
    /// The operator of a unary or a binary opcode.
    Op(u8),
    /// The second operand where the first isn't 0, else the third.
    Choose,
    /// A byte of the operand by its place, the lowest first.
    Byte(u32),
    /// The operands as bytes, the lowest first, joined to 64 bits, where true, or to 32.
    Join(bool),
}

/// A term as an operation on numbers, symbols and earlier lines.
#[derive(Drop)]
pub struct Line {
    pub op: LineOp,
    pub args: List<Operand>,
}

/// A result of a path.
#[derive(Clone, Copy, Debug, PartialEq, Eq)]
pub enum Shown {
    I32(Operand),
    I64(Operand),
    /// A reference to the function of an index, or null.
    Func(Option<u32>),
    /// The null of type externref.
    Extern,
}

/// What a path returns at each of its inputs: the results, and the terms below them as lines, each after its operands.
#[derive(Drop)]
pub struct Terms {
    pub lines: List<Line>,
    pub results: List<Shown>,
}

/// A path of an exploration.
#[derive(Drop)]
pub struct Row {
    /// The side that it took at each fork, 0 or 1.
    pub choices: List<u8>,
    pub kind: Kind,
    /// The numbers that its least input gives to the symbols; none of an undecided or void path.
    pub draws: List<Draw>,
    /// What it returns, of a path that returns; else nothing.
    pub terms: Terms,
}
