// Sequences that enclose the one that is read.
use std::marker::Model;
use wasm_ast::{BlockType, Instr};

/// What opened a sequence inside another.
#[derive(Clone, Copy)]
pub(crate) enum Opener {
    /// A `block`.
    Block(BlockType),
    /// A `loop`.
    Loop(BlockType),
    /// An `if`: its first sequence.
    Then(BlockType),
    /// An `else`: the second sequence of an `if` that stands in the outer sequence already.
    Else,
}

/// A sequence that is open, with another open inside it.
#[derive(Drop)]
pub(crate) struct Enclosing {
    /// Its number.
    pub(crate) number: u32,
    /// What was read of it.
    pub(crate) instrs: Vec<Instr>,
    /// What opened the sequence inside it.
    pub(crate) opener: Opener,
}

impl Model for Enclosing {
    ghost use Rattle.wasm_read.specs.Nests.{Enclosing as OneEnclosing};

    ghost Value = { OneEnclosing };

    ghost view = { λ w. record { number = w.number; instrs = w.instrs.items; opener = w.opener } };
}
