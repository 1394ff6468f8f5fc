// Words and the forms of terms.
use std::alloc::AllocError;
use wasm_ast::List;
use wasm_ast::equals::Same;

/// The number of a term in its graph, from 256 on.
pub type TermId = u64;

/// The number of the first term of a graph.
pub const FIRST: TermId = 256;

/// A word: a number, or a term of a graph.
#[derive(Clone, Copy, Debug, PartialEq, Eq, PartialOrd, Ord)]
pub enum Word {
    /// A number.
    Num(u64),
    /// The term of this number.
    Term(TermId),
}

/// The form of a term: an operation, with its operands as words of the graph.
#[derive(Drop)]
pub enum Form {
    /// The symbol of a number, from 0 on, of 64 bits where wide, else of 32.
    Symbol {
        number: u64,
        wide: bool,
    },
    /// The operator of a unary opcode.
    Un {
        op: u8,
        a: Word,
    },
    /// The operator of a binary opcode, without traps.
    Bin {
        op: u8,
        a: Word,
        b: Word,
    },
    /// The word a where c isn't 0, else b; of 64 bits where wide, else of 32.
    Choose {
        wide: bool,
        c: Word,
        a: Word,
        b: Word,
    },
    /// Byte i of a word, the lowest first.
    Byte {
        a: Word,
        i: u32,
    },
    /// Bytes joined, the lowest first, with zeros above them; to 64 bits where wide, else to 32.
    Join {
        wide: bool,
        bytes: List<Word>,
    },
}

impl Same for Word {
    fn same(&self, that: &Word) -> bool {
        self == that
    }
}

impl Same for Form {
    fn same(&self, that: &Form) -> bool {
        match (self, that) {
            (
                Form::Symbol { number, wide },
                Form::Symbol {
                    number: other,
                    wide: wider,
                },
            ) => number == other && wide == wider,
            (Form::Un { op, a }, Form::Un { op: other, a: b }) => op == other && a.same(b),
            (
                Form::Bin { op, a, b },
                Form::Bin {
                    op: other,
                    a: c,
                    b: d,
                },
            ) => op == other && a.same(c) && b.same(d),
            (
                Form::Choose { wide, c, a, b },
                Form::Choose {
                    wide: wider,
                    c: d,
                    a: e,
                    b: f,
                },
            ) => wide == wider && c.same(d) && a.same(e) && b.same(f),
            (Form::Byte { a, i }, Form::Byte { a: b, i: j }) => a.same(b) && i == j,
            (
                Form::Join { wide, bytes },
                Form::Join {
                    wide: wider,
                    bytes: others,
                },
            ) => wide == wider && bytes.same(others),
            _ => false,
        }
    }
}

impl Clone for Form {
    ghost use Rattle.std.specs.Prelude.{◌≡◌};

    ghost is_clone = { λ x y. y ≡ x };

    fn clone(&self) -> Result<Form, AllocError> {
        let form = match self {
            Form::Symbol { number, wide } => Form::Symbol {
                number: *number,
                wide: *wide,
            },
            Form::Un { op, a } => Form::Un { op: *op, a: *a },
            Form::Bin { op, a, b } => Form::Bin {
                op: *op,
                a: *a,
                b: *b,
            },
            Form::Choose { wide, c, a, b } => Form::Choose {
                wide: *wide,
                c: *c,
                a: *a,
                b: *b,
            },
            Form::Byte { a, i } => Form::Byte { a: *a, i: *i },
            Form::Join { wide, bytes } => Form::Join {
                wide: *wide,
                bytes: bytes.copy()?,
            },
        };
        Ok(form)
    }
}

/// A condition on an input: that the term is 0 there, or that it isn't, as `answer` says.
#[derive(Clone, Copy, Debug, PartialEq, Eq)]
pub struct Cond {
    pub term: TermId,
    pub answer: bool,
}
