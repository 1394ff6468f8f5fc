// Expressions written in words: their sequences are numbered in the order in which they open.
use crate::ops::{load, operator, store};
use row_words::Words;
use std::alloc::{AllocError, Global};
use wasm_ast::{BlockType, Expr, Instr, List};

/// What opened a sequence. The second part of an `if` knows the number of the first.
#[derive(Clone, Copy)]
enum Head {
    Body,
    Block,
    Loop,
    If,
    Else(u32),
}

/// An open sequence: its number and the type of its block.
#[derive(Clone, Copy)]
struct Opened {
    head: Head,
    ty: BlockType,
    seq: u32,
}

/// The sequences so far, and those that are open, the innermost last.
#[derive(Drop)]
struct Builder {
    alloc: Global,
    seqs: Vec<List<Instr>>,
    open: Vec<Opened>,
}

impl Builder {
    // A number for a new sequence.
    fn sequence(&mut self) -> Result<u32, AllocError> {
        let count = self.seqs.len();
        let list = List::new(Vec::new(self.alloc));
        self.seqs.push(list)?;
        Ok(if count < 0x1_0000_0000 {
            count as u32
        } else {
            0
        })
    }

    fn opens(&mut self, head: Head, ty: BlockType) -> Result<(), AllocError> {
        let seq = self.sequence()?;
        self.open.push(Opened { head, ty, seq })?;
        Ok(())
    }

    fn puts(&mut self, instr: Instr) -> Result<(), AllocError> {
        let Some(top) = self.open.last() else {
            return Ok(());
        };
        let seq = top.seq as usize;
        if seq < self.seqs.len() {
            self.seqs[seq].push(instr)?;
        }
        Ok(())
    }

    fn turns(&mut self) -> Result<(), AllocError> {
        let Some(top) = self.open.pop() else {
            return Ok(());
        };
        self.opens(Head::Else(top.seq), top.ty)
    }

    fn ends(&mut self) -> Result<(), AllocError> {
        let Some(top) = self.open.pop() else {
            return Ok(());
        };
        let ty = top.ty;
        match top.head {
            Head::Body => Ok(()),
            Head::Block => self.puts(Instr::Block { ty, body: top.seq }),
            Head::Loop => self.puts(Instr::Loop { ty, body: top.seq }),
            Head::If => {
                let other = self.sequence()?;
                let then = top.seq;
                self.puts(Instr::If { ty, then, other })
            }
            Head::Else(then) => {
                let other = top.seq;
                self.puts(Instr::If { ty, then, other })
            }
        }
    }

    // Ends all that is open.
    fn finish(&mut self) -> Result<(), AllocError> {
        for _ in 0..self.open.len() {
            self.ends()?;
        }
        Ok(())
    }
}

fn block_type(words: &mut Words) -> Option<BlockType> {
    if words.next_is("_") {
        return Some(BlockType::Empty);
    }
    if let Some(kind) = words.kind() {
        return Some(BlockType::One(kind));
    }
    Some(BlockType::Index(words.index()?))
}

// The head of a block of this word.
fn head_of(word: &str) -> Option<Head> {
    match word {
        "block" => Some(Head::Block),
        "loop" => Some(Head::Loop),
        "if" => Some(Head::If),
        _ => None,
    }
}

// An instruction without operands.
fn bare(word: &str) -> Option<Instr> {
    match word {
        "unreachable" => Some(Instr::Unreachable),
        "nop" => Some(Instr::Nop),
        "return" => Some(Instr::Return),
        "drop" => Some(Instr::Discard),
        "select" => Some(Instr::Select),
        "ref.is_null" => Some(Instr::RefIsNull),
        "memory.size" => Some(Instr::MemorySize),
        "memory.grow" => Some(Instr::MemoryGrow),
        "memory.copy" => Some(Instr::MemoryCopy),
        "memory.fill" => Some(Instr::MemoryFill),
        _ => None,
    }
}

// An instruction that names one thing.
fn naming(word: &str, x: u32) -> Option<Instr> {
    match word {
        "br" => Some(Instr::Br(x)),
        "br_if" => Some(Instr::BrIf(x)),
        "call" => Some(Instr::Call(x)),
        "ref.func" => Some(Instr::RefFunc(x)),
        "local.get" => Some(Instr::LocalGet(x)),
        "local.set" => Some(Instr::LocalSet(x)),
        "local.tee" => Some(Instr::LocalTee(x)),
        "global.get" => Some(Instr::GlobalGet(x)),
        "global.set" => Some(Instr::GlobalSet(x)),
        _ => None,
    }
}

// The same, of tables and segments.
fn naming_table(word: &str, x: u32) -> Option<Instr> {
    match word {
        "table.get" => Some(Instr::TableGet(x)),
        "table.set" => Some(Instr::TableSet(x)),
        "table.grow" => Some(Instr::TableGrow(x)),
        "table.size" => Some(Instr::TableSize(x)),
        "table.fill" => Some(Instr::TableFill(x)),
        "elem.drop" => Some(Instr::ElemDrop(x)),
        "memory.init" => Some(Instr::MemoryInit(x)),
        "data.drop" => Some(Instr::DataDrop(x)),
        _ => None,
    }
}

// An instruction that names two things.
fn naming_two(word: &str, x: u32, y: u32) -> Option<Instr> {
    match word {
        "call_indirect" => Some(Instr::CallIndirect { ty: x, table: y }),
        "table.init" => Some(Instr::TableInit { elem: x, table: y }),
        "table.copy" => Some(Instr::TableCopy { to: x, from: y }),
        _ => None,
    }
}

fn accessing(word: &str, align: u32) -> Option<Instr> {
    if let Some(op) = load(word) {
        let offset = 0;
        return Some(Instr::Load { op, align, offset });
    }
    let op = store(word)?;
    let offset = 0;
    Some(Instr::Store { op, align, offset })
}

fn with_number(word: &str, x: u32) -> Option<Instr> {
    if let Some(instr) = naming(word, x) {
        return Some(instr);
    }
    if let Some(instr) = naming_table(word, x) {
        return Some(instr);
    }
    accessing(word, x)
}

// `br_table` with the labels that follow.
fn table(alloc: Global, words: &mut Words) -> Result<Instr, AllocError> {
    let mut labels = List::new(Vec::new(alloc));
    let mut last = 0;
    let mut first = true;
    for _ in 0..1_000_000 {
        let Some(label) = words.index() else {
            break;
        };
        if !first {
            labels.push(last)?;
        }
        last = label;
        first = false;
    }
    Ok(Instr::BrTable { labels, last })
}

// `select` with the types that follow.
fn typed(alloc: Global, words: &mut Words) -> Result<Instr, AllocError> {
    let mut kinds = List::new(Vec::new(alloc));
    for _ in 0..100 {
        let Some(kind) = words.kind() else {
            break;
        };
        kinds.push(kind)?;
    }
    Ok(Instr::SelectTyped(kinds))
}

// An instruction whose operands are no numbers, or only some.
fn special(alloc: Global, words: &mut Words, word: &str) -> Result<Option<Instr>, AllocError> {
    if word == "br_table" {
        return Ok(Some(table(alloc, words)?));
    }
    if word == "i32.const" {
        return Ok(Some(Instr::Const32(words.index().unwrap_or(0))));
    }
    if word == "i64.const" {
        return Ok(Some(Instr::Const64(words.index().unwrap_or(0) as u64)));
    }
    if word == "select_typed" {
        return Ok(Some(typed(alloc, words)?));
    }
    if word == "ref.null" {
        return Ok(words.kind().map(|kind| Instr::RefNull(kind)));
    }
    if let Some(op) = operator(word) {
        return Ok(Some(Instr::Num(op)));
    }
    Ok(bare(word))
}

// The plain instruction of this word.
fn plain(alloc: Global, words: &mut Words, word: &str) -> Result<Option<Instr>, AllocError> {
    if let Some(instr) = special(alloc, words, word)? {
        return Ok(Some(instr));
    }
    let Some(x) = words.index() else {
        return Ok(None);
    };
    if let Some(instr) = with_number(word, x) {
        return Ok(Some(instr));
    }
    let Some(y) = words.index() else {
        return Ok(None);
    };
    Ok(naming_two(word, x, y))
}

// Reads the instruction of this word. The answer is whether there is one.
fn reads(builder: &mut Builder, words: &mut Words, word: &str) -> Result<bool, AllocError> {
    if word == "else" {
        builder.turns()?;
        return Ok(true);
    }
    if word == "end" {
        builder.ends()?;
        return Ok(true);
    }
    if let Some(head) = head_of(word) {
        let Some(ty) = block_type(words) else {
            return Ok(false);
        };
        builder.opens(head, ty)?;
        return Ok(true);
    }
    let alloc = builder.alloc;
    let Some(instr) = plain(alloc, words, word)? else {
        return Ok(false);
    };
    builder.puts(instr)?;
    Ok(true)
}

/// The expression of the words up to a comma, a semicolon or the end, without its last `end`.
pub fn expr(alloc: Global, words: &mut Words) -> Result<Option<Expr>, AllocError> {
    let mut builder = Builder {
        alloc,
        seqs: Vec::new(alloc),
        open: Vec::new(alloc),
    };
    builder.opens(Head::Body, BlockType::Empty)?;
    for _ in 0..100_000_000u64 {
        let Some(word) = words.peek() else {
            break;
        };
        if word == ";" || word == "," {
            break;
        }
        let Some(word) = words.next() else {
            break;
        };
        if !reads(&mut builder, words, word)? {
            return Ok(None);
        }
    }
    builder.finish()?;
    Ok(Some(Expr {
        seqs: List::new(builder.seqs),
    }))
}
