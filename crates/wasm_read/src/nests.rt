// The sequences that are open while an expression is read.
ghost use Rattle.std.specs.Prelude.{◌≡◌, IfOk, OnOk, IfErr};
ghost use Rattle.wasm_read.specs.Nests.{IsNest, first_nest, pushed, opened, ended_first, closed_in, closed, is_alone, in_if};

use crate::bad::ReadBad;
use crate::enclosing::{Enclosing, Opener};
use crate::exact_lists::exact_list;
use std::alloc::{AllocError, Global};
use std::marker::Model;
use std::mem;
use wasm_ast::{BlockType, Instr, List};

/// The sequences of an expression so far, and those that are open.
#[derive(Drop)]
pub(crate) struct Nest {
    // By their numbers; one that is open is empty here.
    seqs: Vec<List<Instr>>,
    // The number of the innermost open sequence, and what was read of it.
    number: u32,
    instrs: Vec<Instr>,
    // Those around it, the nearest last.
    outer: Vec<Enclosing>,
}

impl Model for Nest {
    ghost use Rattle.std.specs.Prelude.{reverse};
    ghost use Rattle.wasm_read.specs.Nests.{Nest as OneNest};

    ghost Value = { OneNest };

    ghost view = { λ n. record { seqs = n.seqs.items; number = n.number; instrs = n.instrs.items; outer = reverse n.outer.items } };
}

impl Nest {
    /// The outermost sequence, of which nothing was read.
    pub(crate) fn new(alloc: Global) -> Result<Nest, AllocError>
        ensures { IfOk result (λ n. n ≡ first_nest) }
    {
        let mut seqs = Vec::new(alloc);
        seqs.push(List::new(Vec::new(alloc)))?;
        Ok(Nest {
            seqs,
            number: 0,
            instrs: Vec::new(alloc),
            outer: Vec::new(alloc),
        })
    }

    /// Whether the innermost sequence is the first of an if.
    pub(crate) fn else_may_follow(&self) -> bool
        ensures { result ≡ in_if self.now.outer }
    {
        match self.outer.last() {
            Some(enclosing) => matches!(enclosing.opener, Opener::Then(_)),
            None => false,
        }
    }

    /// Puts an instruction at the end of the innermost sequence.
    pub(crate) fn push(&mut self, instr: Instr) -> Result<(), AllocError>
        ensures { OnOk result (self.new ≡ pushed instr self.old) }
    {
        self.instrs.push(instr)?;
        Ok(())
    }

    /// Opens a sequence inside the innermost one.
    pub(crate) fn open(&mut self, alloc: Global, opener: Opener) -> Result<(), ReadBad>
        ensures opened { OnOk result (self.new ≡ opened opener self.old) }
        ensures memory { IfErr result (λ bad. bad ≡ ReadBad.NoMemory) }
    {
        let Ok(number) = u32::try_from(self.seqs.len()) else {
            return Err(ReadBad::NoMemory);
        };
        self.seqs.push(List::new(Vec::new(alloc)))?;
        let instrs = mem::replace(&mut self.instrs, Vec::new(alloc));
        self.outer.push(Enclosing {
            number: self.number,
            instrs,
            opener,
        })?;
        self.number = number;
        Ok(())
    }

    /// Ends the innermost sequence. Answers whether it was the outermost.
    pub(crate) fn close(&mut self, alloc: Global, by_else: bool) -> Result<bool, ReadBad>
        requires { IsNest self.old }
        ensures over { IfOk result (λ over. over ≡ is_alone self.old.outer) }
        ensures closed { OnOk result (self.new ≡ closed by_else self.old) }
        ensures memory { IfErr result (λ bad. bad ≡ ReadBad.NoMemory) }
    {
        let number = self.number;
        let instrs = mem::replace(&mut self.instrs, Vec::new(alloc));
        self.seqs[number as usize] = exact_list(alloc, instrs)?;
        match self.outer.pop() {
            None => Ok(true),
            Some(enclosing) => {
                self.go_back(alloc, enclosing, number, by_else)?;
                Ok(false)
            }
        }
    }

    // Goes on in the sequence that waited for one of this number to end.
    fn go_back(
        &mut self,
        alloc: Global,
        enclosing: Enclosing,
        number: u32,
        by_else: bool,
    ) -> Result<(), ReadBad>
        ensures closed { OnOk result
            (self.new ≡ closed_in enclosing.opener enclosing self.old.outer number by_else self.old.seqs) }
        ensures memory { IfErr result (λ bad. bad ≡ ReadBad.NoMemory) }
    {
        self.number = enclosing.number;
        self.instrs = enclosing.instrs;
        match enclosing.opener {
            Opener::Block(ty) => self.instrs.push(Instr::Block { ty, body: number })?,
            Opener::Loop(ty) => self.instrs.push(Instr::Loop { ty, body: number })?,
            Opener::Then(ty) => self.end_first(alloc, ty, number, by_else)?,
            Opener::Else => {}
        }
        Ok(())
    }

    // Puts an if whose first sequence has ended at the end of the innermost sequence, and its second among all: open after
    // an else, or empty.
    fn end_first(
        &mut self,
        alloc: Global,
        ty: BlockType,
        then: u32,
        by_else: bool,
    ) -> Result<(), ReadBad>
        ensures closed { OnOk result (self.new ≡ ended_first ty then by_else self.old) }
        ensures memory { IfErr result (λ bad. bad ≡ ReadBad.NoMemory) }
    {
        let Ok(other) = u32::try_from(self.seqs.len()) else {
            return Err(ReadBad::NoMemory);
        };
        self.instrs.push(Instr::If { ty, then, other })?;
        if by_else {
            self.open(alloc, Opener::Else)?;
        } else {
            self.seqs.push(List::new(Vec::new(alloc)))?;
        }
        Ok(())
    }

    /// All sequences, by their numbers.
    pub(crate) fn into_seqs(self, alloc: Global) -> Result<List<List<Instr>>, AllocError>
        ensures { IfOk result (λ seqs. seqs ≡ self.seqs) }
    {
        exact_list(alloc, self.seqs)
    }
}
