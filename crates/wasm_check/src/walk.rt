// A walk through the numbered sequences of an expression, in the order in which they are written.
ghost use Rattle.std.specs.Prelude.{◌≡◌, ◌<◌, ◌+◌, ◌^◌, List as Items, slice_get, reverse, IfOk, MatchOption, Some, None, [], ◌∷◌, ◌++◌};
ghost use Rattle.wasm_check.specs.Trees.{Token, seq_of};
ghost use Rattle.wasm_check.specs.code.Walk.{Left, NextIs, opened_by};

use std::alloc::{AllocError, Global};
use wasm_ast::{Instr, List};

/// A place in an open sequence, and the second part of an if that comes after it.
#[derive(Clone, Copy, PartialEq, Eq, Debug)]
pub struct Place {
    pub seq: u32,
    pub at: usize,
    pub other: Option<u32>,
}

/// What is written next: an instruction, by its place, an else, an end, or nothing.
#[derive(Clone, Copy, PartialEq, Eq, Debug)]
pub enum Written {
    Instruction { seq: u32, at: usize },
    Other,
    End,
    Over,
}

/// The open sequences, the innermost last.
#[derive(Drop)]
pub struct Walker {
    pub open: Vec<Place>,
}

/// The instruction at a place.
pub fn instr_at<'a>(seqs: &'a List<List<Instr>>, seq: u32, at: usize) -> Option<&'a Instr>
    ensures { MatchOption result (slice_get (seq_of seqs.now seq) at ≡ None) (λ i. (slice_get (seq_of seqs.now seq) at ≡ Some i.now) × (at + 1 < 2 ^ 64)) }
{
    match seqs.as_slice().get(seq as usize) {
        None => None,
        Some(instrs) => instrs.as_slice().get(at),
    }
}

impl Walker {
    fn enter(&mut self, seq: u32, other: Option<u32>) -> Result<(), AllocError>
        ensures { IfOk result (λ r. self.new.open.items ≡ self.old.open.items ++ record { seq = seq; at = 0; other = other } ∷ []) }
    {
        self.open.push(Place { seq, at: 0, other })?;
        Ok(())
    }

    fn opens(&mut self, i: &Instr) -> Result<(), AllocError>
        ensures { IfOk result (λ r. reverse self.new.open.items ≡ opened_by i.now (reverse self.old.open.items)) }
    {
        match i {
            Instr::Block { body, .. } => self.enter(*body, None)?,
            Instr::Loop { body, .. } => self.enter(*body, None)?,
            Instr::If { then, other, .. } => self.enter(*then, Some(*other))?,
            _ => (),
        }
        Ok(())
    }

    /// What is written next.
    pub fn next(&mut self, seqs: &List<List<Instr>>) -> Result<Written, AllocError>
        ensures { IfOk result (λ w. (ts : Items Token) → Left seqs.now (reverse self.old.open.items) ts → NextIs seqs.now w ts (reverse self.new.open.items)) }
    {
        let Some(place) = self.open.pop() else {
            return Ok(Written::Over);
        };
        if let Some(i) = instr_at(seqs, place.seq, place.at) {
            self.open.push(Place {
                seq: place.seq,
                at: place.at + 1,
                other: place.other,
            })?;
            self.opens(i)?;
            return Ok(Written::Instruction {
                seq: place.seq,
                at: place.at,
            });
        }
        let Some(other) = place.other else {
            return Ok(Written::End);
        };
        let Some(_) = instr_at(seqs, other, 0) else {
            return Ok(Written::End);
        };
        self.enter(other, None)?;
        Ok(Written::Other)
    }
}

/// At the beginning of a body.
pub fn walk(alloc: Global) -> Result<Walker, AllocError>
    ensures { IfOk result (λ w. reverse w.open.items ≡ record { seq = 0; at = 0; other = None } ∷ []) }
{
    let mut places = Vec::new(alloc);
    places.push(Place {
        seq: 0,
        at: 0,
        other: None,
    })?;
    Ok(Walker { open: places })
}
