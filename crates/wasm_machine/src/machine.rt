// The machine's state, and what moves it.
ghost use Rattle.std.specs.Prelude.{◌≡◌, ◌∷◌, [], ◌++◌, ◌+◌, ◌-◌, ◌<◌, ◌≤◌, ◌^◌, length, OnOk, IfOk, IfSome, MatchOption, MatchBool, slice_get, take, drop, List, Some, None};
ghost use Rattle.wasm_machine.specs.States.{State, own, cost, passed};
ghost use Rattle.wasm_machine.specs.code.Moves.{pushed, without, replaced, noted, with_local, with_global, entered, kept, again_place, left, from_end, branched, returned, called};
ghost use Rattle.wasm_machine.specs.Configurations.{code_of, outer_call_of};
ghost use Rattle.wasm_machine.specs.declared.machine.Frame.{Frame as OneFrame};
ghost use Rattle.wasm_machine.specs.Values.{default_value, first_locals_of, word_at, reference_at};

use crate::values::{Reference, Value};
use std::alloc::{AllocError, Global};
use std::marker::Model;
use wasm_ast::{Func, Instr, Module, ValType};

/// A label: its sequence in the body of its frame's function; the place in it, of the next instruction in the innermost
/// label, else of the control instruction that it waits at; how many operands lie below its own; how many a branch to it
/// carries; and whether it is a loop's.
#[derive(Clone, Copy)]
pub struct Label {
    pub seq: u32,
    pub place: usize,
    pub height: usize,
    pub arity: usize,
    pub again: bool,
}

/// A frame: its function by the place among the module's own, or none for the outermost frame, which stands for whoever runs
/// the module; how many results it gives; how many locals, waiting labels and operands lie below its own; and its innermost
/// label.
#[derive(Clone, Copy)]
pub struct Frame {
    pub func: Option<u32>,
    pub arity: usize,
    pub base: usize,
    pub labels: usize,
    pub floor: usize,
    pub here: Label,
}

/// The state of a run, but for the memory.
#[derive(Drop)]
pub struct Machine<W: Copy> {
    /// The operands of all labels, those of the outermost first.
    pub operands: Vec<Value<W>>,
    /// The locals of all frames, those of the outermost first.
    pub locals: Vec<Value<W>>,
    /// The labels that wait, of all frames, the outermost first. The innermost label of a frame lies in the frame.
    pub labels: Vec<Label>,
    /// The frame that runs.
    pub frame: Frame,
    /// The frames that wait for it, the outermost first.
    pub callers: Vec<Frame>,
    /// The globals.
    pub globals: Vec<Value<W>>,
    /// The elements of each table.
    pub tables: Vec<Vec<Reference>>,
    /// The references of each element segment; of a dropped one none is left.
    pub elems: Vec<Vec<Reference>>,
    /// Which data segments are dropped.
    pub dropped: Vec<bool>,
    /// The answers that the questions of the next instruction have had.
    pub answers: Vec<u64>,
    /// How many instructions have been carried out in functions of the module.
    pub units: u64,
    /// The function that is run after the start function. Imports are counted.
    pub entry: u32,
}

impl<W: Copy> Model for Machine<W> {
    ghost use Rattle.std.specs.Prelude.{map};
    ghost use Rattle.wasm_machine.specs.States.{State};
    ghost use Rattle.wasm_machine.specs.declared.values.Value.{Value as OneValue};

    ghost Value = { State (OneValue W) };

    ghost view = { λ s. record {
      operands = s.operands.items;
      locals = s.locals.items;
      labels = s.labels.items;
      frame = s.frame;
      callers = s.callers.items;
      globals = s.globals.items;
      tables = map (λ t. t.items) s.tables.items;
      elems = map (λ t. t.items) s.elems.items;
      dropped = s.dropped.items;
      answers = s.answers.items;
      units = s.units;
      entry = s.entry;
    } };
}

// The last n operands are moved down to a height.
fn keep<W: Copy>(operands: &mut Vec<Value<W>>, height: usize, n: usize)
    requires { height + n ≤ length operands.old.items }
    ensures { operands.new.items ≡ kept height n operands.old.items }
{
    let len = operands.len();
    operands.copy_within(len - n.., height);
    operands.truncate(height + n);
}

// Where a label that waits goes on.
fn going_on(again: bool, p: Label) -> Label
    requires { p.place + 1 < 2 ^ 64 }
    ensures { result ≡ record p { place = again_place again p.place } }
{
    if again {
        return p;
    }
    Label {
        seq: p.seq,
        place: p.place + 1,
        height: p.height,
        arity: p.arity,
        again: p.again,
    }
}

impl<W: Copy> Machine<W> {
    /// The function of the frame, by the place among the module's own; none of the outermost frame.
    #[inline(always)]
    pub fn function(&self) -> Option<u32>
        ensures { result ≡ self.now.frame.func }
    {
        self.frame.func
    }

    /// The next instruction of the function f of the module's own, in its innermost label.
    #[inline(always)]
    pub fn instruction<'m>(&self, f: u32, m: &'m Module) -> Option<&'m Instr>
        ensures room { IfSome result (λ i. self.now.frame.here.place + 1 < 2 ^ 64) }
        ensures there { MatchOption result (slice_get (code_of m.now self.now.entry (Some f) self.now.frame.here.seq) self.now.frame.here.place ≡ None)
            (λ i. slice_get (code_of m.now self.now.entry (Some f) self.now.frame.here.seq) self.now.frame.here.place ≡ Some i.now) }
    {
        let Some(function) = m.funcs.as_slice().get(f as usize) else {
            return None;
        };
        let Some(seq) = function
            .body
            .seqs
            .as_slice()
            .get(self.frame.here.seq as usize)
        else {
            return None;
        };
        seq.as_slice().get(self.frame.here.place)
    }

    // ---- operands

    /// The operand at a place of the innermost label, the last at 0.
    #[inline(always)]
    pub fn operand(&self, k: usize) -> Option<Value<W>>
        ensures { result ≡ slice_get (own self.now) k }
    {
        let len = self.operands.len();
        if self.frame.here.height < len && k < len - self.frame.here.height {
            Some(self.operands[len - 1 - k])
        } else {
            None
        }
    }

    /// The word at a place of the innermost label, the last at 0, where it is an i64 if wide, else an i32.
    #[inline(always)]
    pub fn word(&self, k: usize, wide: bool) -> Option<W>
        ensures { result ≡ word_at wide (own self.now) k }
    {
        match self.operand(k) {
            Some(v) => v.word(wide),
            None => None,
        }
    }

    /// The reference at a place of the innermost label, the last at 0.
    pub fn reference(&self, k: usize) -> Option<Reference>
        ensures { result ≡ reference_at (own self.now) k }
    {
        match self.operand(k) {
            Some(v) => v.reference(),
            None => None,
        }
    }

    /// How many operands the innermost label has.
    #[inline(always)]
    pub fn own_count(&self) -> usize
        ensures { result ≡ length self.now.operands - self.now.frame.here.height }
    {
        self.operands.len().saturating_sub(self.frame.here.height)
    }

    /// One more operand.
    #[inline(always)]
    pub fn push(&mut self, v: Value<W>) -> Result<(), AllocError>
        ensures { OnOk result (self.new ≡ pushed v self.old) }
    {
        self.operands.push(v)?;
        Ok(())
    }

    /// An operand in place of the last n.
    #[inline(always)]
    pub fn replace(&mut self, n: usize, v: Value<W>)
        requires some { 0 < n }
        requires within { n ≤ length self.old.operands }
        ensures { self.new ≡ replaced n v self.old }
    {
        let at = self.operands.len() - n;
        self.operands[at] = v;
        self.operands.truncate(at + 1);
    }

    /// Without the last n operands.
    #[inline(always)]
    pub fn discard(&mut self, n: usize)
        requires { n ≤ length self.old.operands }
        ensures { self.new ≡ without n self.old }
    {
        let at = self.operands.len() - n;
        self.operands.truncate(at);
    }

    // ---- instructions

    /// The instruction of the outermost frame that is next: the function that it calls.
    pub fn outer_call(&self, m: &Module) -> Option<u32>
        ensures { result ≡ outer_call_of m.now.start self.now.entry self.now.frame.here.place }
    {
        match m.start {
            None => {
                if self.frame.here.place == 0 {
                    Some(self.entry)
                } else {
                    None
                }
            }
            Some(start) => {
                if self.frame.here.place == 0 {
                    Some(start)
                } else if self.frame.here.place == 1 {
                    Some(self.entry)
                } else {
                    None
                }
            }
        }
    }

    /// The next instruction is behind, and its unit is spent.
    #[inline(always)]
    pub fn pass(&mut self)
        requires place { self.old.frame.here.place + 1 < 2 ^ 64 }
        requires units { self.old.units + 1 < 2 ^ 64 }
        ensures { self.new ≡ passed self.old }
    {
        self.frame.here.place += 1;
        self.answers.clear();
        self.spend();
    }

    // Spends a unit, but not in the outermost frame.
    #[inline(always)]
    fn spend(&mut self)
        requires { self.old.units + 1 < 2 ^ 64 }
        ensures { self.new ≡ record (self.old) { units = self.old.units + cost self.old.callers } }
    {
        if !self.callers.is_empty() {
            self.units += 1;
        }
    }

    /// The answers that the next instruction has had.
    #[inline(always)]
    pub fn given(&self) -> &[u64]
        ensures { result.now ≡ self.now.answers }
    {
        self.answers.as_slice()
    }

    /// An answer that the next instruction has had, the first at 0.
    #[inline(always)]
    pub fn answer(&self, k: usize) -> Option<u64>
        ensures { result ≡ slice_get self.now.answers k }
    {
        self.answers.get(k).copied()
    }

    /// The next instruction's question has had an answer.
    #[inline(always)]
    pub fn note(&mut self, answer: u64) -> Result<(), AllocError>
        ensures { OnOk result (self.new ≡ noted answer self.old) }
    {
        self.answers.push(answer)?;
        Ok(())
    }

    // ---- variables

    /// A local.
    #[inline(always)]
    pub fn local(&self, x: u32) -> Option<Value<W>>
        requires { self.now.frame.base ≤ length self.now.locals }
        ensures { result ≡ slice_get (drop self.now.frame.base self.now.locals) x }
    {
        self.locals[self.frame.base..].get(x as usize).copied()
    }

    /// A local is written.
    #[inline(always)]
    pub fn set_local(&mut self, x: u32, v: Value<W>)
        requires { self.old.frame.base + x < length self.old.locals }
        ensures { self.new ≡ with_local x v self.old }
    {
        self.locals[self.frame.base + x as usize] = v;
    }

    /// A global.
    #[inline(always)]
    pub fn global(&self, x: u32) -> Option<Value<W>>
        ensures { result ≡ slice_get self.now.globals x }
    {
        self.globals.get(x as usize).copied()
    }

    /// A global is written.
    #[inline(always)]
    pub fn set_global(&mut self, x: u32, v: Value<W>)
        requires { x < length self.old.globals }
        ensures { self.new ≡ with_global x v self.old }
    {
        self.globals[x as usize] = v;
    }

    // ---- labels

    /// Into a sequence, with the last n operands, by the control instruction that is next.
    #[inline(always)]
    pub fn enter(&mut self, seq: u32, n: usize, arity: usize, again: bool) -> Result<(), AllocError>
        requires operands { n ≤ length self.old.operands }
        requires units { self.old.units + 1 < 2 ^ 64 }
        ensures { OnOk result (self.new ≡ entered seq n arity again self.old) }
    {
        self.labels.push(self.frame.here)?;
        let height = self.operands.len() - n;
        self.frame.here = Label {
            seq,
            place: 0,
            height,
            arity,
            again,
        };
        self.answers.clear();
        self.spend();
        Ok(())
    }

    /// How many labels of the frame wait.
    #[inline(always)]
    pub fn label_count(&self) -> usize
        ensures { result ≡ length self.now.labels - self.now.frame.labels }
    {
        self.labels.len().saturating_sub(self.frame.labels)
    }

    /// The k-th label from the inside, the innermost at 0.
    #[inline(always)]
    pub fn label(&self, k: usize) -> Label
        requires { k ≤ length self.now.labels }
        ensures { result ≡ from_end self.now.frame.here self.now.labels k }
    {
        if k == 0 {
            return self.frame.here;
        }
        self.labels[self.labels.len() - k]
    }

    /// The end of a sequence inside another.
    #[inline(always)]
    pub fn leave(&mut self)
        requires some { 0 < length self.old.labels }
        requires place { (from_end self.old.frame.here self.old.labels 1).place + 1 < 2 ^ 64 }
        ensures { self.new ≡ left (from_end self.old.frame.here self.old.labels 1) (take (length self.old.labels - 1) self.old.labels) self.old }
    {
        let p = self.label(1);
        let len = self.labels.len();
        self.labels.truncate(len - 1);
        self.frame.here = going_on(false, p);
    }

    /// A branch past k labels, to one that isn't the frame's last.
    #[inline(always)]
    pub fn branch(&mut self, k: usize)
        requires within { k < length self.old.labels }
        requires room { let t = from_end self.old.frame.here self.old.labels k in t.height + t.arity ≤ length self.old.operands }
        requires place { (from_end self.old.frame.here self.old.labels (k + 1)).place + 1 < 2 ^ 64 }
        ensures { self.new ≡ branched k self.old }
    {
        let t = self.label(k);
        let p = self.label(k + 1);
        let len = self.labels.len();
        self.labels.truncate(len - (k + 1));
        keep(&mut self.operands, t.height, t.arity);
        self.frame.here = going_on(t.again, p);
    }

    // ---- frames

    /// Back to the frame that waits, if there is one, with the last n operands.
    pub fn give_back(&mut self, n: usize) -> bool
        requires { self.old.frame.floor + n ≤ length self.old.operands }
        ensures { MatchBool result ((p : OneFrame) × (r : List OneFrame) × (self.old.callers ≡ r ++ p ∷ []) × (self.new ≡ returned p r n self.old))
            ((self.old.callers ≡ []) × (self.new ≡ self.old)) }
    {
        match self.callers.pop() {
            None => false,
            Some(p) => {
                keep(&mut self.operands, self.frame.floor, n);
                self.locals.truncate(self.frame.base);
                self.labels.truncate(self.frame.labels);
                self.frame = p;
                true
            }
        }
    }

    /// Into the function g of the module's own, with the last n operands and other locals, which begin as 0 or null.
    pub fn invoke(
        &mut self,
        g: u32,
        f: &Func,
        n: usize,
        arity: usize,
        zero: W,
    ) -> Result<(), AllocError>
        requires { n ≤ length self.old.operands }
        ensures { OnOk result (self.new ≡ called g n (first_locals_of zero f.now.locals) arity self.old) }
    {
        let floor = self.operands.len() - n;
        let base = self.locals.len();
        self.locals.extend_from_slice(&self.operands[floor..])?;
        fill_locals(&mut self.locals, f, zero)?;
        self.operands.truncate(floor);
        self.callers.push(self.frame)?;
        let here = Label {
            seq: 0,
            place: 0,
            height: floor,
            arity,
            again: false,
        };
        self.frame = Frame {
            func: Some(g),
            arity,
            base,
            labels: self.labels.len(),
            floor,
            here,
        };
        Ok(())
    }

    /// The last n operands, in their order.
    pub fn last(&self, alloc: Global, n: usize) -> Result<Vec<Value<W>>, AllocError>
        requires { n ≤ length self.now.operands }
        ensures { IfOk result (λ v. v.items ≡ drop (length self.now.operands - n) self.now.operands) }
    {
        let len = self.operands.len();
        let mut values = Vec::new(alloc);
        values.extend_from_slice(&self.operands[len - n..])?;
        Ok(values)
    }

    /// How many results the frame gives.
    pub fn frame_arity(&self) -> usize
        ensures { result ≡ self.now.frame.arity }
    {
        self.frame.arity
    }

    /// How many frames wait.
    pub fn depth(&self) -> usize
        ensures { result ≡ length self.now.callers }
    {
        self.callers.len()
    }
}

// The default value of a type, 0 or null.
fn default_of<W: Copy>(kind: ValType, zero: W) -> Value<W>
    ensures { result ≡ default_value zero kind }
{
    match kind {
        ValType::I32 => Value::I32(zero),
        ValType::I64 => Value::I64(zero),
        ValType::FuncRef => Value::Ref(Reference::Func(None)),
        ValType::ExternRef => Value::Ref(Reference::Extern),
    }
}

// The locals of a function that aren't parameters, as they begin, are put behind others.
fn fill_locals<W: Copy>(locals: &mut Vec<Value<W>>, f: &Func, zero: W) -> Result<(), AllocError>
    ensures { OnOk result (locals.new.items ≡ locals.old.items ++ first_locals_of zero f.now.locals) }
{
    for group in f.locals.as_slice() {
        let len = locals.len();
        locals.resize(len + group.count as usize, default_of(group.kind, zero))?;
    }
    Ok(())
}
