// The operands of an open sequence, as far as their types are known. They are kept in runs, each one operand or the first
// types of a list of the module, so that a list is put on top, and taken off again, at one go.
ghost use Rattle.std.specs.Prelude.{◌≡◌, ◌≤◌, ◌∷◌, [], ◌++◌, ◌⊎◌, Bool, List, true, false, IfOk, MatchOption, None, Some, take, drop, length};
ghost use Rattle.wasm_check.specs.declared.stack.Run.TheVariants.{First};
ghost use Rattle.wasm_check.specs.Operands.{operands};
ghost use Rattle.type_suffixes.specs.Lists.{listed};
ghost use Rattle.wasm_check.specs.code.Runs.{run_of, known, peeked};
ghost use Rattle.wasm_check.specs.code.Carried.{HangsOn};
ghost use Rattle.wasm_check.specs.code.Checker.{Answers, dead_end, onto, pop_of, popped, fits, is_empty as no_operands};
ghost use Rattle.wasm_check.specs.Operands.{same_type};

use crate::operands::Operand;
use crate::scope::Scope;
use std::alloc::{AllocError, Global};
use type_suffixes::Listed;
use wasm_ast::ValType;

/// Operands one after another.
#[derive(Clone, Copy, PartialEq, Eq, Debug)]
pub enum Run {
    /// One operand.
    Single(Operand),
    /// Operands of the first types of a list, so many of them.
    First {
        /// The list.
        list: Listed,
        /// How many.
        count: usize,
    },
}

/// The operands of an open sequence, as far as their types are known: a run on top, and those below it, the last one last.
///
/// After an unconditional branch there are others of any type below them.
#[derive(Drop)]
pub struct Stack {
    pub dead: bool,
    pub below: Vec<Run>,
    pub last: Run,
}

/// The operands of a stack, to be taken off without a change of the stack.
#[derive(Drop)]
pub struct Peek<'a> {
    pub dead: bool,
    pub below: &'a [Run],
    pub last: Run,
}

/// A run of no operands.
const NONE: Run = Run::First {
    list: Listed::Nothing,
    count: 0,
};

/// Whether the types are one.
pub fn same(t: ValType, u: ValType) -> bool
    ensures { result ≡ same_type t u }
{
    match t {
        ValType::I32 => matches!(u, ValType::I32),
        ValType::I64 => matches!(u, ValType::I64),
        ValType::FuncRef => matches!(u, ValType::FuncRef),
        ValType::ExternRef => matches!(u, ValType::ExternRef),
    }
}

fn matching(t: Operand, u: ValType) -> bool
    ensures { result ≡ fits t (Operand.Of u) }
{
    match t {
        Operand::Bottom => true,
        Operand::Of(t) => same(t, u),
    }
}

// Whether the run has no operands.
fn is_gone(scope: &Scope, run: Run) -> bool
    ensures { result ≡ no_operands (run_of scope.now.types run) }
{
    match run {
        Run::Single(_) => false,
        Run::First { list, count } => count == 0 || scope.list(list).is_empty(),
    }
}

// What stands below all operands that are known.
fn base(dead: bool) -> Option<Operand>
    ensures { MatchOption result (dead ≡ false) (λ t. (dead ≡ true) × (t ≡ Operand.Bottom)) }
{
    if dead { Some(Operand::Bottom) } else { None }
}

// What is left of a run, and how many types are left to be taken, where the first `left` types of the list are to be taken
// from it: less than before where one of both ends with the other.
fn meet(scope: &Scope, run: Run, list: Listed, left: usize) -> (Run, usize)
    requires { left ≤ length (listed scope.now.types list) }
    ensures within { result.1 ≤ left }
    ensures same { (dead : Bool) (rest : List Operand) → popped (run_of scope.now.types (First list left)) (record { dead = dead; ops = run_of scope.now.types run ++ rest }) ≡ popped (run_of scope.now.types (First list result.1)) (record { dead = dead; ops = run_of scope.now.types result.0 ++ rest }) }
{
    let Run::First {
        list: present,
        count,
    } = run
    else {
        return (run, left);
    };
    let count = count.min(scope.list(present).len());
    if left <= count {
        if scope.ends_with(present, count, list, left) {
            let rest = Run::First {
                list: present,
                count: count - left,
            };
            return (rest, 0);
        }
    } else if scope.ends_with(list, left, present, count) {
        return (NONE, left - count);
    }
    (run, left)
}

// The last operand of the run, and those before it.
fn last_of(scope: &Scope, run: Run) -> Option<(Operand, Run)>
    ensures { MatchOption result (run_of scope.now.types run ≡ []) (λ r. run_of scope.now.types run ≡ r.0 ∷ run_of scope.now.types r.1) }
{
    match run {
        Run::Single(t) => Some((t, NONE)),
        Run::First { list, count } => {
            let types = scope.list(list);
            let n = count.min(types.len());
            if n == 0 {
                return None;
            }
            Some((Operand::Of(types[n - 1]), Run::First { list, count: n - 1 }))
        }
    }
}

// How many operands the run has.
fn size(scope: &Scope, run: Run) -> usize
    ensures { result ≡ length (run_of scope.now.types run) }
{
    match run {
        Run::Single(_) => 1,
        Run::First { list, count } => count.min(scope.list(list).len()),
    }
}

// How many operands of the lowest run decide what it matches. An operand of no known type matches all.
fn lowest(scope: &Scope, run: Run) -> usize
    ensures { (drop result (run_of scope.now.types run) ≡ []) ⊎ (drop result (run_of scope.now.types run) ≡ Operand.Bottom ∷ []) }
{
    match run {
        Run::Single(Operand::Bottom) => 0,
        _ => size(scope, run),
    }
}

impl Stack {
    /// Without operands.
    pub fn new(alloc: Global, _scope: &Scope) -> Stack
        ensures { known _scope.now.types result ≡ record { dead = false; ops = [] } }
    {
        Stack {
            dead: false,
            below: Vec::new(alloc),
            last: NONE,
        }
    }

    /// The operands, to be taken off without a change of the stack.
    pub fn peek(&self, _scope: &Scope) -> Peek<'_>
        ensures { peeked _scope.now.types result ≡ known _scope.now.types self.now }
    {
        Peek {
            dead: self.dead,
            below: self.below.as_slice(),
            last: self.last,
        }
    }

    /// How many of its last types another list of the same length has to share with this one to match the operands too, where
    /// this one does: as many as there are operands, and no more than the list has types. An operand of no known type at the
    /// very bottom isn't counted, since it matches all types.
    ///
    /// It costs the runs.
    pub fn decisive(&self, scope: &Scope, list: Listed) -> usize
        ensures { HangsOn (known scope.now.types self.now) (listed scope.now.types list) result }
    {
        let most = scope.list(list).len();
        let mut rest = self.peek(scope);
        let mut count = 0;
        loop {
            let Some((run, below)) = rest.below.split_last() else {
                return count + lowest(scope, rest.last).min(most - count);
            };
            let n = size(scope, rest.last);
            if most - count <= n {
                return most;
            }
            count += n;
            rest.last = *run;
            rest.below = below;
        }
    }

    // Puts a run on top.
    fn add(&mut self, scope: &Scope, run: Run) -> Result<(), AllocError>
        ensures { IfOk result (λ r. known scope.now.types self.new ≡ onto (run_of scope.now.types run) (known scope.now.types self.old)) }
    {
        if is_gone(scope, self.last) {
            self.last = run;
            return Ok(());
        }
        self.below.push(self.last)?;
        self.last = run;
        Ok(())
    }

    /// Puts an operand on top.
    pub fn push(&mut self, scope: &Scope, t: Operand) -> Result<(), AllocError>
        ensures { IfOk result (λ r. known scope.now.types self.new ≡ onto (t ∷ []) (known scope.now.types self.old)) }
    {
        Ok(self.add(scope, Run::Single(t))?)
    }

    /// Puts operands of the types of the list on top, the last one last. It costs no more than one operand.
    pub fn put_list(&mut self, scope: &Scope, list: Listed) -> Result<(), AllocError>
        ensures { IfOk result (λ r. known scope.now.types self.new ≡ onto (operands (listed scope.now.types list)) (known scope.now.types self.old)) }
    {
        let count = scope.list(list).len();
        Ok(self.add(scope, Run::First { list, count })?)
    }

    /// Puts operands of the types on top, the last one last.
    pub fn put_all(&mut self, scope: &Scope, types: &[ValType]) -> Result<(), AllocError>
        ensures { IfOk result (λ r. known scope.now.types self.new ≡ onto (operands types.now) (known scope.now.types self.old)) }
    {
        for t in types {
            self.push(scope, Operand::Of(*t))?;
        }
        Ok(())
    }

    // Brings up the runs below where the last one has no operands left.
    fn settle(&mut self, scope: &Scope)
        ensures same { known scope.now.types self.new ≡ known scope.now.types self.old }
        ensures bare { run_of scope.now.types self.new.last ≡ [] → (known scope.now.types self.new).ops ≡ [] }
    {
        while is_gone(scope, self.last) {
            match self.below.pop() {
                None => return,
                Some(run) => self.last = run,
            }
        }
    }

    /// Takes the last operand. Below the last one after an unconditional branch there are others of any type.
    pub fn pop(&mut self, scope: &Scope) -> Option<Operand>
        ensures { MatchOption result (pop_of (known scope.now.types self.old) ≡ None) (λ t. pop_of (known scope.now.types self.old) ≡ Some (t, known scope.now.types self.new)) }
    {
        self.settle(scope);
        match last_of(scope, self.last) {
            None => base(self.dead),
            Some((t, rest)) => {
                self.last = rest;
                Some(t)
            }
        }
    }

    /// After an unconditional branch.
    pub fn kill(&mut self, _scope: &Scope)
        ensures { known _scope.now.types self.new ≡ dead_end }
    {
        self.dead = true;
        self.below.clear();
        self.last = NONE;
    }

    /// Takes an operand that matches the type.
    pub fn take(&mut self, scope: &Scope, t: ValType) -> bool
        ensures { Answers result (popped (Operand.Of t ∷ []) (known scope.now.types self.old)) (known scope.now.types self.new) }
    {
        match self.pop(scope) {
            None => false,
            Some(o) => matching(o, t),
        }
    }

    /// Takes operands that match the types, the last first.
    pub fn take_all(&mut self, scope: &Scope, types: &[ValType]) -> bool
        ensures { Answers result (popped (operands types.now) (known scope.now.types self.old)) (known scope.now.types self.new) }
    {
        for i in (0..types.len()).rev() {
            if !self.take(scope, types[i]) {
                return false;
            }
        }
        true
    }

    // Takes of the first `left` types of the list, the last first, those that can be taken at one go: where the list or the
    // last run ends with the other, or where no operand is known and there are others of any type. It says how many are left.
    fn take_quickly(&mut self, scope: &Scope, list: Listed, left: usize) -> usize
        requires { left ≤ length (listed scope.now.types list) }
        ensures within { result ≤ left }
        ensures same { popped (run_of scope.now.types (First list left)) (known scope.now.types self.old) ≡ popped (run_of scope.now.types (First list result)) (known scope.now.types self.new) }
    {
        self.settle(scope);
        if self.dead && is_gone(scope, self.last) {
            return 0;
        }
        let (last, left) = meet(scope, self.last, list, left);
        self.last = last;
        left
    }

    /// Takes operands that match the types of the list, the last first.
    ///
    /// It costs the runs that it takes, where these are single operands or end with what is left to be taken, or where that
    /// ends with them; of lists that aren't both long and used often, the types that are compared too. Elsewhere it costs the
    /// operands.
    pub fn take_list(&mut self, scope: &Scope, list: Listed) -> bool
        ensures { Answers result (popped (operands (listed scope.now.types list)) (known scope.now.types self.old)) (known scope.now.types self.new) }
    {
        let types = scope.list(list);
        let mut left = types.len();
        loop {
            left = self.take_quickly(scope, list, left);
            if left == 0 {
                return true;
            }
            left -= 1;
            if !self.take(scope, types[left]) {
                return false;
            }
        }
    }
}

impl<'a> Peek<'a> {
    /// Whether no operand is known.
    pub fn is_empty(&mut self, scope: &Scope) -> bool
        ensures { result ≡ no_operands (peeked scope.now.types self.old).ops }
    {
        self.settle(scope);
        is_gone(scope, self.last)
    }

    // Brings up the runs below where the last one has no operands left.
    fn settle(&mut self, scope: &Scope)
        ensures same { peeked scope.now.types self.new ≡ peeked scope.now.types self.old }
        ensures bare { run_of scope.now.types self.new.last ≡ [] → (peeked scope.now.types self.new).ops ≡ [] }
    {
        while is_gone(scope, self.last) {
            match self.below.split_last() {
                None => return,
                Some((run, rest)) => {
                    self.last = *run;
                    self.below = rest;
                }
            }
        }
    }

    /// Takes the last operand. Below the last one after an unconditional branch there are others of any type.
    pub fn pop(&mut self, scope: &Scope) -> Option<Operand>
        ensures { MatchOption result (pop_of (peeked scope.now.types self.old) ≡ None) (λ t. pop_of (peeked scope.now.types self.old) ≡ Some (t, peeked scope.now.types self.new)) }
    {
        self.settle(scope);
        match last_of(scope, self.last) {
            None => base(self.dead),
            Some((t, rest)) => {
                self.last = rest;
                Some(t)
            }
        }
    }

    /// Takes an operand that matches the type.
    pub fn take(&mut self, scope: &Scope, t: ValType) -> bool
        ensures { Answers result (popped (Operand.Of t ∷ []) (peeked scope.now.types self.old)) (peeked scope.now.types self.new) }
    {
        match self.pop(scope) {
            None => false,
            Some(o) => matching(o, t),
        }
    }

    // Takes of the first `left` types of the list, the last first, those that can be taken at one go: where the list or the
    // last run ends with the other, or where no operand is known and there are others of any type. It says how many are left.
    fn take_quickly(&mut self, scope: &Scope, list: Listed, left: usize) -> usize
        requires { left ≤ length (listed scope.now.types list) }
        ensures within { result ≤ left }
        ensures same { popped (run_of scope.now.types (First list left)) (peeked scope.now.types self.old) ≡ popped (run_of scope.now.types (First list result)) (peeked scope.now.types self.new) }
    {
        self.settle(scope);
        if self.dead && is_gone(scope, self.last) {
            return 0;
        }
        let (last, left) = meet(scope, self.last, list, left);
        self.last = last;
        left
    }

    /// Takes operands that match the types of the list, the last first. It costs what `take_list` of a stack costs.
    pub fn take_list(&mut self, scope: &Scope, list: Listed) -> bool
        ensures { Answers result (popped (operands (listed scope.now.types list)) (peeked scope.now.types self.old)) (peeked scope.now.types self.new) }
    {
        let types = scope.list(list);
        let mut left = types.len();
        loop {
            left = self.take_quickly(scope, list, left);
            if left == 0 {
                return true;
            }
            left -= 1;
            if !self.take(scope, types[left]) {
                return false;
            }
        }
    }
}
