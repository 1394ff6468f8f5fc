// How the sequences of an expression are numbered.
ghost use Rattle.std.specs.Prelude.{ℕ, ◌≡◌, ◌↔◌, ◌<◌, ◌==◌, ◌&&◌, nat_lt, if◌then◌else◌, length, slice_index, IsTrue, IfOk, ◌≤◌};
ghost use Rattle.wasm_ast.specs.Numbering.{IsNumbered, after, named_by, names, times_named};

use crate::instructions::Instr;
use crate::lists::List;
use std::alloc::{AllocError, Global};

// The number that follows the one sequence.
fn after_one(ends: &[usize], name: u32, at: usize) -> Option<usize>
    ensures { result ≡ (if name == at && nat_lt at (length ends.now) then Some (slice_index ends.now at) else None) }
{
    if name as usize == at && at < ends.len() {
        Some(ends[at])
    } else {
        None
    }
}

// The number that follows the sequences that the instruction names.
fn after_instr(ends: &[usize], instr: &Instr, at: usize) -> Option<usize>
    ensures { result ≡ after ends.now (named_by instr.now) at }
{
    match instr {
        Instr::Block { body, .. } => after_one(ends, *body, at),
        Instr::Loop { body, .. } => after_one(ends, *body, at),
        Instr::If { then, other, .. } => {
            let at = after_one(ends, *then, at)?;
            after_one(ends, *other, at)
        }
        _ => Some(at),
    }
}

// The number that follows the sequences that the instructions name.
fn after_seq(ends: &[usize], instrs: &[Instr], at: usize) -> Option<usize>
    ensures { result ≡ after ends.now (names instrs.now) at }
{
    let mut at = at;
    for instr in instrs {
        at = after_instr(ends, instr, at)?;
    }
    Some(at)
}

/// Whether the sequences are numbered in the order in which they open, from the outermost, 0, and each other is named once.
///
/// It takes a number of memory for each sequence.
pub fn is_numbered(alloc: Global, seqs: &List<List<Instr>>) -> Result<bool, AllocError>
    ensures { IfOk result (λ numbered. IsTrue numbered ↔ IsNumbered seqs.now) }
{
    let count = seqs.len();
    if count == 0 {
        return Ok(false);
    }
    let mut ends = vec![in alloc; 0usize; count]?;
    let mut k = count;
    while k > 0 {
        let end = after_seq(ends.as_slice(), seqs.get(k - 1).as_slice(), k);
        match end {
            None => return Ok(false),
            Some(end) => {
                k -= 1;
                ends[k] = end;
            }
        }
    }
    Ok(ends[0] == count)
}

/// A law of numbered sequences, which does nothing: each number above 0 is named once, and no other is named.
pub fn named_once(seqs: &List<List<Instr>>)
    requires { IsNumbered seqs.now }
    ensures once { (n : ℕ) → 0 < n → n < length seqs.now → times_named seqs.now n ≡ 1 }
    ensures outermost { times_named seqs.now 0 ≡ 0 }
    ensures no_other { (n : ℕ) → length seqs.now ≤ n → times_named seqs.now n ≡ 0 }
{}
