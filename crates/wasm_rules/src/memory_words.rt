// Words and their bytes in memory.
ghost use Rattle.std.specs.Prelude.{◌≡◌, ℕ, List, IfOk, OnOk, All, IsSome, length, map};
ghost use Rattle.wasm_rules.specs.Words.{Kept, numbers};
ghost use Rattle.wasm_rules.specs.Accesses.{load_of, store_of, load_bytes, load_bits, store_bits, loaded, stored, store_bytes as stored_bytes};

use crate::accesses::Access;
use crate::algebra::Algebra;
use std::alloc::AllocError;

/// The word that a load makes of its bytes, the lowest first: they are joined to the width that it loads to and, where it is
/// signed, their sign is extended to that width.
///
/// Source: Execution, Instructions: Memory Instructions.
pub fn load_word<A: Algebra>(a: &mut A, op: u8, bytes: &[A::Word]) -> Result<A::Word, AllocError>
    requires load { IsSome (load_of op) }
    requires whole { length bytes.now ≡ load_bytes op }
    requires bytes_held { All (A.holds a.old) bytes.now }
    requires bytes_width { All (λ b. A.Has 8 (A.means a.old b)) bytes.now }
    ensures held { IfOk result (λ w. A.holds a.new w) }
    ensures means { IfOk result (λ w. A.means a.new w ≡ loaded A.kind op (map (A.means a.old) bytes.now)) }
    ensures width { IfOk result (λ w. A.Has (load_bits op) (A.means a.new w)) }
    ensures value { IfOk result (λ w. (input : List ℕ) → A.value input (A.means a.new w) ≡ loaded numbers op (map (λ b. A.value input (A.means a.old b)) bytes.now)) }
    ensures keeps { Kept A.holds A.means a.old a.new }
{
    let Some(access) = Access::load(op) else {
        unreachable!()
    };
    let word = a.join(access.wide, bytes)?;
    match access.extend {
        None => Ok(word),
        Some(extend) => Ok(a.un(extend, word)?),
    }
}

/// The bytes that a store writes of a word, the lowest first. After a refusal a part of them may be written.
///
/// Source: Execution, Instructions: Memory Instructions.
pub fn store_bytes<A: Algebra>(
    a: &mut A,
    op: u8,
    w: A::Word,
    out: &mut [A::Word],
) -> Result<(), AllocError>
    requires store { IsSome (store_of op) }
    requires whole { length out.old ≡ stored_bytes op }
    requires w_held { A.holds a.old w }
    requires w_width { A.Has (store_bits op) (A.means a.old w) }
    ensures held { OnOk result (All (λ b. A.holds a.new b × A.Has 8 (A.means a.new b)) out.new) }
    ensures means { OnOk result (map (A.means a.new) out.new ≡ stored A.kind op (A.means a.old w)) }
    ensures value { OnOk result ((input : List ℕ) → map (λ b. A.value input (A.means a.new b)) out.new ≡ stored numbers op (A.value input (A.means a.old w))) }
    ensures keeps { Kept A.holds A.means a.old a.new }
{
    for i in 0..out.len() {
        out[i] = a.byte(w, i as u32)?;
    }
    Ok(())
}
