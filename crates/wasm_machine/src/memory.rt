// Memories: what a machine asks of them.
ghost use Rattle.std.specs.Prelude.{◌≡◌, ℕ, ◌+◌, ◌*◌, ◌<◌, ◌≤◌, ◌^◌, List, ◌++◌, All, IfOk, OnOk, OnErr, IsSome, Some, length, map, replicate, slice_get, slice_set};
ghost use Rattle.std.specs.Mem.{type_size};
ghost use Rattle.wasm_rules.specs.Words.{Kept};
ghost use Rattle.wasm_rules.specs.Accesses.{load_of, store_of, load_bytes, load_bits, store_bits, loaded, stored, store_bytes as stored_bytes};
ghost use Rattle.wasm_reduction.specs.Combinators.{written, part};
ghost use Rattle.wasm_reduction.specs.Memories.{page_bytes};

use std::alloc::AllocError;
use wasm_rules::{Access, Algebra, load_word, store_bytes};

/// A memory, as a list of words of an algebra, each of them a byte. Places and counts are those of its cells.
///
/// It doesn't know what its words mean, nor whether the algebra holds them: that is for the run to know. A refusal, which
/// comes only where there is no memory for it, leaves the cells as they were.
pub trait Memory<A: Algebra> {
    ghost cells: { Self → List A.Word };

    /// Which words a cell can hold.
    ghost fits: { A.Word → Type 0 };

    /// The word of a plain byte.
    ghost plain: { ℕ → A.Word };

    /// How many cells there are.
    fn length(&self) -> u64
        ensures { result ≡ length (cells self.now) };

    /// The word of a cell.
    fn get(&self, at: u64) -> A::Word
        requires { at < length (cells self.now) }
        ensures { slice_get (cells self.now) at ≡ Some result };

    /// A cell is written.
    fn set(&mut self, at: u64, w: A::Word) -> Result<(), AllocError>
        requires within { at < length (cells self.old) }
        requires fits { fits w }
        ensures set { OnOk result (cells self.new ≡ slice_set (cells self.old) at w) }
        ensures refused { OnErr result (cells self.new ≡ cells self.old) };

    /// So many more pages, each of 65,536 cells of the byte 0.
    fn grow(&mut self, pages: u64) -> Result<(), AllocError>
        ensures grown { OnOk result (cells self.new ≡ cells self.old ++ replicate (pages * page_bytes) (plain 0)) }
        ensures refused { OnErr result (cells self.new ≡ cells self.old) };

    /// A word is written to each cell of a range.
    fn fill(&mut self, at: u64, count: u64, w: A::Word) -> Result<(), AllocError>
        requires within { at + count ≤ length (cells self.old) }
        requires fits { fits w }
        ensures filled { OnOk result (cells self.new ≡ written at (replicate count w) (cells self.old)) }
        ensures refused { OnErr result (cells self.new ≡ cells self.old) };

    /// A range is written over another one, as if through a second list.
    fn copy(&mut self, to: u64, from: u64, count: u64) -> Result<(), AllocError>
        requires from_within { from + count ≤ length (cells self.old) }
        requires to_within { to + count ≤ length (cells self.old) }
        ensures copied { OnOk result (cells self.new ≡ written to (part from count (cells self.old)) (cells self.old)) }
        ensures refused { OnErr result (cells self.new ≡ cells self.old) };

    /// Words are written, from a place on.
    fn write(&mut self, at: u64, words: &[A::Word]) -> Result<(), AllocError>
        requires within { at + length words.now ≤ length (cells self.old) }
        requires fits { All fits words.now }
        ensures written { OnOk result (cells self.new ≡ written at words.now (cells self.old)) };

    /// Plain bytes are written, from a place on.
    fn write_bytes(&mut self, at: u64, bytes: &[u8]) -> Result<(), AllocError>
        requires within { at + length bytes.now ≤ length (cells self.old) }
        ensures written { OnOk result (cells self.new ≡ written at (map plain bytes.now) (cells self.old)) };

    /// The words of the cells from a place on, as many as there is room for.
    fn read(&self, at: u64, out: &mut [A::Word])
        requires { at + length out.old ≤ length (cells self.now) }
        ensures { out.new ≡ part at (length out.old) (cells self.now) }
    {
        // As the length is a u64, so is each place below it.
        let _ = self.length();
        for i in 0..out.len() {
            out[i] = self.get(at + i as u64);
        }
    }

    /// The word that the load of an opcode makes of the cells from a place on.
    #[tactic(auto, using(crate::proofs::CellLemmas::load_small))]
    fn load(&self, a: &mut A, op: u8, at: u64) -> Result<A::Word, AllocError>
        requires load { IsSome (load_of op) }
        requires within { at + load_bytes op ≤ length (cells self.now) }
        requires cells_held { All (A.holds a.old) (cells self.now) }
        requires cells_width { All (λ b. A.Has 8 (A.means a.old b)) (cells self.now) }
        ensures held { IfOk result (λ w. A.holds a.new w) }
        ensures means { IfOk result (λ w. A.means a.new w ≡ loaded A.kind op (map (A.means a.old) (part at (load_bytes op) (cells self.now)))) }
        ensures width { IfOk result (λ w. A.Has (load_bits op) (A.means a.new w)) }
        ensures keeps { Kept A.holds A.means a.old a.new }
    {
        let Some(access) = Access::load(op) else {
            unreachable!()
        };
        let mut buffer = [self.get(at); 8];
        let bytes = &mut buffer[..access.bytes as usize];
        self.read(at, bytes);
        Ok(load_word(a, op, bytes)?)
    }

    /// The bytes that the store of an opcode makes of a word are written, from a place on.
    #[tactic(auto, using(crate::proofs::CellLemmas::store_small))]
    fn store(&mut self, a: &mut A, op: u8, at: u64, w: A::Word) -> Result<(), AllocError>
        requires store { IsSome (store_of op) }
        requires within { at + stored_bytes op ≤ length (cells self.old) }
        requires w_held { A.holds a.old w }
        requires w_width { A.Has (store_bits op) (A.means a.old w) }
        requires cells_held { All (A.holds a.old) (cells self.old) }
        ensures held { OnOk result (All (A.holds a.new) (cells self.new)) }
        ensures means { OnOk result (map (A.means a.new) (cells self.new) ≡ written at (stored A.kind op (A.means a.old w)) (map (A.means a.old) (cells self.old))) }
        ensures keeps { Kept A.holds A.means a.old a.new }
    {
        let Some(access) = Access::store(op) else {
            unreachable!()
        };
        let mut buffer = [w; 8];
        let bytes = &mut buffer[..access.bytes as usize];
        store_bytes(a, op, w, bytes)?;
        self.write(at, bytes)?;
        Ok(())
    }

    /// A cell can hold each byte of the algebra.
    ghost bytes_fit: { (a : A) (w : A.Word) → A.holds a w → A.Has 8 (A.means a w) → fits w };

    /// The algebra holds the word of each plain byte, which means that number.
    ghost plain_is: { (a : A) (n : ℕ) → n < 256 → A.holds a (plain n) × (A.means a (plain n) ≡ A.kind.number n) };

    /// Eight words can stand side by side.
    ghost word_size: { 8 * type_size A.Word.row < 2 ^ 63 };
}
