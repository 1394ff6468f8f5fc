// A page of a memory.
ghost use Rattle.std.specs.Prelude.{◌≡◌, ◌⊎◌, ◌+◌, ◌<◌, ◌≤◌, true, IsSome, OnOk, Some, length, replicate, slice_get};
ghost use Rattle.wasm_rules.specs.Words.{numbers, HasNumber};
ghost use Rattle.wasm_rules.specs.Accesses.{load_of, store_of, load_bytes, load_bits, loaded, stored};
ghost use Rattle.wasm_reduction.specs.Combinators.{written, part};
ghost use Rattle.wasm_reduction.specs.Memories.{page_bytes};
ghost use Rattle.wasm_run.specs.code.Pages.{fresh};

use crate::accesses::{loaded_number, store_number};
use std::alloc::{AllocError, Global};
use std::marker::Model;

/// How many bytes a page has.
pub const PAGE: usize = 65_536;

/// A page: 65,536 bytes. Before it is first written it has no block, and all of them are 0.
#[derive(Drop)]
pub struct Page {
    block: Vec<u8>,
}

impl Model for Page {
    ghost use Rattle.std.specs.Prelude.{◌≡◌, length};
    ghost use Rattle.wasm_reduction.specs.Memories.{page_bytes};
    ghost use Rattle.wasm_run.specs.code.Pages.{Page as OnePage, page_of};

    ghost Value = { OnePage };

    ghost view = { λ p. page_of p.block.items };

    ghost invariant = { λ p. length (page_of p.block.items).bytes ≡ page_bytes };
}

impl Page {
    /// A page that was never written.
    pub fn new(alloc: Global) -> Page
        ensures { result ≡ fresh }
    {
        Page {
            block: Vec::new(alloc),
        }
    }

    /// The byte at a place.
    pub fn get(&self, at: usize) -> u8
        requires { at < page_bytes }
        ensures { slice_get self.now.bytes at ≡ Some result }
    {
        match self.block.as_slice().get(at) {
            Some(byte) => *byte,
            None => 0,
        }
    }

    /// Whether the block has eight bytes from a place on.
    pub fn has_eight(&self, at: usize) -> bool
        requires { at < page_bytes }
        ensures held { result ≡ true → self.now.held ≡ true }
        ensures within { result ≡ true → at + 8 ≤ page_bytes }
    {
        at + 8 <= self.block.as_slice().len()
    }

    /// The number that the load of an opcode makes of the bytes from a place on.
    #[tactic(auto, using(crate::proofs::AccessLemmas::load_most))]
    pub fn load(&self, op: u8, at: usize) -> u64
        requires held { self.now.held ≡ true }
        requires within { at + 8 ≤ page_bytes }
        requires load { IsSome (load_of op) }
        ensures exact { result ≡ loaded numbers op (part at (load_bytes op) self.now.bytes) }
        ensures width { HasNumber (load_bits op) result }
    {
        loaded_number(op, &self.block[at..])
    }

    /// The bytes that the store of an opcode makes of a number are written, from a place on.
    #[tactic(auto, using(crate::proofs::AccessLemmas::store_most, crate::proofs::AccessLemmas::stored_long))]
    pub fn store(&mut self, op: u8, at: usize, w: u64)
        requires held { self.old.held ≡ true }
        requires within { at + 8 ≤ page_bytes }
        requires store { IsSome (store_of op) }
        ensures { self.new ≡ record { bytes = written at (stored numbers op w) self.old.bytes; held = true } }
    {
        store_number(op, &mut self.block[at..], w);
    }

    /// The bytes from a place on.
    pub fn read(&self, at: usize, out: &mut [u8])
        requires { at + length out.old ≤ page_bytes }
        ensures { out.new ≡ part at (length out.old) self.now.bytes }
    {
        let block = self.block.as_slice();
        if block.is_empty() {
            out.fill(0);
        } else {
            out.copy_from_slice(&block[at..at + out.len()]);
        }
    }

    /// The page gets its block, where it has none.
    pub fn hold(&mut self) -> Result<(), AllocError>
        ensures bytes { self.new.bytes ≡ self.old.bytes }
        ensures held { OnOk result (self.new.held ≡ true) }
    {
        if self.block.as_slice().is_empty() {
            self.block.resize(PAGE, 0)?;
        }
        Ok(())
    }

    /// Bytes are written, from a place on.
    pub fn write(&mut self, at: usize, bytes: &[u8])
        requires held { self.old.held ≡ true }
        requires within { at + length bytes.now ≤ page_bytes }
        ensures { self.new ≡ record { bytes = written at bytes.now self.old.bytes; held = true } }
    {
        self.block[at..at + bytes.len()].copy_from_slice(bytes);
    }

    /// A byte is written to each place of a range. A page without a block is zeros, and stays so.
    pub fn fill(&mut self, at: usize, count: usize, byte: u8)
        requires held { (self.old.held ≡ true) ⊎ (byte ≡ 0) }
        requires within { at + count ≤ page_bytes }
        ensures { self.new ≡ record { bytes = written at (replicate count byte) self.old.bytes; held = self.old.held } }
    {
        if !self.block.as_slice().is_empty() {
            self.block[at..at + count].fill(byte);
        }
    }
}
