// The bytes that a reader sees.
ghost use Rattle.std.specs.Prelude.{◌≡◌, ℕ, ◌+◌, ◌≤◌, length, Some};
ghost use Rattle.grammar_forms.specs.Forms.{up_to as window_up_to, left_over as left_over_in};
ghost use Rattle.wasm_binary.specs.Faults.{size};
ghost use Rattle.wasm_binary.specs.Modules.{whole as whole_window};
ghost use Rattle.wasm_read.specs.Refusals.{fault_of};

use crate::bad::ReadBad;
use std::marker::Model;

/// The bytes from the start of the input up to the nearest end, and whether that end is a stated one.
#[derive(Drop)]
pub(crate) struct View<'a> {
    bytes: &'a [u8],
    stated: bool,
}

impl<'a> Model for View<'a> {
    ghost use Rattle.grammar_forms.specs.Forms.{Window};
    ghost use Rattle.wasm_binary.specs.Faults.{Fault};
    ghost use Rattle.wasm_read.specs.Views.{window_of};

    ghost Value = { Window Fault };

    ghost view = { λ v. window_of v.bytes.now v.stated };
}

impl View<'_> {
    /// All bytes of the input.
    pub(crate) fn whole(bytes: &[u8]) -> View<'_>
        ensures { result ≡ whole_window bytes.now }
    {
        View {
            bytes,
            stated: false,
        }
    }

    /// The bytes, from the start of the input.
    pub(crate) fn bytes(&self) -> &[u8]
        ensures { result.now ≡ self.now.bytes }
    {
        self.bytes
    }

    /// The bytes up to a stated end, where there are so many; else the nearest end stays.
    pub(crate) fn up_to(&self, end: usize) -> View<'_>
        ensures window { result ≡ window_up_to size self.now end }
        ensures shorter { length result.bytes ≤ length self.now.bytes }
        ensures reaches { (at : ℕ) → at ≤ end → at ≤ length self.now.bytes → at ≤ length result.bytes }
    {
        if end <= self.bytes.len() {
            View {
                bytes: &self.bytes[..end],
                stated: true,
            }
        } else {
            View {
                bytes: self.bytes,
                stated: self.stated,
            }
        }
    }

    /// What is said where a form needs a byte at the end.
    pub(crate) fn ended(&self) -> ReadBad
        ensures { fault_of result ≡ Some self.now.ended }
    {
        let at = self.bytes.len() as u64;
        if self.stated {
            ReadBad::Size { at }
        } else {
            ReadBad::Cut { at }
        }
    }

    /// The place after so many bytes from a place on.
    pub(crate) fn end_after(&self, at: usize, len: u32) -> usize
        requires { at ≤ length self.now.bytes }
        ensures { result ≡ at + len }
    {
        let _long = self.bytes.len();
        at + len as usize
    }

    /// What is said of contents that end at a place before their stated end: of a byte that is left there, or as where a
    /// byte is needed.
    pub(crate) fn left_over(&self, next: usize) -> ReadBad
        ensures { fault_of result ≡ Some (left_over_in size self.now next) }
    {
        if self.bytes.len() <= next {
            self.ended()
        } else {
            ReadBad::Size { at: next as u64 }
        }
    }
}
