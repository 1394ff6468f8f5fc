// Kinds of words, for laws of any kind.
ghost use Rattle.std.specs.Prelude.{ℕ};
ghost use Rattle.wasm_rules.specs.Words.{Kind, numbers, HasNumber, blanks};

use crate::algebra::{Algebra, Numbers};
use std::marker::PhantomData;

/// A kind of words, and which of its words have which width. A law that is stated over `Words` is one of every kind.
///
/// What has a width may depend on what is given: so a law is also one of terms whose symbols are among some draws, whichever
/// these are.
pub trait Words {
    ghost Means: { Type 0 };

    ghost Given: { Type 0 };

    ghost kind: { Kind Means };

    ghost Has: { Given → ℕ → Means → Type 0 };
}

impl Words for Numbers {
    ghost Means = { ℕ };

    ghost Given = { Unit {0} };

    ghost kind = { numbers };

    ghost Has = { λ _. HasNumber };
}

/// The words of an algebra, with its own widths: what holds over any `Words` holds of each algebra.
pub struct WordsOf<A> {
    algebra: PhantomData<A>,
}

impl<A: Algebra> Words for WordsOf<A> {
    ghost Means = { A.Means };

    ghost Given = { Unit {0} };

    ghost kind = { A.kind };

    ghost Has = { λ _. A.Has };
}

/// Words that mean nothing, and have every width.
pub struct Blanks;

impl Words for Blanks {
    ghost Means = { Unit {0} };

    ghost Given = { Unit {0} };

    ghost kind = { blanks };

    ghost Has = { λ _ _ _. Unit {0} };
}
