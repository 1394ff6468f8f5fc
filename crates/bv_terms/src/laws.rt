// Laws of terms.
ghost use Rattle.std.specs.Prelude.{◌≡◌, ◌↔◌, ℕ, ◌^◌, ◌<◌, Bool, List, true};
ghost use Rattle.std.specs.List.{AllByRecursion};
ghost use Rattle.wasm_rules.specs.Words.{Gives};
ghost use Rattle.bv_terms.specs.Terms.{Term as OneTerm, HasWidth, HasBits, HasSymbols, is_same, value_of};
ghost use Rattle.bv_terms.specs.declared.words.Word.{Word as OneWord};
ghost use Rattle.bv_terms.specs.Graphs.{TermGraph, IsGraph, Holds, Makes, term_of, terms_of};
ghost use Rattle.bv_terms.specs.Making.{IsSound, Keeps, rules, made, terms};

/// Each making rule, where it fits, gives a term of the same width and of the same value at every input.
pub fn rules_are_sound()
    ensures { AllByRecursion IsSound rules }
{}

/// So does the making of a term by all rules.
pub fn making_is_sound()
    ensures { (t : OneTerm) (bits : ℕ) → HasWidth bits t → Keeps bits t (made t) }
{}

/// A term that has a width is below that power of 2 at every input.
pub fn values_fit()
    ensures { (t : OneTerm) (bits : ℕ) → HasWidth bits t → (input : List ℕ) → value_of input t < 2 ^ bits }
{}

/// The operations on terms give terms of the operators' widths.
pub fn terms_have_widths()
    ensures { Gives terms HasBits }
{}

/// What is made of a term has no symbol that the term hasn't: so a call makes none that its operands haven't.
pub fn making_adds_no_symbol()
    ensures { (draws : List Bool) (t : OneTerm) → HasSymbols draws t → HasSymbols draws (made t) }
{}

/// The test of terms tells exactly which are the same.
pub fn sameness_is_exact()
    ensures { (t s : OneTerm) → (is_same t s ≡ true) ↔ (t ≡ s) }
{}

/// Different words of a graph are different terms: each term is there once.
pub fn terms_are_shared()
    ensures { (g : TermGraph) → IsGraph g.forms → (v w : OneWord) → Holds g v → Holds g w → term_of g v ≡ term_of g w → v ≡ w }
{}

/// A term that is made twice is one word, and nothing is made the second time: so two calls with the same operation and
/// words give the same word.
pub fn making_again_gives_the_word()
    ensures { (g h k : TermGraph) (t : OneTerm) (v w : OneWord) → IsGraph k.forms → Makes g t v h → Makes h t w k → (v ≡ w) × (terms_of k.forms ≡ terms_of h.forms) }
{}
