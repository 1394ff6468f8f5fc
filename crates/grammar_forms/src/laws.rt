// What holds of the forms from which all others are put together.
//
// That what is put together of lawful forms is lawful is proved once for each way of putting forms together; a clause can't say
// it, since it can't speak of every form.
ghost use Rattle.std.specs.Prelude.{ℕ};
ghost use Rattle.grammar_forms.specs.Forms.{gives, any_byte, unsigned, signed};
ghost use Rattle.grammar_forms.specs.Laws.{IsLawful};

/// Law: no bytes, a byte, and numbers in LEB128 are read exactly as they are spelled, and refused with their first trouble.
pub fn first_forms_are_lawful<E, A>()
    ensures of_none { (n : ℕ) (x : A) → IsLawful {E = E} n (gives x) }
    ensures of_bytes { (n : ℕ) → IsLawful {E = E} n any_byte }
    ensures of_unsigned { (n width : ℕ) (leb : ℕ → E) → IsLawful n (unsigned leb width) }
    ensures of_signed { (n width : ℕ) (leb : ℕ → E) → IsLawful n (signed leb width) }
{}
