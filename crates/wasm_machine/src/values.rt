// Values (Execution, Runtime Structure: Values), over the words of any algebra.
ghost use Rattle.std.specs.Prelude.{◌≡◌};
ghost use Rattle.wasm_machine.specs.Values.{word_of, reference_of, valued as valued_of};

/// A reference.
#[derive(Clone, Copy)]
pub enum Reference {
    /// Of type funcref: null, or to the function of this index. Imports are counted.
    Func(Option<u32>),
    /// The null of type externref, which has no other reference.
    Extern,
}

/// A value: an integer, which is a word, or a reference.
#[derive(Clone, Copy)]
pub enum Value<W: Copy> {
    /// Of type i32.
    I32(W),
    /// Of type i64.
    I64(W),
    /// Of a reference type.
    Ref(Reference),
}

impl<W: Copy> Value<W> {
    /// The word of an i64, where wide, or of an i32.
    pub fn word(self, wide: bool) -> Option<W>
        ensures { result ≡ word_of wide self }
    {
        match self {
            Value::I32(w) => { if wide { None } else { Some(w) } }
            Value::I64(w) => { if wide { Some(w) } else { None } }
            Value::Ref(_) => None,
        }
    }

    /// The reference, where it is one.
    pub fn reference(self) -> Option<Reference>
        ensures { result ≡ reference_of self }
    {
        match self {
            Value::Ref(r) => Some(r),
            _ => None,
        }
    }

    /// A word as an i64, where wide, else as an i32.
    pub fn of_word(wide: bool, w: W) -> Value<W>
        ensures { result ≡ valued_of wide w }
    {
        if wide { Value::I64(w) } else { Value::I32(w) }
    }
}
