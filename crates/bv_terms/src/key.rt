// The key by which a form is found: its parts, in an order.
ghost use Rattle.std.specs.Prelude.{◌≡◌, IfOk};
ghost use Rattle.bv_terms.specs.code.Index.{form_of};

use crate::words::{Form, Word};
use std::alloc::{AllocError, Global};

/// A form as a key of a map.
#[derive(PartialEq, Eq, PartialOrd, Ord, Drop)]
pub enum Key {
    Symbol(u64, bool),
    Un(u8, Word),
    Bin(u8, Word, Word),
    Choose(bool, Word, Word, Word),
    Byte(Word, u32),
    Join(bool, Vec<Word>),
}

/// The key of a form. Only that of a join takes memory.
pub fn key_of(alloc: Global, form: &Form) -> Result<Key, AllocError>
    ensures { IfOk result (λ key. form_of key ≡ form.now) }
{
    match form {
        Form::Symbol { number, wide } => Ok(Key::Symbol(*number, *wide)),
        Form::Un { op, a } => Ok(Key::Un(*op, *a)),
        Form::Bin { op, a, b } => Ok(Key::Bin(*op, *a, *b)),
        Form::Choose { wide, c, a, b } => Ok(Key::Choose(*wide, *c, *a, *b)),
        Form::Byte { a, i } => Ok(Key::Byte(*a, *i)),
        Form::Join { wide, bytes } => {
            let words = bytes.as_slice().to_vec(alloc)?;
            Ok(Key::Join(*wide, words))
        }
    }
}
