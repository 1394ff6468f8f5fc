// Values and lists of them as a line has them.
ghost use Rattle.std.specs.Prelude.{◌≡◌, ℕ, List, ◌∷◌, ◌++◌, OnOk, string_bytes, map, flat_map};
ghost use Rattle.path_report.specs.Report.{list_text};

use crate::terms::put_operand;
use fork_tree::Shown;
use std::alloc::AllocError;
use wasm_ast::{Draw, Value};

/// What can be a member of a printed list.
pub trait Printed {
    ghost text: { Self → List ℕ };

    /// Appends the text of the member.
    fn put(&self, out: &mut String) -> Result<(), AllocError>
        ensures { OnOk result (string_bytes out.new ≡ string_bytes out.old ++ text self.now) };
}

impl Printed for Value {
    ghost use Rattle.path_report.specs.Report.{value_text};

    ghost text = { value_text };

    fn put(&self, out: &mut String) -> Result<(), AllocError> {
        match *self {
            Value::I32(number) => write!(out, "i32:{number}"),
            Value::I64(number) => write!(out, "i64:{number}"),
            Value::Func(None) => out.push_str("funcref:null"),
            Value::Func(Some(function)) => write!(out, "funcref:{function}"),
            Value::Extern => out.push_str("externref:null"),
        }
    }
}

impl Printed for Draw {
    ghost use Rattle.path_report.specs.Report.{draw_text};

    ghost text = { draw_text };

    fn put(&self, out: &mut String) -> Result<(), AllocError> {
        let number = self.value;
        if self.wide {
            return write!(out, "i64:{number}");
        }
        write!(out, "i32:{number}")
    }
}

impl<'s> Printed for &'s str {
    ghost text = { λ s. s.now };

    fn put(&self, out: &mut String) -> Result<(), AllocError> {
        out.push_str(self)
    }
}

impl Printed for Shown {
    ghost use Rattle.path_report.specs.Report.{shown_text};

    ghost text = { shown_text };

    fn put(&self, out: &mut String) -> Result<(), AllocError> {
        match self {
            Shown::I32(operand) => {
                out.push_str("i32:")?;
                put_operand(out, operand)
            }
            Shown::I64(operand) => {
                out.push_str("i64:")?;
                put_operand(out, operand)
            }
            Shown::Func(None) => out.push_str("funcref:null"),
            Shown::Func(Some(function)) => write!(out, "funcref:{function}"),
            Shown::Extern => out.push_str("externref:null"),
        }
    }
}

/// Appends the members with single spaces between them, or `-` where there is none.
pub fn put_list<T: Printed>(out: &mut String, members: &[T]) -> Result<(), AllocError>
    ensures { OnOk result (string_bytes out.new ≡ string_bytes out.old ++ list_text (map T.text members.now)) }
{
    match members {
        [] => out.push_str("-"),
        [first, rest @ ..] => {
            first.put(out)?;
            put_rest(out, rest)?;
            Ok(())
        }
    }
}

fn put_rest<T: Printed>(out: &mut String, rest: &[T]) -> Result<(), AllocError>
    ensures { OnOk result (string_bytes out.new ≡ string_bytes out.old ++ flat_map (λ member. 32 ∷ T.text member) rest.now) }
{
    for member in rest {
        out.push(' ')?;
        member.put(out)?;
    }
    Ok(())
}
