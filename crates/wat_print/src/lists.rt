// Lists of things that are printed one after another. What these functions leave where memory is wanting is not said: the
// text is given up then.
ghost use Rattle.std.specs.Prelude.{◌≡◌, ◌++◌, OnOk, All, string_bytes, flat_map};
ghost use Rattle.wasm_text.specs.Printing.{line_of, lines_of};

use std::alloc::{AllocError, Global};
use wasm_ast::List;

// A field of a module.
pub(crate) trait Field {
    ghost use Rattle.std.specs.Prelude.{◌≡◌, ℕ, List as Items, ◌++◌, OnOk, string_bytes};

    // What is asked of it.
    ghost Shape: { Self → Type 0 };

    ghost text_of: { Self → Items ℕ };

    // Puts it at the end.
    fn put(&self, alloc: Global, out: &mut String) -> Result<(), AllocError>
        requires { Shape self.now }
        ensures { OnOk result (string_bytes out.new ≡ string_bytes out.old ++ text_of self.now) };
}

// Puts the fields at the end, each on a line of its own.
pub(crate) fn put_lines<T: Field>(
    alloc: Global,
    out: &mut String,
    list: &List<T>,
) -> Result<(), AllocError>
    requires { All T.Shape list.now }
    ensures { OnOk result (string_bytes out.new ≡ string_bytes out.old ++ lines_of T.text_of list.now) }
{
    let fields = list.as_slice();
    for field in fields {
        put_line(alloc, out, field)?;
    }
    Ok(())
}

fn put_line<T: Field>(alloc: Global, out: &mut String, field: &T) -> Result<(), AllocError>
    requires { T.Shape field.now }
    ensures { OnOk result (string_bytes out.new ≡ string_bytes out.old ++ line_of (T.text_of field.now)) }
{
    out.push_str("  ")?;
    field.put(alloc, out)?;
    out.push_str("\n")
}
