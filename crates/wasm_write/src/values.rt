// Numbers, vectors and names (Binary Format: Values, Conventions). What these functions leave where memory is wanting is not
// said: the bytes are given up then.
ghost use Rattle.std.specs.Prelude.{◌≡◌, ◌++◌, OnOk, All};
ghost use Rattle.owi_base.specs.Leb.{unsigned_bytes};
ghost use Rattle.wasm_write.specs.Values.{vec_bytes, sized};

use owi_base::leb::unsigned::put_u;
use std::alloc::{AllocError, Global};
use wasm_ast::List;

// An entry of a vector.
pub(crate) trait Put {
    ghost use Rattle.std.specs.Prelude.{◌≡◌, ℕ, List as Items, ◌++◌, OnOk};

    // What is asked of it.
    ghost Shape: { Self → Type 0 };

    ghost bytes_of: { Self → Items ℕ };

    // Puts it at the end.
    fn put(&self, alloc: Global, out: &mut Vec<u8>) -> Result<(), AllocError>
        requires { Shape self.now }
        ensures { OnOk result (out.new.items ≡ out.old.items ++ bytes_of self.now) };
}

// Puts a number of entries at the end.
pub(crate) fn put_count(out: &mut Vec<u8>, count: usize) -> Result<(), AllocError>
    ensures { OnOk result (out.new.items ≡ out.old.items ++ unsigned_bytes count) }
{
    put_u(out, count as u64)
}

// Puts a vector at the end: a count and the entries.
pub(crate) fn put_vec<T: Put>(
    alloc: Global,
    out: &mut Vec<u8>,
    list: &List<T>,
) -> Result<(), AllocError>
    requires { All T.Shape list.now }
    ensures { OnOk result (out.new.items ≡ out.old.items ++ vec_bytes T.bytes_of list.now) }
{
    let entries = list.as_slice();
    put_count(out, entries.len())?;
    for entry in entries {
        entry.put(alloc, out)?;
    }
    Ok(())
}

// Puts bytes after their number at the end.
pub(crate) fn put_sized(out: &mut Vec<u8>, bytes: &[u8]) -> Result<(), AllocError>
    ensures { OnOk result (out.new.items ≡ out.old.items ++ sized bytes.now) }
{
    put_count(out, bytes.len())?;
    out.extend_from_slice(bytes)?;
    Ok(())
}

impl Put for u32 {
    ghost use Rattle.owi_base.specs.Leb.{unsigned_bytes};

    ghost Shape = { λ n. Unit {0} };

    ghost bytes_of = { unsigned_bytes };

    fn put(&self, _alloc: Global, out: &mut Vec<u8>) -> Result<(), AllocError> {
        put_u(out, u64::from(*self))
    }
}
