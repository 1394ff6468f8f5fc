// Custom sections of which nothing is kept (Binary Format, Modules: Custom Section).
ghost use Rattle.std.specs.Prelude.{◌≡◌, ◌+◌, ◌≤◌, length, IfOk};
ghost use Rattle.wasm_binary.specs.Modules.{Sections as AllSections, sized_contents};
ghost use Rattle.wasm_read.specs.Stripped.{Passes};

use crate::bad::ReadBad;
use crate::customs::find_custom;
use crate::numbers::read_u32;
use crate::views::View;

/// The place after the length and the contents of a custom section, of which nothing is kept.
pub(crate) fn pass_custom(view: &View, at: usize) -> Result<usize, ReadBad>
    requires { at ≤ length view.now.bytes }
    ensures passes { (sections : AllSections) → Passes sections ((sized_contents sections 0).read view.now at) result }
    ensures within { IfOk result (λ next. next ≤ length view.now.bytes) }
{
    let (len, start) = read_u32(view, at)?;
    let end = view.end_after(start, len);
    let inner = view.up_to(end);
    let (_, _, next) = find_custom(&inner, start, len)?;
    if next == end {
        Ok(next)
    } else {
        Err(inner.left_over(next))
    }
}
