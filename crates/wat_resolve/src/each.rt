// Lists, one entry after another.
ghost use Rattle.std.specs.Prelude.{◌≡◌, map, flat_map, IfOk, OnOk};
ghost use Rattle.wat_resolve.specs.code.Noting.{noted};

use crate::inside::Inside;
use std::alloc::{AllocError, Global};
use wasm_ast::List;
use wasm_text::TextBad;

/// What has numbers in place of names once they are resolved.
pub(crate) trait Entry {
    ghost use Rattle.std.specs.Prelude.{◌≡◌, List as Items, IfOk, OnOk};
    ghost use Rattle.wasm_text.specs.declared.bad.TextBad.{TextBad as OneBad};
    ghost use Rattle.wasm_text.specs.Resolved.{Scope as Known};
    ghost use Rattle.wat_resolve.specs.code.Noting.{noted};

    type Made: Drop;

    // What it stands for.
    ghost meaning: { Known → Self → Self.Made };

    // What it is at fault with.
    ghost faults: { Known → Self → Items OneBad };

    /// What it stands for. It notes what it is at fault with.
    fn resolve(
        &self,
        alloc: Global,
        inside: &Inside,
        found: &mut Option<TextBad>,
    ) -> Result<Self::Made, AllocError>
        ensures made { IfOk result (λ x. x ≡ meaning inside.now self.now) }
        ensures found { OnOk result (found.new ≡ noted (faults inside.now self.now) found.old) };
}

/// What all of these stand for. It notes what they are at fault with.
#[tactic(auto, using(crate::proofs::NotingLaws::noted_append))]
pub(crate) fn resolve_all<T: Entry>(
    alloc: Global,
    entries: &[T],
    inside: &Inside,
    found: &mut Option<TextBad>,
) -> Result<List<T::Made>, AllocError>
    ensures made { IfOk result (λ l. l ≡ map (T.meaning inside.now) entries.now) }
    ensures found { OnOk result (found.new ≡ noted (flat_map (T.faults inside.now) entries.now) found.old) }
{
    let mut made = List::new(Vec::new(alloc));
    for entry in entries {
        let one = entry.resolve(alloc, inside, found)?;
        made.push(one)?;
    }
    made.shrink();
    Ok(made)
}
