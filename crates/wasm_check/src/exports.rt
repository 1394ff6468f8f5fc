// The exports of a module (Validation, Modules: Exports).
ghost use Rattle.std.specs.Prelude.{◌<◌, ◌^◌, IfOk, MatchOption, length};
ghost use Rattle.wasm_check.specs.declared.sections.Section.TheVariants.{Exports};
ghost use Rattle.wasm_check.specs.Modules.{SectionIsValid};
ghost use Rattle.wasm_check.specs.Faults.{IsFirstOf};
ghost use Rattle.wasm_check.specs.Spaces.{AreSpacesOf};

use crate::entries::export_is_there;
use crate::spaces::Spaces;
use std::alloc::{AllocError, Global};
use std::collections::BTreeSet;
use wasm_ast::Module;

/// The first export that isn't valid: what it exports isn't there, or an export before it has its name.
pub fn first_invalid_export(
    alloc: Global,
    m: &Module,
    spaces: &Spaces,
) -> Result<Option<u32>, AllocError>
    requires spaces { AreSpacesOf m.now spaces.now }
    requires short { length m.now.exports < 2 ^ 32 }
    ensures { IfOk result (λ r. MatchOption r (SectionIsValid m.now Exports) (IsFirstOf m.now Exports)) }
{
    let mut names = BTreeSet::new(alloc);
    for k in 0..m.exports.len() {
        let export = m.exports.get(k);
        if !export_is_there(m, spaces, export) {
            return Ok(Some(k as u32));
        }
        if !names.insert(export.name.as_slice())? {
            return Ok(Some(k as u32));
        }
    }
    Ok(None)
}
