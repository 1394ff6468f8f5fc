// The bodies of a module's functions.
ghost use Rattle.std.specs.Prelude.{◌≡◌, ◌<◌, IfOk, MatchOption, length, None};
ghost use Rattle.wasm_ast.specs.Shape.{FuncHasShape, HasShape};
ghost use Rattle.wasm_check.specs.declared.sections.Section.TheVariants.{Functions, Code};
ghost use Rattle.wasm_check.specs.Contexts.{funcs_of};
ghost use Rattle.wasm_check.specs.Modules.{IsType, BodyIsValid, SectionIsValid};
ghost use Rattle.wasm_check.specs.Faults.{BodyFailsAt};
ghost use Rattle.wasm_check.specs.Spaces.{AreSpacesOf};
ghost use Rattle.wasm_check.specs.code.Sections.{AreDeclared, FailsIn};

use crate::body::body_fault;
use crate::locals::Locals;
use crate::scope::Scope;
use crate::spaces::Spaces;
use crate::uses::uses_of;
use std::alloc::{AllocError, Global};
use type_suffixes::{Ends, Lists};
use wasm_ast::{Func, Module};

/// The place of the first fault of the function's body.
pub fn func_fault<'a>(
    alloc: Global,
    m: &'a Module,
    spaces: &'a Spaces,
    declared: &'a [bool],
    ends: &'a Ends<'a>,
    f: &'a Func,
) -> Result<Option<u64>, AllocError>
    requires spaces { AreSpacesOf m.now spaces.now }
    requires declared { AreDeclared m.now (length (funcs_of m.now)) declared.now }
    requires ends { ends.now ≡ m.now.types }
    requires shape { FuncHasShape f.now }
    requires typed { IsType m.now f.now.ty }
    ensures { IfOk result (λ r. MatchOption r (BodyIsValid m.now f.now) (BodyFailsAt m.now f.now)) }
{
    let locals = Locals::new(alloc, f.locals.as_slice())?;
    let ty = m.types.get(f.ty as usize);
    let scope = Scope::new(m, spaces, declared, ends, f.ty, ty, &locals);
    Ok(body_fault(alloc, &scope, &f.body)?)
}

/// The first function of the module whose body isn't valid, by its place among the module's own, and the place of the
/// body's first fault.
pub fn first_body<'a>(
    alloc: Global,
    m: &'a Module,
    spaces: &'a Spaces,
    declared: &'a [bool],
) -> Result<Option<(u32, u64)>, AllocError>
    requires spaces { AreSpacesOf m.now spaces.now }
    requires declared { AreDeclared m.now (length (funcs_of m.now)) declared.now }
    requires shape { HasShape m.now }
    requires typed { SectionIsValid m.now Functions }
    ensures { IfOk result (λ r. MatchOption r (SectionIsValid m.now Code) (λ at. FailsIn m.now at.0 at.1)) }
{
    let lists = Lists::new(alloc, m.types.as_slice())?;
    let uses = uses_of(alloc, m, spaces, &lists)?;
    let ends = Ends::new(alloc, &lists, &uses)?;
    for k in 0..m.funcs.len() {
        let f = m.funcs.get(k);
        if let Some(place) = func_fault(alloc, m, spaces, declared, &ends, f)? {
            return Ok(Some((k as u32, place)));
        }
    }
    Ok(None)
}
