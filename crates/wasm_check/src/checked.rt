// The validator: a module is checked, or refused with its first fault.
ghost use Rattle.std.specs.Prelude.{◌≡◌, ◌≢◌, IfOk, IfErr, MatchOption, None};
ghost use Rattle.wasm_ast.specs.Shape.{HasShape};
ghost use Rattle.wasm_check.specs.declared.sections.Section.TheVariants.{Functions, Code};
ghost use Rattle.wasm_check.specs.Modules.{SectionIsValid, IsValid};
ghost use Rattle.wasm_check.specs.Faults.{FirstFault, ValidBelow};
ghost use Rattle.wasm_check.specs.Spaces.{AreSpacesOf};
ghost use Rattle.wasm_check.specs.code.Sections.{IsFieldFault};

use crate::declared::declared_of;
use crate::fields::first_invalid;
use crate::functions::first_body;
use crate::sections::Section;
use crate::spaces::{Spaces, spaces_of};
use crate::why::Why;
use std::alloc::{AllocError, Global};
use std::marker::Model;
use wasm_ast::Module;

/// A valid module. Contracts see it as the module.
#[derive(Drop)]
pub struct Checked {
    module: Module,
}

impl Model for Checked {
    ghost use Rattle.wasm_ast.specs.declared.modules.Module.{Module};
    ghost use Rattle.wasm_ast.specs.Shape.{HasShape};
    ghost use Rattle.wasm_check.specs.Modules.{IsValid};

    ghost Value = { Module };

    ghost view = { λ c. c.module };

    ghost invariant = { λ c. HasShape c.module × IsValid c.module };
}

impl Checked {
    /// The module.
    pub fn module(&self) -> &Module
        ensures module { result.now ≡ self.now }
        ensures shape { HasShape self.now }
        ensures valid { IsValid self.now }
    {
        &self.module
    }
}

/// A module that was refused, and why.
#[derive(Drop)]
pub struct Unchecked {
    /// The module, as it was.
    pub module: Module,
    /// Its first fault, or want of memory.
    pub why: Why,
}

// The first fault of the section.
fn field_fault(
    alloc: Global,
    m: &Module,
    spaces: &Spaces,
    s: Section,
) -> Result<Option<Why>, AllocError>
    requires spaces { AreSpacesOf m.now spaces.now }
    requires field { s ≢ Code }
    requires shape { HasShape m.now }
    ensures { IfOk result (λ r. MatchOption r (SectionIsValid m.now s) (IsFieldFault m.now s)) }
{
    match first_invalid(alloc, m, spaces, s)? {
        None => Ok(None),
        Some(entry) => Ok(Some(Why::Field {
            section: s.id(),
            entry,
        })),
    }
}

/// The sections before the code section.
const BEFORE_CODE: [Section; 8] = [
    Section::Imports,
    Section::Functions,
    Section::Tables,
    Section::Memories,
    Section::Globals,
    Section::Exports,
    Section::Start,
    Section::Elements,
];

// The first fault of the sections before the code section.
fn front_fault(alloc: Global, m: &Module, spaces: &Spaces) -> Result<Option<Why>, AllocError>
    requires spaces { AreSpacesOf m.now spaces.now }
    requires shape { HasShape m.now }
    ensures { IfOk result (λ r. MatchOption r (ValidBelow m.now 10) (FirstFault m.now)) }
{
    for s in BEFORE_CODE {
        if let Some(why) = field_fault(alloc, m, spaces, s)? {
            return Ok(Some(why));
        }
    }
    Ok(None)
}

// The first fault of the code section, where those before it are valid.
fn code_fault(alloc: Global, m: &Module, spaces: &Spaces) -> Result<Option<Why>, AllocError>
    requires spaces { AreSpacesOf m.now spaces.now }
    requires shape { HasShape m.now }
    requires front { ValidBelow m.now 10 }
    ensures { IfOk result (λ r. MatchOption r (SectionIsValid m.now Code) (FirstFault m.now)) }
{
    let declared = declared_of(alloc, m, spaces.funcs.len())?;
    match first_body(alloc, m, spaces, declared.as_slice())? {
        None => Ok(None),
        Some((k, place)) => {
            let imported = spaces.funcs.len() - m.funcs.len();
            Ok(Some(Why::Code {
                function: imported as u64 + k as u64,
                place,
            }))
        }
    }
}

// The first fault of the module.
fn first_fault(alloc: Global, m: &Module) -> Result<Option<Why>, AllocError>
    requires { HasShape m.now }
    ensures { IfOk result (λ r. MatchOption r (IsValid m.now) (FirstFault m.now)) }
{
    let spaces = spaces_of(alloc, m)?;
    if let Some(why) = front_fault(alloc, m, &spaces)? {
        return Ok(Some(why));
    }
    if let Some(why) = code_fault(alloc, m, &spaces)? {
        return Ok(Some(why));
    }
    Ok(field_fault(alloc, m, &spaces, Section::Data)?)
}

/// Whether a well-formed module is valid (Validation). A module that isn't comes back with its first fault; so does one
/// for whose check memory is wanting, with `NoMemory`.
pub fn check(alloc: Global, m: Module) -> Result<Checked, Unchecked>
    requires { HasShape m }
    ensures valid { IfOk result (λ c. (c ≡ m) × IsValid m) }
    ensures given_back { IfErr result (λ u. u.module ≡ m) }
    ensures fault { IfErr result (λ u. u.why ≢ Why.NoMemory → FirstFault m u.why) }
    ensures invalid { IfErr result (λ u. u.why ≢ Why.NoMemory → ¬ IsValid m) }
{
    match first_fault(alloc, &m) {
        Err(_) => Err(Unchecked {
            module: m,
            why: Why::NoMemory,
        }),
        Ok(Some(why)) => Err(Unchecked { module: m, why }),
        Ok(None) => Ok(Checked { module: m }),
    }
}
