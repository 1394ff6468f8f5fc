// Images: valid modules, with what a run asks of them again and again.
ghost use Rattle.std.specs.Prelude.{◌≡◌, ◌<◌, IfOk, Some, MatchOption, is_some, length};
ghost use Rattle.wasm_ast.specs.Shape.{HasShape};
ghost use Rattle.wasm_check.specs.Contexts.{func_import, tables_of, memories_of};
ghost use Rattle.wasm_check.specs.Modules.{IsValid};
ghost use Rattle.wasm_image.specs.Functions.{function_count as function_count_of, function_type as function_type_of, imported_functions};
ghost use Rattle.wasm_image.specs.Hosts.{IsHostFunction};
ghost use Rattle.wasm_image.specs.Kept.{AreHosts};

use crate::hosts::{Host, host_of};
use std::alloc::{AllocError, Global};
use std::marker::Model;
use wasm_ast::{FuncType, ImportKind, Limits, Module, TableType};
use wasm_check::Checked;
use wasm_check::spaces::{Spaces, spaces_of};

/// A valid module, with the type of each function and, of each that is imported, which host function it is. Contracts see
/// it as the module.
#[derive(Drop)]
pub struct Image {
    checked: Checked,
    spaces: Spaces,
    // for each imported function
    hosts: Vec<Option<Host>>,
}

impl Model for Image {
    ghost use Rattle.wasm_ast.specs.declared.modules.Module.{Module};
    ghost use Rattle.wasm_check.specs.Spaces.{AreSpacesOf};
    ghost use Rattle.wasm_image.specs.Kept.{AreHosts};

    ghost Value = { Module };

    ghost view = { λ i. i.checked };

    ghost invariant = { λ i. AreSpacesOf i.checked i.spaces × AreHosts i.checked i.hosts.items };
}

fn is_function(kind: &ImportKind) -> bool
    ensures { result ≡ is_some (func_import kind.now) }
{
    matches!(kind, ImportKind::Func(_))
}

// For each imported function which host function it is.
fn hosts_of(alloc: Global, m: &Module) -> Result<Vec<Option<Host>>, AllocError>
    ensures { IfOk result (λ hosts. AreHosts m.now hosts.items) }
{
    let mut hosts = Vec::new(alloc);
    for import in m.imports.as_slice() {
        if is_function(&import.kind) {
            hosts.push(host_of(m, import))?;
        }
    }
    Ok(hosts)
}

impl Image {
    /// The image of a valid module. Where memory is wanting, the module is gone.
    pub fn new(alloc: Global, c: Checked) -> Result<Image, AllocError>
        ensures { IfOk result (λ i. i ≡ c) }
    {
        let spaces = spaces_of(alloc, c.module())?;
        let hosts = hosts_of(alloc, c.module())?;
        Ok(Image {
            checked: c,
            spaces,
            hosts,
        })
    }

    /// The module.
    pub fn module(&self) -> &Module
        ensures module { result.now ≡ self.now }
        ensures shape { HasShape self.now }
        ensures valid { IsValid self.now }
    {
        self.checked.module()
    }

    /// How many functions there are, imports counted.
    pub fn function_count(&self) -> usize
        ensures { result ≡ function_count_of self.now }
    {
        self.spaces.funcs.len()
    }

    /// How many functions are imported. They are the first ones.
    pub fn imported_count(&self) -> usize
        ensures { result ≡ length (imported_functions self.now) }
    {
        self.hosts.len()
    }

    /// The type of the function of this index, imports counted.
    pub fn function_type(&self, f: u32) -> &FuncType
        requires { f < function_count_of self.now }
        ensures { function_type_of self.now f ≡ Some result.now }
    {
        let ty = self.spaces.funcs[f as usize];
        self.checked.module().types.get(ty as usize)
    }

    /// The size of each memory in pages of 65,536 bytes, imports first.
    pub fn memories(&self) -> &[Limits]
        ensures { result.now ≡ memories_of self.now }
    {
        self.spaces.memories.as_slice()
    }

    /// The type of each table, imports first.
    pub fn tables(&self) -> &[TableType]
        ensures { result.now ≡ tables_of self.now }
    {
        self.spaces.tables.as_slice()
    }

    /// Which host function the function of this index is. None where it isn't imported, or is imported and no host
    /// function.
    pub fn host(&self, f: u32) -> Option<Host>
        ensures { MatchOption result ((h : Host) → ¬ IsHostFunction self.now f h) (IsHostFunction self.now f) }
    {
        match self.hosts.get(f as usize) {
            None => None,
            Some(host) => *host,
        }
    }
}
