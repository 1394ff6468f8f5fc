// The locals of a function that aren't parameters, by number.
ghost use Rattle.std.specs.Prelude.{◌≡◌, ◌≤◌, IfOk, length, sum_by, slice_get};
ghost use Rattle.wasm_check.specs.Contexts.{locals_of};
ghost use Rattle.wasm_check.specs.code.Sections.{AreEnds, IsGroupOf};

use std::alloc::{AllocError, Global};
use std::marker::Model;
use wasm_ast::{Group, ValType};

/// The locals of a function that aren't parameters (Validation, Modules: Functions). The groups in which they stand aren't
/// unrolled.
#[derive(Drop)]
pub struct Locals<'a> {
    groups: &'a [Group],
    // for each group the number of the local after its last
    ends: Vec<u32>,
}

impl<'a> Model for Locals<'a> {
    ghost use Rattle.std.specs.Prelude.{List, length};
    ghost use Rattle.wasm_ast.specs.declared.types.ValType.{ValType};
    ghost use Rattle.wasm_check.specs.Contexts.{locals_of};
    ghost use Rattle.wasm_check.specs.code.Sections.{AreEnds};

    ghost Value = { List ValType };

    ghost view = { λ l. locals_of l.groups.now };

    ghost invariant = { λ l. AreEnds l.groups.now (length l.groups.now) l.ends.items };
}

fn ends_of(alloc: Global, groups: &[Group]) -> Result<Vec<u32>, AllocError>
    requires { sum_by (λ g. g.count) groups.now ≤ 50000 }
    ensures { IfOk result (λ v. AreEnds groups.now (length groups.now) v.items) }
{
    let mut ends = Vec::new(alloc);
    let mut end = 0u32;
    for group in groups {
        end += group.count;
        ends.push(end)?;
    }
    Ok(ends)
}

// How many groups end before this local.
fn group_of(groups: &[Group], ends: &[u32], x: usize) -> usize
    requires { AreEnds groups.now (length groups.now) ends.now }
    ensures { IsGroupOf groups.now x result }
{
    let mut low = 0;
    let mut high = ends.len();
    while low < high {
        let middle = low + (high - low) / 2;
        if (ends[middle] as usize) <= x {
            low = middle + 1;
        } else {
            high = middle;
        }
    }
    low
}

impl<'a> Locals<'a> {
    /// The locals of these groups.
    pub fn new(alloc: Global, groups: &'a [Group]) -> Result<Locals<'a>, AllocError>
        requires { sum_by (λ g. g.count) groups.now ≤ 50000 }
        ensures { IfOk result (λ l. l ≡ locals_of groups.now) }
    {
        let ends = ends_of(alloc, groups)?;
        Ok(Locals { groups, ends })
    }

    /// The type of the local of this number.
    pub fn get(&self, x: usize) -> Option<ValType>
        ensures { result ≡ slice_get self.now x }
    {
        let k = group_of(self.groups, self.ends.as_slice(), x);
        if k < self.groups.len() {
            Some(self.groups[k].kind)
        } else {
            None
        }
    }
}
