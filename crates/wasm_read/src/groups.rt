// Groups of locals (Binary Format, Modules: Code Section).
ghost use Rattle.std.specs.Prelude.{◌≡◌, ◌+◌, ◌<◌, ◌≤◌, ◌^◌, [], ◌∷◌, length, All, reverse, IfOk, OnOk};
ghost use Rattle.grammar_forms.specs.Forms.{checked};
ghost use Rattle.wasm_binary.specs.Values.{u32 as u32_form};
ghost use Rattle.wasm_binary.specs.Locals.{few, group, same_kind as same_kind_as};
ghost use Rattle.wasm_read.specs.Groups.{put_some, put_group, joined_locals, joined_groups};
ghost use Rattle.wasm_read.specs.Views.{Agrees};

use crate::bad::ReadBad;
use crate::numbers::read_u32;
use crate::types::read_val_type;
use crate::views::View;
use std::alloc::{AllocError, Global};
use std::marker::Model;
use wasm_ast::{Group, List, ValType};

// Groups that were read, joined: none is empty, and neighbours differ in type. Contracts see the latest first.
#[derive(Drop)]
struct Joined {
    groups: Vec<Group>,
}

impl Model for Joined {
    ghost use Rattle.std.specs.Prelude.{List, reverse};
    ghost use Rattle.wasm_ast.specs.declared.modules.Group.{Group as OneGroup};

    ghost Value = { List OneGroup };

    ghost view = { λ j. reverse j.groups.items };
}

impl Joined {
    // None.
    fn new(alloc: Global) -> Joined
        ensures { result ≡ [] }
    {
        Joined {
            groups: Vec::new(alloc),
        }
    }

    // One group more.
    fn put(&mut self, group: Group) -> Result<(), AllocError>
        requires { All (λ g. g.count + group.count < 2 ^ 32) self.old }
        ensures { OnOk result (self.new ≡ put_group group self.old) }
    {
        if group.count == 0 {
            return Ok(());
        }
        match self.groups.pop() {
            None => self.groups.push(group)?,
            Some(last) => self.put_after(last, group)?,
        }
        Ok(())
    }

    // A group that isn't empty, after the last.
    fn put_after(&mut self, last: Group, group: Group) -> Result<(), AllocError>
        requires { last.count + group.count < 2 ^ 32 }
        ensures { OnOk result (self.new ≡ put_some group (last ∷ self.old)) }
    {
        if same_kind(last.kind, group.kind) {
            self.groups.push(Group {
                count: last.count + group.count,
                kind: last.kind,
            })?;
        } else {
            self.groups.push(last)?;
            self.groups.push(group)?;
        }
        Ok(())
    }

    // All, in order.
    fn into_groups(self) -> List<Group>
        ensures { result ≡ reverse self }
    {
        let mut groups = List::new(self.groups);
        groups.shrink();
        groups
    }
}

// Whether the types are the same.
fn same_kind(a: ValType, b: ValType) -> bool
    ensures { result ≡ same_kind_as a b }
{
    match a {
        ValType::I32 => matches!(b, ValType::I32),
        ValType::I64 => matches!(b, ValType::I64),
        ValType::FuncRef => matches!(b, ValType::FuncRef),
        ValType::ExternRef => matches!(b, ValType::ExternRef),
    }
}

/// The locals of a function, joined. A function has at most 50,000.
pub(crate) fn read_locals(
    alloc: Global,
    view: &View,
    at: usize,
) -> Result<(List<Group>, usize), ReadBad>
    requires { at ≤ length view.now.bytes }
    ensures agrees { Agrees (joined_locals.read view.now at) result }
    ensures within { IfOk result (λ x. x.1 ≤ length view.now.bytes) }
{
    let (count, at) = read_u32(view, at)?;
    read_groups(alloc, view, at, count)
}

// This many groups, joined.
fn read_groups(
    alloc: Global,
    view: &View,
    start: usize,
    count: u32,
) -> Result<(List<Group>, usize), ReadBad>
    requires { start ≤ length view.now.bytes }
    ensures agrees { Agrees ((joined_groups count).read view.now start) result }
    ensures within { IfOk result (λ x. x.1 ≤ length view.now.bytes) }
{
    let mut joined = Joined::new(alloc);
    let mut sum = 0;
    let mut at = start;
    for _ in 0..count {
        let (group, next) = read_group(view, at, sum)?;
        sum += u64::from(group.count);
        joined.put(group)?;
        at = next;
    }
    Ok((joined.into_groups(), at))
}

// A group, where the function has this many locals before it.
fn read_group(view: &View, at: usize, sum: u64) -> Result<(Group, usize), ReadBad>
    requires here { at ≤ length view.now.bytes }
    requires few { sum ≤ 50000 }
    ensures agrees { Agrees ((group sum).read view.now at) result }
    ensures few { IfOk result (λ x. sum + x.0.count ≤ 50000) }
    ensures within { IfOk result (λ x. x.1 ≤ length view.now.bytes) }
{
    let (count, at) = read_count(view, at, sum)?;
    let (kind, at) = read_val_type(view, at)?;
    Ok((Group { count, kind }, at))
}

// How many locals a group has.
fn read_count(view: &View, at: usize, sum: u64) -> Result<(u32, usize), ReadBad>
    requires here { at ≤ length view.now.bytes }
    requires few { sum ≤ 50000 }
    ensures agrees { Agrees ((checked u32_form (few sum)).read view.now at) result }
    ensures few { IfOk result (λ x. sum + x.0 ≤ 50000) }
    ensures within { IfOk result (λ x. x.1 ≤ length view.now.bytes) }
{
    let (count, next) = read_u32(view, at)?;
    let sum = sum + u64::from(count);
    if sum > 50_000 {
        return Err(ReadBad::Locals { sum, at: at as u64 });
    }
    Ok((count, next))
}
