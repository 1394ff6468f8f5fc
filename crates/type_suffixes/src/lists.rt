// Lists of value types, by what names them. Equal lists of the function types of a module have one name, so that they are
// known to be equal without a look at their types.
ghost use Rattle.std.specs.Prelude.{◌≡◌, ◌∷◌, [], true, IfOk, length};
ghost use Rattle.type_suffixes.specs.declared.lists.Listed.TheVariants.{Takes, Gives};
ghost use Rattle.type_suffixes.specs.Lists.{listed, AreNames};

use crate::words::same;
use std::alloc::{AllocError, Global};
use std::collections::BTreeMap;
use std::marker::Model;
use wasm_ast::{FuncType, ValType};

/// A list of value types, by what names it.
#[derive(Clone, Copy, PartialEq, Eq, Debug)]
pub enum Listed {
    /// The empty list.
    Nothing,
    /// One type.
    One(ValType),
    /// What the function type of this number takes.
    Takes(u32),
    /// What the function type of this number gives.
    Gives(u32),
}

/// Lists with fewer types aren't long.
pub const LONG: usize = 16;

/// The function types of a module, with a name for each list of types that they take or give. Equal lists have one name.
#[derive(Drop)]
pub struct Lists<'a> {
    types: &'a [FuncType],
    takes: Vec<Listed>,
    gives: Vec<Listed>,
}

impl<'a> Model for Lists<'a> {
    ghost use Rattle.std.specs.Prelude.{List};
    ghost use Rattle.wasm_ast.specs.declared.types.FuncType.{FuncType};
    ghost use Rattle.type_suffixes.specs.declared.lists.Listed.TheVariants.{Takes, Gives};
    ghost use Rattle.type_suffixes.specs.Lists.{AreNames};

    ghost Value = { List FuncType };

    ghost view = { λ l. l.types.now };

    ghost invariant = { λ l. AreNames l.types.now (λ x. Takes x) l.takes.items × AreNames l.types.now (λ x. Gives x) l.gives.items };
}

// A list of one type.
fn one(kind: ValType) -> &'static [ValType]
    ensures { result.now ≡ kind ∷ [] }
{
    match kind {
        ValType::I32 => &[ValType::I32],
        ValType::I64 => &[ValType::I64],
        ValType::FuncRef => &[ValType::FuncRef],
        ValType::ExternRef => &[ValType::ExternRef],
    }
}

// The types of the list.
fn list_at<'a>(types: &'a [FuncType], list: Listed) -> &'a [ValType]
    ensures { result.now ≡ listed types.now list }
{
    match list {
        Listed::Nothing => &[],
        Listed::One(kind) => one(kind),
        Listed::Takes(x) => match types.get(x as usize) {
            None => &[],
            Some(ty) => ty.params.as_slice(),
        },
        Listed::Gives(x) => match types.get(x as usize) {
            None => &[],
            Some(ty) => ty.results.as_slice(),
        },
    }
}

// A byte for each type.
fn code(t: ValType) -> u8 {
    match t {
        ValType::I32 => 0,
        ValType::I64 => 1,
        ValType::FuncRef => 2,
        ValType::ExternRef => 3,
    }
}

fn codes(alloc: Global, types: &[ValType]) -> Result<Vec<u8>, AllocError> {
    types.iter().map(|t| code(*t)).collect(alloc)
}

/// Whether the lists are equal. It costs the types that they begin with alike.
pub fn same_list(ts: &[ValType], us: &[ValType]) -> bool
    ensures { result ≡ true → ts.now ≡ us.now }
{
    if ts.len() != us.len() {
        return false;
    }
    for i in 0..ts.len() {
        if !same(ts[i], us[i]) {
            return false;
        }
    }
    true
}

// The name of the first list so far that is equal to that of this name.
fn first_name(
    alloc: Global,
    types: &[FuncType],
    names: &mut BTreeMap<Vec<u8>, Listed>,
    name: Listed,
) -> Result<Listed, AllocError>
    ensures { IfOk result (λ first. listed types.now first ≡ listed types.now name) }
{
    let list = list_at(types, name);
    let key = codes(alloc, list)?;
    if let Some(first) = names.get(&key).copied() {
        if same_list(list_at(types, first), list) {
            return Ok(first);
        }
        return Ok(name);
    }
    names.insert(key, name)?;
    Ok(name)
}

impl<'a> Lists<'a> {
    /// The lists of these function types. It takes about the time of their sizes.
    pub fn new(alloc: Global, types: &'a [FuncType]) -> Result<Lists<'a>, AllocError>
        ensures { IfOk result (λ l. l ≡ types.now) }
    {
        let mut names = BTreeMap::new(alloc);
        let mut takes = Vec::new(alloc);
        let mut gives = Vec::new(alloc);
        for x in 0..u32::MAX {
            if types.len() <= x as usize {
                break;
            }
            let name = first_name(alloc, types, &mut names, Listed::Takes(x))?;
            takes.push(name)?;
            let name = first_name(alloc, types, &mut names, Listed::Gives(x))?;
            gives.push(name)?;
        }
        Ok(Lists {
            types,
            takes,
            gives,
        })
    }

    /// How many function types there are.
    pub fn len(&self) -> usize
        ensures { result ≡ length self.now }
    {
        self.types.len()
    }

    /// The types of the list.
    pub fn get(&self, list: Listed) -> &'a [ValType]
        ensures { result.now ≡ listed self.now list }
    {
        list_at(self.types, list)
    }

    /// What the function type of this number takes.
    pub fn takes(&self, x: u32) -> Listed
        ensures { listed self.now result ≡ listed self.now (Takes x) }
    {
        match self.takes.get(x as usize) {
            None => Listed::Takes(x),
            Some(name) => *name,
        }
    }

    /// What the function type of this number gives.
    pub fn gives(&self, x: u32) -> Listed
        ensures { listed self.now result ≡ listed self.now (Gives x) }
    {
        match self.gives.get(x as usize) {
            None => Listed::Gives(x),
            Some(name) => *name,
        }
    }
}
