// Which lists of a module end with the first types of one another, and which end alike.
ghost use Rattle.std.specs.Prelude.{◌≡◌, List, true, IfOk, IfSome, Some, map, reverse, slice_get, take};
ghost use Rattle.wasm_ast.specs.declared.types.ValType.{ValType as OneType};
ghost use Rattle.wasm_ast.specs.declared.types.FuncType.{FuncType};
ghost use Rattle.type_suffixes.specs.Words.{EndsWith, Keeps};
ghost use Rattle.type_suffixes.specs.declared.lists.Listed.TheVariants.{Takes, Gives};
ghost use Rattle.type_suffixes.specs.Lists.{listed, AreAmong};

use crate::endings::Endings;
use crate::lists::{LONG, Listed, Lists, same_list};
use crate::uses::Uses;
use std::alloc::{AllocError, Global};
use std::marker::Model;
use wasm_ast::ValType;

/// The lists of a module. The long ones that the code uses often are words of two trees, so that which of them ends with the
/// first types of another, and which end alike, is known without a look at their types.
#[derive(Drop)]
pub struct Ends<'a> {
    lists: &'a Lists<'a>,
    // the long lists that are used often
    endings: Endings,
    // the same, each from its last type to its first; they aren't linked
    backward: Endings,
    // which of them is what each function type takes, and gives, where that is one of them and no earlier list is equal to it
    taken: Vec<Option<usize>>,
    given: Vec<Option<usize>>,
}

impl<'a> Model for Ends<'a> {
    ghost use Rattle.std.specs.Prelude.{◌≡◌, List, map, reverse};
    ghost use Rattle.wasm_ast.specs.declared.types.FuncType.{FuncType};
    ghost use Rattle.type_suffixes.specs.declared.lists.Listed.TheVariants.{Takes, Gives};
    ghost use Rattle.type_suffixes.specs.Lists.{AreAmong};

    ghost Value = { List FuncType };

    ghost view = { λ e. e.lists.now };

    ghost invariant = { λ e. AreAmong e.lists.now e.endings (λ x. Takes x) e.taken.items × AreAmong e.lists.now e.endings (λ x. Gives x) e.given.items
        × (e.backward ≡ map (λ types. reverse types) e.endings) };
}

// The list from its last type to its first.
fn reversed(alloc: Global, list: &[ValType]) -> Result<Vec<ValType>, AllocError>
    ensures { IfOk result (λ types. types.items ≡ reverse list.now) }
{
    let mut types = Vec::new(alloc);
    types.extend_from_slice(list)?;
    types.as_mut_slice().reverse();
    Ok(types)
}

// Adds a list to the words, where it has this name of its own, is long and is used often, and tells which it is then.
fn add_often(
    alloc: Global,
    lists: &Lists,
    uses: &Uses,
    endings: &mut Endings,
    backward: &mut Endings,
    name: Listed,
    own: Listed,
) -> Result<Option<usize>, AllocError>
    requires { backward.old ≡ map (λ types. reverse types) endings.old }
    ensures kept { IfOk result (λ _. Keeps endings.old endings.new) }
    ensures there { IfOk result (λ o. IfSome o (λ k. slice_get endings.new k ≡ Some (listed lists.now own))) }
    ensures backward { IfOk result (λ _. backward.new ≡ map (λ types. reverse types) endings.new) }
{
    let list = lists.get(own);
    if name != own || list.len() < LONG || !uses.often(own) {
        return Ok(None);
    }
    let k = endings.len();
    endings.add(list)?;
    backward.add(reversed(alloc, list)?.as_slice())?;
    Ok(Some(k))
}

// Whether the first `count` types of a list end with the first `n` types of another. They are compared one by one.
fn part_ends_with(longer: &[ValType], count: usize, shorter: &[ValType], n: usize) -> bool
    ensures { result ≡ true → EndsWith (take count longer.now) (take n shorter.now) }
{
    if longer.len() < count || shorter.len() < n || count < n {
        return false;
    }
    same_list(&longer[..count][count - n..], &shorter[..n])
}

// Which of the words has this name.
fn place_of(taken: &[Option<usize>], given: &[Option<usize>], list: Listed) -> Option<usize>
    ensures { (types : List FuncType) (all : List (List OneType)) → AreAmong types all (λ x. Takes x) taken.now → AreAmong types all (λ x. Gives x) given.now
        → IfSome result (λ k. slice_get all k ≡ Some (listed types list)) }
{
    match list {
        Listed::Nothing => None,
        Listed::One(_) => None,
        Listed::Takes(x) => match taken.get(x as usize) {
            None => None,
            Some(place) => *place,
        },
        Listed::Gives(x) => match given.get(x as usize) {
            None => None,
            Some(place) => *place,
        },
    }
}

impl<'a> Ends<'a> {
    /// The lists of a module, and which of them the code uses often. It takes about the time of the sizes of these.
    pub fn new(alloc: Global, lists: &'a Lists<'a>, uses: &Uses) -> Result<Ends<'a>, AllocError>
        ensures { IfOk result (λ e. e ≡ lists.now) }
    {
        let mut endings = Endings::new(alloc)?;
        let mut backward = Endings::new(alloc)?;
        let mut taken = Vec::new(alloc);
        let mut given = Vec::new(alloc);
        for x in 0..u32::MAX {
            if lists.len() <= x as usize {
                break;
            }
            let own = Listed::Takes(x);
            let place = add_often(
                alloc,
                lists,
                uses,
                &mut endings,
                &mut backward,
                lists.takes(x),
                own,
            )?;
            taken.push(place)?;
            let own = Listed::Gives(x);
            let place = add_often(
                alloc,
                lists,
                uses,
                &mut endings,
                &mut backward,
                lists.gives(x),
                own,
            )?;
            given.push(place)?;
        }
        endings.link(alloc)?;
        Ok(Ends {
            lists,
            endings,
            backward,
            taken,
            given,
        })
    }

    /// The types of the list.
    pub fn get(&self, list: Listed) -> &'a [ValType]
        ensures { result.now ≡ listed self.now list }
    {
        self.lists.get(list)
    }

    /// What the function type of this number takes.
    pub fn takes(&self, x: u32) -> Listed
        ensures { listed self.now result ≡ listed self.now (Takes x) }
    {
        self.lists.takes(x)
    }

    /// What the function type of this number gives.
    pub fn gives(&self, x: u32) -> Listed
        ensures { listed self.now result ≡ listed self.now (Gives x) }
    {
        self.lists.gives(x)
    }

    /// Whether the first `count` types of a list end with the first `n` types of another. Where both are long lists that are
    /// used often it is known, and where they are one; else they are compared type by type.
    pub fn ends_with(&self, longer: Listed, count: usize, shorter: Listed, n: usize) -> bool
        ensures { result ≡ true → EndsWith (take count (listed self.now longer)) (take n (listed self.now shorter)) }
    {
        if longer == shorter && count == n {
            return true;
        }
        let (taken, given) = (self.taken.as_slice(), self.given.as_slice());
        match place_of(taken, given, longer) {
            None => part_ends_with(self.get(longer), count, self.get(shorter), n),
            Some(l) => match place_of(taken, given, shorter) {
                None => part_ends_with(self.get(longer), count, self.get(shorter), n),
                Some(s) => self.endings.ends_with(l, count, s, n),
            },
        }
    }

    /// Whether the last `n` types of two lists are the same. It is seen where both are long lists that are used often
    /// and have so many, and where they are one, and else not.
    pub fn ends_alike(&self, one: Listed, other: Listed, n: usize) -> bool
        ensures { result ≡ true → take n (reverse (listed self.now one)) ≡ take n (reverse (listed self.now other)) }
    {
        if one == other {
            return true;
        }
        let (taken, given) = (self.taken.as_slice(), self.given.as_slice());
        match place_of(taken, given, one) {
            None => false,
            Some(k) => match place_of(taken, given, other) {
                None => false,
                Some(l) => self.backward.begins_alike(k, l, n),
            },
        }
    }
}
