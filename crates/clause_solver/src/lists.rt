// For each literal the numbers of the clauses that hold it.
ghost use Rattle.std.specs.Prelude.{◌≡◌, ◌≢◌, ◌<◌, ◌++◌, ◌∷◌, [], ◌⊎◌, ℕ, true, Some, length, map, slice_set, OnOk};
ghost use Rattle.refute_check.specs.Resolution.{has};
ghost use Rattle.clause_solver.specs.code.Watching.{Put, AreAmong, listed};
ghost use Rattle.clause_solver.specs.code.Guarding.{ListedAs};

use std::alloc::{AllocError, Global};
use std::marker::Model;
use std::mem;

/// A list of numbers for each literal.
#[derive(Drop)]
pub struct Lists {
    lists: Vec<Vec<u64>>,
}

impl Model for Lists {
    ghost use Rattle.std.specs.Prelude.{ℕ, List, map};

    ghost Value = { List (List ℕ) };

    ghost view = { λ l. map (λ list. list.items) l.lists.items };
}

impl Lists {
    pub fn new(alloc: Global) -> Lists
        ensures { result ≡ [] }
    {
        Lists {
            lists: Vec::new(alloc),
        }
    }

    /// Takes the numbers of a literal out.
    pub fn take(&mut self, alloc: Global, literal: u64) -> Vec<u64>
        ensures taken { result.items ≡ listed self.old literal }
        ensures kept { (other : ℕ) → other ≢ literal → listed self.new other ≡ listed self.old other }
    {
        let at = literal as usize;
        if at >= self.lists.len() {
            return Vec::new(alloc);
        }
        take_list(alloc, &mut self.lists, at)
    }

    /// Lists a clause for the two literals that it watches, the second only where it isn't listed for it yet: where it
    /// didn't watch it before, or was taken out.
    pub fn relist(
        &mut self,
        alloc: Global,
        number: u64,
        pair: (u64, u64),
        before: (u64, u64),
    ) -> Result<(), AllocError>
        ensures kept { OnOk result ((literal : ℕ) → AreAmong (listed self.old literal) (listed self.new literal)) }
        ensures listed { OnOk result ((before.1 ≡ before.0) ⊎ (has (listed self.old before.1) number ≡ true) → ListedAs self.new (Some pair) number) }
    {
        self.put_one(alloc, number, pair.0)?;
        if pair.1 == pair.0 {
            return Ok(());
        }
        if pair.1 == before.1 && before.1 != before.0 {
            return Ok(());
        }
        self.put_one(alloc, number, pair.1)?;
        Ok(())
    }

    /// Lists a clause for a literal.
    pub fn put_one(&mut self, alloc: Global, number: u64, literal: u64) -> Result<(), AllocError>
        ensures { OnOk result (Put self.old self.new number (literal ∷ [])) }
    {
        make_lists(alloc, &mut self.lists, literal as usize)?;
        push_in(&mut self.lists, literal as usize, number)?;
        Ok(())
    }
}

// Takes one of the lists out.
fn take_list(alloc: Global, lists: &mut Vec<Vec<u64>>, at: usize) -> Vec<u64>
    requires { at < length (map (λ list. list.items) lists.old.items) }
    ensures taken { result.items ≡ listed (map (λ list. list.items) lists.old.items) at }
    ensures kept { map (λ list. list.items) lists.new.items ≡ slice_set (map (λ list. list.items) lists.old.items) at [] }
{
    mem::replace(&mut lists[at], Vec::new(alloc))
}

// Makes so many lists and one more.
fn make_lists(alloc: Global, lists: &mut Vec<Vec<u64>>, at: usize) -> Result<(), AllocError>
    ensures kept { (other : ℕ) → listed (map (λ list. list.items) lists.new.items) other ≡ listed (map (λ list. list.items) lists.old.items) other }
    ensures long { OnOk result (at < length (map (λ list. list.items) lists.new.items)) }
{
    while lists.len() <= at {
        lists.push(Vec::new(alloc))?;
    }
    Ok(())
}

// Puts a number at the end of one of the lists.
fn push_in(lists: &mut Vec<Vec<u64>>, at: usize, number: u64) -> Result<(), AllocError>
    requires { at < length (map (λ list. list.items) lists.old.items) }
    ensures { let old = map (λ list. list.items) lists.old.items in
        OnOk result (map (λ list. list.items) lists.new.items ≡ slice_set old at (listed old at ++ number ∷ [])) }
{
    push(&mut lists[at], number)
}

fn push(list: &mut Vec<u64>, number: u64) -> Result<(), AllocError>
    ensures { OnOk result (list.new.items ≡ list.old.items ++ number ∷ []) }
{
    list.push(number)?;
    Ok(())
}
