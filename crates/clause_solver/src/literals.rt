// The literals of a clause that is being resolved.
ghost use Rattle.std.specs.Prelude.{◌≡◌, ◌<◌, ◌^◌, ◌++◌, ◌∷◌, [], ℕ, false, Some, length, IfOk, OnOk, MatchOption, slice_get};
ghost use Rattle.refute_check.specs.Resolution.{has, without};
ghost use Rattle.clause_solver.specs.code.Literals.{IsStoredAt};

use refute_check::{Clause, Items};
use std::alloc::{AllocError, Global};
use std::marker::Model;

/// Literals, each once, in the order in which they came. One is found, put in and taken off in constant time. Contracts see
/// it as the list of the literals.
#[derive(Drop)]
pub struct Literals {
    // The literals, with holes where some were taken off.
    slots: Vec<Option<u64>>,
    // For each literal that is there its place among them, for the others any number.
    places: Vec<usize>,
    // How many there are.
    many: usize,
}

impl Model for Literals {
    ghost use Rattle.std.specs.Prelude.{ℕ, List};
    ghost use Rattle.clause_solver.specs.code.Literals.{present, IsStored};

    ghost Value = { List ℕ };

    ghost view = { λ l. present l.slots.items };

    ghost invariant = { λ l. IsStored l.slots.items l.places.items l.many };
}

impl Literals {
    pub fn new(alloc: Global) -> Literals
        ensures { result ≡ [] }
    {
        Literals {
            slots: Vec::new(alloc),
            places: Vec::new(alloc),
            many: 0,
        }
    }

    /// Takes all off.
    pub fn clear(&mut self)
        ensures { self.new ≡ [] }
    {
        self.slots.clear();
        self.many = 0;
    }

    /// How many there are.
    pub fn len(&self) -> usize
        ensures exact { result ≡ length self.now }
        ensures small { result < 2 ^ 63 }
    {
        let _slots = self.slots.len();
        self.many
    }

    /// Whether this one is there.
    pub fn has(&self, literal: u64) -> bool
        ensures { result ≡ has self.now literal }
    {
        match find(&self.slots, &self.places, literal) {
            None => false,
            Some(_) => true,
        }
    }

    /// Puts in one that isn't there. What has no room in a table counts as want of memory.
    pub fn put(&mut self, literal: u64) -> Result<(), AllocError>
        requires { has self.old literal ≡ false }
        ensures { OnOk result (self.new ≡ self.old ++ literal ∷ []) }
    {
        let _many = self.len();
        make_long(&mut self.places, literal)?;
        let place = self.slots.len();
        self.slots.push(Some(literal))?;
        self.places[literal as usize] = place;
        self.many += 1;
        Ok(())
    }

    /// Takes one off, if it is there.
    pub fn take_off(&mut self, literal: u64)
        ensures { self.new ≡ without literal self.old }
    {
        if let Some(place) = find(&self.slots, &self.places, literal) {
            self.slots[place] = None;
            self.many -= 1;
        }
    }

    /// All of them.
    pub fn list(&self, alloc: Global) -> Result<Clause, AllocError>
        ensures { IfOk result (λ clause. clause ≡ self.now) }
    {
        let mut clause = Items::new(Vec::new(alloc));
        for slot in self.slots.as_slice() {
            if let Some(literal) = slot {
                clause.push(*literal)?;
            }
        }
        Ok(clause)
    }
}

// The place of a literal, or None where it isn't there.
fn find(slots: &Vec<Option<u64>>, places: &Vec<usize>, literal: u64) -> Option<usize>
    ensures { MatchOption result ((place : ℕ) → IsStoredAt slots.now.items place literal → slice_get places.now.items literal ≡ Some place → ⊥)
        (λ place. IsStoredAt slots.now.items place literal) }
{
    let at = literal as usize;
    if at >= places.len() {
        return None;
    }
    let place = places[at];
    if place >= slots.len() {
        return None;
    }
    if slots[place] == Some(literal) {
        Some(place)
    } else {
        None
    }
}

// Makes the table long enough for a literal.
fn make_long(places: &mut Vec<usize>, literal: u64) -> Result<(), AllocError>
    ensures long { OnOk result (literal < length places.new.items) }
    ensures kept { (other place : ℕ) → slice_get places.old.items other ≡ Some place → slice_get places.new.items other ≡ Some place }
{
    if literal >= 1 << 62 {
        return Err(AllocError);
    }
    let at = literal as usize;
    if at >= places.len() {
        places.resize(at + 1, 0)?;
    }
    Ok(())
}
