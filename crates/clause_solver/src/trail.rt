// The trail of literals that are true.
ghost use Rattle.std.specs.Prelude.{◌≡◌, ◌<◌, ◌+◌, ◌^◌, [], ◌∷◌, ℕ, length, slice_get, slice_index, Some, None, OnOk, OnErr};
ghost use Rattle.refute_check.specs.Machine.{Entry as OneEntry, entry_of, value_of, level_now, level_of, assigned, has_decision as decided_on, cut as cut_to};
ghost use Rattle.refute_check.specs.Rising.{Rises};
ghost use Rattle.refute_check.specs.Clauses.{variable_of};
ghost use Rattle.clause_solver.specs.code.Seen.{value_seen};

use std::alloc::{AllocError, Global};
use std::marker::Model;

/// A literal that is true.
pub struct Entry {
    pub literal: u64,
    /// How many decisions there were when it came, itself among them.
    pub level: u64,
    /// The number of the clause that forced it, or None where it was decided.
    pub reason: Option<u64>,
}

impl Model for Entry {
    ghost use Rattle.refute_check.specs.Machine.{Entry as Seen};

    ghost Value = { Seen };

    ghost view = { λ e. record { literal = e.literal; level = e.level; reason = e.reason } };

    ghost inverse = { λ v. record { literal = v.literal; level = v.level; reason = v.reason } };
}

impl Clone for Entry {
    fn clone(&self) -> Result<Entry, AllocError> {
        Ok(*self)
    }
}

impl Copy for Entry {}

impl Entry {
    /// The variable of the literal.
    pub fn variable(&self) -> u64
        ensures exact { result ≡ variable_of self.now.literal }
        ensures small { result < 2 ^ 63 }
    {
        self.literal / 2
    }
}

/// What a literal is on a trail.
#[derive(Clone, Copy, Debug, PartialEq, Eq)]
pub enum Value {
    True,
    False,
    Unset,
}

/// The literals that are true so far. Contracts see it as the list of its entries, the latest first.
#[derive(Drop)]
pub struct Trail {
    entries: Vec<Entry>,
    // For each variable one more than the place of its entry, or 0 where it has none.
    places: Vec<usize>,
}

impl Model for Trail {
    ghost use Rattle.std.specs.Prelude.{List, reverse};
    ghost use Rattle.refute_check.specs.Machine.{Entry as Seen};

    ghost Value = { List Seen };

    ghost use Rattle.clause_solver.specs.code.Places.{IsPlaced};

    ghost view = { λ t. reverse t.entries.items };

    ghost invariant = { λ t. IsPlaced (reverse t.entries.items) t.places.items };
}

impl Trail {
    pub fn new(alloc: Global) -> Trail
        ensures { result ≡ [] }
    {
        Trail {
            entries: Vec::new(alloc),
            places: Vec::new(alloc),
        }
    }

    pub fn len(&self) -> usize
        ensures exact { result ≡ length self.now }
        ensures small { result < 2 ^ 63 }
    {
        self.entries.len()
    }

    /// The entry that has so many after it.
    pub fn get(&self, after: usize) -> Entry
        requires { after < length self.now }
        ensures { slice_get self.now after ≡ Some result }
    {
        self.entries[self.entries.len() - 1 - after]
    }

    /// Puts in the entry of a variable that has none.
    pub fn put(&mut self, entry: Entry) -> Result<(), AllocError>
        requires { entry_of self.old (variable_of entry.literal) ≡ None }
        ensures ok { OnOk result (self.new ≡ entry ∷ self.old) }
        ensures err { OnErr result (self.new ≡ self.old) }
    {
        let variable = (entry.literal / 2) as usize;
        make_room(&mut self.places, variable)?;
        self.entries.push(entry)?;
        self.places[variable] = self.entries.len();
        Ok(())
    }

    /// The entry of a variable, if it is on the trail.
    pub fn entry(&self, variable: u64) -> Option<Entry>
        ensures { result ≡ entry_of self.now variable }
    {
        let place = place_in(&self.places, variable as usize);
        if place == 0 {
            return None;
        }
        Some(self.entries[place - 1])
    }

    pub fn value(&self, literal: u64) -> Value
        ensures { value_seen result ≡ value_of self.now literal }
    {
        match self.entry(literal / 2) {
            None => Value::Unset,
            Some(entry) => {
                if entry.literal == literal {
                    Value::True
                } else {
                    Value::False
                }
            }
        }
    }

    /// The level of a literal's variable, 0 where it is unset.
    pub fn level(&self, literal: u64) -> u64
        ensures { result ≡ level_of self.now literal }
    {
        match self.entry(literal / 2) {
            None => 0,
            Some(entry) => entry.level,
        }
    }

    /// The value that the trail gives to a variable, false where it is unset.
    pub fn assigns(&self, variable: u64) -> bool
        ensures { result ≡ assigned self.now variable }
    {
        match self.entry(variable) {
            None => false,
            Some(entry) => entry.literal % 2 == 0,
        }
    }

    /// The present level, 0 on the empty trail.
    pub fn last_level(&self) -> u64
        ensures { result ≡ level_now self.now }
    {
        match self.entries.as_slice().last() {
            None => 0,
            Some(entry) => entry.level,
        }
    }

    /// One more than the present level.
    pub fn next_level(&self) -> u64
        requires { Rises self.now }
        ensures { result ≡ level_now self.now + 1 }
    {
        // No level is more than the length, which fits.
        let _length = self.len();
        self.last_level() + 1
    }

    /// Whether some literal was decided.
    pub fn has_decision(&self) -> bool
        ensures { result ≡ decided_on self.now }
    {
        let mut decided = false;
        for entry in self.entries.as_slice() {
            decided = decided || entry.reason.is_none();
        }
        decided
    }

    /// Takes off what has a higher level than this.
    pub fn cut(&mut self, level: u64)
        ensures { self.new ≡ cut_to level self.old }
    {
        while self.last_level() > level {
            self.take_off();
        }
    }

    fn take_off(&mut self)
        requires { 0 < length self.old }
        ensures { (latest : OneEntry) × (self.old ≡ latest ∷ self.new) }
    {
        if let Some(entry) = self.entries.pop() {
            self.places[(entry.literal / 2) as usize] = 0;
        }
    }
}

// The place that the table has for a variable, 0 where it has none.
fn place_in(places: &Vec<usize>, variable: usize) -> usize
    ensures { result ≡ slice_index places.now.items variable }
{
    if variable < places.len() {
        places[variable]
    } else {
        0
    }
}

// Makes the table long enough for a variable.
fn make_room(places: &mut Vec<usize>, variable: usize) -> Result<(), AllocError>
    requires { variable < 2 ^ 63 }
    ensures long { OnOk result (variable < length places.new.items) }
    ensures kept { (other : ℕ) → slice_index places.new.items other ≡ slice_index places.old.items other }
{
    if variable >= places.len() {
        places.resize(variable + 1, 0)?;
    }
    Ok(())
}
