// The forms of a graph, in segments that graphs share.
ghost use Rattle.std.specs.Prelude.{◌≡◌, ◌≢◌, ℕ, ◌<◌, ◌≤◌, ◌^◌, ◌++◌, ◌∷◌, [], Some, length, slice_get, map, IfOk, IfErr, OnOk, OnErr, IfSome, IfNone};
ghost use Rattle.std.specs.Arc.{arc_value};
ghost use Rattle.bv_terms.specs.code.Index.{form_of, all_forms};

use crate::key::{Key, key_of};
use crate::merging::absorbed;
use crate::segment::Segment;
use crate::words::Form;
use std::alloc::{AllocError, Global};
use std::cmp::Reverse;
use std::marker::Model;
use std::sync::Arc;

/// Forms in order: those of full segments, which other graphs may share, and those of one that is its own. There are at most
/// 2^60.
#[derive(Drop)]
pub struct Forms {
    full: Vec<Arc<Segment>>,
    own: Segment,
    before: u64,
    alloc: Global,
}

impl Model for Forms {
    ghost use Rattle.std.specs.Prelude.{◌≡◌, ◌≤◌, ◌^◌, [], List as Items, map, length};
    ghost use Rattle.std.specs.Arc.{arc_value};
    ghost use Rattle.bv_terms.specs.declared.words.Form.{Form as OneForm};
    ghost use Rattle.bv_terms.specs.code.Index.{all_forms};

    ghost Value = { Items OneForm };

    ghost view = { λ f. all_forms (map (λ s. arc_value s) f.full.items) f.own };

    ghost invariant = { λ f. (f.before ≡ length (all_forms (map (λ s. arc_value s) f.full.items) [])) × (length (all_forms (map (λ s. arc_value s) f.full.items) f.own) ≤ 2 ^ 60) };
}

impl Forms {
    /// No forms.
    pub fn new(alloc: Global) -> Forms
        ensures { result ≡ [] }
    {
        Forms {
            full: Vec::new(alloc),
            own: Segment::new(alloc),
            before: 0,
            alloc,
        }
    }

    /// How many there are.
    pub fn len(&self) -> u64
        ensures { result ≡ length self.now }
    {
        self.before + self.own.len() as u64
    }

    /// The form at a place.
    pub fn get(&self, i: u64) -> &Form
        requires { i < length self.now }
        ensures { slice_get self.now i ≡ Some result.now }
    {
        if i >= self.before {
            return self.own.get((i - self.before) as usize);
        }
        let mut rest = i;
        for k in 0..self.full.len() {
            let segment = &self.full[k];
            let count = segment.len() as u64;
            if rest < count {
                return segment.get(rest as usize);
            }
            rest -= count;
        }
        unreachable!()
    }

    /// The key of a form.
    pub fn key(&self, form: &Form) -> Result<Reverse<Key>, AllocError>
        ensures { IfOk result (λ key. form_of key.0 ≡ form.now) }
    {
        let key = key_of(self.alloc, form)?;
        Ok(Reverse(key))
    }

    /// The place of a form, where it is there.
    pub fn find(&self, key: &Reverse<Key>) -> Option<u64>
        ensures found { IfSome result (λ i. slice_get self.now i ≡ Some (form_of key.now.0)) }
        ensures absent { IfNone result ((i : ℕ) → slice_get self.now i ≢ Some (form_of key.now.0)) }
    {
        let mut start = 0;
        for k in 0..self.full.len() {
            let segment = &self.full[k];
            if let Some(i) = segment.find(key) {
                return Some(start + i);
            }
            start += segment.len() as u64;
        }
        match self.own.find(key) {
            Some(i) => Some(start + i),
            None => None,
        }
    }

    /// Puts a form that isn't there at the end. Where memory is wanting, all is as it was.
    pub fn push(&mut self, form: Form, key: Reverse<Key>) -> Result<(), AllocError>
        requires key { form_of key.0 ≡ form }
        requires absent { (i : ℕ) → slice_get self.old i ≢ Some form }
        requires room { length self.old < 2 ^ 60 }
        ensures ok { OnOk result (self.new ≡ self.old ++ form ∷ []) }
        ensures err { OnErr result (self.new ≡ self.old) }
    {
        self.own.push(form, key)
    }

    /// Equal forms, in fewer segments where the last ones are small. It takes time and memory by the number of these.
    pub fn merged(self) -> Forms
        ensures { result ≡ self }
    {
        let Forms {
            full,
            own,
            before,
            alloc,
        } = self;
        let mut full = full;
        let count = before + own.len() as u64;
        let last = absorbed(&mut full, own, alloc);
        let before = count - last.len() as u64;
        Forms {
            full,
            own: last,
            before,
            alloc,
        }
    }

    /// Equal forms twice, which share their segments. Where memory is wanting, they come back.
    pub fn share(self) -> Result<(Forms, Forms), Forms>
        ensures first { IfOk result (λ both. both.0 ≡ self) }
        ensures second { IfOk result (λ both. both.1 ≡ self) }
        ensures back { IfErr result (λ forms. forms ≡ self) }
    {
        let Forms {
            full,
            own,
            before,
            alloc,
        } = self;
        let mut full = full;
        let count = before + own.len() as u64;
        match close(&mut full, own, alloc) {
            Ok(()) => match full.clone() {
                Ok(others) => Ok((closed(full, count, alloc), closed(others, count, alloc))),
                Err(_) => Err(closed(full, count, alloc)),
            },
            Err(own) => Err(Forms {
                full,
                own,
                before,
                alloc,
            }),
        }
    }
}

/// Forms whose own segment is empty.
fn closed(full: Vec<Arc<Segment>>, before: u64, alloc: Global) -> Forms
    requires count { before ≡ length (all_forms (map (λ s. arc_value s) full.items) []) }
    requires most { before ≤ 2 ^ 60 }
    ensures { result ≡ all_forms (map (λ s. arc_value s) full.items) [] }
{
    Forms {
        full,
        own: Segment::new(alloc),
        before,
        alloc,
    }
}

/// Puts a segment behind the full ones. Where memory is wanting, it comes back.
fn close(full: &mut Vec<Arc<Segment>>, own: Segment, alloc: Global) -> Result<(), Segment>
    ensures ok { OnOk result (map (λ s. arc_value s) full.new.items ≡ map (λ s. arc_value s) full.old.items ++ own ∷ []) }
    ensures back { IfErr result (λ segment. segment ≡ own) }
    ensures kept { OnErr result (full.new.items ≡ full.old.items) }
{
    if full.reserve(1).is_err() {
        return Err(own);
    }
    match Arc::new(alloc, own) {
        Ok(segment) => {
            let _pushed = full.push(segment);
            Ok(())
        }
        Err(failed) => Err(failed.value),
    }
}
