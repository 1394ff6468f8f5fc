// A run of forms with an index by which a form is found.
ghost use Rattle.std.specs.Prelude.{◌≡◌, ◌≢◌, ℕ, ◌<◌, ◌++◌, ◌∷◌, [], Some, length, slice_get, OnOk, OnErr, IfSome, IfNone};
ghost use Rattle.bv_terms.specs.code.Index.{form_of};

use crate::key::Key;
use crate::words::Form;
use std::alloc::{AllocError, Global};
use std::cmp::Reverse;
use std::collections::BTreeMap;
use std::marker::Model;

/// Forms in order, each of which is there once and is found by its key. The order of the keys is that of their parts, so no
/// choice of forms makes any of them slow to find; it is the opposite one, in which the latest terms, of which most forms are,
/// are met first.
#[derive(Drop)]
pub struct Segment {
    forms: Vec<Form>,
    places: BTreeMap<Reverse<Key>, u64>,
}

impl Model for Segment {
    ghost use Rattle.std.specs.Prelude.{List as Items};
    ghost use Rattle.bv_terms.specs.declared.words.Form.{Form as OneForm};
    ghost use Rattle.bv_terms.specs.code.Index.{IsIndexed};

    ghost Value = { Items OneForm };

    ghost view = { λ s. s.forms.items };

    ghost invariant = { λ s. IsIndexed s.forms.items s.places };
}

impl Segment {
    /// No forms.
    pub fn new(alloc: Global) -> Segment
        ensures { result ≡ [] }
    {
        Segment {
            forms: Vec::new(alloc),
            places: BTreeMap::new(alloc),
        }
    }

    /// How many there are.
    pub fn len(&self) -> usize
        ensures { result ≡ length self.now }
    {
        self.forms.len()
    }

    /// The form at a place.
    pub fn get(&self, i: usize) -> &Form
        requires { i < length self.now }
        ensures { slice_get self.now i ≡ Some result.now }
    {
        &self.forms[i]
    }

    /// The place of a form, where it is there.
    pub fn find(&self, key: &Reverse<Key>) -> Option<u64>
        ensures found { IfSome result (λ i. slice_get self.now i ≡ Some (form_of key.now.0)) }
        ensures absent { IfNone result ((i : ℕ) → slice_get self.now i ≢ Some (form_of key.now.0)) }
    {
        self.places.get(key).copied()
    }

    /// Puts a form that isn't there at the end. Where memory is wanting, all is as it was.
    pub fn push(&mut self, form: Form, key: Reverse<Key>) -> Result<(), AllocError>
        requires key { form_of key.0 ≡ form }
        requires absent { (i : ℕ) → slice_get self.old i ≢ Some form }
        ensures ok { OnOk result (self.new ≡ self.old ++ form ∷ []) }
        ensures err { OnErr result (self.new ≡ self.old) }
    {
        let place = self.forms.len() as u64;
        self.forms.push(form)?;
        if self.places.insert(key, place).is_err() {
            self.forms.pop();
            return Err(AllocError);
        }
        Ok(())
    }
}
