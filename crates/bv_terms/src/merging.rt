// Small segments that become one, so that there are few to look through.
ghost use Rattle.std.specs.Prelude.{◌≡◌, ◌-◌, ◌++◌, ◌∷◌, [], IsTrue, IfSome, map, take, length};
ghost use Rattle.std.specs.Arc.{arc_value};
ghost use Rattle.bv_terms.specs.code.Index.{all_forms};

use crate::key::key_of;
use crate::segment::Segment;
use crate::words::Form;
use std::alloc::Global;
use std::cmp::Reverse;
use std::sync::Arc;

/// A segment of more forms than this stays as it is.
const SMALL: usize = 1024;

/// So many segments at most become one at a time.
const TURNS: u32 = 10;

/// The last segment with those before it that have no more forms, where they are small. Where memory is wanting, fewer.
pub fn absorbed(full: &mut Vec<Arc<Segment>>, own: Segment, alloc: Global) -> Segment
    ensures { all_forms (map (λ s. arc_value s) full.new.items) result ≡ all_forms (map (λ s. arc_value s) full.old.items) own }
{
    let mut last = own;
    for _turn in 0..TURNS {
        match with_one_before(full.as_slice(), &last, alloc) {
            Some(both) => {
                full.pop();
                last = both;
            }
            None => return last,
        }
    }
    last
}

/// The last full segment and this one as one, where both are small and it has no more forms.
fn with_one_before(full: &[Arc<Segment>], last: &Segment, alloc: Global) -> Option<Segment>
    ensures { IfSome result (λ both. all_forms (map (λ s. arc_value s) (take (length full.now - 1) full.now)) both ≡ all_forms (map (λ s. arc_value s) full.now) last.now) }
{
    let count = full.len();
    if count == 0 {
        return None;
    }
    let before = &full[count - 1];
    if before.len() > last.len() || last.len() > SMALL {
        return None;
    }
    joined(before, last, alloc)
}

fn joined(first: &Segment, second: &Segment, alloc: Global) -> Option<Segment>
    ensures { IfSome result (λ both. both ≡ first.now ++ second.now) }
{
    let mut both = Segment::new(alloc);
    if append(&mut both, first, alloc) && append(&mut both, second, alloc) {
        Some(both)
    } else {
        None
    }
}

fn append(all: &mut Segment, more: &Segment, alloc: Global) -> bool
    ensures { IsTrue result → all.new ≡ all.old ++ more.now }
{
    for i in 0..more.len() {
        if !add(all, more.get(i), alloc) {
            return false;
        }
    }
    true
}

fn add(all: &mut Segment, form: &Form, alloc: Global) -> bool
    ensures { IsTrue result → all.new ≡ all.old ++ form.now ∷ [] }
{
    let Ok(copy) = form.clone() else {
        return false;
    };
    let Ok(key) = key_of(alloc, form) else {
        return false;
    };
    let key = Reverse(key);
    if all.find(&key).is_some() {
        return false;
    }
    all.push(copy, key).is_ok()
}
