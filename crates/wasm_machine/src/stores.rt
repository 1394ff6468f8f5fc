// The tables and the segments of the machine's state.
ghost use Rattle.std.specs.Prelude.{◌≡◌, ◌+◌, ◌<◌, ◌≤◌, ◌++◌, [], MatchOption, OnOk, OnErr, Some, None, length, map, option_map, replicate, slice_get, slice_set, slice_index_or, ◌≢◌};
ghost use Rattle.wasm_reduction.specs.Combinators.{written, part};
ghost use Rattle.wasm_machine.specs.declared.values.Reference.{Reference as OneReference};
ghost use Rattle.wasm_machine.specs.Configurations.{datas_of};
ghost use Rattle.wasm_machine.specs.Stores.{list_at};
ghost use Rattle.wasm_machine.specs.code.Moves.{with_table, without_elem, without_data};

use crate::machine::Machine;
use crate::values::Reference;
use std::alloc::AllocError;
use wasm_ast::{Module, Segment};

// ---- lists of references

// A range is filled.
fn fill_part(list: &mut [Reference], at: usize, count: usize, r: Reference)
    requires { at + count ≤ length list.old }
    ensures { list.new ≡ written at (replicate count r) list.old }
{
    list[at..at + count].fill(r);
}

// A range is written over another one, as if through a second list.
fn copy_part(list: &mut [Reference], to: usize, from: usize, count: usize)
    requires from_within { from + count ≤ length list.old }
    requires to_within { to + count ≤ length list.old }
    ensures { list.new ≡ written to (part from count list.old) list.old }
{
    list.copy_within(from..from + count, to);
}

// A range of another list is written.
fn put_part(list: &mut [Reference], to: usize, source: &[Reference], from: usize, count: usize)
    requires from_within { from + count ≤ length source.now }
    requires to_within { to + count ≤ length list.old }
    ensures { list.new ≡ written to (part from count source.now) list.old }
{
    list[to..to + count].copy_from_slice(&source[from..from + count]);
}

// So many more references.
fn grow_list(list: &mut Vec<Reference>, count: usize, r: Reference) -> Result<(), AllocError>
    ensures grown { OnOk result (list.new.items ≡ list.old.items ++ replicate count r) }
    ensures refused { OnErr result (list.new.items ≡ list.old.items) }
{
    let Some(length) = list.len().checked_add(count) else {
        return Err(AllocError);
    };
    list.resize(length, r)
}

// ---- one list of several

// An element of the list x.
fn get_in(lists: &Vec<Vec<Reference>>, x: usize, i: usize) -> Reference
    requires there { x < length (map (λ t. t.items) lists.now.items) }
    requires within { i < length (list_at (map (λ t. t.items) lists.now.items) x) }
    ensures { (d : OneReference) → slice_index_or (list_at (map (λ t. t.items) lists.now.items) x) i d ≡ result }
{
    lists[x][i]
}

fn set_in(lists: &mut Vec<Vec<Reference>>, x: usize, i: usize, r: Reference)
    requires there { x < length (map (λ t. t.items) lists.old.items) }
    requires within { i < length (list_at (map (λ t. t.items) lists.old.items) x) }
    ensures { let old = map (λ t. t.items) lists.old.items in
        map (λ t. t.items) lists.new.items ≡ slice_set old x (slice_set (list_at old x) i r) }
{
    lists[x][i] = r;
}

fn fill_in(lists: &mut Vec<Vec<Reference>>, x: usize, at: usize, count: usize, r: Reference)
    requires there { x < length (map (λ t. t.items) lists.old.items) }
    requires within { at + count ≤ length (list_at (map (λ t. t.items) lists.old.items) x) }
    ensures { let old = map (λ t. t.items) lists.old.items in
        map (λ t. t.items) lists.new.items ≡ slice_set old x (written at (replicate count r) (list_at old x)) }
{
    fill_part(&mut lists[x], at, count, r);
}

fn copy_in(lists: &mut Vec<Vec<Reference>>, x: usize, to: usize, from: usize, count: usize)
    requires there { x < length (map (λ t. t.items) lists.old.items) }
    requires from_within { from + count ≤ length (list_at (map (λ t. t.items) lists.old.items) x) }
    requires to_within { to + count ≤ length (list_at (map (λ t. t.items) lists.old.items) x) }
    ensures { let old = map (λ t. t.items) lists.old.items in
        map (λ t. t.items) lists.new.items ≡ slice_set old x (written to (part from count (list_at old x)) (list_at old x)) }
{
    copy_part(&mut lists[x], to, from, count);
}

fn put_in(
    lists: &mut Vec<Vec<Reference>>,
    x: usize,
    to: usize,
    source: &[Reference],
    from: usize,
    count: usize,
)
    requires there { x < length (map (λ t. t.items) lists.old.items) }
    requires from_within { from + count ≤ length source.now }
    requires to_within { to + count ≤ length (list_at (map (λ t. t.items) lists.old.items) x) }
    ensures { let old = map (λ t. t.items) lists.old.items in
        map (λ t. t.items) lists.new.items ≡ slice_set old x (written to (part from count source.now) (list_at old x)) }
{
    put_part(&mut lists[x], to, source, from, count);
}

fn grow_in(
    lists: &mut Vec<Vec<Reference>>,
    x: usize,
    count: usize,
    r: Reference,
) -> Result<(), AllocError>
    requires { x < length (map (λ t. t.items) lists.old.items) }
    ensures grown { let old = map (λ t. t.items) lists.old.items in
        OnOk result (map (λ t. t.items) lists.new.items ≡ slice_set old x (list_at old x ++ replicate count r)) }
    ensures refused { OnErr result (map (λ t. t.items) lists.new.items ≡ map (λ t. t.items) lists.old.items) }
{
    grow_list(&mut lists[x], count, r)
}

fn clear_in(lists: &mut Vec<Vec<Reference>>, x: usize)
    requires { x < length (map (λ t. t.items) lists.old.items) }
    ensures { map (λ t. t.items) lists.new.items ≡ slice_set (map (λ t. t.items) lists.old.items) x [] }
{
    lists[x].truncate(0);
}

// The range of the list y is written over that of the list x, another one.
fn copy_across(
    lists: &mut Vec<Vec<Reference>>,
    x: usize,
    y: usize,
    to: usize,
    from: usize,
    count: usize,
)
    requires other { x ≢ y }
    requires there { x < length (map (λ t. t.items) lists.old.items) }
    requires from_there { y < length (map (λ t. t.items) lists.old.items) }
    requires from_within { from + count ≤ length (list_at (map (λ t. t.items) lists.old.items) y) }
    requires to_within { to + count ≤ length (list_at (map (λ t. t.items) lists.old.items) x) }
    ensures { let old = map (λ t. t.items) lists.old.items in
        map (λ t. t.items) lists.new.items ≡ slice_set old x (written to (part from count (list_at old y)) (list_at old x)) }
{
    for i in 0..count {
        let r = get_in(lists, y, from + i);
        set_in(lists, x, to + i, r);
    }
}

// A data segment of the module.
fn segment(m: &Module, x: u32) -> Option<&Segment>
    ensures { MatchOption result (slice_get m.now.segments x ≡ None) (λ g. slice_get m.now.segments x ≡ Some g.now) }
{
    m.segments.as_slice().get(x as usize)
}

impl<W: Copy> Machine<W> {
    /// How many elements a table has.
    pub fn table_length(&self, x: u32) -> Option<u64>
        ensures { result ≡ option_map length (slice_get self.now.tables x) }
    {
        Some(self.tables.get(x as usize)?.len() as u64)
    }

    /// An element of a table.
    pub fn element(&self, x: u32, i: usize) -> Option<Reference>
        ensures { result ≡ slice_get (list_at self.now.tables x) i }
    {
        self.tables.get(x as usize)?.get(i).copied()
    }

    /// How many references an element segment has; a dropped one has none.
    pub fn elem_length(&self, e: u32) -> Option<u64>
        ensures { result ≡ option_map length (slice_get self.now.elems e) }
    {
        Some(self.elems.get(e as usize)?.len() as u64)
    }

    /// The bytes of a data segment; of a dropped one none is left.
    #[tactic(auto, using(crate::proofs::StoreLemmas::data_none, crate::proofs::StoreLemmas::data_dropped, crate::proofs::StoreLemmas::data_past, crate::proofs::StoreLemmas::data_there))]
    pub fn data<'m>(&self, x: u32, m: &'m Module) -> Option<&'m [u8]>
        ensures { MatchOption result (slice_get (datas_of self.now.dropped m.now.segments) x ≡ None)
            (λ d. slice_get (datas_of self.now.dropped m.now.segments) x ≡ Some d.now) }
    {
        match self.is_dropped(x) {
            None => None,
            Some(true) => Some(&[]),
            Some(false) => match segment(m, x) {
                None => Some(&[]),
                Some(segment) => Some(segment.bytes.as_slice()),
            },
        }
    }

    /// Whether a data segment is dropped.
    pub fn is_dropped(&self, x: u32) -> Option<bool>
        ensures { result ≡ slice_get self.now.dropped x }
    {
        self.dropped.get(x as usize).copied()
    }

    /// An element of a table is written.
    pub fn set_element(&mut self, x: u32, i: usize, r: Reference)
        requires there { x < length self.old.tables }
        requires within { i < length (list_at self.old.tables x) }
        ensures { self.new ≡ with_table x (slice_set (list_at self.old.tables x) i r) self.old }
    {
        set_in(&mut self.tables, x as usize, i, r);
    }

    /// So many more elements of a table, of this reference.
    pub fn grow_table(&mut self, x: u32, count: usize, r: Reference) -> Result<(), AllocError>
        requires { x < length self.old.tables }
        ensures grown { OnOk result (self.new ≡ with_table x (list_at self.old.tables x ++ replicate count r) self.old) }
        ensures refused { OnErr result (self.new ≡ self.old) }
    {
        grow_in(&mut self.tables, x as usize, count, r)
    }

    /// A reference is written to each element of a range.
    pub fn fill_table(&mut self, x: u32, at: usize, count: usize, r: Reference)
        requires there { x < length self.old.tables }
        requires within { at + count ≤ length (list_at self.old.tables x) }
        ensures { self.new ≡ with_table x (written at (replicate count r) (list_at self.old.tables x)) self.old }
    {
        fill_in(&mut self.tables, x as usize, at, count, r);
    }

    /// Elements of the table y are written over those of the table x, which may be the same, as if through a second list.
    pub fn copy_table(&mut self, x: u32, y: u32, to: usize, from: usize, count: usize)
        requires there { x < length self.old.tables }
        requires from_there { y < length self.old.tables }
        requires from_within { from + count ≤ length (list_at self.old.tables y) }
        requires to_within { to + count ≤ length (list_at self.old.tables x) }
        ensures { self.new ≡ with_table x (written to (part from count (list_at self.old.tables y)) (list_at self.old.tables x)) self.old }
    {
        if x == y {
            copy_in(&mut self.tables, x as usize, to, from, count);
        } else {
            copy_across(&mut self.tables, x as usize, y as usize, to, from, count);
        }
    }

    /// References of an element segment are written over elements of a table.
    pub fn init_table(&mut self, e: u32, x: u32, to: usize, from: usize, count: usize)
        requires there { x < length self.old.tables }
        requires from_there { e < length self.old.elems }
        requires from_within { from + count ≤ length (list_at self.old.elems e) }
        requires to_within { to + count ≤ length (list_at self.old.tables x) }
        ensures { self.new ≡ with_table x (written to (part from count (list_at self.old.elems e)) (list_at self.old.tables x)) self.old }
    {
        put_in(
            &mut self.tables,
            x as usize,
            to,
            &self.elems[e as usize],
            from,
            count,
        );
    }

    /// An element segment is dropped.
    pub fn drop_elem(&mut self, e: u32)
        requires { e < length self.old.elems }
        ensures { self.new ≡ without_elem e self.old }
    {
        clear_in(&mut self.elems, e as usize);
    }

    /// A data segment is dropped.
    pub fn drop_data(&mut self, x: u32)
        requires { x < length self.old.dropped }
        ensures { self.new ≡ without_data x self.old }
    {
        self.dropped[x as usize] = true;
    }
}
