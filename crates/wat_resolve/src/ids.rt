// The identifiers of a space, found by their names.
ghost use Rattle.std.specs.Prelude.{◌≡◌, ◌++◌, ◌∷◌, [], List, Option as Maybe, length, None, Some, replicate, IfOk, OnOk};
ghost use Rattle.wasm_text.specs.Names.{id_text, position};
ghost use Rattle.wasm_text.specs.NameTroubles.{unknown, twice};
ghost use Rattle.wasm_text.specs.TextInstructions.{or_zero};
ghost use Rattle.wat_resolve.specs.code.Noting.{noted};
ghost use Rattle.wat_resolve.specs.code.Firsts.{first_at, words_of, word_of, AreFirsts};
ghost use Rattle.wat_resolve.specs.code.Spaces.{again_of};
ghost use Rattle.wasm_text.specs.declared.named.Id.{Id as OneId};

use crate::noting::note;
use std::alloc::{AllocError, Global};
use std::collections::BTreeMap;
use std::marker::Model;
use wasm_text::{Id, Idx, TextBad};

/// The identifiers of a space, with the place where each name is defined first.
#[derive(Drop)]
pub(crate) struct Ids<'a> {
    text: &'a [u8],
    // how many stand first that have no identifier
    unnamed: usize,
    ids: Vec<Option<Id>>,
    places: BTreeMap<&'a [u8], u32>,
}

impl<'a> Model for Ids<'a> {
    ghost use Rattle.std.specs.Prelude.{◌++◌, None, replicate};
    ghost use Rattle.wat_resolve.specs.code.Spaces.{Ids as Seen};
    ghost use Rattle.wat_resolve.specs.code.Firsts.{words_of, AreFirsts};

    ghost Value = { Seen };

    ghost view = { λ s. record { text = s.text.now; ids = replicate s.unnamed None ++ s.ids.items } };

    ghost invariant = { λ s. AreFirsts (λ k. k.now) (words_of s.text.now (replicate s.unnamed None ++ s.ids.items)) s.places };
}

// The characters of an identifier.
fn name_of<'a>(text: &'a [u8], id: Id) -> &'a [u8]
    ensures { result.now ≡ id_text text.now id }
{
    let start = id.start as usize;
    if text.len() < start {
        return &[];
    }
    let rest = &text[start..];
    let count = id.end.saturating_sub(id.start) as usize;
    if rest.len() < count {
        return rest;
    }
    &rest[..count]
}

// Puts one more identifier behind those whose places these are, and notes where its name is defined before.
fn put_name<'a>(
    text: &'a [u8],
    places: &mut BTreeMap<&'a [u8], u32>,
    place: usize,
    id: Id,
    found: &mut Option<TextBad>,
) -> Result<(), AllocError>
    ensures places { OnOk result ((before : List (Maybe OneId)) → length before ≡ place → AreFirsts (λ k. k.now) (words_of text.now before) places.old
        → AreFirsts (λ k. k.now) (words_of text.now (before ++ Some id ∷ [])) places.new) }
    ensures found { OnOk result ((before : List (Maybe OneId)) → AreFirsts (λ k. k.now) (words_of text.now before) places.old
        → found.new ≡ noted (again_of text.now before (Some id)) found.old) }
{
    let name = name_of(text, id);
    match places.get(name).copied() {
        Some(_) => {
            note(
                found,
                TextBad::Twice {
                    at: id.start as u64,
                },
            );
            Ok(())
        }
        None => {
            let at = match u32::try_from(place) {
                Err(_) => return Err(AllocError),
                Ok(at) => at,
            };
            places.insert(name, at)?;
            Ok(())
        }
    }
}

fn put_place<'a>(
    text: &'a [u8],
    places: &mut BTreeMap<&'a [u8], u32>,
    place: usize,
    id: Option<Id>,
    found: &mut Option<TextBad>,
) -> Result<(), AllocError>
    ensures places { OnOk result ((before : List (Maybe OneId)) → length before ≡ place → AreFirsts (λ k. k.now) (words_of text.now before) places.old
        → AreFirsts (λ k. k.now) (words_of text.now (before ++ id ∷ [])) places.new) }
    ensures found { OnOk result ((before : List (Maybe OneId)) → AreFirsts (λ k. k.now) (words_of text.now before) places.old
        → found.new ≡ noted (again_of text.now before id) found.old) }
{
    match id {
        None => Ok(()),
        Some(id) => put_name(text, places, place, id, found),
    }
}

// The places of these identifiers behind some things that have none.
fn places_of<'a>(
    alloc: Global,
    text: &'a [u8],
    unnamed: usize,
    ids: &[Option<Id>],
    found: &mut Option<TextBad>,
) -> Result<BTreeMap<&'a [u8], u32>, AllocError>
    ensures places { IfOk result (λ m. AreFirsts (λ k. k.now) (words_of text.now (replicate unnamed None ++ ids.now)) m) }
    ensures found { OnOk result (found.new ≡ noted (twice text.now (replicate unnamed None ++ ids.now)) found.old) }
{
    let mut places = BTreeMap::new(alloc);
    let mut place = unnamed;
    for id in ids {
        put_place(text, &mut places, place, *id, found)?;
        place = match place.checked_add(1) {
            None => return Err(AllocError),
            Some(place) => place,
        };
    }
    Ok(places)
}

impl<'a> Ids<'a> {
    /// These identifiers behind some things that have none. It notes each whose name is defined before.
    pub(crate) fn new(
        alloc: Global,
        text: &'a [u8],
        unnamed: usize,
        ids: Vec<Option<Id>>,
        found: &mut Option<TextBad>,
    ) -> Result<Ids<'a>, AllocError>
        ensures value { IfOk result (λ s. s ≡ record { text = text.now; ids = replicate unnamed None ++ ids.items }) }
        ensures found { OnOk result (found.new ≡ noted (twice text.now (replicate unnamed None ++ ids.items)) found.old) }
    {
        let places = places_of(alloc, text, unnamed, ids.as_slice(), found)?;
        Ok(Ids {
            text,
            unnamed,
            ids,
            places,
        })
    }

    /// No identifiers.
    pub(crate) fn none(alloc: Global, text: &'a [u8]) -> Ids<'a>
        ensures { result ≡ record { text = text.now; ids = [] } }
    {
        Ids {
            text,
            unnamed: 0,
            ids: Vec::new(alloc),
            places: BTreeMap::new(alloc),
        }
    }

    /// The text in which they stand.
    pub(crate) fn text(&self) -> &'a [u8]
        ensures { result.now ≡ self.now.text }
    {
        self.text
    }

    /// The place of what an index names.
    pub(crate) fn find(&self, x: Idx) -> Option<u32>
        ensures { result ≡ position self.now.text self.now.ids x }
    {
        match x {
            Idx::Numbered(n) => Some(n),
            Idx::Called(id) => self.places.get(name_of(self.text, id)).copied(),
        }
    }

    /// The place of what an index names, or 0 where there is nothing of that name, which it notes.
    pub(crate) fn number(&self, x: Idx, found: &mut Option<TextBad>) -> u32
        ensures value { result ≡ or_zero (position self.now.text self.now.ids x) }
        ensures found { found.new ≡ noted (unknown self.now.text self.now.ids x) found.old }
    {
        match x {
            Idx::Numbered(n) => n,
            Idx::Called(id) => match self.find(x) {
                Some(n) => n,
                None => {
                    note(
                        found,
                        TextBad::Unknown {
                            at: id.start as u64,
                        },
                    );
                    0
                }
            },
        }
    }
}
