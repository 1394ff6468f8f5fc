// The trouble of least place so far.
ghost use Rattle.std.specs.Prelude.{◌≡◌, ℕ, List, None, Some};
ghost use Rattle.wasm_text.specs.declared.bad.TextBad.{TextBad as OneBad};
ghost use Rattle.wasm_text.specs.NameTroubles.{at_of, least};
ghost use Rattle.wat_resolve.specs.code.Noting.{sooner, noted, joined};

use wasm_text::TextBad;

// The place of a trouble of names or uses.
fn place(bad: TextBad) -> u64
    ensures { result ≡ at_of bad }
{
    match bad {
        TextBad::Unknown { at } => at,
        TextBad::Twice { at } => at,
        TextBad::Use { at } => at,
        _ => 0,
    }
}

// Notes one more trouble.
pub(crate) fn note(found: &mut Option<TextBad>, bad: TextBad)
    ensures { found.new ≡ sooner found.old bad }
{
    match *found {
        None => *found = Some(bad),
        Some(other) => {
            if place(bad) < place(other) {
                *found = Some(bad);
            }
        }
    }
}

// Notes what was found later.
#[tactic(auto, using(crate::proofs::NotingLaws::noted_joined))]
pub(crate) fn join(found: &mut Option<TextBad>, later: Option<TextBad>)
    ensures joins { found.new ≡ joined found.old later }
    ensures all { (bads : List OneBad) → later ≡ noted bads None → found.new ≡ noted bads found.old }
{
    if let Some(bad) = later {
        note(found, bad);
    }
}
