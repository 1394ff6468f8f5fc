// How many rows of each kind there are.
ghost use Rattle.std.specs.Prelude.{◌≡◌, ◌+◌, ◌++◌, ◌≤◌, length, decimal, IfOk};
ghost use Rattle.arrayvec.specs.ArrayString.{array_string_len};
ghost use Rattle.path_report.specs.Endings.{tally_enough, tally_ending};
ghost use Rattle.path_report.specs.Listeners.{no_rows};

use crate::counts::Counts;
use crate::listener::{Listener, Wish};
use arrayvec::ArrayString;
use fork_tree::Row;
use itoa::Buffer;
use std::alloc::AllocError;

// Eight numbers of at most 20 digits each, and 64 bytes of words.
const LONGEST: usize = 224;

/// It is told all rows, and then says how many of each kind there were. It has the room for its longest text.
#[derive(Drop)]
pub struct Tally {
    counts: Counts,
    text: ArrayString<LONGEST>,
    ghost says: { text.bytes ≡ tally_ending counts },
}

impl Tally {
    /// One that was told no row. Memory never runs out.
    pub fn new() -> Result<Tally, AllocError>
        ensures { IfOk result (λ tally. tally.counts ≡ no_rows) }
    {
        let counts = Counts::new();
        let text = text_of(&counts);
        Ok(Tally { counts, text })
    }
}

// Appends words and a number.
fn put(text: &mut ArrayString<LONGEST>, words: &str, n: u64)
    requires { array_string_len text.old + length words.now + 20 ≤ 224 }
    ensures bytes { text.new.bytes ≡ text.old.bytes ++ words.now ++ decimal n }
    ensures room { array_string_len text.new ≤ array_string_len text.old + length words.now + 20 }
{
    let mut digits = Buffer::new();
    text.push_str(words);
    text.push_str(digits.format(n));
}

// The text of these counts.
fn text_of(counts: &Counts) -> ArrayString<LONGEST>
    ensures { result.bytes ≡ tally_ending counts.now }
{
    let mut text = ArrayString::new();
    put(&mut text, "tally returns ", counts.returns);
    put(&mut text, " traps ", counts.traps);
    put(&mut text, " fails ", counts.fails);
    put(&mut text, " bound ", counts.bound);
    put(&mut text, " deep ", counts.deep);
    put(&mut text, " cut ", counts.cut);
    put(&mut text, " undecided ", counts.undecided);
    put(&mut text, " void ", counts.void);
    text.push_str("\n");
    text
}

impl Listener for Tally {
    ghost counts = { λ it. it.counts };

    ghost enough = { λ it. tally_enough };

    ghost ending = { λ it. tally_ending };

    fn row(&mut self, r: &Row) -> Result<Wish, AllocError> {
        let mut counts = self.counts;
        counts.count(&r.kind);
        let text = text_of(&counts);
        *self = Tally { counts, text };
        Ok(Wish::More)
    }

    fn tail(&self) -> &[u8] {
        self.text.as_str().as_bytes()
    }
}
