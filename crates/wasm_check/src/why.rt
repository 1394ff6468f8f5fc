// Why a module is refused.

/// The first fault of a module that isn't valid, or want of memory.
#[derive(Clone, Copy, PartialEq, Eq, Debug)]
pub enum Why {
    /// An entry of a section breaks a rule.
    ///
    /// The section is given by its id in the binary format, from 2 to 9, or 11. The function section's entries are judged
    /// by their types alone. Entries are counted from 0; the entry of the start section is 0.
    Field { section: u8, entry: u32 },
    /// The body of a function isn't valid.
    ///
    /// The function is given by its index, imports counted, and the place by a count of the body's instructions as they
    /// are written in the binary format, from 0, `else` and `end` included: no valid body of this function begins with
    /// the instructions up to and including the one at this place, and some valid body begins with those before it.
    Code { function: u64, place: u64 },
    /// Memory is wanting. Nothing is said of the module.
    NoMemory,
}
