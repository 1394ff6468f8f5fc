// The sections of a module whose entries have rules.

/// A section of a module whose entries have rules (Validation, Modules).
///
/// Functions are declared in one section, with their types, and their bodies stand in another. Types are always valid.
#[derive(Clone, Copy, PartialEq, Eq, Debug)]
pub enum Section {
    Imports,
    Functions,
    Tables,
    Memories,
    Globals,
    Exports,
    Start,
    Elements,
    Code,
    Data,
}

impl Section {
    ghost use Rattle.std.specs.Prelude.{◌≡◌};
    ghost use Rattle.wasm_check.specs.Faults.{section_id};

    /// The id of the section in the binary format.
    pub fn id(self) -> u8
        ensures { result ≡ section_id self }
    {
        match self {
            Section::Imports => 2,
            Section::Functions => 3,
            Section::Tables => 4,
            Section::Memories => 5,
            Section::Globals => 6,
            Section::Exports => 7,
            Section::Start => 8,
            Section::Elements => 9,
            Section::Code => 10,
            Section::Data => 11,
        }
    }
}
