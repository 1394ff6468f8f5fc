// The statuses with which the program ends.
ghost use Rattle.std.specs.Prelude.{◌≡◌};

use std::alloc::AllocError;

/// How a command ended.
#[derive(Clone, Copy, Debug, PartialEq, Eq)]
pub enum Status {
    /// Everything was carried out, and nothing was found.
    Done,
    /// Some path traps or fails.
    Found,
    /// The words don't spell a command.
    Usage,
    /// The source has not the form of a module.
    Malformed,
    /// The source has a type or an instruction outside this profile.
    Outside,
    /// The source or the output is too large.
    Limit,
    /// The module is not valid.
    Invalid,
    /// An import is none of the host functions.
    Unlinked,
    /// No function is exported by the name, or the arguments don't fit it.
    Entry,
    /// The source failed.
    ReadFault,
    /// The sink failed, and a part of the output may be written.
    WriteFault,
    /// Memory was not to be had. It comes at any moment before the first write.
    NoMemory,
    /// The source is one that can't be carried out yet.
    NotYet,
}

impl Status {
    ghost use Rattle.owi_cmd.specs.Answer.{status_number};

    /// The number of the status, from 0 to 12, with which the program ends.
    pub fn number(self) -> u8
        ensures { result ≡ status_number self }
    {
        self as u8
    }
}

impl From<AllocError> for Status {
    ghost use Rattle.std.specs.Prelude.{◌≡◌};
    ghost use Rattle.owi_cmd.specs.declared.status.Status.TheVariants.{NoMemory};

    ghost from_gives = { λ _ status. status ≡ NoMemory };

    fn from(_error: AllocError) -> Status {
        Status::NoMemory
    }
}
