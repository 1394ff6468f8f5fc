// The commands: from words and the bytes of a source to the bytes of an answer and a status.
//
// `owi_plain` is the top call. Its contract says of every status why it comes and which bytes are written with it, what is
// left of the source, and what is written where the sink fails. `specs/Words.antt` says which words spell a command,
// `specs/Answer.antt` what is answered, `specs/Report.antt` the bytes of a report, `specs/RunText.antt` those that tell one run.
#![tactic(auto)]

mod convert;
mod entry;
mod explore;
mod image;
mod plain;
mod report;
mod run;
mod source;
mod status;
mod validate;
mod words;
mod written;

pub use plain::owi_plain;
pub use status::Status;
