// The report of an exploration: its bytes, what is read back of a row of it, and whether a row's input comes to the same again.
//
// `specs/Report.antt` says what the bytes of a report are, `specs/Reading.antt` of which row a line is the spelling.
#![tactic(auto)]

mod bad;
mod clean;
mod counts;
mod heads;
mod listener;
mod names;
mod reading;
mod reading_kinds;
mod reading_values;
mod replaying;
mod report;
mod rows;
mod tally;
mod telling;
mod terms;
mod values;

pub use bad::RowBad;
pub use clean::Clean;
pub use counts::Counts;
pub use heads::Head;
pub use listener::{Listener, Wish};
pub use names::put_name;
pub use reading::read_row;
pub use replaying::{Replayed, replay};
pub use report::{is_found, report_text};
pub use rows::cause_words;
pub use tally::Tally;
pub use telling::tell;
pub use values::put_list;
