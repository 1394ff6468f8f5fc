// Steps of a path: from one question of a term to the next.
//
// `go` runs to the next question of a term or to the end, and `resume` answers the question. Both are a thin layer over the machine:
// with the graph of terms as its algebra, they have the run's bounds, its symbols and its answers, and name no instruction.
// `specs/Steps.antt` says what they promise.
#![tactic(auto)]

mod going;
mod laws;
mod results;
mod resuming;
mod stops;
mod turns;

pub use going::go;
pub use laws::i32_ne_says_other;
pub use resuming::resume;
pub use stops::Stop;
pub use sym_state::{End, Given};
