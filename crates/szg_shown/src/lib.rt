//! What the program `szg` shows: the results of positions, and on a terminal how far a run has come.
#![tactic(auto)]

mod progress;
mod results;

pub use progress::{Above, ProgressLine, ReadLine};
pub use results::write_results;
