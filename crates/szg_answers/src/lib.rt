//! The answers of the program `szg` on one table or on files: what is read and written for what the words ask for, and how
//! it ends.
#![tactic(auto)]

mod building;
mod commands;
mod copying;
mod description;
mod fronts;
mod lookups;
mod men;
mod on_files;
mod outcome;
mod placements;
mod refusal;
mod refusal_lines;
mod saying;
mod streaming;

pub use commands::{run, run_by};
pub use copying::run_copies;
pub use on_files::{Ending, FileFailure, LineKind, run_words};
pub use outcome::Outcome;
pub use refusal::Refusal;
