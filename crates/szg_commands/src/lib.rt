//! Runs of the program `szg`: what a command line asks for is carried out, and the status with which the program ends.
#![tactic(auto)]

pub mod laws;
mod running;
mod statuses;

pub use running::{run_given, words_given};
pub use statuses::no_words_status;
