//! The result of a position over a set of tables, and its text.
#![tactic(auto)]

mod classes_alone;
mod folders;
pub mod laws;
mod lines;
mod objects;
mod pieces;
mod results;
mod wanted;

pub use folders::{Folders, ResultStop, stop_text};
pub use lines::{board_of, line_of, text_of};
pub use pieces::read_missing;
pub use results::{Answer, probe_position};
