//! The words of a command line of the program `szg`: which command they make, and what they ask it for.
#![tactic(auto)]

mod arguments;
mod command_line;
mod copies;
mod file_words;
mod finding;
mod meant;
mod men;
mod numbers;
mod positions;
mod request;
mod sorting;
mod usage;
mod verification;

pub use command_line::CommandForm;
pub use copies::{CopyWords, copies_of, same_name_error};
pub use file_words::{CheckJob, FileJob, names_files, parse_files};
pub use finding::{Clap, Finder};
pub use meant::meant_name;
pub use positions::{AnswerForm, ProbeWords, assumes_win, probe_of};
pub use request::{Action, AskedClass, BuildPlan, DumpForm, Request, Task, parse};
pub use verification::{FolderWords, verification_of};
