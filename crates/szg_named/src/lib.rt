//! The name and kind of a table in a path, how a check of files is asked for, and the texts of faults of names and files.
#![tactic(auto)]

mod checks;
mod named;
mod texts;

pub use checks::{FileShard, ReportFormat};
pub use named::{Naming, named_as, named_by};
pub use texts::{error_text, fault_text, name_word};
