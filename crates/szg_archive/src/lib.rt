//! The check of an archive: files at paths and below folders, their sums, reports, logs.
#![tactic(auto)]

mod check_paths;
mod counts;
mod due;
mod entries;
mod file_verdict;
mod hashed;
mod lines;
mod lists;
mod log;
mod many;
mod one;
mod options;
mod reason_words;
mod records;

pub use check_paths::files_to_check;
pub use counts::CheckCounts;
pub use due::{Due, due_of};
pub use entries::{PathToCheck, entries_at, kind_at};
pub use file_verdict::{FileVerdict, Skip};
pub use lines::{escaped_path, summary_line, verdict_line};
pub use lists::{ListFailure, read_lists};
pub use log::{FileState, Log};
pub use many::{CheckReport, check_entries, check_files, check_found};
pub use one::{CheckedFile, check_path};
pub use options::CheckOptions;
pub use reason_words::reason_word;
