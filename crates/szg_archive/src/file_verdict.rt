//! The verdict on a file.
use std::io::Error;
use szg_file::Reason;
use szg_files::FileFault;
use szg_values::NameFault;

/// The verdict on a file, opened by its path, or on another path below a folder.
#[derive(Clone, Copy)]
pub enum FileVerdict {
    /// It is a table and nothing else. Carries its length in bytes.
    Whole(u64),
    /// No kind is given, and its extension determines none.
    Ending,
    /// Its name is not a material's.
    Name(NameFault),
    /// The first check that fails, with its offset.
    At(u64, Reason),
    /// More bytes follow a table of this length.
    Trailing(u64),
    /// It cannot be opened.
    Unopened(FileFault),
    /// It cannot be read. Carries the system's reason if there is one.
    Unread(Option<Error>),
    /// Its name is not UTF-8, so it can't be opened.
    NoText,
    /// It is a folder, and no table file is below it.
    Empty,
    /// It is not checked.
    Skipped(Skip),
    /// It was good in an earlier run, and has its length and time still. Carries that length in bytes.
    Kept(u64),
    /// It is a table, and has another digest than the lists of sums have for it.
    Differs,
    /// It is a table, and no list of sums names it.
    Unlisted,
    /// A list of sums names it, and it isn't there.
    Missing,
}

/// Why a path below a folder is not checked.
#[derive(Clone, Copy)]
pub enum Skip {
    /// It looks like a table, and has another ending.
    Ending,
    /// It leads to a folder that it is in.
    Loop,
    /// It is a link to a folder that another link led to.
    Again,
}
