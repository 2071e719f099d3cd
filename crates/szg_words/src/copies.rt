//! Copies of tables into a folder: `szg copy [--sums LIST].. FILE.. FOLDER`.

use crate::command_line::CommandForm;
use crate::sorting::sorted_words;
use crate::usage::Usage;
use clap::Error;
use clap::error::ErrorKind;
use std::alloc::{AllocError, Global};
use std::path::Path;
use szg_named::named_by;

/// What a command line asks to copy.
#[derive(Drop)]
pub struct CopyWords<'a> {
    /// The lists of sums.
    pub lists: Vec<&'a str>,
    /// The tables' files.
    pub files: Vec<&'a str>,
    pub folder: &'a str,
}

/// Returns what a command line asks to copy: its command is `copy`, and after it come tables' files and a folder, which isn't
/// named as one, with options. None for other words.
pub fn copies_of<'a>(
    alloc: Global,
    words: &'a [&'a str],
) -> Result<Option<CopyWords<'a>>, AllocError> {
    let Some(found) = sorted_words(alloc, words, "copy", &["--sums"])? else {
        return Ok(None);
    };
    let lists = found.values_of(alloc, "--sums")?;
    let mut files = found.words;
    let Some(folder) = files.pop() else {
        return Ok(None);
    };
    let are_copies = !files.is_empty()
        && named_by(folder).is_none()
        && files.iter().all(|file| named_by(file).is_some());
    Ok(are_copies.then_some(CopyWords {
        lists,
        files,
        folder,
    }))
}

/// Returns the error of the first file whose name an earlier one has: its copy would replace the other's. None if there is
/// none.
pub fn same_name_error(alloc: Global, files: &[&str]) -> Result<Option<Error>, AllocError> {
    'files: for (number, path) in files.iter().enumerate() {
        let name = Path::new(path).file_name();
        let mut earlier = files.iter().take(number);
        if !earlier.any(|other| Path::new(other).file_name() == name) {
            continue;
        }
        let message = format!(in alloc; "another file has the name of '{path}'")?;
        let usage = Usage {
            alloc,
            command: "copy",
            form: CommandForm::Files,
        };
        return Ok(Some(usage.error(ErrorKind::ArgumentConflict, message.as_str())?));
    }
    Ok(None)
}
