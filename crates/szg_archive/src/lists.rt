//! Lists of sums, and logs, in files.

use std::alloc::Global;
use std::fs;
use std::io::Read;
use std::rt::Files;
use szg_files::FileFault;
use szg_sums::FromLines;

/// A list of sums, or a log, that is not read, and why.
#[derive(Clone, Copy)]
pub enum ListFailure<'a> {
    /// The file at this path can't be read.
    File(&'a str, FileFault),
    /// In the file at this path the line of this number, from 1 on, isn't one of a list, or of a log.
    Line(&'a str, u64),
}

/// Reads lists of sums, or logs.
///
/// Errors: the first file that can't be read, or that has a line that isn't one of a list, or of a log.
pub fn read_lists<'a, R: Files, L: FromLines>(
    alloc: Global,
    files: &R,
    lists: &[&'a str],
    read: &mut L,
) -> Result<(), ListFailure<'a>> {
    'lists: for list in lists {
        let path: &'a str = list;
        let text = text_at(alloc, files, path).map_err(|fault| ListFailure::File(path, fault))?;
        match read.add_lines(alloc, &text) {
            Ok(None) => {}
            Ok(Some(line)) => return Err(ListFailure::Line(path, line)),
            Err(_) => return Err(ListFailure::File(path, FileFault::Memory)),
        }
    }
    Ok(())
}

/// Returns the bytes of the file at a path.
fn text_at<R: Files>(alloc: Global, files: &R, path: &str) -> Result<Vec<u8>, FileFault> {
    let mut text = Vec::new(alloc);
    fs::open(files, path)?.read_to_end(&mut text)?;
    Ok(text)
}
