//! The verification of a folder's tables: `szg verify FOLDER [NAME..] [--resume LOG] [--shard K/N]`.

use crate::sorting::sorted_words;
use std::alloc::{AllocError, Global};

/// What a command line asks to verify.
#[derive(Drop)]
pub struct FolderWords<'a> {
    /// The folder, and the names of materials; none: all that the folder has.
    pub words: Vec<&'a str>,
    pub log: Option<&'a str>,
    pub shard: Option<&'a str>,
}

/// Returns what a command line asks to verify: its command is `verify`, and after it come a folder and names, with each option
/// at most once. None for other words.
pub fn verification_of<'a>(
    alloc: Global,
    words: &'a [&'a str],
) -> Result<Option<FolderWords<'a>>, AllocError> {
    let Some(found) = sorted_words(alloc, words, "verify", &["--resume", "--shard"])? else {
        return Ok(None);
    };
    let logs = found.values_of(alloc, "--resume")?;
    let shards = found.values_of(alloc, "--shard")?;
    if found.words.is_empty() || logs.len() > 1 || shards.len() > 1 {
        return Ok(None);
    }
    Ok(Some(FolderWords {
        words: found.words,
        log: logs.first().copied(),
        shard: shards.first().copied(),
    }))
}
