//! What a check reports on: files at paths, and what is below folders.
ghost use Rattle.std.specs.Prelude.{◌≡◌, ◌++◌, IfOk, OnOk, map};
ghost use Rattle.szg_archive.specs.Shards.{has, shard_of, taken_of};
ghost use Rattle.szg_archive.specs.Verdicts.{AreListed, AreMissing, IsListedAt, file_at, listed_of};

use crate::file_verdict::{FileVerdict, Skip};
use std::alloc::{AllocError, Global};
use std::fs;
use std::io::Read;
use std::path::Path;
use std::rt::Files;
use szg_files::{Below, Finding, files_below};
use szg_named::{FileShard, named_by};
use szg_sums::{Sums, normal};
use szg_values::{Kind, Material};

/// A path, and its verdict if it is known without opening a file.
#[derive(Drop)]
pub struct PathToCheck {
    pub path: String,
    pub note: Option<FileVerdict>,
}

impl PathToCheck {
    ghost use Rattle.std.specs.Prelude.{◌≡◌, IfOk};
    ghost use Rattle.szg_archive.specs.Verdicts.{listed_of};

    /// Creates the entry of a path, and of its verdict if that is known.
    fn new(alloc: Global, path: &str, note: Option<FileVerdict>) -> Result<PathToCheck, AllocError>
        ensures { IfOk result (λ entry. listed_of entry ≡ (path.now, note)) }
    {
        let path = String::from_str(alloc, path)?;
        Ok(PathToCheck { path, note })
    }
}

/// Returns the files at these paths.
#[tactic(auto, using(crate::proofs::Listing::entries_more, crate::proofs::Listing::files_more))]
pub(crate) fn files_at(alloc: Global, paths: &[&str]) -> Result<Vec<PathToCheck>, AllocError>
    ensures { IfOk result (λ entries. map listed_of entries.items ≡ map file_at (map (λ path. path.now) paths.now)) }
{
    let mut entries = Vec::new(alloc);
    'paths: for path in paths {
        entries.push(PathToCheck::new(alloc, path, None)?)?;
    }
    Ok(entries)
}

/// Returns the kind of table whose first four bytes a regular file has. None if it has others, or can't be read.
pub fn kind_at<R: Files>(files: &R, path: &str) -> Option<Kind> {
    if !files.metadata(path).ok()?.is_file() {
        return None;
    }
    let mut bytes = [0; 4];
    match (fs::open(files, path).ok()?.read(&mut bytes), bytes) {
        (Ok(4), [0x71, 0xe8, 0x23, 0x5d]) => Some(Kind::Wdl),
        (Ok(4), [0xd7, 0x66, 0x0c, 0xa5]) => Some(Kind::Dtz),
        _ => None,
    }
}

/// Whether a file looks like a table: by the ending in its name, in any case of letters, by a material that its name begins
/// with, up to its end or a dot, or by its first four bytes.
fn looks_like_table<R: Files>(files: &R, path: &str) -> bool {
    let name = Path::new(path).file_name().unwrap_or("");
    let stem = name.split_once('.').map_or(name, |(stem, _)| stem);
    let has_ending = name.as_bytes().windows(5).any(|window| {
        window.eq_ignore_ascii_case(b".rtbw") || window.eq_ignore_ascii_case(b".rtbz")
    });
    has_ending || Material::parse(stem).is_ok() || kind_at(files, path).is_some()
}

/// Returns what a report has of a path below a folder. None if it isn't a table's file, and doesn't look like one.
fn entry_of<R: Files>(files: &R, below: Below) -> Option<PathToCheck> {
    let Below { path, finding } = below;
    let note = match finding {
        Finding::File if named_by(path.as_str()).is_some() => None,
        Finding::File if looks_like_table(files, path.as_str()) => {
            Some(FileVerdict::Skipped(Skip::Ending))
        }
        Finding::File => return None,
        Finding::Unread(fault) => Some(FileVerdict::Unopened(fault)),
        Finding::NoText => Some(FileVerdict::NoText),
        Finding::Loop => Some(FileVerdict::Skipped(Skip::Loop)),
        Finding::Again => Some(FileVerdict::Skipped(Skip::Again)),
    };
    Some(PathToCheck { path, note })
}

/// Returns the table files below a folder, in the byte order of their paths, and what else a report has to have of it.
fn entries_below<R: Files>(
    alloc: Global,
    files: &R,
    folder: &str,
) -> Result<Vec<PathToCheck>, AllocError> {
    let mut entries = Vec::new(alloc);
    let mut is_empty = true;
    'found: for below in files_below(alloc, files, folder)? {
        if let Some(entry) = entry_of(files, below) {
            is_empty = is_empty && matches!(entry.note, Some(FileVerdict::Skipped(_)));
            entries.push(entry)?;
        }
    }
    if is_empty {
        entries.push(PathToCheck::new(alloc, folder, Some(FileVerdict::Empty))?)?;
    }
    Ok(entries)
}

/// Returns what a report has of a path: the file there, or what is below a folder. A path that ends as a table's file does
/// isn't looked at here.
fn entries_at_path<R: Files>(
    alloc: Global,
    files: &R,
    path: &str,
) -> Result<Vec<PathToCheck>, AllocError>
    ensures { IfOk result (λ entries. IsListedAt path.now (map listed_of entries.items)) }
{
    if named_by(path).is_some() {
        return files_at(alloc, &[path]);
    }
    match files.metadata(path) {
        Ok(found) if found.is_dir() => entries_below(alloc, files, path),
        Ok(_) => files_at(alloc, &[path]),
        Err(error) => {
            let mut entries = Vec::new(alloc);
            let note = Some(FileVerdict::Unopened(error.into()));
            entries.push(PathToCheck::new(alloc, path, note)?)?;
            Ok(entries)
        }
    }
}

/// Returns what a report has of these paths, in their order: of a folder what is below it.
#[tactic(auto, using(crate::proofs::Listing::listed_next))]
pub fn entries_at<R: Files>(
    alloc: Global,
    files: &R,
    paths: &[&str],
) -> Result<Vec<PathToCheck>, AllocError>
    ensures { IfOk result (λ entries. AreListed (map (λ path. path.now) paths.now) (map listed_of entries.items)) }
{
    let mut entries = Vec::new(alloc);
    'paths: for path in paths {
        let mut here = entries_at_path(alloc, files, path)?;
        entries.append(&mut here)?;
    }
    Ok(entries)
}

/// Returns the tables that lists of sums name, and that none of the entries is.
#[tactic(auto, using(crate::proofs::Listing::one_more_missing))]
pub(crate) fn missing(
    alloc: Global,
    sums: Option<&Sums>,
    entries: &[PathToCheck],
) -> Result<Vec<PathToCheck>, AllocError>
    ensures { IfOk result (λ found. AreMissing sums.entry (map listed_of found.items)) }
{
    let mut found = Vec::new(alloc);
    let Some(sums) = sums else {
        return Ok(found);
    };
    let mut paths = Vec::new(alloc);
    'entries: for entry in entries {
        paths.push(normal(alloc, entry.path.as_bytes())?)?;
    }
    'names: for name in sums.unused(alloc, &paths)? {
        // a file whose name isn't UTF-8 is unread
        let Ok(name) = std::str::from_utf8(name) else {
            continue;
        };
        if named_by(name).is_some() {
            found.push(PathToCheck::new(alloc, name, Some(FileVerdict::Missing))?)?;
        }
    }
    Ok(found)
}

/// Returns whether the file after `before` others is one of a shard's. A shard whose count is 0 has none.
fn has(shard: &FileShard, before: u64) -> bool
    ensures { result ≡ has shard.now before }
{
    shard.count > 0 && before % shard.count + 1 == shard.number
}

/// Appends an entry, which has so many before it, if it is a shard's.
#[tactic(auto, using(crate::proofs::Listing::entry_taken, crate::proofs::Listing::entry_passed))]
fn add_in(
    alloc: Global,
    shard: &FileShard,
    before: u64,
    entry: &PathToCheck,
    chosen: &mut Vec<PathToCheck>,
) -> Result<(), AllocError>
    ensures { OnOk result (map listed_of chosen.new.items ≡ map listed_of chosen.old.items ++ taken_of shard.now before (listed_of entry.now)) }
{
    if !has(shard, before) {
        return Ok(());
    }
    let entry = PathToCheck::new(alloc, entry.path.as_str(), entry.note)?;
    Ok(chosen.push(entry)?)
}

/// Returns the entries of a shard, or all if none is given.
pub(crate) fn in_shard(
    alloc: Global,
    given: Option<FileShard>,
    entries: Vec<PathToCheck>,
) -> Result<Vec<PathToCheck>, AllocError>
    ensures { IfOk result (λ chosen. map listed_of chosen.items ≡ shard_of given (map listed_of entries.items)) }
{
    let Some(shard) = given else {
        return Ok(entries);
    };
    let mut chosen = Vec::new(alloc);
    'entries: for (number, entry) in entries.iter().enumerate() {
        add_in(alloc, &shard, number as u64, entry, &mut chosen)?;
    }
    Ok(chosen)
}
