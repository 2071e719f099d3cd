//! Copies of tables into a folder: `szg copy [--sums LIST].. FILE.. FOLDER`.
ghost use Rattle.std.specs.Prelude.{◌≡◌, ℕ, List, IfOk, IfSome};
ghost use Rattle.sha2.specs.Sha256.{sha256};
ghost use Rattle.szg_files.specs.Draft.{draft_target, published_target, published_text, text_of};
ghost use Rattle.szg_io.specs.Moved.{Gives};
ghost use Rattle.szg_answers.specs.Copies.{IsCopied};

use crate::commands::words_outcome;
use crate::on_files::{Ending, FileFailure, LineKind, failed_ending, given, unread_list};
use sha2::{Digest, Sha256};
use std::alloc::{AllocError, Global};
use std::fs::Metadata;
use std::io::ErrorKind;
use std::path::Path;
use std::rt::Files;
use szg_archive::{
    CheckCounts, CheckOptions, CheckReport, Due, FileVerdict, check_path, due_of, read_lists,
    summary_line, verdict_line,
};
use szg_files::{Draft, FileFault, FileSystem, Lock, Published, Reasons};
use szg_io::{Input, IoFault, Output, give_whole, take_whole};
use szg_sums::Sums;
use szg_words::{CopyWords, same_name_error};

/// A file that was checked.
#[derive(Drop)]
pub struct Copied<'a> {
    /// The path that the verdict is of: the file's, or that of a copy that could not be written.
    path: &'a str,
    verdict: FileVerdict,
    /// Its copy, if it passed.
    copy: Option<Published<'a>>,
}

/// Copies what an input has left to an output, and returns its SHA-256 digest. None if the output failed. Errors: the input
/// failed.
fn copy_bytes<I: Input, W: Output>(
    input: &mut I,
    output: &mut W,
) -> Result<Option<[u8; 32]>, IoFault>
    ensures { IfOk result (λ copied. IfSome copied (λ digest. (text : List ℕ) × Gives W.Output output.old output.new text 0 × (digest ≡ sha256 text))) }
{
    let mut hasher = Sha256::new();
    let mut chunk = [0; 16384];
    'chunks: for _ in 0..u64::MAX {
        let count = take_whole(input, &mut chunk)?;
        let bytes = &chunk[..count];
        hasher.update(bytes);
        if give_whole(output, bytes).is_err() {
            return Ok(None);
        }
        if count < chunk.len() {
            return Ok(Some(hasher.finalize()));
        }
    }
    Err(IoFault::Failed)
}

/// Copies the file at `path`, which was checked and has this digest, to `target`: with its mode and time of last change,
/// whole or not at all.
///
/// Errors: the file or the target fails, or the file has changed and has another digest.
fn copy_checked<'a, S: FileSystem, R: Files>(
    alloc: Global,
    system: &mut S,
    files: &'a R,
    path: &'a str,
    digest: &[u8; 32],
    target: &'a str,
) -> Result<Published<'a>, FileFailure<'a>>
where
    R::File: Lock,
    ensures digest { IfOk result (λ copy. sha256 (published_text copy) ≡ digest.now) }
    ensures target { IfOk result (λ copy. published_target copy ≡ target.now) }
{
    let like = files.metadata(path).map_err(|error| FileFailure {
        path,
        fault: error.into(),
    })?;
    let mut file = system
        .open(path)
        .map_err(|fault| FileFailure { path, fault })?;
    let mut draft = Draft::create(alloc, files, target).map_err(|fault| FileFailure {
        path: target,
        fault,
    })?;
    let (path, fault) = match copy_bytes(&mut file, &mut draft.file) {
        Ok(Some(found)) if found == *digest => match published_like(draft, &like) {
            Ok(copy) => return Ok(copy),
            Err(fault) => (target, fault),
        },
        Ok(Some(_)) => {
            draft.discard();
            (path, FileFault::System(ErrorKind::InvalidData.into()))
        }
        Ok(None) => (target, FileFault::of(draft.abandon())),
        Err(_) => {
            draft.discard();
            (path, FileFault::of(file.reason()))
        }
    };
    Err(FileFailure { path, fault })
}

/// Makes a draft like another file, flushes it to the disk, and renames it over its target.
fn published_like<'a, R: Files>(
    draft: Draft<'a, R>,
    like: &Metadata,
) -> Result<Published<'a>, FileFault>
    ensures text { IfOk result (λ copy. published_text copy ≡ text_of draft.entry.file) }
    ensures target { IfOk result (λ copy. published_target copy ≡ draft_target draft.entry) }
{
    draft.seal(Some(like))?.publish()
}

/// Checks the file at a path and its digest, and copies it to `target` if it passes.
fn copy_file<'a, S: FileSystem, R: Files>(
    alloc: Global,
    system: &mut S,
    files: &'a R,
    path: &'a str,
    due: Due,
    target: &'a str,
) -> Result<Copied<'a>, AllocError>
where
    R::File: Lock,
    ensures copied { IfOk result (λ copied. IsCopied S.content S.failures S.File.Input due path.now target.now system.old copied) }
{
    let naming = CheckOptions::plain().naming;
    let found = check_path(alloc, system, naming, path, due, true)?;
    let (FileVerdict::Whole(_), Some(digest)) = (found.verdict, found.digest) else {
        return Ok(Copied {
            path,
            verdict: found.verdict,
            copy: None,
        });
    };
    match copy_checked(alloc, system, files, path, &digest, target) {
        Ok(copy) => Ok(Copied {
            path,
            verdict: found.verdict,
            copy: Some(copy),
        }),
        Err(
            FileFailure {
                fault: FileFault::Memory,
                ..
            },
        ) => Err(AllocError),
        Err(FileFailure { path, fault }) => Ok(Copied {
            path,
            verdict: FileVerdict::Unopened(fault),
            copy: None,
        }),
    }
}

/// Copies files into a folder; writes a line of each, and a summary.
///
/// None if the writer failed. Errors: an allocation was refused.
fn copy_files<S: FileSystem, R: Files, W: Output>(
    alloc: Global,
    system: &mut S,
    files: &R,
    sums: Option<&Sums>,
    paths: &[&str],
    folder: &str,
    writer: &mut W,
) -> Result<Option<CheckReport>, AllocError>
where
    R::File: Lock,
{
    let mut counts = CheckCounts {
        good: 0,
        refused: 0,
        unread: 0,
        kept: 0,
        skipped: 0,
    };
    'paths: for path in paths {
        let due = due_of(alloc, sums, path)?;
        let name = Path::new(path).file_name().unwrap_or("");
        let target = format!(in alloc; "{folder}/{name}")?;
        let copied = copy_file(alloc, system, files, path, due, target.as_str())?;
        let line = verdict_line(alloc, copied.path, &copied.verdict, false)?;
        if give_whole(writer, &line).is_err() {
            return Ok(None);
        }
        counts = counts.with(&copied.verdict, false);
    }
    let end = summary_line(alloc, &counts)?;
    if give_whole(writer, end.as_bytes()).is_err() {
        return Ok(None);
    }
    Ok(Some(CheckReport {
        counts,
        manifest: Vec::new(alloc),
    }))
}

/// Copies what a command line asks for: each table that passes its check, and the comparison with lists of sums if there are
/// any, goes into the folder.
pub fn run_copies<'a, S: FileSystem, R: Files, W: Output>(
    alloc: Global,
    system: &mut S,
    files: &R,
    asked: &CopyWords<'a>,
    writer: &mut W,
) -> Ending<'a>
where
    R::File: Lock,
{
    let folder: &'a str = asked.folder;
    let paths = asked.files.as_slice();
    match files.metadata(folder) {
        Ok(found) if found.is_dir() => {}
        Ok(_) => return failed_ending(folder, FileFault::System(ErrorKind::NotADirectory.into())),
        Err(error) => return failed_ending(folder, error.into()),
    }
    match same_name_error(alloc, paths) {
        Ok(None) => {}
        Ok(Some(error)) => return Ending::Words(words_outcome(error)),
        Err(_) => return Ending::Memory,
    }
    let mut sums = Sums::new(alloc);
    if let Err(failure) = read_lists(alloc, files, &asked.lists, &mut sums) {
        return unread_list(failure, LineKind::Sum);
    }
    let sums = given(&asked.lists, &sums);
    Ending::Checked(copy_files(alloc, system, files, sums, paths, folder, writer))
}
