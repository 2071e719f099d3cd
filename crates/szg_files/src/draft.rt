//! Files that are written completely or not at all: under a temporary name in the same folder, flushed to the disk,
//! then renamed.
//!
//! A draft and a sealed file can't be dropped: the one is sealed or discarded, the other is published. So no path through
//! a program leaves a temporary file, and none renames what wasn't flushed whole. A process that is killed leaves
//! the temporary file, and the target as it was or whole. A process holds the lock of its temporary file until that is renamed,
//! so the next one with the same target finds out that a file is left over, and replaces it.
ghost use Rattle.std.specs.Prelude.{◌≡◌, [], IfOk};
ghost use Rattle.szg_io.specs.Counts.{counts_of};
ghost use Rattle.szg_files.specs.Monitored.{written_of};
ghost use Rattle.szg_files.specs.Draft.{text_of, draft_target, sealed_text, sealed_target, published_text, published_target};

use crate::file_system::FileFault;
use crate::folders::node_of;
use crate::monitored::Monitored;
use std::alloc::{AllocError, Global};
use std::fs::{self, File, FileTimes, Metadata, OpenFile, OpenOptions};
use std::io::{self, BufWriter, Error, ErrorKind, Write};
use std::rt::Files;
use szg_io::{Past, Std};

/// The number of bytes that are written at once.
const BUFFER: usize = 1 << 17;

/// The number of names that are tried for a temporary file.
const NAMES: u32 = 1000;

/// A file that can be locked.
pub trait Lock {
    /// Takes the file's lock, and holds it until the file is closed. Errors: `WouldBlock` if it was opened elsewhere and its lock
    /// is held there, or the system's reason.
    fn try_lock(&self) -> io::Result<()>;
}

impl Lock for File {
    fn try_lock(&self) -> io::Result<()> {
        Ok(File::try_lock(self)?)
    }
}

/// A file that is written through a buffer.
pub type DraftFile<F> = Std<BufWriter<Monitored<F>>>;

/// A temporary file in the folder of its target.
pub struct Draft<'a, R: Files> {
    /// The writer.
    pub file: DraftFile<R::File>,
    renaming: Renaming<'a, R>,
}

/// A temporary file that is complete and flushed to the disk.
pub struct Sealed<'a, R: Files> {
    // it stays open, and so locked
    file: Monitored<R::File>,
    renaming: Renaming<'a, R>,
}

/// The path of a temporary file, and the target that it is to be renamed to.
#[derive(Drop)]
struct Renaming<'a, R: Files> {
    files: &'a R,
    path: String,
    target: &'a str,
}

impl<'a, R: Files> Renaming<'a, R> {
    /// Removes the temporary file.
    fn remove(&self) {
        let _ = self.files.remove_file(self.path.as_str());
    }
}

/// A sealed file was renamed to the target, which has these bytes.
#[derive(Drop)]
pub struct Published<'a> {
    target: &'a str,
    written: Past,
}

/// The most bytes of a target's name that the temporary file's name begins with: a name has at most 255 bytes.
const KEPT: usize = 240;

/// Returns the path of a temporary file of this number beside a target.
fn path_beside(alloc: Global, target: &str, number: u32) -> Result<String, AllocError> {
    let (folder, slash, name) = match target.rsplit_once('/') {
        Some((folder, name)) => (folder, "/", name),
        None => ("", "", target),
    };
    let kept = &name[..name.floor_char_boundary(KEPT)];
    format!(in alloc; "{folder}{slash}{kept}.{number}.new")
}

/// Removes the file at a path if a killed process left it there: a regular file whose lock nobody holds. Returns whether it did.
/// While its lock is held here, no other process renames it.
fn remove_left<R: Files>(files: &R, path: &str) -> io::Result<bool>
where
    R::File: Lock,
{
    if !files.symlink_metadata(path)?.is_file() {
        return Ok(false);
    }
    let file = fs::open(files, path)?;
    file.try_lock()?;
    if node_of(&file.metadata()?) != node_of(&files.symlink_metadata(path)?) {
        return Ok(false);
    }
    files.remove_file(path)?;
    Ok(true)
}

/// Returns whether another file is at an opened file's path now, or none.
fn is_replaced<R: Files>(files: &R, file: &R::File, path: &str) -> bool {
    match (files.symlink_metadata(path), file.metadata()) {
        (Ok(found), Ok(own)) => node_of(&found) != node_of(&own),
        (Err(error), _) => error.kind() == ErrorKind::NotFound,
        _ => false,
    }
}

/// Creates a file at a path where none is, and locks it. None if there is one, or if another process took this one for one that was
/// left: it has locked it first, or removed it before it was locked.
fn create_locked<R: Files>(files: &R, path: &str) -> Result<Option<R::File>, FileFault>
where
    R::File: Lock,
{
    let created = OpenOptions::new()
        .write(true)
        .create_new(true)
        .open(files, path);
    match created {
        Ok(file) => match file.try_lock() {
            Err(error) if error.kind() == ErrorKind::WouldBlock => Ok(None),
            Ok(()) if is_replaced(files, &file, path) => Ok(None),
            // where there are no locks, nobody takes it for one that was left
            _ => Ok(Some(file)),
        },
        Err(error) if error.kind() == ErrorKind::AlreadyExists => Ok(None),
        Err(error) => Err(FileFault::System(error)),
    }
}

/// Creates a file in the target's folder under a name that doesn't exist yet, or that a killed process left.
fn create_beside<R: Files>(
    alloc: Global,
    files: &R,
    target: &str,
) -> Result<(R::File, String), FileFault>
where
    R::File: Lock,
{
    'names: for number in 0..NAMES {
        let path = path_beside(alloc, target, number)?;
        if let Some(file) = create_locked(files, path.as_str())? {
            return Ok((file, path));
        }
        if let Ok(true) = remove_left(files, path.as_str()) {
            if let Some(file) = create_locked(files, path.as_str())? {
                return Ok((file, path));
            }
        }
    }
    Err(FileFault::System(ErrorKind::AlreadyExists.into()))
}

impl<'a, R: Files> Draft<'a, R> {
    /// Creates a temporary file for a target that does not exist or is a regular file. Errors: `NotRegular` if it
    /// is anything else, or the system's reason.
    pub fn create(alloc: Global, files: &'a R, target: &'a str) -> Result<Draft<'a, R>, FileFault>
    where
        R::File: Lock,
        ensures empty { IfOk result (λ draft. text_of draft.file ≡ []) }
        ensures unmoved { IfOk result (λ draft. (counts_of draft.file).moved ≡ []) }
        ensures target { IfOk result (λ draft. draft_target draft ≡ target.now) }
    {
        match files.metadata(target) {
            Ok(metadata) if !metadata.is_file() => return Err(FileFault::NotRegular),
            Ok(_) => {}
            Err(error) if error.kind() == ErrorKind::NotFound => {}
            Err(error) => return Err(FileFault::System(error)),
        }
        let (file, path) = create_beside(alloc, files, target)?;
        let renaming = Renaming {
            files,
            path,
            target,
        };
        let Ok(writer) = BufWriter::with_capacity(alloc, BUFFER, Monitored::new(file)) else {
            renaming.remove();
            return Err(FileFault::Memory);
        };
        let file = Std::new(writer);
        Ok(Draft { file, renaming })
    }

    /// Removes the temporary file.
    pub fn discard(self) {
        let Draft { file, renaming } = self;
        // before its lock is free
        renaming.remove();
        drop(file);
    }

    /// Removes the temporary file; returns the error of the last write that failed. None if no write failed.
    pub fn abandon(self) -> Option<Error> {
        let error = self.file.inner().get_ref().error();
        self.discard();
        error
    }

    /// Gives the file the mode and the time of last change of another one, if there is one, and flushes all bytes to the disk.
    /// Errors: the system's reason; then the temporary file has been removed.
    pub fn seal(self, like: Option<&Metadata>) -> Result<Sealed<'a, R>, FileFault>
        ensures text { IfOk result (λ sealed. sealed_text sealed ≡ text_of self.entry.file) }
        ensures target { IfOk result (λ sealed. sealed_target sealed ≡ draft_target self.entry) }
    {
        let Draft { file, renaming } = self;
        match flushed(file, like) {
            Ok(file) => Ok(Sealed { file, renaming }),
            Err(fault) => {
                renaming.remove();
                Err(fault)
            }
        }
    }
}

/// Writes the buffered bytes, makes the file like another one if there is one, and flushes it to the disk.
fn flushed<F: Write + OpenFile + Drop>(
    file: DraftFile<F>,
    like: Option<&Metadata>,
) -> Result<Monitored<F>, FileFault>
    ensures { IfOk result (λ flushed. written_of flushed ≡ text_of file) }
{
    let monitored = match file.into_inner().into_inner() {
        Ok(monitored) => monitored,
        Err(stopped) => return Err(FileFault::System(stopped.into_error())),
    };
    let file = monitored.inner();
    if let Some(like) = like {
        file.set_permissions(like.permissions())?;
        file.set_times(FileTimes::new().set_modified(like.modified()?))?;
    }
    file.sync_all()?;
    Ok(monitored)
}

impl<'a, R: Files> Sealed<'a, R> {
    /// Returns the temporary file's path.
    pub fn path(&self) -> &str {
        self.renaming.path.as_str()
    }

    /// Removes the temporary file.
    pub fn discard(self) {
        let Sealed { file, renaming } = self;
        // before its lock is free
        renaming.remove();
        drop(file);
    }

    /// Renames the temporary file to the target's name, and so replaces an existing target. Errors: the system's
    /// reason; then the target is unchanged, and the temporary file has been removed.
    pub fn publish(self) -> Result<Published<'a>, FileFault>
        ensures text { IfOk result (λ published. published_text published ≡ sealed_text self.entry) }
        ensures target { IfOk result (λ published. published_target published ≡ sealed_target self.entry) }
    {
        let Sealed { file, renaming } = self;
        if let Err(error) = renaming
            .files
            .rename(renaming.path.as_str(), renaming.target)
        {
            renaming.remove();
            return Err(FileFault::System(error));
        }
        let written = file.into_written();
        let target = renaming.target;
        Ok(Published { target, written })
    }
}
