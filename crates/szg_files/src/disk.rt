//! The files of the system.
ghost use Rattle.std.specs.Prelude.{◌≡◌, ◌<◌, None, IfOk, length};
ghost use Rattle.szg_files.specs.Disk.{failures_of};

use crate::file_system::{FileFault, FileSystem, Reasons};
use crate::monitored::Monitored;
use std::alloc::{AllocError, Global};
use std::fs::{self, OpenFile};
use std::io::{self, BufReader, Error, ErrorKind, Read, Seek, SeekFrom};
use std::rt::Files;
use szg_io::Std;

/// The number of bytes that are read at once.
const BUFFER: usize = 1 << 16;

/// As many files stay open between the ranges that are read of them.
const MOST_KEPT: usize = 64;

/// The system's numbers of these reasons: the process, or the system, has no room for a further open file.
const PROCESS_IS_FULL: i32 = 24;

const SYSTEM_IS_FULL: i32 = 23;

/// Sees what is read of files.
pub trait ReadWatcher {
    /// A file was opened.
    fn see_open(&self);

    /// So many bytes of it were read.
    fn see_read(&self, bytes: u64);
}

/// Sees nothing.
impl ReadWatcher for () {
    fn see_open(&self) {}

    fn see_read(&self, _bytes: u64) {}
}

/// A file of the system. Nothing is known of its bytes.
#[derive(Drop)]
pub struct SystemFile<'a, F, P> {
    file: F,
    watcher: &'a P,
}

impl<'a, F: Read, P: ReadWatcher> Read for SystemFile<'a, F, P> {
    ghost remaining = { λ _. None };

    fn read(&mut self, buf: &mut [u8]) -> io::Result<usize> {
        let count = self.file.read(buf)?;
        self.watcher.see_read(count as u64);
        Ok(count)
    }
}

impl<'a, F: Seek, P> Seek for SystemFile<'a, F, P> {
    fn seek(&mut self, to: SeekFrom) -> io::Result<u64> {
        self.file.seek(to)
    }
}

/// A file of the system, read through a buffer.
pub type DiskFile<'a, F, P> = Std<BufReader<Monitored<SystemFile<'a, F, P>>>>;

/// A file that stays open, and its path.
#[derive(Drop)]
struct KeptFile<'a, F, P> {
    path: String,
    file: SystemFile<'a, F, P>,
}

/// The files of a system.
#[derive(Drop)]
pub struct Disk<'a, R: Files, P> {
    files: &'a R,
    alloc: Global,
    failures: u64,
    watcher: &'a P,
    kept: Vec<KeptFile<'a, R::File, P>>,
}

impl<'a, R: Files> Disk<'a, R, ()> {
    /// The files that a runtime gives access to. None has been opened.
    pub fn new(alloc: Global, files: &'a R) -> Disk<'a, R, ()>
        ensures { failures_of result ≡ 0 }
    {
        Disk::watched(alloc, files, &())
    }
}

impl<'a, R: Files, P: ReadWatcher> Disk<'a, R, P> {
    /// The same, where a watcher sees what is read.
    pub fn watched(alloc: Global, files: &'a R, watcher: &'a P) -> Disk<'a, R, P>
        ensures { failures_of result ≡ 0 }
    {
        Disk {
            files,
            alloc,
            failures: 0,
            watcher,
            kept: Vec::new(alloc),
        }
    }

    /// Opens a regular file. It checks the path before it opens it, because opening a pipe waits for a writer.
    fn open_regular(&self, path: &str) -> Result<SystemFile<'a, R::File, P>, FileFault> {
        if !self.files.metadata(path)?.is_file() {
            return Err(FileFault::NotRegular);
        }
        let file = fs::open(self.files, path)?;
        if !file.metadata()?.is_file() {
            return Err(FileFault::NotRegular);
        }
        self.watcher.see_open();
        Ok(SystemFile {
            file,
            watcher: self.watcher,
        })
    }

    /// Opens a regular file. If there is no room for a further open file, the kept ones are closed first.
    fn open_with_room(&mut self, path: &str) -> Result<SystemFile<'a, R::File, P>, FileFault>
        ensures { failures_of self.new ≡ failures_of self.old }
    {
        match self.open_regular(path) {
            Err(FileFault::System(error))
                if matches!(error.raw_os_error(), Some(PROCESS_IS_FULL | SYSTEM_IS_FULL)) => {
                self.kept.clear();
                self.open_regular(path)
            }
            opened => opened,
        }
    }

    /// Returns the number of a path's kept file. Opens it if it isn't kept.
    fn kept_at(&mut self, path: &str) -> Result<usize, FileFault>
        ensures quiet { failures_of self.new ≡ failures_of self.old }
        ensures number { IfOk result (λ number. number < length self.new.kept.items) }
    {
        if let Some(number) = self.kept.iter().position(|kept| kept.path.as_str() == path) {
            return Ok(number);
        }
        if self.kept.len() == MOST_KEPT {
            self.kept.clear();
        }
        let file = self.open_with_room(path)?;
        let path = String::from_str(self.alloc, path)?;
        self.kept
            .push(KeptFile { path, file })
            .map_err(AllocError::from)?;
        Ok(self.kept.len() - 1)
    }
}

impl<'a, F: Read + Seek + OpenFile, P: ReadWatcher> SystemFile<'a, F, P> {
    /// Reads a range of the file, which is to have `len` bytes.
    fn read_range(&mut self, len: u64, at: u64, out: &mut [u8]) -> Result<(), FileFault> {
        if self.file.metadata()?.len() != len {
            return Err(FileFault::Ended);
        }
        self.file.seek(SeekFrom::Start(at))?;
        Ok(self.read_exact(out)?)
    }
}

impl From<Error> for FileFault {
    fn from(error: Error) -> FileFault {
        match error.kind() {
            ErrorKind::UnexpectedEof => FileFault::Ended,
            _ => FileFault::System(error),
        }
    }
}

impl From<AllocError> for FileFault {
    fn from(_failed: AllocError) -> FileFault {
        FileFault::Memory
    }
}

impl<T: Read> Reasons for Std<BufReader<Monitored<T>>> {
    fn reason(&self) -> Option<Error> {
        self.inner().get_ref().error()
    }
}

impl<'a, R: Files, P: ReadWatcher> FileSystem for Disk<'a, R, P> {
    type File = DiskFile<'a, R::File, P>;

    ghost content = { λ _ _. None };

    ghost failures = { λ disk. disk.failures };

    fn open(&mut self, path: &str) -> Result<DiskFile<'a, R::File, P>, FileFault> {
        // later ranges are of the file that is there now
        self.kept.retain(|kept| kept.path.as_str() != path);
        let opened = match self.open_with_room(path) {
            Ok(file) => match BufReader::with_capacity(self.alloc, BUFFER, Monitored::new(file)) {
                Ok(reader) => Ok(Std::new(reader)),
                Err(_) => Err(FileFault::Memory),
            },
            Err(fault) => Err(fault),
        };
        if opened.is_err() {
            self.failures = self.failures.saturating_add(1);
        }
        opened
    }

    fn len(&self, file: &DiskFile<'a, R::File, P>) -> Result<u64, FileFault> {
        Ok(file.inner().get_ref().inner().file.metadata()?.len())
    }

    fn skip(
        &self,
        file: DiskFile<'a, R::File, P>,
        count: u64,
    ) -> Result<DiskFile<'a, R::File, P>, FileFault> {
        let Ok(offset) = i64::try_from(count) else {
            return Err(FileFault::System(ErrorKind::InvalidInput.into()));
        };
        let mut reader = file.into_inner();
        reader.seek_relative(offset)?;
        Ok(Std::new(reader))
    }

    fn read_at(&mut self, path: &str, len: u64, at: u64, out: &mut [u8]) -> Result<(), FileFault> {
        let number = self.kept_at(path)?;
        let read = self.kept[number].file.read_range(len, at, out);
        if read.is_err() {
            self.kept.swap_remove(number);
        }
        read
    }
}
