//! Files in memory.
ghost use Rattle.std.specs.Prelude.{◌≡◌, option_map};
ghost use Rattle.szg_files.specs.Memory.{found};

use crate::file_system::{FileFault, FileSystem, Reasons};
use std::io::{Error, ErrorKind};
use szg_io::Bytes;

/// A path, and the bytes of its file.
#[derive(Clone, Copy)]
pub struct MemoryFile<'a> {
    pub path: &'a str,
    pub bytes: &'a [u8],
}

/// Files in memory, by path. Of two files with the same path the first is found.
#[derive(Drop)]
pub struct MemoryFiles<'a> {
    pub files: &'a [MemoryFile<'a>],
    pub failures: u64,
}

impl Reasons for Bytes<'_> {
    fn reason(&self) -> Option<Error> {
        None
    }
}

/// Returns the bytes of the first file with a path.
fn first_of<'a>(files: &[MemoryFile<'a>], path: &str) -> Option<&'a [u8]>
    ensures { option_map (λ bytes. bytes.now) result ≡ found files.now path.now }
{
    'files: for file in files {
        if file.path == path {
            return Some(file.bytes);
        }
    }
    None
}

impl<'a> FileSystem for MemoryFiles<'a> {
    type File = Bytes<'a>;

    ghost content = { λ system. found system.files.now };

    ghost failures = { λ system. system.failures };

    fn open(&mut self, path: &str) -> Result<Bytes<'a>, FileFault> {
        match first_of(self.files, path) {
            Some(bytes) => Ok(Bytes::new(bytes)),
            None => {
                self.failures = self.failures.saturating_add(1);
                Err(FileFault::System(ErrorKind::NotFound.into()))
            }
        }
    }

    fn len(&self, file: &Bytes<'a>) -> Result<u64, FileFault> {
        Ok(file.left().len() as u64)
    }

    fn skip(&self, file: Bytes<'a>, count: u64) -> Result<Bytes<'a>, FileFault> {
        let left = file.left();
        let first = count.min(left.len() as u64) as usize;
        Ok(Bytes::new(&left[first..]))
    }

    fn read_at(&mut self, path: &str, len: u64, at: u64, out: &mut [u8]) -> Result<(), FileFault> {
        let Some(known) = first_of(self.files, path) else {
            return Err(FileFault::System(ErrorKind::NotFound.into()));
        };
        let size = known.len() as u64;
        if size != len || size < at {
            return Err(FileFault::Ended);
        }
        let rest = &known[at as usize..];
        if rest.len() < out.len() {
            return Err(FileFault::Ended);
        }
        out.copy_from_slice(&rest[..out.len()]);
        Ok(())
    }
}
