//! A reader or writer of std that keeps its last error and the bytes that were written through it.
ghost use Rattle.std.specs.Prelude.{◌≡◌, [], None, Some};
ghost use Rattle.szg_files.specs.Monitored.{inner_of, written_of};

use std::io::{self, Error, Read, Seek, SeekFrom, Write};
use szg_io::Past;

/// A reader or writer of std, its last error, and, for proofs alone, the bytes that it accepted.
#[derive(Drop)]
pub struct Monitored<T> {
    inner: T,
    written: Past,
    error: Option<Error>,
}

impl<T> Monitored<T> {
    /// Wraps a reader or writer before its first call.
    pub fn new(inner: T) -> Monitored<T>
        ensures inner { inner_of result ≡ inner }
        ensures written { written_of result ≡ [] }
    {
        Monitored {
            inner,
            written: Past::new(),
            error: None,
        }
    }

    /// Returns the error of the last call that failed. None if no call failed.
    pub fn error(&self) -> Option<Error> {
        self.error
    }

    /// Returns the wrapped reader or writer.
    pub fn inner(&self) -> &T
        ensures { result.now ≡ inner_of self.now }
    {
        &self.inner
    }

    /// Returns the bytes that it accepted, for proofs alone.
    pub fn into_written(self) -> Past
    where
        T: Drop,
        ensures { result.bytes ≡ written_of self }
    {
        self.written
    }
}

impl<T: Read> Read for Monitored<T> {
    ghost remaining = { λ s. T.remaining s.inner };

    fn read(&mut self, buf: &mut [u8]) -> io::Result<usize> {
        self.inner
            .read(buf)
            .inspect_err(|error| self.error = Some(*error))
    }
}

impl<T: Seek> Seek for Monitored<T> {
    fn seek(&mut self, to: SeekFrom) -> io::Result<u64> {
        self.inner
            .seek(to)
            .inspect_err(|error| self.error = Some(*error))
    }
}

impl<T: Write> Write for Monitored<T> {
    ghost contents = { λ s. Some s.written.bytes };

    fn write(&mut self, buf: &[u8]) -> io::Result<usize> {
        let count = self
            .inner
            .write(buf)
            .inspect_err(|error| self.error = Some(*error))?;
        self.written = self.written.append(&buf, &count);
        Ok(count)
    }

    fn flush(&mut self) -> io::Result<()> {
        self.inner
            .flush()
            .inspect_err(|error| self.error = Some(*error))
    }
}
