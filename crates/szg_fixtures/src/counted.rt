//! A device that counts its calls.

use std::io::{self, Read, Write};

/// A reader of bytes, or a writer that keeps none. It counts its calls, and the bytes that it moved.
#[derive(Drop)]
pub struct Counted<'a> {
    left: &'a [u8],
    pub calls: u64,
    pub moved: u64,
}

impl<'a> Counted<'a> {
    /// Creates a reader of these bytes, without calls.
    pub fn new(bytes: &'a [u8]) -> Counted<'a> {
        Counted {
            left: bytes,
            calls: 0,
            moved: 0,
        }
    }

    fn count(&mut self, moved: usize) {
        self.calls = self.calls.saturating_add(1);
        self.moved = self.moved.saturating_add(moved as u64);
    }
}

impl<'a> Read for Counted<'a> {
    fn read(&mut self, buf: &mut [u8]) -> io::Result<usize> {
        let size = buf.len().min(self.left.len());
        let (first, rest) = self.left.split_at(size);
        buf[..size].copy_from_slice(first);
        self.left = rest;
        self.count(size);
        Ok(size)
    }
}

impl<'a> Write for Counted<'a> {
    fn write(&mut self, buf: &[u8]) -> io::Result<usize> {
        self.count(buf.len());
        Ok(buf.len())
    }

    fn flush(&mut self) -> io::Result<()> {
        Ok(())
    }
}
