//! Progress reports of a build.

/// Watches a build. The methods are called in the order of the work, and no call affects the table.
pub trait Watcher {
    /// Subtable `number` of `count` is begun, counted from 1 in file order. It has `values` values.
    fn subtable(&mut self, number: usize, count: usize, values: usize) {}

    /// `done` of at most `rounds` rounds were made in this subtable. A round makes one pair.
    fn round(&mut self, done: u32, rounds: u32) {}

    /// `done` choices of pairs were tried for this subtable of a small table. `bytes` is None before the first try.
    /// Later it is approximately the number of bytes that the subtable takes with the best choice so far. If it is
    /// known that no other subtable has blocks, it is that of the whole file.
    fn attempt(&mut self, done: u64, bytes: Option<u64>) {}

    /// The build ended, with a table or with an error.
    fn end(&mut self) {}
}

/// A watcher that ignores all calls.
#[derive(Clone, Copy)]
pub struct Unwatched;

impl Watcher for Unwatched {}
