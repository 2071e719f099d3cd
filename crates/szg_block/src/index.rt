//! The sparse index and the block lengths of a subtable, wherever they are.

ghost use Rattle.std.specs.Prelude.{ℕ, ◌≡◌, ◌<◌, ◌^◌, List, IfSome, map, option_map, slice_get};
ghost use Rattle.szg_block.specs.Indexed.{entry_of};
ghost use Rattle.szg_block.specs.Layout.{SparseEntry};

use crate::Entry;

/// The sparse index and the block lengths of a subtable. They may be read where they stand in a file that is mapped, and
/// that changes: so each call says whether there is such an item, and nothing relies on what the items are.
pub trait BlockIndex {
    // the entries of the sparse index
    ghost sparse: { Self → List SparseEntry };

    // the block lengths: the number of values of each block, less one
    ghost lengths: { Self → List ℕ };

    /// Returns entry `n` of the sparse index. None if there is none.
    fn entry(&self, n: usize) -> Option<Entry>
        ensures { option_map entry_of result ≡ slice_get (sparse self.now) n };

    /// Returns the length of block `n`. None if there is none.
    fn length(&self, n: usize) -> Option<u16>
        ensures length { result ≡ slice_get (lengths self.now) n }
        ensures few { IfSome result (λ length. n < 2 ^ 62) };
}

/// A sparse index and block lengths in lists.
#[derive(Clone, Copy)]
pub(crate) struct IndexLists<'a> {
    pub sparse: &'a [Entry],
    pub lengths: &'a [u16],
}

impl<'a> BlockIndex for IndexLists<'a> {
    ghost sparse = { λ x. map entry_of x.sparse.now };

    ghost lengths = { λ x. x.lengths.now };

    #[inline(always)]
    fn entry(&self, n: usize) -> Option<Entry> {
        self.sparse.get(n).copied()
    }

    #[inline(always)]
    fn length(&self, n: usize) -> Option<u16> {
        self.lengths.get(n).copied()
    }
}
