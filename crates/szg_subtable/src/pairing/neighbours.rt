//! The symbols on one side of the symbol that is being made: how often each occurs there, and where the offsets of its
//! pairs with the new symbol go.
//!
//! Only the safety of this code is proved.
use crate::pairing::Pair;
use std::alloc::{AllocError, Global};
use std::mem;

/// For each symbol, how often it is on this side of the new symbol.
#[derive(Drop)]
pub(crate) struct Neighbours {
    sizes: Vec<u32>,
    /// The first `seen` items are the symbols that are on this side at least once: those whose number in `sizes` is not
    /// 0.
    symbols: Vec<u16>,
    pub seen: usize,
    /// For each symbol, where in the lists the next offset of its pair with the new symbol goes. `usize::MAX` if the
    /// pair has no list.
    pub ends: Vec<usize>,
}

/// Appends an offset to the list of the symbol's pair with the new symbol, if the pair has one.
#[inline(always)]
pub(crate) fn put(ends: &mut [usize], lists: &mut [u32], symbol: u16, offset: u32) {
    let symbol = usize::from(symbol);
    if symbol < ends.len() {
        let end = ends[symbol];
        if end < lists.len() {
            lists[end] = offset;
            ends[symbol] = end + 1;
        }
    }
}

impl Neighbours {
    /// Creates the counts for symbols below `width`.
    pub(crate) fn new(alloc: Global, width: u16) -> Result<Neighbours, AllocError> {
        Ok(Neighbours {
            sizes: vec![in alloc; 0; usize::from(width)]?,
            symbols: vec![in alloc; 0; usize::from(width)]?,
            seen: 0,
            ends: vec![in alloc; usize::MAX; usize::from(width)]?,
        })
    }

    /// Counts the left symbols of `sides`, or the right ones. All sizes are 0 before.
    pub(crate) fn count(&mut self, sides: &[Pair], is_left: bool) {
        let sizes = self.sizes.as_mut_slice();
        let symbols = self.symbols.as_mut_slice();
        let mut seen = 0usize;
        for side in sides {
            let symbol = if is_left { side.left } else { side.right };
            if let Some(size) = sizes.get_mut(usize::from(symbol)) {
                if *size == 0 && seen < symbols.len() {
                    symbols[seen] = symbol;
                    seen += 1;
                }
                *size = size.wrapping_add(1);
            }
        }
        self.seen = seen;
    }

    /// Returns the symbol at `place` of those seen with its size, which becomes 0.
    pub(crate) fn take(&mut self, place: usize) -> (u16, u32) {
        let symbol = self.symbols.get(place).copied().unwrap_or(0);
        let size = self.sizes.get_mut(usize::from(symbol));
        (symbol, size.map_or(0, mem::take))
    }

    /// Sets where the offsets of the symbol's pair with the new symbol go; None if the pair has no list.
    pub(crate) fn begin(&mut self, symbol: u16, end: Option<usize>) {
        if let Some(next) = self.ends.get_mut(usize::from(symbol)) {
            *next = end.unwrap_or(usize::MAX);
        }
    }
}
