//! Drops the pairs of a dictionary that save too little, from the last to the first.
//!
//! Only the safety of this code is proved: its result is a proposal, and proposals are tested.
use crate::pairing::leaves::{MAX_SYMBOLS, Paired};
use crate::pairing::numbering::{Renumbered, at, counts_of, reordered};
use crate::shrinking::costs::{Totals, saved};
use std::alloc::{AllocError, Global};
use szg_pairs::entry::{is_leaf, left, right};

/// Raises the counts of a pair's left and right symbol by `count`.
fn raise_halves(counts: &mut [u64], entry: [u8; 3], count: u64) {
    for half in [left(entry), right(entry)] {
        if let Some(raised) = counts.get_mut(usize::from(half)) {
            *raised = raised.saturating_add(count);
        }
    }
}

/// Of the pairs that are no half of a kept pair, drops those that do not occur and those for which `saved` returns at
/// most `least`. The counts are then those of a text in which each dropped pair is written as its halves.
pub(crate) fn without_poor(
    alloc: Global,
    paired: &Paired,
    least: u64,
) -> Result<Renumbered, AllocError> {
    let entries = &paired.entries;
    let mut counts = counts_of(alloc, entries.len(), &paired.symbols)?;
    let mut totals = Totals {
        symbols: paired.symbols.len() as u64,
        most: counts.iter().copied().max().unwrap_or(0),
    };
    // how often each symbol is a half of a kept pair: all pairs with it come after it
    let mut uses = vec![in alloc; 0u64; entries.len()]?;
    let mut kept = Vec::new(alloc);
    for place in (0..entries.len()).rev() {
        let entry = entries[place];
        let symbol = place.min(MAX_SYMBOLS) as u16;
        if is_leaf(entry) {
            kept.push(symbol)?;
            continue;
        }
        let count = at(&counts, symbol);
        if at(&uses, symbol) > 0 || saved(&counts, entry, count, totals) > least {
            raise_halves(&mut uses, entry, 1);
            kept.push(symbol)?;
            continue;
        }
        raise_halves(&mut counts, entry, count);
        totals.symbols = totals.symbols.saturating_add(count);
        totals.most = totals
            .most
            .max(at(&counts, left(entry)))
            .max(at(&counts, right(entry)));
    }
    kept.reverse();
    reordered(alloc, paired, &counts, &kept)
}

/// Drops one pair. The counts are then those of a text in which it is written as its halves. None if `symbol` is a
/// leaf, a half of a pair, or not in the dictionary.
pub(crate) fn without_one(
    alloc: Global,
    paired: &Paired,
    symbol: u16,
) -> Result<Option<Renumbered>, AllocError> {
    let place = usize::from(symbol);
    let entries = &paired.entries;
    let is_half = entries.iter().any(|entry| {
        !is_leaf(*entry) && (left(*entry) == symbol || right(*entry) == symbol)
    });
    if is_half || place >= entries.len() || is_leaf(entries[place]) {
        return Ok(None);
    }
    let mut counts = counts_of(alloc, entries.len(), &paired.symbols)?;
    let count = at(&counts, symbol);
    raise_halves(&mut counts, entries[place], count);
    let symbols = 0..entries.len().min(MAX_SYMBOLS) as u16;
    let kept: Vec<u16> = symbols.filter(|kept| *kept != symbol).collect(alloc)?;
    Ok(Some(reordered(alloc, paired, &counts, &kept)?))
}
