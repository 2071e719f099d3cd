//! Proposes pairs.
//!
//! While the most frequent pair makes up much of the text, it is replaced in one pass over the whole text, and all pairs are
//! counted anew. Otherwise the offsets of the frequent pairs are listed, and the time of a round is proportional to what it
//! replaces. All pairs are counted and listed anew when half of the text's symbols are gone, unless there are more pairs to count
//! than symbols left. They are also counted and listed anew when no listed pair is left. The bounds for the pairs that get lists
//! then double, so this happens a bounded number of times. The whole takes time linear in the length of the text.
use crate::pairing::cells::{Cells, length_in};
use crate::pairing::leaves::{MAX_SYMBOLS, Paired, entry};
use crate::pairing::occurrences::Occurrences;
use crate::pairing::tally::PairTally;
use crate::pairing::{LEAST_COUNT, MAX_VALUES, Pair};
use crate::watching::Watcher;
use std::alloc::{AllocError, Global};

/// The cost of a pass over the whole text is the number of the text's symbols plus the number of pairs that are
/// counted. A pair is replaced in such a pass if its count is at least this cost divided by `DENSE_PART`, rounded down.
const DENSE_PART: u64 = 16;

/// The number of pairs that get lists, for each round that is left. It is multiplied by `Making::more`, which doubles
/// when no listed pair is left.
const LISTED_PAIRS: u64 = 2;

/// The sum of the counts of the pairs that get lists, in percent of the number of the text's symbols. It is multiplied
/// by `Making::more`, too. The most frequent pairs get lists, until one of the two bounds is reached.
const LISTED_PERCENT: u64 = 40;

/// A dictionary and a text, while pairs are made.
#[derive(Drop)]
struct Making {
    entries: Vec<[u8; 3]>,
    /// Between two rounds each symbol has one cell, unless pairs have lists.
    text: Cells,
    /// The number of rounds made, and the greatest number of them.
    done: u32,
    rounds: u32,
    /// The factor by which `LISTED_PAIRS` and `LISTED_PERCENT` are multiplied. It doubles when no listed pair is left.
    more: u64,
}

impl Making {
    /// Adds a pair to the dictionary as the next symbol, and returns this symbol. None if no more pairs may be made, or
    /// if a symbol of the pair is not in the dictionary. The symbol gets at most `MAX_VALUES` cells and values.
    fn add(&mut self, pair: Pair) -> Result<Option<u16>, AllocError> {
        let new = self.entries.len();
        let is_over = self.done >= self.rounds || new >= MAX_SYMBOLS;
        if is_over || usize::from(pair.left) >= new || usize::from(pair.right) >= new {
            return Ok(None);
        }
        let Cells { lens, values, .. } = &mut self.text;
        let cells = length_in(lens, pair.left) + length_in(lens, pair.right);
        let length = length_in(values, pair.left) + length_in(values, pair.right);
        let most = MAX_VALUES as usize;
        lens.push(cells.min(most) as u16)?;
        values.push(length.min(most) as u16)?;
        self.entries.push(entry(pair.left, pair.right))?;
        self.done = self.done.saturating_add(1);
        Ok(Some(new as u16))
    }

    /// Returns how often a pair must occur to get a list. If the text has fewer symbols than there can be pairs, this
    /// is `LEAST_COUNT`: each pair that may be made and occurs that often gets a list. All symbols, also those to come,
    /// are below `width`.
    fn least_count(&self, tally: &PairTally, most: u32, width: u16) -> u32 {
        let symbols = self.text.cells.len() as u64;
        if u64::from(width) * u64::from(width) > symbols {
            return LEAST_COUNT;
        }
        let rounds = u64::from(self.rounds.saturating_sub(self.done));
        let pairs = rounds.saturating_mul(self.more.saturating_mul(LISTED_PAIRS));
        let percent = self.more.saturating_mul(LISTED_PERCENT);
        let times = symbols.saturating_mul(percent) / 100;
        tally.least_count(&self.text, most, pairs, times)
    }

    /// Counts all pairs. If the most frequent one is frequent enough (`DENSE_PART`), makes this pair in one pass over
    /// the whole text; otherwise makes pairs by their lists. Returns whether there may be more pairs to make.
    fn make_some<V: Watcher>(
        &mut self,
        alloc: Global,
        watcher: &mut V,
    ) -> Result<bool, AllocError> {
        if self.done >= self.rounds || self.entries.len() >= MAX_SYMBOLS {
            return Ok(false);
        }
        watcher.round(self.done, self.rounds);
        let tally = PairTally::new(alloc, &self.text)?;
        let Some((pair, count)) = tally.most_frequent(&self.text) else {
            return Ok(false);
        };
        let pairs = (self.entries.len() as u64).saturating_pow(2);
        let pass = (self.text.cells.len() as u64).saturating_add(pairs);
        if u64::from(count) < pass / DENSE_PART {
            return self.make_listed(alloc, tally, count, watcher);
        }
        let Some(new) = self.add(pair)? else {
            return Ok(false);
        };
        self.text.join(pair, new);
        Ok(true)
    }

    /// Makes pairs by their lists. Stops when no listed pair is left, or when half of the text's symbols are gone and
    /// at least as many symbols are left as there are pairs to count. Returns whether there may be more pairs to make.
    fn make_listed<V: Watcher>(
        &mut self,
        alloc: Global,
        tally: PairTally,
        most: u32,
        watcher: &mut V,
    ) -> Result<bool, AllocError> {
        let mut symbols = self.text.cells.len();
        // each round makes the text at least `LEAST_COUNT` symbols shorter
        let rounds = self.rounds.saturating_sub(self.done) as usize;
        let to_come = rounds.min(symbols / LEAST_COUNT as usize);
        let width = self.entries.len().saturating_add(to_come).min(MAX_SYMBOLS) as u16;
        let least = self.least_count(&tally, most, width);
        let mut occurrences = Occurrences::new(alloc, &self.text, tally, least, width)?;
        let mut is_more = true;
        for _ in self.done..self.rounds {
            watcher.round(self.done, self.rounds);
            let Some(picked) = occurrences.pick()? else {
                is_more = least > LEAST_COUNT;
                self.more = self.more.saturating_mul(2);
                break;
            };
            let Some(new) = self.add(picked.pair.0)? else {
                is_more = false;
                break;
            };
            let made = occurrences.make(&mut self.text, picked, new)?;
            symbols = symbols.saturating_sub(made);
            let is_halved = symbols <= self.text.cells.len() / 2;
            if is_halved && self.entries.len().saturating_pow(2) <= symbols {
                break;
            }
        }
        self.text.close_up();
        Ok(is_more)
    }
}

/// Makes pairs of the most frequent neighbours of a text, at most `rounds` of them. Each occurs at least four times.
/// The text's symbols may be pairs themselves.
pub(crate) fn with_pairs<V: Watcher>(
    alloc: Global,
    begun: Paired,
    rounds: u32,
    watcher: &mut V,
) -> Result<Paired, AllocError> {
    let mut making = Making {
        entries: begun.entries,
        text: Cells {
            cells: begun.symbols,
            lens: vec![in alloc; 1; begun.lens.len()]?,
            values: begun.lens,
        },
        done: 0,
        rounds,
        more: 1,
    };
    for _ in 0..rounds {
        if !making.make_some(alloc, watcher)? {
            break;
        }
    }
    Ok(Paired {
        entries: making.entries,
        lens: making.text.values,
        symbols: making.text.cells,
    })
}
