//! Where pairs occur in a text, and how often, while pairs become symbols: the counts, lists and queue of Re-Pair
//! (Larsson and Moffat, "Off-line dictionary-based compression").
//!
//! Only the safety of this code is proved: it only proposes which pairs to make, and the proposal is tested.
ghost use Rattle.std.specs.Prelude.{◌≤◌, length};

use crate::pairing::cells::{Cells, INSIDE, LAST, is_even_run, length_in};
use crate::pairing::neighbours::{Neighbours, put};
use crate::pairing::tally::PairTally;
use crate::pairing::{LEAST_COUNT, Pair};
use std::alloc::{AllocError, Global};
use std::cmp::Reverse;
use std::collections::{BinaryHeap, HashMap};

/// No symbol: there is none on this side.
const FREE: u16 = u16::MAX;

/// A pair that may be made, and its offsets; at some of them the pair may be gone, since its symbols were replaced. The greatest
/// candidate has the greatest count; of equal counts it has the least left symbol, and of these the least right symbol.
#[derive(Clone, Copy, PartialEq, Eq, PartialOrd, Ord)]
pub(crate) struct Candidate {
    /// The pair's count when it was last looked up. Since then it can only have fallen.
    count: u32,
    pub pair: Reverse<Pair>,
    /// Where the pair's offsets are in the lists.
    begin: usize,
    end: usize,
}

/// What was found while a pair was replaced by a new symbol.
#[derive(Clone, Copy, Default)]
struct Joined {
    /// How often the new symbol was made. Its offsets are the first ones of the pair's list.
    made: usize,
    /// How often a new symbol directly follows a new symbol.
    adjacent: u32,
    /// How often the new symbol makes a pair with itself, without overlap.
    doubled: u32,
    /// By how much the counts of (left, left) and of (right, right) fell.
    less_left: u32,
    less_right: u32,
}

/// Replaces a pair by the symbol `new` at each offset of `list` where it still is. The offsets where it was replaced become the
/// first ones of the list, and `all_sides` begins with the symbols left and right of the new symbols (`FREE` if there is none).
///
/// A run of n equal symbols has n / 2 pairs, rounded down. So the count of (left, left) falls by one if the run of left symbols
/// that ends with the replaced one has an even length. The count of (right, right) falls by one if the run of right symbols that
/// begins with the replaced one has an even length. Where the pair's symbols are equal, neither is counted.
fn join_all(
    list: &mut [u32],
    all_sides: &mut [Pair],
    text: &mut Cells,
    pair: Pair,
    new: u16,
) -> Joined {
    let cells = text.cells.as_mut_slice();
    let left = length_in(&text.lens, pair.left);
    let right = length_in(&text.lens, pair.right);
    let is_mixed = pair.left != pair.right;
    let mut joined = Joined::default();
    let mut is_doubled = false;
    for place in 0..list.len() {
        let offset = list[place];
        let at = offset as usize;
        let (middle, end) = (at + left, at + left + right);
        if end <= cells.len() && cells[at] == pair.left && cells[middle] == pair.right {
            let before = if at > 0 { cells[at - 1] % LAST } else { FREE };
            let after = if end < cells.len() { cells[end] } else { FREE };
            let back = left.wrapping_neg();
            if is_mixed && before == pair.left && is_even_run(cells, middle - 1, before, back) {
                joined.less_left = joined.less_left.wrapping_add(1);
            }
            if is_mixed && after == pair.right && is_even_run(cells, middle, after, right) {
                joined.less_right = joined.less_right.wrapping_add(1);
            }
            cells[middle] = INSIDE;
            cells[end - 1] = new | LAST;
            cells[at] = new;
            if joined.made < list.len() && joined.made < all_sides.len() {
                list[joined.made] = offset;
                all_sides[joined.made] = Pair::of(before, after);
                is_doubled = before == new && !is_doubled;
                if before == new && joined.made > 0 {
                    all_sides[joined.made - 1].right = new;
                    joined.adjacent = joined.adjacent.wrapping_add(1);
                    joined.doubled = joined.doubled.wrapping_add(u32::from(is_doubled));
                }
                joined.made += 1;
            }
        }
    }
    joined
}

/// The counts and the listed offsets of a text's frequent pairs.
#[derive(Drop)]
pub(crate) struct Occurrences {
    /// The counts of the pairs that have lists.
    counts: HashMap<Pair, u32>,
    /// For each pair that has a list, its offsets in ascending order, one list after another. The first number is in no
    /// list: the offsets of pairs without a list are written there.
    lists: Vec<u32>,
    /// The symbols left and right of the occurrences of the pair that is being replaced.
    sides: Vec<Pair>,
    queue: BinaryHeap<Candidate>,
    /// For each symbol, how often it is just before and just after the new symbol, and where the offsets of these pairs go.
    before: Neighbours,
    following: Neighbours,
    /// A pair that occurs less often than this has no list.
    least: u32,
}

impl Occurrences {
    /// Lists the pairs that `tally` counted in a text, that occur `least` times or more and that may be made. Each
    /// symbol of the text has one cell. All symbols, also those to come, are below `width`.
    pub(crate) fn new(
        alloc: Global,
        text: &Cells,
        mut tally: PairTally,
        least: u32,
        width: u16,
    ) -> Result<Occurrences, AllocError> {
        let room = text.cells.len().saturating_mul(3).saturating_add(1);
        let mut occurrences = Occurrences {
            counts: HashMap::new(alloc),
            lists: Vec::with_capacity(alloc, room)?,
            sides: Vec::new(alloc),
            queue: BinaryHeap::new(alloc),
            before: Neighbours::new(alloc, width)?,
            following: Neighbours::new(alloc, width)?,
            least: least.max(LEAST_COUNT),
        };
        occurrences.lists.push(0)?;
        for left in 0..tally.symbols {
            for right in 0..tally.symbols {
                let pair = Pair { left, right };
                let (size, count) = tally.sizes_of(pair);
                let begin = occurrences.add(text, pair, count, size)?;
                tally.begin(pair, begin.unwrap_or(0));
            }
        }
        tally.fill(&text.cells, &mut occurrences.lists);
        Ok(occurrences)
    }

    /// Adds a pair, with room for `size` offsets, and returns where these go in the lists. None if the pair is not added
    /// since it occurs too rarely or has too many values.
    fn add(
        &mut self,
        text: &Cells,
        pair: Pair,
        count: u32,
        size: u32,
    ) -> Result<Option<usize>, AllocError> {
        if count < self.least || !text.is_short(pair) {
            return Ok(None);
        }
        let begin = self.lists.len();
        let end = begin.saturating_add(size as usize);
        self.lists.resize(end, 0)?;
        self.counts.insert(pair, count)?;
        self.queue.push(Candidate {
            count,
            pair: Reverse(pair),
            begin,
            end,
        })?;
        Ok(Some(begin))
    }

    /// Lowers the count of a pair, if it has a list.
    fn lower(&mut self, pair: Pair, by: u32) {
        if let Some(count) = self.counts.get_mut(&pair) {
            *count = count.saturating_sub(by);
        }
    }

    /// Returns the pair with the greatest count; of equal counts the one with the least left symbol, and of these
    /// the one with the least right symbol. None if no pair occurs often enough to have a list.
    pub(crate) fn pick(&mut self) -> Result<Option<Candidate>, AllocError> {
        for _ in 0..u64::MAX {
            let Some(candidate) = self.queue.pop() else {
                return Ok(None);
            };
            let count = self.counts.get(&candidate.pair.0).copied().unwrap_or(0);
            if count == candidate.count {
                return Ok(Some(candidate));
            }
            if count >= self.least {
                self.queue.push(Candidate { count, ..candidate })?;
            }
        }
        Ok(None)
    }

    /// Replaces a picked pair by the symbol `new` wherever it occurs in the text. Returns how often it occurred.
    pub(crate) fn make(
        &mut self,
        text: &mut Cells,
        picked: Candidate,
        new: u16,
    ) -> Result<usize, AllocError> {
        let pair = picked.pair.0;
        let listed = self.lists.len();
        let end = picked.end.min(listed);
        let begin = picked.begin.min(end);
        let list = &mut self.lists[begin..end];
        if self.sides.len() < list.len() {
            self.sides.resize(list.len(), Pair::of(FREE, FREE))?;
        }
        let joined = join_all(list, &mut self.sides, text, pair, new);
        let sides = &self.sides[..joined.made.min(self.sides.len())];
        self.before.count(sides, true);
        self.following.count(sides, false);
        self.lower(Pair::of(pair.left, pair.left), joined.less_left);
        self.lower(Pair::of(pair.right, pair.right), joined.less_right);
        self.lower(Pair::of(pair.right, pair.left), joined.adjacent);
        self.lower(pair, u32::MAX);
        self.list_sides(text, pair, new)?;
        let own = self.add(text, Pair::of(new, new), joined.doubled, joined.adjacent)?;
        self.following.begin(new, own);
        if self.lists.len() > listed {
            let last = begin.saturating_add(joined.made).min(end);
            self.fill_neighbours(text, begin, last);
        }
        Ok(joined.made)
    }

    /// For each symbol before the new one, and for each one after it: lowers the count of its pair with the symbol that
    /// became part of the new one, and adds its pair with the new symbol.
    fn list_sides(&mut self, text: &Cells, picked: Pair, new: u16) -> Result<(), AllocError> {
        for place in 0..self.before.seen {
            let (symbol, size) = self.before.take(place);
            let old = Pair::of(symbol, picked.left);
            let begin = self.exchange(text, old, Pair::of(symbol, new), size)?;
            self.before.begin(symbol, begin);
        }
        for place in 0..self.following.seen {
            let (symbol, size) = self.following.take(place);
            let old = Pair::of(picked.right, symbol);
            let begin = self.exchange(text, old, Pair::of(new, symbol), size)?;
            self.following.begin(symbol, begin);
        }
        Ok(())
    }

    /// Lowers the count of `old` by `count`, and adds the pair `new`, which occurs `count` times in its place. A pair of
    /// equal symbols is neither lowered nor added.
    fn exchange(
        &mut self,
        text: &Cells,
        old: Pair,
        new: Pair,
        count: u32,
    ) -> Result<Option<usize>, AllocError> {
        if new.left == new.right {
            return Ok(None);
        }
        if old.left != old.right {
            self.lower(old, count);
        }
        self.add(text, new, count, count)
    }

    /// Lists the offsets of the pairs that contain the new symbol. This symbol was made at the offsets `begin..end` of the lists.
    fn fill_neighbours(&mut self, text: &Cells, begin: usize, end: usize)
        requires { end ≤ length self.old.lists.items }
    {
        let lens = text.lens.as_slice();
        let lists = self.lists.as_mut_slice();
        let all_sides = self.sides.as_slice();
        let ends_before = self.before.ends.as_mut_slice();
        let ends_following = self.following.ends.as_mut_slice();
        for made in 0..all_sides.len().min(end.saturating_sub(begin)) {
            let offset = lists[begin + made];
            let sides = all_sides[made];
            let back = length_in(lens, sides.left) as u32;
            put(ends_before, lists, sides.left, offset.saturating_sub(back));
            put(ends_following, lists, sides.right, offset);
        }
    }
}
