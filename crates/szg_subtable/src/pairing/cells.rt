//! A text of symbols in cells. At the start each symbol has one cell. A symbol that replaces a pair by its list gets the
//! cells of the pair's two symbols, so no other symbol moves. After `close_up` each symbol has one cell again.
ghost use Rattle.std.specs.Prelude.{◌≤◌};

use crate::pairing::numbering::at;
use crate::pairing::{MAX_VALUES, Pair};

/// The bit that is set, beside the symbol's own bits, in the last cell of a symbol of two or more cells. All symbols
/// are below `LAST`.
pub(crate) const LAST: u16 = 0x8000;

/// The content of a cell in which the right symbol of a pair began, before the pair became a symbol.
pub(crate) const INSIDE: u16 = u16::MAX;

/// The text, and for each symbol its numbers of cells and of values.
#[derive(Drop)]
pub(crate) struct Cells {
    /// The first cell of a symbol holds the symbol. Its other cells hold `LAST` or more. The last one holds `LAST` and
    /// the symbol. A cell between the first and the last one holds `INSIDE` if the right symbol of a pair once began
    /// there, so that no pair is found at that old offset.
    pub cells: Vec<u16>,
    /// The number of cells of each symbol.
    pub lens: Vec<u16>,
    /// The number of values of each symbol. It may be more than the number of cells.
    pub values: Vec<u16>,
}

/// Returns the number at index `symbol` in `lens`, a list of the symbols' numbers of cells or of values; 1 if that
/// number is 0 or `symbol` is after the list's end.
pub(crate) fn length_in(lens: &[u16], symbol: u16) -> usize
    ensures some { 1 ≤ result }
    ensures most { result ≤ 65535 }
{
    usize::from(at(lens, symbol).max(1))
}

/// Returns whether a run of `symbol` has an even number of symbols. The first cell of its first symbol, or the last
/// cell of its last one, is at `start`. That cell of the run's next symbol is `step` cells later, modulo 2^64.
pub(crate) fn is_even_run(cells: &[u16], start: usize, symbol: u16, step: usize) -> bool {
    let mut offset = start;
    let mut is_even = true;
    for _ in 0..cells.len() {
        if offset >= cells.len() || cells[offset] % LAST != symbol {
            break;
        }
        is_even = !is_even;
        offset = offset.wrapping_add(step);
    }
    is_even
}

/// The number of symbols that are compared at once, to find long runs of equal symbols. It is even.
pub(crate) const STEP: usize = 256;

/// Returns whether all symbols of a list are `symbol`.
pub(crate) fn are_all(symbols: &[u16], symbol: u16) -> bool {
    let Some(first) = symbols.first() else {
        return true;
    };
    // each symbol is compared with the next: two lists are compared in larger steps than a list and a symbol
    let count = symbols.len() - 1;
    *first == symbol && symbols[1..] == symbols[..count]
}

impl Cells {
    /// Replaces each occurrence of a pair by a new symbol, from left to right. Each symbol has one cell before and after.
    pub(crate) fn join(&mut self, pair: Pair, new: u16) {
        let cells = self.cells.as_mut_slice();
        let count = cells.len();
        let (mut read, mut write) = (0usize, 0usize);
        for _ in 0..count {
            if read >= count || cells.len() < count || write > read {
                break;
            }
            let left = count - read;
            let symbol = cells[read];
            if read % STEP < 2
                && left > STEP
                && are_all(&cells[read + 1..read + STEP + 1], symbol)
            {
                let is_pair = symbol == pair.left && symbol == pair.right;
                let (due, more) = if is_pair {
                    (new, STEP / 2)
                } else {
                    (symbol, STEP)
                };
                cells[write..write + more].fill(due);
                write += more;
                read += STEP;
                continue;
            }
            if symbol == pair.left && left > 1 && cells[read + 1] == pair.right {
                cells[write] = new;
                read += 2;
            } else {
                cells[write] = symbol;
                read += 1;
            }
            write += 1;
        }
        self.cells.truncate(write);
        self.lens.fill(1);
    }

    /// Returns whether a pair has at most `MAX_VALUES` values, so that it may be made.
    pub(crate) fn is_short(&self, pair: Pair) -> bool {
        length_in(&self.values, pair.left) + length_in(&self.values, pair.right)
            <= MAX_VALUES as usize
    }

    /// Removes all cells but the first of each symbol, so that each symbol has one cell.
    pub(crate) fn close_up(&mut self) {
        let cells = self.cells.as_mut_slice();
        let mut count = 0usize;
        for read in 0..cells.len() {
            let cell = cells[read];
            if count < cells.len() {
                cells[count] = cell;
            }
            count = count.wrapping_add(usize::from(cell < LAST));
        }
        self.cells.truncate(count);
        self.lens.fill(1);
    }
}
