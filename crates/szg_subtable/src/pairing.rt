//! Pairs of symbols: how a list of values becomes a dictionary and a text. A text is a list of symbols that expands to the values.

pub(crate) mod accepting;
pub(crate) mod cells;
pub(crate) mod leaves;
mod neighbours;
pub(crate) mod numbering;
mod occurrences;
pub(crate) mod proposing;
pub(crate) mod rounds;
mod tally;

ghost use Rattle.std.specs.Prelude.{ℕ, ◌≡◌, ◌+◌, ◌*◌, ◌<◌, ◌≤◌, min, length, slice_index};
ghost use Rattle.szg_subtable.specs.Pairing.{pair_count, replaced};

/// The greatest number of values of a symbol.
pub(crate) const MAX_VALUES: u32 = 256;

/// A pair is made only if it occurs at least this often.
pub(crate) const LEAST_COUNT: u32 = 4;

/// Two neighbouring symbols, from left to right.
#[derive(Clone, Copy, PartialEq, Eq, PartialOrd, Ord, Hash)]
pub(crate) struct Pair {
    pub left: u16,
    pub right: u16,
}

impl Pair {
    /// Creates the pair of two symbols.
    pub(crate) fn of(left: u16, right: u16) -> Pair {
        Pair { left, right }
    }
}

/// Replaces each occurrence of a pair by a new symbol, from left to right. Allocates nothing.
pub(crate) fn replace(symbols: &mut Vec<u16>, pair: Pair, new: u16)
    ensures { symbols.new.items ≡ replaced pair.left pair.right new symbols.old.items }
{
    let (left, right) = (pair.left, pair.right);
    let count = symbols.len();
    let mut read = 0;
    let mut write = 0;
    'symbols: while read < count {
        let symbol = symbols[read];
        if symbol == left && read + 1 < count && symbols[read + 1] == right {
            symbols[write] = new;
            read += 2;
        } else {
            symbols[write] = symbol;
            read += 1;
        }
        write += 1;
    }
    symbols.truncate(write);
}

/// Counts all pairs of symbols below `n`. Each count saturates at 255. Index `l * n + r` has the count of (l, r). Two
/// equal symbols make a pair only if the first is free: it is not yet in a pair with an equal symbol.
pub(crate) fn count_pairs(counts: &mut [u8], n: usize, symbols: &[u16])
    requires some { 0 < n }
    requires few { n ≤ 4095 }
    requires room { length counts.old ≡ n * n }
    requires zeros { (k : ℕ) → slice_index counts.old k ≡ 0 }
    requires below { (k : ℕ) → k < length symbols.now → slice_index symbols.now k < n }
    ensures { (l r : ℕ) → l < n → r < n → slice_index counts.new (l * n + r) ≡ min (pair_count l r symbols.now) 255 }
{
    let mut begun = false;
    let mut last = 0;
    let mut free = false;
    'symbols: for item in symbols {
        let symbol = usize::from(*item);
        let paired = begun & ((last != symbol) | free);
        if paired {
            let place = last * n + symbol;
            let count = counts[place].saturating_add(1);
            counts[place] = count;
        }
        free = !(begun & (last == symbol) & free);
        begun = true;
        last = symbol;
    }
}
