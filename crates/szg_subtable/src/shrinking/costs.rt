//! Estimates, in bits and from symbol counts, what a symbol costs in a text and what a pair saves.
//!
//! Only the safety of this code is proved, not its estimates: they only decide which pairs are kept and how values are spelled.
use crate::pairing::numbering::at;
use szg_pairs::entry::{left, right};

/// The number of fractional bits of a logarithm and of an estimate.
const FRACTION: u32 = 16;

/// One bit as an estimate.
pub(crate) const BIT: u64 = 1 << FRACTION;

/// Returns the logarithm of a number to the base 2, times `BIT`, rounded down; 0 for 0.
pub(crate) fn log2(number: u64) -> u64 {
    if number == 0 {
        return 0;
    }
    let whole = 63 - number.leading_zeros();
    let mut mantissa = (number << (63 - whole)) >> 32;
    let mut log = u64::from(whole);
    for _ in 0..FRACTION {
        let square = mantissa.wrapping_mul(mantissa) >> 31;
        let is_two = square >> 32 != 0;
        mantissa = if is_two { square >> 1 } else { square };
        log = log.wrapping_mul(2).wrapping_add(u64::from(is_two));
    }
    log
}

/// How many symbols a text has, and how often the most frequent one occurs.
#[derive(Clone, Copy)]
pub(crate) struct Totals {
    pub symbols: u64,
    pub most: u64,
}

/// Estimates the bits of a text's words, times `BIT` and modulo 2^64: its entropy, and the bits by which the words
/// exceed it because no word is shorter than one bit. `counts` may leave out symbols that occur equally often in two
/// texts whose estimates are compared: they would change both estimates by the same number.
fn bits_of(totals: Totals, counts: &[u64]) -> u64 {
    let log = log2(totals.symbols);
    let mut bits = totals.symbols.wrapping_mul(log);
    for count in counts {
        bits = bits.wrapping_sub(count.wrapping_mul(log2(*count)));
    }
    // only a symbol that is more than half of the text has less than one bit of entropy
    if totals.most > totals.symbols / 2 {
        let excess = BIT.wrapping_add(log2(totals.most)).wrapping_sub(log);
        bits = bits.wrapping_add(totals.most.wrapping_mul(excess));
    }
    bits
}

/// Estimates the bits that a pair saves in a text with these counts and totals, times `BIT`, plus 1; the bits of its
/// dictionary entry are not deducted. The pair occurs `count` times. Returns 0 exactly if it does not occur.
pub(crate) fn saved(counts: &[u64], entry: [u8; 3], count: u64, totals: Totals) -> u64 {
    if count == 0 {
        return 0;
    }
    let is_double = left(entry) == right(entry);
    // how often the halves occur outside of the pair, and in the text in which the pair is written as its halves; two
    // equal halves are one symbol, the left one
    let left = at(counts, left(entry));
    let (right, more_left, more_right) = if is_double {
        (0, count.saturating_mul(2), 0)
    } else {
        (at(counts, right(entry)), count, count)
    };
    let all_left = left.saturating_add(more_left);
    let all_right = right.saturating_add(more_right);
    let before = Totals {
        symbols: totals.symbols.saturating_add(count),
        most: totals.most.max(all_left).max(all_right),
    };
    let saved = bits_of(before, &[all_left, all_right]).wrapping_sub(bits_of(
        totals,
        &[count, left, right],
    ));
    // a saving near 0 may be rounded to a negative number
    if saved > u64::MAX / 2 {
        1
    } else {
        saved.saturating_add(1)
    }
}
