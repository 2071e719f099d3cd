//! The words of one block, and the values of their symbols.

ghost use Rattle.std.specs.Prelude.{ℕ, List, ◌≡◌, ◌<◌, ◌≤◌, ◌+◌, ◌-◌, ◌↔◌, ◌^◌, ◌++◌, IsTrue, IfNone, IfSome, length, min, take, slice_get, Some};
ghost use Rattle.szg_code.specs.Acceptance.{IsCode};
ghost use Rattle.szg_code.specs.Bits.{bits};
ghost use Rattle.szg_code.specs.Least.{HasAllSymbols, HasBytesAbove};
ghost use Rattle.szg_pairs.specs.Expansion.{expansion_of};
ghost use Rattle.szg_block.specs.Reached.{IsAhead, IsReached};
ghost use Rattle.szg_block.specs.Spelled.{values_spelled, word_at, pairs_above};

use szg_code::{Bits, Code, EndlessBits, next, next_byte, next_endless, next_two, next_two_if};
use szg_pairs::{Descent, Dict};

/// A word that contains a value.
#[derive(Drop)]
struct Reached<'a> {
    symbol: u16,
    /// The value's index among the word's values.
    index: u64,
    /// The number of values from that one up to the reader.
    decoded: u64,
    /// The reader, moved past the word, or past the two words of a byte, of which it is one.
    left: Bits<'a>,
}

/// Moves the reader past a word of eight bits, or if `TWO` past the two words of a byte, and returns the number of their values.
/// None if the reader's window doesn't hold such words; then the reader does not move.
#[inline(always)]
fn pass<const TWO: bool>(
    code: &Code,
    above: u64,
    dict: &Dict,
    words: &mut EndlessBits,
) -> Option<u64>
    requires accepted { IsCode code.now }
    requires above { HasBytesAbove code.now above }
    requires symbols { code.now.symbols ≡ length dict.now }
    ensures { IfSome result (λ count. (all : List ℕ) (i ahead : ℕ) → IsAhead code.now dict.now all i words.old ahead → count ≤ ahead → IsAhead code.now dict.now all i words.new (ahead - count)) }
{
    let lengths = dict.lengths();
    if TWO {
        let (first, second) = next_two(code, words)?;
        return Some(u64::from(lengths[first as usize]) + u64::from(lengths[second as usize]));
    }
    let symbol = next_byte(code, above, words)?;
    Some(u64::from(lengths[symbol as usize]))
}

/// Moves the reader past words before the value at `index` of those that the bits left spell, by windows of seven bytes, each of
/// which is a word or, if `TWO`, begins with two words, up to other words or those that contain the value. Returns the value's
/// index from there on. If neither `TWO` nor `BYTES`, no word is passed.
#[inline(always)]
fn skip<const TWO: bool, const BYTES: bool>(
    code: &Code,
    above: u64,
    dict: &Dict,
    words: &mut EndlessBits,
    index: u64,
) -> u64
    requires accepted { IsCode code.now }
    requires above { HasBytesAbove code.now above }
    requires symbols { code.now.symbols ≡ length dict.now }
    ensures at_most { result ≤ index }
    ensures ahead { (all : List ℕ) (i : ℕ) → IsAhead code.now dict.now all i words.old index → IsAhead code.now dict.now all i words.new result }
{
    if !TWO && !BYTES {
        return index;
    }
    let mut ahead = index;
    'windows: for _ in 0..u64::MAX {
        if !words.refill() {
            break 'windows;
        }
        for _ in 0..7_u64 {
            let mut next = words.copied();
            let Some(count) = pass::<TWO>(code, above, dict, &mut next) else {
                break 'windows;
            };
            if ahead < count {
                break 'windows;
            }
            ahead -= count;
            *words = next;
        }
    }
    ahead
}

/// Decodes the two words of a byte, if one of them contains the value at `ahead`. None if neither does, if the reader's window
/// doesn't hold such words, or if they aren't within the bytes.
#[inline(always)]
fn reach_in_two<'a>(
    code: &Code,
    dict: &Dict,
    words: &EndlessBits<'a>,
    ahead: u64,
) -> Option<Reached<'a>>
    requires accepted { IsCode code.now }
    requires symbols { code.now.symbols ≡ length dict.now }
    ensures { IfSome result (λ reached. (all : List ℕ) (i : ℕ) → IsAhead code.now dict.now all i words.now ahead → IsReached code.now dict.now all i reached) }
{
    let mut next = words.copied();
    let (first, second) = next_two(code, &mut next)?;
    let before = u64::from(dict.len(first));
    let count = before + u64::from(dict.len(second));
    if ahead >= count {
        return None;
    }
    let left = next.within()?;
    let (symbol, index) = if ahead < before {
        (first, ahead)
    } else {
        (second, ahead - before)
    };
    Some(Reached {
        symbol,
        index,
        decoded: count - ahead,
        left,
    })
}

/// Decodes words up to the one that contains the value at `index`. None if the bits left spell too few values. Whether the last
/// word is within the bytes is asked once, after it. If `BYTES`, words of eight bits are passed by the code's `bytes_above`; if
/// `TWO`, two words of a byte at a step; if `ALL`, each word of the code has a symbol.
#[inline(always)]
fn reach_by<'a, const TWO: bool, const ALL: bool, const BYTES: bool>(
    code: &Code,
    above: u64,
    dict: &Dict,
    left: Bits<'a>,
    index: u64,
) -> Option<Reached<'a>>
    requires accepted { IsCode code.now }
    requires above { HasBytesAbove code.now above }
    requires symbols { code.now.symbols ≡ length dict.now }
    requires all { IsTrue ALL → HasAllSymbols code.now }
    ensures found { IfSome result (IsReached code.now dict.now (values_spelled code.now dict.now left.entry.left) index) }
    ensures none { IfNone result (length (values_spelled code.now dict.now left.entry.left) ≤ index) }
{
    let lengths = dict.lengths();
    let mut left = left.endless();
    let mut ahead = index;
    'words: loop {
        ahead = skip::<TWO, BYTES>(code, above, dict, &mut left, ahead);
        if TWO {
            if let Some(reached) = reach_in_two(code, dict, &left, ahead) {
                return Some(reached);
            }
        }
        let symbol = next_endless::<ALL>(code, &mut left)?;
        let count = u64::from(lengths[symbol as usize]);
        if ahead < count {
            let left = left.within()?;
            return Some(Reached {
                symbol,
                index: ahead,
                decoded: count - ahead,
                left,
            });
        }
        ahead -= count;
    }
}

/// As `reach_by`, by the code's tables of first bytes.
#[inline(never)]
fn reach_by_table<'a>(code: &Code, dict: &Dict, left: Bits<'a>, index: u64) -> Option<Reached<'a>>
    requires accepted { IsCode code.now }
    requires symbols { code.now.symbols ≡ length dict.now }
    ensures found { IfSome result (IsReached code.now dict.now (values_spelled code.now dict.now left.entry.left) index) }
    ensures none { IfNone result (length (values_spelled code.now dict.now left.entry.left) ≤ index) }
{
    let above = code.bytes_above();
    if code.has_two_words() {
        reach_by::<true, false, false>(code, above, dict, left, index)
    } else {
        reach_by::<false, false, false>(code, above, dict, left, index)
    }
}

/// As `reach_by`, in the way that is quickest for the code.
#[inline(always)]
fn reach<'a>(code: &Code, dict: &Dict, left: Bits<'a>, index: u64) -> Option<Reached<'a>>
    requires accepted { IsCode code.now }
    requires symbols { code.now.symbols ≡ length dict.now }
    ensures found { IfSome result (IsReached code.now dict.now (values_spelled code.now dict.now left.entry.left) index) }
    ensures none { IfNone result (length (values_spelled code.now dict.now left.entry.left) ≤ index) }
{
    let above = code.bytes_above();
    if above < u64::MAX {
        reach_by::<false, true, true>(code, above, dict, left, index)
    } else if code.is_read_word_by_word() {
        reach_by::<false, true, false>(code, above, dict, left, index)
    } else {
        reach_by_table(code, dict, left, index)
    }
}

/// As `find`, by `reach_by`.
#[inline(never)]
fn find_by<const TWO: bool, const ALL: bool, const BYTES: bool, const VALUE: bool>(
    code: &Code,
    above: u64,
    dict: &Dict,
    left: Bits,
    index: u64,
) -> Option<u16>
    requires accepted { IsCode code.now }
    requires above { HasBytesAbove code.now above }
    requires symbols { code.now.symbols ≡ length dict.now }
    requires all { IsTrue ALL → HasAllSymbols code.now }
    ensures value { IfSome result (λ value. IsTrue VALUE → slice_get (values_spelled code.now dict.now left.entry.left) index ≡ Some value) }
    ensures some { IfSome result (λ _. index < length (values_spelled code.now dict.now left.entry.left)) }
    ensures none { IfNone result (length (values_spelled code.now dict.now left.entry.left) ≤ index) }
{
    let reached = reach_by::<TWO, ALL, BYTES>(code, above, dict, left, index)?;
    if !VALUE {
        return Some(0);
    }
    Some(dict.value_at(reached.symbol, reached.index as u16))
}

/// Returns the value at `index` among those that the bits left spell, or 0 in its place if not `VALUE`. None if they spell too few.
/// No more words are decoded than up to the value. It relies on nothing that they spell.
#[inline(always)]
pub(crate) fn find<const VALUE: bool>(
    code: &Code,
    dict: &Dict,
    left: Bits,
    index: u64,
) -> Option<u16>
    requires accepted { IsCode code.now }
    requires symbols { code.now.symbols ≡ length dict.now }
    ensures value { IfSome result (λ value. IsTrue VALUE → slice_get (values_spelled code.now dict.now left.entry.left) index ≡ Some value) }
    ensures some { IfSome result (λ _. index < length (values_spelled code.now dict.now left.entry.left)) }
    ensures none { IfNone result (length (values_spelled code.now dict.now left.entry.left) ≤ index) }
{
    let above = code.bytes_above();
    if above < u64::MAX {
        find_by::<false, true, true, VALUE>(code, above, dict, left, index)
    } else if code.is_read_word_by_word() {
        find_by::<false, true, false, VALUE>(code, above, dict, left, index)
    } else if code.has_two_words() {
        find_by::<true, false, false, VALUE>(code, above, dict, left, index)
    } else {
        find_by::<false, false, false, VALUE>(code, above, dict, left, index)
    }
}

/// Returns whether the bits left spell `needed` values or more.
#[inline(always)]
pub(crate) fn spells(code: &Code, dict: &Dict, left: Bits, needed: u64) -> bool
    requires accepted { IsCode code.now }
    requires symbols { code.now.symbols ≡ length dict.now }
    ensures { IsTrue result ↔ (needed ≤ length (values_spelled code.now dict.now left.entry.left)) }
{
    needed == 0 || find::<false>(code, dict, left, needed - 1).is_some()
}

/// Returns the value at `index` in a block, in one pass over the words of the block's first `needed` values. None if
/// the block's bits spell fewer than `needed` values.
pub(crate) fn find_verified(
    code: &Code,
    dict: &Dict,
    block: &[u8],
    index: u64,
    needed: u64,
) -> Option<u16>
    requires accepted { IsCode code.now }
    requires symbols { code.now.symbols ≡ length dict.now }
    requires size { length block.now ≤ 2 ^ 60 }
    requires within { index < needed }
    ensures value { IfSome result (λ value. slice_get (values_spelled code.now dict.now (bits block.now)) index ≡ Some value) }
    ensures enough { IfSome result (λ _. needed ≤ length (values_spelled code.now dict.now (bits block.now))) }
    ensures few { IfNone result (¬ (needed ≤ length (values_spelled code.now dict.now (bits block.now)))) }
{
    let reached = reach(code, dict, Bits::new(block), index)?;
    let missing = (needed - index).saturating_sub(reached.decoded);
    if !spells(code, dict, reached.left, missing) {
        return None;
    }
    Some(dict.value_at(reached.symbol, reached.index as u16))
}

/// Decodes the value at `index` in a block, word by word from the block's start. Returns the descent to it and the number
/// of words read, including the word that contains the value. The block's own bits must spell more than `index` values.
pub(crate) fn find_in_block(code: &Code, dict: &Dict, block: &[u8], index: u64) -> (Descent, u64)
    requires accepted { IsCode code.now }
    requires symbols { code.now.symbols ≡ length dict.now }
    requires size { length block.now ≤ 2 ^ 60 }
    requires small { index < 2 ^ 62 }
    requires within { index < length (values_spelled code.now dict.now (bits block.now)) }
    ensures value { slice_get (values_spelled code.now dict.now (bits block.now)) index ≡ Some result.0.value }
    ensures pairs { result.0.pairs ≡ pairs_above code.now dict.now (bits block.now) index }
    ensures words { result.1 ≡ (word_at code.now dict.now (bits block.now) index).list + 1 }
{
    let mut words = Bits::new(block);
    let mut ahead = index;
    let mut before = 0;
    while let Some(symbol) = next(code, &mut words) {
        let count = dict.len(symbol);
        if ahead < u64::from(count) {
            return (dict.descend(symbol, ahead as u16), before + 1);
        }
        ahead -= u64::from(count);
        before += 1;
    }
    unreachable!()
}

/// Writes the first values of a symbol, as many as `values` has room for.
///
/// It makes one call for each pair and each leaf that it expands. Pairs are nested at most 255 deep, so calls are
/// nested at most 256 deep.
fn write_symbol(dict: &Dict, symbol: u16, values: &mut [u16])
    requires there { symbol < length dict.now }
    requires some { 1 ≤ length values.old }
    requires within { length values.old ≤ length (expansion_of dict.now symbol) }
    ensures { values.new ≡ take (length values.old) (expansion_of dict.now symbol) }
{
    let Some((left, right)) = dict.pair(symbol) else {
        values[0] = dict.value_at(symbol, 0);
        return;
    };
    let length = dict.len(left) as usize;
    if values.len() <= length {
        return write_symbol(dict, left, values);
    }
    write_symbol(dict, left, &mut values[..length]);
    write_symbol(dict, right, &mut values[length..]);
}

/// Writes the values of a symbol from offset `at` on, as many as `values` has room for. Returns the offset after them.
#[inline(always)]
fn write_word(dict: &Dict, symbol: u16, values: &mut [u16], at: usize) -> usize
    requires there { symbol < length dict.now }
    requires within { at ≤ length values.old }
    ensures long { length values.new ≡ length values.old }
    ensures more { at < length values.old → at < result }
    ensures at { result ≡ at + min (length (expansion_of dict.now symbol)) (length values.old - at) }
    ensures written { (rest : List ℕ) → take result values.new ++ take (length values.new - result) rest ≡ take at values.old ++ take (length values.old - at) (expansion_of dict.now symbol ++ rest) }
{
    let count = (dict.len(symbol) as usize).min(values.len() - at);
    if count > 0 {
        write_symbol(dict, symbol, &mut values[at..at + count]);
    }
    at + count
}

/// Writes the first values of a block whose own bits spell at least as many as `values` has room for.
pub fn write_values(code: &Code, dict: &Dict, block: &[u8], values: &mut [u16])
    requires accepted { IsCode code.now }
    requires symbols { code.now.symbols ≡ length dict.now }
    requires size { length block.now ≤ 2 ^ 60 }
    requires within { length values.old ≤ length (values_spelled code.now dict.now (bits block.now)) }
    ensures { values.new ≡ take (length values.old) (values_spelled code.now dict.now (bits block.now)) }
{
    let two = code.has_two_words();
    let mut words = Bits::new(block);
    let mut at = 0;
    'words: while at < values.len() {
        if two {
            if let Some((first, second)) = next_two_if(code, &mut words) {
                at = write_word(dict, first, values, at);
                at = write_word(dict, second, values, at);
                continue 'words;
            }
        }
        let Some(symbol) = next(code, &mut words) else {
            unreachable!()
        };
        at = write_word(dict, symbol, values, at);
    }
}
