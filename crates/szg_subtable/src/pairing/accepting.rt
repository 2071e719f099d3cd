//! Tests of a proposed dictionary and text. They assume nothing about how the two were made.
ghost use Rattle.std.specs.Prelude.{ℕ, ◌≡◌, ◌+◌, ◌<◌, ◌≤◌, ◌⊎◌, true, false, length, slice_index_or, IfOk, IfSome};
ghost use Rattle.std.specs.List.{AllByRecursion};
ghost use Rattle.szg_pairs.specs.Expansion.{expansion_of};
ghost use Rattle.szg_subtable.specs.Building.{AreLens, IsRound, IsSymbolAt};
ghost use Rattle.szg_subtable.specs.Pairing.{IsUsed, pairs_in, values_of};

use crate::pairing::leaves::{MAX_SYMBOLS, Paired, count_different};
use std::alloc::{AllocError, Global};
use szg_pairs::entry::{is_leaf, left, right};
use szg_pairs::{Dict, DictFault};

/// Returns whether the values from `start` on are those of a symbol. If `seen` is an offset at which the symbol's
/// values are known to be, the two ranges of `values` are compared.
fn is_at(dict: &Dict, symbol: u16, values: &[u16], start: usize, seen: Option<usize>) -> bool
    requires there { symbol < length dict.now }
    requires inside { start + length (expansion_of dict.now symbol) ≤ length values.now }
    requires seen { IfSome seen (IsSymbolAt dict.now values.now symbol) }
    ensures { result ≡ true → IsSymbolAt dict.now values.now symbol start }
{
    let length = usize::from(dict.len(symbol));
    let here = &values[start..start + length];
    if let Some(first) = seen {
        return here == &values[first..first + length];
    }
    for place in 0..dict.len(symbol) {
        if dict.value_at(symbol, place) != here[usize::from(place)] {
            return false;
        }
    }
    true
}

/// Returns whether the values of symbols, joined, are `values`.
fn expands_to(
    alloc: Global,
    dict: &Dict,
    symbols: &[u16],
    values: &[u16],
) -> Result<bool, AllocError>
    requires below { AllByRecursion (λ s. s < length dict.now) symbols.now }
    ensures { IfOk result (λ same. same ≡ true → values_of dict.now symbols.now ≡ values.now) }
{
    // for each symbol, where its values were seen last
    let mut unseen = vec![in alloc; None; usize::from(dict.symbols())]?;
    let offsets = unseen.as_mut_slice();
    let mut start = 0;
    for symbol in symbols {
        let length = usize::from(dict.len(*symbol));
        if values.len() - start < length {
            return Ok(false);
        }
        let place = usize::from(*symbol);
        if !is_at(dict, *symbol, values, start, offsets[place]) {
            return Ok(false);
        }
        offsets[place] = Some(start);
        start += length;
    }
    Ok(start == values.len())
}

/// Marks `half`, a symbol of pair `pair`, unless it is the pair itself.
fn mark_half(marks: &mut [bool], half: u16, pair: usize)
    ensures count { length marks.new ≡ length marks.old }
    ensures marked { (s : ℕ) → slice_index_or marks.new s false ≡ true → (slice_index_or marks.old s false ≡ true) ⊎ ((s ≡ half) × ¬ (pair ≡ s)) }
{
    let half = usize::from(half);
    if half < marks.len() && half != pair {
        marks[half] = true;
    }
}

/// Returns whether each symbol of the text is in the dictionary, and each pair occurs in the text or in another pair.
fn are_used(alloc: Global, entries: &[[u8; 3]], symbols: &[u16]) -> Result<bool, AllocError>
    ensures below { IfOk result (λ used. used ≡ true → AllByRecursion (λ s. s < length entries.now) symbols.now) }
    ensures used { IfOk result (λ used. used ≡ true → IsUsed entries.now symbols.now) }
{
    let mut unmarked = vec![in alloc; false; entries.len()]?;
    let marks = unmarked.as_mut_slice();
    for symbol in symbols {
        let symbol = usize::from(*symbol);
        if symbol >= marks.len() {
            return Ok(false);
        }
        marks[symbol] = true;
    }
    for (pair, entry) in entries.iter().enumerate() {
        if !is_leaf(*entry) {
            mark_half(marks, left(*entry), pair);
            mark_half(marks, right(*entry), pair);
        }
    }
    for (place, entry) in entries.iter().enumerate() {
        if !is_leaf(*entry) && !marks[place] {
            return Ok(false);
        }
    }
    Ok(true)
}

/// Returns the number of pairs in a dictionary.
pub(crate) fn count_pairs_in(entries: &[[u8; 3]]) -> usize
    ensures pairs { result ≡ length (pairs_in entries.now) }
    ensures few { result ≤ length entries.now }
{
    entries.iter().filter(|entry| !is_leaf(**entry)).count()
}

/// Tests a proposal, and returns it with the number of values of each symbol counted anew. None if there are too many entries, if
/// the number of leaves is not the number of different values, if a symbol of the text is not in the dictionary, if a pair occurs
/// neither in the text nor in another pair, if the dictionary is not accepted, or if the text does not expand to `values`.
pub(crate) fn accept(
    alloc: Global,
    values: &[u16],
    proposal: Paired,
) -> Result<Option<Paired>, AllocError>
    requires { AllByRecursion (λ v. v ≤ 4095) values.now }
    ensures round { IfOk result (λ found. IfSome found (λ p. IsRound values.now (length (pairs_in p.entries.items)) p.entries.items p.symbols.items)) }
    ensures lens { IfOk result (λ found. IfSome found (λ p. AreLens p.entries.items p.lens.items)) }
{
    let (listed, text) = (proposal.entries.as_slice(), proposal.symbols.as_slice());
    let pairs = count_pairs_in(listed);
    if listed.len() > MAX_SYMBOLS || listed.len() - pairs != count_different(values) {
        return Ok(None);
    }
    if !are_used(alloc, listed, text)? {
        return Ok(None);
    }
    let dict = match Dict::new(alloc, listed.to_vec(alloc)?) {
        Ok(dict) => dict,
        Err(DictFault::Memory) => return Err(AllocError),
        Err(_) => return Ok(None),
    };
    if !expands_to(alloc, &dict, text, values)? {
        return Ok(None);
    }
    let mut lens = Vec::new(alloc);
    for symbol in 0..dict.symbols() {
        lens.push(dict.len(symbol))?;
    }
    Ok(Some(Paired { lens, ..proposal }))
}
