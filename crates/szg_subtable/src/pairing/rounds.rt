//! Makes pairs: the proposed ones if they pass the tests, otherwise one pair a round, with all pairs counted again in each round.
ghost use Rattle.std.specs.Prelude.{ℕ, ◌≡◌, ◌+◌, ◌<◌, ◌≤◌, true, List, length, slice_index, IfOk, IfSome, IfNone, OnOk};
ghost use Rattle.std.specs.List.{AllByRecursion};
ghost use Rattle.szg_subtable.specs.Building.{AreLens, IsCandidate, IsPairing, IsRound};
ghost use Rattle.szg_subtable.specs.Pairing.{IsFinished, pair_count, pairs_in, different_values};

use crate::pairing::accepting::{accept, count_pairs_in};
use crate::pairing::leaves::{MAX_SYMBOLS, Paired, begin, entry};
use crate::pairing::numbering::numbered_by_count;
use crate::pairing::proposing::with_pairs;
use crate::pairing::{LEAST_COUNT, MAX_VALUES, Pair, count_pairs, replace};
use crate::shrinking::shrink;
use crate::watching::Watcher;
use std::alloc::{AllocError, Global};

/// The greatest number of values whose offsets fit in four bytes, the size of a stored offset.
const MAX_OFFSETS: usize = u32::MAX as usize;

/// Counts all pairs, and returns one that may be made and occurs at least four times. None if there is none.
fn find_remaining_pair(
    alloc: Global,
    symbols: &[u16],
    lens: &[u16],
) -> Result<Option<Pair>, AllocError>
    requires few { length lens.now ≤ 4095 }
    requires below { AllByRecursion (λ s. s < length lens.now) symbols.now }
    ensures pair { IfOk result (λ found. IfSome found (λ pair. IsCandidate lens.now symbols.now pair.left pair.right)) }
    ensures none { IfOk result (λ found. IfNone found ((left right : ℕ) → left < length lens.now → right < length lens.now →
        slice_index lens.now left + slice_index lens.now right ≤ 256 → pair_count left right symbols.now < 4)) }
{
    let width = lens.len();
    if width == 0 {
        return Ok(None);
    }
    let mut zeros = vec![in alloc; 0; width * width]?;
    let counts = zeros.as_mut_slice();
    count_pairs(counts, width, symbols);
    for left in 0..width {
        for right in 0..width {
            let count = u32::from(counts[left * width + right]);
            let values = u32::from(lens[left]) + u32::from(lens[right]);
            if count >= LEAST_COUNT && values <= MAX_VALUES {
                return Ok(Some(Pair {
                    left: left as u16,
                    right: right as u16,
                }));
            }
        }
    }
    Ok(None)
}

/// Adds a pair to the dictionary as the next symbol, and replaces the pair's occurrences in the text by this symbol.
fn make_pair(paired: &mut Paired, pair: Pair) -> Result<(), AllocError>
    requires few { length paired.old.entries.items < 4095 }
    requires count { length paired.old.lens.items ≡ length paired.old.entries.items }
    requires candidate { IsCandidate paired.old.lens.items paired.old.symbols.items pair.left pair.right }
    ensures round { OnOk result ((values : List ℕ) (done : ℕ) → AreLens paired.old.entries.items paired.old.lens.items →
        IsRound values done paired.old.entries.items paired.old.symbols.items → IsRound values (done + 1) paired.new.entries.items paired.new.symbols.items) }
    ensures lens { OnOk result ((values : List ℕ) (done : ℕ) → AreLens paired.old.entries.items paired.old.lens.items →
        IsRound values done paired.old.entries.items paired.old.symbols.items → AreLens paired.new.entries.items paired.new.lens.items) }
{
    let new = paired.entries.len() as u16;
    let length = paired.lens[usize::from(pair.left)] + paired.lens[usize::from(pair.right)];
    paired.entries.push(entry(pair.left, pair.right))?;
    paired.lens.push(length)?;
    replace(&mut paired.symbols, pair, new);
    Ok(())
}

/// Makes pairs without a proposal: counts all pairs again in each round.
fn pair_slowly<V: Watcher>(
    alloc: Global,
    values: &[u16],
    rounds: u32,
    watcher: &mut V,
) -> Result<Paired, AllocError>
    requires small { AllByRecursion (λ v. v ≤ 4095) values.now }
    requires different { length (different_values values.now) ≤ 4095 }
    ensures pairing { IfOk result (λ p. IsPairing values.now rounds p.entries.items p.symbols.items) }
    ensures lens { IfOk result (λ p. AreLens p.entries.items p.lens.items) }
{
    let mut paired = begin(alloc, values)?;
    for done in 0..rounds {
        watcher.round(done, rounds);
        if paired.entries.len() == MAX_SYMBOLS {
            return Ok(paired);
        }
        let Some(pair) = find_remaining_pair(alloc, &paired.symbols, &paired.lens)? else {
            return Ok(paired);
        };
        make_pair(&mut paired, pair)?;
    }
    Ok(paired)
}

/// Returns whether the number of pairs is right: exactly `rounds`, or fewer if there are 4,095 symbols or if no pair is
/// left that may be made and occurs at least four times.
fn is_finished(alloc: Global, paired: &Paired, rounds: u32) -> Result<bool, AllocError>
    requires lens { AreLens paired.now.entries.items paired.now.lens.items }
    requires few { length paired.now.entries.items ≤ 4095 }
    requires below { AllByRecursion (λ s. s < length paired.now.entries.items) paired.now.symbols.items }
    ensures { IfOk result (λ finished. finished ≡ true → IsFinished paired.now.entries.items paired.now.symbols.items rounds) }
{
    let pairs = count_pairs_in(&paired.entries);
    if pairs >= rounds as usize {
        return Ok(pairs == rounds as usize);
    }
    if paired.entries.len() == MAX_SYMBOLS {
        return Ok(true);
    }
    let Some(_) = find_remaining_pair(alloc, &paired.symbols, &paired.lens)? else {
        return Ok(true);
    };
    Ok(false)
}

/// Makes at most `rounds` pairs, each of which occurs at least four times. If the proposal is accepted, they are the
/// proposed pairs: in each round a most frequent one. Otherwise, or if there are 2^32 values or more, they are the
/// pairs that `find_remaining_pair` finds.
pub(crate) fn pair_up<V: Watcher>(
    alloc: Global,
    values: &[u16],
    rounds: u32,
    watcher: &mut V,
) -> Result<Paired, AllocError>
    requires small { AllByRecursion (λ v. v ≤ 4095) values.now }
    requires different { length (different_values values.now) ≤ 4095 }
    ensures pairing { IfOk result (λ p. IsPairing values.now rounds p.entries.items p.symbols.items) }
    ensures lens { IfOk result (λ p. AreLens p.entries.items p.lens.items) }
{
    if rounds > 0 && values.len() <= MAX_OFFSETS {
        let begun = begin(alloc, values)?;
        let proposal = with_pairs(alloc, begun, rounds, watcher)?;
        if let Some(paired) = accept(alloc, values, proposal)? {
            if is_finished(alloc, &paired, rounds)? {
                return Ok(paired);
            }
        }
    }
    pair_slowly(alloc, values, rounds, watcher)
}

/// Chooses pairs with which the subtable takes few bytes, and spells the values with them. Symbols are numbered by how
/// often they occur in the text, the rarest first. Makes no pairs if there are 2^32 values or more or if the proposal
/// fails a test; the leaves are then numbered by their values. `other_bytes` is as in `choose_sizes`.
pub(crate) fn pair_for_small_table<V: Watcher>(
    alloc: Global,
    values: &[u16],
    other_bytes: Option<u64>,
    watcher: &mut V,
) -> Result<Paired, AllocError>
    requires small { AllByRecursion (λ v. v ≤ 4095) values.now }
    requires different { length (different_values values.now) ≤ 4095 }
    ensures round { IfOk result (λ p. IsRound values.now (length (pairs_in p.entries.items)) p.entries.items p.symbols.items) }
    ensures lens { IfOk result (λ p. AreLens p.entries.items p.lens.items) }
{
    let begun = begin(alloc, values)?;
    if values.len() > MAX_OFFSETS {
        return Ok(begun);
    }
    let shrunk = shrink(alloc, begun, other_bytes, watcher)?;
    let proposal = numbered_by_count(alloc, shrunk)?;
    if let Some(paired) = accept(alloc, values, proposal)? {
        return Ok(paired);
    }
    begin(alloc, values)
}
