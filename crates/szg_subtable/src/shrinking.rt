//! Chooses the pairs of a subtable of a small table and spells its values with them: tries several choices and counts their bytes.
//!
//! A list of more than `MOST_VALUES` values gets all pairs, and nothing is tried. For a shorter one the first tries are the text
//! without pairs, with 256 pairs and with all pairs. Then, beginning with all pairs, the pairs that save the fewest bits are
//! dropped and the values are spelled again, with a bound that rises at each try. If neither the list nor the dictionary is too
//! long (`FEW_VALUES`, `FEW_SYMBOLS`), pairs are then added to the best text and dropped again, several times, and after that
//! single pairs are dropped. At the end the values are spelled again with the code of the best text. A spelling of a long list that
//! visits too many tree nodes (`LIMIT`) is given up, and the best text so far stays.
//!
//! Only the safety of this code is proved: its result is a proposal, and proposals are tested.

mod costs;
mod dropping;
mod spelling;
mod tries;

use crate::building::sizing::choose_sizes;
use crate::pairing::leaves::{MAX_SYMBOLS, Paired};
use crate::pairing::proposing::with_pairs;
use crate::shrinking::costs::BIT;
use crate::shrinking::dropping::{without_one, without_poor};
use crate::shrinking::tries::Best;
use crate::watching::{Unwatched, Watcher};
use std::alloc::{AllocError, Global};
use std::iter::StepBy;
use std::ops::RangeInclusive;

/// The number of tree nodes on the paths searched after which no more pairs are added, and none dropped by a rising
/// bound. Single pairs may still be dropped then (`TRIM_BUDGET`), and the best text is still spelled again.
const BUDGET: u64 = 1 << 29;

/// The number of tree nodes on the paths searched after which no more single pairs are dropped.
const TRIM_BUDGET: u64 = 1 << 28;

/// The number of tree nodes that are visited at most, without those for the symbols (`SYMBOL_NODES`). A list of at most
/// three million values never needs more: it has two spellings after `BUDGET` is used up, of at most 256 nodes a value.
const LIMIT: u64 = 1 << 31;

/// The number of tree nodes that may be visited besides for each symbol of the text with all pairs.
const SYMBOL_NODES: u64 = 4096;

/// The greatest number of values of a list that is spelled many times; longer lists are spelled a few times only.
const FEW_VALUES: usize = 1 << 17;

/// The greatest number of symbols of a dictionary to which more pairs are added, and of one that is trimmed.
const FEW_SYMBOLS: usize = 1024;

/// The greatest number of values of a list that is spelled at all. Of a longer one only the pairs are made.
const MOST_VALUES: usize = 1 << 27;

/// One more than the number of times that pairs are added to the best text of a list of at most `FEW_VALUES` values. No
/// pairs are added to a longer one.
const ROUNDS: u64 = 61;

/// The greatest number of passes over all pairs.
const PASSES: u64 = 4;

/// The number of pairs of the second try. It is also the default of `szg build --rounds`.
const FEW_PAIRS: u32 = 256;

/// The bounds that one call of `drop_pairs` tries, in half bits. A pair that is no half of a kept pair is dropped if it
/// saves less than the bound.
type Bounds = StepBy<RangeInclusive<u64>>;

/// Drops the pairs that save the fewest bits, with a rising bound, and spells the leaves again after each step. Offers
/// each text to `best`.
fn drop_pairs<V: Watcher>(
    alloc: Global,
    start: Paired,
    bounds: Bounds,
    quarters: u64,
    best: &mut Best,
    watcher: &mut V,
) -> Result<(), AllocError> {
    let mut paired = start;
    for bound in bounds {
        if best.budget == 0 {
            break;
        }
        watcher.attempt(best.tries, Some(best.bytes()));
        let rest = without_poor(alloc, &paired, bound.saturating_mul(BIT / 2))?;
        let Some(next) = best.spelled(alloc, rest, quarters)? else {
            break;
        };
        best.offer(alloc, &next)?;
        paired = next;
    }
    Ok(())
}

/// Tries the texts without pairs, with 256 pairs and with all pairs. Returns the best of them, and the last one. The
/// text without pairs is tried only if it would be the best with words of one bit.
fn begin_tries<V: Watcher>(
    alloc: Global,
    begun: Paired,
    other_bytes: Option<u64>,
    watcher: &mut V,
) -> Result<(Best, Paired), AllocError> {
    let values = begun.symbols.len() as u64;
    let few = with_pairs(alloc, begun.clone()?, FEW_PAIRS, &mut Unwatched)?;
    let mut best = Best {
        leaves: begun.symbols.to_vec(alloc)?,
        cost: choose_sizes(alloc, values, &few, other_bytes)?.cost,
        paired: few,
        other_bytes,
        budget: BUDGET,
        limit: LIMIT,
        tries: 2,
    };
    if values / 8 <= best.bytes() {
        let cost = best.cost_of(alloc, &begun)?;
        if cost <= best.cost {
            best.paired = begun.clone()?;
            best.cost = cost;
        }
    }
    let all = with_pairs(alloc, begun, MAX_SYMBOLS as u32, watcher)?;
    best.offer(alloc, &all)?;
    let symbols = all.symbols.len() as u64;
    best.limit = LIMIT.saturating_add(symbols.saturating_mul(SYMBOL_NODES));
    Ok((best, all))
}

/// Adds pairs to the best text and drops pairs again, several times. The steps of the bounds and the blends of costs
/// differ from round to round.
fn add_pairs<V: Watcher>(
    alloc: Global,
    best: &mut Best,
    watcher: &mut V,
) -> Result<(), AllocError> {
    for round in 1..ROUNDS {
        if best.budget == 0 || best.paired.entries.len() > FEW_SYMBOLS {
            break;
        }
        let start = best.paired.clone()?;
        let more = with_pairs(alloc, start, MAX_SYMBOLS as u32, &mut Unwatched)?;
        let bounds = (24..=128).step_by(8 - (round % 7) as usize);
        drop_pairs(alloc, more, bounds, round * 2 % 5, best, watcher)?;
    }
    Ok(())
}

/// Drops each pair alone, from the last to the first, spells the leaves again, and keeps the result in `best` if it
/// costs less: in at most `PASSES` passes, until a pass keeps nothing. Sets the budget of visited nodes to
/// `TRIM_BUDGET`, which the last spelling may exceed.
fn trim<V: Watcher>(alloc: Global, best: &mut Best, watcher: &mut V) -> Result<(), AllocError> {
    best.budget = TRIM_BUDGET;
    for pass in 0..PASSES {
        let quarters = pass % 2 * 2;
        let count = best.paired.entries.len();
        let mut is_less = false;
        for symbol in (0..count).rev() {
            if best.budget == 0 {
                break;
            }
            watcher.attempt(best.tries, Some(best.bytes()));
            let symbol = symbol.min(MAX_SYMBOLS) as u16;
            if let Some(rest) = without_one(alloc, &best.paired, symbol)? {
                let Some(tried) = best.spelled(alloc, rest, quarters)? else {
                    return Ok(());
                };
                is_less |= best.offer(alloc, &tried)?;
            }
        }
        if !is_less {
            break;
        }
    }
    Ok(())
}

/// Returns a dictionary and a text that expands to the leaves in `begun`, which has no pairs. `other_bytes` is as in
/// `choose_sizes`.
pub(crate) fn shrink<V: Watcher>(
    alloc: Global,
    begun: Paired,
    other_bytes: Option<u64>,
    watcher: &mut V,
) -> Result<Paired, AllocError> {
    let is_short = begun.symbols.len() <= FEW_VALUES;
    let (bounds, tries) = if is_short {
        ((16..=128).step_by(8), 4)
    } else {
        ((32..=96).step_by(32), 1)
    };
    if begun.symbols.len() > MOST_VALUES {
        return with_pairs(alloc, begun, MAX_SYMBOLS as u32, watcher);
    }
    watcher.attempt(0, None);
    let (mut best, all) = begin_tries(alloc, begun, other_bytes, watcher)?;
    drop_pairs(alloc, all, bounds, 2, &mut best, watcher)?;
    if is_short {
        add_pairs(alloc, &mut best, watcher)?;
        if best.paired.entries.len() <= FEW_SYMBOLS {
            trim(alloc, &mut best, watcher)?;
        }
    }
    // spell the leaves again with the code of the best text, until that costs more or is given up
    for _ in 0..tries {
        let dictionary = without_poor(alloc, &best.paired, 0)?;
        let Some(tried) = best.spelled(alloc, dictionary, 0)? else {
            break;
        };
        let cost = best.cost_of(alloc, &tried)?;
        if cost > best.cost {
            break;
        }
        best.paired = tried;
        best.cost = cost;
    }
    Ok(best.paired)
}
