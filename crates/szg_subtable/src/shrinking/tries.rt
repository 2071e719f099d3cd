//! Tries for a small table: dictionaries and texts for one list of values. The try that costs least is kept.
//!
//! Only the safety of this code is proved: its result is a proposal, and proposals are tested.
use crate::building::sizing::{choose_sizes, words_for};
use crate::pairing::leaves::Paired;
use crate::pairing::numbering::Renumbered;
use crate::shrinking::costs::{BIT, log2};
use crate::shrinking::dropping::without_poor;
use crate::shrinking::spelling::spell;
use std::alloc::{AllocError, Global};

/// The best dictionary and text so far, and what they cost.
#[derive(Drop)]
pub(crate) struct Best {
    /// What each text expands to.
    pub leaves: Vec<u16>,
    pub paired: Paired,
    pub cost: u64,
    /// As in `choose_sizes`.
    pub other_bytes: Option<u64>,
    /// How many more nodes may be on the paths that `spell` searches, until no more tries are begun.
    pub budget: u64,
    /// How many more nodes `spell` may visit. A spelling that would visit more is given up.
    pub limit: u64,
    /// The number of tries so far.
    pub tries: u64,
}

impl Best {
    /// Returns the approximate number of bytes with the best text: those of its subtable and, if `other_bytes` is
    /// known, also the table's other bytes before the sparse indexes.
    pub(crate) fn bytes(&self) -> u64 {
        self.other_bytes.map_or(self.cost, |_| self.cost / 64)
    }

    /// Returns what a try costs.
    pub(crate) fn cost_of(&self, alloc: Global, tried: &Paired) -> Result<u64, AllocError> {
        let values = self.leaves.len() as u64;
        Ok(choose_sizes(alloc, values, tried, self.other_bytes)?.cost)
    }

    /// Copies `tried` into `paired` if it costs less than the best text. Returns whether it does.
    pub(crate) fn offer(&mut self, alloc: Global, tried: &Paired) -> Result<bool, AllocError> {
        self.tries = self.tries.saturating_add(1);
        let cost = self.cost_of(alloc, tried)?;
        if cost >= self.cost {
            return Ok(false);
        }
        self.paired = tried.clone()?;
        self.cost = cost;
        Ok(true)
    }

    /// Spells the leaves with a dictionary, at the costs of `blended_costs`, and drops the pairs that the new text does not
    /// need. None if more nodes would be visited than `limit` allows; then no later call spells them either.
    pub(crate) fn spelled(
        &mut self,
        alloc: Global,
        dictionary: Renumbered,
        quarters: u64,
    ) -> Result<Option<Paired>, AllocError> {
        let costs = blended_costs(alloc, &dictionary.counts, quarters)?;
        let Some(text) = spell(alloc, &self.leaves, &dictionary, &costs, self.limit)? else {
            (self.budget, self.limit) = (0, 0);
            return Ok(None);
        };
        self.budget = self.budget.saturating_sub(text.steps);
        self.limit = self.limit.saturating_sub(text.visited);
        let mut spelled = Paired {
            entries: dictionary.entries,
            lens: dictionary.lens,
            symbols: text.symbols,
        };
        let needed = without_poor(alloc, &spelled, 0)?;
        spelled.renumber(needed);
        Ok(Some(spelled))
    }
}

/// Returns what each symbol costs: `4 - quarters` quarters of the length of its word in the code chosen by the counts, and
/// `quarters` quarters of the bits estimated from its count.
fn blended_costs(alloc: Global, counts: &[u64], quarters: u64) -> Result<Vec<u64>, AllocError> {
    let words = words_for(alloc, counts, true)?;
    let total = counts
        .iter()
        .fold(0u64, |sum, count| sum.saturating_add(*count));
    let rest = 4u64.saturating_sub(quarters);
    let mut costs = Vec::new(alloc);
    for (count, length) in counts.iter().zip(&words) {
        let word = u64::from(*length).saturating_mul(BIT);
        // a word has at least one bit
        let estimated = log2(total).saturating_sub(log2(*count)).max(BIT);
        let blended = word
            .saturating_mul(rest)
            .saturating_add(estimated.saturating_mul(quarters));
        costs.push(blended)?;
    }
    Ok(costs)
}
