//! Spells a list of leaves with the symbols of a dictionary at the least total cost: by a shortest path from the start
//! of the list to its end.
//!
//! Only the safety of this code is proved: a spelling is only a proposal, and proposals are tested.
ghost use Rattle.std.specs.Prelude.{◌≡◌, ◌<◌, ◌≤◌, length, true};

use crate::pairing::cells::{are_all, length_in};
use crate::pairing::leaves::MAX_SYMBOLS;
use crate::pairing::numbering::Renumbered;
use std::alloc::{AllocError, Global};
use szg_pairs::entry::{is_leaf, left, right};

/// No node.
const NO_NODE: u32 = u32::MAX;

/// The cost of a node at which no symbol ends.
const NO_COST: u64 = u64::MAX;

/// The greatest number of values of a symbol. Costs in a stretch of equal leaves are compared at this distance.
const PERIOD: usize = 256;

/// The number of costs kept at a time.
const KEPT: usize = 512;

/// A node of a prefix tree of expansions. The leaf symbols on the path from the root to this node, its own `leaf`
/// included, are a prefix of the expansion of some symbol.
#[derive(Clone, Copy)]
struct Node {
    leaf: u16,
    /// The cheapest symbol whose expansion is exactly these leaf symbols. There is none if `cost` is `NO_COST`.
    symbol: u16,
    cost: u64,
    child: u32,
    sibling: u32,
}

/// A node at which no symbol ends, without children and without a next sibling.
const BARE: Node = Node {
    leaf: 0,
    symbol: 0,
    cost: NO_COST,
    child: NO_NODE,
    sibling: NO_NODE,
};

/// The tree of the expansions of a dictionary's symbols. The root has no node. The first nodes are its children: one
/// for each leaf symbol, at the index that is the symbol's number.
#[derive(Drop)]
struct Tree {
    nodes: Vec<Node>,
}

impl Tree {
    /// Creates the tree of a dictionary in which symbol s costs `costs[s]`.
    fn new(alloc: Global, entries: &[[u8; 3]], costs: &[u64]) -> Result<Tree, AllocError> {
        let mut tree = Tree {
            nodes: Vec::new(alloc),
        };
        for (number, entry) in entries.iter().enumerate() {
            if is_leaf(*entry) {
                let leaf = number.min(MAX_SYMBOLS) as u16;
                tree.nodes.push(Node { leaf, ..BARE })?;
            }
        }
        for (number, cost) in costs.iter().enumerate() {
            tree.insert(alloc, entries, number.min(MAX_SYMBOLS) as u16, *cost)?;
        }
        Ok(tree)
    }

    /// Returns the child for `leaf` among a node's children, of which `first` is the first; `NO_NODE` if there is none.
    fn child(&self, first: u32, leaf: u16) -> usize {
        let mut next = first as usize;
        for _ in 0..self.nodes.len() {
            let Some(node) = self.nodes.get(next) else {
                break;
            };
            if node.leaf == leaf {
                return next;
            }
            next = node.sibling as usize;
        }
        NO_NODE as usize
    }

    /// Returns the child of `parent`, or of the root if this is None, for `leaf`; creates it if there is none.
    fn child_or_new(&mut self, parent: Option<usize>, leaf: u16) -> Result<usize, AllocError> {
        let Some(parent) = parent else {
            return Ok(usize::from(leaf));
        };
        if parent >= self.nodes.len() {
            return Ok(NO_NODE as usize);
        }
        let node = self.nodes[parent];
        let found = self.child(node.child, leaf);
        if found < self.nodes.len() {
            return Ok(found);
        }
        let new = self.nodes.len();
        self.nodes.push(Node {
            leaf,
            sibling: node.child,
            ..BARE
        })?;
        self.nodes[parent].child = new.min(NO_NODE as usize) as u32;
        Ok(new)
    }

    /// Adds the path of a symbol's expansion. The symbol ends there if it costs less than the one that ended there before.
    fn insert(
        &mut self,
        alloc: Global,
        entries: &[[u8; 3]],
        symbol: u16,
        cost: u64,
    ) -> Result<(), AllocError> {
        let mut end = None;
        let mut waiting = Vec::new(alloc);
        waiting.push(symbol)?;
        for _ in 0..KEPT.saturating_mul(2) {
            let Some(next) = waiting.pop() else {
                break;
            };
            let Some(entry) = entries.get(usize::from(next)) else {
                continue;
            };
            if is_leaf(*entry) {
                end = Some(self.child_or_new(end, next)?);
            } else {
                waiting.push(right(*entry))?;
                waiting.push(left(*entry))?;
            }
        }
        if let Some(node) = self.nodes.get_mut(end.unwrap_or(NO_NODE as usize)) {
            if cost < node.cost {
                node.symbol = symbol;
                node.cost = cost;
            }
        }
        Ok(())
    }
}

/// The cheapest spelling from an index on: its first symbol, its cost, and how many nodes are on the path searched.
#[derive(Clone, Copy, Default)]
struct Cheapest {
    symbol: u16,
    cost: u64,
    steps: u64,
}

/// Returns the cheapest spelling of the leaves from index `place` on. `kept` has the costs of the cheapest spellings
/// from later indexes on: for index n at `n % KEPT`.
fn cheapest_from(tree: &Tree, leaves: &[u16], place: usize, kept: &[u64; KEPT]) -> Cheapest
    requires { place < length leaves.now }
{
    let mut best = Cheapest::default();
    best.cost = NO_COST;
    let mut next = usize::from(leaves[place]);
    for end in place.saturating_add(1)..leaves.len().saturating_add(1) {
        let Some(node) = tree.nodes.get(next) else {
            break;
        };
        best.steps = best.steps.saturating_add(1);
        if node.cost != NO_COST {
            let cost = node.cost.saturating_add(kept[end % KEPT]);
            if cost < best.cost {
                best.symbol = node.symbol;
                best.cost = cost;
            }
        }
        if node.child == NO_NODE || end >= leaves.len() {
            break;
        }
        next = tree.child(node.child, leaves[end]);
    }
    best
}

/// A text that spells a list of leaves, or the best first symbol from each index on; and how many nodes are on the paths
/// that are searched for it.
#[derive(Drop)]
pub(crate) struct Spelling {
    pub symbols: Vec<u16>,
    pub steps: u64,
    /// The number of these nodes that were visited: those in the middle of a stretch of equal leaves are only counted.
    pub visited: u64,
}

/// What is known at an index of the leaves, while the indexes are walked from the last to the first.
#[derive(Clone, Copy, Default)]
struct SpellingWalk {
    /// The costs of the cheapest spellings from the next `KEPT` indexes on: from index n on at `n % KEPT`.
    kept: [u64; KEPT],
    /// The cheapest spelling from the index on.
    found: Cheapest,
    /// How many leaves from the index on are equal.
    equal: usize,
    /// By how much the cost exceeds that of `PERIOD` indexes later on, modulo 2^64.
    rise: u64,
    /// For how many indexes in succession it does so.
    same: usize,
}

impl SpellingWalk {
    /// If the `KEPT` leaves before index `place` are equal to the leaf there, and the costs rise evenly, moves on to the
    /// first of these leaves: repeats the symbols of the `PERIOD` indexes from `place` on. Returns whether it does.
    fn repeat(&mut self, leaves: &[u16], symbols: &mut [u16], place: usize) -> bool
        requires { length symbols.old ≡ length leaves.now }
        ensures { result ≡ true → 512 ≤ place }
    {
        let is_even = self.equal >= KEPT && self.same >= PERIOD;
        if !is_even || place < KEPT || leaves.len() < PERIOD || place > leaves.len() - PERIOD {
            return false;
        }
        if !are_all(&leaves[place - KEPT..place], leaves[place]) {
            return false;
        }
        symbols.copy_within(place..place + PERIOD, place - PERIOD);
        symbols.copy_within(place - PERIOD..place, place - KEPT);
        for cost in self.kept.iter_mut() {
            *cost = cost.saturating_add(self.rise.saturating_mul(2));
        }
        true
    }

    /// Moves on to index `place`, the one before, and stores the best symbol there. Returns the number of nodes visited.
    ///
    /// The best symbol is the one from `PERIOD` indexes later on, and the cost is greater by `rise`, if the leaves that
    /// both depend on are equal, and if the costs from the next `PERIOD` indexes on all exceed the costs from `PERIOD`
    /// indexes later on by `rise`.
    fn step(&mut self, tree: &Tree, leaves: &[u16], symbols: &mut [u16], place: usize) -> u64
        requires place { place < length leaves.now }
        requires count { length symbols.old ≡ length leaves.now }
    {
        let is_equal = place + 1 < leaves.len() && leaves[place] == leaves[place + 1];
        let equal_before = if is_equal { self.equal } else { 0 };
        self.equal = equal_before.saturating_add(1);
        let later = place.saturating_add(PERIOD);
        let cost_later = self.kept[later % KEPT];
        let mut visited = 0;
        if self.equal >= KEPT && self.same >= PERIOD && later < symbols.len() {
            self.found.symbol = symbols[later];
            self.found.cost = cost_later.saturating_add(self.rise);
        } else {
            self.found = cheapest_from(tree, leaves, place, &self.kept);
            visited = self.found.steps;
        }
        let rise = self.found.cost.wrapping_sub(cost_later);
        let same_before = if rise == self.rise { self.same } else { 0 };
        self.same = same_before.saturating_add(1);
        self.rise = rise;
        self.kept[place % KEPT] = self.found.cost;
        symbols[place] = self.found.symbol;
        visited
    }
}

/// Chooses the best symbol at each index of the leaves, from the last to the first. None if more than `limit` nodes are visited.
fn choose(
    alloc: Global,
    tree: &Tree,
    leaves: &[u16],
    limit: u64,
) -> Result<Option<Spelling>, AllocError> {
    let mut chosen = vec![in alloc; 0u16; leaves.len()]?;
    let symbols = chosen.as_mut_slice();
    let (mut steps, mut visited) = (0u64, 0u64);
    let mut walk = SpellingWalk::default();
    let mut place = leaves.len();
    while place > 0 {
        if walk.repeat(leaves, symbols, place) {
            steps = steps.saturating_add(walk.found.steps.saturating_mul(KEPT as u64));
            place -= KEPT;
            continue;
        }
        place -= 1;
        visited = visited.saturating_add(walk.step(tree, leaves, symbols, place));
        if visited > limit {
            return Ok(None);
        }
        steps = steps.saturating_add(walk.found.steps);
    }
    Ok(Some(Spelling {
        symbols: chosen,
        steps,
        visited,
    }))
}

/// Spells leaves with the least total cost, where symbol s costs `costs[s]`. First the best symbol is chosen at each index, from
/// the last to the first; then the symbols of the text are collected. None if more than `limit` nodes are visited.
pub(crate) fn spell(
    alloc: Global,
    leaves: &[u16],
    dictionary: &Renumbered,
    costs: &[u64],
    limit: u64,
) -> Result<Option<Spelling>, AllocError> {
    let tree = Tree::new(alloc, &dictionary.entries, costs)?;
    let Some(mut spelling) = choose(alloc, &tree, leaves, limit)? else {
        return Ok(None);
    };
    let mut symbols = Vec::new(alloc);
    let mut place = 0usize;
    for _ in 0..spelling.symbols.len() {
        let Some(symbol) = spelling.symbols.get(place) else {
            break;
        };
        symbols.push(*symbol)?;
        place = place.saturating_add(length_in(&dictionary.lens, *symbol));
    }
    spelling.symbols = symbols;
    Ok(Some(spelling))
}
