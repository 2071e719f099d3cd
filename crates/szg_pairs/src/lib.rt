//! Pair dictionaries of Syzygy tables: each symbol is a single value or a pair of symbols.
#![tactic(auto)]

ghost use Rattle.std.specs.Prelude.{◌≡◌, ◌<◌, ◌≤◌, ◌++◌, ◌⊎◌, length, slice_get, slice_index, ℕ, Some, IfSome, IfNone, IfOk, IfErr, IsErrOf, MatchOption};
ghost use Rattle.szg_pairs.specs.Expansion.{expansion_of, depths_of};
ghost use Rattle.szg_pairs.specs.Dictionary.{FailsFirst, IsDictionary, IsDictionaryFault};
ghost use Rattle.szg_pairs.specs.Entry.{NamesSymbols, left_of, right_of};

use entry::names_symbols_below;
use nodes::{Node, find_nodes};
use std::alloc::{AllocError, Global};
use std::marker::Model;
use walk::find_lengths;

pub mod entry;
pub mod laws;
mod nodes;
mod walk;

/// Why a dictionary is refused, with the least faulty symbol.
#[derive(Debug, PartialEq, Eq, Drop)]
pub enum DictFault {
    /// The symbol is a pair with a child that does not exist.
    Child(u16),
    /// The symbol has no finite expansion.
    Cycle(u16),
    /// The symbol expands to more than 256 values.
    LongSymbol(u16),
    /// Memory was refused. No clause says that this is the only cause.
    Memory,
}

impl From<AllocError> for DictFault {
    ghost use Rattle.std.specs.Prelude.{◌≡◌};
    ghost use Rattle.szg_pairs.specs.declared.DictFault.TheVariants.{Memory};

    ghost from_gives = { λ _ fault. fault ≡ Memory };

    fn from(_: AllocError) -> Self {
        DictFault::Memory
    }
}

/// The leaf that a descent through a symbol's pairs ends at.
#[derive(Debug, Clone, Copy, PartialEq, Eq)]
pub struct Descent {
    /// The value of the leaf.
    pub value: u16,
    /// The number of pairs that the descent went through, 0 to 255.
    pub pairs: u16,
}

/// A dictionary in which every symbol expands to 1 to 256 values.
///
/// Symbols are numbered from 0. The entry of a symbol, three bytes of the file, is a leaf with one value or a pair:
/// the values of one symbol followed by those of another. This is the pairing of de Man's format. The probing code
/// calls the entries `symPat` and the lengths, less one, `symLen`.
#[derive(Drop)]
pub struct Dict {
    nodes: Vec<Node>,
    /// The number of values of each symbol. A list of its own, since decoding reads it for each word.
    lengths: Vec<u16>,
}

impl Model for Dict {
    ghost use Rattle.std.specs.Prelude.{ℕ, List, map};
    ghost use Rattle.szg_pairs.specs.State.{IsDictState, entry_of};

    ghost Value = { List (List ℕ) };

    ghost view = { λ dict. map entry_of dict.nodes.items };

    ghost invariant = { λ dict. IsDictState (map entry_of dict.nodes.items) dict.nodes.items dict.lengths.items };
}

impl Dict {
    /// Creates the dictionary of at most 65,535 entries; entry `s` belongs to symbol `s`.
    ///
    /// Errors: `Child` if an entry has a child that does not exist; else `Cycle` if a symbol has no finite
    /// expansion; else `LongSymbol` if a symbol has more than 256 values. Each carries the least such symbol.
    /// `Memory` if a list of the search for `Cycle` and `LongSymbol`, or one of the dictionary's own, could not grow, so
    /// never if there is a `Child`. No clause says that `Memory` has no other cause, since none can say what an
    /// allocator returns; reading and tests show it. The running time is linear in the number of entries, and the call
    /// depth does not grow with the depth of the pairs.
    pub fn new(alloc: Global, entries: Vec<[u8; 3]>) -> Result<Dict, DictFault>
        requires { length entries.items ≤ 65535 }
        ensures accepted { IfOk result (λ dict. (dict ≡ entries.items) × IsDictionary entries.items) }
        ensures refused { IfErr result (λ fault. IsDictionaryFault entries.items fault) }
        ensures memory { IsErrOf result DictFault.Memory → (s : ℕ) → NamesSymbols entries.items s }
        ensures child { (s : ℕ) → IsDictionaryFault entries.items (DictFault.Child s) → IsErrOf result (DictFault.Child s) }
        ensures cycle { (s : ℕ) → IsDictionaryFault entries.items (DictFault.Cycle s) → IsErrOf result (DictFault.Cycle s) ⊎ IsErrOf result DictFault.Memory }
        ensures long_symbol { (s : ℕ) → IsDictionaryFault entries.items (DictFault.LongSymbol s) → IsErrOf result (DictFault.LongSymbol s) ⊎ IsErrOf result DictFault.Memory }
    {
        if let Some(symbol) = first_child(&entries) {
            return Err(DictFault::Child(symbol));
        }
        let lengths = find_lengths(alloc, &entries)?;
        if let Some(symbol) = lengths.iter().position(|length| *length == 0) {
            return Err(DictFault::Cycle(symbol as u16));
        }
        if let Some(symbol) = lengths.iter().position(|length| *length > 256) {
            return Err(DictFault::LongSymbol(symbol as u16));
        }
        let nodes = find_nodes(alloc, &entries, &lengths)?;
        Ok(Dict { nodes, lengths })
    }

    /// Returns the number of symbols, 0 to 65,535.
    pub fn symbols(&self) -> u16
        ensures number { result ≡ length self.now }
        ensures dictionary { IsDictionary self.now }
    {
        self.nodes.len() as u16
    }

    /// Returns the entry of symbol `s`, unchanged.
    pub fn entry(&self, s: u16) -> [u8; 3]
        requires { s < length self.now }
        ensures { slice_get self.now s ≡ Some result }
    {
        self.nodes[s as usize].entry()
    }

    /// Returns the two symbols of the pair `s`. None if the symbol is a leaf.
    pub fn pair(&self, s: u16) -> Option<(u16, u16)>
        requires { s < length self.now }
        ensures there { IfSome result (λ pair. (pair.0 < length self.now) × (pair.1 < length self.now)) }
        ensures symbols { IfSome result (λ pair. IfSome (slice_get self.now s) (λ entry. (pair.0 ≡ left_of entry) × (pair.1 ≡ right_of entry))) }
        ensures joined { IfSome result (λ pair. expansion_of self.now s ≡ expansion_of self.now pair.0 ++ expansion_of self.now pair.1) }
        ensures shorter { IfSome result (λ pair. (length (expansion_of self.now pair.0) < length (expansion_of self.now s)) × (length (expansion_of self.now pair.1) < length (expansion_of self.now s))) }
        ensures leaf { IfNone result (length (expansion_of self.now s) ≡ 1) }
    {
        let node = self.nodes[s as usize];
        if node.is_leaf() {
            return None;
        }
        Some((node.left, node.right))
    }

    /// Returns the number of values of symbol `s`, 1 to 256.
    pub fn len(&self, s: u16) -> u16
        requires { s < length self.now }
        ensures number { result ≡ length (expansion_of self.now s) }
        ensures at_least { 1 ≤ result }
        ensures at_most { result ≤ 256 }
    {
        self.lengths[s as usize]
    }

    /// Returns the numbers of values of the symbols, 1 to 256 each.
    pub fn lengths(&self) -> &[u16]
        ensures number { length result.now ≡ length self.now }
        ensures each { (s : ℕ) → s < length self.now → slice_index result.now s ≡ length (expansion_of self.now s) }
        ensures at_least { (s : ℕ) → s < length self.now → 1 ≤ slice_index result.now s }
        ensures at_most { (s : ℕ) → s < length self.now → slice_index result.now s ≤ 256 }
    {
        &self.lengths
    }

    /// Returns value `i` of symbol `s`, 0 to 4,095, by a descent.
    pub fn value_at(&self, s: u16, i: u16) -> u16
        requires there { s < length self.now }
        requires within { i < length (expansion_of self.now s) }
        ensures { slice_get (expansion_of self.now s) i ≡ Some result }
    {
        self.descend(s, i).value
    }

    /// Returns value `i` of symbol `s` and the number of pairs above it, at most 255. As in the probing code, the
    /// descent compares `i` with the length of each left symbol, which is the `split` of the pair's node.
    pub fn descend(&self, s: u16, i: u16) -> Descent
        requires there { s < length self.now }
        requires within { i < length (expansion_of self.now s) }
        ensures value { slice_get (expansion_of self.now s) i ≡ Some result.value }
        ensures pairs { slice_get (depths_of self.now s) i ≡ Some result.pairs }
        ensures at_most { result.pairs ≤ 255 }
    {
        let mut symbol = s;
        let mut rest = i;
        let mut pairs = 0;
        loop {
            let node = self.nodes[symbol as usize];
            if node.is_leaf() {
                return Descent {
                    value: node.left,
                    pairs,
                };
            }
            pairs += 1;
            if rest < node.split {
                symbol = node.left;
            } else {
                rest -= node.split;
                symbol = node.right;
            }
        }
    }

    /// Returns the values of symbol `s`, 1 to 256, in their order. Errors: memory is refused. Reading and tests show
    /// that there is no other cause.
    pub fn expand(&self, alloc: Global, s: u16) -> Result<Vec<u16>, AllocError>
        requires { s < length self.now }
        ensures { IfOk result (λ values. values.items ≡ expansion_of self.now s) }
    {
        let mut values = Vec::with_capacity(alloc, self.len(s) as usize)?;
        let mut waiting = Vec::new(alloc);
        waiting.push(s)?;
        while let Some(symbol) = waiting.pop() {
            let node = self.nodes[symbol as usize];
            if node.is_leaf() {
                values.push(node.left)?;
            } else {
                waiting.push(node.right)?;
                waiting.push(node.left)?;
            }
        }
        Ok(values)
    }
}

/// Returns the least symbol whose pair has a child that does not exist. None if there is none.
fn first_child(entries: &[[u8; 3]]) -> Option<u16>
    requires { length entries.now ≤ 65535 }
    ensures { MatchOption result ((s : ℕ) → NamesSymbols entries.now s) (λ s. FailsFirst (NamesSymbols entries.now) s) }
{
    let symbols = entries.len() as u16;
    for symbol in 0..symbols {
        if !names_symbols_below(symbols, entries[symbol as usize]) {
            return Some(symbol);
        }
    }
    None
}
