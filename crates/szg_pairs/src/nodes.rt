//! The nodes of a dictionary: one for each symbol, with all that a step of a descent reads. So a step waits for one
//! row of one list.
ghost use Rattle.std.specs.Prelude.{ℕ, ◌≡◌, ◌==◌, length, map, IfOk, IsTrue};
ghost use Rattle.szg_pairs.specs.Entry.{names_symbols_below, NamesSymbols};
ghost use Rattle.szg_pairs.specs.State.{entry_of, node_of};

use crate::entry::{LEAF, is_leaf, left, right};
use std::alloc::{AllocError, Global};

/// A symbol: the two numbers of its entry, and the value number at which a pair's right symbol begins.
#[derive(Clone, Copy)]
pub(crate) struct Node {
    /// A leaf's value, or the left symbol of a pair.
    pub left: u16,
    /// 4095 for a leaf, else the right symbol of a pair.
    pub right: u16,
    /// The number of values of a pair's left symbol. 0 for a leaf.
    pub split: u16,
}

impl Node {
    /// Creates the node of an entry. `lengths` is the number of values of each symbol.
    fn new(entry: &[u8; 3], lengths: &[u16]) -> Node
        requires { IsTrue (names_symbols_below (length lengths.now) entry.now) }
        ensures node { result ≡ node_of lengths.now entry.now }
        ensures entry { entry_of result ≡ entry.now }
    {
        // Facts that the proof uses: these are bytes.
        prove!(entry[0] <= 255);
        prove!(entry[1] <= 255);
        prove!(entry[2] <= 255);
        let (left, right) = (left(*entry), right(*entry));
        let split = if is_leaf(*entry) {
            0
        } else {
            lengths[left as usize]
        };
        Node { left, right, split }
    }

    /// Returns whether the symbol is a leaf.
    pub(crate) fn is_leaf(self) -> bool
        ensures { result ≡ (self.right == 4095) }
    {
        self.right == LEAF
    }

    /// Returns the symbol's entry: 24 bits, of which the left number is the low 12 and the right number the high 12.
    pub(crate) fn entry(self) -> [u8; 3]
        ensures { result ≡ entry_of self }
    {
        let bits = u32::from(self.left) + 0x1000 * u32::from(self.right);
        [
            (bits % 0x100) as u8,
            (bits / 0x100 % 0x100) as u8,
            (bits / 0x10000 % 0x100) as u8,
        ]
    }
}

/// Returns the node of each symbol. `lengths` is the number of values of each symbol.
pub(crate) fn find_nodes(
    alloc: Global,
    entries: &[[u8; 3]],
    lengths: &[u16],
) -> Result<Vec<Node>, AllocError>
    requires same_length { length lengths.now ≡ length entries.now }
    requires named { (s : ℕ) → NamesSymbols entries.now s }
    ensures nodes { IfOk result (λ nodes. nodes.items ≡ map (node_of lengths.now) entries.now) }
    ensures entries { IfOk result (λ nodes. map entry_of nodes.items ≡ entries.now) }
{
    let mut nodes = Vec::with_capacity(alloc, entries.len())?;
    for symbol in 0..entries.len() {
        nodes.push(Node::new(&entries[symbol], lengths))?;
    }
    Ok(nodes)
}
