//! Builds a subtable from its values: pairs, words, blocks and the sparse index.

mod bitbuf;
mod blocks;
mod coding;
mod lengths;
pub(crate) mod sizing;
mod sparse;

ghost use Rattle.std.specs.Prelude.{◌≡◌, ◌<◌, ◌≤◌, ◌^◌, false, length, map, IfOk};
ghost use Rattle.std.specs.List.{AllByRecursion};
ghost use Rattle.szg_block.specs.Indexed.{entry_of};
ghost use Rattle.szg_subtable.specs.Building.{HasBinaryCode, IsExtended, IsMadeSub, IsPairing};
ghost use Rattle.szg_subtable.specs.PackedSubtable.{IsInBounds, IsPackedSub};
ghost use Rattle.szg_subtable.specs.Pairing.{different_values};

use crate::building::blocks::fill_blocks;
use crate::building::coding::choose_code;
use crate::building::sizing::choose_sizes;
use crate::building::sparse::sparse_index;
use crate::pairing::accepting::count_pairs_in;
use crate::pairing::leaves::Paired;
use crate::pairing::rounds::{pair_for_small_table, pair_up};
use crate::watching::Watcher;
use std::alloc::{AllocError, Global};
use szg_block::{Entry, Sub};
use szg_pairs::{Dict, DictFault};

/// How a subtable is packed.
#[derive(Clone, Copy)]
pub struct Packing {
    /// A block has 2^block_bits bytes; 5 to 10.
    pub block_bits: u8,
    /// An entry of the sparse index covers 2^span_bits values; 1 to 16.
    pub span_bits: u8,
    /// The greatest number of pairs that a dictionary gets, at most 4,000.
    pub rounds: u32,
}

/// How the packing of subtables is chosen.
#[derive(Clone, Copy)]
pub enum Choice {
    /// Each subtable is packed with these numbers.
    Fixed(Packing),
    /// Each subtable is packed so that it takes few bytes. Its pairs, its code, its block bits and its span bits are
    /// chosen by trial.
    Small,
}

/// Appends one extra length, for 65,536 values, if the last sparse entry points past the blocks. Returns the number
/// of lengths appended.
fn push_extra(lengths: &mut Vec<u16>, sparse: &[Entry]) -> Result<u8, AllocError>
    ensures { IfOk result (λ extra. IsExtended (map entry_of sparse.now) lengths.old.items lengths.new.items extra) }
{
    let Some(last) = sparse.last() else {
        return Ok(0);
    };
    if (last.block as usize) < lengths.len() {
        return Ok(0);
    }
    lengths.push(u16::MAX)?;
    Ok(1)
}

/// Builds a subtable with blocks from values and the pairs made of them. If `is_huffman`, its code is a Huffman code by
/// the symbols' counts in the text (the symbols that expand to the values); else it is the truncated binary code, whose
/// words have at most two lengths.
fn build_paired(
    alloc: Global,
    values: &[u16],
    flags: u8,
    paired: Paired,
    packing: Packing,
    is_huffman: bool,
) -> Result<Sub, AllocError>
    requires some { 0 < length values.now }
    requires few { length values.now < 2 ^ 33 }
    requires pairing { IsPairing values.now packing.rounds paired.entries.items paired.symbols.items }
    requires least_block { 5 ≤ packing.block_bits }
    requires most_block { packing.block_bits ≤ 10 }
    requires least_span { 1 ≤ packing.span_bits }
    requires most_span { packing.span_bits ≤ 16 }
    ensures made { IfOk result (λ sub. IsMadeSub values.now flags packing.block_bits packing.span_bits packing.rounds sub) }
    ensures code { is_huffman ≡ false → IfOk result HasBinaryCode }
{
    let dict = match Dict::new(alloc, paired.entries) {
        Ok(dict) => dict,
        Err(DictFault::Memory) => return Err(AllocError),
        Err(DictFault::Child(_)) => unreachable!(),
        Err(DictFault::Cycle(_)) => unreachable!(),
        Err(DictFault::LongSymbol(_)) => unreachable!(),
    };
    let code = choose_code(alloc, &dict, &paired.symbols, is_huffman)?;
    let mut filled = fill_blocks(alloc, &code, &dict, &paired.symbols, packing.block_bits)?;
    let blocks = filled.lengths.len() as u32;
    let sparse = sparse_index(
        alloc,
        &filled.lengths,
        values.len() as u64,
        packing.span_bits,
    )?;
    let extra = push_extra(&mut filled.lengths, &sparse)?;
    Ok(Sub::Pairs {
        flags,
        block_bits: packing.block_bits,
        span_bits: packing.span_bits,
        extra,
        blocks,
        code,
        dict,
        sparse,
        lengths: filled.lengths,
        packed: filled.packed,
    })
}

/// Builds the subtable with blocks of a list of values, with these flags. In a small table its pairs are those of
/// `pair_for_small_table`; its block bits, its span bits and the kind of its code are those of `choose_sizes`.
/// `other_bytes` is the number of the table's bytes before the sparse indexes without those of this subtable's header;
/// None if the padding before the blocks isn't counted. Errors: `AllocError` if memory is refused.
pub fn pack<V: Watcher>(
    alloc: Global,
    values: &[u16],
    flags: u8,
    choice: Choice,
    other_bytes: Option<u64>,
    watcher: &mut V,
) -> Result<Sub, AllocError>
    requires some { 0 < length values.now }
    requires few { length values.now < 2 ^ 33 }
    requires small { AllByRecursion (λ v. v ≤ 4095) values.now }
    requires different { length (different_values values.now) ≤ 4095 }
    requires choice { IsInBounds choice }
    ensures { IfOk result (IsPackedSub values.now flags choice) }
{
    match choice {
        Choice::Fixed(packing) => {
            let paired = pair_up(alloc, values, packing.rounds, watcher)?;
            build_paired(alloc, values, flags, paired, packing, false)
        }
        Choice::Small => {
            let paired = pair_for_small_table(alloc, values, other_bytes, watcher)?;
            let sizes = choose_sizes(alloc, values.len() as u64, &paired, other_bytes)?;
            let packing = Packing {
                block_bits: sizes.block_bits,
                span_bits: sizes.span_bits,
                rounds: count_pairs_in(&paired.entries) as u32,
            };
            build_paired(alloc, values, flags, paired, packing, sizes.is_huffman)
        }
    }
}
