//! The sparse index: for each span that has a value, the block that contains the middle of the span, and the offset in it.
ghost use Rattle.std.specs.Prelude.{◌≡◌, ◌+◌, ◌<◌, ◌≤◌, ◌^◌, length, map, IfOk};
ghost use Rattle.szg_block.specs.Block.{start};
ghost use Rattle.szg_block.specs.Indexed.{entry_of};
ghost use Rattle.szg_block.specs.Sound.{entry_count};
ghost use Rattle.szg_subtable.specs.Building.{IsIndexOf};

use std::alloc::{AllocError, Global};
use szg_block::Entry;

/// A block, and the index of its first value.
#[derive(Drop)]
struct BlockWalk {
    block: usize,
    start: u64,
}

/// Moves on to the block that contains value `index`. Returns the sparse entry that leads to this value: the block, and
/// the offset in it. If `index` is `size` or more, the entry points past the last block.
fn entry_to(lengths: &[u16], walk: &mut BlockWalk, index: u64, size: u64) -> Entry
    requires there { walk.old.block < length lengths.now }
    requires at { walk.old.start ≡ start lengths.now walk.old.block }
    requires from { walk.old.start ≤ index }
    requires total { start lengths.now (length lengths.now) ≡ size }
    requires near { index < size + 65536 }
    requires few { length lengths.now < 2 ^ 32 }
    ensures there { walk.new.block < length lengths.now }
    ensures at { walk.new.start ≡ start lengths.now walk.new.block }
    ensures from { walk.new.start ≤ index }
    ensures block { result.block ≤ length lengths.now }
    ensures place { start lengths.now result.block + result.offset ≡ index }
    ensures fits { result.offset < 2 ^ 16 }
    ensures inside { index < size → (result.block < length lengths.now) × (index < start lengths.now (result.block + 1)) }
    ensures beyond { size ≤ index → result.block ≡ length lengths.now }
{
    if index >= size {
        return Entry {
            block: lengths.len() as u32,
            offset: (index - size) as u16,
        };
    }
    'ahead: while index - walk.start > u64::from(lengths[walk.block]) {
        walk.start += u64::from(lengths[walk.block]) + 1;
        walk.block += 1;
    }
    Entry {
        block: walk.block as u32,
        offset: (index - walk.start) as u16,
    }
}

/// Returns the sparse index of blocks with these lengths, which have `size` values in all.
pub(crate) fn sparse_index(
    alloc: Global,
    lengths: &[u16],
    size: u64,
    span_bits: u8,
) -> Result<Vec<Entry>, AllocError>
    requires some { 0 < length lengths.now }
    requires few { length lengths.now < 2 ^ 32 }
    requires total { start lengths.now (length lengths.now) ≡ size }
    requires small { size < 2 ^ 33 }
    requires least_bits { 1 ≤ span_bits }
    requires most_bits { span_bits ≤ 16 }
    ensures count { IfOk result (λ sparse. length sparse.items ≡ entry_count span_bits size) }
    ensures index { IfOk result (λ sparse. IsIndexOf lengths.now span_bits (map entry_of sparse.items)) }
{
    let span = 1u64 << span_bits;
    let count = size.div_ceil(span);
    let mut walk = BlockWalk { block: 0, start: 0 };
    let mut sparse = Vec::new(alloc);
    for span_number in 0..count {
        let middle = span_number * span + span / 2;
        sparse.push(entry_to(lengths, &mut walk, middle, size))?;
    }
    Ok(sparse)
}
