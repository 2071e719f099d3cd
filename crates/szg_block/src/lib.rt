//! Subtables of a Syzygy table (`PairsData` in the probing code): their shape, the check that accepts exactly the sound
//! ones, and the values of a sound one.
//!
//! A subtable is constant, or has blocks of packed words with a sparse index and block lengths, as in de Man's format. It is sound
//! if its blocks have enough values, each sparse entry leads to the middle of its span, and the bits of each block decode to all
//! values that the block needs. A block needs as many values as its length says, or fewer where the subtable ends within it.
#![tactic(auto)]

ghost use Rattle.std.specs.Prelude.{ℕ, Bool, ◌≡◌, ◌+◌, ◌++◌, ◌<◌, ◌≤◌, ◌↔◌, ◌^◌, Err, List, IsTrue, IfErr, IfSome, IsSomeAnd, OnOk, length, take};
ghost use Rattle.szg_block.specs.Block.{block_values, needed, start};
ghost use Rattle.szg_block.specs.Kept.{with_lengths, IsKeptOf};
ghost use Rattle.szg_block.specs.Sound.{HasGoodEntry, HasTotal, SpellsNeeded, entry_count as entry_count_of};
ghost use Rattle.szg_block.specs.Subtable.{layout_of, packed_of, IsHeaded, IsIndexed, IsLayoutFault, IsShaped, IsShapedHead, IsSoundOver, HasSoundIndex, IsFaultOf, IsIndexFault};
ghost use Rattle.szg_block.specs.Views.{IsSound};

pub use block_value::{checked_value, value_in_block};
pub use blocks::{Blocks, SourceFault, Whole, block_count, block_of};
pub use expanding::Sound;
pub use index::BlockIndex;
use lengths::total;
pub use lengths::{needed_from, values_in};
pub use paged::Paged;
pub use probing::{Steps, ValueLocation, locate_by, locate_value, look_up};
pub use source::{Image, Source};
use sparse::{first_bad_entry, middle_of_span};
use std::alloc::AllocError;
use szg_code::{Bits, Code};
use szg_pairs::Dict;
pub use watch::Watch;
use words::{spells, write_values};

mod block_value;
mod blocks;
mod expanding;
mod index;
pub mod laws;
mod lengths;
mod paged;
mod probing;
mod source;
mod sparse;
mod watch;
mod words;

/// An entry of the sparse index.
#[derive(Clone, Copy)]
pub struct Entry {
    /// The number of a block: an index in `lengths`. It may also be the index of an extra length, or `lengths.len()` in
    /// an entry that points past the last length.
    pub block: u32,
    /// A number of values, counted from the start of that block. In a sound subtable it leads to the middle of the span.
    pub offset: u16,
}

/// A subtable.
#[derive(Drop)]
pub enum Sub {
    /// The same value at each index.
    Constant {
        /// The flags byte; its highest bit is set.
        flags: u8,
        /// The byte after the flags byte. In a WDL table it is the value.
        byte: u8,
    },
    /// Blocks of words. Each word encodes a symbol, which expands to values.
    Pairs {
        /// The flags byte; its highest bit is not set.
        flags: u8,
        /// A block has 2^block_bits bytes; 0 to 18.
        block_bits: u8,
        /// An entry of the sparse index covers 2^span_bits values; 1 to 31.
        span_bits: u8,
        /// The number of lengths after those of the blocks.
        extra: u8,
        /// The number of blocks.
        blocks: u32,
        /// The words of the symbols.
        code: Code,
        /// The dictionary: the values that each symbol expands to.
        dict: Dict,
        /// For each span that has a value, the location of the middle of the span.
        sparse: Vec<Entry>,
        /// For each block and each extra length, the number of values less one.
        lengths: Vec<u16>,
        /// The blocks, one after another.
        packed: Vec<u8>,
    },
}

/// Why a subtable is not sound.
#[derive(Debug, Clone, Copy, PartialEq, Eq)]
pub enum SubFault {
    /// The lengths of the blocks, without the extra ones, sum to fewer values than the subtable has.
    ShortTotal,
    /// The first entry of the sparse index that does not lead to the middle of its span.
    SparseEntry(u64),
    /// The first block n whose bits decode to fewer values than the block needs. It needs `lengths[n] + 1` values, or,
    /// if that is less, the values from its start to the subtable's end.
    Word(u32),
}

/// The highest bit of a flags byte, set exactly in constant subtables.
const CONSTANT: u8 = 128;

/// The greatest block bits: a block has 2^18 bytes at most.
const MAX_BLOCK_BITS: u8 = 18;

/// The greatest span bits: a span has 2^31 values at most.
const MAX_SPAN_BITS: u8 = 31;

/// Returns the number of entries of the sparse index of a subtable with `size` values: one for each span of
/// `2^span_bits` values that begins below `size`. There are no more entries than values. `span_bits` is at most 31.
pub fn entry_count(size: u64, span_bits: u8) -> u64
    requires { span_bits ≤ 31 }
    ensures count { result ≡ entry_count_of span_bits size }
    ensures few { result ≤ size }
{
    size.div_ceil(1 << span_bits)
}

/// Returns whether the header of a subtable with `size` values is valid and its lists have the lengths that header and
/// size require. Does not look at the blocks.
///
/// The checks are those of `shaped`, except for the length of `packed`.
pub fn shaped_head(sub: &Sub, size: u64) -> bool
    ensures { IsTrue result ↔ IsShapedHead sub.now size }
{
    match sub {
        Sub::Constant { flags, .. } => *flags >= CONSTANT,
        Sub::Pairs {
            flags,
            block_bits,
            span_bits,
            code,
            dict,
            sparse,
            lengths,
            blocks,
            extra,
            ..
        } => {
            *flags < CONSTANT
                && *block_bits <= MAX_BLOCK_BITS
                && (1..=MAX_SPAN_BITS).contains(span_bits)
                && code.symbols() == dict.symbols()
                && sparse.len() as u64 == entry_count(size, *span_bits)
                && lengths.len() == *blocks as usize + usize::from(*extra)
        }
    }
}

/// Returns whether the header of a subtable with `size` values is valid and its lists have the lengths that header and
/// size require. Does not look at the items of the lists.
///
/// The flags byte has its highest bit set exactly in a constant subtable. Otherwise block bits are at most 18, span
/// bits 1 to 31, the code has as many symbols as the dictionary, the sparse index has an entry for each span that
/// has a value, there is a length for each block and each extra one, and `packed` has the bytes of all blocks.
pub fn shaped(sub: &Sub, size: u64) -> bool
    ensures { IsTrue result ↔ IsShaped sub.now size }
{
    shaped_head(sub, size)
        && match sub {
            Sub::Constant { .. } => true,
            Sub::Pairs {
                block_bits,
                blocks,
                packed,
                ..
            } => packed.len() == (*blocks as usize) << *block_bits,
        }
}

/// Checks the lengths and the sparse index of a subtable with `size` values, without its blocks.
///
/// Errors: `ShortTotal` if the lengths of the blocks, without the extra ones, sum to fewer values than `size`.
/// Otherwise `SparseEntry(k)` for the first entry `k` whose block number is above the number of all lengths, or whose
/// offset does not lead from the start of that block to the middle of span `k`.
pub fn check_index(sub: &Sub, size: u64) -> Result<(), SubFault>
    requires { IsShapedHead sub.now size }
    ensures ok { OnOk result (HasSoundIndex sub.now size) }
    ensures fault { IfErr result (λ fault. IsIndexFault fault × IsFaultOf (layout_of sub.now) (packed_of sub.now) size fault) }
{
    let Sub::Pairs {
        span_bits,
        extra,
        blocks,
        sparse,
        lengths,
        ..
    } = sub
    else {
        return Ok(());
    };
    prove_eq!(lengths.len(), *blocks as usize + usize::from(*extra));
    if total(&lengths[..*blocks as usize]) < size {
        return Err(SubFault::ShortTotal);
    }
    match first_bad_entry(sparse, lengths, *span_bits) {
        Some(k) => Err(SubFault::SparseEntry(k)),
        None => Ok(()),
    }
}

/// Returns the number of values that block `n` of a subtable with `size` values needs. `before` is the number of values
/// before the block. A missing length counts as 0.
fn needed_in(sub: &Sub, size: u64, n: u32, before: u64) -> u64
    requires before { IsSomeAnd (layout_of sub.now) (λ layout. before ≡ start layout.lengths n) }
    ensures needed { IsSomeAnd (layout_of sub.now) (λ layout. result ≡ needed layout.lengths size n) }
    ensures few { result ≤ 65536 }
{
    let Sub::Pairs { lengths, .. } = sub else {
        unreachable!()
    };
    let length = lengths.get(n as usize).copied();
    needed_from(length.unwrap_or(0), size, before)
}

/// Checks the lengths and the sparse index as `check_index` does, for a subtable of which all lengths are in memory, or only those
/// of the blocks that begin below `size`. `before_last` is the number of values before the block of the last sparse entry.
pub fn check_kept_index(sub: &Sub, size: u64, before_last: u64) -> Result<(), SubFault>
    requires indexed { IsIndexed sub.now size }
    requires few { IfSome (layout_of sub.now) (λ layout. length layout.lengths < 2 ^ 33) }
    requires before { before_last < 2 ^ 62 }
    requires size { size < 2 ^ 33 }
    ensures entry { (k : ℕ) → result ≡ Err (SubFault.SparseEntry k) → IfSome (layout_of sub.now) (λ layout. k < length layout.sparse) }
    ensures ok { OnOk result (IfSome (layout_of sub.now) (λ layout. (all : Bool) (whole : List ℕ) → IsKeptOf all layout size before_last whole → HasTotal (with_lengths whole layout) size × ((j : ℕ) → HasGoodEntry (with_lengths whole layout) j))) }
    ensures fault { IfErr result (λ fault. IsIndexFault fault × IsSomeAnd (layout_of sub.now) (λ layout. (all : Bool) (whole packed : List ℕ) → IsKeptOf all layout size before_last whole → IsLayoutFault (with_lengths whole layout) packed size fault)) }
{
    let Sub::Pairs {
        span_bits,
        extra,
        blocks,
        sparse,
        lengths,
        ..
    } = sub
    else {
        return Ok(());
    };
    let count = lengths.len().min(*blocks as usize);
    if total(&lengths[..count]) < size {
        return Err(SubFault::ShortTotal);
    }
    let Some(k) = first_bad_entry(sparse, lengths, *span_bits) else {
        return Ok(());
    };
    if k as usize + 1 < sparse.len() {
        return Err(SubFault::SparseEntry(k));
    }
    let entry = sparse[k as usize];
    let all = *blocks as usize + usize::from(*extra);
    let middle = middle_of_span(k, *span_bits);
    if leads_past(entry, lengths.len(), all, before_last, middle) {
        return Ok(());
    }
    Err(SubFault::SparseEntry(k))
}

/// Returns whether an entry leads to value `middle`, and its block is past the first `count` of `all` lengths. `before` values
/// come before that block.
fn leads_past(entry: Entry, count: usize, all: usize, before: u64, middle: u64) -> bool
    requires { before < 2 ^ 62 }
    ensures { IsTrue result ↔ ((count < entry.block) × (entry.block ≤ all) × (before + entry.offset ≡ middle)) }
{
    let block = entry.block as usize;
    count < block && block <= all && before + u64::from(entry.offset) == middle
}

/// Checks that block `n`, whose bytes are `block`, decodes to at least as many values as it needs. Only the block's own
/// bits count: no word runs on into the next block. The subtable has `size` values and is not constant, `n` is one of
/// its blocks, and `block` has the length of its blocks.
///
/// Errors: `Word(n)` if the block's own bits decode to fewer values. Each call adds the lengths of all blocks before
/// `n`, which takes time proportional to `n`; `check_block_from` does not.
pub fn check_block(sub: &Sub, size: u64, n: u32, block: &[u8]) -> Result<(), SubFault>
    requires head { IsShapedHead sub.now size }
    requires there { IsSomeAnd (layout_of sub.now) (λ layout. n < layout.blocks) }
    requires whole { IsSomeAnd (layout_of sub.now) (λ layout. length block.now ≡ 2 ^ layout.block_bits) }
    ensures ok { OnOk result (IsSomeAnd (layout_of sub.now) (λ layout. SpellsNeeded layout size n block.now)) }
    ensures fault { IfErr result (λ fault. (fault ≡ SubFault.Word n) × IsSomeAnd (layout_of sub.now) (λ layout. ¬ SpellsNeeded layout size n block.now)) }
{
    let Sub::Pairs { lengths, .. } = sub else {
        unreachable!()
    };
    let before = total(&lengths[..n as usize]);
    check_block_from(sub, size, n, before, block)
}

/// Checks block `n` as `check_block` does, for a caller that knows `before`, the number of values before block `n`. A missing
/// length counts as 0.
pub fn check_block_from(
    sub: &Sub,
    size: u64,
    n: u32,
    before: u64,
    block: &[u8],
) -> Result<(), SubFault>
    requires head { IsHeaded sub.now }
    requires before { IsSomeAnd (layout_of sub.now) (λ layout. before ≡ start layout.lengths n) }
    requires whole { IsSomeAnd (layout_of sub.now) (λ layout. length block.now ≡ 2 ^ layout.block_bits) }
    ensures ok { OnOk result (IsSomeAnd (layout_of sub.now) (λ layout. SpellsNeeded layout size n block.now)) }
    ensures fault { IfErr result (λ fault. (fault ≡ SubFault.Word n) × IsSomeAnd (layout_of sub.now) (λ layout. ¬ SpellsNeeded layout size n block.now)) }
{
    let Sub::Pairs { code, dict, .. } = sub else {
        unreachable!()
    };
    prove_eq!(code.symbols(), dict.symbols());
    let needed = needed_in(sub, size, n, before);
    if spells(code, dict, Bits::new(block), needed) {
        Ok(())
    } else {
        Err(SubFault::Word(n))
    }
}

/// Decodes block `n` of a subtable with `size` values, and appends the values that the block needs to `values`. `block`
/// has the block's bytes, which passed `check_block`; `before` is the number of values before the block. A missing length
/// counts as 0. Errors: memory was refused.
pub fn decode_block(
    sub: &Sub,
    size: u64,
    n: u32,
    before: u64,
    block: &[u8],
    values: &mut Vec<u16>,
) -> Result<(), AllocError>
    requires head { IsHeaded sub.now }
    requires before { IsSomeAnd (layout_of sub.now) (λ layout. before ≡ start layout.lengths n) }
    requires whole { IsSomeAnd (layout_of sub.now) (λ layout. length block.now ≡ 2 ^ layout.block_bits) }
    requires spelled { IsSomeAnd (layout_of sub.now) (λ layout. SpellsNeeded layout size n block.now) }
    ensures { OnOk result (IfSome (layout_of sub.now) (λ layout. values.new.items ≡ values.old.items ++ take (needed layout.lengths size n) (block_values layout block.now))) }
{
    let Sub::Pairs { code, dict, .. } = sub else {
        unreachable!()
    };
    prove_eq!(code.symbols(), dict.symbols());
    let needed = needed_in(sub, size, n, before) as usize;
    let first = values.len();
    values.resize(first + needed, 0)?;
    write_values(code, dict, block, &mut values[first..]);
    Ok(())
}

/// Checks a subtable with `size` values. Accepts exactly the sound subtables.
///
/// Errors: those of `check_index`, then those of `check_block` for each block in order.
pub fn check(sub: &Sub, size: u64) -> Result<(), SubFault>
    requires { IsShaped sub.now size }
    ensures ok { OnOk result (IsSoundOver sub.now (packed_of sub.now) size) }
    ensures sound { OnOk result (IsSound sub.now size) }
    ensures fault { IfErr result (λ fault. IsFaultOf (layout_of sub.now) (packed_of sub.now) size fault) }
{
    check_index(sub, size)?;
    let Sub::Pairs {
        block_bits,
        blocks,
        code,
        dict,
        lengths,
        packed,
        ..
    } = sub
    else {
        return Ok(());
    };
    prove_eq!(code.symbols(), dict.symbols());
    let mut before = 0;
    for n in 0..*blocks {
        let block = block_of(packed, *block_bits, n as usize);
        check_block_from(sub, size, n, before, block)?;
        before += u64::from(lengths[n as usize]) + 1;
    }
    Ok(())
}
