//! The look-ups and the rules of chess through a C interface, for `bench/` and `checks/`.
#![tactic(auto)]

mod chess;
mod opened;

ghost use Rattle.szg_block.specs.Subtable.{packed_of, IsShaped, IsSoundOver};

use std::alloc::Global;
use szg_block::{Entry, Sound, Sub, check, shaped};
use szg_code::Code;
use szg_pairs::Dict;

/// The numbers of a subtable, as a C program hands them in.
#[repr(C)]
#[derive(Clone, Copy)]
pub struct Numbers {
    pub size: u64,
    pub blocks: u32,
    pub symbols: u16,
    pub block_bits: u8,
    pub span_bits: u8,
    pub extra: u8,
    pub min: u8,
    pub max: u8,
}

/// The dictionary of entries of three bytes each.
fn dict_of(alloc: Global, bytes: &[u8]) -> Option<Dict> {
    let mut entries = Vec::new(alloc);
    for k in 0..bytes.len() / 3 {
        let entry = [bytes[3 * k], bytes[3 * k + 1], bytes[3 * k + 2]];
        entries.push(entry).ok()?;
    }
    if entries.len() > 65535 {
        return None;
    }
    Dict::new(alloc, entries).ok()
}

/// The sparse index: block numbers, and offsets.
fn sparse_of(alloc: Global, blocks: &[u32], offsets: &[u16]) -> Option<Vec<Entry>> {
    let mut sparse = Vec::with_capacity(alloc, blocks.len()).ok()?;
    for (block, offset) in blocks.iter().zip(offsets) {
        sparse
            .push(Entry {
                block: *block,
                offset: *offset,
            })
            .ok()?;
    }
    Some(sparse)
}

/// A subtable of these numbers and lists.
fn sub_of(
    alloc: Global,
    numbers: &Numbers,
    lowest: &[u16],
    dict: Dict,
    sparse: Vec<Entry>,
    lengths: &[u16],
    packed: &[u8],
) -> Option<Sub> {
    let lowest = lowest.to_vec(alloc).ok()?;
    let code = Code::new(numbers.min, numbers.max, lowest, numbers.symbols).ok()?;
    Some(Sub::Pairs {
        flags: 0,
        block_bits: numbers.block_bits,
        span_bits: numbers.span_bits,
        extra: numbers.extra,
        blocks: numbers.blocks,
        code,
        dict,
        sparse,
        lengths: lengths.to_vec(alloc).ok()?,
        packed: packed.to_vec(alloc).ok()?,
    })
}

/// Whether a subtable passes its check `times` times.
fn passes(sub: &Sub, size: u64, times: u32) -> bool
    requires { IsShaped sub.now size }
{
    for _ in 0..times {
        if check(sub, size).is_err() {
            return false;
        }
    }
    true
}

/// What the values found are mixed into.
fn mixed_with(mix: u64, value: u16) -> u64 {
    mix.wrapping_mul(31).wrapping_add(u64::from(value))
}

/// The values at these indexes of a sound subtable in memory, mixed.
fn looked_up(sub: &Sub, size: u64, indexes: &[u32]) -> u64
    requires shaped { IsShaped sub.now size }
    requires sound { IsSoundOver sub.now (packed_of sub.now) size }
{
    let sound = Sound::of(sub, size, 0);
    let mut mix = 0;
    for index in indexes {
        let i = u64::from(*index);
        if i < size {
            mix = mixed_with(mix, sound.get(i));
        }
    }
    mix
}

/// The work on a subtable: it is checked `checks` times, and its values are listed `lists` times, or else some are
/// looked up.
#[repr(C)]
#[derive(Clone, Copy)]
pub struct Work {
    pub checks: u32,
    pub lists: u32,
}

/// Makes a subtable of a C program's bytes and does the work. Returns a mix of the values found; 0 if the subtable
/// is not sound or memory was refused.
#[unsafe(no_mangle)]
pub extern "C" fn szg_bench_subtable(
    alloc: Global,
    work: &Work,
    numbers: &Numbers,
    lowest: &[u16],
    entries: &[u8],
    blocks: &[u32],
    offsets: &[u16],
    lengths: &[u16],
    packed: &[u8],
    indexes: &[u32],
) -> u64 {
    let Some(dict) = dict_of(alloc, entries) else {
        return 0;
    };
    let Some(sparse) = sparse_of(alloc, blocks, offsets) else {
        return 0;
    };
    let Some(sub) = sub_of(alloc, numbers, lowest, dict, sparse, lengths, packed) else {
        return 0;
    };
    let size = numbers.size;
    if !shaped(&sub, size) {
        return 0;
    }
    if !passes(&sub, size, work.checks) {
        return 0;
    }
    if check(&sub, size).is_err() {
        return 0;
    }
    if work.lists > 0 {
        return listed(alloc, &sub, size, work.lists);
    }
    looked_up(&sub, size, indexes)
}

/// Lists all values of a sound subtable `times` times; returns a mix of the first and the last one. 0 if memory was
/// refused.
fn listed(alloc: Global, sub: &Sub, size: u64, times: u32) -> u64
    requires shaped { IsShaped sub.now size }
    requires sound { IsSoundOver sub.now (packed_of sub.now) size }
{
    let sound = Sound::of(sub, size, 0);
    let mut mix = 0;
    for _ in 0..times {
        let Ok(values) = sound.values(alloc) else {
            return 0;
        };
        if let (Some(first), Some(last)) = (values.first(), values.last()) {
            mix = mixed_with(mixed_with(mix, *first), *last);
        }
    }
    mix
}
