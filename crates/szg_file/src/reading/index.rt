ghost use Rattle.std.specs.Prelude.{ℕ, Bool, suc, ◌≡◌, ◌+◌, ◌*◌, ◌≤◌, ◌<◌, ◌^◌, List, length, map, slice_get, OnOk, IfOk, IfSome, IfNone, None};
ghost use Rattle.szg_block.specs.Kept.{with_lengths, IsKeptOf};
ghost use Rattle.szg_block.specs.Subtable.{layout_of, IsIndexed};
ghost use Rattle.szg_file.specs.File.{each, sparse_field, index_check};
ghost use Rattle.szg_file.specs.FilePieces.{measured_field};
ghost use Rattle.szg_file.specs.Kept.{kept_field, kept_measured, ReadingOf};
ghost use Rattle.szg_file.specs.Reading.{Reading, Checks};
ghost use Rattle.szg_file.specs.Grown.{HasCounted, begun_lengths};
ghost use Rattle.szg_file.specs.WholeRead.{sub_lengths};
ghost use Rattle.szg_file.specs.Loading.{MayTake, TakesFew, TakesAs};
ghost use Rattle.szg_file.specs.Format.{Format};
ghost use Rattle.std.specs.List.{sum_by};

use crate::begun::{Begun, Measured};
use crate::fault::{ReadFault, Reason};
use crate::reading::kept::take_kept;
use crate::reading::state::{ReaderState, append};
use crate::reading::taking::take_sparse;
use std::alloc::Global;
use szg_block::{Entry, Sub, SubFault, check_kept_index, entry_count};
use szg_io::Input;

/// Passes each item of a list, in order, to `take`, which reads more of it. Returns the results.
fn take_each<
    T: Drop,
    U: Drop,
    R: Input,
    F: Fn(Global, T, &mut R, &mut ReaderState) -> Result<U, ReadFault>,
>(
    alloc: Global,
    list: Vec<T>,
    take: F,
    input: &mut R,
    state: &mut ReaderState,
) -> Result<Vec<U>, ReadFault>
    requires may { MayTake F.Fn take }
    requires few { TakesFew F.Fn take }
    requires place { state.old.place < 2 ^ 60 }
    requires short { length list.items ≤ 8 }
    requires growth_bound { state.old.growth ≤ 2 * state.old.place + 2 ^ 14 }
    ensures each { (field : T → Format U) (before : T → ℕ) (after : U → ℕ) → TakesAs F.Fn R.Input take field before after → Reading (each field list.items) (λ taken. taken.items) state.old state.new R.Input input.old input.new result × IfOk result (λ taken. HasCounted state.old state.new (sum_by before list.items) (length taken.items + sum_by after taken.items)) }
    ensures count { IfOk result (λ taken. length taken.items ≡ length list.items) }
    ensures place { OnOk result (state.new.place ≤ state.old.place + 2 ^ 40) }
    ensures growth { OnOk result (state.new.growth + 2 * state.old.place ≤ state.old.growth + 2 * state.new.place + 8) }
{
    let mut taken = Vec::new(alloc);
    'items: for item in list {
        let next = take(alloc, item, input, state)?;
        append(&mut taken, next, state)?;
    }
    Ok(taken)
}

/// Reads one subtable's sparse index into it, and records its offset. A constant subtable has none.
fn read_index<R: Input>(
    alloc: Global,
    begun: Begun,
    input: &mut R,
    state: &mut ReaderState,
) -> Result<Measured, ReadFault>
    requires place { state.old.place < 2 ^ 60 + 2 ^ 40 }
    requires growth_bound { state.old.growth ≤ 2 * state.old.place + 2 ^ 15 }
    ensures index { Reading (sparse_field begun) (λ indexed. indexed) state.old state.new R.Input input.old input.new result }
    ensures place { OnOk result (state.new.place ≤ state.old.place + 2 ^ 36) }
    ensures growth { OnOk result (state.new.growth + 2 * state.old.place ≤ state.old.growth + 2 * state.new.place) }
    ensures grown { IfOk result (λ indexed. HasCounted state.old state.new (sub_lengths begun.subtable) (sub_lengths indexed.subtable)) }
{
    let Begun { slot, mut sub } = begun;
    let mut index = 0;
    if let Sub::Pairs {
        span_bits,
        sparse,
        ..
    } = &mut sub
    {
        index = state.place;
        *sparse = take_sparse(alloc, entry_count(slot.size, *span_bits), input, state)?;
    }
    Ok(Measured { slot, sub, index })
}

/// Reads the sparse index of each subtable that is not constant, and then the block lengths of each. Keeps all of these if
/// `all`, and otherwise those of the blocks that begin below the number of positions.
pub(crate) fn read_lengths<R: Input>(
    alloc: Global,
    list: Vec<Begun>,
    all: bool,
    input: &mut R,
    state: &mut ReaderState,
) -> Result<Vec<Measured>, ReadFault>
    requires place { state.old.place < 2 ^ 59 }
    requires few { length list.items ≤ 8 }
    requires growth_bound { state.old.growth ≤ 2 * state.old.place + 2 ^ 13 }
    ensures lengths { ReadingOf (measured_field list.items) (λ whole kept. kept.items ≡ kept_measured all whole) state.old state.new R.Input input.old input.new result }
    ensures slots { IfOk result (λ measured. map (λ measured. measured.slot) measured.items ≡ map (λ begun. begun.slot) list.items) }
    ensures count { IfOk result (λ measured. length measured.items ≡ length list.items) }
    ensures place { OnOk result (state.new.place ≤ state.old.place + 2 ^ 41) }
    ensures growth { OnOk result (state.new.growth + 2 * state.old.place ≤ state.old.growth + 2 * state.new.place + 16) }
    ensures grown { IfOk result (λ measured. HasCounted state.old state.new (begun_lengths list.items) (2 * length measured.items + begun_lengths measured.items)) }
{
    let indexed = take_each(alloc, list, read_index, input, state)?;
    take_each(
        alloc,
        indexed,
        |alloc: Global, indexed: Measured, input: &mut R, state: &mut ReaderState| {
            read_measured(alloc, indexed, all, input, state)
        },
        input,
        state,
    )
}

/// Reads one subtable's block lengths into it, and checks them and the sparse index. Keeps all if `all`, and otherwise those of
/// the blocks that begin below the number of positions. A constant subtable has none.
fn read_measured<R: Input>(
    alloc: Global,
    indexed: Measured,
    all: bool,
    input: &mut R,
    state: &mut ReaderState,
) -> Result<Measured, ReadFault>
    requires place { state.old.place < 2 ^ 60 + 2 ^ 40 }
    requires growth_bound { state.old.growth ≤ 2 * state.old.place + 2 ^ 15 }
    ensures lengths { Reading (kept_field all indexed) (λ measured. measured) state.old state.new R.Input input.old input.new result }
    ensures place { OnOk result (state.new.place ≤ state.old.place + 2 ^ 36) }
    ensures growth { OnOk result (state.new.growth + 2 * state.old.place ≤ state.old.growth + 2 * state.new.place) }
    ensures grown { IfOk result (λ measured. HasCounted state.old state.new (sub_lengths indexed.subtable) (sub_lengths measured.subtable)) }
{
    let Measured {
        slot,
        mut sub,
        index,
    } = indexed;
    let place = state.place;
    let mut before_last = 0;
    if let Sub::Pairs {
        extra,
        blocks,
        sparse,
        lengths,
        ..
    } = &mut sub
    {
        let count = *blocks as u64 + *extra as u64;
        let limit = if all { u64::MAX } else { slot.size };
        let kept = take_kept(alloc, count, limit, last_block(sparse), input, state)?;
        before_last = kept.before_last;
        *lengths = kept.lengths;
    }
    if let Some((place, reason)) = index_refusal(&sub, slot.size, before_last, place, index) {
        return Err(ReadFault::Refused { place, reason });
    }
    Ok(Measured { slot, sub, index })
}

/// Returns the block of the last entry of a sparse index; 0 if there is none.
fn last_block(sparse: &[Entry]) -> u64
    ensures { (j : ℕ) → suc j ≡ length sparse.now → IfSome (slice_get sparse.now j) (λ entry. result ≡ entry.block) }
{
    match sparse.last() {
        Some(entry) => u64::from(entry.block),
        None => 0,
    }
}

/// Checks block lengths that begin at offset `place` and a sparse index that begins at offset `index`. Returns the first failing
/// check with its offset. All lengths are kept, or those of the blocks that begin below `size`. `before_last` values come before
/// the block of the last sparse entry.
fn index_refusal(
    sub: &Sub,
    size: u64,
    before_last: u64,
    place: u64,
    index: u64,
) -> Option<(u64, Reason)>
    requires indexed { IsIndexed sub.now size }
    requires few { IfSome (layout_of sub.now) (λ layout. length layout.lengths < 2 ^ 33) }
    requires before { before_last < 2 ^ 62 }
    requires size { size < 2 ^ 33 }
    requires index { index < 2 ^ 61 }
    ensures checks { IfSome (layout_of sub.now) (λ layout. (all : Bool) (whole : List ℕ) → IsKeptOf all layout size before_last whole → Checks (index_check place index (with_lengths whole layout) size) result) }
    ensures constant { IfNone (layout_of sub.now) (result ≡ None) }
{
    match check_kept_index(sub, size, before_last) {
        Ok(()) => None,
        Err(SubFault::ShortTotal) => Some((place, Reason::ShortTotal)),
        Err(SubFault::SparseEntry(entry)) => Some((index + 6 * entry, Reason::SparseEntry)),
        // this check has no other fault
        Err(SubFault::Word(_)) => None,
    }
}
