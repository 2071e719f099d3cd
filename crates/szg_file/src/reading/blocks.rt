ghost use Rattle.std.specs.Prelude.{◌≡◌, ◌+◌, ◌*◌, ◌≤◌, ◌<◌, ◌^◌, length, map, OnOk, IfSome, IfNone, IsTrue, ◌↔◌, None, IfOk};
ghost use Rattle.szg_block.specs.Subtable.{layout_of, IsHeaded};
ghost use Rattle.szg_file.specs.File.{each, blocks_from, blocks_field};
ghost use Rattle.szg_file.specs.Held.{subtable_of};
ghost use Rattle.szg_file.specs.Reading.{Reading};
ghost use Rattle.szg_file.specs.Grown.{HasCounted, begun_lengths, subs_lengths};
ghost use Rattle.szg_file.specs.WholeRead.{sub_lengths};

use crate::begun::Measured;
use crate::fault::{ReadFault, Reason};
use crate::reading::state::{ReaderState, append};
use crate::reading::taking::{take_fill, take_more};
use crate::typed::code_fits;
use std::alloc::Global;
use szg_block::{Sub, block_count, check_block_from, values_in};
use szg_io::Input;

/// Reads the blocks of each subtable that is not constant.
pub(crate) fn read_blocks<R: Input>(
    alloc: Global,
    list: Vec<Measured>,
    input: &mut R,
    state: &mut ReaderState,
) -> Result<Vec<Sub>, ReadFault>
    requires place { state.old.place < 2 ^ 60 }
    requires few { length list.items ≤ 8 }
    requires growth_bound { state.old.growth ≤ 2 * state.old.place + 2 ^ 14 }
    ensures blocks { Reading (each blocks_field list.items) (λ subs. map subtable_of subs.items) state.old state.new R.Input input.old input.new result }
    ensures place { OnOk result (state.new.place ≤ state.old.place + 2 ^ 55) }
    ensures growth { OnOk result (state.new.growth + 2 * state.old.place ≤ state.old.growth + 2 * state.new.place + 8) }
    ensures count { IfOk result (λ subs. length subs.items ≡ length list.items) }
    ensures grown { IfOk result (λ subs. HasCounted state.old state.new (begun_lengths list.items) (length subs.items + subs_lengths subs.items)) }
{
    let mut subs = Vec::new(alloc);
    'subtables: for measured in list {
        let sub = read_sub(alloc, measured, input, state)?;
        append(&mut subs, sub, state)?;
    }
    Ok(subs)
}

/// Reads one subtable's blocks into it, after their padding. A constant subtable has none.
fn read_sub<R: Input>(
    alloc: Global,
    measured: Measured,
    input: &mut R,
    state: &mut ReaderState,
) -> Result<Sub, ReadFault>
    requires place { state.old.place < 2 ^ 60 + 2 ^ 55 }
    requires growth_bound { state.old.growth ≤ 2 * state.old.place + 2 ^ 15 }
    ensures blocks { Reading (blocks_field measured) subtable_of state.old state.new R.Input input.old input.new result }
    ensures place { OnOk result (state.new.place ≤ state.old.place + 2 ^ 51) }
    ensures growth { OnOk result (state.new.growth + 2 * state.old.place ≤ state.old.growth + 2 * state.new.place) }
    ensures grown { IfOk result (λ sub. HasCounted state.old state.new (sub_lengths measured.subtable) (sub_lengths (subtable_of sub))) }
{
    let Measured { slot, mut sub, .. } = measured;
    if is_constant(&sub) {
        return Ok(sub);
    }
    take_fill(alloc, 64, input, state)?;
    input.expect(u64::from(block_count(&sub)) * block_bytes(&sub));
    let taken = take_packed(alloc, &sub, slot.size, input, state)?;
    if let Sub::Pairs { packed, .. } = &mut sub {
        *packed = taken;
    }
    Ok(sub)
}

/// Returns whether the subtable is constant, so that it has no blocks.
pub fn is_constant(sub: &Sub) -> bool
    ensures { IsTrue result ↔ (layout_of sub.now ≡ None) }
{
    match sub {
        Sub::Constant { .. } => true,
        Sub::Pairs { .. } => false,
    }
}

/// Reads the blocks of a subtable in order, and checks each when it was read.
fn take_packed<R: Input>(
    alloc: Global,
    sub: &Sub,
    size: u64,
    input: &mut R,
    state: &mut ReaderState,
) -> Result<Vec<u8>, ReadFault>
    requires place { state.old.place < 2 ^ 61 }
    requires growth_bound { state.old.growth ≤ 2 * state.old.place + 2 ^ 15 }
    requires headed { IsHeaded sub.now }
    ensures blocks { IfSome (layout_of sub.now) (λ layout. Reading (blocks_from layout size 0 layout.blocks) (λ packed. packed.items) state.old state.new R.Input input.old input.new result) }
    ensures place { OnOk result (state.new.place ≤ state.old.place + 2 ^ 50) }
    ensures growth { OnOk result (state.new.growth + 2 * state.old.place ≤ state.old.growth + 2 * state.new.place) }
    ensures grown { IfOk result (λ packed. HasCounted state.old state.new 0 (length packed.items)) }
{
    let mut packed = Vec::new(alloc);
    let Sub::Pairs {
        blocks,
        code,
        lengths,
        ..
    } = sub
    else {
        return Ok(packed);
    };
    code_fits(code);
    let mut before = 0;
    'each_block: for n in 0..*blocks {
        let place = state.place;
        let at = packed.len();
        take_more(&mut packed, block_bytes(sub), input, state)?;
        let Ok(()) = check_block_from(sub, size, n, before, &packed[at..]) else {
            let reason = Reason::Word;
            return Err(ReadFault::Refused { place, reason });
        };
        before += values_in(lengths, n);
    }
    Ok(packed)
}

/// Returns the number of bytes of each block, 0 for a constant subtable.
pub fn block_bytes(sub: &Sub) -> u64
    requires { IfSome (layout_of sub.now) (λ layout. layout.block_bits ≤ 18) }
    ensures bytes { IfSome (layout_of sub.now) (λ layout. result ≡ 2 ^ layout.block_bits) }
    ensures none { IfNone (layout_of sub.now) (result ≡ 0) }
    ensures most { result ≤ 2 ^ 18 }
{
    match sub {
        Sub::Constant { .. } => 0,
        Sub::Pairs { block_bits, .. } => 1 << *block_bits,
    }
}
