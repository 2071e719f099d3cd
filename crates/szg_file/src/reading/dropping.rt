//! Blocks that are checked and dropped: only the offset of a subtable's first block is kept.
ghost use Rattle.std.specs.Prelude.{◌≡◌, ◌+◌, ◌*◌, ◌≤◌, ◌<◌, ◌^◌, length, max, map, OnOk, IfOk, IfSome, OnErr, Err};
ghost use Rattle.std.specs.List.{AllByRecursion};
ghost use Rattle.szg_block.specs.Expansion.{joined_values};
ghost use Rattle.szg_block.specs.Subtable.{layout_of, IsHeaded};
ghost use Rattle.szg_file.specs.File.{each, blocks_field, blocks_from};
ghost use Rattle.szg_file.specs.Placed.{since, whole_sub, Fits};
ghost use Rattle.szg_file.specs.Reading.{Reading};
ghost use Rattle.szg_file.specs.Streaming.{Accepted, values_if, wanted_values};
ghost use Rattle.szg_file.specs.Values.{slotted, values_in};

use crate::begun::Measured;
use crate::fault::{ReadFault, Reason};
use crate::lookup::constant_value;
use crate::reading::blocks::{block_bytes, is_constant};
use crate::reading::sink::ValueSink;
use crate::reading::state::{ReaderState, append};
use crate::reading::taking::{take_field, take_fill};
use crate::typed::code_fits;
use std::alloc::Global;
use szg_block::{Sub, block_count, check_block_from, decode_block, values_in};
use szg_io::Input;
use szg_values::Kind;

/// A subtable without its blocks, with the offset of its first block, or 0 if it has none.
#[derive(Drop)]
pub struct PlacedSub {
    pub sub: Sub,
    pub first: u64,
}

/// Reads and checks the blocks of each subtable that is not constant, and keeps the offset of the first. The buffer
/// grows to the longest block. The values that the sink wants are handed to it in file order. Errors: `Memory` too if
/// the sink takes no more values.
pub(crate) fn pass_subs<R: Input, W, K: ValueSink<W>>(
    alloc: Global,
    kind: Kind,
    list: Vec<Measured>,
    buffer: &mut Vec<u8>,
    input: &mut R,
    state: &mut ReaderState,
    sink: &mut K,
    out: &mut W,
) -> Result<Vec<PlacedSub>, ReadFault>
    requires place { state.old.place < 2 ^ 60 }
    requires few { length list.items ≤ 8 }
    requires growth_bound { state.old.growth ≤ 2 * state.old.place + 2 ^ 14 }
    requires at { state.old.place ≡ length (R.moved input.old) }
    ensures blocks { Reading (each blocks_field list.items) (λ subs. map (whole_sub (R.moved input.new)) subs.items) state.old state.new R.Input input.old input.new result }
    ensures fits { IfOk result (λ subs. AllByRecursion (Fits (length (R.moved input.new)) (length buffer.new.items)) subs.items) }
    ensures place { OnOk result (state.new.place ≤ state.old.place + 2 ^ 55) }
    ensures growth { OnOk result (state.new.growth + 2 * state.old.place ≤ state.old.growth + 2 * state.new.place + 8) }
    ensures many { IfOk result (λ subs. length subs.items ≡ length list.items) }
    ensures accepted { IfOk result (λ subs. Accepted K.accepts (wanted_values (K.wanted sink.old) kind (slotted (map (λ measured. measured.slot) list.items) (map (whole_sub (R.moved input.new)) subs.items))) sink.old out.old sink.new out.new) }
{
    let mut subs = Vec::new(alloc);
    'subtables: for measured in list {
        let sub = pass_sub(alloc, kind, measured, buffer, input, state, sink, out)?;
        append(&mut subs, sub, state)?;
    }
    Ok(subs)
}

/// Reads one subtable's blocks after their padding, and keeps the offset of the first. A constant subtable has
/// none. The values are handed to the sink, if it wants them.
fn pass_sub<R: Input, W, K: ValueSink<W>>(
    alloc: Global,
    kind: Kind,
    measured: Measured,
    buffer: &mut Vec<u8>,
    input: &mut R,
    state: &mut ReaderState,
    sink: &mut K,
    out: &mut W,
) -> Result<PlacedSub, ReadFault>
    requires place { state.old.place < 2 ^ 60 + 2 ^ 55 }
    requires growth_bound { state.old.growth ≤ 2 * state.old.place + 2 ^ 15 }
    requires at { state.old.place ≡ length (R.moved input.old) }
    ensures blocks { Reading (blocks_field measured) (whole_sub (R.moved input.new)) state.old state.new R.Input input.old input.new result }
    ensures fits { IfOk result (Fits (length (R.moved input.new)) (length buffer.new.items)) }
    ensures room { OnOk result (length buffer.old.items ≤ length buffer.new.items) }
    ensures place { OnOk result (state.new.place ≤ state.old.place + 2 ^ 51) }
    ensures growth { OnOk result (state.new.growth + 2 * state.old.place ≤ state.old.growth + 2 * state.new.place) }
    ensures accepted { IfOk result (λ placed. Accepted K.accepts (values_if (K.wanted sink.old measured.slot.part measured.slot.side) (values_in kind measured.slot.size (whole_sub (R.moved input.new) placed))) sink.old out.old sink.new out.new) }
    ensures wanted { K.wanted sink.new ≡ K.wanted sink.old }
{
    let Measured { slot, sub, .. } = measured;
    if is_constant(&sub) {
        if sink.wants(slot.part, slot.side) {
            let Ok(()) = sink.put_same(constant_value(kind, &sub), slot.size, out) else {
                return Err(ReadFault::Memory);
            };
        }
        return Ok(PlacedSub { sub, first: 0 });
    }
    let size = block_bytes(&sub) as usize;
    make_room(buffer, size)?;
    take_fill(alloc, 64, input, state)?;
    let first = state.place;
    input.expect(u64::from(block_count(&sub)) * block_bytes(&sub));
    let wanted = sink.wants(slot.part, slot.side);
    let block = &mut buffer[..size];
    stream_blocks(
        alloc, wanted, block, &sub, slot.size, input, state, sink, out,
    )?;
    Ok(PlacedSub { sub, first })
}

/// Extends a shorter buffer to `size` bytes, and leaves a longer one as it is.
fn make_room(buffer: &mut Vec<u8>, size: usize) -> Result<(), ReadFault>
    ensures room { OnOk result (size ≤ length buffer.new.items) }
    ensures longer { OnOk result (length buffer.old.items ≤ length buffer.new.items) }
    ensures most { OnOk result (length buffer.new.items ≤ max (length buffer.old.items) size) }
    ensures memory { OnErr result (result ≡ Err ReadFault.Memory) }
{
    if buffer.len() < size && buffer.resize(size, 0).is_err() {
        return Err(ReadFault::Memory);
    }
    Ok(())
}

/// Reads the blocks of a subtable in order, each with its check, into a buffer of a block's length. Hands the values that
/// each needs to a sink, if they are wanted. Errors: `Memory` too if the sink takes no more values.
fn stream_blocks<R: Input, W, K: ValueSink<W>>(
    alloc: Global,
    wanted: bool,
    buffer: &mut [u8],
    sub: &Sub,
    size: u64,
    input: &mut R,
    state: &mut ReaderState,
    sink: &mut K,
    out: &mut W,
) -> Result<(), ReadFault>
    requires place { state.old.place < 2 ^ 61 }
    requires room { IfSome (layout_of sub.now) (λ layout. length buffer.old ≡ 2 ^ layout.block_bits) }
    requires short { length buffer.old ≤ 2 ^ 18 }
    requires headed { IsHeaded sub.now }
    ensures blocks { IfSome (layout_of sub.now) (λ layout. Reading (blocks_from layout size 0 layout.blocks) (λ _. since (R.moved input.old) (R.moved input.new)) state.old state.new R.Input input.old input.new result) }
    ensures count { IfSome (layout_of sub.now) (λ layout. OnOk result (state.new.place ≡ state.old.place + layout.blocks * 2 ^ layout.block_bits)) }
    ensures place { OnOk result (state.new.place ≤ state.old.place + 2 ^ 50) }
    ensures growth { OnOk result (state.new.growth ≡ state.old.growth) }
    ensures accepted { IfSome (layout_of sub.now) (λ layout. OnOk result (Accepted K.accepts (values_if wanted (joined_values layout (since (R.moved input.old) (R.moved input.new)) size)) sink.old out.old sink.new out.new)) }
    ensures wanted { K.wanted sink.new ≡ K.wanted sink.old }
{
    let Sub::Pairs {
        blocks,
        code,
        lengths,
        ..
    } = sub
    else {
        return Ok(());
    };
    code_fits(code);
    let mut values = Vec::new(alloc);
    let mut before = 0;
    'each_block: for n in 0..*blocks {
        let place = state.place;
        take_field(input, state, buffer)?;
        let Ok(()) = check_block_from(sub, size, n, before, buffer) else {
            let reason = Reason::Word;
            return Err(ReadFault::Refused { place, reason });
        };
        if wanted {
            values.clear();
            decode_block(sub, size, n, before, buffer, &mut values)?;
            let Ok(()) = sink.put(values.as_slice(), out) else {
                return Err(ReadFault::Memory);
            };
        }
        before += values_in(lengths, n);
    }
    Ok(())
}
