ghost use Rattle.std.specs.Prelude.{◌≡◌, ◌≢◌, ◌+◌, ◌-◌, ◌*◌, ◌≤◌, ◌<◌, ◌^◌, length, map, nat_le, ◌&&◌, false, OnOk, IfOk};
ghost use Rattle.szg_code.specs.Acceptance.{IsCode};
ghost use Rattle.szg_block.specs.Subtable.{IsHeaded};
ghost use Rattle.szg_file.specs.Contents.{has_bit};
ghost use Rattle.szg_file.specs.File.{each, head_field, packed_head, byte_where, lowest_list, code_with, dictionary, begun};
ghost use Rattle.szg_file.specs.HeadPieces.{sizes_field, Refuses, entries_refusal};
ghost use Rattle.szg_file.specs.Held.{subtable_of};
ghost use Rattle.szg_file.specs.Reading.{Reading};
ghost use Rattle.szg_file.specs.Grown.{HasCounted, begun_lengths};
ghost use Rattle.szg_file.specs.WholeRead.{sub_lengths};

use crate::begun::{Begun, Slot};
use crate::fault::{ReadFault, Reason};
use crate::lookup::has_bit;
use crate::reading::state::{ReaderState, append};
use crate::reading::taking::{
    read_byte, read_number, take_entries, take_field, take_numbers, take_spare,
};
use byteorder::{ByteOrder, LittleEndian};
use std::alloc::Global;
use szg_block::Sub;
use szg_code::{Code, CodeFault};
use szg_io::Input;
use szg_pairs::{Dict, DictFault};

/// Reads the header of each subtable: its flags, and one byte of a constant subtable, or else the sizes, the code
/// and the dictionary of its packed values (de Man's format).
///
/// `BlockBits`, `SpanBits`, `CodeLengths`, `LowestOrder`, `TooFull`, `Child`, `Cycle` and `LongSymbol` are checked
/// in the order of a header's bytes.
// Not inlined, so that its temporaries take no stack while `read_front` reads the block lengths.
#[inline(never)]
pub(crate) fn read_heads<R: Input>(
    alloc: Global,
    slots: &[Slot],
    input: &mut R,
    state: &mut ReaderState,
) -> Result<Vec<Begun>, ReadFault>
    requires place { state.old.place < 2 ^ 60 }
    requires few { length slots.now ≤ 8 }
    requires growth_bound { state.old.growth ≤ 2 * state.old.place + 2 ^ 14 }
    ensures heads { Reading (each head_field slots.now) (λ list. map (λ begun. begun.subtable) list.items) state.old state.new R.Input input.old input.new result }
    ensures begun { IfOk result (λ list. list.items ≡ begun slots.now (map (λ begun. begun.subtable) list.items)) }
    ensures count { IfOk result (λ list. length list.items ≡ length slots.now) }
    ensures place { OnOk result (state.new.place ≤ state.old.place + 2 ^ 22) }
    ensures growth { OnOk result (state.new.growth + 2 * state.old.place ≤ state.old.growth + 2 * state.new.place + 8) }
    ensures grown { IfOk result (λ list. HasCounted state.old state.new 0 (length list.items + begun_lengths list.items)) }
{
    let mut list = Vec::new(alloc);
    'slots: for slot in slots {
        let begun = read_head(alloc, *slot, input, state)?;
        append(&mut list, begun, state)?;
    }
    Ok(list)
}

/// Reads the header of a subtable.
fn read_head<R: Input>(
    alloc: Global,
    slot: Slot,
    input: &mut R,
    state: &mut ReaderState,
) -> Result<Begun, ReadFault>
    requires place { state.old.place + 2 ^ 18 < 2 ^ 62 }
    requires growth_bound { state.old.growth ≤ 2 * state.old.place + 2 ^ 15 }
    ensures head { Reading (head_field slot) (λ begun. begun.subtable) state.old state.new R.Input input.old input.new result }
    ensures slot { IfOk result (λ begun. begun ≡ record { slot = slot; subtable = begun.subtable; index = 0 }) }
    ensures place { OnOk result (state.new.place ≤ state.old.place + 2 ^ 18) }
    ensures growth { OnOk result (state.new.growth + 2 * state.old.place ≤ state.old.growth + 2 * state.new.place) }
    ensures grown { IfOk result (λ begun. HasCounted state.old state.new 0 (sub_lengths begun.subtable)) }
{
    let flags = read_byte(input, state)?;
    if has_bit(7, flags) {
        let byte = read_byte(input, state)?;
        return Ok(Begun {
            slot,
            sub: Sub::Constant { flags, byte },
        });
    }
    let sub = read_packed_head(alloc, flags, input, state)?;
    Ok(Begun { slot, sub })
}

/// Reads the header of a subtable that is not constant, after its flags.
fn read_packed_head<R: Input>(
    alloc: Global,
    flags: u8,
    input: &mut R,
    state: &mut ReaderState,
) -> Result<Sub, ReadFault>
    requires flags { has_bit 7 flags ≡ false }
    requires place { state.old.place + 200000 < 2 ^ 62 }
    requires growth_bound { state.old.growth ≤ 2 * state.old.place + 2 ^ 15 }
    ensures head { Reading (packed_head flags) subtable_of state.old state.new R.Input input.old input.new result }
    ensures headed { IfOk result IsHeaded }
    ensures place { OnOk result (state.new.place ≤ state.old.place + 200000) }
    ensures growth { OnOk result (state.new.growth + 2 * state.old.place ≤ state.old.growth + 2 * state.new.place) }
    ensures grown { IfOk result (λ sub. HasCounted state.old state.new 0 (sub_lengths (subtable_of sub))) }
{
    // a block has at most 2^18 bytes, and a span 2 to 2^31 values
    let block_bits = read_byte_within(0, 18, Reason::BlockBits, input, state)?;
    let span_bits = read_byte_within(1, 31, Reason::SpanBits, input, state)?;
    let sizes = read_sizes(input, state)?;
    let lowest = read_lowest(alloc, sizes.min, sizes.max, input, state)?;
    let dict = read_dictionary(alloc, input, state)?;
    let code = lowest.with_symbols(dict.symbols());
    Ok(Sub::Pairs {
        flags,
        block_bits,
        span_bits,
        extra: sizes.extra,
        blocks: sizes.blocks,
        code,
        dict,
        sparse: Vec::new(alloc),
        lengths: Vec::new(alloc),
        packed: Vec::new(alloc),
    })
}

/// Reads a byte from `least` to `most`. Errors: `reason` if it is any other.
fn read_byte_within<R: Input>(
    least: u8,
    most: u8,
    reason: Reason,
    input: &mut R,
    state: &mut ReaderState,
) -> Result<u8, ReadFault>
    requires { state.old.place < 2 ^ 62 }
    ensures byte { Reading (byte_where (λ byte. nat_le least byte && nat_le byte most) reason) (λ byte. byte) state.old state.new R.Input input.old input.new result }
    ensures least { IfOk result (λ byte. least ≤ byte) }
    ensures most { IfOk result (λ byte. byte ≤ most) }
    ensures place { OnOk result (state.new.place ≡ state.old.place + 1) }
    ensures growth { OnOk result (state.new.growth ≡ state.old.growth) }
    ensures grown { OnOk result (HasCounted state.old state.new 0 0) }
{
    let place = state.place;
    let byte = read_byte(input, state)?;
    if byte < least || byte > most {
        return Err(ReadFault::Refused { place, reason });
    }
    Ok(byte)
}

/// The sizes that follow the span bits in a header: the number of extra lengths, the number of blocks, and the
/// least and the greatest code length.
#[derive(Clone, Copy)]
pub struct HeadSizes {
    pub extra: u8,
    pub blocks: u32,
    pub min: u8,
    pub max: u8,
}

/// Reads the sizes after the span bits at once, because no check comes between them.
fn read_sizes<R: Input>(input: &mut R, state: &mut ReaderState) -> Result<HeadSizes, ReadFault>
    requires { state.old.place < 2 ^ 62 }
    ensures sizes { Reading sizes_field (λ sizes. sizes) state.old state.new R.Input input.old input.new result }
    ensures some { IfOk result (λ sizes. 1 ≤ sizes.min) }
    ensures in_order { IfOk result (λ sizes. sizes.min ≤ sizes.max) }
    ensures most { IfOk result (λ sizes. sizes.max ≤ 32) }
    ensures place { OnOk result (state.new.place ≡ state.old.place + 7) }
    ensures growth { OnOk result (state.new.growth ≡ state.old.growth) }
    ensures grown { OnOk result (HasCounted state.old state.new 0 0) }
{
    let (place, reason) = (state.place + 5, Reason::CodeLengths);
    let mut chunk = [0; 7];
    take_field(input, state, &mut chunk)?;
    let sizes = HeadSizes {
        extra: chunk[0],
        blocks: LittleEndian::read_u32(&chunk[1..]),
        min: chunk[6],
        max: chunk[5],
    };
    if sizes.min == 0 || sizes.min > sizes.max || sizes.max > 32 {
        return Err(ReadFault::Refused { place, reason });
    }
    Ok(sizes)
}

/// Reads the lowest symbol of each length. Returns the code with 0 symbols; their number is read later.
fn read_lowest<R: Input>(
    alloc: Global,
    min: u8,
    max: u8,
    input: &mut R,
    state: &mut ReaderState,
) -> Result<Code, ReadFault>
    requires some { 1 ≤ min }
    requires in_order { min ≤ max }
    requires most { max ≤ 32 }
    requires place { state.old.place + 64 < 2 ^ 62 }
    requires growth_bound { state.old.growth ≤ 2 * state.old.place + 2 ^ 15 }
    ensures lowest { Reading (lowest_list min max) (λ code. code.lowest) state.old state.new R.Input input.old input.new result }
    ensures code { IfOk result (λ code. code ≡ code_with min max code.lowest 0) }
    ensures accepted { IfOk result IsCode }
    ensures place { OnOk result (state.new.place ≡ state.old.place + 2 * (max + 1 - min)) }
    ensures growth { OnOk result (state.new.growth ≡ state.old.growth + 3 * (max + 1 - min)) }
    ensures grown { IfOk result (λ code. HasCounted state.old state.new 0 (length code.lowest)) }
{
    let place = state.place;
    let lowest = take_numbers(alloc, u64::from(max + 1 - min), input, state)?;
    match Code::new(min, max, lowest, 0) {
        Ok(code) => Ok(code),
        // the lengths were checked before
        Err(CodeFault::Lengths) => unreachable!(),
        Err(CodeFault::LowestOrder(item)) => Err(ReadFault::Refused {
            place: place + 2 * u64::from(item),
            reason: Reason::LowestOrder,
        }),
        Err(CodeFault::TooFull(item)) => Err(ReadFault::Refused {
            place: place + 2 * u64::from(item),
            reason: Reason::TooFull,
        }),
    }
}

/// Reads the dictionary: its number of entries, the entries, and a padding byte if the number is odd.
fn read_dictionary<R: Input>(
    alloc: Global,
    input: &mut R,
    state: &mut ReaderState,
) -> Result<Dict, ReadFault>
    requires place { state.old.place + 196608 < 2 ^ 62 }
    requires growth_bound { state.old.growth ≤ 2 * state.old.place + 2 ^ 15 }
    ensures dictionary { Reading dictionary (λ dict. dict) state.old state.new R.Input input.old input.new result }
    ensures place { OnOk result (state.new.place ≤ state.old.place + 196608) }
    ensures growth { OnOk result (state.new.growth + 2 * state.old.place ≤ state.old.growth + 2 * state.new.place) }
    ensures grown { IfOk result (λ dict. HasCounted state.old state.new 0 (2 * length dict)) }
{
    let count = read_number(input, state)?;
    let place = state.place;
    let entries = take_entries(alloc, u64::from(count), input, state)?;
    let dict = match Dict::new(alloc, entries) {
        Ok(dict) => dict,
        Err(fault) => return Err(entries_refusal(place, fault)),
    };
    take_spare(alloc, (count % 2) as u8, input, state)?;
    Ok(dict)
}

/// Returns the refusal for a fault of entries that begin at offset `place`.
fn entries_refusal(place: u64, fault: DictFault) -> ReadFault
    requires { place < 2 ^ 62 }
    ensures refused { fault ≢ DictFault.Memory → Refuses (entries_refusal place fault) result }
    ensures memory { fault ≡ DictFault.Memory → result ≡ ReadFault.Memory }
{
    match fault {
        DictFault::Child(symbol) => ReadFault::Refused {
            place: place + 3 * u64::from(symbol),
            reason: Reason::Child,
        },
        DictFault::Cycle(symbol) => ReadFault::Refused {
            place: place + 3 * u64::from(symbol),
            reason: Reason::Cycle,
        },
        DictFault::LongSymbol(symbol) => ReadFault::Refused {
            place: place + 3 * u64::from(symbol),
            reason: Reason::LongSymbol,
        },
        DictFault::Memory => ReadFault::Memory,
    }
}
