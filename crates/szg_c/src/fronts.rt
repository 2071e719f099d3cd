//! Calls on an opened front. The file's bytes are lent at each call.
ghost use Rattle.std.specs.Prelude.{◌≡◌, ◌⊎◌, IfSome, IsSomeAnd, MatchOption, is_some};
ghost use Rattle.std.specs.declared.option.Option.TheVariants.{None, Some};
ghost use Rattle.szg_file.specs.FrontTable.{IsFrontOf};
ghost use Rattle.szg_file.specs.Index.{slot_in};
ghost use Rattle.szg_c.specs.Fronts.{FetchReported, IsFront, IsGot, ReportsFront, greatest_span_bits};
ghost use Rattle.szg_c.specs.Places.{with_slot};

use crate::handle::{hold, put, share, shut, take, with_held, write};
use crate::held_front::HeldFront;
use crate::opening::{RawAnswer, fault_status, kind_of, material_of};
use crate::shared::Shared;
use std::alloc::Global;
use szg_block::Sub;
use szg_c_positions::status::{BAD_BLOCK, CHANGED, CLOSED, DONE, MEMORY, NAME, RANGE};
use szg_file::{FetchFault, FrontTable, PlacedSub, TableIndex, open_front};
use szg_io::Bytes;
use szg_place::Spot;

/// A block that doesn't decode.
#[repr(C)]
#[derive(Drop)]
pub struct BadBlock {
    /// The block's number in its subtable.
    pub block: u32,
    /// The block's offset in the file.
    pub offset: u64,
}

/// Opens the front of the table of this name and kind whose file the bytes are: reads and checks all but the blocks. What
/// `front` held before is let go.
///
/// Errors: `NAME`, `REFUSED` (then `answer` has the offset and the reason), `MEMORY`; then `front` holds none.
#[unsafe(no_mangle)]
pub extern "C" fn szg_open_front(
    alloc: Global,
    name: &[u8],
    dtz: bool,
    bytes: &[u8],
    front: &mut HeldFront,
    answer: &mut RawAnswer,
) -> u32
    ensures says { ReportsFront name.now dtz bytes.now (IsSomeAnd front.new.value (IsFront name.now dtz bytes.now)) result answer.new.place answer.new.reason }
    ensures shut { (result ≡ 0 → ⊥) → front.new.value ≡ None }
    ensures stays { (result ≡ 2 → ⊥) → answer.new ≡ answer.old }
{
    shut(front, alloc);
    let Some(material) = material_of(name) else {
        return NAME;
    };
    let size = bytes.len() as u64;
    match open_front(alloc, material, kind_of(dtz), size, &mut Bytes::new(bytes)) {
        Ok((table, _)) => {
            let Ok(shared) = Shared::new(alloc, table) else {
                return MEMORY;
            };
            hold(alloc, front, shared)
        }
        Err(fault) => fault_status(fault, answer),
    }
}

/// A second handle on a front: both hold it, and it goes when the last is closed. What the second held before is let go.
///
/// Errors: `CLOSED` if the first holds none, `MEMORY`; then the second holds none.
#[unsafe(no_mangle)]
pub extern "C" fn szg_share_front(
    alloc: Global,
    front: &mut HeldFront,
    second: &mut HeldFront,
) -> u32
    ensures kept { front.new.value ≡ front.old.value }
    ensures closed { front.old.value ≡ None → result ≡ 5 }
    ensures statuses { IfSome front.old.value (λ f. (result ≡ 0) ⊎ (result ≡ 3)) }
    ensures done { (result ≡ 0) → second.new.value ≡ front.old.value }
    ensures shut { (result ≡ 0 → ⊥) → second.new.value ≡ None }
{
    share(alloc, front, second)
}

/// Lets the front go.
#[unsafe(no_mangle)]
pub extern "C" fn szg_close_front(alloc: Global, front: &mut HeldFront)
    ensures { front.new.value ≡ None }
{
    shut(front, alloc);
}

/// The number of positions of a part's side.
///
/// Errors: `CLOSED` if the handle holds no front, `RANGE` if the table has no such part or side. Then the size stays.
#[unsafe(no_mangle)]
pub extern "C" fn szg_front_size(
    alloc: Global,
    front: &mut HeldFront,
    part: u8,
    side: u8,
    size: &mut u64,
) -> u32
    ensures kept { front.new.value ≡ front.old.value }
    ensures closed { front.old.value ≡ None → (result ≡ 5) × (size.new ≡ size.old) }
    ensures reported { IfSome front.old.value (λ f. MatchOption (slot_in f.index part side) ((result ≡ 4) × (size.new ≡ size.old)) (λ slot. (result ≡ 0) × (size.new ≡ slot.size))) }
{
    let mut look = |held: &FrontTable| write(held.index().size(part, side).ok_or(RANGE), size);
    with_held(alloc, front, &mut look)
}

/// The greatest span bits of subtables, 0 if all are constant.
fn greatest_span_bits(subs: &[PlacedSub]) -> u8
    ensures { result ≡ greatest_span_bits subs.now }
{
    let mut greatest = 0;
    'subtables: for placed in subs {
        let bits = match &placed.sub {
            Sub::Constant { .. } => 0,
            Sub::Pairs { span_bits, .. } => *span_bits,
        };
        greatest = greatest.max(bits);
    }
    greatest
}

/// The greatest span bits of the table's subtables, 0 if all are constant.
///
/// Errors: `CLOSED` if the handle holds no front. Then `bits` stays.
#[unsafe(no_mangle)]
pub extern "C" fn szg_front_span(alloc: Global, front: &mut HeldFront, bits: &mut u8) -> u32
    ensures kept { front.new.value ≡ front.old.value }
    ensures closed { front.old.value ≡ None → (result ≡ 5) × (bits.new ≡ bits.old) }
    ensures reported { IfSome front.old.value (λ f. (result ≡ 0) × (bits.new ≡ greatest_span_bits f.subs)) }
{
    let mut look = |held: &FrontTable| write(Ok(greatest_span_bits(held.subs())), bits);
    with_held(alloc, front, &mut look)
}

/// Whether a table has the index of a spot.
pub(crate) fn has_index(table: &TableIndex, spot: Spot) -> bool
    ensures { result ≡ is_some (with_slot (slot_in table.now spot.part spot.side) spot.index) }
{
    match table.size(spot.part, spot.side) {
        Some(size) => spot.index < size,
        None => false,
    }
}

/// The status of a fault of a fetch; a bad block is written to `bad`.
pub(crate) fn fetch_status(fault: FetchFault, bad: &mut BadBlock) -> u32
    ensures { FetchReported fault bad.old bad.new result }
{
    match fault {
        FetchFault::Block { number, offset } => {
            bad.block = number;
            bad.offset = offset;
            BAD_BLOCK
        }
        FetchFault::Source => CHANGED,
    }
}

/// The value at a spot, out of the file's bytes.
fn value_in(
    table: &FrontTable,
    bytes: &[u8],
    spot: Spot,
    value: &mut u16,
    bad: &mut BadBlock,
) -> u32
    ensures statuses { MatchOption (with_slot (slot_in table.now.index spot.part spot.side) spot.index) (result ≡ 4) (λ slot. (result ≡ 0) ⊎ (result ≡ 17) ⊎ (result ≡ 18)) }
    ensures got { IsFrontOf table.now bytes.now → IfSome (with_slot (slot_in table.now.index spot.part spot.side) spot.index) (λ slot. IsGot table.now bytes.now spot.part spot.side spot.index result value.new bad.old bad.new) }
    ensures value_stays { (result ≡ 0 → ⊥) → value.new ≡ value.old }
    ensures bad_stays { (result ≡ 18 → ⊥) → bad.new ≡ bad.old }
{
    if !has_index(table.index(), spot) {
        return RANGE;
    }
    match table.get(bytes, spot.part, spot.side, spot.index) {
        Ok(found) => {
            *value = found;
            DONE
        }
        Err(fault) => fetch_status(fault, bad),
    }
}

/// The value at an index of a part's side, out of the file's bytes. The block that has it is verified first.
///
/// Errors: `CLOSED` if the handle holds no front, `RANGE` if the table has no such part, side or index, `BAD_BLOCK` if the
/// block doesn't decode (then `bad` has its number and offset), `CHANGED` if there are fewer bytes than when the front was
/// opened.
#[unsafe(no_mangle)]
pub extern "C" fn szg_front_get(
    alloc: Global,
    front: &mut HeldFront,
    bytes: &[u8],
    part: u8,
    side: u8,
    index: u64,
    value: &mut u16,
    bad: &mut BadBlock,
) -> u32
    ensures kept { front.new.value ≡ front.old.value }
    ensures closed { front.old.value ≡ None → result ≡ 5 }
    ensures statuses { IfSome front.old.value (λ f. MatchOption (with_slot (slot_in f.index part side) index) (result ≡ 4) (λ slot. (result ≡ 0) ⊎ (result ≡ 17) ⊎ (result ≡ 18))) }
    ensures got { IfSome front.old.value (λ f. IsFrontOf f bytes.now → IfSome (with_slot (slot_in f.index part side) index) (λ slot. IsGot f bytes.now part side index result value.new bad.old bad.new)) }
    ensures value_stays { (result ≡ 0 → ⊥) → value.new ≡ value.old }
    ensures bad_stays { (result ≡ 18 → ⊥) → bad.new ≡ bad.old }
{
    let spot = Spot { part, side, index };
    let Some(held) = take(front, alloc) else {
        return CLOSED;
    };
    let status = value_in(held.value(), bytes, spot, value, bad);
    put(front, held);
    status
}
