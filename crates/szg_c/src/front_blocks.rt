//! Calls on an opened front whose file C reads itself: the byte range of a value's block, and the value in its bytes.
ghost use Rattle.std.specs.Prelude.{◌≡◌, ◌+◌, ◌≤◌, ◌⊎◌, ℕ, List, IfSome, MatchOption};
ghost use Rattle.std.specs.declared.option.Option.TheVariants.{None, Some};
ghost use Rattle.szg_file.specs.FrontTable.{IsFrontOf};
ghost use Rattle.szg_file.specs.Index.{slot_in};
ghost use Rattle.szg_c.specs.FrontBlocks.{IsBlockOf, IsFoundRange, IsLengthReported, IsSpelledIn};
ghost use Rattle.szg_c.specs.Fronts.{IsGot};
ghost use Rattle.szg_c.specs.Places.{with_slot};

use crate::fronts::{BadBlock, fetch_status, has_index};
use crate::handle::{put, take};
use crate::held_front::HeldFront;
use std::alloc::Global;
use szg_c_positions::status::{BAD_BLOCK, CHANGED, CLOSED, DONE, RANGE};
use szg_file::FrontTable;
use szg_place::Spot;

/// A byte range of a file.
#[repr(C)]
#[derive(Drop)]
pub struct RawByteRange {
    /// The offset of the first byte.
    pub offset: u64,
    /// The number of bytes.
    pub count: u64,
}

/// Finds the byte range that a value needs, if the table has its index; offset and count are 0 if it needs none.
fn find_in(table: &FrontTable, spot: Spot, range: &mut RawByteRange) -> u32
    ensures statuses { MatchOption (with_slot (slot_in table.now.index spot.part spot.side) spot.index) (result ≡ RANGE) (λ slot. result ≡ DONE) }
    ensures found { (content : List ℕ) → IsFrontOf table.now content → IfSome (with_slot (slot_in table.now.index spot.part spot.side) spot.index) (λ slot. IsFoundRange table.now content spot.part spot.side spot.index range.new) }
    ensures inside { (result ≡ DONE) → range.new.offset + range.new.count ≤ table.now.length }
    ensures stays { (result ≡ DONE → ⊥) → range.new ≡ range.old }
{
    if !has_index(table.index(), spot) {
        return RANGE;
    }
    match table.locate(spot.part, spot.side, spot.index).range() {
        Some(wanted) => {
            (range.offset, range.count) = (wanted.offset, wanted.count);
            DONE
        }
        None => {
            (range.offset, range.count) = (0, 0);
            DONE
        }
    }
}

/// Finds the byte range of the file that the value at an index needs: that of one block. In a constant subtable the
/// value needs none: then offset and count are 0.
///
/// Errors: `CLOSED` if the handle has no front, `RANGE` if the table has no such part, side or index. Then `range` is
/// unchanged.
#[unsafe(no_mangle)]
pub extern "C" fn szg_front_find(
    alloc: Global,
    front: &mut HeldFront,
    part: u8,
    side: u8,
    index: u64,
    range: &mut RawByteRange,
) -> u32
    ensures kept { front.new.value ≡ front.old.value }
    ensures closed { front.old.value ≡ None → result ≡ CLOSED }
    ensures statuses { IfSome front.old.value (λ f. MatchOption (with_slot (slot_in f.index part side) index) (result ≡ RANGE) (λ slot. result ≡ DONE)) }
    ensures found { IfSome front.old.value (λ f. (content : List ℕ) → IsFrontOf f content → IfSome (with_slot (slot_in f.index part side) index) (λ slot. IsFoundRange f content part side index range.new)) }
    ensures inside { IfSome front.old.value (λ f. (result ≡ DONE) → range.new.offset + range.new.count ≤ f.length) }
    ensures stays { (result ≡ DONE → ⊥) → range.new ≡ range.old }
{
    let spot = Spot { part, side, index };
    let Some(held) = take(front, alloc) else {
        return CLOSED;
    };
    let status = find_in(held.value(), spot, range);
    put(front, held);
    status
}

/// Decodes a value from `block`, the bytes that it needs, which are verified first.
fn value_of(
    table: &FrontTable,
    spot: Spot,
    block: &[u8],
    value: &mut u16,
    bad: &mut BadBlock,
) -> u32
    ensures statuses { MatchOption (with_slot (slot_in table.now.index spot.part spot.side) spot.index) (result ≡ RANGE) (λ slot. (result ≡ DONE) ⊎ (result ≡ CHANGED) ⊎ (result ≡ BAD_BLOCK)) }
    ensures length { (content : List ℕ) → IsFrontOf table.now content → IfSome (with_slot (slot_in table.now.index spot.part spot.side) spot.index) (λ slot. IsLengthReported table.now content spot.part spot.side spot.index block.now result) }
    ensures got { (content : List ℕ) → IsFrontOf table.now content → IfSome (with_slot (slot_in table.now.index spot.part spot.side) spot.index) (λ slot. IsBlockOf table.now content spot.part spot.side spot.index block.now → IsGot table.now content spot.part spot.side spot.index result value.new bad.old bad.new) }
    ensures spelled { (content : List ℕ) → IsFrontOf table.now content → IfSome (with_slot (slot_in table.now.index spot.part spot.side) spot.index) (λ slot. (result ≡ DONE) → IsSpelledIn table.now content spot.part spot.side spot.index block.now value.new) }
    ensures value_stays { (result ≡ DONE → ⊥) → value.new ≡ value.old }
    ensures bad_stays { (result ≡ BAD_BLOCK → ⊥) → bad.new ≡ bad.old }
{
    if !has_index(table.index(), spot) {
        return RANGE;
    }
    match table.locate(spot.part, spot.side, spot.index).decode(block) {
        Ok(found) => {
            *value = found;
            DONE
        }
        Err(fault) => fetch_status(fault, bad),
    }
}

/// Decodes the value at an index from `block`, the bytes of the file at the range that `szg_front_find` returns. The
/// block is verified first. A constant subtable ignores the bytes.
///
/// Errors: `CLOSED` if the handle has no front, `RANGE` if the table has no such part, side or index, `BAD_BLOCK` if the
/// block does not decode (then `bad` has its number and offset), `CHANGED` if `block` has another number of bytes. Then
/// `value` is unchanged. Bytes that differ from the file's may decode to another value.
#[unsafe(no_mangle)]
pub extern "C" fn szg_front_value(
    alloc: Global,
    front: &mut HeldFront,
    part: u8,
    side: u8,
    index: u64,
    block: &[u8],
    value: &mut u16,
    bad: &mut BadBlock,
) -> u32
    ensures kept { front.new.value ≡ front.old.value }
    ensures closed { front.old.value ≡ None → result ≡ CLOSED }
    ensures statuses { IfSome front.old.value (λ f. MatchOption (with_slot (slot_in f.index part side) index) (result ≡ RANGE) (λ slot. (result ≡ DONE) ⊎ (result ≡ CHANGED) ⊎ (result ≡ BAD_BLOCK))) }
    ensures length { IfSome front.old.value (λ f. (content : List ℕ) → IsFrontOf f content → IfSome (with_slot (slot_in f.index part side) index) (λ slot. IsLengthReported f content part side index block.now result)) }
    ensures got { IfSome front.old.value (λ f. (content : List ℕ) → IsFrontOf f content → IfSome (with_slot (slot_in f.index part side) index) (λ slot. IsBlockOf f content part side index block.now → IsGot f content part side index result value.new bad.old bad.new)) }
    ensures spelled { IfSome front.old.value (λ f. (content : List ℕ) → IsFrontOf f content → IfSome (with_slot (slot_in f.index part side) index) (λ slot. (result ≡ DONE) → IsSpelledIn f content part side index block.now value.new)) }
    ensures value_stays { (result ≡ DONE → ⊥) → value.new ≡ value.old }
    ensures bad_stays { (result ≡ BAD_BLOCK → ⊥) → bad.new ≡ bad.old }
{
    let spot = Spot { part, side, index };
    let Some(held) = take(front, alloc) else {
        return CLOSED;
    };
    let status = value_of(held.value(), spot, block, value, bad);
    put(front, held);
    status
}
