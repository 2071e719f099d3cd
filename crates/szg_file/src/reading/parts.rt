ghost use Rattle.std.specs.Prelude.{ℕ, ◌≡◌, ◌+◌, ◌*◌, ◌≤◌, ◌<◌, ◌^◌, ◌∷◌, ◌++◌, [], length, map, if◌then◌else◌, None, OnOk, IfOk, IfErr, OnErr, Err};
ghost use Rattle.std.specs.List.{range_with_len};
ghost use Rattle.szg_count.specs.Groups.{IsPart, nibbles_of, order_fault, size_of};
ghost use Rattle.szg_file.specs.Contents.{slots, part_slots, part_numbers, side_numbers, order_bytes};
ghost use Rattle.szg_file.specs.File.{each, part_field, part_checks, order_check};
ghost use Rattle.szg_file.specs.Format.{means, refuses};
ghost use Rattle.szg_file.specs.Held.{part_of};
ghost use Rattle.szg_file.specs.Parts.{part_with};
ghost use Rattle.szg_file.specs.Reading.{Reading};
ghost use Rattle.szg_file.specs.Grown.{HasCounted, part_length, parts_lengths};

use crate::begun::Slot;
use crate::fault::{ReadFault, Reason};
use crate::reading::state::{ReaderState, append, grow};
use crate::reading::taking::take_field;
use crate::table::PartBytes;
use arrayvec::ArrayVec;
use std::alloc::Global;
use szg_count::{Groups, Order, OrderFault};
use szg_io::Input;
use szg_values::{Kind, Material};

/// The parts of a file, and the slots of their subtables.
#[derive(Drop)]
pub struct Parts {
    pub bytes: Vec<PartBytes>,
    /// At most two for each of four parts. They need no allocation.
    pub slots: ArrayVec<Slot, 8>,
}

/// Returns the number of order bytes of a part.
pub(crate) fn order_count(material: &Material) -> usize
    ensures number { result ≡ order_bytes material.now }
    ensures some { 1 ≤ result }
    ensures few { result ≤ 2 }
{
    if material.has_pawns() && material.other_pawns() > 0 {
        2
    } else {
        1
    }
}

/// Returns whether each part has subtables for both sides: in WDL, unless the material is symmetric.
pub fn has_two_sides(material: &Material, kind: Kind) -> bool
    ensures { side_numbers material.now kind ≡ (if result then 0 ∷ 1 ∷ [] else 0 ∷ []) }
{
    match kind {
        Kind::Wdl => !material.symmetric(),
        Kind::Dtz => false,
    }
}

/// Returns the slot of a side of a part that begins at offset `place`. Errors: the offset and the reason of the refusal,
/// for the first failing check of the side's order.
fn slot_of_side(
    material: &Material,
    part: u8,
    side: u8,
    place: u64,
    order: &[u8],
    men: &[u8],
) -> Result<Slot, (u64, Reason)>
    requires part { IsPart material.now part }
    requires side { side < 2 }
    requires place { place < 2 ^ 61 }
    requires order { length order.now ≤ 2 }
    requires men { length men.now ≤ 6 }
    ensures is_valid { OnOk result (order_fault material.now (nibbles_of side order.now men.now) ≡ None) }
    ensures slot { IfOk result (λ slot. slot ≡ record { part = part; side = side; size = size_of material.now part (nibbles_of side order.now men.now) }) }
    ensures refuses { IfErr result (λ refusal. order_check place (length order.now) (order_fault material.now (nibbles_of side order.now men.now)) ≡ refuses refusal.0 refusal.1) }
{
    let after = place + order.len() as u64;
    match Groups::of(material, part, &Order::of_side(side, order, men)) {
        Ok(groups) => Ok(Slot {
            part,
            side,
            size: groups.size(),
        }),
        Err(OrderFault::Pieces) => Err((after, Reason::Pieces)),
        Err(OrderFault::PawnsFirst) => Err((after, Reason::PawnsFirst)),
        Err(OrderFault::OrderPlace) => Err((place, Reason::OrderPlace)),
    }
}

/// Appends the slots of a part that begins at offset `place`. Errors: the offset and the reason of its refusal.
pub(crate) fn push_slots(
    material: &Material,
    kind: Kind,
    part: u8,
    place: u64,
    order: &[u8],
    men: &[u8],
    slots: &mut ArrayVec<Slot, 8>,
) -> Result<(), (u64, Reason)>
    requires part { IsPart material.now part }
    requires order { length order.now ≡ order_bytes material.now }
    requires men { length men.now ≤ 6 }
    requires place { place < 2 ^ 61 }
    requires room { length slots.old.items ≤ 6 }
    ensures passes { OnOk result (part_checks material.now kind place (part_with order.now men.now) ≡ means tt) }
    ensures slots { OnOk result (slots.new.items ≡ slots.old.items ++ part_slots material.now (side_numbers material.now kind) part (part_with order.now men.now)) }
    ensures refuses { IfErr result (λ refusal. part_checks material.now kind place (part_with order.now men.now) ≡ refuses refusal.0 refusal.1) }
{
    let first = slot_of_side(material, part, 0, place, order, men)?;
    slots.push(first);
    if !has_two_sides(material, kind) {
        return Ok(());
    }
    let second = slot_of_side(material, part, 1, place, order, men)?;
    slots.push(second);
    Ok(())
}

/// Returns a copy of bytes that were already read.
fn copied(alloc: Global, bytes: &[u8], state: &mut ReaderState) -> Result<Vec<u8>, ReadFault>
    requires few { length bytes.now ≤ 8 }
    requires place { state.old.place < 2 ^ 61 }
    requires growth_bound { state.old.growth ≤ 2 * state.old.place + 2 ^ 15 }
    ensures bytes { IfOk result (λ list. list.items ≡ bytes.now) }
    ensures growth { OnOk result (state.new.growth ≡ state.old.growth + length bytes.now) }
    ensures place { OnOk result (state.new.place ≡ state.old.place) }
    ensures fill { OnOk result (state.new.fill.items ≡ state.old.fill.items) }
    ensures memory { OnErr result (result ≡ Err ReadFault.Memory) }
{
    let mut list = Vec::new(alloc);
    grow(&mut list, bytes.len(), state)?;
    list.extend_from_slice(bytes)?;
    Ok(list)
}

/// Reads a part, and appends the slots of its sides.
fn read_part<R: Input>(
    alloc: Global,
    material: &Material,
    kind: Kind,
    part: u8,
    slots: &mut ArrayVec<Slot, 8>,
    input: &mut R,
    state: &mut ReaderState,
) -> Result<PartBytes, ReadFault>
    requires part { IsPart material.now part }
    requires room { length slots.old.items ≤ 6 }
    requires place { state.old.place < 2 ^ 60 }
    requires growth_bound { state.old.growth ≤ 2 * state.old.place + 2 ^ 14 }
    ensures part { Reading (part_field material.now kind) part_of state.old state.new R.Input input.old input.new result }
    ensures slots { IfOk result (λ read. slots.new.items ≡ slots.old.items ++ part_slots material.now (side_numbers material.now kind) part (part_of read)) }
    ensures place { OnOk result (state.new.place ≤ state.old.place + 8) }
    ensures growth { OnOk result (state.new.growth + state.old.place ≡ state.old.growth + state.new.place) }
    ensures grown { IfOk result (λ read. HasCounted state.old state.new 0 (part_length (part_of read))) }
{
    let place = state.place;
    let orders = order_count(material);
    let size = orders + material.men().len();
    let mut chunk = [0; 8];
    take_field(input, state, &mut chunk[..size])?;
    let order = &chunk[..orders];
    let men = &chunk[orders..size];
    if let Err((place, reason)) = push_slots(material, kind, part, place, order, men, slots) {
        return Err(ReadFault::Refused { place, reason });
    }
    let order = copied(alloc, order, state)?;
    let men = copied(alloc, men, state)?;
    Ok(PartBytes { order, men })
}

/// Returns the number of parts of a file: four with pawns, else one.
pub fn part_count(material: &Material) -> u8
    ensures numbers { part_numbers material.now ≡ range_with_len 0 result }
    ensures parts { (part : ℕ) → part < result → IsPart material.now part }
    ensures some { 0 < result }
    ensures few { result ≤ 4 }
{
    if material.has_pawns() { 4 } else { 1 }
}

/// Reads the parts.
// Not inlined, so that its temporaries take no stack while `read_front` reads the block lengths.
#[inline(never)]
pub(crate) fn read_parts<R: Input>(
    alloc: Global,
    material: &Material,
    kind: Kind,
    input: &mut R,
    state: &mut ReaderState,
) -> Result<Parts, ReadFault>
    requires place { state.old.place < 2 ^ 59 }
    requires growth_bound { state.old.growth ≤ 2 * state.old.place }
    ensures parts { Reading (each (λ _. part_field material.now kind) (part_numbers material.now)) (λ parts. map part_of parts.bytes.items) state.old state.new R.Input input.old input.new result }
    ensures slots { IfOk result (λ parts. parts.slots.items ≡ slots material.now kind (map part_of parts.bytes.items)) }
    ensures few { IfOk result (λ parts. length parts.slots.items ≤ 8) }
    ensures place { OnOk result (state.new.place ≤ state.old.place + 32) }
    ensures growth { OnOk result (state.new.growth + 2 * state.old.place ≤ state.old.growth + 2 * state.new.place + 4) }
    ensures grown { IfOk result (λ parts. HasCounted state.old state.new 0 (length parts.bytes.items + parts_lengths parts.bytes.items)) }
{
    let mut parts = Parts {
        bytes: Vec::new(alloc),
        slots: ArrayVec::new(),
    };
    'parts: for part in 0..part_count(material) {
        let bytes = read_part(alloc, material, kind, part, &mut parts.slots, input, state)?;
        append(&mut parts.bytes, bytes, state)?;
    }
    Ok(parts)
}
