//! The index of a table: which subtables it has, with their flags and maps.
ghost use Rattle.std.specs.Prelude.{◌≡◌, ◌≢◌, ◌<◌, ◌≤◌, ◌↔◌, ◌≤ℤ◌, ℤ, pos, neg_ℤ, length, map, option_map, IsSome, IsTrue, MatchOption, Ok, Err, Some, None};
ghost use Rattle.szg_values.specs.Material.{IsMaterial};
ghost use Rattle.szg_count.specs.Grouped.{AreGroupsOf};
ghost use Rattle.szg_file.specs.Accepted.{SideBySide, IsPart};
ghost use Rattle.szg_file.specs.Contents.{part_numbers, side_numbers, slots as slots_of};
ghost use Rattle.szg_file.specs.Held.{part_of, map_of, subtable_of};
ghost use Rattle.szg_file.specs.File.{flags_of as flags_byte};
ghost use Rattle.szg_file.specs.Index.{AreSlotGroups, Index, IsIndex, IsNumbered, IsOrderedSlot, index_with, nibbles_in_part, number_in, slot_in, slot_number as number_of, slots_in};

use crate::begun::Slot;
use crate::distances::{list_number, number_at};
use crate::fault::MapFault;
use crate::lookup::{flags_of, slot_number};
use crate::reading::dropping::PlacedSub;
use crate::reading::parts::Parts;
use crate::table::{Map, PartBytes};
use crate::typed::parts_fit;
use arrayvec::ArrayVec;
use std::marker::Model;
use szg_block::Sub;
use szg_count::{MaterialInfo, Order, SideGroups};
use szg_values::{Kind, Material};

/// The index of a table: its material and kind, its parts, the slots and flags of its subtables, and its maps. It keeps
/// what numbers the placements of the table: facts about the material, and the groups of each subtable's men. Each
/// type of table owns one, with its subtables and the source of their blocks.
#[derive(Drop)]
pub struct TableIndex {
    info: MaterialInfo,
    kind: Kind,
    parts: Parts,
    // the groups of the subtables' men, in file order
    groups: ArrayVec<Option<SideGroups>, 8>,
    // the subtables' flags, in file order
    flags: ArrayVec<u8, 8>,
    maps: Vec<Option<Map>>,
}

impl Model for TableIndex {
    ghost use Rattle.std.specs.Prelude.{◌≡◌, map, option_map};
    ghost use Rattle.szg_values.specs.Material.{IsMaterial};
    ghost use Rattle.szg_file.specs.Accepted.{SideBySide};
    ghost use Rattle.szg_file.specs.Contents.{slots};
    ghost use Rattle.szg_file.specs.Held.{part_of, map_of};
    ghost use Rattle.szg_file.specs.Index.{AreSlotGroups, Index, IsIndex, index_with};

    ghost Value = { Index };

    ghost view = { λ x. index_with x.info x.kind (map part_of x.parts.bytes.items) x.flags.items (map (option_map map_of) x.maps.items) };

    ghost invariant = { λ x. IsIndex (index_with x.info x.kind (map part_of x.parts.bytes.items) x.flags.items (map (option_map map_of) x.maps.items))
        × (x.parts.slots.items ≡ slots x.info x.kind (map part_of x.parts.bytes.items))
        × SideBySide (AreSlotGroups x.info (map part_of x.parts.bytes.items)) x.parts.slots.items x.groups.items
        × IsMaterial x.info };
}

/// Creates the index of a table whose subtables are in memory.
pub(crate) fn index_of_subs(
    material: Material,
    kind: Kind,
    parts: Parts,
    subs: &[Sub],
    maps: Vec<Option<Map>>,
) -> TableIndex
    requires is_valid { IsIndex (index_with material kind (map part_of parts.bytes.items) (map flags_byte (map subtable_of subs.now)) (map (option_map map_of) maps.items)) }
    requires slots { parts.slots.items ≡ slots_of material kind (map part_of parts.bytes.items) }
    ensures { result ≡ index_with material kind (map part_of parts.bytes.items) (map flags_byte (map subtable_of subs.now)) (map (option_map map_of) maps.items) }
{
    parts_fit(&parts);
    let mut flags = ArrayVec::new();
    for sub in subs {
        flags.push(flags_of(sub));
    }
    TableIndex::new(material, kind, parts, flags, maps)
}

/// Creates the index of a table whose blocks are not in memory.
pub(crate) fn index_of_placed(
    material: Material,
    kind: Kind,
    parts: Parts,
    subs: &[PlacedSub],
    maps: Vec<Option<Map>>,
) -> TableIndex
    requires is_valid { IsIndex (index_with material kind (map part_of parts.bytes.items) (map (λ placed. flags_byte (subtable_of placed.sub)) subs.now) (map (option_map map_of) maps.items)) }
    requires slots { parts.slots.items ≡ slots_of material kind (map part_of parts.bytes.items) }
    ensures { result ≡ index_with material kind (map part_of parts.bytes.items) (map (λ placed. flags_byte (subtable_of placed.sub)) subs.now) (map (option_map map_of) maps.items) }
{
    parts_fit(&parts);
    let mut flags = ArrayVec::new();
    for placed in subs {
        flags.push(flags_of(&placed.sub));
    }
    TableIndex::new(material, kind, parts, flags, maps)
}

// Returns the groups of the subtables' men, in file order.
fn groups_of_slots(
    material: &MaterialInfo,
    kind: Kind,
    parts: &Parts,
) -> ArrayVec<Option<SideGroups>, 8>
    requires valid { SideBySide (λ _. IsPart material.now kind) (part_numbers material.now) (map part_of parts.now.bytes.items) }
    requires slots { parts.now.slots.items ≡ slots_of material.now kind (map part_of parts.now.bytes.items) }
    ensures { SideBySide (AreSlotGroups material.now (map part_of parts.now.bytes.items)) parts.now.slots.items result.items }
{
    parts_fit(parts);
    let material = material.material();
    let mut groups = ArrayVec::new();
    for slot in parts.slots.as_slice() {
        groups.push(Some(groups_of_slot(material, &parts.bytes, *slot)));
    }
    groups
}

// Returns the groups of a subtable's men.
fn groups_of_slot(material: &Material, parts: &[PartBytes], slot: Slot) -> SideGroups
    requires { IsOrderedSlot material.now (map part_of parts.now) slot }
    ensures { AreGroupsOf material.now slot.part (nibbles_in_part (map part_of parts.now) slot.part slot.side) result }
{
    let bytes = &parts[usize::from(slot.part)];
    let order = Order::of_side(slot.side, &bytes.order, &bytes.men);
    SideGroups::of(material, slot.part, order)
}

/// A subtable's number in file order, from 0, and its slot.
#[derive(Clone, Copy)]
pub struct Numbered {
    pub number: usize,
    pub slot: Slot,
}

impl TableIndex {
    /// Creates the index of parts, flags and maps that pass every check of the format.
    pub(crate) fn new(
        material: Material,
        kind: Kind,
        parts: Parts,
        flags: ArrayVec<u8, 8>,
        maps: Vec<Option<Map>>,
    ) -> TableIndex
        requires is_valid { IsIndex (index_with material kind (map part_of parts.bytes.items) flags.items (map (option_map map_of) maps.items)) }
        requires slots { parts.slots.items ≡ slots_of material kind (map part_of parts.bytes.items) }
        ensures { result ≡ index_with material kind (map part_of parts.bytes.items) flags.items (map (option_map map_of) maps.items) }
    {
        let info = MaterialInfo::of(&material);
        let groups = groups_of_slots(&info, kind, &parts);
        TableIndex {
            info,
            kind,
            parts,
            groups,
            flags,
            maps,
        }
    }

    /// Returns the table's material, for which it was read.
    pub fn material(&self) -> &Material
        ensures { result.now ≡ self.now.material }
    {
        self.info.material()
    }

    /// Returns the table's material with facts about it.
    pub fn material_info(&self) -> &MaterialInfo
        ensures material { result.now ≡ self.now.material }
        ensures named { IsMaterial self.now.material }
        ensures is_valid { IsIndex self.now }
    {
        &self.info
    }

    /// Returns the groups of the men of a part and side that the table has.
    pub fn groups(&self, part: u8, side: u8) -> &SideGroups
        requires part { part < length self.now.parts }
        requires side { side < length (side_numbers self.now.material self.now.kind) }
        ensures { AreGroupsOf self.now.material part (nibbles_in_part self.now.parts part side) result.now }
    {
        let two_sides = match self.kind {
            Kind::Wdl => !self.info.symmetric(),
            Kind::Dtz => false,
        };
        let (part, side) = (usize::from(part), usize::from(side));
        let number = if two_sides { 2 * part + side } else { part };
        let Some(groups) = &self.groups[number] else {
            unreachable!()
        };
        groups
    }

    /// Returns the kind of the table's values: outcomes or distances.
    pub fn kind(&self) -> Kind
        ensures { result ≡ self.now.kind }
    {
        self.kind
    }

    /// Returns the bytes of the parts: four parts with pawns, else one.
    pub fn parts(&self) -> &[PartBytes]
        ensures bytes { map part_of result.now ≡ self.now.parts }
        ensures is_valid { IsIndex self.now }
    {
        &self.parts.bytes
    }

    /// Returns the flag bytes of the subtables, in file order.
    pub fn flags(&self) -> &[u8]
        ensures flags { result.now ≡ self.now.flags }
        ensures many { length result.now ≡ length (slots_in self.now) }
        ensures few { length result.now ≤ 8 }
        ensures is_valid { IsIndex self.now }
    {
        self.flags.as_slice()
    }

    /// Returns the maps of a DTZ table, one item per part. A WDL table has none.
    pub fn maps(&self) -> &[Option<Map>]
        ensures { map (option_map map_of) result.now ≡ self.now.maps }
    {
        &self.maps
    }

    /// Returns the part, side and number of positions of each subtable, in file order.
    pub fn slots(&self) -> &[Slot]
        ensures slots { result.now ≡ slots_in self.now }
        ensures few { length result.now ≤ 8 }
    {
        self.parts.slots.as_slice()
    }

    /// Whether another index has the same parts, flags and maps.
    pub fn has_same(&self, other: &TableIndex) -> bool
        ensures { IsTrue result ↔ ((self.now.parts ≡ other.now.parts) × (self.now.flags ≡ other.now.flags) × (self.now.maps ≡ other.now.maps)) }
    {
        self.parts.bytes == other.parts.bytes
            && self.flags.as_slice() == other.flags.as_slice()
            && self.maps == other.maps
    }

    /// Finds the subtable of a part and side. None if the table has no such part or side.
    pub(crate) fn find(&self, part: u8, side: u8) -> Option<Numbered>
        ensures { MatchOption result (number_of self.now part side ≡ None) (λ found. IsNumbered self.now part side found.number found.slot) }
    {
        let slots = self.slots();
        let number = slot_number(slots, part, side)?;
        let slot = slots[number];
        Some(Numbered { number, slot })
    }

    /// Returns the number of positions of a part and side. None if the table has no such part or side.
    pub fn size(&self, part: u8, side: u8) -> Option<u64>
        ensures { result ≡ option_map (λ slot. slot.size) (slot_in self.now part side) }
    {
        let Numbered { slot, .. } = self.find(part, side)?;
        Some(slot.size)
    }

    /// Returns the distance in plies of a DTZ value in a class (2 win, 1 cursed win, -1 blessed loss, -2 loss).
    ///
    /// Errors: `Draw` exactly for class 0; else `OutsideMap` exactly if the part has a map without such an item.
    pub fn map_value(&self, part: u8, class: i8, v: u16) -> Result<u32, MapFault>
        requires dtz { self.now.kind ≡ Kind.Dtz }
        requires part { IsSome (slot_in self.now part 0) }
        requires above { neg_ℤ (pos 2) ≤ℤ class }
        requires below { class ≤ℤ pos 2 }
        ensures draw { (result ≡ Err MapFault.Draw) ↔ (class ≡ pos 0) }
        ensures number { MatchOption (number_in self.now part class v) (class ≢ pos 0 → result ≡ Err MapFault.OutsideMap) (λ n. result ≡ Ok n) }
    {
        let Some(list) = list_number(class) else {
            return Err(MapFault::Draw);
        };
        let Some(found) = self.find(part, 0) else {
            unreachable!()
        };
        let flags = self.flags()[found.number];
        let number = number_at(flags, &self.maps[part as usize], list, v);
        number.ok_or(MapFault::OutsideMap)
    }
}
