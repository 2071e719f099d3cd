//! Tables assembled from fields instead of read from a file.
ghost use Rattle.std.specs.Prelude.{◌≡◌, ◌<◌, ◌^◌, ◌↔◌, IsTrue, map, IfNone, IfSome};
ghost use Rattle.std.specs.List.{AllByRecursion};
ghost use Rattle.szg_file.specs.Accepted.{SideBySide, IsPart, IsAccepted};
ghost use Rattle.szg_file.specs.Assembled.{fields_shown};
ghost use Rattle.szg_file.specs.Contents.{slots, part_numbers};
ghost use Rattle.szg_file.specs.FileOf.{fill_asked};
ghost use Rattle.szg_file.specs.Held.{part_of};
ghost use Rattle.szg_file.specs.Sections.{contents_in};

use crate::begun::Slot;
use crate::passing::{are_maps_valid, are_subs_valid};
use crate::reading::parts::{Parts, order_count, part_count, push_slots};
use crate::reading::start::{pawns_as, splits_as};
use crate::table::{Map, PartBytes, Table};
use crate::table_index::index_of_subs;
use crate::typed::{bytes_fit, end_bytes};
use crate::writing::sections::FieldsRef;
use crate::writing::tally::Tally;
use arrayvec::ArrayVec;
use std::mem::size_of_val;
use szg_block::Sub;
use szg_values::{Kind, Material};

/// The contents of a table, field by field. Not every value of this type is a valid table: `passes` decides.
#[derive(Drop)]
pub struct Fields {
    pub material: Material,
    pub kind: Kind,
    /// The byte after the magic. Bit 0: split. Bit 1: pawns. The other bits are preserved.
    pub byte4: u8,
    /// Four parts with pawns, else one.
    pub parts: Vec<PartBytes>,
    /// In file order: part by part, side 0 before side 1.
    pub subs: Vec<Sub>,
    /// One item per part in DTZ, none in WDL.
    pub maps: Vec<Option<Map>>,
    /// The padding bytes: exactly `fill_asked` of them.
    pub fill: Vec<u8>,
    /// The last sixteen bytes of the file, which no check reads.
    pub last: [u8; 16],
}

impl Fields {
    /// Returns the fields of the file without its padding bytes.
    fn borrowed(&self) -> FieldsRef<'_>
        ensures { contents_in result ≡ (fields_shown self.now).contents }
    {
        FieldsRef {
            material: &self.material,
            kind: self.kind,
            byte4: self.byte4,
            parts: &self.parts,
            subs: &self.subs,
            maps: &self.maps,
            last: &self.last,
        }
    }

    /// Returns the number of padding bytes in the file of these fields: those up to even offsets and to multiples of
    /// 64, and the one after each dictionary with an odd number of entries. Allocates nothing.
    pub fn fill_asked(&self) -> u64
        ensures { result ≡ fill_asked (fields_shown self.now).contents }
    {
        self.bounded();
        Tally::of(&self.borrowed()).fill
    }

    // For proofs alone: memory bounds the numbers of subtables and maps, and so the number of padding bytes.
    fn bounded(&self)
        ensures { fill_asked (fields_shown self.now).contents < 2 ^ 64 }
    {
        let _sizes = (
            size_of_val(self.subs.as_slice()),
            size_of_val(self.maps.as_slice()),
        );
    }

    /// Returns whether these fields, with these padding bytes, form a table that every check of the format accepts.
    /// Allocates nothing.
    pub fn passes(&self) -> bool
        ensures { IsTrue result ↔ IsAccepted (fields_shown self.now).contents (fields_shown self.now).filled }
    {
        let Some(placed) = slots_of(&self.material, self.kind, &self.parts) else {
            return false;
        };
        if !splits_as(&self.material, self.kind, self.byte4)
            || !pawns_as(&self.material, self.byte4)
        {
            return false;
        }
        if !are_subs_valid(placed.as_slice(), &self.subs) {
            return false;
        }
        if !are_maps_valid(self.kind, &self.subs, &self.maps) {
            return false;
        }
        end_bytes(self.byte4, &self.last);
        bytes_fit(&self.fill);
        self.fill.len() as u64 == self.fill_asked()
    }
}

/// Returns the slots of the subtables. None if there is a different number of parts than the material requires, or if a part
/// has a different number of order bytes or men, or fails a check.
fn slots_of(material: &Material, kind: Kind, parts: &[PartBytes]) -> Option<ArrayVec<Slot, 8>>
    ensures none { IfNone result (¬ SideBySide (λ _. IsPart material.now kind) (part_numbers material.now) (map part_of parts.now)) }
    ensures parts { IfSome result (λ list. SideBySide (λ _. IsPart material.now kind) (part_numbers material.now) (map part_of parts.now)) }
    ensures slots { IfSome result (λ list. list.items ≡ slots material.now kind (map part_of parts.now)) }
{
    if parts.len() != part_count(material) as usize {
        return None;
    }
    let mut list = ArrayVec::new();
    'parts: for (n, part) in parts.iter().enumerate() {
        let (order, men) = (part.order.as_slice(), part.men.as_slice());
        if order.len() != order_count(material) || men.len() != material.men().len() {
            return None;
        }
        bytes_fit(order);
        bytes_fit(men);
        let Ok(()) = push_slots(material, kind, n as u8, 0, order, men, &mut list) else {
            return None;
        };
    }
    Some(list)
}

/// Returns the number of positions of each subtable of these parts, in file order: part by part, side 0 before side
/// 1. None if there is a different number of parts than the material requires, or if a part has a different number
/// of order bytes or men, or an order that no file may have. Allocates nothing.
pub fn subtable_sizes(
    material: &Material,
    kind: Kind,
    parts: &[PartBytes],
) -> Option<ArrayVec<u64, 8>>
    ensures none { IfNone result (¬ SideBySide (λ _. IsPart material.now kind) (part_numbers material.now) (map part_of parts.now)) }
    ensures parts { IfSome result (λ sizes. SideBySide (λ _. IsPart material.now kind) (part_numbers material.now) (map part_of parts.now)) }
    ensures sizes { IfSome result (λ sizes. sizes.items ≡ map (λ slot. slot.size) (slots material.now kind (map part_of parts.now))) }
    ensures fits { IfSome result (λ sizes. AllByRecursion (λ size. size < 2 ^ 33) sizes.items) }
{
    let placed = slots_of(material, kind, parts)?;
    let mut sizes = ArrayVec::new();
    for slot in placed.as_slice() {
        sizes.push(slot.size);
    }
    Some(sizes)
}

impl Table {
    /// Creates the table of fields that pass. Allocates nothing.
    pub fn assemble(fields: Fields) -> Table
        requires { IsAccepted (fields_shown fields).contents (fields_shown fields).filled }
        ensures { result ≡ fields_shown fields }
    {
        let Some(placed) = slots_of(&fields.material, fields.kind, &fields.parts) else {
            unreachable!()
        };
        let parts = Parts {
            bytes: fields.parts,
            slots: placed,
        };
        let subs = fields.subs;
        let index = index_of_subs(fields.material, fields.kind, parts, &subs, fields.maps);
        Table {
            index,
            byte4: fields.byte4,
            subs,
            filled: fields.fill,
            last: fields.last,
        }
    }
}
