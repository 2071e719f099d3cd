ghost use Rattle.std.specs.Prelude.{◌≡◌};

use crate::fault::MapFault;
use crate::lookup::{SizedSubtable, constant_value};
use crate::table_index::{Numbered, TableIndex};
use crate::writing::sections::FieldsRef;
use std::alloc::{AllocError, Global};
use std::marker::Model;
use szg_block::{Sound, Steps, Sub};
use szg_values::{Kind, Material};

/// The bytes of a part, as in the file: low nibbles belong to side 0, high nibbles to side 1.
#[derive(Drop, PartialEq)]
pub struct PartBytes {
    /// One order byte, or two if both colours have pawns.
    pub order: Vec<u8>,
    /// One byte per man.
    pub men: Vec<u8>,
}

/// The four lists of a DTZ part: for wins, losses, cursed wins and blessed losses.
#[derive(Drop, PartialEq)]
pub enum Map {
    /// Items of one byte each.
    Bytes([Vec<u8>; 4]),
    /// Items of two bytes each.
    Wide([Vec<u16>; 4]),
}

/// A table that every check of the format accepts.
#[derive(Drop)]
pub struct Table {
    pub(crate) index: TableIndex,
    pub(crate) byte4: u8,
    pub(crate) subs: Vec<Sub>,
    pub(crate) filled: Vec<u8>,
    pub(crate) last: [u8; 16],
}

impl Model for Table {
    ghost use Rattle.std.specs.Prelude.{◌≡◌, map};
    ghost use Rattle.szg_file.specs.Accepted.{IsAccepted};
    ghost use Rattle.szg_file.specs.Held.{Shown, subtable_of};
    ghost use Rattle.szg_file.specs.Index.{contents_with, index_of};

    ghost Value = { Shown };

    ghost view = { λ t. record { contents = contents_with t.index t.byte4 (map subtable_of t.subs.items) t.last; filled = t.filled.items } };

    ghost invariant = { λ t. IsAccepted (contents_with t.index t.byte4 (map subtable_of t.subs.items) t.last) t.filled.items
        × (t.index ≡ index_of (contents_with t.index t.byte4 (map subtable_of t.subs.items) t.last)) };
}

impl Table {
    ghost use Rattle.std.specs.Prelude.{◌≡◌, ◌≢◌, ℤ, pos, ◌<◌, ◌↔◌, length, map, IsSome, IfSome, IfOk, option_map, option_copied, Ok, Err, Some, None, MatchOption, neg_ℤ, ◌≤ℤ◌};
    ghost use Rattle.szg_file.specs.Accepted.{IsAccepted};
    ghost use Rattle.szg_file.specs.Held.{part_of, subtable_of, map_of};
    ghost use Rattle.szg_block.specs.Subtable.{packed_of, IsShaped, IsSoundOver};
    ghost use Rattle.szg_file.specs.Index.{index_of};
    ghost use Rattle.szg_file.specs.Lookup.{IsFound};
    ghost use Rattle.szg_file.specs.Sections.{contents_in};
    ghost use Rattle.szg_file.specs.Steps.{steps_of};
    ghost use Rattle.szg_file.specs.Values.{subtable_at, values_of, item, number_of_value};

    /// Returns the table's index: its material and kind, its parts, and the flags and maps of its subtables.
    pub fn index(&self) -> &TableIndex
        ensures index { result.now ≡ index_of self.now.contents }
        ensures accepted { IsAccepted self.now.contents self.now.filled }
    {
        &self.index
    }

    /// Returns the table's material, for which it was read.
    pub fn material(&self) -> &Material
        ensures { result.now ≡ self.now.contents.material }
    {
        self.index.material()
    }

    /// Returns the kind of the table's values: outcomes or distances.
    pub fn kind(&self) -> Kind
        ensures { result ≡ self.now.contents.kind }
    {
        self.index.kind()
    }

    /// Returns the byte after the magic. Bit 0: split. Bit 1: pawns. The other bits are preserved.
    pub fn byte4(&self) -> u8
        ensures { result ≡ self.now.contents.byte4 }
    {
        self.byte4
    }

    /// Returns the bytes of the parts: four parts with pawns, else one.
    pub fn parts(&self) -> &[PartBytes]
        ensures { map part_of result.now ≡ self.now.contents.parts }
    {
        self.index.parts()
    }

    /// Returns the maps of a DTZ table, one item per part. A WDL table has none.
    pub fn maps(&self) -> &[Option<Map>]
        ensures { map (option_map map_of) result.now ≡ self.now.contents.maps }
    {
        self.index.maps()
    }

    /// Returns the padding bytes (the "fill bytes" of the format) in file order: those up to even offsets and to multiples of 64,
    /// and the one after each dictionary with an odd number of entries. Their values are arbitrary, and preserved.
    pub fn fill(&self) -> &[u8]
        ensures bytes { result.now ≡ self.now.filled }
        ensures accepted { IsAccepted self.now.contents self.now.filled }
    {
        &self.filled
    }

    /// Returns the last sixteen bytes of the file, which no check reads.
    pub fn last(&self) -> &[u8; 16]
        ensures { result.now ≡ self.now.contents.last }
    {
        &self.last
    }

    // Returns the fields of the table's file, without its padding bytes.
    pub(crate) fn fields(&self) -> FieldsRef<'_>
        ensures { contents_in result ≡ self.now.contents }
    {
        FieldsRef {
            material: self.index.material(),
            kind: self.index.kind(),
            byte4: self.byte4,
            parts: self.index.parts(),
            subs: &self.subs,
            maps: self.index.maps(),
            last: &self.last,
        }
    }

    // Finds a part's side. None if there is no such side.
    fn find(&self, part: u8, side: u8) -> Option<SizedSubtable<'_>>
        ensures found { MatchOption result (subtable_at self.now.contents part side ≡ None) (λ found. IsFound (subtable_at self.now.contents part side) found.size (subtable_of found.sub.now)) }
        ensures accepted { IfSome result (λ found. IsShaped found.sub.now found.size × IsSoundOver found.sub.now (packed_of found.sub.now) found.size) }
    {
        let Numbered { number, slot } = self.index.find(part, side)?;
        Some(SizedSubtable {
            size: slot.size,
            sub: &self.subs[number],
        })
    }

    /// Returns the number of positions of a part's side. None if there is no such side.
    pub fn size(&self, part: u8, side: u8) -> Option<u64>
        ensures { result ≡ option_map (λ found. found.0.size) (subtable_at self.now.contents part side) }
    {
        self.index.size(part, side)
    }

    /// Returns the subtable of a part's side. None if there is no such side.
    pub fn sub(&self, part: u8, side: u8) -> Option<&Sub>
        ensures { option_map subtable_of (option_copied result) ≡ option_map (λ found. found.1) (subtable_at self.now.contents part side) }
    {
        self.find(part, side).map(|found| found.sub)
    }

    /// Returns value `i` of a part's side. Each value of a constant subtable is its byte in WDL, 0 in DTZ.
    pub fn get(&self, part: u8, side: u8, i: u64) -> u16
        requires there { IsSome (subtable_at self.now.contents part side) }
        requires below { IfSome (subtable_at self.now.contents part side) (λ found. i < found.0.size) }
        ensures { IfSome (subtable_at self.now.contents part side) (λ found. item (values_of self.now.contents.kind found) i ≡ Some result) }
    {
        let Some(found) = self.find(part, side) else {
            unreachable!()
        };
        let constant = constant_value(self.kind(), found.sub);
        Sound::of(found.sub, found.size, constant).get(i)
    }

    /// Returns value `i` of a part's side, and the steps of the look-up.
    pub fn get_counted(&self, part: u8, side: u8, i: u64) -> (u16, Steps)
        requires there { IsSome (subtable_at self.now.contents part side) }
        requires below { IfSome (subtable_at self.now.contents part side) (λ found. i < found.0.size) }
        ensures value { IfSome (subtable_at self.now.contents part side) (λ found. item (values_of self.now.contents.kind found) i ≡ Some result.0) }
        ensures steps { IfSome (subtable_at self.now.contents part side) (λ found. result.1 ≡ steps_of found i) }
    {
        let Some(found) = self.find(part, side) else {
            unreachable!()
        };
        let constant = constant_value(self.kind(), found.sub);
        let mut sound = Sound::of(found.sub, found.size, constant);
        match sound.get_counted(i) {
            Ok(counted) => counted,
            Err(_) => unreachable!(),
        }
    }

    /// Returns all values of a part's side, in the order of their indexes.
    pub fn values(&self, alloc: Global, part: u8, side: u8) -> Result<Vec<u16>, AllocError>
        requires { IsSome (subtable_at self.now.contents part side) }
        ensures { IfOk result (λ list. IfSome (subtable_at self.now.contents part side) (λ found. list.items ≡ values_of self.now.contents.kind found)) }
    {
        let Some(found) = self.find(part, side) else {
            unreachable!()
        };
        let constant = constant_value(self.kind(), found.sub);
        Sound::of(found.sub, found.size, constant).values(alloc)
    }

    /// Writes all values of a part's side, in the order of their indexes, to a list of their number. Allocates nothing.
    pub fn write_values(&self, part: u8, side: u8, values: &mut [u16])
        requires there { IsSome (subtable_at self.now.contents part side) }
        requires number { IfSome (subtable_at self.now.contents part side) (λ found. length values.old ≡ found.0.size) }
        ensures { IfSome (subtable_at self.now.contents part side) (λ found. values.new ≡ values_of self.now.contents.kind found) }
    {
        let Some(found) = self.find(part, side) else {
            unreachable!()
        };
        let constant = constant_value(self.kind(), found.sub);
        Sound::of(found.sub, found.size, constant).write_values(values);
    }

    /// Returns the distance in plies of a DTZ value in a class (2 win, 1 cursed win, -1 blessed loss, -2 loss).
    ///
    /// Errors: `Draw` exactly for class 0; else `OutsideMap` exactly if the part has a map without such an item.
    pub fn map_value(&self, part: u8, class: i8, v: u16) -> Result<u32, MapFault>
        requires dtz { self.now.contents.kind ≡ Kind.Dtz }
        requires part { IsSome (subtable_at self.now.contents part 0) }
        requires above { neg_ℤ (pos 2) ≤ℤ class }
        requires below { class ≤ℤ pos 2 }
        ensures draw { (result ≡ Err MapFault.Draw) ↔ (class ≡ pos 0) }
        ensures number { MatchOption (number_of_value self.now.contents part class v) (class ≢ pos 0 → result ≡ Err MapFault.OutsideMap) (λ n. result ≡ Ok n) }
    {
        self.index.map_value(part, class, v)
    }
}
