//! Lists of the values of tables in memory, from which a look-up decodes nothing.

ghost use Rattle.std.specs.Prelude.{◌≡◌, ◌≤◌, ◌<◌, All, IfSome, IsSomeAnd, List, Some, length};
ghost use Rattle.szg_file.specs.Contents.{Contents};
ghost use Rattle.szg_file.specs.Held.{Shown};
ghost use Rattle.szg_file.specs.Values.{subtable_at};
ghost use Rattle.szg_place.specs.Tables.{value_at};
ghost use Rattle.szg_tables.specs.Listed.{IsListOf, IsListed};

use crate::TableSet;
use crate::in_memory::{first_for, is_kind};
use std::alloc::Global;
use std::marker::Model;
use szg_file::Table;
use szg_place::Spot;
use szg_values::{Kind, Material};
use szg_verify::leads_to;

/// The values of a subtable, in the order of their indexes.
#[derive(Drop)]
pub(crate) struct ValueList {
    part: u8,
    side: u8,
    values: Vec<u8>,
}

/// A table, and the lists of its values that there are.
#[derive(Drop)]
pub(crate) struct ListedTable<'a> {
    pub(crate) table: &'a Table,
    pub(crate) lists: &'a [ValueList],
}

impl<'a> Model for ListedTable<'a> {
    ghost use Rattle.std.specs.Prelude.{All};
    ghost use Rattle.szg_file.specs.Held.{Shown};
    ghost use Rattle.szg_tables.specs.Listed.{IsListOf};

    ghost Value = { Shown };

    ghost view = { λ t. t.table.now };

    ghost invariant = { λ t. All (IsListOf t.table.now.contents) t.lists.now };
}

impl<'a> ListedTable<'a> {
    /// Returns the table.
    pub(crate) fn table(&self) -> &'a Table
        ensures { result.now ≡ self.now }
    {
        self.table
    }

    /// Returns the value at a spot, from its list if there is one.
    pub(crate) fn value_at(&self, spot: Spot) -> u16
        requires { IsSomeAnd (subtable_at self.now.contents spot.part spot.side) (λ found. spot.index < found.0.size) }
        ensures { value_at self.now.contents spot ≡ Some result }
    {
        match listed_at(self.lists, spot) {
            Some(value) => value,
            None => self.table.get(spot.part, spot.side, spot.index),
        }
    }
}

/// Returns the value at a spot from its list. None if there is none.
fn listed_at(lists: &[ValueList], spot: Spot) -> Option<u16>
    ensures { IfSome result (λ v. (t : Contents) → All (IsListOf t) lists.now → value_at t spot ≡ Some v) }
{
    for list in lists {
        if list.part == spot.part && list.side == spot.side {
            let value = list.values.get(spot.index as usize)?;
            return Some(u16::from(*value));
        }
    }
    None
}

/// The first table of a kind and material, with lists of its values.
#[derive(Drop)]
pub(crate) struct TableLists<'a> {
    pub(crate) kind: Kind,
    pub(crate) material: Material,
    pub(crate) table: &'a Table,
    pub(crate) lists: Vec<ValueList>,
}

/// Tables in memory, with lists of the values of some of them.
#[derive(Drop)]
pub struct ValueLists<'a> {
    tables: &'a [Table],
    listed: Vec<TableLists<'a>>,
    room: usize,
}

impl<'a> Model for ValueLists<'a> {
    ghost use Rattle.std.specs.Prelude.{All, List};
    ghost use Rattle.szg_file.specs.Held.{Shown};
    ghost use Rattle.szg_tables.specs.Listed.{IsListed};

    ghost Value = { List Shown };

    ghost view = { λ lists. lists.tables.now };

    ghost invariant = { λ lists. All (IsListed lists.tables.now) lists.listed.items };
}

impl<'a> ValueLists<'a> {
    /// Lists the values that the verification of a material looks up, as far as they fit in `room` bytes, one byte each: those
    /// of its tables, and the classes of the materials to which captures and promotions lead. If an allocation is refused,
    /// there are fewer lists.
    pub fn of(
        alloc: Global,
        tables: &'a [Table],
        material: &Material,
        room: usize,
    ) -> ValueLists<'a>
        ensures { result ≡ tables.now }
    {
        let mut lists = ValueLists {
            tables,
            listed: Vec::new(alloc),
            room,
        };
        lists.add(alloc, Kind::Wdl, material);
        lists.add(alloc, Kind::Dtz, material);
        for table in tables {
            if is_kind(Kind::Wdl, table.kind()) && leads_to(material, table.material()) {
                lists.add(alloc, Kind::Wdl, table.material());
            }
        }
        lists
    }

    /// Returns the set of the tables.
    pub fn set(&self) -> TableSet<'_>
        ensures { result ≡ self.now }
    {
        TableSet::with_lists(self.tables, &self.listed)
    }

    /// Lists the values of the first table of a kind and material.
    fn add(&mut self, alloc: Global, kind: Kind, material: &Material)
        ensures { self.new ≡ self.old }
    {
        let Some(table) = first_for(self.tables, kind, material) else {
            return;
        };
        let lists = list_table(alloc, table, &mut self.room);
        if lists.is_empty() {
            return;
        }
        let _ = self.listed.push(TableLists {
            kind,
            material: material.copy(),
            table,
            lists,
        });
    }
}

/// Lists the values of those subtables of a table that fit in `room` bytes, and takes their bytes from it.
fn list_table(alloc: Global, table: &Table, room: &mut usize) -> Vec<ValueList>
    ensures { All (IsListOf table.now.contents) result.items }
{
    let mut lists = Vec::new(alloc);
    for number in 0..8 {
        if let Some(list) = list_values(alloc, table, number / 2, number % 2, *room) {
            *room -= list.values.len();
            let _ = lists.push(list);
        }
    }
    lists
}

/// Lists the values of a part's side. None if there is no such side, its values take more than `room` bytes, one of them takes
/// two bytes, or an allocation was refused.
fn list_values(alloc: Global, table: &Table, part: u8, side: u8, room: usize) -> Option<ValueList>
    ensures list { IfSome result (λ list. IsListOf table.now.contents list) }
    ensures room { IfSome result (λ list. length list.values.items ≤ room) }
{
    let size = table.size(part, side)?;
    if size > room as u64 {
        return None;
    }
    let values = table.values(alloc, part, side).ok()?;
    if values.len() > room {
        return None;
    }
    let values = as_bytes(alloc, &values)?;
    Some(ValueList { part, side, values })
}

/// Returns values as bytes. None if one of them takes two bytes, or an allocation was refused.
fn as_bytes(alloc: Global, values: &[u16]) -> Option<Vec<u8>>
    ensures { IfSome result (λ bytes. bytes.items ≡ values.now) }
{
    let mut bytes = Vec::with_capacity(alloc, values.len()).ok()?;
    'values: for value in values {
        if 255 < *value {
            return None;
        }
        bytes.push(*value as u8).ok()?;
    }
    Some(bytes)
}
