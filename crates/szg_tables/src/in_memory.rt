//! A set of tables in memory.

ghost use Rattle.std.specs.Prelude.{◌≡◌, ◌<◌, ◌^◌, ◌≤ℤ◌, pos, neg_ℤ, All, IfErr, IfOk, IfNone, IfSome, IsSome, Some, None, is_some, length, map, option_map, option_and_then, find};
ghost use Rattle.std.specs.Option.{ForSome};
ghost use Rattle.szg_values.specs.Material.{Sides};
ghost use Rattle.szg_values.specs.Placement.{Board, material_of};
ghost use Rattle.szg_file.specs.Held.{Shown};
ghost use Rattle.szg_place.specs.Spots.{place_fault, spot_of};
ghost use Rattle.szg_place.specs.Tables.{numbering_of};
ghost use Rattle.szg_tables.specs.Listed.{IsListed};
ghost use Rattle.szg_tables.specs.Stored.{IsMissing, board_of, class_in, class_of_value, is_for, is_kind, missing_in, number_in, number_of_class, reason_by, stored_classes, stored_numbers, table_for, value_in};

use crate::listed::{ListedTable, TableLists};
use crate::{Missing, MissingReason};
use std::marker::Model;
use szg_chess::Position;
use szg_file::Table;
use szg_file::typed::table_fits;
use szg_game::Class;
use szg_place::{PlaceFault, index_of};
use szg_probe::{DistanceTables, Tables};
use szg_values::{Kind, Material, Placement};

/// A set of tables that are whole in memory, of both kinds. A probe allocates nothing.
#[derive(Drop)]
pub struct TableSet<'a> {
    tables: &'a [Table],
    listed: &'a [TableLists<'a>],
}

impl<'a> Model for TableSet<'a> {
    ghost use Rattle.std.specs.Prelude.{All, List};
    ghost use Rattle.szg_file.specs.Held.{Shown};
    ghost use Rattle.szg_tables.specs.Listed.{IsListed};

    ghost Value = { List Shown };

    ghost view = { λ set. set.tables.now };

    ghost invariant = { λ set. All (IsListed set.tables.now) set.listed.now };
}

impl<'a> TableSet<'a> {
    /// Creates a set of these tables. Of two of one kind and material the first counts.
    pub fn new(tables: &'a [Table]) -> TableSet<'a>
        ensures { result ≡ tables.now }
    {
        TableSet {
            tables,
            listed: &[],
        }
    }

    /// Creates a set of these tables, some of which have lists of their values.
    pub(crate) fn with_lists(tables: &'a [Table], listed: &'a [TableLists<'a>]) -> TableSet<'a>
        requires { All (IsListed tables.now) listed.now }
        ensures { result ≡ tables.now }
    {
        TableSet { tables, listed }
    }

    /// Returns whether there is a table of this kind and material.
    pub fn has_table(&self, kind: Kind, material: &Material) -> bool
        ensures { result ≡ is_some (find (is_for kind material.now) self.now) }
    {
        first_for(self.tables, kind, material).is_some()
    }

    /// Returns the table of a kind and material, if it has lists of its values.
    fn listed(&self, kind: Kind, material: &Material) -> Option<ListedTable<'a>>
        ensures first { IfSome result (λ t. find (is_for kind material.now) self.now ≡ Some t) }
        ensures kind { IfSome result (λ t. t.contents.kind ≡ kind) }
    {
        for table in self.listed {
            if is_kind(kind, table.kind) && material.is_same(&table.material) {
                return Some(ListedTable {
                    table: table.table,
                    lists: &table.lists,
                });
            }
        }
        None
    }

    /// Returns the first table of a kind for the men of a placement.
    pub(crate) fn find(&self, kind: Kind, placement: &Placement) -> Result<ListedTable<'a>, Missing>
        ensures found { IfOk result (λ t. table_for kind placement.now self.now ≡ Some t) }
        ensures kind { IfOk result (λ t. t.contents.kind ≡ kind) }
        ensures none { IfErr result (λ missing. table_for kind placement.now self.now ≡ None) }
        ensures missing { IfErr result (λ missing. missing ≡ missing_in kind placement.now self.now) }
    {
        let material = placement.material();
        if let Some(table) = self.listed(kind, &material) {
            return Ok(table);
        }
        match first_for(self.tables, kind, &material) {
            Some(table) => Ok(ListedTable { table, lists: &[] }),
            None => Err(Missing {
                material,
                kind,
                reason: MissingReason::Table,
            }),
        }
    }
}

/// Returns the first table of a kind and material.
pub(crate) fn first_for<'a>(
    tables: &'a [Table],
    kind: Kind,
    material: &Material,
) -> Option<&'a Table>
    ensures found { option_map (λ t. t.now) result ≡ find (is_for kind material.now) tables.now }
    ensures kind { IfSome result (λ t. t.now.contents.kind ≡ kind) }
{
    tables.iter().find(|table| is_for(table, kind, material))
}

/// Returns whether a table is of a kind and material.
fn is_for(table: &Table, kind: Kind, material: &Material) -> bool
    ensures { result ≡ is_for kind material.now table.now }
{
    is_kind(kind, table.kind()) && material.is_same(table.material())
}

pub(crate) fn is_kind(kind: Kind, other: Kind) -> bool
    ensures { result ≡ is_kind kind other }
{
    matches!(
        (kind, other),
        (Kind::Wdl, Kind::Wdl) | (Kind::Dtz, Kind::Dtz)
    )
}

/// Returns the class of a WDL value. None if it is above 4.
pub(crate) fn class_of_value(value: u16) -> Option<Class>
    ensures { result ≡ class_of_value value }
{
    match value {
        0 => Some(Class::Loss),
        1 => Some(Class::BlessedLoss),
        2 => Some(Class::Draw),
        3 => Some(Class::CursedWin),
        4 => Some(Class::Win),
        _ => None,
    }
}

/// Returns the number of a class in the format: 2 for a win down to -2 for a loss.
pub fn number_of_class(class: Class) -> i8
    ensures number { result ≡ number_of_class class }
    ensures lowest { neg_ℤ (pos 2) ≤ℤ result }
    ensures highest { result ≤ℤ pos 2 }
{
    match class {
        Class::Loss => -2,
        Class::BlessedLoss => -1,
        Class::Draw => 0,
        Class::CursedWin => 1,
        Class::Win => 2,
    }
}

/// Returns the class of a placement in a WDL table.
fn class_in(table: &ListedTable<'_>, placement: &Placement) -> Result<Class, MissingReason>
    ensures class { IfOk result (λ k. class_in placement.now table.now.contents ≡ Some k) }
    ensures none { IfErr result (λ reason. class_in placement.now table.now.contents ≡ None) }
    ensures reason { IfErr result (λ reason. reason ≡ reason_by (place_fault (numbering_of table.now.contents) placement.now)) }
{
    let spot = match index_of(table.table(), placement) {
        Ok(spot) => spot,
        Err(fault) => return Err(MissingReason::Place(fault)),
    };
    match class_of_value(table.value_at(spot)) {
        Some(class) => Ok(class),
        None => Err(MissingReason::Value),
    }
}

/// A number of plies of a DTZ table, and the part that stores it.
#[derive(Clone, Copy)]
pub(crate) struct StoredNumber {
    pub(crate) plies: u32,
    pub(crate) part: u8,
}

/// Returns the number of a placement in a class in a DTZ table. None if the table stores the other side to move.
pub(crate) fn number_in(
    table: &ListedTable<'_>,
    placement: &Placement,
    class: Class,
) -> Result<Option<StoredNumber>, MissingReason>
    requires { table.now.contents.kind ≡ Kind.Dtz }
    ensures number { IfOk result (λ n. number_in placement.now class table.now.contents ≡ Some (option_map (λ n. n.plies) n)) }
    ensures few { IfOk result (λ n. IfSome n (λ n. n.plies < 2 ^ 31)) }
    ensures part { IfOk result (λ n. IfSome n (λ n. n.part ≡ (spot_of (numbering_of table.now.contents) placement.now).part)) }
    ensures none { IfErr result (λ reason. number_in placement.now class table.now.contents ≡ None) }
    ensures reason { IfErr result (λ reason. reason ≡ reason_by (place_fault (numbering_of table.now.contents) placement.now)) }
{
    let whole = table.table();
    table_fits(whole);
    let spot = match index_of(whole, placement) {
        Ok(spot) => spot,
        Err(PlaceFault::WrongSide) => return Ok(None),
        Err(fault) => return Err(MissingReason::Place(fault)),
    };
    let part = spot.part;
    match whole.map_value(part, number_of_class(class), table.value_at(spot)) {
        Ok(plies) if plies < 2_147_483_648 => Ok(Some(StoredNumber { plies, part })),
        Ok(_) | Err(_) => Err(MissingReason::Value),
    }
}

impl<'a> Tables for TableSet<'a> {
    type Fault = Missing;

    ghost stored = { λ set. stored_classes set };

    ghost numbers = { λ set. stored_numbers set };

    ghost explains = { λ classes numbers missing men mover. IsMissing classes numbers missing men mover };

    // the clauses of the trait; and what is missing
    fn class(&mut self, position: &Position) -> Result<Class, Missing>
        requires { 2 < length position.now.placed_men }
        ensures same { self.new ≡ self.old }
        ensures class { IfOk result (λ k. stored_classes self.old position.now.placed_men position.now.mover ≡ Some k) }
        ensures fault { IfErr result (λ missing. IsMissing (stored_classes self.old) (stored_numbers self.old) missing position.now.placed_men position.now.mover) }
        ensures missing { IfErr result (λ missing. missing ≡ missing_in Kind.Wdl (board_of position.now.placed_men position.now.mover) self.old) }
    {
        let Some(placement) = position.placement() else {
            unreachable!()
        };
        let table = match self.find(Kind::Wdl, &placement) {
            Ok(table) => table,
            Err(missing) => return Err(missing),
        };
        match class_in(&table, &placement) {
            Ok(class) => Ok(class),
            Err(reason) => Err(Missing {
                material: placement.material(),
                kind: Kind::Wdl,
                reason,
            }),
        }
    }
}

impl<'a> DistanceTables for TableSet<'a> {
    // the clauses of the trait; and what is missing
    fn number(&mut self, position: &Position, class: Class) -> Result<Option<u32>, Missing>
        requires { 2 < length position.now.placed_men }
        ensures same { self.new ≡ self.old }
        ensures number { IfOk result (λ n. stored_numbers self.old position.now.placed_men position.now.mover class ≡ Some n) }
        ensures few { IfOk result (λ n. ForSome n (λ plies. plies < 2 ^ 31)) }
        ensures fault { IfErr result (λ missing. IsMissing (stored_classes self.old) (stored_numbers self.old) missing position.now.placed_men position.now.mover) }
        ensures missing { IfErr result (λ missing. missing ≡ missing_in Kind.Dtz (board_of position.now.placed_men position.now.mover) self.old) }
    {
        let Some(placement) = position.placement() else {
            unreachable!()
        };
        let table = match self.find(Kind::Dtz, &placement) {
            Ok(table) => table,
            Err(missing) => return Err(missing),
        };
        match number_in(&table, &placement, class) {
            Ok(Some(number)) => Ok(Some(number.plies)),
            Ok(None) => Ok(None),
            Err(reason) => Err(Missing {
                material: placement.material(),
                kind: Kind::Dtz,
                reason,
            }),
        }
    }
}
