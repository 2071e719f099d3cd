//! Sets of opened tables. What a table knows of its values is its own affair.

ghost use Rattle.std.specs.Prelude.{◌≡◌, ◌<◌, ◌^◌, ◌++◌, ◌∷◌, [], IfErr, IfNone, IfOk, IfSome, IsSomeAnd, Some, None, length, option_and_then, position, slice_get};
ghost use Rattle.std.specs.Option.{ForSome};
ghost use Rattle.szg_values.specs.Placement.{material_of};
ghost use Rattle.szg_tables.specs.Opened.{IsReason, IsReasonIn, class_in, first_for, is_for, number_in, opened_classes, opened_numbers};
ghost use Rattle.szg_tables.specs.Stored.{IsMissing, board_of};
ghost use Rattle.szg_tables.specs.declared.MissingReason.TheVariants.{Table};

use crate::hints::{HINTS, find};
use crate::in_memory::{class_of_value, is_kind, number_of_class};
use crate::{Missing, MissingReason};
use std::alloc::AllocError;
use std::marker::Model;
use szg_chess::Position;
use szg_file::TableIndex;
use szg_game::Class;
use szg_place::{PlaceFault, Spot, has_men_of, locate};
use szg_probe::{DistanceTables, Tables};
use szg_values::{Kind, PlacedMen};

/// A table whose index is in memory, and its values as far as they are known.
pub trait OpenTable {
    ghost use Rattle.std.specs.Prelude.{◌≡◌, ◌<◌, IfErr, IfOk, IsSomeAnd, Some, None};
    ghost use Rattle.szg_file.specs.Index.{slot_in};
    ghost use Rattle.szg_place.specs.declared.Spot.{Spot};
    ghost use Rattle.szg_tables.specs.Opened.{Opened};
    ghost use Rattle.szg_tables.specs.declared.MissingReason.{MissingReason};

    /// What the table stores.
    ghost opened: { Self → Opened };

    /// When the value at a spot is not known for this reason.
    ghost explains: { Self → Spot → MissingReason → Type 0 };

    /// Returns the table's index.
    fn index(&self) -> &TableIndex
        ensures { result.now ≡ (opened self.now).index };

    /// Returns the value at a spot. Errors: why it is not known.
    fn value(&mut self, spot: Spot) -> Result<u16, MissingReason>
        requires { IsSomeAnd (slot_in (opened self.old).index spot.part spot.side) (λ slot. spot.index < slot.size) }
        ensures same { self.new ≡ self.old }
        ensures value { IfOk result (λ v. (opened self.old).value_at spot ≡ Some v) }
        ensures none { IfErr result (λ reason. (opened self.old).value_at spot ≡ None) }
        ensures reason { IfErr result (explains self.old spot) };
}

/// Returns the class of a placement's men in a WDL table.
fn class_in<T: OpenTable>(table: &mut T, men: &PlacedMen<'_>) -> Result<Class, MissingReason>
    ensures same { table.new ≡ table.old }
    ensures class { IfOk result (λ k. class_in men.now (T.opened table.old) ≡ Some k) }
    ensures none { IfErr result (λ reason. class_in men.now (T.opened table.old) ≡ None) }
    ensures reason { IfErr result (IsReasonIn (T.explains table.old) men.now (T.opened table.old)) }
{
    let spot = match locate(table.index(), men) {
        Ok(spot) => spot,
        Err(fault) => return Err(MissingReason::Place(fault)),
    };
    match table.value(spot) {
        Ok(value) => match class_of_value(value) {
            Some(class) => Ok(class),
            None => Err(MissingReason::Value),
        },
        Err(reason) => Err(reason),
    }
}

/// Returns the number of a placement's men in a class in a DTZ table. None if the table stores the other side to move.
fn number_in<T: OpenTable>(
    table: &mut T,
    men: &PlacedMen<'_>,
    class: Class,
) -> Result<Option<u32>, MissingReason>
    requires kind { (T.opened table.old).index.kind ≡ Kind.Dtz }
    ensures same { table.new ≡ table.old }
    ensures number { IfOk result (λ n. number_in men.now class (T.opened table.old) ≡ Some n) }
    ensures few { IfOk result (λ n. ForSome n (λ plies. plies < 2 ^ 31)) }
    ensures none { IfErr result (λ reason. number_in men.now class (T.opened table.old) ≡ None) }
    ensures reason { IfErr result (IsReasonIn (T.explains table.old) men.now (T.opened table.old)) }
{
    let spot = match locate(table.index(), men) {
        Ok(spot) => spot,
        Err(PlaceFault::WrongSide) => return Ok(None),
        Err(fault) => return Err(MissingReason::Place(fault)),
    };
    let value = match table.value(spot) {
        Ok(value) => value,
        Err(reason) => return Err(reason),
    };
    match table
        .index()
        .map_value(spot.part, number_of_class(class), value)
    {
        Ok(number) if number < 2_147_483_648 => Ok(Some(number)),
        Ok(_) | Err(_) => Err(MissingReason::Value),
    }
}

/// Returns whether an index is that of a table of a kind for these men.
pub(crate) fn is_for(index: &TableIndex, kind: Kind, men: &PlacedMen<'_>) -> bool
    ensures { result ≡ is_for kind (material_of men.now.placed_men) index.now }
{
    is_kind(kind, index.kind()) && has_men_of(index, men)
}

/// Returns the number of the first table of a kind for these men.
pub(crate) fn first_for<T: OpenTable>(
    tables: &[T],
    kind: Kind,
    men: &PlacedMen<'_>,
) -> Option<usize>
    ensures { result ≡ position (λ t. is_for kind (material_of men.now.placed_men) (T.opened t).index) tables.now }
{
    tables
        .iter()
        .position(|table| is_for(table.index(), kind, men))
}

/// Returns what is missing for the men of a position.
#[cold]
#[inline(never)]
fn missing(position: &Position, kind: Kind, reason: MissingReason) -> Missing
    requires { 2 < length position.now.placed_men }
    ensures { result ≡ record { material = material_of position.now.placed_men; kind = kind; reason = reason } }
{
    let Some(placement) = position.placement() else {
        unreachable!()
    };
    Missing {
        material: placement.material(),
        kind,
        reason,
    }
}

/// A set of opened tables of both kinds. Of two of one kind and material the first counts. Where a probe found its tables is
/// remembered, so that it doesn't take longer if there are many.
#[derive(Drop)]
pub struct OpenedSet<T: OpenTable> {
    pub(crate) tables: Vec<T>,
    hints: [u16; HINTS],
}

impl<T: OpenTable> Model for OpenedSet<T> {
    ghost use Rattle.std.specs.Prelude.{List};
    ghost use Rattle.std.specs.Coded.{coded_list};
    ghost use Rattle.szg_tables.specs.Hints.{AreHints};

    ghost Value = { List T };

    ghost coded = { coded_list T.code };

    ghost view = { λ set. set.tables.items };

    ghost invariant = { λ set. AreHints T.opened set.tables.items set.hints };
}

impl<T: OpenTable + Drop> OpenedSet<T> {
    /// Creates a set of these tables.
    pub fn of(tables: Vec<T>) -> OpenedSet<T>
        ensures { result ≡ tables.items }
    {
        OpenedSet {
            tables,
            hints: [0; HINTS],
        }
    }

    /// Returns the tables.
    pub fn into_tables(self) -> Vec<T>
        ensures { result.items ≡ self }
    {
        self.tables
    }

    /// Adds a table, behind the others. Errors: memory was refused; then nothing changes.
    pub fn push(&mut self, table: T) -> Result<(), AllocError>
        ensures added { IfOk result (λ _. self.new ≡ self.old ++ table ∷ []) }
        ensures refused { IfErr result (λ _. self.new ≡ self.old) }
    {
        match self.tables.push(table) {
            Ok(()) => Ok(()),
            Err(_) => Err(AllocError),
        }
    }
}

impl<T: OpenTable> OpenedSet<T> {
    /// Returns the number of the first table of a kind for these men.
    fn find(&mut self, kind: Kind, men: &PlacedMen<'_>) -> Option<usize>
        ensures same { self.new ≡ self.old }
        ensures found { IfSome result (λ n. first_for T.opened kind men.now self.old ≡ slice_get self.old n) }
        ensures kind { IfSome result (λ n. IsSomeAnd (slice_get self.old n) (λ t. (T.opened t).index.kind ≡ kind)) }
        ensures none { IfNone result (first_for T.opened kind men.now self.old ≡ None) }
    {
        find(&self.tables, &mut self.hints, kind, men)
    }

    /// Returns the class of a placement's men in the table of this number.
    fn class_at(&mut self, n: usize, men: &PlacedMen<'_>) -> Result<Class, MissingReason>
        requires { n < length self.old }
        ensures same { self.new ≡ self.old }
        ensures class { IfOk result (λ k. option_and_then (λ t. class_in men.now (T.opened t)) (slice_get self.old n) ≡ Some k) }
        ensures none { IfErr result (λ reason. option_and_then (λ t. class_in men.now (T.opened t)) (slice_get self.old n) ≡ None) }
        ensures reason { IfErr result (λ reason. IfSome (slice_get self.old n) (λ t. IsReasonIn (T.explains t) men.now (T.opened t) reason)) }
    {
        class_in(&mut self.tables[n], men)
    }

    /// Returns the number of a placement's men in a class in the table of this number. None if the table stores the other
    /// side to move.
    fn number_at(
        &mut self,
        n: usize,
        men: &PlacedMen<'_>,
        class: Class,
    ) -> Result<Option<u32>, MissingReason>
        requires { IsSomeAnd (slice_get self.old n) (λ t. (T.opened t).index.kind ≡ Kind.Dtz) }
        ensures same { self.new ≡ self.old }
        ensures number { IfOk result (λ o. option_and_then (λ t. number_in men.now class (T.opened t)) (slice_get self.old n) ≡ Some o) }
        ensures few { IfOk result (λ o. ForSome o (λ plies. plies < 2 ^ 31)) }
        ensures none { IfErr result (λ reason. option_and_then (λ t. number_in men.now class (T.opened t)) (slice_get self.old n) ≡ None) }
        ensures reason { IfErr result (λ reason. IfSome (slice_get self.old n) (λ t. IsReasonIn (T.explains t) men.now (T.opened t) reason)) }
    {
        number_in(&mut self.tables[n], men, class)
    }
}

impl<T: OpenTable> Tables for OpenedSet<T> {
    type Fault = Missing;

    ghost stored = { λ set. opened_classes T.opened set };

    ghost numbers = { λ set. opened_numbers T.opened set };

    ghost explains = { λ classes numbers missing men mover. IsMissing classes numbers missing men mover };

    fn known_class(&mut self, position: &Position) -> Option<Class> {
        let Some(men) = position.placed_men() else {
            unreachable!()
        };
        let Some(n) = self.find(Kind::Wdl, &men) else {
            return None;
        };
        match self.class_at(n, &men) {
            Ok(class) => Some(class),
            Err(_) => None,
        }
    }

    // the clauses of the trait; and why there is no class
    #[cold]
    #[inline(never)]
    fn class(&mut self, position: &Position) -> Result<Class, Missing>
        requires { 2 < length position.now.placed_men }
        ensures same { self.new ≡ self.old }
        ensures class { IfOk result (λ k. opened_classes T.opened self.old position.now.placed_men position.now.mover ≡ Some k) }
        ensures fault { IfErr result (λ missing. IsMissing (opened_classes T.opened self.old) (opened_numbers T.opened self.old) missing position.now.placed_men position.now.mover) }
        ensures reason { IfErr result (λ missing. IsReason T.opened T.explains missing.kind (board_of position.now.placed_men position.now.mover) self.old missing.reason) }
    {
        let Some(men) = position.placed_men() else {
            unreachable!()
        };
        let n = match self.find(Kind::Wdl, &men) {
            Some(n) => n,
            None => return Err(missing(position, Kind::Wdl, MissingReason::Table)),
        };
        match self.class_at(n, &men) {
            Ok(class) => Ok(class),
            Err(reason) => Err(missing(position, Kind::Wdl, reason)),
        }
    }
}

impl<T: OpenTable> DistanceTables for OpenedSet<T> {
    // the clauses of the trait; what is not returned is not stored for this class, and why
    fn number(&mut self, position: &Position, class: Class) -> Result<Option<u32>, Missing>
        requires { 2 < length position.now.placed_men }
        ensures same { self.new ≡ self.old }
        ensures number { IfOk result (λ n. opened_numbers T.opened self.old position.now.placed_men position.now.mover class ≡ Some n) }
        ensures few { IfOk result (λ n. ForSome n (λ plies. plies < 2 ^ 31)) }
        ensures fault { IfErr result (λ missing. IsMissing (opened_classes T.opened self.old) (opened_numbers T.opened self.old) missing position.now.placed_men position.now.mover) }
        ensures none { IfErr result (λ missing. opened_numbers T.opened self.old position.now.placed_men position.now.mover class ≡ None) }
        ensures reason { IfErr result (λ missing. IsReason T.opened T.explains missing.kind (board_of position.now.placed_men position.now.mover) self.old missing.reason) }
    {
        let Some(men) = position.placed_men() else {
            unreachable!()
        };
        let n = match self.find(Kind::Dtz, &men) {
            Some(n) => n,
            None => return Err(missing(position, Kind::Dtz, MissingReason::Table)),
        };
        match self.number_at(n, &men, class) {
            Ok(number) => Ok(number),
            Err(reason) => Err(missing(position, Kind::Dtz, reason)),
        }
    }
}
