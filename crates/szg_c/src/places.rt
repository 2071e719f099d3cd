//! Calls on a handle by placement.
ghost use Rattle.std.specs.Prelude.{◌≡◌, Ok, IfSome, MatchResult};
ghost use Rattle.std.specs.declared.option.Option.TheVariants.{None, Some};
ghost use Rattle.szg_file.specs.Index.{index_of};
ghost use Rattle.szg_c_positions.specs.Men.{board_of};
ghost use Rattle.szg_c.specs.Outcomes.{IsOutcome, IsOutcomeOfMen, fault_or_status};
ghost use Rattle.szg_c.specs.Places.{IsSpot, is_class, map_status as map_fault_status, outcome_result, place_status as place_fault_status, spot_result};

use crate::handle::with_held;
use crate::held_table::HeldTable;
use arrayvec::ArrayVec;
use std::alloc::Global;
use szg_c_positions::status::{
    DONE, DRAW, IRREGULAR, KINGS_TOUCH, NO_CLASS, OTHER_MATERIAL, OUTSIDE_MAP, RANGE, WRONG_SIDE,
};
use szg_c_positions::{RawMan, key_of_men, placement_or_fault, sound_men};
use szg_file::typed::table_fits;
use szg_file::{MapFault, Table, TableIndex};
use szg_place::{PlaceFault, Unprobed, Values, locate, probe_class, probe_number};
use szg_values::{Kind, PlacedMen};

/// The location of a placement in a table.
#[repr(C)]
#[derive(Drop)]
pub struct FoundSpot {
    /// The part, 0 to 3.
    pub part: u8,
    /// The subtable's side, 0 or 1.
    pub side: u8,
    /// The index in the subtable.
    pub index: u64,
}

/// Finds the location of these men, with this side to move, in the table.
///
/// `CLOSED` if the handle has no table; else the first that applies: no placement (`MAN`, `MEN`, `SAME_SQUARE`,
/// `PAWN_RANK`), or a placement that has no index in the table (`OTHER_MATERIAL`, `IRREGULAR`, `KINGS_TOUCH`,
/// `WRONG_SIDE`). Then `spot` is unchanged.
#[unsafe(no_mangle)]
pub extern "C" fn szg_index(
    alloc: Global,
    table: &mut HeldTable,
    men: &[RawMan],
    mover: u8,
    spot: &mut FoundSpot,
) -> u32
    ensures kept { table.new.value ≡ table.old.value }
    ensures closed { table.old.value ≡ None → (result ≡ 5) × (spot.new ≡ spot.old) }
    ensures reported { IfSome table.old.value (λ t. MatchResult (spot_result (index_of t.contents) (board_of men.now mover)) (λ found. (result ≡ 0) × IsSpot spot.new found) (λ status. (result ≡ status) × (spot.new ≡ spot.old))) }
{
    let mut look = |held: &Table| write_spot(held.index(), men, mover, spot);
    with_held(alloc, table, &mut look)
}

/// Writes the location of men in a table; returns the status. A `Result` with a `Spot` is matched once, where it is made,
/// since each one that is passed on is copied.
#[inline(always)]
pub(crate) fn write_spot(index: &TableIndex, men: &[RawMan], mover: u8, spot: &mut FoundSpot) -> u32
    ensures { MatchResult (spot_result index.now (board_of men.now mover)) (λ found. (result ≡ 0) × IsSpot spot.new found) (λ status. (result ≡ status) × (spot.new ≡ spot.old)) }
{
    let mut placed_men = ArrayVec::new();
    let Some(key) = key_of_men(men, mover, &mut placed_men) else {
        return write_spot_or_fault(index, men, mover, spot);
    };
    let Some(placement) = sound_men(men, mover, &placed_men, key) else {
        return write_spot_or_fault(index, men, mover, spot);
    };
    write_spot_of(index, &placement, spot)
}

/// The same, by one check of the men after the other.
#[cold]
#[inline(never)]
fn write_spot_or_fault(index: &TableIndex, men: &[RawMan], mover: u8, spot: &mut FoundSpot) -> u32
    ensures { MatchResult (spot_result index.now (board_of men.now mover)) (λ found. (result ≡ 0) × IsSpot spot.new found) (λ status. (result ≡ status) × (spot.new ≡ spot.old)) }
{
    match placement_or_fault(men, mover) {
        Ok(placement) => write_spot_of(index, &PlacedMen::of(&placement), spot),
        Err(status) => status,
    }
}

/// Writes the location of a placement in a table; returns the status.
#[inline(always)]
fn write_spot_of(index: &TableIndex, placement: &PlacedMen<'_>, spot: &mut FoundSpot) -> u32
    ensures { MatchResult (spot_result index.now (Ok placement.now)) (λ found. (result ≡ 0) × IsSpot spot.new found) (λ status. (result ≡ status) × (spot.new ≡ spot.old)) }
{
    match locate(index, placement) {
        Ok(found) => {
            spot.part = found.part;
            spot.side = found.side;
            spot.index = found.index;
            DONE
        }
        Err(fault) => place_status(fault),
    }
}

/// Probes the table for these men with this side to move: a WDL table has the class (2, 1, 0, -1, -2), a DTZ table
/// the distance in a class (2 win, 1 cursed win, -1 blessed loss, -2 loss). A WDL table ignores `class`.
///
/// `CLOSED` if the handle has no table; else the first that applies: no placement, as in `szg_index`; in a DTZ
/// table a class below -2 or above 2 (`RANGE`); a placement that has no index in the table, as in `szg_index`; in a
/// WDL table a value that is not a class (`NO_CLASS`), in a DTZ table class 0 (`DRAW`) or a value that is not in
/// the map (`OUTSIDE_MAP`). Then `outcome` is unchanged.
#[unsafe(no_mangle)]
pub extern "C" fn szg_probe(
    alloc: Global,
    table: &mut HeldTable,
    men: &[RawMan],
    mover: u8,
    class: i8,
    outcome: &mut i64,
) -> u32
    ensures kept { table.new.value ≡ table.old.value }
    ensures closed { table.old.value ≡ None → (result ≡ 5) × (outcome.new ≡ outcome.old) }
    ensures reported { IfSome table.old.value (λ t. MatchResult (outcome_result t.contents class (board_of men.now mover)) (λ n. (result ≡ 0) × (outcome.new ≡ n)) (λ status. (result ≡ status) × (outcome.new ≡ outcome.old))) }
{
    let mut look = |held: &Table| write_outcome(held, men, mover, class, outcome);
    with_held(alloc, table, &mut look)
}

/// Writes the class or the distance of men in a table; returns the status.
#[inline(always)]
fn write_outcome(table: &Table, men: &[RawMan], mover: u8, class: i8, outcome: &mut i64) -> u32
    ensures { MatchResult (outcome_result table.now.contents class (board_of men.now mover)) (λ n. (result ≡ 0) × (outcome.new ≡ n)) (λ status. (result ≡ status) × (outcome.new ≡ outcome.old)) }
{
    // for proofs alone: the numbers of an accepted table are those of its index
    table_fits(table);
    match outcome_of_men(table, men, mover, class) {
        Ok(number) => {
            *outcome = number;
            DONE
        }
        Err(Unfound::Status(status)) => status,
        Err(Unfound::Fetch(never)) => match never {},
    }
}

/// Why men have no class and no distance: a status, or the fault of fetching a value.
#[derive(Clone, Copy)]
pub enum Unfound<F> {
    /// The status.
    Status(u32),
    /// The value is not fetched.
    Fetch(F),
}

/// Returns the class of men in a WDL table, their distance in a class in a DTZ table.
#[inline(always)]
pub(crate) fn outcome_of_men<V: Values + Drop>(
    values: V,
    men: &[RawMan],
    mover: u8,
    class: i8,
) -> Result<i64, Unfound<V::Fault>>
    ensures { IsOutcomeOfMen (V.index_in values) (V.is_value values) (V.is_fault values) class (board_of men.now mover) result }
{
    let mut placed_men = ArrayVec::new();
    let Some(key) = key_of_men(men, mover, &mut placed_men) else {
        return outcome_or_fault(values, men, mover, class);
    };
    let Some(placement) = sound_men(men, mover, &placed_men, key) else {
        return outcome_or_fault(values, men, mover, class);
    };
    outcome_of(values, &placement, class)
}

/// The same, by one check of the men after the other.
#[cold]
#[inline(never)]
fn outcome_or_fault<V: Values + Drop>(
    values: V,
    men: &[RawMan],
    mover: u8,
    class: i8,
) -> Result<i64, Unfound<V::Fault>>
    ensures { IsOutcomeOfMen (V.index_in values) (V.is_value values) (V.is_fault values) class (board_of men.now mover) result }
{
    match placement_or_fault(men, mover) {
        Ok(placement) => outcome_of(values, &PlacedMen::of(&placement), class),
        Err(status) => Err(Unfound::Status(status)),
    }
}

/// Returns the class or the distance of a placement.
#[inline(always)]
fn outcome_of<V: Values + Drop>(
    values: V,
    placement: &PlacedMen<'_>,
    class: i8,
) -> Result<i64, Unfound<V::Fault>>
    ensures { IsOutcome (V.index_in values).kind (V.index_in values) (V.is_value values) (V.is_fault values) class placement.now result }
{
    match values.index().kind() {
        Kind::Wdl => match probe_class(values, placement) {
            Ok(Some(class)) => Ok(i64::from(class)),
            Ok(None) => Err(Unfound::Status(NO_CLASS)),
            Err(fault) => Err(fault_or_status(fault)),
        },
        Kind::Dtz => {
            if !is_class(class) {
                return Err(Unfound::Status(RANGE));
            }
            match probe_number(values, placement, class) {
                Ok(number) => Ok(i64::from(number)),
                Err(fault) => Err(fault_or_status(fault)),
            }
        }
    }
}

fn fault_or_status<F>(fault: Unprobed<F>) -> Unfound<F>
    ensures { result ≡ fault_or_status fault }
{
    match fault {
        Unprobed::Place(why) => Unfound::Status(place_status(why)),
        Unprobed::Map(why) => Unfound::Status(map_status(why)),
        Unprobed::Fetch(why) => Unfound::Fetch(why),
    }
}

/// Whether a number is a class, from -2 to 2.
pub(crate) fn is_class(class: i8) -> bool
    ensures { result ≡ is_class class }
{
    !(class < -2 || 2 < class)
}

pub(crate) fn place_status(fault: PlaceFault) -> u32
    ensures { result ≡ place_fault_status fault }
{
    match fault {
        PlaceFault::OtherMaterial => OTHER_MATERIAL,
        PlaceFault::Irregular => IRREGULAR,
        PlaceFault::KingsTouch => KINGS_TOUCH,
        PlaceFault::WrongSide => WRONG_SIDE,
    }
}

pub(crate) fn map_status(fault: MapFault) -> u32
    ensures { result ≡ map_fault_status fault }
{
    match fault {
        MapFault::Draw => DRAW,
        MapFault::OutsideMap => OUTSIDE_MAP,
    }
}
