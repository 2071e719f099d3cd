//! Placements in a table in memory.

ghost use Rattle.std.specs.Prelude.{◌≡◌, ◌<◌, ◌≤ℤ◌, pos, neg_ℤ, IsNone, IsSome, IfOk, IfSome, IsSomeAnd, MatchResult, Ok, Err};
ghost use Rattle.szg_file.specs.Values.{subtable_at};
ghost use Rattle.szg_place.specs.Spots.{board_at, place_fault, placement_refusal, spot_of};
ghost use Rattle.szg_place.specs.Tables.{numbering_of, value_at, class_of, mapped_number};

use crate::probes::{Unprobed, probe_class, probe_number};
use crate::spots::locate;
use crate::unranking::placement;
use crate::{PlaceFault, ProbeFault, Spot};
use szg_file::Table;
use szg_file::typed::table_fits;
use szg_values::{Kind, PlacedMen, Placement};

/// Returns where a table stores the value of a placement, as `locate`.
///
/// Errors: those of `locate`.
pub fn index_of(table: &Table, placement: &Placement) -> Result<Spot, PlaceFault>
    // The first fault that applies is returned.
    ensures refused { IfSome (place_fault (numbering_of table.now.contents) placement.now) (λ fault. result ≡ Err fault) }
    ensures spot { IsNone (place_fault (numbering_of table.now.contents) placement.now) → result ≡ Ok (spot_of (numbering_of table.now.contents) placement.now) }
    // The table has a value at the spot.
    ensures below { IfOk result (λ spot. IsSomeAnd (subtable_at table.now.contents spot.part spot.side) (λ found. spot.index < found.0.size)) }
{
    locate(table.index(), &PlacedMen::of(placement))
}

/// Returns the placement of an index of a subtable: the inverse of `index_of`, as `placement`.
///
/// Errors: those of `placement`.
pub fn placement_of(table: &Table, part: u8, side: u8, index: u64) -> Result<Placement, PlaceFault>
    requires there { IsSome (subtable_at table.now.contents part side) }
    requires below { IfSome (subtable_at table.now.contents part side) (λ found. index < found.0.size) }
    // The first fault that applies is returned.
    ensures refused { IfSome (placement_refusal (numbering_of table.now.contents) part side) (λ fault. result ≡ Err fault) }
    ensures placed { IsNone (placement_refusal (numbering_of table.now.contents) part side) → result ≡ Ok (board_at (numbering_of table.now.contents) part side index) }
{
    placement(table.index(), Spot { part, side, index })
}

/// Returns the class of a placement from a WDL table, as `probe_class`.
///
/// Errors: those of `locate`.
pub fn probe_wdl(table: &Table, placement: &Placement) -> Result<Option<i8>, PlaceFault>
    requires { table.now.contents.kind ≡ Kind.Wdl }
    ensures refused { IfSome (place_fault (numbering_of table.now.contents) placement.now) (λ fault. result ≡ Err fault) }
    ensures class { IsNone (place_fault (numbering_of table.now.contents) placement.now) →
        IsSomeAnd (value_at table.now.contents (spot_of (numbering_of table.now.contents) placement.now)) (λ v. result ≡ Ok (class_of v)) }
{
    match probe_class(table, &PlacedMen::of(placement)) {
        Ok(class) => Ok(class),
        Err(Unprobed::Place(fault)) => Err(fault),
        Err(Unprobed::Fetch(never)) => match never {},
        Err(Unprobed::Map(_)) => unreachable!(),
    }
}

/// Returns the number that a DTZ table stores for a placement of this class, as `probe_number`.
///
/// Errors: `Place` with the error of `locate`, then `Map` as `probe_number`.
pub fn probe_dtz(table: &Table, placement: &Placement, class: i8) -> Result<u32, ProbeFault>
    requires kind { table.now.contents.kind ≡ Kind.Dtz }
    requires lowest { neg_ℤ (pos 2) ≤ℤ class }
    requires highest { class ≤ℤ pos 2 }
    ensures refused { IfSome (place_fault (numbering_of table.now.contents) placement.now) (λ fault. result ≡ Err (ProbeFault.Place fault)) }
    // The table's map is used only for a placement that has an index.
    ensures number { IsNone (place_fault (numbering_of table.now.contents) placement.now) →
        (let spot = spot_of (numbering_of table.now.contents) placement.now in
        IsSomeAnd (value_at table.now.contents spot) (λ v. MatchResult (mapped_number table.now.contents spot.part class v)
        (λ number. result ≡ Ok number) (λ fault. result ≡ Err (ProbeFault.Map fault)))) }
{
    table_fits(table);
    match probe_number(table, &PlacedMen::of(placement), class) {
        Ok(number) => Ok(number),
        Err(Unprobed::Place(fault)) => Err(ProbeFault::Place(fault)),
        Err(Unprobed::Fetch(never)) => match never {},
        Err(Unprobed::Map(fault)) => Err(ProbeFault::Map(fault)),
    }
}
