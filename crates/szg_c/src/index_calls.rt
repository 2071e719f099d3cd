//! Calls on the placement of an index.
ghost use Rattle.std.specs.Prelude.{◌≡◌, IfSome, MatchResult, length};
ghost use Rattle.std.specs.declared.option.Option.TheVariants.{None};
ghost use Rattle.szg_file.specs.Index.{index_of};
ghost use Rattle.szg_c_positions.specs.Men.{IsWritten, with_room};
ghost use Rattle.szg_c.specs.Places.{placement_result};
ghost use Rattle.szg_c_positions.specs.declared.status.TheConstants.{CLOSED, DONE};

use crate::fronts::has_index;
use crate::handle::with_held;
use crate::held_front::HeldFront;
use crate::held_table::HeldTable;
use crate::places::place_status;
use std::alloc::Global;
use szg_c_positions::status::RANGE;
use szg_c_positions::{RawMan, write_placement};
use szg_file::{FrontTable, Table, TableIndex};
use szg_place::{Spot, placement};

/// Writes the placement of an index of a part's side: the men to the beginning of `men`, their number to `count`, the
/// side to move (White 0, Black 1) to `mover`. The name's first side is White; the side to move is the subtable's (in DTZ
/// the stored one; White if both sides have the same men). `szg_index` finds the index again.
///
/// Errors, the first that holds: `CLOSED` if the handle has no table; `RANGE` if the table has no such part, side or index;
/// a subtable that has no placements (`IRREGULAR`, `WRONG_SIDE`); `RANGE` if `men` has fewer items than there are men. Then
/// `men`, `count` and `mover` are unchanged.
#[unsafe(no_mangle)]
pub extern "C" fn szg_placement(
    alloc: Global,
    table: &mut HeldTable,
    part: u8,
    side: u8,
    index: u64,
    men: &mut [RawMan],
    count: &mut usize,
    mover: &mut u8,
) -> u32
    ensures kept { table.new.value ≡ table.old.value }
    ensures closed { table.old.value ≡ None → result ≡ CLOSED }
    ensures reported { IfSome table.old.value (λ t. MatchResult (with_room (length men.old) (placement_result (index_of t.contents) part side index)) (λ board. (result ≡ DONE) × IsWritten board men.old men.new count.new mover.new) (λ status. result ≡ status)) }
    ensures stays { (result ≡ DONE → ⊥) → (men.new ≡ men.old) × (count.new ≡ count.old) × (mover.new ≡ mover.old) }
{
    let spot = Spot { part, side, index };
    let mut look = |held: &Table| write_placement_of(held.index(), spot, men, count, mover);
    with_held(alloc, table, &mut look)
}

/// Writes the placement of an index of a part's side, as `szg_placement`.
///
/// Errors: `CLOSED` if the handle has no front; else as `szg_placement`.
#[unsafe(no_mangle)]
pub extern "C" fn szg_front_placement(
    alloc: Global,
    front: &mut HeldFront,
    part: u8,
    side: u8,
    index: u64,
    men: &mut [RawMan],
    count: &mut usize,
    mover: &mut u8,
) -> u32
    ensures kept { front.new.value ≡ front.old.value }
    ensures closed { front.old.value ≡ None → result ≡ CLOSED }
    ensures reported { IfSome front.old.value (λ f. MatchResult (with_room (length men.old) (placement_result f.index part side index)) (λ board. (result ≡ DONE) × IsWritten board men.old men.new count.new mover.new) (λ status. result ≡ status)) }
    ensures stays { (result ≡ DONE → ⊥) → (men.new ≡ men.old) × (count.new ≡ count.old) × (mover.new ≡ mover.old) }
{
    let spot = Spot { part, side, index };
    let mut look = |held: &FrontTable| write_placement_of(held.index(), spot, men, count, mover);
    with_held(alloc, front, &mut look)
}

/// Writes the placement of a spot by a table's index, if there is one; returns the status.
fn write_placement_of(
    table: &TableIndex,
    spot: Spot,
    men: &mut [RawMan],
    count: &mut usize,
    mover: &mut u8,
) -> u32
    ensures reported { MatchResult (with_room (length men.old) (placement_result table.now spot.part spot.side spot.index)) (λ board. (result ≡ DONE) × IsWritten board men.old men.new count.new mover.new) (λ status. result ≡ status) }
    ensures stays { (result ≡ DONE → ⊥) → (men.new ≡ men.old) × (count.new ≡ count.old) × (mover.new ≡ mover.old) }
{
    if !has_index(table, spot) {
        return RANGE;
    }
    match placement(table, spot) {
        Ok(placement) => write_placement(&placement, men, count, mover),
        Err(fault) => place_status(fault),
    }
}
