//! Calls on the placements of an opened front.
ghost use Rattle.std.specs.Prelude.{◌≡◌, IfSome, MatchResult};
ghost use Rattle.std.specs.declared.option.Option.TheVariants.{None};
ghost use Rattle.szg_c.specs.Fronts.{IsOutcomeReported};
ghost use Rattle.szg_c_positions.specs.Men.{board_of};
ghost use Rattle.szg_c.specs.Places.{IsSpot, number_result, spot_result};

use crate::fronts::{BadBlock, fetch_status};
use crate::handle::{with_held, write};
use crate::held_front::HeldFront;
use crate::places::{FoundSpot, Unfound, is_class, map_status, outcome_of_men, write_spot};
use std::alloc::Global;
use szg_c_positions::RawMan;
use szg_c_positions::status::{DONE, RANGE};
use szg_file::{FrontTable, TableIndex};
use szg_place::FrontBytes;
use szg_values::Kind;

/// The part, side and index of these men with this mover.
///
/// Errors, the first that holds: `CLOSED`; what is no placement (`MAN`, `MEN`, `SAME_SQUARE`, `PAWN_RANK`); a placement
/// for which the table has no index (`OTHER_MATERIAL`, `IRREGULAR`, `KINGS_TOUCH`, `WRONG_SIDE`). Then the spot stays.
#[unsafe(no_mangle)]
pub extern "C" fn szg_front_index(
    alloc: Global,
    front: &mut HeldFront,
    men: &[RawMan],
    mover: u8,
    spot: &mut FoundSpot,
) -> u32
    ensures kept { front.new.value ≡ front.old.value }
    ensures closed { front.old.value ≡ None → (result ≡ 5) × (spot.new ≡ spot.old) }
    ensures reported { IfSome front.old.value (λ f. MatchResult (spot_result f.index (board_of men.now mover)) (λ found. (result ≡ 0) × IsSpot spot.new found) (λ status. (result ≡ status) × (spot.new ≡ spot.old))) }
{
    let mut look = |held: &FrontTable| write_spot(held.index(), men, mover, spot);
    with_held(alloc, front, &mut look)
}

/// The number of a DTZ value of a part in a class (2 win, 1 cursed win, -1 blessed loss, -2 loss).
///
/// Errors: `CLOSED`; `RANGE` for a WDL table, a class below -2 or above 2, or a part that isn't there; then `DRAW` for
/// class 0, and `OUTSIDE_MAP` for a value that the table's map hasn't. Then the number stays.
#[unsafe(no_mangle)]
pub extern "C" fn szg_front_number(
    alloc: Global,
    front: &mut HeldFront,
    part: u8,
    class: i8,
    value: u16,
    number: &mut u32,
) -> u32
    ensures kept { front.new.value ≡ front.old.value }
    ensures closed { front.old.value ≡ None → (result ≡ 5) × (number.new ≡ number.old) }
    ensures reported { IfSome front.old.value (λ f. MatchResult (number_result f.index part class value) (λ n. (result ≡ 0) × (number.new ≡ n)) (λ status. (result ≡ status) × (number.new ≡ number.old))) }
{
    let mut look = |held: &FrontTable| write(number_in(held.index(), part, class, value), number);
    with_held(alloc, front, &mut look)
}

pub(crate) fn number_in(index: &TableIndex, part: u8, class: i8, value: u16) -> Result<u32, u32>
    ensures { result ≡ number_result index.now part class value }
{
    if index.kind() != Kind::Dtz || !is_class(class) || index.size(part, 0).is_none() {
        return Err(RANGE);
    }
    index.map_value(part, class, value).map_err(map_status)
}

/// What the table has for these men with this mover, out of the file's bytes: a WDL table the class (2, 1, 0, -1, -2), a
/// DTZ table the number in a class (2 win, 1 cursed win, -1 blessed loss, -2 loss), which a WDL table doesn't look at. The
/// block that has the value is verified first.
///
/// Errors, the first that holds: `CLOSED`; what is no placement, as `szg_front_index`; in a DTZ table a class below -2 or
/// above 2 (`RANGE`); a placement for which the table has no index, as `szg_front_index`; `BAD_BLOCK` and `CHANGED` as
/// `szg_front_get`; in a WDL table a value that is no class (`NO_CLASS`), in a DTZ table class 0 (`DRAW`) and a value that
/// the map hasn't (`OUTSIDE_MAP`).
#[unsafe(no_mangle)]
pub extern "C" fn szg_front_probe(
    alloc: Global,
    front: &mut HeldFront,
    bytes: &[u8],
    men: &[RawMan],
    mover: u8,
    class: i8,
    outcome: &mut i64,
    bad: &mut BadBlock,
) -> u32
    ensures kept { front.new.value ≡ front.old.value }
    ensures closed { front.old.value ≡ None → result ≡ 5 }
    ensures reported { IfSome front.old.value (λ f. IsOutcomeReported f bytes.now class (board_of men.now mover) result outcome.new bad.new) }
    ensures outcome_stays { (result ≡ 0 → ⊥) → outcome.new ≡ outcome.old }
    ensures bad_stays { (result ≡ 18 → ⊥) → bad.new ≡ bad.old }
{
    let mut look = |held: &FrontTable| write_outcome(held, bytes, men, mover, class, outcome, bad);
    with_held(alloc, front, &mut look)
}

/// Writes the class or the number of men, out of the file's bytes; returns the status. A bad block is written to `bad`.
fn write_outcome(
    table: &FrontTable,
    bytes: &[u8],
    men: &[RawMan],
    mover: u8,
    class: i8,
    outcome: &mut i64,
    bad: &mut BadBlock,
) -> u32
    ensures reported { IsOutcomeReported table.now bytes.now class (board_of men.now mover) result outcome.new bad.new }
    ensures outcome_stays { (result ≡ 0 → ⊥) → outcome.new ≡ outcome.old }
    ensures bad_stays { (result ≡ 18 → ⊥) → bad.new ≡ bad.old }
{
    let values = FrontBytes {
        front: table,
        bytes,
    };
    match outcome_of_men(values, men, mover, class) {
        Ok(number) => {
            *outcome = number;
            DONE
        }
        Err(Unfound::Status(status)) => status,
        Err(Unfound::Fetch(fault)) => fetch_status(fault, bad),
    }
}
