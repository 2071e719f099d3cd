//! Calls on a table by its handle.
ghost use Rattle.std.specs.Prelude.{◌≡◌, ◌≢◌, ◌<◌, ◌⊎◌, length, IfErr, IfOk, IfSome, IsNone, IsOk, IsSomeAnd, MatchResult};
ghost use Rattle.std.specs.declared.option.Option.TheVariants.{None, Some};
ghost use Rattle.szg_file.specs.Index.{index_of};
ghost use Rattle.szg_file.specs.Values.{subtable_at, values_of, item};
ghost use Rattle.szg_c.specs.Places.{number_result};
ghost use Rattle.szg_c.specs.Reported.{Reports};

use crate::front_places::number_in;
use crate::handle::{hold, share, shut, with_held, write};
use crate::held_table::HeldTable;
use crate::opening::{RawAnswer, open};
use crate::shared::Shared;
use std::alloc::Global;
use szg_c_positions::status::{DONE, MEMORY, RANGE};
use szg_file::Table;

/// Opens the table of this name and kind that the bytes begin with. The handle's previous table is closed.
#[unsafe(no_mangle)]
pub extern "C" fn szg_open(
    alloc: Global,
    name: &[u8],
    dtz: bool,
    bytes: &[u8],
    table: &mut HeldTable,
    answer: &mut RawAnswer,
) -> u32
    ensures says { Reports name.now dtz bytes.now (λ t. table.new.value ≡ Some t) (λ t. ⊥) result answer.new.place answer.new.reason }
    ensures shut { (result ≡ 0 → ⊥) → table.new.value ≡ None }
    ensures answer_stays { (result ≡ 2 → ⊥) → answer.new ≡ answer.old }
{
    shut(table, alloc);
    match open(alloc, name, dtz, bytes, answer) {
        Ok(opened) => {
            let Ok(shared) = Shared::new(alloc, opened) else {
                return MEMORY;
            };
            hold(alloc, table, shared)
        }
        Err(status) => status,
    }
}

/// Creates a second handle on a table. Both handles own it, and it is freed when the last one is closed. The second
/// handle's previous table is closed.
///
/// `CLOSED` if the first handle has no table, `MEMORY` if an allocation was refused. Then the second handle has
/// none.
#[unsafe(no_mangle)]
pub extern "C" fn szg_share(alloc: Global, table: &mut HeldTable, second: &mut HeldTable) -> u32
    ensures kept { table.new.value ≡ table.old.value }
    ensures closed { table.old.value ≡ None → result ≡ 5 }
    ensures statuses { IfSome table.old.value (λ t. (result ≡ 0) ⊎ (result ≡ 3)) }
    ensures done { (result ≡ 0) → second.new.value ≡ table.old.value }
    ensures shut { (result ≡ 0 → ⊥) → second.new.value ≡ None }
{
    share(alloc, table, second)
}

/// Closes a table.
#[unsafe(no_mangle)]
pub extern "C" fn szg_close(alloc: Global, table: &mut HeldTable)
    ensures { table.new.value ≡ None }
{
    shut(table, alloc);
}

/// Returns the value at an index. Errors: `RANGE` if the table has no such index.
fn value_in(table: &Table, part: u8, side: u8, index: u64) -> Result<u16, u32>
    ensures value { IfOk result (λ value. IsSomeAnd (subtable_at table.now.contents part side) (λ found. item (values_of table.now.contents.kind found) index ≡ Some value)) }
    ensures there { IfSome (subtable_at table.now.contents part side) (λ found. index < found.0.size → IsOk result) }
    ensures range { IfErr result (λ status. status ≡ RANGE) }
{
    match table.size(part, side) {
        Some(size) if index < size => Ok(table.get(part, side, index)),
        _ => Err(RANGE),
    }
}

/// Finds the value at an index.
///
/// `CLOSED` if the handle has no table, `RANGE` if the table has no such part, side or index. Then `value` is
/// unchanged.
#[unsafe(no_mangle)]
pub extern "C" fn szg_get(
    alloc: Global,
    table: &mut HeldTable,
    part: u8,
    side: u8,
    index: u64,
    value: &mut u16,
) -> u32
    ensures kept { table.new.value ≡ table.old.value }
    ensures closed { table.old.value ≡ None → result ≡ 5 }
    ensures done { IfSome table.old.value (λ t. (result ≡ 0) → IsSomeAnd (subtable_at t.contents part side) (λ found. item (values_of t.contents.kind found) index ≡ Some value.new)) }
    ensures there { IfSome table.old.value (λ t. IfSome (subtable_at t.contents part side) (λ found. index < found.0.size → result ≡ 0)) }
    ensures statuses { IfSome table.old.value (λ t. (result ≡ 0) ⊎ (result ≡ 4)) }
    ensures stays { (result ≡ 0 → ⊥) → value.new ≡ value.old }
{
    let mut look = |held: &Table| write(value_in(held, part, side, index), value);
    with_held(alloc, table, &mut look)
}

/// Finds the number of positions of a part's side.
///
/// `CLOSED` if the handle has no table, `RANGE` if the table has no such part or side. Then `size` is unchanged.
#[unsafe(no_mangle)]
pub extern "C" fn szg_positions(
    alloc: Global,
    table: &mut HeldTable,
    part: u8,
    side: u8,
    size: &mut u64,
) -> u32
    ensures kept { table.new.value ≡ table.old.value }
    ensures closed { table.old.value ≡ None → result ≡ 5 }
    ensures done { IfSome table.old.value (λ t. (result ≡ 0) → IsSomeAnd (subtable_at t.contents part side) (λ found. size.new ≡ found.0.size)) }
    ensures there { IfSome table.old.value (λ t. IfSome (subtable_at t.contents part side) (λ found. result ≡ 0)) }
    ensures statuses { IfSome table.old.value (λ t. (result ≡ 0) ⊎ (result ≡ 4)) }
    ensures stays { (result ≡ 0 → ⊥) → size.new ≡ size.old }
{
    let mut look = |held: &Table| write(held.size(part, side).ok_or(RANGE), size);
    with_held(alloc, table, &mut look)
}

/// Decodes all values of a part's side, if the length of `values` is their number.
pub(crate) fn values_in(table: &Table, part: u8, side: u8, values: &mut [u16]) -> u32
    ensures done { (result ≡ 0) → IsSomeAnd (subtable_at table.now.contents part side) (λ found. values.new ≡ values_of table.now.contents.kind found) }
    ensures there { IfSome (subtable_at table.now.contents part side) (λ found. length values.old ≡ found.0.size → result ≡ 0) }
    ensures missing { IsNone (subtable_at table.now.contents part side) → result ≡ 4 }
    ensures other_length { IfSome (subtable_at table.now.contents part side) (λ found. length values.old ≢ found.0.size → result ≡ 4) }
    ensures stays { (result ≡ 0 → ⊥) → values.new ≡ values.old }
{
    match table.size(part, side) {
        Some(size) if values.len() as u64 == size => {
            table.write_values(part, side, values);
            DONE
        }
        _ => RANGE,
    }
}

/// Decodes all values of a part's side into a list of that length.
///
/// `CLOSED` if the handle has no table, `RANGE` if the table has no such part or side or the list has another
/// length. Then `values` is unchanged.
#[unsafe(no_mangle)]
pub extern "C" fn szg_all(
    alloc: Global,
    table: &mut HeldTable,
    part: u8,
    side: u8,
    values: &mut [u16],
) -> u32
    ensures kept { table.new.value ≡ table.old.value }
    ensures closed { table.old.value ≡ None → result ≡ 5 }
    ensures done { IfSome table.old.value (λ t. (result ≡ 0) → IsSomeAnd (subtable_at t.contents part side) (λ found. values.new ≡ values_of t.contents.kind found)) }
    ensures there { IfSome table.old.value (λ t. IfSome (subtable_at t.contents part side) (λ found. length values.old ≡ found.0.size → result ≡ 0)) }
    ensures missing { IfSome table.old.value (λ t. IsNone (subtable_at t.contents part side) → result ≡ 4) }
    ensures other_length { IfSome table.old.value (λ t. IfSome (subtable_at t.contents part side) (λ found. length values.old ≢ found.0.size → result ≡ 4)) }
    ensures stays { (result ≡ 0 → ⊥) → values.new ≡ values.old }
{
    let mut look = |held: &Table| values_in(held, part, side, values);
    with_held(alloc, table, &mut look)
}

/// Finds the distance in plies of a DTZ value in a class (2 win, 1 cursed win, -1 blessed loss, -2 loss).
///
/// `CLOSED` if the handle has no table; `RANGE` for a WDL table, a class below -2 or above 2, or a part that does
/// not exist; else `DRAW` for class 0; else `OUTSIDE_MAP` for a value that is not in the table's map. Then `number`
/// is unchanged.
#[unsafe(no_mangle)]
pub extern "C" fn szg_number(
    alloc: Global,
    table: &mut HeldTable,
    part: u8,
    class: i8,
    value: u16,
    number: &mut u32,
) -> u32
    ensures kept { table.new.value ≡ table.old.value }
    ensures closed { table.old.value ≡ None → (result ≡ 5) × (number.new ≡ number.old) }
    ensures reported { IfSome table.old.value (λ t. MatchResult (number_result (index_of t.contents) part class value) (λ n. (result ≡ 0) × (number.new ≡ n)) (λ status. (result ≡ status) × (number.new ≡ number.old))) }
{
    let mut look = |held: &Table| write(number_in(held.index(), part, class, value), number);
    with_held(alloc, table, &mut look)
}
