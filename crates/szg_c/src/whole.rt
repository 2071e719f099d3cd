//! Calls on a whole file in memory.
ghost use Rattle.std.specs.Prelude.{◌≡◌, ◌≢◌, min, drop, length, IsTrue, IsFalse, IfSome, IsSomeAnd, IsNone};
ghost use Rattle.szg_file.specs.Held.{file_bytes};
ghost use Rattle.szg_file.specs.Values.{subtable_at, values_of};
ghost use Rattle.szg_c.specs.Reported.{Reports};
ghost use Rattle.szg_c.specs.Lists.{AreValuesAt, HasIndexFrom};

use crate::held::values_in;
use crate::opening::{RawAnswer, fault_status, kind_of, material_of, open};
use std::alloc::Global;
use szg_c_positions::status::{DONE, NAME, RANGE};
use szg_file::{NoSink, Table, scan};
use szg_io::Bytes;

/// Checks whether the bytes begin with a table's file, and finds the length of that file. It keeps one block in memory at a
/// time.
#[unsafe(no_mangle)]
pub extern "C" fn szg_check(
    alloc: Global,
    name: &[u8],
    dtz: bool,
    bytes: &[u8],
    answer: &mut RawAnswer,
) -> u32
    ensures { Reports name.now dtz bytes.now (λ t. answer.new.place ≡ length (file_bytes t)) (λ t. ⊥) result answer.new.place answer.new.reason }
{
    let Some(material) = material_of(name) else {
        return NAME;
    };
    let mut input = Bytes::new(bytes);
    match scan(
        alloc,
        material,
        kind_of(dtz),
        &mut input,
        &mut NoSink,
        &mut (),
    ) {
        Ok(scanned) => {
            answer.place = scanned.length;
            DONE
        }
        Err(fault) => fault_status(fault, answer),
    }
}

/// Finds the number of positions of a part's side. With another status than `DONE`, `size` is unchanged.
#[unsafe(no_mangle)]
pub extern "C" fn szg_size(
    alloc: Global,
    name: &[u8],
    dtz: bool,
    bytes: &[u8],
    part: u8,
    side: u8,
    size: &mut u64,
    answer: &mut RawAnswer,
) -> u32
    ensures says { Reports name.now dtz bytes.now (λ t. IsSomeAnd (subtable_at t.contents part side) (λ found. size.new ≡ found.0.size)) (λ t. IsNone (subtable_at t.contents part side)) result answer.new.place answer.new.reason }
    ensures stays { (result ≡ 0 → ⊥) → size.new ≡ size.old }
    ensures answer_stays { (result ≡ 2 → ⊥) → answer.new ≡ answer.old }
{
    let table = match open(alloc, name, dtz, bytes, answer) {
        Ok(table) => table,
        Err(status) => return status,
    };
    let Some(found) = table.size(part, side) else {
        return RANGE;
    };
    *size = found;
    DONE
}

/// Decodes all values of a part's side into a list of that length. With another status than `DONE`, `values` is
/// unchanged.
#[unsafe(no_mangle)]
pub extern "C" fn szg_values(
    alloc: Global,
    name: &[u8],
    dtz: bool,
    bytes: &[u8],
    part: u8,
    side: u8,
    values: &mut [u16],
    answer: &mut RawAnswer,
) -> u32
    ensures says { Reports name.now dtz bytes.now (λ t. IsSomeAnd (subtable_at t.contents part side) (λ found. values.new ≡ values_of t.contents.kind found)) (λ t. IfSome (subtable_at t.contents part side) (λ found. length values.old ≢ found.0.size)) result answer.new.place answer.new.reason }
    ensures stays { (result ≡ 0 → ⊥) → values.new ≡ values.old }
    ensures answer_stays { (result ≡ 2 → ⊥) → answer.new ≡ answer.old }
{
    match open(alloc, name, dtz, bytes, answer) {
        Ok(table) => values_in(&table, part, side, values),
        Err(status) => status,
    }
}

/// Writes the values at many indexes of a part's side, in their order: the number of values is the length of the
/// shorter list. The rest of the list of values stays. With another status than `DONE` all of it stays.
#[unsafe(no_mangle)]
pub extern "C" fn szg_values_at(
    alloc: Global,
    name: &[u8],
    dtz: bool,
    bytes: &[u8],
    part: u8,
    side: u8,
    indexes: &[u64],
    values: &mut [u16],
    answer: &mut RawAnswer,
) -> u32
    ensures says { Reports name.now dtz bytes.now (λ t. IsSomeAnd (subtable_at t.contents part side) (λ found. AreValuesAt (values_of t.contents.kind found) indexes.now values.new (min (length indexes.now) (length values.new)))) (λ t. IfSome (subtable_at t.contents part side) (λ found. HasIndexFrom found.0.size indexes.now (min (length indexes.now) (length values.old)))) result answer.new.place answer.new.reason }
    ensures rest { drop (min (length indexes.now) (length values.old)) values.new ≡ drop (min (length indexes.now) (length values.old)) values.old }
    ensures stays { (result ≡ 0 → ⊥) → values.new ≡ values.old }
    ensures answer_stays { (result ≡ 2 → ⊥) → answer.new ≡ answer.old }
{
    match open(alloc, name, dtz, bytes, answer) {
        Ok(table) => {
            if values_at(&table, part, side, indexes, values) {
                DONE
            } else {
                RANGE
            }
        }
        Err(status) => status,
    }
}

/// Finds the values at many indexes of a part's side, if the table has all of them.
fn values_at(table: &Table, part: u8, side: u8, indexes: &[u64], values: &mut [u16]) -> bool
    ensures done { IsTrue result → IsSomeAnd (subtable_at table.now.contents part side) (λ found. AreValuesAt (values_of table.now.contents.kind found) indexes.now values.new (min (length indexes.now) (length values.new))) }
    ensures outside { IsFalse result → IfSome (subtable_at table.now.contents part side) (λ found. HasIndexFrom found.0.size indexes.now (min (length indexes.now) (length values.old))) }
    ensures rest { drop (min (length indexes.now) (length values.old)) values.new ≡ drop (min (length indexes.now) (length values.old)) values.old }
    ensures stays { IsFalse result → values.new ≡ values.old }
{
    let Some(size) = table.size(part, side) else {
        return false;
    };
    let count = indexes.len().min(values.len());
    'indexes: for i in 0..count {
        if indexes[i] >= size {
            return false;
        }
    }
    'values: for i in 0..count {
        values[i] = table.get(part, side, indexes[i]);
    }
    true
}
