//! Packs a subtable of a dump as soon as its values are read.
ghost use Rattle.std.specs.Prelude.{◌≡◌, ◌<◌, ◌≤◌, replicate, true, Some, IfOk, IfSome};
ghost use Rattle.szg_values.specs.declared.Kind.TheVariants.{Wdl};
ghost use Rattle.szg_file.specs.Values.{constant_value as value_of_byte};
ghost use Rattle.szg_subtable.specs.PackedSubtable.{IsInBounds};
ghost use Rattle.szg_build.specs.Packed.{packed_values, values_held, IsPackedAs, IsPackedSub};
ghost use Rattle.szg_build.specs.Rule.{constant_for};
ghost use Rattle.szg_build.specs.Tabling.{IsBuildable};
ghost use Rattle.szg_subtable.specs.declared.building.Choice.{Choice};

use crate::reading::values::Values;
use crate::refusing::{MAX_DIFFERENT, MAX_ROUNDS, are_bits_valid, has_above};
use crate::subtables::{CONSTANT, build_sub};
use std::alloc::{AllocError, Global};
use szg_block::{Sound, Sub};
use szg_file::constant_value;
use szg_subtable::{Choice, Watcher, count_different};
use szg_values::Kind;

/// The sizes of subtables are below this number; a list of this length or more is not packed.
const TOO_MANY: u64 = 1 << 33;

/// A subtable that is packed.
#[derive(Drop)]
pub(crate) struct PackedSub {
    /// The subtable's flags in the plan; 0 in WDL.
    pub flags: u8,
    /// The number of its values.
    pub size: u64,
    pub sub: Sub,
}

/// Lists the values of a packed subtable.
pub(crate) fn unpack(alloc: Global, kind: Kind, packed: &PackedSub) -> Result<Vec<u16>, AllocError>
    requires { (choice : Choice) × IsPackedSub kind choice packed.now }
    ensures { IfOk result (λ list. list.items ≡ packed_values kind packed.now) }
{
    let constant = constant_value(kind, &packed.sub);
    let sound = Sound::of(&packed.sub, packed.size, constant);
    sound.values(alloc)
}

/// Returns whether a subtable can be built from a list of values.
fn is_buildable(kind: Kind, values: &[u16]) -> bool
    ensures { result ≡ true → IsBuildable kind values.now }
{
    if values.len() as u64 >= TOO_MANY {
        return false;
    }
    if has_above(kind, values) {
        return false;
    }
    count_different(values) <= MAX_DIFFERENT
}

/// Returns whether a list of values is packed while the dump is read: if the numbers of the choice are in their ranges,
/// and in a small table if its number of subtables, `count`, is not 1. The best packing of a single subtable depends on
/// the table's other bytes, which are all known only when the dump has been read.
fn is_packed_early(choice: Choice, count: usize) -> bool
    ensures { result ≡ true → IsInBounds choice }
{
    match choice {
        Choice::Fixed(packing) => {
            are_bits_valid(packing.block_bits, packing.span_bits) && packing.rounds <= MAX_ROUNDS
        }
        Choice::Small => count != 1,
    }
}

/// Returns the byte of the constant subtable for `count` equal values. None if they make no constant subtable, or if
/// `count` is 0.
fn run_byte(kind: Kind, value: u16, count: u64) -> Option<u8>
    ensures small { IfSome result (λ _. value ≤ 4) }
    ensures few { IfSome result (λ byte. byte ≤ 4) }
    ensures same { IfSome result (λ byte. value_of_byte kind byte ≡ value) }
    ensures rule { IfSome result (λ byte. constant_for kind (replicate count value) ≡ Some byte) }
{
    if count == 0 {
        return None;
    }
    match kind {
        Kind::Wdl if value <= 4 => Some(value as u8),
        Kind::Dtz if value == 0 => Some(0),
        _ => None,
    }
}

/// Packs equal values into a constant subtable, without a list. None if the values are listed, if they make no constant
/// subtable, or if there are `TOO_MANY` of them or more.
pub(crate) fn pack_equal(kind: Kind, flags: u8, values: &Values) -> Option<PackedSub>
    requires { flags < 32 }
    ensures { IfSome result (λ packed. (choice : Choice) → IsPackedAs kind choice flags (values_held values.now) packed) }
{
    let Values::Run { value, count } = values else {
        return None;
    };
    if *count >= TOO_MANY {
        return None;
    }
    let byte = run_byte(kind, *value, *count)?;
    let sub = Sub::Constant {
        flags: flags + CONSTANT,
        byte,
    };
    Some(PackedSub {
        flags,
        size: *count,
        sub,
    })
}

/// Packs a list of values. `other_bytes` is as in `choose_sizes`.
pub(crate) fn pack<V: Watcher>(
    alloc: Global,
    kind: Kind,
    flags: u8,
    choice: Choice,
    values: &[u16],
    other_bytes: Option<u64>,
    watcher: &mut V,
) -> Result<PackedSub, AllocError>
    requires flags { flags < 32 }
    requires choice { IsInBounds choice }
    requires values { IsBuildable kind values.now }
    ensures { IfOk result (IsPackedAs kind choice flags values.now) }
{
    let sub = build_sub(alloc, values, kind, flags, choice, other_bytes, watcher)?;
    Ok(PackedSub {
        flags,
        size: values.len() as u64,
        sub,
    })
}

/// Packs a list of values of a table with `count` subtables. None if no table can be built from it by `choice`, or if
/// it is packed only when the dump has been read. In a small table, tries are compared without the table's padding, as
/// if several subtables had blocks.
pub(crate) fn pack_list<V: Watcher>(
    alloc: Global,
    kind: Kind,
    flags: u8,
    choice: Choice,
    count: usize,
    values: &[u16],
    watcher: &mut V,
) -> Result<Option<PackedSub>, AllocError>
    requires { flags < 32 }
    ensures { IfOk result (λ packed. IfSome packed (IsPackedAs kind choice flags values.now)) }
{
    if !is_packed_early(choice, count) || !is_buildable(kind, values) {
        return Ok(None);
    }
    let packed = pack(alloc, kind, flags, choice, values, None, watcher)?;
    Ok(Some(packed))
}
