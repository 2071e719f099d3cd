//! The checks of a plan and its lists that come after the check of its parts.
ghost use Rattle.std.specs.Prelude.{◌≡◌, ◌&&◌, nat_lt, nat_le, map, option_map, Some};
ghost use Rattle.std.specs.List.{list_any};
ghost use Rattle.szg_file.specs.Contents.{has_bit};
ghost use Rattle.szg_file.specs.Held.{map_of};
ghost use Rattle.szg_build.specs.Plan.{fault_for, greatest_value, has_maps, is_map_of};
ghost use Rattle.szg_build.specs.Shown.{plan_seen};

use crate::{BuildFault, Plan};
use szg_file::{Map, has_bit, part_count};
use szg_subtable::count_different;
use szg_values::Kind;

/// The greatest number of rounds of a plan.
pub(crate) const MAX_ROUNDS: u32 = 4000;

/// The greatest number of different values of a list.
pub(crate) const MAX_DIFFERENT: usize = 4095;

/// Returns whether block bits and span bits are in their ranges.
pub(crate) fn are_bits_valid(block_bits: u8, span_bits: u8) -> bool
    ensures { result ≡ (nat_le 5 block_bits && nat_le block_bits 10 && nat_le 1 span_bits && nat_le span_bits 16) }
{
    5 <= block_bits && block_bits <= 10 && 1 <= span_bits && span_bits <= 16
}

/// Returns whether a list has a value above the greatest of its kind of table.
pub(crate) fn has_above(kind: Kind, values: &[u16]) -> bool
    ensures { result ≡ list_any (λ v. nat_lt (greatest_value kind) v) values.now }
{
    let greatest = match kind {
        Kind::Wdl => 4,
        Kind::Dtz => 4095,
    };
    values.iter().any(|v| *v > greatest)
}

/// Returns whether a map is what the flags require, and its lists fit their length fields.
fn is_map_for(flags: u8, item: &Option<Map>) -> bool
    ensures { result ≡ is_map_of (flags, option_map map_of item.now) }
{
    let Some(map) = item else {
        return !has_bit(1, flags);
    };
    if !has_bit(1, flags) {
        return false;
    }
    match map {
        Map::Bytes(lists) => {
            if has_bit(4, flags) {
                return false;
            }
            lists.iter().all(|list| list.len() < 256)
        }
        Map::Wide(lists) => {
            if !has_bit(4, flags) {
                return false;
            }
            lists.iter().all(|list| list.len() < 65536)
        }
    }
}

/// Returns whether a plan has the flags and maps that its kind requires. In WDL there are none. In DTZ each part has
/// flags below 32 and the map that they require.
pub(crate) fn are_maps_valid(plan: &Plan) -> bool
    ensures { result ≡ has_maps (plan_seen plan.now) }
{
    match plan.kind {
        Kind::Wdl => plan.flags.is_empty() && plan.maps.is_empty(),
        Kind::Dtz => {
            let parts = part_count(&plan.material) as usize;
            if plan.flags.len() != parts {
                return false;
            }
            if plan.maps.len() != parts {
                return false;
            }
            if !plan.flags.iter().all(|byte| *byte < 32) {
                return false;
            }
            plan.flags
                .iter()
                .zip(&plan.maps)
                .all(|(byte, item)| is_map_for(*byte, item))
        }
    }
}

/// Returns the first fault of a plan and its lists. The parts are valid and give these sizes. Allocates nothing.
pub(crate) fn first_fault(plan: &Plan, sizes: &[u64], lists: &[&[u16]]) -> Option<BuildFault>
    ensures { result ≡ fault_for (Some sizes.now) (plan_seen plan.now) (map (λ list. list.now) lists.now) }
{
    if !are_bits_valid(plan.block_bits, plan.span_bits) {
        return Some(BuildFault::Bits);
    }
    if plan.rounds > MAX_ROUNDS {
        return Some(BuildFault::Rounds);
    }
    if lists.len() != sizes.len() {
        return Some(BuildFault::Count);
    }
    if let Some(n) = sizes
        .iter()
        .zip(lists)
        .position(|(size, list)| list.len() as u64 != *size)
    {
        return Some(BuildFault::Length(n));
    }
    if let Some(n) = lists.iter().position(|list| has_above(plan.kind, list)) {
        return Some(BuildFault::Value(n));
    }
    if let Some(n) = lists
        .iter()
        .position(|list| count_different(list) > MAX_DIFFERENT)
    {
        return Some(BuildFault::TooManyValues(n));
    }
    (!are_maps_valid(plan)).then_some(BuildFault::Map)
}
