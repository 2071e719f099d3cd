//! Checks of assembled subtables and maps, as a reader makes them.
ghost use Rattle.std.specs.Prelude.{◌<◌, ◌↔◌, IsTrue, length, map, option_map};
ghost use Rattle.szg_file.specs.Accepted.{SideBySide, IsSubtable, AreLists, IsMapOf, AreMaps};
ghost use Rattle.szg_file.specs.Held.{subtable_of, map_of};

use crate::begun::Slot;
use crate::lookup::{flags_of, has_bit};
use crate::table::Map;
use crate::typed::{bytes_fit, sub_fits, words_fit};
use szg_block::{Sub, check, shaped};
use szg_values::Kind;

// ---- subtables

/// Returns whether there is one subtable per slot, and each passes its checks.
pub(crate) fn are_subs_valid(slots: &[Slot], subs: &[Sub]) -> bool
    ensures { IsTrue result ↔ SideBySide IsSubtable slots.now (map subtable_of subs.now) }
{
    if slots.len() != subs.len() {
        return false;
    }
    'subs: for (n, sub) in subs.iter().enumerate() {
        let slot = &slots[n];
        sub_fits(sub);
        if !shaped(sub, slot.size) {
            return false;
        }
        let Ok(()) = check(sub, slot.size) else {
            return false;
        };
    }
    true
}

// ---- maps

/// Returns whether the length of each list fits one byte.
fn short_lists_fit(lists: &[Vec<u8>; 4]) -> bool
    ensures { IsTrue result ↔ AreLists 1 (map (λ list. list.items) lists.now) }
{
    'lists: for list in lists {
        bytes_fit(list);
        if list.len() >= 256 {
            return false;
        }
    }
    true
}

/// Returns whether the length of each list fits two bytes.
fn wide_lists_fit(lists: &[Vec<u16>; 4]) -> bool
    ensures { IsTrue result ↔ AreLists 2 (map (λ list. list.items) lists.now) }
{
    'lists: for list in lists {
        words_fit(list);
        if list.len() >= 65536 {
            return false;
        }
    }
    true
}

/// Returns whether a map is the one that the flags of the part's subtable require: a map with bit 1 (flag 2), a wide
/// one with bit 4 (flag 16).
fn is_map_valid(sub: &Sub, map: &Option<Map>) -> bool
    ensures { IsTrue result ↔ IsMapOf (subtable_of sub.now) (option_map map_of map.now) }
{
    let flags = flags_of(sub);
    let mapped = has_bit(1, flags);
    let wide = has_bit(4, flags);
    match map {
        None => !mapped,
        Some(Map::Bytes(lists)) => mapped && !wide && short_lists_fit(lists),
        Some(Map::Wide(lists)) => mapped && wide && wide_lists_fit(lists),
    }
}

/// Returns whether the maps are those that the kind and the flags require: none, or one item per subtable.
pub(crate) fn are_maps_valid(kind: Kind, subs: &[Sub], maps: &[Option<Map>]) -> bool
    ensures { IsTrue result ↔ AreMaps kind (map subtable_of subs.now) (map (option_map map_of) maps.now) }
{
    match kind {
        Kind::Wdl => maps.is_empty(),
        Kind::Dtz => {
            if subs.len() != maps.len() {
                return false;
            }
            'maps: for (n, map) in maps.iter().enumerate() {
                if !is_map_valid(&subs[n], map) {
                    return false;
                }
            }
            true
        }
    }
}
