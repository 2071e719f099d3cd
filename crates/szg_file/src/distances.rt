//! The distances that a DTZ table's values encode.
ghost use Rattle.std.specs.Prelude.{◌≡◌, ◌<◌, option_map, Some, IfSome};
ghost use Rattle.szg_file.specs.Held.{map_of};
ghost use Rattle.szg_file.specs.Values.{list_number as list_of_class, in_plies as is_in_plies, number_at as number_of};

use crate::lookup::has_bit;
use crate::table::Map;

/// Returns the number of a map's list for a class. None for a draw.
pub(crate) fn list_number(class: i8) -> Option<usize>
    ensures number { result ≡ list_of_class class }
    ensures below { IfSome result (λ list. list < 4) }
{
    match class {
        2 => Some(0),
        -2 => Some(1),
        1 => Some(2),
        -1 => Some(3),
        _ => None,
    }
}

/// Returns whether the numbers of a list count plies: those of list 0 (wins) with flag 4, those of list 1 (losses)
/// with flag 8. The numbers of the other lists count moves. Nothing branches on which of the first two lists it is.
fn in_plies(flags: u8, list: usize) -> bool
    ensures { result ≡ is_in_plies flags list }
{
    list < 2 && has_bit(2 + list as u8, flags)
}

/// Returns the distance in plies that value `v` encodes in one of a part's lists: through the map if the part has
/// one. None if the map has no such item.
pub(crate) fn number_at(flags: u8, map: &Option<Map>, list: usize, v: u16) -> Option<u32>
    requires { list < 4 }
    ensures { result ≡ number_of flags (option_map map_of map.now) list v }
{
    let number = match map {
        Some(Map::Bytes(lists)) => u32::from(*lists[list].get(usize::from(v))?),
        Some(Map::Wide(lists)) => u32::from(*lists[list].get(usize::from(v))?),
        None => u32::from(v),
    };
    Some(if in_plies(flags, list) {
        number
    } else {
        2 * number
    })
}
