//! Copies the fields that a dump shares with its table.
ghost use Rattle.std.specs.Prelude.{◌≡◌, map, Some, option_map, IfOk};
ghost use Rattle.szg_file.specs.Held.{part_of, map_of};
ghost use Rattle.szg_file.specs.Values.{subtable_at};
ghost use Rattle.szg_build.specs.Built.{plan_flags, subtables_in};

use crate::places::places;
use std::alloc::{AllocError, Global};
use szg_file::typed::table_fits;
use szg_file::{Map, PartBytes, Table};
use szg_values::Kind;

/// Copies parts.
pub(crate) fn copy_parts(alloc: Global, parts: &[PartBytes]) -> Result<Vec<PartBytes>, AllocError>
    ensures { IfOk result (λ copies. map part_of copies.items ≡ map part_of parts.now) }
{
    let mut copies = Vec::new(alloc);
    'parts: for part in parts {
        let order = Vec::from_slice(alloc, &part.order)?;
        let men = Vec::from_slice(alloc, &part.men)?;
        copies.push(PartBytes { order, men })?;
    }
    Ok(copies)
}

/// Copies four lists.
fn copy_lists<T: Copy>(alloc: Global, lists: &[Vec<T>; 4]) -> Result<[Vec<T>; 4], AllocError>
    ensures { IfOk result (λ copies. map (λ list. list.items) copies ≡ map (λ list. list.items) lists.now) }
{
    let [wins, losses, cursed_wins, blessed_losses] = lists;
    let wins = Vec::from_slice(alloc, wins)?;
    let losses = Vec::from_slice(alloc, losses)?;
    let cursed_wins = Vec::from_slice(alloc, cursed_wins)?;
    let blessed_losses = Vec::from_slice(alloc, blessed_losses)?;
    Ok([wins, losses, cursed_wins, blessed_losses])
}

/// Copies maps.
pub(crate) fn copy_maps(alloc: Global, maps: &[Option<Map>]) -> Result<Vec<Option<Map>>, AllocError>
    ensures { IfOk result (λ copies. map (option_map map_of) copies.items ≡ map (option_map map_of) maps.now) }
{
    let mut copies = Vec::new(alloc);
    'maps: for item in maps {
        let copy = match item {
            None => None,
            Some(Map::Bytes(lists)) => Some(Map::Bytes(copy_lists(alloc, lists)?)),
            Some(Map::Wide(lists)) => Some(Map::Wide(copy_lists(alloc, lists)?)),
        };
        copies.push(copy)?;
    }
    Ok(copies)
}

/// Copies the flags 1, 2, 4, 8 and 16 of a DTZ table's parts. A WDL table has none.
pub(crate) fn copy_flags(alloc: Global, table: &Table) -> Result<Vec<u8>, AllocError>
    ensures { IfOk result (λ flags. flags.items ≡ plan_flags table.now.contents) }
{
    let mut flags = Vec::new(alloc);
    match table.kind() {
        Kind::Wdl => {}
        Kind::Dtz => {
            let bytes = table.index().flags();
            for byte in bytes {
                flags.push(*byte % 32)?;
            }
        }
    }
    Ok(flags)
}

/// Returns part and side of each subtable of a table.
pub(crate) fn table_subtable_ids(table: &Table) -> &'static [(u8, u8)]
    ensures { map Some (subtables_in table.now.contents) ≡ map (λ place. subtable_at table.now.contents place.0 place.1) result.now }
{
    table_fits(table);
    places(table.material(), table.kind())
}
