ghost use Rattle.std.specs.Prelude.{ℕ, List, ◌+◌, ◌*◌, ◌≤◌, ◌<◌, ◌^◌, ◌∷◌, [], length, map, option_map, OnOk, IfOk};
ghost use Rattle.std.specs.List.{sum_by};
ghost use Rattle.szg_file.specs.File.{each, list_field, map_field, maps_field};
ghost use Rattle.szg_file.specs.Format.{Format};
ghost use Rattle.szg_file.specs.Held.{map_of};
ghost use Rattle.szg_file.specs.Loading.{MayRead, ReadsFew, ReadsAs};
ghost use Rattle.szg_file.specs.Reading.{Reading};
ghost use Rattle.szg_file.specs.Grown.{HasCounted, maps_lengths};
ghost use Rattle.szg_file.specs.WholeRead.{map_lengths};

use crate::begun::Begun;
use crate::fault::ReadFault;
use crate::lookup::{flags_of, has_bit};
use crate::reading::state::{ReaderState, append};
use crate::reading::taking::{read_byte, read_number, take_bytes, take_fill, take_numbers};
use crate::table::Map;
use std::alloc::Global;
use szg_io::Input;
use szg_values::Kind;

/// Reads the maps of a DTZ file, one item per part, and the padding after them. A WDL file has none.
// Not inlined, so that its temporaries take no stack while `read_front` reads the block lengths.
#[inline(never)]
pub(crate) fn read_maps<R: Input>(
    alloc: Global,
    kind: Kind,
    heads: &[Begun],
    input: &mut R,
    state: &mut ReaderState,
) -> Result<Vec<Option<Map>>, ReadFault>
    requires place { state.old.place < 2 ^ 60 }
    requires few { length heads.now ≤ 8 }
    requires growth_bound { state.old.growth ≤ 2 * state.old.place + 2 ^ 14 }
    ensures maps { Reading (maps_field kind (map (λ begun. begun.subtable) heads.now)) (λ list. map (option_map map_of) list.items) state.old state.new R.Input input.old input.new result }
    ensures place { OnOk result (state.new.place ≤ state.old.place + 2 ^ 23) }
    ensures growth { OnOk result (state.new.growth + 2 * state.old.place ≤ state.old.growth + 2 * state.new.place + 8) }
    ensures grown { IfOk result (λ list. HasCounted state.old state.new 0 (length list.items + maps_lengths list.items)) }
{
    match kind {
        Kind::Wdl => Ok(Vec::new(alloc)),
        Kind::Dtz => {
            let mut list = Vec::new(alloc);
            'heads: for head in heads {
                let lists = read_map(alloc, head, input, state)?;
                append(&mut list, lists, state)?;
            }
            take_fill(alloc, 2, input, state)?;
            Ok(list)
        }
    }
}

/// Reads the map of a part if bit 1 of its flags is set. With bit 4 (flag 16) its lists are wide and begin at an even offset.
fn read_map<R: Input>(
    alloc: Global,
    begun: &Begun,
    input: &mut R,
    state: &mut ReaderState,
) -> Result<Option<Map>, ReadFault>
    requires place { state.old.place + 600000 < 2 ^ 62 }
    requires growth_bound { state.old.growth ≤ 2 * state.old.place + 2 ^ 15 }
    ensures lists { Reading (map_field begun.now.subtable) (option_map map_of) state.old state.new R.Input input.old input.new result }
    ensures place { OnOk result (state.new.place ≤ state.old.place + 600000) }
    ensures growth { OnOk result (state.new.growth + 2 * state.old.place ≤ state.old.growth + 2 * state.new.place) }
    ensures grown { IfOk result (λ found. HasCounted state.old state.new 0 (map_lengths (option_map map_of found))) }
{
    let flags = flags_of(&begun.sub);
    if !has_bit(1, flags) {
        return Ok(None);
    }
    if has_bit(4, flags) {
        take_fill(alloc, 2, input, state)?;
        let lists = read_four(alloc, read_numbers, input, state)?;
        return Ok(Some(Map::Wide(lists)));
    }
    let lists = read_four(alloc, read_bytes, input, state)?;
    Ok(Some(Map::Bytes(lists)))
}

/// Reads four lists, each by a call of `read`: for wins, losses, cursed wins and blessed losses.
fn read_four<
    T: Drop,
    R: Input,
    F: Fn(Global, &mut R, &mut ReaderState) -> Result<Vec<T>, ReadFault>,
>(alloc: Global, read: F, input: &mut R, state: &mut ReaderState) -> Result<[Vec<T>; 4], ReadFault>
    requires may { MayRead F.Fn read }
    requires few { ReadsFew F.Fn read (λ list. length list.items) }
    requires place { state.old.place + 4 * 2 ^ 17 < 2 ^ 62 }
    requires growth_bound { state.old.growth ≤ 2 * state.old.place + 2 ^ 15 }
    ensures lists { (format : Format (List T)) → ReadsAs F.Fn R.Input read format (λ list. list.items) → Reading (each {A = ℕ} (λ _. format) (1 ∷ 2 ∷ 3 ∷ 4 ∷ [])) (map (λ list. list.items)) state.old state.new R.Input input.old input.new result }
    ensures place { OnOk result (state.new.place ≤ state.old.place + 4 * 2 ^ 17) }
    ensures growth { OnOk result (state.new.growth + 2 * state.old.place ≤ state.old.growth + 2 * state.new.place) }
    ensures grown { IfOk result (λ lists. HasCounted state.old state.new 0 (sum_by (λ list. length list.items) lists)) }
{
    let wins = read(alloc, input, state)?;
    let losses = read(alloc, input, state)?;
    let cursed_wins = read(alloc, input, state)?;
    let blessed_losses = read(alloc, input, state)?;
    Ok([wins, losses, cursed_wins, blessed_losses])
}

/// Reads a list of bytes, after a byte with its length.
fn read_bytes<R: Input>(
    alloc: Global,
    input: &mut R,
    state: &mut ReaderState,
) -> Result<Vec<u8>, ReadFault>
    requires place { state.old.place + 256 < 2 ^ 62 }
    requires growth_bound { state.old.growth ≤ 2 * state.old.place + 2 ^ 15 }
    ensures list { Reading (list_field 1) (λ list. list.items) state.old state.new R.Input input.old input.new result }
    ensures place { OnOk result (state.new.place ≤ state.old.place + 256) }
    ensures growth { OnOk result (state.new.growth + 2 * state.old.place ≤ state.old.growth + 2 * state.new.place) }
    ensures grown { IfOk result (λ list. HasCounted state.old state.new 0 (length list.items)) }
{
    let count = read_byte(input, state)?;
    take_bytes(alloc, u64::from(count), input, state)
}

/// Reads a list of two-byte numbers, after a two-byte number with its length.
fn read_numbers<R: Input>(
    alloc: Global,
    input: &mut R,
    state: &mut ReaderState,
) -> Result<Vec<u16>, ReadFault>
    requires place { state.old.place + 131072 < 2 ^ 62 }
    requires growth_bound { state.old.growth ≤ 2 * state.old.place + 2 ^ 15 }
    ensures list { Reading (list_field 2) (λ list. list.items) state.old state.new R.Input input.old input.new result }
    ensures place { OnOk result (state.new.place ≤ state.old.place + 131072) }
    ensures growth { OnOk result (state.new.growth + 2 * state.old.place ≤ state.old.growth + 2 * state.new.place) }
    ensures grown { IfOk result (λ list. HasCounted state.old state.new 0 (length list.items)) }
{
    let count = read_number(input, state)?;
    take_numbers(alloc, u64::from(count), input, state)
}
