//! Reads a dump's parts, maps and values from a device. Each reader has a parameter `following`: in a valid text, at
//! least that many bytes come after what it reads. A successful call has read at most that many bytes ahead.

pub(crate) mod dumpreading;
mod gathering;
mod incoming;
mod line;
pub(crate) mod line_parsing;
mod lines;
pub(crate) mod packed_dump;
mod packing;
mod subreading;
mod values;
mod word;

ghost use Rattle.std.specs.Prelude.{◌+◌, ◌<◌, ◌≤◌, ◌^◌, [], ◌∷◌, length, map, option_map, IsErrOf, OnOk};
ghost use Rattle.szg_file.specs.Contents.{has_bit, part_numbers};
ghost use Rattle.szg_file.specs.Held.{map_of, part_of};
ghost use Rattle.szg_build.specs.Grammar.{each, list_numbers, map_list, map_of as map_text, part_line, value, values_lines, repeated, number_line, run_values};
ghost use Rattle.szg_build.specs.Held.{held_of};
ghost use Rattle.szg_build.specs.Lacks.{LacksLines};
ghost use Rattle.szg_build.specs.Packed.{values_held};
ghost use Rattle.szg_build.specs.Reading.{ReadsLines};
ghost use Rattle.szg_build.specs.Shown.{form_of};

use crate::dump::DumpReadFault;
use crate::item::Item;
use crate::reading::incoming::Incoming;
use crate::reading::line_parsing::{GREATEST_COUNT, parse_part};
use crate::reading::lines::{read_number, read_parsed, read_run};
use crate::reading::values::Values;
use szg_file::{Map, PartBytes, has_bit, part_count};
use szg_io::Input;
use szg_values::Material;

// ---- values

/// Reads `count` items, one a line.
fn read_items<T: Item, R: Input>(
    count: u64,
    following: u64,
    input: &mut R,
    incoming: &mut Incoming,
) -> Result<Vec<T>, DumpReadFault>
    requires few { following + count < 2 ^ 64 }
    requires held { length (held_of incoming.old) ≤ following + count }
    ensures lines { ReadsLines (repeated count (number_line (value ∷ []) T.GREATEST)) (λ list. map T.number list.items) incoming.old incoming.new R.Input input.old input.new result }
    ensures following { OnOk result (length (held_of incoming.new) ≤ following) }
    ensures memory { IsErrOf result DumpReadFault.Memory → LacksLines (repeated count (number_line (value ∷ []) T.GREATEST)) following incoming.old R.Input input.old input.new }
{
    let mut list = Vec::new(incoming.alloc);
    'items: for i in 0..count {
        let left = count - 1 - i;
        let number = read_number(b"", T::GREATEST, following + left, input, incoming)?;
        list.push(T::of(number))?;
    }
    Ok(list)
}

/// Reads runs, one a line, until there are `count` values.
fn read_runs<R: Input>(
    count: u64,
    following: u64,
    input: &mut R,
    incoming: &mut Incoming,
) -> Result<Values, DumpReadFault>
    requires { length (held_of incoming.old) ≤ following }
    ensures lines { ReadsLines (run_values count count) values_held incoming.old incoming.new R.Input input.old input.new result }
    ensures following { OnOk result (length (held_of incoming.new) ≤ following) }
    ensures memory { IsErrOf result DumpReadFault.Memory → LacksLines (run_values count count) following incoming.old R.Input input.old input.new }
{
    let mut values = Values::Run { value: 0, count: 0 };
    let mut left = count;
    'runs: while left > 0 {
        let (size, value) = read_run(left, following, input, incoming)?;
        values = values.with_run(incoming.alloc, size, value)?;
        left -= size;
    }
    Ok(values)
}

/// Reads the `count` values of a subtable in form `form`.
pub(crate) fn read_values<R: Input>(
    form: u8,
    count: u64,
    following: u64,
    input: &mut R,
    incoming: &mut Incoming,
) -> Result<Values, DumpReadFault>
    requires few { following + count < 2 ^ 64 }
    requires held { length (held_of incoming.old) ≤ following }
    ensures lines { ReadsLines (values_lines (form_of form) count) values_held incoming.old incoming.new R.Input input.old input.new result }
    ensures following { OnOk result (length (held_of incoming.new) ≤ following) }
    ensures memory { IsErrOf result DumpReadFault.Memory → LacksLines (values_lines (form_of form) count) following incoming.old R.Input input.old input.new }
{
    if form == 2 {
        return read_runs(count, following, input, incoming);
    }
    let list = read_items(count, following, input, incoming)?;
    Ok(Values::Listed(list))
}

// ---- maps

/// Reads list `j` of a map.
fn read_list<T: Item, R: Input>(
    j: u8,
    following: u64,
    input: &mut R,
    incoming: &mut Incoming,
) -> Result<Vec<T>, DumpReadFault>
    requires list { j < 4 }
    requires few { following < 2 ^ 32 }
    requires held { length (held_of incoming.old) ≤ following + 1 }
    ensures lines { ReadsLines (map_list T.GREATEST j) (λ list. map T.number list.items) incoming.old incoming.new R.Input input.old input.new result }
    ensures following { OnOk result (length (held_of incoming.new) ≤ following) }
    ensures memory { IsErrOf result DumpReadFault.Memory → LacksLines (map_list T.GREATEST j) following incoming.old R.Input input.old input.new }
{
    let front = [b'm', b'a', b'p', b' ', b'0' + j, b' '];
    let count = read_number(&front, GREATEST_COUNT, following, input, incoming)?;
    read_items(count, following, input, incoming)
}

/// Reads the four lists of a map.
fn read_lists<T: Item, R: Input>(
    following: u64,
    input: &mut R,
    incoming: &mut Incoming,
) -> Result<[Vec<T>; 4], DumpReadFault>
    requires few { following < 2 ^ 31 }
    requires held { length (held_of incoming.old) ≤ following + 4 }
    ensures lines { ReadsLines (each (map_list T.GREATEST) list_numbers) (λ lists. map (λ list. map T.number list.items) lists) incoming.old incoming.new R.Input input.old input.new result }
    ensures following { OnOk result (length (held_of incoming.new) ≤ following) }
    ensures memory { IsErrOf result DumpReadFault.Memory → LacksLines (each (map_list T.GREATEST) list_numbers) following incoming.old R.Input input.old input.new }
{
    let wins = read_list(0, following + 3, input, incoming)?;
    let losses = read_list(1, following + 2, input, incoming)?;
    let cursed_wins = read_list(2, following + 1, input, incoming)?;
    let blessed_losses = read_list(3, following, input, incoming)?;
    Ok([wins, losses, cursed_wins, blessed_losses])
}

/// Reads the map that the flags require. None if they require none.
pub(crate) fn read_map<R: Input>(
    flags: u8,
    following: u64,
    input: &mut R,
    incoming: &mut Incoming,
) -> Result<Option<Map>, DumpReadFault>
    requires few { following < 2 ^ 31 }
    requires held { length (held_of incoming.old) ≤ following }
    ensures lines { ReadsLines (map_text (has_bit 1 flags) (has_bit 4 flags)) (option_map map_of) incoming.old incoming.new R.Input input.old input.new result }
    ensures following { OnOk result (length (held_of incoming.new) ≤ following) }
    ensures memory { IsErrOf result DumpReadFault.Memory → LacksLines (map_text (has_bit 1 flags) (has_bit 4 flags)) following incoming.old R.Input input.old input.new }
{
    if !has_bit(1, flags) {
        return Ok(None);
    }
    if has_bit(4, flags) {
        let wide = read_lists(following, input, incoming)?;
        return Ok(Some(Map::Wide(wide)));
    }
    let narrow = read_lists(following, input, incoming)?;
    Ok(Some(Map::Bytes(narrow)))
}

// ---- the parts

/// Reads the parts of a material.
pub(crate) fn read_parts<R: Input>(
    material: &Material,
    following: u64,
    input: &mut R,
    incoming: &mut Incoming,
) -> Result<Vec<PartBytes>, DumpReadFault>
    requires few { following < 2 ^ 32 }
    requires held { length (held_of incoming.old) ≤ following + 1 }
    ensures lines { ReadsLines (each part_line (part_numbers material.now)) (λ parts. map part_of parts.items) incoming.old incoming.new R.Input input.old input.new result }
    ensures following { OnOk result (length (held_of incoming.new) ≤ following) }
    ensures memory { IsErrOf result DumpReadFault.Memory → LacksLines (each part_line (part_numbers material.now)) following incoming.old R.Input input.old input.new }
{
    let mut parts = Vec::new(incoming.alloc);
    let count = part_count(material);
    'parts: for number in 0..count {
        let left = u64::from(count - 1 - number);
        let due = following + left;
        let (order, men) = read_parsed(|text| parse_part(number, text), due, input, incoming)?;
        let order = Vec::from_slice(incoming.alloc, order.as_slice())?;
        let men = Vec::from_slice(incoming.alloc, men.as_slice())?;
        parts.push(PartBytes { order, men })?;
    }
    Ok(parts)
}
