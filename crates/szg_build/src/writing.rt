//! Writes the text of a dump, line by line.

pub(crate) mod block_values;
mod dump_sink;
mod dump_text;
pub(crate) mod dumping;
pub(crate) mod stored;
mod streaming;
pub(crate) mod table_dump;

ghost use Rattle.std.specs.Prelude.{◌≡◌, ℕ, ◌+◌, ◌-◌, ◌<◌, ◌≤◌, ◌^◌, ◌⊎◌, [], ◌∷◌, ◌++◌, length, map, take, drop, replicate, min, slice_index, codes, Option, Some, option_map, IfErr, OnOk, OnErr};
ghost use Rattle.std.specs.Fmt.{decimal};
ghost use Rattle.hex.specs.Hex.{encode_lower};
ghost use Rattle.szg_io.specs.Device.{HasFailed};
ghost use Rattle.szg_io.specs.Moved.{Gives};
ghost use Rattle.szg_file.specs.Contents.{part_numbers};
ghost use Rattle.szg_file.specs.Held.{part_of, map_of};
ghost use Rattle.szg_build.specs.Dump.{subtable_ids_of};
ghost use Rattle.szg_build.specs.Text.{runs_of, line_text, lines_text, kind_word, part_lines, map_list_lines, map_lines, flags_lines, value_lines, values_lines, sub_lines, front_lines, flat_map_beside, dump_text, part_word};
ghost use Rattle.szg_build.specs.Writing.{Writing};
ghost use Rattle.szg_build.specs.Shown.{dump_seen, form_of, sub_in, sub_count, subs_seen};

use crate::dump::Dump;
use crate::item::Item;
use crate::places::places;
use crate::writing::dump_text::{DumpText, Written, flush, put};
use arrayvec::ArrayVec;
use itoa::Buffer;
use szg_file::{Map, PartBytes, WriteFault, part_count};
use szg_io::Output;
use szg_values::{Kind, Material};

/// The bytes of a line, its 0A included.
type Line = ArrayVec<u8, 96>;

// ---- lines

/// Appends bytes to a line.
fn add(line: &mut Line, chunk: &[u8])
    requires { length line.old.items + length chunk.now ≤ 96 }
    ensures { line.new.items ≡ line.old.items ++ chunk.now }
{
    let Ok(()) = line.try_extend_from_slice(chunk) else {
        unreachable!()
    };
}

/// Appends a decimal to a line.
fn add_number(line: &mut Line, number: u64)
    requires { length line.old.items ≤ 76 }
    ensures text { line.new.items ≡ line.old.items ++ decimal number }
    ensures short { length line.new.items ≤ length line.old.items + 20 }
{
    let mut buffer = Buffer::new();
    let text = buffer.format(number);
    add(line, text.as_bytes());
}

/// Writes a line: fixed words with the space after them, and a decimal.
pub(crate) fn put_number<W: Output>(
    front: &[u8],
    number: u64,
    output: &mut W,
    text: &mut DumpText,
) -> Written
    requires { length front.now ≤ 16 }
    ensures { Writing ((front.now ++ decimal number) ++ 10 ∷ []) text.old text.new W.Output output.old output.new result }
{
    let mut line = Line::new();
    add(&mut line, front);
    add_number(&mut line, number);
    add(&mut line, b"\n");
    put(line.as_slice(), output, text)
}

/// Writes a line: fixed words with the space after them, and two decimals.
fn put_pair<W: Output>(
    front: &[u8],
    first: u64,
    second: u64,
    output: &mut W,
    text: &mut DumpText,
) -> Written
    requires { length front.now ≤ 16 }
    ensures { Writing ((front.now ++ (decimal first ++ 32 ∷ decimal second)) ++ 10 ∷ []) text.old text.new W.Output output.old output.new result }
{
    let mut line = Line::new();
    add(&mut line, front);
    add_number(&mut line, first);
    add(&mut line, b" ");
    add_number(&mut line, second);
    add(&mut line, b"\n");
    put(line.as_slice(), output, text)
}

/// Writes a line: a fixed word with the space after it, and a word.
fn put_word<W: Output>(front: &[u8], word: &[u8], output: &mut W, text: &mut DumpText) -> Written
    requires front { length front.now ≤ 16 }
    requires word { length word.now ≤ 32 }
    ensures { Writing ((front.now ++ word.now) ++ 10 ∷ []) text.old text.new W.Output output.old output.new result }
{
    let mut line = Line::new();
    add(&mut line, front);
    add(&mut line, word);
    add(&mut line, b"\n");
    put(line.as_slice(), output, text)
}

/// Writes bytes as lower-case hexadecimal text.
fn put_hex<W: Output>(bytes: &[u8], output: &mut W, text: &mut DumpText) -> Written
    ensures { Writing (encode_lower bytes.now) text.old text.new W.Output output.old output.new result }
{
    'bytes: for byte in bytes {
        let mut digits = [0; 2];
        let Ok(()) = hex::encode_to_slice([*byte], &mut digits) else {
            unreachable!()
        };
        put(&digits, output, text)?;
    }
    Ok(())
}

// ---- values

/// Returns the length of the run of equal values that the list begins with.
pub(crate) fn run_length(values: &[u16]) -> usize
    requires { 0 < length values.now }
    ensures some { 0 < result }
    ensures within { result ≤ length values.now }
    ensures run { runs_of values.now ≡ (result, slice_index values.now 0) ∷ runs_of (drop result values.now) }
    ensures same { take result values.now ≡ replicate result (slice_index values.now 0) }
{
    'values: for (count, value) in values.iter().enumerate() {
        if *value != values[0] {
            return count;
        }
    }
    values.len()
}

/// Writes equal values in form `form`.
pub(crate) fn put_equal<W: Output>(
    form: u8,
    count: u64,
    value: u16,
    output: &mut W,
    text: &mut DumpText,
) -> Written
    ensures { Writing (lines_text (value_lines (form_of form) (replicate count value))) text.old text.new W.Output output.old output.new result }
{
    if form == 2 {
        if count == 0 {
            return Ok(());
        }
        return put_pair(b"", count, u64::from(value), output, text);
    }
    'lines: for _done in 0..count {
        put_number(b"", u64::from(value), output, text)?;
    }
    Ok(())
}

/// Writes the number of values, and the values in form `form`.
fn put_list<W: Output>(form: u8, values: &[u16], output: &mut W, text: &mut DumpText) -> Written
    ensures { Writing (lines_text (values_lines (form_of form) values.now)) text.old text.new W.Output output.old output.new result }
{
    put_number(b"values ", values.len() as u64, output, text)?;
    let mut from = 0;
    'runs: while from < values.len() {
        let count = run_length(&values[from..]);
        put_equal(form, count as u64, values[from], output, text)?;
        from += count;
    }
    Ok(())
}

// ---- maps

/// Writes list `j` of a map: the number of its items, and a line for each.
fn put_map_list<T: Item, W: Output>(
    j: usize,
    list: &[T],
    output: &mut W,
    text: &mut DumpText,
) -> Written
    ensures { Writing (lines_text (map_list_lines j (map T.number list.now))) text.old text.new W.Output output.old output.new result }
{
    put_pair(b"map ", j as u64, list.len() as u64, output, text)?;
    'items: for item in list {
        put_number(b"", item.number(), output, text)?;
    }
    Ok(())
}

/// Writes the four lists of a map.
fn put_map_lists<T: Item, W: Output>(
    lists: &[Vec<T>; 4],
    output: &mut W,
    text: &mut DumpText,
) -> Written
    ensures { Writing (lines_text (flat_map_beside map_list_lines (0 ∷ 1 ∷ 2 ∷ 3 ∷ []) (map (λ list. map T.number list.items) lists.now))) text.old text.new W.Output output.old output.new result }
{
    'lists: for j in 0..4 {
        put_map_list(j, &lists[j], output, text)?;
    }
    Ok(())
}

// ---- subtables

/// Writes the line that names a subtable's part and side.
pub(crate) fn put_subtable_id<W: Output>(
    place: (u8, u8),
    output: &mut W,
    text: &mut DumpText,
) -> Written
    requires { place.0 < 4 }
    ensures { Writing (line_text (codes "sub" ∷ part_word place.0 ∷ decimal place.1 ∷ [])) text.old text.new W.Output output.old output.new result }
{
    let front = [b's', b'u', b'b', b' ', b'a' + place.0, b' '];
    put_number(&front, u64::from(place.1), output, text)
}

/// Writes the flags and the map, if there is one, of a part of a DTZ table.
pub(crate) fn put_flags_and_map<W: Output>(
    flags: u8,
    map: &Option<Map>,
    output: &mut W,
    text: &mut DumpText,
) -> Written
    ensures { Writing (line_text (codes "flags" ∷ decimal flags ∷ []) ++ lines_text (map_lines (option_map map_of map.now))) text.old text.new W.Output output.old output.new result }
{
    put_number(b"flags ", u64::from(flags), output, text)?;
    match map {
        None => Ok(()),
        Some(Map::Bytes(lists)) => put_map_lists(lists, output, text),
        Some(Map::Wide(lists)) => put_map_lists(lists, output, text),
    }
}

/// Writes the flags and the map of subtable `s` of a DTZ dump. For a WDL dump it writes nothing.
fn put_flags<W: Output>(dump: &Dump, s: usize, output: &mut W, text: &mut DumpText) -> Written
    requires { s < sub_count dump.now }
    ensures { Writing (lines_text (flags_lines dump.now.kind (sub_in dump.now s))) text.old text.new W.Output output.old output.new result }
{
    match dump.kind {
        Kind::Wdl => Ok(()),
        Kind::Dtz => put_flags_and_map(dump.flags[s], &dump.maps[s], output, text),
    }
}

/// Writes a subtable.
fn put_sub<W: Output>(
    form: u8,
    dump: &Dump,
    s: usize,
    place: (u8, u8),
    output: &mut W,
    text: &mut DumpText,
) -> Written
    requires there { s < sub_count dump.now }
    requires place { place.0 < 4 }
    ensures { Writing (lines_text (sub_lines (form_of form) dump.now.kind place (sub_in dump.now s))) text.old text.new W.Output output.old output.new result }
{
    put_subtable_id(place, output, text)?;
    put_flags(dump, s, output, text)?;
    put_list(form, &dump.lists[s], output, text)
}

/// Returns the number of subtables of a dump.
fn count_subs(dump: &Dump) -> usize
    ensures { result ≡ sub_count dump.now }
{
    match dump.kind {
        Kind::Wdl => dump.lists.len(),
        Kind::Dtz => dump.flags.len().min(dump.maps.len()).min(dump.lists.len()),
    }
}

/// Writes the subtables.
fn put_subs<W: Output>(form: u8, dump: &Dump, output: &mut W, text: &mut DumpText) -> Written
    ensures { Writing (lines_text (flat_map_beside (sub_lines (form_of form) dump.now.kind) (subtable_ids_of dump.now.material dump.now.kind) (subs_seen dump.now))) text.old text.new W.Output output.old output.new result }
{
    let places = places(&dump.material, dump.kind);
    'subs: for s in 0..places.len().min(count_subs(dump)) {
        put_sub(form, dump, s, places[s], output, text)?;
    }
    Ok(())
}

// ---- the lines before the subtables

/// Writes a part's line.
fn put_part<W: Output>(number: u8, part: &PartBytes, output: &mut W, text: &mut DumpText) -> Written
    requires { number < 4 }
    ensures { Writing (lines_text (part_lines number (part_of part.now))) text.old text.new W.Output output.old output.new result }
{
    put(b"part ", output, text)?;
    put(&[b'a' + number], output, text)?;
    put(b" order ", output, text)?;
    put_hex(&part.order, output, text)?;
    put(b" men ", output, text)?;
    put_hex(&part.men, output, text)?;
    put(b"\n", output, text)
}

/// Writes the parts.
pub(crate) fn put_parts<W: Output>(
    material: &Material,
    parts: &[PartBytes],
    output: &mut W,
    text: &mut DumpText,
) -> Written
    ensures { Writing (lines_text (flat_map_beside part_lines (part_numbers material.now) (map part_of parts.now))) text.old text.new W.Output output.old output.new result }
{
    'parts: for number in 0..usize::from(part_count(material)).min(parts.len()) {
        put_part(number as u8, &parts[number], output, text)?;
    }
    Ok(())
}

/// Writes form, name, kind and the last bytes.
pub(crate) fn put_front<W: Output>(
    form: u8,
    material: &Material,
    kind: Kind,
    last: &[u8; 16],
    output: &mut W,
    text: &mut DumpText,
) -> Written
    requires { (form ≡ 1) ⊎ (form ≡ 2) }
    ensures { Writing (lines_text (front_lines (form_of form) material.now kind last.now)) text.old text.new W.Output output.old output.new result }
{
    put_number(b"szg-dump ", u64::from(form), output, text)?;
    let name = material.name();
    put_word(b"name ", name.as_str().as_bytes(), output, text)?;
    put_word(b"kind ", kind_bytes(kind), output, text)?;
    put(b"end ", output, text)?;
    put_hex(last, output, text)?;
    put(b"\n", output, text)
}

/// Returns the word of a kind.
fn kind_bytes(kind: Kind) -> &'static [u8]
    ensures word { result.now ≡ kind_word kind }
    ensures short { length result.now ≡ 3 }
{
    match kind {
        Kind::Wdl => b"wdl",
        Kind::Dtz => b"dtz",
    }
}

// ---- the whole text

/// Writes a dump, and then the bytes that are still buffered.
fn put_dump<W: Output>(form: u8, dump: &Dump, output: &mut W, text: &mut DumpText) -> Written
    requires { (form ≡ 1) ⊎ (form ≡ 2) }
    ensures text { Writing (dump_text (form_of form) (dump_seen dump.now)) text.old text.new W.Output output.old output.new result }
    ensures held { OnOk result (text.new.held.items ≡ []) }
{
    put_front(form, &dump.material, dump.kind, &dump.last, output, text)?;
    put_parts(&dump.material, &dump.parts, output, text)?;
    put_subs(form, dump, output, text)?;
    flush(output, text)
}

/// Writes the text of a dump: in form 1 a line for each value, in form 2 a line for each maximal run of equal values.
/// If a DTZ dump has fewer flags or maps than lists, the last subtables are not written. Allocates nothing. Errors: the
/// writer failed; the fault has the number of bytes of the text that were written, saturated at the greatest 64-bit
/// value.
pub fn write_dump<W: Output>(dump: &Dump, form: u8, output: &mut W) -> Result<(), WriteFault>
    requires { (form ≡ 1) ⊎ (form ≡ 2) }
    ensures ok { OnOk result (Gives W.Output output.old output.new (dump_text (form_of form) (dump_seen dump.now)) 0) }
    ensures err { IfErr result (λ fault. (out : ℕ) × (out < length (dump_text (form_of form) (dump_seen dump.now))) × (fault.out ≡ min out (2 ^ 64 - 1))
        × Gives W.Output output.old output.new (take out (dump_text (form_of form) (dump_seen dump.now))) 1) }
    ensures failed { OnErr result (HasFailed (W.failures output.old) (W.failures output.new) (W.interrupted output.new)) }
    ensures quiet { OnOk result (W.failures output.new ≡ W.failures output.old) }
{
    let mut text = DumpText::new();
    put_dump(form, dump, output, &mut text)
}
