//! Parses the lines of a dump.
ghost use Rattle.std.specs.Prelude.{◌≤◌, ◌<◌, [], List, length, IfOk};
ghost use Rattle.szg_build.specs.Fronts.{IsFront, lines_after, sub_line};
ghost use Rattle.szg_build.specs.Grammar.{Word, version_line, name_line, kind_line, end_line, part_line, number_line, run_line};
ghost use Rattle.szg_build.specs.Lines.{words_of};
ghost use Rattle.szg_build.specs.Reading.{IsParsed};
ghost use Rattle.szg_build.specs.Shown.{form_of};

use crate::dump::DumpFault;
use crate::reading::word::{hex_bytes, number_of, one_word, two_words};
use arrayvec::ArrayVec;
use szg_values::{Kind, Material};

/// The greatest number of values, or of items of a map's list.
pub(crate) const GREATEST_COUNT: u64 = 0x7fff_ffff_ffff_ffff;

/// The greatest value or item.
pub(crate) const GREATEST_ITEM: u64 = 65535;

/// Parses the line of the form.
pub(crate) fn parse_form(text: &[u8]) -> Result<u8, DumpFault>
    ensures { IsParsed (lines_after version_line (words_of text.now)) form_of result }
{
    let word = one_word(b"szg-dump ", text)?;
    if word == b"1".as_slice() {
        return Ok(1);
    }
    if word == b"2".as_slice() {
        return Ok(2);
    }
    Err(DumpFault::Version)
}

/// Parses the line of the name.
pub(crate) fn parse_material(text: &[u8]) -> Result<Material, DumpFault>
    ensures { IsParsed (lines_after name_line (words_of text.now)) (λ material. material) result }
{
    let word = one_word(b"name ", text)?;
    let Ok(name) = str::from_utf8(word) else {
        return Err(DumpFault::Name);
    };
    match Material::parse(name) {
        Ok(material) => Ok(material),
        Err(_fault) => Err(DumpFault::Name),
    }
}

/// Parses the line of the kind.
pub(crate) fn parse_kind(text: &[u8]) -> Result<Kind, DumpFault>
    ensures { IsParsed (lines_after kind_line (words_of text.now)) (λ kind. kind) result }
{
    let word = one_word(b"kind ", text)?;
    if word == b"wdl".as_slice() {
        return Ok(Kind::Wdl);
    }
    if word == b"dtz".as_slice() {
        return Ok(Kind::Dtz);
    }
    Err(DumpFault::Field)
}

/// Parses the line of the last sixteen bytes.
pub(crate) fn parse_last_bytes(text: &[u8]) -> Result<[u8; 16], DumpFault>
    requires { length text.now ≤ 80 }
    ensures { IsParsed (lines_after end_line (words_of text.now)) (λ bytes. bytes) result }
{
    let word = one_word(b"end ", text)?;
    let bytes = hex_bytes(word)?;
    if bytes.len() != 16 {
        return Err(DumpFault::Hex);
    }
    let mut last = [0; 16];
    last.copy_from_slice(&bytes);
    Ok(last)
}

/// Parses a line of one number, at most `limit`, after the fixed words `front`.
pub(crate) fn parse_number_line(front: &[u8], limit: u64, text: &[u8]) -> Result<u64, DumpFault>
    ensures within { IfOk result (λ number. number ≤ limit) }
    ensures number { (pattern : List Word) → IsFront pattern front.now → IsParsed (lines_after (number_line pattern limit) (words_of text.now)) (λ n. n) result }
{
    let word = one_word(front, text)?;
    number_of(word, limit)
}

/// Checks that a line names this subtable.
pub(crate) fn check_subtable_line(place: (u8, u8), text: &[u8]) -> Result<(), DumpFault>
    requires part { place.0 < 4 }
    requires side { place.1 < 2 }
    ensures { IsParsed (lines_after (sub_line place) (words_of text.now)) (λ _. []) result }
{
    let line = [b's', b'u', b'b', b' ', b'a' + place.0, b' ', b'0' + place.1];
    if text == line.as_slice() {
        Ok(())
    } else {
        Err(DumpFault::Field)
    }
}

/// Parses the line of a part: its order bytes and its man bytes.
pub(crate) fn parse_part(
    number: u8,
    text: &[u8],
) -> Result<(ArrayVec<u8, 40>, ArrayVec<u8, 40>), DumpFault>
    requires number { number < 4 }
    requires short { length text.now ≤ 80 }
    ensures { IsParsed (lines_after (part_line number) (words_of text.now)) (λ part. record { order = part.0.items; men = part.1.items }) result }
{
    let mut front = *b"part a order ";
    front[5] = b'a' + number;
    let (order_word, men_word) = two_words(&front, b"men ", text)?;
    let order = hex_bytes(order_word)?;
    let men = hex_bytes(men_word)?;
    Ok((order, men))
}

/// Parses the line of a run: its length, at most `left`, and its value.
pub(crate) fn parse_run(left: u64, text: &[u8]) -> Result<(u64, u16), DumpFault>
    ensures run { IsParsed (lines_after (run_line left) (words_of text.now)) (λ run. run) result }
    ensures some { IfOk result (λ run. 0 < run.0) }
    ensures within { IfOk result (λ run. run.0 ≤ left) }
    ensures long { IfOk result (λ _run. 3 ≤ length text.now) }
{
    let (count_word, value_word) = two_words(b"", b"", text)?;
    let count = number_of(count_word, GREATEST_COUNT)?;
    if count == 0 {
        return Err(DumpFault::Number);
    }
    let value = number_of(value_word, GREATEST_ITEM)?;
    if count > left {
        return Err(DumpFault::Run);
    }
    Ok((count, value as u16))
}
