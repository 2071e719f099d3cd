//! The classes of the positions of many texts.
ghost use Rattle.std.specs.Prelude.{◌≡◌, ◌<◌, IfSome, length, position};
ghost use Rattle.std.specs.List.{after_first, before_first};
ghost use Rattle.szg_c.specs.FenLines.{AreProbed, IsProbed, is_line_feed};
ghost use Rattle.szg_c.specs.Tablebases.{files_of};

use crate::handle::{put, take};
use crate::held_tablebase::HeldTablebase;
use crate::tablebase_calls::{RawMissing, class_in};
use std::alloc::Global;
use szg_c_positions::said_by;
use szg_c_positions::status::{DONE, NO_RESULT};
use szg_tables::MappedSet;

/// Probes the classes of many positions, from the tables of a tablebase: each line of a text is a position's in Forsyth-Edwards
/// Notation, with a line feed between two lines. Writes for each of the first lines, as many as the list has items, the class, or
/// `NO_RESULT`. Lines that are not there are empty. Returns the first status other than `DONE` that `szg_read_fen` or
/// `szg_tablebase_wdl` has for a line; else `DONE`.
#[unsafe(no_mangle)]
pub extern "C" fn szg_tablebase_wdl_of_fens(
    alloc: Global,
    tablebase: &mut HeldTablebase,
    fens: &[u8],
    classes: &mut [i8],
) -> u32
    ensures kept { tablebase.new.value ≡ tablebase.old.value }
    ensures probed { AreProbed (files_of tablebase.old.value) fens.now classes.new (length classes.old) result }
{
    let Some(mut held) = take(tablebase, alloc) else {
        return classes_in(&mut MappedSet::of(Vec::new(alloc)), fens, classes);
    };
    let status = classes_in(&mut held, fens, classes);
    put(tablebase, held);
    status
}

/// Writes the classes of the first lines' positions by a set of tables, or `NO_RESULT`; returns the first status other than
/// `DONE`.
fn classes_in(set: &mut MappedSet<'_>, fens: &[u8], classes: &mut [i8]) -> u32
    ensures kept { set.new ≡ set.old }
    ensures probed { AreProbed set.old fens.now classes.new (length classes.old) result }
{
    let mut first = DONE;
    let mut rest = fens;
    for i in 0..classes.len() {
        let (line, after) = first_line(rest);
        let status = class_of_line(set, line, &mut classes[i]);
        if first == DONE {
            first = status;
        }
        rest = after;
    }
    first
}

/// Writes the class of the position that a line names by a set of tables, or `NO_RESULT`; returns the status.
fn class_of_line(set: &mut MappedSet<'_>, line: &[u8], class: &mut i8) -> u32
    ensures kept { set.new ≡ set.old }
    ensures probed { IsProbed set.old line.now result class.new }
{
    *class = NO_RESULT;
    let said = match said_by(line) {
        Ok(said) => said,
        Err(status) => return status,
    };
    class_in(set, &said.position, class, &mut RawMissing::default())
}

/// Returns the first line of a text, and the text behind its line feed.
fn first_line(text: &[u8]) -> (&[u8], &[u8])
    ensures line { result.0.now ≡ before_first is_line_feed text.now }
    ensures after { result.1.now ≡ after_first is_line_feed text.now }
{
    match line_feed(text) {
        Some(place) => (&text[..place], &text[place + 1..]),
        None => (text, &[]),
    }
}

/// Returns the place of the first line feed. None if there is none.
fn line_feed(text: &[u8]) -> Option<usize>
    ensures place { result ≡ position is_line_feed text.now }
    ensures inside { IfSome result (λ place. place < length text.now) }
{
    text.iter().position(|byte| *byte == b'\n')
}
