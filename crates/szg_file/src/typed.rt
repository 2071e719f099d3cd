//! Steps for proofs alone: what the types of values imply, a function a type. They allocate nothing and change nothing.
ghost use Rattle.std.specs.Prelude.{◌≡◌, ◌≤◌, ◌<◌, ◌^◌, length, map};
ghost use Rattle.std.specs.List.{AllByRecursion};
ghost use Rattle.szg_code.specs.Acceptance.{IsCode};
ghost use Rattle.szg_file.specs.Accepted.{AreNumbers, AreBytes, IsAccepted, IsEntry};
ghost use Rattle.szg_file.specs.Assembled.{IsTyped};
ghost use Rattle.szg_file.specs.Held.{sparse_of, subtable_of};

use crate::reading::parts::Parts;
use crate::table::Table;
use szg_block::{Entry, Sub};
use szg_code::Code;
use szg_pairs::Dict;

/// Bytes are below 256.
pub fn bytes_fit(list: &[u8])
    ensures { AreNumbers 1 list.now }
{}

/// Two-byte numbers are below 2^16.
pub fn words_fit(list: &[u16])
    ensures { AreNumbers 2 list.now }
{}

/// Block and offset of an entry of a sparse index fit their types.
fn entry_fits(block: u32, offset: u16)
    ensures block { block < 2 ^ 32 }
    ensures offset { offset < 2 ^ 16 }
{}

/// The entries of a sparse index fit their types.
fn sparse_fits(sparse: &[Entry])
    ensures { AllByRecursion IsEntry (map sparse_of sparse.now) }
{
    'entries: for entry in sparse {
        entry_fits(entry.block, entry.offset);
    }
}

/// The entries of a dictionary have three bytes each.
fn entries_fit(dict: &Dict)
    ensures { AllByRecursion (AreBytes 3) dict.now }
{
    'symbols: for symbol in 0..dict.symbols() {
        let entry = dict.entry(symbol);
        bytes_fit(&entry);
    }
}

/// The numbers of a subtable fit their types, and its code and its dictionary are accepted.
pub fn sub_fits(sub: &Sub)
    ensures { IsTyped (subtable_of sub.now) }
{
    match sub {
        Sub::Constant { flags, byte } => {
            let _numbers = (*flags, *byte);
        }
        Sub::Pairs {
            flags,
            extra,
            blocks,
            code,
            dict,
            sparse,
            lengths,
            packed,
            ..
        } => {
            let _numbers = (*flags, *extra, *blocks);
            code_fits(code);
            let _symbols = dict.symbols();
            words_fit(code.lowest());
            entries_fit(dict);
            sparse_fits(sparse);
            words_fit(lengths);
            bytes_fit(packed);
        }
    }
}

/// Returns the last sixteen bytes unchanged: they and byte 4 are below 256.
pub fn end_bytes(byte4: u8, last: &[u8; 16]) -> [u8; 16]
    ensures byte4 { byte4 < 256 }
    ensures last { result ≡ last.now }
    ensures bytes { AreBytes 16 last.now }
{
    bytes_fit(last);
    *last
}

/// A table is an accepted one: it passes every check of the format.
pub fn table_fits(table: &Table)
    ensures { IsAccepted table.now.contents table.now.filled }
{
    let _fill = table.fill();
}

/// A code is accepted: none of its words begins another.
pub(crate) fn code_fits(code: &Code)
    ensures { IsCode code.now }
{
    let _symbols = code.symbols();
}

/// A table has at most eight slots.
pub(crate) fn parts_fit(parts: &Parts)
    ensures { length parts.now.slots.items ≤ 8 }
{
    let _slots = parts.slots.as_slice();
}
