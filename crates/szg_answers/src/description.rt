ghost use Rattle.std.specs.Prelude.{◌≡◌, ◌+◌, ℕ, List, ◌++◌, IfOk, length, string_bytes};
ghost use Rattle.szg_file.specs.Held.{file_bytes};
ghost use Rattle.szg_answers.specs.Answers.{front_lines};

use crate::placements::part_letter;
use std::alloc::{AllocError, Global};
use szg_block::Sub;
use szg_file::{FrontTable, Map, Slot, Table, TableIndex, constant_value, file_len};
use szg_values::{Kind, Material};

/// What `show` prints of a table: all that it holds but its values, a line each.
pub(crate) fn table_description(alloc: Global, table: &Table) -> Result<String, AllocError>
    ensures { IfOk result (λ text. (rest : List ℕ) × (string_bytes text ≡ front_lines table.now.contents.material table.now.contents.kind (length (file_bytes table.now)) ++ rest)) }
{
    let index = table.index();
    let mut subs = Vec::new(alloc);
    'slots: for slot in index.slots() {
        if let Some(sub) = table.sub(slot.part, slot.side) {
            subs.push(sub)?;
        }
    }
    let front = front_lines(alloc, table.material(), table.kind(), file_len(table))?;
    let rest = other_lines(alloc, index, table.byte4(), &subs, table.last().as_slice())?;
    format!(in alloc; "{front}{rest}")
}

/// What `show` prints of a table that was opened by its front; `last` are the last bytes of its file.
pub(crate) fn front_description(
    alloc: Global,
    table: &FrontTable,
    last: &[u8],
) -> Result<String, AllocError>
    ensures { IfOk result (λ text. (rest : List ℕ) × (string_bytes text ≡ front_lines table.now.index.material table.now.index.kind (table.now.ending + 16) ++ rest)) }
{
    let mut subs = Vec::new(alloc);
    'subtables: for placed in table.subs() {
        subs.push(&placed.sub)?;
    }
    let index = table.index();
    let length = table.ending() + 16;
    let front = front_lines(alloc, index.material(), index.kind(), length)?;
    let rest = other_lines(alloc, index, table.byte4(), &subs, last)?;
    format!(in alloc; "{front}{rest}")
}

/// A table's name, its kind and its file's length, a line each.
fn front_lines(
    alloc: Global,
    material: &Material,
    kind: Kind,
    length: u64,
) -> Result<String, AllocError>
    ensures { IfOk result (λ text. string_bytes text ≡ front_lines material.now kind length) }
{
    let name = material.name();
    let name = name.as_str();
    let kind = match kind {
        Kind::Wdl => "wdl",
        Kind::Dtz => "dtz",
    };
    format!(in alloc; "name {name}\nkind {kind}\nbytes {length}\n")
}

/// The lines after the file's length; the subtables are in file order, `last` are the file's last sixteen bytes.
fn other_lines(
    alloc: Global,
    index: &TableIndex,
    byte4: u8,
    subs: &[&Sub],
    last: &[u8],
) -> Result<String, AllocError> {
    let mut text = String::new(alloc);
    writeln!(text, "flags {byte4}")?;
    let letters = ["a", "b", "c", "d"];
    'parts: for (part, letter) in index.parts().iter().zip(letters.iter()) {
        let order = hex::encode(alloc, part.order.as_slice())?;
        let men = hex::encode(alloc, part.men.as_slice())?;
        writeln!(text, "part {letter} order {order} men {men}")?;
    }
    // a map comes after its part's first subtable
    'subtables: for (slot, sub) in index.slots().iter().zip(subs.iter()) {
        add_subtable(index.kind(), slot, sub, &mut text)?;
        if slot.side == 0 {
            add_map(index.maps(), slot.part, &mut text)?;
        }
    }
    writeln!(text, "end {}", hex::encode(alloc, last)?)?;
    Ok(text)
}

/// A subtable's line.
fn add_subtable(kind: Kind, slot: &Slot, sub: &Sub, text: &mut String) -> Result<(), AllocError> {
    let Slot { part, side, size } = *slot;
    let letter = part_letter(part);
    match sub {
        Sub::Constant { flags, .. } => {
            let value = constant_value(kind, sub);
            writeln!(text, "sub {letter} {side} flags {flags} constant {value}")
        }
        Sub::Pairs {
            flags,
            block_bits: block,
            span_bits: span,
            extra,
            blocks,
            code,
            dict,
            ..
        } => {
            let (min, max, symbols) = (code.min(), code.max(), dict.symbols());
            writeln!(
                text,
                "sub {letter} {side} flags {flags} size {size} block {block} span {span} extra {extra} blocks {blocks} min {min} max {max} symbols {symbols}"
            )
        }
    }
}

/// A mapped part's line: how many items each list has.
fn add_map(maps: &[Option<Map>], part: u8, text: &mut String) -> Result<(), AllocError> {
    let Some(Some(lists)) = maps.get(part as usize) else {
        return Ok(());
    };
    let [wins, losses, cursed, blessed] = match lists {
        Map::Bytes([a, b, c, d]) => [a.len(), b.len(), c.len(), d.len()],
        Map::Wide([a, b, c, d]) => [a.len(), b.len(), c.len(), d.len()],
    };
    let letter = part_letter(part);
    writeln!(text, "map {letter} {wins} {losses} {cursed} {blessed}")
}
