//! Tables assembled from their fields, unchanged and with a fault.

use crate::files::{accepted, check_written, made, push, table_of};
use std::alloc::{AllocError, Global};
use std::process::Abort;
use szg_block::Sub;
use szg_code::Code;
use szg_file::{Fields, Map, PartBytes, Table};
use szg_fixtures::Fixture;
use szg_pairs::Dict;

fn copy_of_list<T: Copy>(rt: &(impl Abort + Alloc<A = Global>), list: &[T]) -> Vec<T> {
    made(rt, Vec::from_slice(rt.alloc(), list))
}

fn copy_of_code(rt: &(impl Abort + Alloc<A = Global>), code: &Code) -> Code {
    let lowest = copy_of_list(rt, code.lowest());
    made(
        rt,
        Code::new(code.min(), code.max(), lowest, code.symbols()),
    )
}

fn entries_of(alloc: Global, dict: &Dict) -> Result<Vec<[u8; 3]>, AllocError> {
    let mut entries = Vec::new(alloc);
    for symbol in 0..dict.symbols() {
        entries.push(dict.entry(symbol))?;
    }
    Ok(entries)
}

fn copy_of_dict(rt: &(impl Abort + Alloc<A = Global>), dict: &Dict) -> Dict {
    let entries = made(rt, entries_of(rt.alloc(), dict));
    assert!(rt; entries.len() <= 65535);
    made(rt, Dict::new(rt.alloc(), entries))
}

fn copy_of_sub(rt: &(impl Abort + Alloc<A = Global>), sub: &Sub) -> Sub {
    match sub {
        Sub::Constant { flags, byte } => Sub::Constant {
            flags: *flags,
            byte: *byte,
        },
        Sub::Pairs {
            flags,
            block_bits,
            span_bits,
            extra,
            blocks,
            code,
            dict,
            sparse,
            lengths,
            packed,
        } => Sub::Pairs {
            flags: *flags,
            block_bits: *block_bits,
            span_bits: *span_bits,
            extra: *extra,
            blocks: *blocks,
            code: copy_of_code(rt, code),
            dict: copy_of_dict(rt, dict),
            sparse: copy_of_list(rt, sparse),
            lengths: copy_of_list(rt, lengths),
            packed: copy_of_list(rt, packed),
        },
    }
}

fn copy_of_part(rt: &(impl Abort + Alloc<A = Global>), part: &PartBytes) -> PartBytes {
    PartBytes {
        order: copy_of_list(rt, &part.order),
        men: copy_of_list(rt, &part.men),
    }
}

fn copies_of_parts(rt: &(impl Abort + Alloc<A = Global>), parts: &[PartBytes]) -> Vec<PartBytes> {
    let mut copies = Vec::new(rt.alloc());
    for part in parts {
        push(rt, &mut copies, copy_of_part(rt, part));
    }
    copies
}

fn copies_of_lists<T: Copy>(
    rt: &(impl Abort + Alloc<A = Global>),
    [a, b, c, d]: &[Vec<T>; 4],
) -> [Vec<T>; 4] {
    [
        copy_of_list(rt, a),
        copy_of_list(rt, b),
        copy_of_list(rt, c),
        copy_of_list(rt, d),
    ]
}

fn copy_of_map(rt: &(impl Abort + Alloc<A = Global>), map: &Map) -> Map {
    match map {
        Map::Bytes(lists) => Map::Bytes(copies_of_lists(rt, lists)),
        Map::Wide(lists) => Map::Wide(copies_of_lists(rt, lists)),
    }
}

/// A copy of a part's map, if it has one.
fn copy_of_item(rt: &(impl Abort + Alloc<A = Global>), item: &Option<Map>) -> Option<Map> {
    match item {
        Some(map) => Some(copy_of_map(rt, map)),
        None => None,
    }
}

fn copies_of_maps(rt: &(impl Abort + Alloc<A = Global>), maps: &[Option<Map>]) -> Vec<Option<Map>> {
    let mut copies = Vec::new(rt.alloc());
    for item in maps {
        push(rt, &mut copies, copy_of_item(rt, item));
    }
    copies
}

/// Copies of the subtables of a table, in file order.
fn copies_of_subs(rt: &(impl Abort + Alloc<A = Global>), table: &Table) -> Vec<Sub> {
    let mut copies = Vec::new(rt.alloc());
    for place in 0..8u8 {
        if let Some(sub) = table.sub(place / 2, place % 2) {
            push(rt, &mut copies, copy_of_sub(rt, sub));
        }
    }
    copies
}

/// The contents of a table, field by field.
fn fields_of(rt: &(impl Abort + Alloc<A = Global>), table: &Table) -> Fields {
    Fields {
        material: table.material().copy(),
        kind: table.kind(),
        byte4: table.byte4(),
        parts: copies_of_parts(rt, table.parts()),
        subs: copies_of_subs(rt, table),
        maps: copies_of_maps(rt, table.maps()),
        fill: copy_of_list(rt, table.fill()),
        last: *table.last(),
    }
}

/// The fields of a file's table need exactly its padding bytes, and the table assembled from them is written as the
/// file.
fn check_put_together(rt: &(impl Abort + Alloc<A = Global>), file: &Fixture) {
    let fields = fields_of(rt, &accepted(rt, file, &[]));
    assert!(rt; fields.fill_asked() == fields.fill.len() as u64);
    assert!(rt; fields.passes());
    check_written(rt, &Table::assemble(fields), &file.bytes);
}

#[test]
fn tables_are_put_together(rt: HostRuntime) {
    for file in &made(&rt, szg_fixtures::of_all_sections(rt.alloc())) {
        check_put_together(&rt, file);
    }
    check_put_together(&rt, &made(&rt, szg_fixtures::kqvk_dtz_packed(rt.alloc())));
    check_put_together(
        &rt,
        &made(&rt, szg_fixtures::kpvkp_wdl_constant(rt.alloc())),
    );
}

/// Fields that pass still pass with other values of the unused bits of byte 4 and of the padding bytes.
fn check_faults(rt: &impl Abort, mut fields: Fields) {
    assert!(rt; fields.passes());
    fields.byte4 = 0x80;
    assert!(rt; !fields.passes());
    fields.byte4 = 0x81;
    if let Some(last) = fields.fill.last_mut() {
        *last = 0xa5;
    }
    assert!(rt; fields.passes());
    fields.fill.pop();
    assert!(rt; !fields.passes() && fields.fill_asked() == fields.fill.len() as u64 + 1);
}

#[test]
fn faults_of_fields(rt: HostRuntime) {
    let table = table_of(&rt, szg_fixtures::kqvk_wdl_paired(rt.alloc()));
    check_faults(&rt, fields_of(&rt, &table));
}
