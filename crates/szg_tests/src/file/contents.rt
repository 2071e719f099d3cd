//! The contents of tables, and look-ups in them.

use crate::files::{accepted, made, table_of};
use std::alloc::{AllocError, Global};
use std::process::Abort;
use szg_block::Sub;
use szg_file::{Map, MapFault, PartBytes, Table};
use szg_fixtures::Fixture;
use szg_values::Kind;

/// A value, if the table has it.
fn value(table: &Table, part: u8, side: u8, i: u64) -> Option<u16> {
    match table.size(part, side) {
        Some(size) if i < size => Some(table.get(part, side, i)),
        _ => None,
    }
}

/// The distance of a value in a class, if the table is DTZ and has the part.
fn number(table: &Table, part: u8, class: i8, v: u16) -> Option<Result<u32, MapFault>> {
    if class < -2 || class > 2 {
        return None;
    }
    match (table.kind(), table.size(part, 0)) {
        (Kind::Dtz, Some(_)) => Some(table.map_value(part, class, v)),
        _ => None,
    }
}

#[test]
fn pawns_on_both_sides(rt: HostRuntime) {
    let file = made(&rt, szg_fixtures::kpvkp_wdl_constant(rt.alloc()));
    assert!(rt; file.bytes.len() == 80);
    let table = accepted(&rt, &file, &[]);
    for part in 0..4 {
        assert!(rt; value(&table, part, 0, 0) == Some(2) && table.size(part, 1) == None);
    }
}

#[test]
fn packed_distances(rt: HostRuntime) {
    let file = made(&rt, szg_fixtures::kqvk_dtz_packed(rt.alloc()));
    assert!(rt; file.bytes.len() == 4304);
    let table = accepted(&rt, &file, &[]);
    assert_eq!(rt; table.size(0, 0), Some(31332));
    for i in [0, 255, 31331] {
        assert!(rt; value(&table, 0, 0, i) == Some(3), "at {i}");
    }
}

#[test]
fn two_packed_sides(rt: HostRuntime) {
    let file = made(&rt, szg_fixtures::kqvk_wdl_both_sides(rt.alloc()));
    assert!(rt; file.bytes.len() == 8528);
    let table = accepted(&rt, &file, &[]);
    for side in 0..2 {
        assert!(rt; value(&table, 0, side, 31330) == Some(2));
        assert!(rt; value(&table, 0, side, 31331) == Some(4));
    }
}

/// The value of a part's side at index `i` is `want`.
fn check_value(rt: &impl Abort, table: &Table, (part, side, i): (u8, u8, u64), want: Option<u16>) {
    let found = value(table, part, side, i);
    assert!(rt; found == want, "{part} {side} at {i}");
}

/// Side 0 has the values 2, 4, 2, 4 ..; each value of side 1 is 2.
fn check_queen(rt: &impl Abort, table: &Table) {
    for k in 0..4476 {
        let i = 7 * k;
        let want = if i % 2 == 0 { 2 } else { 4 };
        assert!(rt; value(table, 0, 0, i) == Some(want), "at {i}");
    }
    check_value(rt, table, (0, 0, 0), Some(2));
    check_value(rt, table, (0, 0, 255), Some(4));
    check_value(rt, table, (0, 0, 31331), Some(4));
    check_value(rt, table, (0, 0, 31332), None);
    check_value(rt, table, (0, 1, 31331), Some(2));
    check_value(rt, table, (1, 0, 0), None);
}

/// The table has `parts` parts, with two sides of `size` positions each.
fn check_sizes(
    rt: &(impl Abort + Alloc<A = Global>),
    file: Result<Fixture, AllocError>,
    parts: u8,
    size: u64,
) {
    let table = table_of(rt, file);
    for part in 0..parts {
        let sizes = (table.size(part, 0), table.size(part, 1));
        assert!(rt; sizes == (Some(size), Some(size)), "part {part}");
    }
    assert!(rt; table.size(0, 2) == None && table.size(parts, 0) == None);
}

#[test]
fn sizes_of_sides(rt: HostRuntime) {
    check_sizes(&rt, szg_fixtures::knvk_wdl_constant(rt.alloc()), 1, 31332);
    check_sizes(&rt, szg_fixtures::kpvk_wdl_constant(rt.alloc()), 4, 23436);
    let six = szg_fixtures::kqrbvkn_wdl_constant(rt.alloc());
    check_sizes(&rt, six, 1, 6765832080);
}

#[test]
fn values_of_constant_sides(rt: HostRuntime) {
    let table = table_of(&rt, szg_fixtures::knvk_wdl_constant(rt.alloc()));
    for side in 0..2 {
        assert!(rt; value(&table, 0, side, 31331) == Some(2));
        assert!(rt;
            matches!(
                table.sub(0, side),
                Some(Sub::Constant {
                    flags: 128,
                    byte: 2
                })
            )
        );
    }
}

#[test]
fn values_of_pairs(rt: HostRuntime) {
    let table = table_of(&rt, szg_fixtures::kqvk_wdl_paired(rt.alloc()));
    check_queen(&rt, &table);
}

/// A last length that no value needs, extra lengths, and entries of the sparse index that locate them.
#[test]
fn values_under_other_lengths(rt: HostRuntime) {
    let file = made(&rt, szg_fixtures::kqvk_wdl_unpaired(rt.alloc()));
    let needless = [(282, 0xff), (283, 0xff), (32, 0x7a), (36, 0x00), (37, 0x06)];
    let small_extra = [(284, 0), (285, 0)];
    let beyond = [(284, 0), (285, 0), (32, 0x7c), (36, 0x9b)];
    for changes in [&[][..], &needless[..], &small_extra[..], &beyond[..]] {
        check_queen(&rt, &accepted(&rt, &file, changes));
    }
}

/// Whether the table has the name, kind, byte 4, padding bytes and last bytes of its file.
fn has_ends(table: &Table, name: &str) -> bool {
    table.material().name().as_str() == name
        && table.kind() == Kind::Dtz
        && table.byte4() == 3
        && table.fill().len() == 20
        && table.last()[15] == 15
}

/// Whether each part has these bytes.
fn has_parts(parts: &[PartBytes], order: &[u8], men: &[u8]) -> bool {
    for part in parts {
        if part.order.as_slice() != order || part.men.as_slice() != men {
            return false;
        }
    }
    true
}

/// Whether a part's subtable is constant with these flags, and its value is 0.
fn is_zero(table: &Table, part: u8, want: u8) -> bool {
    let Some(Sub::Constant { flags, byte: 0 }) = table.sub(part, 0) else {
        return false;
    };
    *flags == want && value(table, part, 0, 0) == Some(0)
}

#[test]
fn contents_of_a_file_of_distances(rt: HostRuntime) {
    let table = table_of(&rt, szg_fixtures::kpvk_dtz_mapped(rt.alloc()));
    assert!(rt; has_ends(&table, "KPvK") && table.parts().len() == 4);
    assert!(rt; has_parts(table.parts(), &[0], &[1, 6, 14]));
    assert!(rt;
        matches!(
            table.maps(),
            [Some(Map::Bytes(_)), Some(Map::Wide(_)), None, None]
        )
    );
    for (part, flags) in [(0, 130), (1, 146), (2, 128), (3, 128)] {
        assert!(rt; is_zero(&table, part, flags), "part {part}");
    }
}

/// The distance of a value in a class is `want`.
fn check_number(
    rt: &impl Abort,
    table: &Table,
    (part, class, v): (u8, i8, u16),
    want: Result<u32, MapFault>,
) {
    let found = number(table, part, class, v);
    assert!(rt; found == Some(want), "part {part} class {class}");
}

#[test]
fn distances_of_values(rt: HostRuntime) {
    let table = table_of(&rt, szg_fixtures::kpvk_dtz_mapped(rt.alloc()));
    check_number(&rt, &table, (0, 2, 0), Ok(14));
    check_number(&rt, &table, (1, 2, 0), Ok(600));
    check_number(&rt, &table, (2, 2, 0), Ok(0));
    check_number(&rt, &table, (2, -2, 5), Ok(10));
    check_number(&rt, &table, (0, -1, 0), Err(MapFault::OutsideMap));
    check_number(&rt, &table, (0, 0, 0), Err(MapFault::Draw));
}

#[test]
fn distances_of_losses(rt: HostRuntime) {
    for (flags, want) in [(0x82, 18), (0x8a, 9)] {
        let table = table_of(&rt, szg_fixtures::kpvk_dtz_losses(rt.alloc(), flags));
        assert!(rt; number(&table, 0, -2, 1) == Some(Ok(want)));
        assert!(rt; number(&table, 0, -2, 2) == Some(Err(MapFault::OutsideMap)));
    }
}
