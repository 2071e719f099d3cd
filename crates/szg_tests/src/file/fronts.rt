//! Tables opened by their front from a reader, and values in blocks that the caller brings.

use crate::files::{accepted, made, material};
use std::alloc::Global;
use std::process::Abort;
use szg_file::{FetchFault, FrontTable, ReadFault, Reason, Table, open_front};
use szg_fixtures::Fixture;
use szg_io::{Bytes, Cut};
use szg_mapped::{Passed, TableInPlace, open_in_place};

/// Opens a file of `size` bytes by its front, three bytes at a time; returns the number of bytes read, too.
fn front_of(
    rt: &(impl Abort + Alloc<A = Global>),
    file: &Fixture,
    size: u64,
) -> Result<(FrontTable, u64), ReadFault> {
    let mut input = Cut::new(Bytes::new(&file.bytes), 3, 1, 0);
    open_front(rt.alloc(), material(rt, file), file.kind, size, &mut input)
}

/// The size of a file.
fn size_of(file: &Fixture) -> u64 {
    file.bytes.len() as u64
}

/// Value `i` of a side, decoded from the block of the file that it needs.
fn value_in(front: &FrontTable, bytes: &[u8], side: u8, i: u64) -> Option<Result<u16, FetchFault>> {
    let size = front.index().size(0, side)?;
    if i >= size {
        return None;
    }
    let by_file = front.get(bytes, 0, side, i);
    let located = front.locate(0, side, i);
    let block = match located.range() {
        Some(range) => bytes
            .get(range.offset as usize..)?
            .get(..range.count as usize)?,
        None => &[],
    };
    let value = located.decode(block);
    // the file's bytes as a whole give the same
    if by_file != value {
        return None;
    }
    Some(value)
}

/// Value `i` of a side of a table in memory.
fn value_of(table: &Table, side: u8, i: u64) -> Option<u16> {
    match table.size(0, side) {
        Some(size) if i < size => Some(table.get(0, side, i)),
        _ => None,
    }
}

/// The values from `from` up to `to` of both sides are those of the table in memory.
fn check_values(
    rt: &impl Abort,
    front: &FrontTable,
    table: &Table,
    bytes: &[u8],
    from: u64,
    to: u64,
) {
    for i in from..to {
        for side in [0, 1] {
            match (value_in(front, bytes, side, i), value_of(table, side, i)) {
                (None, None) => {}
                (Some(Ok(found)), Some(right)) => assert_eq!(rt; found, right, "at {i}"),
                _ => panic!(rt; "value {i} is not found"),
            }
        }
    }
}

/// Of each fixture the first thousand values and the last ones.
#[test]
fn values_by_a_front(rt: HostRuntime) {
    for file in &made(&rt, szg_fixtures::of_all_sections(rt.alloc())) {
        let table = accepted(&rt, file, &[]);
        let (front, read) = match front_of(&rt, file, size_of(file)) {
            Ok(found) => found,
            Err(_) => panic!(rt; "it is not opened"),
        };
        assert!(rt; read < size_of(file));
        check_values(&rt, &front, &table, &file.bytes, 0, 1000);
        check_values(&rt, &front, &table, &file.bytes, 31000, 31332);
    }
}

/// The first block doesn't decode: its values are refused, and the last one is found.
#[test]
fn bad_block_by_a_front(rt: HostRuntime) {
    let good = made(&rt, szg_fixtures::kqvk_wdl_unpaired(rt.alloc()));
    let file = made(
        &rt,
        good.changed(rt.alloc(), &[(38, 0), (39, 1), (36, 0x9b)]),
    );
    let (front, _) = match front_of(&rt, &file, size_of(&file)) {
        Ok(found) => found,
        Err(_) => panic!(rt; "it is not opened"),
    };
    let bad = FetchFault::Block {
        number: 0,
        offset: 320,
    };
    assert!(rt; value_in(&front, &file.bytes, 0, 0) == Some(Err(bad)));
    assert!(rt; matches!(value_in(&front, &file.bytes, 0, 31331), Some(Ok(_))));
}

/// A file that is too short for its front or its blocks is refused at its size, and a wrong first byte at that byte.
#[test]
fn short_files_by_a_front(rt: HostRuntime) {
    let file = made(&rt, szg_fixtures::kqvk_wdl_paired(rt.alloc()));
    for size in [0, 64, size_of(&file).saturating_sub(1)] {
        match front_of(&rt, &file, size) {
            Err(ReadFault::Refused { place, reason }) => {
                assert!(rt; place == size && reason == Reason::Truncated)
            }
            _ => panic!(rt; "it is not refused"),
        }
    }
    let cut = made(&rt, file.changed(rt.alloc(), &[(0, 0)]));
    match front_of(&rt, &cut, size_of(&cut)) {
        Err(ReadFault::Refused { place, reason }) => {
            assert!(rt; place == 0 && reason == Reason::Magic)
        }
        _ => panic!(rt; "it is not refused"),
    }
}

/// Value `i` of a side of a table in place. Its block is read again after it has passed, and gives the same.
fn value_in_place(
    rt: &impl Alloc<A = Global>,
    table: &TableInPlace<'_>,
    side: u8,
    i: u64,
) -> Option<Result<u16, FetchFault>> {
    let size = table.index().size(0, side)?;
    if i >= size {
        return None;
    }
    let mut passed = Passed::new(rt.alloc());
    let value = table.get(&mut passed, 0, side, i);
    if table.get(&mut passed, 0, side, i) != value {
        return None;
    }
    Some(value)
}

/// A file is opened in place just if it is opened by its front, and has the same values; else it has the same fault.
fn check_in_place(rt: &(impl Abort + Alloc<A = Global>), file: &Fixture) {
    let material = material(rt, file);
    match (
        front_of(rt, file, size_of(file)),
        open_in_place(rt.alloc(), material, file.kind, &file.bytes),
    ) {
        (Ok((front, _)), Ok(table)) => {
            for i in [0, 1, 255, 256, 21759, 21760, 31231, 31232, 31331] {
                for side in [0, 1] {
                    let value = value_in_place(rt, &table, side, i);
                    assert!(rt; value == value_in(&front, &file.bytes, side, i), "at {i}");
                }
            }
        }
        (Err(fault), Err(other)) => assert!(rt; fault == other),
        _ => panic!(rt; "only one of them is opened"),
    }
}

#[test]
fn values_in_place(rt: HostRuntime) {
    for file in &made(&rt, szg_fixtures::of_all_sections(rt.alloc())) {
        check_in_place(&rt, file);
    }
}

/// Each byte of a sparse index and of block lengths is changed.
#[test]
fn damaged_lists_in_place(rt: HostRuntime) {
    let good = made(&rt, szg_fixtures::kqvk_wdl_unpaired(rt.alloc()));
    for at in 32..286 {
        for byte in [0, 1, 0xff] {
            let file = made(&rt, good.changed(rt.alloc(), &[(at, byte)]));
            check_in_place(&rt, &file);
        }
    }
}
