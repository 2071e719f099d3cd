//! Files that are read whole, in chunks, truncated, changed, and from devices that fail.

use crate::files::{accepted, answer, check_refused, check_written, made, material};
use std::alloc::Global;
use std::process::Abort;
use szg_file::{ReadFault, Reason, Table, file_len, read, read_bytes, write};
use szg_fixtures::Fixture;
use szg_io::{Bytes, Cut, Input, IoFault, Std};

/// The bytes of a file, and one byte after them.
fn with_a_byte_after(rt: &(impl Abort + Alloc<A = Global>), file: &Fixture) -> Vec<u8> {
    let mut bytes = made(rt, Vec::from_slice(rt.alloc(), &file.bytes));
    made(rt, bytes.extend_from_slice(&[0xff]));
    bytes
}

/// The table of the file, read in chunks of at most `most` bytes. The byte after the file is not read.
fn read_in_pieces(
    rt: &(impl Abort + Alloc<A = Global>),
    file: &Fixture,
    bytes: &[u8],
    most: usize,
) -> Table {
    let material = material(rt, file);
    let mut input = Cut::new(Std::new(bytes), most, 2, 0);
    let table = read(rt.alloc(), material, file.kind, &mut input);
    assert!(rt; *input.inner().inner() == [0xff].as_slice());
    made(rt, table)
}

/// The table is written in chunks of at most `most` bytes.
fn check_written_in_pieces(
    rt: &(impl Abort + Alloc<A = Global>),
    table: &Table,
    bytes: &[u8],
    most: usize,
) {
    let mut output = Cut::new(Std::new(Vec::new(rt.alloc())), most, 2, 0);
    let written = write(table, &mut output).is_ok();
    assert!(rt; written && output.inner().inner().as_slice() == bytes);
}

/// The file is read and written in chunks of several lengths.
fn check_pieces(rt: &(impl Abort + Alloc<A = Global>), file: &Fixture, bytes: &[u8]) {
    for most in [1, 3, 7] {
        let table = read_in_pieces(rt, file, bytes, most);
        check_written_in_pieces(rt, &table, &file.bytes, most);
    }
}

#[test]
fn pieces_of_any_length_are_joined(rt: HostRuntime) {
    for file in &made(&rt, szg_fixtures::of_all_sections(rt.alloc())) {
        check_pieces(&rt, file, &with_a_byte_after(&rt, file));
    }
}

/// From bytes in memory the table's bytes are read, and the byte after them is not.
fn check_in_memory(rt: &(impl Abort + Alloc<A = Global>), file: &Fixture, bytes: &[u8]) {
    let material = material(rt, file);
    let mut input = Bytes::new(bytes);
    let table = read(rt.alloc(), material, file.kind, &mut input);
    assert!(rt; input.left() == [0xff].as_slice());
    check_written(rt, &made(rt, table), &file.bytes);
}

#[test]
fn bytes_in_memory_are_read(rt: HostRuntime) {
    for file in &made(&rt, szg_fixtures::of_all_sections(rt.alloc())) {
        check_in_memory(&rt, file, &with_a_byte_after(&rt, file));
    }
}

/// Each proper prefix of the file is truncated at its length.
fn check_cuts(rt: &(impl Abort + Alloc<A = Global>), file: &Fixture) {
    for n in 0..file.bytes.len() {
        let answer = read_bytes(rt.alloc(), material(rt, file), file.kind, &file.bytes[..n]);
        let want = ReadFault::Refused {
            place: n as u64,
            reason: Reason::Truncated,
        };
        assert!(rt; answer.err() == Some(want), "at {n}");
    }
}

#[test]
fn cut_files_are_truncated_at_their_lengths(rt: HostRuntime) {
    check_cuts(&rt, &made(&rt, szg_fixtures::knvk_wdl_constant(rt.alloc())));
    check_cuts(&rt, &made(&rt, szg_fixtures::kqvk_wdl_paired(rt.alloc())));
    check_cuts(&rt, &made(&rt, szg_fixtures::kpvk_dtz_mapped(rt.alloc())));
}

#[test]
fn a_cut_file_of_many_blocks_is_truncated(rt: HostRuntime) {
    check_cuts(&rt, &made(&rt, szg_fixtures::kqvk_wdl_unpaired(rt.alloc())));
}

/// For runs in which each allocation in turn is refused: the only error is `Memory`.
#[test]
fn refused_growths_are_want_of_memory(rt: HostRuntime) {
    let Ok(files) = szg_fixtures::of_all_sections(rt.alloc()) else {
        return;
    };
    for file in &files {
        match answer(&rt, file) {
            Ok(table) => assert!(rt; file_len(&table) == file.bytes.len() as u64),
            Err(fault) => assert!(rt; fault == ReadFault::Memory),
        }
    }
}

#[test]
fn changed_files_of_constants(rt: HostRuntime) {
    let file = made(&rt, szg_fixtures::knvk_wdl_constant(rt.alloc()));
    check_refused(&rt, &file, &[(0, 0x70)], 0, Reason::Magic);
    check_refused(&rt, &file, &[(4, 0x00)], 4, Reason::SplitBit);
    check_refused(&rt, &file, &[(4, 0x03)], 4, Reason::PawnBit);
    check_refused(&rt, &file, &[(8, 0xe6)], 6, Reason::Pieces);
    check_refused(&rt, &file, &[(5, 0x01)], 5, Reason::OrderPlace);
    let mut start = made(&rt, file.changed(rt.alloc(), &[(0, 0x70)]));
    start.bytes.truncate(2);
    check_refused(&rt, &start, &[], 2, Reason::Truncated);
}

#[test]
fn carried_bits_and_fill(rt: HostRuntime) {
    let file = made(&rt, szg_fixtures::knvk_wdl_constant(rt.alloc()));
    let table = accepted(&rt, &file, &[(4, 0x81), (20, 0x5a)]);
    assert!(rt; table.byte4() == 0x81 && table.fill().len() == 51);
}

#[test]
fn changed_files_with_pawns(rt: HostRuntime) {
    let one = made(&rt, szg_fixtures::kpvk_wdl_constant(rt.alloc()));
    check_refused(&rt, &one, &[(10, 0x66), (11, 0x11)], 10, Reason::PawnsFirst);
    check_refused(&rt, &one, &[(9, 0x03)], 9, Reason::OrderPlace);
    let two = made(&rt, szg_fixtures::kpvkp_wdl_constant(rt.alloc()));
    check_refused(&rt, &two, &[(6, 0)], 5, Reason::OrderPlace);
    check_refused(&rt, &two, &[(7, 9), (8, 1)], 7, Reason::PawnsFirst);
}

#[test]
fn changed_files_of_blocks(rt: HostRuntime) {
    let file = made(&rt, szg_fixtures::kqvk_wdl_unpaired(rt.alloc()));
    let many = [(14, 0xff), (15, 0xff), (16, 0xff), (17, 0xff)];
    let large = [(11, 0x12), (14, 0xff), (15, 0xff), (16, 0xff), (17, 0xff)];
    check_refused(&rt, &file, &[(11, 0x13)], 11, Reason::BlockBits);
    check_refused(&rt, &file, &[(12, 0x00)], 12, Reason::SpanBits);
    check_refused(&rt, &file, &[(18, 0x21)], 18, Reason::CodeLengths);
    check_refused(&rt, &file, &[(25, 0x00)], 24, Reason::Child);
    check_refused(&rt, &file, &[(24, 0), (25, 0), (26, 0)], 24, Reason::Cycle);
    check_refused(&rt, &file, &[(282, 0x62)], 38, Reason::ShortTotal);
    check_refused(&rt, &file, &[(36, 0x9d)], 32, Reason::SparseEntry);
    check_refused(&rt, &file, &[(32, 0x7c)], 32, Reason::SparseEntry);
    check_refused(&rt, &file, &[(32, 0x7d)], 32, Reason::SparseEntry);
    check_refused(
        &rt,
        &file,
        &[(38, 0), (39, 1), (36, 0x9b)],
        320,
        Reason::Word,
    );
    check_refused(&rt, &file, &many, 4304, Reason::Truncated);
    check_refused(&rt, &file, &large, 4304, Reason::Truncated);
    check_refused(
        &rt,
        &file,
        &[(22, 0xff), (23, 0xff)],
        4304,
        Reason::Truncated,
    );
}

#[test]
fn changed_files_of_codes(rt: HostRuntime) {
    let file = made(&rt, szg_fixtures::kqvk_wdl_unpaired(rt.alloc()));
    let rising = [(18, 2), (20, 0), (22, 2), (24, 2), (25, 0)];
    check_refused(&rt, &file, &rising, 22, Reason::LowestOrder);
    let full = [(18, 2), (20, 4), (22, 0), (24, 4), (25, 0)];
    check_refused(&rt, &file, &full, 20, Reason::TooFull);
}

#[test]
fn files_that_end_in_their_dictionary(rt: HostRuntime) {
    let long = made(&rt, szg_fixtures::kqvk_wdl_with_a_long_symbol(rt.alloc()));
    check_refused(&rt, &long, &[], 51, Reason::LongSymbol);
    let cut = made(
        &rt,
        szg_fixtures::kqvk_wdl_cut_in_its_dictionary(rt.alloc()),
    );
    check_refused(&rt, &cut, &[], 29, Reason::Truncated);
}

/// If the reader, which reads a byte per call, fails at a call, the error is `Device`; it is not called after the
/// file's last byte.
fn check_failing_call(rt: &(impl Abort + Alloc<A = Global>), file: &Fixture, call: u64) {
    let material = material(rt, file);
    let mut input = Cut::new(Std::new(file.bytes.as_slice()), 1, 0, call);
    let fault = read(rt.alloc(), material, file.kind, &mut input).err();
    let left = input.inner().inner().len() as u64;
    let following = file.bytes.len() as u64 + 1;
    assert!(rt; left.wrapping_add(call) == following, "at call {call}");
    let waiting = input.take(&mut [0]) == Err(IoFault::Failed);
    let wanted = if waiting {
        fault == None
    } else {
        fault == Some(ReadFault::Device)
    };
    assert!(rt; wanted && waiting == (call == following), "at call {call}");
}

#[test]
fn readers_that_fail(rt: HostRuntime) {
    for file in &made(&rt, szg_fixtures::of_all_sections(rt.alloc())) {
        for call in 1..=file.bytes.len() as u64 + 1 {
            check_failing_call(&rt, file, call);
        }
    }
}

#[test]
fn readers_that_are_interrupted(rt: HostRuntime) {
    let file = made(&rt, szg_fixtures::knvk_wdl_constant(rt.alloc()));
    for (before, want) in [(1000, None), (1001, Some(ReadFault::Device))] {
        let mut input = Cut::new(Std::new(file.bytes.as_slice()), 1, before, 0);
        let answer = read(rt.alloc(), material(&rt, &file), file.kind, &mut input);
        assert!(rt; answer.err() == want, "{before} before each byte");
    }
}
