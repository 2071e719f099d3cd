//! Opening a table over hostile bytes, sources and allocators: truncated files of many blocks, headers with sizes
//! past the end of the file, a source that fails at each call, and memory that is refused.

use crate::files::{answer, made, material};
use std::alloc::Global;
use std::fs::{self, Files};
use std::process::Abort;
use szg_block::{Image, Watch};
use szg_file::{OpenFault, Reason, open};
use szg_fixtures::Fixture;

/// The fault of the first `length` bytes of a file over a source that fails at call `fails_at`, and the number of
/// its calls.
fn fault_of(
    rt: &(impl Abort + Alloc<A = Global>),
    file: &Fixture,
    length: usize,
    fails_at: u64,
) -> (Option<OpenFault>, u64) {
    assert!(rt; length <= file.bytes.len());
    let source = Watch::new(Image::new(&file.bytes[..length]), fails_at);
    match open(rt.alloc(), material(rt, file), file.kind, source) {
        Ok(opened) => (None, opened.source().calls()),
        Err((fault, source)) => (Some(fault), source.calls()),
    }
}

fn refused(place: u64, reason: Reason) -> Option<OpenFault> {
    Some(OpenFault::Refused { place, reason })
}

#[test]
fn a_cut_file_of_many_blocks_is_not_opened(rt: HostRuntime) {
    let file = made(&rt, szg_fixtures::kqvk_wdl_unpaired(rt.alloc()));
    for n in 0..file.bytes.len() {
        let (fault, _) = fault_of(&rt, &file, n, 0);
        assert!(rt; fault == refused(n as u64, Reason::Truncated), "at {n}");
    }
}

/// The file with these changes is refused at this offset.
fn check_refused(
    rt: &(impl Abort + Alloc<A = Global>),
    file: &Fixture,
    changes: &[(usize, u8)],
    place: u64,
    reason: Reason,
) {
    let other = made(rt, file.changed(rt.alloc(), changes));
    let (fault, _) = fault_of(rt, &other, other.bytes.len(), 0);
    assert!(rt; fault == refused(place, reason), "at {place}");
}

/// More symbols, more blocks and longer blocks than the file has bytes for, and sparse entries past the blocks.
#[test]
fn heads_of_more_than_is_there(rt: HostRuntime) {
    let file = made(&rt, szg_fixtures::kqvk_wdl_unpaired(rt.alloc()));
    let many = [(14, 0xff), (15, 0xff), (16, 0xff), (17, 0xff)];
    let large = [(11, 0x12), (14, 0xff), (15, 0xff), (16, 0xff), (17, 0xff)];
    check_refused(
        &rt,
        &file,
        &[(22, 0xff), (23, 0xff)],
        4304,
        Reason::Truncated,
    );
    check_refused(&rt, &file, &many, 4304, Reason::Truncated);
    check_refused(&rt, &file, &large, 4304, Reason::Truncated);
    check_refused(&rt, &file, &[(32, 0x7c)], 32, Reason::SparseEntry);
    check_refused(&rt, &file, &[(32, 0x7d)], 32, Reason::SparseEntry);
}

/// If the source fails at any call during opening, it is not called again.
fn check_failing_calls(rt: &(impl Abort + Alloc<A = Global>), file: &Fixture) {
    let (none, calls) = fault_of(rt, file, file.bytes.len(), 0);
    assert!(rt; none == None && calls > 0);
    for call in 1..=calls {
        let (fault, queried) = fault_of(rt, file, file.bytes.len(), call);
        assert!(rt;
            fault == Some(OpenFault::Source) && queried == call,
            "at {call}"
        );
    }
}

#[test]
fn sources_that_fail(rt: HostRuntime) {
    for file in &made(&rt, szg_fixtures::of_all_sections(rt.alloc())) {
        check_failing_calls(&rt, file);
    }
    check_failing_calls(
        &rt,
        &made(&rt, szg_fixtures::kqvk_wdl_one_block(rt.alloc())),
    );
}

/// For runs in which each allocation in turn is refused: the only error is `Memory`.
#[test]
fn refused_growths_are_want_of_memory(rt: HostRuntime) {
    let Ok(files) = szg_fixtures::of_all_sections(rt.alloc()) else {
        return;
    };
    for file in &files {
        let (fault, _) = fault_of(&rt, file, file.bytes.len(), 0);
        assert!(rt; fault == None || fault == Some(OpenFault::Memory));
    }
}

/// The decimal digits among these bytes as a number.
fn number(text: &[u8]) -> u64 {
    let mut number: u64 = 0;
    for byte in text {
        if byte.is_ascii_digit() {
            number = number
                .saturating_mul(10)
                .saturating_add(u64::from(byte.wrapping_sub(b'0')));
        }
    }
    number
}

/// The greatest size that this process has had in memory and out of it, in KiB, as Linux counts it.
fn peak(rt: &(impl Abort + Alloc<A = Global> + Files)) -> u64 {
    let status = made(rt, fs::read_to_string(rt, "/proc/self/status"));
    for line in status.lines() {
        if line.starts_with("VmPeak:") {
            return number(line.as_bytes());
        }
    }
    panic!(rt; "no peak is listed")
}

/// A header of four thousand million blocks, or of blocks of 256 KiB, requests no memory for bytes that aren't there: the
/// lengths alone would be 8 GiB.
#[test]
fn no_memory_is_requested_ahead_of_the_bytes(rt: HostRuntime) {
    let file = made(&rt, szg_fixtures::kqvk_wdl_unpaired(rt.alloc()));
    let many = [(14, 0xff), (15, 0xff), (16, 0xff), (17, 0xff)];
    let large = [(11, 0x12), (14, 0xff), (15, 0xff), (16, 0xff), (17, 0xff)];
    let symbols = [(22, 0xff), (23, 0xff)];
    let before = peak(&rt);
    for changes in [many.as_slice(), large.as_slice(), symbols.as_slice()] {
        let hostile = made(&rt, file.changed(rt.alloc(), changes));
        let (fault, _) = fault_of(&rt, &hostile, hostile.bytes.len(), 0);
        assert!(rt; fault == refused(4304, Reason::Truncated));
        assert!(rt; answer(&rt, &hostile).is_err());
    }
    let grown = peak(&rt).saturating_sub(before);
    assert!(rt; grown < 65536, "{grown} KiB");
}
