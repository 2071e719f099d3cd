//! Look-ups: their steps from the sparse index, and tables whose blocks are read from a source.

use crate::files::{accepted, made, material};
use std::alloc::Global;
use std::process::Abort;
use szg_block::{Image, Source, SourceFault, Steps, Watch};
use szg_file::{OpenFault, Opened, Reason, Table, open};
use szg_fixtures::Fixture;

/// Value `i` of a side, and the steps to it.
fn counted(rt: &impl Abort, table: &Table, side: u8, i: u64) -> (u16, Steps) {
    match table.size(0, side) {
        Some(size) if i < size => table.get_counted(0, side, i),
        _ => panic!(rt; "there is no value {i}"),
    }
}

/// Value `i` of a side.
fn value(rt: &impl Abort, table: &Table, side: u8, i: u64) -> u16 {
    match table.size(0, side) {
        Some(size) if i < size => table.get(0, side, i),
        _ => panic!(rt; "there is no value {i}"),
    }
}

/// Value `i` of a side, read from the source.
fn looked_up<S: Source + Drop>(
    rt: &impl Abort,
    opened: &mut Opened<S>,
    side: u8,
    i: u64,
) -> Result<u16, SourceFault> {
    match opened.size(0, side) {
        Some(size) if i < size => opened.get(0, side, i),
        _ => panic!(rt; "there is no value {i}"),
    }
}

/// The table of a file, opened over a source that fails at call `fails_at`.
pub fn opened<'a>(
    rt: &(impl Abort + Alloc<A = Global>),
    file: &'a Fixture,
    fails_at: u64,
) -> Opened<Watch<Image<'a>>> {
    let source = Watch::new(Image::new(&file.bytes), fails_at);
    match open(rt.alloc(), material(rt, file), file.kind, source) {
        Ok(opened) => opened,
        Err(_) => panic!(rt; "it is not opened"),
    }
}

/// In the table with these changes, value `i` of side 0 and the numbers of moves, words and descents are `want`.
fn check_steps(
    rt: &(impl Abort + Alloc<A = Global>),
    file: &Fixture,
    changes: &[(usize, u8)],
    i: u64,
    want: (u16, u64, u64, u64),
) {
    let table = accepted(rt, file, changes);
    let (value, moves, words, descents) = want;
    let steps = Steps {
        moves,
        words,
        descents,
        fetches: 1,
    };
    assert!(rt; counted(rt, &table, 0, i) == (value, steps), "at {i}");
}

/// From an entry past the size and from one in the first block, and past a length that belongs to no block.
#[test]
fn steps_from_sparse_entries(rt: HostRuntime) {
    let file = made(&rt, szg_fixtures::kqvk_wdl_unpaired(rt.alloc()));
    let first = [(32, 0), (36, 0), (37, 0x80)];
    let short = [(284, 0), (285, 0)];
    let last = [(284, 0), (285, 0), (32, 0x7c), (36, 0x9b)];
    check_steps(&rt, &file, &[], 31331, (4, 1, 100, 0));
    check_steps(&rt, &file, &[], 0, (2, 123, 1, 0));
    check_steps(&rt, &file, &first, 31331, (4, 122, 100, 0));
    check_steps(&rt, &file, &first, 0, (2, 0, 1, 0));
    check_steps(&rt, &file, &short, 31331, (4, 1, 100, 0));
    check_steps(&rt, &file, &last, 31331, (4, 2, 100, 0));
    let paired = made(&rt, szg_fixtures::kqvk_wdl_paired(rt.alloc()));
    check_steps(&rt, &paired, &[], 31331, (4, 0, 40, 2));
    check_steps(&rt, &paired, &[], 0, (2, 0, 1, 8));
}

#[test]
fn files_of_all_sections_are_opened(rt: HostRuntime) {
    for file in &made(&rt, szg_fixtures::of_all_sections(rt.alloc())) {
        let table = accepted(&rt, file, &[]);
        let mut opened = opened(&rt, file, 0);
        assert!(rt; looked_up(&rt, &mut opened, 0, 7) == Ok(value(&rt, &table, 0, 7)));
    }
}

/// The values read from the source are those of the table. Opening read the 123 blocks of the file in larger
/// chunks. Then each value of side 0 requests one block of 32 bytes; side 1 is constant and requests none.
fn check_values(rt: &(impl Abort + Alloc<A = Global>), file: &Fixture) {
    let table = accepted(rt, file, &[]);
    let mut opened = opened(rt, file, 0);
    let calls = opened.source().calls();
    assert!(rt; calls < 32);
    for i in 0..31332 {
        let found = looked_up(rt, &mut opened, 0, i);
        assert!(rt; found == Ok(value(rt, &table, 0, i)), "at {i}");
        let source = opened.source();
        assert!(rt;
            source.calls() == calls + i + 1 && source.last_length() == 32,
            "at {i}"
        );
    }
    for i in 0..31332 {
        let found = looked_up(rt, &mut opened, 1, i);
        assert!(rt; found == Ok(value(rt, &table, 1, i)), "at {i}");
    }
    assert!(rt; opened.source().calls() == calls + 31332);
}

#[test]
fn values_by_a_source(rt: HostRuntime) {
    check_values(&rt, &made(&rt, szg_fixtures::kqvk_wdl_unpaired(rt.alloc())));
    check_values(&rt, &made(&rt, szg_fixtures::kqvk_wdl_paired(rt.alloc())));
}

/// The block of value `i` is at this offset.
fn check_place<'a>(rt: &impl Abort, opened: &mut Opened<Watch<Image<'a>>>, i: u64, place: u64) {
    assert!(rt; looked_up(rt, opened, 0, i).is_ok(), "at {i}");
    assert!(rt; opened.source().last_place() == place, "at {i}");
}

#[test]
fn places_of_blocks(rt: HostRuntime) {
    let file = made(&rt, szg_fixtures::kqvk_wdl_unpaired(rt.alloc()));
    let mut opened = opened(&rt, &file, 0);
    check_place(&rt, &mut opened, 31331, 4224);
    check_place(&rt, &mut opened, 0, 320);
    check_place(&rt, &mut opened, 255, 320);
    check_place(&rt, &mut opened, 256, 352);
}

/// A fault is returned, and the next call succeeds. A look-up requests its block in one call.
#[test]
fn a_source_that_fails_once(rt: HostRuntime) {
    let file = made(&rt, szg_fixtures::kqvk_wdl_one_block(rt.alloc()));
    let source = Watch::new(Image::new(&file.bytes), 3);
    let source = match open(rt.alloc(), material(&rt, &file), file.kind, source) {
        Err((OpenFault::Source, source)) => source,
        _ => panic!(rt; "its fault is not told"),
    };
    assert!(rt; source.calls() == 3);
    assert!(rt; open(rt.alloc(), material(&rt, &file), file.kind, source).is_ok());
    let calls = opened(&rt, &file, 0).source().calls();
    assert!(rt; calls < 32);
    let mut opened = opened(&rt, &file, calls + 1);
    assert!(rt; looked_up(&rt, &mut opened, 0, 31331) == Err(SourceFault));
    assert!(rt; looked_up(&rt, &mut opened, 0, 31331) == Ok(4));
    let source = opened.source();
    assert!(rt; source.calls() == calls + 2 && source.last_length() == 131072);
}

/// A source over bytes in memory that can read no more than the first `readable` bytes: a request for others fails.
#[derive(Drop)]
struct Beginning<'a> {
    image: Image<'a>,
    readable: u64,
    failed: u64,
}

impl<'a> Beginning<'a> {
    /// Creates a source over `bytes` that can read the first `readable` of them.
    fn new(bytes: &'a [u8], readable: u64) -> Beginning<'a> {
        Beginning {
            image: Image::new(bytes),
            readable,
            failed: 0,
        }
    }
}

impl<'a> Source for Beginning<'a> {
    ghost content = { λ beginning. beginning.image.content };

    ghost failed = { λ beginning. beginning.failed };

    ghost requested = { λ beginning. beginning.image.requested };

    fn len(&self) -> u64 {
        self.image.len()
    }

    fn read_at(&mut self, at: u64, out: &mut [u8]) -> Result<usize, SourceFault> {
        let last = at.saturating_add(out.len() as u64);
        let answer = self.image.read_at(at, out);
        if last <= self.readable {
            return answer;
        }
        self.failed = self.failed.saturating_add(1);
        Err(SourceFault)
    }
}

/// A table is opened over a source that fails for every byte after the file.
fn check_no_byte_after(rt: &(impl Abort + Alloc<A = Global>), file: &Fixture) {
    let mut bytes = made(rt, file.bytes.clone());
    made(rt, bytes.extend_from_slice(&[0]));
    let source = Beginning::new(&bytes, file.bytes.len() as u64);
    assert!(rt; open(rt.alloc(), material(rt, file), file.kind, source).is_ok());
}

#[test]
fn no_byte_after_a_table_is_requested(rt: HostRuntime) {
    for file in &made(&rt, szg_fixtures::of_all_sections(rt.alloc())) {
        check_no_byte_after(&rt, file);
    }
}

/// Over a source of `bytes` that fails after the first `readable` bytes, a table of the file's name is refused at this
/// offset.
fn check_not_opened(
    rt: &(impl Abort + Alloc<A = Global>),
    file: &Fixture,
    bytes: &[u8],
    readable: u64,
    place: u64,
    reason: Reason,
) {
    let source = Beginning::new(bytes, readable);
    match open(rt.alloc(), material(rt, file), file.kind, source) {
        Ok(_) => panic!(rt; "it is opened"),
        Err((fault, _)) => assert!(rt; fault == OpenFault::Refused { place, reason }, "at {place}"),
    }
}

/// With this single change no byte is requested after the field whose check fails, which ends at offset `readable`.
fn check_change(
    rt: &(impl Abort + Alloc<A = Global>),
    change: (usize, u8),
    readable: u64,
    place: u64,
    reason: Reason,
) {
    let file = made(rt, szg_fixtures::kqvk_wdl_unpaired(rt.alloc()));
    let other = made(rt, file.changed(rt.alloc(), &[change]));
    check_not_opened(rt, &other, &other.bytes, readable, place, reason);
}

#[test]
fn changed_files_are_not_opened(rt: HostRuntime) {
    check_change(&rt, (0, 0x70), 4, 0, Reason::Magic);
    check_change(&rt, (11, 0x13), 12, 11, Reason::BlockBits);
    check_change(&rt, (25, 0x00), 30, 24, Reason::Child);
    check_change(&rt, (282, 0x62), 286, 38, Reason::ShortTotal);
    check_change(&rt, (36, 0x9d), 286, 32, Reason::SparseEntry);
}

/// Each proper prefix of the file is refused at its end.
fn check_cuts(rt: &(impl Abort + Alloc<A = Global>), file: &Fixture) {
    for n in 0..file.bytes.len() {
        let place = n as u64;
        check_not_opened(rt, file, &file.bytes[..n], place, place, Reason::Truncated);
    }
}

#[test]
fn cut_files_are_not_opened(rt: HostRuntime) {
    check_cuts(&rt, &made(&rt, szg_fixtures::knvk_wdl_constant(rt.alloc())));
    check_cuts(&rt, &made(&rt, szg_fixtures::kqvk_wdl_paired(rt.alloc())));
    check_cuts(&rt, &made(&rt, szg_fixtures::kpvk_dtz_mapped(rt.alloc())));
}
