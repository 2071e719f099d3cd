//! Dumps that are written, parsed and built, and texts that are not dumps.

use crate::files::{answer, check_written, made};
use std::alloc::Global;
use std::process::Abort;
use szg_build::{
    BuildFault, Choice, Dump, DumpFault, DumpReadFault, Packing, Plan, Unwatched, Watcher,
    build_as, read_dump, read_packed, write_dump,
};
use szg_file::{ReadFault, Table, write};
use szg_fixtures::{Counted, Fixture};
use szg_io::{Bytes, Std};

/// The first six lines of a dump of the outcomes of king and queen against king.
const FRONT: &[u8] =
    b"szg-dump 2\nname KQvK\nkind wdl\nend 000102030405060708090a0b0c0d0e0f\npart a order 00 men 6655ee\nsub a 0\n";

/// The text of a dump, in runs or with one line per value.
fn text_of(rt: &(impl Abort + Alloc<A = Global>), dump: &Dump, in_runs: bool) -> Vec<u8> {
    let mut output = Std::new(Vec::new(rt.alloc()));
    let written = if in_runs {
        write_dump(dump, 2, &mut output)
    } else {
        write_dump(dump, 1, &mut output)
    };
    assert!(rt; written.is_ok());
    made(rt, Vec::from_slice(rt.alloc(), output.inner().as_slice()))
}

/// The dump of a text, which is read to its end.
fn dump_of(rt: &(impl Abort + Alloc<A = Global>), text: &[u8]) -> Dump {
    let mut input = Bytes::new(text);
    let dump = made(rt, read_dump(rt.alloc(), &mut input));
    assert!(rt; input.left().is_empty());
    dump
}

/// The dump of a file's table.
fn dump_of_file(rt: &(impl Abort + Alloc<A = Global>), file: &Fixture) -> Dump {
    let table = made(rt, answer(rt, file));
    made(rt, Dump::of(rt.alloc(), &table))
}

/// The text is parsed, and its dump, written in the other form (runs or single values), is `want`.
fn check_other_form(
    rt: &(impl Abort + Alloc<A = Global>),
    text: &[u8],
    in_runs: bool,
    want: &[u8],
) {
    let other = text_of(rt, &dump_of(rt, text), in_runs);
    assert!(rt; other.as_slice() == want);
}

#[test]
fn dumps_in_both_forms_are_read_back(rt: HostRuntime) {
    for file in &made(&rt, szg_fixtures::of_all_sections(rt.alloc())) {
        let dump = dump_of_file(&rt, file);
        let runs = text_of(&rt, &dump, true);
        let singles = text_of(&rt, &dump, false);
        check_other_form(&rt, &runs, false, &singles);
        check_other_form(&rt, &singles, true, &runs);
    }
}

/// At most `most` calls moved `moved` bytes.
fn check_calls<'a>(rt: &impl Abort, device: &Counted<'a>, moved: usize, most: u64) {
    assert!(rt; device.moved == moved as u64, "{} bytes", device.moved);
    assert!(rt; device.calls <= most, "{} calls", device.calls);
}

/// A dump is written in chunks of nearly 4 KiB. It is read in chunks as long as the lines that are due must be, two bytes
/// each.
#[test]
fn calls_of_dumps(rt: HostRuntime) {
    let file = made(&rt, szg_fixtures::kqvk_wdl_unpaired(rt.alloc()));
    let dump = dump_of_file(&rt, &file);
    let text = text_of(&rt, &dump, false);
    let size = text.len();
    let mut output = Std::new(Counted::new(&[]));
    assert!(rt; write_dump(&dump, 1, &mut output).is_ok());
    check_calls(&rt, output.inner(), size, size as u64 / 4000 + 1);
    let mut input = Std::new(Counted::new(&text));
    assert!(rt; read_dump(rt.alloc(), &mut input).is_ok());
    check_calls(&rt, input.inner(), size, size as u64 / 512 + 100);
}

#[test]
fn a_dump_builds_its_file_again(rt: HostRuntime) {
    let file = made(&rt, szg_fixtures::kqvk_wdl_paired(rt.alloc()));
    let dump = dump_of(&rt, &text_of(&rt, &dump_of_file(&rt, &file), true));
    let built = build_lists(&rt, dump, Choice::Fixed(FIXED));
    check_written(&rt, &made(&rt, built), &file.bytes);
}

/// Blocks of 32 bytes, spans of 1,024 values and at most eight pairs.
const FIXED: Packing = Packing {
    block_bits: 5,
    span_bits: 10,
    rounds: 8,
};

/// The table that is built of a dump's lists.
fn build_lists(
    rt: &(impl Abort + Alloc<A = Global>),
    dump: Dump,
    choice: Choice,
) -> Result<Table, BuildFault> {
    let last = dump.last;
    let lists = dump.lists;
    let mut lent = Vec::new(rt.alloc());
    for list in &lists {
        assert!(rt; lent.push(list.as_slice()).is_ok());
    }
    let packing = match choice {
        Choice::Fixed(packing) => packing,
        Choice::Small => FIXED,
    };
    let plan = Plan {
        material: dump.material,
        kind: dump.kind,
        parts: dump.parts,
        block_bits: packing.block_bits,
        span_bits: packing.span_bits,
        rounds: packing.rounds,
        flags: dump.flags,
        maps: dump.maps,
        last,
    };
    build_as(rt.alloc(), &plan, choice, &lent, &mut Unwatched)
}

/// The table of a text, whose subtables are packed while it is read.
fn build_while_read(
    rt: &(impl Abort + Alloc<A = Global>),
    text: &[u8],
    choice: Choice,
) -> Result<Table, BuildFault> {
    let mut input = Bytes::new(text);
    let packed = made(
        rt,
        read_packed(rt.alloc(), choice, &mut input, &mut Unwatched),
    );
    assert!(rt; input.left().is_empty());
    packed.build(rt.alloc(), &mut Unwatched)
}

/// The text's table is the same file, or has the same fault, whether the subtables are packed while it is read or all
/// lists are read first. Returns the fault.
fn check_alike(
    rt: &(impl Abort + Alloc<A = Global>),
    text: &[u8],
    choice: Choice,
) -> Option<BuildFault> {
    let want = build_lists(rt, dump_of(rt, text), choice);
    match build_while_read(rt, text, choice) {
        Ok(table) => {
            let mut file = Std::new(Vec::new(rt.alloc()));
            assert!(rt; write(&made(rt, want), &mut file).is_ok());
            check_written(rt, &table, file.inner().as_slice());
            None
        }
        Err(fault) => {
            assert!(rt; want.err() == Some(fault));
            Some(fault)
        }
    }
}

/// Two subtables of king and queen against king in runs, each after the lines before it.
fn two_sides(
    rt: &(impl Abort + Alloc<A = Global>),
    form: &[u8],
    order: &[u8],
    first: &[u8],
    second: &[u8],
) -> Vec<u8> {
    let mut text = made(rt, Vec::from_slice(rt.alloc(), b"szg-dump "));
    for piece in [
        form,
        b"\nname KQvK\nkind wdl\nend 000102030405060708090a0b0c0d0e0f\npart a order ",
        order,
        b" men 6655ee\nsub a 0\nvalues ",
        first,
        b"sub a 1\nvalues ",
        second,
    ] {
        made(rt, text.extend_from_slice(piece));
    }
    text
}

/// Eight subtables of king and pawn against king in runs: `first`, then `second` in all others.
fn four_parts(rt: &(impl Abort + Alloc<A = Global>), first: &[u8], second: &[u8]) -> Vec<u8> {
    let mut text = made(
        rt,
        Vec::from_slice(
            rt.alloc(),
            b"szg-dump 2\nname KPvK\nkind wdl\nend 000102030405060708090a0b0c0d0e0f\n",
        ),
    );
    for part in b"abcd" {
        made(rt, text.extend_from_slice(b"part "));
        made(rt, text.push(*part));
        made(rt, text.extend_from_slice(b" order 00 men 1166ee\n"));
    }
    let mut runs = first;
    for part in b"abcd" {
        for side in b"01" {
            made(rt, text.extend_from_slice(b"sub "));
            made(rt, text.push(*part));
            made(rt, text.push(b' '));
            made(rt, text.push(*side));
            made(rt, text.extend_from_slice(b"\nvalues 23436\n"));
            made(rt, text.extend_from_slice(runs));
            runs = second;
        }
    }
    text
}

#[test]
fn subtables_are_packed_while_a_dump_is_read(rt: HostRuntime) {
    for file in &made(&rt, szg_fixtures::of_all_sections(rt.alloc())) {
        let dump = dump_of_file(&rt, file);
        for in_runs in [false, true] {
            let text = text_of(&rt, &dump, in_runs);
            assert!(rt; check_alike(&rt, &text, Choice::Fixed(FIXED)).is_none());
        }
    }
}

#[test]
fn small_subtables_are_packed_while_a_dump_is_read(rt: HostRuntime) {
    let blocks: &[u8] = b"31332\n31000 2\n332 4\n";
    let other: &[u8] = b"31332\n20000 1\n11332 3\n";
    let constant: &[u8] = b"31332\n31332 4\n";
    for (first, second) in [(blocks, other), (constant, blocks), (blocks, constant)] {
        let text = two_sides(&rt, b"2", b"00", first, second);
        assert!(rt; check_alike(&rt, &text, Choice::Small).is_none());
    }
}

/// Counts the searches for the pairs of the subtables of a small table.
#[derive(Drop)]
struct Searches {
    begun: u32,
}

impl Watcher for Searches {
    fn subtable(&mut self, _number: usize, _count: usize, _values: usize) {}

    fn round(&mut self, _done: u32, _rounds: u32) {}

    fn attempt(&mut self, _done: u64, bytes: Option<u64>) {
        if bytes.is_none() {
            self.begun = self.begun.wrapping_add(1);
        }
    }

    fn end(&mut self) {}
}

/// `read` searches are begun while the dump of a small table is read, and `built` until the table is built.
fn check_searches(rt: &(impl Abort + Alloc<A = Global>), text: &[u8], read: u32, built: u32) {
    let mut searches = Searches { begun: 0 };
    let mut input = Bytes::new(text);
    let reading = read_packed(rt.alloc(), Choice::Small, &mut input, &mut searches);
    let packed = made(rt, reading);
    assert!(rt; searches.begun == read);
    assert!(rt; packed.build(rt.alloc(), &mut searches).is_ok());
    assert!(rt; searches.begun == built);
}

/// A search is begun as soon as a subtable is read, and once more if it is the only one with blocks; the only subtable
/// of a table is searched at the end.
#[test]
fn small_subtables_are_searched_no_more_than_needed(rt: HostRuntime) {
    let blocks: &[u8] = b"31332\n31000 2\n332 4\n";
    let constant: &[u8] = b"31332\n31332 4\n";
    check_searches(&rt, &two_sides(&rt, b"2", b"00", blocks, blocks), 2, 2);
    check_searches(&rt, &two_sides(&rt, b"2", b"00", blocks, constant), 1, 2);
    let alone: &[u8] =
        b"szg-dump 2\nname KQvK\nkind dtz\nend 000102030405060708090a0b0c0d0e0f\npart a order 00 men 06050e\nsub a 0\nflags 0\nvalues 31332\n31000 0\n332 4\n";
    check_searches(&rt, alone, 0, 1);
}

#[test]
fn a_small_subtable_of_four_parts_is_packed(rt: HostRuntime) {
    let text = four_parts(&rt, b"20000 2\n3436 4\n", b"23436 2\n");
    assert!(rt; check_alike(&rt, &text, Choice::Small).is_none());
}

#[test]
fn faults_of_packed_subtables(rt: HostRuntime) {
    let good: &[u8] = b"31332\n31000 2\n332 4\n";
    let constant: &[u8] = b"31332\n31332 4\n";
    let great: &[u8] = b"31332\n31331 2\n1 5\n";
    let greatest: &[u8] = b"31332\n31332 5\n";
    let fixed = Choice::Fixed(FIXED);
    for choice in [fixed, Choice::Small] {
        for (first, second, fault) in [
            (good, good, None),
            (good, constant, None),
            (constant, good, None),
            (constant, constant, None),
            (good, great, Some(BuildFault::Value(1))),
            (constant, greatest, Some(BuildFault::Value(1))),
            (great, good, Some(BuildFault::Value(0))),
            (greatest, constant, Some(BuildFault::Value(0))),
            (great, greatest, Some(BuildFault::Value(0))),
        ] {
            let text = two_sides(&rt, b"2", b"00", first, second);
            assert!(rt; check_alike(&rt, &text, choice) == fault);
        }
        let longer = two_sides(&rt, b"1", b"00", b"2\n5\n5\n", b"1\n0\n");
        assert!(rt; check_alike(&rt, &longer, choice) == Some(BuildFault::Length(0)));
        let order = two_sides(&rt, b"1", b"0f", b"1\n0\n", b"1\n5\n");
        assert!(rt; check_alike(&rt, &order, choice) == Some(BuildFault::Order));
    }
    let bits = Choice::Fixed(Packing {
        block_bits: 4,
        ..FIXED
    });
    let rounds = Choice::Fixed(Packing {
        rounds: 4001,
        ..FIXED
    });
    for second in [great, constant] {
        let text = two_sides(&rt, b"2", b"00", constant, second);
        assert!(rt; check_alike(&rt, &text, bits) == Some(BuildFault::Bits));
        assert!(rt; check_alike(&rt, &text, rounds) == Some(BuildFault::Rounds));
    }
}

/// The text is refused.
fn check_refused(rt: &(impl Abort + Alloc<A = Global>), text: &[u8], fault: DumpReadFault) {
    let mut input = Bytes::new(text);
    assert!(rt; read_dump(rt.alloc(), &mut input).err() == Some(fault));
}

/// The text is refused at this line.
fn check_line(rt: &(impl Abort + Alloc<A = Global>), text: &[u8], line: u64, fault: DumpFault) {
    check_refused(rt, text, DumpReadFault::Line { line, fault });
}

/// The first six lines of a dump, followed by these bytes.
fn after_front(rt: &(impl Abort + Alloc<A = Global>), rest: &[u8]) -> Vec<u8> {
    let mut text = made(rt, Vec::from_slice(rt.alloc(), FRONT));
    made(rt, text.extend_from_slice(rest));
    text
}

#[test]
fn first_lines_that_are_refused(rt: HostRuntime) {
    check_line(&rt, b"szg-dump 3\n", 1, DumpFault::Version);
    check_line(&rt, b"szg-dump 1\nkind wdl\n", 2, DumpFault::Field);
    check_line(&rt, b"szg-dump 1\nname KQvX\n", 2, DumpFault::Name);
    check_line(&rt, b"szg-dump 1\nname KQvK", 2, DumpFault::Ended);
    check_line(
        &rt,
        b"szg-dump 2\nname KQvK\nkind wdl\nend 000102030405060708090A0b0c0d0e0f\n",
        4,
        DumpFault::Hex,
    );
}

/// The greatest number of values that a dump may have, and none of them follows.
#[test]
fn a_cut_dump_of_many_values(rt: HostRuntime) {
    let text =
        b"szg-dump 1\nname KNvK\nkind wdl\nend 000102030405060708090a0b0c0d0e0f\npart a order 00 men 6622ee\nsub a 0\nvalues 9223372036854775807\n";
    check_line(&rt, text, 8, DumpFault::Ended);
}

#[test]
fn lines_of_values_that_are_refused(rt: HostRuntime) {
    let number = after_front(&rt, b"values 031332\n");
    check_line(&rt, &number, 7, DumpFault::Number);
    let run = after_front(&rt, b"values 31332\n31333 2\n");
    check_line(&rt, &run, 8, DumpFault::Run);
    let length = after_front(&rt, b"values 31331\n");
    check_refused(&rt, &length, DumpReadFault::Build(BuildFault::Length(0)));
}

/// The table's dump is made, written and parsed; each of these may run out of memory.
fn check_memory(rt: &(impl Abort + Alloc<A = Global>), table: &Table) {
    let Ok(dump) = Dump::of(rt.alloc(), table) else {
        return;
    };
    let mut output = Std::new(Vec::new(rt.alloc()));
    if write_dump(&dump, 2, &mut output).is_err() {
        return;
    }
    match read_dump(rt.alloc(), &mut Bytes::new(output.inner().as_slice())) {
        Ok(same) => assert!(rt; same.lists.len() == dump.lists.len()),
        Err(fault) => assert!(rt; fault == DumpReadFault::Memory),
    }
}

/// For runs in which each allocation in turn is refused: the only error is `Memory`.
#[test]
fn refused_growths_are_want_of_memory(rt: HostRuntime) {
    let Ok(files) = szg_fixtures::of_all_sections(rt.alloc()) else {
        return;
    };
    for file in &files {
        match answer(&rt, file) {
            Ok(table) => check_memory(&rt, &table),
            Err(fault) => assert!(rt; fault == ReadFault::Memory),
        }
    }
}
