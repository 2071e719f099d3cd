//! Calls of readers, writers and sources: fields and chunks are moved whole, and not byte by byte.

use crate::files::{answer, made, material};
use std::alloc::Global;
use std::process::Abort;
use szg_block::{Image, Watch};
use szg_file::{open, read, write};
use szg_fixtures::{Counted, Fixture};
use szg_io::Std;

/// At most `most` calls moved `moved` bytes.
fn check_calls<'a>(rt: &impl Abort, device: &Std<Counted<'a>>, moved: usize, most: u64) {
    let counted = device.inner();
    assert!(rt; counted.moved == moved as u64, "{} bytes", counted.moved);
    assert!(rt; counted.calls <= most, "{} calls", counted.calls);
}

/// The number of fields of the longest fixture, blocks counted one by one.
const FIELDS: u64 = 160;

/// A file is read with at most a call for each field, and written with at most one for each 2 KiB.
fn check_file(rt: &(impl Abort + Alloc<A = Global>), file: &Fixture) {
    let size = file.bytes.len();
    let mut input = Std::new(Counted::new(&file.bytes));
    assert!(rt; read(rt.alloc(), material(rt, file), file.kind, &mut input).is_ok());
    check_calls(rt, &input, size, FIELDS);
    let mut output = Std::new(Counted::new(&[]));
    assert!(rt; write(&made(rt, answer(rt, file)), &mut output).is_ok());
    check_calls(rt, &output, size, size as u64 / 2048 + 1);
}

#[test]
fn calls_of_files(rt: HostRuntime) {
    for file in &made(&rt, szg_fixtures::of_all_sections(rt.alloc())) {
        check_file(&rt, file);
    }
}

/// A table is opened with at most a call for each field, and with one for up to 64 KiB of blocks; as many bytes are
/// requested as there are.
fn check_opened(rt: &(impl Abort + Alloc<A = Global>), file: &Fixture, most: u64) {
    let source = Watch::new(Image::new(&file.bytes), 0);
    match open(rt.alloc(), material(rt, file), file.kind, source) {
        Err(_) => panic!(rt; "it is not opened"),
        Ok(opened) => {
            let source = opened.source();
            assert!(rt; source.calls() <= most, "{} calls", source.calls());
            let end = source.last_place().saturating_add(source.last_length());
            assert!(rt; end == file.bytes.len() as u64, "up to {end}");
        }
    }
}

#[test]
fn calls_of_a_source(rt: HostRuntime) {
    for file in &made(&rt, szg_fixtures::of_all_sections(rt.alloc())) {
        check_opened(&rt, file, 64);
    }
    check_opened(
        &rt,
        &made(&rt, szg_fixtures::kqvk_wdl_one_block(rt.alloc())),
        32,
    );
}
