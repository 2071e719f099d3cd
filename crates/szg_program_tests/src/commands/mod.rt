//! Runs of the program over bytes in memory.
mod dumps;
mod files;
mod fixtures;
mod placements;
mod program;
mod shapes;
mod texts;
mod verification;
mod words;

use fixtures::{knvk_wdl_constant, kpvk_dtz_mapped, kqvk_wdl_unpaired};
use std::alloc::{AllocError, Global};
use std::process::Abort;
use std::test::Fail;
use szg_answers::{Outcome, run};
use szg_io::{Cut, Std};

/// What `show` prints of the constant table.
const SHOWN: &str =
    "name KNvK\nkind wdl\nbytes 80\nflags 1\npart a order 00 men 6622ee\nsub a 0 flags 128 constant 2\nsub a 1 flags 128 constant 2\nend 000102030405060708090a0b0c0d0e0f\n";

/// What `show` prints of the table of values 2 and 4.
const SHOWN_BLOCKS: &str =
    "name KQvK\nkind wdl\nbytes 4304\nflags 1\npart a order 00 men 6655ee\nsub a 0 flags 0 size 31332 block 5 span 16 extra 1 blocks 123 min 1 max 1 symbols 2\nsub a 1 flags 128 constant 2\nend 000102030405060708090a0b0c0d0e0f\n";

/// What `show` prints of the table with two maps.
const SHOWN_MAPS: &str =
    "name KPvK\nkind dtz\nbytes 80\nflags 3\npart a order 00 men 01060e\npart b order 00 men 01060e\npart c order 00 men 01060e\npart d order 00 men 01060e\nsub a 0 flags 130 constant 0\nmap a 1 0 0 0\nsub b 0 flags 146 constant 0\nmap b 1 0 0 0\nsub c 0 flags 128 constant 0\nsub d 0 flags 128 constant 0\nend 000102030405060708090a0b0c0d0e0f\n";

/// The words on these bytes end with this status and print these bytes.
fn check_printed(
    rt: &(impl Abort + Alloc<A = Global>),
    words: &[&str],
    bytes: &[u8],
    status: u8,
    printed: &[u8],
) {
    let mut reader = Std::new(bytes);
    let mut writer = Std::new(Vec::new(rt.alloc()));
    let outcome = run(rt.alloc(), words, &mut reader, &mut writer);
    assert_eq!(rt; outcome.status(), status, "status of {words:?}");
    assert_eq!(rt; writer.inner().as_slice(), printed, "text of {words:?}");
}

/// The words on these bytes end with this status and print this text.
fn check_run(
    rt: &(impl Abort + Alloc<A = Global>),
    words: &[&str],
    bytes: &[u8],
    status: u8,
    text: &str,
) {
    check_printed(rt, words, bytes, status, text.as_bytes());
}

/// The words of a line.
fn words_of<'a>(alloc: Global, line: &'a str) -> Result<Vec<&'a str>, AllocError> {
    let mut words = Vec::new(alloc);
    for word in line.split(' ') {
        words.push(word)?;
    }
    Ok(words)
}

/// The words of this line, on these bytes, end with this status and print this text.
fn check_line(
    rt: &(impl Abort + Alloc<A = Global>),
    line: &str,
    bytes: &[u8],
    status: u8,
    text: &str,
) -> Result<(), Fail> {
    let words = words_of(rt.alloc(), line)?;
    check_run(rt, &words, bytes, status, text);
    Ok(())
}

/// The words of each line, on these bytes, end with its status and print its text.
fn check_lines(
    rt: &(impl Abort + Alloc<A = Global>),
    bytes: &[u8],
    lines: &[(&str, u8, &str)],
) -> Result<(), Fail> {
    for (line, status, text) in lines {
        check_line(rt, line, bytes, *status, text)?;
    }
    Ok(())
}

/// The words of each line make no command, and nothing is printed.
fn check_wrong_words(
    rt: &(impl Abort + Alloc<A = Global>),
    bytes: &[u8],
    lines: &[&str],
) -> Result<(), Fail> {
    for line in lines {
        check_line(rt, line, bytes, 2, "")?;
    }
    Ok(())
}

#[test]
fn constant_table(rt: HostRuntime) -> Result<(), Fail> {
    let mut file = knvk_wdl_constant(rt.alloc())?;
    check_lines(
        &rt,
        &file,
        &[
            ("szg show KNvK wdl", 0, SHOWN),
            ("szg check KNvK wdl", 0, "ok 80\n"),
            ("szg show KvKN wdl", 1, "refused name: Sides\n"),
        ],
    )?;
    let _last = file.pop();
    check_line(
        &rt,
        "szg show KNvK wdl",
        &file,
        1,
        "refused at 79: Truncated\n",
    )
}

#[test]
fn copied_and_listed(rt: HostRuntime) -> Result<(), Fail> {
    let file = knvk_wdl_constant(rt.alloc())?;
    check_printed(&rt, &["szg", "copy", "KNvK", "wdl"], &file, 0, &file);
    let mut lines = Vec::new(rt.alloc());
    for _ in 0..31332 {
        lines.extend_from_slice(b"2\n")?;
    }
    check_printed(&rt, &["szg", "values", "KNvK", "wdl"], &file, 0, &lines);
    Ok(())
}

#[test]
fn table_of_blocks(rt: HostRuntime) -> Result<(), Fail> {
    let file = kqvk_wdl_unpaired(rt.alloc())?;
    check_lines(
        &rt,
        &file,
        &[
            ("szg check KQvK wdl", 0, "ok 4304\n"),
            ("szg show KQvK wdl", 0, SHOWN_BLOCKS),
            ("szg get KQvK wdl 31331", 0, "4\n"),
            ("szg get KQvK wdl 0031331 --side 1", 0, "2\n"),
            (
                "szg get KQvK wdl 31331 --steps",
                0,
                "4 moves 1 words 100 descents 0 fetches 1\n",
            ),
            (
                "szg get --steps KQvK wdl 0",
                0,
                "2 moves 123 words 1 descents 0 fetches 1\n",
            ),
            (
                "szg get KQvK wdl 7 --side 1 --steps",
                0,
                "2 moves 0 words 0 descents 0 fetches 0\n",
            ),
            ("szg get --part b KQvK wdl 31331", 1, "refused part\n"),
            ("szg get KQvK wdl 31332", 1, "refused index\n"),
            ("szg values KQvK wdl --part b", 1, "refused part\n"),
        ],
    )
}

#[test]
fn table_of_distances(rt: HostRuntime) -> Result<(), Fail> {
    let file = kpvk_dtz_mapped(rt.alloc())?;
    check_lines(
        &rt,
        &file,
        &[
            ("szg show KPvK dtz", 0, SHOWN_MAPS),
            ("szg get KPvK dtz 0 --side 1", 1, "refused part\n"),
            ("szg show KPvK wdl", 1, "refused at 0: Magic\n"),
        ],
    )
}

#[test]
fn words_that_make_no_command(rt: HostRuntime) -> Result<(), Fail> {
    check_run(&rt, &[], b"", 2, "");
    check_wrong_words(
        &rt,
        b"",
        &[
            "szg",
            "szg --help",
            "szg --version",
            "szg show KNvK",
            "szg show KNvK dtm",
            "szg get KNvK wdl +1",
            "szg get KNvK wdl 9223372036854775808",
            "szg get KNvK wdl 1 --side 2",
            "szg get KNvK wdl 1 --steps --steps",
            "szg values KNvK wdl --steps",
            "szg dump KNvK wdl --form 3",
            "szg get KNvK wdl 1 --side 0 --side 0",
        ],
    )
}

/// The words of this line, on these bytes by a reader that is cut at this call, end with this status and print this text.
fn check_cut(
    rt: &(impl Abort + Alloc<A = Global>),
    line: &str,
    bytes: &[u8],
    cut: u64,
    status: u8,
    text: &str,
) -> Result<(), Fail> {
    let words = words_of(rt.alloc(), line)?;
    let mut reader = Cut::new(Std::new(bytes), 7, 0, cut);
    let mut writer = Std::new(Vec::new(rt.alloc()));
    let outcome = run(rt.alloc(), &words, &mut reader, &mut writer);
    assert_eq!(rt; outcome.status(), status);
    assert_eq!(rt; writer.inner().as_slice(), text.as_bytes());
    Ok(())
}

#[test]
fn readers_that_fail(rt: HostRuntime) -> Result<(), Fail> {
    let file = knvk_wdl_constant(rt.alloc())?;
    check_cut(&rt, "szg copy KNvK wdl", &file, 3, 3, "")?;
    check_cut(
        &rt,
        "szg show KvKN wdl",
        &file,
        1,
        1,
        "refused name: Sides\n",
    )
}

#[test]
fn writers_that_fail(rt: HostRuntime) -> Result<(), Fail> {
    let file = knvk_wdl_constant(rt.alloc())?;
    let mut reader = Std::new(file.as_slice());
    let mut writer = Cut::new(Std::new(Vec::new(rt.alloc())), 8, 0, 6);
    let words = ["szg", "copy", "KNvK", "wdl"];
    let outcome = run(rt.alloc(), &words, &mut reader, &mut writer);
    assert_eq!(&rt; outcome.status(), 3);
    assert_eq!(&rt; writer.inner().inner().len(), 40);
    Ok(())
}
