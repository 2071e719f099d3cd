//! The command that prints a table as text, and the one that builds a table of it.
use super::fixtures::{knvk_wdl_constant, kpvk_dtz_mapped, kqvk_wdl_unpaired};
use super::{check_line, check_printed, check_wrong_words, words_of};
use std::alloc::{AllocError, Global};
use std::test::Fail;
use szg_answers::run;
use szg_io::Std;

/// The dump of the constant table.
const CONSTANT: &str =
    "szg-dump 2\nname KNvK\nkind wdl\nend 000102030405060708090a0b0c0d0e0f\npart a order 00 men 6622ee\nsub a 0\nvalues 31332\n31332 2\nsub a 1\nvalues 31332\n31332 2\n";

/// The same with a value that no table may have.
const HIGH: &str =
    "szg-dump 2\nname KNvK\nkind wdl\nend 000102030405060708090a0b0c0d0e0f\npart a order 00 men 6622ee\nsub a 0\nvalues 31332\n31332 2\nsub a 1\nvalues 31332\n31332 5\n";

/// The dump of the table with two maps.
const MAPPED: &str =
    "szg-dump 2\nname KPvK\nkind dtz\nend 000102030405060708090a0b0c0d0e0f\npart a order 00 men 01060e\npart b order 00 men 01060e\npart c order 00 men 01060e\npart d order 00 men 01060e\nsub a 0\nflags 2\nmap 0 1\n7\nmap 1 0\nmap 2 0\nmap 3 0\nvalues 23436\n23436 0\nsub b 0\nflags 18\nmap 0 1\n300\nmap 1 0\nmap 2 0\nmap 3 0\nvalues 23436\n23436 0\nsub c 0\nflags 0\nvalues 23436\n23436 0\nsub d 0\nflags 0\nvalues 23436\n23436 0\n";

/// The dump of the constant table with a line for each value.
fn constant_by_values(alloc: Global) -> Result<Vec<u8>, AllocError> {
    let mut text = Vec::from_slice(
        alloc,
        b"szg-dump 1\nname KNvK\nkind wdl\nend 000102030405060708090a0b0c0d0e0f\npart a order 00 men 6622ee\n",
    )?;
    for side in [b"sub a 0\n", b"sub a 1\n"] {
        text.extend_from_slice(side)?;
        text.extend_from_slice(b"values 31332\n")?;
        for _ in 0..31332 {
            text.extend_from_slice(b"2\n")?;
        }
    }
    Ok(text)
}

#[test]
fn dumps(rt: HostRuntime) -> Result<(), Fail> {
    let constant = knvk_wdl_constant(rt.alloc())?;
    check_line(&rt, "szg dump KNvK wdl", &constant, 0, CONSTANT)?;
    let text = constant_by_values(rt.alloc())?;
    let words = ["szg", "dump", "--form", "01", "KNvK", "wdl"];
    check_printed(&rt, &words, &constant, 0, &text);
    let mapped = kpvk_dtz_mapped(rt.alloc())?;
    check_line(&rt, "szg dump KPvK dtz --form 2", &mapped, 0, MAPPED)?;
    Ok(())
}

#[test]
fn dumps_are_built(rt: HostRuntime) -> Result<(), Fail> {
    let constant = knvk_wdl_constant(rt.alloc())?;
    let words = ["szg", "build"];
    check_printed(&rt, &words, CONSTANT.as_bytes(), 0, &constant);
    let text = constant_by_values(rt.alloc())?;
    check_printed(&rt, &words, &text, 0, &constant);
    let mapped = kpvk_dtz_mapped(rt.alloc())?;
    check_printed(&rt, &words, MAPPED.as_bytes(), 0, &mapped);
    Ok(())
}

#[test]
fn sizes_are_requested(rt: HostRuntime) -> Result<(), Fail> {
    let file = kqvk_wdl_unpaired(rt.alloc())?;
    let mut text = Std::new(Vec::new(rt.alloc()));
    let dump = ["szg", "dump", "KQvK", "wdl"];
    let _outcome = run(rt.alloc(), &dump, &mut Std::new(file.as_slice()), &mut text);
    let build = [
        "szg", "build", "--block", "5", "--span", "16", "--rounds", "0",
    ];
    check_printed(&rt, &build, text.inner().as_slice(), 0, &file);
    Ok(())
}

/// The dump of a table of KQvK. Side 0 has five values without an order, side 1 is constant.
fn disordered(alloc: Global) -> Result<Vec<u8>, AllocError> {
    let mut text = Vec::from_slice(
        alloc,
        b"szg-dump 1\nname KQvK\nkind wdl\nend 000102030405060708090a0b0c0d0e0f\npart a order 00 men 6655ee\nsub a 0\nvalues 31332\n",
    )?;
    let mut state = 35u32;
    for _ in 0..31332 {
        state = state.wrapping_mul(1103515245).wrapping_add(12345);
        text.push(b'0' + ((state >> 16) % 5) as u8)?;
        text.push(b'\n')?;
    }
    text.extend_from_slice(b"sub a 1\nvalues 31332\n")?;
    for _ in 0..31332 {
        text.extend_from_slice(b"2\n")?;
    }
    Ok(text)
}

/// What `show` prints of the table that these words build of the dump.
fn shown_when_built(alloc: Global, line: &str, dump: &[u8]) -> Result<String, Fail> {
    let words = words_of(alloc, line)?;
    let mut built = Std::new(Vec::new(alloc));
    let _outcome = run(alloc, &words, &mut Std::new(dump), &mut built);
    let mut shown = Std::new(Vec::new(alloc));
    let show = ["szg", "show", "KQvK", "wdl"];
    let _outcome = run(
        alloc,
        &show,
        &mut Std::new(built.inner().as_slice()),
        &mut shown,
    );
    Ok(String::from_str(alloc, str::from_utf8(shown.inner().as_slice())?)?)
}

/// The sizes that are given are taken, and else the defaults. A symbol for each value, and one for each round of pairs.
#[test]
fn sizes_are_taken(rt: HostRuntime) -> Result<(), Fail> {
    let dump = disordered(rt.alloc())?;
    for (line, sizes, symbols) in [
        (
            "szg build",
            "sub a 0 flags 0 size 31332 block 6 span 12 ",
            " symbols 261\n",
        ),
        (
            "szg build --block 8 --span 5 --rounds 9",
            "sub a 0 flags 0 size 31332 block 8 span 5 ",
            " symbols 14\n",
        ),
    ] {
        let shown = shown_when_built(rt.alloc(), line, &dump)?;
        assert!(&rt; shown.as_str().contains(sizes), "sizes of {line}: {shown}");
        assert!(&rt;
            shown.as_str().contains(symbols),
            "symbols of {line}: {shown}"
        );
    }
    Ok(())
}

#[test]
fn dumps_are_refused(rt: HostRuntime) -> Result<(), Fail> {
    check_line(&rt, "szg build", b"", 1, "refused line 1: Ended\n")?;
    check_line(
        &rt,
        "szg build",
        b"szg-dump 3\n",
        1,
        "refused line 1: Version\n",
    )?;
    let high = HIGH.as_bytes();
    check_line(
        &rt,
        "szg build --rounds 0",
        high,
        1,
        "refused build: Value\n",
    )
}

#[test]
fn sizes_are_refused(rt: HostRuntime) -> Result<(), Fail> {
    check_wrong_words(
        &rt,
        CONSTANT.as_bytes(),
        &[
            "szg build --block 4",
            "szg build --block 11",
            "szg build --span 0",
            "szg build --span 17",
            "szg build --rounds 4001",
            "szg build KNvK",
        ],
    )
}
