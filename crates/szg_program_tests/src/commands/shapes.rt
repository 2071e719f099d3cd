//! A table of many shapes: parts and maps that differ, words of two lengths, values above a byte, a long list.
use super::fixtures::kpvk_dtz_shapes;
use super::{check_lines, check_printed};
use std::alloc::{AllocError, Global};
use std::test::Fail;

/// What `show` prints of the table.
const SHOWN: &str =
    "name KPvK\nkind dtz\nbytes 208\nflags 130\npart a order 00 men 01060e\npart b order 01 men 010e06\npart c order 02 men 01060e\npart d order 30 men 21567e\nsub a 0 flags 130 constant 0\nmap a 2 0 1 3\nsub b 0 flags 18 size 23436 block 4 span 15 extra 0 blocks 1 min 1 max 2 symbols 10\nmap b 1 3 0 2\nsub c 0 flags 128 constant 0\nsub d 0 flags 129 constant 0\nend 000102030405060708090a0b0c0d0e0f\n";

/// The values of part b, a line each: more than are written at a time.
fn lines(alloc: Global) -> Result<Vec<u8>, AllocError> {
    let mut text = Vec::new(alloc);
    for _ in 0..23436 / 2 {
        text.extend_from_slice(b"300\n2\n")?;
    }
    Ok(text)
}

#[test]
fn shapes(rt: HostRuntime) -> Result<(), Fail> {
    let file = kpvk_dtz_shapes(rt.alloc())?;
    check_lines(
        &rt,
        &file,
        &[
            ("szg show KPvK dtz", 0, SHOWN),
            ("szg get KPvK dtz 23434 --part b", 0, "300\n"),
            (
                "szg get KPvK dtz 23435 --part b --steps",
                0,
                "2 moves 0 words 92 descents 8 fetches 1\n",
            ),
        ],
    )?;
    let values = lines(rt.alloc())?;
    let words = ["szg", "values", "KPvK", "dtz", "--part", "b"];
    check_printed(&rt, &words, &file, 0, &values);
    Ok(())
}
