//! Command lines on files in memory.
use super::fixtures::{
    first_bytes, knvk_wdl_constant, kqvk_wdl_lone_word, kqvk_wdl_unpaired, with_byte,
};
use super::words_of;
use std::alloc::Global;
use std::fs::File;
use std::process::Abort;
use std::rt::Files;
use std::test::Fail;
use std::time::Clock;
use szg_answers::{Ending, run_words};
use szg_build::Unwatched;
use szg_files::{MemoryFile, MemoryFiles};
use szg_io::Std;
use szg_words::Clap;

/// The words of this line, on these files and with nothing on standard input, print this text.
fn check_on_files(
    rt: &(impl Abort + Alloc<A = Global> + Files<File = File> + Clock),
    line: &str,
    files: &[MemoryFile<'_>],
    text: &str,
) -> Result<(), Fail> {
    let words = words_of(rt.alloc(), line)?;
    let mut system = MemoryFiles { files, failures: 0 };
    let mut reader = Std::new(b"".as_slice());
    let mut writer = Std::new(Vec::new(rt.alloc()));
    let ending = run_words(
        rt.alloc(),
        &Clap,
        &words,
        &mut system,
        rt,
        &mut reader,
        &mut writer,
        &mut Unwatched,
    );
    assert_eq!(rt;
        writer.inner().as_slice(),
        text.as_bytes(),
        "text of {line}"
    );
    assert_eq!(rt;
        matches!(ending, Ending::Words(_)),
        false,
        "ending of {line}"
    );
    Ok(())
}

/// Returns a file of a folder in memory.
fn file<'a>(path: &'a str, bytes: &'a [u8]) -> MemoryFile<'a> {
    MemoryFile { path, bytes }
}

/// Each of these command lines, on these files, prints its text.
fn check_all(
    rt: &(impl Abort + Alloc<A = Global> + Files<File = File> + Clock),
    files: &[MemoryFile<'_>],
    cases: &[(&str, &str)],
) -> Result<(), Fail> {
    for (line, text) in cases {
        check_on_files(rt, line, files, text)?;
    }
    Ok(())
}

/// Command lines on files by name, and what they print.
static BY_NAME: [(&str, &str); 9] = [
    (
        "szg check KNvK.rtbw cut/KNvK.rtbw KRvK.rtbw KQvK.rtbw",
        "KNvK.rtbw: ok 80\ncut/KNvK.rtbw: refused at 79: Truncated\nKRvK.rtbw: entity not found\nKQvK.rtbw: ok 4304\nfiles 4: ok 2, refused 1, unread 1\n",
    ),
    (
        "szg check --name KNvK --kind dtz KNvK.rtbw",
        "KNvK.rtbw: refused at 0: Magic\nfiles 1: ok 0, refused 1, unread 0\n",
    ),
    (
        "szg check long/KNvK.rtbw",
        "long/KNvK.rtbw: refused at 80: Trailing\nfiles 1: ok 0, refused 1, unread 0\n",
    ),
    (
        "szg check --allow-trailing long/KNvK.rtbw",
        "long/KNvK.rtbw: ok 80, more bytes follow\nfiles 1: ok 1, refused 0, unread 0\n",
    ),
    ("szg get KQvK.rtbw 31331", "4\n"),
    ("szg get KQvK.rtbw 31331 --side 1", "2\n"),
    (
        "szg get cut/KNvK.rtbw 5 --part c",
        "refused at 79: Truncated\n",
    ),
    ("szg get KQvK.rtbw 31332", "refused index\n"),
    ("szg get KRvK.rtbw 5", ""),
];

#[test]
fn files_by_name(rt: HostRuntime) -> Result<(), Fail> {
    let knight = knvk_wdl_constant(rt.alloc())?;
    let mut cut = knvk_wdl_constant(rt.alloc())?;
    let _last = cut.pop();
    let mut long = knvk_wdl_constant(rt.alloc())?;
    long.push(0)?;
    let queen = kqvk_wdl_unpaired(rt.alloc())?;
    let files = [
        file("KNvK.rtbw", &knight),
        file("cut/KNvK.rtbw", &cut),
        file("long/KNvK.rtbw", &long),
        file("KQvK.rtbw", &queen),
    ];
    check_all(&rt, &files, &BY_NAME)
}

/// Look-ups in a sound file.
static IN_A_SOUND_FILE: [(&str, &str); 13] = [
    ("szg get KQvK.rtbw 11711", "4\n"),
    ("szg get KQvK.rtbw 11711 --verify", "4\n"),
    ("szg get KQvK.rtbw 5 --side 1", "2\n"),
    ("szg get KQvK.rtbw 31332", "refused index\n"),
    ("szg get KQvK.rtbw 5 --part b", "refused part\n"),
    ("szg get table --name KQvK --kind wdl 5", ""),
    ("szg get KQvK.rtbw 5 --name KvKQ", "refused name: Sides\n"),
    (
        "szg index KQvK.rtbw w Ke8 Qa1 kh1",
        "part a side 0 index 11711\n",
    ),
    (
        "szg index KQvK.rtbw w Ke8 Na1 kh1",
        "refused place: OtherMaterial\n",
    ),
    ("szg index KQvK.rtbw w Xe8", "refused man\n"),
    ("szg probe KQvK.rtbw w Ke8 Qa1 kh1", "2\n"),
    ("szg probe KQvK.rtbw b Ke8 Qa1 kh1", "0\n"),
    (
        "szg probe KQvK.rtbw w Ke8 Na1 kh1",
        "refused place: OtherMaterial\n",
    ),
];

/// Look-ups in a file of which one block is damaged.
static BESIDE_A_DAMAGED_BLOCK: [(&str, &str); 11] = [
    // the block under the value is damaged
    (
        "szg get block/KQvK.rtbw 11711",
        "refused block 45 at 1760\n",
    ),
    (
        "szg probe block/KQvK.rtbw w Ke8 Qa1 kh1",
        "refused block 45 at 1760\n",
    ),
    (
        "szg get block/KQvK.rtbw 11711 --verify",
        "refused at 1760: Word\n",
    ),
    (
        "szg probe block/KQvK.rtbw w Ke8 Qa1 kh1 --verify",
        "refused at 1760: Word\n",
    ),
    // another block is damaged, or none is read
    ("szg get block/KQvK.rtbw 11519", "4\n"),
    ("szg get block/KQvK.rtbw 11776", "4\n"),
    (
        "szg get block/KQvK.rtbw 11519 --verify",
        "refused at 1760: Word\n",
    ),
    (
        "szg get block/KQvK.rtbw 11519 --steps",
        "refused at 1760: Word\n",
    ),
    (
        "szg index block/KQvK.rtbw w Ke8 Qa1 kh1",
        "part a side 0 index 11711\n",
    ),
    (
        "szg index block/KQvK.rtbw w Ke8 Qa1 kh1 --verify",
        "refused at 1760: Word\n",
    ),
    ("szg probe block/KQvK.rtbw b Ke8 Qa1 kh1", "0\n"),
];

/// Look-ups in files whose front is damaged, that end too early or are missing.
static IN_NO_SOUND_FRONT: [(&str, &str); 10] = [
    // the front is damaged, or the file ends too early
    ("szg get head/KQvK.rtbw 5", "refused at 0: Magic\n"),
    (
        "szg index head/KQvK.rtbw w Ke8 Qa1 kh1",
        "refused at 0: Magic\n",
    ),
    (
        "szg probe head/KQvK.rtbw w Ke8 Qa1 kh1",
        "refused at 0: Magic\n",
    ),
    ("szg get short/KQvK.rtbw 5", "refused at 4303: Truncated\n"),
    (
        "szg probe short/KQvK.rtbw w Ke8 Qa1 kh1",
        "refused at 4303: Truncated\n",
    ),
    (
        "szg index cut/KQvK.rtbw w Ke8 Qa1 kh1",
        "refused at 300: Truncated\n",
    ),
    ("szg get long/KQvK.rtbw 5", "4\n"),
    // a missing file
    ("szg get none/KQvK.rtbw 5", ""),
    ("szg index none/KQvK.rtbw w Ke8 Qa1 kh1", ""),
    ("szg probe none/KQvK.rtbw w Ke8 Qa1 kh1", ""),
];

#[test]
fn look_ups_by_the_front(rt: HostRuntime) -> Result<(), Fail> {
    let good = kqvk_wdl_lone_word(rt.alloc())?;
    // block 45 has the values from 11520 to 11775
    let block = with_byte(kqvk_wdl_lone_word(rt.alloc())?, 320 + 45 * 32, 0x80);
    let head = with_byte(kqvk_wdl_lone_word(rt.alloc())?, 0, 0);
    let mut long = kqvk_wdl_lone_word(rt.alloc())?;
    long.push(0)?;
    let short = first_bytes(rt.alloc(), &good, 4303)?;
    let cut = first_bytes(rt.alloc(), &good, 300)?;
    let files = [
        file("KQvK.rtbw", &good),
        file("block/KQvK.rtbw", &block),
        file("head/KQvK.rtbw", &head),
        file("long/KQvK.rtbw", &long),
        file("short/KQvK.rtbw", &short),
        file("cut/KQvK.rtbw", &cut),
    ];
    check_all(&rt, &files, &IN_A_SOUND_FILE)?;
    check_all(&rt, &files, &BESIDE_A_DAMAGED_BLOCK)?;
    check_all(&rt, &files, &IN_NO_SOUND_FRONT)
}
