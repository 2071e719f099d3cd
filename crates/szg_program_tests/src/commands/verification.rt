//! Verifications of folders in memory, and what a terminal shows of them.
use super::fixtures::{knvk_wdl_with, kqvk_wdl_lone_word};
use super::program::Stderr;
use std::alloc::Global;
use std::cell::Cell;
use std::io;
use std::process::Abort;
use std::test::Fail;
use std::time::{Clock, Duration};
use szg_files::{MemoryFile, MemoryFiles, ReadWatcher};
use szg_shown::{ProgressLine, ReadLine};
use szg_values::Material;
use szg_verified::verify_folder;
use szg_verify::Watcher;

/// A clock that goes on by a second at each reading.
#[derive(Drop)]
struct Seconds {
    passed: Cell<u64>,
}

impl Clock for Seconds {
    fn monotonic(&self) -> io::Result<Duration> {
        self.since_1970()
    }

    fn since_1970(&self) -> io::Result<Duration> {
        let passed = self.passed.get().saturating_add(1);
        self.passed.set(passed);
        Ok(Duration::from_secs(passed))
    }
}

fn new_clock() -> Seconds {
    Seconds {
        passed: Cell::new(0),
    }
}

fn material(rt: &impl Abort, name: &str) -> Material {
    match Material::parse(name) {
        Ok(material) => material,
        Err(_) => panic!(rt; "no material"),
    }
}

/// The verification of a material in the folder `t` of these files writes this text, and does not verify all.
fn check_folder(
    rt: &(impl Abort + Alloc<A = Global>),
    files: &[MemoryFile<'_>],
    name: &str,
    text: &str,
) -> Result<(), Fail> {
    let mut asked = Vec::new(rt.alloc());
    asked.push(material(rt, name))?;
    let mut system = MemoryFiles { files, failures: 0 };
    let errors = Stderr::new(rt.alloc());
    let clock = new_clock();
    let mut output = Vec::new(rt.alloc());
    let found = verify_folder(
        rt.alloc(),
        &mut system,
        "t",
        asked,
        None,
        &mut output,
        &mut ProgressLine::new(&errors, &clock, false),
    );
    assert_eq!(rt; output.as_slice(), text.as_bytes(), "text of {name}");
    match found {
        Ok(verification) => assert!(rt; !verification.is_all, "outcome of {name}"),
        Err(_) => panic!(rt; "{name} was not verified to the end"),
    }
    Ok(())
}

#[test]
fn what_a_folder_lacks(rt: HostRuntime) -> Result<(), Fail> {
    let won = knvk_wdl_with(rt.alloc(), 4)?;
    let queen = kqvk_wdl_lone_word(rt.alloc())?;
    let files = [
        MemoryFile {
            path: "t/KNvK.rtbw",
            bytes: &won,
        },
        MemoryFile {
            path: "t/KQvK.rtbw",
            bytes: &queen,
        },
    ];
    for (name, text) in [
        (
            "KQvK",
            "KQvK refused 8/8/8/8/8/8/8/kQK5 b - - 0 1: a mate is taken as something else\nnot all verified: materials 1, verified 0, positions 0\n",
        ),
        (
            "KNvKN",
            "KNvK refused missing table KNvK dtz\nKNvKN unchecked: it leads to KNvK\nnot all verified: materials 2, verified 0, positions 0\n",
        ),
        (
            "KPvK",
            "KQvK refused 8/8/8/8/8/8/8/kQK5 b - - 0 1: a mate is taken as something else\nKRvK refused missing table KRvK wdl\nKBvK refused missing table KBvK wdl\nKNvK refused missing table KNvK dtz\nKPvK unchecked: it leads to KQvK\nnot all verified: materials 5, verified 0, positions 0\n",
        ),
    ] {
        check_folder(&rt, &files, name, text)?;
    }
    Ok(())
}

#[test]
fn progress_on_a_terminal(rt: HostRuntime) -> Result<(), Fail> {
    let errors = Stderr::new(rt.alloc());
    let clock = new_clock();
    let mut line = ProgressLine::new(&errors, &clock, true);
    let queen = material(&rt, "KQvK");
    line.see_progress(&queen, 65_536, 262_144, 10_000);
    line.see_progress(&queen, 131_072, 262_144, 22_000);
    Watcher::end(&mut line);
    let shown = errors.take(rt.alloc())?;
    assert_eq!(&rt;
        shown.as_str(),
        "\r\x1b[KKQvK: 22000 positions, 12000 a second, 2 s left\r\x1b[K"
    );
    Ok(())
}

#[test]
fn reads_on_a_terminal(rt: HostRuntime) -> Result<(), Fail> {
    for (is_terminal, text) in [
        (
            true,
            "\r\x1b[Kfiles 1, 3 MB, 3 MB a second\r\x1b[Kfiles 2, 3 MB, 1 MB a second\r\x1b[Kfiles 2, 8 MB, 2 MB a second",
        ),
        (false, ""),
    ] {
        let errors = Stderr::new(rt.alloc());
        let clock = new_clock();
        let line = ReadLine::new(&errors, &clock, is_terminal);
        line.see_open();
        line.see_read(3_999_999);
        line.see_open();
        line.see_read(4_000_001);
        let shown = errors.take(rt.alloc())?;
        assert_eq!(&rt; shown.as_str(), text, "terminal {is_terminal}");
    }
    Ok(())
}
