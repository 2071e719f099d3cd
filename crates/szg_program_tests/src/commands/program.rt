//! The program on an input and an output in memory: what it prints on either stream, and its status.
use super::fixtures::kpvk_wdl_numbered;
use std::alloc::{AllocError, Global};
use std::cell::RefCell;
use std::fmt::Display;
use std::fs::File;
use std::io::{self, ErrorKind, Write};
use std::process::{Abort, ExitCode};
use std::rt::Files;
use std::test::Fail;
use std::time::Clock;
use szg_commands::{no_words_status, run_given};
use szg_shown::{ProgressLine, ReadLine};

/// Standard error in memory.
#[derive(Drop)]
pub struct Stderr {
    text: RefCell<String>,
}

impl Eprint for Stderr {
    fn eprint<D: Display + Drop>(&self, value: D) -> io::Result<()> {
        let mut text = self.text.try_borrow_mut()?;
        write!(text, "{value}")?;
        Ok(())
    }

    fn eprintln<D: Display + Drop>(&self, value: D) -> io::Result<()> {
        let mut text = self.text.try_borrow_mut()?;
        writeln!(text, "{value}")?;
        Ok(())
    }
}

impl Stderr {
    /// Creates it without a text.
    pub fn new(alloc: Global) -> Stderr {
        Stderr {
            text: RefCell::new(String::new(alloc)),
        }
    }

    /// Returns its text, and begins it anew.
    pub fn take(&self, alloc: Global) -> Result<String, Fail> {
        Ok(self.text.try_replace(String::new(alloc))?)
    }
}

/// The words of a line.
fn words_of(alloc: Global, line: &str) -> Result<Vec<String>, AllocError> {
    let mut words = Vec::new(alloc);
    for word in line.split(' ') {
        words.push(String::from_str(alloc, word)?)?;
    }
    Ok(words)
}

/// A command line with its status, and what is printed on standard output and on standard error.
type Case<'a> = (&'a str, u8, &'a str, &'a str);

/// Runs the words of a line, and returns the status and what is printed on standard error.
fn run_line(
    rt: &(impl Abort + Alloc<A = Global> + Files<File = File> + Clock),
    line: &str,
    input: &[u8],
    output: impl Write + Drop,
) -> Result<(ExitCode, String), Fail> {
    let words = words_of(rt.alloc(), line)?;
    let errors = (Stderr::new(rt.alloc()), rt.alloc());
    let status = run_given(
        &errors,
        rt,
        &words,
        false,
        input,
        output,
        &mut ProgressLine::new(&errors, rt, false),
        &ReadLine::new(&errors, rt, false),
    );
    Ok((status, errors.0.take(rt.alloc())?))
}

/// What is printed on standard error for words that make no command: nothing on standard output, and status 2.
pub fn printed_as_error(
    rt: &(impl Abort + Alloc<A = Global> + Files<File = File> + Clock),
    line: &str,
) -> Result<String, Fail> {
    let mut output = Vec::new(rt.alloc());
    let (status, faults) = run_line(rt, line, b"", &mut output)?;
    assert_eq!(rt; output.len(), 0, "standard output of {line}");
    assert_eq!(rt; status, ExitCode::from(2), "status of {line}");
    Ok(faults)
}

/// The program prints on each stream what the cases say, and ends with their status.
fn check_cases(
    rt: &(impl Abort + Alloc<A = Global> + Files<File = File> + Clock),
    input: &[u8],
    cases: &[Case<'_>],
) -> Result<(), Fail> {
    for (line, status, printed, faults) in cases {
        let mut output = Vec::new(rt.alloc());
        let (ended, stated) = run_line(rt, line, input, &mut output)?;
        assert_eq!(rt; stated.as_str(), *faults, "standard error of {line}");
        assert_eq!(rt;
            output.as_slice(),
            printed.as_bytes(),
            "standard output of {line}"
        );
        assert_eq!(rt; ended, ExitCode::from(*status), "status of {line}");
    }
    Ok(())
}

/// Command lines with the status, the standard output and the standard error that they end with.
static ENDINGS: [(&str, u8, &str, &str); 19] = [
    ("szg check KPvK wdl", 0, "ok 80\n", ""),
    ("szg get KPvK wdl 5", 0, "0\n", ""),
    ("szg get KPvK wdl 5 --side 1", 0, "1\n", ""),
    ("szg get KPvK wdl 5 --part b", 0, "2\n", ""),
    ("szg get KPvK wdl 5 --part c", 0, "4\n", ""),
    ("szg get --part=d KPvK wdl --side=1 5", 0, "7\n", ""),
    ("szg probe KPvK wdl w Ke1 Pc2 ke8", 0, "2\n", ""),
    ("szg probe KPvK wdl b Ke1 Pa2 ke8", 0, "-1\n", ""),
    ("szg probe KPvK wdl b Ke1 Pc2 ke8", 0, "none\n", ""),
    (
        "szg placement KPvK wdl 21564 --part d",
        0,
        "w Kd1 Pd2 kd8\n",
        "",
    ),
    (
        "szg placement KPvK wdl 21564 --part d --side 1",
        0,
        "b Kd1 Pd2 kd8\n",
        "",
    ),
    ("szg check KPvK dtz", 1, "refused at 0: Magic\n", ""),
    (
        "szg check KvKP wdl",
        1,
        "refused name: Sides\n",
        "KvKP: the side with more men comes first: KPvK\n",
    ),
    ("szg --version", 2, "", "szg 2.0.0\n"),
    ("szg -V", 2, "", "szg 2.0.0\n"),
    (
        "szg frob",
        2,
        "",
        "error: unrecognized subcommand 'frob'\n\n  tip: a similar subcommand exists: 'probe'\n\nUsage: szg <COMMAND>\n\nFor more information, try '--help'.\n",
    ),
    (
        "szg get KPvK wdl 0 --side 2",
        2,
        "",
        "error: invalid value '2' for '--side <SIDE>': not a number from 0 to 1\n\nUsage: szg get [OPTIONS] <NAME> <KIND> <INDEX>\n\nFor more information, try '--help'.\n",
    ),
    (
        "szg check no/KPvK.rtbw",
        3,
        "no/KPvK.rtbw: No such file or directory\nfiles 1: ok 0, refused 0, unread 1\n",
        "",
    ),
    (
        "szg show no/KPvK.rtbw",
        3,
        "",
        "no/KPvK.rtbw: No such file or directory\n",
    ),
];

#[test]
fn streams_and_statuses(rt: HostRuntime) -> Result<(), Fail> {
    let file = kpvk_wdl_numbered(rt.alloc())?;
    check_cases(&rt, &file, &ENDINGS)
}

/// The help of the program.
const HELP: &str =
    "Check, show, copy, dump and build Syzygy table files, and look up values and placements in them.\nReads the table file (for build: the dump) from standard input, or by its path.\n\nUsage: szg <COMMAND>\n\nCommands:\n  check      Check a table file, and print ok and its length in bytes\n  show       Print the header of a table file: its parts, orders, flags and sizes\n  get        Print the stored value at an index\n  values     Print all stored values of one part and side, one per line\n  copy       Check a table file, and write it without any bytes that follow it\n  dump       Print a table as text, which build takes\n  build      Build a table file from a dump\n  index      Print the part, side and index of a placement\n  probe      Print the stored value of a placement: not its result if a capture (WDL), or a capture or pawn\n             move (DTZ), decides; en passant and the fifty-move counter don't change it; szg probe FOLDER FEN\n             prints the result\n  verify     Verify a folder's tables against chess: each position against its own moves\n  placement  Print the placement at an index: the side to move, and the men\n  help       Print this message or the help of the given subcommand(s)\n\nOptions:\n  -h, --help     Print help\n  -V, --version  Print version\n\nExamples:\n  szg probe tables '7k/8/8/8/8/8/3Q4/K7 w - - 0 1'\n  szg check *.rtbw *.rtbz\n  szg get KQvK.rtbw 31331 --side 1\n  szg get KQvK wdl 31331 --side 1 < KQvK.rtbw\n\nA FILE that ends in .rtbw or .rtbz replaces NAME and KIND: szg get --help prints the options for\nfiles, szg get KQvK wdl --help those for standard input. szg build takes the file of a dump.\n\nExit status: 0 done; 1 refused, and a line on standard output gives the reason; 2 wrong words, or\nhelp; 3 standard input or output failed; 4 out of memory.\n";

#[test]
fn help(rt: HostRuntime) -> Result<(), Fail> {
    for line in ["szg", "szg --help", "szg -h", "szg help"] {
        let printed = printed_as_error(&rt, line)?;
        assert_eq!(&rt; printed.as_str(), HELP, "help of {line}");
    }
    Ok(())
}

#[test]
fn values_of_each_side(rt: HostRuntime) -> Result<(), Fail> {
    let file = kpvk_wdl_numbered(rt.alloc())?;
    for (line, value) in [
        ("szg values KPvK wdl", b"0\n"),
        ("szg values KPvK wdl --side 1", b"1\n"),
        ("szg values KPvK wdl --part c", b"4\n"),
        ("szg values --side=1 KPvK wdl --part=d", b"7\n"),
    ] {
        let mut output = Vec::new(rt.alloc());
        let (status, _faults) = run_line(&rt, line, &file, &mut output)?;
        let mut due = Vec::new(rt.alloc());
        for _ in 0..23436 {
            due.extend_from_slice(value)?;
        }
        assert_eq!(&rt;
            output.as_slice(),
            due.as_slice(),
            "standard output of {line}"
        );
        assert_eq!(&rt; status, ExitCode::from(0), "status of {line}");
    }
    Ok(())
}

#[test]
fn full_output(rt: HostRuntime) -> Result<(), Fail> {
    let file = kpvk_wdl_numbered(rt.alloc())?;
    // the first two fail at the last flush, the third at a write, the last prints nothing on standard output
    for (line, status, faults) in [
        ("szg check KPvK wdl", 3, "device fault\n"),
        ("szg check KPvK dtz", 3, "device fault\n"),
        ("szg values KPvK wdl", 3, "device fault\n"),
        ("szg --version", 2, "szg 2.0.0\n"),
    ] {
        let mut none = [0u8; 0];
        let (ended, stated) = run_line(&rt, line, &file, none.as_mut_slice())?;
        assert_eq!(&rt; stated.as_str(), faults, "standard error of {line}");
        assert_eq!(&rt; ended, ExitCode::from(status), "status of {line}");
    }
    Ok(())
}

#[test]
fn words_that_cannot_be_had(rt: HostRuntime) -> Result<(), Fail> {
    for (kind, status, text) in [
        (
            ErrorKind::InvalidData,
            2,
            "a word of the command line is no text\n",
        ),
        (ErrorKind::OutOfMemory, 4, "out of memory\n"),
    ] {
        let errors = Stderr::new(rt.alloc());
        let ended = no_words_status(&errors, &io::Error::from(kind));
        let stated = errors.take(rt.alloc())?;
        assert_eq!(&rt; stated.as_str(), text);
        assert_eq!(&rt; ended, ExitCode::from(status));
    }
    Ok(())
}
