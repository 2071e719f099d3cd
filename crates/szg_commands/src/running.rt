//! A run of the program: a command line on a machine's files and on an input and an output.
ghost use Rattle.std.specs.Prelude.{◌≡◌, ◌⊎◌, IfOk, OnErr, OnOk, if◌then◌else◌, map, string_bytes};

use crate::statuses::{ending_status, status_of};
use std::alloc::{AllocError, Global};
use std::env::{self, Env};
use std::io::{self, BufWriter, Read, Write};
use std::process::ExitCode;
use std::rt::Files;
use std::time::Clock;
use szg_answers::{Ending, Outcome, run_copies, run_words};
use szg_archive::escaped_path;
use szg_build::Watcher;
use szg_files::{Disk, Lock, Monitored};
use szg_io::{ReadAhead, Std};
use szg_shown::{Above, ReadLine, write_results};
use szg_verified::{VerificationAsked, run_verification};
use szg_verify::Watcher as WalkWatcher;
use szg_words::{Clap, FolderWords, assumes_win, copies_of, meant_name, probe_of, verification_of};

/// The words of the command line.
pub fn words_given(rt: &(impl Env + AllocGlobal)) -> io::Result<Vec<String>> {
    Ok(env::args(rt)?.collect(rt.alloc())?)
}

/// The words as texts.
fn texts_of<'a>(alloc: Global, words: &'a [String]) -> Result<Vec<&'a str>, AllocError>
    ensures { IfOk result (λ texts. map (λ text. text.now) texts.items ≡ map (λ word. string_bytes word) words.now) }
{
    let mut texts = Vec::new(alloc);
    'words: for word in words {
        texts.push(word.as_str())?;
    }
    Ok(texts)
}

/// Runs the words of a command line on a machine's files, on an input and an output; faults, and the class for which a DTZ table
/// is probed if the words give none, are printed on standard error.
/// `watcher` sees a build or a verification, and `reads` shows what is read of files. `is_terminal` says whether the output is a
/// terminal.
pub fn run_given<D: Files + Clock>(
    rt: &(impl Eprint + AllocGlobal),
    machine: &D,
    words: &[String],
    is_terminal: bool,
    input: impl Read + Drop,
    output: impl Write + Drop,
    watcher: &mut (impl Watcher + WalkWatcher),
    reads: &ReadLine<'_, impl Eprint, impl Clock>,
) -> ExitCode
where
    D::File: Lock,
{
    let Ok(texts) = texts_of(rt.alloc(), words) else {
        return status_of(rt, &Outcome::Memory);
    };
    let texts = texts.as_slice();
    match verification_of(rt.alloc(), texts) {
        Ok(Some(asked)) => {
            let verified = verify_words(rt.alloc(), machine, &asked, output, watcher);
            return status_of(rt, &outcome_of(verified));
        }
        Ok(None) => {}
        Err(_) => return status_of(rt, &Outcome::Memory),
    }
    if let Some(asked) = probe_of(texts) {
        let written = write_results(rt.alloc(), machine, asked, is_terminal, input, output);
        return status_of(rt, &outcome_of(written));
    }
    let status = run_command(rt, machine, texts, input, output, watcher, reads);
    if status == ExitCode::SUCCESS && assumes_win(words) {
        let _ = eprintln!(rt; "this is the number of a win: for another class give --class");
    }
    status
}

/// Runs the words of a command on tables, dumps or files, as `run_given`. Nothing that follows a table or a dump is taken from
/// the input.
fn run_command<'a, D: Files + Clock>(
    rt: &(impl Eprint + AllocGlobal),
    machine: &'a D,
    texts: &'a [&'a str],
    input: impl Read + Drop,
    output: impl Write + Drop,
    watcher: &mut impl Watcher,
    reads: &'a ReadLine<'_, impl Eprint, impl Clock>,
) -> ExitCode
where
    D::File: Lock,
{
    let Ok(copies) = copies_of(rt.alloc(), texts) else {
        return status_of(rt, &Outcome::Memory);
    };
    // each line of a check or a copy is written when its file was checked, so that a run that is cut off leaves whole lines
    let buffer = match copies {
        None if texts.get(1) != Some(&"check") => 1 << 13,
        _ => 0,
    };
    let above = Monitored::new(Above { output, reads });
    let Ok(mut writer) = BufWriter::with_capacity(rt.alloc(), buffer, above) else {
        return status_of(rt, &Outcome::Memory);
    };
    let mut disk = Disk::watched(rt.alloc(), machine, reads);
    let mut reader = ReadAhead::new(rt.alloc(), Std::new(input));
    let mut output = Std::new(&mut writer);
    let ending = match &copies {
        Some(asked) => run_copies(rt.alloc(), &mut disk, machine, asked, &mut output),
        None => run_words(
            rt.alloc(),
            &Clap,
            texts,
            &mut disk,
            machine,
            &mut reader,
            &mut output,
            watcher,
        ),
    };
    let ending = finish(ending, writer.flush());
    let is_closed = match writer.get_ref().error() {
        Some(error) => error.kind() == io::ErrorKind::BrokenPipe,
        None => false,
    };
    reads.erase();
    if is_refused(&ending) && !is_closed {
        print_meant(rt, texts);
    }
    ending_status(rt, ending, is_closed)
}

/// Verifies what a command line asks for, and writes a line for each material and a summary, or the line of a shard. Returns
/// whether all is verified or logged.
///
/// Errors: the output's; an allocation was refused.
fn verify_words(
    alloc: Global,
    machine: &impl Files,
    asked: &FolderWords<'_>,
    mut output: impl Write + Drop,
    watcher: &mut impl WalkWatcher,
) -> io::Result<bool> {
    let Some((folder, names)) = asked.words.split_first() else {
        return Ok(false);
    };
    let asked = VerificationAsked {
        folder,
        names,
        log: asked.log,
        shard: asked.shard,
    };
    let run = run_verification(alloc, machine, asked, &mut output, watcher)?;
    Ok(run.is_passed())
}

/// Returns the outcome of a command that wrote its lines and says whether nothing was refused, or that failed.
fn outcome_of(written: io::Result<bool>) -> Outcome
    ensures done { IfOk written (λ is_good. result ≡ if is_good then Outcome.Done else Outcome.Refused) }
    ensures failed { OnErr written ((result ≡ Outcome.Device) ⊎ (result ≡ Outcome.Memory)) }
{
    match written {
        Ok(true) => Outcome::Done,
        Ok(false) => Outcome::Refused,
        Err(error) if error.kind() == io::ErrorKind::OutOfMemory => Outcome::Memory,
        Err(_) => Outcome::Device,
    }
}

/// The ending of a run after the last flush of the output: a device's failure if the flush failed.
fn finish<'a>(ending: Ending<'a>, flushed: io::Result<()>) -> Ending<'a>
    ensures done { OnOk flushed (result ≡ ending.entry) }
    ensures failed { OnErr flushed (result ≡ Ending.Device) }
{
    match flushed {
        Ok(()) => ending,
        Err(_) => Ending::Device,
    }
}

/// Whether something was refused.
fn is_refused(ending: &Ending<'_>) -> bool {
    match ending {
        Ending::Words(Outcome::Refused) | Ending::Refused => true,
        Ending::Checked(Ok(Some(report))) | Ending::Listed { report, .. } => report.counts.refused
            > 0,
        _ => false,
    }
}

/// Prints on standard error, for each word with the sides exchanged, the name that is meant.
fn print_meant(rt: &(impl Eprint + AllocGlobal), texts: &[&str]) {
    'texts: for text in texts {
        if let (Ok(Some(meant)), Ok(text)) = (
            meant_name(rt.alloc(), text),
            escaped_path(rt.alloc(), text),
        ) {
            let _ = eprintln!(rt; "{text}: the side with more men comes first: {meant}");
        }
    }
}
