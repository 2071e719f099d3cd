//! The statuses with which the program ends, and the lines on standard error that come with them.
ghost use Rattle.std.specs.Prelude.{◌≡◌, ◌⊎◌, false, true};
ghost use Rattle.std.specs.Process.{exit_status};
ghost use Rattle.szg_answers.specs.Outcome.{OnDone, OnRefused, status_of};
ghost use Rattle.szg_commands.specs.Statuses.{HasStatus, tally_status};

use std::alloc::AllocError;
use std::io;
use std::process::ExitCode;
use szg_answers::{Ending, FileFailure, LineKind, Outcome};
use szg_archive::{CheckCounts, escaped_path};
use szg_named::fault_text;

/// The status where the words of the command line can't be had: one is no text, or memory is short.
pub fn no_words_status(rt: &impl Eprint, error: &io::Error) -> ExitCode
    ensures { exit_status result ≡ 0 → ⊥ }
{
    if error.kind() == io::ErrorKind::OutOfMemory {
        return status_of(rt, &Outcome::Memory);
    }
    match eprintln!(rt; "a word of the command line is no text") {
        Ok(()) => ExitCode::from(2),
        Err(_) => ExitCode::from(Outcome::Device.status()),
    }
}

/// The status of an outcome, whose fault is printed on standard error; a device's where that fails.
pub fn status_of(rt: &impl Eprint, outcome: &Outcome) -> ExitCode
    ensures status { (exit_status result ≡ status_of outcome.now) ⊎ (exit_status result ≡ 3) }
    // Where nothing is printed, nothing fails.
    ensures done { OnDone outcome.now (exit_status result ≡ 0) }
    ensures refused { OnRefused outcome.now (exit_status result ≡ 1) }
{
    let stated = match outcome {
        Outcome::Done | Outcome::Refused => Ok(()),
        Outcome::Device => eprintln!(rt; "device fault"),
        Outcome::Memory => eprintln!(rt; "out of memory"),
        Outcome::Words(error) => eprint!(rt; "{error}"),
    };
    ExitCode::from(match stated {
        Ok(()) => outcome.status(),
        Err(_) => Outcome::Device.status(),
    })
}

/// The status of a check of files: 1 where one is refused, else 3 where one can't be read.
fn tally_status(tally: &CheckCounts) -> ExitCode
    ensures { exit_status result ≡ tally_status tally.now }
{
    if tally.refused > 0 {
        return ExitCode::from(1);
    }
    if tally.unread > 0 {
        return ExitCode::from(3);
    }
    ExitCode::from(0)
}

/// The status where a file failed: the file and the reason are printed on standard error.
fn failure_status(rt: &(impl Eprint + AllocGlobal), failure: FileFailure<'_>) -> ExitCode
    ensures { (exit_status result ≡ 3) ⊎ (exit_status result ≡ 4) }
{
    let FileFailure { path, fault } = failure;
    let Ok(reason) = fault_text(rt.alloc(), &fault) else {
        return status_of(rt, &Outcome::Memory);
    };
    print_fault(rt, path, Ok(reason));
    ExitCode::from(Outcome::Device.status())
}

/// Prints a path and what is wrong with its file on standard error. In the path control characters and backslashes are `\xNN`,
/// as in records.
fn print_fault(rt: &(impl Eprint + AllocGlobal), path: &str, reason: Result<String, AllocError>) {
    if let (Ok(path), Ok(reason)) = (escaped_path(rt.alloc(), path), reason) {
        let _ = eprintln!(rt; "{path}: {reason}");
    }
}

/// The status of a run. Nothing is printed if the reader of the output closed it.
pub(crate) fn ending_status(
    rt: &(impl Eprint + AllocGlobal),
    ending: Ending<'_>,
    is_closed: bool,
) -> ExitCode
    ensures closed { (is_closed ≡ true) → exit_status result ≡ 3 }
    ensures open { (is_closed ≡ false) → HasStatus ending.entry (exit_status result) }
{
    if is_closed {
        return ExitCode::from(Outcome::Device.status());
    }
    match ending {
        Ending::Words(outcome) => status_of(rt, &outcome),
        Ending::Checked(Ok(Some(report))) => tally_status(&report.counts),
        Ending::Checked(Ok(None)) => status_of(rt, &Outcome::Device),
        Ending::Checked(Err(_)) => status_of(rt, &Outcome::Memory),
        Ending::Done(_) => status_of(rt, &Outcome::Done),
        Ending::Refused => status_of(rt, &Outcome::Refused),
        Ending::Failed(failure) => failure_status(rt, failure),
        Ending::Listed {
            report,
            written: Ok(_),
            ..
        } => tally_status(&report.counts),
        Ending::Listed {
            target: path,
            written: Err(fault),
            ..
        } => failure_status(rt, FileFailure { path, fault }),
        Ending::BadLine { path, line, due } => {
            let due = match due {
                LineKind::Sum => "a digest and a name",
                LineKind::Record => "a record of szg check --format tsv or json",
            };
            print_fault(rt, path, format!(in rt.alloc(); "line {line} isn't {due}"));
            ExitCode::from(Outcome::Device.status())
        }
        Ending::Device => status_of(rt, &Outcome::Device),
        Ending::Memory => status_of(rt, &Outcome::Memory),
    }
}
