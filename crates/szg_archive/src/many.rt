//! The check of many files.
ghost use Rattle.std.specs.Prelude.{◌≡◌, ◌+◌, ◌<◌, ◌^◌, IfNone, IfOk, IfSome, map, string_bytes};
ghost use Rattle.szg_io.specs.Device.{HasFailed};
ghost use Rattle.szg_archive.specs.Records.{IsShownLine, is_bad, manifest_line, report_end};
ghost use Rattle.szg_archive.specs.Verdicts.{IsFoundReport, IsLeftOut, IsReport, IsReportOn, IsVerdictAt, listed_of, plain_options};

use crate::counts::CheckCounts;
use crate::due::due_of;
use crate::entries::{PathToCheck, entries_at, files_at, in_shard, missing};
use crate::file_verdict::FileVerdict;
use crate::lines::summary_line;
use crate::log::FileState;
use crate::one::{CheckedFile, check_path};
use crate::options::CheckOptions;
use crate::records::{Timing, json_summary, report_line, sum_line};
use std::alloc::{AllocError, Global};
use std::os::unix::fs::MetadataExt;
use std::rt::Files;
use std::time::{Clock, Duration, Instant};
use szg_files::FileSystem;
use szg_io::{Output, give_whole};
use szg_named::ReportFormat;

/// What a check has found: the numbers of files, and, if it is asked for, a list of the SHA-256 digests of those that passed.
#[derive(Drop)]
pub struct CheckReport {
    pub counts: CheckCounts,
    pub manifest: Vec<u8>,
}

/// The time since an earlier reading of a clock. None if there is none, or the clock fails.
fn time_since<C: Clock>(clock: &C, started: Option<Instant>) -> Option<Duration> {
    let started = started?;
    Some(Instant::now(clock).ok()?.duration_since(started))
}

/// The state of the file at a path. None if it isn't known, or it changed before 1970.
fn state_at<R: Files>(files: &R, path: &str) -> Option<FileState> {
    let metadata = files.metadata(path).ok()?;
    let seconds = u64::try_from(metadata.mtime()).ok()?;
    let nanos = u64::try_from(metadata.mtime_nsec()).ok()?;
    Some(FileState {
        length: metadata.len(),
        modified: seconds.checked_mul(1_000_000_000)?.checked_add(nanos)?,
    })
}

/// Whether a file is refused or unread.
fn is_bad(verdict: &FileVerdict, allow_trailing: bool) -> bool
    ensures { result ≡ is_bad allow_trailing verdict.now }
{
    match verdict {
        FileVerdict::Whole(_) | FileVerdict::Kept(_) | FileVerdict::Skipped(_) => false,
        FileVerdict::Trailing(_) => !allow_trailing,
        _ => true,
    }
}

/// What the report has of a file, where only bad ones may be wanted.
fn shown_line(
    alloc: Global,
    options: CheckOptions<'_>,
    path: &str,
    verdict: &FileVerdict,
    timing: Timing,
) -> Result<Vec<u8>, AllocError>
    ensures { IfOk result (λ line. IsShownLine options.entry.quiet options.entry.format options.entry.allow_trailing path.now verdict.now line.items) }
{
    let CheckOptions {
        format,
        allow_trailing,
        quiet,
        ..
    } = options;
    if !quiet || is_bad(verdict, allow_trailing) {
        report_line(alloc, format, allow_trailing, path, verdict, timing)
    } else {
        Ok(Vec::new(alloc))
    }
}

/// What a list of digests has of a file: its line if it passed, and a digest was asked for.
fn manifest_line(
    alloc: Global,
    allow_trailing: bool,
    path: &str,
    found: CheckedFile,
) -> Result<Vec<u8>, AllocError>
    ensures { IfOk result (λ line. line.items ≡ manifest_line allow_trailing path.now found.verdict found.digest) }
{
    let Some(digest) = found.digest else {
        return Ok(Vec::new(alloc));
    };
    if is_bad(&found.verdict, allow_trailing) {
        return Ok(Vec::new(alloc));
    }
    sum_line(alloc, &digest, path)
}

/// The verdict on an entry, what the report has of it, and what the list of digests has.
#[derive(Drop)]
struct Reported {
    found: CheckedFile,
    line: Vec<u8>,
    listed: Vec<u8>,
}

/// Returns the length of the file at a path, if it is in the state in which its last record says that it was good, and no digest
/// of it is asked for.
#[tactic(auto, using(crate::proofs::Logging::left_out))]
fn kept_length<R: Files>(
    alloc: Global,
    files: &R,
    options: CheckOptions<'_>,
    path: &str,
) -> Result<Option<u64>, AllocError>
    ensures { IfOk result (λ kept. IfSome kept (λ length. IsLeftOut options.entry path.now length)) }
{
    if options.sums.is_some() || options.has_manifest {
        return Ok(None);
    }
    let Some(log) = options.log else {
        return Ok(None);
    };
    let Some(good) = log.last_state(alloc, path)? else {
        return Ok(None);
    };
    let Some(state) = state_at(files, path) else {
        return Ok(None);
    };
    if state.length == good.length && state.modified == good.modified {
        Ok(Some(good.length))
    } else {
        Ok(None)
    }
}

/// Finds what is known of an entry, or else what the check of its file and of its digest finds; and times that where a record
/// has the seconds.
#[tactic(auto, using(crate::proofs::Reporting::due_is))]
fn report_entry<S: FileSystem, D: Files + Clock>(
    alloc: Global,
    system: &mut S,
    machine: &D,
    options: CheckOptions<'_>,
    entry: &PathToCheck,
) -> Result<Reported, AllocError>
    ensures verdict { IfOk result (λ reported. IsVerdictAt S.content S.failures S.File.Input options.entry (string_bytes entry.now.path) entry.now.note system.old system.new reported.found) }
    ensures line { IfOk result (λ reported. IsShownLine options.entry.quiet options.entry.format options.entry.allow_trailing (string_bytes entry.now.path) reported.found.verdict reported.line.items) }
    ensures listed { IfOk result (λ reported. reported.listed.items ≡ manifest_line options.entry.allow_trailing (string_bytes entry.now.path) reported.found.verdict reported.found.digest) }
{
    let path = entry.path.as_str();
    // before the file is read: what changes while it is read has another time then
    let modified = match (options.format, entry.note) {
        (ReportFormat::Tsv | ReportFormat::Json, None) => {
            state_at(machine, path).map(|state| state.modified)
        }
        _ => None,
    };
    let started = match options.format {
        ReportFormat::Text => None,
        ReportFormat::Tsv | ReportFormat::Json => Instant::now(machine).ok(),
    };
    let found = if let Some(verdict) = entry.note {
        CheckedFile::undigested(verdict)
    } else if let Some(length) = kept_length(alloc, machine, options, path)? {
        CheckedFile::undigested(FileVerdict::Kept(length))
    } else {
        let due = due_of(alloc, options.sums, path)?;
        check_path(
            alloc,
            system,
            options.naming,
            path,
            due,
            options.has_manifest,
        )?
    };
    let elapsed = time_since(machine, started);
    let timing = Timing { elapsed, modified };
    let line = shown_line(alloc, options, path, &found.verdict, timing)?;
    let listed = manifest_line(alloc, options.allow_trailing, path, found)?;
    Ok(Reported {
        found,
        line,
        listed,
    })
}

/// What follows the last file.
fn report_end(
    alloc: Global,
    format: ReportFormat,
    tally: &CheckCounts,
) -> Result<String, AllocError>
    requires { tally.now.good + tally.now.refused + tally.now.unread + tally.now.kept < 2 ^ 64 }
    ensures { IfOk result (λ text. string_bytes text ≡ report_end format tally.now) }
{
    match format {
        ReportFormat::Text | ReportFormat::Tsv => summary_line(alloc, tally),
        ReportFormat::Json => json_summary(alloc, tally),
    }
}

/// Checks the files at these paths in their order, as `check_entries` with no options.
pub fn check_files<S: FileSystem, D: Files + Clock, W: Output>(
    alloc: Global,
    system: &mut S,
    machine: &D,
    paths: &[&str],
    writer: &mut W,
) -> Result<Option<CheckReport>, AllocError>
    ensures report { IfOk result (λ report. IfSome report (IsReport S.content S.failures S.File.Input W.Output plain_options (map (λ path. path.now) paths.now) system.old system.new writer.old writer.new)) }
    ensures found { IfOk result (λ report. IfSome report (IsFoundReport S.content S.failures S.File.Input W.Output plain_options (map (λ path. path.now) paths.now) system.old system.new writer.old writer.new)) }
    ensures device { IfOk result (λ report. IfNone report (HasFailed (W.failures writer.old) (W.failures writer.new) (W.interrupted writer.new))) }
{
    let entries = files_at(alloc, paths)?;
    check_entries(
        alloc,
        system,
        machine,
        CheckOptions::plain(),
        &entries,
        writer,
    )
}

/// Checks the files at these paths and the table files below folders, in their order, as `check_entries`. What is below a
/// folder comes in the byte order of the paths. A path that ends as a table's file does isn't taken for a folder. Tables that
/// lists of sums name and that aren't there come last. Of all these a shard has its own.
pub fn check_found<S: FileSystem, D: Files + Clock, W: Output>(
    alloc: Global,
    system: &mut S,
    machine: &D,
    options: CheckOptions<'_>,
    paths: &[&str],
    writer: &mut W,
) -> Result<Option<CheckReport>, AllocError>
    ensures found { IfOk result (λ report. IfSome report (IsFoundReport S.content S.failures S.File.Input W.Output options.entry (map (λ path. path.now) paths.now) system.old system.new writer.old writer.new)) }
    ensures device { IfOk result (λ report. IfNone report (HasFailed (W.failures writer.old) (W.failures writer.new) (W.interrupted writer.new))) }
{
    let mut entries = entries_at(alloc, machine, paths)?;
    let mut more = missing(alloc, options.sums, &entries)?;
    entries.append(&mut more)?;
    let chosen = in_shard(alloc, options.shard, entries)?;
    check_entries(alloc, system, machine, options, &chosen, writer)
}

/// Checks the files of these entries in their order; writes a line or a record of each, and a summary. The clock and the
/// files' times are read for records alone, or where there is a log.
///
/// None if the writer failed. Errors: an allocation was refused.
pub fn check_entries<S: FileSystem, D: Files + Clock, W: Output>(
    alloc: Global,
    system: &mut S,
    machine: &D,
    options: CheckOptions<'_>,
    entries: &[PathToCheck],
    writer: &mut W,
) -> Result<Option<CheckReport>, AllocError>
    ensures report { IfOk result (λ report. IfSome report (λ r. IsReportOn S.content S.failures S.File.Input W.Output options.entry (map listed_of entries.now) system.old system.new writer.old writer.new r.counts r.manifest.items)) }
    ensures device { IfOk result (λ report. IfNone report (HasFailed (W.failures writer.old) (W.failures writer.new) (W.interrupted writer.new))) }
{
    let mut tally = CheckCounts::default();
    let mut manifest = Vec::new(alloc);
    'entries: for entry in entries {
        let reported = report_entry(alloc, system, machine, options, entry)?;
        if give_whole(writer, &reported.line).is_err() {
            return Ok(None);
        }
        manifest.extend_from_slice(&reported.listed)?;
        tally = tally.with(&reported.found.verdict, options.allow_trailing);
    }
    let end = report_end(alloc, options.format, &tally)?;
    if give_whole(writer, end.as_bytes()).is_err() {
        return Ok(None);
    }
    Ok(Some(CheckReport {
        counts: tally,
        manifest,
    }))
}
