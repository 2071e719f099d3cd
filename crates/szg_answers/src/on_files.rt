//! Commands on files by their paths.
ghost use Rattle.std.specs.Prelude.{◌≡◌, ◌⊎◌, [], None, Some, IfOk, IsErrOf, IfSome, IsSome, IsNone, OnOk, map, option_map};
ghost use Rattle.szg_files.specs.Draft.{draft_target, published_target, published_text, text_of};
ghost use Rattle.szg_io.specs.Device.{HasFailed};
ghost use Rattle.szg_io.specs.Moved.{Gives};
ghost use Rattle.szg_archive.specs.Requested.{files_to_check};
ghost use Rattle.szg_archive.specs.Verdicts.{IsFoundReport, IsReport, plain_options};
ghost use Rattle.szg_words.specs.Requested.{IsLookUp};
ghost use Rattle.szg_answers.specs.OnFiles.{AreChecked, EndsCheck, IsAskedReport, IsGiven, EndsTask, EndsWell, HasDoneTask, HasLookedUp, HasRefusedLookUp, HasRefusedTask, IsListing, IsShortOfMemory, IsTargetOf, IsUnwritten, ListsFile, ListsValues, MeetsTask, asked_of};
ghost use Rattle.szg_answers.specs.RefusalLines.{refusal_line};
ghost use Rattle.szg_answers.specs.declared.on_files.FileFailure.{FileFailure};
ghost use Rattle.szg_answers.specs.declared.refusal.Refusal.{Refusal};

use crate::commands::{carry_out, refuse, run_by, words_outcome};
use crate::fronts::answer_in;
use crate::outcome::Outcome;
use crate::refusal::{Refusal, Stop};
use crate::saying::say;
use crate::streaming::{device_stop, lists_values, stream_from};
use std::alloc::{AllocError, Global};
use std::rt::Files;
use std::time::Clock;
use szg_archive::{
    CheckOptions, CheckReport, ListFailure, Log, check_files, check_found, files_to_check, kind_at,
    read_lists,
};
use szg_build::Watcher;
use szg_file::{ReadFault, open_front};
use szg_files::{Disk, Draft, FileFault, FileSystem, Lock, Published, Reasons};
use szg_io::{Input, Output, give_whole};
use szg_named::named_by;
use szg_sums::Sums;
use szg_values::{Kind, Material};
use szg_words::{CheckJob, FileJob, Finder, Request, Task, names_files, parse_files};

/// A file that can't be opened, read or written, and why.
#[derive(Clone, Copy)]
pub struct FileFailure<'a> {
    pub path: &'a str,
    pub fault: FileFault,
}

/// Why a task on files wasn't carried out.
pub(crate) type FileStop<'a> = Stop<FileFailure<'a>>;

/// Why a file stops a task.
pub(crate) fn failed(path: &str, fault: FileFault) -> FileStop<'_>
    ensures refused { (refusal : Refusal) → (result ≡ Stop.Refused refusal) → ⊥ }
    ensures memory { (result ≡ Stop.Memory) → fault ≡ FileFault.Memory }
{
    match fault {
        FileFault::Memory => Stop::Memory,
        fault => Stop::Failed(FileFailure { path, fault }),
    }
}

/// Whether the file at a path is what a name says of its table. A name whose beginning is no material's says the kind only.
fn is_table_of(
    alloc: Global,
    files: &impl Files,
    path: &str,
    name: &str,
    kind: Kind,
) -> Result<bool, FileFault> {
    let Ok(material) = Material::parse(name) else {
        return Ok(kind_at(files, path) == Some(kind));
    };
    let mut disk = Disk::new(alloc, files);
    let mut file = disk.open(path)?;
    let size = disk.len(&file)?;
    match open_front(alloc, material, kind, size, &mut file) {
        Ok(_) => Ok(true),
        Err(ReadFault::Refused { .. }) => Ok(false),
        Err(ReadFault::Memory) => Err(FileFault::Memory),
        Err(ReadFault::Device) => Err(FileFault::of(file.reason())),
    }
}

/// Flushes a draft to the disk, and renames it over its target. A target that is named as a table becomes no other one, and no
/// dump.
fn published<'a, R: Files>(
    alloc: Global,
    draft: Draft<'a, R>,
    files: &'a R,
    target: &'a str,
) -> Result<Published<'a>, FileStop<'a>>
    ensures text { IfOk result (λ published. published_text published ≡ text_of draft.entry.file) }
    ensures target { IfOk result (λ published. published_target published ≡ draft_target draft.entry) }
    ensures refused { (refusal : Refusal) → IsErrOf result (Stop.Refused refusal) → ⊥ }
{
    let sealed = draft.seal(None).map_err(|fault| failed(target, fault))?;
    if let Some((name, kind)) = named_by(target) {
        let fault = match is_table_of(alloc, files, sealed.path(), name, kind) {
            Ok(true) => None,
            Ok(false) => Some(FileFault::OtherTable),
            Err(fault) => Some(fault),
        };
        if let Some(fault) = fault {
            sealed.discard();
            return Err(failed(target, fault));
        }
    }
    sealed.publish().map_err(|fault| failed(target, fault))
}

/// Carries a task out on the reader, or writes the values of the file at `source` while that is read. Where it is refused
/// nothing was written.
fn carry_out_on<'a, S: FileSystem, R: Input, W: Output, V: Watcher>(
    alloc: Global,
    task: &Task,
    source: Option<&'a str>,
    system: &mut S,
    reader: &mut R,
    writer: &mut W,
    watcher: &mut V,
) -> Result<(), FileStop<'a>>
    requires listed { IsSome source → ListsValues task.now }
    ensures stated { OnOk result (HasDoneTask S.content S.failures S.File.Input R.Input W.Output task.now source.entry None system.old system.new reader.old reader.new writer.old writer.new None) }
    ensures refused { (refusal : Refusal) → IsErrOf result (Stop.Refused refusal) → (writer.new ≡ writer.old)
        × MeetsTask S.content S.failures S.File.Input R.Input task.now source.entry system.old system.new reader.old reader.new refusal }
    // where values are written while the file is read, a part of them may be written then
    ensures failed { (failure : FileFailure) → IsErrOf result (Stop.Failed failure) → ListsFile task.now source.entry }
    ensures device { IsErrOf result Stop.Device → ListsFile task.now source.entry ⊎ IsUnwritten W.Output writer.old writer.new }
    ensures memory { IsErrOf result Stop.Memory → ListsFile task.now source.entry ⊎ IsShortOfMemory S.content S.failures S.File.Input R.Input W.Output task.now source.entry system.old system.new reader.old reader.new writer.old writer.new }
    ensures reader { IsSome source.entry → reader.new ≡ reader.old }
    ensures system { IsNone source.entry → system.new ≡ system.old }
{
    let source = match source {
        Some(source) => source,
        None => return match carry_out(alloc, task, reader, writer, watcher) {
            Ok(()) => Ok(()),
            Err(Stop::Refused(refusal)) => Err(Stop::Refused(refusal)),
            Err(Stop::Device) => Err(Stop::Device),
            Err(Stop::Memory) => Err(Stop::Memory),
        },
    };
    match task {
        Task::OnTable(request) => stream_from(alloc, request, source, system, writer),
        Task::Build(_) => unreachable!(),
    }
}

/// Carries a task out as `carry_out_on`; its answer goes to the file at `target`, whole or not at all, else to the writer.
fn carry_out_to<'a, S: FileSystem, D: Files, R: Input, W: Output, V: Watcher>(
    alloc: Global,
    task: &Task,
    source: Option<&'a str>,
    target: Option<&'a str>,
    system: &mut S,
    files: &'a D,
    reader: &mut R,
    writer: &mut W,
    watcher: &mut V,
) -> Result<Option<Published<'a>>, FileStop<'a>>
where
    D::File: Lock,
    requires listed { IsSome source → ListsValues task.now }
    ensures stated { IfOk result (λ published. HasDoneTask S.content S.failures S.File.Input R.Input W.Output task.now source.entry target.entry system.old system.new reader.old reader.new writer.old writer.new published) }
    ensures refused { (refusal : Refusal) → IsErrOf result (Stop.Refused refusal) → (writer.new ≡ writer.old)
        × MeetsTask S.content S.failures S.File.Input R.Input task.now source.entry system.old system.new reader.old reader.new refusal }
    ensures failed { (failure : FileFailure) → IsErrOf result (Stop.Failed failure) → IsListing task.now source.entry target.entry ⊎ IsUnwritten W.Output writer.old writer.new }
    ensures device { IsErrOf result Stop.Device → IsListing task.now source.entry target.entry ⊎ IsUnwritten W.Output writer.old writer.new }
    ensures memory { IsErrOf result Stop.Memory → IsListing task.now source.entry target.entry
        ⊎ IsShortOfMemory S.content S.failures S.File.Input R.Input W.Output task.now source.entry system.old system.new reader.old reader.new writer.old writer.new }
{
    let target = match target {
        Some(target) => target,
        None => return match carry_out_on(alloc, task, source, system, reader, writer, watcher) {
            Ok(()) => Ok(None),
            Err(stop) => Err(stop),
        },
    };
    let mut draft = match Draft::create(alloc, files, target) {
        Ok(draft) => draft,
        Err(fault) => return Err(failed(target, fault)),
    };
    match carry_out_on(
        alloc,
        task,
        source,
        system,
        reader,
        &mut draft.file,
        watcher,
    ) {
        Ok(()) => match published(alloc, draft, files, target) {
            Ok(published) => Ok(Some(published)),
            Err(stop) => Err(stop),
        },
        Err(Stop::Device) => Err(device_stop(target, draft.abandon())),
        Err(stop) => {
            draft.discard();
            Err(stop)
        }
    }
}

/// Carries a task out on the file at `source`, else on the reader; its answer goes to the file at `target`, whole or not at
/// all, else to the writer. Values and dumps are written while the file is read. Where it is refused nothing was written.
#[tactic(auto, using(crate::proofs::Endings::done_from))]
fn carry_out_from<'a, S: FileSystem, D: Files, R: Input, W: Output, V: Watcher>(
    alloc: Global,
    task: &Task,
    source: Option<&'a str>,
    target: Option<&'a str>,
    system: &mut S,
    files: &'a D,
    reader: &mut R,
    writer: &mut W,
    watcher: &mut V,
) -> Result<Option<Published<'a>>, FileStop<'a>>
where
    D::File: Lock,
    ensures stated { IfOk result (λ published. HasDoneTask S.content S.failures S.File.Input R.Input W.Output task.now source.entry target.entry system.old system.new reader.old reader.new writer.old writer.new published) }
    ensures refused { (refusal : Refusal) → IsErrOf result (Stop.Refused refusal) → (writer.new ≡ writer.old)
        × MeetsTask S.content S.failures S.File.Input R.Input task.now source.entry system.old system.new reader.old reader.new refusal }
    ensures failed { (failure : FileFailure) → IsErrOf result (Stop.Failed failure) → IsListing task.now source.entry target.entry ⊎ IsUnwritten W.Output writer.old writer.new }
    ensures device { IsErrOf result Stop.Device → IsListing task.now source.entry target.entry ⊎ IsUnwritten W.Output writer.old writer.new }
    ensures memory { IsErrOf result Stop.Memory → IsListing task.now source.entry target.entry
        ⊎ IsShortOfMemory S.content S.failures S.File.Input R.Input W.Output task.now source.entry system.old system.new reader.old reader.new writer.old writer.new }
{
    let path = match source {
        Some(path) if !lists_values(task) => path,
        _ => return carry_out_to(
            alloc, task, source, target, system, files, reader, writer, watcher,
        ),
    };
    let mut file = match system.open(path) {
        Ok(file) => file,
        Err(fault) => return Err(failed(path, fault)),
    };
    match carry_out_to(
        alloc, task, None, target, system, files, &mut file, writer, watcher,
    ) {
        Ok(published) => Ok(published),
        Err(Stop::Device) => Err(device_stop(path, file.reason())),
        Err(stop) => Err(stop),
    }
}

/// What each line of a file has to be.
#[derive(Clone, Copy)]
pub enum LineKind {
    /// A digest and a name.
    Sum,
    /// A record of a check.
    Record,
}

/// How a command line ended.
#[derive(Drop)]
pub enum Ending<'a> {
    /// Files were checked; or the output failed (None), or a growth was refused.
    Checked(Result<Option<CheckReport>, AllocError>),
    /// Files were checked, and the list of the digests of those that passed was written, or could not be.
    Listed {
        report: CheckReport,
        target: &'a str,
        written: Result<Published<'a>, FileFault>,
    },
    /// A task was carried out that names files: the file that was written, if one was asked for.
    Done(Option<Published<'a>>),
    /// It was refused: the refusal's line was written.
    Refused,
    /// A file failed.
    Failed(FileFailure<'a>),
    /// A list of sums, or a log, has a line of this number that isn't what its lines have to be.
    BadLine {
        path: &'a str,
        line: u64,
        due: LineKind,
    },
    /// Standard input or output failed.
    Device,
    /// A growth was refused.
    Memory,
    /// The command line is one on the standard streams, or its words make no command.
    Words(Outcome),
}

/// Writes why a task that names files is refused.
fn refused<'a, W: Output>(alloc: Global, refusal: Refusal, writer: &mut W) -> Ending<'a>
    ensures { EndsTask result (λ published. ⊥) (Gives W.Output writer.old writer.new (refusal_line refusal) 0)
        (HasFailed (W.failures writer.old) (W.failures writer.new) (W.interrupted writer.new)) (writer.new ≡ writer.old) }
{
    match refuse(alloc, refusal, writer) {
        Outcome::Refused => Ending::Refused,
        Outcome::Memory => Ending::Memory,
        _ => Ending::Device,
    }
}

/// Runs a task on the file at `source`, else on the reader; its answer goes to the file at `target`, else to the writer.
fn run_task<'a, R: Input, W: Output, S: FileSystem, D: Files, V: Watcher>(
    alloc: Global,
    task: &Task,
    source: Option<&'a str>,
    target: Option<&'a str>,
    system: &mut S,
    files: &'a D,
    reader: &mut R,
    writer: &mut W,
    watcher: &mut V,
) -> Ending<'a>
where
    D::File: Lock,
    ensures { EndsTask result (HasDoneTask S.content S.failures S.File.Input R.Input W.Output task.now source.entry target.entry system.old system.new reader.old reader.new writer.old writer.new)
        (HasRefusedTask S.content S.failures S.File.Input R.Input W.Output task.now source.entry system.old system.new reader.old reader.new writer.old writer.new)
        (IsListing task.now source.entry target.entry ⊎ IsUnwritten W.Output writer.old writer.new)
        (IsListing task.now source.entry target.entry ⊎ IsShortOfMemory S.content S.failures S.File.Input R.Input W.Output task.now source.entry system.old system.new reader.old reader.new writer.old writer.new) }
{
    match carry_out_from(
        alloc, task, source, target, system, files, reader, writer, watcher,
    ) {
        Ok(published) => Ending::Done(published),
        Err(Stop::Refused(refusal)) => refused(alloc, refusal, writer),
        Err(Stop::Failed(failure)) => Ending::Failed(failure),
        Err(Stop::Device) => Ending::Device,
        Err(Stop::Memory) => Ending::Memory,
    }
}

/// How a look-up ends where its file fails, or a check where another file fails before its first one.
pub(crate) fn failed_ending(path: &str, fault: FileFault) -> Ending<'_>
    ensures task { EndsTask result (λ published. ⊥) ⊥ (fault ≡ FileFault.Memory → ⊥) (fault ≡ FileFault.Memory) }
    ensures check { EndsCheck result (λ report. ⊥) (λ given. ⊥) ⊥ (Unit {0}) }
{
    match fault {
        FileFault::Memory => Ending::Memory,
        fault => Ending::Failed(FileFailure { path, fault }),
    }
}

/// Looks a value or a placement up in the file at `source`, by the file's front.
fn run_look_up<'a, S: FileSystem, W: Output>(
    alloc: Global,
    request: &Request,
    source: &'a str,
    system: &mut S,
    writer: &mut W,
) -> Ending<'a>
    requires { IsLookUp request.now.action }
    ensures { EndsTask result (λ published. (published ≡ None) × HasLookedUp S.content S.failures S.File.Input W.Output request.now source.now system.old system.new writer.old writer.new)
        (HasRefusedLookUp S.content S.failures S.File.Input W.Output request.now source.now system.old system.new writer.old writer.new)
        (IsUnwritten W.Output writer.old writer.new) (writer.new ≡ writer.old) }
{
    let file = match system.open(source) {
        Ok(file) => file,
        Err(fault) => return failed_ending(source, fault),
    };
    match answer_in(alloc, system, file, request) {
        Ok(line) => match say(writer, line.as_bytes()) {
            Ok(()) => Ending::Done(None),
            Err(_) => Ending::Device,
        },
        Err(Stop::Refused(refusal)) => refused(alloc, refusal, writer),
        Err(Stop::Failed(fault)) => failed_ending(source, fault),
        Err(Stop::Device) => Ending::Device,
        Err(Stop::Memory) => Ending::Memory,
    }
}

/// How a check ends where a list of sums, or a log, isn't read; `due` is what its lines have to be.
pub(crate) fn unread_list<'a>(failure: ListFailure<'a>, due: LineKind) -> Ending<'a>
    ensures { EndsCheck result (λ report. ⊥) (λ given. ⊥) ⊥ (Unit {0}) }
{
    match failure {
        ListFailure::Line(path, line) => Ending::BadLine { path, line, due },
        ListFailure::File(path, fault) => failed_ending(path, fault),
    }
}

/// What was read from files, if any are named.
pub(crate) fn given<'s, T>(files: &[&str], read: &'s T) -> Option<&'s T>
    ensures { IsGiven files.now result }
{
    if files.is_empty() {
        return None;
    }
    Some(read)
}

/// Writes a list of digests to a draft, flushes it to the disk, and renames it over its target.
fn list_into<'a, R: Files>(mut draft: Draft<'a, R>, text: &[u8]) -> Result<Published<'a>, FileFault>
    requires { text_of draft.file ≡ [] }
    ensures text { IfOk result (λ published. published_text published ≡ text.now) }
    ensures target { IfOk result (λ published. published_target published ≡ draft_target draft.entry) }
{
    if give_whole(&mut draft.file, text).is_err() {
        return Err(FileFault::of(draft.abandon()));
    }
    draft.seal(None)?.publish()
}

/// Checks files by these options, sums and records, and writes the list of the digests of those that pass to the file at
/// `target` if there is one: at the end, and whole.
#[tactic(auto, using(crate::proofs::Endings::checked_without, crate::proofs::Endings::manifest_is, crate::proofs::Endings::unread_ending))]
fn check_by<'a, S: FileSystem, D: Files + Clock, W: Output>(
    alloc: Global,
    system: &mut S,
    machine: &'a D,
    options: CheckOptions<'_>,
    target: Option<&'a str>,
    paths: &[&str],
    writer: &mut W,
) -> Ending<'a>
where
    D::File: Lock,
    ensures { EndsCheck result (λ report. IsFoundReport S.content S.failures S.File.Input W.Output options.entry (map (λ path. path.now) paths.now) system.old system.new writer.old writer.new report)
        (λ given. given ≡ option_map (λ path. path.now) target.entry) (HasFailed (W.failures writer.old) (W.failures writer.new) (W.interrupted writer.new)) (writer.new ≡ writer.old) }
{
    let target = match target {
        Some(target) => target,
        None => return Ending::Checked(check_found(alloc, system, machine, options, paths, writer)),
    };
    let draft = match Draft::create(alloc, machine, target) {
        Ok(draft) => draft,
        Err(fault) => return failed_ending(target, fault),
    };
    match check_found(alloc, system, machine, options, paths, writer) {
        Ok(Some(report)) => {
            let written = list_into(draft, &report.manifest);
            Ending::Listed {
                report,
                target,
                written,
            }
        }
        Ok(None) => {
            draft.discard();
            Ending::Checked(Ok(None))
        }
        Err(error) => {
            draft.discard();
            Ending::Checked(Err(error))
        }
    }
}

/// Checks files, compares them with lists of sums if there are any, and leaves out those that logs have as good.
#[tactic(auto, using(crate::proofs::Endings::unread_ending, crate::proofs::Endings::asked_ending))]
fn run_check<'a, S: FileSystem, D: Files + Clock, W: Output>(
    alloc: Global,
    system: &mut S,
    machine: &'a D,
    job: CheckJob<'a>,
    writer: &mut W,
) -> Ending<'a>
where
    D::File: Lock,
    ensures { EndsCheck result (IsAskedReport S.content S.failures S.File.Input W.Output (asked_of job.entry) system.old system.new writer.old writer.new)
        (IsTargetOf (asked_of job.entry)) (HasFailed (W.failures writer.old) (W.failures writer.new) (W.interrupted writer.new)) (writer.new ≡ writer.old) }
{
    let mut sums = Sums::new(alloc);
    if let Err(failure) = read_lists(alloc, machine, &job.lists, &mut sums) {
        return unread_list(failure, LineKind::Sum);
    }
    let mut log = Log::new(alloc);
    if let Err(failure) = read_lists(alloc, machine, &job.logs, &mut log) {
        return unread_list(failure, LineKind::Record);
    }
    let options = CheckOptions {
        naming: job.naming,
        allow_trailing: job.allow_trailing,
        format: job.format,
        quiet: job.quiet,
        sums: given(&job.lists, &sums),
        shard: job.shard,
        log: given(&job.logs, &log),
        has_manifest: job.manifest.is_some(),
    };
    let paths = job.paths.as_slice();
    check_by(alloc, system, machine, options, job.manifest, paths, writer)
}

/// Runs a command line: on the files of a system where it names these, else on the reader. Of the machine it writes files,
/// and reads the clock. `watcher` sees a build.
pub fn run_words<'a, P: Finder, R: Input, W: Output, S: FileSystem, D: Files + Clock, V: Watcher>(
    alloc: Global,
    finder: &P,
    words: &'a [&'a str],
    system: &mut S,
    machine: &'a D,
    reader: &mut R,
    writer: &mut W,
    watcher: &mut V,
) -> Ending<'a>
where
    D::File: Lock,
    // It asks to check files and gives no options: they were checked in their order, just their lines and the summary
    // were written, and the reader stays.
    ensures files { IfSome (files_to_check (map (λ word. word.now) words.now)) (λ paths. (reader.new ≡ reader.old)
        × AreChecked result (IsReport S.content S.failures S.File.Input W.Output plain_options paths system.old system.new writer.old writer.new) (HasFailed (W.failures writer.old) (W.failures writer.new) (W.interrupted writer.new))) }
    // Whatever the words: what was done is what the ending says.
    ensures ending { EndsWell P.finds P.refuses S.content S.failures S.File.Input R.Input W.Output (map (λ word. word.now) words.now) result system.old system.new reader.old reader.new writer.old writer.new }
{
    if let Some(paths) = files_to_check(words) {
        return Ending::Checked(check_files(alloc, system, machine, paths, writer));
    }
    if !names_files(words) {
        return Ending::Words(run_by(alloc, finder, words, reader, writer, watcher));
    }
    match parse_files(alloc, finder, words) {
        Ok(FileJob::Check(job)) => run_check(alloc, system, machine, job, writer),
        Ok(
            FileJob::Run {
                task,
                source,
                target,
            },
        ) => run_task(
            alloc, &task, source, target, system, machine, reader, writer, watcher,
        ),
        Ok(FileJob::LookUp { request, source }) => {
            run_look_up(alloc, &request, source, system, writer)
        }
        Err(error) => Ending::Words(words_outcome(error)),
    }
}
