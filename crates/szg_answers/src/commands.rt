ghost use Rattle.std.specs.Prelude.{◌≡◌, ℕ, ◌++◌, ◌⊎◌, List, None, OnOk, IfOk, IsErrOf, map};
ghost use Rattle.szg_io.specs.Device.{HasFailed};
ghost use Rattle.szg_io.specs.Moved.{Gives, Takes};
ghost use Rattle.szg_file.specs.Held.{file_bytes};
ghost use Rattle.clap.specs.Values.{kind_of as kind_of_error};
ghost use Rattle.szg_answers.specs.Answers.{IsAnswer};
ghost use Rattle.szg_words.specs.Chosen.{AsksFor, AsksForNone, IsFoundByClap, IsRefusedByClap};
ghost use Rattle.szg_answers.specs.Outcome.{OnDone, OnRefused, OnWords};
ghost use Rattle.szg_answers.specs.RefusalLines.{refusal_line};
ghost use Rattle.szg_answers.specs.Refusals.{IsRefused};
ghost use Rattle.szg_answers.specs.Requests.{IsBegunBy, IsCarriedOut, IsListed, IsRefusedWith, IsTableOf, IsUnread, Meets, unplaced_refusal};
ghost use Rattle.szg_answers.specs.declared.refusal.Refusal.{Refusal};
ghost use Rattle.szg_words.specs.declared.request.Task.{Task};

use crate::building::{build_and_write, choice_of};
use crate::description::table_description;
use crate::lookups::{get_answer, write_all_values};
use crate::outcome::Outcome;
use crate::placements::{index_line, outcome_answer, placement_answer};
use crate::refusal::{Refusal, Stop};
use crate::refusal_lines::refusal_line;
use crate::saying::{say, say_line};
use clap::Error;
use clap::error::ErrorKind;
use std::alloc::Global;
use szg_build::{Unwatched, Watcher, dump_table};
use szg_file::{ReadFault, Table, file_len, read, write};
use szg_io::{Input, Output};
use szg_values::Material;
use szg_words::{Action, Clap, Finder, Request, Task, parse};

/// Runs a command line: `words` begins with the program's name. The table's file, for `build` the dump, is read from
/// `reader`, the answer is written to `writer`. Which word goes to which argument, `clap` decides.
///
/// `Refused` where the name, a man, the placement, the file, the dump, the part, the index, the position or the number is
/// refused, by a line of text. `Words` where the words make no command, or ask for help, and then nothing is read or
/// written. `Device` only where the reader or the writer failed. `Memory` where a growth was refused.
pub fn run<R: Input, W: Output>(
    alloc: Global,
    words: &[&str],
    reader: &mut R,
    writer: &mut W,
) -> Outcome
    // The request that the words ask for was answered: just the file of an accepted table was read, and just its answer
    // was written. Or a table was built: just the text of a dump was read, and just the file of an accepted table that is
    // built of it was written.
    ensures stated { OnDone result ((task : Task) × AsksFor IsFoundByClap (map (λ word. word.now) words.now) task × IsCarriedOut R.Input W.Output task reader.old reader.new writer.old writer.new) }
    // It was refused: it meets a refusal, and just this refusal's line was written.
    ensures refused { OnRefused result ((task : Task) × AsksFor IsFoundByClap (map (λ word. word.now) words.now) task × IsRefusedWith R.Input W.Output task reader.old reader.new writer.old writer.new) }
    ensures words { OnWords result ((reader.new ≡ reader.old) × (writer.new ≡ writer.old) × AsksForNone IsFoundByClap IsRefusedByClap (map (λ word. word.now) words.now)) }
    // Whatever the outcome: bytes were taken with at most 1,001 calls for each of them and for one more.
    ensures calls { (bytes : List ℕ) × Takes R.Input reader.old reader.new bytes 1 }
    ensures device { (result ≡ Outcome.Device) → (HasFailed (R.failures reader.old) (R.failures reader.new) (R.interrupted reader.new) × (writer.new ≡ writer.old)) ⊎ HasFailed (W.failures writer.old) (W.failures writer.new) (W.interrupted writer.new) }
    // Nothing was written, or, by `values` and `dump`, a beginning of the answer.
    ensures memory { (result ≡ Outcome.Memory) → (writer.new ≡ writer.old) ⊎ ((task : Task) × AsksFor IsFoundByClap (map (λ word. word.now) words.now) task × IsBegunBy R.Input W.Output task reader.old reader.new writer.old writer.new) }
{
    run_by(alloc, &Clap, words, reader, writer, &mut Unwatched)
}

/// Runs a command line as `run` does, with what a finder finds in its words. `watcher` sees a build.
pub fn run_by<F: Finder, R: Input, W: Output, V: Watcher>(
    alloc: Global,
    finder: &F,
    words: &[&str],
    reader: &mut R,
    writer: &mut W,
    watcher: &mut V,
) -> Outcome
    ensures stated { OnDone result ((task : Task) × AsksFor F.finds (map (λ word. word.now) words.now) task × IsCarriedOut R.Input W.Output task reader.old reader.new writer.old writer.new) }
    ensures refused { OnRefused result ((task : Task) × AsksFor F.finds (map (λ word. word.now) words.now) task × IsRefusedWith R.Input W.Output task reader.old reader.new writer.old writer.new) }
    ensures words { OnWords result ((reader.new ≡ reader.old) × (writer.new ≡ writer.old) × AsksForNone F.finds F.refuses (map (λ word. word.now) words.now)) }
    ensures calls { (bytes : List ℕ) × Takes R.Input reader.old reader.new bytes 1 }
    ensures device { (result ≡ Outcome.Device) → (HasFailed (R.failures reader.old) (R.failures reader.new) (R.interrupted reader.new) × (writer.new ≡ writer.old)) ⊎ HasFailed (W.failures writer.old) (W.failures writer.new) (W.interrupted writer.new) }
    ensures memory { (result ≡ Outcome.Memory) → (writer.new ≡ writer.old) ⊎ ((task : Task) × AsksFor F.finds (map (λ word. word.now) words.now) task × IsBegunBy R.Input W.Output task reader.old reader.new writer.old writer.new) }
{
    let task = match parse(alloc, finder, words) {
        Ok(task) => task,
        Err(error) => return words_outcome(error),
    };
    match carry_out(alloc, &task, reader, writer, watcher) {
        Ok(()) => Outcome::Done,
        Err(Stop::Memory) => Outcome::Memory,
        Err(Stop::Device) => Outcome::Device,
        Err(Stop::Refused(refusal)) => refuse(alloc, refusal, writer),
    }
}

/// How a run ends whose words make no command.
pub(crate) fn words_outcome(error: Error) -> Outcome
    ensures done { OnDone result ⊥ }
    ensures refused { OnRefused result ⊥ }
    ensures words { OnWords result (kind_of_error error ≡ ErrorKind.OutOfMemory → ⊥) }
    ensures device { (result ≡ Outcome.Device) → ⊥ }
{
    if matches!(error.kind(), ErrorKind::OutOfMemory) {
        Outcome::Memory
    } else {
        Outcome::Words(error)
    }
}

/// Writes why a command is refused.
pub(crate) fn refuse<W: Output>(alloc: Global, refusal: Refusal, writer: &mut W) -> Outcome
    ensures done { OnDone result ⊥ }
    ensures refused { OnRefused result (Gives W.Output writer.old writer.new (refusal_line refusal) 0) }
    ensures words { OnWords result ⊥ }
    ensures memory { (result ≡ Outcome.Memory) → writer.new ≡ writer.old }
    ensures device { (result ≡ Outcome.Device) → HasFailed (W.failures writer.old) (W.failures writer.new) (W.interrupted writer.new) }
{
    let Ok(line) = refusal_line(alloc, refusal) else {
        return Outcome::Memory;
    };
    match say(writer, line.as_bytes()) {
        Ok(()) => Outcome::Refused,
        Err(_) => Outcome::Device,
    }
}

/// Carries a task out, or returns why not; where it is refused nothing was written. `watcher` sees a build.
pub(crate) fn carry_out<R: Input, W: Output, V: Watcher>(
    alloc: Global,
    task: &Task,
    reader: &mut R,
    writer: &mut W,
    watcher: &mut V,
) -> Result<(), Stop>
    ensures stated { OnOk result (IsCarriedOut R.Input W.Output task.now reader.old reader.new writer.old writer.new) }
    ensures calls { (bytes : List ℕ) × Takes R.Input reader.old reader.new bytes 1 }
    ensures device { IsErrOf result Stop.Device → (HasFailed (R.failures reader.old) (R.failures reader.new) (R.interrupted reader.new) × (writer.new ≡ writer.old)) ⊎ HasFailed (W.failures writer.old) (W.failures writer.new) (W.interrupted writer.new) }
    ensures refused { (refusal : Refusal) → IsErrOf result (Stop.Refused refusal) → (writer.new ≡ writer.old) × Meets R.Input task.now reader.old reader.new refusal }
    ensures memory { IsErrOf result Stop.Memory → (writer.new ≡ writer.old) ⊎ IsBegunBy R.Input W.Output task.now reader.old reader.new writer.old writer.new }
{
    match task {
        Task::OnTable(request) => {
            let table = read_requested(alloc, request, reader)?;
            answer_request(alloc, &table, request, writer)
        }
        Task::Build(plan) => build_and_write(alloc, choice_of(*plan), reader, writer, watcher),
    }
}

/// Reads the table of the request's name and kind.
fn read_requested<R: Input>(alloc: Global, request: &Request, reader: &mut R) -> Result<Table, Stop>
    ensures table { IfOk result (λ t. IsTableOf request.now t) }
    ensures placed { IfOk result (λ t. unplaced_refusal request.now.action ≡ None) }
    ensures calls { (bytes : List ℕ) × Takes R.Input reader.old reader.new bytes 1 }
    ensures taken { IfOk result (λ t. Takes R.Input reader.old reader.new (file_bytes t) 1) }
    ensures device { IsErrOf result Stop.Device → HasFailed (R.failures reader.old) (R.failures reader.new) (R.interrupted reader.new) }
    ensures refused { (refusal : Refusal) → IsErrOf result (Stop.Refused refusal) → IsUnread R.Input request.now reader.old reader.new refusal }
{
    let material = match Material::parse(request.name) {
        Ok(material) => material,
        Err(fault) => return Err(Stop::Refused(Refusal::Name(fault))),
    };
    if let Action::Unplaced(fault) = &request.action {
        return Err(Stop::Refused(Refusal::Men(*fault)));
    }
    match read(alloc, material, request.kind, reader) {
        Ok(table) => Ok(table),
        Err(ReadFault::Refused { place, reason }) => {
            Err(Stop::Refused(Refusal::At(place, reason)))
        }
        Err(ReadFault::Device) => Err(Stop::Device),
        Err(ReadFault::Memory) => Err(Stop::Memory),
    }
}

/// Writes the answer to the request on a table.
fn answer_request<W: Output>(
    alloc: Global,
    table: &Table,
    request: &Request,
    writer: &mut W,
) -> Result<(), Stop>
    ensures stated { OnOk result ((text : List ℕ) × IsAnswer request.now.action request.now.part request.now.side table.now text × Gives W.Output writer.old writer.new text 0) }
    ensures device { IsErrOf result Stop.Device → HasFailed (W.failures writer.old) (W.failures writer.new) (W.interrupted writer.new) }
    ensures refused { (refusal : Refusal) → IsErrOf result (Stop.Refused refusal) → (writer.new ≡ writer.old) × IsRefused request.now.action request.now.part request.now.side table.now.contents refusal }
    ensures memory { IsErrOf result Stop.Memory → (writer.new ≡ writer.old) ⊎ (IsListed request.now.action × (text : List ℕ) × (rest : List ℕ) × IsAnswer request.now.action request.now.part request.now.side table.now (text ++ rest) × Gives W.Output writer.old writer.new text 0) }
{
    match &request.action {
        Action::Check => {
            let text = format!(in alloc; "ok {}\n", file_len(table))?;
            say(writer, text.as_bytes())
        }
        Action::Show => {
            let text = table_description(alloc, table)?;
            say(writer, text.as_bytes())
        }
        Action::Get(index) => say_line(writer, get_answer(alloc, table, request, *index, false)),
        Action::GetCounted(index) => say_line(
            writer,
            get_answer(alloc, table, request, *index, true),
        ),
        Action::Values => write_all_values(alloc, table, request, writer),
        Action::Copy => write(table, writer).map_err(|_| Stop::Device),
        Action::Dump(form) => {
            dump_table(alloc, table, form.number(), writer)?.map_err(|_| Stop::Device)
        }
        Action::Index(placement) => say_line(writer, index_line(alloc, table.index(), placement)),
        Action::Probe(placement, class) => say_line(
            writer,
            outcome_answer(alloc, table, placement, *class),
        ),
        Action::Placement(index) => say_line(
            writer,
            placement_answer(alloc, table, request, *index),
        ),
        Action::Unplaced(fault) => Err(Stop::Refused(Refusal::Men(*fault))),
    }
}
