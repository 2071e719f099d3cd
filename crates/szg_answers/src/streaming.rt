//! Values that are written while a file is read: each of one part and side on a line, or all of them as a dump.

ghost use Rattle.std.specs.Prelude.{◌≡◌, ℕ, List, [], ◌++◌, flat_map, replicate, None, Some, OnOk, OnErr, Ok, Err, IfOk, IsErrOf, true};
ghost use Rattle.szg_io.specs.Device.{HasFailed};
ghost use Rattle.szg_io.specs.Moved.{Gives, Takes};
ghost use Rattle.szg_values.specs.Material.{IsMaterial, name_of};
ghost use Rattle.szg_file.specs.Held.{Shown, file_bytes};
ghost use Rattle.szg_file.specs.Index.{index_of};
ghost use Rattle.szg_answers.specs.Answers.{number_line};
ghost use Rattle.szg_answers.specs.OnFiles.{IsCarriedFrom, ListsValues, MeetsFrom};
ghost use Rattle.szg_answers.specs.Requests.{IsAnswered, IsListed, IsTableOf, Meets};
ghost use Rattle.szg_answers.specs.declared.refusal.Refusal.{Refusal};
ghost use Rattle.szg_words.specs.declared.request.Action.{Action};
ghost use Rattle.szg_words.specs.declared.request.Task.{Task};

use crate::on_files::{FileStop, failed};
use crate::refusal::{Refusal, Stop};
use crate::saying::say;
use itoa::Buffer;
use std::alloc::{AllocError, Global};
use std::io::{Error, ErrorKind};
use szg_build::stream_dump;
use szg_file::{NoSink, ReadFault, Scanned, ValueSink, scan};
use szg_files::{FileFault, FileSystem, Reasons};
use szg_io::{Input, IoFault, Output};
use szg_values::Material;
use szg_words::{Action, Request, Task};

/// How many bytes of values are written at a time, or a little more.
const CHUNK: usize = 65536;

// ---- lines

/// Adds a number on a line.
fn add_line(text: &mut Vec<u8>, number: u16) -> Result<(), AllocError>
    ensures { OnOk result (text.new.items ≡ text.old.items ++ number_line number) }
{
    text.extend_from_slice(Buffer::new().format(number).as_bytes())?;
    Ok(text.push(b'\n')?)
}

/// Writes the text that is held where it is long enough, and then holds none.
fn say_chunk<W: Output>(writer: &mut W, text: &mut Vec<u8>) -> Result<(), Stop>
    ensures given { OnOk result ((out : List ℕ) × Gives W.Output writer.old writer.new out 0 × (out ++ text.new.items ≡ text.old.items)) }
    ensures failed { OnErr result (HasFailed (W.failures writer.old) (W.failures writer.new) (W.interrupted writer.new)) }
    ensures device { OnErr result (result ≡ Err Stop.Device) }
    ensures quiet { OnOk result (W.failures writer.new ≡ W.failures writer.old) }
{
    if text.len() < CHUNK {
        return Ok(());
    }
    say(writer, text)?;
    text.clear();
    Ok(())
}

/// Adds each value on a line to the text that is held, and writes it in large chunks.
pub(crate) fn add_lines<W: Output>(
    text: &mut Vec<u8>,
    values: &[u16],
    writer: &mut W,
) -> Result<(), Stop>
    ensures given { OnOk result ((out : List ℕ) × Gives W.Output writer.old writer.new out 0 × (out ++ text.new.items ≡ text.old.items ++ flat_map number_line values.now)) }
    ensures device { IsErrOf result Stop.Device → HasFailed (W.failures writer.old) (W.failures writer.new) (W.interrupted writer.new) }
    ensures only { (refusal : Refusal) → IsErrOf result (Stop.Refused refusal) → ⊥ }
    ensures quiet { OnOk result (W.failures writer.new ≡ W.failures writer.old) }
    // a beginning of the text was written
    ensures memory { IsErrOf result Stop.Memory → (out : List ℕ) × (rest : List ℕ) × (out ++ rest ≡ text.old.items ++ flat_map number_line values.now) × Gives W.Output writer.old writer.new out 0 }
{
    'values: for value in values {
        add_line(text, *value)?;
        say_chunk(writer, text)?;
    }
    Ok(())
}

/// Adds a value `count` times, each time on a line, to the text that is held, and writes it in large chunks.
pub(crate) fn add_same<W: Output>(
    text: &mut Vec<u8>,
    value: u16,
    count: u64,
    writer: &mut W,
) -> Result<(), Stop>
    ensures given { OnOk result ((out : List ℕ) × Gives W.Output writer.old writer.new out 0 × (out ++ text.new.items ≡ text.old.items ++ flat_map number_line (replicate count value))) }
    ensures device { IsErrOf result Stop.Device → HasFailed (W.failures writer.old) (W.failures writer.new) (W.interrupted writer.new) }
    ensures only { (refusal : Refusal) → IsErrOf result (Stop.Refused refusal) → ⊥ }
    ensures quiet { OnOk result (W.failures writer.new ≡ W.failures writer.old) }
    // a beginning of the text was written
    ensures memory { IsErrOf result Stop.Memory → (out : List ℕ) × (rest : List ℕ) × (out ++ rest ≡ text.old.items ++ flat_map number_line (replicate count value)) × Gives W.Output writer.old writer.new out 0 }
{
    'values: for _done in 0..count {
        add_line(text, value)?;
        say_chunk(writer, text)?;
    }
    Ok(())
}

/// Writes the values of one part and side, each on a line.
#[derive(Drop)]
pub struct LineSink {
    part: u8,
    side: u8,
    // the lines that are not written yet
    text: Vec<u8>,
    // whether the writer failed
    failed: bool,
}

impl<W: Output> ValueSink<W> for LineSink {
    ghost use Rattle.std.specs.Prelude.{ℕ, List, ◌≡◌, ◌++◌, flat_map};
    ghost use Rattle.szg_io.specs.Moved.{Gives};
    ghost use Rattle.szg_file.specs.Streaming.{only};
    ghost use Rattle.szg_answers.specs.Answers.{number_line};

    ghost wanted = { λ s. only s.part s.side };

    ghost accepts = { λ s out values s' out'. (text : List ℕ) × Gives W.Output out out' text 0 × (text ++ s'.text.items ≡ s.text.items ++ flat_map number_line values) };

    fn wants(&self, part: u8, side: u8) -> bool {
        part == self.part && side == self.side
    }

    fn put(&mut self, values: &[u16], out: &mut W) -> Result<(), IoFault> {
        let added = add_lines(&mut self.text, values, out);
        self.failed = matches!(added, Err(Stop::Device));
        added.map_err(|_| IoFault::Failed)
    }

    fn put_same(&mut self, value: u16, count: u64, out: &mut W) -> Result<(), IoFault> {
        let added = add_same(&mut self.text, value, count, out);
        self.failed = matches!(added, Err(Stop::Device));
        added.map_err(|_| IoFault::Failed)
    }
}

// ---- a file

/// Whether a task lists a table's values, as they are or as a dump.
pub(crate) fn lists_values(task: &Task) -> bool
    ensures { (result ≡ true) → ListsValues task.now }
{
    match task {
        Task::OnTable(request) => matches!(request.action, Action::Values | Action::Dump(_)),
        Task::Build(_) => false,
    }
}

/// Checks the file of the request's name and kind, and whether the table has the part and side whose values are asked. It keeps
/// no block.
fn read_listed<F: Input>(alloc: Global, request: &Request, file: &mut F) -> Result<Scanned, Stop>
    requires listed { IsListed request.now.action }
    requires first { F.moved file.old ≡ [] }
    ensures table { IfOk result (λ scanned. (t : Shown) × IsTableOf request.now t × (scanned.index ≡ index_of t.contents) × Takes F.Input file.old file.new (file_bytes t) 1) }
    ensures refused { (refusal : Refusal) → IsErrOf result (Stop.Refused refusal) → Meets F.Input (Task.OnTable request.now) file.old file.new refusal }
{
    let material = match Material::parse(request.name) {
        Ok(material) => material,
        Err(fault) => return Err(Stop::Refused(Refusal::Name(fault))),
    };
    let scanned = match scan(alloc, material, request.kind, file, &mut NoSink, &mut ()) {
        Ok(scanned) => scanned,
        Err(ReadFault::Refused { place, reason }) => {
            return Err(Stop::Refused(Refusal::At(place, reason)));
        }
        Err(ReadFault::Device) => return Err(Stop::Device),
        Err(ReadFault::Memory) => return Err(Stop::Memory),
    };
    if let Action::Values = &request.action {
        match scanned.index.size(request.part, request.side) {
            Some(_) => {}
            None => return Err(Stop::Refused(Refusal::Part)),
        }
    }
    Ok(scanned)
}

/// Writes each value of the request's part and side on a line, a block's values as soon as the block was read and
/// checked. False if the table has no such part and side. Errors: as `scan`; the inner one if the writer failed.
fn write_lines<F: Input, W: Output>(
    alloc: Global,
    request: &Request,
    material: Material,
    file: &mut F,
    writer: &mut W,
) -> Result<Result<bool, IoFault>, ReadFault>
    requires values { request.now.action ≡ Action.Values }
    requires first { F.moved file.old ≡ [] }
    requires material { IsMaterial material }
    requires name { name_of material ≡ request.now.name.now }
    ensures stated { (result ≡ Ok (Ok true)) → IsAnswered F.Input W.Output request.now file.old file.new writer.old writer.new }
{
    let mut sink = LineSink {
        part: request.part,
        side: request.side,
        text: Vec::new(alloc),
        failed: false,
    };
    let scanned = match scan(alloc, material, request.kind, file, &mut sink, writer) {
        Ok(scanned) => scanned,
        // the sink refuses values after a failed write, and `scan` then returns `Memory`
        Err(ReadFault::Memory) if sink.failed => return Ok(Err(IoFault::Failed)),
        Err(fault) => return Err(fault),
    };
    let Some(_) = scanned.index.size(request.part, request.side) else {
        return Ok(Ok(false));
    };
    match say(writer, &sink.text) {
        Ok(()) => Ok(Ok(true)),
        Err(_) => Ok(Err(IoFault::Failed)),
    }
}

/// Writes the values of the request's part and side, or the dump of the table, whose file was checked, a block's values as
/// soon as the block was read and checked. False if the file has another table. Errors: as `scan`; the inner one if the
/// writer failed.
fn write_listed<F: Input, W: Output>(
    alloc: Global,
    request: &Request,
    checked: &Scanned,
    file: &mut F,
    writer: &mut W,
) -> Result<Result<bool, IoFault>, ReadFault>
    requires listed { IsListed request.now.action }
    requires first { F.moved file.old ≡ [] }
    requires material { IsMaterial checked.now.index.material }
    requires name { name_of checked.now.index.material ≡ request.now.name.now }
    requires kind { checked.now.index.kind ≡ request.now.kind }
    ensures stated { (result ≡ Ok (Ok true)) → IsAnswered F.Input W.Output request.now file.old file.new writer.old writer.new }
{
    let Scanned { index, last, .. } = checked;
    match &request.action {
        Action::Values => write_lines(alloc, request, index.material().copy(), file, writer),
        Action::Dump(form) => stream_dump(alloc, index, last, form.number(), file, writer),
        _ => unreachable!(),
    }
}

/// Why a failed device stops a task: the file at `path`, if the device has a reason.
pub(crate) fn device_stop(path: &str, reason: Option<Error>) -> FileStop<'_>
    ensures refused { (refusal : Refusal) → (result ≡ Stop.Refused refusal) → ⊥ }
    ensures memory { (result ≡ Stop.Memory) → ⊥ }
{
    match reason {
        Some(error) => failed(path, FileFault::System(error)),
        None => Stop::Device,
    }
}

/// Writes the values of a part and side, or the dump, of the file at `source`. The file is read twice: the first time it
/// is checked, and where it is refused nothing was written. It keeps one block and its values in memory, and what precedes
/// the blocks.
///
/// Errors: `Failed`, if the file changed between and is refused then; a part of the text may be written.
pub fn stream_from<'a, S: FileSystem, W: Output>(
    alloc: Global,
    request: &Request,
    source: &'a str,
    system: &mut S,
    writer: &mut W,
) -> Result<(), FileStop<'a>>
    requires listed { IsListed request.now.action }
    ensures stated { OnOk result (IsCarriedFrom S.content S.failures S.File.Input W.Output (Task.OnTable request.now) source.now None system.old system.new writer.old writer.new None) }
    ensures refused { (refusal : Refusal) → IsErrOf result (Stop.Refused refusal) → (writer.new ≡ writer.old)
        × MeetsFrom S.content S.failures S.File.Input (Task.OnTable request.now) source.now system.old system.new refusal }
{
    let mut file = match system.open(source) {
        Ok(file) => file,
        Err(fault) => return Err(failed(source, fault)),
    };
    let checked = match read_listed(alloc, request, &mut file) {
        Ok(checked) => checked,
        Err(Stop::Refused(refusal)) => return Err(Stop::Refused(refusal)),
        Err(Stop::Device) => return Err(device_stop(source, file.reason())),
        Err(Stop::Memory) => return Err(Stop::Memory),
    };
    let mut again = match system.open(source) {
        Ok(again) => again,
        Err(fault) => return Err(failed(source, fault)),
    };
    match write_listed(alloc, request, &checked, &mut again, writer) {
        Ok(Ok(true)) => Ok(()),
        Ok(Ok(false)) | Err(ReadFault::Refused { .. }) => {
            let changed = FileFault::System(ErrorKind::InvalidData.into());
            Err(failed(source, changed))
        }
        Ok(Err(_)) | Err(ReadFault::Device) => Err(device_stop(source, again.reason())),
        Err(ReadFault::Memory) => Err(Stop::Memory),
    }
}
