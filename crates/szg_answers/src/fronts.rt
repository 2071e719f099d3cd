//! Look-ups in a file by its front: the file is read and checked up to its blocks, and then at most one block, or the last
//! bytes.

ghost use Rattle.std.specs.Prelude.{◌≡◌, ℕ, ◌≤◌, ◌<◌, [], Ok, IfOk, IfErr, IsErrOf, IsSome, IsSomeAnd, Some, option_map, string_bytes, false, true};
ghost use Rattle.szg_file.specs.Index.{slot_in};
ghost use Rattle.szg_answers.specs.Fronts.{AnswersIn, IsBadBlockAt, IsBlockRead, IsDecodedAt, IsFetchedIn, IsFrontTaken, IsLookUpAnswer, IsLookUpRefused, IsMapRefusal, IsMeaningLine, IsUnfetched, IsUnhad, IsUnopened, MeetsIn};
ghost use Rattle.szg_words.specs.Requested.{IsLookUp};
ghost use Rattle.szg_answers.specs.Refusals.{index_refusal};
ghost use Rattle.szg_files.specs.declared.file_system.FileFault.{FileFault as Fault};
ghost use Rattle.szg_answers.specs.declared.refusal.Refusal.{Refusal};

use crate::description::front_description;
use crate::placements::{class_line, index_line};
use crate::refusal::{Refusal, Stop};
use std::alloc::Global;
use std::io::ErrorKind;
use szg_file::{ByteRange, FetchFault, FrontTable, ReadFault, TableIndex, open_front};
use szg_files::{FileFault, FileSystem, Reasons, read_range};
use szg_io::Input;
use szg_place::{Spot, class_of, locate};
use szg_values::{Kind, Material, PlacedMen, Placement};
use szg_words::{Action, AskedClass, Request};

/// A table opened by its front.
#[derive(Drop)]
pub struct OpenedFront {
    pub front: FrontTable,
    /// The number of bytes that were read.
    pub read: u64,
}

/// Opens the table of the request's name and kind by its front, from the first byte of a file of `size` bytes.
fn opened_front<F: Input>(
    alloc: Global,
    request: &Request,
    size: u64,
    file: &mut F,
) -> Result<OpenedFront, Stop>
    requires unread { F.moved file.old ≡ [] }
    requires looks { IsLookUp request.now.action }
    ensures front { IfOk result (λ opened. IsFrontTaken F.Input request.now size file.old file.new opened) }
    ensures refused { (refusal : Refusal) → IsErrOf result (Stop.Refused refusal) → IsUnopened F.Input request.now size file.old file.new refusal }
{
    let material = match Material::parse(request.name) {
        Ok(material) => material,
        Err(fault) => return Err(Stop::Refused(Refusal::Name(fault))),
    };
    let (front, read) = match open_front(alloc, material, request.kind, size, file) {
        Ok(found) => found,
        Err(ReadFault::Refused { place, reason }) => {
            return Err(Stop::Refused(Refusal::At(place, reason)));
        }
        Err(ReadFault::Device) => return Err(Stop::Device),
        Err(ReadFault::Memory) => return Err(Stop::Memory),
    };
    Ok(OpenedFront { front, read })
}

/// Reads bytes after the front of `read` bytes; none if none are wanted.
fn block_read<S: FileSystem>(
    alloc: Global,
    system: &S,
    file: S::File,
    read: u64,
    wanted: Option<ByteRange>,
) -> Result<Vec<u8>, FileFault>
    ensures block { IfOk result (λ block. IsBlockRead S.File.Input file read wanted block.items) }
    ensures failed { IfErr result (λ fault. IsSomeAnd wanted (IsUnhad S.File.Input file read fault)) }
{
    let mut block = Vec::new(alloc);
    let Some(ByteRange { offset, count }) = wanted else {
        return Ok(block);
    };
    if offset < read {
        return Err(FileFault::System(ErrorKind::InvalidData.into()));
    }
    let skipped = offset - read;
    if block.resize(count as usize, 0).is_err() {
        return Err(FileFault::Memory);
    }
    read_range(system, file, skipped, &mut block)?;
    Ok(block)
}

/// Returns the value of a spot. It reads the value's block, and verifies it.
fn value_by<S: FileSystem>(
    alloc: Global,
    system: &S,
    file: S::File,
    opened: &OpenedFront,
    spot: Spot,
) -> Result<u16, Stop<FileFault>>
    requires below { IsSomeAnd (slot_in opened.now.front.index spot.part spot.side) (λ slot. spot.index < slot.size) }
    requires room { opened.now.read ≤ opened.now.front.length }
    ensures value { IfOk result (λ value. IsFetchedIn S.File.Input file opened.now.front opened.now.read opened.now.front.length (λ content t. IsDecodedAt t spot.part spot.side spot.index value)) }
    ensures refused { (refusal : Refusal) → IsErrOf result (Stop.Refused refusal) → IsFetchedIn S.File.Input file opened.now.front opened.now.read opened.now.front.length (λ content t. IsBadBlockAt content t spot.part spot.side spot.index refusal) }
    ensures failed { (fault : Fault) → IsErrOf result (Stop.Failed fault) → IsUnfetched S.File.Input file opened.now.front opened.now.read opened.now.front.length spot.part spot.side spot.index fault }
{
    let front = &opened.front;
    let located = front.locate(spot.part, spot.side, spot.index);
    let block = match block_read(alloc, system, file, opened.read, located.range()) {
        Ok(block) => block,
        Err(fault) => return Err(Stop::Failed(fault)),
    };
    match located.decode(&block) {
        Ok(value) => Ok(value),
        Err(FetchFault::Block { number, offset }) => {
            Err(Stop::Refused(Refusal::Block(number, offset)))
        }
        // no file has such a block: it has the range's length
        Err(FetchFault::Source) => Err(Stop::Failed(FileFault::Ended)),
    }
}

/// Checks that the opened table has the index, and returns its spot.
fn requested_spot(front: &FrontTable, part: u8, side: u8, index: u64) -> Result<Spot, Refusal>
    ensures spot { IfOk result (λ spot. spot ≡ record { part = part; side = side; index = index }) }
    ensures below { IfOk result (λ spot. IsSomeAnd (slot_in front.now.index part side) (λ slot. index < slot.size)) }
    ensures refused { IfErr result (λ refusal. index_refusal (option_map (λ slot. slot.size) (slot_in front.now.index part side)) index ≡ Some refusal) }
{
    let Some(size) = front.index().size(part, side) else {
        return Err(Refusal::Part);
    };
    if index < size {
        Ok(Spot { part, side, index })
    } else {
        Err(Refusal::Index)
    }
}

/// The line of what a value means: in a WDL table its class, in a DTZ table its number in a class.
fn meaning_line(
    alloc: Global,
    index: &TableIndex,
    part: u8,
    class: AskedClass,
    value: u16,
) -> Result<String, Stop<FileFault>>
    requires { index.now.kind ≡ Kind.Dtz → IsSome (slot_in index.now part 0) }
    ensures stated { IfOk result (λ line. IsMeaningLine index.now.kind index.now part class value (string_bytes line)) }
    ensures refused { (refusal : Refusal) → IsErrOf result (Stop.Refused refusal) → IsMapRefusal index.now.kind index.now part class value refusal }
{
    match index.kind() {
        Kind::Wdl => Ok(class_line(alloc, class_of(value))?),
        Kind::Dtz => match index.map_value(part, class.number(), value) {
            Ok(number) => Ok(format!(in alloc; "{number}\n")?),
            Err(fault) => Err(Stop::Refused(Refusal::Map(fault))),
        },
    }
}

/// The line of the value at an index.
fn get_line<S: FileSystem>(
    alloc: Global,
    system: &S,
    file: S::File,
    opened: &OpenedFront,
    request: &Request,
    index: u64,
) -> Result<String, Stop<FileFault>>
    requires room { opened.now.read ≤ opened.now.front.length }
    ensures stated { IfOk result (λ line. IsFetchedIn S.File.Input file opened.now.front opened.now.read opened.now.front.length (λ content t. IsLookUpAnswer (Action.Get index) request.now.part request.now.side content t (string_bytes line))) }
    ensures refused { (refusal : Refusal) → IsErrOf result (Stop.Refused refusal) → IsFetchedIn S.File.Input file opened.now.front opened.now.read opened.now.front.length (λ content t. IsLookUpRefused (Action.Get index) request.now.part request.now.side content t refusal) }
{
    let spot = match requested_spot(&opened.front, request.part, request.side, index) {
        Ok(spot) => spot,
        Err(refusal) => return Err(Stop::Refused(refusal)),
    };
    let value = match value_by(alloc, system, file, opened, spot) {
        Ok(value) => value,
        Err(stop) => return Err(stop),
    };
    Ok(format!(in alloc; "{value}\n")?)
}

/// The line of a placement's class or number.
fn probe_line<S: FileSystem>(
    alloc: Global,
    system: &S,
    file: S::File,
    opened: &OpenedFront,
    placement: &Placement,
    class: AskedClass,
) -> Result<String, Stop<FileFault>>
    requires room { opened.now.read ≤ opened.now.front.length }
    ensures stated { IfOk result (λ line. (part side : ℕ) → IsFetchedIn S.File.Input file opened.now.front opened.now.read opened.now.front.length (λ content t. IsLookUpAnswer (Action.Probe placement.now class) part side content t (string_bytes line))) }
    ensures refused { (refusal : Refusal) → IsErrOf result (Stop.Refused refusal) → (part side : ℕ) → IsFetchedIn S.File.Input file opened.now.front opened.now.read opened.now.front.length (λ content t. IsLookUpRefused (Action.Probe placement.now class) part side content t refusal) }
{
    let spot = match locate(opened.front.index(), &PlacedMen::of(placement)) {
        Ok(spot) => spot,
        Err(fault) => return Err(Stop::Refused(Refusal::Place(fault))),
    };
    let value = match value_by(alloc, system, file, opened, spot) {
        Ok(value) => value,
        Err(stop) => return Err(stop),
    };
    meaning_line(alloc, opened.front.index(), spot.part, class, value)
}

/// The description of the opened table. After the front it reads the last sixteen bytes, and no block.
fn show_lines<S: FileSystem>(
    alloc: Global,
    system: &S,
    file: S::File,
    opened: &OpenedFront,
) -> Result<String, Stop<FileFault>>
    requires room { opened.now.read ≤ opened.now.front.length }
    ensures stated { IfOk result (λ text. (part side : ℕ) → IsFetchedIn S.File.Input file opened.now.front opened.now.read opened.now.front.length (λ content t. IsLookUpAnswer Action.Show part side content t (string_bytes text))) }
    ensures answered { (refusal : Refusal) → IsErrOf result (Stop.Refused refusal) → ⊥ }
{
    let front = &opened.front;
    let offset = front.ending();
    let ending = ByteRange { offset, count: 16 };
    let last = match block_read(alloc, system, file, opened.read, Some(ending)) {
        Ok(last) => last,
        Err(fault) => return Err(Stop::Failed(fault)),
    };
    let text = front_description(alloc, front, &last)?;
    Ok(text)
}

/// The text of a look-up's answer.
fn look_up_line<S: FileSystem>(
    alloc: Global,
    system: &S,
    file: S::File,
    opened: &OpenedFront,
    request: &Request,
) -> Result<String, Stop<FileFault>>
    requires looks { IsLookUp request.now.action }
    requires room { opened.now.read ≤ opened.now.front.length }
    ensures stated { IfOk result (λ line. IsFetchedIn S.File.Input file opened.now.front opened.now.read opened.now.front.length (λ content t. IsLookUpAnswer request.now.action request.now.part request.now.side content t (string_bytes line))) }
    ensures refused { (refusal : Refusal) → IsErrOf result (Stop.Refused refusal) → IsFetchedIn S.File.Input file opened.now.front opened.now.read opened.now.front.length (λ content t. IsLookUpRefused request.now.action request.now.part request.now.side content t refusal) }
{
    match &request.action {
        Action::Show => show_lines(alloc, system, file, opened),
        Action::Get(index) => get_line(alloc, system, file, opened, request, *index),
        Action::Index(placement) => index_line(alloc, opened.front.index(), placement),
        Action::Probe(placement, class) => {
            probe_line(alloc, system, file, opened, placement, *class)
        }
        _ => unreachable!(),
    }
}

/// The line of a look-up's answer in a file that was opened: it reads the file's front, and at most one block.
pub fn answer_in<S: FileSystem>(
    alloc: Global,
    system: &S,
    file: S::File,
    request: &Request,
) -> Result<String, Stop<FileFault>>
    requires unread { S.File.moved file ≡ [] }
    requires looks { IsLookUp request.now.action }
    ensures stated { IfOk result (λ line. AnswersIn S.File.Input request.now file (string_bytes line)) }
    ensures refused { (refusal : Refusal) → IsErrOf result (Stop.Refused refusal) → MeetsIn S.File.Input request.now file refusal }
{
    let mut file = file;
    let size = match system.len(&file) {
        Ok(size) => size,
        Err(fault) => return Err(Stop::Failed(fault)),
    };
    match opened_front(alloc, request, size, &mut file) {
        Ok(opened) => look_up_line(alloc, system, file, &opened, request),
        Err(Stop::Refused(refusal)) => Err(Stop::Refused(refusal)),
        Err(Stop::Memory) => Err(Stop::Memory),
        Err(Stop::Device) => Err(Stop::Failed(FileFault::of(file.reason()))),
    }
}
