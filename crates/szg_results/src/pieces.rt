//! Pieces of tables' files. A file is found by the words; its front is read once, and then single blocks.

ghost use Rattle.std.specs.Prelude.{◌≡◌, Some, [], IfNone, IfOk, IfSome, map, option_map, string_bytes};
ghost use Rattle.szg_block.specs.BlocksTrait.{bytes_at};
ghost use Rattle.szg_file.specs.FrontTable.{IsFrontOf};
ghost use Rattle.szg_file.specs.Opened.{table_in};
ghost use Rattle.szg_file.specs.WholeRead.{IsTable};
ghost use Rattle.szg_results.specs.Folders.{IsAbsent, IsAbsentAt, IsFetched, IsFirstPath, IsReadFrom, IsValueOf, ending_of, path_of};

use crate::folders::{ResultStop, copy_of};
use std::alloc::{AllocError, Global};
use std::io::ErrorKind;
use szg_file::{ByteRange, FetchFault, ReadFault, Table, open_front, read};
use szg_files::{FileFault, FileSystem, Reasons};
use szg_io::Input;
use szg_named::named_by;
use szg_place::Spot;
use szg_tables::{FetchedTable, FetchedValue, Missing, MissingReason};
use szg_values::{Kind, Material};

/// What was read of a table's file.
#[derive(Drop)]
pub(crate) enum Piece {
    /// The table, opened by its front.
    Front(FetchedTable),
    /// A value of the table with this number.
    Value(usize, FetchedValue),
}

/// A table's file at its first byte, and its path.
#[derive(Drop)]
struct TableFile<F> {
    path: String,
    file: F,
}

/// Reads a whole table from the first folder that has it. None if none has it.
///
/// Errors: the file is no table, or it failed; an allocation was refused.
pub fn read_missing<S: FileSystem>(
    alloc: Global,
    system: &mut S,
    words: &[&str],
    missing: &Missing,
) -> Result<Option<Table>, ResultStop>
    ensures content { S.content system.new ≡ S.content system.old }
    ensures table { IfOk result (λ table. IfSome table (λ t. IsReadFrom (S.content system.old) (map (λ word. word.now) words.now) missing.now.material missing.now.kind t)) }
    ensures absent { IfOk result (λ table. IfNone table (IsAbsent (S.content system.old) (map (λ word. word.now) words.now) missing.now.material missing.now.kind)) }
{
    match find_file(alloc, system, words, missing)? {
        Some(found) => Ok(Some(read_from(alloc, missing, found.file)?)),
        None => Ok(None),
    }
}

/// Opens a table by its front, from the first folder that has it. None if none has it.
///
/// Errors: those of `read_missing`, but for the checks of blocks.
#[tactic(auto, using(crate::proofs::Kept::opened_is))]
pub(crate) fn open_missing<S: FileSystem>(
    alloc: Global,
    system: &mut S,
    words: &[&str],
    missing: &Missing,
) -> Result<Option<FetchedTable>, ResultStop>
    ensures content { S.content system.new ≡ S.content system.old }
    ensures fetched { IfOk result (λ table. IfSome table (λ t. IsFetched (S.content system.old) (map (λ word. word.now) words.now) t)) }
    ensures absent { IfOk result (λ table. IfNone table (IsAbsent (S.content system.old) (map (λ word. word.now) words.now) missing.now.material missing.now.kind)) }
{
    match find_file(alloc, system, words, missing)? {
        Some(found) => Ok(Some(front_from(alloc, system, missing, found)?)),
        None => Ok(None),
    }
}

/// Finds a table's file by the first word that has it. None if none has it.
#[tactic(auto, using(crate::proofs::Absent::absent_next, crate::proofs::Absent::first_at))]
fn find_file<S: FileSystem>(
    alloc: Global,
    system: &mut S,
    words: &[&str],
    missing: &Missing,
) -> Result<Option<TableFile<S::File>>, ResultStop>
    ensures content { S.content system.new ≡ S.content system.old }
    ensures absent { IfOk result (λ found. IfNone found (IsAbsent (S.content system.old) (map (λ word. word.now) words.now) missing.now.material missing.now.kind)) }
    ensures first { IfOk result (λ found. IfSome found (λ f. IsFirstPath (S.content system.old) (map (λ word. word.now) words.now) missing.now.material missing.now.kind (string_bytes f.path))) }
    ensures unread { IfOk result (λ found. IfSome found (λ f. S.File.moved f.file ≡ [])) }
    ensures coming { IfOk result (λ found. IfSome found (λ f. IfSome (S.content system.old (string_bytes f.path)) (λ bytes. S.File.coming f.file ≡ Some bytes))) }
{
    'words: for word in words {
        if let Some(found) = open_at(alloc, system, word, missing)? {
            return Ok(Some(found));
        }
    }
    Ok(None)
}

/// Opens a table's file in a folder, or the file at a path. None if there is no such file.
fn open_at<S: FileSystem>(
    alloc: Global,
    system: &mut S,
    word: &str,
    missing: &Missing,
) -> Result<Option<TableFile<S::File>>, ResultStop>
    ensures content { S.content system.new ≡ S.content system.old }
    ensures absent { IfOk result (λ found. IfNone found (IsAbsentAt (S.content system.old) missing.now.material missing.now.kind word.now)) }
    ensures path { IfOk result (λ found. IfSome found (λ f. path_of missing.now.material missing.now.kind word.now ≡ Some (string_bytes f.path))) }
    ensures unread { IfOk result (λ found. IfSome found (λ f. S.File.moved f.file ≡ [])) }
    ensures coming { IfOk result (λ found. IfSome found (λ f. IfSome (S.content system.old (string_bytes f.path)) (λ bytes. S.File.coming f.file ≡ Some bytes))) }
{
    let Some(path) = path_of(alloc, word, missing)? else {
        return Ok(None);
    };
    match system.open(path.as_str()) {
        Ok(file) => Ok(Some(TableFile { path, file })),
        Err(FileFault::System(error)) if error.kind() == ErrorKind::NotFound => Ok(None),
        Err(fault) => Err(ResultStop::Failed(fault)),
    }
}

/// Reads a whole table from its file.
fn read_from<F: Input + Reasons + Drop>(
    alloc: Global,
    missing: &Missing,
    mut file: F,
) -> Result<Table, ResultStop>
    requires { F.moved file ≡ [] }
    ensures table { IfOk result (λ t. IsTable missing.now.material missing.now.kind t) }
    ensures there { IfOk result (λ t. IfSome (F.coming file) (λ content. table_in missing.now.material missing.now.kind content ≡ Some t.contents)) }
{
    let Missing { material, kind, .. } = missing;
    match read(alloc, material.copy(), *kind, &mut file) {
        Ok(table) => Ok(table),
        Err(fault) => Err(stop_of(missing, fault, &file)),
    }
}

/// Opens a table by its file's front.
fn front_from<S: FileSystem>(
    alloc: Global,
    system: &S,
    missing: &Missing,
    found: TableFile<S::File>,
) -> Result<FetchedTable, ResultStop>
    requires { S.File.moved found.file ≡ [] }
    // where the system specifies the file's bytes, the front is theirs
    ensures front { IfOk result (λ t. IfSome (S.File.coming found.file) (λ content. IsFrontOf t.front content)) }
    ensures material { IfOk result (λ t. t.front.index.material ≡ missing.now.material) }
    ensures kind { IfOk result (λ t. t.front.index.kind ≡ missing.now.kind) }
    ensures path { IfOk result (λ t. t.path ≡ found.path) }
    ensures none { IfOk result (λ t. t.values.items ≡ []) }
{
    let TableFile { path, mut file } = found;
    let size = match system.len(&file) {
        Ok(size) => size,
        Err(fault) => return Err(ResultStop::Failed(fault)),
    };
    let Missing { material, kind, .. } = missing;
    match open_front(alloc, material.copy(), *kind, size, &mut file) {
        Ok((front, read)) => Ok(FetchedTable {
            path,
            size,
            read,
            front,
            values: Vec::new(alloc),
        }),
        Err(fault) => Err(stop_of(missing, fault, &file)),
    }
}

/// Reads the value at a spot of a table: the block that has it, and no other byte.
///
/// Errors: the block doesn't decode; the file is not as long as when the table was opened, or it failed; an allocation
/// was refused.
pub(crate) fn fetch<S: FileSystem>(
    alloc: Global,
    system: &mut S,
    table: &FetchedTable,
    spot: Spot,
) -> Result<FetchedValue, ResultStop>
    ensures content { S.content system.new ≡ S.content system.old }
    ensures value { IfOk result (λ value. IsValueOf (S.content system.old) value table.now) }
    ensures spot { IfOk result (λ value. value.spot ≡ spot) }
{
    let front = &table.front;
    let Some(size) = front.index().size(spot.part, spot.side) else {
        return Err(ResultStop::Contradiction);
    };
    if spot.index >= size {
        return Err(ResultStop::Contradiction);
    }
    let located = front.locate(spot.part, spot.side, spot.index);
    let block = match block_of(alloc, system, table, located.range()) {
        Ok(block) => block,
        Err(stop) => return Err(stop),
    };
    match located.decode(&block) {
        Ok(value) => Ok(FetchedValue { spot, value }),
        Err(FetchFault::Block { number, offset }) => Err(ResultStop::Missing(Missing {
            material: front.index().material().copy(),
            kind: front.index().kind(),
            reason: MissingReason::Block { number, offset },
        })),
        // the block has the range's length
        Err(FetchFault::Source) => Err(ResultStop::Failed(FileFault::Ended)),
    }
}

/// Reads the bytes of a range of a table's file. None are read if no range is wanted.
fn block_of<S: FileSystem>(
    alloc: Global,
    system: &mut S,
    table: &FetchedTable,
    wanted: Option<ByteRange>,
) -> Result<Vec<u8>, ResultStop>
    ensures content { S.content system.new ≡ S.content system.old }
    ensures block { IfOk result (λ block. IfSome (S.content system.old (string_bytes table.now.path)) (λ content. IfSome wanted (λ range. block.items ≡ bytes_at content range.offset range.count))) }
{
    let mut block = Vec::new(alloc);
    let Some(ByteRange { offset, count }) = wanted else {
        return Ok(block);
    };
    if block.resize(count as usize, 0).is_err() {
        return Err(ResultStop::Memory);
    }
    match system.read_at(table.path.as_str(), table.size, offset, &mut block) {
        Ok(()) => Ok(block),
        Err(fault) => Err(ResultStop::Failed(fault)),
    }
}

/// Returns why there is no table.
fn stop_of(missing: &Missing, fault: ReadFault, file: &impl Reasons) -> ResultStop {
    match fault {
        ReadFault::Refused { place, reason } => {
            ResultStop::Table(missing.material.copy(), missing.kind, place, reason)
        }
        ReadFault::Device => ResultStop::Failed(FileFault::of(file.reason())),
        ReadFault::Memory => ResultStop::Memory,
    }
}

/// Returns the path of a table in a folder, or the word itself if it is the path of the table's file. None if it is the
/// path of another table's file.
fn path_of(alloc: Global, word: &str, missing: &Missing) -> Result<Option<String>, AllocError>
    ensures { IfOk result (λ path. option_map (λ text. string_bytes text) path ≡ path_of missing.now.material missing.now.kind word.now) }
{
    let name = missing.material.name();
    let name = name.as_str();
    let ending = ending_of(missing.kind);
    match named_by(word) {
        Some((other, kind)) if other == name && ending_of(kind) == ending => {
            Ok(Some(String::from_str(alloc, word)?))
        }
        Some(_) => Ok(None),
        None => Ok(Some(format!(in alloc; "{word}/{name}.{ending}")?)),
    }
}

fn ending_of(kind: Kind) -> &'static str
    ensures { result.now ≡ ending_of kind }
{
    match kind {
        Kind::Wdl => "rtbw",
        Kind::Dtz => "rtbz",
    }
}
