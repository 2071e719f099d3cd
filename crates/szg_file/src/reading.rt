pub(crate) mod blocks;
pub(crate) mod dropping;
mod heads;
mod index;
mod kept;
mod maps;
pub(crate) mod parts;
pub(crate) mod sink;
pub(crate) mod start;
pub(crate) mod state;
mod taking;

ghost use Rattle.std.specs.Prelude.{◌≡◌, ℕ, ◌+◌, ◌*◌, ◌^◌, ◌≤◌, ◌<◌, List, length, map, IfSome, IfOk, OnOk, IsErrOf, IsTrue, []};
ghost use Rattle.szg_io.specs.Device.{HasFailed};
ghost use Rattle.szg_io.specs.Moved.{Takes};
ghost use Rattle.szg_file.specs.Format.{verdict};
ghost use Rattle.szg_file.specs.Contents.{slots, Subtable};
ghost use Rattle.szg_file.specs.File.{file};
ghost use Rattle.szg_file.specs.Accepted.{IsAccepted};
ghost use Rattle.szg_file.specs.Held.{file_bytes, part_of};
ghost use Rattle.szg_file.specs.Reading.{Reading, Lacking};
ghost use Rattle.szg_file.specs.WholeRead.{FollowsVerdict, IsVerdict, TookBytes, list_lengths};
ghost use Rattle.szg_file.specs.FilePieces.{ending_field};
ghost use Rattle.szg_file.specs.Grown.{HasCounted, front_lengths};
ghost use Rattle.szg_file.specs.FrontRead.{front_read};
ghost use Rattle.szg_file.specs.Kept.{kept_front, ReadingOf, kept_contents};
ghost use Rattle.szg_file.specs.Unread.{front_field};
ghost use Rattle.szg_file.specs.Values.{slotted};
ghost use Rattle.std.specs.List.{AllByRecursion};
ghost use Rattle.szg_file.specs.Outline.{outlined};
ghost use Rattle.szg_file.specs.Placed.{Fits};
ghost use Rattle.szg_file.specs.Streaming.{Accepted, wanted_of, IsScanned};

use crate::begun::Measured;
use crate::fault::ReadFault;
use crate::reading::blocks::read_blocks;
use crate::reading::dropping::{PlacedSub, pass_subs};
use crate::reading::heads::read_heads;
use crate::reading::index::read_lengths;
use crate::reading::maps::read_maps;
use crate::reading::parts::{Parts, read_parts};
use crate::reading::sink::ValueSink;
use crate::reading::start::read_start;
use crate::reading::state::ReaderState;
use crate::reading::taking::{take_field, take_fill};
use crate::table::{Map, Table};
use crate::table_index::{TableIndex, index_of_placed, index_of_subs};
use std::alloc::Global;
use szg_io::{Bytes, Input};
use szg_values::{Kind, Material};

/// The contents of a file up to its block lengths.
#[derive(Drop)]
pub struct FrontRead {
    pub byte4: u8,
    pub parts: Parts,
    pub maps: Vec<Option<Map>>,
    pub measured: Vec<Measured>,
}

/// Reads all sections up to the block lengths. Keeps all of these if `all`, and otherwise those of the blocks that begin
/// below their subtable's number of positions.
pub(crate) fn read_front<R: Input>(
    alloc: Global,
    material: &Material,
    kind: Kind,
    all: bool,
    input: &mut R,
    state: &mut ReaderState,
) -> Result<FrontRead, ReadFault>
    requires place { state.old.place ≡ 0 }
    requires growth { state.old.growth ≡ 0 }
    ensures front { ReadingOf (front_field material.now kind) (λ whole kept. front_read kept ≡ kept_front all whole) state.old state.new R.Input input.old input.new result }
    ensures slots { IfOk result (λ f. f.parts.slots.items ≡ slots material.now kind (map part_of f.parts.bytes.items)) }
    ensures slotted { IfOk result (λ f. (subs : List Subtable) → length subs ≡ length f.measured.items → slotted (map (λ measured. measured.slot) f.measured.items) subs ≡ slotted (slots material.now kind (map part_of f.parts.bytes.items)) subs) }
    ensures few { IfOk result (λ f. length f.measured.items ≤ 8) }
    ensures place { OnOk result (state.new.place < 2 ^ 42) }
    ensures growth { OnOk result (state.new.growth ≤ 2 * state.new.place + 36) }
    ensures grown { IfOk result (λ f. HasCounted state.old state.new 0 (front_lengths f)) }
{
    let byte4 = read_start(material, kind, input, state)?;
    let parts = read_parts(alloc, material, kind, input, state)?;
    take_fill(alloc, 2, input, state)?;
    let heads = read_heads(alloc, parts.slots.as_slice(), input, state)?;
    let maps = read_maps(alloc, kind, &heads, input, state)?;
    let measured = read_lengths(alloc, heads, all, input, state)?;
    Ok(FrontRead {
        byte4,
        parts,
        maps,
        measured,
    })
}

/// Reads the padding after the blocks, and the last sixteen bytes.
pub(crate) fn read_ending<R: Input>(
    alloc: Global,
    input: &mut R,
    state: &mut ReaderState,
) -> Result<[u8; 16], ReadFault>
    requires place { state.old.place < 2 ^ 56 }
    requires growth_bound { state.old.growth ≤ 2 * state.old.place + 44 }
    ensures ending { Reading ending_field (λ last. last) state.old state.new R.Input input.old input.new result }
    ensures place { OnOk result (state.new.place < state.old.place + 80) }
    ensures grown { OnOk result (HasCounted state.old state.new 0 0) }
    ensures memory { IsErrOf result ReadFault.Memory → Lacking ending_field state.old R.Input input.old input.new }
{
    take_fill(alloc, 64, input, state)?;
    let mut last = [0; 16];
    take_field(input, state, &mut last)?;
    Ok(last)
}

/// Reads a table of this material and kind. It reads exactly the bytes of the table's file.
///
/// Errors: `Refused` with the first failing check and its offset; the bytes up to the end of the field that it
/// checks were read, and none after it. `Truncated` if the bytes end within a field. `Device` if the reader failed,
/// which never happens with a reader that cannot fail. `Memory` if an allocation was refused; then no byte after
/// the file or after the first failing field was read, and no failing check was skipped.
pub fn read<R: Input>(
    alloc: Global,
    material: Material,
    kind: Kind,
    input: &mut R,
) -> Result<Table, ReadFault>
    // If the reader specifies its bytes, the result is the verdict on them, however they are divided into chunks.
    ensures verdict { IfSome (R.coming input.old) (λ bytes. FollowsVerdict (verdict (file material kind) 0 bytes) result (R.coming input.new)) }
    // In any case: the bytes that were read, and the number of calls.
    ensures taken { (bytes : List ℕ)
        × Takes R.Input input.old input.new bytes 1
        × TookBytes material kind bytes (R.coming input.new) result }
    ensures material { IfOk result (λ t. t.contents.material ≡ material) }
    ensures kind { IfOk result (λ t. t.contents.kind ≡ kind) }
    ensures accepted { IfOk result (λ t. IsAccepted t.contents t.filled) }
    ensures lists { IfOk result (λ t. list_lengths t ≤ 4 * length (file_bytes t) + 65536) }
    ensures device { IsErrOf result ReadFault.Device → HasFailed (R.failures input.old) (R.failures input.new) (R.interrupted input.new) }
    ensures may_fail { IsErrOf result ReadFault.Device → IsTrue (R.may_fail input.old) }
    ensures quiet { (IsErrOf result ReadFault.Device → ⊥) → R.failures input.new ≡ R.failures input.old }
{
    let mut state = ReaderState::new(alloc);
    let front = read_front(alloc, &material, kind, true, input, &mut state)?;
    let subs = read_blocks(alloc, front.measured, input, &mut state)?;
    let last = read_ending(alloc, input, &mut state)?;
    let index = index_of_subs(material, kind, front.parts, &subs, front.maps);
    Ok(Table {
        index,
        byte4: front.byte4,
        subs,
        filled: state.fill,
        last,
    })
}

/// Reads a table of this material and kind from the front of `bytes`, as `read` does. There is no device that can
/// fail: the result is the verdict on the bytes, or `Memory`.
pub fn read_bytes(
    alloc: Global,
    material: Material,
    kind: Kind,
    bytes: &[u8],
) -> Result<Table, ReadFault>
    ensures { IsVerdict (verdict (file material kind) 0 bytes.now) result }
{
    let mut input = Bytes::new(bytes);
    read(alloc, material, kind, &mut input)
}

/// The contents of a whole file except its material and kind, its padding bytes and its blocks.
#[derive(Drop)]
pub struct Outline {
    pub byte4: u8,
    pub parts: Parts,
    pub subs: Vec<PlacedSub>,
    pub maps: Vec<Option<Map>>,
    pub last: [u8; 16],
}

/// Reads a whole file. Each block is read into the buffer, which grows to the longest. The values that the sink wants
/// are handed to it in file order. Keeps the block lengths that `read_front` keeps. Errors: as `read`; `Memory` too if
/// the sink takes no more values.
pub(crate) fn read_outline<R: Input, W, K: ValueSink<W>>(
    alloc: Global,
    material: &Material,
    kind: Kind,
    all: bool,
    buffer: &mut Vec<u8>,
    input: &mut R,
    state: &mut ReaderState,
    sink: &mut K,
    out: &mut W,
) -> Result<Outline, ReadFault>
    requires place { state.old.place ≡ 0 }
    requires growth { state.old.growth ≡ 0 }
    requires first { R.moved input.old ≡ [] }
    ensures outline { ReadingOf (file material.now kind) (λ table o. outlined material.now kind (R.moved input.new) o ≡ kept_contents all table) state.old state.new R.Input input.old input.new result }
    ensures place { OnOk result (state.new.place < 2 ^ 57) }
    ensures memory { IsErrOf result ReadFault.Memory → Lacking (file material.now kind) state.old R.Input input.old input.new }
    ensures slots { IfOk result (λ o. o.parts.slots.items ≡ slots material.now kind (map part_of o.parts.bytes.items)) }
    ensures fits { IfOk result (λ o. AllByRecursion (Fits (length (R.moved input.new)) (length buffer.new.items)) o.subs.items) }
    ensures accepted { IfOk result (λ o. Accepted K.accepts (wanted_of (K.wanted sink.old) (outlined material.now kind (R.moved input.new) o)) sink.old out.old sink.new out.new) }
{
    let front = read_front(alloc, material, kind, all, input, state)?;
    let subs = pass_subs(alloc, kind, front.measured, buffer, input, state, sink, out)?;
    let last = read_ending(alloc, input, state)?;
    Ok(Outline {
        byte4: front.byte4,
        parts: front.parts,
        subs,
        maps: front.maps,
        last,
    })
}

/// What a scan returns of a file.
#[derive(Drop)]
pub struct Scanned {
    /// The table's index.
    pub index: TableIndex,
    /// The file's last sixteen bytes.
    pub last: [u8; 16],
    /// The file's length in bytes.
    pub length: u64,
}

/// Reads the file of a table of this material and kind, from the reader's first byte on, and hands the values that the
/// sink wants to it, a block's values as soon as the block passed its check. With `NoSink` it only checks the file.
///
/// It reads the bytes that `read` reads and refuses what `read` refuses, but keeps one block and its values in memory at
/// a time. A refusal may come after the sink accepted values; a scan with `NoSink` before says that none comes, if the
/// bytes stay the same. Errors: as `read`; `Memory` too if the sink takes no more values.
pub fn scan<R: Input, W, K: ValueSink<W>>(
    alloc: Global,
    material: Material,
    kind: Kind,
    input: &mut R,
    sink: &mut K,
    out: &mut W,
) -> Result<Scanned, ReadFault>
    requires first { R.moved input.old ≡ [] }
    ensures scanned { IsScanned R.Input (K.wanted sink.old) K.accepts material kind input.old input.new sink.old out.old sink.new out.new result }
    ensures device { IsErrOf result ReadFault.Device → HasFailed (R.failures input.old) (R.failures input.new) (R.interrupted input.new) }
    ensures may_fail { IsErrOf result ReadFault.Device → IsTrue (R.may_fail input.old) }
    ensures quiet { (IsErrOf result ReadFault.Device → ⊥) → R.failures input.new ≡ R.failures input.old }
{
    let mut state = ReaderState::new(alloc);
    let mut block = Vec::new(alloc);
    let outline = read_outline(
        alloc, &material, kind, false, &mut block, input, &mut state, sink, out,
    )?;
    let subs = outline.subs;
    let last = outline.last;
    Ok(Scanned {
        index: index_of_placed(material, kind, outline.parts, &subs, outline.maps),
        last,
        length: state.place,
    })
}
