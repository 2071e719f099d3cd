//! Tables opened by their front alone: headers, maps, sparse indexes and block lengths are read and checked. A
//! block is verified when it is fetched.
ghost use Rattle.std.specs.Prelude.{ℕ, Bool, false, List, ◌≡◌, ◌≤◌, ◌<◌, ◌^◌, [], IfErr, IfOk, IfSome, IsErrOf, IsTrue, length, map, ◌+◌, ◌*◌};
ghost use Rattle.szg_io.specs.Device.{HasFailed};
ghost use Rattle.szg_file.specs.Contents.{slots, gap};
ghost use Rattle.szg_file.specs.Format.{verdict};
ghost use Rattle.szg_file.specs.FrontInput.{IsFrontFault, IsFrontRead, IsFrontVerdict};
ghost use Rattle.szg_file.specs.FrontRead.{front_read};
ghost use Rattle.szg_file.specs.FrontTable.{IsFrontOf, IsWholeFront, KeepsOnlyNeeded};
ghost use Rattle.szg_file.specs.Held.{part_of, subtable_of};
ghost use Rattle.szg_file.specs.Kept.{BeginsWithKept};
ghost use Rattle.szg_file.specs.Unread.{BeginsWithFront, unread_file, blocks_end, blocks_first, unread_end, unread_subs};
ghost use Rattle.std.specs.List.{AllByRecursion};
ghost use Rattle.szg_block.specs.Subtable.{layout_of};
ghost use Rattle.szg_file.specs.Placed.{whole_sub, Fits};

use crate::begun::Measured;
use crate::fault::{ReadFault, Reason};
use crate::reading::blocks::block_bytes;
use crate::reading::dropping::PlacedSub;
use crate::reading::state::ReaderState;
use crate::reading::{FrontRead, read_front};
use crate::table_index::{TableIndex, index_of_placed};
use std::alloc::{AllocError, Global};
use std::marker::Model;
use szg_block::Sub;
use szg_io::Input;
use szg_values::{Kind, Material};

/// A table whose front passes every check. Its blocks may contain anything: they are verified when they are fetched.
#[derive(Drop)]
pub struct FrontTable {
    pub(crate) index: TableIndex,
    pub(crate) byte4: u8,
    // the source's number of bytes
    pub(crate) length: u64,
    // the offset of the table's last sixteen bytes
    pub(crate) ending: u64,
    // the length of the longest block
    pub(crate) room: usize,
    pub(crate) subs: Vec<PlacedSub>,
}

impl Model for FrontTable {
    ghost use Rattle.std.specs.Prelude.{ℕ, List};
    ghost use Rattle.szg_file.specs.FrontTable.{FrontKept, IsFrontOf};

    ghost Value = { FrontKept };

    ghost view = { λ t. record { index = t.index; byte4 = t.byte4; length = t.length; ending = t.ending; room = t.room; subs = t.subs.items } };

    ghost invariant = { λ t. (content : List ℕ) × IsFrontOf (record { index = t.index; byte4 = t.byte4; length = t.length; ending = t.ending; room = t.room; subs = t.subs.items }) content };
}

impl FrontTable {
    ghost use Rattle.std.specs.Prelude.{ℕ, List, ◌≡◌, ◌+◌, ◌≤◌};
    ghost use Rattle.szg_file.specs.FrontTable.{IsFrontOf};

    /// Returns the table's index: its material and kind, its parts, and the flags and maps of its subtables.
    pub fn index(&self) -> &TableIndex
        ensures { result.now ≡ self.now.index }
    {
        &self.index
    }

    /// Returns the byte after the magic. Bit 0: split. Bit 1: pawns.
    pub fn byte4(&self) -> u8
        ensures { result ≡ self.now.byte4 }
    {
        self.byte4
    }

    /// Returns the subtables in file order, without their blocks.
    pub fn subs(&self) -> &[PlacedSub]
        ensures { result.now ≡ self.now.subs }
    {
        &self.subs
    }

    /// Returns the offset of the last sixteen bytes of the table's file, which no check reads.
    pub fn ending(&self) -> u64
        ensures ending { result ≡ self.now.ending }
        ensures inside { result + 16 ≤ self.now.length }
        ensures front { (content : List ℕ) × IsFrontOf self.now content }
    {
        self.ending
    }

    /// Returns the table's index, and its subtables in file order without their blocks.
    pub fn into_parts(self) -> (TableIndex, Vec<PlacedSub>)
        ensures index { result.0 ≡ self.index }
        ensures subs { result.1.items ≡ self.subs }
    {
        let FrontTable { index, subs, .. } = self;
        (index, subs)
    }
}

/// Subtables with the offsets of their first blocks.
#[derive(Drop)]
pub struct PlacedSubs {
    pub subs: Vec<PlacedSub>,
    /// The offset after the last block.
    pub end: u64,
    /// The length of the longest block.
    pub room: usize,
}

/// Returns the number of padding bytes from offset `place` up to a multiple of 64.
fn padding_to_64(place: u64) -> u64
    ensures gap { result ≡ gap 64 place }
    ensures few { result < 64 }
{
    (64 - place % 64) % 64
}

/// Returns the offset of a subtable's first block and the offset after its last. The padding of the blocks begins
/// at offset `place`.
fn place_blocks(sub: &Sub, place: u64) -> (u64, u64)
    requires place { place < 2 ^ 61 }
    requires bits { IfSome (layout_of sub.now) (λ layout. layout.block_bits ≤ 18) }
    ensures first { result.0 ≡ blocks_first place (subtable_of sub.now) }
    ensures end { result.1 ≡ blocks_end place (subtable_of sub.now) }
    ensures long { result.1 ≤ place + 2 ^ 51 }
{
    match sub {
        Sub::Constant { .. } => (0, place),
        Sub::Pairs {
            block_bits,
            blocks,
            ..
        } => {
            let first = place + padding_to_64(place);
            (first, first + u64::from(*blocks) * (1 << *block_bits))
        }
    }
}

/// Computes the offsets of each subtable's blocks. The padding of the first begins at offset `place`, and each
/// subtable follows the previous one. Errors: an allocation was refused.
fn place_subs(alloc: Global, list: Vec<Measured>, place: u64) -> Result<PlacedSubs, AllocError>
    requires few { length list.items ≤ 8 }
    requires place { place < 2 ^ 60 }
    ensures subs { IfOk result (λ p. (content : List ℕ) → map (whole_sub content) p.subs.items ≡ unread_subs content place list.items) }
    ensures end { IfOk result (λ p. p.end ≡ unread_end place list.items) }
    ensures few { IfOk result (λ p. p.end ≤ place + 8 * 2 ^ 51) }
    ensures fits { IfOk result (λ p. (content : List ℕ) → p.end ≤ length content → AllByRecursion (Fits (length content) p.room) p.subs.items) }
{
    let mut subs = Vec::new(alloc);
    let mut end = place;
    let mut room = 0;
    'subtables: for measured in list {
        let Measured { sub, .. } = measured;
        let at = place_blocks(&sub, end);
        room = room.max(block_bytes(&sub) as usize);
        let first = at.0;
        subs.push(PlacedSub { sub, first })?;
        end = at.1;
    }
    Ok(PlacedSubs { subs, end, room })
}

/// Returns the table of a front that was read from the first `place` bytes of a file of `size` bytes. Errors: `Truncated`
/// at `size` if the file is too short for the blocks and what follows them; `Memory`.
fn front_table(
    alloc: Global,
    material: Material,
    kind: Kind,
    size: u64,
    read: FrontRead,
    place: u64,
) -> Result<FrontTable, ReadFault>
    requires known { (all : Bool) × (content : List ℕ) × (length content ≡ size) × BeginsWithKept all material kind (front_read read) place content }
    requires slots { read.parts.slots.items ≡ slots material kind (map part_of read.parts.bytes.items) }
    requires few { length read.measured.items ≤ 8 }
    requires place { place < 2 ^ 42 }
    ensures material { IfOk result (λ t. t.index.material ≡ material) }
    ensures kind { IfOk result (λ t. t.index.kind ≡ kind) }
    ensures table { IfOk result (λ t. (all : Bool) (content : List ℕ) → length content ≡ size → BeginsWithKept all material kind (front_read read) place content → IsFrontOf t content) }
    ensures lengths { IfOk result (λ t. (content : List ℕ) → length content ≡ size → BeginsWithKept false material kind (front_read read) place content → KeepsOnlyNeeded t) }
    ensures whole { IfOk result (λ t. (content : List ℕ) → length content ≡ size → BeginsWithFront material kind (front_read read) place content → IsWholeFront t place content) }
    ensures refused { IfErr result (λ fault. (all : Bool) (content : List ℕ) → length content ≡ size → BeginsWithKept all material kind (front_read read) place content → IsFrontFault (verdict (unread_file material kind) 0 content) fault) }
    ensures never { IsErrOf result ReadFault.Device → ⊥ }
{
    let placed = place_subs(alloc, read.measured, place)?;
    let ending = placed.end + padding_to_64(placed.end);
    if size < ending + 16 {
        let (place, reason) = (size, Reason::Truncated);
        return Err(ReadFault::Refused { place, reason });
    }
    let index = index_of_placed(material, kind, read.parts, &placed.subs, read.maps);
    Ok(FrontTable {
        index,
        byte4: read.byte4,
        length: size,
        ending,
        room: placed.room,
        subs: placed.subs,
    })
}

/// Opens a table by its front as `open_front` does. Keeps all block lengths if `all`, and otherwise those of the blocks that
/// begin below their subtable's number of positions.
pub fn open_front_with<R: Input>(
    alloc: Global,
    material: Material,
    kind: Kind,
    size: u64,
    all: bool,
    input: &mut R,
) -> Result<(FrontTable, u64), ReadFault>
    requires first { R.moved input.old ≡ [] }
    ensures verdict { IfSome (R.coming input.old) (λ content. length content ≡ size → IsFrontVerdict material kind content result) }
    ensures lengths { all ≡ false → IfOk result (λ opened. KeepsOnlyNeeded opened.0) }
    ensures whole { IsTrue all → IfOk result (λ opened. IfSome (R.coming input.old) (λ content. length content ≡ size → IsWholeFront opened.0 opened.1 content)) }
    ensures read { IsFrontRead R.Input material kind size input.old input.new result }
    ensures device { IsErrOf result ReadFault.Device → HasFailed (R.failures input.old) (R.failures input.new) (R.interrupted input.new) }
    ensures may_fail { IsErrOf result ReadFault.Device → IsTrue (R.may_fail input.old) }
    ensures quiet { (IsErrOf result ReadFault.Device → ⊥) → R.failures input.new ≡ R.failures input.old }
{
    let mut state = ReaderState::new(alloc);
    let read = read_front(alloc, &material, kind, all, input, &mut state)?;
    let place = state.place;
    if size < place {
        let (place, reason) = (size, Reason::Truncated);
        return Err(ReadFault::Refused { place, reason });
    }
    let table = front_table(alloc, material, kind, size, read, place)?;
    Ok((table, place))
}

/// Opens a table of this material and kind by its front, from the first byte of a file of `size` bytes. It makes
/// every check of `read` up to the block lengths, and computes that the file is long enough for the blocks, the
/// padding and the last sixteen bytes. It reads no byte after the block lengths, and keeps those of the blocks that
/// begin below their subtable's number of positions. Returns the table and the number of bytes read.
///
/// Errors: `Refused` with the offset and the reason that `read` returns for these checks, or `Truncated` at `size`;
/// `Device` if the device failed; `Memory` if an allocation was refused.
pub fn open_front<R: Input>(
    alloc: Global,
    material: Material,
    kind: Kind,
    size: u64,
    input: &mut R,
) -> Result<(FrontTable, u64), ReadFault>
    requires first { R.moved input.old ≡ [] }
    // If the reader specifies its bytes, and they are all of the file, the result is the verdict on them.
    ensures verdict { IfSome (R.coming input.old) (λ content. length content ≡ size → IsFrontVerdict material kind content result) }
    // In any case: which lengths are kept, and the bytes that were read.
    ensures lengths { IfOk result (λ opened. KeepsOnlyNeeded opened.0) }
    ensures read { IsFrontRead R.Input material kind size input.old input.new result }
    ensures device { IsErrOf result ReadFault.Device → HasFailed (R.failures input.old) (R.failures input.new) (R.interrupted input.new) }
    ensures may_fail { IsErrOf result ReadFault.Device → IsTrue (R.may_fail input.old) }
    ensures quiet { (IsErrOf result ReadFault.Device → ⊥) → R.failures input.new ≡ R.failures input.old }
{
    open_front_with(alloc, material, kind, size, false, input)
}
