//! Tables whose files are in memory, as mapped files are: what grows with the file is read where it stands. Sparse indexes
//! and block lengths are checked when a table is opened, and a block when a value of it is first read.
ghost use Rattle.std.specs.Prelude.{◌≡◌, ◌+◌, ◌*◌, ◌/◌, ◌^◌, ◌<◌, ◌≤◌, IfErr, IfNone, IfOk, IfSome, MatchOption, None, length, drop, sum_by};
ghost use Rattle.szg_block.specs.Subtable.{layout_of, HasSoundIndex, IsShapedHead};
ghost use Rattle.szg_file.specs.Accepted.{SideBySide};
ghost use Rattle.szg_file.specs.Format.{verdict};
ghost use Rattle.szg_file.specs.FrontInput.{IsFrontFault};
ghost use Rattle.szg_file.specs.Held.{subtable_of};
ghost use Rattle.szg_mapped.specs.InPlace.{header_of, lengths_size, sparse_size, EndAt, IsNeededBlock, IsTableIn, Stands};
ghost use Rattle.szg_file.specs.Placed.{blocks_size};
ghost use Rattle.szg_file.specs.Unread.{unread_file};

use crate::passed::Passed;
use byteorder::{ByteOrder, LittleEndian};
use std::alloc::{AllocError, Global};
use std::marker::Model;
use szg_block::{BlockIndex, Entry, Sub, block_count, locate_by, needed_from, value_in_block};
use szg_file::{
    BlockSpot, FetchFault, PlacedSub, ReadFault, TableIndex, block_bytes, constant_value,
    is_constant, open_front_with, slot_number,
};
use szg_io::Bytes;
use szg_values::{Kind, Material};

/// A sparse index and block lengths where they stand in a file: entries of six bytes, and lengths of two.
#[derive(Clone, Copy)]
pub struct IndexBytes<'a> {
    sparse: &'a [u8],
    lengths: &'a [u8],
}

/// Returns the bytes from row `n` on. None if there is no such row of `width` bytes.
#[inline(always)]
fn row_from(bytes: &[u8], width: usize, n: usize) -> Option<&[u8]>
    requires { 0 < width }
    ensures row { IfSome result (λ row. row.now ≡ drop (width * n) bytes.now) }
    ensures there { IfSome result (λ row. n < length bytes.now / width) }
    ensures none { IfNone result (length bytes.now / width ≤ n) }
{
    if n >= bytes.len() / width {
        return None;
    }
    Some(&bytes[width * n..])
}

impl<'a> BlockIndex for IndexBytes<'a> {
    ghost use Rattle.szg_mapped.specs.InPlace.{entries_in, lengths_in};

    ghost sparse = { λ x. entries_in x.sparse.now };

    ghost lengths = { λ x. lengths_in x.lengths.now };

    #[inline(always)]
    fn entry(&self, n: usize) -> Option<Entry> {
        let row = row_from(self.sparse, 6, n)?;
        Some(Entry {
            block: LittleEndian::read_u32(row),
            offset: LittleEndian::read_u16(&row[4..]),
        })
    }

    #[inline(always)]
    fn length(&self, n: usize) -> Option<u16> {
        let row = row_from(self.lengths, 2, n)?;
        Some(LittleEndian::read_u16(row))
    }
}

/// A subtable of a file in memory: its header, the offset of its first block, and where its sparse index and its block lengths
/// stand.
#[derive(Drop)]
pub struct SubInPlace<'a> {
    // with empty lists
    pub(crate) placed: PlacedSub,
    pub(crate) index: IndexBytes<'a>,
}

/// The block of a value, and the number of values that it needs.
#[derive(Clone, Copy)]
struct NeededBlock {
    spot: BlockSpot,
    needed: u64,
}

/// Returns the block of value `i` of a subtable with `size` values. None in a constant subtable. None too if the index leads
/// to no block, as it may if the bytes have changed since they were checked.
#[inline(always)]
fn block_for(sub: &SubInPlace, size: u64, i: u64) -> Option<NeededBlock>
    requires below { i < size }
    requires inside { sub.now.placed.first + blocks_size sub.now.placed.sub < 2 ^ 64 }
    requires bits { IfSome (layout_of sub.now.placed.sub) (λ layout. (layout.block_bits ≤ 18) × (layout.span_bits ≤ 31)) }
    ensures found { (placed : PlacedSub) → Stands placed sub.now → IsShapedHead placed.sub size → HasSoundIndex placed.sub size → MatchOption result (layout_of placed.sub ≡ None) (IsNeededBlock placed size i) }
    ensures there { IfSome result (λ found. found.spot.offset + found.spot.count ≤ sub.now.placed.first + blocks_size sub.now.placed.sub) }
    ensures within { IfSome result (λ found. found.spot.value.item < found.needed) }
    ensures short { IfSome result (λ found. found.spot.count ≤ 2 ^ 18) }
{
    let Sub::Pairs {
        span_bits,
        blocks,
        ..
    } = &sub.placed.sub
    else {
        return None;
    };
    let value = locate_by(&sub.index, *blocks, *span_bits, i)?;
    let before = i.checked_sub(value.item)?;
    let count = block_bytes(&sub.placed.sub);
    Some(NeededBlock {
        spot: BlockSpot {
            value,
            offset: sub.placed.first + u64::from(value.block) * count,
            count,
        },
        needed: needed_from(value.length, size, before),
    })
}

/// A table whose file is in memory. Of what grows with the file nothing is copied.
#[derive(Drop)]
pub struct TableInPlace<'a> {
    index: TableIndex,
    bytes: &'a [u8],
    subs: Vec<SubInPlace<'a>>,
}

impl<'a> Model for TableInPlace<'a> {
    ghost use Rattle.szg_mapped.specs.InPlace.{InPlace, IsInPlace};

    ghost Value = { InPlace };

    ghost view = { λ t. record { index = t.index; content = t.bytes.now } };

    ghost invariant = { λ t. IsInPlace t.index t.bytes.now t.subs.items };
}

impl<'a> TableInPlace<'a> {
    ghost use Rattle.std.specs.Prelude.{◌≡◌, ◌<◌, IfErr, IfOk, IfSome, IsSomeAnd};
    ghost use Rattle.szg_file.specs.Fetching.{NamesBadBlock};
    ghost use Rattle.szg_file.specs.Index.{slot_in};
    ghost use Rattle.szg_mapped.specs.Passed.{ArePassed};
    ghost use Rattle.szg_file.specs.Unread.{front_at, IsDecoded};

    /// Returns the table's index: its material and kind, its parts, and the flags and maps of its subtables.
    pub fn index(&self) -> &TableIndex
        ensures { result.now ≡ self.now.index }
    {
        &self.index
    }

    /// Returns value `i` of a part's side, decoded where its block stands. Each block is verified once: a block that passes
    /// is noted in `passed`, and a noted one is decoded only up to the value. Allocates nothing but the bits of a subtable's
    /// blocks, when the first of them passes.
    ///
    /// Errors: `Block` if the block does not decode; `Source` if the sparse index leads to no block, only if the bytes have
    /// changed since the table was opened. They may be mapped from a file, and change: nothing relies on what they are.
    pub fn get(&self, passed: &mut Passed, part: u8, side: u8, i: u64) -> Result<u16, FetchFault>
        requires below { IsSomeAnd (slot_in self.now.index part side) (λ slot. i < slot.size) }
        requires passed { ArePassed self.now.index self.now.content passed.old }
        ensures value { IfOk result (λ value. IfSome (front_at self.now.index.material self.now.index.kind self.now.content part side) (λ found. IsDecoded self.now.index.kind found i value)) }
        ensures fault { IfErr result (λ fault. IfSome (front_at self.now.index.material self.now.index.kind self.now.content part side) (λ found. NamesBadBlock self.now.content found i fault)) }
        ensures passed { ArePassed self.now.index self.now.content passed.new }
    {
        let slots = self.index.slots();
        let Some(n) = slot_number(slots, part, side) else {
            unreachable!()
        };
        let slot = slots[n];
        let sub = &self.subs[n];
        if is_constant(&sub.placed.sub) {
            return Ok(constant_value(self.index.kind(), &sub.placed.sub));
        }
        let Some(found) = block_for(sub, slot.size, i) else {
            return Err(FetchFault::Source);
        };
        let spot = found.spot;
        let (value, first) = (spot.value, spot.offset as usize);
        let block = &self.bytes[first..first + spot.count as usize];
        let is_noted = passed.has(part, side, value.block);
        match value_in_block(&sub.placed.sub, value, found.needed, block, is_noted) {
            Ok(value_found) => {
                if !is_noted {
                    passed.note(part, side, value.block, block_count(&sub.placed.sub));
                }
                Ok(value_found)
            }
            Err(_) => Err(FetchFault::Block {
                number: value.block,
                offset: spot.offset,
            }),
        }
    }
}

/// Returns the number of bytes of a subtable's sparse index and of its block lengths.
fn list_sizes(placed: &PlacedSub) -> (usize, usize)
    requires { sparse_size placed.now + lengths_size placed.now < 2 ^ 63 }
    ensures sparse { result.0 ≡ sparse_size placed.now }
    ensures lengths { result.1 ≡ lengths_size placed.now }
{
    match &placed.sub {
        Sub::Constant { .. } => (0, 0),
        Sub::Pairs {
            sparse,
            lengths,
            ..
        } => (6 * sparse.len(), 2 * lengths.len()),
    }
}

/// Returns the number of bytes of the sparse indexes and of the block lengths of subtables.
fn list_bytes(subs: &[PlacedSub]) -> (usize, usize)
    requires { sum_by sparse_size subs.now + sum_by lengths_size subs.now < 2 ^ 63 }
    ensures sparse { result.0 ≡ sum_by sparse_size subs.now }
    ensures lengths { result.1 ≡ sum_by lengths_size subs.now }
{
    let mut sparse_bytes = 0;
    let mut length_bytes = 0;
    'subtables: for placed in subs {
        let (sparse, lengths) = list_sizes(placed);
        sparse_bytes += sparse;
        length_bytes += lengths;
    }
    (sparse_bytes, length_bytes)
}

/// Returns a subtable without its lists.
fn without_lists(alloc: Global, placed: PlacedSub) -> PlacedSub
    ensures first { result.first ≡ placed.first }
    ensures head { subtable_of result.sub ≡ header_of (subtable_of placed.sub) }
{
    let PlacedSub { mut sub, first } = placed;
    if let Sub::Pairs {
        sparse,
        lengths,
        ..
    } = &mut sub
    {
        *sparse = Vec::new(alloc);
        *lengths = Vec::new(alloc);
    }
    PlacedSub { sub, first }
}

/// Puts subtables in place: their lists go, and are read in the file's bytes. These lists end at offset `place`.
fn put_in_place<'a>(
    alloc: Global,
    subs: Vec<PlacedSub>,
    bytes: &'a [u8],
    place: u64,
) -> Result<Vec<SubInPlace<'a>>, AllocError>
    requires { EndAt bytes.now subs.items place }
    ensures { IfOk result (λ put. SideBySide Stands subs.items put.items) }
{
    let (sparse_bytes, length_bytes) = list_bytes(&subs);
    let mut lengths_at = place as usize - length_bytes;
    let mut sparse_at = lengths_at - sparse_bytes;
    let mut put = Vec::new(alloc);
    'subtables: for placed in subs {
        let (sparse_bytes, length_bytes) = list_sizes(&placed);
        let index = IndexBytes {
            sparse: &bytes[sparse_at..sparse_at + sparse_bytes],
            lengths: &bytes[lengths_at..lengths_at + length_bytes],
        };
        put.push(SubInPlace {
            placed: without_lists(alloc, placed),
            index,
        })?;
        sparse_at += sparse_bytes;
        lengths_at += length_bytes;
    }
    Ok(put)
}

/// Opens the table of this material and kind whose file the bytes are: makes every check of `read` up to the block
/// lengths. Its sparse indexes and block lengths are copied for these checks, and the copies go before it returns.
///
/// Errors: `Refused` with the offset and the reason that `read` returns for these checks, `Memory`.
pub fn open_in_place<'a>(
    alloc: Global,
    material: Material,
    kind: Kind,
    bytes: &'a [u8],
) -> Result<TableInPlace<'a>, ReadFault>
    ensures table { IfOk result IsTableIn }
    ensures content { IfOk result (λ t. t.content ≡ bytes.now) }
    ensures material { IfOk result (λ t. t.index.material ≡ material) }
    ensures kind { IfOk result (λ t. t.index.kind ≡ kind) }
    ensures refused { IfErr result (IsFrontFault (verdict (unread_file material kind) 0 bytes.now)) }
{
    let size = bytes.len() as u64;
    let (front, place) = open_front_with(
        alloc,
        material,
        kind,
        size,
        true,
        &mut Bytes::new(bytes),
    )?;
    let (index, subs) = front.into_parts();
    let subs = put_in_place(alloc, subs, bytes, place)?;
    Ok(TableInPlace { index, bytes, subs })
}
