//! Look-ups in a table that was opened by its front: the block of a value is verified before the value is decoded.
ghost use Rattle.std.specs.Prelude.{◌≡◌, ◌+◌, ◌<◌, ◌^◌, None, IfNone, IfSome};
ghost use Rattle.szg_block.specs.Kept.{IsLocatable};
ghost use Rattle.szg_block.specs.Subtable.{layout_of, IsHeaded};
ghost use Rattle.szg_file.specs.Fetching.{IsSpot};
ghost use Rattle.szg_file.specs.Placed.{blocks_size};

use crate::begun::Slot;
use crate::lookup::constant_value;
use crate::opened::front_table::FrontTable;
use crate::reading::blocks::block_bytes;
use crate::reading::dropping::PlacedSub;
use crate::table_index::Numbered;
use std::marker::Model;
use szg_block::{ValueLocation, checked_value, locate_value};

/// Why no value is returned.
#[derive(Debug, Clone, Copy, PartialEq, Eq)]
pub enum FetchFault {
    /// The bits of the value's block do not spell the values that it needs. `number` is the block's number in its
    /// subtable, `offset` its offset in the file.
    Block { number: u32, offset: u64 },
    /// The source failed, or it has fewer bytes than when the table was opened.
    Source,
}

/// A range of a file's bytes.
#[derive(Clone, Copy)]
pub struct ByteRange {
    /// The offset of the first byte.
    pub offset: u64,
    /// The number of bytes.
    pub count: u64,
}

/// The location of a value in a block, and the offset and the length of the block.
#[derive(Clone, Copy)]
pub struct BlockSpot {
    pub value: ValueLocation,
    pub offset: u64,
    pub count: u64,
}

/// Returns the location of value `i` of a subtable. None in a constant subtable.
#[inline(always)]
fn spot_of(slot: Slot, placed: &PlacedSub, i: u64) -> Option<BlockSpot>
    requires head { IsHeaded placed.now.sub }
    requires index { IsLocatable placed.now.sub slot.size }
    requires inside { placed.now.first + blocks_size placed.now.sub < 2 ^ 64 }
    requires below { i < slot.size }
    ensures none { IfNone result (layout_of placed.now.sub ≡ None) }
    ensures spot { IfSome result (IsSpot placed.now i) }
{
    let value = locate_value(&placed.sub, slot.size, i)?;
    let count = block_bytes(&placed.sub);
    Some(BlockSpot {
        value,
        offset: placed.first + u64::from(value.block) * count,
        count,
    })
}

/// A value of a table that was opened by its front, with the location of its block.
#[derive(Drop)]
pub struct Located<'a> {
    front: &'a FrontTable,
    part: u8,
    side: u8,
    index: u64,
    slot: Slot,
    placed: &'a PlacedSub,
    // none in a constant subtable
    spot: Option<BlockSpot>,
}

impl<'a> Model for Located<'a> {
    ghost use Rattle.szg_file.specs.Located.{Location, IsLocated};

    ghost Value = { Location };

    ghost view = { λ l. record { kept = l.front.now; part = l.part; side = l.side; index = l.index } };

    ghost invariant = { λ l. IsLocated (record { kept = l.front.now; part = l.part; side = l.side; index = l.index }) l.slot l.placed.now l.spot };
}

impl<'a> Located<'a> {
    ghost use Rattle.std.specs.Prelude.{ℕ, List, ◌≡◌, ◌≢◌, ◌↔◌, ◌+◌, ◌≤◌, Err, None, Some, IfErr, IfOk, IfSome, IsOk, MatchOption, length};
    ghost use Rattle.szg_block.specs.BlocksTrait.{bytes_at};
    ghost use Rattle.szg_file.specs.Fetching.{NamesBadBlock};
    ghost use Rattle.szg_file.specs.FrontTable.{IsFrontOf};
    ghost use Rattle.szg_file.specs.Located.{located_at};
    ghost use Rattle.szg_file.specs.Unread.{IsDecoded};
    ghost use Rattle.szg_file.specs.Wanted.{IsSpelledBy, wanted_block};

    /// Returns the byte range of the file that the value needs: that of one block. None in a constant subtable.
    #[inline(always)]
    pub fn range(&self) -> Option<ByteRange>
        ensures wanted { (content : List ℕ) → IsFrontOf self.now.kept content → IfSome (located_at content self.now) (λ found. MatchOption result (wanted_block found.1 self.now.index ≡ None) (λ range. wanted_block found.1 self.now.index ≡ Some (bytes_at content range.offset range.count))) }
        ensures inside { IfSome result (λ range. range.offset + range.count ≤ self.now.kept.length) }
    {
        let Some(spot) = self.spot else {
            return None;
        };
        Some(ByteRange {
            offset: spot.offset,
            count: spot.count,
        })
    }

    /// Returns the value, decoded from `block`, the bytes at the value's range. It verifies them; a constant subtable
    /// ignores them. Allocates nothing.
    ///
    /// Errors: `Block` if the block does not decode, `Source` if `block` does not have the range's length.
    #[inline(always)]
    pub fn decode(&self, block: &[u8]) -> Result<u16, FetchFault>
        ensures value { IfOk result (λ value. (content : List ℕ) → IsFrontOf self.now.kept content → IfSome (located_at content self.now) (λ found. IfSome (wanted_block found.1 self.now.index) (λ wanted. wanted ≡ block.now) → IsDecoded self.now.kept.index.kind found self.now.index value)) }
        ensures fault { IfErr result (λ fault. (content : List ℕ) → IsFrontOf self.now.kept content → IfSome (located_at content self.now) (λ found. IfSome (wanted_block found.1 self.now.index) (λ wanted. wanted ≡ block.now) → NamesBadBlock content found self.now.index fault)) }
        ensures length { (content : List ℕ) → IsFrontOf self.now.kept content → IfSome (located_at content self.now) (λ found. MatchOption (wanted_block found.1 self.now.index) (IsOk result) (λ wanted. (result ≡ Err FetchFault.Source) ↔ (length block.now ≢ length wanted))) }
        // also if `block` has other bytes than the file
        ensures spelled { IfOk result (λ value. (content : List ℕ) → IsFrontOf self.now.kept content → IfSome (located_at content self.now) (λ found. IsSpelledBy block.now found.1 self.now.index (Some value))) }
    {
        let Some(spot) = self.spot else {
            return Ok(constant_value(self.front.index().kind(), &self.placed.sub));
        };
        if block.len() as u64 != spot.count {
            return Err(FetchFault::Source);
        }
        let slot = self.slot;
        match checked_value(&self.placed.sub, slot.size, self.index, spot.value, block) {
            Ok(value) => Ok(value),
            Err(_) => Err(FetchFault::Block {
                number: spot.value.block,
                offset: spot.offset,
            }),
        }
    }
}

impl FrontTable {
    ghost use Rattle.std.specs.Prelude.{◌≡◌, ◌<◌, IfErr, IfOk, IfSome, IsSomeAnd};
    ghost use Rattle.szg_file.specs.Fetching.{NamesBadBlock};
    ghost use Rattle.szg_file.specs.FrontTable.{IsFrontOf};
    ghost use Rattle.szg_file.specs.Index.{slot_in};
    ghost use Rattle.szg_file.specs.Unread.{front_at, IsDecoded};

    /// Locates value `i` of a part's side: finds the block that contains it. It reads nothing.
    #[inline(always)]
    pub fn locate(&self, part: u8, side: u8, i: u64) -> Located<'_>
        requires { IsSomeAnd (slot_in self.now.index part side) (λ slot. i < slot.size) }
        ensures { result ≡ record { kept = self.now; part = part; side = side; index = i } }
    {
        let Some(found) = self.index.find(part, side) else {
            unreachable!()
        };
        let Numbered { number, slot } = found;
        let placed = &self.subs[number];
        let spot = spot_of(slot, placed, i);
        Located {
            front: self,
            part,
            side,
            index: i,
            slot,
            placed,
            spot,
        }
    }

    /// Returns value `i` of a part's side, decoded from the file's bytes. It verifies the value's block; a constant
    /// subtable needs none. Allocates nothing. Any number of threads may call it on one table.
    ///
    /// Errors: `Block` if the block does not decode, `Source` if there are fewer bytes than when the table was
    /// opened. An error has no effect on later calls.
    pub fn get(&self, bytes: &[u8], part: u8, side: u8, i: u64) -> Result<u16, FetchFault>
        requires { IsSomeAnd (slot_in self.now.index part side) (λ slot. i < slot.size) }
        ensures value { IsFrontOf self.now bytes.now → IfOk result (λ value. IfSome (front_at self.now.index.material self.now.index.kind bytes.now part side) (λ found. IsDecoded self.now.index.kind found i value)) }
        ensures fault { IsFrontOf self.now bytes.now → IfErr result (λ fault. IfSome (front_at self.now.index.material self.now.index.kind bytes.now part side) (λ found. NamesBadBlock bytes.now found i fault)) }
    {
        let located = self.locate(part, side, i);
        let Some(range) = located.range() else {
            return located.decode(&[]);
        };
        let first = range.offset as usize;
        let Some(block) = bytes.get(first..first + range.count as usize) else {
            return Err(FetchFault::Source);
        };
        located.decode(block)
    }
}
