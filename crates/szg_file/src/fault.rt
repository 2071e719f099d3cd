ghost use Rattle.std.specs.Prelude.{◌≡◌};
ghost use Rattle.szg_file.specs.declared.fault.ReadFault.TheVariants.{Memory};

use std::alloc::{AllocError, AllocFailed};
use thiserror::Error;

/// Why a file is refused: the checks in the order in which a reader meets them. `as u8` gives their numbers, from
/// 1.
#[derive(Clone, Copy, Debug, PartialEq, Eq, Drop, Error)]
pub enum Reason {
    /// The bytes end within a field.
    #[error("Truncated")]
    Truncated = 1,
    /// The first four bytes are not the magic of the kind.
    #[error("Magic")]
    Magic = 2,
    /// Bit 0 of byte 4 of a WDL file is set for a symmetric material, or clear for another.
    #[error("SplitBit")]
    SplitBit = 3,
    /// Bit 1 of byte 4 is set for a material without pawns, or clear for one with pawns.
    #[error("PawnBit")]
    PawnBit = 4,
    /// The men of a part are no permutation of the name's men.
    #[error("Pieces")]
    Pieces = 5,
    /// With pawns: the first slots of a part are not the lead pawns followed by the other pawns.
    #[error("PawnsFirst")]
    PawnsFirst = 6,
    /// The positions in a part's order bytes are equal, or not below the number of its groups.
    #[error("OrderPlace")]
    OrderPlace = 7,
    /// A block has more than 2^18 bytes.
    #[error("BlockBits")]
    BlockBits = 8,
    /// The number of span bits is 0 or more than 31.
    #[error("SpanBits")]
    SpanBits = 9,
    /// The least code length is 0 or more than the greatest, or the greatest is more than 32.
    #[error("CodeLengths")]
    CodeLengths = 10,
    /// A lowest symbol is greater than the previous one.
    #[error("LowestOrder")]
    LowestOrder = 11,
    /// The words do not fit: a doubled base is below the base of the next length, or the least length has too many words.
    #[error("TooFull")]
    TooFull = 12,
    /// An entry has a child that does not exist.
    #[error("Child")]
    Child = 13,
    /// A symbol has no finite expansion.
    #[error("Cycle")]
    Cycle = 14,
    /// A symbol expands to more than 256 values.
    #[error("LongSymbol")]
    LongSymbol = 15,
    /// The block lengths sum to fewer values than the subtable has.
    #[error("ShortTotal")]
    ShortTotal = 16,
    /// An entry of a sparse index does not locate the middle of its span.
    #[error("SparseEntry")]
    SparseEntry = 17,
    /// A block's own bits do not spell the values that it needs.
    #[error("Word")]
    Word = 18,
}

/// Why no table was read.
#[derive(Clone, Copy, Debug, PartialEq, Eq, Drop, Error)]
pub enum ReadFault {
    /// The bytes are no table: the first check that fails, and its offset from the first byte.
    #[error("Refused")]
    Refused { place: u64, reason: Reason },
    /// The reader failed.
    #[error("Device")]
    Device,
    /// An allocation was refused.
    #[error("Memory")]
    Memory,
}

impl From<AllocError> for ReadFault {
    ghost from_gives = { λ _ fault. fault ≡ Memory };

    fn from(_failed: AllocError) -> ReadFault {
        ReadFault::Memory
    }
}

impl<T: Drop> From<AllocFailed<T>> for ReadFault {
    ghost from_gives = { λ _ fault. fault ≡ Memory };

    fn from(_failed: AllocFailed<T>) -> ReadFault {
        ReadFault::Memory
    }
}

/// The writer failed: exactly the first `out` bytes of the file were written.
#[derive(Clone, Copy, Debug, PartialEq, Eq, Drop, Error)]
#[error("WriteFault")]
pub struct WriteFault {
    pub out: u64,
}

/// Why a DTZ value has no distance.
#[derive(Clone, Copy, Debug, PartialEq, Eq, Drop, Error)]
pub enum MapFault {
    /// A draw has no distance.
    #[error("Draw")]
    Draw,
    /// The part's map has no such item.
    #[error("OutsideMap")]
    OutsideMap,
}
