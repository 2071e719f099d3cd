//! Subtables while they are read: first with their headers, then with their sparse indexes and block lengths.
ghost use Rattle.std.specs.Prelude.{◌*◌, ◌≤◌, ◌<◌, ◌^◌, length};

use std::marker::Model;
use szg_block::Sub;

/// The part, side and number of positions of a subtable.
#[derive(Clone, Copy, Default)]
pub struct Slot {
    pub part: u8,
    pub side: u8,
    pub size: u64,
}

impl Model for Slot {
    ghost use Rattle.std.specs.Prelude.{◌<◌, ◌^◌};
    ghost use Rattle.szg_file.specs.Contents.{Slot};

    ghost Value = { Slot };

    ghost view = { λ s. record { part = s.part; side = s.side; size = s.size } };

    ghost invariant = { λ s. s.size < 2 ^ 33 };

    ghost inverse = { λ s. record { part = s.part; side = s.side; size = s.size } };
}

/// A subtable with its header alone.
#[derive(Drop)]
pub struct Begun {
    pub slot: Slot,
    pub sub: Sub,
}

impl Model for Begun {
    ghost use Rattle.szg_file.specs.File.{Begun};
    ghost use Rattle.szg_block.specs.Subtable.{IsHeaded};
    ghost use Rattle.szg_file.specs.Held.{subtable_of};

    ghost Value = { Begun };

    ghost view = { λ begun. record { slot = begun.slot; subtable = subtable_of begun.sub; index = 0 } };

    ghost invariant = { λ begun. IsHeaded begun.sub };
}

/// A subtable with its header and its sparse index, which begins at offset `index`; and with its block lengths, once they
/// are read. The lengths of blocks that no value needs may be missing.
#[derive(Drop)]
pub struct Measured {
    pub slot: Slot,
    pub sub: Sub,
    pub index: u64,
}

impl Model for Measured {
    ghost use Rattle.std.specs.Prelude.{◌<◌, ◌^◌};
    ghost use Rattle.szg_file.specs.File.{Begun};
    ghost use Rattle.szg_block.specs.Subtable.{IsIndexed};
    ghost use Rattle.szg_file.specs.Held.{subtable_of};

    ghost Value = { Begun };

    ghost view = { λ begun. record { slot = begun.slot; subtable = subtable_of begun.sub; index = begun.index } };

    ghost invariant = { λ begun. IsIndexed begun.sub begun.slot.size × (begun.index < 2 ^ 61) };
}

/// The state of a reader of block lengths.
#[derive(Drop)]
pub struct KeptLengths {
    /// The lengths of the blocks that begin below a limit.
    pub lengths: Vec<u16>,
    /// The number of values of these blocks.
    pub values: u64,
    /// The number of lengths that were read.
    pub seen: u64,
    /// The number of values before the block of the last sparse entry, as far as lengths were read.
    pub before_last: u64,
    // a length stands for at most 65,536 values
    pub ghost values_few: { values ≤ 65536 * seen },
    pub ghost before_few: { before_last ≤ 65536 * seen },
    pub ghost lengths_few: { length lengths.items ≤ seen },
}
