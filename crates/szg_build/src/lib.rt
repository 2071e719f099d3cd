//! Builds tables from values. The reader accepts a built table, and the table has exactly the values that were passed.
//! Writes and reads dumps: a dump is the text of a table, which a person can read and compare.
#![tactic(auto)]

mod copies;
mod dump;
mod headers;
mod item;
pub mod laws;
mod places;
mod reading;
mod refusing;
mod subtables;
mod table;
mod writing;

ghost use Rattle.std.specs.Prelude.{◌≡◌};
ghost use Rattle.szg_build.specs.declared.BuildFault.TheVariants.{Memory};

pub use dump::{Dump, DumpFault, DumpReadFault};
pub use reading::dumpreading::{read_dump, read_packed};
pub use reading::packed_dump::PackedDump;
use std::alloc::AllocError;
use szg_file::{Map, PartBytes};
pub use szg_subtable::{Choice, Packing, Unwatched, Watcher};
use szg_values::{Kind, Material};
pub use table::{build, build_as};
use thiserror::Error;
pub use writing::block_values::BlockValues;
pub use writing::dumping::stream_dump;
pub use writing::stored::{StoredValues, stored_values};
pub use writing::table_dump::dump_table;
pub use writing::write_dump;

/// What a table is built from, besides its values.
#[derive(Drop)]
pub struct Plan {
    pub material: Material,
    pub kind: Kind,
    pub parts: Vec<PartBytes>,
    /// A block has 2^block_bits bytes; 5 to 10.
    pub block_bits: u8,
    /// An entry of the sparse index covers 2^span_bits values; 1 to 16.
    pub span_bits: u8,
    /// The greatest number of pairs that a dictionary gets, at most 4,000.
    pub rounds: u32,
    /// The flags of each part in DTZ; empty in WDL. Likewise `maps`.
    pub flags: Vec<u8>,
    pub maps: Vec<Option<Map>>,
    pub last: [u8; 16],
}

/// Why no table was built. Lists are counted from 0.
#[derive(Debug, Clone, Copy, PartialEq, Eq, Error)]
pub enum BuildFault {
    /// The number of parts, order bytes or men is not the material's, or the reader would refuse this order.
    #[error("Order")]
    Order,
    /// The block bits are not 5 to 10, or the span bits are not 1 to 16.
    #[error("Bits")]
    Bits,
    /// There are more than 4,000 rounds.
    #[error("Rounds")]
    Rounds,
    /// The number of lists is not the number of subtables.
    #[error("Count")]
    Count,
    /// The first list whose length is not the size of its subtable.
    #[error("Length")]
    Length(usize),
    /// The first list with a value that is too great: above 4 in WDL, above 4,095 in DTZ.
    #[error("Value")]
    Value(usize),
    /// The first list with more than 4,095 different values.
    #[error("TooManyValues")]
    TooManyValues(usize),
    /// In DTZ: the number of flags or of maps is not the number of parts; or flags are above 31; or a part with flag 2
    /// has no map, or one without flag 2 has one; or a part's map is wide without flag 16, or not wide with it; or a
    /// list is too long for its length field. In WDL: there are flags or maps.
    #[error("Map")]
    Map,
    /// Memory was refused.
    #[error("Memory")]
    Memory,
}

impl From<AllocError> for BuildFault {
    ghost from_gives = { λ _ fault. fault ≡ Memory };

    fn from(_failed: AllocError) -> BuildFault {
        BuildFault::Memory
    }
}
