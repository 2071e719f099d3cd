//! Sets of tables for probing.
#![tactic(auto)]

use szg_place::{PlaceFault, Spot};
use szg_values::{Kind, Material};
use thiserror::Error;

mod distances;
mod fetched;
mod hints;
mod in_memory;
pub mod laws;
mod listed;
mod mapped;
mod opened;
mod verifying;

pub use fetched::{FetchedSet, FetchedTable, FetchedValue};
pub use in_memory::{TableSet, number_of_class};
pub use listed::ValueLists;
pub use mapped::{MappedSet, MappedTable};
pub use opened::{OpenTable, OpenedSet};
pub use verifying::{VerifyFault, verify_tables};

/// What a set of tables does not have for the men of a position.
#[derive(Debug, Drop, Error)]
#[error("Missing")]
pub struct Missing {
    /// The material of the men.
    pub material: Material,
    /// The kind of the table.
    pub kind: Kind,
    /// Why there is no class or number.
    pub reason: MissingReason,
}

/// Why a set of tables has no class or number for a position.
#[derive(Clone, Copy, Debug, PartialEq, Eq)]
pub enum MissingReason {
    /// There is no table of this kind for the men.
    Table,
    /// The table has no index for the placement.
    Place(PlaceFault),
    /// The table's value has no meaning: it is no class, or has no number in the class.
    Value,
    /// The block that has the value does not decode: its number in its subtable, and its offset in the file.
    Block { number: u32, offset: u64 },
    /// The value at this spot was not fetched; or, of a mapped file, its bytes have changed since, and lead to no block.
    Unread(Spot),
}
