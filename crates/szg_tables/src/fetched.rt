//! Tables of which single values were fetched: neither a file nor a block stays in memory.

ghost use Rattle.std.specs.Prelude.{◌≡◌};
ghost use Rattle.szg_tables.specs.Fetched.{fetched, fetched_at, is_at};
ghost use Rattle.szg_tables.specs.declared.MissingReason.TheVariants.{Unread};

use crate::MissingReason;
use crate::opened::{OpenTable, OpenedSet};
use szg_file::{FrontTable, TableIndex};
use szg_place::Spot;

/// A value that was fetched, and its spot.
#[derive(Clone, Copy)]
pub struct FetchedValue {
    /// Where the table stores it.
    pub spot: Spot,
    /// The value.
    pub value: u16,
}

/// A table that was opened by its front, and what was fetched of its values so far.
#[derive(Drop)]
pub struct FetchedTable {
    /// The path of its file.
    pub path: String,
    /// The number of bytes of its file when it was opened.
    pub size: u64,
    /// The number of bytes of its front.
    pub read: u64,
    /// The table.
    pub front: FrontTable,
    /// The values. Of two at one spot the first counts.
    pub values: Vec<FetchedValue>,
}

/// A set of such tables. A value that was not fetched is missing: `MissingReason::Unread`.
pub type FetchedSet = OpenedSet<FetchedTable>;

impl OpenTable for FetchedTable {
    ghost opened = { λ t. fetched t };

    ghost explains = { λ t spot reason. reason ≡ Unread spot };

    fn index(&self) -> &TableIndex {
        self.front.index()
    }

    fn value(&mut self, spot: Spot) -> Result<u16, MissingReason> {
        match fetched_at(&self.values, spot) {
            Some(value) => Ok(value),
            None => Err(MissingReason::Unread(spot)),
        }
    }
}

/// Returns the first of the values at a spot.
fn fetched_at(values: &[FetchedValue], spot: Spot) -> Option<u16>
    ensures { result ≡ fetched_at values.now spot }
{
    match values.iter().find(|value| is_at(value, spot)) {
        Some(found) => Some(found.value),
        None => None,
    }
}

fn is_at(value: &FetchedValue, spot: Spot) -> bool
    ensures { result ≡ is_at spot value.now }
{
    value.spot.index == spot.index && value.spot.part == spot.part && value.spot.side == spot.side
}
