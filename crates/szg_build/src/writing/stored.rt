//! The values of a table in memory.
ghost use Rattle.std.specs.Prelude.{◌≡◌, None, IsSomeAnd, MatchOption};
ghost use Rattle.szg_file.specs.Values.{subtable_at, values_of};
ghost use Rattle.szg_build.specs.Stored.{shown_values};

use crate::writing::block_values::BlockValues;
use szg_block::Sub;
use szg_file::typed::table_fits;
use szg_file::{Table, constant_value};

/// The values of a table's subtable.
#[derive(Drop)]
pub enum StoredValues<'a> {
    /// The same value `count` times.
    Same { value: u16, count: u64 },
    /// The values of blocks that are not decoded yet.
    Blocks(BlockValues<'a>),
}

/// Returns the values of a side of a part of a table. None if the table has no such subtable. Allocates nothing, and
/// decodes no block.
pub fn stored_values(table: &Table, part: u8, side: u8) -> Option<StoredValues<'_>>
    ensures { MatchOption result (subtable_at table.now.contents part side ≡ None)
        (λ stored. IsSomeAnd (subtable_at table.now.contents part side) (λ found. shown_values stored ≡ values_of table.now.contents.kind found)) }
{
    // for proofs alone: decoding needs that the table passed every check
    table_fits(table);
    let size = table.size(part, side)?;
    let sub = table.sub(part, side)?;
    match sub {
        Sub::Constant { .. } => Some(StoredValues::Same {
            value: constant_value(table.kind(), sub),
            count: size,
        }),
        Sub::Pairs { .. } => {
            let blocks = BlockValues {
                sub,
                size,
                next: 0,
                before: 0,
            };
            Some(StoredValues::Blocks(blocks))
        }
    }
}
