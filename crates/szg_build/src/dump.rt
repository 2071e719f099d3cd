//! The content of a dump, and why a text is not a dump.
ghost use Rattle.std.specs.Prelude.{◌≡◌};
ghost use Rattle.szg_build.specs.declared.dump.DumpReadFault.TheVariants.{Memory};

use crate::BuildFault;
use crate::copies::{copy_flags, copy_maps, copy_parts, table_subtable_ids};
use std::alloc::{AllocError, AllocFailed, Global};
use szg_file::{Map, PartBytes, Table};
use szg_values::{Kind, Material};
use thiserror::Error;

/// The content of a dump: a table without the packing of its values.
#[derive(Drop)]
pub struct Dump {
    pub material: Material,
    pub kind: Kind,
    pub parts: Vec<PartBytes>,
    /// The flags of each part in DTZ; empty in WDL. Likewise `maps`.
    pub flags: Vec<u8>,
    pub maps: Vec<Option<Map>>,
    pub last: [u8; 16],
    /// The values, subtable by subtable.
    pub lists: Vec<Vec<u16>>,
}

impl Dump {
    ghost use Rattle.std.specs.Prelude.{IfOk};
    ghost use Rattle.szg_build.specs.Built.{IsDumpOf};
    ghost use Rattle.szg_build.specs.Shown.{dump_seen};

    /// Returns the content of a table, with only the flags 1, 2, 4, 8 and 16. Errors: `AllocError` if memory is
    /// refused.
    pub fn of(alloc: Global, table: &Table) -> Result<Dump, AllocError>
        ensures { IfOk result (λ dump. IsDumpOf (dump_seen dump) table.now.contents) }
    {
        let parts = copy_parts(alloc, table.parts())?;
        let flags = copy_flags(alloc, table)?;
        let maps = copy_maps(alloc, table.maps())?;
        let mut lists = Vec::new(alloc);
        'places: for place in table_subtable_ids(table) {
            let values = table.values(alloc, place.0, place.1)?;
            lists.push(values)?;
        }
        Ok(Dump {
            material: table.material().copy(),
            kind: table.kind(),
            parts,
            flags,
            maps,
            last: *table.last(),
            lists,
        })
    }
}

/// Why a line is refused. `as u8` gives a fault's number.
#[derive(Clone, Copy, Debug, PartialEq, Eq, Drop, Error)]
pub enum DumpFault {
    /// The first line names a version other than 1 and 2.
    #[error("Version")]
    Version = 1,
    /// The line is not the expected one, it names no kind of table, or it has more than 80 bytes before 0A.
    #[error("Field")]
    Field = 2,
    /// A word is no decimal, has leading zeros, or exceeds its limit; or a run has length 0.
    #[error("Number")]
    Number = 3,
    /// A word is not lower-case hexadecimal text of whole bytes; or the line `end` does not have sixteen bytes.
    #[error("Hex")]
    Hex = 4,
    /// A word names no material.
    #[error("Name")]
    Name = 5,
    /// The text ends before this line's 0A.
    #[error("Ended")]
    Ended = 6,
    /// A run is longer than the number of values that its subtable still needs.
    #[error("Run")]
    Run = 7,
}

/// Why no dump was read.
#[derive(Clone, Copy, Debug, PartialEq, Eq, Drop)]
pub enum DumpReadFault {
    /// The first line that is refused. Lines are counted from 1, and the number saturates at the greatest 64-bit value.
    Line { line: u64, fault: DumpFault },
    /// The table that the lines so far describe cannot be built.
    Build(BuildFault),
    /// The reader failed.
    Device,
    /// Memory was refused.
    Memory,
}

impl From<AllocError> for DumpReadFault {
    ghost from_gives = { λ _ fault. fault ≡ Memory };

    fn from(_failed: AllocError) -> DumpReadFault {
        DumpReadFault::Memory
    }
}

impl<T: Drop> From<AllocFailed<T>> for DumpReadFault {
    ghost from_gives = { λ _ fault. fault ≡ Memory };

    fn from(_failed: AllocFailed<T>) -> DumpReadFault {
        DumpReadFault::Memory
    }
}
