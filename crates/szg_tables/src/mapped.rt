//! Tables whose files are in memory, as mapped files are. A table is opened by its front, and nothing that grows with the
//! file is copied: a block is verified and decoded where it is, and verified once.

ghost use Rattle.std.specs.Prelude.{◌≡◌, ◌<◌, IfErr, IfOk, IsSomeAnd, None, Some};
ghost use Rattle.szg_file.specs.Format.{verdict};
ghost use Rattle.szg_file.specs.FrontInput.{IsFrontFault};
ghost use Rattle.szg_mapped.specs.InPlace.{IsTableIn};
ghost use Rattle.szg_file.specs.Index.{slot_in};
ghost use Rattle.szg_mapped.specs.Passed.{ArePassed};
ghost use Rattle.szg_file.specs.Unread.{unread_file};
ghost use Rattle.szg_tables.specs.Mapped.{IsOpenedFrom, NamesBadBlock, mapped, value_at};

use crate::MissingReason;
use crate::opened::{OpenTable, OpenedSet};
use std::alloc::{AllocError, Global};
use std::marker::Model;
use std::sync::Arc;
use szg_file::{FetchFault, ReadFault, TableIndex};
use szg_mapped::{Passed, TableInPlace, open_in_place};
use szg_place::Spot;
use szg_values::{Kind, Material};

/// A table whose file is in memory. Its headers, sparse indexes and block lengths are checked when it is opened, and read
/// where they are; its blocks may contain anything, and each is verified when a value of it is first read. That it has passed
/// is noted in bits, allocated when the first block of a subtable passes; if memory is refused, blocks are verified again.
#[derive(Drop)]
pub struct MappedTable<'a> {
    table: Arc<TableInPlace<'a>, Global>,
    passed: Passed,
}

impl<'a> Model for MappedTable<'a> {
    ghost use Rattle.std.specs.Arc.{arc_value};
    ghost use Rattle.szg_mapped.specs.InPlace.{InPlace, IsTableIn};
    ghost use Rattle.szg_mapped.specs.Passed.{ArePassed};

    ghost Value = { InPlace };

    ghost view = { λ t. arc_value t.table };

    ghost invariant = { λ t. IsTableIn (arc_value t.table) × ArePassed (arc_value t.table).index (arc_value t.table).content t.passed };
}

impl<'a> MappedTable<'a> {
    /// Opens the table of this material and kind whose file the bytes are: makes every check of `read` up to the block
    /// lengths.
    ///
    /// Errors: `Refused` with the offset and the reason that `read` returns for these checks, `Memory`.
    pub fn open(
        alloc: Global,
        material: Material,
        kind: Kind,
        bytes: &'a [u8],
    ) -> Result<MappedTable<'a>, ReadFault>
        ensures opened { IfOk result (IsOpenedFrom material kind bytes.now) }
        ensures refused { IfErr result (IsFrontFault (verdict (unread_file material kind) 0 bytes.now)) }
    {
        let table = open_in_place(alloc, material, kind, bytes)?;
        match Arc::new(alloc, table) {
            Ok(table) => Ok(MappedTable {
                table,
                passed: Passed::new(alloc),
            }),
            Err(_) => Err(ReadFault::Memory),
        }
    }

    /// Returns the same table again: it stays in memory once. Each of the two verifies a block once.
    pub fn again(&self, alloc: Global) -> Result<MappedTable<'a>, AllocError>
        ensures { IfOk result (λ t. t ≡ self.now) }
    {
        match Arc::try_clone(&self.table) {
            Ok(table) => Ok(MappedTable {
                table,
                passed: Passed::new(alloc),
            }),
            Err(_) => Err(AllocError),
        }
    }
}

/// Returns the value at a spot of a table.
fn value_at(table: &TableInPlace<'_>, passed: &mut Passed, spot: Spot) -> Result<u16, MissingReason>
    requires table { IsTableIn table.now }
    requires passed { ArePassed table.now.index table.now.content passed.old }
    requires below { IsSomeAnd (slot_in table.now.index spot.part spot.side) (λ slot. spot.index < slot.size) }
    ensures value { IfOk result (λ v. value_at table.now spot ≡ Some v) }
    ensures none { IfErr result (λ reason. value_at table.now spot ≡ None) }
    ensures reason { IfErr result (NamesBadBlock table.now.index table.now.content spot) }
    ensures passed { ArePassed table.now.index table.now.content passed.new }
{
    match table.get(passed, spot.part, spot.side, spot.index) {
        Ok(value) => Ok(value),
        Err(FetchFault::Block { number, offset }) => Err(MissingReason::Block { number, offset }),
        // only if the bytes have changed since the table was opened
        Err(FetchFault::Source) => Err(MissingReason::Unread(spot)),
    }
}

impl<'a> OpenTable for MappedTable<'a> {
    ghost opened = { λ t. mapped t };

    ghost explains = { λ t spot reason. NamesBadBlock t.index t.content spot reason };

    fn index(&self) -> &TableIndex {
        self.table.index()
    }

    fn value(&mut self, spot: Spot) -> Result<u16, MissingReason> {
        value_at(&self.table, &mut self.passed, spot)
    }
}

/// A set of such tables.
pub type MappedSet<'a> = OpenedSet<MappedTable<'a>>;

impl<'a> OpenedSet<MappedTable<'a>> {
    /// Returns a set of the same tables.
    pub fn again(&self, alloc: Global) -> Result<MappedSet<'a>, AllocError>
        ensures { IfOk result (λ set. set ≡ self.now) }
    {
        let mut tables = Vec::new(alloc);
        for table in &self.tables {
            tables.push(table.again(alloc)?)?;
        }
        Ok(OpenedSet::of(tables))
    }
}
