//! Opened tables: headers and block lengths are in memory, blocks stay in a source.

pub(crate) mod fetching;
pub(crate) mod forward;
pub(crate) mod front_table;

ghost use Rattle.std.specs.Prelude.{◌≡◌, IsSome, IfOk, IfErr};
ghost use Rattle.szg_block.specs.BlocksTrait.{Rose};
ghost use Rattle.szg_file.specs.File.{file};
ghost use Rattle.szg_file.specs.Format.{verdict};
ghost use Rattle.szg_file.specs.Opened.{table_in, opened_fault, IsOpenRefusal};

use crate::fault::{ReadFault, Reason};
use crate::lookup::constant_value;
use crate::opened::forward::Forward;
use crate::reading::blocks::block_bytes;
use crate::reading::dropping::PlacedSub;
use crate::reading::read_outline;
use crate::reading::sink::NoSink;
use crate::reading::state::ReaderState;
use crate::table_index::{Numbered, TableIndex, index_of_placed};
use std::alloc::Global;
use std::marker::Model;
use szg_block::{Paged, Source, SourceFault, block_count, look_up};
use szg_values::{Kind, Material};

/// Why a table is not opened.
#[derive(Debug, Clone, Copy, PartialEq, Eq, Drop)]
pub enum OpenFault {
    /// The first check that fails, and its offset.
    Refused { place: u64, reason: Reason },
    /// The source failed.
    Source,
    /// An allocation was refused.
    Memory,
}

/// A table that every check of the format accepts. Its blocks are read from a source when they are needed.
#[derive(Drop)]
pub struct Opened<S: Source + Drop> {
    pub(crate) index: TableIndex,
    pub(crate) subs: Vec<PlacedSub>,
    pub(crate) blocks: Paged<S>,
}

impl<S: Source + Drop> Model for Opened<S> {
    ghost use Rattle.szg_block.specs.Paging.{source_of, buffer_len_of};
    ghost use Rattle.szg_file.specs.Index.{slots_in};
    ghost use Rattle.szg_file.specs.Opened.{Opened, IsOpened, IsIndexIn};

    ghost Value = { Opened };

    ghost view = { λ o. record {
      material = o.index.material;
      kind = o.index.kind;
      content = S.content (source_of o.blocks);
      failed = S.failed (source_of o.blocks);
      requested = S.requested (source_of o.blocks);
    } };

    ghost invariant = { λ o. IsOpened o.index.material o.index.kind (S.content (source_of o.blocks)) (buffer_len_of o.blocks) (slots_in o.index) o.subs.items
        × IsIndexIn o.index (S.content (source_of o.blocks)) };
}

impl<S: Source + Drop> Opened<S> {
    ghost use Rattle.std.specs.Prelude.{◌≡◌, ◌<◌, IsSome, IfOk, IsOk, IfSome, IsSomeAnd, Some, None, option_map};
    ghost use Rattle.szg_block.specs.BlocksTrait.{failed_after};
    ghost use Rattle.szg_file.specs.Index.{index_of};
    ghost use Rattle.szg_file.specs.Opened.{opened_at, opened_table, requested_after, IsTableOf};
    ghost use Rattle.szg_file.specs.Values.{values_of, item};
    ghost use Rattle.szg_file.specs.Wanted.{wanted_block};

    /// Returns the table's index: its material and kind, its parts, and the flags and maps of its subtables.
    pub fn index(&self) -> &TableIndex
        ensures index { IsSomeAnd (opened_table self.now) (λ t. result.now ≡ index_of t) }
        ensures table { IsSomeAnd (opened_table self.now) (IsTableOf self.now.material self.now.kind) }
    {
        &self.index
    }

    /// Returns the number of positions of a part's side. None if there is no such side.
    pub fn size(&self, part: u8, side: u8) -> Option<u64>
        ensures { result ≡ option_map (λ found. found.0.size) (opened_at self.now part side) }
    {
        self.index.size(part, side)
    }

    /// Returns the source.
    pub fn source(&self) -> &S
        ensures content { S.content result.now ≡ self.now.content }
        ensures failed { S.failed result.now ≡ self.now.failed }
        ensures requested { S.requested result.now ≡ self.now.requested }
    {
        self.blocks.source()
    }

    /// Returns value `i` of a part's side. Allocates nothing. It requests one block from the source, or none for a
    /// constant subtable.
    ///
    /// Errors: the source failed, which never happens for a constant subtable. An error has no effect on later calls.
    pub fn get(&mut self, part: u8, side: u8, i: u64) -> Result<u16, SourceFault>
        requires there { IsSome (opened_at self.old part side) }
        requires below { IfSome (opened_at self.old part side) (λ found. i < found.0.size) }
        ensures value { IfOk result (λ value. IfSome (opened_at self.old part side) (λ found. item (values_of self.old.kind found) i ≡ Some value)) }
        ensures constant { IfSome (opened_at self.old part side) (λ found. wanted_block found.1 i ≡ None → IsOk result) }
        ensures requested { IfSome (opened_at self.old part side) (λ found. self.new.requested ≡ requested_after found.1 self.old.requested) }
        ensures failed { self.new.failed ≡ failed_after result self.old.failed }
        ensures material { self.new.material ≡ self.old.material }
        ensures kind { self.new.kind ≡ self.old.kind }
        ensures content { self.new.content ≡ self.old.content }
    {
        let Some(found) = self.index.find(part, side) else {
            unreachable!()
        };
        let Numbered { number, slot } = found;
        let held = &self.subs[number];
        let constant = constant_value(self.index.kind(), &held.sub);
        self.blocks.select_blocks(
            held.first,
            block_count(&held.sub),
            block_bytes(&held.sub) as usize,
        );
        let (value, _) = look_up(&held.sub, slot.size, constant, i, &mut self.blocks)?;
        Ok(value)
    }
}

/// The number of bytes of a subtable's blocks that are requested at once while a table is opened.
const CHUNK: usize = 65536;

/// Opens a table of this material and kind over a source. It makes every check of `read` on the source's bytes from
/// the first on, those of blocks included, and keeps no block. It requests one field after another, and the blocks
/// of a subtable in chunks of 64 KiB. It requests no byte after the table, and none after a field whose check
/// fails, except that chunks may extend past a block whose check fails to later blocks of its subtable.
///
/// Errors, each with the source: `Refused` with the offset and the reason that `read` returns; `Source` if the
/// source failed; `Memory` if an allocation was refused.
pub fn open<S: Source + Drop>(
    alloc: Global,
    material: Material,
    kind: Kind,
    source: S,
) -> Result<Opened<S>, (OpenFault, S)>
    ensures table { IfOk result (λ o. IsSome (table_in material kind (S.content source))) }
    ensures material { IfOk result (λ o. o.material ≡ material) }
    ensures kind { IfOk result (λ o. o.kind ≡ kind) }
    ensures content { IfOk result (λ o. o.content ≡ S.content source) }
    ensures failed { IfOk result (λ o. o.failed ≡ S.failed source) }
    ensures back { IfErr result (λ e. S.content e.1 ≡ S.content source) }
    ensures refused { IfErr result (λ e. IsOpenRefusal (verdict (file material kind) 0 (S.content source)) e.0) }
    ensures quiet { IfErr result (λ e. (e.0 ≡ OpenFault.Source → ⊥) → S.failed e.1 ≡ S.failed source) }
    ensures fault { IfErr result (λ e. e.0 ≡ OpenFault.Source → Rose (S.failed source) (S.failed e.1)) }
{
    let mut chunk = Vec::new(alloc);
    if chunk.resize(CHUNK, 0).is_err() {
        return Err((OpenFault::Memory, source));
    }
    let mut state = ReaderState::new(alloc);
    let mut buffer = Vec::new(alloc);
    let mut input = Forward::new(source, chunk);
    match read_outline(
        alloc,
        &material,
        kind,
        true,
        &mut buffer,
        &mut input,
        &mut state,
        &mut NoSink,
        &mut (),
    ) {
        Ok(outline) => {
            let subs = outline.subs;
            let index = index_of_placed(material, kind, outline.parts, &subs, outline.maps);
            Ok(Opened {
                index,
                subs,
                blocks: Paged::new(input.into_source(), buffer, 0, 0),
            })
        }
        Err(fault) => Err((open_fault(fault), input.into_source())),
    }
}

/// Converts a fault of reading to one of opening.
fn open_fault(fault: ReadFault) -> OpenFault
    ensures { result ≡ opened_fault fault }
{
    match fault {
        ReadFault::Refused { place, reason } => OpenFault::Refused { place, reason },
        ReadFault::Device => OpenFault::Source,
        ReadFault::Memory => OpenFault::Memory,
    }
}
