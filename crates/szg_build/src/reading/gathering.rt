//! The content of a dump while it is read: the first subtables are packed, the others are lists.
ghost use Rattle.std.specs.Prelude.{◌≡◌, ◌<◌, [], ◌∷◌, ◌++◌, map, IfOk, OnOk};
ghost use Rattle.std.specs.List.{AllByRecursion};
ghost use Rattle.szg_build.specs.Packed.{gathered_dump, lists_held, lists_in, values_held, ArePacked, IsAdded, IsPackedSub};
ghost use Rattle.szg_build.specs.Shown.{dump_seen};
ghost use Rattle.szg_build.specs.Wholes.{only_in_dtz};
ghost use Rattle.szg_subtable.specs.declared.building.Choice.{Choice};

use crate::dump::Dump;
use crate::reading::packing::{PackedSub, pack_equal, pack_list, unpack};
use crate::reading::subreading::SubText;
use crate::reading::values::Values;
use std::alloc::{AllocError, Global};
use szg_file::{Map, PartBytes};
use szg_subtable::{Choice, Watcher};
use szg_values::{Kind, Material};

/// The lines before the subtables.
#[derive(Drop)]
pub(crate) struct Header {
    pub material: Material,
    pub kind: Kind,
    pub parts: Vec<PartBytes>,
    pub last: [u8; 16],
}

/// The subtables read so far.
#[derive(Drop)]
pub(crate) struct Subs {
    pub flags: Vec<u8>,
    pub maps: Vec<Option<Map>>,
    /// The first subtables.
    pub packed: Vec<PackedSub>,
    /// The values of the others.
    pub rest: Vec<Vec<u16>>,
}

/// The content of a dump.
#[derive(Drop)]
pub(crate) struct Gathered {
    pub header: Header,
    pub subs: Subs,
}

/// Adds the values of a subtable with these flags. If all earlier subtables are packed, `pack_equal` and then
/// `pack_list` try to pack the new values. If neither packs them, or if an earlier subtable is listed, the new values
/// are listed. `count` is the number of subtables.
fn add_values<V: Watcher>(
    alloc: Global,
    kind: Kind,
    choice: Choice,
    flags: u8,
    count: usize,
    values: Values,
    subs: &mut Subs,
    watcher: &mut V,
) -> Result<(), AllocError>
    requires { flags < 32 }
    ensures { OnOk result (IsAdded kind choice flags (values_held values) subs.old subs.new) }
{
    if !subs.rest.is_empty() {
        let list = values.into_list(alloc)?;
        subs.rest.push(list)?;
        return Ok(());
    }
    watcher.subtable(subs.packed.len() + 1, count, values.len());
    if let Some(packed) = pack_equal(kind, flags, &values) {
        subs.packed.push(packed)?;
        return Ok(());
    }
    let list = values.into_list(alloc)?;
    match pack_list(alloc, kind, flags, choice, count, &list, watcher)? {
        Some(packed) => subs.packed.push(packed)?,
        None => subs.rest.push(list)?,
    }
    Ok(())
}

/// Adds a subtable; `count` is the number of all subtables. In WDL its flags and its map are dropped.
pub(crate) fn add_sub<V: Watcher>(
    alloc: Global,
    kind: Kind,
    choice: Choice,
    count: usize,
    sub: SubText,
    subs: &mut Subs,
    watcher: &mut V,
) -> Result<(), AllocError>
    requires small { sub.flags < 32 }
    requires before { ArePacked kind choice subs.old }
    ensures flags { OnOk result (subs.new.flags.items ≡ subs.old.flags.items ++ only_in_dtz kind sub.flags) }
    ensures maps { OnOk result (subs.new.maps.items ≡ subs.old.maps.items ++ only_in_dtz kind sub.map) }
    ensures lists { OnOk result (lists_in kind subs.new ≡ lists_in kind subs.old ++ values_held sub.values ∷ []) }
    ensures packed { OnOk result (ArePacked kind choice subs.new) }
{
    let SubText { flags, map, values } = sub;
    match kind {
        Kind::Wdl => add_values(alloc, kind, choice, 0, count, values, subs, watcher),
        Kind::Dtz => {
            add_values(alloc, kind, choice, flags, count, values, subs, watcher)?;
            subs.flags.push(flags)?;
            subs.maps.push(map)?;
            Ok(())
        }
    }
}

/// Lists the values of all subtables.
pub(crate) fn list_all(
    alloc: Global,
    kind: Kind,
    packed: &[PackedSub],
    mut rest: Vec<Vec<u16>>,
) -> Result<Vec<Vec<u16>>, AllocError>
    requires { (choice : Choice) × AllByRecursion (IsPackedSub kind choice) packed.now }
    ensures { IfOk result (λ lists. map (λ list. list.items) lists.items ≡ lists_held kind packed.now (map (λ list. list.items) rest.items)) }
{
    let mut lists = Vec::new(alloc);
    'subs: for sub in packed {
        let list = unpack(alloc, kind, sub)?;
        lists.push(list)?;
    }
    lists.append(&mut rest)?;
    Ok(lists)
}

/// Returns the dump, with the values of all subtables listed.
pub(crate) fn list_dump(alloc: Global, gathered: Gathered) -> Result<Dump, AllocError>
    requires { (choice : Choice) × ArePacked gathered.header.kind choice gathered.subs }
    ensures { IfOk result (λ dump. dump_seen dump ≡ gathered_dump gathered) }
{
    let Gathered { header, subs } = gathered;
    let last = header.last;
    let rest = subs.rest;
    let lists = list_all(alloc, header.kind, &subs.packed, rest)?;
    Ok(Dump {
        material: header.material,
        kind: header.kind,
        parts: header.parts,
        flags: subs.flags,
        maps: subs.maps,
        last,
        lists,
    })
}
