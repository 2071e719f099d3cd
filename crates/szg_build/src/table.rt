//! Builds a table from a plan and lists of values.
ghost use Rattle.std.specs.Prelude.{◌≡◌, ℕ, List, not, map, option_map, Err, IfOk, IfErr, MatchOption};
ghost use Rattle.std.specs.List.{AllByRecursion};
ghost use Rattle.szg_values.specs.Material.{has_pawns, is_symmetric};
ghost use Rattle.szg_file.specs.Accepted.{IsAccepted};
ghost use Rattle.szg_file.specs.Contents.{has_bit};
ghost use Rattle.szg_file.specs.Held.{map_of, part_of, subtable_of};
ghost use Rattle.szg_build.specs.Built.{IsBuilt, subtables_in};
ghost use Rattle.szg_build.specs.Chosen.{IsBuiltAs, IsCodedTable};
ghost use Rattle.szg_build.specs.Plan.{build_fault};
ghost use Rattle.szg_build.specs.Rule.{byte4_for, constant_for, constant_in, HasSpanIndex, HasTruncatedBinary};
ghost use Rattle.szg_build.specs.Shown.{plan_seen};
ghost use Rattle.szg_build.specs.Tabling.{AreMade, IsBuiltBy, IsChoiceOf, IsOfBytes, IsOfItems, HasNoFault};
ghost use Rattle.szg_subtable.specs.declared.building.Choice.{Choice};

use crate::copies::{copy_maps, copy_parts};
use crate::headers::count_other_bytes;
use crate::refusing::first_fault;
use crate::subtables::{build_sub, constant_byte};
use crate::{BuildFault, Plan};
use std::alloc::{AllocError, Global};
use szg_block::Sub;
use szg_file::typed::{bytes_fit, end_bytes, words_fit};
use szg_file::{Fields, Map, PartBytes, Table, subtable_sizes};
use szg_subtable::{Choice, Packing, Unwatched, Watcher};
use szg_values::{Kind, Material};

/// For proofs alone: the order bytes and man bytes of parts are below 256.
pub(crate) fn parts_fit(parts: &[PartBytes])
    ensures { AllByRecursion IsOfBytes (map part_of parts.now) }
{
    'parts: for part in parts {
        bytes_fit(&part.order);
        bytes_fit(&part.men);
    }
}

/// For proofs alone: the items of maps fit their widths.
fn maps_fit(maps: &[Option<Map>])
    ensures { AllByRecursion IsOfItems (map (option_map map_of) maps.now) }
{
    'maps: for item in maps {
        match item {
            None => {}
            Some(Map::Bytes([wins, losses, cursed_wins, blessed_losses])) => {
                bytes_fit(wins);
                bytes_fit(losses);
                bytes_fit(cursed_wins);
                bytes_fit(blessed_losses);
            }
            Some(Map::Wide([wins, losses, cursed_wins, blessed_losses])) => {
                words_fit(wins);
                words_fit(losses);
                words_fit(cursed_wins);
                words_fit(blessed_losses);
            }
        }
    }
}

/// Returns byte 4: bit 0 is set if the material is not symmetric, bit 1 if it has pawns.
fn byte4_of(material: &Material) -> u8
    ensures split { has_bit 0 result ≡ not (is_symmetric material.now) }
    ensures pawns { has_bit 1 result ≡ has_pawns material.now }
    ensures rule { result ≡ byte4_for material.now }
{
    match (material.symmetric(), material.has_pawns()) {
        (true, false) => 0,
        (false, false) => 1,
        (true, true) => 2,
        (false, true) => 3,
    }
}

/// Builds the subtables of lists of values that are not refused.
fn build_subs<V: Watcher>(
    alloc: Global,
    plan: &Plan,
    choice: Choice,
    lists: &[&[u16]],
    watcher: &mut V,
) -> Result<Vec<Sub>, AllocError>
    requires is_valid { HasNoFault (plan_seen plan.now) (map (λ list. list.now) lists.now) }
    requires choice { IsChoiceOf (plan_seen plan.now) choice }
    ensures { IfOk result (λ subs. AreMade choice (plan_seen plan.now) (map (λ list. list.now) lists.now) (map subtable_of subs.items)) }
{
    let with_blocks = lists
        .iter()
        .filter(|list| constant_byte(plan.kind, list).is_none())
        .count();
    let other_bytes = count_other_bytes(plan, lists.len(), with_blocks);
    let mut subs = Vec::new(alloc);
    'lists: for (n, list) in lists.iter().enumerate() {
        watcher.subtable(n + 1, lists.len(), list.len());
        let flags = plan.flags.get(n).copied().unwrap_or(0);
        let sub = build_sub(alloc, list, plan.kind, flags, choice, other_bytes, watcher)?;
        subs.push(sub)?;
    }
    Ok(subs)
}

/// Returns the table of a plan and of the subtables that were built for it, padded with zeros.
pub(crate) fn table_from(alloc: Global, plan: &Plan, subs: Vec<Sub>) -> Result<Table, AllocError>
    requires { (choice : Choice) × (lists : List (List ℕ)) × AreMade choice (plan_seen plan.now) lists (map subtable_of subs.items) }
    ensures built { (choice : Choice) (lists : List (List ℕ)) → AreMade choice (plan_seen plan.now) lists (map subtable_of subs.items) → IfOk result (λ t. IsBuiltBy choice (plan_seen plan.now) lists t.contents) }
    ensures accepted { IfOk result (λ t. IsAccepted t.contents t.filled) }
    ensures padding { IfOk result (λ t. AllByRecursion (λ byte. byte ≡ 0) t.filled) }
{
    maps_fit(&plan.maps);
    let parts = copy_parts(alloc, &plan.parts)?;
    let maps = copy_maps(alloc, &plan.maps)?;
    let byte4 = byte4_of(&plan.material);
    let last = end_bytes(byte4, &plan.last);
    let mut fields = Fields {
        material: plan.material.copy(),
        kind: plan.kind,
        byte4,
        parts,
        subs,
        maps,
        fill: Vec::new(alloc),
        last,
    };
    let fill = vec![in alloc; 0u8; fields.fill_asked() as usize]?;
    fields.fill = fill;
    Ok(Table::assemble(fields))
}

/// Builds the table of a plan and lists, packed by `choice`. Errors: the first fault of the plan and lists.
pub(crate) fn build_by<V: Watcher>(
    alloc: Global,
    choice: Choice,
    plan: &Plan,
    lists: &[&[u16]],
    watcher: &mut V,
) -> Result<Table, BuildFault>
    requires { IsChoiceOf (plan_seen plan.now) choice }
    ensures refused { MatchOption (build_fault (plan_seen plan.now) (map (λ list. list.now) lists.now))
        (IfErr result (λ fault. fault ≡ BuildFault.Memory))
        (λ fault. result ≡ Err fault) }
    ensures built { IfOk result (λ t. IsBuiltBy choice (plan_seen plan.now) (map (λ list. list.now) lists.now) t.contents) }
    ensures accepted { IfOk result (λ t. IsAccepted t.contents t.filled) }
    ensures padding { IfOk result (λ t. AllByRecursion (λ byte. byte ≡ 0) t.filled) }
{
    parts_fit(&plan.parts);
    let Some(sizes) = subtable_sizes(&plan.material, plan.kind, &plan.parts) else {
        return Err(BuildFault::Order);
    };
    if let Some(fault) = first_fault(plan, sizes.as_slice(), lists) {
        return Err(fault);
    }
    let subs = build_subs(alloc, plan, choice, lists, watcher)?;
    Ok(table_from(alloc, plan, subs)?)
}

/// Builds a table from a plan and the values of its subtables, which are listed in file order.
///
/// Errors: the first `BuildFault` that applies, in the order of its variants.
///
/// The time for a list is about proportional to its number of values, plus the time to fill a table of up to 4,095^2
/// counts. A list of 2^32 values or more takes this time for each pair: its offsets do not fit four bytes, so all its
/// pairs are counted again in each round.
pub fn build(alloc: Global, plan: &Plan, lists: &[&[u16]]) -> Result<Table, BuildFault>
    ensures refused { MatchOption (build_fault (plan_seen plan.now) (map (λ list. list.now) lists.now))
        (IfErr result (λ fault. fault ≡ BuildFault.Memory))
        (λ fault. result ≡ Err fault) }
    ensures built { IfOk result (λ t. IsBuilt (plan_seen plan.now) (map (λ list. list.now) lists.now) t.contents) }
    ensures accepted { IfOk result (λ t. IsAccepted t.contents t.filled) }
    ensures byte4 { IfOk result (λ t. t.contents.byte4 ≡ byte4_for plan.now.material) }
    ensures constants { IfOk result (λ t. map constant_in t.contents.subtables ≡ map (constant_for plan.now.kind) (map (λ list. list.now) lists.now)) }
    ensures codes { IfOk result (λ t. AllByRecursion HasTruncatedBinary t.contents.subtables) }
    ensures index { IfOk result (λ t. AllByRecursion (λ pair. HasSpanIndex pair.0.size pair.1) (subtables_in t.contents)) }
    ensures padding { IfOk result (λ t. AllByRecursion (λ byte. byte ≡ 0) t.filled) }
{
    let packing = Packing {
        block_bits: plan.block_bits,
        span_bits: plan.span_bits,
        rounds: plan.rounds,
    };
    build_as(alloc, plan, Choice::Fixed(packing), lists, &mut Unwatched)
}

/// Builds a table as `build` does, with its subtables packed as `choice` says: by the plan's numbers, or small.
/// `watcher` sees each subtable, each round and each try, and the end.
///
/// The pairs of each subtable of a small table are chosen by trial, within fixed budgets. Its code is a Huffman code or
/// the truncated binary code, whichever takes fewer bytes. Its block bits and span bits are those with which it takes
/// the fewest bytes, among those with which half a span has at most 32 blocks on average. A list of 2^32 values or more
/// gets no pairs. The plan's numbers don't matter then. Errors: those of `build`.
pub fn build_as<V: Watcher>(
    alloc: Global,
    plan: &Plan,
    choice: Choice,
    lists: &[&[u16]],
    watcher: &mut V,
) -> Result<Table, BuildFault>
    requires choice { IsChoiceOf (plan_seen plan.now) choice }
    ensures refused { MatchOption (build_fault (plan_seen plan.now) (map (λ list. list.now) lists.now))
        (IfErr result (λ fault. fault ≡ BuildFault.Memory))
        (λ fault. result ≡ Err fault) }
    ensures built { IfOk result (λ t. IsBuiltAs choice (plan_seen plan.now) (map (λ list. list.now) lists.now) t.contents) }
    ensures accepted { IfOk result (λ t. IsAccepted t.contents t.filled) }
    ensures byte4 { IfOk result (λ t. t.contents.byte4 ≡ byte4_for plan.now.material) }
    ensures constants { IfOk result (λ t. map constant_in t.contents.subtables ≡ map (constant_for plan.now.kind) (map (λ list. list.now) lists.now)) }
    ensures codes { IfOk result (λ t. IsCodedTable choice t.contents) }
    ensures index { IfOk result (λ t. AllByRecursion (λ pair. HasSpanIndex pair.0.size pair.1) (subtables_in t.contents)) }
    ensures padding { IfOk result (λ t. AllByRecursion (λ byte. byte ≡ 0) t.filled) }
{
    let built = build_by(alloc, choice, plan, lists, watcher);
    watcher.end();
    built
}
