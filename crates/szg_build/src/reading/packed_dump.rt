//! A dump whose subtables were packed while it was read, and its table.
ghost use Rattle.std.specs.Prelude.{◌≡◌, ◌⊎◌, map, true, IfOk, Err, None, Some};
ghost use Rattle.std.specs.List.{AllByRecursion};
ghost use Rattle.szg_file.specs.Accepted.{IsAccepted};
ghost use Rattle.szg_build.specs.Built.{subtables_in};
ghost use Rattle.szg_build.specs.Chosen.{numbers_in, plan_by, IsBuiltAs, IsCodedTable};
ghost use Rattle.szg_build.specs.Packed.{gathered_dump, packed_values, ArePacked, IsPackedSub, IsSettled};
ghost use Rattle.szg_build.specs.Plan.{build_fault};
ghost use Rattle.szg_build.specs.Rule.{byte4_for, constant_for, constant_in, HasSpanIndex};
ghost use Rattle.szg_build.specs.Shown.{plan_seen};
ghost use Rattle.szg_build.specs.Tabling.{IsBuiltBy, HasNoFault};
ghost use Rattle.szg_build.specs.declared.BuildFault.{BuildFault};
ghost use Rattle.szg_subtable.specs.declared.building.Choice.{Choice};

use crate::headers::count_other_bytes;
use crate::reading::gathering::{Gathered, list_all};
use crate::reading::packing::{PackedSub, pack, unpack};
use crate::refusing::{MAX_ROUNDS, are_bits_valid, are_maps_valid};
use crate::table::{build_by, parts_fit, table_from};
use crate::{BuildFault, Plan};
use std::alloc::{AllocError, Global};
use std::marker::Model;
use szg_block::block_count;
use szg_file::{Table, subtable_sizes};
use szg_subtable::{Choice, Packing, Watcher};

/// The content of a dump, whose subtables were packed while it was read.
#[derive(Drop)]
pub struct PackedDump {
    pub(crate) gathered: Gathered,
    pub(crate) choice: Choice,
}

impl Model for PackedDump {
    ghost use Rattle.szg_build.specs.Packed.{gathered_dump, ArePacked};
    ghost use Rattle.szg_build.specs.Chosen.{ToBuild};

    ghost Value = { ToBuild };

    ghost view = { λ packed. record { dump = gathered_dump packed.gathered; choice = packed.choice } };

    ghost invariant = { λ packed. ArePacked packed.gathered.header.kind packed.choice packed.gathered.subs };
}

impl PackedDump {
    /// Builds the table, as `build_as` does from the dump's lists: with the same subtables and the same padding. `watcher` sees each subtable that is built or packed again now, and the end.
    ///
    /// Errors: the fault that `build_as` returns for the dump's lists, or `Memory` if memory was refused. To find the fault, all values are listed again. If there is a fault, no table is returned.
    pub fn build<V: Watcher>(self, alloc: Global, watcher: &mut V) -> Result<Table, BuildFault>
        ensures refused { (fault : BuildFault) → result ≡ Err fault → (fault ≡ BuildFault.Memory) ⊎ (build_fault (plan_by self.choice self.dump) self.dump.lists ≡ Some fault) }
        ensures no_fault { IfOk result (λ _. build_fault (plan_by self.choice self.dump) self.dump.lists ≡ None) }
        ensures built { IfOk result (λ t. IsBuiltAs self.choice (plan_by self.choice self.dump) self.dump.lists t.contents) }
        ensures accepted { IfOk result (λ t. IsAccepted t.contents t.filled) }
        ensures byte4 { IfOk result (λ t. t.contents.byte4 ≡ byte4_for self.dump.material) }
        ensures constants { IfOk result (λ t. map constant_in t.contents.subtables ≡ map (constant_for self.dump.kind) self.dump.lists) }
        ensures codes { IfOk result (λ t. IsCodedTable self.choice t.contents) }
        ensures index { IfOk result (λ t. AllByRecursion (λ pair. HasSpanIndex pair.0.size pair.1) (subtables_in t.contents)) }
        ensures padding { IfOk result (λ t. AllByRecursion (λ byte. byte ≡ 0) t.filled) }
    {
        let PackedDump { gathered, choice } = self;
        let built = build_gathered(alloc, gathered, choice, watcher);
        watcher.end();
        built
    }
}

/// Returns whether packed subtables have these sizes.
fn have_sizes(sizes: &[u64], packed: &[PackedSub]) -> bool
    ensures { result ≡ true → sizes.now ≡ map (λ p. p.size) packed.now }
{
    sizes.len() == packed.len()
        && sizes
            .iter()
            .zip(packed)
            .all(|(size, sub)| sub.size == *size)
}

/// Returns whether a plan has no fault and `packed` are all its subtables.
fn are_complete(plan: &Plan, packed: &[PackedSub]) -> bool
    requires { (choice : Choice) × AllByRecursion (IsPackedSub plan.now.kind choice) packed.now }
    ensures { result ≡ true → HasNoFault (plan_seen plan.now) (map (packed_values plan.now.kind) packed.now) }
{
    parts_fit(&plan.parts);
    let Some(sizes) = subtable_sizes(&plan.material, plan.kind, &plan.parts) else {
        return false;
    };
    if !have_sizes(sizes.as_slice(), packed) {
        return false;
    }
    if !are_bits_valid(plan.block_bits, plan.span_bits) || plan.rounds > MAX_ROUNDS {
        return false;
    }
    are_maps_valid(plan)
}

/// If a small table has exactly one subtable with blocks, packs this subtable again, since its best packing depends on
/// the table's other bytes. Otherwise returns `packed` unchanged.
fn settle<V: Watcher>(
    alloc: Global,
    plan: &Plan,
    choice: Choice,
    packed: Vec<PackedSub>,
    watcher: &mut V,
) -> Result<Vec<PackedSub>, AllocError>
    requires { AllByRecursion (IsPackedSub plan.now.kind choice) packed.items }
    ensures { IfOk result (λ settled. IsSettled plan.now.kind choice packed.items settled.items) }
{
    let Choice::Small = choice else {
        return Ok(packed);
    };
    let count = packed.len();
    let with_blocks = packed
        .iter()
        .filter(|packed| block_count(&packed.sub) > 0)
        .count();
    let other_bytes = count_other_bytes(plan, count, with_blocks);
    if other_bytes.is_none() {
        return Ok(packed);
    }
    let mut settled = Vec::new(alloc);
    'subs: for sub in packed {
        if block_count(&sub.sub) > 0 {
            watcher.subtable(settled.len() + 1, count, sub.size as usize);
            let values = unpack(alloc, plan.kind, &sub)?;
            let again = pack(
                alloc,
                plan.kind,
                sub.flags,
                Choice::Small,
                &values,
                other_bytes,
                watcher,
            )?;
            settled.push(again)?;
        } else {
            settled.push(sub)?;
        }
    }
    Ok(settled)
}

/// Returns the lists as slices.
fn lend<'a>(alloc: Global, lists: &'a [Vec<u16>]) -> Result<Vec<&'a [u16]>, AllocError>
    ensures { IfOk result (λ slices. map (λ slice. slice.now) slices.items ≡ map (λ list. list.items) lists.now) }
{
    let mut slices = Vec::new(alloc);
    'lists: for list in lists {
        slices.push(list.as_slice())?;
    }
    Ok(slices)
}

/// Returns the numbers of a choice. For a small table, whose packing does not use them, returns numbers that pass the
/// checks of a plan.
fn numbers_of(choice: Choice) -> Packing
    ensures { result ≡ numbers_in choice }
{
    match choice {
        Choice::Fixed(packing) => packing,
        Choice::Small => Packing {
            block_bits: 5,
            span_bits: 1,
            rounds: 0,
        },
    }
}

/// Builds the table of what was read: from the packed subtables if all are packed and the plan has no fault, else from
/// lists of all values.
fn build_gathered<V: Watcher>(
    alloc: Global,
    gathered: Gathered,
    choice: Choice,
    watcher: &mut V,
) -> Result<Table, BuildFault>
    requires { ArePacked gathered.header.kind choice gathered.subs }
    ensures refused { (fault : BuildFault) → result ≡ Err fault → (fault ≡ BuildFault.Memory) ⊎ (build_fault (plan_by choice (gathered_dump gathered)) (gathered_dump gathered).lists ≡ Some fault) }
    ensures no_fault { IfOk result (λ _. build_fault (plan_by choice (gathered_dump gathered)) (gathered_dump gathered).lists ≡ None) }
    ensures built { IfOk result (λ t. IsBuiltBy choice (plan_by choice (gathered_dump gathered)) (gathered_dump gathered).lists t.contents) }
    ensures accepted { IfOk result (λ t. IsAccepted t.contents t.filled) }
    ensures padding { IfOk result (λ t. AllByRecursion (λ byte. byte ≡ 0) t.filled) }
{
    let Gathered { header, subs } = gathered;
    let numbers = numbers_of(choice);
    let last = header.last;
    let rest = subs.rest;
    let plan = Plan {
        material: header.material,
        kind: header.kind,
        parts: header.parts,
        block_bits: numbers.block_bits,
        span_bits: numbers.span_bits,
        rounds: numbers.rounds,
        flags: subs.flags,
        maps: subs.maps,
        last,
    };
    if rest.is_empty() && are_complete(&plan, &subs.packed) {
        let settled = settle(alloc, &plan, choice, subs.packed, watcher)?;
        let made = settled.into_iter().map(|p| p.sub).collect(alloc)?;
        return Ok(table_from(alloc, &plan, made)?);
    }
    let lists = list_all(alloc, plan.kind, &subs.packed, rest)?;
    let lent = lend(alloc, &lists)?;
    build_by(alloc, choice, &plan, &lent, watcher)
}
