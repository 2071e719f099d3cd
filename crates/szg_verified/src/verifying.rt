//! The verification of materials over tables in memory.

ghost use Rattle.std.specs.Prelude.{◌≡◌, ◌<◌, [], All, IfErr, IfOk, IfSome, IsNone, IsOk, IsTrue, List, find, min, ℕ};
ghost use Rattle.szg_values.specs.Material.{Sides};
ghost use Rattle.szg_game.specs.Game.{is_empty};
ghost use Rattle.szg_verify.specs.Entries.{tables_of};
ghost use Rattle.szg_verify.specs.Materials.{leads_to};
ghost use Rattle.szg_verify.specs.Walk.{IsRangeChecked, IsShardChecked, colored_men, position_count};
ghost use Rattle.szg_tables.specs.Distances.{stored_distances};
ghost use Rattle.szg_tables.specs.Stored.{stored_classes};
ghost use Rattle.szg_verified.specs.Verified.{AreCheckedIn, AreTrue, IsCause, IsCauseInShard, IsCaused, IsFinding, IsLoggedIn, is_whole, materials_in, shard_count};
ghost use Rattle.szg_verified.specs.Digests.{IsDigestOf};

use crate::digests::digest_of;
use crate::lines::{material_line, shard_line, summary_line};
use crate::log::logged_positions;
use std::alloc::{AllocError, Global};
use std::io::{self, Write};
use szg_file::Table;
use szg_tables::laws::stored_at_images;
use szg_tables::{Missing, TableSet, ValueLists};
use szg_values::{Kind, Material};
use szg_verify::laws::{verified_is_true, walk_is_whole};
use szg_verify::{
    Cell, RefusedPosition, Shard, Walked, Watcher, are_closed, leads_to, number_count, shard_start,
    verify_range,
};

/// The most bytes of a walk's lists of values. Of four men without pawns they hold all values.
const MOST_VALUES: usize = 6_000_000;

/// The most cells in which a walk keeps the entries that it found: they take 20 MB. Of four men without pawns they hold most
/// positions with White to move.
const MOST_CELLS: u64 = 5_000_000;

/// Why a material is not verified.
#[derive(Drop)]
pub enum Cause {
    /// The first position that does not pass.
    Refused(RefusedPosition),
    /// There is no table of this kind and material.
    NoTable(Kind, Material),
    /// What a table does not have for a placement: an index, or a value with a meaning.
    Missing(Missing),
    /// It was not looked at, since a capture or a promotion leads to this one, which is not verified.
    Unchecked(Material),
}

/// What was found of a material.
#[derive(Drop)]
pub enum MaterialFinding {
    /// This number of positions was checked, and each passes.
    Verified(u64),
    /// A log says that this number of positions was checked, with the same tables.
    Logged(u64),
    /// It is not verified.
    Failed(Cause),
}

/// A material that is not verified.
#[derive(Drop)]
pub struct Unverified {
    /// The material.
    pub material: Material,
    /// Why it is not verified.
    pub cause: Cause,
}

/// What a verification of materials found.
#[derive(Drop)]
pub struct VerifiedMaterials {
    /// Whether all are verified.
    pub is_all: bool,
    /// Those that are not, in the order of the materials.
    pub unverified: Vec<Unverified>,
    /// Those that were not checked again, since a log has them.
    pub logged: Vec<Material>,
}

/// What a verification came to.
#[derive(Clone, Copy)]
pub struct VerifiedCounts {
    /// The number of materials.
    pub materials: usize,
    /// The number of those that were checked and are verified.
    pub verified: usize,
    /// The number of those that a log has.
    pub logged: usize,
    /// The number of their positions that were checked.
    pub positions: u64,
}

/// Verifies the tables of materials, each of which comes after those that captures and promotions lead to from it, but for
/// those that a log has with the same tables. Writes a line for each, and a summary.
///
/// Errors: the output's; an allocation was refused.
pub fn verify_materials<W: Write, P: Watcher>(
    alloc: Global,
    tables: &[Table],
    materials: &[Material],
    log: Option<&str>,
    output: &mut W,
    progress: &mut P,
) -> io::Result<VerifiedMaterials>
    ensures true_tables { IfOk result (λ found. IsTrue found.is_all → AreCheckedIn tables.now found.logged.items → AreTrue tables.now materials.now) }
    ensures caused { IfOk result (λ found. All (IsCaused tables.now materials.now found.unverified.items) found.unverified.items) }
    ensures all { IfOk result (λ found. found.is_all ≡ is_whole materials.now found.unverified.items) }
    ensures logged { IfOk result (λ found. IsNone log.entry → found.logged.items ≡ []) }
    ensures by_log { IfOk result (λ found. All (IsLoggedIn log.entry tables.now) found.logged.items) }
{
    stored_at_images(tables);
    verified_is_true();
    let mut unverified = Vec::new(alloc);
    let mut logged = Vec::new(alloc);
    let mut tally = VerifiedCounts {
        materials: materials.len(),
        verified: 0,
        logged: 0,
        positions: 0,
    };
    'materials: for material in materials {
        let digest = digest_of(alloc, tables, material)?;
        let digest = digest.as_str();
        let found = verify_material(alloc, tables, material, &unverified, log, digest, progress)?;
        let line = material_line(alloc, material, &found, digest)?;
        write_line(output, line.as_str())?;
        tally = counted(tally, &found);
        match found {
            MaterialFinding::Verified(_) => {}
            MaterialFinding::Logged(_) => logged.push(material.copy())?,
            MaterialFinding::Failed(cause) => unverified.push(Unverified {
                material: material.copy(),
                cause,
            })?,
        }
    }
    let is_all = is_whole(materials, &unverified);
    let line = summary_line(alloc, is_all, &tally)?;
    write_line(output, line.as_str())?;
    Ok(VerifiedMaterials {
        is_all,
        unverified,
        logged,
    })
}

/// Writes a line, so that it is there if what follows takes long.
pub(crate) fn write_line<W: Write>(output: &mut W, line: &str) -> io::Result<()> {
    output.write_all(line.as_bytes())?;
    output.flush()
}

/// Counts what was found of one more material.
fn counted(tally: VerifiedCounts, found: &MaterialFinding) -> VerifiedCounts {
    match found {
        MaterialFinding::Verified(positions) => VerifiedCounts {
            verified: tally.verified.saturating_add(1),
            positions: tally.positions.saturating_add(*positions),
            ..tally
        },
        MaterialFinding::Logged(_) => VerifiedCounts {
            logged: tally.logged.saturating_add(1),
            ..tally
        },
        MaterialFinding::Failed(_) => tally,
    }
}

/// Verifies a shard of a material, and writes its line. Returns the number of its positions if each passes, or why one does
/// not.
///
/// Errors: the output's; an allocation was refused.
pub fn verify_shard<W: Write, P: Watcher>(
    alloc: Global,
    tables: &[Table],
    material: &Material,
    shard: Shard,
    output: &mut W,
    progress: &mut P,
) -> io::Result<Result<u64, Cause>>
    requires { shard.before < shard.shards }
    ensures checked { IfOk result (λ positions. IsOk positions → IsShardChecked (tables_of (stored_classes tables.now) (stored_distances tables.now)) material.now shard.shards shard.before) }
    ensures cause { IfOk result (λ positions. IfErr positions (IsCauseInShard tables.now material.now shard.shards shard.before)) }
    ensures counted { IfOk result (λ positions. IfOk positions (λ n. n ≡ min (shard_count material.now shard.shards shard.before) u64.MAX)) }
{
    let from = shard_start(material, shard.shards, shard.before);
    let to = shard_start(material, shard.shards, shard.before + 1);
    let positions = walk(alloc, tables, material, from, to, progress)?;
    let digest = digest_of(alloc, tables, material)?;
    let line = shard_line(alloc, material, shard, &positions, digest.as_str())?;
    write_line(output, line.as_str())?;
    Ok(positions)
}

/// Returns room for the entries that a walk over these numbers finds.
fn new_cells(alloc: Global, numbers: u64) -> Result<Vec<Cell>, AllocError> {
    let count = numbers.saturating_mul(4).min(MOST_CELLS) as usize;
    Ok(vec![in alloc; Cell::default(); count]?)
}

/// Returns whether there are materials, closed under captures and promotions, and none of them is not verified.
fn is_whole(materials: &[Material], unverified: &[Unverified]) -> bool
    ensures { result ≡ is_whole materials.now unverified.now }
{
    let is_none = is_empty(materials);
    let is_closed = are_closed(materials);
    let is_verified = is_empty(unverified);
    !is_none && is_closed && is_verified
}

fn is_empty<T>(items: &[T]) -> bool
    ensures { result ≡ is_empty items.now }
{
    items.is_empty()
}

/// Verifies the tables of a material, unless it leads to one that is not verified, or a log has it with tables of this digest.
///
/// Errors: an allocation was refused.
#[tactic(auto, using(crate::proofs::Causes::logged_in))]
fn verify_material<P: Watcher>(
    alloc: Global,
    tables: &[Table],
    material: &Material,
    unverified: &[Unverified],
    log: Option<&str>,
    digest: &str,
    progress: &mut P,
) -> Result<MaterialFinding, AllocError>
    requires { IsDigestOf tables.now material.now digest.now }
    ensures found { IfOk result (λ found. IsFinding tables.now unverified.now log.entry material.now found) }
    // A material that leads to one that is not verified is not looked at.
    ensures unchecked { IfOk result (λ found. IfSome (find (leads_to material.now) (materials_in unverified.now)) (λ other. found ≡ MaterialFinding.Failed (Cause.Unchecked other))) }
{
    walk_is_whole();
    if let Some(other) = first_unverified(material, unverified) {
        return Ok(MaterialFinding::Failed(Cause::Unchecked(other)));
    }
    if let Some(text) = log {
        let name = material.name();
        if let Some(positions) = logged_positions(text, name.as_str(), digest) {
            return Ok(MaterialFinding::Logged(positions));
        }
    }
    let count = number_count(material);
    let walked = walk(alloc, tables, material, 0, count, progress)?;
    match walked {
        Ok(positions) => Ok(MaterialFinding::Verified(positions)),
        Err(cause) => Ok(MaterialFinding::Failed(cause)),
    }
}

/// Checks each position of a material that these numbers place, but for images, up to the first that does not pass. Returns
/// the number of positions if each passes, or why one does not.
///
/// Errors: an allocation of cells was refused. If one of lists of values is, the walk goes on without them.
fn walk<P: Watcher>(
    alloc: Global,
    tables: &[Table],
    material: &Material,
    from: u64,
    to: u64,
    progress: &mut P,
) -> Result<Result<u64, Cause>, AllocError>
    ensures checked { IfOk result (λ walked. IsOk walked → IsRangeChecked (tables_of (stored_classes tables.now) (stored_distances tables.now)) material.now from to) }
    ensures counted { IfOk result (λ walked. IfOk walked (λ positions. positions ≡ min (position_count (colored_men material.now) from to) u64.MAX)) }
    ensures cause { IfOk result (λ walked. (unverified : List Unverified) → IfErr walked (λ cause. IsCause tables.now unverified material.now from to cause)) }
{
    let lists = ValueLists::of(alloc, tables, material, MOST_VALUES);
    let mut cells = new_cells(alloc, to.saturating_sub(from))?;
    let mut classes = lists.set();
    let mut distances = lists.set();
    let walked = verify_range(
        &mut classes,
        &mut distances,
        material,
        from,
        to,
        &mut cells,
        progress,
    );
    progress.end();
    match walked {
        Ok(
            Walked {
                positions,
                refused: None,
            },
        ) => Ok(Ok(positions)),
        Ok(
            Walked {
                refused: Some(refusal),
                ..
            },
        ) => Ok(Err(Cause::Refused(refusal))),
        Err(missing) => Ok(Err(lack_of(tables, missing))),
    }
}

/// Returns why positions could not be checked: there is no table, or it lacks something.
fn lack_of(tables: &[Table], missing: Missing) -> Cause
    ensures { (unverified : List Unverified) (sides : Sides) (from to : ℕ) → IsCause tables.now unverified sides from to result }
{
    if TableSet::new(tables).has_table(missing.kind, &missing.material) {
        Cause::Missing(missing)
    } else {
        Cause::NoTable(missing.kind, missing.material)
    }
}

/// Returns the first material that is not verified and to which a capture or a promotion leads.
fn first_unverified(material: &Material, unverified: &[Unverified]) -> Option<Material>
    ensures { result ≡ find (leads_to material.now) (materials_in unverified.now) }
{
    'unverified: for other in unverified {
        if leads_to(material, &other.material) {
            return Some(other.material.copy());
        }
    }
    None
}
