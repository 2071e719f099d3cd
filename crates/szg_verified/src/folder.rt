//! The verification of a folder.

ghost use Rattle.std.specs.Prelude.{◌≡◌, ◌<◌, [], All, Contains, IfErr, IfOk, IsNone, IsOk, min, IsTrue, List, OnOk};
ghost use Rattle.szg_values.specs.Material.{Sides};
ghost use Rattle.szg_verify.specs.Entries.{tables_of};
ghost use Rattle.szg_verify.specs.Walk.{IsShardChecked};
ghost use Rattle.szg_tables.specs.Distances.{stored_distances};
ghost use Rattle.szg_tables.specs.Stored.{stored_classes};
ghost use Rattle.szg_verified.specs.Verified.{AreCheckedIn, AreReadFrom, AreTrue, IsAdded, IsCauseInShard, IsCaused, IsLoggedIn, is_whole, shard_count};

use crate::changes::{add_needed, needed_by};
use crate::verifying::{Cause, Unverified, verify_materials, verify_shard};
use std::alloc::{AllocError, Global};
use std::io::{self, Write};
use std::rt::Files;
use szg_file::Table;
use szg_files::{FileFault, FileSystem, Finding, files_below};
use szg_named::named_by;
use szg_results::{ResultStop, read_missing};
use szg_tables::{Missing, MissingReason};
use szg_values::{Kind, Material, NameFault};
use szg_verify::{Shard, Watcher};

/// What was verified.
#[derive(Drop)]
pub struct Verification {
    /// The tables that were read.
    pub tables: Vec<Table>,
    /// The materials that were asked for, and all that captures and promotions lead to from them.
    pub materials: Vec<Material>,
    /// Whether the tables of all these are verified, or logged.
    pub is_all: bool,
    /// The materials that are not verified, in their order.
    pub unverified: Vec<Unverified>,
    /// The materials that were not checked again: by a log they were verified with the same tables.
    pub logged: Vec<Material>,
}

/// What was found of a shard of a material.
#[derive(Drop)]
pub struct ShardVerification {
    /// The tables that were read.
    pub tables: Vec<Table>,
    /// The number of the shard's positions if each passes, or why one does not.
    pub positions: Result<u64, Cause>,
}

/// Why a folder was not verified to the end.
#[derive(Drop)]
pub enum VerifyStop {
    /// A name is no material's.
    Name(NameFault),
    /// The words name no shard of one material.
    Shard,
    /// The log can't be read.
    Log(FileFault),
    /// The folder can't be read, a file fails or is no table, or an allocation was refused.
    Read(ResultStop),
    /// The output failed, or an allocation was refused.
    Output(io::Error),
}

impl From<ResultStop> for VerifyStop {
    fn from(stop: ResultStop) -> VerifyStop {
        VerifyStop::Read(stop)
    }
}

impl From<AllocError> for VerifyStop {
    fn from(_failed: AllocError) -> VerifyStop {
        VerifyStop::Read(ResultStop::Memory)
    }
}

/// Returns the materials of the tables in a folder, of either kind. What is in folders below it does not count.
///
/// Errors: the folder can't be read; an allocation was refused.
pub fn materials_in<R: Files>(
    alloc: Global,
    files: &R,
    folder: &str,
) -> Result<Vec<Material>, ResultStop> {
    let folder = folder.trim_end_matches('/');
    let mut materials = Vec::new(alloc);
    for below in files_below(alloc, files, folder)? {
        if let Finding::Unread(fault) = below.finding {
            if below.path.as_str() == folder {
                return Err(ResultStop::Failed(fault));
            }
        }
        if let Some(material) = material_at(folder, below.path.as_str()) {
            if !materials.contains(&material) {
                if materials.push(material).is_err() {
                    return Err(ResultStop::Memory);
                }
            }
        }
    }
    Ok(materials)
}

/// Returns the material of a table's file in a folder. None for another path.
fn material_at(folder: &str, path: &str) -> Option<Material> {
    let name = path.strip_prefix(folder)?.strip_prefix('/')?;
    if name.contains('/') {
        return None;
    }
    let (name, _) = named_by(name)?;
    Material::parse(name).ok()
}

/// Verifies the tables of materials in a folder, and those of all that captures and promotions lead to from them: each is
/// read once, whole. Writes a line for each material, those of the fewest men first, and a summary. Materials that a log,
/// the output of earlier verifications, has with the same tables are not checked again.
///
/// If all are verified, then for each position of these materials a probe of the tables that were read finds its class in
/// chess with the fifty-move rule, whoever made the tables. For those that the log has this rests on the log.
///
/// Errors: `VerifyStop`; the lines of materials that came before were written.
pub fn verify_folder<S: FileSystem, W: Write, P: Watcher>(
    alloc: Global,
    system: &mut S,
    folder: &str,
    asked: Vec<Material>,
    log: Option<&str>,
    output: &mut W,
    progress: &mut P,
) -> Result<Verification, VerifyStop>
    ensures true_tables { IfOk result (λ v. IsTrue v.is_all → AreCheckedIn v.tables.items v.logged.items → AreTrue v.tables.items v.materials.items) }
    // Without a log nothing is taken from one.
    ensures logged { IfOk result (λ v. IsNone log.entry → v.logged.items ≡ []) }
    // With one, only what its lines say of tables with the digest of those that were read.
    ensures by_log { IfOk result (λ v. All (IsLoggedIn log.entry v.tables.items) v.logged.items) }
    // It says no with a cause: a refusal names the first position of a material that breaks a condition over these tables, and
    // a material is left unchecked only if it leads to one that is not verified.
    ensures caused { IfOk result (λ v. All (IsCaused v.tables.items v.materials.items v.unverified.items) v.unverified.items) }
    ensures all { IfOk result (λ v. v.is_all ≡ is_whole v.materials.items v.unverified.items) }
    ensures asked { IfOk result (λ v. (m : Sides) → Contains asked.items m → Contains v.materials.items m) }
    // The tables are those that the folder has of the materials.
    ensures content { S.content system.new ≡ S.content system.old }
    ensures read { IfOk result (λ v. AreReadFrom (S.content system.old) folder.now v.materials.items v.tables.items) }
{
    let mut materials = asked;
    add_needed(alloc, &mut materials)?;
    let tables = tables_in(alloc, system, folder, &materials)?;
    match verify_materials(alloc, &tables, &materials, log, output, progress) {
        Ok(found) => Ok(Verification {
            tables,
            materials,
            is_all: found.is_all,
            unverified: found.unverified,
            logged: found.logged,
        }),
        Err(error) => Err(VerifyStop::Output(error)),
    }
}

/// Checks the positions of a shard of a material in a folder, and writes a line. The lines of all shards, for the same tables,
/// say what the line of the whole material says (`shards_are_whole` of `szg_verify`).
///
/// Errors: `VerifyStop`.
pub fn verify_folder_shard<S: FileSystem, W: Write, P: Watcher>(
    alloc: Global,
    system: &mut S,
    folder: &str,
    material: &Material,
    shard: Shard,
    output: &mut W,
    progress: &mut P,
) -> Result<ShardVerification, VerifyStop>
    requires { shard.before < shard.shards }
    ensures checked { IfOk result (λ v. IsOk v.positions → IsShardChecked (tables_of (stored_classes v.tables.items) (stored_distances v.tables.items)) material.now shard.shards shard.before) }
    // It says no with a cause: a refusal names the first of the shard's positions that breaks a condition over these tables.
    ensures caused { IfOk result (λ v. IfErr v.positions (IsCauseInShard v.tables.items material.now shard.shards shard.before)) }
    ensures counted { IfOk result (λ v. IfOk v.positions (λ n. n ≡ min (shard_count material.now shard.shards shard.before) u64.MAX)) }
    ensures content { S.content system.new ≡ S.content system.old }
    ensures read { IfOk result (λ v. (materials : List Sides) × Contains materials material.now × AreReadFrom (S.content system.old) folder.now materials v.tables.items) }
{
    let materials = needed_by(alloc, material)?;
    let tables = tables_in(alloc, system, folder, &materials)?;
    match verify_shard(alloc, &tables, material, shard, output, progress) {
        Ok(positions) => Ok(ShardVerification { tables, positions }),
        Err(error) => Err(VerifyStop::Output(error)),
    }
}

/// Reads the tables of materials that a folder has.
///
/// Errors: a file is no table, or it fails; an allocation was refused.
fn tables_in<S: FileSystem>(
    alloc: Global,
    system: &mut S,
    folder: &str,
    materials: &[Material],
) -> Result<Vec<Table>, ResultStop>
    ensures content { S.content system.new ≡ S.content system.old }
    ensures read { IfOk result (λ tables. AreReadFrom (S.content system.old) folder.now materials.now tables.items) }
{
    let mut tables = Vec::new(alloc);
    'materials: for material in materials {
        add_table(alloc, system, folder, material, Kind::Wdl, &mut tables)?;
        add_table(alloc, system, folder, material, Kind::Dtz, &mut tables)?;
    }
    Ok(tables)
}

/// Reads the table of a material and kind that a folder has, if it has one, and adds it.
///
/// Errors: those of `tables_in`.
#[tactic(auto, using(crate::proofs::Reading::added, crate::proofs::Reading::not_added))]
fn add_table<S: FileSystem>(
    alloc: Global,
    system: &mut S,
    folder: &str,
    material: &Material,
    kind: Kind,
    tables: &mut Vec<Table>,
) -> Result<(), ResultStop>
    ensures content { S.content system.new ≡ S.content system.old }
    ensures added { OnOk result (IsAdded (S.content system.old) folder.now material.now kind tables.old.items tables.new.items) }
{
    let missing = Missing {
        material: material.copy(),
        kind,
        reason: MissingReason::Table,
    };
    match read_missing(alloc, system, &[folder], &missing)? {
        Some(table) => match tables.push(table) {
            Ok(()) => Ok(()),
            Err(_) => Err(ResultStop::Memory),
        },
        None => Ok(()),
    }
}
