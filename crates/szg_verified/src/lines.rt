//! The lines of a verification.

use crate::verifying::{Cause, MaterialFinding, VerifiedCounts};
use std::alloc::{AllocError, Global};
use szg_results::{ResultStop, stop_text};
use szg_tables::{Missing, MissingReason};
use szg_values::{Kind, Material};
use szg_verify::Shard;

/// Returns the line of a material whose tables have this digest.
pub fn material_line(
    alloc: Global,
    material: &Material,
    found: &MaterialFinding,
    digest: &str,
) -> Result<String, AllocError> {
    let name = material.name();
    let name = name.as_str();
    match found {
        MaterialFinding::Verified(positions) => verified_line(alloc, name, "", *positions, digest),
        MaterialFinding::Logged(positions) => verified_line(
            alloc, name, "logged: ", *positions, digest,
        ),
        MaterialFinding::Failed(cause) => cause_line(alloc, name, cause),
    }
}

/// Returns the line of a shard of a material, from the number of its positions if each passes, or why one does not.
pub fn shard_line(
    alloc: Global,
    material: &Material,
    shard: Shard,
    positions: &Result<u64, Cause>,
    digest: &str,
) -> Result<String, AllocError> {
    let name = material.name();
    let name = name.as_str();
    let number = u32::from(shard.before) + 1;
    let shards = shard.shards;
    let extent = format!(in alloc; "{name} shard {number}/{shards}")?;
    let extent = extent.as_str();
    match positions {
        Ok(positions) => verified_line(alloc, extent, "", *positions, digest),
        Err(cause) => cause_line(alloc, extent, cause),
    }
}

/// Returns the line of positions that were verified, in this run or by a log.
fn verified_line(
    alloc: Global,
    extent: &str,
    by: &str,
    positions: u64,
    digest: &str,
) -> Result<String, AllocError> {
    format!(in alloc; "{extent} {by}verified positions {positions} sha256 {digest}\n")
}

/// Returns the line of why positions were not verified.
fn cause_line(alloc: Global, extent: &str, cause: &Cause) -> Result<String, AllocError> {
    match cause {
        Cause::Refused(refusal) => {
            let fen = refusal.position.fen();
            let fen = fen.as_str();
            let condition = refusal.condition;
            format!(in alloc; "{extent} refused {fen} 0 1: {condition}\n")
        }
        Cause::NoTable(kind, material) => {
            missing_line(alloc, extent, material, *kind, MissingReason::Table)
        }
        Cause::Missing(missing) => {
            missing_line(
                alloc,
                extent,
                &missing.material,
                missing.kind,
                missing.reason,
            )
        }
        Cause::Unchecked(other) => {
            let other = other.name();
            let other = other.as_str();
            format!(in alloc; "{extent} unchecked: it leads to {other}\n")
        }
    }
}

/// Returns the line of what tables lack.
fn missing_line(
    alloc: Global,
    extent: &str,
    material: &Material,
    kind: Kind,
    reason: MissingReason,
) -> Result<String, AllocError> {
    let missing = Missing {
        material: material.copy(),
        kind,
        reason,
    };
    let text = stop_text(alloc, &ResultStop::Missing(missing))?;
    format!(in alloc; "{extent} {text}\n")
}

/// Returns the summary. Only if no material was taken from a log, and all are verified, it begins with `all verified`.
pub fn summary_line(
    alloc: Global,
    is_all: bool,
    tally: &VerifiedCounts,
) -> Result<String, AllocError> {
    let VerifiedCounts {
        materials,
        verified,
        logged,
        positions,
    } = *tally;
    let from_log = if logged == 0 {
        String::new(alloc)
    } else {
        format!(in alloc; ", logged {logged}")?
    };
    let from_log = from_log.as_str();
    if !is_all {
        return format!(in alloc;
            "not all verified: materials {materials}, verified {verified}{from_log}, positions {positions}\n"
        );
    }
    let all = if logged == 0 {
        "all verified"
    } else {
        "verified or logged"
    };
    format!(in alloc; "{all}: materials {materials}{from_log}, positions {positions}\n")
}
