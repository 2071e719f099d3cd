//! What an earlier verification wrote.

ghost use Rattle.std.specs.Prelude.{ℕ, ◌<◌, IfSome};
ghost use Rattle.szg_verified.specs.Logs.{AreRecorded, IsExtent, IsRecord, IsRecordedIn, IsShardText};

use szg_verify::Shard;

/// A line of a verification: these positions were checked.
#[derive(Clone, Copy)]
struct Record {
    shard: Shard,
    positions: u64,
}

/// The whole of a material.
const WHOLE: Shard = Shard {
    before: 0,
    shards: 1,
};

/// Returns the shard that a text such as `2/5` names. None if it is none of 1/1 up to 65535/65535.
pub(crate) fn shard_of(text: &str) -> Option<Shard>
    ensures within { IfSome result (λ shard. shard.before < shard.shards) }
    ensures named { IfSome result (λ shard. IsShardText text.now shard.before shard.shards) }
{
    let (number, shards) = text.split_once('/')?;
    let number = number.parse::<u16>().ok()?;
    let shards = shards.parse::<u16>().ok()?;
    if number == 0 || shards < number {
        return None;
    }
    Some(Shard {
        before: number - 1,
        shards,
    })
}

/// Returns the number of positions of a material that were verified by the lines of a log, with tables of this digest: by one
/// line, or by those of all its shards. None if some were not.
pub(crate) fn logged_positions(log: &str, name: &str, digest: &str) -> Option<u64>
    ensures { IfSome result (λ _. AreRecorded log.now name.now digest.now) }
{
    'each: for line in log.lines() {
        if let Some(record) = record_in(line, name, digest) {
            if record.shard.before == 0 {
                if let Some(positions) = joined(log, name, digest, record.shard.shards) {
                    return Some(positions);
                }
            }
        }
    }
    None
}

/// Returns the number of positions of these shards of a material. None if the log lacks one of them.
fn joined(log: &str, name: &str, digest: &str, shards: u16) -> Option<u64>
    ensures { IfSome result (λ _. (before : ℕ) → before < shards → IsRecordedIn log.now name.now digest.now before shards) }
{
    let mut positions: u64 = 0;
    'shards: for before in 0..shards {
        let found = positions_of(log, name, digest, Shard { before, shards })?;
        positions = positions.saturating_add(found);
    }
    Some(positions)
}

/// Returns the number of positions of a shard of a material, by the first line that has it. None if the log lacks it.
fn positions_of(log: &str, name: &str, digest: &str, shard: Shard) -> Option<u64>
    ensures { IfSome result (λ _. IsRecordedIn log.now name.now digest.now shard.before shard.shards) }
{
    'each: for line in log.lines() {
        if let Some(record) = record_in(line, name, digest) {
            if record.shard.before == shard.before && record.shard.shards == shard.shards {
                return Some(record.positions);
            }
        }
    }
    None
}

/// Returns what a line says of a material with tables of this digest, if it says that positions were verified.
fn record_in(line: &str, name: &str, digest: &str) -> Option<Record>
    ensures within { IfSome result (λ r. r.shard.before < r.shard.shards) }
    ensures record { IfSome result (λ r. IsRecord name.now digest.now r.shard.before r.shard.shards line.now) }
{
    let said = line.strip_prefix(name)?.strip_prefix(' ')?;
    let (extent, said) = said.split_once("verified positions ")?;
    let (positions, found) = said.split_once(" sha256 ")?;
    if found != digest {
        return None;
    }
    Some(Record {
        shard: extent_of(extent)?,
        positions: positions.parse::<u64>().ok()?,
    })
}

/// Returns the shard that a line is about, from its words before the verdict.
fn extent_of(extent: &str) -> Option<Shard>
    ensures within { IfSome result (λ shard. shard.before < shard.shards) }
    ensures extent { IfSome result (λ shard. IsExtent extent.now shard.before shard.shards) }
{
    if let Some(text) = extent.strip_prefix("shard ") {
        return shard_of(text.strip_suffix(' ')?);
    }
    match extent {
        "" | "logged: " => Some(WHOLE),
        _ => None,
    }
}
