//! Digests of the tables that the check of a material reads.

ghost use Rattle.std.specs.Prelude.{◌≡◌, ◌++◌, [], IfOk, Some, find, option_map, string_bytes};
ghost use Rattle.sha2.specs.Hashers.{Holds256};
ghost use Rattle.sha2.specs.Sha256.{sha256};
ghost use Rattle.szg_tables.specs.Stored.{is_for};
ghost use Rattle.szg_verified.specs.Digests.{IsDigestOf, file_for};

use crate::changes::needed_by;
use sha2::{Digest, Sha256};
use std::alloc::{AllocError, Global};
use szg_file::{Table, write};
use szg_io::{IoFault, Output, Past};
use szg_values::{Kind, Material};

/// A sink that keeps the digest of the bytes that were written to it. It never fails.
#[derive(Drop)]
struct Hashing {
    hasher: Sha256,
    calls: u64,
    taken: Past,
    ghost fed: { ∥ Holds256 hasher taken.bytes ∥₁ },
}

impl Hashing {
    /// Creates a sink that nothing was written to.
    fn new() -> Hashing
        ensures { result.taken.bytes ≡ [] }
    {
        Hashing {
            hasher: Sha256::new(),
            calls: 0,
            taken: Past::new(),
        }
    }

    /// Returns the digest of the bytes.
    fn digest(self) -> [u8; 32]
        ensures { result ≡ sha256 self.taken.bytes }
    {
        self.hasher.finalize()
    }
}

impl Output for Hashing {
    ghost written = { λ s. Some s.taken.bytes };

    ghost calls = { λ s. s.calls };

    ghost moved = { λ s. s.taken.bytes };

    ghost failures = { λ s. 0 };

    ghost interrupted = { λ s. 0 };

    fn give(&mut self, chunk: &[u8]) -> Result<usize, IoFault> {
        self.hasher.update(chunk);
        self.taken = self.taken.append(&chunk, &chunk.len());
        self.calls = self.calls.saturating_add(1);
        Ok(chunk.len())
    }
}

/// Returns the SHA-256 digest, in hex digits, of the files that the check of a material reads, joined: the WDL tables of
/// the material and of all that captures and promotions lead to from it, those of the fewest men first, and its DTZ table.
pub(crate) fn digest_of(
    alloc: Global,
    tables: &[Table],
    material: &Material,
) -> Result<String, AllocError>
    ensures { IfOk result (λ text. IsDigestOf tables.now material.now (string_bytes text)) }
{
    let materials = needed_by(alloc, material)?;
    let mut hashing = Hashing::new();
    'materials: for other in &materials {
        add(tables, other, Kind::Wdl, &mut hashing);
    }
    add(tables, material, Kind::Dtz, &mut hashing);
    hex::encode(alloc, hashing.digest())
}

/// Adds the file of a material's table of a kind, if it is there.
fn add(tables: &[Table], material: &Material, kind: Kind, hashing: &mut Hashing)
    ensures { hashing.new.taken.bytes ≡ hashing.old.taken.bytes ++ file_for tables.now kind material.now }
{
    if let Some(table) = first_for(tables, kind, material) {
        // it never fails
        let _ = write(table, hashing);
    }
}

/// Returns the first table of a kind and material.
fn first_for<'a>(tables: &'a [Table], kind: Kind, material: &Material) -> Option<&'a Table>
    ensures { option_map (λ t. t.now) result ≡ find (is_for kind material.now) tables.now }
{
    tables.iter().find(|table| is_for(table, kind, material))
}

/// Returns whether a table is of a kind and material.
fn is_for(table: &Table, kind: Kind, material: &Material) -> bool
    ensures { result ≡ is_for kind material.now table.now }
{
    table.kind() == kind && material.is_same(table.material())
}
