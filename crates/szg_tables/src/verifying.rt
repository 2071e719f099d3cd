//! The verification of tables in memory.

ghost use Rattle.std.specs.Prelude.{◌≡◌, Err, IfErr, IfOk, IfSome, IsFalse, IsNone, IsTrue, Some, min, sum_by};
ghost use Rattle.szg_chess.specs.Position.{Position, IsPosition};
ghost use Rattle.szg_game.specs.declared.Class.{Class};
ghost use Rattle.szg_probe.specs.Chess.{ChessClass};
ghost use Rattle.szg_probe.specs.Probing.{probed};
ghost use Rattle.szg_verify.specs.Entries.{tables_of};
ghost use Rattle.szg_verify.specs.Materials.{are_closed, covers};
ghost use Rattle.szg_verify.specs.Walk.{IsCountTo, IsRefusedOf, material_count};
ghost use Rattle.szg_tables.specs.Distances.{stored_distances};
ghost use Rattle.szg_tables.specs.Stored.{stored_classes};

use crate::laws::stored_at_images;
use crate::{Missing, TableSet};
use szg_file::Table;
use szg_values::Material;
use szg_verify::{Cell, Walked, Watcher, are_closed, verify};
use thiserror::Error;

/// Why tables were not checked to the end.
#[derive(Debug, Drop, Error)]
#[error("VerifyFault")]
pub enum VerifyFault {
    /// A capture or a promotion leads from one of the materials to none of them.
    NotClosed,
    /// What the tables do not have for a position.
    Missing(Missing),
}

/// Checks the tables of these materials against chess: each position, but for images, against its own moves, up to the
/// first that does not pass. The cells are room for what was found: the more there are, the faster it is; none is right too.
///
/// If none is refused, each probe of a position of these materials, with an en passant square or without, returns its
/// class in chess with the fifty-move rule, whoever made the tables.
///
/// Errors: `NotClosed` if a capture or a promotion leads from one of the materials to none of them, nor to the two kings;
/// `Missing` for the first position for which a table, an index or a meaning is missing.
pub fn verify_tables<W: Watcher>(
    tables: &[Table],
    materials: &[Material],
    cells: &mut [Cell],
    watcher: &mut W,
) -> Result<Walked, VerifyFault>
    ensures true_classes { IfOk result (λ w. IsNone w.refused → (p : Position) → IsPosition p → IsTrue (covers materials.now p.placed_men) →
        (k : Class) × (probed (stored_classes tables.now) p ≡ Some k) × ChessClass p k) }
    // A refused position is one of the materials, the first of its material, and breaks the condition.
    ensures refused { IfOk result (λ w. IfSome w.refused (λ r. IsRefusedOf (tables_of (stored_classes tables.now) (stored_distances tables.now)) materials.now r.number r.position r.condition)) }
    // Each position counts once, up to the first that does not pass.
    ensures counted { IfOk result (λ w. IsNone w.refused → w.positions ≡ min (sum_by material_count materials.now) u64.MAX) }
    ensures counted_to { IfOk result (λ w. IfSome w.refused (λ r. IsCountTo materials.now r.number r.position w.positions)) }
    ensures not_closed { IsFalse (are_closed materials.now) → result ≡ Err VerifyFault.NotClosed }
    ensures missing { IsTrue (are_closed materials.now) → IfErr result (λ fault. (missing : Missing) × (fault ≡ VerifyFault.Missing missing)) }
{
    if !are_closed(materials) {
        return Err(VerifyFault::NotClosed);
    }
    stored_at_images(tables);
    let mut classes = TableSet::new(tables);
    let mut distances = TableSet::new(tables);
    match verify(&mut classes, &mut distances, materials, cells, watcher) {
        Ok(walked) => Ok(walked),
        Err(missing) => Err(VerifyFault::Missing(missing)),
    }
}
