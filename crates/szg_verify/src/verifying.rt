//! The verification of the tables of materials.

ghost use Rattle.std.specs.Prelude.{◌≡◌, IfOk, IfSome, IsNone, IsTrue, Contains, Some, min, sum_by};
ghost use Rattle.szg_values.specs.Material.{Sides};
ghost use Rattle.szg_game.specs.declared.Class.{Class};
ghost use Rattle.szg_chess.specs.Position.{Position, IsPosition};
ghost use Rattle.szg_probe.specs.Chess.{ChessClass};
ghost use Rattle.szg_probe.specs.Probing.{probed};
ghost use Rattle.szg_verify.specs.Entries.{tables_of};
ghost use Rattle.szg_verify.specs.Verified.{AreSymmetric};
ghost use Rattle.szg_verify.specs.Materials.{are_closed, covers};
ghost use Rattle.szg_verify.specs.Walk.{IsCountTo, IsMaterialChecked, IsRefusedOf, material_count};

use crate::{Cell, DtzTables, Walked, Watcher, number_count, verify_range};
use szg_probe::Tables;
use szg_values::Material;

/// Checks each position of these materials, but for images, up to the first that does not pass.
///
/// Errors: those of the tables.
pub fn verify<T: Tables, D: DtzTables<Fault = T::Fault>, W: Watcher>(
    classes: &mut T,
    distances: &mut D,
    materials: &[Material],
    cells: &mut [Cell],
    watcher: &mut W,
) -> Result<Walked, T::Fault>
    ensures same_classes { T.stored classes.new ≡ T.stored classes.old }
    ensures same_distances { D.distances distances.new ≡ D.distances distances.old }
    ensures checked { IfOk result (λ w. IsNone w.refused → (sides : Sides) → Contains materials.now sides → IsMaterialChecked (tables_of (T.stored classes.old) (D.distances distances.old)) sides) }
    // If the materials are closed, and the tables store the same for images, each probe of a position of these materials
    // returns its class in chess.
    ensures true_classes { IfOk result (λ w. IsNone w.refused → IsTrue (are_closed materials.now) → AreSymmetric (tables_of (T.stored classes.old) (D.distances distances.old)) →
        (p : Position) → IsPosition p → IsTrue (covers materials.now p.placed_men) → (k : Class) × (probed (T.stored classes.old) p ≡ Some k) × ChessClass p k) }
    // Each position counts once, up to the first that does not pass.
    ensures counted { IfOk result (λ w. IsNone w.refused → w.positions ≡ min (sum_by material_count materials.now) u64.MAX) }
    ensures counted_to { IfOk result (λ w. IfSome w.refused (λ r. IsCountTo materials.now r.number r.position w.positions)) }
    ensures refused { IfOk result (λ w. IfSome w.refused (λ r. IsRefusedOf (tables_of (T.stored classes.old) (D.distances distances.old)) materials.now r.number r.position r.condition)) }
{
    let mut positions: u64 = 0;
    for material in materials {
        let count = number_count(material);
        let walked = verify_range(classes, distances, material, 0, count, cells, watcher);
        watcher.end();
        let walked = match walked {
            Ok(walked) => walked,
            Err(fault) => return Err(fault),
        };
        positions = positions.saturating_add(walked.positions);
        if walked.refused.is_some() {
            return Ok(Walked {
                positions,
                refused: walked.refused,
            });
        }
    }
    Ok(Walked {
        positions,
        refused: None,
    })
}
