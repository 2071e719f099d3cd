//! The parts and sides of a table's subtables, in file order.
ghost use Rattle.std.specs.Prelude.{◌≡◌, ◌≤◌, ◌<◌, length, All};
ghost use Rattle.szg_build.specs.Dump.{subtable_ids_of};

use szg_file::has_two_sides;
use szg_values::{Kind, Material};

/// Returns part and side of each subtable.
pub(crate) fn places(material: &Material, kind: Kind) -> &'static [(u8, u8)]
    ensures places { result.now ≡ subtable_ids_of material.now kind }
    ensures parts { All (λ place. place.0 < 4) result.now }
    ensures sides { All (λ place. place.1 < 2) result.now }
    ensures few { length result.now ≤ 8 }
{
    match (material.has_pawns(), has_two_sides(material, kind)) {
        (false, false) => &[(0, 0)],
        (false, true) => &[(0, 0), (0, 1)],
        (true, false) => &[(0, 0), (1, 0), (2, 0), (3, 0)],
        (true, true) => &[
            (0, 0),
            (0, 1),
            (1, 0),
            (1, 1),
            (2, 0),
            (2, 1),
            (3, 0),
            (3, 1),
        ],
    }
}
