//! The side that a table stores.

ghost use Rattle.std.specs.Prelude.{◌≡◌, ◌%◌, ◌&&◌, [], slice_index, if◌then◌else◌};
ghost use Rattle.szg_place.specs.Layout.{is_dtz, layout_in};
ghost use Rattle.szg_place.specs.Spots.{is_wrong_side};

use szg_count::MaterialInfo;
use szg_values::Kind;

/// Returns a side by a table's kind: `side` in WDL, `stored` in DTZ, where each part has one subtable.
pub(crate) fn side_in(kind: Kind, stored: u8, side: u8) -> u8
    ensures { result ≡ (if is_dtz kind then stored else side) }
{
    match kind {
        Kind::Wdl => side,
        Kind::Dtz => stored,
    }
}

/// Returns whether a DTZ subtable stores another side to move than `queried`. False in WDL, and if both sides have the
/// same men and there are no pawns.
pub(crate) fn is_wrong_side(
    material: &MaterialInfo,
    kind: Kind,
    flags: &[u8],
    part: u8,
    queried: u8,
) -> bool
    ensures { result ≡ is_wrong_side (layout_in kind material.now [] flags.now) part queried }
{
    matches!(kind, Kind::Dtz)
        && !(material.symmetric() && !material.has_pawns())
        && stored_side(flags, part) != queried
}

/// Returns the side to move whose values a DTZ table stores for a part: the lowest bit of the part's flags; 0 if it has
/// none.
pub(crate) fn stored_side(flags: &[u8], part: u8) -> u8
    ensures { result ≡ slice_index flags.now part % 2 }
{
    let part = usize::from(part);
    if part < flags.len() {
        flags[part] % 2
    } else {
        0
    }
}
