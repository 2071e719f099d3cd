//! Where tables were found before.

ghost use Rattle.std.specs.Prelude.{◌≡◌, ◌<◌, IfSome, Some, position};
ghost use Rattle.szg_values.specs.Placement.{material_of};
ghost use Rattle.szg_tables.specs.Hints.{AreHints, IsHint};
ghost use Rattle.szg_tables.specs.Opened.{is_for};

use crate::opened::{OpenTable, first_for, is_for};
use szg_values::{Kind, PlacedMen};

/// As many hints are kept. Each is 0, or one more than the number of a table.
pub(crate) const HINTS: usize = 1024;

/// Returns the number of the first table of a kind for these men. It looks where the last two tables that share a hint
/// were found, then at all tables.
pub(crate) fn find<T: OpenTable>(
    tables: &[T],
    hints: &mut [u16; HINTS],
    kind: Kind,
    men: &PlacedMen<'_>,
) -> Option<usize>
    requires { AreHints T.opened tables.now hints.old }
    ensures found { result ≡ position (λ t. is_for kind (material_of men.now.placed_men) (T.opened t).index) tables.now }
    ensures hints { AreHints T.opened tables.now hints.new }
{
    let place = place_of(kind, men.key());
    let other = HINTS - 1 - place;
    if let Some(n) = hinted(tables, hints[place], kind, men) {
        return Some(n);
    }
    if let Some(n) = hinted(tables, hints[other], kind, men) {
        return Some(n);
    }
    let n = first_for(tables, kind, men)?;
    if n < 65_535 {
        hints[other] = hints[place];
        hints[place] = n as u16 + 1;
    }
    Some(n)
}

/// Returns the number of the table that a hint names, if it is of a kind for these men.
fn hinted<T: OpenTable>(tables: &[T], hint: u16, kind: Kind, men: &PlacedMen<'_>) -> Option<usize>
    requires { IsHint T.opened tables.now hint }
    ensures { IfSome result (λ n. position (λ t. is_for kind (material_of men.now.placed_men) (T.opened t).index) tables.now ≡ Some n) }
{
    if hint == 0 {
        return None;
    }
    let n = usize::from(hint - 1);
    if is_for(tables[n].index(), kind, men) {
        Some(n)
    } else {
        None
    }
}

/// Returns the place of a hint: one half of the places is for each kind, and materials are spread over it by their keys.
fn place_of(kind: Kind, key: u64) -> usize
    ensures { result < 1024 }
{
    let mixed = (key.wrapping_mul(0x9E37_79B9_7F4A_7C15) >> 55) as usize % 512;
    match kind {
        Kind::Wdl => mixed,
        Kind::Dtz => 512 + mixed,
    }
}
