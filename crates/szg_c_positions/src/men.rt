//! Placements as C passes them.
ghost use Rattle.std.specs.Prelude.{◌≡◌, ◌<◌, ◌≤◌, ◌&&◌, ◌⊎◌, IsTrue, IsFalse, IfErr, IfOk, IfSome, IsNone, MatchResult, Ok, length, map, nat_lt, true, []};
ghost use Rattle.std.specs.declared.option.Option.TheVariants.{None, Some};
ghost use Rattle.std.specs.List.{list_all};
ghost use Rattle.szg_values.specs.Placement.{AreStanding, men_key};
ghost use Rattle.szg_c_positions.specs.Men.{ArePut, HaveFault, IsWritten, board_of, coded_man, color_of as color_stated, with_room, is_coded_man, placement_status, placed_man_of};

use crate::status::{DONE, MAN, MEN, PAWN_RANK, RANGE, SAME_SQUARE};
use arrayvec::ArrayVec;
use szg_values::{
    Color, MAX_MEN, Man, PlacedMen, Placement, PlacementFault, Square, man_key, with_man,
};

/// A man on a square, as three numbers.
#[repr(C)]
#[derive(Clone, Copy, Default)]
pub struct RawMan {
    /// Pawn 1, knight 2, bishop 3, rook 4, queen 5, king 6, as in a file and in python-chess.
    pub kind: u8,
    /// White 0, Black 1.
    pub color: u8,
    /// a1 = 0, b1 = 1, .. h8 = 63.
    pub square: u8,
}

/// Puts the men on their squares, into an empty list; returns their key. None if there is an error that a single man or two
/// men show, or the side to move is no number of a colour: then `placement_or_fault` returns it.
#[inline(always)]
pub fn key_of_men(
    men: &[RawMan],
    mover: u8,
    placed_men: &mut ArrayVec<(Man, Color, Square), MAX_MEN>,
) -> Option<u64>
    requires { placed_men.old.items ≡ [] }
    ensures put { IfSome result (λ key. ArePut men.now mover placed_men.new.items key) }
    ensures fault { IsNone result → HaveFault men.now mover }
{
    if mover >= 2 {
        return None;
    }
    if men.len() > MAX_MEN {
        return None;
    }
    put_men(men, placed_men)
}

/// Returns the placement of men that `key_of_men` put into a list, without a copy of the list. None if there is an error:
/// then `placement_or_fault` returns it.
#[inline(always)]
pub fn sound_men<'a>(
    men: &[RawMan],
    mover: u8,
    placed_men: &'a ArrayVec<(Man, Color, Square), MAX_MEN>,
    key: u64,
) -> Option<PlacedMen<'a>>
    requires { ArePut men.now mover placed_men.now.items key }
    ensures { IfSome result (λ placement. board_of men.now mover ≡ Ok placement) }
{
    PlacedMen::of_standing(placed_men.as_slice(), color_of(mover), key)
}

/// Puts the men on their squares, into an empty list; returns their key. None if a man's numbers are invalid, two men are
/// on one square, or a pawn is on rank 1 or 8.
#[inline(always)]
fn put_men(men: &[RawMan], placed_men: &mut ArrayVec<(Man, Color, Square), MAX_MEN>) -> Option<u64>
    requires few { length men.now ≤ 6 }
    requires empty { placed_men.old.items ≡ [] }
    ensures reported { IfSome result (λ key. list_all is_coded_man men.now ≡ true) }
    ensures placed { IfSome result (λ key. placed_men.new.items ≡ map placed_man_of men.now) }
    ensures standing { IfSome result (λ key. AreStanding (map placed_man_of men.now)) }
    ensures key { IfSome result (λ key. key ≡ men_key (map placed_man_of men.now)) }
    ensures fault { IsNone result → IsTrue (list_all is_coded_man men.now) → ¬ AreStanding (map placed_man_of men.now) }
{
    let mut taken = 0;
    let mut key = 0;
    for man in men {
        let placed_man = placed_man_of(man)?;
        taken = with_man(taken, placed_man.0, placed_man.2)?;
        key += man_key(placed_man.0, placed_man.1);
        placed_men.push(placed_man);
    }
    Some(key)
}

/// Returns the placement of these men with this side to move (White 0, Black 1), by one check after the other. Errors: the
/// first status that applies, of `MAN` for an invalid number, `MEN`, `SAME_SQUARE` and `PAWN_RANK`.
#[inline(never)]
#[tactic(auto, unfolding(crate::specs::Men::board_of))]
pub fn placement_or_fault(men: &[RawMan], mover: u8) -> Result<Placement, u32>
    ensures { result ≡ board_of men.now mover }
{
    match decoded_men(men, mover) {
        Ok(placed_men) => Placement::of(placed_men, color_of(mover)).map_err(placement_status),
        Err(status) => Err(status),
    }
}

/// Decodes the men, if the side to move is a colour's number. Errors: the first status that applies, of `MAN` for an invalid
/// number and `MEN` for more than six men.
pub(crate) fn decoded_men(
    men: &[RawMan],
    mover: u8,
) -> Result<ArrayVec<(Man, Color, Square), MAX_MEN>, u32>
    ensures placed { IfOk result (λ placed_men. IsTrue (nat_lt mover 2 && list_all is_coded_man men.now) × (placed_men.items ≡ map placed_man_of men.now)) }
    ensures fault { IfErr result (λ status. ((status ≡ 6) × IsFalse (nat_lt mover 2 && list_all is_coded_man men.now)) ⊎ ((status ≡ 7) × IsTrue (nat_lt mover 2 && list_all is_coded_man men.now) × (6 < length men.now))) }
{
    if mover >= 2 || !are_coded_men(men) {
        return Err(MAN);
    }
    if men.len() > MAX_MEN {
        return Err(MEN);
    }
    placed_men(men).ok_or(MAN)
}

/// Whether each man's numbers encode a kind, a colour and a square.
fn are_coded_men(men: &[RawMan]) -> bool
    ensures { result ≡ list_all is_coded_man men.now }
{
    men.iter().all(|man| is_coded_man(man))
}

fn is_coded_man(man: &RawMan) -> bool
    ensures { result ≡ is_coded_man man.now }
{
    0 < man.kind && man.kind < 7 && man.color < 2 && man.square < 64
}

/// Decodes at most six men. None if a man's numbers are invalid.
fn placed_men(men: &[RawMan]) -> Option<ArrayVec<(Man, Color, Square), MAX_MEN>>
    requires { length men.now ≤ 6 }
    ensures reported { IfSome result (λ placed_men. IsTrue (list_all is_coded_man men.now) × (placed_men.items ≡ map placed_man_of men.now)) }
    ensures unstated { IsNone result → IsFalse (list_all is_coded_man men.now) }
{
    let mut placed_men = ArrayVec::new();
    for man in men {
        placed_men.push(placed_man_of(man)?);
    }
    Some(placed_men)
}

fn placed_man_of(man: &RawMan) -> Option<(Man, Color, Square)>
    ensures reported { IsTrue (is_coded_man man.now) → result ≡ Some (placed_man_of man.now) }
    ensures unstated { IsFalse (is_coded_man man.now) → result ≡ None }
{
    let kind = match man.kind {
        1 => Man::Pawn,
        2 => Man::Knight,
        3 => Man::Bishop,
        4 => Man::Rook,
        5 => Man::Queen,
        6 => Man::King,
        _ => return None,
    };
    if man.color >= 2 {
        return None;
    }
    let square = Square::new(man.square)?;
    Some((kind, color_of(man.color), square))
}

pub(crate) fn color_of(color: u8) -> Color
    ensures { result ≡ color_stated color }
{
    if color == 0 {
        Color::White
    } else {
        Color::Black
    }
}

/// Returns the status for a fault of men.
fn placement_status(fault: PlacementFault) -> u32
    ensures { result ≡ placement_status fault }
{
    match fault {
        PlacementFault::Men => MEN,
        PlacementFault::SameSquare => SAME_SQUARE,
        PlacementFault::PawnRank => PAWN_RANK,
    }
}

/// Writes the men of a placement to the beginning of a list, their number, and the side to move.
///
/// Errors: `RANGE` if there are more men than the list has items. Then all stays.
pub fn write_placement(
    placement: &Placement,
    men: &mut [RawMan],
    count: &mut usize,
    mover: &mut u8,
) -> u32
    ensures reported { MatchResult (with_room (length men.old) (Ok placement.now)) (λ board. (result ≡ DONE) × IsWritten board men.old men.new count.new mover.new) (λ status. result ≡ status) }
    ensures stays { (result ≡ DONE → ⊥) → (men.new ≡ men.old) × (count.new ≡ count.old) × (mover.new ≡ mover.old) }
{
    let placed = placement.men();
    if men.len() < placed.len() {
        return RANGE;
    }
    let coded = coded_men(placed);
    men[..placed.len()].copy_from_slice(&coded);
    *count = placed.len();
    *mover = placement.mover() as u8;
    DONE
}

/// Returns men as numbers.
pub(crate) fn coded_men(placed: &[(Man, Color, Square)]) -> ArrayVec<RawMan, MAX_MEN>
    requires { length placed.now ≤ 6 }
    ensures { result.items ≡ map coded_man placed.now }
{
    let mut coded = ArrayVec::new();
    for (kind, color, square) in placed {
        coded.push(RawMan {
            kind: kind.code(),
            color: *color as u8,
            square: square.number(),
        });
    }
    coded
}
