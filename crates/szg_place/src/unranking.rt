//! The placement of an index, and the squares of its men, group by group.

ghost use Rattle.std.specs.Prelude.{◌≡◌, ◌+◌, ◌++◌, ◌<◌, ◌≤◌, ◌==◌, ◌&&◌, ℕ, List, [], length, None, IsNone, IsSome, IfSome, Ok, Err, Some, slice_get, if◌then◌else◌};
ghost use Rattle.std.specs.List.{concat, zip};
ghost use Rattle.arrayvec.specs.ArrayVec.{array_vec_len};
ghost use Rattle.szg_count.specs.Groups.{IsPart, Nibbles, order_fault, counted, product};
ghost use Rattle.szg_count.specs.Laws.{IsIn};
ghost use Rattle.szg_count.specs.Views.{groups_in_slot_order};
ghost use Rattle.szg_file.specs.Index.{slot_in};
ghost use Rattle.szg_values.specs.Material.{has_pawns, is_symmetric};
ghost use Rattle.szg_values.specs.Placement.{PlacedMan};
ghost use Rattle.szg_place.specs.Known.{ComesAfterGroups};
ghost use Rattle.szg_place.specs.Layout.{is_dtz};
ghost use Rattle.szg_place.specs.Spots.{board_at, men_on_squares, ordered_sets, placement_refusal, ranks_of_index, squares_of_ranks};
ghost use Rattle.szg_place.specs.Tables.{numbering_in};

use crate::free_squares::unrank_free_squares;
use crate::kings::unrank_kings;
use crate::lead_pawns::unrank_lead_pawns;
use crate::stored_side::{side_in, stored_side};
use crate::triples::unrank_triple;
use crate::{PlaceFault, Spot};
use arrayvec::ArrayVec;
use szg_count::{MaterialInfo, SideGroups};
use szg_file::TableIndex;
use szg_values::{Color, Kind, MAX_MEN, Man, Placement, Square};

/// Returns the placement at a spot: the inverse of `locate`. The name's first side is White; the side to move is the
/// subtable's side (in DTZ the stored one; White if both sides have the same men). The men are listed in the order of
/// the subtable's list of men: those of a later group from the greatest square down, the lead pawns from the greatest
/// value P (`ptwist` in the probing code) down, other lead men as in their ordered list. Allocates nothing.
///
/// Errors, the first that applies: `Irregular`; `WrongSide` for a DTZ subtable that stores Black although both sides
/// have the same men and there are pawns.
pub fn placement(index: &TableIndex, spot: Spot) -> Result<Placement, PlaceFault>
    requires there { IsSome (slot_in index.now spot.part spot.side) }
    requires below { IfSome (slot_in index.now spot.part spot.side) (λ slot. spot.index < slot.size) }
    // The first fault that applies is returned.
    ensures refused { IfSome (placement_refusal (numbering_in index.now) spot.part spot.side) (λ fault. result ≡ Err fault) }
    ensures placed { IsNone (placement_refusal (numbering_in index.now) spot.part spot.side) → result ≡ Ok (board_at (numbering_in index.now) spot.part spot.side spot.index) }
{
    let (material, kind) = (index.material_info(), index.kind());
    let grouped = index.groups(spot.part, spot.side);
    if !grouped.regular {
        return Err(PlaceFault::Irregular);
    }
    let stored = stored_side(index.flags(), spot.part);
    if has_no_placements(material, kind, stored) {
        return Err(PlaceFault::WrongSide);
    }
    let squares = squares_at(material, spot.part, grouped, spot.index);
    let men = men_on_squares(grouped.order.men.as_slice(), squares.as_slice());
    let mover = mover_at(material, kind, stored, spot.side);
    let Ok(placement) = Placement::new(men.as_slice(), mover) else {
        unreachable!()
    };
    Ok(placement)
}

// Returns men with these codes on these squares.
fn men_on_squares(codes: &[u8], squares: &[u8]) -> ArrayVec<(Man, Color, Square), MAX_MEN>
    requires few { length codes.now ≤ 6 }
    requires same { length squares.now ≡ length codes.now }
    requires inside { (placed_men : PlacedMan) → IsIn placed_men (men_on_squares codes.now squares.now) → placed_men.2 < 64 }
    ensures { result.items ≡ men_on_squares codes.now squares.now }
{
    let mut men = ArrayVec::new();
    for (i, code) in codes.iter().enumerate() {
        let Some(square) = Square::new(squares[i]) else {
            unreachable!()
        };
        men.push((Man::of_code(*code), Color::of_code(*code), square));
    }
    men
}

// Returns whether a DTZ subtable stores Black although both sides have the same men and there are pawns. No placement
// has an index in it: if Black is to move, the colours are exchanged first, so the side to move is always 0.
fn has_no_placements(material: &MaterialInfo, kind: Kind, stored: u8) -> bool
    ensures { result ≡ (is_dtz kind && is_symmetric material.now && has_pawns material.now && stored == 1) }
{
    matches!(kind, Kind::Dtz) && material.symmetric() && material.has_pawns() && stored == 1
}

// Returns the colour to move: White if both sides have the same men; otherwise White for side 0 and Black for side 1.
// In WDL this is the subtable's side, in DTZ the side that the subtable stores.
fn mover_at(material: &MaterialInfo, kind: Kind, stored: u8, side: u8) -> Color
    ensures { result ≡ (if is_symmetric material.now then Color.White else if (if is_dtz kind then stored else side) == 0 then Color.White else Color.Black) }
{
    if material.symmetric() || side_in(kind, stored, side) == 0 {
        Color::White
    } else {
        Color::Black
    }
}

// Returns the men's squares in the placement of an index, group by group.
fn squares_at(
    material: &MaterialInfo,
    part: u8,
    grouped: &SideGroups,
    index: u64,
) -> ArrayVec<u8, MAX_MEN>
    ghost given: { Nibbles × List (List ℕ) }
    requires part { IsPart material.now part }
    requires ordered { order_fault material.now given.0 ≡ None }
    requires groups { grouped.now.groups ≡ groups_in_slot_order (counted material.now part given.0) }
    requires below { index < product (counted material.now part given.0).ways }
    requires stated { given.1 ≡ squares_of_ranks material.now part [] (zip (counted material.now part given.0).groups (ranks_of_index (counted material.now part given.0) index)) }
    requires few { length (concat given.1) ≤ 6 }
    ensures { result.items ≡ concat given.1 }
{
    // for proofs alone: a material is the men of a name
    let _ = material.material();
    let groups = &grouped.groups;
    let mut squares = ArrayVec::new();
    for i in 0..groups.count() {
        let group = groups.group(i);
        let number = index / group.factor % group.ways;
        let set = unrank_group(material, part, i, squares.as_slice(), group.length, number);
        append(&mut squares, set.as_slice());
    }
    squares
}

// Returns the squares of set `number` in a group's ordered list. `group` is the group's number in slot order, `taken`
// has the squares of the groups before it.
fn unrank_group(
    material: &MaterialInfo,
    part: u8,
    group: usize,
    taken: &[u8],
    size: u8,
    number: u64,
) -> ArrayVec<u8, MAX_MEN>
    ghost before: { List (List ℕ) }
    requires following { ComesAfterGroups material.now part group taken.now before }
    requires few { size ≤ 6 }
    requires below { number < length (ordered_sets material.now part before size) }
    ensures { slice_get (ordered_sets material.now part before size) number ≡ Some result.items }
{
    if group > 0 {
        // only the first later group may have the other pawns: those of the colour that does not lead
        let pawns = (material.other_pawns() > 0) & (group == 1);
        return unrank_free_squares(size, number, taken, pawns);
    }
    // for proofs alone: a material is the men of a name, so at most four pawns lead
    let _ = material.material();
    if material.has_pawns() {
        unrank_lead_pawns(material.lead_pawns(), part, number)
    } else if material.single_lead() {
        copied(&unrank_triple(number))
    } else {
        copied(&unrank_kings(number))
    }
}

fn copied(squares: &[u8]) -> ArrayVec<u8, MAX_MEN>
    requires { length squares.now ≤ 6 }
    ensures { result.items ≡ squares.now }
{
    let mut copy = ArrayVec::new();
    let _ = copy.try_extend_from_slice(squares);
    copy
}

/// Appends `more` to `squares`.
pub(crate) fn append(squares: &mut ArrayVec<u8, MAX_MEN>, more: &[u8])
    requires { array_vec_len squares.old + length more.now ≤ 6 }
    ensures { squares.new.items ≡ squares.old.items ++ more.now }
{
    for square in more {
        squares.push(*square);
    }
}
