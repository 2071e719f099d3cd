//! Sets of materials that captures and promotions do not leave.

ghost use Rattle.std.specs.Prelude.{◌≡◌, ◌+◌, ◌≤◌, ◌++◌, ◌∷◌, [], ◌&&◌, ◌||◌, not, length, count_by, Bool, List};
ghost use Rattle.std.specs.List.{list_all, list_any};
ghost use Rattle.arrayvec.specs.ArrayVec.{array_vec_len};
ghost use Rattle.szg_values.specs.Men.{is_man};
ghost use Rattle.szg_values.specs.Material.{Sides, is_same_men};
ghost use Rattle.szg_values.specs.declared.Man.{Man};
ghost use Rattle.szg_verify.specs.Materials.{are_closed, changed_from, changes, has_man, is_listed, is_same_material, leads_to, without};
ghost use Rattle.szg_verify.specs.Walk.{side_in};

use crate::walk::colored_men;
use arrayvec::ArrayVec;
use szg_values::{Color, Man, Material, NAME_ORDER};

/// The men that may be captured.
const CAPTURED: [Man; 5] = [Man::Queen, Man::Rook, Man::Bishop, Man::Knight, Man::Pawn];

/// What a pawn may be promoted to.
const PROMOTED: [Man; 4] = [Man::Queen, Man::Rook, Man::Bishop, Man::Knight];

/// A test of a material. It does not matter which side is first.
trait MaterialTest {
    // whether a material passes
    ghost passes: { Self → Sides → Bool };

    /// Returns whether the material with the men of two sides passes.
    fn pass(&self, first: &[Man], second: &[Man]) -> bool
        ensures { result ≡ passes self.now (record { first = first.now; second = second.now }) };

    /// A law: exchanging the sides does not change the test.
    fn is_same_exchanged(&self)
        ensures { (a b : List Man) → passes self.now (record { first = a; second = b }) ≡ passes self.now (record { first = b; second = a }) };
}

/// Whether a material is one of these, or the two kings.
#[derive(Clone, Copy)]
struct IsListed<'a> {
    materials: &'a [Material],
}

impl<'a> MaterialTest for IsListed<'a> {
    ghost passes = { λ test. is_listed test.materials.now };

    fn pass(&self, first: &[Man], second: &[Man]) -> bool {
        is_listed(first, second, self.materials)
    }

    fn is_same_exchanged(&self) {}
}

/// Whether a material is not this one.
#[derive(Clone, Copy)]
struct IsAnother<'a> {
    material: &'a Material,
}

impl<'a> MaterialTest for IsAnother<'a> {
    ghost passes = { λ test sides. not (is_same_material sides test.material.now) };

    fn pass(&self, first: &[Man], second: &[Man]) -> bool {
        !is_material(first, second, self.material)
    }

    fn is_same_exchanged(&self) {}
}

/// Returns whether each capture and each promotion leads from one of the materials to one of them, or to the two kings.
pub fn are_closed(materials: &[Material]) -> bool
    ensures { result ≡ are_closed materials.now }
{
    materials
        .iter()
        .all(|material| are_changes_listed(material, materials))
}

/// Returns whether each capture and each promotion leads from a material to one of the list, or to the two kings.
fn are_changes_listed(material: &Material, materials: &[Material]) -> bool
    ensures { result ≡ list_all (is_listed materials.now) (changes material.now) }
{
    do_changes_pass(material, &IsListed { materials })
}

/// Returns whether a capture or a promotion leads from a material to the other one.
pub fn leads_to(material: &Material, other: &Material) -> bool
    ensures { result ≡ leads_to material.now other.now }
{
    !do_changes_pass(material, &IsAnother { material: other })
}

/// Returns whether each capture and each promotion leads from a material to one that passes.
fn do_changes_pass<T: MaterialTest>(material: &Material, test: &T) -> bool
    ensures { result ≡ list_all (T.passes test.now) (changes material.now) }
{
    let men = colored_men(material);
    let first = side_of(Color::White, &men);
    let second = side_of(Color::Black, &men);
    test.is_same_exchanged();
    let by_first = do_side_changes_pass(&first, &second, test);
    let by_second = do_side_changes_pass(&second, &first, test);
    both(by_first, by_second)
}

/// Returns the men of a color.
fn side_of(color: Color, men: &ArrayVec<(Man, Color), 6>) -> ArrayVec<Man, 6>
    ensures { result.items ≡ side_in color men.now.items }
{
    let mut side = ArrayVec::new();
    for man in men.as_slice() {
        if man.1 == color {
            side.push(man.0);
        }
    }
    side
}

/// Returns whether each capture of a side's man and each promotion of its pawn leads to a material that passes.
fn do_side_changes_pass<T: MaterialTest>(
    side: &ArrayVec<Man, 6>,
    other: &ArrayVec<Man, 6>,
    test: &T,
) -> bool
    ensures { result ≡ list_all (λ changed. T.passes test.now (record { first = changed; second = other.now.items })) (changed_from side.now.items) }
{
    let captures = do_captures_pass(side, other, test);
    let promotions = do_promotions_pass(side, other, test);
    both(captures, promotions)
}

/// Returns whether each capture of a side's man leads to a material that passes.
fn do_captures_pass<T: MaterialTest>(
    side: &ArrayVec<Man, 6>,
    other: &ArrayVec<Man, 6>,
    test: &T,
) -> bool
    ensures { result ≡ list_all (λ man. not (has_man side.now.items man) || T.passes test.now (record { first = without man side.now.items; second = other.now.items })) (Man.Queen ∷ Man.Rook ∷ Man.Bishop ∷ Man.Knight ∷ Man.Pawn ∷ []) }
{
    CAPTURED
        .iter()
        .all(|man| does_capture_pass(*man, side, other, test))
}

/// Returns whether a side has no such man, or its capture leads to a material that passes.
fn does_capture_pass<T: MaterialTest>(
    man: Man,
    side: &ArrayVec<Man, 6>,
    other: &ArrayVec<Man, 6>,
    test: &T,
) -> bool
    ensures { result ≡ (not (has_man side.now.items man) || T.passes test.now (record { first = without man side.now.items; second = other.now.items })) }
{
    if !has_man(side.as_slice(), man) {
        return true;
    }
    let mut left = ArrayVec::new();
    push_without(&mut left, man, side.as_slice());
    test.pass(left.as_slice(), other.as_slice())
}

fn both(first: bool, second: bool) -> bool
    ensures { result ≡ (first && second) }
{
    first && second
}

/// Returns whether a side has no pawn, or each promotion of one leads to a material that passes.
fn do_promotions_pass<T: MaterialTest>(
    side: &ArrayVec<Man, 6>,
    other: &ArrayVec<Man, 6>,
    test: &T,
) -> bool
    ensures { result ≡ (not (has_man side.now.items Man.Pawn) || list_all (λ piece. T.passes test.now (record { first = piece ∷ without Man.Pawn side.now.items; second = other.now.items })) (Man.Queen ∷ Man.Rook ∷ Man.Bishop ∷ Man.Knight ∷ [])) }
{
    if !has_man(side.as_slice(), Man::Pawn) {
        return true;
    }
    does_each_promotion_pass(side, other, test)
}

/// Returns whether a promotion of a side's pawn to each piece leads to a material that passes.
fn does_each_promotion_pass<T: MaterialTest>(
    side: &ArrayVec<Man, 6>,
    other: &ArrayVec<Man, 6>,
    test: &T,
) -> bool
    ensures { result ≡ list_all (λ piece. T.passes test.now (record { first = piece ∷ without Man.Pawn side.now.items; second = other.now.items })) (Man.Queen ∷ Man.Rook ∷ Man.Bishop ∷ Man.Knight ∷ []) }
{
    PROMOTED
        .iter()
        .all(|piece| does_promotion_pass(*piece, side, other, test))
}

/// Returns whether a promotion of a side's pawn to the piece leads to a material that passes.
fn does_promotion_pass<T: MaterialTest>(
    piece: Man,
    side: &ArrayVec<Man, 6>,
    other: &ArrayVec<Man, 6>,
    test: &T,
) -> bool
    ensures { result ≡ T.passes test.now (record { first = piece ∷ without Man.Pawn side.now.items; second = other.now.items }) }
{
    let mut promoted = ArrayVec::new();
    promoted.push(piece);
    push_without(&mut promoted, Man::Pawn, side.as_slice());
    test.pass(promoted.as_slice(), other.as_slice())
}

/// Appends the men of a side without one of the kind.
fn push_without(men: &mut ArrayVec<Man, 7>, man: Man, side: &[Man])
    requires { array_vec_len men.old + length side.now ≤ 7 }
    ensures { men.new.items ≡ men.old.items ++ without man side.now }
{
    let mut is_taken = false;
    for other in side {
        if !is_taken && is_same(man, *other) {
            is_taken = true;
        } else {
            men.push(*other);
        }
    }
}

fn is_same(man: Man, other: Man) -> bool
    ensures { result ≡ is_man man other }
{
    man == other
}

/// Returns whether a side has such a man.
fn has_man(side: &[Man], man: Man) -> bool
    ensures { result ≡ has_man side.now man }
{
    side.iter().any(|other| is_same(man, *other))
}

/// Returns whether the men of two sides are one of the materials, or the two kings.
fn is_listed(first: &[Man], second: &[Man], materials: &[Material]) -> bool
    ensures { result ≡ is_listed materials.now (record { first = first.now; second = second.now }) }
{
    let king = [Man::King];
    is_same_pair(first, second, &king, &king) || is_among(first, second, materials)
}

/// Returns whether the men of two sides are one of the materials.
fn is_among(first: &[Man], second: &[Man], materials: &[Material]) -> bool
    ensures { result ≡ list_any (is_same_material (record { first = first.now; second = second.now })) materials.now }
{
    materials
        .iter()
        .any(|material| is_material(first, second, material))
}

/// Returns whether the men of two sides are those of the material.
fn is_material(first: &[Man], second: &[Man], material: &Material) -> bool
    ensures { result ≡ is_same_material (record { first = first.now; second = second.now }) material.now }
{
    let men = colored_men(material);
    let white = side_of(Color::White, &men);
    let black = side_of(Color::Black, &men);
    is_same_pair(first, second, white.as_slice(), black.as_slice())
}

/// Returns whether two sides have the men of two others, in either order.
fn is_same_pair(first: &[Man], second: &[Man], white: &[Man], black: &[Man]) -> bool
    ensures { result ≡ is_same_material (record { first = first.now; second = second.now }) (record { first = white.now; second = black.now }) }
{
    (is_same_men(first, white) && is_same_men(second, black))
        || (is_same_men(first, black) && is_same_men(second, white))
}

/// Returns whether two sides have the same number of men of each kind.
fn is_same_men(side: &[Man], other: &[Man]) -> bool
    ensures { result ≡ is_same_men side.now other.now }
{
    NAME_ORDER
        .iter()
        .all(|kind| count(*kind, side) == count(*kind, other))
}

/// Counts the men of a kind.
fn count(kind: Man, side: &[Man]) -> usize
    ensures { result ≡ count_by (is_man kind) side.now }
{
    side.iter().filter(|man| **man == kind).count()
}
