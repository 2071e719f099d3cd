//! Placements: men on squares, and the side to move.

ghost use Rattle.std.specs.Prelude.{◌≡◌, ◌≢◌, ℕ, IsTrue, true, false, ◌<◌, ◌≤◌, ◌+◌, ◌&&◌, ◌||◌, ◌++◌, ◌==◌, ◌/◌, ◌%◌, ◌^◌, length, replicate, Some, None, IsNone, IfSome, IfOk, Ok, Err};
ghost use Rattle.std.specs.List.{list_any};
ghost use Rattle.arrayvec.specs.ArrayVec.{array_vec_len};
ghost use Rattle.szg_values.specs.Material.{is_count};
ghost use Rattle.szg_values.specs.Placement.{AreOnBoard, colored_code, is_barred, men_key, placement_fault, material_of, number_of, has_men, has_distinct_squares, has_pawns_on_inner_ranks, is_taken, side_of};

use crate::materials::{NAME_ORDER, copied, may_be_first};
use crate::men::is_count;
use crate::{Color, Man, Material, Placement, PlacementFault, Square};
use arrayvec::ArrayVec;

impl Placement {
    /// Creates a placement. Errors: the first of the three faults of the men.
    #[tactic(auto, unfolding(crate::specs::Placement::placement_fault))]
    pub fn new(men: &[(Man, Color, Square)], mover: Color) -> Result<Placement, PlacementFault>
        ensures accepted { IsNone (placement_fault men.now) → result ≡ Ok (record { placed_men = men.now; mover = mover }) }
        ensures refused { IfSome (placement_fault men.now) (λ fault. result ≡ Err fault) }
    {
        let key = checked_key(men)?;
        Ok(Placement {
            men: copied(men),
            mover,
            key,
        })
    }

    /// Creates a placement from a list that is moved, not copied. Errors: the first of the three faults of the men.
    #[tactic(auto, unfolding(crate::specs::Placement::placement_fault))]
    pub fn of(
        men: ArrayVec<(Man, Color, Square), 6>,
        mover: Color,
    ) -> Result<Placement, PlacementFault>
        ensures accepted { IsNone (placement_fault men.items) → result ≡ Ok (record { placed_men = men.items; mover = mover }) }
        ensures refused { IfSome (placement_fault men.items) (λ fault. result ≡ Err fault) }
    {
        let key = checked_key(men.as_slice())?;
        Ok(Placement { men, mover, key })
    }

    /// Returns the men in the order given. They have no fault, and are on squares of the board.
    pub fn men(&self) -> &[(Man, Color, Square)]
        ensures men { result.now ≡ self.now.placed_men }
        ensures no_fault { IsNone (placement_fault result.now) }
        ensures on_board { AreOnBoard result.now }
    {
        self.men.as_slice()
    }

    /// Returns the material of the men: White's men and Black's, in the order of a name.
    pub fn material(&self) -> Material
        ensures { result ≡ material_of self.now.placed_men }
    {
        let men = self.men();
        let white = side_of(Color::White, men);
        let black = side_of(Color::Black, men);
        let (first, second) = if may_be_first(white.as_slice(), black.as_slice()) {
            (white, black)
        } else {
            (black, white)
        };
        Material { first, second }
    }

    /// Returns the side to move.
    pub fn mover(&self) -> Color
        ensures { result ≡ self.now.mover }
    {
        self.mover
    }

    /// Returns the number of men of each kind and colour as one number: it has a digit of base 8 for each man code.
    pub fn key(&self) -> u64
        ensures { result ≡ men_key self.now.placed_men }
    {
        self.key
    }
}

/// Returns the key of men that have no fault, in a single pass over the men. Errors: the first fault of the men.
#[tactic(auto, unfolding(crate::specs::Placement::placement_fault))]
fn checked_key(men: &[(Man, Color, Square)]) -> Result<u64, PlacementFault>
    ensures accepted { IsNone (placement_fault men.now) → result ≡ Ok (men_key men.now) }
    ensures refused { IfSome (placement_fault men.now) (λ fault. result ≡ Err fault) }
    ensures on_board { IfOk result (λ key. AreOnBoard men.now) }
{
    if let Some(key) = sound_key(men) {
        return Ok(key);
    }
    if !has_men(men) {
        return Err(PlacementFault::Men);
    }
    if !has_distinct_squares(men) {
        return Err(PlacementFault::SameSquare);
    }
    if !has_pawns_on_inner_ranks(men) {
        return Err(PlacementFault::PawnRank);
    }
    Ok(key_of(men))
}

/// Returns the key of men that have no fault. None if they have one. It is not inlined, so that the caller fills its
/// list in memory.
#[inline(never)]
fn sound_key(men: &[(Man, Color, Square)]) -> Option<u64>
    ensures no_fault { IfSome result (λ key. placement_fault men.now ≡ None) }
    ensures on_board { IfSome result (λ key. AreOnBoard men.now) }
    ensures key { IfSome result (λ key. key ≡ men_key men.now) }
{
    if !is_count(men.len()) {
        return None;
    }
    let mut taken = 0;
    let mut key = 0;
    for man in men {
        taken = with_man(taken, man.0, man.2)?;
        key += man_key(man.0, man.1);
    }
    if has_kings(key) { Some(key) } else { None }
}

/// Returns whether a key has exactly one king of each colour.
pub(crate) fn has_kings(key: u64) -> bool
    ensures { result ≡ (key / 262144 % 8 == 1 && key / 4398046511104 == 1) }
{
    key / 262144 % 8 == 1 && key / 4398046511104 == 1
}

/// Returns the key of at most six men: the sum of what each adds.
pub fn key_of(men: &[(Man, Color, Square)]) -> u64
    requires { length men.now ≤ 6 }
    ensures { result ≡ men_key men.now }
{
    men.iter().map(|man| man_key(man.0, man.1)).sum()
}

/// The squares on which a man may not stand, by his code, a bit for each: for a pawn those of ranks 1 and 8.
const BARRED: [u64; 7] = [0, 0xFF00_0000_0000_00FF, 0, 0, 0, 0, 0];

/// Puts a man on a square: returns `taken`, which has a bit for each square that has a man, with this one's. None if the
/// square is taken, or if the man is a pawn and the square is on rank 1 or 8.
#[inline(always)]
pub fn with_man(taken: u64, man: Man, square: Square) -> Option<u64>
    ensures free { IfSome result (λ more. is_taken taken square ≡ false) }
    ensures inside { IfSome result (λ more. is_barred man square ≡ false) }
    ensures on_board { IfSome result (λ more. square < 64) }
    ensures same { IfSome result (λ more. is_taken more square ≡ true) }
    ensures others { IfSome result (λ more. (other : ℕ) → other ≢ square → is_taken more other ≡ is_taken taken other) }
    ensures refused { IsNone result → IsTrue (is_taken taken square || is_barred man square) }
{
    let number = square.number();
    let closed = (taken | BARRED[usize::from(man.code())]) >> number & 1 == 1;
    if closed {
        return None;
    }
    Some(taken | 1 << number)
}

/// What a man adds to a key, by the code: 8 to its power. A table is quicker than a shift.
const KEYS: [u64; 16] = [
    1,
    8,
    64,
    512,
    4096,
    32768,
    262144,
    2097152,
    16777216,
    134217728,
    1073741824,
    8589934592,
    68719476736,
    549755813888,
    4398046511104,
    35184372088832,
];

/// Returns what a man adds to a placement's key.
#[inline(always)]
pub fn man_key(man: Man, color: Color) -> u64
    ensures key { result ≡ 8 ^ colored_code man color }
    ensures small { result < 2 ^ 60 }
{
    KEYS[usize::from(colored_code(man, color))]
}

/// Returns a man's code: that of his kind, plus 8 for Black. The colours' numbers are 0 and 1, so nothing branches.
fn colored_code(man: Man, color: Color) -> u8
    ensures same { result ≡ colored_code man color }
    ensures below { result < 16 }
{
    man.code() + 8 * (color as u8)
}

/// Returns whether there are three to six men, with exactly one king of each colour.
fn has_men(men: &[(Man, Color, Square)]) -> bool
    ensures { result ≡ has_men men.now }
{
    is_count(men.len())
        && number_of(Man::King, Color::White, men) == 1
        && number_of(Man::King, Color::Black, men) == 1
}

/// Counts the men of a kind and colour.
pub fn number_of(kind: Man, color: Color, men: &[(Man, Color, Square)]) -> usize
    ensures { result ≡ number_of kind color men.now }
{
    men.iter()
        .filter(|man| man.0 == kind && man.1 == color)
        .count()
}

/// Returns whether no two of at most six men are on one square.
pub fn has_distinct_squares(men: &[(Man, Color, Square)]) -> bool
    requires { length men.now ≤ 6 }
    ensures test { result ≡ has_distinct_squares men.now }
    ensures on_board { IsTrue result → AreOnBoard men.now }
{
    for (place, man) in men.iter().enumerate() {
        if is_on_square(man.2.number(), &men[place + 1..]) {
            return false;
        }
    }
    true
}

/// Returns whether some man is on the square with this number.
fn is_on_square(number: u8, men: &[(Man, Color, Square)]) -> bool
    ensures { result ≡ list_any (λ other. number == other.2) men.now }
{
    men.iter().any(|other| other.2.number() == number)
}

/// Returns whether no pawn is on rank 1 or 8.
pub fn has_pawns_on_inner_ranks(men: &[(Man, Color, Square)]) -> bool
    ensures { result ≡ has_pawns_on_inner_ranks men.now }
{
    men.iter().all(|man| man.0 != Man::Pawn || (1..7).contains(&(man.2.number() / 8)))
}

/// Returns a colour's men in name order.
fn side_of(color: Color, men: &[(Man, Color, Square)]) -> ArrayVec<Man, 6>
    requires { length men.now ≤ 6 }
    ensures { result.items ≡ side_of color men.now }
{
    let mut side = ArrayVec::new();
    for kind in NAME_ORDER {
        push_men(&mut side, kind, number_of(kind, color, men));
    }
    side
}

/// Appends `number` men of a kind.
fn push_men(side: &mut ArrayVec<Man, 6>, kind: Man, number: usize)
    requires { array_vec_len side.old + number ≤ 6 }
    ensures { side.new.items ≡ side.old.items ++ replicate number kind }
{
    for placed in 0..number {
        side.push(kind);
    }
}
