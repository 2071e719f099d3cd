//! Attacks and checks, by sets of squares: bit n is the square with the number n.

ghost use Rattle.std.specs.Prelude.{ℕ, ◌≡◌, ◌<◌, ◌==◌, ◌&&◌, ◌+◌, if◌then◌else◌};
ghost use Rattle.std.specs.List.{list_any};
ghost use Rattle.szg_values.specs.Men.{is_man, is_color, other_color, code_of, file_of, rank_of};
ghost use Rattle.szg_values.specs.Placement.{AreOnBoard};
ghost use Rattle.szg_values.specs.declared.Man.TheVariants.{Pawn, King};
ghost use Rattle.szg_values.specs.declared.Color.TheVariants.{Black};
ghost use Rattle.szg_chess.specs.Attacks.{distance, files_apart, ranks_apart, is_ahead, is_in_check};
ghost use Rattle.szg_chess.specs.Squares.{is_in, reached_of, squares_of, squares_between, reach_of, attacks_past};

use crate::tables::{reach_by, reach_of, squares_between};
use szg_values::{Color, Man, Square};

/// Returns the distance between two numbers.
fn distance(a: u8, b: u8) -> u8
    ensures { result ≡ distance a b }
{
    if a < b { b - a } else { a - b }
}

/// Returns how many files two squares are apart.
pub(crate) fn files_apart(a: u8, b: u8) -> u8
    ensures { result ≡ files_apart a b }
{
    distance(a % 8, b % 8)
}

/// Returns how many ranks two squares are apart.
pub(crate) fn ranks_apart(a: u8, b: u8) -> u8
    ensures { result ≡ ranks_apart a b }
{
    distance(a / 8, b / 8)
}

/// Returns whether `to` is one rank ahead of `from`, as this colour's pawns advance.
pub(crate) fn is_ahead(color: Color, from: u8, to: u8) -> bool
    requires from { from < 64 }
    requires to { to < 64 }
    ensures { result ≡ is_ahead color from to }
{
    match color {
        Color::White => to / 8 == from / 8 + 1,
        Color::Black => from / 8 == to / 8 + 1,
    }
}

/// Returns the other colour.
pub(crate) fn other_color(color: Color) -> Color
    ensures { result ≡ other_color color }
{
    match color {
        Color::White => Color::Black,
        Color::Black => Color::White,
    }
}

/// Returns whether a man attacks a square, if the men are on these squares.
#[tactic(auto, unfolding(crate::specs::Squares::attacks_past))]
pub(crate) fn attacks_past(occupied: u64, man: &(Man, Color, Square), to: Square) -> bool
    ensures { result ≡ attacks_past occupied man.now to }
{
    is_in(reach_of(man), to.number())
        && squares_between(man.2.number(), to.number()) & occupied == 0
}

/// Returns whether a square is in a set of squares, bit 0 for a1 to bit 63 for h8.
pub fn is_in(squares: u64, square: u8) -> bool
    requires { square < 64 }
    ensures { result ≡ is_in squares square }
{
    squares >> square & 1 == 1
}

/// Returns the squares that men are on.
pub(crate) fn squares_of(men: &[(Man, Color, Square)]) -> u64
    requires { AreOnBoard men.now }
    ensures { result ≡ squares_of men.now }
{
    let mut squares = 0u64;
    for man in men {
        squares |= 1 << man.2.number();
    }
    squares
}

/// Returns the squares of the other colour's men that some man of this colour would attack on an empty board. No branch
/// depends on a man, since a processor could not predict it.
pub(crate) fn reached_by(men: &[(Man, Color, Square)], color: Color) -> u64
    requires { AreOnBoard men.now }
    ensures { result ≡ reached_of men.now color }
{
    let mut reached = 0u64;
    let mut others = 0u64;
    for man in men {
        reached |= reach_by(color, man);
        others |= square_of_other(color, man);
    }
    reached & others
}

/// Returns the square of a man that is not of this colour, as a set; none if it is.
fn square_of_other(color: Color, man: &(Man, Color, Square)) -> u64
    ensures { (square : ℕ) → square < 64 → is_in result square ≡ (is_color (other_color color) man.now.1 && man.now.2 == square) }
{
    u64::from(!is_of(color, man)) << man.2.number()
}

/// Returns whether a man is of a colour.
pub(crate) fn is_of(color: Color, man: &(Man, Color, Square)) -> bool
    ensures { result ≡ is_color color man.now.1 }
{
    man.1 == color
}

/// Returns whether a colour's king is attacked by the other side, if the men are on these squares.
pub(crate) fn is_in_check(men: &[(Man, Color, Square)], occupied: u64, color: Color) -> bool
    requires on_board { AreOnBoard men.now }
    requires squares { occupied ≡ squares_of men.now }
    ensures { result ≡ is_in_check men.now color }
{
    let other = other_color(color);
    is_in_check_by(men, occupied, color, other, reached_by(men, other))
}

/// The same, given the other colour, and the squares of this colour's men that it would reach on an empty board. If there are
/// none, as mostly, no king is looked for.
pub(crate) fn is_in_check_by(
    men: &[(Man, Color, Square)],
    occupied: u64,
    color: Color,
    other: Color,
    reached: u64,
) -> bool
    requires on_board { AreOnBoard men.now }
    requires squares { occupied ≡ squares_of men.now }
    requires other { other ≡ other_color color }
    requires reached { reached ≡ reached_of men.now other }
    ensures { result ≡ is_in_check men.now color }
{
    if reached == 0 {
        return false;
    }
    has_attacked_king(men, occupied, color, other, reached)
}

fn has_attacked_king(
    men: &[(Man, Color, Square)],
    occupied: u64,
    color: Color,
    other: Color,
    reached: u64,
) -> bool
    ensures { result ≡ list_any (λ s. is_man King s.0 && is_color color s.1 && is_in reached s.2 && list_any (λ t. is_color other t.1 && attacks_past occupied t s.2) men.now) men.now }
{
    men.iter().any(|man| {
        man.0 == Man::King
            && man.1 == color
            && is_in(reached, man.2.number())
            && is_attacked(men, occupied, other, man.2)
    })
}

fn is_attacked(men: &[(Man, Color, Square)], occupied: u64, color: Color, square: Square) -> bool
    ensures { result ≡ list_any (λ t. is_color color t.1 && attacks_past occupied t square) men.now }
{
    men.iter().any(|man| man.1 == color && attacks_past(occupied, man, square))
}
