//! Positions: which men make one, and what it says of itself.

ghost use Rattle.std.specs.Prelude.{◌≡◌, ◌<◌, ◌≤◌, ◌==◌, ◌&&◌, not, length, count_by, IsNone, IfSome, Some, None, Ok, Err, option_map, option_copied};
ghost use Rattle.std.specs.List.{find};
ghost use Rattle.std.specs.Option.{ForSome};
ghost use Rattle.szg_values.specs.Men.{other_color, file_of, square_at};
ghost use Rattle.szg_values.specs.Placement.{AreOnBoard, AreStanding, men_key, number_of, has_distinct_squares, has_pawns_on_inner_ranks};
ghost use Rattle.szg_chess.specs.Attacks.{is_occupied, is_in_check, reaches_other};
ghost use Rattle.szg_chess.specs.Position.{IsPosition, men_fault, state_fault, position_fault, has_two_to_six, has_kings, without_en_passant, man_on, is_on, was_passed, has_sound_en_passant};
ghost use Rattle.szg_chess.specs.Squares.{reached_of, squares_of};
ghost use Rattle.szg_chess.specs.Moves.{is_check};

use crate::attacks::{is_in_check, is_in_check_by, other_color, reached_by, squares_of};
use crate::men::few_men;
use crate::moves::next_in;
use crate::{Position, PositionFault};
use std::marker::Model;
use szg_values::{
    Color, Man, PlacedMen, Placement, Square, has_distinct_squares, has_pawns_on_inner_ranks,
    key_of, number_of,
};

/// The men of a position, in a list that someone else owns, the side to move and the en passant square. It is passed in
/// registers, where a `Position` moves its men.
#[derive(Drop)]
pub struct SoundMen<'a> {
    men: &'a [(Man, Color, Square)],
    // the squares of the men, their key, and the enemy men's squares that are reached, as a position keeps them
    occupied: u64,
    key: u64,
    reached: u64,
    mover: Color,
    en_passant: Option<Square>,
}

impl<'a> Model for SoundMen<'a> {
    ghost use Rattle.szg_chess.specs.Position.{Position};
    ghost use Rattle.szg_chess.specs.Squares.{IsStored};

    ghost Value = { Position };

    ghost view = { λ p. record { placed_men = p.men.now; mover = p.mover; en_passant = p.en_passant } };

    ghost invariant = { λ p. IsStored (record { placed_men = p.men.now; mover = p.mover; en_passant = p.en_passant }) p.occupied p.key p.reached };
}

impl<'a> SoundMen<'a> {
    ghost use Rattle.std.specs.Prelude.{◌≡◌, IsNone, IfSome, None, Ok, Err};
    ghost use Rattle.szg_values.specs.Placement.{AreOnBoard, AreStanding, men_key};
    ghost use Rattle.szg_chess.specs.Position.{men_fault, state_fault, position_fault};

    /// Borrows men that stand on squares of the board, each put there by [`with_man`](szg_values::with_man), and takes their
    /// key, the side to move, and the square that a pawn has just passed over by a double step. Errors: the first of the
    /// faults that men can have.
    #[inline(always)]
    #[tactic(auto, unfolding(crate::specs::Position::position_fault))]
    pub fn of_standing(
        men: &'a [(Man, Color, Square)],
        key: u64,
        mover: Color,
        en_passant: Option<Square>,
    ) -> Result<SoundMen<'a>, PositionFault>
        requires standing { AreStanding men.now }
        requires key { key ≡ men_key men.now }
        ensures accepted { IsNone (position_fault (record { placed_men = men.now; mover = mover; en_passant = en_passant })) → result ≡ Ok (record { placed_men = men.now; mover = mover; en_passant = en_passant }) }
        ensures refused { IfSome (position_fault (record { placed_men = men.now; mover = mover; en_passant = en_passant })) (λ fault. result ≡ Err fault) }
    {
        match standing_fault(men, key, mover) {
            Some(fault) => Err(fault),
            None => SoundMen::of_men(men, key, mover, en_passant),
        }
    }

    /// Borrows sound men. Errors: the en passant square, or the side not to move is in check.
    #[inline(always)]
    #[tactic(auto, unfolding(crate::specs::Position::position_fault, crate::specs::Position::state_fault))]
    fn of_men(
        men: &'a [(Man, Color, Square)],
        key: u64,
        mover: Color,
        en_passant: Option<Square>,
    ) -> Result<SoundMen<'a>, PositionFault>
        requires men { men_fault men.now ≡ None }
        requires on_board { AreOnBoard men.now }
        requires key { key ≡ men_key men.now }
        ensures accepted { IsNone (state_fault (record { placed_men = men.now; mover = mover; en_passant = en_passant })) → result ≡ Ok (record { placed_men = men.now; mover = mover; en_passant = en_passant }) }
        ensures refused { IfSome (state_fault (record { placed_men = men.now; mover = mover; en_passant = en_passant })) (λ fault. result ≡ Err fault) }
    {
        if !has_sound_en_passant(men, mover, &en_passant) {
            return Err(PositionFault::EnPassant);
        }
        let occupied = squares_of(men);
        let reached = reached_by(men, mover);
        if is_in_check_by(men, occupied, other_color(mover), mover, reached) {
            return Err(PositionFault::OpponentInCheck);
        }
        Ok(SoundMen {
            men,
            occupied,
            key,
            reached,
            mover,
            en_passant,
        })
    }

    /// Returns the position.
    #[inline(always)]
    pub fn position(&self) -> Position
        ensures { result ≡ self.now }
    {
        Position {
            men: few_men(self.men),
            occupied: self.occupied,
            key: self.key,
            reached: self.reached,
            mover: self.mover,
            en_passant: self.en_passant,
        }
    }
}

impl Position {
    /// Creates a position of men, the side to move, and the square that a pawn has just passed over by a double step.
    /// Errors: the first of the faults that men can have.
    #[tactic(auto, unfolding(crate::specs::Position::position_fault))]
    pub fn new(
        men: &[(Man, Color, Square)],
        mover: Color,
        en_passant: Option<Square>,
    ) -> Result<Position, PositionFault>
        ensures accepted { IsNone (position_fault (record { placed_men = men.now; mover = mover; en_passant = en_passant })) → result ≡ Ok (record { placed_men = men.now; mover = mover; en_passant = en_passant }) }
        ensures refused { IfSome (position_fault (record { placed_men = men.now; mover = mover; en_passant = en_passant })) (λ fault. result ≡ Err fault) }
    {
        match men_fault(men) {
            Some(fault) => Err(fault),
            None => Position::of_men(men, key_of(men), mover, en_passant),
        }
    }

    /// Creates a position of sound men. Errors: the en passant square, or the side not to move is in check.
    pub(crate) fn of_men(
        men: &[(Man, Color, Square)],
        key: u64,
        mover: Color,
        en_passant: Option<Square>,
    ) -> Result<Position, PositionFault>
        requires men { men_fault men.now ≡ None }
        requires on_board { AreOnBoard men.now }
        requires key { key ≡ men_key men.now }
        ensures accepted { IsNone (state_fault (record { placed_men = men.now; mover = mover; en_passant = en_passant })) → result ≡ Ok (record { placed_men = men.now; mover = mover; en_passant = en_passant }) }
        ensures refused { IfSome (state_fault (record { placed_men = men.now; mover = mover; en_passant = en_passant })) (λ fault. result ≡ Err fault) }
    {
        match SoundMen::of_men(men, key, mover, en_passant) {
            Ok(sound) => Ok(sound.position()),
            Err(fault) => Err(fault),
        }
    }

    /// Returns the placement of the men and the side to move, which drops the en passant square. None for bare kings,
    /// since a placement has at least three men.
    pub fn placement(&self) -> Option<Placement>
        ensures placed { 3 ≤ length self.now.placed_men → result ≡ Some (record { placed_men = self.now.placed_men; mover = self.now.mover }) }
        ensures bare { length self.now.placed_men < 3 → result ≡ None }
    {
        let men = self.men();
        if men.len() < 3 {
            return None;
        }
        match Placement::new(men, self.mover()) {
            Ok(placement) => Some(placement),
            Err(_) => None,
        }
    }

    /// Borrows the men as those of a placement, which drops the en passant square. None for bare kings.
    pub fn placed_men(&self) -> Option<PlacedMen<'_>>
        ensures placed { 3 ≤ length self.now.placed_men → result ≡ Some (record { placed_men = self.now.placed_men; mover = self.now.mover }) }
        ensures bare { length self.now.placed_men < 3 → result ≡ None }
    {
        PlacedMen::of_standing(self.men(), self.mover(), self.key())
    }

    /// Returns a copy.
    pub fn copy(&self) -> Position
        ensures { result ≡ self.now }
    {
        Position {
            men: self.men.copy(),
            occupied: self.occupied(),
            key: self.key(),
            reached: self.reached(),
            mover: self.mover(),
            en_passant: self.en_passant(),
        }
    }

    /// Returns the position without the right to capture en passant.
    pub fn without_en_passant(&self) -> Position
        ensures { result ≡ without_en_passant self.now }
    {
        Position {
            men: self.men.copy(),
            occupied: self.occupied(),
            key: self.key(),
            reached: self.reached(),
            mover: self.mover(),
            en_passant: None,
        }
    }

    /// Returns the men in the order given.
    pub fn men(&self) -> &[(Man, Color, Square)]
        ensures men { result.now ≡ self.now.placed_men }
        ensures few { length result.now ≤ 6 }
        // A fact that callers may use: the men are those of a position.
        ensures position { IsPosition self.now }
    {
        self.men.as_slice()
    }

    /// Returns the side to move.
    pub fn mover(&self) -> Color
        ensures { result ≡ self.now.mover }
    {
        self.mover
    }

    /// Returns the square that a pawn has just passed over by a double step, if any.
    pub fn en_passant(&self) -> Option<Square>
        ensures { result ≡ self.now.en_passant }
    {
        self.en_passant
    }

    /// Returns whether the side to move is in check.
    pub fn is_check(&self) -> bool
        ensures { result ≡ is_check self.now }
    {
        is_in_check(self.men(), self.occupied(), self.mover())
    }

    /// Returns the squares of the men, as bits.
    pub(crate) fn occupied(&self) -> u64
        ensures squares { result ≡ squares_of self.now.placed_men }
        ensures position { IsPosition self.now }
        ensures on_board { AreOnBoard self.now.placed_men }
    {
        self.occupied
    }

    /// Returns the number of men of each kind and colour as one number, as a placement's key.
    pub(crate) fn key(&self) -> u64
        ensures { result ≡ men_key self.now.placed_men }
    {
        self.key
    }

    /// Returns whether some man of the side to move would attack an enemy man on an empty board.
    pub(crate) fn reaches(&self) -> bool
        ensures { result ≡ reaches_other self.now.placed_men self.now.mover }
    {
        next_in(self.reached(), 0) < 64
    }

    /// Returns the squares of the enemy men that some man of the side to move would attack on an empty board, as bits.
    pub(crate) fn reached(&self) -> u64
        ensures reached { result ≡ reached_of self.now.placed_men self.now.mover }
        ensures on_board { AreOnBoard self.now.placed_men }
    {
        self.reached
    }
}

/// Returns the first fault of men that stand on squares of the board, if any. Bare kings have none.
#[inline(always)]
fn standing_fault(men: &[(Man, Color, Square)], key: u64, mover: Color) -> Option<PositionFault>
    requires standing { AreStanding men.now }
    requires key { key ≡ men_key men.now }
    ensures { result ≡ men_fault men.now }
{
    match PlacedMen::of_standing(men, mover, key) {
        Some(_) => None,
        None => men_fault(men),
    }
}

/// Returns the first fault of men, if any.
#[tactic(auto, unfolding(crate::specs::Position::men_fault))]
pub(crate) fn men_fault(men: &[(Man, Color, Square)]) -> Option<PositionFault>
    ensures fault { result ≡ men_fault men.now }
    ensures on_board { IsNone result → AreOnBoard men.now }
{
    if !has_two_to_six(men) {
        return Some(PositionFault::Men);
    }
    if !has_kings(men) {
        return Some(PositionFault::Kings);
    }
    if !has_distinct_squares(men) {
        return Some(PositionFault::SameSquare);
    }
    if !has_pawns_on_inner_ranks(men) {
        return Some(PositionFault::PawnRank);
    }
    None
}

fn has_two_to_six(men: &[(Man, Color, Square)]) -> bool
    ensures { result ≡ has_two_to_six men.now }
{
    2 <= men.len() && men.len() <= 6
}

fn has_kings(men: &[(Man, Color, Square)]) -> bool
    ensures { result ≡ has_kings men.now }
{
    number_of(Man::King, Color::White, men) == 1 && number_of(Man::King, Color::Black, men) == 1
}

/// Returns whether some man is on the square.
fn is_occupied(men: &[(Man, Color, Square)], square: u8) -> bool
    ensures { result ≡ is_occupied men.now square }
{
    men.iter().any(|man| man.2.number() == square)
}

/// Returns the man on the square and its colour, if there is one.
pub(crate) fn man_on(men: &[(Man, Color, Square)], square: u8) -> Option<(Man, Color)>
    ensures { result ≡ man_on men.now square }
{
    man_at(men, square).map(|man| (man.0, man.1))
}

fn man_at(men: &[(Man, Color, Square)], square: u8) -> Option<&(Man, Color, Square)>
    ensures { option_copied result ≡ find (λ s. s.2 == square) men.now }
{
    men.iter().find(|man| man.2.number() == square)
}

/// Returns whether a man of this kind and colour is on the square.
pub(crate) fn is_on(kind: Man, color: Color, men: &[(Man, Color, Square)], square: u8) -> bool
    ensures { result ≡ is_on kind color men.now square }
{
    men.iter().any(|man| man.0 == kind && man.1 == color && man.2.number() == square)
}

/// Returns whether the en passant square, if any, was passed over by a pawn of the side not to move.
fn has_sound_en_passant(
    men: &[(Man, Color, Square)],
    mover: Color,
    en_passant: &Option<Square>,
) -> bool
    ensures sound { result ≡ has_sound_en_passant men.now mover en_passant.now }
    ensures on_board { ForSome en_passant.now (λ square. square < 64) }
{
    match en_passant {
        None => true,
        Some(square) => was_passed(men, mover, square.number()),
    }
}

/// Returns whether a pawn of the side not to move may just have passed over the square.
fn was_passed(men: &[(Man, Color, Square)], mover: Color, square: u8) -> bool
    requires { square < 64 }
    ensures { result ≡ was_passed men.now mover square }
{
    let file = square % 8;
    match mover {
        Color::White => {
            square / 8 == 5
                && !is_occupied(men, square)
                && !is_occupied(men, 48 + file)
                && is_on(Man::Pawn, Color::Black, men, 32 + file)
        }
        Color::Black => {
            square / 8 == 2
                && !is_occupied(men, square)
                && !is_occupied(men, 8 + file)
                && is_on(Man::Pawn, Color::White, men, 24 + file)
        }
    }
}
