//! The rules of chess for positions of two to six men without castling.
//!
//! The definitions are in `specs/`: which squares a man attacks, what a position is, its moves, the position after a
//! move. The code is proved to compute them.
#![tactic(auto)]

use crate::men::Few;
use std::marker::Model;
use szg_values::{Color, Man, Square};
use thiserror::Error;

mod attacks;
mod fen;
pub mod laws;
mod men;
mod moves;
mod positions;
mod san;
mod tables;
mod texts;
mod uci;

pub use attacks::is_in;
pub use moves::next_in;
pub use positions::SoundMen;

/// A list of captures has room for this many. A pawn attacks two squares, so that it has at most 8 captures and one en
/// passant, and a piece one of each enemy man. With four men against two, these are at most 2 of the king and 27.
pub const MAX_CAPTURES: usize = 29;

/// A list of legal moves has room for this many. A king has at most 8 moves, and each of four other men at most 27: 116.
pub const MAX_MOVES: usize = 128;

/// Why men or a text are not a position: the first fault in this order. `fault as u8` is its number.
#[derive(Clone, Copy, Debug, PartialEq, Eq, Error)]
pub enum PositionFault {
    /// 1, of a text: a character of the board is none of `pnbrqkPNBRQK`, `12345678` and `/`.
    #[error("Letter")]
    Letter = 1,
    /// 2, of a text: the board is not eight ranks of eight squares, separated by `/`.
    #[error("Rank")]
    Rank = 2,
    /// 3: the number of men is not two to six.
    #[error("Men")]
    Men = 3,
    /// 4: a colour does not have exactly one king.
    #[error("Kings")]
    Kings = 4,
    /// 5: two men are on one square.
    #[error("SameSquare")]
    SameSquare = 5,
    /// 6: a pawn is on rank 1 or 8.
    #[error("PawnRank")]
    PawnRank = 6,
    /// 7, of a text: the side to move is not `w` or `b`.
    #[error("SideToMove")]
    SideToMove = 7,
    /// 8, of a text: the castling rights are not `-`. Tables know none, so a position with one is refused.
    #[error("Castling")]
    Castling = 8,
    /// 9: the en passant square is not one that a pawn can just have passed over by a double step; or its text is neither
    /// `-` nor a square on rank 3 or 6.
    #[error("EnPassant")]
    EnPassant = 9,
    /// 10: the side not to move is in check.
    #[error("OpponentInCheck")]
    OpponentInCheck = 10,
    /// 11, of a text: after the en passant square come neither nothing nor two numbers of one to nine digits.
    #[error("Counters")]
    Counters = 11,
}

/// A move: a man goes from one square to another, and a pawn on the last rank is promoted.
#[derive(Clone, Copy, Debug, Default, PartialEq, Eq)]
pub struct Move {
    /// The square that the man leaves.
    pub from: Square,
    /// The square that it goes to.
    pub to: Square,
    /// What a pawn is promoted to on the last rank.
    pub promotion: Option<Man>,
}

/// Men on squares, the side to move, and the square that a pawn has just passed over by a double step.
#[derive(Debug, Drop, PartialEq, Eq)]
pub struct Position {
    men: Few<(Man, Color, Square)>,
    /// The squares of the men, as bits.
    occupied: u64,
    /// The number of men of each kind and colour, as [`PlacedMen::key`](szg_values::PlacedMen::key).
    key: u64,
    /// The squares of the enemy men that some man of the side to move would attack on an empty board.
    reached: u64,
    mover: Color,
    en_passant: Option<Square>,
}

impl Model for Position {
    ghost use Rattle.szg_chess.specs.Position.{Position};
    ghost use Rattle.szg_chess.specs.Squares.{IsStored, reached_of, squares_of};
    ghost use Rattle.szg_values.specs.Placement.{men_key};

    ghost Value = { Position };

    ghost view = { λ p. record { placed_men = p.men; mover = p.mover; en_passant = p.en_passant } };

    ghost invariant = { λ p. IsStored (record { placed_men = p.men; mover = p.mover; en_passant = p.en_passant }) p.occupied p.key p.reached };

    ghost inverse = { λ p. record { men = p.placed_men; occupied = squares_of p.placed_men; key = men_key p.placed_men; reached = reached_of p.placed_men p.mover; mover = p.mover; en_passant = p.en_passant } };
}

/// What a text in Forsyth-Edwards Notation says: a position and two counters.
#[derive(Debug, Drop, PartialEq, Eq)]
pub struct FenRecord {
    /// The position.
    pub position: Position,
    /// The plies since the last capture or pawn's move; the fifty-move rule counts these. 0 if the text has no counters.
    pub halfmove: u32,
    /// The number of the full move, which begins at 1 and rises after Black's move. 1 if the text has no counters.
    pub fullmove: u32,
}
