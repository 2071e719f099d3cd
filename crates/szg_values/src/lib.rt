//! Squares, men, materials and placements of Syzygy tables.
//!
//! A table is named by its material, as `KQvKR`: a side, the letter `v`, a side. Everything that the format says
//! about a material (its men, whether it is symmetric, its lead pawns) is a function of that name and is defined
//! here. Names, man codes and the lead colour are those of de Man's format; squares are numbered as in
//! python-chess.
#![tactic(auto)]

use arrayvec::ArrayVec;
use std::marker::Model;
use thiserror::Error;

pub mod laws;
mod materials;
mod men;
mod parsing;
mod placed;
mod placements;
mod squares;

pub use materials::NAME_ORDER;
pub use placed::PlacedMen;
pub use placements::{
    has_distinct_squares, has_pawns_on_inner_ranks, key_of, man_key, number_of, with_man,
};

/// The greatest number of men of a material.
pub const MAX_MEN: usize = 6;

/// What a table stores: the outcome of each placement, or a distance.
#[derive(Clone, Copy, Debug, PartialEq, Eq)]
pub enum Kind {
    /// Win, draw or loss.
    Wdl,
    /// The distance to the next capture or pawn move that keeps the outcome.
    Dtz,
}

/// A colour of the board.
#[derive(Clone, Copy, Debug, PartialEq, Eq)]
pub enum Color {
    /// White, which moves first in a game.
    White,
    /// Black.
    Black,
}

impl Default for Color {
    ghost use Rattle.std.specs.Prelude.{◌≡◌};
    ghost use Rattle.szg_values.specs.declared.Color.TheVariants.{White};

    ghost is_default = { λ color. color ≡ White };

    /// Returns White.
    fn default() -> Color {
        Color::White
    }
}

/// A kind of man.
#[derive(Clone, Copy, Debug, PartialEq, Eq)]
pub enum Man {
    /// P in a name, 1 in a file.
    Pawn,
    /// N in a name, 2 in a file.
    Knight,
    /// B in a name, 3 in a file.
    Bishop,
    /// R in a name, 4 in a file.
    Rook,
    /// Q in a name, 5 in a file.
    Queen,
    /// K in a name, 6 in a file.
    King,
}

impl Default for Man {
    ghost use Rattle.std.specs.Prelude.{◌≡◌};
    ghost use Rattle.szg_values.specs.declared.Man.TheVariants.{Pawn};

    ghost is_default = { λ man. man ≡ Pawn };

    /// Returns the pawn.
    fn default() -> Man {
        Man::Pawn
    }
}

/// A square of the board, by its number: a1 = 0, b1 = 1, .. h8 = 63.
#[derive(Clone, Copy, Debug, PartialEq, Eq)]
pub struct Square {
    number: u8,
}

impl Model for Square {
    ghost use Rattle.std.specs.Prelude.{ℕ, ◌<◌};

    ghost Value = { ℕ };

    ghost view = { λ s. s.number };

    ghost invariant = { λ s. s.number < 64 };

    ghost inverse = { λ n. record { number = n } };
}

/// Why a text is not the name of a material: the first fault in this order.
#[derive(Clone, Copy, Debug, PartialEq, Eq, Error)]
pub enum NameFault {
    /// A character other than K Q R B N P v, or not exactly one v.
    #[error("Letter")]
    Letter,
    /// A side does not begin with K, or has a second K.
    #[error("King")]
    King,
    /// A side's letters are not in the order K Q R B N P.
    #[error("Order")]
    Order,
    /// The sides are in the wrong order: the second has more men, or it has the same number and its letters come
    /// earlier in the order K Q R B N P.
    #[error("Sides")]
    Sides,
    /// The number of men is not three to [`MAX_MEN`].
    #[error("Men")]
    Men,
}

/// Why men are not a placement: the first fault in this order.
#[derive(Clone, Copy, Debug, PartialEq, Eq, Error)]
pub enum PlacementFault {
    /// The number of men is not three to [`MAX_MEN`], or a colour does not have exactly one king.
    #[error("Men")]
    Men,
    /// Two men are on one square.
    #[error("SameSquare")]
    SameSquare,
    /// A pawn is on rank 1 or 8.
    #[error("PawnRank")]
    PawnRank,
}

/// The men of a table, by the two sides of its name.
#[derive(Debug, Drop, PartialEq, Eq)]
pub struct Material {
    first: ArrayVec<Man, 6>,
    second: ArrayVec<Man, 6>,
}

impl Model for Material {
    ghost use Rattle.std.specs.Prelude.{ℕ, ◌<◌};
    ghost use Rattle.szg_values.specs.Material.{Sides, IsMaterial};

    ghost Value = { Sides };

    ghost view = { λ m. record { first = m.first.items; second = m.second.items } };

    ghost invariant = { λ m. IsMaterial (record { first = m.first.items; second = m.second.items }) };

    ghost inverse = { λ sides. record { first = record { items = sides.first }; second = record { items = sides.second } } };
}

/// Men on squares, and the side to move.
#[derive(Debug, Drop, PartialEq, Eq)]
pub struct Placement {
    men: ArrayVec<(Man, Color, Square), 6>,
    mover: Color,
    key: u64,
}

impl Model for Placement {
    ghost use Rattle.szg_values.specs.Placement.{Board, AreKept, men_key};

    ghost Value = { Board };

    ghost view = { λ p. record { placed_men = p.men.items; mover = p.mover } };

    ghost invariant = { λ p. AreKept p.men.items p.key };

    ghost inverse = { λ board. record { men = record { items = board.placed_men }; mover = board.mover; key = men_key board.placed_men } };
}
