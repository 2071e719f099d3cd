//! The men of a placement in a list that someone else owns.

use crate::men::is_count;
use crate::placements::has_kings;
use crate::{Color, Man, Placement, Square};
use std::marker::Model;

/// The men of a placement, in a list that someone else owns, and the side to move. It is passed in registers, where a
/// `Placement` moves its list.
#[derive(Drop)]
pub struct PlacedMen<'a> {
    men: &'a [(Man, Color, Square)],
    mover: Color,
    key: u64,
}

impl<'a> Model for PlacedMen<'a> {
    ghost use Rattle.szg_values.specs.Placement.{Board, AreKept};

    ghost Value = { Board };

    ghost view = { λ p. record { placed_men = p.men.now; mover = p.mover } };

    ghost invariant = { λ p. AreKept p.men.now p.key };
}

impl<'a> PlacedMen<'a> {
    ghost use Rattle.std.specs.Prelude.{◌≡◌, IsNone, IsSome, Some, None};
    ghost use Rattle.szg_values.specs.Placement.{AreOnBoard, AreStanding, men_key, placement_fault};

    /// Borrows the men of a placement.
    pub fn of(placement: &'a Placement) -> PlacedMen<'a>
        ensures { result ≡ placement.now }
    {
        PlacedMen {
            men: placement.men(),
            mover: placement.mover(),
            key: placement.key(),
        }
    }

    /// Borrows men that stand on squares of the board, each put there by [`with_man`](crate::with_man), and takes their key.
    /// None if there aren't three to six of them, with exactly one king of each colour.
    #[inline(always)]
    pub fn of_standing(
        men: &'a [(Man, Color, Square)],
        mover: Color,
        key: u64,
    ) -> Option<PlacedMen<'a>>
        requires standing { AreStanding men.now }
        requires key { key ≡ men_key men.now }
        ensures accepted { IsNone (placement_fault men.now) → result ≡ Some (record { placed_men = men.now; mover = mover }) }
        ensures refused { IsSome (placement_fault men.now) → result ≡ None }
    {
        if is_count(men.len()) && has_kings(key) {
            Some(PlacedMen { men, mover, key })
        } else {
            None
        }
    }

    /// Returns the men in the order given. They have no fault, and are on squares of the board.
    pub fn men(&self) -> &'a [(Man, Color, Square)]
        ensures men { result.now ≡ self.now.placed_men }
        ensures no_fault { IsNone (placement_fault result.now) }
        ensures on_board { AreOnBoard result.now }
    {
        self.men
    }

    /// Returns the side to move.
    pub fn mover(&self) -> Color
        ensures { result ≡ self.now.mover }
    {
        self.mover
    }

    /// Returns the number of men of each kind and colour as one number: it has a digit of base 8 for each man code.
    pub fn key(&self) -> u64
        ensures { result ≡ men_key self.now.placed_men }
    {
        self.key
    }
}
