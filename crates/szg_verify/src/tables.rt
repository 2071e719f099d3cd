//! What a set of DTZ tables offers.

ghost use Rattle.std.specs.Prelude.{◌≡◌, IfOk};
ghost use Rattle.szg_verify.specs.Entries.{StoredDistances};
ghost use Rattle.szg_verify.specs.Verified.{has_equal_sides};

use crate::Distance;
use szg_chess::Position;
use szg_game::Class;
use szg_values::{Color, Man, NAME_ORDER, Square, number_of};

/// A set of DTZ tables.
pub trait DtzTables {
    /// Why a number was not read.
    type Fault;

    // the numbers that the tables store
    ghost distances: { Self → StoredDistances };

    /// Returns the number that the tables store for the men and the side to move of a position of this class. None if
    /// there is no table for the men, or if it stores the other side. The en passant square does not count. Errors:
    /// those of the set of tables.
    ///
    /// The table of a symmetric material has both sides, and should return numbers for one color alone: if both were
    /// in moves, a number would not fall at each ply, and true positions would not pass.
    fn distance(
        &mut self,
        position: &Position,
        class: Class,
    ) -> Result<Option<Distance>, Self::Fault>
        ensures same { distances self.new ≡ distances self.old }
        ensures distance { IfOk result (λ d. distances self.old position.now.placed_men position.now.mover class ≡ d) };
}

/// Returns whether both sides have the same men.
pub fn has_equal_sides(men: &[(Man, Color, Square)]) -> bool
    ensures { result ≡ has_equal_sides men.now }
{
    NAME_ORDER.iter().all(|kind| number_of(*kind, Color::White, men)
        == number_of(*kind, Color::Black, men))
}
