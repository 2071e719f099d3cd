//! Positions of men, a side to move and an en passant square.
ghost use Rattle.std.specs.Prelude.{◌≡◌, Err};
ghost use Rattle.szg_c_positions.specs.Men.{HaveFault};
ghost use Rattle.szg_c_positions.specs.Positions.{position_of, position_status};

use crate::men::{RawMan, color_of, decoded_men, key_of_men};
use crate::status::{EN_PASSANT, IN_CHECK, MAN, MEN, PAWN_RANK, SAME_SQUARE};
use arrayvec::ArrayVec;
use szg_chess::{Position, PositionFault, SoundMen};
use szg_values::Square;

/// Returns the position of these men with this side to move (White 0, Black 1) and the square that a pawn has just passed
/// over by a double step (64 or more for none). Errors: the first status that applies, of `MAN` for an invalid number, `MEN`,
/// `SAME_SQUARE`, `PAWN_RANK`, `EN_PASSANT` and `IN_CHECK`.
#[inline(always)]
pub fn position_of(men: &[RawMan], mover: u8, en_passant: u8) -> Result<Position, u32>
    ensures { result ≡ position_of men.now mover en_passant }
{
    let mut placed_men = ArrayVec::new();
    let Some(key) = key_of_men(men, mover, &mut placed_men) else {
        return Err(status_of_men(men, mover, en_passant));
    };
    match SoundMen::of_standing(
        placed_men.as_slice(),
        key,
        color_of(mover),
        Square::new(en_passant),
    ) {
        Ok(sound) => Ok(sound.position()),
        Err(fault) => Err(position_status(fault)),
    }
}

/// Returns the status of men that have a fault, by one check after the other.
#[cold]
#[inline(never)]
#[tactic(auto, unfolding(crate::specs::Positions::position_of))]
fn status_of_men(men: &[RawMan], mover: u8, en_passant: u8) -> u32
    requires { HaveFault men.now mover }
    ensures { position_of men.now mover en_passant ≡ Err result }
{
    let placed_men = match decoded_men(men, mover) {
        Ok(placed_men) => placed_men,
        Err(status) => return status,
    };
    match Position::new(
        placed_men.as_slice(),
        color_of(mover),
        Square::new(en_passant),
    ) {
        Ok(position) => {
            // A fact that the proof uses: the men are those of a position.
            let _ = position.men();
            unreachable!()
        }
        Err(fault) => position_status(fault),
    }
}

/// Returns the status for a fault of a position or of a text that names one.
pub(crate) fn position_status(fault: PositionFault) -> u32
    ensures { result ≡ position_status fault }
{
    match fault {
        PositionFault::Men | PositionFault::Kings => MEN,
        PositionFault::SameSquare => SAME_SQUARE,
        PositionFault::PawnRank => PAWN_RANK,
        PositionFault::EnPassant => EN_PASSANT,
        PositionFault::OpponentInCheck => IN_CHECK,
        // faults of texts
        PositionFault::Letter
        | PositionFault::Rank
        | PositionFault::SideToMove
        | PositionFault::Castling
        | PositionFault::Counters => MAN,
    }
}
