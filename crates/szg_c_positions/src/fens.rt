//! The positions of texts.
ghost use Rattle.std.specs.Prelude.{◌≡◌};
ghost use Rattle.szg_c_positions.specs.Fens.{IsRead, fen_result, square_code};

use crate::men::{RawMan, coded_men};
use crate::positions::position_status;
use crate::status::{DONE, MAN};
use szg_chess::{FenRecord, Position};
use szg_values::{MAX_MEN, Square};

/// A position and its fifty-move counter, as the calls on a tablebase take them.
#[repr(C)]
#[derive(Drop)]
pub struct RawPosition {
    /// The men are the first of these.
    pub men: [RawMan; MAX_MEN],
    /// The side to move: White 0, Black 1.
    pub mover: u8,
    /// The square that a pawn has just passed over by a double step; 64 for none.
    pub en_passant: u8,
    /// The plies since the last capture or pawn's move.
    pub counter: u32,
    /// The number of men.
    pub count: usize,
}

/// Returns what a text says. Errors: the status that says why it names no position.
pub fn said_by(text: &[u8]) -> Result<FenRecord, u32>
    ensures { result ≡ fen_result text.now }
{
    let Ok(fen) = str::from_utf8(text) else {
        return Err(MAN);
    };
    match Position::parse_fen(fen) {
        Ok(said) => Ok(said),
        Err(fault) => Err(position_status(fault)),
    }
}

/// Writes a position and its counter; returns `DONE`.
pub fn write_position(said: &FenRecord, position: &mut RawPosition) -> u32
    ensures done { result ≡ DONE }
    ensures read { IsRead said.now position.old position.new }
{
    let placed = said.position.men();
    let coded = coded_men(placed);
    position.men[..placed.len()].copy_from_slice(&coded);
    position.count = placed.len();
    position.mover = said.position.mover() as u8;
    position.en_passant = square_code(said.position.en_passant());
    position.counter = said.halfmove;
    DONE
}

fn square_code(square: Option<Square>) -> u8
    ensures { result ≡ square_code square }
{
    match square {
        Some(square) => square.number(),
        None => 64,
    }
}
