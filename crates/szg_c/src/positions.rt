//! Calls on positions: the men of a board, and the position of a text.
ghost use Rattle.std.specs.Prelude.{◌≡◌, ◌++◌, MatchResult, drop, length};
ghost use Rattle.szg_c_positions.specs.Boards.{men_of};
ghost use Rattle.szg_c_positions.specs.Fens.{IsRead, fen_result};
ghost use Rattle.szg_c_positions.specs.declared.status.TheConstants.{DONE};

use szg_c_positions::status::DONE;
use szg_c_positions::{RawBoard, RawMen, RawPosition, men_of, said_by, write_position};

/// Writes the men of a board, in the order of their squares, to the beginning of a list, and their number.
///
/// Errors, the first that applies: `MAN` if a square has a colour without a kind, or a kind without a colour; `SAME_SQUARE` if it
/// has two; `MEN` if there are more than six men. Then all stays.
#[unsafe(no_mangle)]
pub extern "C" fn szg_board_men(board: &RawBoard, men: &mut RawMen, count: &mut usize) -> u32
    ensures reported { MatchResult (men_of board.now) (λ list. (result ≡ DONE) × (men.new.men ≡ list ++ drop (length list) men.old.men) × (count.new ≡ length list)) (λ status. result ≡ status) }
    ensures stays { (result ≡ DONE → ⊥) → (men.new ≡ men.old) × (count.new ≡ count.old) }
{
    match men_of(board) {
        Ok(list) => {
            men.men[..list.len()].copy_from_slice(&list);
            *count = list.len();
            DONE
        }
        Err(status) => status,
    }
}

/// Parses a text in Forsyth-Edwards Notation, as `szg probe` does: the board, the side to move, `-` for castling, the en
/// passant square or `-`, and, where more text follows, two counters, the first of which is the fifty-move counter. Without
/// them it is 0.
///
/// Errors: `MEN`, `SAME_SQUARE`, `PAWN_RANK`, `EN_PASSANT` and `IN_CHECK` as for `szg_tablebase_wdl`; `MAN` for a text of
/// another form. Then the position is unchanged.
#[unsafe(no_mangle)]
pub extern "C" fn szg_read_fen(text: &[u8], position: &mut RawPosition) -> u32
    ensures read { MatchResult (fen_result text.now) (λ said. (result ≡ DONE) × IsRead said position.old position.new) (λ status. result ≡ status) }
    ensures stays { (result ≡ DONE → ⊥) → position.new ≡ position.old }
{
    match said_by(text) {
        Ok(said) => write_position(&said, position),
        Err(status) => status,
    }
}
