//! Boards as engines have them.
ghost use Rattle.std.specs.Prelude.{◌≡◌, ◌<◌, ◌≤◌, ◌==◌, Err, IfErr, IfOk, IfSome, IfNone, Ok, false, length, nat_lt, true};
ghost use Rattle.szg_chess.specs.Squares.{is_in};
ghost use Rattle.szg_c_positions.specs.Boards.{colors_of, is_twice, kind_on, kinds_of, man_on, men_of, men_on};

use crate::men::RawMan;
use crate::status::{DONE, MAN, MEN, SAME_SQUARE};
use arrayvec::ArrayVec;
use szg_chess::{is_in, next_in};
use szg_values::MAX_MEN;

/// The squares of the men of each colour and of each kind. Bit 0 is a1, bit 1 is b1, .. bit 63 is h8.
#[repr(C)]
#[derive(Drop)]
pub struct RawBoard {
    /// White's men.
    pub white: u64,
    /// Black's men.
    pub black: u64,
    /// The kings.
    pub kings: u64,
    /// The queens.
    pub queens: u64,
    /// The rooks.
    pub rooks: u64,
    /// The bishops.
    pub bishops: u64,
    /// The knights.
    pub knights: u64,
    /// The pawns.
    pub pawns: u64,
}

/// Room for the men of a board.
#[repr(C)]
#[derive(Drop)]
pub struct RawMen {
    /// The men.
    pub men: [RawMan; MAX_MEN],
}

/// Returns the men of a board. Errors, the first that applies: `MAN` if a square has a colour without a kind, or a kind
/// without a colour; `SAME_SQUARE` if it has two; `MEN` if there are more than six men.
#[tactic(auto, unfolding(crate::specs::Boards::men_of))]
pub fn men_of(board: &RawBoard) -> Result<ArrayVec<RawMan, MAX_MEN>, u32>
    ensures men { IfOk result (λ men. men_of board.now ≡ Ok men.items) }
    ensures few { IfOk result (λ men. length men.items ≤ 6) }
    ensures fault { IfErr result (λ status. men_of board.now ≡ Err status) }
    ensures not_done { IfErr result (λ status. status ≡ DONE → ⊥) }
{
    if !has_kinds(board) {
        return Err(MAN);
    }
    if is_twice(board) {
        return Err(SAME_SQUARE);
    }
    match men_on(board, board.white | board.black) {
        Some(men) => Ok(men),
        None => Err(MEN),
    }
}

/// Returns whether the squares of the colours are those of the kinds.
fn has_kinds(board: &RawBoard) -> bool
    ensures { result ≡ (colors_of board.now == kinds_of board.now) }
{
    let kinds = board.pawns
        | (board.knights | (board.bishops | (board.rooks | (board.queens | board.kings))));
    (board.white | board.black) == kinds
}

/// Returns whether a square has two colours or two kinds.
fn is_twice(board: &RawBoard) -> bool
    ensures { result ≡ is_twice board.now }
{
    let queens = board.queens | board.kings;
    let rooks = board.rooks | queens;
    let bishops = board.bishops | rooks;
    let knights = board.knights | bishops;
    board.white & board.black != 0
        || board.pawns & knights != 0
        || board.knights & bishops != 0
        || board.bishops & rooks != 0
        || board.rooks & queens != 0
        || board.queens & board.kings != 0
}

/// Returns the men on these squares. None if there are more than six.
fn men_on(board: &RawBoard, squares: u64) -> Option<ArrayVec<RawMan, MAX_MEN>>
    ensures men { IfSome result (λ men. men.items ≡ men_on board.now squares) }
    ensures room { IfSome result (λ men. length men.items ≤ 6) }
    ensures few { IfSome result (λ men. nat_lt 6 (length (men_on board.now squares)) ≡ false) }
    ensures many { IfNone result (nat_lt 6 (length (men_on board.now squares)) ≡ true) }
{
    let mut men = ArrayVec::new();
    let mut number = next_in(squares, 0);
    while number < 64 {
        if men.len() >= MAX_MEN {
            return None;
        }
        men.push(man_on(board, number));
        number = next_in(squares, number + 1);
    }
    Some(men)
}

/// Returns the man on a square.
fn man_on(board: &RawBoard, square: u8) -> RawMan
    requires { square < 64 }
    ensures { result ≡ man_on board.now square }
{
    RawMan {
        kind: kind_on(board, square),
        color: if is_in(board.black, square) { 1 } else { 0 },
        square,
    }
}

/// Returns the code of the kind of the man on a square.
fn kind_on(board: &RawBoard, square: u8) -> u8
    requires { square < 64 }
    ensures { result ≡ kind_on board.now square }
{
    if is_in(board.pawns, square) {
        1
    } else if is_in(board.knights, square) {
        2
    } else if is_in(board.bishops, square) {
        3
    } else if is_in(board.rooks, square) {
        4
    } else if is_in(board.queens, square) {
        5
    } else {
        6
    }
}
