//! Positions as text, in Forsyth-Edwards Notation (FEN) without castling.

ghost use Rattle.std.specs.Prelude.{◌≡◌, ◌<◌, ◌≤◌, ◌+◌, ◌*◌, ◌==◌, ◌&&◌, ◌||◌, ◌++◌, ◌∷◌, not, true, [], length, slice_index, position, count_by, IsTrue, IsNone, IfSome, Some, None, Ok, Err, nat_le};
ghost use Rattle.std.specs.List.{list_all, before_first, after_first, position_or_len};
ghost use Rattle.std.specs.Str.Parse.{digits_value};
ghost use Rattle.szg_values.specs.Placement.{PlacedMan, AreOnBoard};
ghost use Rattle.arrayvec.specs.ArrayVec.{array_vec_len};
ghost use Rattle.arrayvec.specs.ArrayString.{array_string_len};
ghost use Rattle.szg_chess.specs.Fen.{man_of_letter, is_gap, is_board_letter, width_of, rank_width, are_ranks, has_ranks, men_at, men_of_rank, men_of_ranks, is_slash, board_fault, is_space, field, rest, is_letter, is_mover, mover_of, is_dash, is_passed_square, is_en_passant_field, en_passant_of, is_number, is_last, has_counters, from_en_passant, halfmove_of, fullmove_of, fields_fault, counters_fault, position_of, record_of, fen_fault, letter_of_man, after_square, empty_text, squares_text, ranks_text, mover_text, en_passant_text, fen_text};
ghost use Rattle.szg_chess.specs.Position.{first_of, men_fault, state_fault};

use crate::positions::{man_on, men_fault};
use crate::texts::{push_letter, push_square};
use crate::{FenRecord, Position, PositionFault};
use arrayvec::{ArrayString, ArrayVec};
use std::fmt;
use szg_values::{Color, Man, Square, key_of};

impl Position {
    /// Parses a text in Forsyth-Edwards Notation: the board, the side to move, `-` for castling, the en passant square or
    /// `-`, and, where more text follows, two counters. One space separates the fields. Errors: the first fault.
    #[tactic(auto, unfolding(crate::specs::Fen::fen_fault))]
    pub fn parse_fen(text: &str) -> Result<FenRecord, PositionFault>
        ensures accepted { IsNone (fen_fault text.now) → result ≡ Ok (record_of text.now) }
        ensures refused { IfSome (fen_fault text.now) (λ fault. result ≡ Err fault) }
    {
        let text = text.as_bytes();
        let board = field(text);
        if let Some(fault) = board_fault(board) {
            return Err(fault);
        }
        let men = men_of_board(board);
        if let Some(fault) = men_fault(men.as_slice()) {
            return Err(fault);
        }
        record_of(men.as_slice(), text)
    }

    /// Returns the first four fields of the position's text: the board, the side to move, `-` for castling, and the en
    /// passant square or `-`.
    #[tactic(auto, unfolding(crate::specs::Fen::fen_text))]
    pub fn fen(&self) -> ArrayString<80>
        ensures { result.bytes ≡ fen_text self.now }
    {
        let mut text = ArrayString::new();
        push_board(&mut text, self.men());
        push_letter(&mut text, b' ');
        push_mover(&mut text, self.mover());
        push_letter(&mut text, b' ');
        push_letter(&mut text, b'-');
        push_letter(&mut text, b' ');
        push_en_passant(&mut text, &self.en_passant());
        text
    }
}

impl fmt::Display for Position {
    ghost output = { λ p. Some (fen_text p) };

    fn fmt<W: fmt::Write>(&self, f: &mut fmt::Formatter<W>) -> fmt::Result {
        let text = self.fen();
        f.write_str(text.as_str())
    }
}

/// Parses the fields after the board, whose men these are. Errors: the first fault.
fn record_of(men: &[(Man, Color, Square)], text: &[u8]) -> Result<FenRecord, PositionFault>
    requires men { men_fault men.now ≡ None }
    requires on_board { AreOnBoard men.now }
    requires board { men.now ≡ men_of_ranks 8 (field text.now) }
    ensures accepted { IsNone (first_of (fields_fault text.now ∷ state_fault (position_of text.now) ∷ counters_fault text.now ∷ [])) → result ≡ Ok (record_of text.now) }
    ensures refused { IfSome (first_of (fields_fault text.now ∷ state_fault (position_of text.now) ∷ counters_fault text.now ∷ [])) (λ fault. result ≡ Err fault) }
{
    if let Some(fault) = fields_fault(text) {
        return Err(fault);
    }
    let position = position_of(men, text)?;
    if let Some(fault) = counters_fault(text) {
        return Err(fault);
    }
    let last = from_en_passant(text);
    Ok(FenRecord {
        position,
        halfmove: halfmove_of(last),
        fullmove: fullmove_of(last),
    })
}

/// Creates the position of a board's men and the three fields after the board. Errors: its first fault.
fn position_of(men: &[(Man, Color, Square)], text: &[u8]) -> Result<Position, PositionFault>
    requires men { men_fault men.now ≡ None }
    requires on_board { AreOnBoard men.now }
    requires board { men.now ≡ men_of_ranks 8 (field text.now) }
    requires fields { fields_fault text.now ≡ None }
    ensures accepted { IsNone (state_fault (position_of text.now)) → result ≡ Ok (position_of text.now) }
    ensures refused { IfSome (state_fault (position_of text.now)) (λ fault. result ≡ Err fault) }
{
    let mover = mover_of(field(rest(text)));
    let en_passant = en_passant_of(field(from_en_passant(text)));
    Position::of_men(men, key_of(men), mover, en_passant)
}

/// Returns the first fault of the board's text, if any.
#[tactic(auto, unfolding(crate::specs::Fen::board_fault))]
fn board_fault(board: &[u8]) -> Option<PositionFault>
    ensures { result ≡ board_fault board.now }
{
    if !are_board_letters(board) {
        return Some(PositionFault::Letter);
    }
    if !has_ranks(board) {
        return Some(PositionFault::Rank);
    }
    None
}

/// Returns the first fault of the three fields after the board, if any.
#[tactic(auto, unfolding(crate::specs::Fen::fields_fault))]
fn fields_fault(text: &[u8]) -> Option<PositionFault>
    ensures { result ≡ fields_fault text.now }
{
    let from_mover = rest(text);
    if !is_mover(field(from_mover)) {
        return Some(PositionFault::SideToMove);
    }
    let from_castling = rest(from_mover);
    if !is_dash(field(from_castling)) {
        return Some(PositionFault::Castling);
    }
    if !is_en_passant_field(field(rest(from_castling))) {
        return Some(PositionFault::EnPassant);
    }
    None
}

/// Returns the fault of the counters, if any.
#[tactic(auto, unfolding(crate::specs::Fen::counters_fault))]
fn counters_fault(text: &[u8]) -> Option<PositionFault>
    ensures { result ≡ counters_fault text.now }
{
    if has_counters(from_en_passant(text)) {
        None
    } else {
        Some(PositionFault::Counters)
    }
}

// ---- fields

/// Returns the text before the first space.
fn field(text: &[u8]) -> &[u8]
    ensures { result.now ≡ field text.now }
{
    &text[..place_of(text, b' ')]
}

/// Returns the text after the first space.
fn rest(text: &[u8]) -> &[u8]
    ensures { result.now ≡ rest text.now }
{
    after(text, b' ')
}

/// Returns the text after the first separator.
fn after(text: &[u8], separator: u8) -> &[u8]
    ensures { result.now ≡ after_first (λ c. c == separator) text.now }
{
    let place = place_of(text, separator);
    if place < text.len() {
        &text[place + 1..]
    } else {
        &[]
    }
}

/// Returns the place of the first separator, or the length of the text.
fn place_of(text: &[u8], separator: u8) -> usize
    ensures place { result ≡ position_or_len (λ c. c == separator) text.now }
    ensures within { result ≤ length text.now }
{
    match first_place(text, separator) {
        Some(place) => place,
        None => text.len(),
    }
}

fn first_place(text: &[u8], separator: u8) -> Option<usize>
    ensures { result ≡ position (λ c. c == separator) text.now }
{
    text.iter().position(|byte| *byte == separator)
}

/// Returns the text from the en passant square on.
fn from_en_passant(text: &[u8]) -> &[u8]
    ensures { result.now ≡ from_en_passant text.now }
{
    rest(rest(rest(text)))
}

// ---- the board

fn are_board_letters(board: &[u8]) -> bool
    ensures { result ≡ list_all is_board_letter board.now }
{
    board.iter().all(|byte| is_board_letter(*byte))
}

#[tactic(auto, unfolding(crate::specs::Fen::is_board_letter))]
fn is_board_letter(byte: u8) -> bool
    ensures { result ≡ is_board_letter byte }
{
    is_gap(byte) || man_of_letter(byte).is_some() || byte == b'/'
}

fn is_gap(byte: u8) -> bool
    ensures { result ≡ is_gap byte }
{
    b'1' <= byte && byte <= b'8'
}

/// Returns whether a board has eight ranks of eight squares.
fn has_ranks(board: &[u8]) -> bool
    ensures { result ≡ has_ranks board.now }
{
    has_seven_slashes(board) && are_ranks(board)
}

fn has_seven_slashes(board: &[u8]) -> bool
    ensures { result ≡ (count_by is_slash board.now == 7) }
{
    board.iter().filter(|byte| **byte == b'/').count() == 7
}

/// Returns whether each of a board's eight ranks has eight squares.
fn are_ranks(board: &[u8]) -> bool
    ensures { result ≡ are_ranks 8 board.now }
{
    let mut left = board;
    for _rank in 0..8u8 {
        if !is_eight_wide(first_rank(left)) {
            return false;
        }
        left = after(left, b'/');
    }
    true
}

/// Returns the text before the first slash.
fn first_rank(board: &[u8]) -> &[u8]
    ensures { result.now ≡ before_first is_slash board.now }
{
    &board[..place_of(board, b'/')]
}

/// Returns the number of squares that a character stands for.
#[tactic(auto, unfolding(crate::specs::Fen::width_of))]
fn width_of(byte: u8) -> u8
    ensures width { result ≡ width_of byte }
    ensures small { result ≤ 8 }
{
    if is_gap(byte) { byte - b'0' } else { 1 }
}

/// Returns whether a rank's text stands for eight squares.
fn is_eight_wide(rank: &[u8]) -> bool
    ensures { result ≡ (rank_width rank.now == 8) }
{
    let mut width = 0u8;
    for byte in rank {
        width += width_of(*byte);
        if width > 8 {
            return false;
        }
    }
    width == 8
}

/// Returns the men of a board of eight ranks, from rank 8.
pub(crate) fn men_of_board(board: &[u8]) -> ArrayVec<(Man, Color, Square), 64>
    requires { are_ranks 8 board.now ≡ true }
    ensures { result.items ≡ men_of_ranks 8 board.now }
{
    let mut men = ArrayVec::new();
    let mut left = board;
    for rank in 0..8u8 {
        push_rank(&mut men, first_rank(left), 8 * (7 - rank));
        left = after(left, b'/');
    }
    men
}

/// Appends the men of a rank whose first square is `first`.
fn push_rank(men: &mut ArrayVec<(Man, Color, Square), 64>, rank: &[u8], first: u8)
    requires rank { rank_width rank.now ≡ 8 }
    requires first { first ≤ 56 }
    requires room { array_vec_len men.old + 8 ≤ 64 }
    ensures men { men.new.items ≡ men.old.items ++ men_of_rank first rank.now }
    ensures few { array_vec_len men.new ≤ array_vec_len men.old + 8 }
{
    let mut square = first;
    for byte in rank {
        if !is_gap(*byte) {
            push_man(men, *byte, square);
        }
        square += width_of(*byte);
    }
}

/// Appends the man of a letter, if it is one, on a square.
#[tactic(auto, unfolding(crate::specs::Fen::men_at))]
fn push_man(men: &mut ArrayVec<(Man, Color, Square), 64>, letter: u8, square: u8)
    requires square { square < 64 }
    requires room { array_vec_len men.old < 64 }
    ensures men { men.new.items ≡ men.old.items ++ men_at square (man_of_letter letter) }
{
    if let Some((man, color)) = man_of_letter(letter)
        && let Some(square) = Square::new(square)
    {
        men.push((man, color, square));
    }
}

/// Returns the man and colour of a letter: an upper case letter is a white man's.
fn man_of_letter(letter: u8) -> Option<(Man, Color)>
    ensures { result ≡ man_of_letter letter }
{
    match letter {
        b'K' => Some((Man::King, Color::White)),
        b'Q' => Some((Man::Queen, Color::White)),
        b'R' => Some((Man::Rook, Color::White)),
        b'B' => Some((Man::Bishop, Color::White)),
        b'N' => Some((Man::Knight, Color::White)),
        b'P' => Some((Man::Pawn, Color::White)),
        b'k' => Some((Man::King, Color::Black)),
        b'q' => Some((Man::Queen, Color::Black)),
        b'r' => Some((Man::Rook, Color::Black)),
        b'b' => Some((Man::Bishop, Color::Black)),
        b'n' => Some((Man::Knight, Color::Black)),
        b'p' => Some((Man::Pawn, Color::Black)),
        _ => None,
    }
}

/// Returns whether a field is this one character.
fn is_letter(letter: u8, text: &[u8]) -> bool
    ensures { result ≡ is_letter letter text.now }
{
    text.len() == 1 && text[0] == letter
}

fn is_mover(text: &[u8]) -> bool
    ensures { result ≡ is_mover text.now }
{
    is_letter(b'w', text) || is_letter(b'b', text)
}

/// Returns the colour of a field that is `w` or `b`.
fn mover_of(text: &[u8]) -> Color
    ensures { result ≡ mover_of text.now }
{
    if is_letter(b'w', text) {
        Color::White
    } else {
        Color::Black
    }
}

fn is_dash(text: &[u8]) -> bool
    ensures { result ≡ is_dash text.now }
{
    is_letter(b'-', text)
}

/// Returns whether a field is a square on rank 3 or 6.
fn is_passed_square(text: &[u8]) -> bool
    ensures { result ≡ is_passed_square text.now }
{
    text.len() == 2 && b'a' <= text[0] && text[0] <= b'h' && (text[1] == b'3' || text[1] == b'6')
}

fn is_en_passant_field(text: &[u8]) -> bool
    ensures { result ≡ is_en_passant_field text.now }
{
    is_dash(text) || is_passed_square(text)
}

/// Returns the square of an en passant field. None if it is `-`.
fn en_passant_of(text: &[u8]) -> Option<Square>
    requires { IsTrue (is_en_passant_field text.now) }
    ensures { result ≡ en_passant_of text.now }
{
    if is_dash(text) {
        None
    } else {
        Square::new(8 * (text[1] - b'1') + (text[0] - b'a'))
    }
}

// ---- the counters

/// Returns whether a text is a number of one to nine digits.
fn is_number(text: &[u8]) -> bool
    ensures { result ≡ is_number text.now }
{
    1 <= text.len() && text.len() <= 9 && are_digits(text)
}

fn are_digits(text: &[u8]) -> bool
    ensures { result ≡ list_all (λ c. nat_le 48 c && nat_le c 57) text.now }
{
    text.iter().all(|byte| b'0' <= *byte && *byte <= b'9')
}

/// Returns whether nothing follows the first field.
fn is_last(text: &[u8]) -> bool
    ensures { result ≡ is_last text.now }
{
    field(text).len() == text.len()
}

/// Returns whether nothing follows the first field, or two numbers do.
fn has_counters(text: &[u8]) -> bool
    ensures { result ≡ has_counters text.now }
{
    let more = rest(text);
    is_last(text) || is_number(field(more)) && is_number(rest(more))
}

/// Returns the first number after the first field, or 0.
fn halfmove_of(text: &[u8]) -> u32
    requires { IsTrue (has_counters text.now) }
    ensures { result ≡ halfmove_of text.now }
{
    if is_last(text) {
        0
    } else {
        number_of(field(rest(text)))
    }
}

/// Returns the second number after the first field, or 1.
fn fullmove_of(text: &[u8]) -> u32
    requires { IsTrue (has_counters text.now) }
    ensures { result ≡ fullmove_of text.now }
{
    if is_last(text) {
        1
    } else {
        number_of(rest(rest(text)))
    }
}

/// Returns the number of one to nine digits.
fn number_of(text: &[u8]) -> u32
    requires { IsTrue (is_number text.now) }
    ensures { result ≡ digits_value 10 text.now }
{
    let mut number = 0u32;
    for byte in text {
        number = 10 * number + u32::from(*byte - b'0');
    }
    number
}

// ---- a position as text

/// Appends the eight ranks of a board.
fn push_board(text: &mut ArrayString<80>, men: &[(Man, Color, Square)])
    requires { array_string_len text.old ≡ 0 }
    ensures text { text.new.bytes ≡ text.old.bytes ++ ranks_text men.now 8 }
    ensures len { array_string_len text.new ≤ 71 }
{
    for rank in 0..7u8 {
        push_squares(text, men, 8 * (7 - rank));
        push_letter(text, b'/');
    }
    push_squares(text, men, 0);
}

/// Appends the eight squares of a rank.
fn push_squares(text: &mut ArrayString<80>, men: &[(Man, Color, Square)], first: u8)
    requires room { array_string_len text.old + 9 ≤ 80 }
    requires first { first ≤ 56 }
    ensures text { text.new.bytes ≡ text.old.bytes ++ squares_text men.now 8 first }
    ensures len { array_string_len text.new ≤ array_string_len text.old + 8 }
{
    let mut empty = 0u8;
    for file in 0..8u8 {
        empty = push_square_after(text, empty, man_on(men, first + file));
    }
    push_empty(text, empty);
}

/// Appends a square after `empty` empty ones: if a man is on it, the number of these and the man's letter. Returns the
/// number of empty squares that are not written yet.
fn push_square_after(text: &mut ArrayString<80>, empty: u8, man: Option<(Man, Color)>) -> u8
    requires room { array_string_len text.old + 2 ≤ 80 }
    requires empty { empty ≤ 7 }
    ensures none { man ≡ None → result ≡ empty + 1 }
    ensures kept { man ≡ None → text.new ≡ text.old }
    ensures some { IfSome man (λ m. result ≡ 0) }
    ensures few { result ≤ empty + 1 }
    ensures text { IfSome man (λ m. text.new.bytes ≡ text.old.bytes ++ empty_text empty ++ letter_of_man m ∷ []) }
    ensures len { array_string_len text.new + result ≤ array_string_len text.old + empty + 1 }
{
    match man {
        None => empty + 1,
        Some((man, color)) => {
            push_empty(text, empty);
            push_letter(text, colored_letter(man, color));
            0
        }
    }
}

/// Appends the number of empty squares, if there are any.
fn push_empty(text: &mut ArrayString<80>, empty: u8)
    requires room { array_string_len text.old + 1 ≤ 80 }
    requires few { empty ≤ 8 }
    ensures text { text.new.bytes ≡ text.old.bytes ++ empty_text empty }
    ensures len { array_string_len text.new ≤ array_string_len text.old + empty }
{
    if empty > 0 {
        push_letter(text, b'0' + empty);
    }
}

/// Returns the letter of a man: upper case if it is White's.
fn colored_letter(man: Man, color: Color) -> u8
    ensures letter { result ≡ letter_of_man (man, color) }
    ensures ascii { result < 128 }
{
    match color {
        Color::White => man.letter(),
        Color::Black => 32 + man.letter(),
    }
}

fn push_mover(text: &mut ArrayString<80>, mover: Color)
    requires { array_string_len text.old + 1 ≤ 80 }
    ensures text { text.new.bytes ≡ text.old.bytes ++ mover_text mover }
    ensures len { array_string_len text.new ≡ array_string_len text.old + 1 }
{
    match mover {
        Color::White => push_letter(text, b'w'),
        Color::Black => push_letter(text, b'b'),
    }
}

fn push_en_passant(text: &mut ArrayString<80>, square: &Option<Square>)
    requires { array_string_len text.old + 2 ≤ 80 }
    ensures { text.new.bytes ≡ text.old.bytes ++ en_passant_text square.now }
{
    match square {
        None => push_letter(text, b'-'),
        Some(square) => push_square(text, *square),
    }
}
