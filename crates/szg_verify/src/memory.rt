//! Room for entries that were found, so that each is found once mostly.

ghost use Rattle.std.specs.Prelude.{◌≡◌, ◌&&◌, not, ◌<◌, ◌≤◌, ◌+◌, ◌-◌, ◌*◌, ◌^◌, List, Some, IfSome, IsFalse, IsTrue, Contains, length, map, nat_lt, if◌then◌else◌};
ghost use Rattle.szg_values.specs.Men.{other_color};
ghost use Rattle.szg_values.specs.Placement.{AreOnBoard};
ghost use Rattle.szg_values.specs.declared.Man.{Man};
ghost use Rattle.szg_values.specs.declared.Color.{Color};
ghost use Rattle.szg_game.specs.declared.Entry.{Entry};
ghost use Rattle.szg_chess.specs.Laws.{kinds_of};
ghost use Rattle.szg_chess.specs.Moves.{after, is_zeroing, legal_moves, man_after};
ghost use Rattle.szg_chess.specs.Position.{Position, IsPosition};
ghost use Rattle.szg_verify.specs.Entries.{StoredTables};
ghost use Rattle.szg_verify.specs.Memory.{AreRight, IsNumbered, IsSpotOf, class_by, class_code, code_of, digits_of, found_by, holds_pawn, is_near, is_wide, packed, place_value, size_of, start_of, unit_on};

use szg_chess::{Move, Position};
use szg_game::{Class, Entry};
use szg_values::{Color, Man, Square};

/// Room for the entry of a position: four bytes.
#[derive(Clone, Copy, Debug, Default, PartialEq, Eq)]
pub struct Cell {
    tag: u16,
    lower: u8,
    code: u8,
}

/// Where the entry of a position is kept.
#[derive(Clone, Copy)]
struct CellSpot {
    tag: u16,
    place: usize,
}

/// The squares of a position's men as one number, whether one of them is a pawn, and the place value of the man on a square:
/// what the spots of the positions after his moves have in common.
#[derive(Drop)]
pub(crate) struct NumberedMen {
    pub(crate) digits: u64,
    pub(crate) pawn: bool,
    pub(crate) square: Square,
    pub(crate) place: u64,
}

/// Returns the number of a position's men, with the place value of the man on a1.
pub(crate) fn number_men(position: &Position) -> NumberedMen
    ensures { IsNumbered position.now.placed_men result.digits result.pawn result.square result.place }
{
    let men = position.men();
    let square = Square::default();
    NumberedMen {
        digits: digits_of(men),
        pawn: holds_pawn(men),
        square,
        place: place_value(square, men),
    }
}

/// Sets the square of the man whose place value is there.
pub(crate) fn set_square(numbered: &mut NumberedMen, position: &Position, square: Square)
    requires { IsNumbered position.now.placed_men numbered.old.digits numbered.old.pawn numbered.old.square numbered.old.place }
    ensures numbered { IsNumbered position.now.placed_men numbered.new.digits numbered.new.pawn numbered.new.square numbered.new.place }
    ensures square { numbered.new.square ≡ square }
{
    if numbered.square.number() != square.number() {
        numbered.square = square;
        numbered.place = place_value(square, position.men());
    }
}

/// Returns whether a move is zeroing, given the men's number.
pub(crate) fn is_zeroing(numbered: &NumberedMen, position: &Position, m: &Move) -> bool
    requires { IsNumbered position.now.placed_men numbered.now.digits numbered.now.pawn numbered.now.square numbered.now.place }
    ensures { result ≡ is_zeroing position.now m.now }
{
    // Without pawns captures alone are zeroing.
    if numbered.pawn {
        position.is_zeroing(m)
    } else {
        position.is_capture(m)
    }
}

/// Empties all cells.
pub(crate) fn clear(cells: &mut [Cell])
    ensures { (kinds : List (Man × Color)) (tables : StoredTables) → AreRight kinds tables cells.new }
{
    for place in 0..cells.len() {
        cells[place] = Cell {
            tag: 0,
            lower: 0,
            code: 0,
        };
    }
}

/// Returns the entry of a position that was kept, if it still is there: the one by the stored number alone, or the whole.
pub(crate) fn recall(cells: &[Cell], needs_near: bool, position: &Position) -> Option<Entry>
    ensures { IfSome result (λ e. (tables : StoredTables) → AreRight (kinds_of position.now.placed_men) tables cells.now → found_by needs_near tables position.now ≡ Some e) }
{
    let Some(spot) = spot_of(cells.len(), position) else {
        return None;
    };
    recall_at(cells, needs_near, spot)
}

/// Returns what `recall` does for the position after a legal move that is not zeroing, without making that position.
pub(crate) fn recall_after(
    cells: &[Cell],
    needs_near: bool,
    position: &Position,
    numbered: &NumberedMen,
    m: &Move,
) -> Option<Entry>
    requires numbered { IsNumbered position.now.placed_men numbered.now.digits numbered.now.pawn numbered.now.square numbered.now.place }
    requires from { numbered.now.square ≡ m.now.from }
    requires legal { Contains (legal_moves position.now) m.now }
    requires quiet { IsFalse (is_zeroing position.now m.now) }
    ensures { IfSome result (λ e. (tables : StoredTables) → AreRight (kinds_of position.now.placed_men) tables cells.now → found_by needs_near tables (after position.now m.now) ≡ Some e) }
{
    let Some(spot) = spot_after(cells.len(), position, numbered, m) else {
        return None;
    };
    recall_at(cells, needs_near, spot)
}

/// Returns the entry that was kept at a spot, if it still is there.
fn recall_at(cells: &[Cell], needs_near: bool, spot: CellSpot) -> Option<Entry>
    requires inside { spot.place < length cells.now }
    ensures { IfSome result (λ e. (p : Position) (tables : StoredTables) → IsPosition p → IsSpotOf (length cells.now) p spot.tag spot.place → AreRight (kinds_of p.placed_men) tables cells.now → found_by needs_near tables p ≡ Some e) }
{
    let cell = cells[spot.place];
    if cell.tag != spot.tag {
        return None;
    }
    if lacks_near(needs_near, cell.code) {
        return None;
    }
    match class_by(cell.code % 8) {
        Some(class) => Some(entry_in(&cell, class)),
        None => None,
    }
}

/// Returns whether the entry by the stored number alone is needed, and a code says another one.
fn lacks_near(needs_near: bool, code: u8) -> bool
    ensures { result ≡ (needs_near && not (is_near code)) }
{
    needs_near && !is_near(code)
}

/// Returns the entry of a cell with this class.
fn entry_in(cell: &Cell, class: Class) -> Entry
    ensures { result ≡ record { class = class; lower = cell.now.lower; upper = cell.now.lower + (if is_wide cell.now.code then 1 else 0) } }
{
    let lower = u32::from(cell.lower);
    let upper = if is_wide(cell.code) { lower + 1 } else { lower };
    Entry {
        class,
        lower,
        upper,
    }
}

/// Keeps the entry of a position in place of another one, if there is room for it.
pub(crate) fn keep(cells: &mut [Cell], near: bool, position: &Position, entry: Entry)
    ensures { (tables : StoredTables) → AreRight (kinds_of position.now.placed_men) tables cells.old → found_by near tables position.now ≡ Some entry → AreRight (kinds_of position.now.placed_men) tables cells.new }
{
    let Some(spot) = spot_of(cells.len(), position) else {
        return;
    };
    if 255 < entry.lower || !is_narrow(&entry) {
        return;
    }
    cells[spot.place] = Cell {
        tag: spot.tag,
        lower: entry.lower as u8,
        code: code_of(entry.class, entry.lower < entry.upper, near),
    };
}

/// Returns whether the bounds are equal, or the upper one is one more.
fn is_narrow(entry: &Entry) -> bool
    requires { entry.now.lower < 2 ^ 31 }
    ensures { IsTrue result → entry.now.upper ≡ entry.now.lower + (if nat_lt entry.now.lower entry.now.upper then 1 else 0) }
{
    entry.upper == entry.lower || entry.upper == entry.lower + 1
}

/// Returns a class, whether the upper bound is one above the lower one, and whether the entry is by the stored number
/// alone, as one number.
fn code_of(class: Class, wide: bool, near: bool) -> u8
    ensures { result ≡ code_of class wide near }
{
    class_code(class) + if wide { 8 } else { 0 } + if near { 16 } else { 0 }
}

fn class_code(class: Class) -> u8
    ensures code { result ≡ class_code class }
    ensures few { result ≤ 5 }
{
    match class {
        Class::Loss => 1,
        Class::BlessedLoss => 2,
        Class::Draw => 3,
        Class::CursedWin => 4,
        Class::Win => 5,
    }
}

/// Returns the class of a code. None: the cell is empty.
fn class_by(code: u8) -> Option<Class>
    ensures { result ≡ class_by code }
{
    match code {
        1 => Some(Class::Loss),
        2 => Some(Class::BlessedLoss),
        3 => Some(Class::Draw),
        4 => Some(Class::CursedWin),
        5 => Some(Class::Win),
        _ => None,
    }
}

fn is_wide(code: u8) -> bool
    ensures { result ≡ is_wide code }
{
    code / 8 % 2 == 1
}

fn is_near(code: u8) -> bool
    ensures { result ≡ is_near code }
{
    code / 16 == 1
}

/// Returns where the entry of a position is kept, of so many cells.
fn spot_of(len: usize, position: &Position) -> Option<CellSpot>
    ensures spot { IfSome result (λ s. IsSpotOf len position.now s.tag s.place) }
    ensures inside { IfSome result (λ s. s.place < len) }
    // A fact that the proof uses: the men are those of a position.
    ensures position { IsPosition position.now }
{
    let men = position.men();
    if position.en_passant().is_some() {
        return None;
    }
    spot_by(len, position.mover(), holds_pawn(men), digits_of(men))
}

/// Returns where the entry of the position after a legal move that is not zeroing is kept, of so many cells.
fn spot_after(len: usize, position: &Position, numbered: &NumberedMen, m: &Move) -> Option<CellSpot>
    requires numbered { IsNumbered position.now.placed_men numbered.now.digits numbered.now.pawn numbered.now.square numbered.now.place }
    requires from { numbered.now.square ≡ m.now.from }
    requires legal { Contains (legal_moves position.now) m.now }
    requires quiet { IsFalse (is_zeroing position.now m.now) }
    ensures spot { IfSome result (λ s. IsSpotOf len (after position.now m.now) s.tag s.place) }
    ensures inside { IfSome result (λ s. s.place < len) }
    // A fact that the proof uses: the men are those of a position.
    ensures position { IsPosition position.now }
{
    // A fact that the proof uses: the men are those of a position.
    let _ = position.men();
    let pawn = numbered.pawn;
    let digits = digits_after(position, numbered, m);
    spot_by(len, other_color(position.mover()), pawn, digits)
}

fn other_color(color: Color) -> Color
    ensures { result ≡ other_color color }
{
    match color {
        Color::White => Color::Black,
        Color::Black => Color::White,
    }
}

/// Returns where the entry of a position of a side to move is kept, with or without pawns, from the squares of the men.
fn spot_by(len: usize, mover: Color, pawn: bool, digits: u64) -> Option<CellSpot>
    ensures from { IfSome result (λ s. start_of mover len ≤ s.place) }
    ensures to { IfSome result (λ s. s.place < start_of mover len + size_of mover len) }
    ensures number { IfSome result (λ s. packed pawn digits ≡ Some (s.tag * size_of mover len + (s.place - start_of mover len))) }
    ensures inside { IfSome result (λ s. s.place < len) }
{
    let number = match packed(pawn, digits) {
        Some(number) => number,
        None => return None,
    };
    match mover {
        Color::White => spot_in(0, len - len / 16, number),
        Color::Black => spot_in(len - len / 16, len / 16, number),
    }
}

/// Returns where a number is kept, of `size` cells from `start` on.
fn spot_in(start: usize, size: usize, number: u64) -> Option<CellSpot>
    requires { start + size < 2 ^ 64 }
    ensures from { IfSome result (λ s. start ≤ s.place) }
    ensures to { IfSome result (λ s. s.place < start + size) }
    ensures number { IfSome result (λ s. number ≡ s.tag * size + (s.place - start)) }
{
    let cells = size as u64;
    if number < cells {
        return Some(CellSpot {
            tag: 0,
            place: start + number as usize,
        });
    }
    if size == 0 || 65_535 < number / cells {
        return None;
    }
    Some(CellSpot {
        tag: (number / cells) as u16,
        place: start + (number % cells) as usize,
    })
}

/// Returns the number by which an entry is kept, from the squares of the men: without pawns the first man, White's king,
/// is met on the ranks 1 to 5 of the files a to e alone.
fn packed(pawn: bool, digits: u64) -> Option<u64>
    ensures { IfSome result (λ n. packed pawn digits ≡ Some n) }
{
    if pawn {
        return Some(digits);
    }
    let file = digits % 8;
    let rank = digits / 8 % 8;
    if file < 5 && rank < 5 {
        Some(file + (5 * rank + 25 * (digits / 64)))
    } else {
        None
    }
}

/// Returns whether one of the men is a pawn.
pub(crate) fn holds_pawn(men: &[(Man, Color, Square)]) -> bool
    ensures { result ≡ holds_pawn men.now }
{
    men.iter().any(|man| man.0 == Man::Pawn)
}

/// Returns the squares of men as one number, the first man's the last digit in base 64.
fn digits_of(men: &[(Man, Color, Square)]) -> u64
    requires count { length men.now ≤ 6 }
    requires on_board { AreOnBoard men.now }
    ensures digits { result ≡ digits_of men.now }
    ensures few { result < 2 ^ 36 }
{
    let mut digits = 0;
    for step in 0..men.len() {
        digits = u64::from(men[men.len() - 1 - step].2.number()) + 64 * digits;
    }
    digits
}

/// Returns the squares of the men after a move that captures none as one number, from the number before it.
fn digits_after(position: &Position, numbered: &NumberedMen, m: &Move) -> u64
    requires numbered { IsNumbered position.now.placed_men numbered.now.digits numbered.now.pawn numbered.now.square numbered.now.place }
    requires from { numbered.now.square ≡ m.now.from }
    ensures digits { result ≡ digits_of (map (man_after m.now) position.now.placed_men) }
{
    // A fact that the proof uses: the men are those of a position.
    let _ = position.men();
    let place = numbered.place;
    let gained = place * u64::from(m.to.number());
    let lost = place * u64::from(m.from.number());
    numbered.digits + gained - lost
}

/// Returns the place value of the man on a square in that number: what the number is if he is on b1, and the others are on a1.
fn place_value(square: Square, men: &[(Man, Color, Square)]) -> u64
    requires { length men.now ≤ 6 }
    ensures { result ≡ place_value square men.now }
{
    let mut value = 0;
    for step in 0..men.len() {
        let unit = unit_on(square, &men[men.len() - 1 - step]);
        value = unit + 64 * value;
    }
    value
}

/// Returns 1 if a man is on a square, else 0.
fn unit_on(square: Square, man: &(Man, Color, Square)) -> u64
    ensures unit { result ≡ unit_on square man.now }
    ensures few { result ≤ 1 }
{
    if man.2.number() == square.number() {
        1
    } else {
        0
    }
}
