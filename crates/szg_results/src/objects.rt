//! An answer as a JSON object, with the fields, names and viewpoint of lichess's tablebase: what is said of a move is said
//! of the position after it, for the player to move there.

ghost use Rattle.std.specs.Prelude.{◌≡◌, ◌++◌, All, Contains, IfOk, OnOk, Some, string_bytes};
ghost use Rattle.std.specs.List.{list_all, list_any};
ghost use Rattle.szg_chess.specs.Moves.{legal_moves};
ghost use Rattle.szg_values.specs.Men.{is_man};
ghost use Rattle.szg_results.specs.Objects.{category, dtz_of, head_text, is_insufficient, is_king_or_bishop_on, move_object, moves_text, number_or_null, object_text, others_text, state_text};

use crate::Answer;
use crate::pieces::Piece;
use std::alloc::{AllocError, Global};
use std::fmt::{self, Write};
use szg_chess::Position;
use szg_game::Class;
use szg_probe::RankedMove;
use szg_values::{Color, Man, Square};

/// A legal move, and the DTZ of the position after it with its sign. None if it is not known.
#[derive(Clone, Copy)]
pub(crate) struct MoveAfter {
    pub(crate) ranked: RankedMove,
    pub(crate) dtz: Option<i64>,
}

/// What was found over what was fetched of tables, or one more piece that was read, so that it is to be sought again.
#[derive(Drop)]
pub(crate) enum OrPiece<T> {
    Found(T),
    Read(Piece),
}

/// A number, or `null`.
#[derive(Clone, Copy)]
struct Nullable {
    number: Option<i64>,
}

impl fmt::Display for Nullable {
    ghost output = { λ n. Some (number_or_null n.number) };

    fn fmt<W: fmt::Write>(&self, f: &mut fmt::Formatter<W>) -> fmt::Result {
        match self.number {
            Some(number) => write!(f, "{number}"),
            None => f.write_str("null"),
        }
    }
}

/// What a position of a class and a DTZ is for the player to move.
#[derive(Clone, Copy)]
struct State<'a> {
    position: &'a Position,
    class: Class,
    dtz: Option<i64>,
}

impl fmt::Display for State<'_> {
    ghost output = { λ s. Some (state_text s.position.now s.class s.dtz) };

    fn fmt<W: fmt::Write>(&self, f: &mut fmt::Formatter<W>) -> fmt::Result {
        let category = category(self.class);
        let dtz = Nullable { number: self.dtz };
        let mate = self.position.is_mate();
        let stalemate = self.position.is_stalemate();
        let insufficient = is_insufficient(self.position.men());
        write!(
            f,
            "\"category\":\"{category}\",\"dtz\":{dtz},\"checkmate\":{mate},\"stalemate\":{stalemate},\"insufficient_material\":{insufficient}"
        )
    }
}

/// Returns the object of an answer, as a line.
pub(crate) fn object_of(
    alloc: Global,
    position: &Position,
    answer: &Answer,
    moves: &[MoveAfter],
) -> Result<String, AllocError>
    requires { All (λ s. Contains (legal_moves position.now) s.ranked.m) moves.now }
    ensures { IfOk result (λ text. string_bytes text ≡ object_text position.now answer.now moves.now) }
{
    let mut text = head_text(alloc, position, answer)?;
    add_moves(&mut text, position, moves)?;
    text.push_str("]}\n")?;
    Ok(text)
}

/// Returns the beginning of an object, up to its moves.
fn head_text(alloc: Global, position: &Position, answer: &Answer) -> Result<String, AllocError>
    ensures { IfOk result (λ text. string_bytes text ≡ head_text position.now answer.now) }
{
    let state = State {
        position,
        class: answer.distance.class,
        dtz: dtz_of(answer),
    };
    format!(in alloc; "{{{state},\"moves\":[")
}

/// Returns the DTZ of an answer with its sign. None if it is not known.
fn dtz_of(answer: &Answer) -> Option<i64>
    ensures { result ≡ dtz_of answer.now }
{
    if answer.has_distances {
        Some(answer.distance.signed())
    } else {
        None
    }
}

/// Adds the objects of legal moves, with commas between.
fn add_moves(text: &mut String, position: &Position, moves: &[MoveAfter]) -> Result<(), AllocError>
    requires { All (λ s. Contains (legal_moves position.now) s.ranked.m) moves.now }
    ensures { OnOk result (string_bytes text.new ≡ string_bytes text.old ++ moves_text position.now moves.now) }
{
    let Some((first, others)) = moves.split_first() else {
        return Ok(());
    };
    add_move(text, position, "", first)?;
    add_others(text, position, others)
}

/// Adds the objects of legal moves, each after a comma.
fn add_others(
    text: &mut String,
    position: &Position,
    others: &[MoveAfter],
) -> Result<(), AllocError>
    requires { All (λ s. Contains (legal_moves position.now) s.ranked.m) others.now }
    ensures { OnOk result (string_bytes text.new ≡ string_bytes text.old ++ others_text position.now others.now) }
{
    'others: for other in others {
        add_move(text, position, ",", other)?;
    }
    Ok(())
}

/// Adds a text and the object of a legal move.
fn add_move(
    text: &mut String,
    position: &Position,
    before: &str,
    after: &MoveAfter,
) -> Result<(), AllocError>
    requires { Contains (legal_moves position.now) after.now.ranked.m }
    ensures { OnOk result (string_bytes text.new ≡ string_bytes text.old ++ (before.now ++ move_object position.now after.now)) }
{
    let m = &after.ranked.m;
    let san = position.san(m);
    let san = san.as_str();
    let zeroing = after.ranked.zeroing;
    let next = position.after(*m);
    let state = State {
        position: &next,
        class: after.ranked.distance.class.negate(),
        dtz: after.dtz,
    };
    write!(
        text,
        "{before}{{\"uci\":\"{m}\",\"san\":\"{san}\",\"zeroing\":{zeroing},{state}}}"
    )
}

/// Returns a class as lichess names it.
fn category(class: Class) -> &'static str
    ensures { result.now ≡ category class }
{
    match class {
        Class::Win => "win",
        Class::CursedWin => "cursed-win",
        Class::Draw => "draw",
        Class::BlessedLoss => "blessed-loss",
        Class::Loss => "loss",
    }
}

/// Returns whether nobody can be mated: beside the kings there are only bishops on squares of one color, or one knight.
fn is_insufficient(men: &[(Man, Color, Square)]) -> bool
    ensures { result ≡ is_insufficient men.now }
{
    are_kings_or_bishops_on(0, men)
        || are_kings_or_bishops_on(1, men)
        || (men.len() == 3 && has_knight(men))
}

/// Returns whether men are kings, and bishops on squares of a color: 0 is that of a1.
fn are_kings_or_bishops_on(color: u8, men: &[(Man, Color, Square)]) -> bool
    ensures { result ≡ list_all (is_king_or_bishop_on color) men.now }
{
    men.iter().all(|man| is_king_or_bishop_on(color, man))
}

fn has_knight(men: &[(Man, Color, Square)]) -> bool
    ensures { result ≡ list_any (λ s. is_man Man.Knight s.0) men.now }
{
    men.iter().any(|man| Man::Knight == man.0)
}

/// Returns whether a man is a king, or a bishop on a square of a color: 0 is that of a1.
fn is_king_or_bishop_on(color: u8, man: &(Man, Color, Square)) -> bool
    ensures { result ≡ is_king_or_bishop_on color man.now }
{
    let square = man.2.number();
    match man.0 {
        Man::King => true,
        Man::Bishop => (square / 8 + square % 8) % 2 == color,
        Man::Queen | Man::Rook | Man::Knight | Man::Pawn => false,
    }
}
