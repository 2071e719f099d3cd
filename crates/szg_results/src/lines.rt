//! The text of an answer.

ghost use Rattle.std.specs.Prelude.{◌≡◌, ◌++◌, IfOk, OnOk, All, Contains, Some, string_bytes};
ghost use Rattle.szg_chess.specs.Moves.{legal_moves};
ghost use Rattle.szg_results.specs.Lines.{answer_line, answer_text, class_word, flag, move_line, plies_text};

use crate::Answer;
use std::alloc::{AllocError, Global};
use std::fmt::{self, Write};
use szg_chess::Position;
use szg_game::Class;
use szg_probe::{Distance, RankedMove};
use szg_tables::number_of_class;

/// A distance with its sign, or a dash if no DTZ table is there.
#[derive(Clone, Copy)]
struct Plies {
    is_known: bool,
    distance: Distance,
}

impl fmt::Display for Plies {
    ghost output = { λ plies. Some (plies_text plies.is_known plies.distance) };

    fn fmt<W: fmt::Write>(&self, f: &mut fmt::Formatter<W>) -> fmt::Result {
        if self.is_known {
            let signed = self.distance.signed();
            write!(f, "{signed}")
        } else {
            f.write_str("-")
        }
    }
}

/// Returns one line: the text that was asked for, the class from -2 to 2, the distance and the best move, with tabs
/// between.
pub fn line_of(alloc: Global, fen: &str, answer: &Answer) -> Result<String, AllocError>
    ensures { IfOk result (λ line. string_bytes line ≡ answer_line fen.now answer.now) }
{
    let class = number_of_class(answer.distance.class);
    let dtz = Plies {
        is_known: answer.has_distances,
        distance: answer.distance,
    };
    match answer.moves.as_slice().first() {
        Some(best) => {
            let m = &best.m;
            format!(in alloc; "{fen}\t{class}\t{dtz}\t{m}\n")
        }
        None => format!(in alloc; "{fen}\t{class}\t{dtz}\t-\n"),
    }
}

/// Returns the result, the distance, and a line for each move: UCI, SAN, class, distance, and `zeroing`, `mate`,
/// `stalemate`.
pub fn text_of(alloc: Global, position: &Position, answer: &Answer) -> Result<String, AllocError>
    requires { All (λ r. Contains (legal_moves position.now) r.m) answer.now.moves.items }
    ensures { IfOk result (λ text. string_bytes text ≡ answer_text position.now answer.now) }
{
    let is_known = answer.has_distances;
    let word = class_word(answer.distance.class);
    let dtz = Plies {
        is_known,
        distance: answer.distance,
    };
    let mut text = format!(in alloc; "result {word}\ndtz {dtz}\n")?;
    'moves: for r in answer.moves.as_slice() {
        add_move(&mut text, position, is_known, r)?;
    }
    Ok(text)
}

/// Adds the line of a legal move.
fn add_move(
    text: &mut String,
    position: &Position,
    is_known: bool,
    r: &RankedMove,
) -> Result<(), AllocError>
    requires { Contains (legal_moves position.now) r.now.m }
    ensures { OnOk result (string_bytes text.new ≡ string_bytes text.old ++ move_line position.now is_known r.now) }
{
    let m = &r.m;
    let san = position.san(m);
    let san = san.as_str();
    let word = class_word(r.distance.class);
    let dtz = Plies {
        is_known,
        distance: r.distance,
    };
    let zeroing = flag(r.zeroing, "\tzeroing");
    let mate = flag(r.mate, "\tmate");
    let stalemate = flag(r.stalemate, "\tstalemate");
    write!(
        text,
        "{m}\t{san}\t{word}\t{dtz}{zeroing}{mate}{stalemate}\n"
    )
}

fn flag(is_set: bool, word: &'static str) -> &'static str
    ensures { result.now ≡ flag is_set word.now }
{
    if is_set { word } else { "" }
}

/// Returns the board of a position's text, from White's side, and an empty line; nothing if it is no position.
pub fn board_of(alloc: Global, fen: &str) -> Result<String, AllocError> {
    let mut text = String::new(alloc);
    if Position::parse_fen(fen).is_err() {
        return Ok(text);
    }
    let Some(board) = fen.split(' ').next() else {
        return Ok(text);
    };
    for letter in board.chars() {
        match letter.to_digit(10) {
            Some(count) => {
                for _ in 0..count {
                    text.push_str(" .")?;
                }
            }
            None if letter == '/' => text.push('\n')?,
            None => {
                text.push(' ')?;
                text.push(letter)?;
            }
        }
    }
    text.push_str("\n\n")?;
    Ok(text)
}

/// Returns a class in words.
fn class_word(class: Class) -> &'static str
    ensures { result.now ≡ class_word class }
{
    match class {
        Class::Win => "win",
        Class::CursedWin => "cursed win",
        Class::Draw => "draw",
        Class::BlessedLoss => "blessed loss",
        Class::Loss => "loss",
    }
}
