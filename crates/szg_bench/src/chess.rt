//! The rules of chess through a C interface, for `checks/` and `bench/`.

ghost use Rattle.std.specs.Prelude.{◌<◌};

use std::alloc::{AllocError, Global};
use szg_chess::{Move, Position};

/// Parses a text in Forsyth-Edwards Notation. Returns 0 and writes the two counters and the position's text, filled up with
/// zeros; or returns the number of the text's first fault, and 255 if it is not UTF-8.
#[unsafe(no_mangle)]
pub extern "C" fn szg_bench_fen(fen: &[u8], counters: &mut [u32], text: &mut [u8]) -> u8 {
    let Ok(fen) = str::from_utf8(fen) else {
        return 255;
    };
    match Position::parse_fen(fen) {
        Ok(record) => {
            copy_text(record.position.fen().as_str(), text);
            if let [halfmove, fullmove] = counters {
                *halfmove = record.halfmove;
                *fullmove = record.fullmove;
            }
            0
        }
        Err(fault) => fault as u8,
    }
}

/// Copies as much of a text as there is room for, and fills up with zeros.
fn copy_text(from: &str, to: &mut [u8]) {
    let from = from.as_bytes();
    for (place, byte) in to.iter_mut().enumerate() {
        *byte = if place < from.len() { from[place] } else { 0 };
    }
}

/// Writes a line for each legal move of a position: its text as programs and as players write it, and the number of
/// sequences of `depth` moves that begin with it. Each move is found again by its text. The text is filled up with zeros.
/// Returns 0, 1 if the text is not a position's, or 2 if memory was refused.
#[unsafe(no_mangle)]
pub extern "C" fn szg_bench_moves(alloc: Global, fen: &[u8], depth: u8, text: &mut [u8]) -> u8 {
    let Ok(fen) = str::from_utf8(fen) else {
        return 1;
    };
    let Ok(record) = Position::parse_fen(fen) else {
        return 1;
    };
    match list_moves(alloc, &record.position, depth) {
        Ok(lines) => {
            copy_text(lines.as_str(), text);
            0
        }
        Err(_) => 2,
    }
}

fn list_moves(alloc: Global, position: &Position, depth: u8) -> Result<String, AllocError> {
    let mut lines = String::new(alloc);
    let moves = position.legal_moves();
    for m in moves.as_slice() {
        let Some(found) = position.parse_uci(m.uci().as_str()) else {
            break;
        };
        let uci = found.uci();
        let san = position.san(m);
        let count = count_moves(&position.after(*m), depth.saturating_sub(1));
        let line = format!(in alloc; "{uci} {san} {count}\n")?;
        lines.push_str(line.as_str())?;
    }
    Ok(lines)
}

/// Counts the sequences of `depth` legal moves.
fn count_moves(position: &Position, depth: u8) -> u64 {
    if depth == 0 {
        return 1;
    }
    let moves = position.legal_moves();
    if depth == 1 {
        return moves.len() as u64;
    }
    let mut count = 0u64;
    for m in moves.as_slice() {
        count = count.wrapping_add(count_moves(&position.after(*m), depth - 1));
    }
    count
}

/// Makes the list of captures of a position `rounds` times, and adds up what is in it.
#[unsafe(no_mangle)]
pub extern "C" fn szg_bench_captures(fen: &[u8], rounds: u32) -> u64 {
    let Some(position) = position_of(fen) else {
        return 0;
    };
    let mut sum = 0u64;
    for _ in 0..rounds {
        for m in position.captures().as_slice() {
            sum = sum.wrapping_add(mixed(m));
        }
    }
    sum
}

/// Makes the list of legal moves of a position `rounds` times, and adds up what is in it.
#[unsafe(no_mangle)]
pub extern "C" fn szg_bench_legal(fen: &[u8], rounds: u32) -> u64 {
    let Some(position) = position_of(fen) else {
        return 0;
    };
    let mut sum = 0u64;
    for _ in 0..rounds {
        for m in position.legal_moves().as_slice() {
            sum = sum.wrapping_add(mixed(m));
        }
    }
    sum
}

/// Makes each legal move of a position `rounds` times, and adds up what the positions after them have.
#[unsafe(no_mangle)]
pub extern "C" fn szg_bench_after(fen: &[u8], rounds: u32) -> u64 {
    let Some(position) = position_of(fen) else {
        return 0;
    };
    let moves = position.legal_moves();
    let mut sum = 0u64;
    for _ in 0..rounds {
        for m in moves.as_slice() {
            sum = sum.wrapping_add(weight(&position.after(*m)));
        }
    }
    sum
}

/// Adds up the squares of a position's men and its en passant square, 64 if there is none.
#[inline(never)]
fn weight(position: &Position) -> u64 {
    let mut sum = match position.en_passant() {
        Some(square) => u64::from(square.number()),
        None => 64,
    };
    for man in position.men() {
        sum = sum.wrapping_add(u64::from(man.2.number()));
    }
    sum
}

fn position_of(fen: &[u8]) -> Option<Position> {
    let Ok(fen) = str::from_utf8(fen) else {
        return None;
    };
    match Position::parse_fen(fen) {
        Ok(record) => Some(record.position),
        Err(_) => None,
    }
}

fn mixed(m: &Move) -> u64 {
    let promotion = match m.promotion {
        Some(man) => u64::from(man.code()),
        None => 0,
    };
    64 * u64::from(m.from.number()) + u64::from(m.to.number()) + 4096 * promotion
}
