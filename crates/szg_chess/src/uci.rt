//! Moves as text, as chess programs exchange them (UCI).

ghost use Rattle.std.specs.Prelude.{◌≡◌, Some, bytes_eq, option_copied};
ghost use Rattle.std.specs.List.{find};
ghost use Rattle.szg_chess.specs.Uci.{uci_text};
ghost use Rattle.szg_chess.specs.Moves.{legal_moves};

use crate::texts::{push_letter, push_square};
use crate::{Move, Position};
use arrayvec::ArrayString;
use std::fmt;

impl Move {
    /// Returns the text of the move, as `e2e4` or `e7e8q`.
    pub fn uci(&self) -> ArrayString<5>
        ensures { result.bytes ≡ uci_text self.now }
    {
        let mut text = ArrayString::new();
        push_square(&mut text, self.from);
        push_square(&mut text, self.to);
        if let Some(man) = self.promotion {
            push_letter(&mut text, 32 + man.letter());
        }
        text
    }
}

impl Move {
    fn has_uci(&self, text: &str) -> bool
        ensures { result ≡ bytes_eq (uci_text self.now) text.now }
    {
        self.uci().as_str() == text
    }
}

impl fmt::Display for Move {
    ghost output = { λ m. Some (uci_text m) };

    fn fmt<W: fmt::Write>(&self, f: &mut fmt::Formatter<W>) -> fmt::Result {
        let text = self.uci();
        f.write_str(text.as_str())
    }
}

impl Position {
    /// Returns the legal move with this text. None if no legal move has it.
    pub fn parse_uci(&self, text: &str) -> Option<Move>
        ensures { result ≡ find (λ m. bytes_eq (uci_text m) text.now) (legal_moves self.now) }
    {
        let moves = self.legal_moves();
        find_move(moves.as_slice(), text).copied()
    }
}

fn find_move<'a>(moves: &'a [Move], text: &str) -> Option<&'a Move>
    ensures { option_copied result ≡ find (λ m. bytes_eq (uci_text m) text.now) moves.now }
{
    moves.iter().find(|m| m.has_uci(text))
}
