//! Moves as text, as players write them (SAN).

ghost use Rattle.std.specs.Prelude.{◌≡◌, ◌≤◌, ◌<◌, ◌+◌, ◌++◌, ◌∷◌, ◌&&◌, ◌==◌, [], not, Some, Contains};
ghost use Rattle.std.specs.List.{list_any};
ghost use Rattle.arrayvec.specs.ArrayString.{array_string_len};
ghost use Rattle.szg_values.specs.Men.{is_man, file_of, rank_of};
ghost use Rattle.szg_chess.specs.Position.{man_on};
ghost use Rattle.szg_chess.specs.Moves.{legal_moves, is_capture, is_mate, is_check, after};
ghost use Rattle.szg_chess.specs.San.{moved_kind, is_rival, is_rival_on_file, is_rival_on_rank, file_text, rank_text, origin_text, mover_text, capture_text, promotion_text, check_text, san_text};

use crate::positions::man_on;
use crate::texts::{push_letter, push_square};
use crate::{Move, Position};
use arrayvec::ArrayString;
use szg_values::{Man, Square};

impl Position {
    /// Returns the text of a legal move in standard algebraic notation, as `Nf3`, `exd6`, `R1xe4`, `e8=Q+` or `Kb6#`.
    #[tactic(auto, unfolding(crate::specs::San::san_text))]
    pub fn san(&self, m: &Move) -> ArrayString<9>
        requires { Contains (legal_moves self.now) m.now }
        ensures { result.bytes ≡ san_text self.now m.now }
    {
        let mut text = ArrayString::new();
        let capture = self.is_capture(m);
        self.push_mover(&mut text, m, capture);
        push_capture(&mut text, capture);
        push_square(&mut text, m.to);
        push_promotion(&mut text, &m.promotion);
        push_check(&mut text, &self.after(*m));
        text
    }

    /// Appends the letter of a piece and, if needed, where it comes from; of a pawn nothing, or its file if it captures.
    #[tactic(auto, unfolding(crate::specs::San::mover_text))]
    fn push_mover(&self, text: &mut ArrayString<9>, m: &Move, capture: bool)
        requires room { array_string_len text.old + 3 ≤ 9 }
        requires capture { capture ≡ is_capture self.now m.now }
        ensures text { text.new.bytes ≡ text.old.bytes ++ mover_text self.now m.now }
        ensures len { array_string_len text.new ≤ array_string_len text.old + 3 }
    {
        let kind = self.moved_kind(m);
        if kind == Man::Pawn {
            if capture {
                push_file(text, m.from);
            }
        } else {
            push_letter(text, kind.letter());
            self.push_origin(text, m);
        }
    }

    /// Appends where a piece comes from, if another piece of its kind may go to the same square.
    #[tactic(auto, unfolding(crate::specs::San::origin_text))]
    fn push_origin(&self, text: &mut ArrayString<9>, m: &Move)
        requires room { array_string_len text.old + 2 ≤ 9 }
        ensures text { text.new.bytes ≡ text.old.bytes ++ origin_text self.now m.now }
        ensures len { array_string_len text.new ≤ array_string_len text.old + 2 }
    {
        let moves = self.legal_moves();
        if !self.has_rival(m, moves.as_slice()) {
            return;
        }
        if !self.has_rival_on_file(m, moves.as_slice()) {
            push_file(text, m.from);
            return;
        }
        if self.has_rival_on_rank(m, moves.as_slice()) {
            push_file(text, m.from);
        }
        push_rank(text, m.from);
    }

    fn has_rival(&self, m: &Move, moves: &[Move]) -> bool
        ensures { result ≡ list_any (is_rival self.now m.now) moves.now }
    {
        moves.iter().any(|other| self.is_rival(m, other))
    }

    fn has_rival_on_file(&self, m: &Move, moves: &[Move]) -> bool
        ensures { result ≡ list_any (is_rival_on_file self.now m.now) moves.now }
    {
        moves.iter().any(|other| {
            self.is_rival(m, other) && other.from.number() % 8 == m.from.number() % 8
        })
    }

    fn has_rival_on_rank(&self, m: &Move, moves: &[Move]) -> bool
        ensures { result ≡ list_any (is_rival_on_rank self.now m.now) moves.now }
    {
        moves.iter().any(|other| {
            self.is_rival(m, other) && other.from.number() / 8 == m.from.number() / 8
        })
    }

    /// Returns whether another piece of the same kind goes to the same square by the other move.
    fn is_rival(&self, m: &Move, other: &Move) -> bool
        ensures { result ≡ is_rival self.now m.now other.now }
    {
        other.to.number() == m.to.number()
            && other.from.number() != m.from.number()
            && self.moved_kind(other) == self.moved_kind(m)
    }

    /// Returns what the man that moves is.
    fn moved_kind(&self, m: &Move) -> Man
        ensures { result ≡ moved_kind self.now m.now }
    {
        match man_on(self.men(), m.from.number()) {
            Some((man, _)) => man,
            None => Man::Pawn,
        }
    }
}

fn push_file(text: &mut ArrayString<9>, square: Square)
    requires { array_string_len text.old + 1 ≤ 9 }
    ensures text { text.new.bytes ≡ text.old.bytes ++ file_text square }
    ensures len { array_string_len text.new ≡ array_string_len text.old + 1 }
{
    push_letter(text, b'a' + square.number() % 8);
}

fn push_rank(text: &mut ArrayString<9>, square: Square)
    requires { array_string_len text.old + 1 ≤ 9 }
    ensures text { text.new.bytes ≡ text.old.bytes ++ rank_text square }
    ensures len { array_string_len text.new ≡ array_string_len text.old + 1 }
{
    push_letter(text, b'1' + square.number() / 8);
}

fn push_capture(text: &mut ArrayString<9>, capture: bool)
    requires { array_string_len text.old + 1 ≤ 9 }
    ensures text { text.new.bytes ≡ text.old.bytes ++ capture_text capture }
    ensures len { array_string_len text.new ≤ array_string_len text.old + 1 }
{
    if capture {
        push_letter(text, b'x');
    }
}

fn push_promotion(text: &mut ArrayString<9>, promotion: &Option<Man>)
    requires { array_string_len text.old + 2 ≤ 9 }
    ensures text { text.new.bytes ≡ text.old.bytes ++ promotion_text promotion.now }
    ensures len { array_string_len text.new ≤ array_string_len text.old + 2 }
{
    if let Some(man) = promotion {
        push_letter(text, b'=');
        push_letter(text, man.letter());
    }
}

/// Appends `#` if the side to move is mated, and `+` if it is in check but not mated.
fn push_check(text: &mut ArrayString<9>, position: &Position)
    requires { array_string_len text.old + 1 ≤ 9 }
    ensures { text.new.bytes ≡ text.old.bytes ++ check_text position.now }
{
    if position.is_mate() {
        push_letter(text, b'#');
    } else if position.is_check() {
        push_letter(text, b'+');
    }
}
