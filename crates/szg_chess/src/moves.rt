//! The moves of a position, and the position after a move.

ghost use Rattle.std.specs.Prelude.{ℕ, true, ◌≡◌, ◌≢◌, ◌<◌, ◌≤◌, ◌+◌, ◌==◌, ◌&&◌, ◌||◌, ◌++◌, ◌∷◌, [], not, filter, map, flat_map, length, IsFalse, IsTrue, List, Some, None, unwrap_or, option_copied, if◌then◌else◌, Contains};
ghost use Rattle.std.specs.List.{All, find, list_any};
ghost use Rattle.arrayvec.specs.ArrayVec.{array_vec_len};
ghost use Rattle.szg_values.specs.Men.{is_man, is_color, other_color, file_of, rank_of, square_at};
ghost use Rattle.szg_values.specs.Placement.{AreOnBoard, PlacedMan, men_key};
ghost use Rattle.szg_values.specs.declared.Man.TheVariants.{King, Pawn};
ghost use Rattle.szg_chess.specs.Attacks.{attacks, is_occupied, is_in_check};
ghost use Rattle.szg_chess.specs.Position.{IsPosition};
ghost use Rattle.szg_chess.specs.Squares.{is_in, is_in_moved, squares_of, attacks_past};
ghost use Rattle.szg_chess.specs.Moves.{men_of, promotes, moves_to, moves_if, may_pass, en_passant_moves, captures_by, captures_of, home_rank, double_rank, is_push, may_enter, quiet_moves_by, quiet_moves_of, pawn_moves_of, moves_of, is_pawn_on, is_square, is_en_passant, captured_square, man_after, men_after, is_double_step, middle, after, is_legal, legal_moves, legal_captures, is_capture, is_zeroing, is_mate, is_stalemate, has_no_move, has_quiet_move, has_move_beside_en_passant, may_capture};

use crate::attacks::{
    attacks_past, files_apart, is_ahead, is_in, other_color, ranks_apart, reached_by,
};
use crate::men::{Few, moved};
use crate::positions::is_on;
use crate::tables::reach_of;
use crate::{MAX_CAPTURES, MAX_MOVES, Move, Position};
use arrayvec::ArrayVec;
use szg_values::{Color, Man, Square, key_of};

impl Position {
    /// Returns the legal captures: exactly the legal moves that capture, in the order of `legal_moves`.
    pub fn captures(&self) -> ArrayVec<Move, MAX_CAPTURES>
        ensures list { result.items ≡ legal_captures self.now }
        ensures all { result.items ≡ filter (is_capture self.now) (legal_moves self.now) }
        ensures legal { All (Contains (legal_moves self.now)) result.items }
    {
        let mut moves = ArrayVec::new();
        self.captures_into(&mut moves);
        moves
    }

    /// Appends the legal captures to an empty list, which isn't copied: exactly the legal moves that capture, in the order of
    /// `legal_moves`.
    pub fn captures_into(&self, moves: &mut ArrayVec<Move, MAX_CAPTURES>)
        requires { moves.old.items ≡ [] }
        ensures list { moves.new.items ≡ legal_captures self.now }
        ensures all { moves.new.items ≡ filter (is_capture self.now) (legal_moves self.now) }
        ensures legal { All (Contains (legal_moves self.now)) moves.new.items }
    {
        self.captures_fit();
        self.push_captures(moves);
    }

    /// Returns whether some man of the side to move would attack an enemy man on an empty board, or there is an en passant
    /// square. If not, there is no capture: that is soon known.
    pub fn may_capture(&self) -> bool
        ensures found { result ≡ may_capture self.now }
        ensures none { IsFalse result → legal_captures self.now ≡ [] }
    {
        self.en_passant.is_some() || self.reaches()
    }

    /// Returns the legal moves: captures, then moves to empty squares.
    pub fn legal_moves(&self) -> ArrayVec<Move, MAX_MOVES>
        ensures { result.items ≡ legal_moves self.now }
    {
        self.moves_fit();
        let mut moves = ArrayVec::new();
        self.push_captures(&mut moves);
        self.push_quiet_moves(&mut moves);
        moves
    }

    /// Returns the legal moves that are captures or pawns' moves, in the order of `legal_moves`.
    pub fn zeroing_moves(&self) -> ArrayVec<Move, MAX_MOVES>
        ensures { result.items ≡ filter (is_zeroing self.now) (legal_moves self.now) }
    {
        self.zeroing_moves_fit();
        let mut moves = ArrayVec::new();
        self.push_captures(&mut moves);
        self.push_pawn_moves(&mut moves);
        moves
    }

    /// Returns the position after a legal move.
    #[inline(always)]
    #[tactic(auto, unfolding(crate::specs::Moves::after))]
    pub fn after(&self, m: Move) -> Position
        requires { Contains (legal_moves self.now) m }
        ensures { result ≡ after self.now m }
    {
        let captured = self.captured_square(&m);
        let occupied = self.squares_after(&m, captured);
        let en_passant = self.passed_square(&m);
        let men = self.men_after(&m, captured);
        let key = self.key_after(&m, captured, &men);
        let mover = other_color(self.mover());
        let reached = reached_by(men.as_slice(), mover);
        Position {
            men,
            occupied,
            key,
            reached,
            mover,
            en_passant,
        }
    }

    /// Returns the square that a double step passes over. None if the move is no double step.
    fn passed_square(&self, m: &Move) -> Option<Square>
        ensures { result ≡ (if is_double_step self.now m.now then Some (middle m.now.from m.now.to) else None) }
    {
        let from = m.from.number();
        let to = m.to.number();
        if ranks_apart(from, to) == 2 && self.is_pawn_on(from) {
            Some(square_of((from + to) / 2))
        } else {
            None
        }
    }

    /// Returns whether a move is a capture.
    pub fn is_capture(&self, m: &Move) -> bool
        ensures { result ≡ is_capture self.now m.now }
    {
        self.has_enemy_on(m.to.number()) || self.is_en_passant(m)
    }

    /// Returns whether a move is a pawn's move or a capture.
    pub fn is_zeroing(&self, m: &Move) -> bool
        ensures { result ≡ is_zeroing self.now m.now }
    {
        self.is_pawn_on(m.from.number()) || self.is_capture(m)
    }

    /// Returns whether some legal move is no capture en passant. A table knows nothing of these captures, so its value holds
    /// only where there is such a move, or no capture en passant.
    pub fn has_move_beside_en_passant(&self) -> bool
        ensures { result ≡ has_move_beside_en_passant self.now }
    {
        let moves = self.legal_moves();
        moves.as_slice().iter().any(|m| !self.is_en_passant(m))
    }

    /// Returns whether there is a legal move. The search ends at the first one.
    pub fn has_move(&self) -> bool
        ensures { result ≡ not (has_no_move self.now) }
    {
        self.has_quiet_move() || !self.captures().is_empty()
    }

    /// Returns whether some legal move is no capture. The search ends at the first one.
    pub fn has_quiet_move(&self) -> bool
        ensures { result ≡ has_quiet_move self.now }
    {
        for man in self.men() {
            if self.is_own(man) && self.has_quiet_move_by(man) {
                return true;
            }
        }
        false
    }

    /// Returns whether the side to move is in check and has no move.
    pub fn is_mate(&self) -> bool
        ensures { result ≡ is_mate self.now }
    {
        self.is_check() && !self.has_move()
    }

    /// Returns whether the side to move is not in check and has no move.
    pub fn is_stalemate(&self) -> bool
        ensures { result ≡ is_stalemate self.now }
    {
        !self.is_check() && !self.has_move()
    }

    // A fact that callers may use: there are few captures.
    fn captures_fit(&self)
        ensures few { length (captures_of self.now) ≤ 29 }
        ensures all { filter (is_capture self.now) (legal_moves self.now) ≡ legal_captures self.now }
        ensures legal { All (Contains (legal_moves self.now)) (legal_captures self.now) }
    {
        let _ = self.men();
    }

    // A fact that callers may use: there are few moves.
    fn moves_fit(&self)
        ensures { length (captures_of self.now) + length (quiet_moves_of self.now) ≤ 116 }
    {
        let _ = self.men();
    }

    // A fact that callers may use: which moves are zeroing, and that there are few.
    fn zeroing_moves_fit(&self)
        ensures few { length (captures_of self.now) + length (pawn_moves_of self.now) ≤ 116 }
        ensures all { filter (is_zeroing self.now) (legal_moves self.now) ≡ legal_captures self.now ++ filter (is_legal self.now) (pawn_moves_of self.now) }
    {
        let _ = self.men();
    }

    /// Appends the legal captures.
    #[tactic(auto, unfolding(crate::specs::Moves::captures_of))]
    fn push_captures<const CAP: usize>(&self, moves: &mut ArrayVec<Move, CAP>)
        requires { array_vec_len moves.old + length (captures_of self.now) ≤ CAP }
        ensures { moves.new.items ≡ moves.old.items ++ filter (is_legal self.now) (captures_of self.now) }
    {
        for man in self.men() {
            if self.is_own(man) {
                self.push_captures_by(moves, man);
            }
        }
    }

    /// Appends the legal captures of a man.
    fn push_captures_by<const CAP: usize>(
        &self,
        moves: &mut ArrayVec<Move, CAP>,
        man: &(Man, Color, Square),
    )
        requires standing { Contains self.now.placed_men man.now }
        requires own { is_color self.now.mover man.now.1 ≡ true }
        requires room { array_vec_len moves.old + length (captures_by self.now man.now) ≤ CAP }
        ensures { moves.new.items ≡ moves.old.items ++ filter (is_legal self.now) (captures_by self.now man.now) }
    {
        self.push_captures_of_men(moves, man);
        self.push_en_passant(moves, man);
    }

    /// Returns whether a man of the mover's would attack an enemy man on an empty board. If not, it attacks none.
    fn reaches_enemy(&self, man: &(Man, Color, Square)) -> bool
        requires standing { Contains self.now.placed_men man.now }
        requires own { is_color self.now.mover man.now.1 ≡ true }
        ensures reached { result ≡ list_any (λ t. is_color (other_color self.now.mover) t.1 && attacks [] man.now t.2) self.now.placed_men }
        ensures none { IsFalse result → flat_map (λ t. moves_if (attacks self.now.placed_men man.now t.2) man.now t.2) (men_of (other_color self.now.mover) self.now.placed_men) ≡ [] }
    {
        next_in(reach_of(man) & self.reached(), 0) < 64
    }

    /// Appends the legal captures of enemy men on squares that a man attacks. Few men reach one, so that is asked first.
    fn push_captures_of_men<const CAP: usize>(
        &self,
        moves: &mut ArrayVec<Move, CAP>,
        man: &(Man, Color, Square),
    )
        requires standing { Contains self.now.placed_men man.now }
        requires own { is_color self.now.mover man.now.1 ≡ true }
        requires room { array_vec_len moves.old + length (flat_map (λ t. moves_if (attacks self.now.placed_men man.now t.2) man.now t.2) (men_of (other_color self.now.mover) self.now.placed_men)) ≤ CAP }
        ensures { moves.new.items ≡ moves.old.items ++ filter (is_legal self.now) (flat_map (λ t. moves_if (attacks self.now.placed_men man.now t.2) man.now t.2) (men_of (other_color self.now.mover) self.now.placed_men)) }
    {
        if !self.reaches_enemy(man) {
            return;
        }
        let men = self.men();
        for other in men {
            if self.is_enemy(other) {
                let may_go = self.attacks(man, other.2);
                self.push_if(moves, may_go, false, man, other.2);
            }
        }
    }

    /// Appends the legal captures en passant of a man.
    fn push_en_passant<const CAP: usize>(
        &self,
        moves: &mut ArrayVec<Move, CAP>,
        man: &(Man, Color, Square),
    )
        requires standing { Contains self.now.placed_men man.now }
        requires own { is_color self.now.mover man.now.1 ≡ true }
        requires room { array_vec_len moves.old + length (en_passant_moves self.now.placed_men self.now.en_passant man.now) ≤ CAP }
        ensures { moves.new.items ≡ moves.old.items ++ filter (is_legal self.now) (en_passant_moves self.now.placed_men self.now.en_passant man.now) }
    {
        if let Some(square) = &self.en_passant {
            let may_go = self.may_pass(man, *square);
            self.push_if(moves, may_go, false, man, *square);
        }
    }

    /// Appends the legal moves to empty squares.
    #[tactic(auto, unfolding(crate::specs::Moves::quiet_moves_of))]
    fn push_quiet_moves<const CAP: usize>(&self, moves: &mut ArrayVec<Move, CAP>)
        requires { array_vec_len moves.old + length (quiet_moves_of self.now) ≤ CAP }
        ensures { moves.new.items ≡ moves.old.items ++ filter (is_legal self.now) (quiet_moves_of self.now) }
    {
        for man in self.men() {
            if self.is_own(man) {
                self.push_quiet_moves_by(moves, man);
            }
        }
    }

    /// Appends the legal moves of pawns to empty squares.
    #[tactic(auto, unfolding(crate::specs::Moves::pawn_moves_of))]
    fn push_pawn_moves<const CAP: usize>(&self, moves: &mut ArrayVec<Move, CAP>)
        requires { array_vec_len moves.old + length (pawn_moves_of self.now) ≤ CAP }
        ensures { moves.new.items ≡ moves.old.items ++ filter (is_legal self.now) (pawn_moves_of self.now) }
    {
        for man in self.men() {
            if self.is_own_pawn(man) {
                self.push_quiet_moves_by(moves, man);
            }
        }
    }

    /// Appends the legal moves of a man to empty squares.
    fn push_quiet_moves_by<const CAP: usize>(
        &self,
        moves: &mut ArrayVec<Move, CAP>,
        man: &(Man, Color, Square),
    )
        requires standing { Contains self.now.placed_men man.now }
        requires own { is_color self.now.mover man.now.1 ≡ true }
        requires room { array_vec_len moves.old + length (quiet_moves_by self.now.placed_men man.now) ≤ CAP }
        ensures { moves.new.items ≡ moves.old.items ++ filter (is_legal self.now) (quiet_moves_by self.now.placed_men man.now) }
    {
        let squares = squares_ahead(man);
        let is_free = self.is_free(man);
        let mut number = next_in(squares, 0);
        while number < 64 {
            let to = square_of(number);
            let may_go = self.may_enter(man, to);
            self.push_if(moves, may_go, is_free, man, to);
            number = next_in(squares, number + 1);
        }
    }

    /// Returns whether some move of a man to an empty square is legal.
    fn has_quiet_move_by(&self, man: &(Man, Color, Square)) -> bool
        requires standing { Contains self.now.placed_men man.now }
        requires own { is_color self.now.mover man.now.1 ≡ true }
        ensures { result ≡ list_any (is_legal self.now) (quiet_moves_by self.now.placed_men man.now) }
    {
        let squares = squares_ahead(man);
        let mut to = next_in(squares, 0);
        while to < 64 {
            if self.has_quiet_move_to(man, square_of(to)) {
                return true;
            }
            to = next_in(squares, to + 1);
        }
        false
    }

    /// Returns whether a man may go to a square, if that is empty, by a legal move.
    fn has_quiet_move_to(&self, man: &(Man, Color, Square), to: Square) -> bool
        requires standing { Contains self.now.placed_men man.now }
        requires own { is_color self.now.mover man.now.1 ≡ true }
        ensures { result ≡ list_any (is_legal self.now) (moves_if (may_enter self.now.placed_men man.now to) man.now to) }
    {
        // A fact that the proof uses: the men are those of a position.
        let _ = self.men();
        // One test is enough: what a pawn is promoted to makes no difference to the mover's king.
        self.may_enter(man, to) && self.is_safe(man, to)
    }

    /// Appends the legal moves of a man to a square if it may go there. If it is free, the moves are legal.
    fn push_if<const CAP: usize>(
        &self,
        moves: &mut ArrayVec<Move, CAP>,
        may_go: bool,
        is_free: bool,
        man: &(Man, Color, Square),
        to: Square,
    )
        requires standing { Contains self.now.placed_men man.now }
        requires own { is_color self.now.mover man.now.1 ≡ true }
        requires free { IsTrue is_free → IsTrue may_go → IsTrue (is_legal self.now (record { from = man.now.2; to = to; promotion = None })) }
        requires room { array_vec_len moves.old + length (moves_if may_go man.now to) ≤ CAP }
        ensures { moves.new.items ≡ moves.old.items ++ filter (is_legal self.now) (moves_if may_go man.now to) }
    {
        if may_go {
            self.push_legal(moves, is_free, man, to);
        }
    }

    /// Appends the legal ones of the moves of a man to a square: all if the man is free.
    fn push_legal<const CAP: usize>(
        &self,
        moves: &mut ArrayVec<Move, CAP>,
        is_free: bool,
        man: &(Man, Color, Square),
        to: Square,
    )
        requires standing { Contains self.now.placed_men man.now }
        requires own { is_color self.now.mover man.now.1 ≡ true }
        requires free { IsTrue is_free → IsTrue (is_legal self.now (record { from = man.now.2; to = to; promotion = None })) }
        requires room { array_vec_len moves.old + length (moves_to man.now to) ≤ CAP }
        ensures { moves.new.items ≡ moves.old.items ++ filter (is_legal self.now) (moves_to man.now to) }
    {
        // A fact that the proof uses: the men are those of a position.
        let _ = self.men();
        // One test is enough: what a pawn is promoted to makes no difference to the mover's king.
        if is_free || self.is_safe(man, to) {
            if promotes(man, to) {
                moves.push(promoted(man.2, to, Man::Queen));
                moves.push(promoted(man.2, to, Man::Rook));
                moves.push(promoted(man.2, to, Man::Bishop));
                moves.push(promoted(man.2, to, Man::Knight));
            } else {
                moves.push(plain_move(man.2, to));
            }
        }
    }

    /// Returns whether no move of the mover's man to an empty square leaves the mover's king attacked: without the man, which
    /// is not the king, it is not attacked.
    fn is_free(&self, man: &(Man, Color, Square)) -> bool
        requires standing { Contains self.now.placed_men man.now }
        requires own { is_color self.now.mover man.now.1 ≡ true }
        ensures { IsTrue result → (to : ℕ) → to < 64 → may_enter self.now.placed_men man.now to ≡ true → is_legal self.now (record { from = man.now.2; to = to; promotion = None }) ≡ true }
    {
        if is_man(Man::King, man) {
            return false;
        }
        let king = self.king();
        let left = squares_without(self.occupied(), man.2.number());
        !self.is_attacked_after(man.2.number(), left, king.2)
    }

    /// Returns whether the mover's king is not attacked after a man of the mover's goes to a square.
    #[tactic(auto, unfolding(crate::specs::Moves::is_legal))]
    fn is_safe(&self, man: &(Man, Color, Square), to: Square) -> bool
        requires standing { Contains self.now.placed_men man.now }
        requires own { is_color self.now.mover man.now.1 ≡ true }
        ensures { result ≡ is_legal self.now (record { from = man.now.2; to = to; promotion = None }) }
    {
        let m = plain_move(man.2, to);
        let captured = self.captured_square(&m);
        let occupied = self.squares_after(&m, captured);
        let king = self.king();
        king.2.number() == captured
            || !self.is_attacked_after(captured, occupied, man_after(&m, &king).2)
    }

    /// Returns the mover's king.
    fn king(&self) -> (Man, Color, Square)
        ensures standing { Contains self.now.placed_men result }
        ensures king { (is_man King result.0 && is_color self.now.mover result.1) ≡ true }
    {
        match king_of(self.men(), self.mover()) {
            Some(king) => *king,
            None => (Man::King, self.mover(), Square::default()),
        }
    }

    /// Returns whether an enemy man attacks a square, if the one on `captured` is gone and men are on the squares `occupied`.
    fn is_attacked_after(&self, captured: u8, occupied: u64, square: Square) -> bool
        ensures { result ≡ list_any (λ s. is_color (other_color self.now.mover) s.1 && not (s.2 == captured) && attacks_past occupied s square) self.now.placed_men }
    {
        let other = other_color(self.mover());
        self.men().iter().any(|man| {
            man.1 == other && man.2.number() != captured && attacks_past(occupied, man, square)
        })
    }

    /// Returns the men after a move.
    #[inline(always)]
    #[tactic(auto, unfolding(crate::specs::Moves::men_after))]
    fn men_after(&self, m: &Move, captured: u8) -> Few<(Man, Color, Square)>
        requires captured { captured ≡ captured_square self.now m.now }
        requires inside { captured < 64 }
        ensures men { result ≡ men_after self.now m.now }
        // A fact that callers may use: the move is one of a position.
        ensures position { IsPosition self.now }
    {
        if self.is_occupied(captured) {
            self.men_left(m, captured)
        } else {
            moved(&self.men, m)
        }
    }

    /// Returns the key of the men after a move. It stays if none is captured or promoted.
    #[inline(always)]
    fn key_after(&self, m: &Move, captured: u8, men: &Few<(Man, Color, Square)>) -> u64
        requires men { men.now ≡ men_after self.now m.now }
        requires captured { captured ≡ captured_square self.now m.now }
        requires inside { captured < 64 }
        ensures { result ≡ men_key (men_after self.now m.now) }
    {
        match m.promotion {
            None if !self.is_occupied(captured) => self.key(),
            _ => key_of(men.as_slice()),
        }
    }

    /// Returns the men after a move, without the one on `captured`.
    #[inline(always)]
    fn men_left(&self, m: &Move, captured: u8) -> Few<(Man, Color, Square)>
        ensures { result ≡ map (man_after m.now) (filter (λ s. not (s.2 == captured)) self.now.placed_men) }
    {
        let mut men = Few::new();
        for man in self.men() {
            if man.2.number() != captured {
                men.push(man_after(m, man));
            }
        }
        men
    }

    /// Returns the squares of the men after a move.
    fn squares_after(&self, m: &Move, captured: u8) -> u64
        requires { captured ≡ captured_square self.now m.now }
        ensures squares { result ≡ squares_of (men_after self.now m.now) }
        ensures on_board { AreOnBoard self.now.placed_men }
        ensures inside { m.now.to < 64 }
        ensures position { IsPosition self.now }
    {
        squares_moved(self.occupied(), captured, m.from.number(), m.to.number())
    }

    /// Returns the square of the man that a move captures, if it captures one.
    fn captured_square(&self, m: &Move) -> u8
        ensures square { result ≡ captured_square self.now m.now }
        ensures inside { result < 64 }
    {
        if self.is_en_passant(m) {
            8 * (m.from.number() / 8) + m.to.number() % 8
        } else {
            m.to.number()
        }
    }

    /// Returns whether a pawn goes to the square that an enemy pawn has just passed over, from a file beside.
    #[tactic(auto, unfolding(crate::specs::Moves::is_en_passant))]
    pub fn is_en_passant(&self, m: &Move) -> bool
        ensures { result ≡ is_en_passant self.now m.now }
    {
        is_square(&self.en_passant, m.to)
            && files_apart(m.from.number(), m.to.number()) == 1
            && self.is_pawn_on(m.from.number())
    }

    /// Returns whether a man attacks a square.
    fn attacks(&self, man: &(Man, Color, Square), to: Square) -> bool
        ensures { result ≡ attacks self.now.placed_men man.now to }
    {
        attacks_past(self.occupied(), man, to)
    }

    /// Returns whether a pawn attacks the square that an enemy pawn has just passed over.
    fn may_pass(&self, man: &(Man, Color, Square), square: Square) -> bool
        ensures { result ≡ may_pass self.now.placed_men man.now square }
    {
        man.0 == Man::Pawn && self.attacks(man, square)
    }

    /// Returns whether a man may go to a square that is empty.
    #[tactic(auto, unfolding(crate::specs::Moves::may_enter))]
    fn may_enter(&self, man: &(Man, Color, Square), to: Square) -> bool
        ensures { result ≡ may_enter self.now.placed_men man.now to }
    {
        if self.is_occupied(to.number()) {
            return false;
        }
        if man.0 == Man::Pawn {
            self.is_push(man.1, man.2.number(), to.number())
        } else {
            self.attacks(man, to)
        }
    }

    /// Returns whether a pawn's push leads from one square to another.
    fn is_push(&self, color: Color, from: u8, to: u8) -> bool
        requires from { from < 64 }
        requires to { to < 64 }
        ensures { result ≡ is_push self.now.placed_men color from to }
    {
        files_apart(from, to) == 0
            && (is_ahead(color, from, to)
                || from / 8 == home_rank(color)
                    && to / 8 == double_rank(color)
                    && !self.is_occupied((from + to) / 2))
    }

    /// Returns whether a man is on the square.
    fn is_occupied(&self, square: u8) -> bool
        requires { square < 64 }
        ensures { result ≡ is_occupied self.now.placed_men square }
    {
        is_in(self.occupied(), square)
    }

    /// Returns whether an enemy man is on the square. That no man is there is soon known.
    fn has_enemy_on(&self, square: u8) -> bool
        requires { square < 64 }
        ensures { result ≡ list_any (λ s. is_color (other_color self.now.mover) s.1 && s.2 == square) self.now.placed_men }
    {
        self.is_occupied(square) && is_any_on(other_color(self.mover), self.men.as_slice(), square)
    }

    /// Returns whether a man is the mover's.
    fn is_own(&self, man: &(Man, Color, Square)) -> bool
        ensures { result ≡ is_color self.now.mover man.now.1 }
    {
        self.mover == man.1
    }

    /// Returns whether a man is a pawn of the mover's.
    fn is_own_pawn(&self, man: &(Man, Color, Square)) -> bool
        ensures { result ≡ (is_color self.now.mover man.now.1 && is_man Pawn man.now.0) }
    {
        self.is_own(man) && is_man(Man::Pawn, man)
    }

    /// Returns whether a man is the other side's.
    fn is_enemy(&self, man: &(Man, Color, Square)) -> bool
        ensures { result ≡ is_color (other_color self.now.mover) man.now.1 }
    {
        other_color(self.mover) == man.1
    }

    /// Returns whether the mover has a pawn on the square.
    fn is_pawn_on(&self, square: u8) -> bool
        ensures { result ≡ is_pawn_on self.now square }
    {
        is_on(Man::Pawn, self.mover, self.men.as_slice(), square)
    }
}

/// Returns squares among which are all that a man might enter: those that it attacks on an empty board, or a pawn's file.
fn squares_ahead(man: &(Man, Color, Square)) -> u64
    ensures { (square : ℕ) → square < 64 → IsFalse (is_in result square) → (men : List PlacedMan) → IsFalse (may_enter men man.now square) }
{
    if is_man(Man::Pawn, man) {
        squares_of_file(man.2.number() % 8)
    } else {
        reach_of(man)
    }
}

/// Returns the squares of a file.
fn squares_of_file(file: u8) -> u64
    requires { file < 8 }
    ensures { (square : ℕ) → square < 64 → is_in result square ≡ (file_of square == file) }
{
    0x0101_0101_0101_0101 << file
}

/// Returns the first square of a set from `from` on. 64 if there is none.
pub fn next_in(squares: u64, from: u8) -> u8
    requires { from ≤ 64 }
    ensures from { from ≤ result }
    ensures within { result ≤ 64 }
    ensures found { result < 64 → IsTrue (is_in squares result) }
    ensures first { (square : ℕ) → from ≤ square → square < result → IsFalse (is_in squares square) }
{
    if from == 64 {
        return 64;
    }
    let rest = squares >> from;
    if rest == 0 {
        return 64;
    }
    from + rest.trailing_zeros() as u8
}

/// Returns whether a man is of this kind.
fn is_man(kind: Man, man: &(Man, Color, Square)) -> bool
    ensures { result ≡ is_man kind man.now.0 }
{
    man.0 == kind
}

/// Returns a set of squares without one.
fn squares_without(squares: u64, square: u8) -> u64
    requires { square < 64 }
    ensures { (other : ℕ) → other < 64 → is_in result other ≡ (is_in squares other && not (other == square)) }
{
    squares & !(1 << square)
}

/// Returns the squares of men after one goes from a square to another, and the one on `captured` vanishes before.
fn squares_moved(occupied: u64, captured: u8, from: u8, to: u8) -> u64
    requires captured { captured < 64 }
    requires from { from < 64 }
    requires to { to < 64 }
    ensures { (square : ℕ) → square < 64 → is_in result square ≡ is_in_moved (is_in occupied) captured from to square }
{
    let kept = occupied & !(1 << captured);
    if is_in(kept, from) {
        kept & !(1 << from) | 1 << to
    } else {
        kept
    }
}

/// Returns the first king of a colour.
fn king_of(men: &[(Man, Color, Square)], color: Color) -> Option<&(Man, Color, Square)>
    ensures { option_copied result ≡ find (λ s. is_man King s.0 && is_color color s.1) men.now }
{
    men.iter().find(|man| man.0 == Man::King && man.1 == color)
}

/// Returns the move of a man that is not promoted.
fn plain_move(from: Square, to: Square) -> Move
    ensures { result ≡ record { from = from; to = to; promotion = None } }
{
    Move {
        from,
        to,
        promotion: None,
    }
}

/// Returns the move of a pawn that is promoted.
fn promoted(from: Square, to: Square, piece: Man) -> Move
    ensures { result ≡ record { from = from; to = to; promotion = Some piece } }
{
    Move {
        from,
        to,
        promotion: Some(piece),
    }
}

/// Returns the square of a number.
fn square_of(number: u8) -> Square
    requires { number < 64 }
    ensures { result ≡ number }
{
    match Square::new(number) {
        Some(square) => square,
        None => Square::default(),
    }
}

/// Returns whether the square is this one.
fn is_square(square: &Option<Square>, other: Square) -> bool
    ensures { result ≡ is_square square.now other }
{
    match square {
        None => false,
        Some(square) => square.number() == other.number(),
    }
}

/// Returns whether a man of this colour is on the square.
fn is_any_on(color: Color, men: &[(Man, Color, Square)], square: u8) -> bool
    ensures { result ≡ list_any (λ s. is_color color s.1 && s.2 == square) men.now }
{
    men.iter()
        .any(|man| man.1 == color && man.2.number() == square)
}

/// Returns a man after a move.
#[inline(always)]
pub(crate) fn man_after(m: &Move, man: &(Man, Color, Square)) -> (Man, Color, Square)
    ensures { result ≡ man_after m.now man.now }
{
    if man.2.number() == m.from.number() {
        (m.promotion.unwrap_or(man.0), man.1, m.to)
    } else {
        *man
    }
}

/// Returns whether a man is a pawn that promotes on the square.
fn promotes(man: &(Man, Color, Square), to: Square) -> bool
    ensures { result ≡ promotes man.now to }
{
    let rank = to.number() / 8;
    man.0 == Man::Pawn && (rank == 0 || rank == 7)
}

fn home_rank(color: Color) -> u8
    ensures { result ≡ home_rank color }
{
    match color {
        Color::White => 1,
        Color::Black => 6,
    }
}

fn double_rank(color: Color) -> u8
    ensures { result ≡ double_rank color }
{
    match color {
        Color::White => 3,
        Color::Black => 4,
    }
}
