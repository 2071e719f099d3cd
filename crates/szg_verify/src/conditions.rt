//! The conditions on the entry of a position, by what breaks them.

ghost use Rattle.std.specs.Prelude.{◌≡◌, ◌<◌, ◌^◌, ◌&&◌, not, IfSome, IsFalse, IsTrue, is_none};
ghost use Rattle.std.specs.List.{list_all, list_any};
ghost use Rattle.szg_game.specs.Game.{is_empty};
ghost use Rattle.szg_game.specs.Certified.{accepts, is_loss, is_lost, is_win, is_won, makes_progress};
ghost use Rattle.szg_verify.specs.Conditions.{breaks_at, has_better_move, has_no_move_that_keeps, is_out_of_range, is_still, is_within};
ghost use Rattle.szg_verify.specs.Entries.{keeps};

use crate::entries::{is_drawn, keeps};
use szg_game::{Class, Entry, is_accepted};
use thiserror::Error;

/// Why a position does not pass.
#[derive(Clone, Copy, Debug, PartialEq, Eq, Error)]
pub enum Condition {
    /// The tables have no number for the position, nor for those after its moves that are not zeroing.
    #[error("the tables have no distance of the position")]
    NoNumber,
    /// They have none for the position after some move.
    #[error("the tables have no distance of the position after some move")]
    NoNumberAfter,
    /// A win or a loss takes more plies than the fifty-move rule leaves, or none although there is a move.
    #[error("the distance is not from 1 to 100 plies")]
    Distance,
    /// The player to move is mated, and the entry says something else.
    #[error("a mate is taken as something else")]
    Mate,
    /// The player to move has no move and is not in check, and the entry says something else than a draw.
    #[error("a stalemate is taken as something else")]
    Stalemate,
    /// A move leads to a better class.
    #[error("a move keeps a better class than the entry says")]
    BetterMove,
    /// No move leads to the class.
    #[error("no move keeps the class")]
    NoMoveKeeps,
    /// No move that keeps a win brings it nearer, or some move of a loss does not.
    #[error("the distance does not fall")]
    NoProgress,
    /// Some move wins, or each move loses, in fewer plies than the entry says.
    #[error("the win or the loss comes sooner than the distance says")]
    Sooner,
}

/// Returns a condition that the entry of a position breaks, given whether the player to move is in check, and for each
/// move the entry that it leads to and whether it is zeroing. None if the entry is accepted.
pub fn broken_by(
    limit: u32,
    entry: Entry,
    in_check: bool,
    successors: &[(Entry, bool)],
) -> Option<Condition>
    requires { limit < 2 ^ 31 }
    ensures accepted { is_none result ≡ accepts limit entry in_check successors.now }
    ensures broken { IfSome result (λ c. IsTrue (breaks_at limit entry in_check successors.now c)) }
{
    if is_accepted(limit, entry, in_check, successors) {
        return None;
    }
    Some(first_broken(limit, entry, in_check, successors))
}

/// Returns a condition that an entry breaks that is not accepted.
fn first_broken(limit: u32, entry: Entry, in_check: bool, successors: &[(Entry, bool)]) -> Condition
    requires few { limit < 2 ^ 31 }
    requires refused { IsFalse (accepts limit entry in_check successors.now) }
    ensures { IsTrue (breaks_at limit entry in_check successors.now result) }
{
    if is_out_of_range(limit, entry, successors) {
        return Condition::Distance;
    }
    if has_none(successors) {
        return if in_check {
            Condition::Mate
        } else {
            Condition::Stalemate
        };
    }
    if has_better_move(limit, entry.class, successors) {
        Condition::BetterMove
    } else if has_no_move_that_keeps(limit, entry.class, successors) {
        Condition::NoMoveKeeps
    } else if is_still(entry, successors) {
        Condition::NoProgress
    } else {
        Condition::Sooner
    }
}

/// Returns whether a win or a loss takes more plies than the limit, or none although there is a move.
fn is_out_of_range(limit: u32, entry: Entry, successors: &[(Entry, bool)]) -> bool
    ensures { result ≡ is_out_of_range limit entry successors.now }
{
    (entry.class.is_win() || entry.class.is_loss())
        && (limit < entry.upper || entry.upper == 0 && !has_none(successors))
}

fn has_none(successors: &[(Entry, bool)]) -> bool
    ensures { result ≡ is_empty successors.now }
{
    successors.is_empty()
}

/// Returns whether some move gives more than the class.
fn has_better_move(limit: u32, class: Class, successors: &[(Entry, bool)]) -> bool
    requires { limit < 2 ^ 31 }
    ensures { result ≡ has_better_move limit class successors.now }
{
    match class {
        Class::Win => false,
        Class::CursedWin => has_win_within(limit, successors),
        Class::Draw => has_lost(successors),
        Class::BlessedLoss => !are_won(successors),
        Class::Loss => !are_wins(successors),
    }
}

/// Returns whether each move gives less than the class.
fn has_no_move_that_keeps(limit: u32, class: Class, successors: &[(Entry, bool)]) -> bool
    requires { limit < 2 ^ 31 }
    ensures { result ≡ has_no_move_that_keeps limit class successors.now }
{
    match class {
        Class::Win => !has_loss(successors),
        Class::CursedWin => !has_lost(successors),
        Class::Draw => are_won(successors),
        Class::BlessedLoss => has_only_wins_within(limit, successors),
        Class::Loss => false,
    }
}

/// Returns whether some move leads to a loss for the opponent within the limit.
fn has_win_within(limit: u32, successors: &[(Entry, bool)]) -> bool
    requires { limit < 2 ^ 31 }
    ensures { result ≡ list_any (λ m. is_loss m.0.class && is_within limit m) successors.now }
{
    successors
        .iter()
        .any(|m| m.0.class.is_loss() && is_within(limit, m))
}

/// Returns whether each move leads to a win for the opponent within the limit.
fn has_only_wins_within(limit: u32, successors: &[(Entry, bool)]) -> bool
    requires { limit < 2 ^ 31 }
    ensures { result ≡ list_all (λ m. is_win m.0.class && is_within limit m) successors.now }
{
    successors
        .iter()
        .all(|m| m.0.class.is_win() && is_within(limit, m))
}

fn has_loss(successors: &[(Entry, bool)]) -> bool
    ensures { result ≡ list_any (λ m. is_loss m.0.class) successors.now }
{
    successors.iter().any(|m| m.0.class.is_loss())
}

fn has_lost(successors: &[(Entry, bool)]) -> bool
    ensures { result ≡ list_any (λ m. is_lost m.0.class) successors.now }
{
    successors.iter().any(|m| m.0.class.is_lost())
}

fn are_wins(successors: &[(Entry, bool)]) -> bool
    ensures { result ≡ list_all (λ m. is_win m.0.class) successors.now }
{
    successors.iter().all(|m| m.0.class.is_win())
}

fn are_won(successors: &[(Entry, bool)]) -> bool
    ensures { result ≡ list_all (λ m. is_won m.0.class) successors.now }
{
    successors.iter().all(|m| m.0.class.is_won())
}

/// Returns whether a move ends the game within the limit.
fn is_within(limit: u32, to: &(Entry, bool)) -> bool
    ensures { result ≡ is_within limit to.now }
{
    to.1 || to.0.lower < limit
}

/// Returns whether no move that keeps a win brings it nearer, or some move of a loss does not.
fn is_still(entry: Entry, successors: &[(Entry, bool)]) -> bool
    ensures { result ≡ is_still entry successors.now }
{
    if entry.class.is_won() {
        !has_nearer(entry, successors)
    } else {
        !is_drawn(entry.class) && !are_nearer(entry, successors)
    }
}

fn has_nearer(entry: Entry, successors: &[(Entry, bool)]) -> bool
    ensures { result ≡ list_any (λ m. keeps entry.class m.0.class && makes_progress entry m) successors.now }
{
    successors.iter().any(|m| keeps(entry.class, m.0.class) && makes_progress(entry, m))
}

fn are_nearer(entry: Entry, successors: &[(Entry, bool)]) -> bool
    ensures { result ≡ list_all (makes_progress entry) successors.now }
{
    successors.iter().all(|m| makes_progress(entry, m))
}

/// Returns whether a move is zeroing or lowers the upper bound.
fn makes_progress(entry: Entry, to: &(Entry, bool)) -> bool
    ensures { result ≡ makes_progress entry to.now }
{
    to.1 || to.0.upper < entry.upper
}
