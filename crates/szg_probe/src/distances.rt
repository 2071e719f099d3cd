//! Distances: how many plies there are to the next zeroing move or to mate.

ghost use Rattle.std.specs.Prelude.{◌≡◌, ◌<◌, ◌≤◌, ◌+◌, ◌^◌, ◌||◌, [], true, not, IfOk, IfErr, IfNone, None, Some, Contains};
ghost use Rattle.std.specs.Option.{ForSome};
ghost use Rattle.szg_game.specs.Classes.{negate};
ghost use Rattle.szg_chess.specs.Moves.{after, has_no_move, is_zeroing, legal_moves};
ghost use Rattle.szg_probe.specs.Chess.{ChessClass};
ghost use Rattle.szg_probe.specs.Probing.{AreTrue, MayFail, has_only_captures, probed};
ghost use Rattle.szg_probe.specs.Distances.{MayFailByZeroing, MayFailBySearch, MayLack, at_counter, choose_some, chosen, class_at, differs_without_right, distance_by, distance_of, has_zeroing, is_drawn, is_next, keeps_by_zeroing, offset_of, probed_distance, quiet_distance, searched_distance, signed_distance, stays, stored_distance};

use crate::probes::{probe_wdl, search};
use crate::{DistanceTables, Tables};
use szg_chess::{Move, Position};
use szg_game::Class;

/// The class of a position, and its distance in plies: to the next zeroing move or to mate, 100 more for a cursed win or
/// a blessed loss, and 0 for a draw.
#[derive(Clone, Copy, Debug, PartialEq, Eq)]
pub struct Distance {
    /// The class for the player to move.
    pub class: Class,
    /// The number of plies.
    pub plies: u32,
}

impl Default for Distance {
    fn default() -> Distance {
        Distance {
            class: Class::Draw,
            plies: 0,
        }
    }
}

impl Distance {
    /// Returns the same number with the class that is left with this fifty-move counter: a win or a loss of more plies
    /// than the counter leaves is a cursed win or a blessed loss. (`dtz_to_wdl` in Fathom.)
    pub fn at_counter(self, counter: u32) -> Distance
        ensures { result ≡ at_counter counter self.class self.plies }
    {
        Distance {
            class: class_at(counter, self.class, self.plies),
            plies: self.plies,
        }
    }

    /// Returns the number of plies, negative for a loss. (`probe_dtz` in the probing code.)
    pub fn signed(self) -> i64
        ensures { result ≡ signed_distance self.class self.plies }
    {
        let plies = i64::from(self.plies);
        if self.class.is_lost() { -plies } else { plies }
    }
}

/// Returns the class that is left with a fifty-move counter.
fn class_at(counter: u32, class: Class, plies: u32) -> Class
    ensures { result ≡ class_at counter class plies }
{
    let spoilt = u64::from(plies) + u64::from(counter) > 100;
    match class {
        Class::Win if spoilt => Class::CursedWin,
        Class::Loss if spoilt => Class::BlessedLoss,
        _ => class,
    }
}

/// Why there is no distance.
#[derive(Clone, Copy, Debug, Drop, PartialEq, Eq)]
pub enum DistanceFault<F> {
    /// The tables have no class or no number.
    Tables(F),
    /// The tables contradict themselves: no move keeps a win, or numbers are there for neither side to move.
    Contradiction,
}

/// Returns the class and the distance of a position. The table stores numbers for one side to move alone; for the other
/// one the moves are tried. (`probe_dtz` in the probing code.)
///
/// Errors: those of the tables, and `Contradiction` if no move keeps a win or the number is there for neither side.
#[tactic(auto, using(crate::proofs::Moves::drawn_distance))]
pub fn probe_dtz<T: DistanceTables>(
    tables: &mut T,
    position: &Position,
) -> Result<Distance, DistanceFault<T::Fault>>
    ensures same { tables.new ≡ tables.old }
    ensures distance { IfOk result (λ d. probed_distance (T.stored tables.old) (T.numbers tables.old) position.now ≡ Some (d.class, d.plies)) }
    ensures class { IfOk result (λ d. AreTrue (T.stored tables.old) → ChessClass position.now d.class) }
    ensures fault { IfErr result (MayLack (λ fault. MayFailBySearch (T.explains (T.stored tables.old) (T.numbers tables.old) fault) position.now) (probed_distance (T.stored tables.old) (T.numbers tables.old) position.now ≡ None)) }
{
    let class = match probe_wdl(tables, position) {
        Ok(class) => class,
        Err(fault) => return Err(DistanceFault::Tables(fault)),
    };
    if is_drawn(class) {
        return Ok(Distance { class, plies: 0 });
    }
    match distance_of(tables, position, class) {
        Ok(plies) => Ok(Distance { class, plies }),
        Err(fault) => Err(fault),
    }
}

/// Returns the distance of a position of this class.
pub(crate) fn distance_of<T: DistanceTables>(
    tables: &mut T,
    position: &Position,
    class: Class,
) -> Result<u32, DistanceFault<T::Fault>>
    requires { probed (T.stored tables.old) position.now ≡ Some class }
    ensures same { tables.new ≡ tables.old }
    ensures distance { IfOk result (λ d. distance_of (T.stored tables.old) (T.numbers tables.old) position.now class ≡ Some d) }
    ensures few { IfOk result (λ d. d < 2 ^ 31 + 102) }
    ensures fault { IfErr result (MayLack (λ fault. MayFailBySearch (T.explains (T.stored tables.old) (T.numbers tables.old) fault) position.now) (distance_of (T.stored tables.old) (T.numbers tables.old) position.now class ≡ None)) }
{
    match stored_distance(tables, position, class) {
        Ok(Some(plies)) => Ok(plies),
        Ok(None) => searched_distance(tables, position, class),
        Err(fault) => Err(DistanceFault::Tables(fault)),
    }
}

/// Returns what the fifty-move rule adds to a distance.
pub(crate) fn offset_of(class: Class) -> u32
    ensures offset { result ≡ offset_of class }
    ensures few { result ≤ 100 }
{
    match class {
        Class::CursedWin | Class::BlessedLoss => 100,
        Class::Win | Class::Draw | Class::Loss => 0,
    }
}

pub(crate) fn is_drawn(class: Class) -> bool
    ensures { result ≡ is_drawn class }
{
    !(class.is_won() || class.is_lost())
}

/// Returns whether a legal move that is zeroing leads to a position of the negated class.
#[tactic(auto, unfolding(crate::specs::Distances::keeps_by_zeroing))]
fn keeps_by_zeroing<T: Tables>(
    tables: &mut T,
    position: &Position,
    class: Class,
    m: Move,
) -> Result<bool, T::Fault>
    requires legal { Contains (legal_moves position.now) m }
    requires zeroing { is_zeroing position.now m ≡ true }
    ensures same { tables.new ≡ tables.old }
    ensures keeps { IfOk result (λ b. keeps_by_zeroing (T.stored tables.old) position.now class m ≡ Some b) }
    ensures fault { IfErr result (λ fault. MayFailByZeroing (T.explains (T.stored tables.old) (T.numbers tables.old) fault) position.now) }
{
    // A fact that the proof uses: the men are those of a position.
    let _ = position.men();
    match search(tables, &position.after(m)) {
        Ok(found) => Ok(found.level() == class.negate().level()),
        Err(fault) => Err(fault),
    }
}

/// Returns whether some zeroing move keeps the class.
fn has_zeroing<T: Tables>(
    tables: &mut T,
    position: &Position,
    class: Class,
) -> Result<bool, T::Fault>
    ensures same { tables.new ≡ tables.old }
    ensures zeroing { IfOk result (λ b. has_zeroing (T.stored tables.old) position.now class ≡ Some b) }
    ensures fault { IfErr result (λ fault. MayFailByZeroing (T.explains (T.stored tables.old) (T.numbers tables.old) fault) position.now) }
{
    let moves = position.zeroing_moves();
    for m in moves.as_slice() {
        match keeps_by_zeroing(tables, position, class, *m) {
            Ok(true) => return Ok(true),
            Ok(false) => {}
            Err(fault) => return Err(fault),
        }
    }
    Ok(false)
}

/// Returns whether a position has its class only by the right to capture en passant.
fn differs_without_right<T: Tables>(
    tables: &mut T,
    position: &Position,
    class: Class,
) -> Result<bool, T::Fault>
    requires { probed (T.stored tables.old) position.now ≡ Some class }
    ensures same { tables.new ≡ tables.old }
    ensures differs { IfOk result (λ b. differs_without_right (T.stored tables.old) position.now class ≡ Some b) }
    ensures fault { IfErr result (λ fault. MayFail (T.explains (T.stored tables.old) (T.numbers tables.old) fault) position.now) }
{
    // A fact that the proof uses: the men are those of a position.
    let _ = position.men();
    if position.en_passant().is_none() {
        return Ok(false);
    }
    match search(tables, &position.without_en_passant()) {
        Ok(found) => Ok(found.level() != class.level()),
        Err(fault) => Err(fault),
    }
}

/// Returns whether there is no legal move, or each is a capture.
fn has_no_quiet_move(position: &Position) -> bool
    ensures { result ≡ (has_no_move position.now || has_only_captures position.now) }
{
    !position.has_quiet_move()
}

/// Returns whether the next move of a position of this class settles its distance.
fn is_next<T: Tables>(tables: &mut T, position: &Position, class: Class) -> Result<bool, T::Fault>
    requires { probed (T.stored tables.old) position.now ≡ Some class }
    ensures same { tables.new ≡ tables.old }
    ensures next { IfOk result (λ b. is_next (T.stored tables.old) position.now class ≡ Some b) }
    ensures fault { IfErr result (λ fault. MayFailByZeroing (T.explains (T.stored tables.old) (T.numbers tables.old) fault) position.now) }
{
    if has_no_quiet_move(position) {
        return Ok(true);
    }
    match differs_without_right(tables, position, class) {
        Ok(true) => Ok(true),
        Ok(false) if class.is_won() => has_zeroing(tables, position, class),
        Ok(false) => Ok(false),
        Err(fault) => Err(fault),
    }
}

/// Returns the distance of a position of this class without a search. None if the tables store the other side.
#[tactic(auto, unfolding(crate::specs::Distances::stored_distance))]
fn stored_distance<T: DistanceTables>(
    tables: &mut T,
    position: &Position,
    class: Class,
) -> Result<Option<u32>, T::Fault>
    requires { probed (T.stored tables.old) position.now ≡ Some class }
    ensures same { tables.new ≡ tables.old }
    ensures distance { IfOk result (λ d. stored_distance (T.stored tables.old) (T.numbers tables.old) position.now class ≡ Some d) }
    ensures few { IfOk result (λ d. ForSome d (λ plies. plies < 2 ^ 31 + 101)) }
    ensures fault { IfErr result (λ fault. MayFailByZeroing (T.explains (T.stored tables.old) (T.numbers tables.old) fault) position.now) }
{
    // A fact that the proof uses: the men are those of a position.
    let _ = position.men();
    if is_drawn(class) {
        return Ok(Some(0));
    }
    let offset = offset_of(class);
    match is_next(tables, position, class) {
        Ok(true) => Ok(Some(1 + offset)),
        Ok(false) => match tables.number(position, class) {
            Ok(Some(number)) => Ok(Some(1 + number + offset)),
            Ok(None) => Ok(None),
            Err(fault) => Err(fault),
        },
        Err(fault) => Err(fault),
    }
}

/// Returns the distance of a position of this class by its legal moves.
#[tactic(auto, unfolding(crate::specs::Distances::searched_distance))]
fn searched_distance<T: DistanceTables>(
    tables: &mut T,
    position: &Position,
    class: Class,
) -> Result<u32, DistanceFault<T::Fault>>
    ensures same { tables.new ≡ tables.old }
    ensures distance { IfOk result (λ d. searched_distance (T.stored tables.old) (T.numbers tables.old) position.now class ≡ Some d) }
    ensures few { IfOk result (λ d. d < 2 ^ 31 + 102) }
    ensures fault { IfErr result (MayLack (λ fault. MayFailBySearch (T.explains (T.stored tables.old) (T.numbers tables.old) fault) position.now) (searched_distance (T.stored tables.old) (T.numbers tables.old) position.now class ≡ None)) }
{
    let moves = position.legal_moves();
    let mut found = chosen_of_none(class);
    for m in moves.as_slice() {
        match quiet_distance(tables, position, class, *m) {
            Ok(quiet) => found = choose_some(class.is_won(), quiet, found),
            Err(fault) => return Err(fault),
        }
    }
    match found {
        Some(plies) => Ok(plies),
        None => Err(DistanceFault::Contradiction),
    }
}

/// Returns the distance that no move gives: none for a win, and that of a zeroing move for a loss.
fn chosen_of_none(class: Class) -> Option<u32>
    ensures chosen { result ≡ chosen class [] }
    ensures few { ForSome result (λ d. d < 2 ^ 31 + 102) }
{
    if class.is_won() {
        None
    } else {
        Some(1 + offset_of(class))
    }
}

/// Returns the smaller or the greater of two numbers, each of which may be missing.
fn choose_some(smaller: bool, number: Option<u32>, found: Option<u32>) -> Option<u32>
    ensures chosen { result ≡ choose_some smaller number found }
    ensures few { ForSome number (λ d. d < 2 ^ 31 + 102) → ForSome found (λ d. d < 2 ^ 31 + 102) → ForSome result (λ d. d < 2 ^ 31 + 102) }
{
    match (number, found) {
        (None, found) => found,
        (Some(d), None) => Some(d),
        (Some(d), Some(e)) if smaller => Some(d.min(e)),
        (Some(d), Some(e)) => Some(d.max(e)),
    }
}

/// Returns whether a move from a class to another stays won or stays lost, if the fifty-move rule does not count.
fn stays(class: Class, next: Class) -> bool
    ensures { result ≡ stays class next }
{
    if class.is_won() {
        next.is_lost()
    } else {
        next.is_won()
    }
}

/// Returns the distance by a legal move that is not zeroing. None if it is zeroing, or does not stay won or lost.
#[tactic(auto, unfolding(crate::specs::Distances::quiet_distance))]
fn quiet_distance<T: DistanceTables>(
    tables: &mut T,
    position: &Position,
    class: Class,
    m: Move,
) -> Result<Option<u32>, DistanceFault<T::Fault>>
    requires { Contains (legal_moves position.now) m }
    ensures same { tables.new ≡ tables.old }
    ensures distance { IfOk result (λ quiet. quiet_distance (T.stored tables.old) (T.numbers tables.old) position.now class m ≡ Some quiet) }
    ensures few { IfOk result (λ quiet. ForSome quiet (λ d. d < 2 ^ 31 + 102)) }
    ensures fault { IfErr result (MayLack (λ fault. MayFailBySearch (T.explains (T.stored tables.old) (T.numbers tables.old) fault) position.now) (quiet_distance (T.stored tables.old) (T.numbers tables.old) position.now class m ≡ None)) }
{
    // A fact that the proof uses: the men are those of a position.
    let _ = position.men();
    if position.is_zeroing(&m) {
        return Ok(None);
    }
    let next = position.after(m);
    let class_after = match search(tables, &next) {
        Ok(class) => class,
        Err(fault) => return Err(DistanceFault::Tables(fault)),
    };
    if !stays(class, class_after) {
        return Ok(None);
    }
    match distance_by(tables, class_after, &next) {
        Ok(plies) => Ok(Some(plies)),
        Err(fault) => Err(fault),
    }
}

/// Returns the distance by a move to a position of this class.
#[tactic(auto, unfolding(crate::specs::Distances::distance_by))]
fn distance_by<T: DistanceTables>(
    tables: &mut T,
    class: Class,
    position: &Position,
) -> Result<u32, DistanceFault<T::Fault>>
    requires { probed (T.stored tables.old) position.now ≡ Some class }
    ensures same { tables.new ≡ tables.old }
    ensures distance { IfOk result (λ d. distance_by (T.stored tables.old) (T.numbers tables.old) class position.now ≡ Some d) }
    ensures few { IfOk result (λ d. d < 2 ^ 31 + 102) }
    ensures fault { IfErr result (MayLack (λ fault. MayFailByZeroing (T.explains (T.stored tables.old) (T.numbers tables.old) fault) position.now) (distance_by (T.stored tables.old) (T.numbers tables.old) class position.now ≡ None)) }
{
    if position.is_mate() {
        return Ok(1);
    }
    match stored_distance(tables, position, class) {
        Ok(Some(plies)) => Ok(1 + plies),
        Ok(None) => Err(DistanceFault::Contradiction),
        Err(fault) => Err(DistanceFault::Tables(fault)),
    }
}
