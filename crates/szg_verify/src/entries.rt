//! Entries: what tables say of a position.

ghost use Rattle.std.specs.Prelude.{◌≡◌, ◌+◌, ◌||◌, Contains, IfOk, IsFalse, None, Some, ◌≤◌, length, if◌then◌else◌};
ghost use Rattle.std.specs.List.{All, list_any, list_all};
ghost use Rattle.szg_chess.specs.Laws.{kinds_of};
ghost use Rattle.szg_chess.specs.Moves.{has_no_move, is_zeroing, legal_moves};
ghost use Rattle.szg_probe.specs.Probing.{probed};
ghost use Rattle.szg_verify.specs.Memory.{AreRight, IsNumbered};
ghost use Rattle.szg_verify.specs.Entries.{is_drawn, keeps, least_plies, most_plies, plies_before, entry_by_distance, wins_at_once, is_one_ply, farthest, greatest, least, entry_before, near_entry, near_after, far_as, quiet_moves, steps_to, plain_entry, tables_of, StepList};

use crate::memory::{
    NumberedMen, holds_pawn, is_zeroing, keep, number_men, recall, recall_after, set_square,
};
use crate::steps::EntrySteps;
use crate::{Cell, Distance, DtzTables};
use szg_chess::{Move, Position};
use szg_game::{Class, Entry};
use szg_probe::{Tables, probe_wdl};

/// More than any distance.
const FARTHEST: u32 = 1_000_000;

/// Returns whether a class is a draw.
pub(crate) fn is_drawn(class: Class) -> bool
    ensures { result ≡ is_drawn class }
{
    matches!(class, Class::Draw)
}

/// Returns whether a move to a position of class `next` keeps a win or a cursed win.
pub(crate) fn keeps(class: Class, next: Class) -> bool
    ensures { result ≡ keeps class next }
{
    match class {
        Class::Loss | Class::BlessedLoss | Class::Draw => false,
        Class::CursedWin => next.is_lost(),
        Class::Win => next.is_loss(),
    }
}

/// Returns the entry of a position of this class from the stored number.
fn entry_by_distance(class: Class, distance: Distance) -> Entry
    ensures { result ≡ entry_by_distance class distance }
{
    let before = match class {
        Class::CursedWin | Class::BlessedLoss => 100,
        Class::Win | Class::Draw | Class::Loss => 0,
    };
    match distance {
        Distance::Plies(plies) => Entry {
            class,
            lower: before + (u32::from(plies) + 1),
            upper: before + (u32::from(plies) + 1),
        },
        Distance::Moves(moves) => Entry {
            class,
            lower: before + (2 * u32::from(moves) + 1),
            upper: before + (2 * u32::from(moves) + 2),
        },
    }
}

/// Returns whether one of these moves is zeroing and keeps a win.
fn some_wins<T: Tables>(
    classes: &mut T,
    class: Class,
    position: &Position,
    moves: &[Move],
) -> Result<bool, T::Fault>
    requires legal { All (Contains (legal_moves position.now)) moves.now }
    ensures same { T.stored classes.new ≡ T.stored classes.old }
    ensures test { IfOk result (λ b. b ≡ list_any (wins_at_once (T.stored classes.old) class position.now) moves.now) }
{
    for m in moves {
        if position.is_zeroing(m) {
            let next = match probe_wdl(classes, &position.after(*m)) {
                Ok(next) => next,
                Err(fault) => return Err(fault),
            };
            if keeps(class, next) {
                return Ok(true);
            }
        }
    }
    Ok(false)
}

/// Returns whether some zeroing move keeps a win. Without pawns captures alone are zeroing.
fn has_win_at_once<T: Tables>(
    classes: &mut T,
    class: Class,
    position: &Position,
) -> Result<bool, T::Fault>
    ensures same { T.stored classes.new ≡ T.stored classes.old }
    ensures test { IfOk result (λ b. b ≡ list_any (wins_at_once (T.stored classes.old) class position.now) (legal_moves position.now)) }
{
    if holds_pawn(position.men()) {
        some_wins(classes, class, position, position.legal_moves().as_slice())
    } else {
        some_wins(classes, class, position, position.captures().as_slice())
    }
}

/// Returns whether each legal move is zeroing.
fn has_only_zeroing(position: &Position) -> bool
    ensures { result ≡ list_all (is_zeroing position.now) (legal_moves position.now) }
{
    if holds_pawn(position.men()) {
        position
            .legal_moves()
            .as_slice()
            .iter()
            .all(|m| position.is_zeroing(m))
    } else {
        !position.has_quiet_move()
    }
}

/// Returns whether the next zeroing move is one ply away.
fn is_one_ply<T: Tables>(
    classes: &mut T,
    class: Class,
    position: &Position,
) -> Result<bool, T::Fault>
    ensures same { T.stored classes.new ≡ T.stored classes.old }
    ensures test { IfOk result (λ b. b ≡ is_one_ply (T.stored classes.old) class position.now) }
{
    if class.is_won() {
        has_win_at_once(classes, class, position)
    } else {
        Ok(has_only_zeroing(position))
    }
}

/// Returns whether there is no move.
fn is_ended(position: &Position) -> bool
    ensures { result ≡ has_no_move position.now }
{
    !position.has_move()
}

/// Returns the entry of a position of this class from the stored number alone. None if there is no number.
fn near_of<T: Tables, D: DtzTables<Fault = T::Fault>>(
    classes: &mut T,
    distances: &mut D,
    position: &Position,
    class: Class,
) -> Result<Option<Entry>, T::Fault>
    requires class { probed (T.stored classes.old) position.now ≡ Some class }
    ensures same_classes { T.stored classes.new ≡ T.stored classes.old }
    ensures same_distances { D.distances distances.new ≡ D.distances distances.old }
    ensures entry { IfOk result (λ e. e ≡ near_entry (tables_of (T.stored classes.old) (D.distances distances.old)) position.now) }
    ensures undrawn { IfOk result (λ e. e ≡ None → IsFalse (is_drawn class)) }
{
    if is_drawn(class) {
        return Ok(Some(Entry {
            class,
            lower: 0,
            upper: 0,
        }));
    }
    if is_ended(position) {
        return Ok(Some(Entry {
            class,
            lower: 0,
            upper: 0,
        }));
    }
    let one_ply = match is_one_ply(classes, class, position) {
        Ok(one_ply) => one_ply,
        Err(fault) => return Err(fault),
    };
    if one_ply {
        return Ok(Some(Entry {
            class,
            lower: 1,
            upper: 1,
        }));
    }
    match distances.distance(position, class) {
        Ok(Some(distance)) => Ok(Some(entry_by_distance(class, distance))),
        Ok(None) => Ok(None),
        Err(fault) => Err(fault),
    }
}

/// Returns what `near_of` does, and keeps it.
fn kept_near<T: Tables, D: DtzTables<Fault = T::Fault>>(
    classes: &mut T,
    distances: &mut D,
    cells: &mut [Cell],
    position: &Position,
    class: Class,
) -> Result<Option<Entry>, T::Fault>
    requires class { probed (T.stored classes.old) position.now ≡ Some class }
    requires right { AreRight (kinds_of position.now.placed_men) (tables_of (T.stored classes.old) (D.distances distances.old)) cells.old }
    ensures same_classes { T.stored classes.new ≡ T.stored classes.old }
    ensures same_distances { D.distances distances.new ≡ D.distances distances.old }
    ensures right { AreRight (kinds_of position.now.placed_men) (tables_of (T.stored classes.old) (D.distances distances.old)) cells.new }
    ensures entry { IfOk result (λ e. e ≡ near_entry (tables_of (T.stored classes.old) (D.distances distances.old)) position.now) }
    ensures undrawn { IfOk result (λ e. e ≡ None → IsFalse (is_drawn class)) }
{
    match near_of(classes, distances, position, class) {
        Ok(Some(entry)) => {
            keep(cells, true, position, entry);
            Ok(Some(entry))
        }
        Ok(None) => Ok(None),
        Err(fault) => Err(fault),
    }
}

/// Returns the entry of a position from its class and the stored number alone, and keeps it. None if there is no number.
fn find_near<T: Tables, D: DtzTables<Fault = T::Fault>>(
    classes: &mut T,
    distances: &mut D,
    cells: &mut [Cell],
    position: &Position,
) -> Result<Option<Entry>, T::Fault>
    requires right { AreRight (kinds_of position.now.placed_men) (tables_of (T.stored classes.old) (D.distances distances.old)) cells.old }
    ensures same_classes { T.stored classes.new ≡ T.stored classes.old }
    ensures same_distances { D.distances distances.new ≡ D.distances distances.old }
    ensures right { AreRight (kinds_of position.now.placed_men) (tables_of (T.stored classes.old) (D.distances distances.old)) cells.new }
    ensures entry { IfOk result (λ e. e ≡ near_entry (tables_of (T.stored classes.old) (D.distances distances.old)) position.now) }
{
    let class = match probe_wdl(classes, position) {
        Ok(class) => class,
        Err(fault) => return Err(fault),
    };
    kept_near(classes, distances, cells, position, class)
}

/// Returns `near_entry` after a legal move that is not zeroing.
fn near_after<T: Tables, D: DtzTables<Fault = T::Fault>>(
    classes: &mut T,
    distances: &mut D,
    cells: &mut [Cell],
    position: &Position,
    numbered: &NumberedMen,
    m: Move,
) -> Result<Option<Entry>, T::Fault>
    requires legal { Contains (legal_moves position.now) m }
    requires numbered { IsNumbered position.now.placed_men numbered.now.digits numbered.now.pawn numbered.now.square numbered.now.place }
    requires from { numbered.now.square ≡ m.from }
    requires quiet { IsFalse (is_zeroing position.now m) }
    requires right { AreRight (kinds_of position.now.placed_men) (tables_of (T.stored classes.old) (D.distances distances.old)) cells.old }
    ensures same_classes { T.stored classes.new ≡ T.stored classes.old }
    ensures same_distances { D.distances distances.new ≡ D.distances distances.old }
    ensures right { AreRight (kinds_of position.now.placed_men) (tables_of (T.stored classes.old) (D.distances distances.old)) cells.new }
    ensures entry { IfOk result (λ e. e ≡ near_after (tables_of (T.stored classes.old) (D.distances distances.old)) position.now m) }
{
    // A fact that the proof uses: the men are those of a position.
    let _ = position.men();
    if let Some(entry) = recall_after(cells, true, position, numbered, &m) {
        return Ok(Some(entry));
    }
    find_near(classes, distances, cells, &position.after(m))
}

/// Lists the entries after the moves that are not zeroing, given the legal moves. Returns whether there is a number for
/// each of them.
fn quiet_steps<T: Tables, D: DtzTables<Fault = T::Fault>>(
    classes: &mut T,
    distances: &mut D,
    cells: &mut [Cell],
    position: &Position,
    moves: &[Move],
    steps: &mut EntrySteps,
) -> Result<bool, T::Fault>
    requires moves { moves.now ≡ legal_moves position.now }
    requires few { length moves.now ≤ 128 }
    requires right { AreRight (kinds_of position.now.placed_men) (tables_of (T.stored classes.old) (D.distances distances.old)) cells.old }
    ensures same_classes { T.stored classes.new ≡ T.stored classes.old }
    ensures same_distances { D.distances distances.new ≡ D.distances distances.old }
    ensures right { AreRight (kinds_of position.now.placed_men) (tables_of (T.stored classes.old) (D.distances distances.old)) cells.new }
    ensures steps { IfOk result (λ all. (if all then Some steps.new.items else None) ≡ steps_to (near_after (tables_of (T.stored classes.old) (D.distances distances.old)) position.now) position.now (quiet_moves position.now)) }
{
    let mut numbered = number_men(position);
    steps.clear();
    for m in moves {
        set_square(&mut numbered, position, m.from);
        if !is_zeroing(&numbered, position, m) {
            match near_after(classes, distances, cells, position, &numbered, *m) {
                Ok(Some(entry)) => steps.push(entry, false),
                Ok(None) => return Ok(false),
                Err(fault) => return Err(fault),
            }
        }
    }
    Ok(true)
}

/// Returns the greatest bounds, the lower and the upper.
fn greatest(steps: &[(Entry, bool)]) -> (u32, u32)
    ensures lower { result.0 ≡ greatest (λ e. e.lower) steps.now }
    ensures upper { result.1 ≡ greatest (λ e. e.upper) steps.now }
{
    let mut lower = 0;
    let mut upper = 0;
    for step in steps {
        lower = step.0.lower.max(lower);
        upper = step.0.upper.max(upper);
    }
    (lower, upper)
}

/// Returns the least bounds of the moves that keep a win, the lower and the upper.
fn least(class: Class, steps: &[(Entry, bool)]) -> (u32, u32)
    ensures lower { result.0 ≡ least (λ e. e.lower) class steps.now }
    ensures upper { result.1 ≡ least (λ e. e.upper) class steps.now }
    ensures lower_near { result.0 ≤ farthest }
    ensures upper_near { result.1 ≤ farthest }
{
    let mut lower = FARTHEST;
    let mut upper = FARTHEST;
    for step in steps {
        if keeps(class, step.0.class) {
            lower = step.0.lower.min(lower);
            upper = step.0.upper.min(upper);
        }
    }
    (lower, upper)
}

/// Returns the entry of a position of this class from those after its moves that are not zeroing.
#[tactic(auto, unfolding(crate::specs::Entries::entry_before))]
fn entry_before(class: Class, steps: &[(Entry, bool)]) -> Entry
    ensures { result ≡ entry_before class steps.now }
{
    if class.is_won() {
        let (lower, upper) = least(class, steps);
        Entry {
            class,
            lower: 1 + lower,
            upper: 1 + upper,
        }
    } else {
        let (lower, upper) = greatest(steps);
        Entry {
            class,
            lower: 1 + FARTHEST.min(lower),
            upper: 1 + FARTHEST.min(upper),
        }
    }
}

/// Returns the entry of a position of this class one ply before the stored side.
fn far_entry<T: Tables, D: DtzTables<Fault = T::Fault>>(
    classes: &mut T,
    distances: &mut D,
    cells: &mut [Cell],
    quiet: &mut EntrySteps,
    position: &Position,
    class: Class,
) -> Result<Option<Entry>, T::Fault>
    requires right { AreRight (kinds_of position.now.placed_men) (tables_of (T.stored classes.old) (D.distances distances.old)) cells.old }
    ensures same_classes { T.stored classes.new ≡ T.stored classes.old }
    ensures same_distances { D.distances distances.new ≡ D.distances distances.old }
    ensures right { AreRight (kinds_of position.now.placed_men) (tables_of (T.stored classes.old) (D.distances distances.old)) cells.new }
    ensures entry { IfOk result (λ e. e ≡ far_as (tables_of (T.stored classes.old) (D.distances distances.old)) position.now class) }
{
    let moves = position.legal_moves();
    match quiet_steps(classes, distances, cells, position, moves.as_slice(), quiet) {
        Ok(true) => Ok(Some(entry_before(class, quiet.as_slice()))),
        Ok(false) => Ok(None),
        Err(fault) => Err(fault),
    }
}

/// Returns what `far_entry` does, and keeps it.
fn kept_far<T: Tables, D: DtzTables<Fault = T::Fault>>(
    classes: &mut T,
    distances: &mut D,
    cells: &mut [Cell],
    quiet: &mut EntrySteps,
    position: &Position,
    class: Class,
) -> Result<Option<Entry>, T::Fault>
    requires class { probed (T.stored classes.old) position.now ≡ Some class }
    requires far { near_entry (tables_of (T.stored classes.old) (D.distances distances.old)) position.now ≡ None }
    requires right { AreRight (kinds_of position.now.placed_men) (tables_of (T.stored classes.old) (D.distances distances.old)) cells.old }
    ensures same_classes { T.stored classes.new ≡ T.stored classes.old }
    ensures same_distances { D.distances distances.new ≡ D.distances distances.old }
    ensures right { AreRight (kinds_of position.now.placed_men) (tables_of (T.stored classes.old) (D.distances distances.old)) cells.new }
    ensures entry { IfOk result (λ e. e ≡ plain_entry (tables_of (T.stored classes.old) (D.distances distances.old)) position.now) }
{
    match far_entry(classes, distances, cells, quiet, position, class) {
        Ok(Some(entry)) => {
            keep(cells, false, position, entry);
            Ok(Some(entry))
        }
        Ok(None) => Ok(None),
        Err(fault) => Err(fault),
    }
}

/// Returns the entry of a position of this class without regard to its en passant square, and keeps it. None if there is no
/// number for the position or for one after its moves.
fn kept_entry<T: Tables, D: DtzTables<Fault = T::Fault>>(
    classes: &mut T,
    distances: &mut D,
    cells: &mut [Cell],
    quiet: &mut EntrySteps,
    position: &Position,
    class: Class,
) -> Result<Option<Entry>, T::Fault>
    requires class { probed (T.stored classes.old) position.now ≡ Some class }
    requires right { AreRight (kinds_of position.now.placed_men) (tables_of (T.stored classes.old) (D.distances distances.old)) cells.old }
    ensures same_classes { T.stored classes.new ≡ T.stored classes.old }
    ensures same_distances { D.distances distances.new ≡ D.distances distances.old }
    ensures right { AreRight (kinds_of position.now.placed_men) (tables_of (T.stored classes.old) (D.distances distances.old)) cells.new }
    ensures entry { IfOk result (λ e. e ≡ plain_entry (tables_of (T.stored classes.old) (D.distances distances.old)) position.now) }
{
    match kept_near(classes, distances, cells, position, class) {
        Ok(Some(entry)) => Ok(Some(entry)),
        Ok(None) => kept_far(classes, distances, cells, quiet, position, class),
        Err(fault) => Err(fault),
    }
}

/// Returns the entry of a position without regard to its en passant square, and keeps it. None if there is no number for
/// the position or for one after its moves.
pub(crate) fn find_entry<T: Tables, D: DtzTables<Fault = T::Fault>>(
    classes: &mut T,
    distances: &mut D,
    cells: &mut [Cell],
    quiet: &mut EntrySteps,
    position: &Position,
) -> Result<Option<Entry>, T::Fault>
    requires right { AreRight (kinds_of position.now.placed_men) (tables_of (T.stored classes.old) (D.distances distances.old)) cells.old }
    ensures same_classes { T.stored classes.new ≡ T.stored classes.old }
    ensures same_distances { D.distances distances.new ≡ D.distances distances.old }
    ensures right { AreRight (kinds_of position.now.placed_men) (tables_of (T.stored classes.old) (D.distances distances.old)) cells.new }
    ensures entry { IfOk result (λ e. e ≡ plain_entry (tables_of (T.stored classes.old) (D.distances distances.old)) position.now) }
{
    let class = match probe_wdl(classes, position) {
        Ok(class) => class,
        Err(fault) => return Err(fault),
    };
    kept_entry(classes, distances, cells, quiet, position, class)
}

/// Returns what `find_entry` does, and finds it only if it was not found before.
pub(crate) fn plain_entry<T: Tables, D: DtzTables<Fault = T::Fault>>(
    classes: &mut T,
    distances: &mut D,
    cells: &mut [Cell],
    quiet: &mut EntrySteps,
    position: &Position,
) -> Result<Option<Entry>, T::Fault>
    requires right { AreRight (kinds_of position.now.placed_men) (tables_of (T.stored classes.old) (D.distances distances.old)) cells.old }
    ensures same_classes { T.stored classes.new ≡ T.stored classes.old }
    ensures same_distances { D.distances distances.new ≡ D.distances distances.old }
    ensures right { AreRight (kinds_of position.now.placed_men) (tables_of (T.stored classes.old) (D.distances distances.old)) cells.new }
    ensures entry { IfOk result (λ e. e ≡ plain_entry (tables_of (T.stored classes.old) (D.distances distances.old)) position.now) }
{
    if let Some(entry) = recall(cells, false, position) {
        return Ok(Some(entry));
    }
    find_entry(classes, distances, cells, quiet, position)
}
