//! The check of a position.

ghost use Rattle.std.specs.Prelude.{◌≡◌, IfOk, IfSome, IsTrue, Some, None, if◌then◌else◌, Contains, is_none};
ghost use Rattle.szg_chess.specs.Laws.{kinds_of};
ghost use Rattle.szg_chess.specs.Moves.{after, is_zeroing, legal_moves};
ghost use Rattle.szg_verify.specs.Conditions.{breaks};
ghost use Rattle.szg_verify.specs.Entries.{steps_to, tables_of, plain_entry};
ghost use Rattle.szg_verify.specs.Memory.{AreRight, IsNumbered};
ghost use Rattle.szg_verify.specs.Verified.{entry_after, is_checked};

use crate::conditions::{Condition, broken_by};
use crate::entries::{find_entry, plain_entry};
use crate::memory::{NumberedMen, is_zeroing, number_men, recall_after, set_square};
use crate::steps::EntrySteps;
use crate::{Cell, DtzTables};
use szg_chess::{Move, Position};
use szg_game::Entry;
use szg_probe::{Tables, probe_wdl};

/// The limit of the fifty-move rule, in plies.
const PLY_LIMIT: u32 = 100;

/// Checks a position without an en passant square: whether the entry that the tables say of it agrees with the entries
/// after its moves. Returns None if so, and else a condition that it breaks. It allocates nothing; the cells have what was
/// found of other positions; both lists of steps are room, and what they hold doesn't count.
///
/// Errors: those of the tables.
pub fn check_position<T: Tables, D: DtzTables<Fault = T::Fault>>(
    classes: &mut T,
    distances: &mut D,
    cells: &mut [Cell],
    steps: &mut EntrySteps,
    quiet: &mut EntrySteps,
    position: &Position,
) -> Result<Option<Condition>, T::Fault>
    requires right { AreRight (kinds_of position.now.placed_men) (tables_of (T.stored classes.old) (D.distances distances.old)) cells.old }
    ensures same_classes { T.stored classes.new ≡ T.stored classes.old }
    ensures same_distances { D.distances distances.new ≡ D.distances distances.old }
    ensures right { AreRight (kinds_of position.now.placed_men) (tables_of (T.stored classes.old) (D.distances distances.old)) cells.new }
    ensures checked { IfOk result (λ o. is_none o ≡ is_checked (tables_of (T.stored classes.old) (D.distances distances.old)) position.now) }
    ensures broken { IfOk result (λ o. IfSome o (λ c. IsTrue (breaks (tables_of (T.stored classes.old) (D.distances distances.old)) position.now c))) }
{
    let entry = match plain_entry(classes, distances, cells, quiet, position) {
        Ok(Some(entry)) => entry,
        Ok(None) => return Ok(Some(Condition::NoNumber)),
        Err(fault) => return Err(fault),
    };
    match all_steps(classes, distances, cells, quiet, position, steps) {
        Ok(true) => Ok(broken_by(PLY_LIMIT, entry, position.is_check(), steps.as_slice())),
        Ok(false) => Ok(Some(Condition::NoNumberAfter)),
        Err(fault) => Err(fault),
    }
}

/// Lists the entries after the legal moves, as far as they count. Returns whether all are there.
fn all_steps<T: Tables, D: DtzTables<Fault = T::Fault>>(
    classes: &mut T,
    distances: &mut D,
    cells: &mut [Cell],
    quiet: &mut EntrySteps,
    position: &Position,
    steps: &mut EntrySteps,
) -> Result<bool, T::Fault>
    requires right { AreRight (kinds_of position.now.placed_men) (tables_of (T.stored classes.old) (D.distances distances.old)) cells.old }
    ensures same_classes { T.stored classes.new ≡ T.stored classes.old }
    ensures same_distances { D.distances distances.new ≡ D.distances distances.old }
    ensures right { AreRight (kinds_of position.now.placed_men) (tables_of (T.stored classes.old) (D.distances distances.old)) cells.new }
    ensures steps { IfOk result (λ all. (if all then Some steps.new.items else None) ≡ steps_to (entry_after (tables_of (T.stored classes.old) (D.distances distances.old)) position.now) position.now (legal_moves position.now)) }
{
    let moves = position.legal_moves();
    let mut numbered = number_men(position);
    steps.clear();
    for m in moves.as_slice() {
        let zeroing = is_zeroing(&numbered, position, m);
        set_square(&mut numbered, position, m.from);
        match entry_after(
            classes, distances, cells, quiet, position, &numbered, *m, zeroing,
        ) {
            Ok(Some(entry)) => steps.push(entry, zeroing),
            Ok(None) => return Ok(false),
            Err(fault) => return Err(fault),
        }
    }
    Ok(true)
}

/// Returns the entry after a legal move, as far as it counts: after a zeroing move the class alone.
#[tactic(auto, unfolding(crate::specs::Verified::entry_after))]
fn entry_after<T: Tables, D: DtzTables<Fault = T::Fault>>(
    classes: &mut T,
    distances: &mut D,
    cells: &mut [Cell],
    quiet: &mut EntrySteps,
    position: &Position,
    numbered: &NumberedMen,
    m: Move,
    zeroing: bool,
) -> Result<Option<Entry>, T::Fault>
    requires legal { Contains (legal_moves position.now) m }
    requires numbered { IsNumbered position.now.placed_men numbered.now.digits numbered.now.pawn numbered.now.square numbered.now.place }
    requires from { numbered.now.square ≡ m.from }
    requires zeroing { zeroing ≡ is_zeroing position.now m }
    requires right { AreRight (kinds_of position.now.placed_men) (tables_of (T.stored classes.old) (D.distances distances.old)) cells.old }
    ensures same_classes { T.stored classes.new ≡ T.stored classes.old }
    ensures same_distances { D.distances distances.new ≡ D.distances distances.old }
    ensures right { AreRight (kinds_of position.now.placed_men) (tables_of (T.stored classes.old) (D.distances distances.old)) cells.new }
    ensures entry { IfOk result (λ e. e ≡ entry_after (tables_of (T.stored classes.old) (D.distances distances.old)) position.now m) }
{
    // A fact that the proof uses: the men are those of a position.
    let _ = position.men();
    if !zeroing {
        if let Some(entry) = recall_after(cells, false, position, numbered, &m) {
            return Ok(Some(entry));
        }
        return find_entry(classes, distances, cells, quiet, &position.after(m));
    }
    match probe_wdl(classes, &position.after(m)) {
        Ok(class) => Ok(Some(Entry {
            class,
            lower: 0,
            upper: 0,
        })),
        Err(fault) => Err(fault),
    }
}
