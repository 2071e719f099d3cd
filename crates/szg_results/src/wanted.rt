//! What a probe seems to take of tables of which not all is fetched.

ghost use Rattle.std.specs.Prelude.{◌≡◌, Some, ⊤, unwrap_or};
ghost use Rattle.szg_tables.specs.Fetched.{fetched_classes, fetched_numbers};
ghost use Rattle.szg_game.specs.declared.Class.TheVariants.{Draw};

use crate::classes_alone::ClassesAlone;
use crate::folders::copy_of;
use crate::probe_position;
use std::alloc::Global;
use std::marker::Model;
use std::mem::replace;
use szg_chess::Position;
use szg_game::Class;
use szg_place::Spot;
use szg_probe::{DistanceTables, Tables};
use szg_tables::{FetchedSet, FetchedTable, Missing, MissingReason};
use szg_values::Kind;

/// As many values are noted at once.
const MOST_WANTED: usize = 1024;

/// A set of tables in which a value that was not fetched is noted, and counts as a draw or as the number 0. So a probe goes
/// on, and what it finds is of no use but for the notes.
#[derive(Drop)]
struct Noting {
    tables: FetchedSet,
    wanted: Vec<Missing>,
}

impl Model for Noting {
    ghost use Rattle.std.specs.Prelude.{List};
    ghost use Rattle.szg_tables.specs.declared.fetched.FetchedTable.{FetchedTable};

    ghost Value = { List FetchedTable };

    ghost view = { λ noting. noting.tables };
}

impl Noting {
    /// Notes a value that was not fetched, once. Errors: it is something else, or there is no room.
    fn note(&mut self, missing: Missing) -> Result<(), Missing>
        ensures { self.new ≡ self.old }
    {
        let MissingReason::Unread(spot) = missing.reason else {
            return Err(missing);
        };
        if is_among(&self.wanted, &missing, spot) {
            return Ok(());
        }
        if self.wanted.len() < MOST_WANTED && self.wanted.push(copy_of(&missing)).is_ok() {
            Ok(())
        } else {
            Err(missing)
        }
    }
}

/// Returns whether the value at a spot of the table that lacks it is noted.
fn is_among(wanted: &[Missing], missing: &Missing, spot: Spot) -> bool {
    wanted.iter().any(|noted| match noted.reason {
        MissingReason::Unread(other) => {
            other.index == spot.index
                && other.part == spot.part
                && other.side == spot.side
                && noted.kind == missing.kind
                && noted.material.is_same(&missing.material)
        }
        _ => false,
    })
}

impl Tables for Noting {
    type Fault = Missing;

    ghost stored = { λ noting men mover. Some (unwrap_or (fetched_classes noting men mover) Draw) };

    ghost numbers = { λ noting men mover k. Some (unwrap_or (fetched_numbers noting men mover k) (Some 0)) };

    ghost explains = { λ classes numbers missing men mover. ⊤ };

    fn class(&mut self, position: &Position) -> Result<Class, Missing> {
        let missing = match self.tables.class(position) {
            Ok(class) => return Ok(class),
            Err(missing) => missing,
        };
        match missing.kind {
            Kind::Wdl => match self.note(missing) {
                Ok(()) => Ok(Class::Draw),
                Err(missing) => Err(missing),
            },
            Kind::Dtz => Err(missing),
        }
    }
}

impl DistanceTables for Noting {
    fn number(&mut self, position: &Position, class: Class) -> Result<Option<u32>, Missing> {
        let missing = match self.tables.number(position, class) {
            Ok(number) => return Ok(number),
            Err(missing) => missing,
        };
        match self.note(missing) {
            Ok(()) => Ok(Some(0)),
            Err(missing) => Err(missing),
        }
    }
}

/// Returns values that were not fetched and that a probe of a position, with its moves, seems to take.
pub(crate) fn wanted_values(
    alloc: Global,
    tables: &mut Vec<FetchedTable>,
    position: &Position,
    has_distances: bool,
) -> Vec<Missing>
    ensures { tables.new.items ≡ tables.old.items }
{
    let mut noting = Noting {
        tables: FetchedSet::of(replace(tables, Vec::new(alloc))),
        wanted: Vec::new(alloc),
    };
    if has_distances {
        let _ = probe_position(&mut noting, position, 0, true);
    } else {
        let mut alone = ClassesAlone { tables: noting };
        let _ = probe_position(&mut alone, position, 0, false);
        noting = alone.tables;
    }
    let Noting {
        tables: set,
        wanted,
    } = noting;
    *tables = set.into_tables();
    wanted
}
