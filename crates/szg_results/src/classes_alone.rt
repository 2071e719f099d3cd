//! The classes of a set of tables, without numbers.

ghost use Rattle.std.specs.Prelude.{◌≡◌};
ghost use Rattle.szg_probe.specs.Distances.{StoredNumbers};
ghost use Rattle.szg_results.specs.Results.{zero_numbers};

use szg_chess::Position;
use szg_game::Class;
use szg_probe::{DistanceTables, Tables};

/// The classes of a set of tables. No DTZ table is used: each number is 0, so a distance says no more than whether the
/// next move mates or is zeroing.
#[derive(Drop)]
pub(crate) struct ClassesAlone<T> {
    pub(crate) tables: T,
}

impl<T: Tables> Tables for ClassesAlone<T> {
    type Fault = T::Fault;

    ghost stored = { λ alone. T.stored alone.tables };

    ghost numbers = { λ alone. zero_numbers };

    ghost explains = { λ classes numbers fault men mover. (of : StoredNumbers) × T.explains classes of fault men mover };

    fn class(&mut self, position: &Position) -> Result<Class, T::Fault> {
        self.tables.class(position)
    }
}

impl<T: Tables> DistanceTables for ClassesAlone<T> {
    fn number(&mut self, _position: &Position, _class: Class) -> Result<Option<u32>, T::Fault> {
        Ok(Some(0))
    }
}
