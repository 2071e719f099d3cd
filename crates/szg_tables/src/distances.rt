//! The numbers of DTZ tables in memory, with how they count.

ghost use Rattle.std.specs.Prelude.{◌≡◌, IfOk, IfSome, map, slice_index};
ghost use Rattle.szg_values.specs.Men.{is_color};
ghost use Rattle.szg_file.specs.File.{flags_of};
ghost use Rattle.szg_tables.specs.Distances.{as_stored, distance_in, is_exact, is_left_out, stored_distances};

use crate::in_memory::number_in;
use crate::listed::ListedTable;
use crate::{Missing, MissingReason, TableSet};
use szg_chess::Position;
use szg_file::{Table, has_bit};
use szg_game::Class;
use szg_values::{Color, Kind, Placement};
use szg_verify::{Distance, DtzTables, has_equal_sides};

impl<'a> DtzTables for TableSet<'a> {
    type Fault = Missing;

    ghost distances = { λ set. stored_distances set };

    fn distance(&mut self, position: &Position, class: Class) -> Result<Option<Distance>, Missing> {
        if is_left_out(position) {
            return Ok(None);
        }
        let Some(placement) = position.placement() else {
            unreachable!()
        };
        let table = match self.find(Kind::Dtz, &placement) {
            Ok(table) => table,
            Err(missing) => return Err(missing),
        };
        match distance_in(&table, &placement, class) {
            Ok(distance) => Ok(distance),
            Err(reason) => Err(Missing {
                material: placement.material(),
                kind: Kind::Dtz,
                reason,
            }),
        }
    }
}

/// Returns whether the numbers of these men with this side to move do not count.
fn is_left_out(position: &Position) -> bool
    ensures { result ≡ is_left_out position.now.placed_men position.now.mover }
{
    position.men().len() < 3 || (is_black(position.mover()) && has_equal_sides(position.men()))
}

fn is_black(color: Color) -> bool
    ensures { result ≡ is_color Color.Black color }
{
    color == Color::Black
}

/// Returns the number of a placement in a class, in a DTZ table. None if the table stores the other side to move.
fn distance_in(
    table: &ListedTable<'_>,
    placement: &Placement,
    class: Class,
) -> Result<Option<Distance>, MissingReason>
    requires { table.now.contents.kind ≡ Kind.Dtz }
    ensures { IfOk result (λ d. distance_in placement.now class table.now.contents ≡ d) }
{
    let number = match number_in(table, placement, class) {
        Ok(Some(number)) => number,
        Ok(None) => return Ok(None),
        Err(reason) => return Err(reason),
    };
    let flags = flags_of(table.table(), number.part);
    match as_stored(is_exact(class, flags), number.plies) {
        Some(distance) => Ok(Some(distance)),
        None => Err(MissingReason::Value),
    }
}

/// Returns the flags of a part.
fn flags_of(table: &Table, part: u8) -> u8
    ensures { result ≡ slice_index (map flags_of table.now.contents.subtables) part }
{
    match table.index().flags().get(usize::from(part)) {
        Some(flags) => *flags,
        None => 0,
    }
}

/// Returns whether the numbers of a class are exact plies.
fn is_exact(class: Class, flags: u8) -> bool
    ensures { result ≡ is_exact class flags }
{
    match class {
        Class::Loss => has_bit(3, flags),
        Class::Win => has_bit(2, flags),
        Class::BlessedLoss | Class::Draw | Class::CursedWin => false,
    }
}

/// Returns a number of plies as it is stored. None if it has more than 16 bits.
fn as_stored(exact: bool, plies: u32) -> Option<Distance>
    ensures { IfSome result (λ d. d ≡ as_stored exact plies) }
{
    let stored = if exact { plies } else { plies / 2 };
    if 65_535 < stored {
        return None;
    }
    if exact {
        Some(Distance::Plies(stored as u16))
    } else {
        Some(Distance::Moves(stored as u16))
    }
}
