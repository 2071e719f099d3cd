//! A small set of tables in memory.

ghost use Rattle.std.specs.Prelude.{◌≡◌, None};
ghost use Rattle.std.specs.List.{list_all, zip};
ghost use Rattle.szg_probe.specs.Listed.{is_for, is_same, listed, same_men};

use crate::Tables;
use szg_chess::Position;
use szg_game::Class;
use szg_values::{Color, Man, Square};
use thiserror::Error;

/// A set of tables that is a list of positions with their classes. The men of a position stand in one order.
#[derive(Clone, Copy, Drop)]
pub struct ListedClasses<'a> {
    entries: &'a [(Position, Class)],
}

/// No entry of a list has the men and the side to move.
#[derive(Clone, Copy, Debug, PartialEq, Eq, Error)]
#[error("NotListed")]
pub struct NotListed;

impl<'a> ListedClasses<'a> {
    /// Creates a set of tables of a list.
    pub fn new(entries: &'a [(Position, Class)]) -> ListedClasses<'a>
        ensures { result.entries.now ≡ entries.now }
    {
        ListedClasses { entries }
    }
}

impl<'a> Tables for ListedClasses<'a> {
    type Fault = NotListed;

    ghost stored = { λ tables. listed tables.entries.now };

    ghost numbers = { λ tables men mover class. None };

    ghost explains = { λ stored numbers fault men mover. stored men mover ≡ None };

    fn class(&mut self, position: &Position) -> Result<Class, NotListed> {
        match class_for(self.entries, position) {
            Some(class) => Ok(class),
            None => Err(NotListed),
        }
    }
}

/// Returns the class of the first entry for the men and the side to move of a position. None if there is none.
fn class_for(entries: &[(Position, Class)], position: &Position) -> Option<Class>
    ensures { result ≡ listed entries.now position.now.placed_men position.now.mover }
{
    entries
        .iter()
        .find(|entry| is_for(position, entry))
        .map(|entry| entry.1)
}

/// Returns whether an entry is for the men and the side to move of a position.
fn is_for(position: &Position, entry: &(Position, Class)) -> bool
    ensures { result ≡ is_for position.now.placed_men position.now.mover entry.now }
{
    same_men(entry.0.men(), position.men()) && entry.0.mover() == position.mover()
}

/// Returns whether men are the same, in the same order.
fn same_men(men: &[(Man, Color, Square)], others: &[(Man, Color, Square)]) -> bool
    ensures { result ≡ same_men men.now others.now }
{
    men.len() == others.len() && has_same_pairs(men, others)
}

/// Returns whether the men at the same places are the same, as far as both lists go.
fn has_same_pairs(men: &[(Man, Color, Square)], others: &[(Man, Color, Square)]) -> bool
    ensures { result ≡ list_all (λ pair. is_same pair.0 pair.1) (zip men.now others.now) }
{
    men.iter()
        .zip(others.iter())
        .all(|(man, other)| is_same(man, other))
}

fn is_same(man: &(Man, Color, Square), other: &(Man, Color, Square)) -> bool
    ensures { result ≡ is_same man.now other.now }
{
    man.0 == other.0 && man.1 == other.1 && man.2.number() == other.2.number()
}
