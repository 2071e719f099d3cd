//! The entries after the moves of a position.

ghost use Rattle.std.specs.Prelude.{◌≡◌, ◌<◌, ◌≤◌, ◌+◌, ◌++◌, ◌∷◌, [], take, length};

use std::marker::Model;
use szg_chess::MAX_MOVES;
use szg_game::{Class, Entry};

/// Room for the entries after some moves, and whether each move is zeroing.
#[derive(Drop)]
pub struct EntrySteps {
    cells: [(Entry, bool); MAX_MOVES],
    len: usize,
}

impl Model for EntrySteps {
    ghost use Rattle.std.specs.Prelude.{◌≤◌, take};
    ghost use Rattle.szg_verify.specs.Entries.{StepList};

    ghost Value = { StepList };

    ghost view = { λ s. record { items = take s.len s.cells } };

    ghost invariant = { λ s. s.len ≤ 128 };
}

impl EntrySteps {
    /// Creates an empty list.
    pub fn new() -> EntrySteps
        ensures { result.items ≡ [] }
    {
        let missing = Entry {
            class: Class::Draw,
            lower: 0,
            upper: 0,
        };
        EntrySteps {
            cells: [(missing, false); MAX_MOVES],
            len: 0,
        }
    }

    /// Removes all entries.
    pub(crate) fn clear(&mut self)
        ensures { self.new.items ≡ [] }
    {
        self.len = 0;
    }

    /// Appends an entry.
    pub(crate) fn push(&mut self, entry: Entry, is_zeroing: bool)
        requires { length self.old.items < 128 }
        ensures { self.new.items ≡ self.old.items ++ (entry, is_zeroing) ∷ [] }
    {
        self.cells[self.len] = (entry, is_zeroing);
        self.len += 1;
    }

    /// Returns the entries.
    pub(crate) fn as_slice(&self) -> &[(Entry, bool)]
        ensures { result.now ≡ self.now.items }
    {
        &self.cells[..self.len]
    }
}
