//! Verification: tables are checked against chess, position by position.
//!
//! WDL and DTZ tables say an entry of each position: a class, and bounds on the plies to mate or to the next zeroing
//! move. If the entry of each position agrees with the entries one move on, each class that the tables say is the class
//! of its position. The definitions are in `specs/`: `Entries` has what tables say, `Verified` when they pass.
#![tactic(auto)]

mod checking;
mod closed;
mod conditions;
mod entries;
pub mod laws;
mod memory;
mod steps;
mod tables;
mod verifying;
mod walk;

pub use checking::check_position;
pub use closed::{are_closed, leads_to};
pub use conditions::{Condition, broken_by};
pub use memory::Cell;
pub use steps::EntrySteps;
pub use tables::{DtzTables, has_equal_sides};
pub use verifying::verify;
pub use walk::{RefusedPosition, Shard, Walked, Watcher, number_count, shard_start, verify_range};

/// A number that a DTZ table stores: the plies after the first one, up to mate or to the zeroing move.
#[derive(Clone, Copy, Debug, PartialEq, Eq)]
pub enum Distance {
    /// The exact number of plies.
    Plies(u16),
    /// Half the number of plies, rounded down.
    Moves(u16),
}
