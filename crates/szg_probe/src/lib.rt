//! Probing: the class of a position from tables that store a class for each placement.
//!
//! Tables know no right to capture en passant, and where a capture decides they may store a class that is too low. So
//! a position is probed with its captures. The definitions are in `specs/`: `Chess` has chess as a game, `Probing` what
//! tables say of a position and when they are true.
#![tactic(auto)]

mod assessments;
mod distances;
pub mod laws;
mod listed;
mod probes;
mod tables;

pub use assessments::{RankedMove, rank_moves};
pub use distances::{Distance, DistanceFault, probe_dtz};
pub use listed::{ListedClasses, NotListed};
pub use probes::probe_wdl;
pub use tables::{DistanceTables, Tables};
