//! Builds a subtable from its values: its pairs, its code, its blocks and its sparse index.
#![tactic(auto)]

mod building;
mod pairing;
mod shrinking;
mod watching;

pub use building::{Choice, Packing, pack};
pub use pairing::leaves::count_different;
pub use watching::{Unwatched, Watcher};
