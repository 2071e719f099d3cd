//! Tables over bytes in memory: their lists and blocks are read where they stand, and a block is verified once.
#![tactic(auto)]

mod in_place;
mod passed;

pub use in_place::{TableInPlace, open_in_place};
pub use passed::Passed;
