//! Men, boards and positions as C passes them, and the statuses of calls.
//!
//! Numbers that C passes become men and positions, or the status of the first check that fails; placements and positions
//! become numbers. `szg_c` has the calls.
#![tactic(auto)]

mod boards;
mod fens;
mod men;
mod positions;
pub mod status;

pub use boards::{RawBoard, RawMen, men_of};
pub use fens::{RawPosition, said_by, write_position};
pub use men::{RawMan, key_of_men, placement_or_fault, sound_men, write_placement};
pub use positions::position_of;
