//! Tables with a C interface.
//!
//! Calls on a whole file take the name of the material, the kind and the file's bytes. Calls on a handle look up
//! values, distances and placements in its table. A front's file may stay in memory or on a disk that C reads itself:
//! then a call returns the byte range that a value needs, and another decodes the value. Calls on a tablebase probe positions
//! over the tables that were added to it; others read positions' texts. Each returns a status. Three calls write texts.
//! `szg.h` is the interface for C.
#![tactic(auto)]

mod fen_lines;
mod front_blocks;
mod front_places;
mod fronts;
mod handle;
mod held;
mod held_front;
mod held_table;
mod held_tablebase;
mod index_calls;
mod loose;
mod opening;
mod places;
mod positions;
mod shared;
mod tablebase_calls;
mod texts;
mod whole;

pub use fen_lines::szg_tablebase_wdl_of_fens;
pub use front_blocks::{RawByteRange, szg_front_find, szg_front_value};
pub use front_places::{szg_front_index, szg_front_number, szg_front_probe};
pub use fronts::{
    BadBlock, szg_close_front, szg_front_get, szg_front_size, szg_front_span, szg_open_front,
    szg_share_front,
};
pub use held::{szg_all, szg_close, szg_get, szg_number, szg_open, szg_positions, szg_share};
pub use held_front::HeldFront;
pub use held_table::HeldTable;
pub use held_tablebase::HeldTablebase;
pub use index_calls::{szg_front_placement, szg_placement};
pub use opening::RawAnswer;
pub use places::{FoundSpot, szg_index, szg_probe};
pub use positions::{szg_board_men, szg_read_fen};
pub use tablebase_calls::{
    RawDistance, RawMissing, RawMove, szg_close_tablebase, szg_share_tablebase, szg_tablebase_add,
    szg_tablebase_dtz, szg_tablebase_moves, szg_tablebase_wdl,
};
pub use texts::{szg_reason_text, szg_status_text, szg_version};
pub use whole::{szg_check, szg_size, szg_values, szg_values_at};
