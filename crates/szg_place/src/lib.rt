//! Placements and indexes of Syzygy tables: the index of a placement in its subtable (`PairsData` in the probing code),
//! and the placement of an index. A placement is men on squares and the side to move. The rules are those of de Man's
//! format and its probing code.
//!
//! The rank of a set of squares is its index in an ordered list of such sets; to unrank is to find the set with a given
//! rank. Where a call takes or counts up a rank, it is named `number`, since `rank` also has its chess meaning: where
//! ranks are flipped, or are numbered 1 to 8, they are ranks of the board.
#![tactic(auto)]

use szg_file::MapFault;
use thiserror::Error;

pub mod free_squares;
pub mod kings;
pub mod laws;
pub mod lead_pawns;
mod men;
mod normal;
mod probes;
mod slot_squares;
mod slots;
mod spots;
mod stored_side;
mod tables;
pub mod triples;
pub mod unranking;

pub use men::has_men_of;
pub use probes::{FrontBytes, Unprobed, Values, class_of, probe_class, probe_number};
pub use spots::locate;
pub use tables::{index_of, placement_of, probe_dtz, probe_wdl};
pub use unranking::placement;

/// Why a table has no index for a placement: the first check that fails, in this order.
#[derive(Clone, Copy, Debug, PartialEq, Eq, Error)]
pub enum PlaceFault {
    /// The placement's men are not the table's.
    #[error("OtherMaterial")]
    OtherMaterial,
    /// The groups of the placement's subtable give the placement no index: some group after the lead group does not
    /// have all men of its kind and colour; or there are no pawns, and some man of the lead group is not the only one
    /// of its kind and colour.
    #[error("Irregular")]
    Irregular,
    /// The lead group is the two kings, and they are on neighbouring squares.
    #[error("KingsTouch")]
    KingsTouch,
    /// The DTZ subtable stores only the other side to move.
    #[error("WrongSide")]
    WrongSide,
}

/// Why a DTZ table has no number for a placement in a class.
#[derive(Clone, Copy, Debug, PartialEq, Eq, Error)]
pub enum ProbeFault {
    /// The table has no index for the placement.
    #[error("{0}")]
    Place(PlaceFault),
    /// The table has no number for the value in this class, or the class is a draw.
    #[error("{0}")]
    Map(MapFault),
}

/// Where a table stores the value of a placement.
#[derive(Clone, Copy, Debug, PartialEq, Eq)]
pub struct Spot {
    /// The part: 0 to 3 for a lead pawn on the files a and h, b and g, c and f, d and e; 0 without pawns.
    pub part: u8,
    /// The subtable's side; 0 if each part has one subtable.
    pub side: u8,
    /// The index in the subtable.
    pub index: u64,
}
