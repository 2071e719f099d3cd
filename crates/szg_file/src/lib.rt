//! Whole Syzygy table files, WDL (`.rtbw`) and DTZ (`.rtbz`): read with every check, written back byte for byte, and looked up.
#![tactic(auto)]

mod assembled;
mod begun;
mod distances;
mod fault;
pub mod laws;
mod lookup;
mod opened;
mod passing;
mod reading;
mod table;
mod table_index;
pub mod typed;
mod writing;

pub use assembled::{Fields, subtable_sizes};
pub use begun::Slot;
pub use fault::{MapFault, ReadFault, Reason, WriteFault};
pub use lookup::{constant_value, has_bit, slot_number};
pub use opened::fetching::{BlockSpot, ByteRange, FetchFault, Located};
pub use opened::front_table::{FrontTable, open_front, open_front_with};
pub use opened::{OpenFault, Opened, open};
pub use reading::blocks::{block_bytes, is_constant};
pub use reading::dropping::PlacedSub;
pub use reading::parts::{has_two_sides, part_count};
pub use reading::sink::{NoSink, ValueSink};
pub use reading::{Scanned, read, read_bytes, scan};
pub use table::{Map, PartBytes, Table};
pub use table_index::TableIndex;
pub use writing::{file_len, write};
