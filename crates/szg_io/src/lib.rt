//! Devices that read or write bytes in chunks, with the facts about them that proofs need.
//!
//! [`Input`] and [`Output`] are the traits. [`take_whole`] and [`give_whole`] move whole chunks over any device;
//! [`take_once`] returns what one successful call reads. [`Std`] turns a reader or a writer of std into a device,
//! [`Bytes`] reads bytes in memory and never fails, and [`Cut`] is a device for tests. [`Counters`], with [`Past`],
//! keeps the counts for a device of your own.
#![tactic(auto)]

mod counters;
mod cut;
mod device;
mod memory;
mod over_std;
mod past;
mod read_ahead;
mod whole;

pub use counters::Counters;
pub use cut::Cut;
pub use device::{Input, IoFault, Output};
pub use memory::Bytes;
pub use over_std::{Std, fault_of};
pub use past::Past;
pub use read_ahead::ReadAhead;
pub use whole::{give_whole, take_once, take_whole};
