//! Files by path: read through a buffer, and written completely or not at all.
#![tactic(auto)]

mod disk;
mod draft;
mod file_system;
mod folders;
mod memory;
mod monitored;
mod ranges;

pub use disk::{Disk, DiskFile, ReadWatcher, SystemFile};
pub use draft::{Draft, DraftFile, Lock, Published, Sealed};
pub use file_system::{FileFault, FileSystem, Reasons};
pub use folders::{Below, Finding, files_below};
pub use memory::{MemoryFile, MemoryFiles};
pub use monitored::Monitored;
pub use ranges::read_range;
