//! A sink that writes the lines of a dump.
ghost use Rattle.std.specs.Prelude.{◌+◌, ◌<◌, ◌^◌};

use crate::writing::dump_text::DumpText;
use szg_file::TableIndex;

/// The state of a writer of a dump's subtables, whose values come one after another.
#[derive(Drop)]
pub(crate) struct DumpSink<'a> {
    pub index: &'a TableIndex,
    /// The form: 1 or 2.
    pub form: u8,
    /// The number of subtables that were begun: the lines that precede their values have been written.
    pub next: usize,
    /// How many values the last of these subtables still needs.
    pub left: u64,
    /// The length of the run whose line is not written yet.
    pub count: u64,
    /// The value of that run.
    pub value: u16,
    pub text: DumpText,
    /// Whether the writer failed.
    pub failed: bool,
    // A run is no longer than its subtable.
    pub ghost within: { count + left < 2 ^ 64 },
}
