//! The command that builds a table of a dump.
ghost use Rattle.std.specs.Prelude.{◌≡◌, ◌⊎◌, ℕ, List, OnOk, IsErrOf};
ghost use Rattle.szg_io.specs.Device.{HasFailed};
ghost use Rattle.szg_io.specs.Moved.{Takes};
ghost use Rattle.szg_answers.specs.Builds.{choice_of, IsMade, IsUnmade};
ghost use Rattle.szg_answers.specs.declared.refusal.Refusal.{Refusal};

use crate::refusal::{Refusal, Stop};
use std::alloc::Global;
use szg_build::{BuildFault, Choice, DumpReadFault, Packing, Watcher, read_packed};
use szg_file::write;
use szg_io::{Input, Output};
use szg_words::BuildPlan;

/// Returns the builder's choice for a plan.
pub(crate) fn choice_of(plan: BuildPlan) -> Choice
    ensures { result ≡ choice_of plan }
{
    match plan {
        BuildPlan::Fixed {
            block_bits,
            span_bits,
            rounds,
        } => Choice::Fixed(Packing {
            block_bits,
            span_bits,
            rounds,
        }),
        BuildPlan::Small => Choice::Small,
    }
}

/// Reads a dump, builds its table, which `watcher` sees, and writes the table's file, or returns why not; where it is
/// refused nothing was written.
pub fn build_and_write<R: Input, W: Output, V: Watcher>(
    alloc: Global,
    packing: Choice,
    reader: &mut R,
    writer: &mut W,
    watcher: &mut V,
) -> Result<(), Stop>
    // Just the text of a dump was read, and just the file of a table that is built of it was written.
    ensures stated { OnOk result (IsMade R.Input W.Output packing reader.old reader.new writer.old writer.new) }
    ensures calls { (bytes : List ℕ) × Takes R.Input reader.old reader.new bytes 1 }
    ensures device { IsErrOf result Stop.Device → (HasFailed (R.failures reader.old) (R.failures reader.new) (R.interrupted reader.new) × (writer.new ≡ writer.old)) ⊎ HasFailed (W.failures writer.old) (W.failures writer.new) (W.interrupted writer.new) }
    ensures refused { (refusal : Refusal) → IsErrOf result (Stop.Refused refusal) → (writer.new ≡ writer.old) × IsUnmade R.Input packing reader.old reader.new refusal }
    ensures memory { IsErrOf result Stop.Memory → writer.new ≡ writer.old }
{
    let packed = match read_packed(alloc, packing, reader, watcher) {
        Ok(packed) => packed,
        Err(DumpReadFault::Line { line, fault }) => {
            return Err(Stop::Refused(Refusal::Line(line, fault)));
        }
        Err(DumpReadFault::Build(fault)) => return Err(Stop::Refused(Refusal::Build(fault))),
        Err(DumpReadFault::Device) => return Err(Stop::Device),
        Err(DumpReadFault::Memory) => return Err(Stop::Memory),
    };
    let table = match packed.build(alloc, watcher) {
        Ok(table) => table,
        Err(BuildFault::Memory) => return Err(Stop::Memory),
        Err(fault) => return Err(Stop::Refused(Refusal::Build(fault))),
    };
    match write(&table, writer) {
        Ok(()) => Ok(()),
        Err(_) => Err(Stop::Device),
    }
}
