mod outgoing;
pub(crate) mod sections;
pub(crate) mod tally;
mod writer;

ghost use Rattle.std.specs.Prelude.{◌≡◌, ◌<◌, ◌^◌, length, take, IfErr, OnOk, OnErr};
ghost use Rattle.szg_io.specs.Device.{HasFailed};
ghost use Rattle.szg_io.specs.Moved.{Gives};
ghost use Rattle.szg_file.specs.Accepted.{IsAccepted};
ghost use Rattle.szg_file.specs.Held.{file_bytes};

use crate::fault::WriteFault;
use crate::table::Table;
use crate::writing::outgoing::{Outgoing, flush};
use crate::writing::sections::put_sections;
use crate::writing::tally::Tally;
use crate::writing::writer::Writer;
use arrayvec::ArrayVec;
use szg_io::Output;

/// Writes the table's file. Errors: the writer failed, with the number of bytes of the file that were written.
pub fn write<W: Output>(table: &Table, output: &mut W) -> Result<(), WriteFault>
    ensures ok { OnOk result (Gives W.Output output.old output.new (file_bytes table.now) 0) }
    ensures err { IfErr result (λ fault. Gives W.Output output.old output.new (take fault.out (file_bytes table.now)) 1) }
    ensures short { IfErr result (λ fault. fault.out < length (file_bytes table.now)) }
    ensures failed { OnErr result (HasFailed (W.failures output.old) (W.failures output.new) (W.interrupted output.new)) }
    ensures quiet { OnOk result (W.failures output.new ≡ W.failures output.old) }
{
    bounded(table);
    let outgoing = Outgoing {
        out: 0,
        held: ArrayVec::new(),
        fill: &table.filled,
    };
    let mut writer = Writer {
        outgoing,
        result: Ok(()),
    };
    put_sections(&table.fields(), &mut writer, output);
    writer.result?;
    flush(output, &mut writer.outgoing)
}

/// Returns the number of bytes of the table's file.
pub fn file_len(table: &Table) -> u64
    ensures { result ≡ length (file_bytes table.now) }
{
    bounded(table);
    Tally::of(&table.fields()).place
}

/// For proofs alone: a table's file is short, because a material has few men.
fn bounded(table: &Table)
    ensures accepted { IsAccepted table.now.contents table.now.filled }
    ensures short { length (file_bytes table.now) < 2 ^ 60 }
{
    let _men = table.index.material().men();
}
