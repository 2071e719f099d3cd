//! Reads a file, and writes the dump of its table while it is read.
ghost use Rattle.std.specs.Prelude.{◌≡◌, ◌⊎◌, [], true, Ok, Err, IfErr, IsErrOf, IsTrue};
ghost use Rattle.szg_io.specs.Device.{HasFailed};
ghost use Rattle.szg_io.specs.Moved.{Gives, Takes};
ghost use Rattle.szg_file.specs.Held.{Shown, file_bytes};
ghost use Rattle.szg_file.specs.Index.{index_of};
ghost use Rattle.szg_file.specs.WholeRead.{IsFileRead, IsTable};
ghost use Rattle.szg_build.specs.Built.{IsDumpOf};
ghost use Rattle.szg_build.specs.Dump.{Dump};
ghost use Rattle.szg_build.specs.Shown.{form_of};
ghost use Rattle.szg_build.specs.Text.{dump_text};

use crate::writing::streaming::{begin_dump, end_dump};
use std::alloc::Global;
use szg_file::{ReadFault, TableIndex, scan};
use szg_io::{Input, IoFault, Output};

/// Reads the file of a table that has this index and these last sixteen bytes, from the reader's first byte on, and
/// writes the text of its dump: in form 1 a line for each value, in form 2 a line for each maximal run of equal values.
/// The lines of a block's values are written once the block passed its check. Of the blocks, one at a time is kept in
/// memory, with its values.
///
/// A `scan` with `NoSink` before returns the index and the last bytes. False if the file's table has another index or
/// other last bytes. Errors: as `read`; the inner one if the writer failed. A part of the text may have been written
/// then.
pub fn stream_dump<R: Input, W: Output>(
    alloc: Global,
    index: &TableIndex,
    last: &[u8; 16],
    form: u8,
    input: &mut R,
    output: &mut W,
) -> Result<Result<bool, IoFault>, ReadFault>
    requires form { (form ≡ 1) ⊎ (form ≡ 2) }
    requires first { R.moved input.old ≡ [] }
    // exactly the file of a table with this index was read, and exactly the text of its dump was written
    ensures dumped { (result ≡ Ok (Ok true)) → (t : Shown) × IsTable index.now.material index.now.kind t × (index.now ≡ index_of t.contents) × Takes R.Input input.old input.new (file_bytes t) 1
        × (dump : Dump) × IsDumpOf dump t.contents × Gives W.Output output.old output.new (dump_text (form_of form) dump) 0 }
    ensures input { IsErrOf result ReadFault.Device → HasFailed (R.failures input.old) (R.failures input.new) (R.interrupted input.new) }
    ensures may_fail { IsErrOf result ReadFault.Device → IsTrue (R.may_fail input.old) }
    ensures fault { IfErr result (λ fault. IsFileRead R.Input index.now.material index.now.kind input.old input.new (Err fault)) }
{
    let Ok(mut sink) = begin_dump(index, last, form, output) else {
        return Ok(Err(IoFault::Failed));
    };
    let material = index.material().copy();
    let scanned = match scan(alloc, material, index.kind(), input, &mut sink, output) {
        Ok(scanned) => scanned,
        // the sink refuses values after a failed write, and `scan` then returns `Memory`
        Err(ReadFault::Memory) if sink.failed => return Ok(Err(IoFault::Failed)),
        Err(fault) => return Err(fault),
    };
    if !scanned.index.has_same(index) || scanned.last != *last {
        return Ok(Ok(false));
    }
    match end_dump(&mut sink, output) {
        Ok(()) => Ok(Ok(true)),
        Err(_) => Ok(Err(IoFault::Failed)),
    }
}
