//! Writes the dump of a table in memory, a block's values at a time.
ghost use Rattle.std.specs.Prelude.{◌≡◌, ℕ, ◌⊎◌, ◌++◌, List, IfOk, OnErr, OnOk};
ghost use Rattle.szg_io.specs.Device.{HasFailed};
ghost use Rattle.szg_io.specs.Moved.{Gives};
ghost use Rattle.szg_build.specs.Built.{IsDumpOf};
ghost use Rattle.szg_build.specs.Dump.{Dump};
ghost use Rattle.szg_build.specs.Shown.{form_of};
ghost use Rattle.szg_build.specs.Stored.{all_values, shown_values};
ghost use Rattle.szg_build.specs.Streaming.{Goes};
ghost use Rattle.szg_build.specs.Text.{dump_text};

use crate::copies::table_subtable_ids;
use crate::writing::dump_sink::DumpSink;
use crate::writing::stored::{StoredValues, stored_values};
use crate::writing::streaming::{add_same, add_values, begin_dump, end_dump};
use std::alloc::{AllocError, Global};
use szg_file::Table;
use szg_io::{IoFault, Output};

/// Adds the values of a subtable to the dump. Each block is decoded into `values`.
fn put_stored<W: Output>(
    stored: StoredValues<'_>,
    values: &mut Vec<u16>,
    sink: &mut DumpSink<'_>,
    output: &mut W,
) -> Result<Result<(), IoFault>, AllocError>
    ensures goes { IfOk result (λ written. OnOk written (Goes W.Output (shown_values stored.entry) sink.old output.old sink.new output.new)) }
    ensures memory { OnErr result ((done : List ℕ) × (rest : List ℕ) × (done ++ rest ≡ shown_values stored.entry) × Goes W.Output done sink.old output.old sink.new output.new) }
    ensures failed { IfOk result (λ written. OnErr written (HasFailed (W.failures output.old) (W.failures output.new) (W.interrupted output.new))) }
{
    match stored {
        StoredValues::Same { value, count } => {
            Ok(add_same(sink, value, count, output).map_err(|_| IoFault::Failed))
        }
        StoredValues::Blocks(mut blocks) => {
            'each: while blocks.decode_next(values)? {
                let Ok(()) = add_values(sink, values, output) else {
                    return Ok(Err(IoFault::Failed));
                };
            }
            Ok(Ok(()))
        }
    }
}

/// Adds the values of all subtables of a table to the dump, in file order.
fn put_subtables<W: Output>(
    alloc: Global,
    table: &Table,
    sink: &mut DumpSink<'_>,
    output: &mut W,
) -> Result<Result<(), IoFault>, AllocError>
    ensures goes { IfOk result (λ written. OnOk written (Goes W.Output (all_values table.now.contents) sink.old output.old sink.new output.new)) }
    ensures memory { OnErr result ((done : List ℕ) × (rest : List ℕ) × (done ++ rest ≡ all_values table.now.contents) × Goes W.Output done sink.old output.old sink.new output.new) }
    ensures failed { IfOk result (λ written. OnErr written (HasFailed (W.failures output.old) (W.failures output.new) (W.interrupted output.new))) }
{
    let mut values = Vec::new(alloc);
    'places: for place in table_subtable_ids(table) {
        let Some(stored) = stored_values(table, place.0, place.1) else {
            unreachable!()
        };
        let Ok(()) = put_stored(stored, &mut values, sink, output)? else {
            return Ok(Err(IoFault::Failed));
        };
    }
    Ok(Ok(()))
}

/// Writes the text of a table's dump: in form 1 a line for each value, in form 2 a line for each maximal run of equal
/// values. It keeps the values of one block in memory.
///
/// Errors: memory was refused; the inner one if the writer failed. A beginning of the text may have been written then.
pub fn dump_table<W: Output>(
    alloc: Global,
    table: &Table,
    form: u8,
    output: &mut W,
) -> Result<Result<(), IoFault>, AllocError>
    requires { (form ≡ 1) ⊎ (form ≡ 2) }
    ensures dumped { IfOk result (λ written. OnOk written ((dump : Dump) × IsDumpOf dump table.now.contents × Gives W.Output output.old output.new (dump_text (form_of form) dump) 0)) }
    // a beginning of the text was written
    ensures memory { OnErr result ((dump : Dump) × IsDumpOf dump table.now.contents × (text : List ℕ) × (rest : List ℕ) × (text ++ rest ≡ dump_text (form_of form) dump) × Gives W.Output output.old output.new text 0) }
    ensures failed { IfOk result (λ written. OnErr written (HasFailed (W.failures output.old) (W.failures output.new) (W.interrupted output.new))) }
{
    let Ok(mut sink) = begin_dump(table.index(), table.last(), form, output) else {
        return Ok(Err(IoFault::Failed));
    };
    let Ok(()) = put_subtables(alloc, table, &mut sink, output)? else {
        return Ok(Err(IoFault::Failed));
    };
    Ok(end_dump(&mut sink, output).map_err(|_| IoFault::Failed))
}
