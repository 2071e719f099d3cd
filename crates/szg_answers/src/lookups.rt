//! The commands that look values up.

ghost use Rattle.std.specs.Prelude.{◌≡◌, ◌⊎◌, ℕ, ◌<◌, List, ◌++◌, flat_map, Some, None, IsSome, IfSome, IfErr, OnOk, IfOk, Err, IsErrOf, string_bytes, if◌then◌else◌};
ghost use Rattle.szg_io.specs.Device.{HasFailed};
ghost use Rattle.szg_io.specs.Moved.{Gives};
ghost use Rattle.szg_file.specs.Values.{subtable_at};
ghost use Rattle.szg_answers.specs.Answers.{IsAnswer, number_line};
ghost use Rattle.szg_answers.specs.Refusals.{IsRefused, index_refusal, size_at};
ghost use Rattle.szg_answers.specs.declared.refusal.Refusal.{Refusal};

use crate::refusal::{Refusal, Stop};
use crate::saying::say;
use crate::streaming::{add_lines, add_same};
use std::alloc::Global;
use szg_build::{BlockValues, StoredValues, stored_values};
use szg_file::Table;
use szg_io::Output;
use szg_words::{Action, Request};

/// Whether the table has the index: `Part` where there is no such part or side, `Index` where it has fewer positions.
pub(crate) fn check_index(table: &Table, request: &Request, index: u64) -> Result<(), Refusal>
    ensures there { OnOk result (IsSome (subtable_at table.now.contents request.now.part request.now.side)) }
    ensures below { OnOk result (IfSome (subtable_at table.now.contents request.now.part request.now.side) (λ found. index < found.0.size)) }
    ensures passed { OnOk result (index_refusal (size_at table.now.contents request.now.part request.now.side) index ≡ None) }
    ensures refused { IfErr result (λ refusal. index_refusal (size_at table.now.contents request.now.part request.now.side) index ≡ Some refusal) }
{
    let Some(size) = table.size(request.part, request.side) else {
        return Err(Refusal::Part);
    };
    if index < size {
        Ok(())
    } else {
        Err(Refusal::Index)
    }
}

/// The line of the value at an index, with the steps by which it is found if they are asked for.
pub(crate) fn get_answer(
    alloc: Global,
    table: &Table,
    request: &Request,
    index: u64,
    has_steps: bool,
) -> Result<String, Stop>
    ensures stated { IfOk result (λ line. IsAnswer (if has_steps then Action.GetCounted index else Action.Get index) request.now.part request.now.side table.now (string_bytes line)) }
    ensures refused { (refusal : Refusal) → IsErrOf result (Stop.Refused refusal) → index_refusal (size_at table.now.contents request.now.part request.now.side) index ≡ Some refusal }
    ensures device { IsErrOf result Stop.Device → ⊥ }
{
    check_index(table, request, index)?;
    if has_steps {
        let (value, steps) = table.get_counted(request.part, request.side, index);
        return Ok(format!(in alloc;
            "{value} moves {} words {} descents {} fetches {}\n",
            steps.moves, steps.words, steps.descents, steps.fetches
        )?);
    }
    let value = table.get(request.part, request.side, index);
    Ok(format!(in alloc; "{value}\n")?)
}

/// Writes each value of a subtable on a line, a block's values at a time.
pub(crate) fn write_all_values<W: Output>(
    alloc: Global,
    table: &Table,
    request: &Request,
    writer: &mut W,
) -> Result<(), Stop>
    ensures stated { OnOk result ((text : List ℕ) × IsAnswer Action.Values request.now.part request.now.side table.now text × Gives W.Output writer.old writer.new text 0) }
    ensures device { IsErrOf result Stop.Device → HasFailed (W.failures writer.old) (W.failures writer.new) (W.interrupted writer.new) }
    ensures refused { (refusal : Refusal) → IsErrOf result (Stop.Refused refusal) → (writer.new ≡ writer.old) × IsRefused Action.Values request.now.part request.now.side table.now.contents refusal }
    // a beginning of the answer was written
    ensures memory { IsErrOf result Stop.Memory → (writer.new ≡ writer.old) ⊎ ((text : List ℕ) × (rest : List ℕ) × IsAnswer Action.Values request.now.part request.now.side table.now (text ++ rest) × Gives W.Output writer.old writer.new text 0) }
{
    let Some(stored) = stored_values(table, request.part, request.side) else {
        return Err(Stop::Refused(Refusal::Part));
    };
    match stored {
        StoredValues::Same { value, count } => {
            let mut text = Vec::new(alloc);
            add_same(&mut text, value, count, writer)?;
            say(writer, &text)
        }
        StoredValues::Blocks(mut blocks) => say_blocks(alloc, &mut blocks, writer),
    }
}

/// Writes each value of blocks on a line, in large pieces. It takes memory for the values of one block.
fn say_blocks<W: Output>(
    alloc: Global,
    blocks: &mut BlockValues<'_>,
    writer: &mut W,
) -> Result<(), Stop>
    ensures given { OnOk result (Gives W.Output writer.old writer.new (flat_map number_line blocks.old.values) 0) }
    ensures device { IsErrOf result Stop.Device → HasFailed (W.failures writer.old) (W.failures writer.new) (W.interrupted writer.new) }
    ensures only { (refusal : Refusal) → IsErrOf result (Stop.Refused refusal) → ⊥ }
    ensures memory { IsErrOf result Stop.Memory → (text : List ℕ) × (rest : List ℕ) × (text ++ rest ≡ flat_map number_line blocks.old.values) × Gives W.Output writer.old writer.new text 0 }
{
    let mut values = Vec::new(alloc);
    let mut text = Vec::new(alloc);
    'each: while blocks.decode_next(&mut values)? {
        add_lines(&mut text, &values, writer)?;
    }
    say(writer, &text)
}
