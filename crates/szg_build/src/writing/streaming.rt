//! Writes the dump of a table whose values come block by block.
ghost use Rattle.std.specs.Prelude.{◌≡◌, ℕ, ◌+◌, ◌≤◌, ◌<◌, ◌⊎◌, [], ◌++◌, length, min, map, replicate, get_or, true, false, Ok, OnOk, OnErr, Err, IfOk, List};
ghost use Rattle.szg_io.specs.Device.{HasFailed};
ghost use Rattle.szg_io.specs.Moved.{Gives};
ghost use Rattle.szg_values.specs.declared.Kind.{Kind};
ghost use Rattle.szg_build.specs.Dump.{parts_of};
ghost use Rattle.szg_build.specs.Shown.{form_of};
ghost use Rattle.szg_build.specs.Streaming.{Goes, IsDone, head_count, heads_of, no_head, sub_of, text_left};
ghost use Rattle.szg_build.specs.Text.{flags_lines, front_lines, lines_text, part_lines, flat_map_beside};
ghost use Rattle.szg_build.specs.Writing.{Writing};

use crate::places::places;
use crate::writing::dump_sink::DumpSink;
use crate::writing::dump_text::{DumpText, Written, flush};
use crate::writing::{
    put_equal, put_flags_and_map, put_front, put_number, put_parts, put_subtable_id, run_length,
};
use szg_file::{TableIndex, ValueSink, WriteFault};
use szg_io::{IoFault, Output};
use szg_values::Kind;

// ---- the lines before a subtable's values

/// Returns the number of subtables of a table.
fn count_subs(index: &TableIndex) -> usize
    ensures { result ≡ head_count index.now }
{
    let places = places(index.material(), index.kind());
    places.len().min(index.flags().len())
}

/// Writes the flags and the map of subtable `s` of a DTZ table. For a WDL table it writes nothing.
fn put_flags_of<W: Output>(
    index: &TableIndex,
    s: usize,
    output: &mut W,
    text: &mut DumpText,
) -> Written
    requires { s < length (heads_of index.now) }
    ensures written { OnOk result (Writing {X = Unit {0}} (lines_text (flags_lines index.now.kind (sub_of (get_or (heads_of index.now) s no_head)))) text.old text.new W.Output output.old output.new (Ok tt)) }
    ensures failed { OnErr result (HasFailed (W.failures output.old) (W.failures output.new) (W.interrupted output.new)) }
{
    match index.kind() {
        Kind::Wdl => Ok(()),
        Kind::Dtz => {
            let flags = index.flags()[s] % 32;
            put_flags_and_map(flags, &index.maps()[s], output, text)
        }
    }
}

// ---- the sink

/// Creates a sink for the dump of a table with this index, and writes the lines before the subtables.
pub(crate) fn begin_dump<'a, W: Output>(
    index: &'a TableIndex,
    last: &[u8; 16],
    form: u8,
    output: &mut W,
) -> Result<DumpSink<'a>, WriteFault>
    requires { (form ≡ 1) ⊎ (form ≡ 2) }
    ensures index { IfOk result (λ sink. sink.index.now ≡ index.now) }
    ensures begun { IfOk result (λ sink. (sink.form ≡ form) × (sink.next ≡ 0) × (sink.left ≡ 0) × (sink.count ≡ 0)) }
    ensures given { IfOk result (λ sink. (bytes : List ℕ) × Gives W.Output output.old output.new bytes 0
        × (bytes ++ sink.text.held.items ≡ lines_text (front_lines (form_of form) index.now.material index.now.kind last.now) ++ lines_text (flat_map_beside part_lines (parts_of index.now.material) index.now.parts))) }
    ensures failed { OnErr result (HasFailed (W.failures output.old) (W.failures output.new) (W.interrupted output.new)) }
    ensures quiet { OnOk result (W.failures output.new ≡ W.failures output.old) }
{
    let mut text = DumpText::new();
    let material = index.material();
    put_front(form, material, index.kind(), last, output, &mut text)?;
    put_parts(material, index.parts(), output, &mut text)?;
    Ok(DumpSink {
        index,
        form,
        next: 0,
        left: 0,
        count: 0,
        value: 0,
        text,
        failed: false,
    })
}

/// Writes the lines of the current run, and then the lines before the values of the next subtable.
fn begin_sub<W: Output>(sink: &mut DumpSink<'_>, output: &mut W) -> Written
    requires whole { sink.old.left ≡ 0 }
    requires there { sink.old.next < head_count sink.old.index.now }
    ensures goes { OnOk result (Goes W.Output [] sink.old output.old sink.new output.new) }
    ensures next { OnOk result (sink.new.next ≡ sink.old.next + 1) }
    ensures failed { OnErr result (HasFailed (W.failures output.old) (W.failures output.new) (W.interrupted output.new)) }
    ensures index { OnOk result (sink.new.index ≡ sink.old.index) }
{
    put_equal(sink.form, sink.count, sink.value, output, &mut sink.text)?;
    let (index, s) = (sink.index, sink.next);
    let places = places(index.material(), index.kind());
    put_subtable_id(places[s], output, &mut sink.text)?;
    put_flags_of(index, s, output, &mut sink.text)?;
    let slot = index.slots()[s];
    put_number(b"values ", slot.size, output, &mut sink.text)?;
    sink.count = 0;
    sink.left = slot.size;
    sink.next += 1;
    Ok(())
}

/// Begins subtables until the current one needs a value. False if none of the subtables left does.
fn find_room<W: Output>(sink: &mut DumpSink<'_>, output: &mut W) -> Result<bool, WriteFault>
    ensures goes { OnOk result (Goes W.Output [] sink.old output.old sink.new output.new) }
    ensures room { IfOk result (λ found. found ≡ true → 0 < sink.new.left) }
    ensures none { IfOk result (λ found. found ≡ false → IsDone sink.new) }
    ensures failed { OnErr result (HasFailed (W.failures output.old) (W.failures output.new) (W.interrupted output.new)) }
{
    'begun: while sink.left == 0 {
        if sink.next >= count_subs(sink.index) {
            return Ok(false);
        }
        begin_sub(sink, output)?;
    }
    Ok(true)
}

/// Adds `count` equal values, all of which the current subtable still needs. If they do not lengthen the current run,
/// its lines are written first.
fn add_run<W: Output>(sink: &mut DumpSink<'_>, value: u16, count: u64, output: &mut W) -> Written
    requires some { 0 < count }
    requires within { count ≤ sink.old.left }
    ensures goes { OnOk result (Goes W.Output (replicate count value) sink.old output.old sink.new output.new) }
    ensures failed { OnErr result (HasFailed (W.failures output.old) (W.failures output.new) (W.interrupted output.new)) }
{
    if sink.count > 0 && sink.value == value {
        sink.left -= count;
        sink.count += count;
        return Ok(());
    }
    put_equal(sink.form, sink.count, sink.value, output, &mut sink.text)?;
    sink.left -= count;
    sink.value = value;
    sink.count = count;
    Ok(())
}

/// Adds a value `count` times.
pub(crate) fn add_same<W: Output>(
    sink: &mut DumpSink<'_>,
    value: u16,
    count: u64,
    output: &mut W,
) -> Written
    ensures goes { OnOk result (Goes W.Output (replicate count value) sink.old output.old sink.new output.new) }
    ensures failed { OnErr result (HasFailed (W.failures output.old) (W.failures output.new) (W.interrupted output.new)) }
{
    let mut more = count;
    'values: while more > 0 {
        if !find_room(sink, output)? {
            return Ok(());
        }
        let now = more.min(sink.left);
        add_run(sink, value, now, output)?;
        more -= now;
    }
    Ok(())
}

/// Adds values to the dump. Values after those of the last subtable are ignored.
pub(crate) fn add_values<W: Output>(
    sink: &mut DumpSink<'_>,
    values: &[u16],
    output: &mut W,
) -> Written
    ensures goes { OnOk result (Goes W.Output values.now sink.old output.old sink.new output.new) }
    ensures failed { OnErr result (HasFailed (W.failures output.old) (W.failures output.new) (W.interrupted output.new)) }
{
    let mut from = 0;
    'runs: while from < values.len() {
        let count = run_length(&values[from..]);
        add_same(sink, values[from], count as u64, output)?;
        from += count;
    }
    Ok(())
}

/// Writes the rest of the dump after the last values, and the bytes that are still buffered.
pub(crate) fn end_dump<W: Output>(sink: &mut DumpSink<'_>, output: &mut W) -> Written
    ensures given { OnOk result (Gives W.Output output.old output.new (sink.old.text.held.items ++ text_left sink.old []) 0) }
    ensures failed { OnErr result (HasFailed (W.failures output.old) (W.failures output.new) (W.interrupted output.new)) }
{
    sink.left = 0;
    'begun: while sink.next < count_subs(sink.index) {
        begin_sub(sink, output)?;
        sink.left = 0;
    }
    put_equal(sink.form, sink.count, sink.value, output, &mut sink.text)?;
    flush(output, &mut sink.text)
}

impl<W: Output> ValueSink<W> for DumpSink<'_> {
    ghost wanted = { λ _ _ _. true };

    ghost accepts = { λ s out values s' out'. Goes W.Output values s out s' out' };

    fn wants(&self, _part: u8, _side: u8) -> bool {
        true
    }

    fn put(&mut self, values: &[u16], out: &mut W) -> Result<(), IoFault> {
        let Ok(()) = add_values(self, values, out) else {
            self.failed = true;
            return Err(IoFault::Failed);
        };
        Ok(())
    }

    fn put_same(&mut self, value: u16, count: u64, out: &mut W) -> Result<(), IoFault> {
        let Ok(()) = add_same(self, value, count, out) else {
            self.failed = true;
            return Err(IoFault::Failed);
        };
        Ok(())
    }
}
