ghost use Rattle.std.specs.Prelude.{◌≡◌, ℕ, ◌+◌, ◌<◌, ◌≤◌, ◌%◌, ◌^◌, ◌↔◌, List, [], ◌∷◌, ◌++◌, true, false, IsTrue, length, take, map, flat_map, IfOk, IfErr, OnOk, OnErr};
ghost use Rattle.szg_io.specs.Device.{HasFailed};
ghost use Rattle.szg_io.specs.Moved.{Gives};
ghost use Rattle.szg_file.specs.Contents.{bytes_of};
ghost use Rattle.szg_file.specs.FileOf.{Section, written, padding, spare};
ghost use Rattle.szg_file.specs.Held.{sparse_of};
ghost use Rattle.szg_file.specs.Writing.{Writing, WritesAs};

use crate::fault::WriteFault;
use arrayvec::ArrayVec;
use szg_block::Entry;
use szg_io::{Output, give_whole};
use szg_pairs::Dict;

/// The state of a writer.
#[derive(Drop)]
pub struct Outgoing<'a> {
    /// The number of bytes written, modulo 2^64. No table's file is that long.
    pub out: u64,
    /// The buffered bytes after them.
    pub held: ArrayVec<u8, 4096>,
    /// The padding bytes that no section has used yet.
    pub fill: &'a [u8],
}

/// Writes `chunk` after the first `out` bytes; returns the new total. Errors: the total when the device failed.
fn give<W: Output>(chunk: &[u8], output: &mut W, out: u64) -> Result<u64, WriteFault>
    ensures ok { IfOk result (λ now. now ≡ (out + length chunk.now) % 2 ^ 64) }
    ensures given { OnOk result (Gives W.Output output.old output.new chunk.now 0) }
    ensures quiet { OnOk result (W.failures output.new ≡ W.failures output.old) }
    ensures fault { IfErr result (λ fault. (n : ℕ) × (n < length chunk.now) × (fault.out ≡ (out + n) % 2 ^ 64)
        × Gives W.Output output.old output.new (take n chunk.now) 1) }
    ensures failed { OnErr result (HasFailed (W.failures output.old) (W.failures output.new) (W.interrupted output.new)) }
{
    match give_whole(output, chunk) {
        Ok(()) => Ok(out.wrapping_add(chunk.len() as u64)),
        Err(n) => Err(WriteFault {
            out: out.wrapping_add(n as u64),
        }),
    }
}

/// Writes the buffered bytes.
pub(crate) fn flush<W: Output>(output: &mut W, outgoing: &mut Outgoing) -> Result<(), WriteFault>
    ensures none { Writing [] outgoing.old outgoing.new W.Output output.old output.new result }
    ensures held { OnOk result (outgoing.new.held.items ≡ []) }
{
    outgoing.out = give(outgoing.held.as_slice(), output, outgoing.out)?;
    outgoing.held.clear();
    Ok(())
}

/// Buffers `chunk` if there is room for it; returns whether there was.
fn hold(chunk: &[u8], outgoing: &mut Outgoing) -> bool
    ensures room { IsTrue result ↔ (length outgoing.old.held.items + length chunk.now ≤ 4096) }
    ensures out { outgoing.new.out ≡ outgoing.old.out }
    ensures fill { outgoing.new.fill.now ≡ outgoing.old.fill.now }
    ensures held { result ≡ true → outgoing.new.held.items ≡ outgoing.old.held.items ++ chunk.now }
    ensures kept { result ≡ false → outgoing.new.held.items ≡ outgoing.old.held.items }
{
    outgoing.held.try_extend_from_slice(chunk).is_ok()
}

/// Buffers `chunk`, or writes it if it is longer than the buffer.
pub fn put<W: Output>(
    chunk: &[u8],
    output: &mut W,
    outgoing: &mut Outgoing,
) -> Result<(), WriteFault>
    ensures { Writing (written chunk.now ∷ []) outgoing.old outgoing.new W.Output output.old output.new result }
{
    if hold(chunk, outgoing) {
        return Ok(());
    }
    flush(output, outgoing)?;
    if !hold(chunk, outgoing) {
        outgoing.out = give(chunk, output, outgoing.out)?;
    }
    Ok(())
}

/// Buffers or writes the next `count` padding bytes.
pub(crate) fn put_spare<W: Output>(
    count: u64,
    output: &mut W,
    outgoing: &mut Outgoing,
) -> Result<(), WriteFault>
    requires { count < 2 ^ 32 }
    ensures { Writing (spare count ∷ []) outgoing.old outgoing.new W.Output output.old output.new result }
{
    let count = outgoing.fill.len().min(count as usize);
    let (fill, rest) = outgoing.fill.split_at(count);
    outgoing.fill = rest;
    put(fill, output, outgoing)
}

/// Buffers or writes the padding up to a multiple of `unit`, which is 2 or 64.
pub(crate) fn put_padding<W: Output>(
    unit: u64,
    output: &mut W,
    outgoing: &mut Outgoing,
) -> Result<(), WriteFault>
    requires some { 0 < unit }
    requires most { unit < 2 ^ 32 }
    requires whole { 2 ^ 64 % unit ≡ 0 }
    ensures { Writing (padding unit ∷ []) outgoing.old outgoing.new W.Output output.old output.new result }
{
    let place = outgoing.out.wrapping_add(outgoing.held.len() as u64);
    put_spare((unit - place % unit) % unit, output, outgoing)
}

// ---- lists

/// Writes the items in order, each by a call of `write`.
fn write_each<T, W: Output, F: Fn(&T, &mut W, &mut Outgoing) -> Result<(), WriteFault>>(
    items: &[T],
    write: F,
    output: &mut W,
    outgoing: &mut Outgoing,
) -> Result<(), WriteFault>
    requires { F.IsAlwaysCallable write }
    ensures { (sections : T → List Section) → WritesAs F.Fn W.Output write sections → Writing (flat_map sections items.now) outgoing.old outgoing.new W.Output output.old output.new result }
{
    'items: for item in items {
        write(item, output, outgoing)?;
    }
    Ok(())
}

/// Writes two-byte numbers, least byte first.
pub(crate) fn put_numbers<W: Output>(
    list: &[u16],
    output: &mut W,
    outgoing: &mut Outgoing,
) -> Result<(), WriteFault>
    ensures { Writing (written (flat_map (bytes_of 2) list.now) ∷ []) outgoing.old outgoing.new W.Output output.old output.new result }
{
    write_each(
        list,
        |number, output, outgoing| put(&number.to_le_bytes(), output, outgoing),
        output,
        outgoing,
    )
}

/// Writes the entries of a dictionary.
pub(crate) fn put_symbols<W: Output>(
    dict: &Dict,
    output: &mut W,
    outgoing: &mut Outgoing,
) -> Result<(), WriteFault>
    ensures { Writing (written (flat_map (λ entry. entry) dict.now) ∷ []) outgoing.old outgoing.new W.Output output.old output.new result }
{
    'symbols: for symbol in 0..dict.symbols() {
        put(&dict.entry(symbol), output, outgoing)?;
    }
    Ok(())
}

fn put_entry<W: Output>(
    entry: &Entry,
    output: &mut W,
    outgoing: &mut Outgoing,
) -> Result<(), WriteFault>
    ensures { Writing (written (bytes_of 4 entry.now.block ++ bytes_of 2 entry.now.offset) ∷ []) outgoing.old outgoing.new W.Output output.old output.new result }
{
    put(&entry.block.to_le_bytes(), output, outgoing)?;
    put(&entry.offset.to_le_bytes(), output, outgoing)
}

/// Writes a sparse index.
pub(crate) fn put_sparse<W: Output>(
    sparse: &[Entry],
    output: &mut W,
    outgoing: &mut Outgoing,
) -> Result<(), WriteFault>
    ensures { Writing (written (flat_map (λ entry. bytes_of 4 entry.block ++ bytes_of 2 entry.offset) (map sparse_of sparse.now)) ∷ []) outgoing.old outgoing.new W.Output output.old output.new result }
{
    write_each(sparse, put_entry, output, outgoing)
}
