//! Reading from a device: fields, numbers, lists and padding.
ghost use Rattle.std.specs.Prelude.{◌≡◌, ◌+◌, ◌*◌, ◌/◌, ◌%◌, ◌≤◌, ◌<◌, ◌^◌, ◌++◌, length, map, take, drop, Err, OnOk, IfOk, OnErr, IsErrOf};
ghost use Rattle.szg_file.specs.Contents.{items};
ghost use Rattle.szg_file.specs.Format.{field, means};
ghost use Rattle.szg_file.specs.File.{entry_of_bytes, filled_to, rows_field, number_field};
ghost use Rattle.szg_file.specs.Held.{sparse_of, numbers_field, sparse_rows, spare_field};
ghost use Rattle.szg_file.specs.Reading.{Reading};
ghost use Rattle.szg_file.specs.Grown.{HasCounted};

use crate::fault::{ReadFault, Reason};
use crate::reading::state::{ReaderState, grow};
use byteorder::{ByteOrder, LittleEndian};
use std::alloc::Global;
use std::mem;
use szg_block::Entry;
use szg_io::{Input, take_whole};

/// Reads a field into `chunk`, which it fills.
pub(crate) fn take_field<R: Input>(
    input: &mut R,
    state: &mut ReaderState,
    chunk: &mut [u8],
) -> Result<(), ReadFault>
    requires { state.old.place + length chunk.old < 2 ^ 64 }
    ensures field { Reading (field (length chunk.new) means) (λ _. chunk.new) state.old state.new R.Input input.old input.new result }
    ensures place { OnOk result (state.new.place ≡ state.old.place + length chunk.new) }
    ensures growth { OnOk result (state.new.growth ≡ state.old.growth) }
    ensures grown { OnOk result (HasCounted state.old state.new 0 0) }
    ensures memory { IsErrOf result ReadFault.Memory → ⊥ }
{
    let Ok(got) = take_whole(input, chunk) else {
        return Err(ReadFault::Device);
    };
    if got < chunk.len() {
        let place = state.place + got as u64;
        let reason = Reason::Truncated;
        return Err(ReadFault::Refused { place, reason });
    }
    state.place += got as u64;
    Ok(())
}

/// Reads a byte.
pub(crate) fn read_byte<R: Input>(input: &mut R, state: &mut ReaderState) -> Result<u8, ReadFault>
    requires { state.old.place < 2 ^ 62 }
    ensures byte { Reading (number_field 1) (λ byte. byte) state.old state.new R.Input input.old input.new result }
    ensures place { OnOk result (state.new.place ≡ state.old.place + 1) }
    ensures growth { OnOk result (state.new.growth ≡ state.old.growth) }
    ensures grown { OnOk result (HasCounted state.old state.new 0 0) }
{
    let mut chunk = [0; 1];
    take_field(input, state, &mut chunk)?;
    Ok(chunk[0])
}

/// Reads a two-byte number.
pub(crate) fn read_number<R: Input>(
    input: &mut R,
    state: &mut ReaderState,
) -> Result<u16, ReadFault>
    requires { state.old.place < 2 ^ 62 }
    ensures number { Reading (number_field 2) (λ number. number) state.old state.new R.Input input.old input.new result }
    ensures place { OnOk result (state.new.place ≡ state.old.place + 2) }
    ensures growth { OnOk result (state.new.growth ≡ state.old.growth) }
    ensures grown { OnOk result (HasCounted state.old state.new 0 0) }
{
    let mut chunk = [0; 2];
    take_field(input, state, &mut chunk)?;
    Ok(LittleEndian::read_u16(&chunk))
}

/// The greatest number of bytes that are read into a list at once. Lists may be 65,536 items ahead of the bytes
/// read; this is half of that, and the rest is for items that few bytes account for.
pub(crate) const CHUNK: u64 = 32768;

/// Reads a field of `count` bytes into a new list, in chunks.
pub(crate) fn take_bytes<R: Input>(
    alloc: Global,
    count: u64,
    input: &mut R,
    state: &mut ReaderState,
) -> Result<Vec<u8>, ReadFault>
    requires place { state.old.place + count < 2 ^ 62 }
    requires growth_bound { state.old.growth ≤ 2 * state.old.place + 2 ^ 15 }
    ensures field { Reading (field count means) (λ list. list.items) state.old state.new R.Input input.old input.new result }
    ensures count { IfOk result (λ list. length list.items ≡ count) }
    ensures place { OnOk result (state.new.place ≡ state.old.place + count) }
    ensures growth { OnOk result (state.new.growth ≡ state.old.growth + count) }
    ensures grown { IfOk result (λ list. HasCounted state.old state.new 0 (length list.items)) }
{
    let mut list = Vec::new(alloc);
    take_more(&mut list, count, input, state)?;
    Ok(list)
}

/// Reads a field of `count` bytes in chunks, and appends it to a list.
pub(crate) fn take_more<R: Input>(
    list: &mut Vec<u8>,
    count: u64,
    input: &mut R,
    state: &mut ReaderState,
) -> Result<(), ReadFault>
    requires place { state.old.place + count < 2 ^ 62 }
    requires growth_bound { state.old.growth ≤ 2 * state.old.place + 2 ^ 15 }
    ensures field { Reading (field count means) (λ _. drop (length list.old.items) list.new.items) state.old state.new R.Input input.old input.new result }
    ensures kept { OnOk result (take (length list.old.items) list.new.items ≡ list.old.items) }
    ensures longer { OnOk result (length list.new.items ≡ length list.old.items + count) }
    ensures place { OnOk result (state.new.place ≡ state.old.place + count) }
    ensures growth { OnOk result (state.new.growth ≡ state.old.growth + count) }
    ensures grown { OnOk result (HasCounted state.old state.new (length list.old.items) (length list.new.items)) }
{
    let mut left = count;
    'chunks: while left > 0 {
        let size = left.min(CHUNK);
        grow(list, size as usize, state)?;
        let at = list.len();
        list.resize(at + size as usize, 0)?;
        take_field(input, state, &mut list[at..])?;
        left -= size;
    }
    Ok(())
}

/// Reads `count` padding bytes, at most 63.
pub(crate) fn take_spare<R: Input>(
    alloc: Global,
    count: u8,
    input: &mut R,
    state: &mut ReaderState,
) -> Result<(), ReadFault>
    requires count { count < 64 }
    requires place { state.old.place < 2 ^ 62 }
    requires growth_bound { state.old.growth ≤ 2 * state.old.place + 2 ^ 15 }
    ensures fill { Reading (spare_field count) (λ _. tt) state.old state.new R.Input input.old input.new result }
    ensures place { OnOk result (state.new.place ≡ state.old.place + count) }
    ensures growth { OnOk result (state.new.growth ≡ state.old.growth + count) }
    ensures grown { OnOk result (HasCounted state.old state.new 0 0) }
{
    let size = count as usize;
    let mut chunk = [0; 64];
    take_field(input, state, &mut chunk[..size])?;
    let mut fill = mem::replace(&mut state.fill, Vec::new(alloc));
    grow(&mut fill, size, state)?;
    fill.extend_from_slice(&chunk[..size])?;
    state.fill = fill;
    Ok(())
}

/// Reads the padding up to a multiple of `unit`, which is 2 or 64.
pub(crate) fn take_fill<R: Input>(
    alloc: Global,
    unit: u8,
    input: &mut R,
    state: &mut ReaderState,
) -> Result<(), ReadFault>
    requires some { 0 < unit }
    requires most { unit ≤ 64 }
    requires place { state.old.place < 2 ^ 62 }
    requires growth_bound { state.old.growth ≤ 2 * state.old.place + 2 ^ 15 }
    ensures fill { Reading (filled_to unit) (λ _. tt) state.old state.new R.Input input.old input.new result }
    ensures place { OnOk result (state.new.place < state.old.place + 64) }
    ensures growth { OnOk result (state.new.growth + state.old.place ≡ state.old.growth + state.new.place) }
    ensures grown { OnOk result (HasCounted state.old state.new 0 0) }
{
    let rest = (state.place % unit as u64) as u8;
    take_spare(alloc, (unit - rest) % unit, input, state)
}

/// Reads `count` two-byte numbers as one field, in chunks.
pub(crate) fn take_numbers<R: Input>(
    alloc: Global,
    count: u64,
    input: &mut R,
    state: &mut ReaderState,
) -> Result<Vec<u16>, ReadFault>
    requires place { state.old.place + 2 * count < 2 ^ 62 }
    requires growth_bound { state.old.growth ≤ 2 * state.old.place + 2 ^ 15 }
    ensures rows { Reading (numbers_field count) (λ list. list.items) state.old state.new R.Input input.old input.new result }
    ensures place { OnOk result (state.new.place ≡ state.old.place + 2 * count) }
    ensures count { IfOk result (λ list. length list.items ≡ count) }
    ensures growth { OnOk result (state.new.growth ≡ state.old.growth + 3 * count) }
    ensures grown { IfOk result (λ list. HasCounted state.old state.new 0 (length list.items)) }
{
    let mut list = Vec::new(alloc);
    let mut left = count;
    'chunks: while left > 0 {
        let size = left.min(CHUNK / 2);
        let rows = take_bytes(alloc, 2 * size, input, state)?;
        grow(&mut list, size as usize, state)?;
        let at = list.len();
        list.resize(at + size as usize, 0)?;
        LittleEndian::read_u16_into(rows.as_slice(), &mut list[at..]);
        left -= size;
    }
    Ok(list)
}

/// Reads `count` dictionary entries, three bytes each, as one field.
pub(crate) fn take_entries<R: Input>(
    alloc: Global,
    count: u64,
    input: &mut R,
    state: &mut ReaderState,
) -> Result<Vec<[u8; 3]>, ReadFault>
    requires few { count < 2 ^ 16 }
    requires place { state.old.place + 3 * count < 2 ^ 62 }
    requires growth_bound { state.old.growth ≤ 2 * state.old.place + 2 ^ 15 }
    ensures rows { Reading (rows_field 3 count) (λ list. list.items) state.old state.new R.Input input.old input.new result }
    ensures place { OnOk result (state.new.place ≡ state.old.place + 3 * count) }
    ensures count { IfOk result (λ list. length list.items ≡ count) }
    ensures growth { OnOk result (state.new.growth ≡ state.old.growth + 4 * count) }
    ensures grown { IfOk result (λ list. HasCounted state.old state.new 0 (2 * length list.items)) }
{
    let bytes = take_bytes(alloc, 3 * count, input, state)?;
    let rows = bytes.as_slice();
    let mut list = Vec::new(alloc);
    grow(&mut list, count as usize, state)?;
    'rows: for i in 0..rows.len() / 3 {
        let row = &rows[3 * i..];
        list.push([row[0], row[1], row[2]])?;
    }
    Ok(list)
}

/// Decodes rows of six bytes each, and appends the entries to a list.
fn append_sparse(
    rows: &[u8],
    list: &mut Vec<Entry>,
    state: &mut ReaderState,
) -> Result<(), ReadFault>
    requires most { length rows.now ≤ 32768 }
    requires growth_bound { state.old.growth ≤ 2 * state.old.place + 2 ^ 15 }
    requires place { state.old.place < 2 ^ 62 }
    ensures items { OnOk result (map sparse_of list.new.items ≡ map sparse_of list.old.items ++ map entry_of_bytes (items 6 (length rows.now / 6) rows.now)) }
    ensures longer { OnOk result (length list.new.items ≡ length list.old.items + length rows.now / 6) }
    ensures growth { OnOk result (state.new.growth ≡ state.old.growth + length rows.now / 6) }
    ensures place { OnOk result (state.new.place ≡ state.old.place) }
    ensures fill { OnOk result (state.new.fill.items ≡ state.old.fill.items) }
    ensures memory { OnErr result (result ≡ Err ReadFault.Memory) }
{
    let count = rows.len() / 6;
    grow(list, count, state)?;
    'rows: for i in 0..count {
        let row = &rows[6 * i..];
        let block = LittleEndian::read_u32(row);
        let offset = LittleEndian::read_u16(&row[4..]);
        list.push(Entry { block, offset })?;
    }
    Ok(())
}

/// Reads `count` entries of a sparse index, six bytes each, as one field, in chunks.
pub(crate) fn take_sparse<R: Input>(
    alloc: Global,
    count: u64,
    input: &mut R,
    state: &mut ReaderState,
) -> Result<Vec<Entry>, ReadFault>
    requires place { state.old.place + 6 * count < 2 ^ 62 }
    requires growth_bound { state.old.growth ≤ 2 * state.old.place + 2 ^ 15 }
    ensures rows { Reading (sparse_rows count) (λ list. map sparse_of list.items) state.old state.new R.Input input.old input.new result }
    ensures place { OnOk result (state.new.place ≡ state.old.place + 6 * count) }
    ensures count { IfOk result (λ list. length list.items ≡ count) }
    ensures growth { OnOk result (state.new.growth ≡ state.old.growth + 7 * count) }
    ensures grown { IfOk result (λ list. HasCounted state.old state.new 0 (length list.items)) }
{
    let mut list = Vec::new(alloc);
    let mut left = count;
    'chunks: while left > 0 {
        let size = left.min(CHUNK / 6);
        let rows = take_bytes(alloc, 6 * size, input, state)?;
        append_sparse(rows.as_slice(), &mut list, state)?;
        left -= size;
    }
    Ok(list)
}
