//! Text on its way to a device, in large chunks and without allocation.
ghost use Rattle.std.specs.Prelude.{◌≡◌, ◌≤◌, [], length, OnOk};
ghost use Rattle.szg_build.specs.Writing.{Writing};

use arrayvec::ArrayVec;
use szg_file::WriteFault;
use szg_io::{Output, give_whole};

/// Nothing, or why a text was not written whole.
pub(crate) type Written = Result<(), WriteFault>;

/// The state of a writer of text.
#[derive(Drop)]
pub(crate) struct DumpText {
    /// The number of bytes written; it saturates at the greatest 64-bit value.
    pub out: u64,
    /// The buffered bytes, which come after the written ones.
    pub held: ArrayVec<u8, 4096>,
}

impl DumpText {
    /// Creates the state before the first byte.
    pub(crate) fn new() -> DumpText
        ensures out { result.out ≡ 0 }
        ensures held { result.held.items ≡ [] }
    {
        DumpText {
            out: 0,
            held: ArrayVec::new(),
        }
    }
}

/// Writes the buffered bytes.
pub(crate) fn flush<W: Output>(output: &mut W, text: &mut DumpText) -> Written
    ensures none { Writing [] text.old text.new W.Output output.old output.new result }
    ensures held { OnOk result (text.new.held.items ≡ []) }
{
    let chunk = text.held.as_slice();
    match give_whole(output, chunk) {
        Ok(()) => {
            text.out = text.out.saturating_add(chunk.len() as u64);
            text.held.clear();
            Ok(())
        }
        Err(n) => Err(WriteFault {
            out: text.out.saturating_add(n as u64),
        }),
    }
}

/// Appends `chunk`, at most 4,096 bytes, to the buffer. The buffer is written first only if `chunk` does not fit.
pub(crate) fn put<W: Output>(chunk: &[u8], output: &mut W, text: &mut DumpText) -> Written
    requires { length chunk.now ≤ 4096 }
    ensures { Writing chunk.now text.old text.new W.Output output.old output.new result }
{
    if text.held.len() + chunk.len() > 4096 {
        flush(output, text)?;
    }
    let Ok(()) = text.held.try_extend_from_slice(chunk) else {
        unreachable!()
    };
    Ok(())
}
