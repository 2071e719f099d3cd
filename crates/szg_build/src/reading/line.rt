//! Reads one line of text.
ghost use Rattle.std.specs.Prelude.{◌≡◌, ◌≢◌, ℕ, ◌+◌, ◌<◌, ◌≤◌, length, slice_index, MatchOption, IfOk, IsErrOf};
ghost use Rattle.szg_build.specs.Held.{held_of};
ghost use Rattle.szg_build.specs.Lines.{line, means, words_of};
ghost use Rattle.szg_build.specs.Reading.{ReadsLines};

use crate::dump::{DumpFault, DumpReadFault};
use crate::reading::incoming::Incoming;
use arrayvec::ArrayVec;
use szg_io::{Input, IoFault};

/// The greatest number of bytes of a line before its 0A.
const LINE_ROOM: usize = 80;

/// Returns the length of the first line in `held`. None if no 0A is among the first 81 bytes of `held`.
fn line_len(held: &[u8]) -> Option<usize>
    ensures none { MatchOption result ((k : ℕ) → k < 81 → k < length held.now → slice_index held.now k ≢ 10)
        (λ n. (n ≤ 80) × (n < length held.now)) }
    ensures newline { MatchOption result (Unit {0}) (λ n. slice_index held.now n ≡ 10) }
    ensures before { MatchOption result (Unit {0}) (λ n. (k : ℕ) → k < n → slice_index held.now k ≢ 10) }
{
    'bytes: for i in 0..held.len().min(LINE_ROOM + 1) {
        if held[i] == b'\n' {
            return Some(i);
        }
    }
    None
}

/// Reads a line and its 0A. The caller knows that in a valid text this line with its 0A has at least `least` bytes and
/// that at least `following` bytes follow it. So each call of the device reads at most `least + following` bytes, and
/// if the line with its 0A has `least` bytes or more, at most `following` bytes after it were read.
///
/// Errors: `Field` if the line has more than 80 bytes before its 0A, `Ended` if the bytes end before it, `Device` if
/// the reader failed.
#[inline(always)]
pub(crate) fn next_line<R: Input>(
    least: usize,
    following: u64,
    input: &mut R,
    incoming: &mut Incoming,
) -> Result<ArrayVec<u8, 80>, DumpReadFault>
    requires { length (held_of incoming.old) ≤ following + 1 }
    ensures line { ReadsLines (line means) (λ text. words_of text.items) incoming.old incoming.new R.Input input.old input.new result }
    ensures following { IfOk result (λ text. least ≤ length text.items + 1 → length (held_of incoming.new) ≤ following) }
    ensures memory { IsErrOf result DumpReadFault.Memory → ⊥ }
{
    let line = incoming.line.saturating_add(1);
    incoming.line = line;
    'chunks: loop {
        if let Some(size) = line_len(incoming.held()) {
            return Ok(incoming.split_line(size));
        }
        if incoming.held().len() > LINE_ROOM {
            let fault = DumpFault::Field;
            return Err(DumpReadFault::Line { line, fault });
        }
        let own = least.saturating_sub(incoming.held().len()).max(1) as u64;
        match incoming.refill(following.saturating_add(own), input) {
            Ok(0) => {
                let fault = DumpFault::Ended;
                return Err(DumpReadFault::Line { line, fault });
            }
            Ok(_) => {}
            Err(_) => return Err(DumpReadFault::Device),
        }
    }
}
