//! Whole chunks over any device: interrupted calls are repeated, and short chunks are joined.
ghost use Rattle.std.specs.Prelude.{◌≡◌, ℕ, ◌+◌, ◌≤◌, ◌<◌, List, ◌++◌, length, take, IfOk, OnOk, OnErr, MatchOption, IfErr, IfSome, IfNone, IsSome, IsTrue};
ghost use Rattle.std.specs.Io.KnownBytes.{ReadConsumes, Keeps, Appends, IsAtEnd};
ghost use Rattle.szg_io.specs.Device.{moved_after, HasFailed};
ghost use Rattle.szg_io.specs.Moved.{Takes, Gives};

use crate::device::{Input, IoFault, Output};

/// The number of consecutive `Interrupted` that are retried.
const RETRIES: u32 = 1000;

/// Reads bytes into `chunk` until it is full or no bytes remain, and returns their number.
///
/// Each call requests all of the chunk that is not filled yet. Errors: `Failed` if the device failed, `Interrupted` if it
/// returned that 1,001 times in a row; the bytes read until then are lost. A device that may not fail returns no fault.
pub fn take_whole<R: Input>(input: &mut R, chunk: &mut [u8]) -> Result<usize, IoFault>
    ensures within { IfOk result (λ n. n ≤ length chunk.new) }
    ensures ok { IfOk result (λ n. n ≡ length chunk.new →
        Takes R.Input input.old input.new chunk.new 0) }
    ensures end { IfOk result (λ n. n < length chunk.new →
        Takes R.Input input.old input.new (take n chunk.new) 1
        × IsAtEnd (R.coming input.new)) }
    ensures err { OnErr result ((bytes : List ℕ) × (length bytes < length chunk.new)
        × Takes R.Input input.old input.new bytes 1) }
    ensures failed { OnErr result (HasFailed (R.failures input.old) (R.failures input.new) (R.interrupted input.new)) }
    ensures quiet { OnOk result (R.failures input.new ≡ R.failures input.old) }
    ensures fault { OnErr result (IsTrue (R.may_fail input.old)) }
{
    let mut at = 0;
    'chunks: while at < chunk.len() {
        let got = take_once(input, &mut chunk[at..])?;
        if got == 0 {
            return Ok(at);
        }
        at += got;
    }
    Ok(at)
}

/// Requests the whole chunk once, and again after an interruption. Returns the number of bytes read into its front,
/// which is 0 only at the end or if the chunk is empty.
///
/// Errors: `Failed` if the device failed, `Interrupted` if it returned that 1,001 times in a row. A device that may not
/// fail returns no fault.
pub fn take_once<R: Input>(input: &mut R, chunk: &mut [u8]) -> Result<usize, IoFault>
    ensures within { IfOk result (λ n. n ≤ length chunk.new) }
    ensures bytes { ReadConsumes (R.coming input.old) (R.coming input.new) result chunk.new }
    ensures calls { R.calls input.new ≤ R.calls input.old + 1001 }
    ensures moved { R.moved input.new ≡ moved_after result chunk.new (R.moved input.old) }
    ensures failed { OnErr result (HasFailed (R.failures input.old) (R.failures input.new) (R.interrupted input.new)) }
    ensures quiet { OnOk result (R.failures input.new ≡ R.failures input.old) }
    ensures fault { OnErr result (IsTrue (R.may_fail input.old)) }
    ensures stays { R.may_fail input.new ≡ R.may_fail input.old }
{
    'attempts: for _attempt in 0..RETRIES + 1 {
        match input.take(chunk) {
            Ok(n) => return Ok(n),
            Err(IoFault::Failed) => return Err(IoFault::Failed),
            Err(IoFault::Interrupted) => {}
        }
    }
    Err(IoFault::Interrupted)
}

/// Writes the whole chunk; each call passes all of it that is not written yet.
///
/// Errors: the number of bytes written, which is less than the length of the chunk, if the device returned
/// `Failed`, accepted none of the remaining bytes, or returned `Interrupted` 1,001 times in a row.
pub fn give_whole<W: Output>(output: &mut W, chunk: &[u8]) -> Result<(), usize>
    ensures ok { OnOk result (Gives W.Output output.old output.new chunk.now 0) }
    ensures short { IfErr result (λ n. n < length chunk.now) }
    ensures err { IfErr result (λ n. Gives W.Output output.old output.new (take n chunk.now) 1) }
    ensures failed { OnErr result (HasFailed (W.failures output.old) (W.failures output.new) (W.interrupted output.new)) }
    ensures quiet { OnOk result (W.failures output.new ≡ W.failures output.old) }
{
    let mut at = 0;
    'chunks: while at < chunk.len() {
        match give_once(output, &chunk[at..]) {
            Some(n) => at += n,
            None => return Err(at),
        }
    }
    Ok(())
}

/// Writes a first part of a chunk that is not empty, at least one byte. None if the device failed.
fn give_once<W: Output>(output: &mut W, chunk: &[u8]) -> Option<usize>
    requires { 0 < length chunk.now }
    ensures within { IfSome result (λ n. (0 < n) × (n ≤ length chunk.now)) }
    ensures bytes { MatchOption result (Keeps (W.written output.old) (W.written output.new))
        (λ n. Appends (W.written output.old) (W.written output.new) (take n chunk.now)) }
    ensures calls { W.calls output.new ≤ W.calls output.old + 1001 }
    ensures moved { MatchOption result (W.moved output.new ≡ W.moved output.old) (λ n. W.moved output.new ≡ W.moved output.old ++ take n chunk.now) }
    ensures failed { IfNone result (HasFailed (W.failures output.old) (W.failures output.new) (W.interrupted output.new)) }
    ensures quiet { IsSome result → W.failures output.new ≡ W.failures output.old }
{
    'attempts: for _attempt in 0..RETRIES + 1 {
        match output.give(chunk) {
            Ok(0) => return None,
            Ok(n) => return Some(n),
            Err(IoFault::Failed) => return None,
            Err(IoFault::Interrupted) => {}
        }
    }
    None
}
