//! A reader over a source, from its first byte on.

ghost use Rattle.std.specs.Prelude.{◌≡◌, ◌<◌, length, min, take, IfOk, OnErr};
ghost use Rattle.szg_block.specs.BlocksTrait.{failed_after};
ghost use Rattle.szg_file.specs.Forward.{IsForward};

use std::marker::Model;
use szg_block::{Source, SourceFault};
use szg_io::{Input, IoFault};

/// A device that reads the bytes of a source from the first on. It requests only bytes that are read from it,
/// except that it may read expected bytes ahead, up to its chunk's length at a time. It makes a request only when
/// its chunk is used up, and none past the source's end. It is never interrupted.
#[derive(Drop)]
pub struct Forward<S: Source + Drop> {
    source: S,
    // the offset of the next byte
    place: u64,
    end: u64,
    // the offset up to which it may read ahead
    ahead: u64,
    // the bytes from `place` on that were read ahead: `chunk[from..to]`
    chunk: Vec<u8>,
    from: usize,
    to: usize,
    calls: u64,
}

impl<S: Source + Drop> Model for Forward<S> {
    ghost use Rattle.std.specs.Prelude.{◌≡◌};
    ghost use Rattle.szg_file.specs.Forward.{Forward, IsForward};

    ghost Value = { Forward };

    ghost view = { λ f. record {
      content = S.content f.source;
      place = f.place;
      failed = S.failed f.source;
      requested = S.requested f.source;
      calls = f.calls;
    } };

    ghost invariant = { λ f. IsForward (S.content f.source) f.place f.end f.chunk.items f.from f.to };
}

impl<S: Source + Drop> Forward<S> {
    ghost use Rattle.std.specs.Prelude.{◌≡◌, ◌<◌, length};

    /// Creates a reader at the source's first byte, which reads chunks of at most the length of `chunk`. Its
    /// failures are the source's; its call count is 0.
    pub fn new(source: S, chunk: Vec<u8>) -> Forward<S>
        requires { 0 < length chunk.items }
        ensures content { result.content ≡ S.content source }
        ensures place { result.place ≡ 0 }
        ensures failed { result.failed ≡ S.failed source }
    {
        let end = source.len();
        Forward {
            source,
            place: 0,
            end,
            ahead: 0,
            chunk,
            from: 0,
            to: 0,
            calls: 0,
        }
    }

    /// Returns the source.
    pub(crate) fn into_source(self) -> S
        ensures content { S.content result ≡ self.content }
        ensures failed { S.failed result ≡ self.failed }
    {
        self.source
    }
}

/// Returns the range of the chunk's bytes to be returned next: those left in it, else up to `most` bytes that are
/// read now. It is empty only at the source's end.
fn next_bytes<S: Source>(
    source: &mut S,
    place: u64,
    end: u64,
    chunk: &mut [u8],
    from: usize,
    to: usize,
    most: u64,
) -> Result<(usize, usize), SourceFault>
    requires { IsForward (S.content source.old) place end chunk.old from to }
    ensures held { IfOk result (λ left. IsForward (S.content source.old) place end chunk.new left.0 left.1) }
    ensures some { IfOk result (λ left. left.0 ≡ left.1 → 0 < most → place ≡ end) }
    ensures none_held { OnErr result (IsForward (S.content source.old) place end chunk.new from to) }
    ensures same_bytes { S.content source.new ≡ S.content source.old }
    ensures failed { S.failed source.new ≡ failed_after result (S.failed source.old) }
{
    if from < to || place == end || most == 0 {
        return Ok((from, to));
    }
    let size = most.min(end - place).min(chunk.len() as u64) as usize;
    let count = source.read_at(place, &mut chunk[..size])?;
    Ok((0, count))
}

/// Copies the bytes that fit into the front of `out`; returns their number.
fn copy_front(bytes: &[u8], out: &mut [u8]) -> usize
    ensures count { result ≡ min (length bytes.now) (length out.old) }
    ensures copied { take result out.new ≡ take result bytes.now }
{
    let count = bytes.len().min(out.len());
    out[..count].copy_from_slice(&bytes[..count]);
    count
}

impl<S: Source + Drop> Input for Forward<S> {
    ghost use Rattle.std.specs.Prelude.{Some, drop, take, true};

    ghost coming = { λ f. Some (drop f.place f.content) };

    ghost calls = { λ f. f.calls };

    ghost moved = { λ f. take f.place f.content };

    ghost failures = { λ f. f.failed };

    ghost interrupted = { λ f. 0 };

    ghost may_fail = { λ _. true };

    fn take(&mut self, chunk: &mut [u8]) -> Result<usize, IoFault> {
        self.calls = self.calls.saturating_add(1);
        let expected = self.ahead.saturating_sub(self.place);
        let most = expected.max(chunk.len() as u64);
        let (from, to) = match next_bytes(
            &mut self.source,
            self.place,
            self.end,
            &mut self.chunk,
            self.from,
            self.to,
            most,
        ) {
            Ok(left) => left,
            Err(_) => return Err(IoFault::Failed),
        };
        let n = copy_front(&self.chunk[from..to], chunk);
        self.from = from + n;
        self.to = to;
        self.place += n as u64;
        Ok(n)
    }

    fn expect(&mut self, bytes: u64) {
        self.ahead = self.place.saturating_add(bytes);
    }
}
