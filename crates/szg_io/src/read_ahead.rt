//! A device that reads expected bytes ahead.
ghost use Rattle.std.specs.Prelude.{◌≡◌, [], ◌≤◌, ◌<◌, IfOk, OnErr, IsTrue, length};
ghost use Rattle.std.specs.Io.KnownBytes.{ReadConsumes, prepend_known};
ghost use Rattle.szg_io.specs.Counts.{wrapped_by, held_by, ahead_counts_of};

use crate::counters::Counters;
use crate::device::{Input, IoFault};
use std::alloc::Global;
use std::marker::Model;

/// The most bytes that are read ahead at once.
const BUFFER: usize = 1 << 16;

/// The bytes that were read ahead: `buffer[from..to]`.
#[derive(Drop)]
struct Held {
    buffer: Vec<u8>,
    from: usize,
    to: usize,
    // the number of further bytes that are expected
    ahead: u64,
}

impl Model for Held {
    ghost use Rattle.std.specs.Prelude.{List, ℕ, ◌-◌, ◌≤◌, take, drop, length};

    ghost Value = { List ℕ };

    ghost view = { λ h. take (h.to - h.from) (drop h.from h.buffer.items) };

    ghost invariant = { λ h. (h.from ≤ h.to) × (h.to ≤ length h.buffer.items) };
}

impl Held {
    /// Holds no bytes, and expects none.
    fn new(alloc: Global) -> Held
        ensures { result ≡ [] }
    {
        Held {
            buffer: Vec::new(alloc),
            from: 0,
            to: 0,
            ahead: 0,
        }
    }

    /// Expects `bytes` bytes, those that are held among them.
    fn expect(&mut self, bytes: u64)
        ensures same { self.new ≡ self.old }
    {
        if self.buffer.is_empty() {
            // without memory nothing is read ahead
            let _ = self.buffer.resize(BUFFER, 0);
        }
        self.ahead = bytes.saturating_sub((self.to - self.from) as u64);
    }

    /// Reads held bytes into the front of `chunk` and returns their number. If none are held, they are first read from
    /// the device: as many as are expected and fit into the buffer, or directly into `chunk` if no more fit into that.
    fn take<D: Input>(&mut self, device: &mut D, chunk: &mut [u8]) -> Result<usize, IoFault>
        ensures within { IfOk result (λ n. n ≤ length chunk.new) }
        ensures bytes { ReadConsumes (prepend_known self.old (D.coming device.old)) (prepend_known self.new (D.coming device.new)) result chunk.new }
        ensures fault { OnErr result (IsTrue (D.may_fail device.old)) }
        ensures stays { D.may_fail device.new ≡ D.may_fail device.old }
    {
        if self.from == self.to {
            let most = self.ahead.min(self.buffer.len() as u64) as usize;
            if most <= chunk.len() {
                let n = device.take(chunk)?;
                self.ahead = self.ahead.saturating_sub(n as u64);
                return Ok(n);
            }
            let n = take_most(device, &mut self.buffer, most)?;
            self.ahead = self.ahead.saturating_sub(n as u64);
            self.from = 0;
            self.to = n;
        }
        let n = chunk.len().min(self.to - self.from);
        chunk[..n].copy_from_slice(&self.buffer[self.from..self.from + n]);
        self.from += n;
        Ok(n)
    }
}

/// Reads at most `most` bytes into the front of `buffer` and returns their number.
fn take_most<D: Input>(device: &mut D, buffer: &mut [u8], most: usize) -> Result<usize, IoFault>
    requires some { 0 < most }
    requires room { most ≤ length buffer.old }
    ensures within { IfOk result (λ n. n ≤ length buffer.new) }
    ensures bytes { ReadConsumes (D.coming device.old) (D.coming device.new) result buffer.new }
    ensures fault { OnErr result (IsTrue (D.may_fail device.old)) }
    ensures stays { D.may_fail device.new ≡ D.may_fail device.old }
{
    device.take(&mut buffer[..most])
}

/// A device that wraps another one and reads expected bytes ahead, up to 64 KiB at a time. It reads no byte of the
/// wrapped device that was neither expected nor requested. Its counts begin at 0.
#[derive(Drop)]
pub struct ReadAhead<D> {
    device: D,
    held: Held,
    counts: Counters,
}

impl<D> ReadAhead<D> {
    /// Wraps a device. If memory runs out, nothing is read ahead.
    pub fn new(alloc: Global, device: D) -> Self
        ensures device { wrapped_by result ≡ device }
        ensures held { held_by result ≡ [] }
        ensures counts { ahead_counts_of result ≡ record { calls = 0; moved = []; failures = 0; interrupted = 0 } }
    {
        ReadAhead {
            device,
            held: Held::new(alloc),
            counts: Counters::new(),
        }
    }
}

impl<D: Input> Input for ReadAhead<D> {
    ghost coming = { λ s. prepend_known s.held (D.coming s.device) };

    ghost calls = { λ s. s.counts.calls };

    ghost moved = { λ s. s.counts.moved.bytes };

    ghost failures = { λ s. s.counts.failures };

    ghost interrupted = { λ s. s.counts.interrupted };

    ghost may_fail = { λ s. D.may_fail s.device };

    fn take(&mut self, chunk: &mut [u8]) -> Result<usize, IoFault> {
        let answer = self.held.take(&mut self.device, chunk);
        self.counts.count_take(answer, chunk);
        answer
    }

    fn expect(&mut self, bytes: u64) {
        self.held.expect(bytes);
    }
}
