//! A device for tests that cuts chunks short, interrupts and fails.
ghost use Rattle.std.specs.Prelude.{◌≡◌, ◌+◌, ◌≤◌, ◌<◌, ◌||◌, max, nat_lt, length, [], Some, None, Err, IfOk, OnErr, IsSome, IsTrue};
ghost use Rattle.std.specs.Io.KnownBytes.{ReadConsumes, WriteAppends};
ghost use Rattle.szg_io.specs.Device.{raised, interrupted_after, moved_after, take_failures_after, give_failures_after};
ghost use Rattle.szg_io.specs.Counts.{cut_device_of, cut_counts_of, cut_settings_of, cut_interrupted_since_of, IsToFail, IsToInterrupt, IsToPass};

use crate::counters::Counters;
use crate::device::{Input, IoFault, Output};

/// A device for tests that wraps another one. Its counts begin at 0, and its bytes are known if those of the
/// wrapped device are. If it is set to no interruption and no failure, it fails only if the wrapped device may.
#[derive(Drop)]
pub struct Cut<T> {
    device: T,
    max_len: usize,
    interrupts: u64,
    fails_at: u64,
    /// The number of `Interrupted` since the last chunk.
    interrupted_since: u64,
    counts: Counters,
}

impl<T> Cut<T> {
    /// Wraps a device. Calls are numbered from 1. Call `fails_at` returns `Failed`; 0 means that no call does.
    /// Before each chunk, `interrupts` of the other calls return `Interrupted`. None of these calls reaches the
    /// wrapped device. A chunk has at most `max_len` bytes. Over an `Input` a `max_len` of 0 is taken as 1; an
    /// `Output` with `max_len` 0 accepts no byte, which is a failure if the chunk is not empty.
    pub fn new(device: T, max_len: usize, interrupts: u64, fails_at: u64) -> Self
        ensures device { cut_device_of result ≡ device }
        ensures counts { cut_counts_of result ≡ record { calls = 0; moved = []; failures = 0; interrupted = 0 } }
        ensures settings { cut_settings_of result ≡ record { max_len = max_len; interrupts = interrupts; fails_at = fails_at } }
    {
        Cut {
            device,
            max_len,
            interrupts,
            fails_at,
            interrupted_since: 0,
            counts: Counters::new(),
        }
    }

    /// Returns the wrapped device.
    pub fn inner(&self) -> &T
        ensures device { result.now ≡ cut_device_of self.now }
    {
        &self.device
    }

    /// Returns the fault that this call is set to return. None if the call is not set to fail.
    fn fault_due(&mut self) -> Option<IoFault>
        ensures device { self.new.device ≡ self.old.device }
        ensures counts { self.new.counts ≡ self.old.counts }
        ensures settings { cut_settings_of self.new ≡ cut_settings_of self.old }
        ensures failed { raised self.old.counts.calls ≡ self.old.fails_at →
            (result ≡ Some IoFault.Failed) × (self.new.interrupted_since ≡ self.old.interrupted_since) }
        ensures interrupted { ¬ raised self.old.counts.calls ≡ self.old.fails_at → self.old.interrupted_since < self.old.interrupts →
            (result ≡ Some IoFault.Interrupted) × (self.new.interrupted_since ≡ self.old.interrupted_since + 1) }
        ensures none { ¬ raised self.old.counts.calls ≡ self.old.fails_at → self.old.interrupts ≤ self.old.interrupted_since →
            (result ≡ None) × (self.new.interrupted_since ≡ 0) }
        ensures set { IsSome result → IsTrue (nat_lt 0 self.old.interrupts || nat_lt 0 self.old.fails_at) }
    {
        if self.counts.calls.saturating_add(1) == self.fails_at {
            return Some(IoFault::Failed);
        }
        if self.interrupted_since < self.interrupts {
            self.interrupted_since += 1;
            return Some(IoFault::Interrupted);
        }
        self.interrupted_since = 0;
        None
    }
}

impl<T: Input> Input for Cut<T> {
    ghost coming = { λ s. T.coming s.device };

    ghost calls = { λ s. s.counts.calls };

    ghost moved = { λ s. s.counts.moved.bytes };

    ghost failures = { λ s. s.counts.failures };

    ghost interrupted = { λ s. s.counts.interrupted };

    ghost may_fail = { λ s. (nat_lt 0 s.interrupts || nat_lt 0 s.fails_at) || T.may_fail s.device };

    fn take(&mut self, chunk: &mut [u8]) -> Result<usize, IoFault>
        ensures within { IfOk result (λ n. n ≤ length chunk.new) }
        ensures bytes { ReadConsumes (T.coming (cut_device_of self.old)) (T.coming (cut_device_of self.new)) result chunk.new }
        ensures calls { (cut_counts_of self.new).calls ≡ raised (cut_counts_of self.old).calls }
        ensures moved { (cut_counts_of self.new).moved ≡ moved_after result chunk.new (cut_counts_of self.old).moved }
        ensures failures { (cut_counts_of self.new).failures ≡ take_failures_after result (cut_counts_of self.old).failures }
        ensures interrupted { (cut_counts_of self.new).interrupted ≡ interrupted_after result (cut_counts_of self.old).interrupted }
        ensures fault { OnErr result (IsTrue ((nat_lt 0 (cut_settings_of self.old).interrupts || nat_lt 0 (cut_settings_of self.old).fails_at) || T.may_fail (cut_device_of self.old))) }
        ensures stays { T.may_fail (cut_device_of self.new) ≡ T.may_fail (cut_device_of self.old) }
        ensures settings { cut_settings_of self.new ≡ cut_settings_of self.old }
        // a fault that is set is returned, and the wrapped device is not called
        ensures fails { IsToFail self.old → (result ≡ Err IoFault.Failed) × (cut_device_of self.new ≡ cut_device_of self.old) × (cut_interrupted_since_of self.new ≡ cut_interrupted_since_of self.old) }
        ensures interrupts { IsToInterrupt self.old → (result ≡ Err IoFault.Interrupted) × (cut_device_of self.new ≡ cut_device_of self.old) × (cut_interrupted_since_of self.new ≡ cut_interrupted_since_of self.old + 1) }
        // otherwise the wrapped device is called once, for a short chunk
        ensures passes { IsToPass self.old → (T.calls (cut_device_of self.new) ≡ raised (T.calls (cut_device_of self.old)))
            × (T.failures (cut_device_of self.new) ≡ take_failures_after result (T.failures (cut_device_of self.old)))
            × (T.interrupted (cut_device_of self.new) ≡ interrupted_after result (T.interrupted (cut_device_of self.old))) × (cut_interrupted_since_of self.new ≡ 0) }
        ensures short { IfOk result (λ n. n ≤ max 1 (cut_settings_of self.old).max_len) }
    {
        let answer = match self.fault_due() {
            Some(fault) => Err(fault),
            None => {
                let size = chunk.len().min(self.max_len.max(1));
                self.device.take(&mut chunk[..size])
            }
        };
        self.counts.count_take(answer, chunk);
        answer
    }
}

impl<T: Output> Output for Cut<T> {
    ghost written = { λ s. T.written s.device };

    ghost calls = { λ s. s.counts.calls };

    ghost moved = { λ s. s.counts.moved.bytes };

    ghost failures = { λ s. s.counts.failures };

    ghost interrupted = { λ s. s.counts.interrupted };

    fn give(&mut self, chunk: &[u8]) -> Result<usize, IoFault>
        ensures within { IfOk result (λ n. n ≤ length chunk.now) }
        ensures bytes { WriteAppends (T.written (cut_device_of self.old)) (T.written (cut_device_of self.new)) result chunk.now }
        ensures calls { (cut_counts_of self.new).calls ≡ raised (cut_counts_of self.old).calls }
        ensures moved { (cut_counts_of self.new).moved ≡ moved_after result chunk.now (cut_counts_of self.old).moved }
        ensures failures { (cut_counts_of self.new).failures ≡ give_failures_after result chunk.now (cut_counts_of self.old).failures }
        ensures interrupted { (cut_counts_of self.new).interrupted ≡ interrupted_after result (cut_counts_of self.old).interrupted }
        ensures settings { cut_settings_of self.new ≡ cut_settings_of self.old }
        // a fault that is set is returned, and the wrapped device is not called
        ensures fails { IsToFail self.old → (result ≡ Err IoFault.Failed) × (cut_device_of self.new ≡ cut_device_of self.old) × (cut_interrupted_since_of self.new ≡ cut_interrupted_since_of self.old) }
        ensures interrupts { IsToInterrupt self.old → (result ≡ Err IoFault.Interrupted) × (cut_device_of self.new ≡ cut_device_of self.old) × (cut_interrupted_since_of self.new ≡ cut_interrupted_since_of self.old + 1) }
        // otherwise the wrapped device is called once, for a short chunk
        ensures passes { IsToPass self.old → (T.calls (cut_device_of self.new) ≡ raised (T.calls (cut_device_of self.old)))
            × (T.interrupted (cut_device_of self.new) ≡ interrupted_after result (T.interrupted (cut_device_of self.old))) × (cut_interrupted_since_of self.new ≡ 0) }
        ensures short { IfOk result (λ n. n ≤ (cut_settings_of self.old).max_len) }
    {
        let answer = match self.fault_due() {
            Some(fault) => Err(fault),
            None => {
                let size = chunk.len().min(self.max_len);
                self.device.give(&chunk[..size])
            }
        };
        self.counts.count_give(answer, chunk);
        answer
    }
}
