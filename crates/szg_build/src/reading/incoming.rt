//! Reads the bytes of a text from a device, in large chunks.
ghost use Rattle.std.specs.Prelude.{◌≤◌};

use arrayvec::ArrayVec;
use std::alloc::Global;
use szg_io::{Input, IoFault, take_once};

/// The size of the buffer.
const ROOM: usize = 4096;

/// The state of a reader of lines.
#[derive(Drop)]
pub(crate) struct Incoming {
    /// What the lists that are read are allocated with.
    pub alloc: Global,
    /// The number of lines read; it saturates at the greatest 64-bit value.
    pub line: u64,
    /// The index in `bytes` at which the bytes read ahead begin.
    from: usize,
    /// The index in `bytes` just after the last byte read ahead.
    to: usize,
    bytes: [u8; 4096],
    ghost ordered: { from ≤ to },
    ghost within: { to ≤ 4096 },
}

impl Incoming {
    ghost use Rattle.std.specs.Prelude.{◌≡◌, ℕ, ◌+◌, ◌<◌, List, [], ◌++◌, length, take, drop, IfOk, OnOk, OnErr, IsTrue};
    ghost use Rattle.std.specs.Io.KnownBytes.{IsAtEnd};
    ghost use Rattle.szg_io.specs.Device.{HasFailed};
    ghost use Rattle.szg_io.specs.Moved.{Takes};
    ghost use Rattle.szg_build.specs.Held.{held_of};

    /// Creates the state before the first line.
    pub(crate) fn new(alloc: Global) -> Incoming
        ensures line { result.line ≡ 0 }
        ensures held { held_of result ≡ [] }
    {
        Incoming {
            alloc,
            line: 0,
            from: 0,
            to: 0,
            bytes: [0; ROOM],
        }
    }

    /// Returns the bytes read ahead.
    pub(crate) fn held(&self) -> &[u8]
        ensures { result.now ≡ held_of self.now }
    {
        &self.bytes[self.from..self.to]
    }

    /// Takes a line of `size` bytes and its 0A from the bytes read ahead; returns the line without its 0A.
    pub(crate) fn split_line(&mut self, size: usize) -> ArrayVec<u8, 80>
        requires short { size ≤ 80 }
        requires there { size < length (held_of self.old) }
        ensures text { result.items ≡ take size (held_of self.old) }
        ensures held { held_of self.new ≡ drop (size + 1) (held_of self.old) }
        ensures line { self.new.line ≡ self.old.line }
    {
        let mut text = ArrayVec::new();
        let end = self.from + size;
        let Ok(()) = text.try_extend_from_slice(&self.bytes[self.from..end]) else {
            unreachable!()
        };
        self.from = end + 1;
        text
    }

    /// Reads up to `most` more bytes ahead, in one call of the device; interrupted calls are repeated. Returns the
    /// number of bytes read, which is 0 only at the end of the input.
    pub(crate) fn refill<R: Input>(&mut self, most: u64, input: &mut R) -> Result<usize, IoFault>
        requires some { 0 < most }
        requires room { length (held_of self.old) ≤ 80 }
        ensures line { self.new.line ≡ self.old.line }
        ensures more { IfOk result (λ n. 0 < n → (bytes : List ℕ) × (length bytes ≡ n) × (n ≤ most)
            × (held_of self.new ≡ held_of self.old ++ bytes) × Takes R.Input input.old input.new bytes 0) }
        ensures end { IfOk result (λ n. n ≡ 0 → Takes R.Input input.old input.new [] 1 × IsAtEnd (R.coming input.new)) }
        ensures err { OnErr result (Takes R.Input input.old input.new [] 1) }
        ensures failed { OnErr result (HasFailed (R.failures input.old) (R.failures input.new) (R.interrupted input.new)) }
        ensures quiet { OnOk result (R.failures input.new ≡ R.failures input.old) }
        ensures fault { OnErr result (IsTrue (R.may_fail input.old)) }
    {
        self.bytes.copy_within(self.from..self.to, 0);
        self.to -= self.from;
        self.from = 0;
        let size = ((ROOM - self.to) as u64).min(most) as usize;
        let got = take_once(input, &mut self.bytes[self.to..self.to + size])?;
        self.to += got;
        Ok(got)
    }
}
