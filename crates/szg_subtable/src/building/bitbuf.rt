//! A buffer for the bits of a block's words. Whenever it has 32 bits, they are stored as four bytes.
ghost use Rattle.std.specs.Prelude.{◌≡◌, ◌<◌, ◌≤◌, ◌^◌, ◌*◌, ◌/◌, ◌+◌, ◌++◌, List, [], length, ℕ, false, replicate, IfOk, OnOk};
ghost use Rattle.szg_code.specs.Bits.{bits, bits_of_number};

use std::alloc::{AllocError, Global};
use std::marker::Model;
use szg_code::Word;

/// Bits, high bit first: whole bytes, and fewer than 32 bits that are not stored as bytes yet.
#[derive(Drop)]
pub(crate) struct WordBits {
    bytes: Vec<u8>,
    waiting: u64,
    count: u64,
}

impl Model for WordBits {
    ghost use Rattle.std.specs.Prelude.{◌++◌, List, Bool};
    ghost use Rattle.szg_code.specs.Bits.{bits, bits_of_number};
    ghost use Rattle.szg_subtable.specs.Building.{IsWaiting};

    ghost Value = { List Bool };

    ghost view = { λ words. bits words.bytes.items ++ bits_of_number words.count words.waiting };

    ghost invariant = { λ words. IsWaiting words.bytes.items words.count words.waiting };
}

impl WordBits {
    /// Creates a buffer without bits. Allocates nothing.
    pub(crate) fn new(alloc: Global) -> WordBits
        ensures { result ≡ [] }
    {
        WordBits {
            bytes: Vec::new(alloc),
            waiting: 0,
            count: 0,
        }
    }

    /// Returns the number of bits.
    pub(crate) fn len(&self) -> u64
        requires { length self.now < 2 ^ 62 }
        ensures { result ≡ length self.now }
    {
        8 * self.bytes.len() as u64 + self.count
    }

    /// Appends the bits of a word.
    pub(crate) fn append(&mut self, word: Word) -> Result<(), AllocError>
        requires short { word.length ≤ 32 }
        requires spelled { word.number < 2 ^ word.length }
        ensures { OnOk result (self.new ≡ self.old ++ bits_of_number word.length word.number) }
    {
        let length = u64::from(word.length);
        let joined = (self.waiting << length) + u64::from(word.number);
        let count = self.count + length;
        if count < 32 {
            self.waiting = joined;
            self.count = count;
            return Ok(());
        }
        let rest = count - 32;
        let whole = (joined >> rest) as u32;
        self.bytes.extend_from_slice(&whole.to_be_bytes())?;
        self.waiting = joined % (1 << rest);
        self.count = rest;
        Ok(())
    }

    /// Appends the bits as bytes to `packed`, padded with zeros to a multiple of four bytes, and empties the buffer;
    /// returns the number of bytes.
    pub(crate) fn move_to(&mut self, packed: &mut Vec<u8>) -> Result<usize, AllocError>
        ensures bytes { IfOk result (λ n. (bytes : List ℕ) × (fill : ℕ) × (length bytes ≡ n) × (packed.new.items ≡ packed.old.items ++ bytes) × (bits bytes ≡ self.old ++ replicate fill false)) }
        ensures few { IfOk result (λ n. n ≡ 4 * ((length self.old + 31) / 32)) }
        ensures empty { OnOk result (self.new ≡ []) }
    {
        let whole = self.bytes.len();
        packed.extend_from_slice(&self.bytes)?;
        self.bytes.clear();
        if self.count == 0 {
            return Ok(whole);
        }
        let last = (self.waiting << (32 - self.count)) as u32;
        self.waiting = 0;
        self.count = 0;
        packed.extend_from_slice(&last.to_be_bytes())?;
        Ok(whole + 4)
    }
}
