//! A writer that appends words to a buffer.
ghost use Rattle.std.specs.Prelude.{◌≡◌, Err, vec_capacity, ◌+◌, ◌-◌, ◌/◌, ◌*◌, ◌^◌, ◌<◌, ◌≤◌, ◌↔◌, [], ◌++◌, Bool, List, false, length, vec_len, take, replicate, OnOk, OnErr};
ghost use Rattle.szg_code.specs.Bits.{bits, bits_of_number};
ghost use Rattle.szg_code.specs.Canonical.{IsWord};
ghost use Rattle.szg_code.specs.Spelling.{HasNoWord};

use crate::PutFault;
use crate::canonical::{Code, word};
use crate::code_word::Word;
use std::alloc::{AllocError, Global};
use std::marker::Model;

/// A bit writer: the written bits in bytes, each byte's high bit first.
#[derive(Drop)]
pub struct BitBuf {
    bytes: Vec<u8>,
    count: u64,
}

impl Model for BitBuf {
    ghost use Rattle.std.specs.Prelude.{take, vec_capacity};
    ghost use Rattle.szg_code.specs.Bits.{bits};
    ghost use Rattle.szg_code.specs.Buffer.{Buffer, HoldsBits};

    ghost Value = { Buffer };

    ghost view = { λ buffer. record { written = take buffer.count (bits buffer.bytes.items); capacity = vec_capacity buffer.bytes } };

    ghost invariant = { λ buffer. HoldsBits buffer.bytes.items buffer.count };
}

impl BitBuf {
    /// Creates an empty buffer, which allocates nothing. `put` allocates from `alloc`.
    pub fn new(alloc: Global) -> BitBuf
        ensures empty { result.written ≡ [] }
        ensures no_memory { result.capacity ≡ 0 }
    {
        BitBuf {
            bytes: Vec::new(alloc),
            count: 0,
        }
    }

    /// Returns the number of bits written.
    pub fn bits(&self) -> u64
        ensures { result ≡ length self.now.written }
    {
        self.count
    }

    /// Returns the bytes that hold the bits. The free bits of the last byte are zeros.
    pub fn bytes(&self) -> &[u8]
        ensures whole { length result.now ≡ (length self.now.written + 7) / 8 }
        ensures zero_padded { bits result.now ≡ self.now.written ++ replicate (8 * length result.now - length self.now.written) false }
    {
        &self.bytes
    }

    /// Appends the bits of a word. The free bits of the last byte are zeros, before and after.
    fn append(&mut self, word: Word) -> Result<(), AllocError>
        requires some { 1 ≤ word.length }
        requires short { word.length ≤ 32 }
        requires spelled { word.number < 2 ^ word.length }
        requires few { length self.old.written < 2 ^ 62 }
        ensures ok { OnOk result (self.new.written ≡ self.old.written ++ bits_of_number word.length word.number) }
        ensures unchanged { OnErr result (self.new.written ≡ self.old.written) }
        ensures capacity { self.old.capacity ≤ self.new.capacity }
        ensures full { OnErr result (self.old.capacity < (length self.old.written + word.length + 7) / 8) }
    {
        let whole = (self.count / 8) as usize;
        let used = self.count % 8;
        let length = u64::from(word.length);
        let partial = u64::from(self.bytes.get(whole).copied().unwrap_or(0));
        let joined = partial << 56 | u64::from(word.number) << (64 - used - length);
        let bytes = ((used + length + 7) / 8) as usize;
        put_bytes(&mut self.bytes, whole, &joined.to_be_bytes()[..bytes])?;
        self.count += length;
        Ok(())
    }
}

/// Appends `new` after the first `whole` bytes; its first byte overwrites a partial last byte.
fn put_bytes(bytes: &mut Vec<u8>, whole: usize, new: &[u8]) -> Result<(), AllocError>
    requires from { whole ≤ vec_len bytes.old }
    requires to { vec_len bytes.old ≤ whole + 1 }
    requires some { 0 < length new.now }
    ensures ok { OnOk result (bytes.new.items ≡ take whole bytes.old.items ++ new.now) }
    ensures unchanged { OnErr result (bytes.new.items ≡ bytes.old.items) }
    ensures capacity { vec_capacity bytes.old ≤ vec_capacity bytes.new }
    ensures full { OnErr result (vec_capacity bytes.old < whole + length new.now) }
{
    if whole == bytes.len() {
        return bytes.extend_from_slice(new);
    }
    bytes.extend_from_slice(&new[1..])?;
    bytes[whole] = new[0];
    Ok(())
}

/// Appends the word of symbol `s` to a buffer of fewer than 2^62 bits.
///
/// Errors: `NoWord` exactly if the symbol has no word; `Memory` only if the word did not fit into the buffer's
/// capacity. In both cases the written bits stay unchanged. The capacity never shrinks.
pub fn put(code: &Code, s: u16, buffer: &mut BitBuf) -> Result<(), PutFault>
    requires { length buffer.old.written < 2 ^ 62 }
    ensures ok { OnOk result ((word : List Bool) × IsWord code.now word s × (buffer.new.written ≡ buffer.old.written ++ word)) }
    ensures no_word { (result ≡ Err PutFault.NoWord) ↔ HasNoWord code.now s }
    ensures full { result ≡ Err PutFault.Memory → ((word : List Bool) × IsWord code.now word s × (buffer.old.capacity < (length buffer.old.written + length word + 7) / 8)) }
    ensures unchanged { OnErr result (buffer.new.written ≡ buffer.old.written) }
    ensures capacity { buffer.old.capacity ≤ buffer.new.capacity }
{
    let Some(word) = word(code, s) else {
        return Err(PutFault::NoWord);
    };
    match buffer.append(word) {
        Ok(()) => Ok(()),
        Err(_) => Err(PutFault::Memory),
    }
}
