//! The values of sound subtables.

ghost use Rattle.std.specs.Prelude.{◌≡◌, ◌<◌, ◌≤◌, ◌+◌, ◌^◌, ◌*◌, IfNone, IfOk, IfSome, IsOk, IsOkAnd, Some, length, slice_get};
ghost use Rattle.szg_block.specs.Subtable.{layout_of, packed_of, IsShaped, IsShapedHead, IsSoundOver};
ghost use Rattle.szg_block.specs.BlocksTrait.{bytes_at};
ghost use Rattle.szg_block.specs.Paging.{source_of, first_of, count_of, size_of};
ghost use Rattle.szg_block.specs.Views.{after_look_up, values_shown, steps_shown};

use crate::Sub;
use crate::blocks::{Blocks, SourceFault, Whole, block_of, blocks_in};
use crate::lengths::needed_from;
use crate::paged::Paged;
use crate::probing::{Steps, find_value, load_early, look_up};
use crate::source::Source;
use crate::words::write_values;
use std::alloc::{AllocError, Global};
use std::marker::Model;

/// A sound subtable, with access to its blocks.
#[derive(Drop)]
pub struct Sound<'a, B: Blocks> {
    sub: &'a Sub,
    size: u64,
    constant: u16,
    blocks: B,
}

impl<'a, B: Blocks> Model for Sound<'a, B> {
    ghost use Rattle.szg_block.specs.Views.{Shown, IsReady};
    ghost use Rattle.szg_block.specs.BlocksTrait.{packed_blocks};

    ghost Value = { Shown };

    ghost view = { λ sound. record {
      sub = sound.sub.now;
      size = sound.size;
      constant = sound.constant;
      packed = packed_blocks (B.bytes sound.blocks) (B.count sound.blocks);
      failures = B.failures sound.blocks;
      requested = B.requested sound.blocks;
      cost = B.cost sound.blocks;
    } };

    ghost invariant = { λ sound. IsReady sound.sub.now sound.size (B.count sound.blocks) (B.bytes sound.blocks) };
}

impl<'a, B: Blocks> Sound<'a, B> {
    /// Returns the number of values.
    pub fn size(&self) -> u64
        ensures { result ≡ self.now.size }
    {
        self.size
    }
}

impl<'a> Sound<'a, Whole<'a>> {
    /// Creates the view of a subtable in memory that has `size` values and passed `check`. `constant` is the value
    /// that a constant subtable has at each index.
    ///
    /// Borrows the subtable and copies nothing.
    pub fn of(sub: &'a Sub, size: u64, constant: u16) -> Sound<'a, Whole<'a>>
        requires shaped { IsShaped sub.now size }
        requires sound { IsSoundOver sub.now (packed_of sub.now) size }
        ensures { result ≡ record { sub = sub.now; size = size; constant = constant; packed = packed_of sub.now; failures = 0; requested = 0; cost = 0 } }
    {
        Sound {
            sub,
            size,
            constant,
            blocks: blocks_in(sub),
        }
    }

    /// Returns value `i`, found by the sparse index. Allocates nothing.
    pub fn get(&self, i: u64) -> u16
        requires { i < self.now.size }
        ensures { slice_get (values_shown self.now) i ≡ Some result }
    {
        // always true, but the compiler doesn't know it, so it keeps the read
        if !load_early(self.sub, self.size, i) {
            return self.constant;
        }
        let mut blocks = self.blocks;
        match find_value(self.sub, self.size, self.constant, i, &mut blocks) {
            Ok(value) => value,
            Err(_) => unreachable!(),
        }
    }

    /// Returns value `i` and the steps of the look-up. Never returns an error, since the blocks are in memory.
    pub fn get_counted(&mut self, i: u64) -> Result<(u16, Steps), SourceFault>
        requires { i < self.old.size }
        ensures value { IsOkAnd result (λ found. slice_get (values_shown self.old) i ≡ Some found.0) }
        ensures steps { IsOkAnd result (λ found. found.1 ≡ steps_shown self.old i) }
        ensures unchanged { self.new ≡ self.old }
    {
        let mut blocks = self.blocks;
        look_up(self.sub, self.size, self.constant, i, &mut blocks)
    }

    /// Decodes all values in order. Errors: memory was refused.
    pub fn values(&self, alloc: Global) -> Result<Vec<u16>, AllocError>
        ensures { IfOk result (λ values. values.items ≡ values_shown self.now) }
    {
        let mut values = vec![in alloc; 0; self.size as usize]?;
        self.write_values(&mut values);
        Ok(values)
    }

    /// Decodes all values in order into a list of their number, block by block. Allocates nothing.
    pub fn write_values(&self, values: &mut [u16])
        requires { length values.old ≡ self.now.size }
        ensures { values.new ≡ values_shown self.now }
    {
        let Sub::Pairs {
            blocks,
            code,
            dict,
            lengths,
            ..
        } = self.sub
        else {
            values.fill(self.constant);
            return;
        };
        let mut at = 0;
        let mut start = 0;
        for n in 0..*blocks {
            let count = lengths[n as usize];
            let block = block_of(self.blocks.packed, self.blocks.block_bits, n as usize);
            let needed = needed_from(count, self.size, start) as usize;
            write_values(code, dict, block, &mut values[at..at + needed]);
            at += needed;
            start += u64::from(count) + 1;
        }
    }
}

impl<'a, S: Source + Drop> Sound<'a, Paged<S>> {
    /// Creates the view of a subtable with `size` values whose blocks are read from a source. The subtable must be sound with the
    /// blocks of `blocks`. `constant` is the value that a constant subtable has at each index. Allocates nothing.
    pub fn paged(sub: &'a Sub, size: u64, constant: u16, blocks: Paged<S>) -> Sound<'a, Paged<S>>
        requires head { IsShapedHead sub.now size }
        requires count { IfSome (layout_of sub.now) (λ layout. count_of blocks ≡ layout.blocks) }
        requires bytes { IfSome (layout_of sub.now) (λ layout. size_of blocks ≡ 2 ^ layout.block_bits) }
        requires there { IfSome (layout_of sub.now) (λ layout. first_of blocks + layout.blocks * 2 ^ layout.block_bits ≤ length (S.content (source_of blocks))) }
        requires sound { IsSoundOver sub.now (bytes_at (S.content (source_of blocks)) (first_of blocks) (count_of blocks * size_of blocks)) size }
        ensures { result ≡ record { sub = sub.now; size = size; constant = constant; packed = bytes_at (S.content (source_of blocks)) (first_of blocks) (count_of blocks * size_of blocks); failures = S.failed (source_of blocks); requested = S.requested (source_of blocks); cost = size_of blocks } }
    {
        // for proofs alone: `blocks_in` ensures that the code is accepted, which look-ups require
        let _accepted = blocks_in(sub);
        Sound {
            sub,
            size,
            constant,
            blocks,
        }
    }

    /// Returns value `i`, found by the sparse index. Allocates nothing. Errors: the source failed. An error does not
    /// change what later calls return.
    pub fn get(&mut self, i: u64) -> Result<u16, SourceFault>
        requires { i < self.old.size }
        ensures value { IfOk result (λ value. slice_get (values_shown self.old) i ≡ Some value) }
        ensures constant_returned { IfNone (layout_of self.old.sub) (IsOk result) }
        ensures after { self.new ≡ after_look_up result self.old }
    {
        let (value, _) = self.get_counted(i)?;
        Ok(value)
    }

    /// Returns value `i` and the steps of the look-up.
    pub fn get_counted(&mut self, i: u64) -> Result<(u16, Steps), SourceFault>
        requires { i < self.old.size }
        ensures value { IfOk result (λ found. slice_get (values_shown self.old) i ≡ Some found.0) }
        ensures steps { IfOk result (λ found. found.1 ≡ steps_shown self.old i) }
        ensures constant_returned { IfNone (layout_of self.old.sub) (IsOk result) }
        ensures after { self.new ≡ after_look_up result self.old }
    {
        look_up(self.sub, self.size, self.constant, i, &mut self.blocks)
    }
}
