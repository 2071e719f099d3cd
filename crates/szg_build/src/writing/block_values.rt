//! The values of a subtable in memory, a block at a time.
ghost use Rattle.std.specs.Prelude.{◌≡◌, ◌+◌, ◌*◌, ◌<◌, [], ◌++◌, true, false, IfOk};
ghost use Rattle.szg_build.specs.BlockValues.{blocks_of, left_of, IsAtBlock};

use std::alloc::AllocError;
use std::marker::Model;
use szg_block::{Sub, block_count, block_of, decode_block};

/// Decodes the values of block `n` into `values`, in place of what `values` held. Returns the number of values before
/// the next block. Errors: an allocation was refused.
fn decode_at(
    sub: &Sub,
    size: u64,
    n: u32,
    before: u64,
    values: &mut Vec<u16>,
) -> Result<u64, AllocError>
    requires at { IsAtBlock sub.now size n before }
    requires there { n < blocks_of sub.now }
    ensures values { IfOk result (λ _. (left_of sub.now size n).values ≡ values.new.items ++ (left_of sub.now size (n + 1)).values) }
    ensures next { IfOk result (λ next. IsAtBlock sub.now size (n + 1) next) }
{
    values.clear();
    let Sub::Pairs {
        block_bits,
        lengths,
        packed,
        ..
    } = sub
    else {
        unreachable!()
    };
    let block = block_of(packed, *block_bits, n as usize);
    decode_block(sub, size, n, before, block, values)?;
    Ok(before + u64::from(lengths[n as usize]) + 1)
}

/// The blocks of a subtable that are still to be decoded.
#[derive(Drop)]
pub struct BlockValues<'a> {
    pub(crate) sub: &'a Sub,
    pub(crate) size: u64,
    // the number of the next block
    pub(crate) next: u32,
    // the number of values before it
    pub(crate) before: u64,
}

impl<'a> Model for BlockValues<'a> {
    ghost use Rattle.szg_build.specs.BlockValues.{Left, left_of, IsAtBlock};

    ghost Value = { Left };

    ghost view = { λ left. left_of left.sub.now left.size left.next };

    ghost invariant = { λ left. IsAtBlock left.sub.now left.size left.next left.before };
}

impl<'a> BlockValues<'a> {
    /// Decodes the values of the next block into `values`, in place of what it held. False if no block is left. Errors:
    /// an allocation was refused.
    pub fn decode_next(&mut self, values: &mut Vec<u16>) -> Result<bool, AllocError>
        ensures values { IfOk result (λ more. more ≡ true → self.old.values ≡ values.new.items ++ self.new.values) }
        ensures fewer { IfOk result (λ more. more ≡ true → self.new.blocks < self.old.blocks) }
        ensures none { IfOk result (λ more. more ≡ false → self.old.values ≡ []) }
    {
        if self.next >= block_count(self.sub) {
            return Ok(false);
        }
        self.before = decode_at(self.sub, self.size, self.next, self.before, values)?;
        self.next += 1;
        Ok(true)
    }
}
