//! A value of a block whose bytes the caller provides.

ghost use Rattle.std.specs.Prelude.{◌≡◌, ◌⊎◌, ◌<◌, ◌≤◌, ◌^◌, IfErr, IfOk, IfSome, IsSomeAnd, IsTrue, OnOk, Some, length, slice_get};
ghost use Rattle.szg_block.specs.Block.{block_values};
ghost use Rattle.szg_block.specs.Kept.{IsLocatable};
ghost use Rattle.szg_block.specs.Sound.{SpellsNeeded};
ghost use Rattle.szg_block.specs.Steps.{block_location};
ghost use Rattle.szg_block.specs.Subtable.{layout_of, IsHeaded};

use crate::probing::ValueLocation;
use crate::words::{find, find_verified};
use crate::{Sub, SubFault, needed_in};
use szg_code::Bits;

/// Returns the value at a location in its block, of which no more words are decoded than up to the value. Unless the
/// block has `passed` before, it verifies that the block's own bits spell `needed` values.
///
/// Errors: `Word(location.block)` if the block's own bits spell fewer values. A block that passed before may do so too: its
/// bytes may be mapped from a file that has changed since. So nothing here relies on its words.
pub fn value_in_block(
    sub: &Sub,
    location: ValueLocation,
    needed: u64,
    block: &[u8],
    passed: bool,
) -> Result<u16, SubFault>
    requires pairs { IsSomeAnd (layout_of sub.now) (λ layout. layout.code.symbols ≡ length layout.entries) }
    requires within { location.item < needed }
    requires size { length block.now ≤ 2 ^ 60 }
    ensures value { IfOk result (λ value. IfSome (layout_of sub.now) (λ layout. slice_get (block_values layout block.now) location.item ≡ Some value)) }
    ensures verified { OnOk result (IsTrue passed ⊎ IfSome (layout_of sub.now) (λ layout. needed ≤ length (block_values layout block.now))) }
    ensures fault { IfErr result (λ fault. fault ≡ SubFault.Word location.block) }
    ensures few { IfErr result (λ fault. IfSome (layout_of sub.now) (λ layout. length (block_values layout block.now) < needed)) }
{
    let Sub::Pairs { code, dict, .. } = sub else {
        unreachable!()
    };
    prove_eq!(code.symbols(), dict.symbols());
    let found = if passed {
        find::<true>(code, dict, Bits::new(block), location.item)
    } else {
        find_verified(code, dict, block, location.item, needed)
    };
    match found {
        Some(value) => Ok(value),
        None => Err(SubFault::Word(location.block)),
    }
}

/// Returns value `i` of a subtable with `size` values, decoded from `block`, the bytes of the block at `location`. It
/// verifies that the block's own bits spell all values that the block needs, as `check_block` does. `location` is what
/// `locate_value` returns for `i`.
///
/// The lengths of blocks that begin at `size` or later may be missing, and the block may hold any bytes. Errors:
/// `Word(location.block)` if the block's own bits spell fewer values than the block needs.
pub fn checked_value(
    sub: &Sub,
    size: u64,
    i: u64,
    location: ValueLocation,
    block: &[u8],
) -> Result<u16, SubFault>
    requires head { IsHeaded sub.now }
    requires index { IsLocatable sub.now size }
    requires below { i < size }
    requires at_block { IsSomeAnd (layout_of sub.now) (λ layout. location.block ≡ (block_location layout i).list) }
    requires at_item { IsSomeAnd (layout_of sub.now) (λ layout. location.item ≡ (block_location layout i).item) }
    requires short { location.item < 65536 }
    requires whole { IsSomeAnd (layout_of sub.now) (λ layout. length block.now ≡ 2 ^ layout.block_bits) }
    ensures verified { OnOk result (IfSome (layout_of sub.now) (λ layout. SpellsNeeded layout size (block_location layout i).list block.now)) }
    ensures value { IfOk result (λ value. IfSome (layout_of sub.now) (λ layout. slice_get (block_values layout block.now) (block_location layout i).item ≡ Some value)) }
    ensures fault { IfErr result (λ fault. IfSome (layout_of sub.now) (λ layout. (fault ≡ SubFault.Word (block_location layout i).list) × ¬ SpellsNeeded layout size (block_location layout i).list block.now)) }
{
    let Sub::Pairs { code, dict, .. } = sub else {
        unreachable!()
    };
    prove_eq!(code.symbols(), dict.symbols());
    let needed = needed_in(sub, size, location.block, i - location.item);
    match find_verified(code, dict, block, location.item, needed) {
        Some(value) => Ok(value),
        None => Err(SubFault::Word(location.block)),
    }
}
