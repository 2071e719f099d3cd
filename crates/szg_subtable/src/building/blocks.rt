//! Fills blocks with the words of symbols. Words are added to a block while their bits fit and their symbols have at
//! most 65,536 values in total.
ghost use Rattle.std.specs.Prelude.{ℕ, ◌≡◌, ◌+◌, ◌-◌, ◌*◌, ◌<◌, ◌≤◌, ◌^◌, List, [], ◌∷◌, ◌++◌, length, IfOk, OnOk};
ghost use Rattle.std.specs.List.{AllByRecursion};
ghost use Rattle.szg_subtable.specs.Building.{IsBlockOf, IsChosen, IsCut, IsFilling};

use crate::building::bitbuf::WordBits;
use std::alloc::{AllocError, Global};
use szg_code::{Code, word};
use szg_pairs::Dict;

/// The greatest number of values of a block.
pub(crate) const MAX_VALUES: u32 = 65_536;

/// The blocks that are full, and the block that is being filled.
#[derive(Drop)]
pub(crate) struct Filling {
    /// For each full block, its number of values less one.
    pub lengths: Vec<u16>,
    pub packed: Vec<u8>,
    /// The words of the block that is being filled.
    buffer: WordBits,
    /// The number of values of the symbols of these words.
    values: u32,
}

/// Completes the block that is being filled: its words, padded with zero bits to 2^block_bits bytes.
fn close(filling: &mut Filling, block_bits: u8) -> Result<(), AllocError>
    requires least_bits { 5 ≤ block_bits }
    requires most_bits { block_bits ≤ 10 }
    requires fits { length filling.old.buffer ≤ 8 * 2 ^ block_bits }
    requires some { 0 < filling.old.values }
    requires most { filling.old.values ≤ 65536 }
    ensures lengths { OnOk result (filling.new.lengths.items ≡ filling.old.lengths.items ++ (filling.old.values - 1) ∷ []) }
    ensures block { OnOk result ((block : List ℕ) × IsBlockOf block_bits filling.old.buffer block × (filling.new.packed.items ≡ filling.old.packed.items ++ block)) }
    ensures buffer { OnOk result (filling.new.buffer ≡ []) }
    ensures values { OnOk result (filling.new.values ≡ 0) }
{
    let end = filling.packed.len() + (1 << block_bits);
    filling.buffer.move_to(&mut filling.packed)?;
    filling.packed.resize(end, 0)?;
    filling.lengths.push((filling.values - 1) as u16)?;
    filling.values = 0;
    Ok(())
}

/// Appends the word of a symbol to the block that is being filled, or to a new one if it does not fit.
fn add(
    filling: &mut Filling,
    code: &Code,
    dict: &Dict,
    symbol: u16,
    block_bits: u8,
) -> Result<(), AllocError>
    requires least_bits { 5 ≤ block_bits }
    requires most_bits { block_bits ≤ 10 }
    requires chosen { IsChosen (length dict.now) code.now }
    requires there { symbol < length dict.now }
    requires filling { (symbols : List ℕ) × IsFilling code.now dict.now block_bits symbols filling.old.lengths.items filling.old.packed.items filling.old.buffer filling.old.values }
    ensures more { OnOk result ((symbols : List ℕ) → IsFilling code.now dict.now block_bits symbols filling.old.lengths.items filling.old.packed.items filling.old.buffer filling.old.values →
        IsFilling code.now dict.now block_bits (symbols ++ symbol ∷ []) filling.new.lengths.items filling.new.packed.items filling.new.buffer filling.new.values) }
    ensures some { OnOk result (0 < filling.new.values) }
{
    let Some(word) = word(code, symbol) else {
        unreachable!();
    };
    let values = u32::from(dict.len(symbol));
    let room = 8u64 << block_bits;
    if filling.buffer.len() + u64::from(word.length) > room
        || filling.values + values > MAX_VALUES
    {
        close(filling, block_bits)?;
    }
    filling.buffer.append(word)?;
    filling.values += values;
    Ok(())
}

/// Fills blocks with the words of symbols.
pub(crate) fn fill_blocks(
    alloc: Global,
    code: &Code,
    dict: &Dict,
    symbols: &[u16],
    block_bits: u8,
) -> Result<Filling, AllocError>
    requires chosen { IsChosen (length dict.now) code.now }
    requires below { AllByRecursion (λ s. s < length dict.now) symbols.now }
    requires some { 0 < length symbols.now }
    requires few { length symbols.now < 2 ^ 33 }
    requires least_bits { 5 ≤ block_bits }
    requires most_bits { block_bits ≤ 10 }
    ensures { IfOk result (λ c. IsCut code.now dict.now block_bits symbols.now (length c.lengths.items) c.lengths.items c.packed.items) }
{
    let mut filling = Filling {
        lengths: Vec::new(alloc),
        packed: Vec::new(alloc),
        buffer: WordBits::new(alloc),
        values: 0,
    };
    for symbol in symbols {
        add(&mut filling, code, dict, *symbol, block_bits)?;
    }
    close(&mut filling, block_bits)?;
    Ok(filling)
}
