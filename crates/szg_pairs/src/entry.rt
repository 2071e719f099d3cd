//! An entry of a dictionary: three bytes of the file, which hold the symbol's left and right numbers of 12 bits
//! each.
ghost use Rattle.std.specs.Prelude.{◌≡◌};
ghost use Rattle.szg_pairs.specs.Entry.{left_of, right_of, is_leaf, names_symbols_below};

use byteorder::{ByteOrder, LittleEndian};

/// The right number of a leaf. It is not a symbol.
pub(crate) const LEAF: u16 = 0xfff;

/// Returns the left number of an entry, 0 to 4095: a leaf's value, or the first symbol of a pair. These are the low
/// 12 of the 24 bits, as the probing code reads them (`lr[0] | (lr[1] & 0xf) << 8`).
pub fn left(entry: [u8; 3]) -> u16
    ensures { result ≡ left_of entry }
{
    // A fact that the proof uses: the low byte is a byte.
    prove!(entry[0] <= 255);
    LittleEndian::read_u16(&entry) % 0x1000
}

/// Returns the right number of an entry, 0 to 4095: 4095 for a leaf, else the second symbol of a pair. These are
/// the high 12 of the 24 bits, as the probing code reads them (`lr[2] << 4 | lr[1] >> 4`).
pub fn right(entry: [u8; 3]) -> u16
    ensures { result ≡ right_of entry }
{
    LittleEndian::read_u16(&entry[1..]) / 0x10
}

/// Returns whether the entry is a leaf, which has one value, and not a pair of symbols.
pub fn is_leaf(entry: [u8; 3]) -> bool
    ensures { result ≡ is_leaf entry }
{
    right(entry) == LEAF
}

/// Returns whether the entry is a leaf, or a pair of symbols that are both below `symbols`.
pub(crate) fn names_symbols_below(symbols: u16, entry: [u8; 3]) -> bool
    ensures { result ≡ names_symbols_below symbols entry }
{
    is_leaf(entry) || (left(entry) < symbols && right(entry) < symbols)
}
