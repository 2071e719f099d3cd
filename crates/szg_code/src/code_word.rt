//! The word of a symbol, as a length and a number.

/// A word: its number of bits, and the number that these bits represent, high bit first.
#[derive(Debug, Clone, Copy, PartialEq, Eq)]
pub struct Word {
    /// The number of bits.
    pub length: u8,
    /// The number that the bits represent.
    pub number: u32,
}
