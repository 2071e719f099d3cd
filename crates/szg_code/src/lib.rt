//! Canonical codes of de Man's table format: the words of a subtable's symbols, a reader that decodes words from
//! borrowed bytes, and a writer that appends them to a buffer.
//!
//! A code is given by the least and the greatest length of a word, the lowest symbol of each length, and the number
//! of symbols. Bits are read from each byte high bit first.
#![tactic(auto)]

mod canonical;
mod checks;
mod code_word;
pub mod laws;
mod reader;
mod two_words;
mod writer;

pub use canonical::{Code, word};
pub use code_word::Word;
pub use reader::{Bits, EndlessBits, next, next_byte, next_endless, next_two, next_two_if};
pub use writer::{BitBuf, put};

/// Why a code is refused: the first fault in this order.
#[derive(Debug, Clone, Copy, PartialEq, Eq)]
pub enum CodeFault {
    /// The least length is 0 or above the greatest, the greatest is above 32, or the number of lowest symbols is
    /// not the number of lengths.
    Lengths,
    /// The lowest symbols increase; carries the first index that is above the one before it.
    LowestOrder(u8),
    /// The words do not fit. Carries the index of the greatest length whose base, doubled, is below the base of the
    /// next length; or 0, if only the words of the least length are too many for its bits.
    TooFull(u8),
}

/// Why no word was appended.
#[derive(Debug, Clone, Copy, PartialEq, Eq)]
pub enum PutFault {
    /// The symbol has no word.
    NoWord,
    /// The word did not fit into the buffer's capacity, and no memory was granted.
    Memory,
}
