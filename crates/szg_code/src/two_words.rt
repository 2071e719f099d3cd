//! The first two words of a byte, for codes of short words.
ghost use Rattle.std.specs.Prelude.{◌≤◌, IfSome};
ghost use Rattle.szg_code.specs.TwoWords.{ContainsTwoWords, HasTwoWords};

use crate::canonical::Code;
use crate::reader::{Bits, next};

/// The symbols of the first two words of a byte, and the number of bits of both together. 0 bits if the byte does not
/// contain two whole words.
#[derive(Clone, Copy)]
pub(crate) struct TwoWords {
    pub first: u16,
    pub second: u16,
    pub bits: u8,
}

/// A byte without two whole words.
pub(crate) const NO_WORDS: TwoWords = TwoWords {
    first: 0,
    second: 0,
    bits: 0,
};

/// Decodes the first two words of a byte.
fn two_words_of(code: &Code, byte: u8) -> TwoWords
    ensures { ContainsTwoWords code.now byte result }
{
    let bytes = [byte];
    let mut words = Bits::new(&bytes);
    let Some(first) = next(code, &mut words) else {
        return NO_WORDS;
    };
    let Some(second) = next(code, &mut words) else {
        return NO_WORDS;
    };
    TwoWords {
        first,
        second,
        bits: words.place() as u8,
    }
}

/// The first two words of each byte, their symbols and the number of their bits apart: the next step waits for that number, and an
/// entry of one byte is found by the byte itself.
#[derive(Clone, Copy)]
pub(crate) struct TwoWordsByByte {
    pub bits: [u8; 256],
    pub first: [u16; 256],
    pub second: [u16; 256],
}

/// The fewest bytes with two words for which they are stored. With fewer, decoding two words at a step would be tried
/// in vain too often.
const FEWEST_BYTES: usize = 192;

/// Decodes the first two words of each byte. None if too few bytes contain two words.
pub(crate) fn two_words_by_byte(code: &Code) -> Option<TwoWordsByByte>
    ensures words { IfSome result (λ all. HasTwoWords code.now all.bits all.first all.second) }
    ensures short { IfSome result (λ _. code.now.min_length ≤ 4) }
{
    if code.min() > 4 {
        return None;
    }
    let mut bits = [0u8; 256];
    let mut first = [0u16; 256];
    let mut second = [0u16; 256];
    for byte in 0..256usize {
        let words = two_words_of(code, byte as u8);
        bits[byte] = words.bits;
        first[byte] = words.first;
        second[byte] = words.second;
    }
    if bits.iter().filter(|count| **count > 0).count() < FEWEST_BYTES {
        return None;
    }
    Some(TwoWordsByByte {
        bits,
        first,
        second,
    })
}
