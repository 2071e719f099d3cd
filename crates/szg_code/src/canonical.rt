//! Accepted codes, and the words of their symbols.
ghost use Rattle.std.specs.Prelude.{ℕ, ◌≡◌, ◌+◌, ◌-◌, ◌/◌, ◌^◌, ◌<◌, ◌≤◌, Bool, List, length, IsTrue, IfOk, IfErr, IfSome, IfNone};
ghost use Rattle.szg_code.specs.Bits.{bits_of_number};
ghost use Rattle.szg_code.specs.Canonical.{IsWord, base, top, symbol_at};
ghost use Rattle.szg_code.specs.Spelling.{HasNoWord};
ghost use Rattle.szg_code.specs.Acceptance.{IsCode, IsCodeFault};
ghost use Rattle.szg_code.specs.Least.{HasAllSymbols, HasBytesAbove, shifted_base};
ghost use Rattle.szg_code.specs.TwoWords.{ContainsTwoWords};

use crate::CodeFault;
use crate::checks::CodeHeader;
use crate::code_word::Word;
use crate::two_words::{NO_WORDS, TwoWords, TwoWordsByByte, two_words_by_byte};
use std::marker::Model;

/// An accepted code: words of 1 to 32 bits, none of which begins another, for symbols below the number of symbols. As in de Man's
/// probing code, it stores the base of each length shifted to the top of 64 bits. For each first byte of a window it also stores
/// the length from which the search for a word's length starts, and for each length the symbol that the number 0 would have, modulo
/// 2^64, to which a word's number is only added. If most bytes contain two whole words, it stores the first two words of each byte.
#[derive(Drop)]
pub struct Code {
    header: CodeHeader,
    bases: [u64; 34],
    starts: [u8; 256],
    zero_symbols: [u64; 33],
    two_words: Option<TwoWordsByByte>,
}

impl Model for Code {
    ghost use Rattle.szg_code.specs.Canonical.{CanonicalCode};
    ghost use Rattle.szg_code.specs.Acceptance.{IsCode};
    ghost use Rattle.szg_code.specs.Least.{HasShiftedBases, HasStarts, HasZeroSymbols};
    ghost use Rattle.szg_code.specs.CodeHeader.{code_of};
    ghost use Rattle.std.specs.Prelude.{◌≤◌, IfSome};
    ghost use Rattle.szg_code.specs.TwoWords.{HasTwoWords};

    ghost Value = { CanonicalCode };

    ghost view = { λ code. code_of code.header };

    ghost invariant = { λ code. IsCode (code_of code.header) × HasShiftedBases (code_of code.header) code.bases × HasStarts (code_of code.header) code.starts × HasZeroSymbols (code_of code.header) code.zero_symbols × IfSome code.two_words (λ all. HasTwoWords (code_of code.header) all.bits all.first all.second × (code.header.min ≤ 4)) };
}

impl Code {
    /// Creates the code of a subtable header: `min` and `max` are the least and the greatest length of a word in
    /// bits, `lowest` has the lowest symbol of each length from `min` on, and `n` is the number of symbols. The list
    /// is moved, not copied. The call allocates nothing; that is seen by reading, no clause says it.
    ///
    /// Errors: `Lengths` if `min` is 0, `min` is above `max`, `max` is above 32, or the length of the list is not `max - min + 1`.
    /// Else `LowestOrder` if the list increases somewhere. Else `TooFull` if the bases that follow from the list, as in de Man's
    /// format, leave too few words for the next length, or if the words of the least length do not fit it.
    pub fn new(min: u8, max: u8, lowest: Vec<u16>, n: u16) -> Result<Code, CodeFault>
        ensures accepted { IfOk result (λ code. IsCode code
            × (code ≡ record { min_length = min; max_length = max; lowest = lowest.items; symbols = n })) }
        ensures refused { IfErr result (λ fault. IsCodeFault (record { min_length = min; max_length = max; lowest = lowest.items; symbols = n }) fault) }
    {
        let header = CodeHeader {
            min,
            max,
            lowest,
            symbols: n,
        };
        if !header.has_lengths() {
            return Err(CodeFault::Lengths);
        }
        if let Some(j) = header.first_rise() {
            return Err(CodeFault::LowestOrder(j));
        }
        match header.bases() {
            Err(j) => Err(CodeFault::TooFull(j)),
            Ok(bases) => {
                let (bases, zero_symbols) = header.by_length(&bases);
                let code = Code {
                    starts: header.starts(&bases),
                    bases,
                    zero_symbols,
                    two_words: None,
                    header,
                };
                Ok(code.with_two_words())
            }
        }
    }

    /// Returns the least length of a word in bits, 1 to 32.
    pub fn min(&self) -> u8
        ensures { result ≡ self.now.min_length }
    {
        self.header.min
    }

    /// Returns the greatest length of a word in bits, from the least to 32.
    pub fn max(&self) -> u8
        ensures { result ≡ self.now.max_length }
    {
        self.header.max
    }

    /// Returns the greatest length of a word in bits, as `max` does. It is at most 32.
    #[inline(always)]
    pub(crate) fn longest(&self) -> u64
        ensures accepted { IsCode self.now }
        ensures length { result ≡ self.now.max_length }
        ensures few { result ≤ 32 }
    {
        u64::from(self.header.max)
    }

    /// Returns the lowest symbol of each length, from the least length on.
    pub fn lowest(&self) -> &[u16]
        ensures { result.now ≡ self.now.lowest }
    {
        &self.header.lowest
    }

    /// Returns the number of symbols. Each symbol is below it, and some may have no word.
    pub fn symbols(&self) -> u16
        ensures number { result ≡ self.now.symbols }
        ensures accepted { IsCode self.now }
    {
        self.header.symbols
    }

    /// Replaces the number of symbols by `n`. The lengths and the lowest symbols stay, and the list is not copied.
    pub fn with_symbols(self, n: u16) -> Code
        ensures code { result ≡ record { min_length = self.min_length; max_length = self.max_length; lowest = self.lowest; symbols = n } }
        ensures accepted { IsCode result }
    {
        let header = CodeHeader {
            symbols: n,
            ..self.header
        };
        let code = Code {
            header,
            two_words: None,
            ..self
        };
        code.with_two_words()
    }

    /// Stores the first two words of each byte, if most bytes contain two words.
    fn with_two_words(self) -> Code
        ensures { result ≡ self }
    {
        let two_words = two_words_by_byte(&self);
        Code { two_words, ..self }
    }

    /// Returns whether the first two words of each byte are stored, by which `next_two` decodes. They are only if some words may
    /// have 4 bits or fewer.
    #[inline(always)]
    pub fn has_two_words(&self) -> bool
        ensures short { IsTrue result → self.now.min_length ≤ 4 }
    {
        self.two_words.is_some()
    }

    /// Returns the first two words of the window's first byte, if they are stored and the byte contains them whole.
    #[inline(always)]
    pub(crate) fn two_words_in(&self, window: u64) -> TwoWords
        ensures accepted { IsCode self.now }
        ensures words { ContainsTwoWords self.now (window / 2 ^ 56) result }
    {
        match &self.two_words {
            Some(all) => {
                let byte = (window >> 56) as usize;
                TwoWords {
                    first: all.first[byte],
                    second: all.second[byte],
                    bits: all.bits[byte],
                }
            }
            None => NO_WORDS,
        }
    }

    /// Returns the base of the length at index `j`; index 0 is the least length.
    fn base_at(&self, j: usize) -> u64
        requires { j < length self.now.lowest }
        ensures accepted { IsCode self.now }
        ensures base { result ≡ base self.now (self.now.min_length + j) }
        ensures fits { result < 2 ^ 32 }
    {
        let length = usize::from(self.header.min) + j;
        self.bases[length] >> (64 - length)
    }

    /// Returns the end of the range of numbers that the words of the length at index `j` have, exclusive.
    fn top_at(&self, j: usize) -> u64
        requires { j < length self.now.lowest }
        ensures { result ≡ top self.now (self.now.min_length + j) }
    {
        if j == 0 {
            1 << self.header.min
        } else {
            2 * self.base_at(j - 1)
        }
    }

    /// Returns the symbol's word of the length at index `j`. None if it has no word of that length.
    fn word_at(&self, j: usize, s: u16) -> Option<Word>
        requires length { j < length self.now.lowest }
        requires there { s < self.now.symbols }
        ensures short { IfSome result (λ word. (1 ≤ word.length) × (word.length ≤ 32)) }
        ensures found { IfSome result (λ word. (word.number < 2 ^ word.length) × IsWord self.now (bits_of_number word.length word.number) s) }
        ensures none { IfNone result ((word : List Bool) → length word ≡ self.now.min_length + j → ¬ IsWord self.now word s) }
    {
        let lowest = self.lowest()[j];
        if s < lowest {
            return None;
        }
        let number = self.base_at(j) + u64::from(s - lowest);
        if number >= self.top_at(j) {
            return None;
        }
        Some(Word {
            length: self.min() + j as u8,
            number: number as u32,
        })
    }

    /// Returns the least length whose base, shifted to the top of 64 bits, is at most the window. The shifted bases do not
    /// increase with the length, and neighbours may be equal; the first one counts.
    ///
    /// If `COMPARE`, the search starts at one of the two least lengths, by a comparison that isn't a branch: what comes next waits
    /// for no table and for no prediction. Otherwise it starts where the table of first bytes says.
    #[inline(always)]
    pub(crate) fn reached_length<const COMPARE: bool>(&self, window: u64) -> usize
        ensures accepted { IsCode self.now }
        ensures long { self.now.min_length ≤ result }
        ensures short { result ≤ self.now.max_length }
        ensures reaches { shifted_base self.now 64 result ≤ window }
        ensures before { (k : ℕ) → self.now.min_length ≤ k → k < result → window < shifted_base self.now 64 k }
    {
        let least = usize::from(self.header.min);
        let start = if COMPARE {
            least + usize::from(window < self.bases[least])
        } else {
            usize::from(self.starts[(window >> 56) as usize])
        };
        self.header.reached_length_from(&self.bases, start, window)
    }

    /// Returns whether words are decoded one by one, and their lengths found by comparing: at most one of 64 windows begins
    /// with a word that is longer than the two least lengths, each word has a symbol, and the first two words of each byte are
    /// not stored.
    pub fn is_read_word_by_word(&self) -> bool
        ensures symbols { IsTrue result → HasAllSymbols self.now }
    {
        let second = usize::from(self.header.min) + 1;
        self.bases[second] <= LEAST_WINDOWS && self.two_words.is_none() && self.has_all_symbols()
    }

    /// Returns whether each word has a symbol: whether that of the greatest number of the least length, the greatest symbol, exists.
    fn has_all_symbols(&self) -> bool
        ensures { IsTrue result → HasAllSymbols self.now }
    {
        let number = self.symbol_number(u64::MAX, usize::from(self.header.min));
        number < u64::from(self.header.symbols)
    }

    /// Returns the number that the window's first `length` bits represent as a symbol.
    #[inline(always)]
    pub(crate) fn symbol_number(&self, window: u64, length: usize) -> u64
        requires long { self.now.min_length ≤ length }
        requires short { length ≤ self.now.max_length }
        requires reaches { shifted_base self.now 64 length ≤ window }
        ensures { result ≡ symbol_at self.now length (window / 2 ^ (64 - length)) }
    {
        let zero_symbols = &self.zero_symbols;
        zero_symbols[length].wrapping_add(window >> (64 - length))
    }

    /// Returns a bound above which each window begins with a word of eight bits, the least length, that has a symbol. The bound
    /// is the greatest number if some such word has none, or if more than one of 64 windows begins with a longer word.
    pub fn bytes_above(&self) -> u64
        ensures { HasBytesAbove self.now result }
    {
        if self.header.min == 8 && self.bases[8] <= LEAST_WINDOWS && self.has_all_symbols() {
            self.bases[8]
        } else {
            u64::MAX
        }
    }

    /// Returns the symbol of the word of `length` bits that begins a window. None if it has none. If `ALL`, each word of the code has
    /// one, and it is compared with no number of symbols.
    #[inline(always)]
    pub(crate) fn first_symbol<const ALL: bool>(&self, window: u64, length: usize) -> Option<u64>
        requires all { IsTrue ALL → HasAllSymbols self.now }
        requires long { self.now.min_length ≤ length }
        requires short { length ≤ self.now.max_length }
        requires reaches { shifted_base self.now 64 length ≤ window }
        requires before { (k : ℕ) → self.now.min_length ≤ k → k < length → window < shifted_base self.now 64 k }
        ensures found { IfSome result (λ s. (s ≡ symbol_at self.now length (window / 2 ^ (64 - length))) × (s < self.now.symbols)) }
        ensures fits { IfSome result (λ s. s < 2 ^ 16) }
        ensures none { IfNone result (self.now.symbols ≤ symbol_at self.now length (window / 2 ^ (64 - length))) }
    {
        let symbol = self.symbol_number(window, length);
        let symbols = self.symbols();
        if ALL || symbol < u64::from(symbols) {
            Some(symbol)
        } else {
            None
        }
    }
}

/// The end of the least of 64 equal ranges of windows.
const LEAST_WINDOWS: u64 = 1 << 58;

/// Returns the word of a symbol, of 1 to 32 bits. None if the symbol has no word.
pub fn word(code: &Code, s: u16) -> Option<Word>
    ensures short { IfSome result (λ word. (1 ≤ word.length) × (word.length ≤ 32)) }
    ensures found { IfSome result (λ word. (word.number < 2 ^ word.length) × IsWord code.now (bits_of_number word.length word.number) s) }
    ensures none { IfNone result (HasNoWord code.now s) }
{
    if s >= code.symbols() {
        return None;
    }
    for j in 0..code.lowest().len() {
        if let Some(word) = code.word_at(j, s) {
            return Some(word);
        }
    }
    None
}
