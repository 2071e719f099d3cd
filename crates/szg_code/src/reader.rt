//! A reader of words, by windows of 64 bits as in de Man's probing code.
ghost use Rattle.std.specs.Prelude.{◌≡◌, ◌*◌, ◌^◌, ◌<◌, ◌≤◌, ◌%◌, ◌+◌, [], ◌∷◌, IfNone, IfSome, IsTrue, length, ltb, take, drop};
ghost use Rattle.szg_code.specs.Bits.{bits, number};
ghost use Rattle.szg_code.specs.Least.{HasAllSymbols, HasBytesAbove};
ghost use Rattle.szg_code.specs.Spelling.{BeginsWithNoWord, BeginsWithOneAtMost};
ghost use Rattle.szg_code.specs.Cursor.{TakesWord, TakesWords};
ghost use Rattle.szg_code.specs.Window.{IsWordReader, padded};

use crate::canonical::Code;
use byteorder::{BigEndian, ByteOrder};
use std::marker::Model;

/// The bits of a byte. Two words that are decoded at a step have no more.
const BYTE: u64 = 8;

/// A window of 64 bits.
#[derive(Clone, Copy)]
struct Window {
    /// The bits from an offset on, first bit at the top.
    bits: u64,
    /// The window holds at least this many bits. It may hold more; then they are not used.
    held: u64,
}

/// A bit reader over borrowed bytes that may move past their end, where it reads zeros. So a loop that decodes words
/// compares with the end once, after the last word, and not at each word.
///
/// The window is read anew when it may be too short for the longest word. A word counts as a longest one there, so the
/// number of words between two such reads is always the same, and a processor can predict it.
#[derive(Drop)]
pub struct EndlessBits<'a> {
    bytes: &'a [u8],
    offset: u64,
    window: Window,
}

impl<'a> Model for EndlessBits<'a> {
    ghost use Rattle.std.specs.Prelude.{◌-◌, ◌*◌, length, take, drop};
    ghost use Rattle.szg_code.specs.Bits.{bits};
    ghost use Rattle.szg_code.specs.Cursor.{EndlessCursor};
    ghost use Rattle.szg_code.specs.Window.{IsWordReader};

    ghost Value = { EndlessCursor };

    ghost view = { λ reader. record {
      cursor = record { taken = take reader.offset (bits reader.bytes.now); left = drop reader.offset (bits reader.bytes.now) };
      past = reader.offset - 8 * length reader.bytes.now;
    } };

    ghost invariant = { λ reader. IsWordReader reader.bytes.now reader.offset reader.window.bits reader.window.held };
}

impl<'a> EndlessBits<'a> {
    /// Returns a reader at the same offset.
    #[inline(always)]
    pub fn copied(&self) -> EndlessBits<'a>
        ensures { result ≡ self.now }
    {
        EndlessBits {
            bytes: self.bytes,
            offset: self.offset,
            window: self.window,
        }
    }

    /// Reads the window anew, so that it holds seven bytes or more, with zeros past the end. Returns whether there is a byte.
    #[inline(always)]
    pub fn refill(&mut self) -> bool
        ensures same { self.new ≡ self.old }
        ensures left { result ≡ ltb 0 (length self.old.cursor.left) }
    {
        let Some(window) = fresh_window(self.bytes, self.offset) else {
            return false;
        };
        self.window = window;
        true
    }

    /// Returns the reader, which from now on stays within its bytes. None if it has moved past their end.
    #[inline(always)]
    pub fn within(self) -> Option<Bits<'a>>
        ensures within { IfSome result (λ bits. (self.entry.past ≡ 0) × (bits ≡ self.entry.cursor)) }
        ensures past { IfNone result ((0 < self.entry.past) × (self.entry.cursor.left ≡ [])) }
    {
        if self.offset > 8 * self.bytes.len() as u64 {
            return None;
        }
        Some(Bits { reader: self })
    }
}

/// A bit reader over borrowed bytes, each byte's high bit first.
#[derive(Drop)]
pub struct Bits<'a> {
    reader: EndlessBits<'a>,
}

impl<'a> Model for Bits<'a> {
    ghost use Rattle.std.specs.Prelude.{◌≡◌};
    ghost use Rattle.szg_code.specs.Cursor.{Cursor};

    ghost Value = { Cursor };

    ghost view = { λ bits. bits.reader.cursor };

    ghost invariant = { λ bits. bits.reader.past ≡ 0 };
}

impl<'a> Bits<'a> {
    /// Creates a reader at the first bit of at most 2^60 bytes.
    pub fn new(bytes: &'a [u8]) -> Bits<'a>
        requires { length bytes.now ≤ 2 ^ 60 }
        ensures taken { result.taken ≡ [] }
        ensures left { result.left ≡ bits bytes.now }
    {
        Bits {
            reader: EndlessBits {
                bytes,
                offset: 0,
                window: Window { bits: 0, held: 0 },
            },
        }
    }

    /// Returns the bit offset of the reader: the number of bits taken.
    pub fn place(&self) -> u64
        ensures { result ≡ length self.now.taken }
    {
        self.reader.offset
    }

    /// Returns the reader, which from now on may move past the end of its bytes.
    #[inline(always)]
    pub fn endless(self) -> EndlessBits<'a>
        ensures { result ≡ record { cursor = self.entry; past = 0 } }
    {
        self.reader
    }
}

/// Reads the bytes from offset `at` on, at most eight, as a big-endian number of eight bytes, with zeros past the end.
#[cold]
#[inline(never)]
fn read_short(bytes: &[u8], at: usize) -> u64
    requires some { at < length bytes.now }
    requires few { length bytes.now ≤ 8 }
    ensures { result ≡ number (padded 64 (drop (8 * at) (bits bytes.now))) }
{
    let count = bytes.len() - at;
    BigEndian::read_uint(&bytes[at..], count) << (8 * (8 - count))
}

/// Reads eight bytes at offset `at` as a big-endian number, with zeros past the end. None if there is no byte.
#[inline(always)]
fn read_u64_at(bytes: &[u8], at: usize) -> Option<u64>
    requires { at < 2 ^ 61 }
    ensures number { IfSome result (λ n. n ≡ number (padded 64 (drop (8 * at) (bits bytes.now)))) }
    ensures some { IfSome result (λ _. at < length bytes.now) }
    ensures none { IfNone result (length bytes.now ≤ at) }
{
    if at + 8 <= bytes.len() {
        return Some(BigEndian::read_u64(&bytes[at..]));
    }
    if at >= bytes.len() {
        return None;
    }
    if bytes.len() < 8 {
        return Some(read_short(bytes, at));
    }
    let last = bytes.len() - 8;
    Some(BigEndian::read_u64(&bytes[last..]) << (8 * (at - last)))
}

/// Reads a window from bit `offset` on. None if no bits are left to be read.
#[inline(always)]
fn fresh_window(bytes: &[u8], offset: u64) -> Option<Window>
    requires { length bytes.now ≤ 2 ^ 60 }
    ensures valid { IfSome result (λ window. IsWordReader bytes.now offset window.bits window.held) }
    ensures held { IfSome result (λ window. window.held ≡ 57) }
    ensures some { IfSome result (λ _. offset < 8 * length bytes.now) }
    ensures none { IfNone result (8 * length bytes.now ≤ offset) }
{
    Some(Window {
        bits: read_u64_at(bytes, (offset / 8) as usize)? << (offset % 8),
        // eight bytes, without the bits before the offset in the first one
        held: 57,
    })
}

/// Returns a window from bit `offset` on that holds `count` bits more than its `held` says: the given one, or one that is read
/// anew. None if no bits are left to be read.
#[inline(always)]
fn window_of(bytes: &[u8], offset: u64, window: Window, count: u64) -> Option<Window>
    requires few { count ≤ 57 }
    requires valid { IsWordReader bytes.now offset window.bits window.held }
    ensures valid { IfSome result (λ window. IsWordReader bytes.now offset window.bits (count + window.held)) }
    ensures none { IfNone result (8 * length bytes.now ≤ offset) }
{
    if window.held >= count {
        return Some(Window {
            bits: window.bits,
            held: window.held - count,
        });
    }
    let window = fresh_window(bytes, offset)?;
    Some(Window {
        bits: window.bits,
        held: window.held - count,
    })
}

/// Decodes the word at the reader's offset, moves the reader past it, and returns its symbol. None if the remaining bits do not
/// begin with a word. If the bytes end within the word, zeros complete it, and the reader has moved past the end. If `ALL`, each word
/// of the code has a symbol, and a word's length is found by comparing, else by the code's table of first bytes.
#[inline(always)]
pub fn next_endless<const ALL: bool>(code: &Code, words: &mut EndlessBits) -> Option<u16>
    requires { IsTrue ALL → HasAllSymbols code.now }
    ensures there { IfSome result (λ s. s < code.now.symbols) }
    ensures found { IfSome result (λ s. words.new.past ≡ 0 → (words.old.past ≡ 0) × TakesWord code.now words.old.cursor words.new.cursor s) }
    ensures past { IfSome result (λ _. 0 < words.new.past → BeginsWithNoWord code.now words.old.cursor.left) }
    ensures none { IfNone result (BeginsWithNoWord code.now words.old.cursor.left) }
{
    let window = window_of(words.bytes, words.offset, words.window, code.longest())?;
    let length = code.reached_length::<ALL>(window.bits);
    let symbol = code.first_symbol::<ALL>(window.bits, length)?;
    words.offset += length as u64;
    words.window = Window {
        bits: window.bits << length,
        held: window.held,
    };
    Some(symbol as u16)
}

/// Decodes the word of eight bits at the reader's offset, if its window holds it and is above `above`, the code's
/// `bytes_above`; moves the reader past it, and returns its symbol. Otherwise None, and the reader does not move. As with
/// `next_endless`, it may move past the end.
#[inline(always)]
pub fn next_byte(code: &Code, above: u64, words: &mut EndlessBits) -> Option<u64>
    requires { HasBytesAbove code.now above }
    ensures there { IfSome result (λ s. s < code.now.symbols) }
    ensures found { IfSome result (λ s. words.new.past ≡ 0 → (words.old.past ≡ 0) × TakesWord code.now words.old.cursor words.new.cursor s) }
    ensures past { IfSome result (λ _. 0 < words.new.past → BeginsWithNoWord code.now words.old.cursor.left) }
    ensures none { IfNone result (words.new ≡ words.old) }
{
    let window = words.window;
    if window.held < BYTE || window.bits <= above {
        return None;
    }
    // A fact that the proof uses: the code is accepted.
    let _ = code.symbols();
    let symbol = code.first_symbol::<true>(window.bits, 8)?;
    words.offset += BYTE;
    words.window = Window {
        bits: window.bits << BYTE,
        held: window.held - BYTE,
    };
    Some(symbol)
}

/// Decodes the word at the reader's offset, moves the reader past it, and returns its symbol. None if the remaining bits do not
/// begin with a word, or if the word would extend past the bytes; then the reader does not move.
#[inline(always)]
pub fn next(code: &Code, bits: &mut Bits) -> Option<u16>
    ensures found { IfSome result (λ s. TakesWord code.now bits.old bits.new s) }
    ensures none { IfNone result (BeginsWithNoWord code.now bits.old.left × (bits.new ≡ bits.old)) }
{
    let mut moved = bits.reader.copied();
    let symbol = next_endless::<false>(code, &mut moved)?;
    *bits = moved.within()?;
    Some(symbol)
}

/// Decodes the two words of the byte at the reader's offset, if its window holds the byte and the code stores its words; moves the
/// reader past them, and returns their symbols. Otherwise None, and the reader does not move. As with `next_endless`, it may move
/// past the end.
#[inline(always)]
pub fn next_two(code: &Code, words: &mut EndlessBits) -> Option<(u16, u16)>
    ensures there { IfSome result (λ two. (two.0 < code.now.symbols) × (two.1 < code.now.symbols)) }
    ensures found { IfSome result (λ two. words.new.past ≡ 0 → (words.old.past ≡ 0) × TakesWords code.now words.old.cursor words.new.cursor (two.0 ∷ two.1 ∷ [])) }
    ensures past { IfSome result (λ two. 0 < words.new.past → BeginsWithOneAtMost code.now words.old.cursor.left two.0) }
    ensures none { IfNone result (words.new ≡ words.old) }
{
    let window = words.window;
    if window.held < BYTE {
        return None;
    }
    let two = code.two_words_in(window.bits);
    if two.bits == 0 {
        return None;
    }
    words.offset += u64::from(two.bits);
    words.window = Window {
        bits: window.bits << two.bits,
        held: window.held - BYTE,
    };
    Some((two.first, two.second))
}

/// Decodes two words as `next_two` does, if they are within the bytes. Otherwise None, and the reader does not move.
#[inline(always)]
pub fn next_two_if(code: &Code, words: &mut Bits) -> Option<(u16, u16)>
    ensures there { IfSome result (λ two. (two.0 < code.now.symbols) × (two.1 < code.now.symbols)) }
    ensures found { IfSome result (λ two. TakesWords code.now words.old words.new (two.0 ∷ two.1 ∷ [])) }
    ensures none { IfNone result (words.new ≡ words.old) }
{
    let mut moved = words.reader.copied();
    let two = next_two(code, &mut moved)?;
    *words = moved.within()?;
    Some(two)
}
