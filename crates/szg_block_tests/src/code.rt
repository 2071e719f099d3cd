//! Codes: words, refusals, reading and writing with small codes.
use crate::helpers::made;
use std::alloc::Global;
use std::process::Abort;
use szg_code::{BitBuf, Bits, Code, CodeFault, PutFault, next, put, word};

fn code(rt: &(impl Abort + Alloc<A = Global>), min: u8, max: u8, lowest: &[u16], n: u16) -> Code {
    let lowest = made(rt, lowest.to_vec(rt.alloc()));
    made(rt, Code::new(min, max, lowest, n))
}

/// The symbol's word has this length and number.
fn check_word(rt: &impl Abort, code: &Code, symbol: u16, want: Option<(u8, u32)>) {
    let found = word(code, symbol).map(|word| (word.length, word.number));
    assert!(rt; found == want, "{symbol}");
}

#[test]
fn words_of_symbols(rt: HostRuntime) {
    let three = code(&rt, 1, 2, &[2, 0], 3);
    let words = [Some((2, 0)), Some((2, 1)), Some((1, 1)), None];
    for (symbol, word) in words.iter().enumerate() {
        check_word(&rt, &three, symbol as u16, *word);
    }
    let two = code(&rt, 1, 2, &[1, 0], 2);
    check_word(&rt, &two, 1, Some((1, 0)));
    check_word(&rt, &two, 0, None);
    assert!(rt; two.min() == 1 && two.max() == 2 && two.symbols() == 2);
    assert!(rt; two.lowest() == [1, 0].as_slice());
    let one = two.with_symbols(1);
    assert!(rt; one.symbols() == 1 && one.lowest() == [1, 0].as_slice());
    check_word(&rt, &one, 0, None);
    check_word(&rt, &one, 1, None);
}

/// The code is refused.
fn check_refused(
    rt: &(impl Abort + Alloc<A = Global>),
    (min, max): (u8, u8),
    lowest: &[u16],
    n: u16,
    want: CodeFault,
) {
    let lowest = made(rt, lowest.to_vec(rt.alloc()));
    assert!(rt;
        Code::new(min, max, lowest, n).err() == Some(want),
        "{want:?}"
    );
}

#[test]
fn refused_codes(rt: HostRuntime) {
    check_refused(&rt, (0, 1), &[1, 0], 2, CodeFault::Lengths);
    check_refused(&rt, (2, 1), &[], 2, CodeFault::Lengths);
    check_refused(&rt, (32, 33), &[0, 0], 2, CodeFault::Lengths);
    check_refused(&rt, (1, 2), &[0], 2, CodeFault::Lengths);
    check_refused(&rt, (1, 2), &[0, 2], 2, CodeFault::LowestOrder(1));
    check_refused(&rt, (1, 2), &[4, 0], 4, CodeFault::TooFull(0));
    check_refused(&rt, (1, 3), &[2, 2, 0], 4, CodeFault::TooFull(0));
    check_refused(&rt, (1, 4), &[3, 2, 2, 0], 4, CodeFault::TooFull(1));
    check_refused(&rt, (1, 2), &[65535, 0], 65535, CodeFault::TooFull(0));
}

/// Two words at a step are read if at least 192 of 256 bytes begin with two whole words. Word by word is read another code in
/// which no word is without a symbol and 63 of 64 windows begin with a word of the two least lengths, and by bytes such a code in
/// which 63 of 64 windows begin with a word of the least length, eight bits.
#[test]
fn ways_of_reading(rt: HostRuntime) {
    let codes = [
        (code(&rt, 1, 2, &[2, 0], 3), true, false, false),
        // 14 words of 4 bits, so 14 * 14 bytes
        (code(&rt, 4, 5, &[4, 0], 18), true, false, false),
        // 13 words of 4 bits, so 13 * 13 bytes
        (code(&rt, 4, 5, &[6, 0], 19), false, true, false),
        (code(&rt, 5, 5, &[0], 32), false, true, false),
        // 2 and 4 words of 7 bits: 1 and 2 of 64 windows
        (code(&rt, 5, 7, &[33, 2, 0], 64), false, true, false),
        (code(&rt, 5, 7, &[34, 4, 0], 64), false, false, false),
        // 252 and 251 words of 8 bits: 63 of 64 windows, and fewer
        (code(&rt, 8, 9, &[8, 0], 260), false, true, true),
        (code(&rt, 8, 9, &[10, 0], 261), false, true, false),
        (code(&rt, 7, 8, &[0, 0], 128), false, true, false),
        // the last word of 5, of 8 and of 7 bits has no symbol
        (code(&rt, 5, 5, &[0], 31), false, false, false),
        (code(&rt, 8, 9, &[8, 0], 259), false, false, false),
        (code(&rt, 7, 8, &[0, 0], 127), false, false, false),
    ];
    for (code, two_words, word_by_word, bytes) in codes.iter() {
        let found = (
            code.has_two_words(),
            code.is_read_word_by_word(),
            code.bytes_above() < u64::MAX,
        );
        assert!(rt;
            found == (*two_words, *word_by_word, *bytes),
            "{}",
            code.symbols()
        );
    }
}

/// The bytes begin with the words of these symbols, of `place` bits together, and then no word follows.
fn check_symbols(rt: &impl Abort, code: &Code, bytes: &[u8], symbols: &[u16], place: u64) {
    assert!(rt; bytes.len() <= 64);
    let mut words = Bits::new(bytes);
    for symbol in symbols {
        assert!(rt;
            next(code, &mut words) == Some(*symbol),
            "{symbol}, to {place}"
        );
    }
    assert!(rt;
        next(code, &mut words).is_none() && words.place() == place,
        "behind {place}"
    );
}

#[test]
fn symbols_of_bytes(rt: HostRuntime) {
    let three = code(&rt, 1, 2, &[2, 0], 3);
    check_symbols(&rt, &three, &[0x88], &[2, 0, 1, 0], 7);
    let zeros = code(&rt, 1, 32, &[0; 32], 2);
    check_symbols(&rt, &zeros, &[0x40], &[0, 1, 0, 0, 0, 0, 0, 0], 8);
}

#[test]
fn symbols_of_long_words(rt: HostRuntime) {
    let long = code(&rt, 32, 32, &[0], 2);
    check_symbols(&rt, &long, &[0, 0, 0, 1, 0, 0, 0, 0], &[1, 0], 64);
    let neighbours = code(&rt, 31, 32, &[2, 0], 3);
    let bytes = [0, 0, 0, 1, 0, 0, 0, 2, 0, 0, 0, 2, 0, 0, 0, 0];
    for (length, symbols, place) in [
        (16, &[1, 2, 1, 0][..], 127),
        (8, &[1, 2][..], 63),
        (7, &[1][..], 32),
    ] {
        check_symbols(&rt, &neighbours, &bytes[..length], symbols, place);
    }
}

#[test]
fn symbols_of_the_largest_code(rt: HostRuntime) {
    let many = code(&rt, 15, 16, &[65535, 0], 65535);
    check_symbols(&rt, &many, &[0xff, 0xfd], &[65533], 16);
    check_symbols(&rt, &many, &[0xff, 0xfe], &[], 0);
    check_symbols(&rt, &many, &[0xff, 0xff], &[], 0);
}

/// `put` of a symbol returns `want`, and then the buffer has `bits` bits, which are these bytes.
fn check_put(
    rt: &impl Abort,
    code: &Code,
    symbol: u16,
    buffer: &mut BitBuf,
    want: Result<(), PutFault>,
    bits: u64,
    bytes: &[u8],
) {
    assert!(rt; buffer.bits() < 64);
    let found = put(code, symbol, buffer);
    let right = found == want && buffer.bits() == bits && buffer.bytes() == bytes;
    assert!(rt; right, "{symbol}");
}

#[test]
fn bytes_of_symbols(rt: HostRuntime) {
    let three = code(&rt, 1, 2, &[2, 0], 3);
    let two = code(&rt, 1, 2, &[1, 0], 2);
    let mut buffer = BitBuf::new(rt.alloc());
    for (symbol, bits, byte) in [(2, 1, 0x80), (0, 3, 0x80), (1, 5, 0x88)] {
        check_put(&rt, &three, symbol, &mut buffer, Ok(()), bits, &[byte]);
    }
    check_put(&rt, &two, 0, &mut buffer, Err(PutFault::NoWord), 5, &[0x88]);
}

/// Writes words of 32 bits until an allocation is refused, which leaves the buffer unchanged.
#[test]
fn refused_growth(rt: HostRuntime) {
    let Ok(lowest) = [7].to_vec(rt.alloc()) else {
        return
    };
    let Ok(long) = Code::new(32, 32, lowest, 9) else {
        return
    };
    let mut buffer = BitBuf::new(rt.alloc());
    for count in 0..64u64 {
        assert!(rt; buffer.bits() == 32 * count);
        if let Err(fault) = put(&long, 8, &mut buffer) {
            assert!(rt; fault == PutFault::Memory && buffer.bits() == 32 * count);
            assert!(rt; buffer.bytes().len() as u64 == 4 * count);
            return;
        }
    }
    for (at, byte) in buffer.bytes().iter().enumerate() {
        assert!(rt; *byte == (at % 4 == 3) as u8, "at {at}");
    }
}
