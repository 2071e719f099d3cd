//! Dictionaries: the examples of the format, and dictionaries of full size.
ghost use Rattle.std.specs.Prelude.{◌<◌};

use crate::helpers::made;
use std::alloc::{AllocError, Global};
use std::process::Abort;
use std::time::{Duration, Instant};
use szg_pairs::entry::{is_leaf, left, right};
use szg_pairs::{Descent, Dict, DictFault};

/// A leaf with the value 5.
const FIVE: [u8; 3] = [0x05, 0xf0, 0xff];

fn pair_of(left: u16, right: u16) -> [u8; 3]
    requires left_fits { left < 4096 }
    requires right_fits { right < 4096 }
{
    [
        (left % 256) as u8,
        (left / 256 + right % 16 * 16) as u8,
        (right / 16) as u8,
    ]
}

fn dict_of(rt: &(impl Abort + Alloc<A = Global>), entries: &[[u8; 3]]) -> Result<Dict, DictFault> {
    assert!(rt; entries.len() <= 65535);
    Dict::new(rt.alloc(), Vec::from_slice(rt.alloc(), entries)?)
}

/// These entries are refused.
fn check_refused(rt: &(impl Abort + Alloc<A = Global>), entries: &[[u8; 3]], want: DictFault) {
    let found = dict_of(rt, entries).err();
    assert!(rt; found == Some(want), "{found:?}");
}

#[test]
fn an_entry_has_two_numbers_of_twelve_bits(rt: HostRuntime) {
    for (entry, first, second) in [
        ([0x02, 0xf0, 0xff], 2, 0xfff),
        ([0x00, 0x10, 0x00], 0, 1),
        ([0x34, 0x52, 0x67], 0x234, 0x675),
    ] {
        let numbers = left(entry) == first && right(entry) == second;
        assert!(rt; numbers && is_leaf(entry) == (second == 0xfff));
    }
}

#[test]
fn pairs_expand_left_to_right(rt: HostRuntime) {
    let entries = [
        [0x02, 0xf0, 0xff],
        [0x04, 0xf0, 0xff],
        [0x00, 0x10, 0x00],
        [0x02, 0x00, 0x00],
    ];
    let dict = made(&rt, dict_of(&rt, &entries));
    assert!(rt; dict.symbols() == 4 && dict.entry(2) == [0x00, 0x10, 0x00]);
    assert!(rt; dict.len(3) == 3 && dict.value_at(3, 2) == 2);
    assert!(rt; dict.descend(3, 2) == Descent { value: 2, pairs: 1 });
    let values = made(&rt, dict.expand(rt.alloc(), 3));
    assert!(rt; values.as_slice() == [2, 4, 2].as_slice());
}

#[test]
fn a_fault_names_the_least_symbol(rt: HostRuntime) {
    check_refused(&rt, &[[0x00, 0x00, 0x00]], DictFault::Cycle(0));
    let second = [FIVE, [0x00, 0x20, 0x00], [0x01, 0x00, 0x00]];
    check_refused(&rt, &second, DictFault::Cycle(1));
    let outside = [[0x00, 0x00, 0x00], [0x00, 0x50, 0x00]];
    check_refused(&rt, &outside, DictFault::Child(1));
    let first = [[0x01, 0x10, 0x00], [0x02, 0x20, 0x00], [0x01, 0x10, 0x00]];
    check_refused(&rt, &first, DictFault::Cycle(0));
}

/// `count` leaves.
fn leaves(alloc: Global, count: u8) -> Result<Vec<[u8; 3]>, AllocError> {
    let mut entries = Vec::new(alloc);
    for value in 0..count {
        entries.push([value, 0xf0, 0xff])?;
    }
    Ok(entries)
}

/// The dictionary of these entries; there must be memory for it.
fn dict_with(
    rt: &(impl Abort + Alloc<A = Global>),
    entries: Result<Vec<[u8; 3]>, AllocError>,
) -> Dict {
    made(rt, dict_of(rt, &made(rt, entries)))
}

/// With enough memory a dictionary of any length is made.
#[test]
fn dictionaries_of_each_length(rt: HostRuntime) {
    for count in 1..=8u8 {
        let dict = dict_with(&rt, leaves(rt.alloc(), count));
        assert!(rt;
            dict.symbols() == u16::from(count) && dict.len(0) == 1,
            "of {count}"
        );
        assert!(rt; dict.value_at(0, 0) == 0, "of {count}");
    }
}

/// With enough memory a symbol of any number of values is expanded.
#[test]
fn expansions_of_each_length(rt: HostRuntime) {
    let dict = dict_with(&rt, chain(rt.alloc(), 255, false));
    assert!(rt; dict.symbols() == 256);
    for symbol in 0..256u16 {
        let values = made(&rt, dict.expand(rt.alloc(), symbol));
        assert!(rt; values.len() == usize::from(symbol) + 1, "of {symbol}");
    }
}

/// A leaf, and then `pairs` pairs, each of the previous symbol and another: the previous symbol again if `doubles`
/// is set, else the leaf.
fn chain(alloc: Global, pairs: u16, doubles: bool) -> Result<Vec<[u8; 3]>, AllocError>
    requires { pairs < 4096 }
{
    let mut entries = Vec::new(alloc);
    entries.push(FIVE)?;
    for symbol in 0..pairs {
        entries.push(pair_of(symbol, if doubles { symbol } else { 0 }))?;
    }
    Ok(entries)
}

#[test]
fn a_symbol_has_at_most_256_values(rt: HostRuntime) {
    let dict = dict_with(&rt, chain(rt.alloc(), 8, true));
    assert!(rt; dict.symbols() == 9 && dict.len(8) == 256);
    let longer = made(&rt, chain(rt.alloc(), 9, true));
    check_refused(&rt, &longer, DictFault::LongSymbol(9));
}

#[test]
fn a_descent_passes_255_pairs(rt: HostRuntime) {
    let dict = dict_with(&rt, chain(rt.alloc(), 255, false));
    assert!(rt; dict.symbols() == 256 && dict.len(255) == 256);
    let deepest = Descent {
        value: 5,
        pairs: 255,
    };
    assert!(rt; dict.descend(255, 0) == deepest);
    let longer = made(&rt, chain(rt.alloc(), 256, false));
    check_refused(&rt, &longer, DictFault::LongSymbol(256));
}

/// Each symbol `s` below `last` is the pair of `s + 1` with itself. Symbol `last` has the entry `entry`; from there
/// on each is the pair 0, 0.
fn deep(
    alloc: Global,
    symbols: usize,
    last: u16,
    entry: [u8; 3],
) -> Result<Vec<[u8; 3]>, AllocError>
    requires { last < 4095 }
{
    let mut entries = Vec::new(alloc);
    for symbol in 0..last {
        entries.push(pair_of(symbol + 1, symbol + 1))?;
    }
    entries.push(entry)?;
    for _ in entries.len()..symbols {
        entries.push(pair_of(0, 0))?;
    }
    Ok(entries)
}

#[test]
fn deep_pairs_need_no_deep_calls(rt: HostRuntime) {
    let long = made(&rt, deep(rt.alloc(), 4001, 4000, FIVE));
    check_refused(&rt, &long, DictFault::LongSymbol(0));
    let endless = made(&rt, deep(rt.alloc(), 4000, 3999, pair_of(0, 0)));
    check_refused(&rt, &endless, DictFault::Cycle(0));
}

#[test]
fn full_size_is_linear(rt: HostRuntime) {
    let start = made(&rt, Instant::now(&rt));
    let long = made(&rt, deep(rt.alloc(), 65535, 4094, FIVE));
    check_refused(&rt, &long, DictFault::LongSymbol(0));
    let endless = made(&rt, deep(rt.alloc(), 65535, 4094, pair_of(0, 0)));
    check_refused(&rt, &endless, DictFault::Cycle(0));
    let dict = dict_with(&rt, deep(rt.alloc(), 65535, 0, FIVE));
    assert!(rt; dict.symbols() == 65535 && dict.len(65534) == 2);
    assert!(rt; made(&rt, start.elapsed(&rt)) < Duration::from_secs(10));
}

/// For runs in which an allocation fails: whichever it is, the error is `Memory` or the allocator's own.
#[test]
fn a_failed_allocation_answers_memory(rt: HostRuntime) {
    match dict_of(&rt, &[FIVE, [0x00, 0x00, 0x00], [0x01, 0x00, 0x00]]) {
        Ok(dict) => {
            assert!(rt; dict.symbols() == 3);
            if let Ok(values) = dict.expand(rt.alloc(), 2) {
                assert!(rt; values.as_slice() == [5, 5, 5].as_slice());
            }
        }
        Err(fault) => assert!(rt; fault == DictFault::Memory),
    }
}
