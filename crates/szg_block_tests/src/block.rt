//! Subtables: a small one and variants of it, a constant one, single blocks, and look-ups with their steps.

ghost use Rattle.std.specs.Prelude.{◌≡◌, IsSomeAnd, length};
ghost use Rattle.szg_block.specs.Subtable.{layout_of, packed_of, IsShaped, IsSoundOver};
ghost use Rattle.szg_block.specs.BlocksTrait.{bytes_at};

use crate::helpers::made;
use std::alloc::{AllocError, Global};
use std::process::Abort;
use szg_block::{
    Entry, Image, Paged, Sound, SourceFault, Steps, Sub, SubFault, Watch, Whole, check,
    check_block, check_index, look_up, shaped, shaped_head,
};
use szg_code::Code;
use szg_pairs::Dict;

/// A code with words of one and two bits, for three symbols.
fn code(rt: &(impl Abort + Alloc<A = Global>)) -> Code {
    let lowest = made(rt, vec![in rt.alloc(); 2, 0]);
    made(rt, Code::new(1, 2, lowest, 3))
}

/// A dictionary of two values and their pair.
fn dict(rt: &(impl Abort + Alloc<A = Global>)) -> Dict {
    let entries = [[0x02, 0xf0, 0xff], [0x04, 0xf0, 0xff], [0x00, 0x10, 0x00]];
    let entries = made(rt, Vec::from_slice(rt.alloc(), &entries));
    assert!(rt; entries.len() == 3);
    made(rt, Dict::new(rt.alloc(), entries))
}

/// A subtable with this dictionary and code, `blocks` blocks of one byte, and spans of two values.
fn small(
    rt: &(impl Abort + Alloc<A = Global>),
    blocks: u32,
    sparse: &[Entry],
    lengths: &[u16],
    packed: &[u8],
) -> Sub
    ensures { IsSomeAnd (layout_of result) (λ layout. (layout.blocks ≡ blocks) × (layout.block_bits ≡ 0)) }
{
    Sub::Pairs {
        flags: 0,
        block_bits: 0,
        span_bits: 1,
        extra: 0,
        blocks,
        code: code(rt),
        dict: dict(rt),
        sparse: made(rt, Vec::from_slice(rt.alloc(), sparse)),
        lengths: made(rt, Vec::from_slice(rt.alloc(), lengths)),
        packed: made(rt, Vec::from_slice(rt.alloc(), packed)),
    }
}

/// A sparse index of three entries, the last of which is given.
fn index(block: u32, offset: u16) -> [Entry; 3] {
    [
        Entry {
            block: 0,
            offset: 1,
        },
        Entry {
            block: 0,
            offset: 3,
        },
        Entry { block, offset },
    ]
}

/// The values of a sound small subtable are 2, 4, 2, 4, 2, 4.
fn check_values<'a>(rt: &(impl Abort + Alloc<A = Global>), sound: &Sound<'a, Whole<'a>>) {
    let values = made(rt, sound.values(rt.alloc()));
    assert!(rt; values.as_slice() == [2, 4, 2, 4, 2, 4].as_slice());
    for i in 0..sound.size() {
        assert!(rt; sound.get(i) == if i % 2 == 0 { 2 } else { 4 });
    }
}

#[test]
fn changes_of_a_small_subtable(rt: HostRuntime) {
    for (sparse, lengths, packed, fault) in [
        (index(1, 1), [3, 1], [0xc0, 0x10], None),
        (
            index(1, 1),
            [3, 0],
            [0xc0, 0x10],
            Some(SubFault::ShortTotal),
        ),
        (
            index(1, 2),
            [3, 1],
            [0xc0, 0x10],
            Some(SubFault::SparseEntry(2)),
        ),
        (index(0, 5), [3, 1], [0xc0, 0x10], None),
        (index(1, 1), [3, 7], [0xc0, 0x10], None),
        (index(0, 5), [6, 0], [0x10, 0x10], Some(SubFault::Word(0))),
        (index(1, 1), [3, 1], [0xc0, 0x80], None),
    ] {
        let sub = small(&rt, 2, &sparse, &lengths, &packed);
        assert!(rt; shaped(&sub, 6));
        match check(&sub, 6) {
            Err(found) => assert!(rt; Some(found) == fault),
            Ok(()) => {
                assert!(rt; fault == None);
                check_values(&rt, &Sound::of(&sub, 6, 0));
            }
        }
    }
}

/// A subtable of `size` values that passes its check. If it is constant, its value is 2.
fn sound<'a>(rt: &impl Abort, sub: &'a Sub, size: u64) -> Sound<'a, Whole<'a>> {
    assert!(rt; shaped(sub, size));
    match check(sub, size) {
        Ok(()) => Sound::of(sub, size, 2),
        Err(_) => panic!(rt; "it is not sound"),
    }
}

/// Value `i` of the subtable is `value`, found by `moves` moves and one word.
fn check_steps<'a>(
    rt: &impl Abort,
    sound: &mut Sound<'a, Whole<'a>>,
    i: u64,
    value: u16,
    moves: u64,
) {
    assert!(rt; i < sound.size());
    assert!(rt; sound.get(i) == value, "at {i}");
    let steps = Steps {
        moves,
        words: 1,
        descents: 0,
        fetches: 1,
    };
    assert!(rt; sound.get_counted(i) == Ok((value, steps)), "at {i}");
}

#[test]
fn constant_subtable(rt: HostRuntime) {
    let sub = Sub::Constant {
        flags: 0x80,
        byte: 2,
    };
    let sound = sound(&rt, &sub, 3);
    assert!(rt; sound.size() == 3 && sound.get(2) == 2);
    assert!(rt; made(&rt, sound.values(rt.alloc())).as_slice() == [2, 2, 2].as_slice());
    let mut none = Whole {
        packed: &[],
        block_bits: 0,
    };
    let steps = Steps {
        moves: 0,
        words: 0,
        descents: 0,
        fetches: 0,
    };
    assert!(rt; look_up(&sub, 3, 2, 2, &mut none) == Ok((2, steps)));
}

#[test]
fn single_blocks(rt: HostRuntime) {
    let sub = small(&rt, 2, &index(0, 5), &[6, 0], &[0x10, 0x10]);
    assert!(rt; shaped_head(&sub, 6));
    assert!(rt; check_index(&sub, 6).is_ok());
    assert!(rt; check_block(&sub, 6, 0, &[0x10]) == Err(SubFault::Word(0)));
    assert!(rt; check_block(&sub, 6, 1, &[0x10]).is_ok());
}

#[test]
fn steps_of_a_small_subtable(rt: HostRuntime) {
    for (sparse, moves) in [(index(1, 1), 0), (index(0, 5), 1)] {
        let sub = small(&rt, 2, &sparse, &[3, 1], &[0xc0, 0x10]);
        check_steps(&rt, &mut sound(&rt, &sub, 6), 4, 2, moves);
    }
}

/// One entry for every two blocks, at the start of the second of them.
fn entries_at_second_blocks(alloc: Global, count: u32) -> Result<Vec<Entry>, AllocError> {
    let mut sparse = Vec::new(alloc);
    for j in 0..count / 2 {
        sparse.push(Entry {
            block: 2 * j + 1,
            offset: 0,
        })?;
    }
    Ok(sparse)
}

/// 2^20 blocks of one value each: as many bytes as a look-up needs to load blocks early. Adding lengths from the first block
/// on in each call would take hours.
#[test]
fn many_blocks(rt: HostRuntime) {
    let count: u32 = 1 << 20;
    let sparse = made(&rt, entries_at_second_blocks(rt.alloc(), count));
    let lengths = made(&rt, vec![in rt.alloc(); 0; count as usize]);
    let packed = made(&rt, vec![in rt.alloc(); 0; count as usize]);
    let sub = small(&rt, count, &sparse, &lengths, &packed);
    let mut sound = sound(&rt, &sub, u64::from(count));
    for i in 0..u64::from(count) {
        check_steps(&rt, &mut sound, i, 2, 1 - i % 2);
    }
}

/// A source of the two blocks of a small subtable.
fn source_of(sub: &Sub) -> Image<'_>
    requires shaped { IsShaped sub.now 6 }
    requires small { IsSomeAnd (layout_of sub.now) (λ layout. (layout.blocks ≡ 2) × (layout.block_bits ≡ 0)) }
    ensures two { length result.content ≡ 2 }
    ensures content { bytes_at result.content 0 2 ≡ packed_of sub.now }
{
    match sub {
        Sub::Constant { .. } => unreachable!(),
        Sub::Pairs { packed, .. } => Image::new(packed),
    }
}

/// The values of a small subtable over a source of its blocks. The source fails at its second call.
fn paged<'a>(sub: &'a Sub, buffer: Vec<u8>) -> Sound<'a, Paged<Watch<Image<'a>>>>
    requires shaped { IsShaped sub.now 6 }
    requires small { IsSomeAnd (layout_of sub.now) (λ layout. (layout.blocks ≡ 2) × (layout.block_bits ≡ 0)) }
    requires sound { IsSoundOver sub.now (packed_of sub.now) 6 }
    requires room { length buffer.items ≡ 1 }
    ensures { result.size ≡ 6 }
{
    let source = Watch::new(source_of(sub), 2);
    Sound::paged(sub, 6, 0, Paged::new(source, buffer, 0, 2))
}

/// A fault of the source affects only the call in which it occurs.
#[test]
fn values_over_a_source(rt: HostRuntime) {
    let sub = small(&rt, 2, &index(1, 1), &[3, 1], &[0xc0, 0x10]);
    let Ok(buffer) = vec![in rt.alloc(); 0; 1] else {
        panic!(rt; "no memory");
    };
    assert!(rt; shaped(&sub, 6));
    match check(&sub, 6) {
        Err(_) => panic!(rt; "it is not sound"),
        Ok(()) => {
            let mut sound = paged(&sub, buffer);
            assert!(rt; sound.get(5) == Ok(4));
            assert!(rt; sound.get(0) == Err(SourceFault));
            assert!(rt; sound.get(0) == Ok(2));
        }
    }
}
