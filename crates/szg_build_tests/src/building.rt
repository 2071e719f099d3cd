//! Tables built from values, byte for byte, and refusals of plans and lists.

use crate::files::{check_written, made};
use std::alloc::{AllocError, Global};
use std::process::Abort;
use szg_build::{BuildFault, Choice, Packing, Plan, Watcher, build, build_as};
use szg_file::{Map, PartBytes, file_len, write};
use szg_fixtures::Fixture;
use szg_io::Std;
use szg_values::{Kind, Material};

/// The number of values of a side with king and one piece against king.
const THREE_MEN: usize = 31332;

/// The number of values of a side of a part with king and pawn against king.
const PAWN: usize = 23436;

/// The lists of all subtables, one after another, each a pattern repeated a number of times.
fn values(alloc: Global, lists: &[(&[u16], usize)]) -> Result<Vec<u16>, AllocError> {
    let mut all = Vec::new(alloc);
    for (pattern, times) in lists {
        for _ in 0..*times {
            all.extend_from_slice(pattern)?;
        }
    }
    Ok(all)
}

/// `count` parts with the same men, their groups in slot order.
fn parts(alloc: Global, count: u8, men: &[u8]) -> Result<Vec<PartBytes>, AllocError> {
    let mut parts = Vec::new(alloc);
    for _ in 0..count {
        parts.push(PartBytes {
            order: Vec::from_slice(alloc, &[0])?,
            men: Vec::from_slice(alloc, men)?,
        })?;
    }
    Ok(parts)
}

/// A plan of outcomes, each part with these men.
fn outcomes(
    alloc: Global,
    material: Material,
    men: &[u8],
    bits: (u8, u8),
    rounds: u32,
) -> Result<Plan, AllocError> {
    let count = if material.has_pawns() { 4 } else { 1 };
    Ok(Plan {
        parts: parts(alloc, count, men)?,
        material,
        kind: Kind::Wdl,
        block_bits: bits.0,
        span_bits: bits.1,
        rounds,
        flags: Vec::new(alloc),
        maps: Vec::new(alloc),
        last: [0, 1, 2, 3, 4, 5, 6, 7, 8, 9, 10, 11, 12, 13, 14, 15],
    })
}

/// A plan of distances without pawns, flags and maps.
fn distances(
    alloc: Global,
    material: Material,
    men: &[u8],
    bits: (u8, u8),
    rounds: u32,
) -> Result<Plan, AllocError> {
    let mut plan = outcomes(alloc, material, men, bits, rounds)?;
    plan.kind = Kind::Dtz;
    plan.flags.push(0)?;
    plan.maps.push(None)?;
    Ok(plan)
}

/// A plan of distances of king and queen against king, with blocks of 32 bytes.
fn queen_distances(rt: &(impl Abort + Alloc<A = Global>), rounds: u32) -> Plan {
    let material = made(rt, Material::parse("KQvK"));
    made(
        rt,
        distances(rt.alloc(), material, &[6, 5, 14], (5, 16), rounds),
    )
}

/// The values, divided into lists of `size` values each.
fn lists_of<'a>(
    alloc: Global,
    values: &'a [u16],
    size: usize,
) -> Result<Vec<&'a [u16]>, AllocError> {
    let mut lists = Vec::new(alloc);
    for list in values.chunks(size.max(1)) {
        lists.push(list)?;
    }
    Ok(lists)
}

/// The plan and these values, in lists of `size` each, build the file.
fn check_built(
    rt: &(impl Abort + Alloc<A = Global>),
    plan: &Plan,
    values: &[u16],
    size: usize,
    file: &Fixture,
) {
    let lists = made(rt, lists_of(rt.alloc(), values, size));
    let table = made(rt, build(rt.alloc(), plan, &lists));
    check_written(rt, &table, &file.bytes);
}

/// The plan and this single list build a file that begins with these bytes.
fn check_front(rt: &(impl Abort + Alloc<A = Global>), plan: &Plan, values: &[u16], front: &[u8]) {
    let table = made(rt, build(rt.alloc(), plan, &[values]));
    let mut output = Std::new(Vec::new(rt.alloc()));
    let written = write(&table, &mut output).is_ok();
    assert!(rt; written && output.inner().as_slice().starts_with(front));
}

/// A plan with these men, bits and rounds builds the file from these lists for both sides.
fn check_outcomes(
    rt: &(impl Abort + Alloc<A = Global>),
    file: &Fixture,
    men: [u8; 3],
    (block_bits, span_bits, rounds): (u8, u8, u32),
    lists: &[(&[u16], usize)],
) {
    let bits = (block_bits, span_bits);
    let material = made(rt, Material::parse(file.name));
    let plan = outcomes(rt.alloc(), material, &men, bits, rounds);
    let values = made(rt, values(rt.alloc(), lists));
    check_built(rt, &made(rt, plan), &values, THREE_MEN, file);
}

const KNIGHT: [u8; 3] = [0x66, 0x22, 0xee];

const QUEEN: [u8; 3] = [0x66, 0x55, 0xee];

#[test]
fn outcomes_without_pairs(rt: HostRuntime) {
    let (draws, turns) = ((&[2][..], 31332), (&[2, 4][..], 15666));
    let file = made(&rt, szg_fixtures::knvk_wdl_constant(rt.alloc()));
    check_outcomes(&rt, &file, KNIGHT, (6, 12, 0), &[draws, draws]);
    let file = made(&rt, szg_fixtures::kqvk_wdl_unpaired(rt.alloc()));
    check_outcomes(&rt, &file, QUEEN, (5, 16, 0), &[turns, draws]);
    let file = made(&rt, szg_fixtures::kqvk_wdl_both_sides(rt.alloc()));
    check_outcomes(&rt, &file, QUEEN, (5, 16, 0), &[turns, turns]);
}

/// Eight pairs are made even if the plan allows more, because no ninth pair occurs four times or more.
#[test]
fn outcomes_with_pairs(rt: HostRuntime) {
    let file = made(&rt, szg_fixtures::kqvk_wdl_paired(rt.alloc()));
    for rounds in [8, 200] {
        let lists = [(&[2, 4][..], 15666), (&[2][..], 31332)];
        check_outcomes(&rt, &file, QUEEN, (5, 10, rounds), &lists);
    }
}

/// The last call of each kind, and whether each call came in its turn.
#[derive(Drop)]
struct Seen {
    subtable: (usize, usize, usize),
    round: (u32, u32),
    attempts: u32,
    ends: u32,
    is_in_order: bool,
}

impl Seen {
    /// Notes a call, none of which may follow the end.
    fn note(&mut self, is_next: bool) {
        self.is_in_order = self.is_in_order && is_next && self.ends == 0;
    }
}

impl Watcher for Seen {
    fn subtable(&mut self, number: usize, count: usize, values: usize) {
        self.note(number == self.subtable.0.wrapping_add(1));
        self.subtable = (number, count, values);
    }

    fn round(&mut self, done: u32, rounds: u32) {
        let is_next = done == self.round.0 || done == self.round.0.wrapping_add(1);
        self.note(is_next && self.subtable.0 == 1);
        self.round = (done, rounds);
    }

    fn attempt(&mut self, _done: u64, _bytes: Option<u64>) {
        self.attempts = self.attempts.wrapping_add(1);
    }

    fn end(&mut self) {
        self.note(true);
        self.ends = self.ends.wrapping_add(1);
    }
}

/// As in `outcomes_with_pairs`, eight of 200 rounds are made, all in the first of two subtables.
#[test]
fn a_watcher_sees_a_build(rt: HostRuntime) {
    let material = made(&rt, Material::parse("KQvK"));
    let plan = made(&rt, outcomes(rt.alloc(), material, &QUEEN, (5, 10), 200));
    let packing = Packing {
        block_bits: plan.block_bits,
        span_bits: plan.span_bits,
        rounds: plan.rounds,
    };
    let lists = [(&[2, 4][..], 15666), (&[2][..], 31332)];
    let values = made(&rt, values(rt.alloc(), &lists));
    let lists = made(&rt, lists_of(rt.alloc(), &values, THREE_MEN));
    let mut seen = Seen {
        subtable: (0, 0, 0),
        round: (0, 0),
        attempts: 0,
        ends: 0,
        is_in_order: true,
    };
    let choice = Choice::Fixed(packing);
    assert!(rt; build_as(rt.alloc(), &plan, choice, &lists, &mut seen).is_ok());
    assert!(rt; seen.is_in_order && seen.subtable == (2, 2, THREE_MEN));
    assert!(rt; seen.round == (8, 200) && seen.attempts == 0 && seen.ends == 1);
}

/// Eight lists, each with a single value.
#[test]
fn outcomes_of_parts_in_their_order(rt: HostRuntime) {
    let mut all = Vec::new(rt.alloc());
    let mut changes = [(0, 0); 8];
    for (n, change) in changes.iter_mut().enumerate() {
        let value = n % 5;
        *change = (23 + 2 * n, value as u8);
        made(&rt, all.resize((n + 1) * PAWN, value as u16));
    }
    let constant = made(&rt, szg_fixtures::kpvk_wdl_constant(rt.alloc()));
    let file = made(&rt, constant.changed(rt.alloc(), &changes));
    let men = [0x11, 0x66, 0xee];
    let material = made(&rt, Material::parse(file.name));
    let plan = outcomes(rt.alloc(), material, &men, (6, 12), 0);
    check_built(&rt, &made(&rt, plan), &all, PAWN, &file);
}

/// A list of a single value other than 0 has a dictionary and blocks.
#[test]
fn distances_of_one_value(rt: HostRuntime) {
    let plan = queen_distances(&rt, 0);
    let values = made(&rt, values(rt.alloc(), &[(&[3], THREE_MEN)]));
    let file = made(&rt, szg_fixtures::kqvk_dtz_packed(rt.alloc()));
    check_built(&rt, &plan, &values, THREE_MEN, &file);
}

/// The lists for the four classes; only the first has items.
fn lists_with<T>(alloc: Global, first: Vec<T>) -> [Vec<T>; 4] {
    [first, Vec::new(alloc), Vec::new(alloc), Vec::new(alloc)]
}

#[test]
fn distances_with_maps(rt: HostRuntime) {
    let material = made(&rt, Material::parse("KPvK"));
    let plan = outcomes(rt.alloc(), material, &[1, 6, 14], (6, 12), 0);
    let mut plan = made(&rt, plan);
    plan.kind = Kind::Dtz;
    made(&rt, plan.flags.extend_from_slice(&[2, 18, 0, 0]));
    let short = made(&rt, Vec::from_slice(rt.alloc(), &[7]));
    let wide = made(&rt, Vec::from_slice(rt.alloc(), &[300]));
    let short = Some(Map::Bytes(lists_with(rt.alloc(), short)));
    let wide = Some(Map::Wide(lists_with(rt.alloc(), wide)));
    for map in [short, wide, None, None] {
        assert!(rt; plan.maps.push(map).is_ok());
    }
    let values = made(&rt, values(rt.alloc(), &[(&[0], 4 * PAWN)]));
    let file = made(&rt, szg_fixtures::kpvk_dtz_mapped(rt.alloc()));
    check_built(&rt, &plan, &values, PAWN, &file);
}

/// Symbols 0 0 0 1 0 1, repeated: the pair 0 1 is the most frequent. Then 0 0, 0 2 and 2 2 are equally frequent,
/// and the least is made first.
#[test]
fn the_most_frequent_pair_goes_first(rt: HostRuntime) {
    let plan = queen_distances(&rt, 2);
    let values = made(&rt, values(rt.alloc(), &[(&[1, 1, 1, 2, 1, 2], 5222)]));
    let front = [
        0xd7, 0x66, 0x0c, 0xa5, 0x01, 0x00, 0x06, 0x05, 0x0e, 0x00, 0x00, 0x05, 0x10, 0x01, 0x7b,
        0x00, 0x00, 0x00, 0x02, 0x02, 0x00, 0x00, 0x04, 0x00, 0x01, 0xf0, 0xff, 0x02, 0xf0, 0xff,
        0x00, 0x10, 0x00, 0x00, 0x00, 0x00, 0x7b, 0x00, 0x00, 0x00, 0x9c, 0x05, 0xff, 0x00,
    ];
    check_front(&rt, &plan, &values, &front);
}

/// The first bytes of a file of 873,642 values in blocks of 65,536 values, whose bytes would have room for more.
fn front_of_full_blocks(rt: &(impl Abort + Alloc<A = Global>)) -> Vec<u8> {
    let heads = [
        0xd7, 0x66, 0x0c, 0xa5, 0x01, 0x00, 0x06, 0x0e, 0x03, 0x03, 0x00, 0x07, 0x10, 0x01, 0x0e,
        0x00, 0x00, 0x00, 0x04, 0x03, 0x04, 0x00, 0x00, 0x00, 0x0a, 0x00, 0x02, 0xf0, 0xff, 0x04,
        0xf0, 0xff, 0x00, 0x10, 0x00, 0x02, 0x20, 0x00, 0x03, 0x30, 0x00, 0x04, 0x40, 0x00, 0x05,
        0x50, 0x00, 0x06, 0x60, 0x00, 0x07, 0x70, 0x00, 0x08, 0x80, 0x00,
    ];
    let mut front = made(rt, Vec::from_slice(rt.alloc(), &heads));
    for block in 0..13 {
        let entry = [block, 0x00, 0x00, 0x00, 0x00, 0x80];
        made(rt, front.extend_from_slice(&entry));
    }
    let last = [0x0e, 0x00, 0x00, 0x00, 0x56, 0x2b];
    made(rt, front.extend_from_slice(&last));
    made(rt, front.extend_from_slice(&[0xff; 26]));
    made(rt, front.extend_from_slice(&[0xa9, 0x54, 0xff, 0xff]));
    front
}

#[test]
fn blocks_of_as_many_values_as_may_be(rt: HostRuntime) {
    let material = made(&rt, Material::parse("KBBvK"));
    let plan = distances(rt.alloc(), material, &[6, 14, 3, 3], (7, 16), 8);
    let values = made(&rt, values(rt.alloc(), &[(&[2, 4], 436821)]));
    check_front(&rt, &made(&rt, plan), &values, &front_of_full_blocks(&rt));
}

/// The plan and these values, in lists of `size` each, are refused.
fn check_refused(
    rt: &(impl Abort + Alloc<A = Global>),
    plan: &Plan,
    values: &[u16],
    size: usize,
    want: BuildFault,
) {
    let lists = made(rt, lists_of(rt.alloc(), values, size));
    assert!(rt;
        build(rt.alloc(), plan, &lists).err() == Some(want),
        "{want}"
    );
}

/// A plan with a fault of each kind, except the first `good` kinds.
fn mended(rt: &(impl Abort + Alloc<A = Global>), good: u8) -> Plan {
    let men = if good < 1 { [6, 5, 5] } else { [6, 5, 14] };
    let block_bits = if good < 2 { 4 } else { 5 };
    let rounds = if good < 3 { 4001 } else { 4000 };
    let flags = if good < 4 { &[0, 0][..] } else { &[2][..] };
    let material = made(rt, Material::parse("KQvK"));
    let plan = distances(rt.alloc(), material, &men, (block_bits, 16), rounds);
    let mut plan = made(rt, plan);
    plan.flags = made(rt, Vec::from_slice(rt.alloc(), flags));
    plan
}

/// `size` values: the numbers below `count`, and then zeros.
fn different(alloc: Global, count: u16, size: usize) -> Result<Vec<u16>, AllocError> {
    let mut list = Vec::new(alloc);
    for value in 0..count {
        list.push(value)?;
    }
    list.resize(size, 0)?;
    Ok(list)
}

/// A plan with the first `good` faults corrected is refused with a list of `count` different values.
fn check_mended(
    rt: &(impl Abort + Alloc<A = Global>),
    good: u8,
    (count, size): (u16, usize),
    want: BuildFault,
) {
    let list = made(rt, different(rt.alloc(), count, size));
    check_refused(rt, &mended(rt, good), &list, size, want);
}

/// At first everything is wrong; then the faults are corrected one after another.
#[test]
fn faults_in_their_order(rt: HostRuntime) {
    for (good, list, want) in [
        (0, (0, 0), BuildFault::Order),
        (1, (0, 0), BuildFault::Bits),
        (2, (0, 0), BuildFault::Rounds),
        (3, (0, 0), BuildFault::Count),
        (3, (4097, 31331), BuildFault::Length(0)),
        (3, (4097, 31332), BuildFault::Value(0)),
        (3, (4096, 31332), BuildFault::TooManyValues(0)),
        (3, (4095, 31332), BuildFault::Map),
        (4, (4095, 31332), BuildFault::Map),
    ] {
        check_mended(&rt, good, list, want);
    }
}

#[test]
fn faults_of_the_second_list(rt: HostRuntime) {
    let material = made(&rt, Material::parse("KNvK"));
    let plan = made(&rt, outcomes(rt.alloc(), material, &KNIGHT, (6, 12), 0));
    let list = made(&rt, values(rt.alloc(), &[(&[2], 62663), (&[5], 1)]));
    check_refused(&rt, &plan, &list, THREE_MEN, BuildFault::Value(1));
    check_refused(&rt, &plan, &list, THREE_MEN + 1, BuildFault::Length(0));
    let list = made(&rt, values(rt.alloc(), &[(&[2], 62663)]));
    check_refused(&rt, &plan, &list, THREE_MEN, BuildFault::Length(1));
}

/// A plan with pairs and with a map of one item.
fn pairs_and_a_map(alloc: Global, material: Material) -> Result<Plan, AllocError> {
    let mut plan = distances(alloc, material, &[6, 5, 14], (5, 10), 8)?;
    plan.flags = Vec::from_slice(alloc, &[2])?;
    let short = Vec::from_slice(alloc, &[7])?;
    plan.maps.clear();
    plan.maps.push(Some(Map::Bytes(lists_with(alloc, short))))?;
    Ok(plan)
}

/// The plan and this list build a file of `length` bytes, or memory was refused.
fn check_memory(rt: &(impl Abort + Alloc<A = Global>), plan: &Plan, list: &[u16], length: u64) {
    match build(rt.alloc(), plan, &[list]) {
        Ok(table) => assert!(rt; file_len(&table) == length),
        Err(fault) => assert!(rt; fault == BuildFault::Memory),
    }
}

/// For runs in which each allocation in turn is refused: the only error is `Memory`.
#[test]
fn refused_growths_are_want_of_memory(rt: HostRuntime) {
    let Ok(material) = Material::parse("KQvK") else {
        return;
    };
    let Ok(plan) = pairs_and_a_map(rt.alloc(), material) else {
        return;
    };
    let Ok(list) = values(rt.alloc(), &[(&[2, 4], 15666)]) else {
        return;
    };
    check_memory(&rt, &plan, &list, 336);
}
