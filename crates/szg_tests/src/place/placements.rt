//! The placements of indexes: the examples of the format, and indexes of a table converted to placements and back.
//! What a table opened by its front returns for placements.

use crate::files::{accepted, made, material, table_of};
use crate::standing::placement;
use std::alloc::Global;
use std::process::Abort;
use szg_file::{FetchFault, FrontTable, Table, open_front};
use szg_fixtures::Fixture;
use szg_io::Bytes;
use szg_place::{
    FrontBytes, PlaceFault, ProbeFault, Unprobed, index_of, locate, placement_of, probe_class,
    probe_dtz, probe_number, probe_wdl,
};
use szg_values::Color::{Black, White};
use szg_values::{Color, Kind, PlacedMen, Placement};

/// The placement of an index that a part's side has.
fn found(
    rt: &impl Abort,
    table: &Table,
    part: u8,
    side: u8,
    index: u64,
) -> Result<Placement, PlaceFault> {
    match table.size(part, side) {
        Some(size) if index < size => placement_of(table, part, side, index),
        _ => panic!(rt; "no index: {part} {side} {index}"),
    }
}

/// The placement of the index has these men, in the order of the table's slots.
fn check_placement(
    rt: &impl Abort,
    table: &Table,
    (part, side, index): (u8, u8, u64),
    mover: Color,
    men: &str,
) {
    let found = found(rt, table, part, side, index);
    assert!(rt; found == Ok(placement(rt, mover, men)), "{men}");
}

#[test]
fn placements_of_indexes(rt: HostRuntime) {
    let queen = table_of(&rt, szg_fixtures::kqvk_wdl_unpaired(rt.alloc()));
    check_placement(&rt, &queen, (0, 0, 11711), White, "Kd1 Qh8 ka8");
    check_placement(&rt, &queen, (0, 1, 11711), Black, "Kd1 Qh8 ka8");
    let pawn = table_of(&rt, szg_fixtures::kpvk_wdl_constant(rt.alloc()));
    check_placement(&rt, &pawn, (3, 0, 21564), White, "Pd2 Kd1 kd8");
    let pawns = table_of(&rt, szg_fixtures::kppvk_wdl_constant(rt.alloc()));
    check_placement(&rt, &pawns, (0, 0, 891622), White, "Pa2 Ph2 Ke1 ke8");
}

#[test]
fn indexes_without_a_placement(rt: HostRuntime) {
    let irregular = table_of(&rt, szg_fixtures::kbbvk_wdl_bishop_leads(rt.alloc()));
    assert!(rt; found(&rt, &irregular, 0, 0, 0).err() == Some(PlaceFault::Irregular));
    let wrong = table_of(&rt, szg_fixtures::kpvkp_dtz_constant(rt.alloc(), 0x81));
    assert!(rt; found(&rt, &wrong, 0, 0, 0).err() == Some(PlaceFault::WrongSide));
}

/// The placement of an index has that index.
fn check_return(rt: &impl Abort, table: &Table, part: u8, side: u8, index: u64) {
    let Ok(placement) = found(rt, table, part, side, index) else {
        panic!(rt; "no placement: {part} {side} {index}");
    };
    let spot = index_of(table, &placement).map(|spot| (spot.part, spot.side, spot.index));
    assert!(rt; spot == Ok((part, side, index)), "at {part} {side} {index}");
}

/// The distance between two samples.
const STRIDE: u64 = 9973;

/// Samples of a part's side 0, spread over all its indexes, have placements with the same indexes.
fn check_samples(rt: &impl Abort, table: &Table, part: u8) {
    let Some(size) = table.size(part, 0) else {
        panic!(rt; "no part: {part}");
    };
    for number in 0..size / STRIDE {
        check_return(rt, table, part, 0, number * STRIDE);
    }
}

#[test]
fn indexes_there_and_back(rt: HostRuntime) {
    let table = table_of(&rt, szg_fixtures::kqvk_wdl_unpaired(rt.alloc()));
    for index in 0..31332u64 {
        check_return(&rt, &table, 0, 0, index);
    }
    let kings = table_of(&rt, szg_fixtures::kbbvk_wdl_kings_lead(rt.alloc()));
    check_samples(&rt, &kings, 0);
    let two = table_of(&rt, szg_fixtures::kppvk_wdl_constant(rt.alloc()));
    check_samples(&rt, &two, 2);
    let both = table_of(&rt, szg_fixtures::kpvkp_wdl_constant(rt.alloc()));
    check_samples(&rt, &both, 3);
}

/// Opens a file by its front.
fn by_front(rt: &(impl Abort + Alloc<A = Global>), file: &Fixture) -> FrontTable {
    let mut input = Bytes::new(&file.bytes);
    let size = file.bytes.len() as u64;
    match open_front(rt.alloc(), material(rt, file), file.kind, size, &mut input) {
        Ok((front, _)) => front,
        Err(_) => panic!(rt; "it is not opened"),
    }
}

/// By the front the index and, in WDL, the class are those of the table in memory.
fn check_wdl(rt: &impl Abort, table: &Table, values: FrontBytes, placement: &Placement) {
    let men = PlacedMen::of(placement);
    assert!(rt; locate(values.front.index(), &men) == index_of(table, placement));
    assert!(rt; table.kind() == Kind::Wdl && values.front.index().kind() == Kind::Wdl);
    let want = probe_wdl(table, placement).map_err(Unprobed::Place);
    assert!(rt; probe_class(values, &men) == want);
}

/// By the front the index and, in DTZ, the distance for a class are those of the table in memory.
fn check_dtz(rt: &impl Abort, table: &Table, values: FrontBytes, placement: &Placement, class: i8) {
    let men = PlacedMen::of(placement);
    assert!(rt; locate(values.front.index(), &men) == index_of(table, placement));
    assert!(rt; table.kind() == Kind::Dtz && values.front.index().kind() == Kind::Dtz);
    assert!(rt; -2 <= class && class <= 2);
    let want = match probe_dtz(table, placement, class) {
        Ok(number) => Ok(number),
        Err(ProbeFault::Place(fault)) => Err(Unprobed::Place(fault)),
        Err(ProbeFault::Map(fault)) => Err(Unprobed::Map(fault)),
    };
    assert!(rt; probe_number(values, &men, class) == want);
}

#[test]
fn outcomes_by_a_front(rt: HostRuntime) {
    let file = made(&rt, szg_fixtures::kqvk_wdl_unpaired(rt.alloc()));
    let table = accepted(&rt, &file, &[]);
    let front = by_front(&rt, &file);
    let values = FrontBytes {
        front: &front,
        bytes: &file.bytes,
    };
    for (mover, men) in [
        (White, "Ke8 Qa1 kh1"),
        (Black, "Ke8 Qa1 kh1"),
        (White, "Kd4 Qh8 kg7"),
        (White, "Ke8 Na1 kh1"),
    ] {
        check_wdl(&rt, &table, values, &placement(&rt, mover, men));
    }
}

#[test]
fn distances_by_a_front(rt: HostRuntime) {
    let file = made(&rt, szg_fixtures::kpvk_dtz_mapped(rt.alloc()));
    let table = accepted(&rt, &file, &[]);
    let front = by_front(&rt, &file);
    let values = FrontBytes {
        front: &front,
        bytes: &file.bytes,
    };
    for (mover, men, class) in [
        (White, "Ke1 Pa2 ke8", 2),
        (White, "Ke1 Pb2 ke8", 2),
        (White, "Ke1 Pa2 ke8", -1),
        (Black, "Ke1 Pa2 ke8", 2),
    ] {
        check_dtz(&rt, &table, values, &placement(&rt, mover, men), class);
    }
}

/// The bytes that are lent end before the value's block.
#[test]
fn a_front_with_too_few_bytes(rt: HostRuntime) {
    let file = made(&rt, szg_fixtures::kqvk_wdl_unpaired(rt.alloc()));
    let front = by_front(&rt, &file);
    let placement = placement(&rt, White, "Ke8 Qa1 kh1");
    let men = PlacedMen::of(&placement);
    assert!(rt; front.index().kind() == Kind::Wdl);
    let none = FrontBytes {
        front: &front,
        bytes: &[],
    };
    assert!(rt; probe_class(none, &men) == Err(Unprobed::Fetch(FetchFault::Source)));
    let whole = FrontBytes {
        front: &front,
        bytes: &file.bytes,
    };
    assert!(rt; probe_class(whole, &men) == Ok(Some(2)));
}

/// A table and its index return this spot for these men.
fn check_spot(
    rt: &impl Abort,
    table: &Table,
    mover: Color,
    men: &str,
    want: Result<(u8, u8, u64), PlaceFault>,
) {
    let placement = placement(rt, mover, men);
    let found = index_of(table, &placement);
    let spot = found.map(|spot| (spot.part, spot.side, spot.index));
    assert!(rt; spot == want, "{men}");
    assert!(rt; locate(table.index(), &PlacedMen::of(&placement)) == found);
}

#[test]
fn placements_by_the_groups_of_each_side(rt: HostRuntime) {
    let table = table_of(&rt, szg_fixtures::knvk_wdl_constant(rt.alloc()));
    let other = Err(PlaceFault::OtherMaterial);
    check_spot(&rt, &table, White, "Ka2 Na1 kh8", Ok((0, 0, 61)));
    check_spot(&rt, &table, Black, "Kd4 Nh8 kg7", Ok((0, 1, 31331)));
    check_spot(&rt, &table, White, "Kb1 Qa1 kc1", other);
    let table = table_of(&rt, szg_fixtures::kppvk_wdl_constant(rt.alloc()));
    let want = Ok((0, 0, 891622));
    check_spot(&rt, &table, White, "Pa2 Ph2 Ke1 ke8", want);
    check_spot(&rt, &table, Black, "pa7 ph7 ke8 Ke1", want);
}
