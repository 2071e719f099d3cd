//! Placements and what tables return for them: the examples of the format.

use crate::files::{accepted, made, table_of};
use crate::standing::placement;
use std::alloc::Global;
use std::process::Abort;
use szg_file::{MapFault, Table};
use szg_fixtures::Fixture;
use szg_place::{PlaceFault, ProbeFault, index_of, probe_dtz, probe_wdl};
use szg_values::Color::{Black, White};
use szg_values::{Color, Kind};

/// The table has these men at this part, side and index.
fn check_spot(
    rt: &impl Abort,
    table: &Table,
    mover: Color,
    men: &str,
    want: Result<(u8, u8, u64), PlaceFault>,
) {
    let found = index_of(table, &placement(rt, mover, men));
    let spot = found.map(|spot| (spot.part, spot.side, spot.index));
    assert!(rt; spot == want, "{men}");
}

/// With White to move the table has these men at this index of side 0; with Black to move, at the same index of
/// side 1.
fn check_both(rt: &impl Abort, table: &Table, men: &str, index: u64) {
    check_spot(rt, table, White, men, Ok((0, 0, index)));
    check_spot(rt, table, Black, men, Ok((0, 1, index)));
}

#[test]
fn three_lead_men(rt: HostRuntime) {
    let table = table_of(&rt, szg_fixtures::knvk_wdl_constant(rt.alloc()));
    check_both(&rt, &table, "Kb1 Na1 kc1", 0);
    check_both(&rt, &table, "Ka2 Na1 kh8", 61);
    check_both(&rt, &table, "Ke8 Na1 kh1", 11711);
    check_both(&rt, &table, "Ka1 Na2 kc1", 23450);
    check_both(&rt, &table, "Ka1 Nb2 kc1", 30381);
    check_both(&rt, &table, "Kd4 Nh8 kg7", 31331);
    check_spot(
        &rt,
        &table,
        White,
        "Kb1 Qa1 kc1",
        Err(PlaceFault::OtherMaterial),
    );
}

#[test]
fn two_lead_kings(rt: HostRuntime) {
    let table = table_of(&rt, szg_fixtures::kbbvk_wdl_kings_lead(rt.alloc()));
    check_spot(&rt, &table, White, "Kb1 kd1 Bc1 Be1", Ok((0, 0, 924)));
    check_spot(&rt, &table, White, "Kd4 kh8 Ba1 Bb1", Ok((0, 0, 461)));
    check_spot(&rt, &table, White, "Kb1 Bg8 Bh8 kd1", Ok((0, 0, 873180)));
    check_spot(&rt, &table, Black, "kb1 bg8 bh8 Kd1", Ok((0, 0, 873180)));
    check_spot(
        &rt,
        &table,
        White,
        "Kb1 Bg8 Bh8 kb2",
        Err(PlaceFault::KingsTouch),
    );
}

#[test]
fn a_lead_man_with_a_twin(rt: HostRuntime) {
    let table = table_of(&rt, szg_fixtures::kbbvk_wdl_bishop_leads(rt.alloc()));
    for men in ["Kb1 Bg8 Bh8 kd1", "Kb1 Bg8 Bh8 kb2"] {
        check_spot(&rt, &table, White, men, Err(PlaceFault::Irregular));
    }
}

/// Each row: the side to move, the men, and their part and index of side 0.
fn check_row(
    rt: &(impl Abort + Alloc<A = Global>),
    file: &Fixture,
    rows: &[(Color, &str, u8, u64)],
) {
    let table = accepted(rt, file, &[]);
    for (mover, men, part, index) in rows {
        check_spot(rt, &table, *mover, men, Ok((*part, 0, *index)));
    }
}

#[test]
fn lead_pawns(rt: HostRuntime) {
    let one = made(&rt, szg_fixtures::kpvk_wdl_constant(rt.alloc()));
    check_row(&rt, &one, &[(White, "Pe2 Ke1 ke8", 3, 21564)]);
    let two = made(&rt, szg_fixtures::kppvk_wdl_constant(rt.alloc()));
    check_row(
        &rt,
        &two,
        &[
            (White, "Pa2 Ph2 Ke1 ke8", 0, 891622),
            (White, "Pa2 Ph2 Ke1 ke2", 0, 157294),
        ],
    );
    let four = made(&rt, szg_fixtures::kppppvk_wdl_constant(rt.alloc()));
    check_row(
        &rt,
        &four,
        &[(White, "Pa2 Pb2 Pc2 Pd2 Ke1 ke8", 0, 232327569)],
    );
    let both = made(&rt, szg_fixtures::kpvkp_wdl_constant(rt.alloc()));
    check_row(
        &rt,
        &both,
        &[
            (White, "Pe4 pd5 Ke1 ke8", 3, 980114),
            (Black, "Pd4 pe5 Ke1 ke8", 3, 980114),
        ],
    );
}

#[test]
fn six_men(rt: HostRuntime) {
    let six = made(&rt, szg_fixtures::kqrbvkn_wdl_constant(rt.alloc()));
    let men = "Kd4 Qh8 kg7 Rg8 Bf8 ne8";
    check_row(&rt, &six, &[(White, men, 0, 6765832079)]);
}

#[test]
fn outcomes_of_placements(rt: HostRuntime) {
    let table = table_of(&rt, szg_fixtures::kqvk_wdl_unpaired(rt.alloc()));
    assert!(rt; table.kind() == Kind::Wdl);
    for (mover, class) in [(White, 2), (Black, 0)] {
        let found = probe_wdl(&table, &placement(&rt, mover, "Ke8 Qa1 kh1"));
        assert!(rt; found == Ok(Some(class)));
    }
}

/// The distance that the table returns for these men and this class is `want`.
fn check_distance(
    rt: &impl Abort,
    table: &Table,
    (mover, men): (Color, &str),
    class: i8,
    want: Result<u32, ProbeFault>,
) {
    let placement = placement(rt, mover, men);
    assert!(rt; table.kind() == Kind::Dtz && -2 <= class && class <= 2);
    assert!(rt; probe_dtz(table, &placement, class) == want, "{men}");
}

#[test]
fn distances_of_placements(rt: HostRuntime) {
    let table = table_of(&rt, szg_fixtures::kpvk_dtz_mapped(rt.alloc()));
    let outside = Err(ProbeFault::Map(MapFault::OutsideMap));
    let draw = Err(ProbeFault::Map(MapFault::Draw));
    let side = Err(ProbeFault::Place(PlaceFault::WrongSide));
    check_distance(&rt, &table, (White, "Ke1 Pa2 ke8"), 2, Ok(14));
    check_distance(&rt, &table, (White, "Ke1 Pb2 ke8"), 2, Ok(600));
    check_distance(&rt, &table, (White, "Ke1 Pc2 ke8"), 2, Ok(0));
    check_distance(&rt, &table, (White, "Ke1 Pa2 ke8"), -1, outside);
    check_distance(&rt, &table, (White, "Ke1 Pa2 ke8"), 0, draw);
    check_distance(&rt, &table, (Black, "Ke1 Pa2 ke8"), 2, side);
}
