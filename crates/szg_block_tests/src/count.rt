//! Binomial coefficients, groups, sizes and sets: the examples of the format, as tables, and the order of sets.

use crate::helpers::made;
use arrayvec::ArrayVec;
use std::process::Abort;
use szg_count::{Groups, Order, OrderFault, choose, lead_ways, unrank_subset};
use szg_values::Material;

fn material(rt: &impl Abort, name: &str) -> Material {
    made(rt, Material::parse(name))
}

/// The groups of a part with these men, by the positions of the lead group and of the other pawns.
fn groups(
    rt: &impl Abort,
    name: &str,
    part: u8,
    places: (u8, Option<u8>),
    used: &[u8],
) -> Result<Groups, OrderFault> {
    let material = material(rt, name);
    let parts = if material.has_pawns() { 4 } else { 1 };
    assert!(rt; part < parts);
    let mut men = ArrayVec::new();
    assert!(rt; men.try_extend_from_slice(used).is_ok());
    let (lead, other) = places;
    Groups::of(&material, part, &Order { lead, other, men })
}

#[test]
fn binomials(rt: HostRuntime) {
    assert!(rt; choose(48, 4) == 194580 && choose(64, 6) == 74974368 && choose(3, 5) == 0);
}

/// With b1 and d1 occupied, c1 and e1 are free squares number 1 and 2, and g8 and h8 are the last two of 62.
#[test]
fn places_of_sets(rt: HostRuntime) {
    assert!(rt; 2 < choose(3, 2));
    assert!(rt; unrank_subset(3, 2, 2).as_slice() == [2, 1].as_slice());
    assert!(rt; 1890 < choose(62, 2));
    assert!(rt; unrank_subset(62, 2, 1890).as_slice() == [61, 60].as_slice());
    assert!(rt; 74974367 < choose(64, 6));
    let last = unrank_subset(64, 6, 74974367);
    assert!(rt; last.as_slice() == [63, 62, 61, 60, 59, 58].as_slice());
}

/// The set as a bit mask.
fn mask_of(set: &[u8]) -> u32 {
    let mut mask = 0;
    for number in set {
        mask |= 1u32.wrapping_shl(u32::from(*number));
    }
    mask
}

/// Sets of equal size are ordered by their masks.
#[test]
fn sets_in_the_order_of_masks(rt: HostRuntime) {
    for size in 0..=6u8 {
        let mut rank = 0u64;
        for mask in 0..1024u32 {
            if mask.count_ones() == u32::from(size) {
                assert!(rt; rank < choose(64, u64::from(size)));
                let set = unrank_subset(64, size, rank);
                assert!(rt; mask_of(set.as_slice()) == mask, "{mask}");
                rank = rank.wrapping_add(1);
            }
        }
    }
}

/// These are the numbers of sets of lead pawns in the four parts.
fn check_lead_ways(rt: &impl Abort, name: &str, want: [u64; 4]) {
    let material = material(rt, name);
    assert!(rt; material.has_pawns());
    for part in 0..4u8 {
        let ways = lead_ways(&material, part);
        assert!(rt; ways == want[usize::from(part)], "{name} {part}");
    }
}

#[test]
fn lead_pawns_by_file(rt: HostRuntime) {
    check_lead_ways(&rt, "KPPPvK", [5201, 2645, 953, 125]);
    check_lead_ways(&rt, "KPPPPvK", [70315, 25375, 5491, 295]);
}

/// The groups of part 0 have these factors.
fn check_factors(rt: &impl Abort, name: &str, places: (u8, Option<u8>), men: &[u8], want: &[u64]) {
    let Ok(groups) = groups(rt, name, 0, places, men) else {
        panic!(rt; "refused: {name}");
    };
    assert!(rt; groups.count() == want.len(), "{name}");
    for (i, factor) in want.iter().enumerate() {
        assert!(rt; groups.group(i).factor == *factor, "{name} {i}");
    }
}

#[test]
fn factors(rt: HostRuntime) {
    check_factors(&rt, "KBBvK", (0, None), &[6, 14, 3, 3], &[1, 462]);
    check_factors(&rt, "KBBvK", (1, None), &[6, 14, 3, 3], &[1891, 1]);
    check_factors(
        &rt,
        "KPvKP",
        (0, Some(1)),
        &[1, 9, 6, 14],
        &[1, 6, 282, 17484],
    );
    check_factors(
        &rt,
        "KPvKP",
        (3, Some(0)),
        &[1, 9, 6, 14],
        &[177754, 1, 47, 2914],
    );
}

/// The order of part 0 is refused.
fn check_refused(
    rt: &impl Abort,
    name: &str,
    places: (u8, Option<u8>),
    men: &[u8],
    want: OrderFault,
) {
    let fault = groups(rt, name, 0, places, men).err();
    assert!(rt; fault == Some(want), "{name}");
}

#[test]
fn refusals(rt: HostRuntime) {
    check_refused(&rt, "KNvK", (0, None), &[6, 2, 6], OrderFault::Pieces);
    check_refused(&rt, "KPvK", (0, None), &[6, 1, 14], OrderFault::PawnsFirst);
    check_refused(&rt, "KNvK", (1, None), &[6, 2, 14], OrderFault::OrderPlace);
    check_refused(&rt, "KPvK", (3, None), &[1, 6, 14], OrderFault::OrderPlace);
    check_refused(
        &rt,
        "KPvKP",
        (0, Some(0)),
        &[1, 9, 6, 14],
        OrderFault::OrderPlace,
    );
    check_refused(
        &rt,
        "KPvKP",
        (0, None),
        &[1, 9, 6, 14],
        OrderFault::OrderPlace,
    );
    check_refused(
        &rt,
        "KPvK",
        (0, Some(1)),
        &[1, 6, 14],
        OrderFault::OrderPlace,
    );
    check_refused(
        &rt,
        "KPPvKP",
        (0, Some(1)),
        &[1, 1, 9, 6, 14],
        OrderFault::PawnsFirst,
    );
}

/// A part has `want` positions.
fn check_size(
    rt: &impl Abort,
    name: &str,
    part: u8,
    places: (u8, Option<u8>),
    men: &[u8],
    want: u64,
) {
    let size = groups(rt, name, part, places, men).map(|groups| groups.size());
    assert!(rt; size == Ok(want), "{name} {part}");
}

#[test]
fn sizes(rt: HostRuntime) {
    check_size(&rt, "KQvK", 0, (0, None), &[6, 5, 14], 31332);
    check_size(&rt, "KBBvK", 0, (0, None), &[6, 14, 3, 3], 873642);
    check_size(&rt, "KQRvK", 0, (0, None), &[6, 5, 14, 4], 1911252);
    check_size(&rt, "KPvK", 0, (0, None), &[1, 6, 14], 23436);
    check_size(&rt, "KPvK", 3, (0, None), &[1, 6, 14], 23436);
    check_size(&rt, "KPvKP", 2, (0, Some(1)), &[1, 9, 6, 14], 1066524);
    check_size(&rt, "KPPvK", 0, (0, None), &[1, 1, 6, 14], 953064);
    check_size(
        &rt,
        "KPPPPvK",
        0,
        (0, None),
        &[1, 1, 1, 1, 6, 14],
        248915100,
    );
    check_size(
        &rt,
        "KPPvKPP",
        0,
        (0, Some(1)),
        &[1, 1, 9, 9, 6, 14],
        923302800,
    );
    check_size(
        &rt,
        "KRRvKRR",
        0,
        (0, None),
        &[6, 14, 4, 4, 12, 12],
        1546346340,
    );
    check_size(
        &rt,
        "KQRBvKN",
        0,
        (0, None),
        &[6, 5, 14, 4, 3, 10],
        6765832080,
    );
    check_size(&rt, "KQvKP", 0, (0, None), &[9, 6, 5, 14], 1429596);
    check_size(&rt, "KPPvKP", 0, (0, Some(1)), &[9, 1, 1, 6, 14], 23738760);
}
