//! Tables that are verified.

use crate::helpers::{made, position};
use std::alloc::{AllocError, Global};
use std::process::Abort;
use szg_file::{Table, read_bytes};
use szg_fixtures::{
    Fixture, kbvk_wdl_constant, knvk_dtz_constant, knvk_wdl_constant, knvk_wdl_with_a_win,
    kpvk_wdl_constant,
};
use szg_place::index_of;
use szg_tables::{MissingReason, VerifyFault, verify_tables};
use szg_values::{Kind, Material};
use szg_verify::{Cell, Condition, Walked, Watcher};

/// Sees nothing.
#[derive(Drop)]
struct Blind;

impl Watcher for Blind {
    fn see_progress(&mut self, _material: &Material, _done: u64, _to: u64, _positions: u64) {}

    fn end(&mut self) {}
}

fn table(rt: &(impl Abort + Alloc<A = Global>), file: Result<Fixture, AllocError>) -> Table {
    let file = made(rt, file);
    let material = made(rt, Material::parse(file.name));
    made(rt, read_bytes(rt.alloc(), material, file.kind, &file.bytes))
}

/// What the verification of a material's tables returns, with room for few positions.
fn verified(rt: &impl Abort, tables: &[Table], name: &str) -> Result<Walked, VerifyFault> {
    let materials = [made(rt, Material::parse(name))];
    let mut cells = [Cell::default(); 1024];
    verify_tables(tables, &materials, &mut cells, &mut Blind)
}

/// Keeps what it sees, ten times at most: whether the material is that of king and bishop against king, the numbers that were
/// checked, the range's end and the positions. Counts it, and the walks that ended.
#[derive(Drop)]
struct Seen {
    progress: [(bool, u64, u64, u64); 10],
    count: usize,
    ended: usize,
}

impl Watcher for Seen {
    fn see_progress(&mut self, material: &Material, done: u64, to: u64, positions: u64) {
        if self.count < 10 {
            let bishop = material.name().as_str() == "KBvK";
            self.progress[self.count] = (bishop, done, to, positions);
        }
        self.count = self.count.saturating_add(1);
    }

    fn end(&mut self) {
        self.ended = self.ended.saturating_add(1);
    }
}

/// The numbers that were checked, of all, and the positions among them, of a king and a knight and of a king and a bishop against
/// a king.
const PROGRESS: [(bool, u64, u64, u64); 10] = [
    (false, 0, 262_144, 0),
    (false, 65_536, 262_144, 24_168),
    (false, 131_072, 262_144, 47_830),
    (false, 196_608, 262_144, 76_640),
    (false, 262_144, 262_144, 107_360),
    (true, 0, 262_144, 0),
    (true, 65_536, 262_144, 23_435),
    (true, 131_072, 262_144, 46_432),
    (true, 196_608, 262_144, 74_497),
    (true, 262_144, 262_144, 104_307),
];

// Neither a knight nor a bishop can win. Another program counted the positions: White's king on a1 to d4, each side to
// move, and the other side not in check. The last of the three men is on two ranks more at each step.
#[test]
fn drawn_materials_pass(rt: HostRuntime) {
    let knight = made(&rt, Material::parse("KNvK"));
    let bishop = made(&rt, Material::parse("KBvK"));
    let tables = [
        table(&rt, knvk_wdl_constant(rt.alloc())),
        table(&rt, kbvk_wdl_constant(rt.alloc())),
    ];
    let mut seen = Seen {
        progress: [(false, 0, 0, 0); 10],
        count: 0,
        ended: 0,
    };
    let mut cells = [Cell::default(); 1024];
    let found = verify_tables(&tables, &[knight, bishop], &mut cells, &mut seen);
    let walked = made(&rt, found);
    assert!(rt; walked.refused.is_none());
    assert_eq!(rt; walked.positions, 107_360 + 104_307);
    assert!(rt; seen.count == 10 && seen.ended == 2 && seen.progress == PROGRESS);
}

/// White doesn't win. All men are on one diagonal, so no other position that is checked is an image of this one.
const DRAWN: &str = "8/8/5N2/8/3K4/8/1k6/8 w - -";

/// A table that stores a win for the drawn position, and draws for all others.
fn table_with_a_win(rt: &(impl Abort + Alloc<A = Global>)) -> Table {
    let Some(placement) = position(rt, DRAWN).placement() else {
        panic!(rt; "bare kings");
    };
    let drawn = table(rt, knvk_wdl_constant(rt.alloc()));
    let spot = made(rt, index_of(&drawn, &placement));
    table(rt, knvk_wdl_with_a_win(rt.alloc(), spot.index))
}

#[test]
fn a_wrong_class_is_refused(rt: HostRuntime) {
    let tables = [
        table_with_a_win(&rt),
        table(&rt, knvk_dtz_constant(rt.alloc())),
    ];
    let Some(refused) = made(&rt, verified(&rt, &tables, "KNvK")).refused else {
        panic!(rt; "nothing is refused");
    };
    assert_eq!(rt; refused.position.fen().as_str(), DRAWN);
    assert!(rt; refused.condition == Condition::NoMoveKeeps);
}

/// The tables of king and knight against king lack the one of this kind.
fn check_missing(rt: &impl Abort, tables: &[Table], missing: Kind) {
    let Err(VerifyFault::Missing(found)) = verified(rt, tables, "KNvK") else {
        panic!(rt; "nothing is missing");
    };
    assert!(rt; found.kind == missing && found.reason == MissingReason::Table);
}

// A win needs its distance.
#[test]
fn what_is_missing_is_an_error(rt: HostRuntime) {
    check_missing(&rt, &[], Kind::Wdl);
    check_missing(&rt, &[table_with_a_win(&rt)], Kind::Dtz);
    let tables = [table(&rt, kpvk_wdl_constant(rt.alloc()))];
    assert!(rt; matches!(verified(&rt, &tables, "KPvK"), Err(VerifyFault::NotClosed)));
}
