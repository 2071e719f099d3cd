//! A set of mapped tables: each block is verified once, and each look at a value finds the same.

use crate::helpers::{made, position};
use std::alloc::Global;
use std::process::Abort;
use szg_fixtures::Fixture;
use szg_game::Class;
use szg_probe::probe_wdl;
use szg_tables::{MappedSet, MappedTable, MissingReason};
use szg_values::Material;

// their indexes are 3, 40 and 31000: two in the first block, and one in another
const ODD: &str = "8/8/8/8/8/8/8/QK3k2 w - -";

const EVEN: &str = "8/8/2k5/8/8/8/8/QK6 w - -";

const LATE: &str = "8/8/8/8/3K4/8/1Q6/5k2 w - -";

/// A set of a table whose file is in memory.
fn set_of<'a>(rt: &(impl Abort + Alloc<A = Global>), file: &'a Fixture) -> MappedSet<'a> {
    let material = made(rt, Material::parse(file.name));
    let table = MappedTable::open(rt.alloc(), material, file.kind, &file.bytes);
    let mut set = MappedSet::of(Vec::new(rt.alloc()));
    made(rt, set.push(made(rt, table)));
    set
}

/// The class that a probe finds, or the number and the offset of the bad block.
fn found(rt: &impl Abort, set: &mut MappedSet<'_>, fen: &str) -> Result<Class, (u32, u64)> {
    match probe_wdl(set, &position(rt, fen)) {
        Ok(class) => Ok(class),
        Err(missing) => match missing.reason {
            MissingReason::Block { number, offset } => Err((number, offset)),
            _ => panic!(rt; "another reason"),
        },
    }
}

/// The values are 2, 4, 2, 4 ..
#[test]
fn each_look_finds_the_same(rt: HostRuntime) {
    let file = made(&rt, szg_fixtures::kqvk_wdl_unpaired(rt.alloc()));
    let mut set = set_of(&rt, &file);
    for _ in 0..3 {
        assert!(rt; found(&rt, &mut set, ODD) == Ok(Class::Win));
        assert!(rt; found(&rt, &mut set, EVEN) == Ok(Class::Draw));
        assert!(rt; found(&rt, &mut set, LATE) == Ok(Class::Draw));
    }
}

#[test]
fn a_bad_block_is_refused_each_time(rt: HostRuntime) {
    let good = made(&rt, szg_fixtures::kqvk_wdl_unpaired(rt.alloc()));
    let file = made(
        &rt,
        good.changed(rt.alloc(), &[(38, 0), (39, 1), (36, 0x9b)]),
    );
    let mut set = set_of(&rt, &file);
    for _ in 0..3 {
        assert!(rt; found(&rt, &mut set, ODD) == Err((0, 320)));
        assert!(rt; found(&rt, &mut set, EVEN) == Err((0, 320)));
        assert!(rt; found(&rt, &mut set, LATE).is_ok());
    }
}

/// Block 121, which has 256 values from 30976 on, is named, and not the first one.
#[test]
fn a_later_bad_block_is_named(rt: HostRuntime) {
    let good = made(&rt, szg_fixtures::kqvk_wdl_unpaired(rt.alloc()));
    let file = made(
        &rt,
        good.changed(rt.alloc(), &[(280, 0), (281, 1), (36, 0x9b)]),
    );
    let mut set = set_of(&rt, &file);
    assert!(rt; found(&rt, &mut set, LATE) == Err((121, 320 + 121 * 32)));
    assert!(rt; found(&rt, &mut set, ODD) == Ok(Class::Win));
}
