//! The examples of the README, word for word, with sample tables.

use crate::files::{made, table_of};
use crate::standing::placement;
use std::alloc::Global;
use szg_file::{Table, read};
use szg_io::Std;
use szg_place::probe_dtz;
use szg_values::Color::White;
use szg_values::{Kind, Material, Placement};

/// Returns value `i` of part a, side 0, of the WDL table of this name. None if `bytes` does not begin with its file,
/// or if the side has no such value.
pub fn value(alloc: Global, name: &str, bytes: &[u8], i: u64) -> Option<u16> {
    let material = Material::parse(name).ok()?;
    let table = read(alloc, material, Kind::Wdl, &mut Std::new(bytes)).ok()?;
    if i < table.size(0, 0)? {
        Some(table.get(0, 0, i))
    } else {
        None
    }
}

/// Returns the DTZ in plies that a table stores for a placement, for its class (2 win, -2 loss).
pub fn number(table: &Table, placement: &Placement, class: i8) -> Option<u32> {
    if table.kind() != Kind::Dtz || class < -2 || 2 < class {
        return None;
    }
    probe_dtz(table, placement, class).ok()
}

#[test]
fn examples_of_the_readme(rt: HostRuntime) {
    let queen = made(&rt, szg_fixtures::kqvk_wdl_unpaired(rt.alloc()));
    for (i, want) in [(31331, Some(4)), (31332, None)] {
        let found = value(rt.alloc(), queen.name, &queen.bytes, i);
        assert!(rt; found == want, "at {i}");
    }
    let pawn = table_of(&rt, szg_fixtures::kpvk_dtz_mapped(rt.alloc()));
    let men = placement(&rt, White, "Ke1 Pa2 ke8");
    for (class, want) in [(2, Some(14)), (-1, None), (3, None)] {
        let found = number(&pawn, &men, class);
        assert!(rt; found == want, "{class}");
    }
}
