//! Builds a subtable from its values: a constant one, or one with blocks.
ghost use Rattle.std.specs.Prelude.{◌≡◌, ◌<◌, ◌≤◌, ◌^◌, length, replicate, IfNone, IfOk, IfSome};
ghost use Rattle.std.specs.List.{AllByRecursion};
ghost use Rattle.szg_file.specs.Held.{subtable_of};
ghost use Rattle.szg_file.specs.Values.{constant_value};
ghost use Rattle.szg_subtable.specs.PackedSubtable.{IsInBounds};
ghost use Rattle.szg_subtable.specs.Pairing.{different_values};
ghost use Rattle.szg_build.specs.Plan.{greatest_value};
ghost use Rattle.szg_build.specs.Rule.{constant_for};
ghost use Rattle.szg_build.specs.Tabling.{IsBuiltSub};

use std::alloc::{AllocError, Global};
use szg_block::Sub;
use szg_file::typed::sub_fits;
use szg_subtable::{Choice, Watcher, pack};
use szg_values::Kind;

/// The highest bit of a flags byte, set only in a constant subtable.
pub(crate) const CONSTANT: u8 = 128;

/// Returns the byte of the constant subtable for a list; 0 for an empty list. A list makes a constant subtable in WDL
/// if all its values are equal and below 256, in DTZ if all its values are 0. None for any other list.
pub(crate) fn constant_byte(kind: Kind, values: &[u16]) -> Option<u8>
    ensures same { IfSome result (λ byte. values.now ≡ replicate (length values.now) (constant_value kind byte)) }
    ensures some { IfNone result (0 < length values.now) }
    ensures rule { AllByRecursion (λ v. v ≤ greatest_value kind) values.now → result ≡ constant_for kind values.now }
{
    let constant = match kind {
        Kind::Wdl => values.first().copied().unwrap_or(0),
        Kind::Dtz => 0,
    };
    if constant < 256 && values.iter().all(|value| *value == constant) {
        Some(constant as u8)
    } else {
        None
    }
}

/// Builds the subtable of a list of values, with the plan's flags (0 in WDL). `other_bytes` is as in `pack`.
pub(crate) fn build_sub<V: Watcher>(
    alloc: Global,
    values: &[u16],
    kind: Kind,
    flags: u8,
    choice: Choice,
    other_bytes: Option<u64>,
    watcher: &mut V,
) -> Result<Sub, AllocError>
    requires few { length values.now < 2 ^ 33 }
    requires small { AllByRecursion (λ v. v ≤ greatest_value kind) values.now }
    requires different { length (different_values values.now) ≤ 4095 }
    requires flags { flags < 32 }
    requires choice { IsInBounds choice }
    ensures { IfOk result (λ sub. IsBuiltSub kind flags values.now choice (subtable_of sub)) }
{
    if let Some(byte) = constant_byte(kind, values) {
        return Ok(Sub::Constant {
            flags: flags + CONSTANT,
            byte,
        });
    }
    let sub = pack(alloc, values, flags, choice, other_bytes, watcher)?;
    sub_fits(&sub);
    Ok(sub)
}
