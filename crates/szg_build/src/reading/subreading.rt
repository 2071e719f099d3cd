//! Reads a dump's subtables from a device.
ghost use Rattle.std.specs.Prelude.{◌≡◌, ◌+◌, ◌<◌, ◌≤◌, ◌^◌, length, option_map, IfOk, IsErrOf, OnOk};
ghost use Rattle.szg_build.specs.Grammar.{demand, flags_line, length_check, order_check, subtable_format};
ghost use Rattle.szg_build.specs.Held.{held_of};
ghost use Rattle.szg_build.specs.Lacks.{LacksLines};
ghost use Rattle.szg_build.specs.Reading.{ReadsLines};
ghost use Rattle.szg_build.specs.Shown.{form_of};
ghost use Rattle.szg_build.specs.Wholes.{subtable_shown};
ghost use Rattle.szg_build.specs.declared.BuildFault.TheVariants.{Length, Order};

use crate::BuildFault;
use crate::dump::DumpReadFault;
use crate::reading::incoming::Incoming;
use crate::reading::line_parsing::{GREATEST_COUNT, check_subtable_line};
use crate::reading::lines::{read_number, read_parsed};
use crate::reading::values::Values;
use crate::reading::{read_map, read_values};
use arrayvec::ArrayVec;
use szg_file::Map;
use szg_io::Input;
use szg_values::Kind;

/// The content of a subtable in the text. In WDL the flags are 0 and there is no map.
#[derive(Drop)]
pub(crate) struct SubText {
    pub flags: u8,
    pub map: Option<Map>,
    pub values: Values,
}

/// Reads the flags of a subtable. In WDL there is no line for them, and they are 0.
fn read_flags<R: Input>(
    kind: Kind,
    following: u64,
    input: &mut R,
    incoming: &mut Incoming,
) -> Result<u8, DumpReadFault>
    requires { length (held_of incoming.old) ≤ following }
    ensures lines { ReadsLines (flags_line kind) (λ flags. flags) incoming.old incoming.new R.Input input.old input.new result }
    ensures following { OnOk result (length (held_of incoming.new) ≤ following) }
    ensures memory { IsErrOf result DumpReadFault.Memory → ⊥ }
    ensures small { IfOk result (λ flags. flags < 32) }
{
    match kind {
        Kind::Wdl => Ok(0),
        Kind::Dtz => {
            let flags = read_number(b"flags ", 31, following, input, incoming)?;
            Ok(flags as u8)
        }
    }
}

/// Returns whether subtable `s` may have `count` values. In form 2 `count` must be the subtable's size, if the sizes
/// are known.
fn may_have(form: u8, sizes: &Option<ArrayVec<u64, 8>>, s: usize, count: u64) -> bool
    ensures { length_check (form_of form) (option_map (λ list. list.items) sizes.now) s count ≡ demand result (Length s) }
{
    if form != 2 {
        return true;
    }
    let Some(sizes) = sizes else {
        return true;
    };
    match sizes.as_slice().get(s) {
        Some(size) => *size == count,
        None => count == 0,
    }
}

/// Returns whether a subtable may follow the parts. In form 2 the parts must be valid, so that the sizes are known.
fn may_follow(form: u8, sizes: &Option<ArrayVec<u64, 8>>) -> bool
    ensures { order_check (form_of form) (option_map (λ list. list.items) sizes.now) ≡ demand result Order }
{
    form != 2 || sizes.is_some()
}

/// Reads subtable `s`, beginning with the line that names its part and side.
pub(crate) fn read_sub<R: Input>(
    form: u8,
    kind: Kind,
    sizes: &Option<ArrayVec<u64, 8>>,
    s: usize,
    place: (u8, u8),
    following: u64,
    input: &mut R,
    incoming: &mut Incoming,
) -> Result<SubText, DumpReadFault>
    requires part { place.0 < 4 }
    requires side { place.1 < 2 }
    requires few { following < 2 ^ 30 }
    requires held { length (held_of incoming.old) ≤ following + 2 }
    ensures lines { ReadsLines (subtable_format (form_of form) kind (option_map (λ list. list.items) sizes.now) s place) subtable_shown incoming.old incoming.new R.Input input.old input.new result }
    ensures following { OnOk result (length (held_of incoming.new) ≤ following) }
    ensures small { IfOk result (λ sub. sub.flags < 32) }
    ensures memory { IsErrOf result DumpReadFault.Memory → LacksLines (subtable_format (form_of form) kind (option_map (λ list. list.items) sizes.now) s place) following incoming.old R.Input input.old input.new }
{
    read_parsed(
        |text| check_subtable_line(place, text),
        following + 1,
        input,
        incoming,
    )?;
    if !may_follow(form, sizes) {
        return Err(DumpReadFault::Build(BuildFault::Order));
    }
    let flags = read_flags(kind, following + 1, input, incoming)?;
    let map = read_map(flags, following + 1, input, incoming)?;
    let count = read_number(b"values ", GREATEST_COUNT, following, input, incoming)?;
    if !may_have(form, sizes, s, count) {
        return Err(DumpReadFault::Build(BuildFault::Length(s)));
    }
    let values = read_values(form, count, following, input, incoming)?;
    Ok(SubText { flags, map, values })
}
