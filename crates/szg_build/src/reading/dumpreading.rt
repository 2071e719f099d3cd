//! Reads a whole dump from a device.
ghost use Rattle.std.specs.Prelude.{◌≡◌, ℕ, ◌+◌, ◌*◌, ◌<◌, ◌≤◌, List, [], length, map, IfOk, IfSome, IsErrOf, IsTrue, OnOk};
ghost use Rattle.szg_io.specs.Device.{HasFailed};
ghost use Rattle.szg_io.specs.Moved.{Takes};
ghost use Rattle.szg_file.specs.Held.{part_of};
ghost use Rattle.szg_build.specs.Dump.{subtable_ids_of};
ghost use Rattle.szg_build.specs.Grammar.{dump_format};
ghost use Rattle.szg_build.specs.Held.{held_of};
ghost use Rattle.szg_build.specs.Lacks.{LacksLines, StopsShort};
ghost use Rattle.szg_build.specs.Lines.{verdict};
ghost use Rattle.szg_build.specs.Packed.{gathered_dump, ArePacked};
ghost use Rattle.szg_build.specs.Reading.{ReadsLines};
ghost use Rattle.szg_build.specs.Shown.{dump_seen, form_of, FollowsLines, TookLines};
ghost use Rattle.szg_build.specs.Wholes.{dump_after_parts};

use crate::dump::{Dump, DumpReadFault};
use crate::places::places;
use crate::reading::gathering::{Gathered, Header, Subs, add_sub, list_dump};
use crate::reading::incoming::Incoming;
use crate::reading::line_parsing::{parse_form, parse_kind, parse_last_bytes, parse_material};
use crate::reading::lines::read_parsed;
use crate::reading::packed_dump::PackedDump;
use crate::reading::read_parts;
use crate::reading::subreading::read_sub;
use crate::table::parts_fit;
use std::alloc::Global;
use szg_file::subtable_sizes;
use szg_io::Input;
use szg_subtable::{Choice, Packing, Unwatched, Watcher};

/// A choice with numbers that no table has, so no list of values is packed.
const LISTED: Choice = Choice::Fixed(Packing {
    block_bits: 0,
    span_bits: 0,
    rounds: 0,
});

/// Reads the subtables after the header lines.
fn read_subs<R: Input, V: Watcher>(
    form: u8,
    header: Header,
    choice: Choice,
    input: &mut R,
    incoming: &mut Incoming,
    watcher: &mut V,
) -> Result<Gathered, DumpReadFault>
    requires { length (held_of incoming.old) ≤ 2 * length (subtable_ids_of header.material header.kind) }
    ensures lines { ReadsLines (dump_after_parts (form_of form) header.material header.kind header.last (map part_of header.parts.items)) gathered_dump incoming.old incoming.new R.Input input.old input.new result }
    ensures held { OnOk result (held_of incoming.new ≡ []) }
    ensures packed { IfOk result (λ gathered. ArePacked gathered.header.kind choice gathered.subs) }
    ensures memory { IsErrOf result DumpReadFault.Memory → LacksLines (dump_after_parts (form_of form) header.material header.kind header.last (map part_of header.parts.items)) 0 incoming.old R.Input input.old input.new }
{
    let alloc = incoming.alloc;
    let parts = header.parts.as_slice();
    parts_fit(parts);
    let sizes = subtable_sizes(&header.material, header.kind, parts);
    let places = places(&header.material, header.kind);
    let count = places.len();
    let mut subs = Subs {
        flags: Vec::new(alloc),
        maps: Vec::new(alloc),
        packed: Vec::new(alloc),
        rest: Vec::new(alloc),
    };
    'each: for s in 0..count {
        let following = 2 * (count - 1 - s) as u64;
        let sub = read_sub(
            form,
            header.kind,
            &sizes,
            s,
            places[s],
            following,
            input,
            incoming,
        )?;
        add_sub(alloc, header.kind, choice, count, sub, &mut subs, watcher)?;
    }
    Ok(Gathered { header, subs })
}

/// Reads the whole text. Packs subtables by `choice` while it reads, up to the first that `add_sub` does not pack. The
/// values of that one and of all later ones are listed.
fn read_gathered<R: Input, V: Watcher>(
    choice: Choice,
    input: &mut R,
    incoming: &mut Incoming,
    watcher: &mut V,
) -> Result<Gathered, DumpReadFault>
    requires { held_of incoming.old ≡ [] }
    ensures lines { ReadsLines dump_format gathered_dump incoming.old incoming.new R.Input input.old input.new result }
    ensures held { OnOk result (held_of incoming.new ≡ []) }
    ensures packed { IfOk result (λ gathered. ArePacked gathered.header.kind choice gathered.subs) }
    ensures memory { IsErrOf result DumpReadFault.Memory → LacksLines dump_format 0 incoming.old R.Input input.old input.new }
{
    let form = read_parsed(parse_form, 4, input, incoming)?;
    let material = read_parsed(parse_material, 3, input, incoming)?;
    let kind = read_parsed(parse_kind, 2, input, incoming)?;
    let due = 2 * places(&material, kind).len() as u64;
    let last = read_parsed(parse_last_bytes, due + 1, input, incoming)?;
    let parts = read_parts(&material, due, input, incoming)?;
    let header = Header {
        material,
        kind,
        parts,
        last,
    };
    read_subs(form, header, choice, input, incoming, watcher)
}

/// Reads the text of a dump, in the form that its first line names. No byte after its last line is read.
///
/// Errors: `Line` has the reason and the number of the first refused line, counted from 1; the number saturates at the
/// greatest 64-bit value. A whole line is read first, at most 80 bytes and its 0A; then the number of its words and its
/// fixed words are checked, and then its values from left to right. `Build`, in form 2 only: no table can be built from
/// the lines so far. It is `Order` after the first line `sub` if the parts are not valid, and `Length` after a line
/// `values` whose number is not the subtable's size. `Device`: the reader failed. `Memory`: memory was refused. After a
/// refused line more bytes may have been read. If memory was refused, bytes were read ahead only up to the length of
/// the shortest dump that begins with the lines read so far. If a dump was read, no byte was read ahead.
pub fn read_dump<R: Input>(alloc: Global, input: &mut R) -> Result<Dump, DumpReadFault>
    // If the bytes to come are known, the result follows from the grammar's verdict on them, however the reader splits
    // them.
    ensures verdict { IfSome (R.coming input.old) (λ bytes. FollowsLines dump_seen (verdict dump_format 0 bytes) result (R.coming input.new)) }
    // For every reader: the bytes that were read, and the number of calls.
    ensures taken { (bytes : List ℕ) × Takes R.Input input.old input.new bytes 1 × TookLines dump_seen (verdict dump_format 0 bytes) result (R.coming input.new) }
    // If memory is refused: the lines that were read are valid, and bytes were read ahead only up to the length of the
    // shortest dump that begins with these lines.
    ensures memory { IsErrOf result DumpReadFault.Memory → (bytes : List ℕ) × Takes R.Input input.old input.new bytes 1 × StopsShort dump_format 0 0 bytes }
    ensures device { IsErrOf result DumpReadFault.Device → HasFailed (R.failures input.old) (R.failures input.new) (R.interrupted input.new) × IsTrue (R.may_fail input.old) }
    ensures quiet { (IsErrOf result DumpReadFault.Device → ⊥) → R.failures input.new ≡ R.failures input.old }
{
    let mut incoming = Incoming::new(alloc);
    let gathered = read_gathered(LISTED, input, &mut incoming, &mut Unwatched)?;
    let dump = list_dump(alloc, gathered)?;
    Ok(dump)
}

/// Reads the text of a dump as `read_dump` does, and packs its subtables by `choice` while it reads. `watcher` sees
/// each subtable up to and including the first that is not packed, and the end if no dump was read.
///
/// It keeps the values of one subtable at a time, and in form 2 none of a constant subtable. There are two exceptions.
/// The listed values of the only subtable of a small table are kept until the table is built. If no table can be built
/// from the values of a subtable, these values and those of all later subtables are kept as lists.
pub fn read_packed<R: Input, V: Watcher>(
    alloc: Global,
    choice: Choice,
    input: &mut R,
    watcher: &mut V,
) -> Result<PackedDump, DumpReadFault>
    ensures choice { IfOk result (λ packed. packed.choice ≡ choice) }
    ensures verdict { IfSome (R.coming input.old) (λ bytes. FollowsLines (λ packed. packed.dump) (verdict dump_format 0 bytes) result (R.coming input.new)) }
    ensures taken { (bytes : List ℕ) × Takes R.Input input.old input.new bytes 1 × TookLines (λ packed. packed.dump) (verdict dump_format 0 bytes) result (R.coming input.new) }
    ensures memory { IsErrOf result DumpReadFault.Memory → (bytes : List ℕ) × Takes R.Input input.old input.new bytes 1 × StopsShort dump_format 0 0 bytes }
    ensures device { IsErrOf result DumpReadFault.Device → HasFailed (R.failures input.old) (R.failures input.new) (R.interrupted input.new) × IsTrue (R.may_fail input.old) }
    ensures quiet { (IsErrOf result DumpReadFault.Device → ⊥) → R.failures input.new ≡ R.failures input.old }
{
    let mut incoming = Incoming::new(alloc);
    match read_gathered(choice, input, &mut incoming, watcher) {
        Ok(gathered) => Ok(PackedDump { gathered, choice }),
        Err(fault) => {
            watcher.end();
            Err(fault)
        }
    }
}
