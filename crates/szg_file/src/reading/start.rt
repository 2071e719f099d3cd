ghost use Rattle.std.specs.Prelude.{◌≡◌, ◌<◌, OnOk};
ghost use Rattle.szg_values.specs.Material.{has_pawns};
ghost use Rattle.szg_file.specs.Contents.{has_bit};
ghost use Rattle.szg_file.specs.File.{magic_of, split_agrees, agrees};
ghost use Rattle.szg_file.specs.Reading.{Reading, start_field};
ghost use Rattle.szg_file.specs.Grown.{HasCounted};

use crate::fault::{ReadFault, Reason};
use crate::lookup::has_bit;
use crate::reading::state::ReaderState;
use crate::reading::taking::{read_byte, take_field};
use szg_io::Input;
use szg_values::{Kind, Material};

/// Returns the first four bytes of a file of a kind.
pub(crate) fn magic(kind: Kind) -> [u8; 4]
    ensures { result ≡ magic_of kind }
{
    match kind {
        Kind::Wdl => [0x71, 0xE8, 0x23, 0x5D],
        Kind::Dtz => [0xD7, 0x66, 0x0C, 0xA5],
    }
}

/// Returns whether bit 1 of byte 4 is set exactly if the material has pawns.
pub(crate) fn pawns_as(material: &Material, byte: u8) -> bool
    ensures { result ≡ agrees (has_bit 1 byte) (has_pawns material.now) }
{
    has_bit(1, byte) == material.has_pawns()
}

/// Returns whether bit 0 of byte 4 of a WDL file is set exactly if the material is not symmetric. True for a DTZ file.
pub(crate) fn splits_as(material: &Material, kind: Kind, byte: u8) -> bool
    ensures { result ≡ split_agrees material.now kind byte }
{
    match kind {
        Kind::Wdl => has_bit(0, byte) != material.symmetric(),
        Kind::Dtz => true,
    }
}

/// Reads the magic and byte 4, each with its checks; returns byte 4.
pub(crate) fn read_start<R: Input>(
    material: &Material,
    kind: Kind,
    input: &mut R,
    state: &mut ReaderState,
) -> Result<u8, ReadFault>
    requires place { state.old.place ≡ 0 }
    ensures start { Reading (start_field material.now kind) (λ byte. byte) state.old state.new R.Input input.old input.new result }
    ensures place { OnOk result (state.new.place ≡ 5) }
    ensures growth { OnOk result (state.new.growth ≡ state.old.growth) }
    ensures grown { OnOk result (HasCounted state.old state.new 0 0) }
{
    let mut chunk = [0; 4];
    take_field(input, state, &mut chunk)?;
    if chunk != magic(kind) {
        let (place, reason) = (0, Reason::Magic);
        return Err(ReadFault::Refused { place, reason });
    }
    let byte = read_byte(input, state)?;
    if !splits_as(material, kind, byte) {
        let (place, reason) = (4, Reason::SplitBit);
        return Err(ReadFault::Refused { place, reason });
    }
    if !pawns_as(material, byte) {
        let (place, reason) = (4, Reason::PawnBit);
        return Err(ReadFault::Refused { place, reason });
    }
    Ok(byte)
}
