//! The men of a placement as a file codes them: which colour is the first side of the table's name (before the `v`),
//! and each man's code and square.

ghost use Rattle.std.specs.Prelude.{◌≡◌, true, false, IfNone, IfSome, if◌then◌else◌};
ghost use Rattle.szg_values.specs.Men.{is_color};
ghost use Rattle.szg_place.specs.Normal.{is_exchanged, exchanged_color};
ghost use Rattle.szg_place.specs.Slots.{piece_from};
ghost use Rattle.szg_place.specs.Spots.{is_of_material};

use szg_count::MaterialInfo;
use szg_file::TableIndex;
use szg_values::{Color, Man, PlacedMen, Square};

/// A man as a file codes it, and its square.
#[derive(Clone, Copy, Debug, Default, PartialEq, Eq)]
pub struct CodedMan {
    /// The code of the man's kind, 1 to 6, plus 8 if it belongs to the name's second side.
    pub code: u8,
    /// The square, 0 to 63.
    pub square: u8,
}

/// Returns whether colours are exchanged. If both sides have the same men, they are exchanged when Black is to move;
/// otherwise, when White does not have the men of the name's first side. None if the men are not the material's. No
/// branch depends on whether they are exchanged, since a processor could not predict it.
#[inline(always)]
pub(crate) fn exchange_of(material: &MaterialInfo, placement: &PlacedMen<'_>) -> Option<bool>
    ensures other { IfNone result (is_of_material material.now placement.now ≡ false) }
    ensures men { IfSome result (λ exchanged. is_of_material material.now placement.now ≡ true) }
    ensures exchanged { IfSome result (λ exchanged. exchanged ≡ is_exchanged material.now placement.now) }
{
    // for proofs alone: the placement has no fault, and the material is the men of a name
    let _ = placement.men();
    let _ = material.material();
    let key = placement.key();
    let own = material.key();
    if key != material.key_if(key != own) {
        return None;
    }
    let symmetric_with_black = material.symmetric() & (placement.mover() == Color::Black);
    Some((key != own) | symmetric_with_black)
}

/// Returns whether a placement has a table's men, with colours exchanged or not. It compares one number.
#[inline(always)]
pub fn has_men_of(index: &TableIndex, placement: &PlacedMen<'_>) -> bool
    ensures { result ≡ is_of_material index.now.material placement.now }
{
    exchange_of(index.material_info(), placement).is_some()
}

/// Returns the side to move as the table numbers sides: 0 if it is the name's first side, else 1.
pub(crate) fn moving_side(exchanged: bool, mover: Color) -> u8
    ensures { result ≡ (if is_color Color.White (exchanged_color exchanged mover) then 0 else 1) }
{
    mover as u8 ^ u8::from(exchanged)
}

/// Returns a man as the file codes it, with colours exchanged if `exchanged` and its rank flipped if `flips`. Colours are
/// numbered 0 and 1, so an exclusive or exchanges them; one with 56 flips a rank. No branch is needed.
pub(crate) fn coded_man(man: &(Man, Color, Square), exchanged: bool, flips: bool) -> CodedMan
    ensures { result ≡ piece_from exchanged flips man.now }
{
    CodedMan {
        code: man.0.code() + 8 * (man.1 as u8 ^ u8::from(exchanged)),
        square: man.2.number() ^ 56 * u8::from(flips),
    }
}
