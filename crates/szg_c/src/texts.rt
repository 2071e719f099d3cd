//! The version, and the names of statuses and reasons. Each call writes a text as C's `snprintf` does.
ghost use Rattle.std.specs.Prelude.{◌≡◌, length};
ghost use Rattle.szg_c.specs.Texts.{printed, reason_text, status_text, version_text};

use szg_c_positions::status::{
    BAD_BLOCK, CHANGED, CLOSED, CONTRADICTION, DONE, DRAW, EN_PASSANT, IN_CHECK, IRREGULAR,
    KINGS_TOUCH, MAN, MEMORY, MEN, MISSING, NAME, NO_CLASS, OTHER_MATERIAL, OUTSIDE_MAP, PAWN_RANK,
    RANGE, REFUSED, SAME_SQUARE, WRONG_SIDE,
};

/// Writes the library's version, that of `szg.h`; returns its length.
///
/// As much of it is written as leaves room for a zero byte, and then this byte. The rest of the buffer stays, and so
/// does an empty buffer.
#[unsafe(no_mangle)]
pub extern "C" fn szg_version(text: &mut [u8]) -> usize
    ensures length { result ≡ length version_text }
    ensures text { text.new ≡ printed version_text text.old }
{
    print("2.0.0", text)
}

/// Writes the name of a status, as `szg_version` writes; returns its length. A number that is no status has the empty
/// name.
#[unsafe(no_mangle)]
pub extern "C" fn szg_status_text(status: u32, text: &mut [u8]) -> usize
    ensures length { result ≡ length (status_text status) }
    ensures text { text.new ≡ printed (status_text status) text.old }
{
    print(status_name(status), text)
}

/// Writes the name of a reason by its number, as the program prints it and as `szg_version` writes; returns its length.
/// A number that is no reason's has the empty name.
#[unsafe(no_mangle)]
pub extern "C" fn szg_reason_text(reason: u32, text: &mut [u8]) -> usize
    ensures length { result ≡ length (reason_text reason) }
    ensures text { text.new ≡ printed (reason_text reason) text.old }
{
    print(reason_name(reason), text)
}

/// Writes as much of a name as leaves room for a zero byte, and this byte; returns the length of the whole name.
pub(crate) fn print(name: &str, text: &mut [u8]) -> usize
    ensures length { result ≡ length name.now }
    ensures text { text.new ≡ printed name.now text.old }
{
    let name = name.as_bytes();
    if !text.is_empty() {
        let count = name.len().min(text.len() - 1);
        text[..count].copy_from_slice(&name[..count]);
        text[count] = 0;
    }
    name.len()
}

#[tactic(auto, unfolding(crate::specs::Texts::status_text))]
fn status_name(status: u32) -> &'static str
    ensures { result.now ≡ status_text status }
{
    match status {
        DONE => "Done",
        NAME => "Name",
        REFUSED => "Refused",
        MEMORY => "Memory",
        RANGE => "Range",
        CLOSED => "Closed",
        MAN => "Man",
        MEN => "Men",
        SAME_SQUARE => "SameSquare",
        PAWN_RANK => "PawnRank",
        OTHER_MATERIAL => "OtherMaterial",
        IRREGULAR => "Irregular",
        KINGS_TOUCH => "KingsTouch",
        WRONG_SIDE => "WrongSide",
        NO_CLASS => "NoClass",
        DRAW => "Draw",
        OUTSIDE_MAP => "OutsideMap",
        CHANGED => "Changed",
        BAD_BLOCK => "BadBlock",
        EN_PASSANT => "EnPassant",
        IN_CHECK => "InCheck",
        MISSING => "Missing",
        CONTRADICTION => "Contradiction",
        _ => "",
    }
}

#[tactic(auto, unfolding(crate::specs::Texts::reason_text))]
fn reason_name(number: u32) -> &'static str
    ensures { result.now ≡ reason_text number }
{
    match number {
        1 => "Truncated",
        2 => "Magic",
        3 => "SplitBit",
        4 => "PawnBit",
        5 => "Pieces",
        6 => "PawnsFirst",
        7 => "OrderPlace",
        8 => "BlockBits",
        9 => "SpanBits",
        10 => "CodeLengths",
        11 => "LowestOrder",
        12 => "TooFull",
        13 => "Child",
        14 => "Cycle",
        15 => "LongSymbol",
        16 => "ShortTotal",
        17 => "SparseEntry",
        18 => "Word",
        _ => "",
    }
}
