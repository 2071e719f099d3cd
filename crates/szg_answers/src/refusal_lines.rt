//! The line of a refusal.
ghost use Rattle.std.specs.Prelude.{◌≡◌, IfOk, string_bytes};
ghost use Rattle.szg_answers.specs.RefusalLines.{numbered_line, refusal_line, refusal_word, worded_line};

use crate::refusal::Refusal;
use std::alloc::{AllocError, Global};
use szg_archive::reason_word;
use szg_build::{BuildFault, DumpFault};
use szg_file::MapFault;
use szg_named::name_word;
use szg_place::PlaceFault;
use szg_values::PlacementFault;

/// Returns the line of a refusal.
pub(crate) fn refusal_line(alloc: Global, refusal: Refusal) -> Result<String, AllocError>
    ensures { IfOk result (λ line. string_bytes line ≡ refusal_line refusal) }
{
    let word = refusal_word(refusal);
    match refusal {
        Refusal::Name(_) => worded_line(alloc, "name", word),
        Refusal::Men(None) => String::from_str(alloc, "refused man\n"),
        Refusal::Men(Some(_)) => worded_line(alloc, "placement", word),
        Refusal::At(place, _) => numbered_line(alloc, "at", place, word),
        Refusal::Line(line, _) => numbered_line(alloc, "line", line, word),
        Refusal::Build(_) => worded_line(alloc, "build", word),
        Refusal::Part => String::from_str(alloc, "refused part\n"),
        Refusal::Index => String::from_str(alloc, "refused index\n"),
        Refusal::Block(number, offset) => {
            format!(in alloc; "refused block {number} at {offset}\n")
        }
        Refusal::Place(_) => worded_line(alloc, "place", word),
        Refusal::Map(_) => worded_line(alloc, "map", word),
    }
}

/// A line of what is refused and of the word that says why.
fn worded_line(alloc: Global, what: &str, word: &str) -> Result<String, AllocError>
    ensures { IfOk result (λ line. string_bytes line ≡ worded_line what.now word.now) }
{
    format!(in alloc; "refused {what}: {word}\n")
}

/// The same with a number: of a byte or of a line.
fn numbered_line(alloc: Global, what: &str, number: u64, word: &str) -> Result<String, AllocError>
    ensures { IfOk result (λ line. string_bytes line ≡ numbered_line what.now number word.now) }
{
    format!(in alloc; "refused {what} {number}: {word}\n")
}

/// Why something is refused, in a word; none where the line says all.
fn refusal_word(refusal: Refusal) -> &'static str
    ensures { result.now ≡ refusal_word refusal }
{
    match refusal {
        Refusal::Name(fault) => name_word(fault),
        Refusal::At(_, reason) => reason_word(reason),
        Refusal::Men(Some(PlacementFault::Men)) => "Men",
        Refusal::Men(Some(PlacementFault::SameSquare)) => "SameSquare",
        Refusal::Men(Some(PlacementFault::PawnRank)) => "PawnRank",
        Refusal::Line(_, DumpFault::Version) => "Version",
        Refusal::Line(_, DumpFault::Field) => "Field",
        Refusal::Line(_, DumpFault::Number) => "Number",
        Refusal::Line(_, DumpFault::Hex) => "Hex",
        Refusal::Line(_, DumpFault::Name) => "Name",
        Refusal::Line(_, DumpFault::Ended) => "Ended",
        Refusal::Line(_, DumpFault::Run) => "Run",
        Refusal::Build(BuildFault::Order) => "Order",
        Refusal::Build(BuildFault::Bits) => "Bits",
        Refusal::Build(BuildFault::Rounds) => "Rounds",
        Refusal::Build(BuildFault::Count) => "Count",
        Refusal::Build(BuildFault::Length(_)) => "Length",
        Refusal::Build(BuildFault::Value(_)) => "Value",
        Refusal::Build(BuildFault::TooManyValues(_)) => "TooManyValues",
        Refusal::Build(BuildFault::Map) => "Map",
        Refusal::Build(BuildFault::Memory) => "Memory",
        Refusal::Place(PlaceFault::OtherMaterial) => "OtherMaterial",
        Refusal::Place(PlaceFault::Irregular) => "Irregular",
        Refusal::Place(PlaceFault::KingsTouch) => "KingsTouch",
        Refusal::Place(PlaceFault::WrongSide) => "WrongSide",
        Refusal::Map(MapFault::Draw) => "Draw",
        Refusal::Map(MapFault::OutsideMap) => "OutsideMap",
        Refusal::Men(None) | Refusal::Part | Refusal::Index | Refusal::Block(..) => "",
    }
}
