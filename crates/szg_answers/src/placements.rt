//! The lines for placements: the index of one, the class or number that a table has for it, and the placement of an
//! index.

ghost use Rattle.std.specs.Prelude.{◌≡◌, Some, IfOk, IsErrOf, IsNone, string_bytes};
ghost use Rattle.szg_place.specs.Spots.{place_fault, spot_of};
ghost use Rattle.szg_place.specs.Tables.{numbering_in};
ghost use Rattle.szg_answers.specs.Answers.{IsAnswer, IsOutcomeLine, class_line, part_letter, placement_line, spot_line};
ghost use Rattle.szg_answers.specs.Refusals.{outcome_refusal, place_refusal, placement_refusal_at};
ghost use Rattle.szg_answers.specs.declared.refusal.Refusal.{Refusal};

use crate::lookups::check_index;
use crate::men::add_men;
use crate::refusal::{Refusal, Stop};
use std::alloc::{AllocError, Global};
use szg_file::{Table, TableIndex};
use szg_place::{ProbeFault, Spot, locate, placement_of, probe_dtz, probe_wdl};
use szg_values::{Color, Kind, PlacedMen, Placement};
use szg_words::{Action, AskedClass, Request};

/// Returns the line of a placement's part, side and index.
pub(crate) fn index_line<F>(
    alloc: Global,
    index: &TableIndex,
    placement: &Placement,
) -> Result<String, Stop<F>>
    ensures stated { IfOk result (λ line. IsNone (place_fault (numbering_in index.now) placement.now) × (string_bytes line ≡ spot_line (spot_of (numbering_in index.now) placement.now))) }
    ensures refused { (refusal : Refusal) → IsErrOf result (Stop.Refused refusal) → place_refusal (place_fault (numbering_in index.now) placement.now) ≡ Some refusal }
    ensures device { IsErrOf result Stop.Device → ⊥ }
{
    let spot = locate(index, &PlacedMen::of(placement)).map_err(Refusal::Place)?;
    Ok(spot_line(alloc, spot)?)
}

/// A spot's line.
pub(crate) fn spot_line(alloc: Global, spot: Spot) -> Result<String, AllocError>
    ensures { IfOk result (λ line. string_bytes line ≡ spot_line spot) }
{
    let letter = part_letter(spot.part);
    format!(in alloc; "part {letter} side {} index {}\n", spot.side, spot.index)
}

/// A part's letter.
pub(crate) fn part_letter(part: u8) -> &'static str
    ensures { result.now ≡ part_letter part }
{
    match part {
        0 => "a",
        1 => "b",
        2 => "c",
        _ => "d",
    }
}

/// Returns the line of a placement's value: of a WDL table its class, of a DTZ table its number in a class.
pub(crate) fn outcome_answer(
    alloc: Global,
    table: &Table,
    placement: &Placement,
    class: AskedClass,
) -> Result<String, Stop>
    ensures stated { IfOk result (λ line. IsOutcomeLine table.now.contents.kind table.now.contents placement.now class (string_bytes line)) }
    ensures refused { (refusal : Refusal) → IsErrOf result (Stop.Refused refusal) → outcome_refusal table.now.contents.kind table.now.contents placement.now class ≡ Some refusal }
    ensures device { IsErrOf result Stop.Device → ⊥ }
{
    match table.kind() {
        Kind::Wdl => {
            let class = probe_wdl(table, placement).map_err(Refusal::Place)?;
            Ok(class_line(alloc, class)?)
        }
        Kind::Dtz => match probe_dtz(table, placement, class.number()) {
            Ok(number) => Ok(format!(in alloc; "{number}\n")?),
            Err(ProbeFault::Place(fault)) => Err(Stop::Refused(Refusal::Place(fault))),
            Err(ProbeFault::Map(fault)) => Err(Stop::Refused(Refusal::Map(fault))),
        },
    }
}

/// A class's line.
pub(crate) fn class_line(alloc: Global, class: Option<i8>) -> Result<String, AllocError>
    ensures { IfOk result (λ line. string_bytes line ≡ class_line class) }
{
    match class {
        Some(class) => format!(in alloc; "{class}\n"),
        None => format!(in alloc; "none\n"),
    }
}

/// The line of the placement of an index.
pub(crate) fn placement_answer(
    alloc: Global,
    table: &Table,
    request: &Request,
    index: u64,
) -> Result<String, Stop>
    ensures stated { IfOk result (λ line. IsAnswer (Action.Placement index) request.now.part request.now.side table.now (string_bytes line)) }
    ensures refused { (refusal : Refusal) → IsErrOf result (Stop.Refused refusal) → placement_refusal_at table.now.contents request.now.part request.now.side index ≡ Some refusal }
    ensures device { IsErrOf result Stop.Device → ⊥ }
{
    check_index(table, request, index)?;
    let placement = placement_of(table, request.part, request.side, index).map_err(Refusal::Place)?;
    Ok(placement_line(alloc, &placement)?)
}

/// A placement's line: who moves, and the men.
fn placement_line(alloc: Global, placement: &Placement) -> Result<String, AllocError>
    ensures { IfOk result (λ line. string_bytes line ≡ placement_line placement.now) }
{
    let mover = match placement.mover() {
        Color::White => "w",
        Color::Black => "b",
    };
    let mut men = String::new(alloc);
    add_men(placement, &mut men)?;
    format!(in alloc; "{mover}{men}\n")
}
