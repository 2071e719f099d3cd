//! The texts and numbers of faults.

use crate::files::made;
use std::alloc::Global;
use std::fmt::Display;
use std::process::Abort;
use szg_count::OrderFault;
use szg_file::{MapFault, ReadFault, Reason, WriteFault};
use szg_place::{PlaceFault, ProbeFault};
use szg_values::{NameFault, PlacementFault};

/// The fault's text is this one.
fn check_text<F: Display>(rt: &(impl Abort + Alloc<A = Global>), fault: &F, text: &str) {
    let found = made(rt, format!(in rt.alloc(); "{fault}"));
    assert!(rt; found.as_str() == text, "{text}");
}

#[test]
fn faults_of_names_and_placements(rt: HostRuntime) {
    check_text(&rt, &NameFault::Letter, "Letter");
    check_text(&rt, &NameFault::King, "King");
    check_text(&rt, &NameFault::Order, "Order");
    check_text(&rt, &NameFault::Sides, "Sides");
    check_text(&rt, &NameFault::Men, "Men");
    check_text(&rt, &PlacementFault::Men, "Men");
    check_text(&rt, &PlacementFault::SameSquare, "SameSquare");
    check_text(&rt, &PlacementFault::PawnRank, "PawnRank");
}

#[test]
fn faults_of_orders_and_maps(rt: HostRuntime) {
    check_text(&rt, &OrderFault::Pieces, "Pieces");
    check_text(&rt, &OrderFault::PawnsFirst, "PawnsFirst");
    check_text(&rt, &OrderFault::OrderPlace, "OrderPlace");
    check_text(&rt, &MapFault::Draw, "Draw");
    check_text(&rt, &MapFault::OutsideMap, "OutsideMap");
}

#[test]
fn faults_of_reading_and_writing(rt: HostRuntime) {
    let refused = ReadFault::Refused {
        place: 4,
        reason: Reason::Magic,
    };
    check_text(&rt, &refused, "Refused");
    check_text(&rt, &ReadFault::Device, "Device");
    check_text(&rt, &ReadFault::Memory, "Memory");
    check_text(&rt, &WriteFault { out: 7 }, "WriteFault")
}

/// A fault of a look-up has the text of what it carries, whatever carries it.
#[test]
fn faults_of_look_ups(rt: HostRuntime) {
    for (fault, text) in [
        (PlaceFault::OtherMaterial, "OtherMaterial"),
        (PlaceFault::Irregular, "Irregular"),
        (PlaceFault::KingsTouch, "KingsTouch"),
        (PlaceFault::WrongSide, "WrongSide"),
    ] {
        let probe = ProbeFault::Place(fault);
        check_text(&rt, &fault, text);
        check_text(&rt, &probe, text);
    }
    for (fault, text) in [
        (MapFault::Draw, "Draw"),
        (MapFault::OutsideMap, "OutsideMap"),
    ] {
        let probe = ProbeFault::Map(fault);
        check_text(&rt, &probe, text);
    }
}

/// The reason has this number and this text.
fn check_reason(rt: &(impl Abort + Alloc<A = Global>), reason: Reason, number: u8, text: &str) {
    assert!(rt; reason as u8 == number, "{text}");
    check_text(rt, &reason, text);
}

#[test]
fn reasons_of_refused_files(rt: HostRuntime) {
    check_reason(&rt, Reason::Truncated, 1, "Truncated");
    check_reason(&rt, Reason::Magic, 2, "Magic");
    check_reason(&rt, Reason::SplitBit, 3, "SplitBit");
    check_reason(&rt, Reason::PawnBit, 4, "PawnBit");
    check_reason(&rt, Reason::Pieces, 5, "Pieces");
    check_reason(&rt, Reason::PawnsFirst, 6, "PawnsFirst");
    check_reason(&rt, Reason::OrderPlace, 7, "OrderPlace");
    check_reason(&rt, Reason::BlockBits, 8, "BlockBits");
    check_reason(&rt, Reason::SpanBits, 9, "SpanBits");
    check_reason(&rt, Reason::CodeLengths, 10, "CodeLengths");
    check_reason(&rt, Reason::LowestOrder, 11, "LowestOrder");
    check_reason(&rt, Reason::TooFull, 12, "TooFull");
    check_reason(&rt, Reason::Child, 13, "Child");
    check_reason(&rt, Reason::Cycle, 14, "Cycle");
    check_reason(&rt, Reason::LongSymbol, 15, "LongSymbol");
    check_reason(&rt, Reason::ShortTotal, 16, "ShortTotal");
    check_reason(&rt, Reason::SparseEntry, 17, "SparseEntry");
    check_reason(&rt, Reason::Word, 18, "Word");
}
