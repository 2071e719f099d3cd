//! The texts and numbers of faults.

use crate::files::made;
use std::alloc::Global;
use std::fmt::Display;
use std::process::Abort;
use szg_build::{BuildFault, DumpFault};

/// The fault's text is this one.
fn check_text<F: Display>(rt: &(impl Abort + Alloc<A = Global>), fault: &F, text: &str) {
    let found = made(rt, format!(in rt.alloc(); "{fault}"));
    assert!(rt; found.as_str() == text, "{text}");
}

#[test]
fn faults_of_building(rt: HostRuntime) {
    for (fault, text) in [
        (BuildFault::Order, "Order"),
        (BuildFault::Bits, "Bits"),
        (BuildFault::Rounds, "Rounds"),
        (BuildFault::Count, "Count"),
        (BuildFault::Length(3), "Length"),
        (BuildFault::Value(3), "Value"),
        (BuildFault::TooManyValues(3), "TooManyValues"),
        (BuildFault::Map, "Map"),
        (BuildFault::Memory, "Memory"),
    ] {
        check_text(&rt, &fault, text);
    }
}

#[test]
fn faults_of_dumps(rt: HostRuntime) {
    for (fault, number, text) in [
        (DumpFault::Version, 1, "Version"),
        (DumpFault::Field, 2, "Field"),
        (DumpFault::Number, 3, "Number"),
        (DumpFault::Hex, 4, "Hex"),
        (DumpFault::Name, 5, "Name"),
        (DumpFault::Ended, 6, "Ended"),
        (DumpFault::Run, 7, "Run"),
    ] {
        assert!(rt; fault as u8 == number, "{text}");
        check_text(&rt, &fault, text);
    }
}
