//! Full probing, over a list of positions with their stored classes.

use crate::helpers::position;
use std::process::Abort;
use szg_game::Class;
use szg_probe::{ListedClasses, NotListed, probe_wdl};

// The black pawn on d4 may capture on e3, after which White has the class that is listed.
fn probed(rt: &impl Abort, fen: &str, stored: Class, captured: Class) -> Option<Class> {
    let entries = [
        (position(rt, fen), stored),
        (position(rt, "8/8/8/8/8/4p3/8/K1k5 w - -"), captured),
    ];
    let mut tables = ListedClasses::new(&entries);
    probe_wdl(&mut tables, &position(rt, fen)).ok()
}

#[test]
fn a_capture_en_passant_counts(rt: HostRuntime) {
    let fen = "8/8/8/8/3pP3/8/8/K1k5 b - e3";
    assert!(rt; probed(&rt, fen, Class::Draw, Class::Loss) == Some(Class::Win));
    assert!(rt; probed(&rt, fen, Class::Loss, Class::Draw) == Some(Class::Draw));
    assert!(rt; probed(&rt, fen, Class::Draw, Class::Win) == Some(Class::Draw));
    assert!(rt;
        probed(&rt, "8/8/8/8/3pP3/8/8/K1k5 b - -", Class::Draw, Class::Loss) == Some(Class::Draw)
    );
}

// The black king on h1 has no move, and the black pawn none but the capture en passant: without the right it is
// stalemate, and with it the capture alone counts.
#[test]
fn a_capture_en_passant_may_be_the_only_move(rt: HostRuntime) {
    let fen = "8/8/8/8/4Pp2/5N2/8/5K1k b - e3";
    let entries = [
        (position(&rt, fen), Class::Draw),
        (position(&rt, "8/8/8/8/8/4pN2/8/5K1k w - -"), Class::Win),
    ];
    let mut tables = ListedClasses::new(&entries);
    assert!(rt; probe_wdl(&mut tables, &position(&rt, fen)) == Ok(Class::Loss));
    assert!(rt;
        probe_wdl(&mut tables, &position(&rt, "8/8/8/8/4Pp2/5N2/8/5K1k b - -")) == Ok(Class::Draw)
    );
}

#[test]
fn two_kings_need_no_table(rt: HostRuntime) {
    let mut tables = ListedClasses::new(&[]);
    assert!(rt;
        probe_wdl(&mut tables, &position(&rt, "8/8/8/8/8/8/8/K1k5 w - -")) == Ok(Class::Draw)
    );
    assert!(rt;
        probe_wdl(&mut tables, &position(&rt, "8/8/8/8/8/8/8/KQ2k3 b - -")) == Err(NotListed)
    );
    let captured = position(&rt, "8/8/8/8/8/8/6Q1/K6k b - -");
    assert!(rt; probe_wdl(&mut tables, &captured) == Err(NotListed));
    let entries = [(captured, Class::Loss)];
    assert!(rt;
        probe_wdl(
            &mut ListedClasses::new(&entries),
            &position(&rt, "8/8/8/8/8/8/6Q1/K6k b - -")
        ) == Ok(Class::Draw)
    );
}
