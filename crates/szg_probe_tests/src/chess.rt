//! Positions: the faults of men and of texts, in their order, with their numbers and names.

use crate::helpers::made;
use std::alloc::Global;
use std::process::Abort;
use szg_chess::{Position, PositionFault};
use szg_values::{Color, Man, Square};

/// The text is refused for the fault with this number and name.
fn check_fault(rt: &(impl Abort + Alloc<A = Global>), number: u8, name: &str, text: &str) {
    let Err(fault) = Position::parse_fen(text) else {
        panic!(rt; "{text}");
    };
    let printed = made(rt, format!(in rt.alloc(); "{fault}"));
    assert!(rt; fault as u8 == number && printed.as_str() == name, "{text}");
}

// Each text has the faults that come after its first one, as far as they go together.
#[test]
fn faults_of_texts(rt: HostRuntime) {
    for (number, name, text) in [
        (1, "Letter", "x/KK5P x KQ e4 0"),
        (2, "Rank", "8/KK5P x KQ e4 0"),
        (3, "Men", "7P/8/8/8/8/8/8/KKKKKK2 x KQ e4 0"),
        (4, "Kings", "7P/8/8/8/8/8/8/KK6 x KQ e4 0"),
        (6, "PawnRank", "7P/8/8/8/8/8/8/Kk6 x KQ e4 0"),
        (7, "SideToMove", "8/8/8/8/8/8/8/Kk6 x KQ e4 0"),
        (8, "Castling", "8/8/8/8/8/8/8/Kk6 w KQ e4 0"),
        (9, "EnPassant", "8/8/8/8/8/8/8/Kk6 w - e4 0"),
        (9, "EnPassant", "8/8/8/8/8/8/8/Kk6 w - e6 0"),
        (10, "OpponentInCheck", "8/8/8/8/8/8/8/Kk6 w - - 0"),
        (11, "Counters", "8/8/8/8/8/8/8/K1k5 w - - 0"),
    ] {
        check_fault(&rt, number, name, text);
    }
}

#[test]
fn two_men_on_one_square(rt: HostRuntime) {
    let square = Square::default();
    let Some(far) = Square::new(63) else {
        panic!(rt; "no square");
    };
    let men = [
        (Man::King, Color::White, square),
        (Man::King, Color::Black, far),
        (Man::Queen, Color::White, square),
    ];
    assert!(rt; Position::new(&men, Color::White, None).err() == Some(PositionFault::SameSquare));
    assert!(rt; PositionFault::SameSquare as u8 == 5);
    assert!(rt; Position::new(&men[..2], Color::White, None).is_ok());
}
