//! Names, men, squares and placements: examples of the format, and each public call once in its normal case.

use crate::helpers::made;
use std::process::Abort;
use szg_values::{
    Color, Kind, MAX_MEN, Man, Material, NameFault, Placement, PlacementFault, Square,
};

/// The text is not a name.
fn check_fault(rt: &impl Abort, text: &str, fault: NameFault) {
    assert!(rt; Material::parse(text).err() == Some(fault), "{text}");
}

#[test]
fn faults_of_names(rt: HostRuntime) {
    check_fault(&rt, "KvKN", NameFault::Sides);
    check_fault(&rt, "KBNRvK", NameFault::Order);
    check_fault(&rt, "KvK", NameFault::Men);
    check_fault(&rt, "KQRBvKNN", NameFault::Men);
    check_fault(&rt, "KNvKx", NameFault::Letter);
    check_fault(&rt, "", NameFault::Letter);
    check_fault(&rt, "KNK", NameFault::Letter);
    check_fault(&rt, "KNv", NameFault::King);
    check_fault(&rt, "KKvK", NameFault::King);
}

#[test]
fn names_and_their_men(rt: HostRuntime) {
    let material = made(&rt, Material::parse("KQRvKBN"));
    assert!(rt; material.men().as_slice() == [6, 5, 4, 14, 11, 10].as_slice());
    assert!(rt; material.name().as_str() == "KQRvKBN" && material.men().len() == MAX_MEN);
    let other = made(&rt, Material::parse("KQRvKBB"));
    assert!(rt; material.is_same(&material.copy()) && !material.is_same(&other));
}

#[test]
fn pawns_and_symmetry(rt: HostRuntime) {
    for (text, lead, other, single, symmetric) in [
        ("KBBvK", 0, 0, false, false),
        ("KQRvKBN", 0, 0, true, false),
        ("KNNvKNN", 0, 0, false, true),
        ("KQvKQ", 0, 0, true, true),
        ("KPvK", 1, 0, true, false),
        ("KQvKP", 1, 0, true, false),
        ("KPPvKP", 1, 2, true, false),
        ("KPPvKPP", 2, 2, false, true),
    ] {
        let material = made(&rt, Material::parse(text));
        let pawns = material.lead_pawns() == lead
            && material.other_pawns() == other
            && material.has_pawns() == (lead > 0);
        assert!(rt; pawns, "{text}");
        let tests = material.single_lead() == single && material.symmetric() == symmetric;
        assert!(rt; tests, "{text}");
    }
}

#[test]
fn squares_and_men(rt: HostRuntime) {
    assert!(rt; Square::new(63).is_some_and(|square| square.number() == 63));
    assert!(rt; Square::new(64) == None && Square::default().number() == 0);
    assert!(rt; Man::Knight.code() == 2 && Man::Knight.letter() == b'N');
    assert!(rt; Man::of_letter(b'N') == Some(Man::Knight) && Man::of_letter(b'v') == None);
    assert!(rt; Kind::Wdl != Kind::Dtz);
}

/// A man on the square with this number, below 64.
fn standing(man: Man, color: Color, number: u8) -> (Man, Color, Square) {
    (man, color, Square::new(number).unwrap_or_default())
}

#[test]
fn placements(rt: HostRuntime) {
    let men = [
        standing(Man::King, Color::White, 1),
        standing(Man::Knight, Color::Black, 0),
        standing(Man::King, Color::Black, 2),
    ];
    let placement = made(&rt, Placement::new(&men, Color::Black));
    assert!(rt; placement.men() == men.as_slice() && placement.mover() == Color::Black);
    assert!(rt; placement.material().name().as_str() == "KNvK");
}

/// These men are no placement.
fn check_refused(rt: &impl Abort, men: &[(Man, Color, Square)], want: PlacementFault) {
    assert!(rt;
        Placement::new(men, Color::White).err() == Some(want),
        "{want}"
    );
}

#[test]
fn refused_placements(rt: HostRuntime) {
    let men = [
        standing(Man::King, Color::White, 1),
        standing(Man::King, Color::Black, 2),
        standing(Man::Pawn, Color::White, 0),
        standing(Man::Knight, Color::Black, 0),
    ];
    let all = men.as_slice();
    check_refused(&rt, &all[1..], PlacementFault::Men);
    check_refused(&rt, all, PlacementFault::SameSquare);
    check_refused(&rt, &all[..3], PlacementFault::PawnRank);
}
