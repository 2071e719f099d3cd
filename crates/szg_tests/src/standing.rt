//! Placements as tests write them: `Kb1 Na1 kc1`, with White's men in capitals.

use arrayvec::ArrayVec;
use std::process::Abort;
use szg_values::{Color, MAX_MEN, Man, Placement, Square};

/// Parses a word like `Kb1`.
fn man_of(word: &[u8]) -> Option<(Man, Color, Square)> {
    let [letter, file, rank] = word else {
        return None;
    };
    let number = rank
        .wrapping_sub(b'1')
        .wrapping_mul(8)
        .wrapping_add(file.wrapping_sub(b'a'));
    let square = Square::new(number)?;
    let man = Man::of_letter(letter & 0x5f)?;
    let color = if letter & 0x20 == 0 {
        Color::White
    } else {
        Color::Black
    };
    Some((man, color, square))
}

/// The placement of some words, separated by spaces.
pub fn placement(rt: &impl Abort, mover: Color, words: &str) -> Placement {
    let mut men: ArrayVec<_, MAX_MEN> = ArrayVec::new();
    for word in words.as_bytes().chunks(4) {
        let man = man_of(word.get(..3).unwrap_or_default());
        let pushed = man.is_some_and(|man| men.try_push(man).is_ok());
        assert!(rt; pushed, "{words}");
    }
    match Placement::new(men.as_slice(), mover) {
        Ok(placement) => placement,
        Err(_) => panic!(rt; "no placement: {words}"),
    }
}
