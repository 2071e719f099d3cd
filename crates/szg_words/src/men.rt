//! Men as words: a letter, upper case for White, a file and a rank, as `Ke1` and `pa7`.

ghost use Rattle.std.specs.Prelude.{◌≡◌, ◌≤◌, IsTrue, length};
ghost use Rattle.std.specs.List.{list_all};
ghost use Rattle.szg_words.specs.Men.{is_man_word, parsed_man, parsed_placement, parsed_square, placed_men_in, placed_man_of};

use arrayvec::ArrayVec;
use szg_values::{Color, MAX_MEN, Man, Placement, PlacementFault, Square};

/// Parses the placement of these words, with this mover.
///
/// Errors: None if a word isn't a man's letter, a file and a rank; else why the men make no placement.
#[tactic(auto, unfolding(crate::specs::Men::parsed_placement))]
pub fn placement_in(words: &[&str], mover: Color) -> Result<Placement, Option<PlacementFault>>
    ensures { result ≡ parsed_placement words.now mover }
{
    if !are_man_words(words) {
        return Err(None);
    }
    if words.len() > MAX_MEN {
        return Err(Some(PlacementFault::Men));
    }
    let men = men_in(words);
    Placement::new(men.as_slice(), mover).map_err(Some)
}

/// Returns whether each word is a man's.
fn are_man_words(words: &[&str]) -> bool
    ensures { result ≡ list_all (λ word. is_man_word word.now) words.now }
{
    words.iter().all(|word| man_in(word).is_some())
}

/// Parses the men of words.
fn men_in(words: &[&str]) -> ArrayVec<(Man, Color, Square), MAX_MEN>
    requires few { length words.now ≤ 6 }
    requires stated { IsTrue (list_all (λ word. is_man_word word.now) words.now) }
    ensures { result.items ≡ placed_men_in words.now }
{
    let mut men = ArrayVec::new();
    'words: for word in words {
        men.push(placed_man_of(word));
    }
    men
}

/// Parses the man of a word that is one.
fn placed_man_of(word: &str) -> (Man, Color, Square)
    requires { IsTrue (is_man_word word.now) }
    ensures { result ≡ placed_man_of word.now }
{
    let Some(man) = man_in(word) else {
        unreachable!()
    };
    man
}

/// The man of a word.
fn man_in(word: &str) -> Option<(Man, Color, Square)>
    ensures { result ≡ parsed_man word.now }
{
    let [letter, file, rank] = word.as_bytes() else {
        return None;
    };
    let square = square_in(*file, *rank)?;
    let man = Man::of_letter(letter.to_ascii_uppercase())?;
    let color = if letter.is_ascii_uppercase() {
        Color::White
    } else {
        Color::Black
    };
    Some((man, color, square))
}

/// The square of a file's letter and a rank's digit.
fn square_in(file: u8, rank: u8) -> Option<Square>
    ensures { result ≡ parsed_square file rank }
{
    if file < b'a' || b'h' < file || rank < b'1' || b'8' < rank {
        return None;
    }
    Square::new((rank - b'1') * 8 + (file - b'a'))
}
