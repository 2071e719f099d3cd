//! Men as words: a letter, upper case for White, a file and a rank, as `Ke1` and `pa7`.

ghost use Rattle.std.specs.Prelude.{◌≡◌, ◌<◌, ◌++◌, OnOk, string_bytes};
ghost use Rattle.std.specs.List.{list_any};
ghost use Rattle.szg_answers.specs.Men.{is_placed_man, kind_words, man_word, men_words, side_words};

use std::alloc::AllocError;
use szg_values::{Color, Man, NAME_ORDER, Placement, Square};

/// The colours in the order in which men are written.
static COLORS: [Color; 2] = [Color::White, Color::Black];

/// Adds a word for each man, White's before Black's, each in the order of a name, equal men by square.
pub(crate) fn add_men(placement: &Placement, text: &mut String) -> Result<(), AllocError>
    ensures { OnOk result (string_bytes text.new ≡ string_bytes text.old ++ men_words placement.now.placed_men) }
{
    'colors: for color in COLORS {
        add_side(placement.men(), color, text)?;
    }
    Ok(())
}

/// Adds a word for each man of a colour.
fn add_side(men: &[(Man, Color, Square)], color: Color, text: &mut String) -> Result<(), AllocError>
    ensures { OnOk result (string_bytes text.new ≡ string_bytes text.old ++ side_words men.now color) }
{
    'kinds: for kind in NAME_ORDER {
        add_kind(men, kind, color, text)?;
    }
    Ok(())
}

/// Adds a word for each man of a kind and a colour, by square.
fn add_kind(
    men: &[(Man, Color, Square)],
    kind: Man,
    color: Color,
    text: &mut String,
) -> Result<(), AllocError>
    ensures { OnOk result (string_bytes text.new ≡ string_bytes text.old ++ kind_words men.now color kind) }
{
    'squares: for number in 0..64 {
        if is_valid(men, kind, color, number) {
            add_man(kind, color, number, text)?;
        }
    }
    Ok(())
}

/// Returns whether a man of a kind and a colour is on the square of a number.
fn is_valid(men: &[(Man, Color, Square)], kind: Man, color: Color, number: u8) -> bool
    ensures { result ≡ list_any (is_placed_man kind color number) men.now }
{
    men.iter().any(|man| man.0 == kind && man.1 == color && man.2.number() == number)
}

/// Appends a space and a man's word.
fn add_man(kind: Man, color: Color, number: u8, text: &mut String) -> Result<(), AllocError>
    requires { number < 64 }
    ensures { OnOk result (string_bytes text.new ≡ string_bytes text.old ++ man_word kind color number) }
{
    let letter = match color {
        Color::White => kind.letter(),
        Color::Black => kind.letter().to_ascii_lowercase(),
    } as char;
    let file = (b'a' + number % 8) as char;
    let rank = 1 + number / 8;
    write!(text, " {letter}{file}{rank}")
}
