//! Letters and squares appended to a text.

ghost use Rattle.std.specs.Prelude.{◌≡◌, ◌≤◌, ◌<◌, ◌+◌, ◌++◌, ◌∷◌, []};
ghost use Rattle.arrayvec.specs.ArrayString.{array_string_len};
ghost use Rattle.szg_chess.specs.Uci.{square_text};

use arrayvec::ArrayString;
use szg_values::Square;

/// Appends an ASCII character.
pub(crate) fn push_letter<const CAP: usize>(text: &mut ArrayString<CAP>, letter: u8)
    requires room { array_string_len text.old + 1 ≤ CAP }
    requires ascii { letter < 128 }
    ensures text { text.new.bytes ≡ text.old.bytes ++ letter ∷ [] }
    ensures len { array_string_len text.new ≡ array_string_len text.old + 1 }
{
    text.push(char::from(letter));
}

/// Appends a square, as `e4`.
pub(crate) fn push_square<const CAP: usize>(text: &mut ArrayString<CAP>, square: Square)
    requires { array_string_len text.old + 2 ≤ CAP }
    ensures text { text.new.bytes ≡ text.old.bytes ++ square_text square }
    ensures len { array_string_len text.new ≡ array_string_len text.old + 2 }
{
    let number = square.number();
    push_letter(text, b'a' + number % 8);
    push_letter(text, b'1' + number / 8);
}
