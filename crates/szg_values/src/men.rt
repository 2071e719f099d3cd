//! The kinds of men: their letters in a name and their codes in a file.

ghost use Rattle.std.specs.Prelude.{◌≡◌, ◌<◌};
ghost use Rattle.szg_values.specs.Men.{code_of, color_at, letter_of, man_at, man_of};
ghost use Rattle.szg_values.specs.Material.{is_count};

use crate::{Color, MAX_MEN, Man};

impl Man {
    /// Returns the man's code in a file of de Man's format: pawn 1, knight 2, bishop 3, rook 4, queen 5, king 6.
    /// For a man of the name's second side a file has this code plus 8.
    pub fn code(self) -> u8
        ensures { result ≡ code_of self }
    {
        match self {
            Man::Pawn => 1,
            Man::Knight => 2,
            Man::Bishop => 3,
            Man::Rook => 4,
            Man::Queen => 5,
            Man::King => 6,
        }
    }

    /// Returns the man of a code in a file, where the second side's men add 8.
    pub fn of_code(code: u8) -> Man
        ensures { result ≡ man_at code }
    {
        match code % 8 {
            1 => Man::Pawn,
            2 => Man::Knight,
            3 => Man::Bishop,
            4 => Man::Rook,
            5 => Man::Queen,
            _ => Man::King,
        }
    }

    /// Returns the man's letter in a name as an ASCII code: P N B R Q K.
    pub fn letter(self) -> u8
        ensures letter { result ≡ letter_of self }
        ensures ascii { result < 96 }
    {
        match self {
            Man::Pawn => b'P',
            Man::Knight => b'N',
            Man::Bishop => b'B',
            Man::Rook => b'R',
            Man::Queen => b'Q',
            Man::King => b'K',
        }
    }

    /// Returns the man of a letter. None for any byte other than P N B R Q K.
    pub fn of_letter(letter: u8) -> Option<Man>
        ensures { result ≡ man_of letter }
    {
        match letter {
            b'K' => Some(Man::King),
            b'Q' => Some(Man::Queen),
            b'R' => Some(Man::Rook),
            b'B' => Some(Man::Bishop),
            b'N' => Some(Man::Knight),
            b'P' => Some(Man::Pawn),
            _ => None,
        }
    }
}

impl Color {
    /// Returns the colour of a man's code in a file, where White is the name's first side.
    pub fn of_code(code: u8) -> Color
        ensures { result ≡ color_at code }
    {
        if code < 8 { Color::White } else { Color::Black }
    }
}

/// Returns whether a material may have this number of men.
pub(crate) fn is_count(count: usize) -> bool
    ensures { result ≡ is_count count }
{
    3 <= count && count <= MAX_MEN
}
