//! Squares by their numbers.

ghost use Rattle.std.specs.Prelude.{◌≡◌, ◌<◌, ◌≤◌, IsNone, Some};

use crate::Square;

impl Square {
    /// Returns the square of a number, a1 = 0, b1 = 1, .. h8 = 63. None from 64 on.
    pub fn new(number: u8) -> Option<Square>
        ensures below { number < 64 → result ≡ Some number }
        ensures beyond { 64 ≤ number → IsNone result }
    {
        if number < 64 {
            Some(Square { number })
        } else {
            None
        }
    }

    /// Returns the square's number, 0 to 63.
    pub fn number(self) -> u8
        ensures same { result ≡ self }
        ensures below { result < 64 }
    {
        self.number
    }
}

impl Default for Square {
    ghost is_default = { λ square. square ≡ 0 };

    /// Returns the square a1.
    fn default() -> Square {
        Square { number: 0 }
    }
}
