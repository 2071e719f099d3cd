//! The items of a dump's lists, each of which is a number.
ghost use Rattle.std.specs.Prelude.{◌≡◌, ℕ, ◌≤◌};

use crate::reading::line_parsing::GREATEST_ITEM;

/// An item of a list: a byte, or a number of two bytes (a value of a subtable, or an item of a wide map).
pub(crate) trait Item: Copy {
    ghost GREATEST: { ℕ };

    /// The greatest number that an item of this type can be.
    const GREATEST: u64;

    /// the number that an item is
    ghost number: { Self → ℕ };

    /// Returns the item that is the number `value`.
    fn of(value: u64) -> Self
        requires { value ≤ GREATEST }
        ensures { number result ≡ value };

    /// Returns the number that the item is.
    fn number(self) -> u64
        ensures { result ≡ number self };
}

impl Item for u8 {
    ghost GREATEST = { 255 };

    const GREATEST: u64 = 255;

    ghost number = { λ byte. byte };

    fn of(value: u64) -> u8 {
        value as u8
    }

    fn number(self) -> u64 {
        u64::from(self)
    }
}

impl Item for u16 {
    ghost GREATEST = { 65535 };

    const GREATEST: u64 = GREATEST_ITEM;

    ghost number = { λ value. value };

    fn of(value: u64) -> u16 {
        value as u16
    }

    fn number(self) -> u64 {
        u64::from(self)
    }
}
