//! Finding a subtable of a table, and its flags.
ghost use Rattle.std.specs.Prelude.{◌≡◌, ◌<◌, ◌&&◌, nat_eq, position};
ghost use Rattle.szg_file.specs.Values.{constant_value as constant_of};
ghost use Rattle.szg_file.specs.Contents.{has_bit};
ghost use Rattle.szg_file.specs.File.{flags_of as flags_byte};
ghost use Rattle.szg_file.specs.Held.{subtable_of};
ghost use Rattle.szg_file.specs.Lookup.{byte_of};

use crate::begun::Slot;
use szg_block::Sub;
use szg_values::Kind;

/// A subtable with its number of positions.
#[derive(Clone, Copy)]
pub struct SizedSubtable<'a> {
    pub size: u64,
    pub sub: &'a Sub,
}

/// Returns the number of the slot of a part and side, from 0. It compares all slots, from the last to the first, and branches
/// on none of them, since a processor can't predict which one is found.
pub fn slot_number(slots: &[Slot], part: u8, side: u8) -> Option<usize>
    ensures { result ≡ position (λ slot. nat_eq slot.part part && nat_eq slot.side side) slots.now }
{
    let mut number = slots.len();
    for n in (0..slots.len()).rev() {
        let slot = slots[n];
        if (slot.part == part) & (slot.side == side) {
            number = n;
        }
    }
    if number < slots.len() {
        Some(number)
    } else {
        None
    }
}

/// Returns the value of a constant subtable: its byte in WDL, 0 in DTZ.
pub fn constant_value(kind: Kind, sub: &Sub) -> u16
    ensures { result ≡ constant_of kind (byte_of sub.now) }
{
    match (kind, sub) {
        (Kind::Wdl, Sub::Constant { byte, .. }) => u16::from(*byte),
        _ => 0,
    }
}

/// Returns the flag byte of a subtable.
pub(crate) fn flags_of(sub: &Sub) -> u8
    ensures { result ≡ flags_byte (subtable_of sub.now) }
{
    match sub {
        Sub::Constant { flags, .. } | Sub::Pairs { flags, .. } => *flags,
    }
}

/// Returns whether bit `k` of a byte is set. In a flag byte it is flag `2^k`.
pub fn has_bit(k: u8, byte: u8) -> bool
    requires { k < 8 }
    ensures { result ≡ has_bit k byte }
{
    (byte >> k) % 2 == 1
}
