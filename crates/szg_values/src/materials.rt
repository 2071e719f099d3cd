//! The methods of a material.

ghost use Rattle.std.specs.Prelude.{◌≡◌, ◌↔◌, ◌≤◌, ◌+◌, ◌==◌, ◌&&◌, not, ◌++◌, IsTrue, length, map};
ghost use Rattle.szg_values.specs.Men.{code_of, letter_of};
ghost use Rattle.arrayvec.specs.ArrayVec.{array_vec_len};
ghost use Rattle.arrayvec.specs.ArrayString.{array_string_len};
ghost use Rattle.szg_values.specs.Material.{name_of, man_codes, IsMaterial, is_symmetric, has_pawns, lead_pawns, other_pawns, has_single_lead, pawn_count, is_king_code, count_of, is_same_men, may_be_first, is_not_later, is_in_order};

use crate::{Man, Material};
use arrayvec::{ArrayString, ArrayVec};

/// The number that is added to the man codes of the name's second side.
const SECOND_SIDE: u8 = 8;

/// The kinds in the order of a name.
pub const NAME_ORDER: [Man; 6] = [
    Man::King,
    Man::Queen,
    Man::Rook,
    Man::Bishop,
    Man::Knight,
    Man::Pawn,
];

impl Material {
    /// Returns the man codes in name order: those of the first side, then those of the second, which have 8 added.
    pub fn men(&self) -> ArrayVec<u8, 6>
        ensures codes { result.items ≡ man_codes self.now }
        // A fact that callers may use: a material is the men of a name.
        ensures material { IsMaterial self.now }
    {
        let mut codes = ArrayVec::new();
        push_codes(&mut codes, self.first.as_slice(), 0);
        push_codes(&mut codes, self.second.as_slice(), SECOND_SIDE);
        codes
    }

    /// Returns the name, as `KQvKR`.
    pub fn name(&self) -> ArrayString<8>
        ensures { result.bytes ≡ name_of self.now }
    {
        let mut name = ArrayString::new();
        push_letters(&mut name, self.first.as_slice());
        name.push('v');
        push_letters(&mut name, self.second.as_slice());
        name
    }

    /// Returns a copy. The men are stored in the value itself, so no memory is needed: no call of this crate takes
    /// an allocator.
    pub fn copy(&self) -> Material
        ensures { result ≡ self.now }
    {
        Material {
            first: copied(self.first.as_slice()),
            second: copied(self.second.as_slice()),
        }
    }

    /// Returns whether two materials are equal: the first sides have the same number of men of each kind, and so do
    /// the second sides. This is the result of `==`, with a contract that says so.
    pub fn is_same(&self, other: &Material) -> bool
        ensures counts { result ≡ (is_same_men self.now.first other.now.first && is_same_men self.now.second other.now.second) }
        ensures equal { IsTrue result ↔ (self.now ≡ other.now) }
    {
        has_same_men(self.first.as_slice(), other.first.as_slice())
            && has_same_men(self.second.as_slice(), other.second.as_slice())
    }

    /// Returns whether both sides have the same men.
    pub fn symmetric(&self) -> bool
        ensures { result ≡ is_symmetric self.now }
    {
        has_same_men(self.first.as_slice(), self.second.as_slice())
    }

    /// Returns whether some man is a pawn.
    pub fn has_pawns(&self) -> bool
        ensures { result ≡ has_pawns self.now }
    {
        0 < pawn_count(self.first.as_slice()) + pawn_count(self.second.as_slice())
    }

    /// Returns the number of pawns of the lead colour: that of the side with fewer pawns, but at least one, or of
    /// the first side if both have the same number. 0 without pawns.
    pub fn lead_pawns(&self) -> u8
        ensures { result ≡ lead_pawns self.now }
    {
        self.pawns().0
    }

    /// Returns the number of pawns of the colour that does not lead. 0 without pawns.
    pub fn other_pawns(&self) -> u8
        ensures { result ≡ other_pawns self.now }
    {
        self.pawns().1
    }

    /// Returns whether some man other than a king is the only one of its kind and colour.
    pub fn single_lead(&self) -> bool
        ensures { result ≡ has_single_lead self.now }
    {
        let codes = self.men();
        codes.iter().any(|code| is_single(*code, codes.as_slice()))
    }

    /// Returns the numbers of pawns of the lead colour and of the other.
    fn pawns(&self) -> (u8, u8)
        ensures lead { result.0 ≡ lead_pawns self.now }
        ensures other { result.1 ≡ other_pawns self.now }
    {
        let first = pawn_count(self.first.as_slice());
        let second = pawn_count(self.second.as_slice());
        if 0 < first && (second == 0 || first <= second) {
            (first, second)
        } else {
            (second, first)
        }
    }
}

/// Counts the pawns of one side.
fn pawn_count(men: &[Man]) -> u8
    requires { length men.now ≤ 6 }
    ensures value { result ≡ pawn_count men.now }
    ensures small { result ≤ 6 }
{
    men.iter().filter(|man| **man == Man::Pawn).count() as u8
}

/// Appends the codes of one side's men, with `side` added to each.
fn push_codes(codes: &mut ArrayVec<u8, 6>, men: &[Man], side: u8)
    requires capacity { array_vec_len codes.old + length men.now ≤ 6 }
    requires side { side ≤ 8 }
    ensures { codes.new.items ≡ codes.old.items ++ map (λ man. side + code_of man) men.now }
{
    for man in men {
        codes.push(side + man.code());
    }
}

/// Appends the letters of one side's men.
fn push_letters(name: &mut ArrayString<8>, men: &[Man])
    requires { array_string_len name.old + length men.now ≤ 8 }
    ensures { name.new.bytes ≡ name.old.bytes ++ map letter_of men.now }
{
    for man in men {
        name.push(char::from(man.letter()));
    }
}

/// Returns a list of at most six items.
pub(crate) fn copied<T: Copy + Default>(items: &[T]) -> ArrayVec<T, 6>
    requires { length items.now ≤ 6 }
    ensures { result.items ≡ items.now }
{
    let mut copy = ArrayVec::new();
    let _ = copy.try_extend_from_slice(items);
    copy
}

/// Returns whether two sides have the same number of men of each kind. In name order they are then equal.
fn has_same_men(first: &[Man], second: &[Man]) -> bool
    requires first { IsTrue (is_in_order first.now) }
    requires second { IsTrue (is_in_order second.now) }
    ensures { result ≡ is_same_men first.now second.now }
{
    first == second
}

/// Returns whether a man of this code is not a king and the only one of the code.
fn is_single(code: u8, codes: &[u8]) -> bool
    ensures { result ≡ (not (is_king_code code) && count_of code codes.now == 1) }
{
    code != 6 && code != 14 && codes.iter().filter(|other| **other == code).count() == 1
}

/// Returns whether a name may have these sides in this order: the first has more men; or it has the same number,
/// and its letters come earlier in the order K Q R B N P or are equal.
pub(crate) fn may_be_first(first: &[Man], second: &[Man]) -> bool
    ensures { result ≡ may_be_first first.now second.now }
{
    first.len() > second.len() || first.len() == second.len() && is_not_later(first, second)
}

/// Compares two sides with the same number of men letter by letter, in the order K Q R B N P. Returns whether the
/// first side's letters come earlier or are equal.
fn is_not_later(first: &[Man], second: &[Man]) -> bool
    requires { length first.now ≡ length second.now }
    ensures { result ≡ is_not_later first.now second.now }
{
    for (a, b) in first.iter().zip(second) {
        let a = a.code();
        let b = b.code();
        if a != b {
            return a > b;
        }
    }
    true
}
