//! Parsing a name.

ghost use Rattle.std.specs.Prelude.{◌≡◌, ◌≤◌, ◌<◌, ◌+◌, List, length, map, filter_map, is_some, IfSome, IfOk};
ghost use Rattle.std.specs.List.{before_first, after_first, list_all};
ghost use Rattle.std.specs.Option.{option_map_or};
ghost use Rattle.szg_values.specs.declared.Man.{Man};
ghost use Rattle.szg_values.specs.Men.{code_of, letter_of, man_of};
ghost use Rattle.szg_values.specs.Material.{name_of, parsed, IsMaterial, is_spelled, is_v, is_name_letter, has_king_first, is_in_order, is_not_later, may_be_first};

use crate::men::is_count;
use crate::{Man, Material, NameFault};
use arrayvec::ArrayVec;

impl Material {
    /// Parses the name of a material. Errors: the first of the five faults of the text.
    ///
    /// A name is a side, `v`, a side; a side is `K` and men in the order Q R B N P. The side with more men is
    /// first. If both have the same number, the first letters in which they differ decide: the side whose letter
    /// comes earlier in K Q R B N P is first, as Q in `KQvKR`. Two equal sides are accepted. Each fault is checked
    /// over the whole text, however long it is.
    pub fn parse(text: &str) -> Result<Material, NameFault>
        ensures parsed { result ≡ parsed text.now }
        ensures named { IfOk result (λ material. IsMaterial material × (name_of material ≡ text.now)) }
    {
        let Some((first, second)) = split_name(text) else {
            return Err(NameFault::Letter);
        };
        if !has_king_first(first) || !has_king_first(second) {
            return Err(NameFault::King);
        }
        if !is_in_order(first) || !is_in_order(second) {
            return Err(NameFault::Order);
        }
        if !may_be_first(first, second) {
            return Err(NameFault::Sides);
        }
        if !is_count(first.len() + second.len()) {
            return Err(NameFault::Men);
        }
        Ok(Material {
            first: men_of(first),
            second: men_of(second),
        })
    }
}

/// Splits a text at its only v. None if the text has a letter that no name has, or not exactly one v.
fn split_name(text: &str) -> Option<(&[u8], &[u8])>
    ensures spelled { is_some result ≡ is_spelled text.now }
    ensures first { IfSome result (λ sides. sides.0.now ≡ before_first is_v text.now) }
    ensures second { IfSome result (λ sides. sides.1.now ≡ after_first is_v text.now) }
    ensures size { IfSome result (λ sides. length sides.0.now + length sides.1.now < length text.now) }
{
    if !is_spelled(text.as_bytes()) {
        return None;
    }
    let (first, second) = text.split_once('v')?;
    Some((first.as_bytes(), second.as_bytes()))
}

/// Returns whether a text has only letters of names, and exactly one v.
fn is_spelled(text: &[u8]) -> bool
    ensures { result ≡ is_spelled text.now }
{
    has_name_letters(text) && text.iter().filter(|letter| **letter == b'v').count() == 1
}

/// Returns whether every byte of a text is one of K Q R B N P v.
fn has_name_letters(text: &[u8]) -> bool
    ensures { result ≡ list_all is_name_letter text.now }
{
    text.iter().all(|letter| b"KQRBNPv".contains(letter))
}

/// Returns whether a side's letters begin with a K and have no second one.
fn has_king_first(side: &[u8]) -> bool
    ensures { (men : List Man) → side.now ≡ map letter_of men → result ≡ has_king_first men }
{
    match side {
        [first, others @ ..] => *first == b'K' && !others.contains(&b'K'),
        [] => false,
    }
}

/// Returns whether a side's letters are in the order K Q R B N P.
fn is_in_order(side: &[u8]) -> bool
    ensures { (men : List Man) → side.now ≡ map letter_of men → result ≡ is_in_order men }
{
    let mut last = Man::King.code();
    for letter in side {
        let code = code_of_letter(*letter);
        if code > last {
            return false;
        }
        last = code;
    }
    true
}

/// Returns whether a name may have these sides in this order: the first has more men; or it has the same number,
/// and its letters come earlier in the order K Q R B N P or are equal.
fn may_be_first(first: &[u8], second: &[u8]) -> bool
    ensures { (a b : List Man) → first.now ≡ map letter_of a → second.now ≡ map letter_of b → result ≡ may_be_first a b }
{
    first.len() > second.len() || first.len() == second.len() && is_not_later(first, second)
}

/// Compares two sides with the same number of men letter by letter, in the order K Q R B N P. Returns whether the
/// first side's letters come earlier or are equal.
fn is_not_later(first: &[u8], second: &[u8]) -> bool
    requires { length first.now ≡ length second.now }
    ensures { (a b : List Man) → first.now ≡ map letter_of a → second.now ≡ map letter_of b → result ≡ is_not_later a b }
{
    for (a, b) in first.iter().zip(second) {
        let a = code_of_letter(*a);
        let b = code_of_letter(*b);
        if a != b {
            return a > b;
        }
    }
    true
}

/// Returns the code of the man of a letter, or 0 if the letter has none.
fn code_of_letter(letter: u8) -> u8
    ensures { result ≡ option_map_or code_of (man_of letter) 0 }
{
    Man::of_letter(letter).map_or(0, |man| man.code())
}

/// Returns the men of a side's letters.
fn men_of(side: &[u8]) -> ArrayVec<Man, 6>
    requires { length side.now ≤ 6 }
    ensures { result.items ≡ filter_map man_of side.now }
{
    let mut men = ArrayVec::new();
    for letter in side {
        if let Some(man) = Man::of_letter(*letter) {
            men.push(man);
        }
    }
    men
}
