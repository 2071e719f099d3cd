//! A list of at most six elements, for the men of a position.

ghost use Rattle.std.specs.Prelude.{◌≡◌, ◌<◌, ◌≤◌, ◌++◌, ◌∷◌, [], length, map, IfSome, slice_get};
ghost use Rattle.std.specs.Cmp.Lexicographic.{pointwise, lists_per, lists_equiv};
ghost use Rattle.szg_chess.specs.Moves.{man_after};

use crate::Move;
use crate::moves::man_after;
use std::fmt;
use std::marker::Model;
use szg_values::{Color, Man, Square};

/// At most six elements, which lie in the value itself. The other places hold anything, so that a copy or a change of all
/// places needs no loop over the elements.
#[derive(Drop)]
pub(crate) struct Few<T> {
    places: [T; 6],
    count: usize,
}

impl<T> Model for Few<T> {
    ghost use Rattle.std.specs.Prelude.{◌≡◌, ◌≤◌, List, length, take};

    ghost Value = { List T };

    ghost view = { λ f. take f.count f.places };

    ghost invariant = { λ f. (f.count ≤ 6) × (length f.places ≡ 6) };
}

impl<T: PartialEq> PartialEq for Few<T> {
    ghost eq = { pointwise T.eq };

    ghost laws = { lists_per T.laws };

    fn eq(&self, other: &Self) -> bool {
        self.as_slice() == other.as_slice()
    }
}

impl<T: Eq> Eq for Few<T> {
    ghost laws = { lists_equiv T.Eq.laws };
}

impl<T: fmt::Debug> fmt::Debug for Few<T> {
    fn fmt<W: fmt::Write>(&self, f: &mut fmt::Formatter<W>) -> fmt::Result {
        f.debug_list().entries(self.as_slice()).finish()
    }
}

impl<T> Few<T> {
    /// Returns the elements.
    pub(crate) fn as_slice(&self) -> &[T]
        ensures elements { result.now ≡ self.now }
        ensures few { length result.now ≤ 6 }
    {
        &self.places[..self.count]
    }
}

impl<T: Default> Few<T> {
    /// Returns no elements.
    pub(crate) fn new() -> Few<T>
        ensures { result ≡ [] }
    {
        Few {
            places: Default::default(),
            count: 0,
        }
    }
}

impl<T: Copy> Few<T> {
    /// Appends an element.
    pub(crate) fn push(&mut self, element: T)
        requires { length self.old < 6 }
        ensures { self.new ≡ self.old ++ element ∷ [] }
    {
        self.places[self.count] = element;
        self.count += 1;
    }

    /// Returns a copy.
    pub(crate) fn copy(&self) -> Few<T>
        ensures { result ≡ self.now }
    {
        Few {
            places: self.places,
            count: self.count,
        }
    }
}

/// Returns the men after a move that captures none. All places are changed at once, without a branch.
#[inline(always)]
pub(crate) fn moved(men: &Few<(Man, Color, Square)>, m: &Move) -> Few<(Man, Color, Square)>
    ensures { result ≡ map (man_after m.now) men.now }
{
    let [a, b, c, d, e, f] = &men.places;
    Few {
        places: [
            man_after(m, a),
            man_after(m, b),
            man_after(m, c),
            man_after(m, d),
            man_after(m, e),
            man_after(m, f),
        ],
        count: men.count,
    }
}

/// Returns these men. Each is read by itself, since they were just written so.
#[inline(always)]
pub(crate) fn few_men(men: &[(Man, Color, Square)]) -> Few<(Man, Color, Square)>
    requires { length men.now ≤ 6 }
    ensures { result ≡ men.now }
{
    Few {
        places: [
            man_or_default(men, 0),
            man_or_default(men, 1),
            man_or_default(men, 2),
            man_or_default(men, 3),
            man_or_default(men, 4),
            man_or_default(men, 5),
        ],
        count: men.len(),
    }
}

/// Returns man `n`; any man if there are fewer.
#[inline(always)]
fn man_or_default(men: &[(Man, Color, Square)], n: usize) -> (Man, Color, Square)
    ensures { IfSome (slice_get men.now n) (λ man. result ≡ man) }
{
    match men.get(n) {
        Some(man) => *man,
        None => Default::default(),
    }
}
