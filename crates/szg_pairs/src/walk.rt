//! Computes the number of values of each symbol by a walk down the pairs. Each symbol is entered once, and the path
//! is a list, so the call depth does not grow with the depth of the pairs.
ghost use Rattle.std.specs.Prelude.{ℕ, true, ◌≡◌, ◌-◌, ◌<◌, ◌≤◌, [], ◌∷◌, ◌++◌, length, slice_get, slice_set, slice_index, Some, IsTrue, IfOk, IfErr, OnOk};
ghost use Rattle.szg_pairs.specs.Entry.{is_leaf, names_symbols_below, NamesSymbols};
ghost use Rattle.szg_pairs.specs.Walk.{AreLengths, LengthOfKind, IsMissing, IsWalk, IsSeen, StaysSeen, work_left};

use crate::entry::{is_leaf, left, right};
use std::alloc::{AllocError, Global};

/// Represents every length of more than 256 values.
const LONG: u16 = 257;

/// A walk down the pairs.
#[derive(Drop)]
struct Walk {
    /// The length of each symbol, or 0 while it is unknown.
    lengths: Vec<u16>,
    /// Which symbols have been entered.
    seen: Vec<bool>,
    /// The symbols from the start of the walk down to the current one; each is a child of the one before.
    path: Vec<u16>,
}

/// Returns the number of values of each symbol: 257 if it has more than 256, and 0 if it has no finite expansion.
/// Each symbol is entered once and left once.
pub(crate) fn find_lengths(alloc: Global, entries: &[[u8; 3]]) -> Result<Vec<u16>, AllocError>
    requires few { length entries.now ≤ 65535 }
    requires named { (s : ℕ) → NamesSymbols entries.now s }
    ensures { IfOk result (λ lengths. AreLengths entries.now lengths.items) }
{
    let mut walk = Walk {
        lengths: vec![in alloc; 0; entries.len()]?,
        seen: vec![in alloc; false; entries.len()]?,
        path: Vec::new(alloc),
    };
    for symbol in 0..entries.len() as u16 {
        walk.visit(entries, symbol)?;
    }
    Ok(walk.lengths)
}

/// Returns the length of a symbol. Errors: the symbol, if its length is unknown.
fn known(lengths: &[u16], symbol: u16) -> Result<u16, u16>
    requires { symbol < length lengths.now }
    ensures ok { IfOk result (λ n. (n ≡ slice_index lengths.now symbol) × (0 < n)) }
    ensures err { IfErr result (λ s. (s ≡ symbol) × (slice_index lengths.now symbol ≡ 0)) }
{
    match lengths[symbol as usize] {
        0 => Err(symbol),
        length => Ok(length),
    }
}

/// Returns the length of an entry's symbol. Errors: the first of its children whose length is unknown.
fn length_of(entry: [u8; 3], lengths: &[u16]) -> Result<u16, u16>
    requires { IsTrue (names_symbols_below (length lengths.now) entry) }
    ensures ok { IfOk result (λ n. LengthOfKind (is_leaf entry) entry lengths.now n) }
    ensures err { IfErr result (λ s. IsMissing entry lengths.now s) }
{
    if is_leaf(entry) {
        return Ok(1);
    }
    let before = known(lengths, left(entry))?;
    let after = known(lengths, right(entry))?;
    Ok(before.saturating_add(after).min(LONG))
}

impl Walk {
    /// Enters a symbol that has not been seen, and continues until the length of each symbol below it is known, or
    /// a cycle ends the walk.
    fn visit(&mut self, entries: &[[u8; 3]], symbol: u16) -> Result<(), AllocError>
        requires there { symbol < length entries.now }
        requires named { (s : ℕ) → NamesSymbols entries.now s }
        requires walk { IsWalk entries.now self.old.lengths.items self.old.seen.items [] }
        requires path_empty { self.old.path.items ≡ [] }
        ensures walk { OnOk result (IsWalk entries.now self.new.lengths.items self.new.seen.items []) }
        ensures path_empty { OnOk result (self.new.path.items ≡ []) }
        ensures entered { OnOk result (IsSeen self.new.seen.items symbol) }
        ensures stays { OnOk result (StaysSeen self.old.seen.items self.new.seen.items) }
    {
        if self.seen[symbol as usize] {
            return Ok(());
        }
        self.enter(symbol)?;
        while let Some(&last) = self.path.last() {
            self.step(entries, last)?;
        }
        Ok(())
    }

    /// Marks a symbol as seen, and appends it to the path.
    fn enter(&mut self, symbol: u16) -> Result<(), AllocError>
        requires { symbol < length self.old.seen.items }
        ensures lengths { self.new.lengths.items ≡ self.old.lengths.items }
        ensures seen { OnOk result (self.new.seen.items ≡ slice_set self.old.seen.items symbol true) }
        ensures path { OnOk result (self.new.path.items ≡ self.old.path.items ++ symbol ∷ []) }
    {
        self.path.push(symbol)?;
        self.seen[symbol as usize] = true;
        Ok(())
    }

    /// Takes one step from the last symbol of the path: up if its length can be computed, else down to a child
    /// whose length is unknown. If that child was seen before, no symbol on the path has a finite expansion, and
    /// the path is cleared.
    fn step(&mut self, entries: &[[u8; 3]], last: u16) -> Result<(), AllocError>
        requires named { (s : ℕ) → NamesSymbols entries.now s }
        requires walk { IsWalk entries.now self.old.lengths.items self.old.seen.items self.old.path.items }
        requires is_last { slice_get self.old.path.items (length self.old.path.items - 1) ≡ Some last }
        ensures walk { OnOk result (IsWalk entries.now self.new.lengths.items self.new.seen.items self.new.path.items) }
        ensures stays { OnOk result (StaysSeen self.old.seen.items self.new.seen.items) }
        ensures decreases { OnOk result (work_left self.new.seen.items self.new.path.items < work_left self.old.seen.items self.old.path.items) }
    {
        match length_of(entries[last as usize], &self.lengths) {
            Ok(length) => {
                self.lengths[last as usize] = length;
                self.path.pop();
            }
            Err(part) => {
                if self.seen[part as usize] {
                    self.path.clear();
                } else {
                    self.enter(part)?;
                }
            }
        }
        Ok(())
    }
}
