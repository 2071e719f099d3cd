//! Block lengths, of which those are kept that the values of a subtable need.
ghost use Rattle.std.specs.Prelude.{ℕ, sum_by, List, ◌≡◌, ◌+◌, ◌*◌, ◌^◌, ◌≤◌, ◌<◌, ◌∷◌, [], ◌++◌, length, Err, IfOk, OnErr, OnOk};
ghost use Rattle.szg_file.specs.Grown.{HasCounted};
ghost use Rattle.szg_file.specs.Held.{numbers_field};
ghost use Rattle.szg_file.specs.Kept.{IsKept, ReadingOf};

use crate::begun::KeptLengths;
use crate::fault::ReadFault;
use crate::reading::state::{ReaderState, grow};
use crate::reading::taking::{CHUNK, take_numbers};
use std::alloc::Global;
use szg_io::Input;

impl KeptLengths {
    /// Passes the next length. `last` is the number of the block of the last sparse entry.
    fn pass(&mut self, length: u16, limit: u64, last: u64) -> Result<(), ReadFault>
        requires { self.old.seen < 2 ^ 40 }
        ensures kept { OnOk result ((list : List ℕ) → IsKept limit last list self.old → IsKept limit last (list ++ length ∷ []) self.new) }
        ensures seen { OnOk result (self.new.seen ≡ self.old.seen + 1) }
        ensures memory { OnErr result (result ≡ Err ReadFault.Memory) }
    {
        let values = u64::from(length) + 1;
        let seen = self.seen;
        self.seen = seen + 1;
        if seen < last {
            self.before_last += values;
        }
        if self.values < limit {
            self.values += values;
            self.lengths.push(length)?;
        }
        Ok(())
    }

    /// Passes the next lengths, the total of whose values is `values`, and keeps all of them. If `last` is the number of one of
    /// their blocks, it is the first's.
    fn add_all(&mut self, numbers: &[u16], values: u64, last: u64) -> Result<(), ReadFault>
        requires sum { values ≡ sum_by (λ n. n + 1) numbers.now }
        requires small { values ≤ 65536 * length numbers.now }
        requires few { self.old.seen + length numbers.now < 2 ^ 40 }
        requires apart { self.old.seen < last → self.old.seen + length numbers.now ≤ last }
        ensures kept { OnOk result ((limit : ℕ) (list : List ℕ) → self.old.values + values ≤ limit → IsKept limit last list self.old → IsKept limit last (list ++ numbers.now) self.new) }
        ensures seen { OnOk result (self.new.seen ≡ self.old.seen + length numbers.now) }
        ensures memory { OnErr result (result ≡ Err ReadFault.Memory) }
    {
        let seen = self.seen;
        self.seen = seen + numbers.len() as u64;
        if seen < last {
            self.before_last += values;
        }
        self.values += values;
        self.lengths.extend_from_slice(numbers)?;
        Ok(())
    }

    /// Passes the next lengths, at most 16,384.
    fn add(
        &mut self,
        numbers: &[u16],
        limit: u64,
        last: u64,
        state: &mut ReaderState,
    ) -> Result<(), ReadFault>
        requires most { length numbers.now ≤ 16384 }
        requires few { self.old.seen + length numbers.now < 2 ^ 40 }
        requires growth_bound { state.old.growth ≤ 2 * state.old.place + 2 ^ 15 }
        requires place { state.old.place < 2 ^ 62 }
        ensures kept { OnOk result ((list : List ℕ) → IsKept limit last list self.old → IsKept limit last (list ++ numbers.now) self.new) }
        ensures seen { OnOk result (self.new.seen ≡ self.old.seen + length numbers.now) }
        ensures growth { OnOk result (state.new.growth ≡ state.old.growth + length numbers.now) }
        ensures place { OnOk result (state.new.place ≡ state.old.place) }
        ensures fill { OnOk result (state.new.fill.items ≡ state.old.fill.items) }
        ensures memory { OnErr result (result ≡ Err ReadFault.Memory) }
    {
        grow(&mut self.lengths, numbers.len(), state)?;
        let values = numbers.iter().map(|n| u64::from(*n) + 1).sum();
        let seen = self.seen;
        let is_apart = last <= seen || seen + numbers.len() as u64 <= last;
        if is_apart && self.values + values <= limit {
            return self.add_all(numbers, values, last);
        }
        for length in numbers {
            self.pass(*length, limit, last)?;
        }
        Ok(())
    }
}

/// Reads `count` block lengths as one field, in chunks. Keeps those of the blocks that begin below value `limit`, and counts the
/// values before block `last`.
pub(crate) fn take_kept<R: Input>(
    alloc: Global,
    count: u64,
    limit: u64,
    last: u64,
    input: &mut R,
    state: &mut ReaderState,
) -> Result<KeptLengths, ReadFault>
    requires place { state.old.place + 2 * count < 2 ^ 62 }
    requires few { count < 2 ^ 40 }
    requires growth_bound { state.old.growth ≤ 2 * state.old.place + 2 ^ 15 }
    ensures lengths { ReadingOf (numbers_field count) (IsKept limit last) state.old state.new R.Input input.old input.new result }
    ensures place { OnOk result (state.new.place ≡ state.old.place + 2 * count) }
    ensures seen { IfOk result (λ kept. kept.seen ≡ count) }
    ensures growth { OnOk result (state.new.growth ≡ state.old.growth + 4 * count) }
    ensures grown { IfOk result (λ kept. HasCounted state.old state.new 0 (length kept.lengths.items)) }
{
    let mut kept = KeptLengths {
        lengths: Vec::new(alloc),
        values: 0,
        seen: 0,
        before_last: 0,
    };
    let mut left = count;
    'chunks: while left > 0 {
        let chunk = left.min(CHUNK / 2);
        let numbers = take_numbers(alloc, chunk, input, state)?;
        kept.add(numbers.as_slice(), limit, last, state)?;
        left -= chunk;
    }
    Ok(kept)
}
