//! Leaves: a symbol for each different value, numbered in ascending order of values.
ghost use Rattle.std.specs.Prelude.{ℕ, ◌≡◌, ◌<◌, ◌≤◌, false, length, slice_index_or, IfOk};
ghost use Rattle.std.specs.List.{AllByRecursion};
ghost use Rattle.szg_subtable.specs.Building.{AreLens, AreMarks, IsRound, entry_of};
ghost use Rattle.szg_subtable.specs.Pairing.{different_values};

use std::alloc::{AllocError, Global};

/// All values are below this.
const VALUES: usize = 4096;

/// The greatest number of symbols of a dictionary.
pub(crate) const MAX_SYMBOLS: usize = 4095;

/// The right half of a leaf's entry. It is not a symbol.
const LEAF: u16 = 0xfff;

/// A dictionary, and the list of symbols that expands to a list of values.
#[derive(Clone, Drop)]
pub(crate) struct Paired {
    pub entries: Vec<[u8; 3]>,
    /// The number of values of each symbol.
    pub lens: Vec<u16>,
    pub symbols: Vec<u16>,
}

/// Returns the dictionary entry with these two numbers of twelve bits.
pub(crate) fn entry(left: u16, right: u16) -> [u8; 3]
    requires left { left < 4096 }
    requires right { right < 4096 }
    ensures { result ≡ entry_of left right }
{
    [
        (left % 256) as u8,
        (left / 256 + 16 * (right % 16)) as u8,
        (right / 16) as u8,
    ]
}

/// Marks the values that a list has.
fn mark(values: &[u16], marks: &mut [bool])
    requires small { AllByRecursion (λ v. v ≤ 4095) values.now }
    requires count { length marks.old ≡ 4096 }
    requires none { (value : ℕ) → slice_index_or marks.old value false ≡ false }
    ensures { AreMarks values.now marks.new }
{
    for value in values {
        marks[usize::from(*value)] = true;
    }
}

/// Returns the number of different values of a list. Allocates nothing.
pub fn count_different(values: &[u16]) -> usize
    requires { AllByRecursion (λ v. v ≤ 4095) values.now }
    ensures { result ≡ length (different_values values.now) }
{
    let mut marks = [false; VALUES];
    mark(values, &mut marks);
    let mut count = 0;
    for marked in &marks {
        if *marked {
            count += 1;
        }
    }
    count
}

/// Creates the leaves of a list's different values, and turns the list into symbols. Makes no pairs.
pub(crate) fn begin(alloc: Global, values: &[u16]) -> Result<Paired, AllocError>
    requires small { AllByRecursion (λ v. v ≤ 4095) values.now }
    requires different { length (different_values values.now) ≤ 4095 }
    ensures round { IfOk result (λ paired. IsRound values.now 0 paired.entries.items paired.symbols.items) }
    ensures lens { IfOk result (λ paired. AreLens paired.entries.items paired.lens.items) }
    ensures count { IfOk result (λ paired. length paired.entries.items ≡ length (different_values values.now)) }
{
    let mut marks = [false; VALUES];
    mark(values, &mut marks);
    let mut entries = Vec::new(alloc);
    let mut numbers = Vec::with_capacity(alloc, VALUES)?;
    for (value, marked) in marks.iter().enumerate() {
        numbers.push(entries.len() as u16)?;
        if *marked {
            entries.push(entry(value as u16, LEAF))?;
        }
    }
    let mut symbols = Vec::with_capacity(alloc, values.len())?;
    for item in values {
        symbols.push(numbers[usize::from(*item)])?;
    }
    let lens = vec![in alloc; 1; entries.len()]?;
    Ok(Paired {
        entries,
        lens,
        symbols,
    })
}
