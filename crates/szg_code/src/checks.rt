//! The code section of a subtable header, and the checks that turn it into a code.
ghost use Rattle.std.specs.Prelude.{ℕ, ◌≡◌, ◌+◌, ◌-◌, ◌*◌, ◌^◌, ◌<◌, ◌≤◌, ◌↔◌, ◌⊎◌, length, IsTrue, IfOk, IfErr, IfSome, IfNone};
ghost use Rattle.szg_code.specs.Canonical.{base};
ghost use Rattle.szg_code.specs.Acceptance.{HasLengths, IsOrderedAt, IsCode, IsFirstRise, IsLastOverfull, IsOverfullAtLeast};
ghost use Rattle.szg_code.specs.Least.{HasBases, HasShiftedBases, HasStarts, HasZeroSymbols, shifted_base};

/// The number of 64-bit windows that share a first byte.
const WINDOWS: u64 = 1 << 56;

/// The code section of a subtable header.
#[derive(Drop)]
pub struct CodeHeader {
    /// The least length of a word, in bits.
    pub min: u8,
    /// The greatest length of a word, in bits.
    pub max: u8,
    /// The lowest symbol of each length, from the least length on.
    pub lowest: Vec<u16>,
    /// The number of symbols.
    pub symbols: u16,
}

impl CodeHeader {
    ghost use Rattle.szg_code.specs.CodeHeader.{code_of};

    /// Returns whether words have 1 to 32 bits and each length has one lowest symbol.
    pub(crate) fn has_lengths(&self) -> bool
        ensures { IsTrue result ↔ HasLengths (code_of self.now) }
    {
        0 < self.min
            && self.min <= self.max
            && self.max <= 32
            && self.lowest.len() == usize::from(self.max - self.min) + 1
    }

    /// Returns the first index of a lowest symbol that is above the one before it. None if the list never increases.
    pub(crate) fn first_rise(&self) -> Option<u8>
        requires { HasLengths (code_of self.now) }
        ensures found { IfSome result (λ j. IsFirstRise (code_of self.now) j) }
        ensures none { IfNone result ((j : ℕ) → IsOrderedAt (code_of self.now) j) }
    {
        for j in 1..self.lowest.len() {
            if self.lowest[j] > self.lowest[j - 1] {
                return Some(j as u8);
            }
        }
        None
    }

    /// Computes the base of each length, from the greatest length down: `base(max) = 0`, and else `base(l) =
    /// (base(l + 1) + lowest(l) - lowest(l + 1)) / 2`, as in de Man's format. The result begins with the least
    /// length. Errors: the index of the greatest length whose base, doubled, is below the base of the next length;
    /// or 0, if only the words of the least length do not fit.
    pub fn bases(&self) -> Result<[u32; 32], u8>
        requires lengths { HasLengths (code_of self.now) }
        requires ordered { (j : ℕ) → IsOrderedAt (code_of self.now) j }
        ensures bases { IfOk result (λ bases. HasBases (code_of self.now) bases) }
        ensures accepted { IfOk result (λ _. IsCode (code_of self.now)) }
        ensures overfull { IfErr result (λ j. IsLastOverfull (code_of self.now) (self.now.min + j) ⊎ ((j ≡ 0) × IsOverfullAtLeast (code_of self.now))) }
    {
        let count = self.lowest.len();
        let mut bases = [0u32; 32];
        for below in 1..count {
            let j = count - 1 - below;
            let longer = bases[j + 1];
            let apart = u32::from(self.lowest[j] - self.lowest[j + 1]);
            let here = (longer + apart) / 2;
            if 2 * here < longer {
                return Err(j as u8);
            }
            bases[j] = here;
        }
        if u64::from(bases[0]) >= 1 << self.min {
            return Err(0);
        }
        Ok(bases)
    }

    /// Returns two lists that have an item at the index of each length: the bases, shifted to the top of a 64-bit window;
    /// and the symbols that the number 0 would have, modulo 2^64, the lowest symbol without the base.
    pub fn by_length(&self, bases: &[u32; 32]) -> ([u64; 34], [u64; 33])
        requires accepted { IsCode (code_of self.now) }
        requires bases { HasBases (code_of self.now) bases.now }
        ensures shifted { HasShiftedBases (code_of self.now) result.0 }
        ensures symbols { HasZeroSymbols (code_of self.now) result.1 }
    {
        let min = usize::from(self.min);
        let lowest: &[u16] = &self.lowest;
        let mut shifted = [0u64; 34];
        let mut symbols = [0u64; 33];
        for length in min..usize::from(self.max) + 1 {
            let base = u64::from(bases[length - min]);
            let first = u64::from(lowest[length - min]);
            shifted[length] = base << (64 - length);
            symbols[length] = first.wrapping_sub(base);
        }
        (shifted, symbols)
    }

    /// Returns the first length, from length `from` on, whose base, shifted to the top of 64 bits, is at most the window.
    #[inline(always)]
    pub(crate) fn reached_length_from(&self, bases: &[u64; 34], from: usize, window: u64) -> usize
        requires accepted { IsCode (code_of self.now) }
        requires bases { HasShiftedBases (code_of self.now) bases.now }
        requires long { self.now.min ≤ from }
        requires short { from ≤ self.now.max }
        requires before { (k : ℕ) → self.now.min ≤ k → k < from → window < shifted_base (code_of self.now) 64 k }
        ensures long { self.now.min ≤ result }
        ensures short { result ≤ self.now.max }
        ensures reaches { shifted_base (code_of self.now) 64 result ≤ window }
        ensures before { (k : ℕ) → self.now.min ≤ k → k < result → window < shifted_base (code_of self.now) 64 k }
    {
        if window >= bases[from] {
            return from;
        }
        let mut length = from + 1;
        while window < bases[length] {
            length += 1;
        }
        length
    }

    /// Computes, for each first byte of a window, the length from which the search starts: the first one whose base is
    /// reached by some window with this byte.
    pub fn starts(&self, bases: &[u64; 34]) -> [u8; 256]
        requires accepted { IsCode (code_of self.now) }
        requires bases { HasShiftedBases (code_of self.now) bases.now }
        ensures { HasStarts (code_of self.now) result }
    {
        let mut starts = [0u8; 256];
        for first in 0..256usize {
            let last = first as u64 * WINDOWS + (WINDOWS - 1);
            starts[first] = self.reached_length_from(bases, usize::from(self.min), last) as u8;
        }
        starts
    }
}
