//! Which blocks of a table's file have passed, so that each is verified once.
ghost use Rattle.std.specs.Prelude.{ℕ, ◌≡◌, ◌+◌, ◌*◌, ◌^◌, ◌<◌, ◌≤◌, ◌⊎◌, List, IfSome, IsTrue, OnOk, length, slice_index};
ghost use Rattle.szg_file.specs.Index.{Index};
ghost use Rattle.szg_mapped.specs.Passed.{ArePassed, IsNoted, IsSet};

use std::alloc::{AllocError, Global};

/// The blocks of a table's file that were found to decode: a bit for each block of a subtable. A subtable's bits are
/// allocated when its first block is noted; if memory is refused, the block isn't noted.
#[derive(Drop)]
pub struct Passed {
    // those of side s of part p at 2 p + s
    sets: [Vec<u64>; 8],
}

impl Passed {
    /// Creates a list in which no block is noted. It allocates nothing.
    pub fn new(alloc: Global) -> Passed
        ensures { (index : Index) (content : List ℕ) → ArePassed index content result }
    {
        Passed {
            sets: [
                Vec::new(alloc),
                Vec::new(alloc),
                Vec::new(alloc),
                Vec::new(alloc),
                Vec::new(alloc),
                Vec::new(alloc),
                Vec::new(alloc),
                Vec::new(alloc),
            ],
        }
    }

    /// Returns whether a block is noted.
    #[inline(always)]
    pub(crate) fn has(&self, part: u8, side: u8, block: u32) -> bool
        ensures { IsTrue result → IsNoted self.now part side block }
    {
        let Some(place) = place_of(part, side) else {
            return false;
        };
        is_set(&self.sets[place], block as usize)
    }

    /// Notes a block of a part's side with `count` blocks, if memory is granted.
    pub(crate) fn note(&mut self, part: u8, side: u8, block: u32, count: u32)
        requires { block < count }
        ensures { (p s n : ℕ) → IsNoted self.new p s n → IsNoted self.old p s n ⊎ ((p ≡ part) × (s ≡ side) × (n ≡ block)) }
    {
        let Some(place) = place_of(part, side) else {
            return;
        };
        let _ = set(&mut self.sets[place], block as usize, count as usize);
    }
}

/// Returns where the bits of a part's side are. None if no table has such a side.
#[inline(always)]
fn place_of(part: u8, side: u8) -> Option<usize>
    ensures place { IfSome result (λ place. place ≡ 2 * part + side) }
    ensures side { IfSome result (λ place. side < 2) }
    ensures there { IfSome result (λ place. place < 8) }
{
    if part < 4 && side < 2 {
        Some(2 * usize::from(part) + usize::from(side))
    } else {
        None
    }
}

/// Returns whether bit `n` of words is set. Bits after the last word are not.
#[inline(always)]
fn is_set(words: &[u64], n: usize) -> bool
    ensures { IsTrue result → IsSet words.now n }
{
    if n / 64 >= words.len() {
        return false;
    }
    (words[n / 64] >> (n % 64)) & 1 == 1
}

/// Sets bit `n` of words, after it extends them to `count` bits if they are fewer. Errors: memory was refused; then no
/// bit changes.
fn set(words: &mut Vec<u64>, n: usize, count: usize) -> Result<(), AllocError>
    requires there { n < count }
    requires few { count < 2 ^ 32 }
    ensures set { OnOk result (IsSet words.new.items n) }
    ensures others { (m : ℕ) → IsSet words.new.items m → IsSet words.old.items m ⊎ (m ≡ n) }
{
    extend(words, count.div_ceil(64))?;
    set_bit(words, n);
    Ok(())
}

/// Extends words to `size` words if they are fewer, with no bit set in the new ones. Errors: memory was refused; then
/// nothing changes.
fn extend(words: &mut Vec<u64>, size: usize) -> Result<(), AllocError>
    ensures same { (k : ℕ) → slice_index words.new.items k ≡ slice_index words.old.items k }
    ensures room { OnOk result (size ≤ length words.new.items) }
{
    if words.len() >= size {
        return Ok(());
    }
    words.resize(size, 0)
}

fn set_bit(words: &mut [u64], n: usize)
    requires { n < 64 * length words.old }
    ensures set { IsSet words.new n }
    ensures others { (m : ℕ) → IsSet words.new m → IsSet words.old m ⊎ (m ≡ n) }
{
    words[n / 64] |= 1 << (n % 64);
}
