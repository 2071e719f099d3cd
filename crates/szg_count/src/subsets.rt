//! The set of numbers with a given rank among all sets of the same size.

ghost use Rattle.std.specs.Prelude.{◌≡◌, ◌<◌, ◌≤◌, ℕ, length, Some, slice_get};
ghost use Rattle.szg_count.specs.Sets.{subsets, choose, IsFallingBelow};

use crate::ways::choose;
use arrayvec::ArrayVec;
use szg_values::MAX_MEN;

/// Returns the set of a rank in the ordered list of the sets of `chosen` of the numbers below `numbers`, its
/// members from the greatest down. The sets are ordered by the greatest member, then by the next one, and so on:
/// a set's rank is the sum of binomials by which the probing code numbers equal men. `numbers` is at most 64,
/// `chosen` at most six, and the rank is below the number of such sets, which [`choose`] returns.
pub fn unrank_subset(numbers: u8, chosen: u8, rank: u64) -> ArrayVec<u8, MAX_MEN>
    requires numbers { numbers ≤ 64 }
    requires chosen { chosen ≤ 6 }
    requires below { rank < choose numbers chosen }
    ensures set { slice_get (subsets numbers chosen) rank ≡ Some result.items }
    ensures size { length result.items ≡ chosen }
    ensures falling { IsFallingBelow numbers result.items }
{
    let mut set = ArrayVec::new();
    let mut rank = rank;
    let mut left = u64::from(chosen);
    for number in (0..numbers).rev() {
        let without = choose(u64::from(number), left);
        if without <= rank {
            rank -= without;
            left -= 1;
            set.push(number);
        }
    }
    set
}
