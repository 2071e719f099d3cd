//! Ranks of lead pawns. The pawns are listed by the values P of their squares (`PAWN_NUMBERS`), the greatest first.

ghost use Rattle.std.specs.Prelude.{◌≡◌, ◌<◌, ◌≤◌, ◌^◌, ◌+◌, ◌-◌, ◌*◌, ℕ, length, map, Some, slice_get, slice_index};
ghost use Rattle.szg_count.specs.Sets.{choose, subsets, IsFallingBelow};
ghost use Rattle.szg_count.specs.Leads.{lead_pawn_sets};
ghost use Rattle.szg_count.specs.Laws.{IsIn};

use crate::slots::append_pawns;
use arrayvec::ArrayVec;
use szg_count::{choose, unrank_subset};
use szg_values::MAX_MEN;

/// The value P of a square (`ptwist` in the probing code): the number of squares after it in the order a2 h2 a3 h3 ..
/// a7 h7, then likewise the files b and g, c and f, d and e. 0 on ranks 1 and 8.
pub(crate) const PAWN_NUMBERS: [u8; 64] = [
    0, 0, 0, 0, 0, 0, 0, 0, 47, 35, 23, 11, 10, 22, 34, 46, 45, 33, 21, 9, 8, 20, 32, 44, 43, 31,
    19, 7, 6, 18, 30, 42, 41, 29, 17, 5, 4, 16, 28, 40, 39, 27, 15, 3, 2, 14, 26, 38, 37, 25, 13,
    1, 0, 12, 24, 36, 0, 0, 0, 0, 0, 0, 0, 0,
];

/// The square with each value P.
pub(crate) const PAWN_SQUARES: [u8; 48] = [
    52, 51, 44, 43, 36, 35, 28, 27, 20, 19, 12, 11, 53, 50, 45, 42, 37, 34, 29, 26, 21, 18, 13, 10,
    54, 49, 46, 41, 38, 33, 30, 25, 22, 17, 14, 9, 55, 48, 47, 40, 39, 32, 31, 24, 23, 16, 15, 8,
];

/// The number of sets in a file's ordered list that have their first pawn on a lower rank of the board than `rank`
/// (`pawnidx` in the probing code), at index `24 * (pawns - 1) + 6 * file + (rank - 1)`. There are 1 to 4 `pawns`,
/// `file` is 0 to 3, and `rank` is 1 to 6 for the ranks 2 to 7.
const WAYS_BEFORE: [u32; 96] = [
    0, 1, 2, 3, 4, 5, 0, 1, 2, 3, 4, 5, 0, 1, 2, 3, 4, 5, 0, 1, 2, 3, 4, 5, 0, 47, 92, 135, 176,
    215, 0, 35, 68, 99, 128, 155, 0, 23, 44, 63, 80, 95, 0, 11, 20, 27, 32, 35, 0, 1081, 2071,
    2974, 3794, 4535, 0, 595, 1123, 1588, 1994, 2345, 0, 253, 463, 634, 770, 875, 0, 55, 91, 112,
    122, 125, 0, 16215, 30405, 42746, 53406, 62545, 0, 6545, 12001, 16496, 20150, 23075, 0, 1771,
    3101, 4070, 4750, 5205, 0, 165, 249, 284, 294, 295,
];

/// Returns the rank of lead pawns in the ordered list of their file.
#[inline(always)]
pub fn rank_lead_pawns(squares: &[u8], file: u8) -> u64
    requires some { 0 < length squares.now }
    requires few { length squares.now ≤ 4 }
    requires file { file < 4 }
    requires listed { IsIn squares.now (lead_pawn_sets (length squares.now) file) }
    ensures { slice_get (lead_pawn_sets (length squares.now) file) result ≡ Some squares.now }
{
    let first = squares[0];
    let before = ways_before(squares.len(), file, first / 8);
    before + rank_pawns(&squares[1..])
}

// Returns the number of sets in the file's list whose first pawn is on a lower rank of the board than `rank`. `rank` is
// 1 to 6 for the ranks 2 to 7 of the board. The list of a single pawn has one set for each of these ranks, so the
// result is `rank - 1`.
fn ways_before(pawns: usize, file: u8, rank: u8) -> u64
    requires some { 0 < pawns }
    requires few { pawns ≤ 4 }
    requires file { file < 4 }
    requires second { 0 < rank }
    requires seventh { rank < 7 }
    ensures ways { result ≡ slice_index WAYS_BEFORE (24 * (pawns - 1) + 6 * file + (rank - 1)) }
    ensures small { result < 2 ^ 32 }
{
    if pawns == 1 {
        return u64::from(rank - 1);
    }
    u64::from(WAYS_BEFORE[24 * (pawns - 1) + 6 * usize::from(file) + usize::from(rank - 1)])
}

// Returns the rank of a set of pawns among all sets of the same size. The pawns are listed by the values P of their
// squares, the greatest first.
#[inline(always)]
fn rank_pawns(squares: &[u8]) -> u64
    requires few { length squares.now ≤ 6 }
    requires inside { (k : ℕ) → k < length squares.now → slice_index squares.now k < 64 }
    requires falling { IsFallingBelow 64 (map (λ square. slice_index PAWN_NUMBERS square) squares.now) }
    ensures { (n : ℕ) → IsFallingBelow n (map (λ square. slice_index PAWN_NUMBERS square) squares.now) → slice_get (subsets n (length squares.now)) result ≡ Some (map (λ square. slice_index PAWN_NUMBERS square) squares.now) }
{
    let mut number = 0;
    let mut left = squares.len() as u64;
    for square in squares {
        number += choose(u64::from(PAWN_NUMBERS[usize::from(*square)]), left);
        left -= 1;
    }
    number
}

/// Returns the squares of `pawns` lead pawns: set `number` in the ordered list of their file.
pub fn unrank_lead_pawns(pawns: u8, file: u8, number: u64) -> ArrayVec<u8, MAX_MEN>
    requires some { 0 < pawns }
    requires few { pawns ≤ 4 }
    requires file { file < 4 }
    requires below { number < length (lead_pawn_sets pawns file) }
    ensures { slice_get (lead_pawn_sets pawns file) number ≡ Some result.items }
{
    let rank = first_rank(pawns, file, number);
    let first = 8 * rank + file;
    let rest = number - ways_before(usize::from(pawns), file, rank);
    let numbers = unrank_subset(PAWN_NUMBERS[usize::from(first)], pawns - 1, rest);
    let mut squares = ArrayVec::new();
    squares.push(first);
    append_pawns(&mut squares, numbers.as_slice());
    squares
}

// Returns the rank on the board (1 to 6 for the ranks 2 to 7) of the first pawn of set `number`.
fn first_rank(pawns: u8, file: u8, number: u64) -> u8
    requires some { 0 < pawns }
    requires few { pawns ≤ 4 }
    requires file { file < 4 }
    requires below { number < length (lead_pawn_sets pawns file) }
    ensures second { 0 < result }
    ensures seventh { result < 7 }
    ensures from { slice_index WAYS_BEFORE (24 * (pawns - 1) + 6 * file + (result - 1)) ≤ number }
    ensures within { number < slice_index WAYS_BEFORE (24 * (pawns - 1) + 6 * file + (result - 1)) + choose (slice_index PAWN_NUMBERS (8 * result + file)) (pawns - 1) }
{
    for rank in (1..7).rev() {
        if ways_before(usize::from(pawns), file, rank) <= number {
            return rank;
        }
    }
    1
}
