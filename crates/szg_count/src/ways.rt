//! The number of ways to place groups: binomials, and the lists of a lead group.

ghost use Rattle.std.specs.Prelude.{◌≡◌, ◌<◌, ◌≤◌, ◌-◌, ◌&&◌, ◌==◌, if◌then◌else◌, length, map, sum};
ghost use Rattle.std.specs.List.{range_with_len};
ghost use Rattle.szg_values.specs.Material.{IsMaterial};
ghost use Rattle.szg_count.specs.Sets.{subsets, choose};
ghost use Rattle.szg_count.specs.Leads.{lead_pawn_sets};
ghost use Rattle.szg_count.specs.Groups.{lead_ways, has_other_pawns, IsPart};
ghost use Rattle.szg_count.specs.Steps.{ArePositive, ways_by};

use arrayvec::ArrayVec;
use szg_values::{MAX_MEN, Material};

/// The number of ways of a lead group of three men, up to symmetry.
const TRIPLES: u64 = 31332;

/// The number of ways of a lead group of two kings, up to symmetry.
const KING_PAIRS: u64 = 462;

/// The number of squares of the board.
const SQUARES: u64 = 64;

/// The number of squares of ranks 2 to 7.
const PAWN_SQUARES: u64 = 48;

/// The binomials `choose(n, k)`, at index `8 * n + k`, for `n` up to 64 and `k` up to 7.
const BINOMIALS: [u32; 520] = [
    1, 0, 0, 0, 0, 0, 0, 0, 1, 1, 0, 0, 0, 0, 0, 0, 1, 2, 1, 0, 0, 0, 0, 0, 1, 3, 3, 1, 0, 0, 0, 0,
    1, 4, 6, 4, 1, 0, 0, 0, 1, 5, 10, 10, 5, 1, 0, 0, 1, 6, 15, 20, 15, 6, 1, 0, 1, 7, 21, 35, 35,
    21, 7, 1, 1, 8, 28, 56, 70, 56, 28, 8, 1, 9, 36, 84, 126, 126, 84, 36, 1, 10, 45, 120, 210,
    252, 210, 120, 1, 11, 55, 165, 330, 462, 462, 330, 1, 12, 66, 220, 495, 792, 924, 792, 1, 13,
    78, 286, 715, 1287, 1716, 1716, 1, 14, 91, 364, 1001, 2002, 3003, 3432, 1, 15, 105, 455, 1365,
    3003, 5005, 6435, 1, 16, 120, 560, 1820, 4368, 8008, 11440, 1, 17, 136, 680, 2380, 6188, 12376,
    19448, 1, 18, 153, 816, 3060, 8568, 18564, 31824, 1, 19, 171, 969, 3876, 11628, 27132, 50388,
    1, 20, 190, 1140, 4845, 15504, 38760, 77520, 1, 21, 210, 1330, 5985, 20349, 54264, 116280, 1,
    22, 231, 1540, 7315, 26334, 74613, 170544, 1, 23, 253, 1771, 8855, 33649, 100947, 245157, 1,
    24, 276, 2024, 10626, 42504, 134596, 346104, 1, 25, 300, 2300, 12650, 53130, 177100, 480700, 1,
    26, 325, 2600, 14950, 65780, 230230, 657800, 1, 27, 351, 2925, 17550, 80730, 296010, 888030, 1,
    28, 378, 3276, 20475, 98280, 376740, 1184040, 1, 29, 406, 3654, 23751, 118755, 475020, 1560780,
    1, 30, 435, 4060, 27405, 142506, 593775, 2035800, 1, 31, 465, 4495, 31465, 169911, 736281,
    2629575, 1, 32, 496, 4960, 35960, 201376, 906192, 3365856, 1, 33, 528, 5456, 40920, 237336,
    1107568, 4272048, 1, 34, 561, 5984, 46376, 278256, 1344904, 5379616, 1, 35, 595, 6545, 52360,
    324632, 1623160, 6724520, 1, 36, 630, 7140, 58905, 376992, 1947792, 8347680, 1, 37, 666, 7770,
    66045, 435897, 2324784, 10295472, 1, 38, 703, 8436, 73815, 501942, 2760681, 12620256, 1, 39,
    741, 9139, 82251, 575757, 3262623, 15380937, 1, 40, 780, 9880, 91390, 658008, 3838380,
    18643560, 1, 41, 820, 10660, 101270, 749398, 4496388, 22481940, 1, 42, 861, 11480, 111930,
    850668, 5245786, 26978328, 1, 43, 903, 12341, 123410, 962598, 6096454, 32224114, 1, 44, 946,
    13244, 135751, 1086008, 7059052, 38320568, 1, 45, 990, 14190, 148995, 1221759, 8145060,
    45379620, 1, 46, 1035, 15180, 163185, 1370754, 9366819, 53524680, 1, 47, 1081, 16215, 178365,
    1533939, 10737573, 62891499, 1, 48, 1128, 17296, 194580, 1712304, 12271512, 73629072, 1, 49,
    1176, 18424, 211876, 1906884, 13983816, 85900584, 1, 50, 1225, 19600, 230300, 2118760,
    15890700, 99884400, 1, 51, 1275, 20825, 249900, 2349060, 18009460, 115775100, 1, 52, 1326,
    22100, 270725, 2598960, 20358520, 133784560, 1, 53, 1378, 23426, 292825, 2869685, 22957480,
    154143080, 1, 54, 1431, 24804, 316251, 3162510, 25827165, 177100560, 1, 55, 1485, 26235,
    341055, 3478761, 28989675, 202927725, 1, 56, 1540, 27720, 367290, 3819816, 32468436, 231917400,
    1, 57, 1596, 29260, 395010, 4187106, 36288252, 264385836, 1, 58, 1653, 30856, 424270, 4582116,
    40475358, 300674088, 1, 59, 1711, 32509, 455126, 5006386, 45057474, 341149446, 1, 60, 1770,
    34220, 487635, 5461512, 50063860, 386206920, 1, 61, 1830, 35990, 521855, 5949147, 55525372,
    436270780, 1, 62, 1891, 37820, 557845, 6471002, 61474519, 491796152, 1, 63, 1953, 39711,
    595665, 7028847, 67945521, 553270671, 1, 64, 2016, 41664, 635376, 7624512, 74974368, 621216192,
];

/// Returns the number of sets of `k` of `n` things, for `n` up to 64 and `k` up to 6; 0 if `k` is above `n`.
#[inline(always)]
pub fn choose(n: u64, k: u64) -> u64
    requires things { n ≤ 64 }
    requires chosen { k ≤ 6 }
    ensures count { result ≡ choose n k }
    ensures sets { result ≡ length (subsets n k) }
{
    u64::from(BINOMIALS[(8 * n + k) as usize])
}

/// Returns the number of ways to place the lead group of a part: with pawns by the part's file (`pfactor` in the
/// probing code), else 31332 for three men and 462 for two kings (`pivfac`).
///
/// With pawns there are the parts 0 to 3, of the files a and h, b and g, c and f, d and e; without pawns there is
/// only part 0.
pub fn lead_ways(material: &Material, part: u8) -> u64
    requires { IsPart material.now part }
    ensures { result ≡ lead_ways material.now part }
{
    // for proofs alone: a material has a name, so at most four pawns lead
    let _men = material.men();
    if material.has_pawns() {
        lead_pawn_ways(material.lead_pawns(), part)
    } else if material.single_lead() {
        TRIPLES
    } else {
        KING_PAIRS
    }
}

// Returns the ways of lead pawns on a file: the sum, over the squares of the first lead pawn, of the number of sets
// of squares after it for the other lead pawns. In the order of pawn squares 47 squares come after the first square
// of file a, 12 fewer for each further file and 2 fewer for each further rank.
fn lead_pawn_ways(pawns: u8, file: u8) -> u64
    requires some { 0 < pawns }
    requires few { pawns ≤ 4 }
    requires file { file < 4 }
    ensures { result ≡ length (lead_pawn_sets pawns file) }
{
    let mut count = 0;
    for rank in 0..6 {
        let squares_after = 47 - 12 * u64::from(file) - 2 * rank;
        count += choose(squares_after, u64::from(pawns) - 1);
    }
    count
}

/// Returns the ways of groups of these lengths, each on the squares that the groups before it leave free: only
/// squares of ranks 2 to 7 for the other pawns.
pub fn group_ways(material: &Material, part: u8, lengths: &[u8]) -> ArrayVec<u64, MAX_MEN>
    requires material { IsMaterial material.now }
    requires part { IsPart material.now part }
    requires few { sum lengths.now ≤ 6 }
    requires capacity { length lengths.now ≤ 6 }
    ensures ways { result.items ≡ map (ways_by (lead_ways material.now part) (has_other_pawns material.now) lengths.now) (range_with_len 0 (length lengths.now)) }
    ensures positive { ArePositive result.items }
{
    let has_other = material.other_pawns() > 0;
    let lead = lead_ways(material, part);
    let mut ways = ArrayVec::new();
    let mut before = 0;
    for (i, length) in lengths.iter().enumerate() {
        let length = u64::from(*length);
        ways.push(ways_of_next(i, lead, has_other, before, length));
        before += length;
    }
    ways
}

// Returns the ways of group `i` with `before` men before it: `lead` for the lead group, else the number of sets of
// the free squares.
fn ways_of_next(i: usize, lead: u64, has_other: bool, before: u64, length: u64) -> u64
    requires before { before ≤ 6 }
    requires length { length ≤ 6 }
    ensures { result ≡ (if i == 0 then lead else choose ((if has_other && i == 1 then 48 else 64) - before) length) }
{
    match i {
        0 => lead,
        1 if has_other => choose(PAWN_SQUARES - before, length),
        _ => choose(SQUARES - before, length),
    }
}
