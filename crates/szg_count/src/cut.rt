//! The used men of a part: whether they are the material's, and how they are divided into groups.

ghost use Rattle.std.specs.Prelude.{◌≡◌, ◌<◌, ◌≤◌, ◌+◌, ◌++◌, ◌∷◌, [], ◌==◌, nat_lt, if◌then◌else◌, length, map, sum, IsTrue};
ghost use Rattle.arrayvec.specs.ArrayVec.{array_vec_len};
ghost use Rattle.szg_values.specs.Material.{IsMaterial, man_codes, count_of, has_pawns, lead_pawn_code, other_pawn_code};
ghost use Rattle.szg_count.specs.Groups.{is_rearrangement, has_pawns_first, lead_length, groups_of};
ghost use Rattle.szg_count.specs.Steps.{leading, run_lengths};

use arrayvec::ArrayVec;
use szg_values::{MAX_MEN, Material};

/// The code of a pawn of the name's first side.
const FIRST_PAWN: u8 = 1;

/// The code of a pawn of the name's second side.
pub const SECOND_PAWN: u8 = 9;

/// Returns whether the used men are a rearrangement of the material's.
pub fn is_rearrangement(used: &[u8], codes: &[u8]) -> bool
    ensures { result ≡ is_rearrangement used.now codes.now }
{
    used.len() == codes.len()
        && codes
            .iter()
            .all(|code| count_of(*code, used) == count_of(*code, codes))
}

/// Counts the men with this code.
pub fn count_of(code: u8, codes: &[u8]) -> usize
    ensures { result ≡ count_of code codes.now }
{
    codes.iter().filter(|man| **man == code).count()
}

/// Returns whether the first slots are the lead pawns followed by the other pawns. `codes` are the material's man
/// codes.
pub fn has_pawns_first(material: &Material, codes: &[u8], men: &[u8]) -> bool
    requires codes { codes.now ≡ man_codes material.now }
    requires material { IsMaterial material.now }
    requires pieces { IsTrue (is_rearrangement men.now codes.now) }
    ensures { result ≡ has_pawns_first material.now men.now }
{
    let (lead, other) = pawn_codes(material, codes);
    let (first, following) = men.split_at(usize::from(material.lead_pawns()));
    let (next, _) = following.split_at(usize::from(material.other_pawns()));
    first.iter().all(|man| *man == lead) && next.iter().all(|man| *man == other)
}

/// Returns the codes of the lead pawns and of the other pawns, for a material with pawns. The first side leads if
/// its number of pawns is the number of lead pawns.
pub(crate) fn pawn_codes(material: &Material, codes: &[u8]) -> (u8, u8)
    requires { codes.now ≡ man_codes material.now }
    ensures lead { IsTrue (has_pawns material.now) → result.0 ≡ lead_pawn_code material.now }
    ensures other { IsTrue (has_pawns material.now) → result.1 ≡ other_pawn_code material.now }
{
    if count_of(FIRST_PAWN, codes) == usize::from(material.lead_pawns()) {
        (FIRST_PAWN, SECOND_PAWN)
    } else {
        (SECOND_PAWN, FIRST_PAWN)
    }
}

/// Returns the number of men in the lead group.
pub fn lead_length(material: &Material) -> u8
    ensures { result ≡ lead_length material.now }
{
    if material.has_pawns() {
        material.lead_pawns()
    } else if material.single_lead() {
        3
    } else {
        2
    }
}

/// Returns the lengths of the groups: the lead group, the other pawns (if any) and runs of equal men.
pub fn group_lengths(material: &Material, men: &[u8]) -> ArrayVec<u8, MAX_MEN>
    requires material { IsMaterial material.now }
    requires pieces { IsTrue (is_rearrangement men.now (man_codes material.now)) }
    ensures lengths { result.items ≡ map (λ group. length group) (groups_of material.now men.now) }
    ensures few { sum result.items ≤ 6 }
    ensures capacity { length result.items ≤ 6 }
{
    let lead = lead_length(material);
    let others = material.other_pawns();
    let mut lengths = leading_lengths(lead, others);
    let (_, following) = men.split_at(usize::from(lead + others));
    push_runs(&mut lengths, following);
    lengths
}

// Returns the lengths of the lead group and of the other pawns, if any.
fn leading_lengths(lead: u8, others: u8) -> ArrayVec<u8, MAX_MEN>
    ensures { result.items ≡ lead ∷ (if nat_lt 0 others then others ∷ [] else []) }
{
    let mut lengths = ArrayVec::new();
    lengths.push(lead);
    if others > 0 {
        lengths.push(others);
    }
    lengths
}

// Appends the lengths of the runs of equal men.
fn push_runs(lengths: &mut ArrayVec<u8, MAX_MEN>, men: &[u8])
    requires { array_vec_len lengths.old + length men.now ≤ 6 }
    ensures { lengths.new.items ≡ lengths.old.items ++ run_lengths men.now }
{
    let mut rest = men;
    while let Some(man) = rest.first() {
        let (run, following) = rest.split_at(leading(*man, rest));
        lengths.push(run.len() as u8);
        rest = following;
    }
}

// Returns the length of the first run of equal men.
fn leading(man: u8, men: &[u8]) -> usize
    ensures count { result ≡ leading man men.now }
    ensures within { result ≤ length men.now }
{
    for (i, next) in men.iter().enumerate() {
        if man != *next {
            return i;
        }
    }
    men.len()
}
