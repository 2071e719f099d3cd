//! The positions of groups in the order in which they enter the index.

ghost use Rattle.std.specs.Prelude.{◌≡◌, ◌<◌, ◌≤◌, ◌∷◌, IsTrue, is_some, option_to_list};
ghost use Rattle.szg_count.specs.Leads.{contains};
ghost use Rattle.szg_count.specs.Steps.{are_valid_positions, positions_from};

use arrayvec::ArrayVec;
use szg_values::MAX_MEN;

/// Returns whether the given positions are valid: a second one exactly if there are other pawns, both below the
/// number of groups, and different.
pub fn are_valid_positions(has_other: bool, lead: u8, other: Option<u8>, count: usize) -> bool
    ensures { result ≡ are_valid_positions has_other lead other count }
{
    let is_below = |position: u8| usize::from(position) < count;
    match other {
        Some(position) => has_other && is_below(lead) && is_below(position) && position != lead,
        None => !has_other && is_below(lead),
    }
}

// The positions that the nibbles give.
fn given_positions(lead: u8, other: Option<u8>) -> ArrayVec<u8, MAX_MEN>
    ensures { result.items ≡ lead ∷ option_to_list other }
{
    let mut positions = ArrayVec::new();
    positions.push(lead);
    if let Some(position) = other {
        positions.push(position);
    }
    positions
}

// Returns whether the nibbles give this position.
fn is_assigned(lead: u8, other: Option<u8>, position: u8) -> bool
    ensures { result ≡ contains (lead ∷ option_to_list other) position }
{
    match other {
        Some(second) => position == lead || position == second,
        None => position == lead,
    }
}

/// Returns the positions of all groups in slot order: the given ones, followed by the remaining ones.
pub fn positions_of(lead: u8, other: Option<u8>, count: usize) -> ArrayVec<u8, MAX_MEN>
    requires capacity { count ≤ 6 }
    requires valid { IsTrue (are_valid_positions (is_some other) lead other count) }
    ensures { result.items ≡ positions_from lead other count }
{
    let mut positions = given_positions(lead, other);
    for position in 0..count as u8 {
        if !is_assigned(lead, other, position) {
            positions.push(position);
        }
    }
    positions
}
