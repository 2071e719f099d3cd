//! Binomials, groups, sizes and ranks of sets in Syzygy tables: the number of positions of a subtable, and the
//! parts of which a position's index consists. The rules are those of de Man's format and its probing code.
#![tactic(auto)]

ghost use Rattle.std.specs.Prelude.{◌≡◌, ◌<◌, ◌≤◌, ◌^◌, length, map, sum, IsNone, IfSome, Ok, Err, Some, slice_get};
ghost use Rattle.std.specs.List.{range_with_len};
ghost use Rattle.szg_count.specs.Groups.{order_fault, counted, IsPart, nibble, nibbles_of, product, ways_before};
ghost use Rattle.szg_count.specs.Views.{nibbles_in, groups_in_slot_order};
ghost use Rattle.szg_count.specs.Steps.{ArePositive, group_from};

use arrayvec::ArrayVec;
use cut::{group_lengths, has_pawns_first, is_rearrangement};
use placing::{are_valid_positions, positions_of};
use std::marker::Model;
use szg_values::{MAX_MEN, Material};
use thiserror::Error;
use ways::group_ways;

mod cut;
pub mod laws;
mod material_info;
mod placing;
mod side_groups;
mod subsets;
mod ways;

pub use material_info::MaterialInfo;
pub use side_groups::SideGroups;
pub use subsets::unrank_subset;
pub use ways::{choose, lead_ways};

/// Why nibbles do not order the groups of a material: the first check that fails, in this order.
#[derive(Clone, Copy, Debug, PartialEq, Eq, Error)]
pub enum OrderFault {
    /// The used men are not a rearrangement of the material's men.
    #[error("Pieces")]
    Pieces,
    /// With pawns, the first slots are not the lead pawns followed by the other pawns.
    #[error("PawnsFirst")]
    PawnsFirst,
    /// A second position is given without other pawns, or none with them; or the positions are not different, or
    /// not below the number of groups.
    #[error("OrderPlace")]
    OrderPlace,
}

/// One side's nibbles of a part: how its men are grouped, and in which order the groups enter the index.
#[derive(Drop)]
pub struct Order {
    /// The position of the lead group in that order; 0 is the group with factor 1.
    pub lead: u8,
    /// The position of the other pawns, if both colours have pawns.
    pub other: Option<u8>,
    /// The used men: a man code for each slot.
    pub men: ArrayVec<u8, MAX_MEN>,
}

impl Order {
    /// Returns a side's nibbles of a part: the low ones of its order bytes and its man bytes for side 0, the high
    /// ones for side 1. There are at most six man bytes. A second order byte gives the position of the other pawns;
    /// without order bytes the lead group's position is 0.
    pub fn of_side(side: u8, order: &[u8], men: &[u8]) -> Order
        requires side { side < 2 }
        requires men { length men.now ≤ 6 }
        ensures { nibbles_in result ≡ nibbles_of side order.now men.now }
    {
        let lead = if order.is_empty() {
            0
        } else {
            nibble_of(side, order[0])
        };
        let other = if order.len() > 1 {
            Some(nibble_of(side, order[1]))
        } else {
            None
        };
        let mut used = ArrayVec::new();
        for man in men {
            used.push(nibble_of(side, *man));
        }
        Order {
            lead,
            other,
            men: used,
        }
    }
}

// Returns a side's nibble of a byte: the low one for side 0, the high one for side 1.
fn nibble_of(side: u8, byte: u8) -> u8
    requires { side < 2 }
    ensures { result ≡ nibble side byte }
{
    if side == 0 { byte % 16 } else { byte / 16 }
}

/// A group of slots.
#[derive(Clone, Copy, Debug, Default, PartialEq, Eq)]
pub struct Group {
    /// Its first slot.
    pub first: u8,
    /// Its number of men.
    pub length: u8,
    /// The number of ways to place its men once the groups of earlier slots are placed.
    pub ways: u64,
    /// The product of the ways of the groups at earlier positions: what 1 in this group's number adds to the index.
    pub factor: u64,
}

/// The groups of a part and side, in slot order.
#[derive(Drop)]
pub struct Groups {
    groups: ArrayVec<Group, MAX_MEN>,
    size: u64,
}

// Callers see the groups in slot order.
impl Model for Groups {
    ghost use Rattle.std.specs.Prelude.{◌≡◌, ◌<◌, ◌^◌, List, map};
    ghost use Rattle.szg_count.specs.Groups.{product};
    ghost use Rattle.szg_count.specs.declared.Group.{Group};

    ghost Value = { List Group };

    ghost view = { λ g. g.groups.items };

    ghost invariant = { λ g. (g.size ≡ product (map (λ group. group.ways) g.groups.items)) × (g.size < 2 ^ 33) };
}

impl Groups {
    /// Divides a part's side into groups and orders them by its nibbles: the lead group, the other pawns (if any),
    /// and runs of equal men (`calc_factors_piece` and `calc_factors_pawn` in the probing code). The part is one of
    /// those that [`lead_ways`] lists.
    ///
    /// Errors: the first of `Pieces`, `PawnsFirst` and `OrderPlace` that applies.
    pub fn of(material: &Material, part: u8, order: &Order) -> Result<Groups, OrderFault>
        requires { IsPart material.now part }
        // The first check that fails gives the error; if none fails, the groups are those of the format.
        ensures ordered { IsNone (order_fault material.now (nibbles_in order.now)) → result ≡ Ok (groups_in_slot_order (counted material.now part (nibbles_in order.now))) }
        ensures refused { IfSome (order_fault material.now (nibbles_in order.now)) (λ fault. result ≡ Err fault) }
    {
        let codes = material.men();
        let men = order.men.as_slice();
        if !is_rearrangement(men, codes.as_slice()) {
            return Err(OrderFault::Pieces);
        }
        if !has_pawns_first(material, codes.as_slice(), men) {
            return Err(OrderFault::PawnsFirst);
        }
        let lengths = group_lengths(material, men);
        let has_other = material.other_pawns() > 0;
        if !are_valid_positions(has_other, order.lead, order.other, lengths.len()) {
            return Err(OrderFault::OrderPlace);
        }
        let positions = positions_of(order.lead, order.other, lengths.len());
        let ways = group_ways(material, part, lengths.as_slice());
        Ok(Groups::assembled(lengths.as_slice(), ways.as_slice(), positions.as_slice()))
    }

    // Makes the groups of these lengths, ways and positions.
    fn assembled(lengths: &[u8], ways: &[u64], positions: &[u8]) -> Groups
        requires few { sum lengths.now ≤ 6 }
        requires capacity { length lengths.now ≤ 6 }
        requires ways { length ways.now ≡ length lengths.now }
        requires positions { length positions.now ≡ length lengths.now }
        requires positive { ArePositive ways.now }
        requires fits { product ways.now < 2 ^ 33 }
        ensures { result ≡ map (group_from lengths.now ways.now positions.now) (range_with_len 0 (length lengths.now)) }
    {
        let mut groups = ArrayVec::new();
        let mut first = 0;
        let mut size = 1;
        for (i, length) in lengths.iter().enumerate() {
            groups.push(Group {
                first,
                length: *length,
                ways: ways[i],
                factor: factor_at(positions[i], positions, ways),
            });
            first += *length;
            size *= ways[i];
        }
        Groups { groups, size }
    }

    /// Returns the number of groups.
    pub fn count(&self) -> usize
        ensures { result ≡ length self.now }
    {
        self.groups.len()
    }

    /// Returns the number of positions of the part's side: the product of the groups' ways, below 2^33.
    pub fn size(&self) -> u64
        ensures product { result ≡ product (map (λ group. group.ways) self.now) }
        ensures fits { result < 2 ^ 33 }
    {
        self.size
    }

    /// Returns group `i` in slot order; `i` is below `count`.
    pub fn group(&self, i: usize) -> Group
        requires { i < length self.now }
        ensures { slice_get self.now i ≡ Some result }
    {
        self.groups[i]
    }
}

// Returns the product of the ways at positions before this one.
fn factor_at(position: u8, positions: &[u8], ways: &[u64]) -> u64
    requires ways { length ways.now ≡ length positions.now }
    requires positive { ArePositive ways.now }
    requires fits { product ways.now < 2 ^ 33 }
    ensures { result ≡ product (ways_before position positions.now ways.now) }
{
    let mut factor = 1;
    for (i, earlier) in positions.iter().enumerate() {
        if *earlier < position {
            factor *= ways[i];
        }
    }
    factor
}
