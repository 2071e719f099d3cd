//! Counts the bytes of a table before its sparse indexes. The padding before the blocks depends on this count, and so
//! does the best packing of a small table with exactly one subtable that is not constant.
//!
//! Only the safety of this code is proved: the builder uses the count only to compare its tries.
use crate::Plan;
use szg_file::Map;

/// Returns the number of bytes of a table before its sparse indexes, without the header of the one subtable that is not
/// constant. None if more than one is not constant, since the padding then depends on all of them. `with_blocks` of the
/// `count` subtables are not constant.
pub(crate) fn count_other_bytes(plan: &Plan, count: usize, with_blocks: usize) -> Option<u64> {
    if with_blocks > 1 {
        return None;
    }
    let to_even = |offset: u64| offset.saturating_add(offset % 2);
    let mut offset: u64 = 5; // the magic and byte 4
    for part in &plan.parts {
        offset = offset
            .saturating_add(part.order.len() as u64)
            .saturating_add(part.men.len() as u64);
    }
    let constant = count.saturating_sub(with_blocks) as u64;
    offset = to_even(offset).saturating_add(constant.saturating_mul(2));
    for item in &plan.maps {
        offset = match item {
            None => offset,
            Some(Map::Bytes(lists)) => lists.iter().fold(offset, |sum, list| {
                sum.saturating_add(1).saturating_add(list.len() as u64)
            }),
            // padding to an even offset is before the items of two bytes
            Some(Map::Wide(lists)) => lists.iter().fold(to_even(offset), |sum, list| {
                sum.saturating_add(2)
                    .saturating_add((list.len() as u64).saturating_mul(2))
            }),
        };
    }
    Some(to_even(offset))
}
