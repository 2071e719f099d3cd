//! The state of a reader, and lists that grow while a file is read.
ghost use Rattle.std.specs.Prelude.{◌≡◌, ◌+◌, ◌*◌, ◌^◌, ◌≤◌, ◌<◌, ◌∷◌, [], ◌++◌, OnOk, OnErr, Err};

use crate::fault::ReadFault;
use std::alloc::Global;

/// The state of a reader.
#[derive(Drop)]
pub struct ReaderState {
    /// The number of bytes read.
    pub place: u64,
    /// The total growth of this crate's lists in items, dropped lists included. Only `grow` increases it.
    pub growth: u64,
    /// The padding bytes among the bytes read, in order.
    pub fill: Vec<u8>,
    // All lists together grow by at most 4 items for each byte read, and 65,536 more.
    pub ghost bound: { growth ≤ 4 * place + 65536 },
}

impl ReaderState {
    /// Creates the state before the first byte.
    pub fn new(alloc: Global) -> ReaderState
        ensures place { result.place ≡ 0 }
        ensures growth { result.growth ≡ 0 }
        ensures fill { result.fill.items ≡ [] }
    {
        ReaderState {
            place: 0,
            growth: 0,
            fill: Vec::new(alloc),
        }
    }
}

/// Reserves space for `more` items of a list, and counts them. All lists of this crate grow through this function
/// while a file is read: a list is at most 65,536 items ahead of its bytes, and all lists together grow by at most
/// 4 items for each byte read, and 65,536 more.
pub fn grow<T>(list: &mut Vec<T>, more: usize, state: &mut ReaderState) -> Result<(), ReadFault>
    requires ahead { more ≤ 65536 }
    requires bound { state.old.growth + more ≤ 4 * state.old.place + 65536 }
    requires fits { state.old.growth + more < 2 ^ 64 }
    ensures items { list.new.items ≡ list.old.items }
    ensures growth { OnOk result (state.new.growth ≡ state.old.growth + more) }
    ensures place { state.new.place ≡ state.old.place }
    ensures fill { state.new.fill.items ≡ state.old.fill.items }
    ensures memory { OnErr result (result ≡ Err ReadFault.Memory) }
{
    if list.try_reserve(more).is_err() {
        return Err(ReadFault::Memory);
    }
    state.growth += more as u64;
    Ok(())
}

/// Appends an item.
pub(crate) fn append<T: Drop>(
    list: &mut Vec<T>,
    item: T,
    state: &mut ReaderState,
) -> Result<(), ReadFault>
    requires growth_bound { state.old.growth ≤ 2 * state.old.place + 2 ^ 15 }
    requires place { state.old.place < 2 ^ 62 }
    ensures items { OnOk result (list.new.items ≡ list.old.items ++ item ∷ []) }
    ensures growth { OnOk result (state.new.growth ≡ state.old.growth + 1) }
    ensures place { OnOk result (state.new.place ≡ state.old.place) }
    ensures fill { OnOk result (state.new.fill.items ≡ state.old.fill.items) }
    ensures memory { OnErr result (result ≡ Err ReadFault.Memory) }
{
    grow(list, 1, state)?;
    list.push(item)?;
    Ok(())
}
