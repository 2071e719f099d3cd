//! Probes: the class or the DTZ number of a placement, wherever the table's blocks are.

ghost use Rattle.std.specs.Prelude.{ℕ, ◌≡◌, ◌<◌, ◌≤ℤ◌, pos, neg_ℤ, IsNone, IfErr, IfOk, IfSome, IsSomeAnd, Err, Some};
ghost use Rattle.szg_file.specs.FrontTable.{IsFrontOf};
ghost use Rattle.szg_file.specs.Index.{Index, index_of, slot_in};
ghost use Rattle.szg_place.specs.declared.Spot.{Spot};
ghost use Rattle.szg_place.specs.Probes.{IsBadAt, IsMeant, IsValueAt, as_class, as_number};
ghost use Rattle.szg_place.specs.Spots.{place_fault, spot_of};
ghost use Rattle.szg_place.specs.Tables.{class_of, numbering_in, value_at};

use crate::spots::locate;
use crate::{PlaceFault, Spot};
use std::convert::Infallible;
use szg_file::typed::table_fits;
use szg_file::{FetchFault, FrontTable, MapFault, Table, TableIndex};
use szg_values::{Kind, PlacedMen};

/// Why a probe returns neither a class nor a number. `F` is the fault of fetching a value.
#[derive(Clone, Copy, Debug, PartialEq, Eq)]
pub enum Unprobed<F> {
    /// The table has no index for the placement.
    Place(PlaceFault),
    /// The value is not fetched.
    Fetch(F),
    /// The table has no number for the value in this class, or the class is a draw.
    Map(MapFault),
}

/// The values of a table, wherever its blocks are.
pub trait Values {
    /// Why a value is not fetched.
    type Fault;

    /// The table's index.
    ghost index_in: { Self → Index };

    /// What is true of a value that is fetched for a spot.
    ghost is_value: { Self → Spot → ℕ → Type 0 };

    /// What is true of a fault for a spot.
    ghost is_fault: { Self → Spot → Self.Fault → Type 0 };

    /// Returns the table's index.
    fn index(&self) -> &TableIndex
        ensures { result.now ≡ index_in self.now };

    /// Fetches the value at a spot.
    fn value(&mut self, spot: Spot) -> Result<u16, Self::Fault>
        requires { IsSomeAnd (slot_in (index_in self.old) spot.part spot.side) (λ slot. spot.index < slot.size) }
        ensures value { IfOk result (is_value self.old spot) }
        ensures fault { IfErr result (is_fault self.old spot) }
        ensures index { index_in self.new ≡ index_in self.old };
}

impl<'a> Values for &'a Table {
    type Fault = Infallible;

    ghost index_in = { λ t. index_of t.now.contents };

    ghost is_value = { λ t spot v. value_at t.now.contents spot ≡ Some v };

    ghost is_fault = { λ t spot fault. ⊥ };

    #[inline(always)]
    fn index(&self) -> &TableIndex {
        (*self).index()
    }

    #[inline(always)]
    fn value(&mut self, spot: Spot) -> Result<u16, Infallible> {
        let table = *self;
        table_fits(table);
        Ok(table.get(spot.part, spot.side, spot.index))
    }
}

/// A table that was opened by its front, with the bytes of its file.
#[derive(Clone, Copy)]
pub struct FrontBytes<'a> {
    /// The table.
    pub front: &'a FrontTable,
    /// The bytes of its file.
    pub bytes: &'a [u8],
}

impl<'a> Values for FrontBytes<'a> {
    type Fault = FetchFault;

    ghost index_in = { λ f. f.front.now.index };

    ghost is_value = { λ f spot v. IsFrontOf f.front.now f.bytes.now → IsValueAt f.front.now f.bytes.now spot v };

    ghost is_fault = { λ f spot fault. IsFrontOf f.front.now f.bytes.now → IsBadAt f.front.now f.bytes.now spot fault };

    #[inline(always)]
    fn index(&self) -> &TableIndex {
        self.front.index()
    }

    #[inline(always)]
    fn value(&mut self, spot: Spot) -> Result<u16, FetchFault> {
        self.front.get(self.bytes, spot.part, spot.side, spot.index)
    }
}

/// Returns the class of a placement from a WDL table: 2 is a win, 1 a cursed win, 0 a draw, -1 a blessed loss and -2
/// a loss for the side to move. None if the value is above 4. Captures and en passant are not considered.
/// (`probe_wdl_table` in the probing code.)
///
/// Errors: `Place` with the error of `locate`, then `Fetch` if the value is not fetched.
#[inline(always)]
pub fn probe_class<V: Values + Drop>(
    mut values: V,
    placement: &PlacedMen<'_>,
) -> Result<Option<i8>, Unprobed<V::Fault>>
    requires { (V.index_in values).kind ≡ Kind.Wdl }
    ensures refused { IfSome (place_fault (numbering_in (V.index_in values)) placement.now) (λ fault. result ≡ Err (Unprobed.Place fault)) }
    ensures class { IsNone (place_fault (numbering_in (V.index_in values)) placement.now) →
        (let spot = spot_of (numbering_in (V.index_in values)) placement.now in
        IsMeant (V.is_value values spot) (V.is_fault values spot) as_class result) }
{
    let spot = match locate(values.index(), placement) {
        Ok(spot) => spot,
        Err(fault) => return Err(Unprobed::Place(fault)),
    };
    match values.value(spot) {
        Ok(value) => Ok(class_of(value)),
        Err(fault) => Err(Unprobed::Fetch(fault)),
    }
}

/// Returns the class of a WDL value: the value less two (2 win, 1 cursed win, 0 draw, -1 blessed loss, -2 loss). None
/// if it is above 4.
pub fn class_of(value: u16) -> Option<i8>
    ensures { result ≡ class_of value }
{
    if value < 5 {
        Some(value as i8 - 2)
    } else {
        None
    }
}

/// Returns the number that a DTZ table stores for a placement of this class (2 win, 1 cursed win, -1 blessed loss, -2
/// loss), in plies and without sign. If the table stores it in moves, it is doubled. (`probe_dtz_table` in the probing
/// code, whose caller adds 1 for the DTZ, or 101 in the classes 1 and -1.)
///
/// Errors: `Place` with the error of `locate`; then `Fetch` if the value is not fetched; then `Map` if the class is 0,
/// or if the part has a map whose list for the class has no item for the value.
#[inline(always)]
pub fn probe_number<V: Values + Drop>(
    mut values: V,
    placement: &PlacedMen<'_>,
    class: i8,
) -> Result<u32, Unprobed<V::Fault>>
    requires kind { (V.index_in values).kind ≡ Kind.Dtz }
    requires lowest { neg_ℤ (pos 2) ≤ℤ class }
    requires highest { class ≤ℤ pos 2 }
    ensures refused { IfSome (place_fault (numbering_in (V.index_in values)) placement.now) (λ fault. result ≡ Err (Unprobed.Place fault)) }
    ensures number { IsNone (place_fault (numbering_in (V.index_in values)) placement.now) →
        (let spot = spot_of (numbering_in (V.index_in values)) placement.now in
        IsMeant (V.is_value values spot) (V.is_fault values spot) (as_number (V.index_in values) spot.part class) result) }
{
    let spot = match locate(values.index(), placement) {
        Ok(spot) => spot,
        Err(fault) => return Err(Unprobed::Place(fault)),
    };
    let value = match values.value(spot) {
        Ok(value) => value,
        Err(fault) => return Err(Unprobed::Fetch(fault)),
    };
    match values.index().map_value(spot.part, class, value) {
        Ok(number) => Ok(number),
        Err(fault) => Err(Unprobed::Map(fault)),
    }
}
