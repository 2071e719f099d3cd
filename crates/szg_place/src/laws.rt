//! Laws over the definitions. The contract of each function is a law.

ghost use Rattle.std.specs.Prelude.{◌≡◌, ◌<◌, IsNone, IsSome, IfSome};
ghost use Rattle.szg_file.specs.Index.{slot_in};
ghost use Rattle.szg_file.specs.Values.{subtable_at};
ghost use Rattle.szg_place.specs.Ranks.{LawUnrankAfterRank, LawRankAfterUnrank};
ghost use Rattle.szg_place.specs.Laws.{LawBelowSize, LawOneSpot, LawSpotOfPlacement, LawPlacementOfSpot};
ghost use Rattle.szg_place.specs.Images.{LawImageSpot};
ghost use Rattle.szg_place.specs.Layout.{IsLayout};
ghost use Rattle.szg_place.specs.Spots.{board_at, place_fault, placement_refusal, spot_of};
ghost use Rattle.szg_place.specs.Tables.{numbering_of, numbering_in};

use szg_file::{Table, TableIndex};

/// Ranking the squares of each group in the group's ordered list, and unranking these ranks, returns the squares.
pub fn squares_of_ranks()
    ensures { LawUnrankAfterRank }
{}

/// Unranking ranks to squares, and ranking these squares, returns the ranks.
pub fn ranks_of_index()
    ensures { LawRankAfterUnrank }
{}

/// If a table has an index for a placement, the index is below the size of its subtable.
pub fn below_size()
    ensures { LawBelowSize }
{}

/// Two placements with an index in a table have the same spot exactly if their normal forms agree.
pub fn one_spot()
    ensures { LawOneSpot }
{}

/// Unranking an index to a placement, and ranking this placement, returns the index.
pub fn spot_of_placement()
    ensures { LawSpotOfPlacement }
{}

/// Unranking the index of a placement returns the placement of its normal form.
pub fn placement_of_spot()
    ensures { LawPlacementOfSpot }
{}

/// A table has one spot for a placement and for its images: its men in another order, the colours exchanged, and without
/// pawns the files or the ranks flipped. It refuses both for the same reason.
pub fn spot_of_image()
    ensures { LawImageSpot }
{}

/// A table's numbering satisfies `IsLayout`, which the laws require: it has as many parts as the material requires, and
/// each side of each part has valid order nibbles and men.
pub fn table_numbering(table: &Table)
    ensures { IsLayout (numbering_of table.now.contents) }
{
    // for proofs alone: a `TableIndex` is valid, and its material is the men of a name
    let _ = table.index().material_info();
}

/// If `placement_of` returns a placement for a part, side and index, `index_of` returns the same part, side and index
/// for this placement.
pub fn index_of_placement(table: &Table, part: u8, side: u8, index: u64)
    requires there { IsSome (subtable_at table.now.contents part side) }
    requires below { IfSome (subtable_at table.now.contents part side) (λ found. index < found.0.size) }
    ensures accepted { IsNone (placement_refusal (numbering_of table.now.contents) part side) →
        IsNone (place_fault (numbering_of table.now.contents) (board_at (numbering_of table.now.contents) part side index)) }
    ensures spot { IsNone (placement_refusal (numbering_of table.now.contents) part side) →
        spot_of (numbering_of table.now.contents) (board_at (numbering_of table.now.contents) part side index) ≡ record { part = part; side = side; index = index } }
{
    index_in_placement(table.index(), part, side, index);
}

/// If `placement` returns a placement for a spot, `locate` returns the same spot for this placement. Both functions take
/// the `TableIndex`, which each type of table has.
pub fn index_in_placement(table: &TableIndex, part: u8, side: u8, index: u64)
    requires there { IsSome (slot_in table.now part side) }
    requires below { IfSome (slot_in table.now part side) (λ slot. index < slot.size) }
    ensures accepted { IsNone (placement_refusal (numbering_in table.now) part side) →
        IsNone (place_fault (numbering_in table.now) (board_at (numbering_in table.now) part side index)) }
    ensures spot { IsNone (placement_refusal (numbering_in table.now) part side) →
        spot_of (numbering_in table.now) (board_at (numbering_in table.now) part side index) ≡ record { part = part; side = side; index = index } }
{
    // for proofs alone: a `TableIndex` is valid, and its material is the men of a name
    let _ = table.material_info();
}
