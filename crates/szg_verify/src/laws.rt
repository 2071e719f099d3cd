//! Laws over the definitions. The contract of each function is a law, and its body is empty.

ghost use Rattle.szg_verify.specs.Materials.{ClosedByMaterials, MaterialExamples};
ghost use Rattle.szg_verify.specs.Walk.{RangesJoin, ShardsAreWhole, VerifiedIsTrue, WalkIsWhole};
ghost use Rattle.szg_verify.specs.Laws.{CheckedByImages, CheckedIsTrue, CheckedIsVerified, ClosedByCount, EntriesAreTrue, KingsAreChecked, ProbedIsTrue, StoredAreTrue};

/// If tables pass, each position that they cover has the class of its entry, with an en passant square or without.
pub fn entries_are_true()
    ensures { EntriesAreTrue }
{}

/// If tables pass, what is probed of a position that they cover, with an en passant square or without, is its class.
pub fn probed_is_true()
    ensures { ProbedIsTrue }
{}

/// Tables of which each covered position was checked pass.
pub fn checked_is_verified()
    ensures { CheckedIsVerified }
{}

/// If each covered position was checked, each probe of a covered position returns its class.
pub fn checked_is_true()
    ensures { CheckedIsTrue }
{}

/// If tables pass, the stored classes that a probe reads are true.
pub fn stored_are_true()
    ensures { StoredAreTrue }
{}

/// Men up to a number are closed under moves.
pub fn closed_by_count()
    ensures { ClosedByCount }
{}

/// The men of a set of materials are closed under moves if each capture and each promotion leads to one of the materials,
/// or to the two kings.
pub fn closed_by_materials()
    ensures { ClosedByMaterials }
{}

/// It is enough to check one position of each set of images: by flips of the board, an exchange of the colors and other
/// orders of the men.
pub fn checked_by_images()
    ensures { CheckedByImages }
{}

/// Two kings alone pass, whatever the tables store.
pub fn kings_are_checked()
    ensures { KingsAreChecked }
{}

/// What the definitions say of some sets of materials.
pub fn material_examples()
    ensures { MaterialExamples }
{}

/// The walk leaves out no position of a material, but for images.
pub fn walk_is_whole()
    ensures { WalkIsWhole }
{}

/// Two ranges that were checked, one after the other, make one.
pub fn ranges_join()
    ensures { RangesJoin }
{}

/// If each shard of a material was checked over the same tables, the walk over the material was.
pub fn shards_are_whole()
    ensures { ShardsAreWhole }
{}

/// If each material of a closed set was checked, and the tables store the same for images, each probe of a position of
/// these materials returns its class.
pub fn verified_is_true()
    ensures { VerifiedIsTrue }
{}
