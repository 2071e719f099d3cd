//! Laws over the definitions. The contract of each function is a law, and its body is empty.

ghost use Rattle.szg_values.specs.Laws.{LawNames, LawMaterialOf, LawNameLetters, LawMenOfPlacement, LawNameCount};

/// A text is accepted exactly if it is the name of a material, and the result is that material.
pub fn accepted_exactly_names()
    ensures { LawNames }
{}

/// The men of a placement are those of a material.
pub fn placement_has_material()
    ensures { LawMaterialOf }
{}

/// For each kind, the number of men of a side is the number of the kind's letters in the side's part of the name.
pub fn name_letters()
    ensures { LawNameLetters }
{}

/// One side of a placement's material has White's number of men of each kind, and the other has Black's.
pub fn men_of_placement()
    ensures { LawMenOfPlacement }
{}

/// There are 510 materials of three to six men, and therefore 510 names.
pub fn name_count()
    ensures { LawNameCount }
{}
