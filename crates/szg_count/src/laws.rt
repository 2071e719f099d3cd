//! Laws over the definitions. The contract of each function is a law, and its body is empty.

ghost use Rattle.szg_count.specs.Laws.{LawSetCount, LawSubsetCount, LawChooseStep, LawTripleCount, LawKingPairCount, LawPawnValues, LawLeadPawnCount, LawLeadPawnTable, LawLeadWays, LawOtherPawnWays, LawRunWays, LawSetsDiffer, LawSubsetsDiffer, LawSubsetsFall, LawSubsetsRise, LawRankSubset, LawSetsNumbered, LawLeadsDiffer, LawSetsContainFiltered, LawFreeCount, LawFreeSetCount, LawSizeBelow, LawLeadSets, LawMenOfOrder, LawGroupsJoined, LawRuns};
ghost use Rattle.szg_count.specs.Radix.{LawIndexBelow, LawDecodeEncoded, LawEncodeDecoded, LawPositionsOrderGroups};

/// A list of n elements has `choose n r` sets of r elements.
pub fn set_count()
    ensures { LawSetCount }
{}

/// There are `choose n r` sets of r of the numbers below n.
pub fn subset_count()
    ensures { LawSubsetCount }
{}

/// `choose(n + 1, k + 1)` follows from `choose(n, k)`.
pub fn choose_step()
    ensures { LawChooseStep }
{}

/// There are 31332 triples of lead squares.
pub fn triple_count()
    ensures { LawTripleCount }
{}

/// There are 462 pairs of king squares.
pub fn king_pair_count()
    ensures { LawKingPairCount }
{}

/// The order of pawn squares is the order of the format's table of their values.
pub fn pawn_values()
    ensures { LawPawnValues }
{}

/// The number of sets of lead pawns on a file is the format's sum of binomials.
pub fn lead_pawn_count()
    ensures { LawLeadPawnCount }
{}

/// The number of sets of one to four lead pawns on each file.
pub fn lead_pawn_table()
    ensures { LawLeadPawnTable }
{}

/// The ways of a lead group are the format's: a sum of binomials with pawns, else 31332 or 462.
pub fn lead_group_ways()
    ensures { LawLeadWays }
{}

/// The ways of the other pawns are the format's: m of the 48 squares less the k lead pawns.
pub fn other_pawn_ways()
    ensures { LawOtherPawnWays }
{}

/// The ways of a run are the format's: sets of the squares that the groups before it leave free.
pub fn run_ways()
    ensures { LawRunWays }
{}

/// The sets of a list are all different.
pub fn sets_differ()
    ensures { LawSetsDiffer }
{}

/// The sets of numbers below n are all different.
pub fn subsets_differ()
    ensures { LawSubsetsDiffer }
{}

/// The sets of r numbers below n are all decreasing lists of r numbers below n.
pub fn subsets_fall()
    ensures { LawSubsetsFall }
{}

/// The sets of numbers are ordered by the greatest member, then by the next one, and so on.
pub fn subsets_rise()
    ensures { LawSubsetsRise }
{}

/// The rank of a set of numbers is the sum of the binomials of its members.
pub fn rank_subset_sum()
    ensures { LawRankSubset }
{}

/// The sets of a list, as of squares, have the order of the sets of its elements' numbers. The number of an element
/// is the number of elements after it.
pub fn sets_numbered()
    ensures { LawSetsNumbered }
{}

/// The sets in the list of a lead group are all different.
pub fn leads_differ()
    ensures { LawLeadsDiffer }
{}

/// The elements of a list that pass a test are one of its sets.
pub fn sets_contain_filtered()
    ensures { LawSetsContainFiltered }
{}

/// The number of free squares is the number of squares less the number of taken ones.
pub fn free_count()
    ensures { LawFreeCount }
{}

/// The number of sets of the free squares is the binomial of their number.
pub fn free_set_count()
    ensures { LawFreeSetCount }
{}

/// The size of a subtable is below 2^33.
pub fn size_below()
    ensures { LawSizeBelow }
{}

/// A set of a lead group's list has the group's length, and different squares on the board.
pub fn lead_sets()
    ensures { LawLeadSets }
{}

/// An index is below the product of the ways.
pub fn index_below()
    ensures { LawIndexBelow }
{}

/// Encoding the groups' numbers to an index and decoding it returns the numbers.
pub fn decode_encoded()
    ensures { LawDecodeEncoded }
{}

/// Decoding an index to the groups' numbers and encoding them returns the index.
pub fn encode_decoded()
    ensures { LawEncodeDecoded }
{}

/// Accepted nibbles give each group a position of its own.
pub fn positions_order_groups()
    ensures { LawPositionsOrderGroups }
{}

/// The men of an accepted order are the material's men, in any order.
pub fn men_of_order()
    ensures { LawMenOfOrder }
{}

/// The groups, joined, are the men that were divided into them.
pub fn groups_joined()
    ensures { LawGroupsJoined }
{}

/// The runs, joined, are the men. Each run has at least one man, its men are equal, and neighbouring runs have
/// different men.
pub fn runs()
    ensures { LawRuns }
{}
