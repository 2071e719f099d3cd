//! Laws over the definitions. The contract of each function is a law, and its body is empty.
ghost use Rattle.szg_pairs.specs.Laws.{AcceptedHasNoFault, ExpansionIsOf, FirstChildFinds, FirstCycleFinds, FirstLongFinds, FoundIsFault, NoneEmpty, OneExpansion, OneFault};

/// A symbol expands to at most one list of values.
pub fn one_expansion()
    ensures { OneExpansion }
{}

/// No expansion is empty.
pub fn none_empty()
    ensures { NoneEmpty }
{}

/// The function `expansion_of` returns the expansion that the rules define.
pub fn expansion_is_of()
    ensures { ExpansionIsOf }
{}

/// An accepted dictionary has no fault.
pub fn accepted_has_no_fault()
    ensures { AcceptedHasNoFault }
{}

/// A dictionary has at most one fault, apart from refused memory.
pub fn one_fault()
    ensures { OneFault }
{}

/// The function `first_child` finds the least symbol whose pair has a child that does not exist.
pub fn first_child_finds()
    ensures { FirstChildFinds }
{}

/// The function `first_cycle` finds the least symbol that has no finite expansion.
pub fn first_cycle_finds()
    ensures { FirstCycleFinds }
{}

/// If `first_cycle` finds nothing, the function `first_long` finds the least symbol of more than 256 values.
pub fn first_long_finds()
    ensures { FirstLongFinds }
{}

/// A dictionary is accepted exactly if `first_child`, `first_cycle` and `first_long` find nothing. Otherwise the
/// first of them that finds a symbol determines the fault that `Dict::new` returns.
pub fn found_is_fault()
    ensures { FoundIsFault }
{}
