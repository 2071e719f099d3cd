//! Laws over the definitions. The contract of each function is a law, and its body is empty.
ghost use Rattle.szg_code.specs.Laws.{FirstOverfullFinds, FirstRiseFinds, FoundIsFault, NoWordBeginsAnother, OneFaultAtMost, OneListSpelled, OneWordAtMost, WordsAreListed, WrittenIsRead, WrittenListIsSpelled};

/// No word of a code begins another.
pub fn no_word_begins_another()
    ensures { NoWordBeginsAnother }
{}

/// An accepted code has no fault, and any other has at most one. So the result of `Code::new` is determined.
pub fn one_fault_at_most()
    ensures { OneFaultAtMost }
{}

/// A symbol has at most one word.
pub fn one_word_at_most()
    ensures { OneWordAtMost }
{}

/// The finite list `words` contains the words, and nothing else.
pub fn words_are_listed()
    ensures { WordsAreListed }
{}

/// Of two lists of symbols that bits spell, the shorter is a prefix of the longer.
pub fn one_list_spelled()
    ensures { OneListSpelled }
{}

/// A written word is read back, whatever follows it.
pub fn written_is_read()
    ensures { WrittenIsRead }
{}

/// The words of symbols, written one after another, spell these symbols, whatever follows them.
pub fn written_list_is_spelled()
    ensures { WrittenListIsSpelled }
{}

/// The function `first_rise` finds the first lowest symbol that is above the one before it.
pub fn first_rise_finds()
    ensures { FirstRiseFinds }
{}

/// The function `first_overfull` finds the index of the greatest overfull length, or 0 if only the words of the
/// least length do not fit.
pub fn first_overfull_finds()
    ensures { FirstOverfullFinds }
{}

/// If the lengths are valid, a code is accepted exactly if `first_rise` and `first_overfull` find nothing. Otherwise
/// the first of them that finds an index determines the fault that `Code::new` returns.
pub fn found_is_fault()
    ensures { FoundIsFault }
{}
