//! Laws over the definitions. The contract of each function is a law, and its body is empty.
ghost use Rattle.szg_build.specs.Laws.{TextIsRead, CutTextIsEnded, OneTextOneDump, DumpIsWritable, OwnDumpIsRead, BuiltDumpStays, RebuiltHasSameValues, BuiltIsFound};

/// The text of a dump is read back as that dump, whatever follows it.
pub fn text_is_read()
    ensures { TextIsRead }
{}

/// The text of a dump that is cut anywhere is refused as `Ended`, at the line after the last whole line.
pub fn cut_text_is_ended()
    ensures { CutTextIsEnded }
{}

/// Two dumps with the same text are equal.
pub fn one_text_one_dump()
    ensures { OneTextOneDump }
{}

/// The dump of an accepted table has a text that is read back, in both forms.
pub fn dump_is_writable()
    ensures { DumpIsWritable }
{}

/// The text of the dump of an accepted table is read back as that dump, whatever follows it.
pub fn own_dump_is_read()
    ensures { OwnDumpIsRead }
{}

/// The dump of a table that is built from a dump is that dump.
pub fn built_dump_stays()
    ensures { BuiltDumpStays }
{}

/// A table that is built from the dump of another table has the other table's values, for each part and side.
pub fn rebuilt_has_same_values()
    ensures { RebuiltHasSameValues }
{}

/// Bytes that begin with the file of a built table, whatever follows, are read as that table. The values of this table
/// for a part and side are the items of the list that was passed for this part and side.
pub fn built_is_found()
    ensures { BuiltIsFound }
{}
