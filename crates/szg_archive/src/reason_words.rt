//! The words for failing checks.
ghost use Rattle.std.specs.Prelude.{◌≡◌};
ghost use Rattle.szg_archive.specs.ReasonWords.{reason_word};

use szg_file::Reason;

/// Returns the word for a failing check of a file: the name of its variant.
pub fn reason_word(reason: Reason) -> &'static str
    ensures { result.now ≡ reason_word reason }
{
    match reason {
        Reason::Truncated => "Truncated",
        Reason::Magic => "Magic",
        Reason::SplitBit => "SplitBit",
        Reason::PawnBit => "PawnBit",
        Reason::Pieces => "Pieces",
        Reason::PawnsFirst => "PawnsFirst",
        Reason::OrderPlace => "OrderPlace",
        Reason::BlockBits => "BlockBits",
        Reason::SpanBits => "SpanBits",
        Reason::CodeLengths => "CodeLengths",
        Reason::LowestOrder => "LowestOrder",
        Reason::TooFull => "TooFull",
        Reason::Child => "Child",
        Reason::Cycle => "Cycle",
        Reason::LongSymbol => "LongSymbol",
        Reason::ShortTotal => "ShortTotal",
        Reason::SparseEntry => "SparseEntry",
        Reason::Word => "Word",
    }
}
