//! The arguments of the commands, with their texts of help.

use clap::builder::{ValueParser, ValueRange};
use clap::{Arg, ArgAction};
use std::alloc::Global;
use std::fmt::{self, Display, Formatter, Write};

/// An argument of a command.
#[derive(Clone, Copy)]
pub struct Argument {
    pub id: &'static str,
    /// The name of an option's value. None for a word, words or an option without a value.
    value: Option<&'static str>,
    /// `Append` for words and for options that may be given several times, `SetTrue` for an option without a value.
    action: ArgAction,
    is_required: bool,
    short: Option<char>,
    default: &'static [&'static str],
    values: ValueParser<'static>,
    /// The least number that it takes.
    pub least: u64,
    /// The greatest number that it takes. 0 if it takes none.
    pub greatest: u64,
    help: &'static str,
}

/// A word that has to be there.
const WORD: Argument = Argument {
    id: "",
    value: None,
    action: ArgAction::Set,
    is_required: true,
    short: None,
    default: &[],
    values: ValueParser::String,
    least: 0,
    greatest: 0,
    help: "",
};

/// One or more words.
const WORDS: Argument = Argument {
    action: ArgAction::Append,
    ..WORD
};

/// An option whose value isn't empty.
const OPTION: Argument = Argument {
    is_required: false,
    values: ValueParser::NonEmptyString,
    ..WORD
};

/// An option whose value is a number.
const NUMBER: Argument = Argument {
    is_required: false,
    ..WORD
};

/// An option without a value.
const FLAG: Argument = Argument {
    action: ArgAction::SetTrue,
    is_required: false,
    values: ValueParser::Bool,
    ..WORD
};

pub(crate) const NAME: Argument = Argument {
    id: "NAME",
    help: "Material of the table, such as KQvKR: 3 to 6 men, the side with more men first",
    ..WORD
};

pub(crate) const FILE: Argument = Argument {
    id: "FILE",
    help: "Table file; its name gives material and kind: KQvKR.rtbw is WDL, KQvKR.rtbz is DTZ",
    ..WORD
};

pub(crate) const FILES: Argument = Argument {
    id: "FILE",
    help: "Table files, and folders: all table files below them; their names give material and{n}kind: KQvKR.rtbw is WDL, KQvKR.rtbz is DTZ",
    ..WORDS
};

pub(crate) const FOLDER: Argument = Argument {
    id: "FOLDER",
    help: "Folder of table files",
    ..WORD
};

pub(crate) const NAMES: Argument = Argument {
    id: "NAME",
    is_required: false,
    help: "Materials to verify, such as KQvKR, with those that captures and promotions lead to{n}[default: all of the folder]",
    ..WORDS
};

pub(crate) const LOG: Argument = Argument {
    id: "resume",
    value: Some("LOG"),
    help: "Pass over materials that LOG, the output of earlier runs, has as verified with{n}the same tables",
    ..OPTION
};

pub(crate) const POSITIONS_SHARD: Argument = Argument {
    id: "shard",
    value: Some("K/N"),
    help: "Check only the K-th of N parts of the positions of NAME",
    ..OPTION
};

pub(crate) const DUMP: Argument = Argument {
    id: "DUMP",
    is_required: false,
    help: "Dump file [default: standard input]",
    ..WORD
};

pub(crate) const NAME_GIVEN: Argument = Argument {
    id: "name",
    value: Some("NAME"),
    values: ValueParser::String,
    help: "Material of the table [default: from the file name]",
    ..OPTION
};

pub(crate) const KIND_GIVEN: Argument = Argument {
    id: "kind",
    value: Some("KIND"),
    values: ValueParser::Names(&["wdl", "dtz"]),
    help: "Kind of the table [default: from the file name]",
    ..OPTION
};

pub(crate) const OUTPUT: Argument = Argument {
    id: "output",
    value: Some("FILE"),
    short: Some('o'),
    help: "Write to FILE, completely or not at all [default: standard output]",
    ..OPTION
};

pub(crate) const ALLOW_TRAILING: Argument = Argument {
    id: "allow-trailing",
    help: "Accept files with more bytes after the table",
    ..FLAG
};

pub(crate) const QUIET: Argument = Argument {
    id: "quiet",
    help: "Report only files that are refused or can't be read, and the summary",
    ..FLAG
};

pub(crate) const SUMS: Argument = Argument {
    id: "sums",
    value: Some("LIST"),
    action: ArgAction::Append,
    help: "Compare each file with its sum in LIST, as md5sum, sha1sum, sha256sum or sha512sum{n}writes it; may be given several times",
    ..OPTION
};

pub(crate) const LOGS: Argument = Argument {
    action: ArgAction::Append,
    help: "Leave out files that are good by their last record in LOG (a report in tsv or json), and have{n}not changed since, unless --sums or --manifest is given; may be given several times",
    ..LOG
};

pub(crate) const MANIFEST: Argument = Argument {
    id: "manifest",
    value: Some("FILE"),
    help: "Write the SHA-256 sums of the files that pass to FILE, as sha256sum does, at the end of the run",
    ..OPTION
};

pub(crate) const FILES_SHARD: Argument = Argument {
    help: "Check only every N-th file, from the K-th on: runs with K from 1 to N share the files out",
    ..POSITIONS_SHARD
};

pub(crate) const REPORT: Argument = Argument {
    id: "format",
    value: Some("FORMAT"),
    default: &["text"],
    values: ValueParser::Names(&["text", "tsv", "json"]),
    help: "Format of the report: text is one line per file; tsv and json are one record per file:{n}path, verdict, bytes, reason, offset (bytes), time (seconds), last change{n}(nanoseconds from 1970); a summary follows",
    ..OPTION
};

pub(crate) const KIND: Argument = Argument {
    id: "KIND",
    values: ValueParser::Names(&["wdl", "dtz"]),
    help: "Kind of the table: win, draw or loss (wdl), or distance to zeroing (dtz)",
    ..WORD
};

pub(crate) const INDEX: Argument = Argument {
    id: "INDEX",
    greatest: (1 << 63) - 1,
    help: "Index in the part and side, from 0 to its number of values minus 1",
    ..WORD
};

pub(crate) const MOVER: Argument = Argument {
    id: "MOVER",
    values: ValueParser::Names(&["w", "b"]),
    help: "Side to move: w for White, b for Black",
    ..WORD
};

pub(crate) const MEN: Argument = Argument {
    id: "MAN",
    help: "3 to 6 men, each a letter (upper case for White) and a square, such as Ke1 kc8",
    ..WORDS
};

pub(crate) const PART: Argument = Argument {
    id: "part",
    value: Some("PART"),
    default: &["a"],
    values: ValueParser::Names(&["a", "b", "c", "d"]),
    help: "Part, by the file of the lead pawn: a for a and h, b for b and g, c for c and f,{n}d for d and e; a table without pawns has part a only",
    ..OPTION
};

pub(crate) const SIDE: Argument = Argument {
    id: "side",
    value: Some("SIDE"),
    default: &["0"],
    greatest: 1,
    help: "Side, 0 or 1: in a WDL table with two sides, 0 is where the first side of the name{n}moves; every other table has side 0 only",
    ..NUMBER
};

pub(crate) const CLASS: Argument = Argument {
    id: "class",
    value: Some("CLASS"),
    default: &["win"],
    values: ValueParser::Names(&["win", "cursed", "draw", "blessed", "loss"]),
    help: "Class of the placement for the side to move, which a DTZ table does not store; its number,{n}the plies before the zeroing one, is that of a win unless another class is given, and may be{n}one ply too low if the table stores it in moves, rounded; ignored{n}for a WDL table",
    ..OPTION
};

pub(crate) const FORM: Argument = Argument {
    id: "form",
    value: Some("FORM"),
    default: &["2"],
    least: 1,
    greatest: 2,
    help: "Format of the dump: 1 writes a line per value, 2 a line per run of equal values",
    ..NUMBER
};

pub(crate) const PLAN: Argument = Argument {
    id: "plan",
    value: Some("PLAN"),
    default: &["fixed"],
    values: ValueParser::Names(&["fixed", "small"]),
    help: "fixed takes --block, --span and --rounds; small chooses for a small file, and takes{n}none of them",
    ..OPTION
};

pub(crate) const BLOCK: Argument = Argument {
    id: "block",
    value: Some("BITS"),
    default: &["6"],
    least: 5,
    greatest: 10,
    help: "Size of a block: 2^BITS bytes, with BITS from 5 to 10",
    ..NUMBER
};

pub(crate) const SPAN: Argument = Argument {
    id: "span",
    value: Some("BITS"),
    default: &["12"],
    least: 1,
    greatest: 16,
    help: "Span of a sparse index entry: 2^BITS values, with BITS from 1 to 16",
    ..NUMBER
};

pub(crate) const ROUNDS: Argument = Argument {
    id: "rounds",
    value: Some("COUNT"),
    default: &["256"],
    greatest: 4000,
    help: "Maximum number of pairs in a dictionary, from 0 to 4000",
    ..NUMBER
};

pub(crate) const STEPS: Argument = Argument {
    id: "steps",
    help: "Also print how many moves, words, descents and fetches the look-up takes",
    ..FLAG
};

pub(crate) const VERIFY: Argument = Argument {
    id: "verify",
    help: "Check the whole file first, and not only what the command reads",
    ..FLAG
};

/// Its form in a usage.
impl Display for Argument {
    fn fmt<W: Write>(&self, f: &mut Formatter<W>) -> fmt::Result {
        let id = self.id;
        match self.value {
            Some(value) => write!(f, "--{id} <{value}>"),
            None => write!(f, "<{id}>"),
        }
    }
}

impl Argument {
    /// The argument as `clap` has it.
    pub(crate) fn to_clap<'a>(&self, alloc: Global) -> Arg<'a> {
        let mut arg = Arg::new(alloc, self.id)
            .action(self.action)
            .required(self.is_required)
            .value_parser(self.values)
            .default_values(self.default)
            .allow_negative_numbers(self.greatest > 0)
            .help(self.help);
        if let Some(letter) = self.short {
            arg = arg.short(letter);
        }
        match (self.value, self.action) {
            (Some(value), _) => arg.long(self.id).value_name(value),
            (None, ArgAction::SetTrue) => arg.long(self.id),
            (None, ArgAction::Append) => arg.num_args(ValueRange::from(1usize..)),
            (None, _) => arg,
        }
    }
}
