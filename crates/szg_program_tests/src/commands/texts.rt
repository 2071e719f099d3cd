//! The words of each text of help, on the standard streams and for files.
use super::program::printed_as_error;
use std::alloc::Global;
use std::fs::File;
use std::process::Abort;
use std::rt::Files;
use std::test::Fail;
use std::time::Clock;

const NAME: &str =
    "<NAME> Material of the table, such as KQvKR: 3 to 6 men, the side with more men first";

const KIND: &str =
    "<KIND> Kind of the table: win, draw or loss (wdl), or distance to zeroing (dtz) [possible values: wdl, dtz]";

const TABLE: &str =
    "<FILE> Table file; its name gives material and kind: KQvKR.rtbw is WDL, KQvKR.rtbz is DTZ";

const TABLES: &str =
    "<FILE>... Table files, and folders: all table files below them; their names give material and kind: KQvKR.rtbw is WDL, KQvKR.rtbz is DTZ";

const DUMP: &str = "[DUMP] Dump file [default: standard input]";

const INDEX: &str = "<INDEX> Index in the part and side, from 0 to its number of values minus 1";

const MOVER: &str = "<MOVER> Side to move: w for White, b for Black [possible values: w, b]";

const MEN: &str =
    "<MAN>... 3 to 6 men, each a letter (upper case for White) and a square, such as Ke1 kc8";

const PART: &str =
    "--part <PART> Part, by the file of the lead pawn: a for a and h, b for b and g, c for c and f, d for d and e; a table without pawns has part a only [default: a] [possible values: a, b, c, d]";

const SIDE: &str =
    "--side <SIDE> Side, 0 or 1: in a WDL table with two sides, 0 is where the first side of the name moves; every other table has side 0 only [default: 0]";

const STEPS: &str =
    "--steps Also print how many moves, words, descents and fetches the look-up takes";

const VERIFY: &str = "--verify Check the whole file first, and not only what the command reads";

const CLASS: &str =
    "--class <CLASS> Class of the placement for the side to move, which a DTZ table does not store; its number, the plies before the zeroing one, is that of a win unless another class is given, and may be one ply too low if the table stores it in moves, rounded; ignored for a WDL table [default: win] [possible values: win, cursed, draw, blessed, loss]";

const FORM: &str =
    "--form <FORM> Format of the dump: 1 writes a line per value, 2 a line per run of equal values [default: 2]";

const PLAN: &str =
    "--plan <PLAN> fixed takes --block, --span and --rounds; small chooses for a small file, and takes none of them [default: fixed] [possible values: fixed, small]";

const BLOCK: &str =
    "--block <BITS> Size of a block: 2^BITS bytes, with BITS from 5 to 10 [default: 6]";

const SPAN: &str =
    "--span <BITS> Span of a sparse index entry: 2^BITS values, with BITS from 1 to 16 [default: 12]";

const ROUNDS: &str =
    "--rounds <COUNT> Maximum number of pairs in a dictionary, from 0 to 4000 [default: 256]";

const NAMED: &str = "--name <NAME> Material of the table [default: from the file name]";

const KINDED: &str =
    "--kind <KIND> Kind of the table [default: from the file name] [possible values: wdl, dtz]";

const OUTPUT: &str =
    "-o, --output <FILE> Write to FILE, completely or not at all [default: standard output]";

const TRAILING: &str = "--allow-trailing Accept files with more bytes after the table";

const QUIET: &str = "--quiet Report only files that are refused or can't be read, and the summary";

const SUMS: &str =
    "--sums <LIST> Compare each file with its sum in LIST, as md5sum, sha1sum, sha256sum or sha512sum writes it; may be given several times";

const MANIFEST: &str =
    "--manifest <FILE> Write the SHA-256 sums of the files that pass to FILE, as sha256sum does, at the end of the run";

const LOGS: &str =
    "--resume <LOG> Leave out files that are good by their last record in LOG (a report in tsv or json), and have not changed since, unless --sums or --manifest is given; may be given several times";

const SHARD: &str =
    "--shard <K/N> Check only every N-th file, from the K-th on: runs with K from 1 to N share the files out";

const REPORT: &str =
    "--format <FORMAT> Format of the report: text is one line per file; tsv and json are one record per file: path, verdict, bytes, reason, offset (bytes), time (seconds), last change (nanoseconds from 1970); a summary follows [default: text] [possible values: text, tsv, json]";

const HELP: &str = "-h, --help Print help";

/// A text of help: the words of its usage, its arguments, its options, and its end.
struct Text<'a> {
    usage: &'a str,
    arguments: &'a [&'a str],
    options: &'a [&'a str],
    end: &'a str,
}

const VERIFICATION: Text<'_> = Text {
    usage: "[OPTIONS] <FOLDER> [NAME]...",
    arguments: &[
        "<FOLDER> Folder of table files",
        "[NAME]... Materials to verify, such as KQvKR, with those that captures and promotions lead to [default: all of the folder]",
    ],
    options: &[
        "--resume <LOG> Pass over materials that LOG, the output of earlier runs, has as verified with the same tables",
        "--shard <K/N> Check only the K-th of N parts of the positions of NAME",
        HELP,
    ],
    end: "Example: szg verify tables KQvKR",
};

/// A command: what it does, and its texts of help on the standard streams and for files.
struct Command<'a> {
    name: &'a str,
    about: &'a str,
    streams: Text<'a>,
    files: Text<'a>,
}

/// The commands that read a table file.
static READERS: [Command<'_>; 4] = [
    Command {
        name: "check",
        about: "Check a table file, and print ok and its length in bytes",
        streams: Text {
            usage: "<NAME> <KIND>",
            arguments: &[NAME, KIND],
            options: &[HELP],
            end: "Example: szg check KQvK wdl < KQvK.rtbw Files: szg check --help",
        },
        files: Text {
            usage: "[OPTIONS] <FILE>...",
            arguments: &[TABLES],
            options: &[
                QUIET, SUMS, MANIFEST, LOGS, SHARD, REPORT, TRAILING, NAMED, KINDED, HELP,
            ],
            end: "Example: szg check *.rtbw *.rtbz Standard input: szg check KQvK wdl < KQvK.rtbw",
        },
    },
    Command {
        name: "show",
        about: "Print the header of a table file: its parts, orders, flags and sizes",
        streams: Text {
            usage: "<NAME> <KIND>",
            arguments: &[NAME, KIND],
            options: &[HELP],
            end: "Example: szg show KQvK wdl < KQvK.rtbw Files: szg show --help",
        },
        files: Text {
            usage: "[OPTIONS] <FILE>",
            arguments: &[TABLE],
            options: &[VERIFY, NAMED, KINDED, HELP],
            end: "It looks at no block of FILE, so a damaged one isn't found; szg check finds it. Example: szg show KQvK.rtbw Standard input: szg show KQvK wdl < KQvK.rtbw",
        },
    },
    Command {
        name: "get",
        about: "Print the stored value at an index",
        streams: Text {
            usage: "[OPTIONS] <NAME> <KIND> <INDEX>",
            arguments: &[NAME, KIND, INDEX],
            options: &[PART, SIDE, STEPS, HELP],
            end: "Example: szg get KQvK wdl 31331 --side 1 < KQvK.rtbw Files: szg get --help",
        },
        files: Text {
            usage: "[OPTIONS] <FILE> <INDEX>",
            arguments: &[TABLE, INDEX],
            options: &[PART, SIDE, STEPS, VERIFY, NAMED, KINDED, HELP],
            end: "Example: szg get KQvK.rtbw 31331 --side 1 Result of a position: szg probe [--format json] FOLDER FEN Standard input: szg get KQvK wdl 31331 --side 1 < KQvK.rtbw",
        },
    },
    Command {
        name: "values",
        about: "Print all stored values of one part and side, one per line",
        streams: Text {
            usage: "[OPTIONS] <NAME> <KIND>",
            arguments: &[NAME, KIND],
            options: &[PART, SIDE, HELP],
            end: "Example: szg values KPvK wdl --part c < KPvK.rtbw Files: szg values --help",
        },
        files: Text {
            usage: "[OPTIONS] <FILE>",
            arguments: &[TABLE],
            options: &[PART, SIDE, NAMED, KINDED, HELP],
            end: "Example: szg values KPvK.rtbw --part c Result of a position: szg probe [--format json] FOLDER FEN Standard input: szg values KPvK wdl --part c < KPvK.rtbw",
        },
    },
];

/// The commands that write a file.
static WRITERS: [Command<'_>; 3] = [
    Command {
        name: "copy",
        about: "Check a table file, and write it without any bytes that follow it",
        streams: Text {
            usage: "<NAME> <KIND>",
            arguments: &[NAME, KIND],
            options: &[HELP],
            end: "Example: szg copy KQvK wdl < KQvK.rtbw > copy.rtbw Files: szg copy --help",
        },
        files: Text {
            usage: "[OPTIONS] <FILE>",
            arguments: &[TABLE],
            options: &[OUTPUT, NAMED, KINDED, HELP],
            end: "Example: szg copy KQvK.rtbw -o copy.rtbw Good tables into a folder: szg copy [--sums LIST] FILE.. FOLDER Standard input: szg copy KQvK wdl < KQvK.rtbw > copy.rtbw",
        },
    },
    Command {
        name: "dump",
        about: "Print a table as text, which build takes",
        streams: Text {
            usage: "[OPTIONS] <NAME> <KIND>",
            arguments: &[NAME, KIND],
            options: &[FORM, HELP],
            end: "Example: szg dump KQvK wdl < KQvK.rtbw > KQvK.txt Files: szg dump --help",
        },
        files: Text {
            usage: "[OPTIONS] <FILE>",
            arguments: &[TABLE],
            options: &[FORM, OUTPUT, NAMED, KINDED, HELP],
            end: "Example: szg dump KQvK.rtbw -o KQvK.txt Standard input: szg dump KQvK wdl < KQvK.rtbw > KQvK.txt",
        },
    },
    Command {
        name: "build",
        about: "Build a table file from a dump",
        streams: Text {
            usage: "[OPTIONS]",
            arguments: &[],
            options: &[PLAN, BLOCK, SPAN, ROUNDS, HELP],
            end: "Example: szg build --block 8 < KQvK.txt > KQvK.rtbw Files: szg build --help",
        },
        files: Text {
            usage: "[OPTIONS] [DUMP]",
            arguments: &[DUMP],
            options: &[PLAN, BLOCK, SPAN, ROUNDS, OUTPUT, HELP],
            end: "Example: szg build KQvK.txt -o KQvK.rtbw Standard input: szg build --block 8 < KQvK.txt > KQvK.rtbw",
        },
    },
];

/// The commands on positions.
static PROBERS: [Command<'_>; 4] = [
    Command {
        name: "index",
        about: "Print the part, side and index of a placement",
        streams: Text {
            usage: "<NAME> <KIND> <MOVER> <MAN>...",
            arguments: &[NAME, KIND, MOVER, MEN],
            options: &[HELP],
            end: "Example: szg index KQvK wdl w Ke1 Qd1 kc8 < KQvK.rtbw Files: szg index --help",
        },
        files: Text {
            usage: "[OPTIONS] <FILE> <MOVER> <MAN>...",
            arguments: &[TABLE, MOVER, MEN],
            options: &[VERIFY, NAMED, KINDED, HELP],
            end: "Example: szg index KQvK.rtbw w Ke1 Qd1 kc8 Standard input: szg index KQvK wdl w Ke1 Qd1 kc8 < KQvK.rtbw",
        },
    },
    Command {
        name: "probe",
        about: "Print the stored value of a placement: not its result if a capture (WDL), or a capture or pawn move (DTZ), decides; en passant and the fifty-move counter don't change it; szg probe FOLDER FEN prints the result",
        streams: Text {
            usage: "[OPTIONS] <NAME> <KIND> <MOVER> <MAN>...",
            arguments: &[NAME, KIND, MOVER, MEN],
            options: &[CLASS, HELP],
            end: "Example: szg probe KQvK wdl w Ke1 Qd1 kc8 < KQvK.rtbw Files: szg probe --help",
        },
        files: Text {
            usage: "[OPTIONS] <FILE> <MOVER> <MAN>...",
            arguments: &[TABLE, MOVER, MEN],
            options: &[CLASS, VERIFY, NAMED, KINDED, HELP],
            end: "Example: szg probe KQvK.rtbz w Ke1 Qd1 kc8 --class win Result of a position: szg probe [--format json] FOLDER FEN Standard input: szg probe KQvK wdl w Ke1 Qd1 kc8 < KQvK.rtbw",
        },
    },
    Command {
        name: "verify",
        about: "Verify a folder's tables against chess: each position against its own moves",
        streams: VERIFICATION,
        files: VERIFICATION,
    },
    Command {
        name: "placement",
        about: "Print the placement at an index: the side to move, and the men",
        streams: Text {
            usage: "[OPTIONS] <NAME> <KIND> <INDEX>",
            arguments: &[NAME, KIND, INDEX],
            options: &[PART, SIDE, HELP],
            end: "Example: szg placement KQvK wdl 11711 < KQvK.rtbw Files: szg placement --help",
        },
        files: Text {
            usage: "[OPTIONS] <FILE> <INDEX>",
            arguments: &[TABLE, INDEX],
            options: &[PART, SIDE, NAMED, KINDED, HELP],
            end: "Example: szg placement KQvK.rtbw 11711 Standard input: szg placement KQvK wdl 11711 < KQvK.rtbw",
        },
    },
];

/// Adds the words of a text, each with a space before it.
fn add_words(words: &mut String, text: &str) -> Result<(), Fail> {
    for word in text.split_ascii_whitespace() {
        words.push_str(" ")?;
        words.push_str(word)?;
    }
    Ok(())
}

/// Adds the words of some lines under a title.
fn add_lines(words: &mut String, title: &str, lines: &[&str]) -> Result<(), Fail> {
    if !lines.is_empty() {
        add_words(words, title)?;
    }
    for line in lines {
        add_words(words, line)?;
    }
    Ok(())
}

/// The words of a command's text of help.
fn words_due(alloc: Global, command: &Command<'_>, text: &Text<'_>) -> Result<String, Fail> {
    let mut words = String::new(alloc);
    add_words(&mut words, command.about)?;
    add_lines(&mut words, "Usage: szg", &[command.name, text.usage])?;
    add_lines(&mut words, "Arguments:", text.arguments)?;
    add_lines(&mut words, "Options:", text.options)?;
    add_words(&mut words, text.end)?;
    Ok(words)
}

/// The help of a command, asked with this word, has the words of this text.
fn check_help(
    rt: &(impl Abort + Alloc<A = Global> + Files<File = File> + Clock),
    command: &Command<'_>,
    word: &str,
    text: &Text<'_>,
) -> Result<(), Fail> {
    let name = command.name;
    let line = format!(in rt.alloc(); "szg {name}{word} --help")?;
    let printed = printed_as_error(rt, line.as_str())?;
    let mut words = String::new(rt.alloc());
    add_words(&mut words, printed.as_str())?;
    let due = words_due(rt.alloc(), command, text)?;
    assert_eq!(rt; words.as_str(), due.as_str(), "words of {line}");
    Ok(())
}

/// The help of each of these commands, asked in three ways.
fn check_commands(
    rt: &(impl Abort + Alloc<A = Global> + Files<File = File> + Clock),
    commands: &[Command<'_>],
) -> Result<(), Fail> {
    for command in commands {
        check_help(rt, command, "", &command.files)?;
        check_help(rt, command, " KQvK.rtbw", &command.files)?;
        let words = if command.name == "build" {
            " --rounds 1"
        } else {
            " KQvK wdl"
        };
        check_help(rt, command, words, &command.streams)?;
    }
    Ok(())
}

#[test]
fn help_of_readers(rt: HostRuntime) -> Result<(), Fail> {
    check_commands(&rt, &READERS)
}

#[test]
fn help_of_writers(rt: HostRuntime) -> Result<(), Fail> {
    check_commands(&rt, &WRITERS)
}

#[test]
fn help_of_probers(rt: HostRuntime) -> Result<(), Fail> {
    check_commands(&rt, &PROBERS)
}
