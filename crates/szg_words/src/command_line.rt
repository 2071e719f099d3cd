//! The command line: the program's commands with their texts of help.

use crate::arguments::{
    ALLOW_TRAILING, Argument, BLOCK, CLASS, DUMP, FILE, FILES, FILES_SHARD, FOLDER, FORM, INDEX,
    KIND, KIND_GIVEN, LOG, LOGS, MANIFEST, MEN, MOVER, NAME, NAME_GIVEN, NAMES, OUTPUT, PART, PLAN,
    POSITIONS_SHARD, QUIET, REPORT, ROUNDS, SIDE, SPAN, STEPS, SUMS, VERIFY,
};
use clap::Command;
use std::alloc::{AllocError, Global};

/// Whether a command line names files, or works on the standard streams alone.
#[derive(Clone, Copy)]
pub enum CommandForm {
    Streams,
    Files,
}

/// The text below the program's help.
const AFTER_HELP: &str =
    "Examples:{n}  szg probe tables '7k/8/8/8/8/8/3Q4/K7 w - - 0 1'{n}  szg check *.rtbw *.rtbz{n}  szg get KQvK.rtbw 31331 --side 1{n}  szg get KQvK wdl 31331 --side 1 < KQvK.rtbw{n}{n}A FILE that ends in .rtbw or .rtbz replaces NAME and KIND: szg get --help prints the options for{n}files, szg get KQvK wdl --help those for standard input. szg build takes the file of a dump.{n}{n}Exit status: 0 done; 1 refused, and a line on standard output gives the reason; 2 wrong words, or{n}help; 3 standard input or output failed; 4 out of memory.";

/// The commands, in the order of the help.
static COMMANDS: [&str; 11] = [
    "check",
    "show",
    "get",
    "values",
    "copy",
    "dump",
    "build",
    "index",
    "probe",
    "verify",
    "placement",
];

/// A command: what it does, its arguments and the text below its help, on the standard streams and on files.
#[derive(Clone, Copy)]
struct CommandTexts {
    about: &'static str,
    arguments: &'static [Argument],
    example: &'static str,
    file_arguments: &'static [Argument],
    file_example: &'static str,
}

static OF_CHECK: CommandTexts = CommandTexts {
    about: "Check a table file, and print ok and its length in bytes",
    arguments: &[NAME, KIND],
    example: "Example: szg check KQvK wdl < KQvK.rtbw{n}Files: szg check --help",
    file_arguments: &[
        FILES,
        QUIET,
        SUMS,
        MANIFEST,
        LOGS,
        FILES_SHARD,
        REPORT,
        ALLOW_TRAILING,
        NAME_GIVEN,
        KIND_GIVEN,
    ],
    file_example: "Example: szg check *.rtbw *.rtbz{n}Standard input: szg check KQvK wdl < KQvK.rtbw",
};

static OF_SHOW: CommandTexts = CommandTexts {
    about: "Print the header of a table file: its parts, orders, flags and sizes",
    arguments: &[NAME, KIND],
    example: "Example: szg show KQvK wdl < KQvK.rtbw{n}Files: szg show --help",
    file_arguments: &[FILE, VERIFY, NAME_GIVEN, KIND_GIVEN],
    file_example: "It looks at no block of FILE, so a damaged one isn't found; szg check finds it.{n}Example: szg show KQvK.rtbw{n}Standard input: szg show KQvK wdl < KQvK.rtbw",
};

static OF_GET: CommandTexts = CommandTexts {
    about: "Print the stored value at an index",
    arguments: &[NAME, KIND, PART, SIDE, INDEX, STEPS],
    example: "Example: szg get KQvK wdl 31331 --side 1 < KQvK.rtbw{n}Files: szg get --help",
    file_arguments: &[
        FILE, PART, SIDE, INDEX, STEPS, VERIFY, NAME_GIVEN, KIND_GIVEN,
    ],
    file_example: "Example: szg get KQvK.rtbw 31331 --side 1{n}Result of a position: szg probe [--format json] FOLDER FEN{n}Standard input: szg get KQvK wdl 31331 --side 1 < KQvK.rtbw",
};

static OF_VALUES: CommandTexts = CommandTexts {
    about: "Print all stored values of one part and side, one per line",
    arguments: &[NAME, KIND, PART, SIDE],
    example: "Example: szg values KPvK wdl --part c < KPvK.rtbw{n}Files: szg values --help",
    file_arguments: &[FILE, PART, SIDE, NAME_GIVEN, KIND_GIVEN],
    file_example: "Example: szg values KPvK.rtbw --part c{n}Result of a position: szg probe [--format json] FOLDER FEN{n}Standard input: szg values KPvK wdl --part c < KPvK.rtbw",
};

static OF_COPY: CommandTexts = CommandTexts {
    about: "Check a table file, and write it without any bytes that follow it",
    arguments: &[NAME, KIND],
    example: "Example: szg copy KQvK wdl < KQvK.rtbw > copy.rtbw{n}Files: szg copy --help",
    file_arguments: &[FILE, OUTPUT, NAME_GIVEN, KIND_GIVEN],
    file_example: "Example: szg copy KQvK.rtbw -o copy.rtbw{n}Good tables into a folder: szg copy [--sums LIST] FILE.. FOLDER{n}Standard input: szg copy KQvK wdl < KQvK.rtbw > copy.rtbw",
};

static OF_DUMP: CommandTexts = CommandTexts {
    about: "Print a table as text, which build takes",
    arguments: &[NAME, KIND, FORM],
    example: "Example: szg dump KQvK wdl < KQvK.rtbw > KQvK.txt{n}Files: szg dump --help",
    file_arguments: &[FILE, FORM, OUTPUT, NAME_GIVEN, KIND_GIVEN],
    file_example: "Example: szg dump KQvK.rtbw -o KQvK.txt{n}Standard input: szg dump KQvK wdl < KQvK.rtbw > KQvK.txt",
};

static OF_BUILD: CommandTexts = CommandTexts {
    about: "Build a table file from a dump",
    arguments: &[PLAN, BLOCK, SPAN, ROUNDS],
    example: "Example: szg build --block 8 < KQvK.txt > KQvK.rtbw{n}Files: szg build --help",
    file_arguments: &[DUMP, PLAN, BLOCK, SPAN, ROUNDS, OUTPUT],
    file_example: "Example: szg build KQvK.txt -o KQvK.rtbw{n}Standard input: szg build --block 8 < KQvK.txt > KQvK.rtbw",
};

static OF_INDEX: CommandTexts = CommandTexts {
    about: "Print the part, side and index of a placement",
    arguments: &[NAME, KIND, MOVER, MEN],
    example: "Example: szg index KQvK wdl w Ke1 Qd1 kc8 < KQvK.rtbw{n}Files: szg index --help",
    file_arguments: &[FILE, MOVER, MEN, VERIFY, NAME_GIVEN, KIND_GIVEN],
    file_example: "Example: szg index KQvK.rtbw w Ke1 Qd1 kc8{n}Standard input: szg index KQvK wdl w Ke1 Qd1 kc8 < KQvK.rtbw",
};

static OF_PROBE: CommandTexts = CommandTexts {
    about: "Print the stored value of a placement: not its result if a capture (WDL), or a capture or pawn{n}move (DTZ), decides; en passant and the fifty-move counter don't change it; szg probe FOLDER FEN{n}prints the result",
    arguments: &[NAME, KIND, MOVER, MEN, CLASS],
    example: "Example: szg probe KQvK wdl w Ke1 Qd1 kc8 < KQvK.rtbw{n}Files: szg probe --help",
    file_arguments: &[FILE, MOVER, MEN, CLASS, VERIFY, NAME_GIVEN, KIND_GIVEN],
    file_example: "Example: szg probe KQvK.rtbz w Ke1 Qd1 kc8 --class win{n}Result of a position: szg probe [--format json] FOLDER FEN{n}Standard input: szg probe KQvK wdl w Ke1 Qd1 kc8 < KQvK.rtbw",
};

static OF_VERIFY: CommandTexts = CommandTexts {
    about: "Verify a folder's tables against chess: each position against its own moves",
    arguments: &[FOLDER, NAMES, LOG, POSITIONS_SHARD],
    example: "Example: szg verify tables KQvKR",
    file_arguments: &[FOLDER, NAMES, LOG, POSITIONS_SHARD],
    file_example: "Example: szg verify tables KQvKR",
};

static OF_PLACEMENT: CommandTexts = CommandTexts {
    about: "Print the placement at an index: the side to move, and the men",
    arguments: &[NAME, KIND, PART, SIDE, INDEX],
    example: "Example: szg placement KQvK wdl 11711 < KQvK.rtbw{n}Files: szg placement --help",
    file_arguments: &[FILE, PART, SIDE, INDEX, NAME_GIVEN, KIND_GIVEN],
    file_example: "Example: szg placement KQvK.rtbw 11711{n}Standard input: szg placement KQvK wdl 11711 < KQvK.rtbw",
};

/// The texts of a command.
fn texts_of(name: &str) -> &'static CommandTexts {
    match name {
        "check" => &OF_CHECK,
        "show" => &OF_SHOW,
        "get" => &OF_GET,
        "values" => &OF_VALUES,
        "copy" => &OF_COPY,
        "dump" => &OF_DUMP,
        "build" => &OF_BUILD,
        "index" => &OF_INDEX,
        "probe" => &OF_PROBE,
        "verify" => &OF_VERIFY,
        _ => &OF_PLACEMENT,
    }
}

/// The program with all its commands.
pub(crate) fn program<'a>(alloc: Global, form: CommandForm) -> Result<Command<'a>, AllocError> {
    let mut commands = Vec::new(alloc);
    'commands: for name in &COMMANDS {
        commands.push(command_of(alloc, name, form)?)?;
    }
    Command::new(alloc, "szg")
        .version("2.0.0")
        .about(
            "Check, show, copy, dump and build Syzygy table files, and look up values and placements in them.{n}Reads the table file (for build: the dump) from standard input, or by its path.",
        )
        .after_help(AFTER_HELP)
        .subcommand_required(true)
        .arg_required_else_help(true)
        .bin_name("szg")?
        .subcommands(commands)
}

/// A command with its arguments.
pub(crate) fn command_of<'a>(
    alloc: Global,
    name: &'a str,
    form: CommandForm,
) -> Result<Command<'a>, AllocError> {
    let texts = texts_of(name);
    let (chosen, example) = match form {
        CommandForm::Streams => (texts.arguments, texts.example),
        CommandForm::Files => (texts.file_arguments, texts.file_example),
    };
    let mut arguments = Vec::new(alloc);
    'arguments: for argument in chosen {
        arguments.push(argument.to_clap(alloc))?;
    }
    Command::new(alloc, name)
        .about(texts.about)
        .after_help(example)
        .args(arguments)
}
