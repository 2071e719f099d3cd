//! What is printed for wrong words, and help.
use super::words_of;
use std::alloc::Global;
use std::process::Abort;
use std::test::Fail;
use szg_answers::{Outcome, run};
use szg_io::Std;

/// The help of `get`.
const HELP: &str =
    "Print the stored value at an index\n\nUsage: szg get [OPTIONS] <NAME> <KIND> <INDEX>\n\nArguments:\n  <NAME>   Material of the table, such as KQvKR: 3 to 6 men, the side with more men first\n  <KIND>   Kind of the table: win, draw or loss (wdl), or distance to zeroing (dtz) [possible values: wdl, dtz]\n  <INDEX>  Index in the part and side, from 0 to its number of values minus 1\n\nOptions:\n      --part <PART>  Part, by the file of the lead pawn: a for a and h, b for b and g, c for c and f,\n                     d for d and e; a table without pawns has part a only [default: a] [possible values: a, b, c, d]\n      --side <SIDE>  Side, 0 or 1: in a WDL table with two sides, 0 is where the first side of the name\n                     moves; every other table has side 0 only [default: 0]\n      --steps        Also print how many moves, words, descents and fetches the look-up takes\n  -h, --help         Print help\n\nExample: szg get KQvK wdl 31331 --side 1 < KQvK.rtbw\nFiles: szg get --help\n";

/// The words of this line make no command, and this text says why.
fn check_text(rt: &(impl Abort + Alloc<A = Global>), line: &str, text: &str) -> Result<(), Fail> {
    let words = words_of(rt.alloc(), line)?;
    let mut reader = Std::new(b"".as_slice());
    let mut writer = Std::new(Vec::new(rt.alloc()));
    match run(rt.alloc(), &words, &mut reader, &mut writer) {
        Outcome::Words(error) => {
            assert_eq!(rt;
                format!(in rt.alloc(); "{error}")?.as_str(),
                text,
                "text of {line}"
            );
        }
        other => assert_eq!(rt; other.status(), 2, "status of {line}"),
    }
    Ok(())
}

#[test]
fn wrong_words(rt: HostRuntime) -> Result<(), Fail> {
    for (line, text) in [
        (
            "szg get KNvK wdl x",
            "error: invalid value 'x' for '<INDEX>': not a number from 0 to 9223372036854775807\n\nUsage: szg get [OPTIONS] <NAME> <KIND> <INDEX>\n\nFor more information, try '--help'.\n",
        ),
        (
            "szg values KNvK wdl --side -1",
            "error: invalid value '-1' for '--side <SIDE>': not a number from 0 to 1\n\nUsage: szg values [OPTIONS] <NAME> <KIND>\n\nFor more information, try '--help'.\n",
        ),
        (
            "szg dump KNvK wdl --form 3",
            "error: invalid value '3' for '--form <FORM>': not a number from 1 to 2\n\nUsage: szg dump [OPTIONS] <NAME> <KIND>\n\nFor more information, try '--help'.\n",
        ),
        (
            "szg build --block 11",
            "error: invalid value '11' for '--block <BITS>': not a number from 5 to 10\n\nUsage: szg build [OPTIONS]\n\nFor more information, try '--help'.\n",
        ),
        (
            "szg placement KNvK wdl",
            "error: the following required arguments were not provided:\n  <INDEX>\n\nUsage: szg placement <NAME> <KIND> <INDEX>\n\nFor more information, try '--help'.\n",
        ),
        (
            "szg get KNvK wdl 0 --part e",
            "error: invalid value 'e' for '--part <PART>'\n  [possible values: a, b, c, d]\n\nUsage: szg get [OPTIONS] <NAME> <KIND> <INDEX>\n\nFor more information, try '--help'.\n",
        ),
        ("szg help get", HELP),
    ] {
        check_text(&rt, line, text)?;
    }
    Ok(())
}
