//! The program `szg`: checks, shows, copies, dumps and builds Syzygy table files, and looks values and placements up in them.
#![tactic(auto)]

use std::io::{self, IsTerminal};
use std::process::ExitCode;
use szg_commands::{no_words_status, run_given, words_given};
use szg_shown::{ProgressLine, ReadLine};

/// Runs the words of the command line on the system's files and the standard streams.
///
/// The status is 0 where the command was carried out, 1 where it was refused (the refusal is printed), 2 for a fault
/// of words and for help (both are printed on standard error), 3 where a stream failed, and 4 for want of memory.
fn main(rt: HostRuntime) -> ExitCode {
    match words_given(&rt) {
        Ok(words) => {
            let is_terminal = rt.stderr().is_terminal();
            run_given(
                &rt,
                &rt,
                &words,
                rt.stdout().is_terminal(),
                &mut rt.reader(),
                io::writer(&rt),
                &mut ProgressLine::new(&rt, &rt, is_terminal),
                &ReadLine::new(&rt, &rt, is_terminal),
            )
        }
        Err(error) => no_words_status(&rt, &error),
    }
}
