//! Which word of a command line goes to which argument.
ghost use Rattle.std.specs.Prelude.{◌≡◌, ◌⊎◌, ℕ, List, IfErr, IfOk, map};
ghost use Rattle.clap.specs.Values.{kind_of};
ghost use Rattle.clap.specs.declared.error.kind.ErrorKind.{ErrorKind};
ghost use Rattle.clap.specs.declared.parser.matches.ArgMatches.{ArgMatches as Matches};
ghost use Rattle.szg_words.specs.declared.command_line.CommandForm.{CommandForm};

use crate::command_line::{CommandForm, program};
use crate::usage::Usage;
use clap::error::ErrorKind;
use clap::{ArgMatches, Error};
use std::alloc::{AllocError, Global};

/// Decides which word of a command line goes to which argument.
///
/// What the program does with the values of arguments is proved of whatever decides this. That `Clap` decides it as the
/// help says is assumed, and tested.
pub trait Finder {
    /// these values are found in these words, by the commands of a form
    ghost finds: { CommandForm → List (List ℕ) → Matches → Type 0 };

    /// these words are refused by the commands of a form
    ghost refuses: { CommandForm → List (List ℕ) → Type 0 };

    /// Finds the values of the arguments in the words.
    fn find<'a>(
        &self,
        alloc: Global,
        words: &'a [&'a str],
        form: CommandForm,
    ) -> Result<ArgMatches<'a>, Error>
        ensures found { IfOk result (λ matches. finds form (map (λ word. word.now) words.now) matches) }
        ensures refused { IfErr result (λ error. (kind_of error ≡ ErrorKind.OutOfMemory) ⊎ refuses form (map (λ word. word.now) words.now)) };
}

/// `clap` with the commands of the program.
#[derive(Clone, Copy)]
pub struct Clap;

impl Finder for Clap {
    ghost use Rattle.szg_words.specs.Chosen.{IsFoundByClap, IsRefusedByClap};

    ghost finds = { IsFoundByClap };

    ghost refuses = { IsRefusedByClap };

    fn find<'a>(
        &self,
        alloc: Global,
        words: &'a [&'a str],
        form: CommandForm,
    ) -> Result<ArgMatches<'a>, Error> {
        match program(alloc, form)?.try_get_matches_from(words) {
            Ok(matches) => Ok(matches),
            Err(error) => Err(with_usage(alloc, words, form, error)?),
        }
    }
}

/// The end of `clap`'s texts of errors.
const HINT: &str = "\n\nFor more information, try '--help'.\n";

/// An error of a word that is none of its argument's values, with its command's usage, which `clap` leaves out; any
/// other error as it is.
fn with_usage(
    alloc: Global,
    words: &[&str],
    form: CommandForm,
    error: Error,
) -> Result<Error, AllocError> {
    if !matches!(error.kind(), ErrorKind::InvalidValue) {
        return Ok(error);
    }
    let text = format!(in alloc; "{error}")?;
    // between its first word and the hint at its end
    let message = text
        .strip_prefix("error: ")
        .and_then(|text| text.strip_suffix(HINT));
    match (words.get(1), message) {
        (Some(command), Some(message)) => {
            let usage = Usage {
                alloc,
                command: *command,
                form,
            };
            usage.error(ErrorKind::InvalidValue, message)
        }
        _ => Ok(error),
    }
}
