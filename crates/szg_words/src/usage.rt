//! A command with its usage, and the errors of its words.

ghost use Rattle.std.specs.Prelude.{◌≡◌, ◌≤◌, IfErr, IfOk, None, Some};
ghost use Rattle.clap.specs.Matches.{found_of};
ghost use Rattle.clap.specs.Values.{kind_of};
ghost use Rattle.szg_words.specs.Chosen.{IsErrorOf};
ghost use Rattle.szg_words.specs.Words.{number_from, word_of};

use crate::arguments::Argument;
use crate::command_line::{CommandForm, command_of};
use crate::numbers::number_of;
use clap::error::ErrorKind;
use clap::{ArgMatches, Error};
use std::alloc::{AllocError, Global};

/// A command with its usage, which the errors of its words end with.
#[derive(Clone, Copy)]
pub struct Usage<'a> {
    pub alloc: Global,
    pub command: &'a str,
    pub form: CommandForm,
}

impl Usage<'_> {
    /// Creates an error with the usage.
    pub(crate) fn error(self, kind: ErrorKind, message: &str) -> Result<Error, AllocError>
        ensures kind { IfOk result (λ error. kind_of error ≡ kind) }
    {
        let name = format!(in self.alloc; "szg {}", self.command)?;
        let command = command_of(self.alloc, self.command, self.form)?;
        command.name(name.as_str()).error(kind, message)
    }

    /// Parses the number of an argument's word. Errors: the word isn't one of the argument's numbers.
    pub fn number(self, chosen: &ArgMatches<'_>, argument: &Argument) -> Result<u64, Error>
        ensures stated { IfOk result (λ n. number_from argument.now.least argument.now.greatest (word_of (found_of chosen.now) argument.now.id.now) ≡ Some n) }
        ensures within { IfOk result (λ n. (argument.now.least ≤ n) × (n ≤ argument.now.greatest)) }
        ensures refused { IfErr result (λ error. number_from argument.now.least argument.now.greatest (word_of (found_of chosen.now) argument.now.id.now) ≡ None) }
        ensures kind { IfErr result (IsErrorOf ErrorKind.ValueValidation) }
    {
        let word = match number_of(chosen, argument) {
            Ok(number) => return Ok(number),
            Err(word) => word,
        };
        let message = format!(in self.alloc;
            "invalid value '{word}' for '{argument}': not a number from {} to {}",
            argument.least, argument.greatest
        )?;
        Err(self.error(ErrorKind::ValueValidation, message.as_str())?)
    }
}
