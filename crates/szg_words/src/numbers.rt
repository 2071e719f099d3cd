//! The numbers of a command line.

ghost use Rattle.std.specs.Prelude.{◌≡◌, ◌≤◌, IfOk, IfErr, Some, None};
ghost use Rattle.std.specs.Char.{is_ascii_digit};
ghost use Rattle.std.specs.List.{list_all};
ghost use Rattle.clap.specs.Matches.{found_of};
ghost use Rattle.szg_words.specs.Words.{number_from, parsed_number, word_of};

use crate::arguments::Argument;
use clap::ArgMatches;

/// Parses the number of an argument's word. Errors: the word, if it isn't one of the argument's numbers.
pub fn number_of<'a>(chosen: &ArgMatches<'a>, argument: &Argument) -> Result<u64, &'a str>
    ensures stated { IfOk result (λ n. number_from argument.now.least argument.now.greatest (word_of (found_of chosen.now) argument.now.id.now) ≡ Some n) }
    ensures within { IfOk result (λ n. (argument.now.least ≤ n) × (n ≤ argument.now.greatest)) }
    ensures refused { IfErr result (λ word. number_from argument.now.least argument.now.greatest (word_of (found_of chosen.now) argument.now.id.now) ≡ None) }
    ensures fault { IfErr result (λ word. word.now ≡ word_of (found_of chosen.now) argument.now.id.now) }
{
    let word = chosen.get_str(argument.id).unwrap_or("");
    match number(word) {
        Some(value) if argument.least <= value && value <= argument.greatest => Ok(value),
        _ => Err(word),
    }
}

/// Parses decimal digits (leading zeros allowed). None if any byte is no digit or the number is 2^64 or more.
pub(crate) fn number(text: &str) -> Option<u64>
    ensures { result ≡ parsed_number text.now }
{
    if are_digits(text.as_bytes()) {
        text.parse().ok()
    } else {
        None
    }
}

/// Returns whether each byte is a decimal digit.
fn are_digits(text: &[u8]) -> bool
    ensures { result ≡ list_all is_ascii_digit text.now }
{
    text.iter().all(|byte| byte.is_ascii_digit())
}
