//! The words after a command, sorted into options with their values and other words.
use std::alloc::{AllocError, Global};

/// The words after a command.
#[derive(Drop)]
pub(crate) struct SortedWords<'a> {
    /// The options and their values, in their order.
    options: Vec<(&'a str, &'a str)>,
    /// The other words.
    pub words: Vec<&'a str>,
}

impl<'a> SortedWords<'a> {
    /// Returns the values of an option, in their order.
    pub(crate) fn values_of(
        &self,
        alloc: Global,
        option: &str,
    ) -> Result<Vec<&'a str>, AllocError> {
        let given = self.options.iter().filter(|(name, _)| *name == option);
        given.map(|(_, value)| *value).collect(alloc)
    }
}

/// Sorts the words of a command line whose command is this one; the options are these, each has a value, and they come
/// anywhere up to `--`. None for another command or option, and for an option without a value.
pub(crate) fn sorted_words<'a>(
    alloc: Global,
    words: &'a [&'a str],
    command: &'a str,
    options: &[&str],
) -> Result<Option<SortedWords<'a>>, AllocError> {
    let Some(mut rest) = words.get(1..).unwrap_or(&[]).strip_prefix(&[command]) else {
        return Ok(None);
    };
    let mut found = SortedWords {
        options: Vec::new(alloc),
        words: Vec::new(alloc),
    };
    let mut has_options = true;
    'words: for _ in 0..words.len() {
        let Some((word, after)) = rest.split_first() else {
            break;
        };
        rest = after;
        if has_options && *word == "--" {
            has_options = false;
        } else if has_options && word.starts_with('-') {
            let Some((option, value, after)) = option_in(options, word, rest) else {
                return Ok(None);
            };
            found.options.push((option, value))?;
            rest = after;
        } else {
            found.words.push(word)?;
        }
    }
    Ok(Some(found))
}

/// Returns the option of a word, its value, and the words after it: the value is in the word, after `=`, or it is the next word.
/// None if it is none of these options, or has no value.
fn option_in<'a>(
    options: &[&str],
    word: &'a str,
    rest: &'a [&'a str],
) -> Option<(&'a str, &'a str, &'a [&'a str])> {
    let (option, value, after) = match word.split_once('=') {
        Some((option, value)) => (option, value, rest),
        None => match rest.split_first() {
            Some((next, after)) if !next.starts_with('-') => (word, *next, after),
            _ => return None,
        },
    };
    let is_option = options.iter().any(|name| *name == option) && !value.is_empty();
    is_option.then_some((option, value, after))
}
