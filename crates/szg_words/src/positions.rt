//! Results of positions over folders of tables: `szg probe [--format json] FOLDER.. FEN`.

/// The form of an answer.
#[derive(Clone, Copy)]
pub enum AnswerForm {
    /// Lines for a position that is asked for alone, else one line.
    Text,
    /// A JSON object on one line.
    Json,
}

/// What a command line asks of folders.
#[derive(Clone, Copy)]
pub struct ProbeWords<'a> {
    pub form: AnswerForm,
    /// The folders, or tables' files.
    pub folders: &'a [&'a str],
    /// The position's text, or `-`: then each line of the input is one.
    pub fen: &'a str,
}

/// Returns what a command line asks of folders: its command is `probe`, and its last word has a space, or is `-`.
/// `--format json` may stand before the folders, or after that word. None if there is another option.
pub fn probe_of<'a>(words: &'a [&'a str]) -> Option<ProbeWords<'a>> {
    let words = words.get(1..)?.strip_prefix(&["probe"])?;
    let option: [&str; 2] = ["--format", "json"];
    let joined: [&str; 1] = ["--format=json"];
    let before = words.strip_prefix(&option).or(words.strip_prefix(&joined));
    let after = words.strip_suffix(&option).or(words.strip_suffix(&joined));
    let (form, rest) = match before.or(after) {
        Some(rest) => (AnswerForm::Json, rest),
        None => (AnswerForm::Text, words),
    };
    let (fen, folders) = rest.split_last()?;
    if folders.is_empty() || !is_fen(fen) || folders.iter().any(|word| word.starts_with("--")) {
        return None;
    }
    Some(ProbeWords { form, folders, fen })
}

/// Returns whether a word is a position's text, or asks for the lines of the input.
fn is_fen(word: &str) -> bool {
    word == "-" || word.contains(' ')
}

/// Whether the words ask a DTZ table for a placement's number, and give no class and no position's text.
pub fn assumes_win(words: &[String]) -> bool {
    let mut is_dtz = false;
    'words: for word in words {
        let word = word.as_str();
        if word.starts_with("--class") || word == "wdl" || word == "--kind=wdl" || is_fen(word) {
            return false;
        }
        is_dtz = is_dtz || word == "dtz" || word == "--kind=dtz" || word.ends_with(".rtbz");
    }
    is_dtz && words.len() > 2 && words[1].as_str() == "probe"
}
