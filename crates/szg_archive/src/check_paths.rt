//! Command lines that check files.
ghost use Rattle.std.specs.Prelude.{◌≡◌, map, slice_get, option_map};
ghost use Rattle.szg_archive.specs.Requested.{all_named, files_to_check, is_check};

use szg_named::named_by;

/// Whether each path has the extension of a kind of table.
fn are_named(paths: &[&str]) -> bool
    ensures { result ≡ all_named (map (λ path. path.now) paths.now) }
{
    'paths: for path in paths {
        if named_by(path).is_none() {
            return false;
        }
    }
    true
}

/// Whether the command is `check`.
fn is_check_command(words: &[&str]) -> bool
    ensures { result ≡ is_check (option_map (λ word. word.now) (slice_get words.now 1)) }
{
    match words.get(1) {
        Some(command) => *command == "check",
        None => false,
    }
}

/// The paths that a command line asks to check: those after `szg check`, where each ends as a table's file does. None where
/// there is none, or one that doesn't.
#[tactic(auto, using(crate::proofs::Asking::none_few, crate::proofs::Asking::none_other, crate::proofs::Asking::none_unnamed, crate::proofs::Asking::query_is))]
pub fn files_to_check<'w, 'a>(words: &'w [&'a str]) -> Option<&'w [&'a str]>
    ensures { option_map (λ paths. map (λ path. path.now) paths.now) result ≡ files_to_check (map (λ word. word.now) words.now) }
{
    if words.len() < 3 {
        return None;
    }
    if !is_check_command(words) {
        return None;
    }
    let paths = &words[2..];
    if !are_named(paths) {
        return None;
    }
    Some(paths)
}
