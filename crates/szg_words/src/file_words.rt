//! Command lines that name files.
ghost use Rattle.std.specs.Prelude.{◌≡◌, ◌⊎◌, true, false, IfErr, IfOk, IfSome, codes, is_some, map, option_map};
ghost use Rattle.std.specs.Str.{bytes_eq};
ghost use Rattle.clap.specs.Matches.{first_value, found_of};
ghost use Rattle.clap.specs.Values.{kind_of as kind_of_error};
ghost use Rattle.clap.specs.declared.error.kind.ErrorKind.{ErrorKind};
ghost use Rattle.szg_named.specs.Named.{name_given, named_as};
ghost use Rattle.szg_words.specs.Requested.{parsed_report_format, words_of};
ghost use Rattle.szg_words.specs.Chosen.{AsksForJob, AsksForNoJob, IsErrorOf, IsJobError};
ghost use Rattle.szg_words.specs.Jobs.{IsJobIn, IsShardIn, IsShardWord, kind_given};

use crate::command_line::CommandForm;
use crate::finding::Finder;
use crate::numbers::number;
use crate::request::{
    Request, Task, check_plan, is_given, kind_of, missing_command, plan_in, request_on,
};
use crate::usage::Usage;
use clap::error::ErrorKind;
use clap::{ArgMatches, Error};
use std::alloc::{AllocError, Global};
use szg_named::{FileShard, Naming, ReportFormat, named_as, named_by};
use szg_values::Material;

/// The check of files and of what is below folders.
#[derive(Drop)]
pub struct CheckJob<'a> {
    /// The name and the kind of each file, if they are given.
    pub naming: Naming<'a>,
    /// Whether bytes may follow a table.
    pub allow_trailing: bool,
    /// How the report is written.
    pub format: ReportFormat,
    /// Whether the report has only files that are refused or unread.
    pub quiet: bool,
    /// Which files are checked, if not all.
    pub shard: Option<FileShard>,
    /// The lists of sums.
    pub lists: Vec<&'a str>,
    /// The logs of earlier runs.
    pub logs: Vec<&'a str>,
    /// The file for the digests of files that pass.
    pub manifest: Option<&'a str>,
    pub paths: Vec<&'a str>,
}

/// What a command line that names files asks for.
#[derive(Drop)]
pub enum FileJob<'a> {
    /// The check of files.
    Check(CheckJob<'a>),
    /// A task on the file at `source`, else on standard input; its answer goes to the file at `target`, else to standard
    /// output.
    Run {
        task: Task<'a>,
        source: Option<&'a str>,
        target: Option<&'a str>,
    },
    /// A look-up in the file at `source`, by its front.
    LookUp {
        request: Request<'a>,
        source: &'a str,
    },
}

/// Whether a word is an option that only commands on files have.
fn is_file_option(word: &str) -> bool {
    word.starts_with("-o")
        || word.starts_with("--output")
        || word.starts_with("--name")
        || word.starts_with("--kind")
        || word.starts_with("--allow-trailing")
        || word.starts_with("--format")
        || word.starts_with("--quiet")
        || word.starts_with("--sums")
        || word.starts_with("--manifest")
        || word.starts_with("--resume")
        || word.starts_with("--shard")
}

/// Whether the words of `build` name a file: an option of files, or a word that is neither an option nor its value.
fn build_names_files(words: &[&str]) -> bool {
    let mut is_value = false;
    'words: for word in words {
        if is_file_option(word) || (!is_value && !word.starts_with('-')) {
            return true;
        }
        is_value = matches!(*word, "--plan" | "--block" | "--span" | "--rounds");
    }
    false
}

/// Whether the words of `check` name files or folders: it is no table's name that comes first, and no word is a kind.
fn check_names_files(words: &[&str]) -> bool {
    if words.iter().any(|word| matches!(*word, "wdl" | "dtz")) {
        return false;
    }
    let first = words.iter().find(|word| !word.starts_with('-'));
    first.is_some_and(|word| Material::parse(word).is_err())
}

/// Whether a command line names files: a word that ends as a table's file does, an option that only files have, a dump's
/// file, or what `check` is to check. So is taken a command line that only asks for help.
pub fn names_files(words: &[&str]) -> bool {
    if words.len() < 3 {
        return false;
    }
    let rest = &words[2..];
    if words[1] == "help" || (rest.len() == 1 && matches!(rest[0], "-h" | "--help")) {
        return true;
    }
    if words[1] == "build" {
        return build_names_files(rest);
    }
    if words[1] == "check" && check_names_files(rest) {
        return true;
    }
    rest.iter()
        .any(|word| named_by(word).is_some() || is_file_option(word))
}

/// What the words of a command that names files ask for.
pub fn parse_files<'a, F: Finder>(
    alloc: Global,
    finder: &F,
    words: &'a [&'a str],
) -> Result<FileJob<'a>, Error>
    ensures queried { IfOk result (AsksForJob F.finds (map (λ word. word.now) words.now)) }
    ensures none { IfErr result (λ error. (kind_of_error error ≡ ErrorKind.OutOfMemory) ⊎ AsksForNoJob F.finds F.refuses (map (λ word. word.now) words.now)) }
{
    let form = CommandForm::Files;
    let matches = finder.find(alloc, words, form)?;
    let Some((command, chosen)) = matches.subcommand() else {
        return Err(missing_command(alloc, form)?);
    };
    let usage = Usage {
        alloc,
        command,
        form,
    };
    check_plan(usage, chosen)?;
    job_in(usage, chosen)
}

/// The name and the kind that are given.
fn naming_in<'a>(chosen: &ArgMatches<'a>) -> Naming<'a>
    ensures name { name_given result ≡ first_value (found_of chosen.now) (codes "name") }
    ensures kind { result.kind ≡ kind_given (found_of chosen.now) }
{
    let kind = match chosen.get_str("kind") {
        Some(word) => Some(kind_of(Some(word))),
        None => None,
    };
    Naming {
        name: chosen.get_str("name"),
        kind,
    }
}

/// The form of a report; for a reader if there is no word.
fn report_format_of(word: Option<&str>) -> ReportFormat
    ensures { result ≡ parsed_report_format (option_map (λ text. text.now) word.entry) }
{
    match word {
        Some("tsv") => ReportFormat::Tsv,
        Some("json") => ReportFormat::Json,
        _ => ReportFormat::Text,
    }
}

/// The job that a command and its words make.
fn job_in<'a>(usage: Usage<'_>, chosen: &ArgMatches<'a>) -> Result<FileJob<'a>, Error>
    ensures job { IfOk result (IsJobIn usage.entry.command.now (found_of chosen.now)) }
    ensures none { IfErr result (IsJobError usage.entry.command.now (found_of chosen.now)) }
{
    match usage.command {
        "check" => check_in(usage, chosen),
        "build" => Ok(FileJob::Run {
            task: Task::Build(plan_in(usage, chosen)?),
            source: chosen.get_str("DUMP"),
            target: chosen.get_str("output"),
        }),
        _ => table_job_in(usage, chosen),
    }
}

/// Parses a shard: its number, from 1 on, a slash, and how many there are. None if the word isn't one.
fn parsed_shard(alloc: Global, word: &str) -> Result<Option<FileShard>, AllocError>
    ensures { IfOk result (λ shard. IfSome shard (λ one. IsShardWord word.now one)) }
{
    let Some((first, last)) = word.split_once('/') else {
        return Ok(None);
    };
    let (Some(number), Some(count)) = (number(first), number(last)) else {
        return Ok(None);
    };
    let text = format!(in alloc; "{number}/{count}")?;
    if text.as_str() == word && 1 <= number && number <= count {
        Ok(Some(FileShard { number, count }))
    } else {
        Ok(None)
    }
}

/// The shard that is given. None if there is none.
fn shard_in(usage: Usage<'_>, chosen: &ArgMatches<'_>) -> Result<Option<FileShard>, Error>
    ensures shard { IfOk result (IsShardIn (first_value (found_of chosen.now) (codes "shard"))) }
    ensures none { IfErr result (λ error. IsErrorOf ErrorKind.ValueValidation error × (is_some (first_value (found_of chosen.now) (codes "shard")) ≡ true)) }
{
    let Some(word) = chosen.get_str("shard") else {
        return Ok(None);
    };
    if let Some(shard) = parsed_shard(usage.alloc, word)? {
        return Ok(Some(shard));
    }
    let message = format!(in usage.alloc;
        "invalid value '{word}' for '--shard <K/N>': not a number K from 1 to N, a slash and N"
    )?;
    Err(usage.error(ErrorKind::ValueValidation, message.as_str())?)
}

/// The words of an argument that may have several.
fn texts_in<'a>(
    alloc: Global,
    chosen: &ArgMatches<'a>,
    id: &str,
) -> Result<Vec<&'a str>, AllocError>
    ensures { IfOk result (λ texts. map (λ text. text.now) texts.items ≡ words_of (found_of chosen.now) id.now) }
{
    let found = chosen.get_strs(id).unwrap_or(&[]);
    let mut texts = Vec::new(alloc);
    texts.extend_from_slice(found)?;
    Ok(texts)
}

/// The files that are to be checked.
fn check_in<'a>(usage: Usage<'_>, chosen: &ArgMatches<'a>) -> Result<FileJob<'a>, Error>
    ensures job { IfOk result (IsJobIn (codes "check") (found_of chosen.now)) }
    ensures none { IfErr result (IsJobError (codes "check") (found_of chosen.now)) }
{
    Ok(FileJob::Check(CheckJob {
        naming: naming_in(chosen),
        allow_trailing: is_given(chosen, "allow-trailing", "true"),
        format: report_format_of(chosen.get_str("format")),
        quiet: is_given(chosen, "quiet", "true"),
        shard: shard_in(usage, chosen)?,
        lists: texts_in(usage.alloc, chosen, "sums")?,
        logs: texts_in(usage.alloc, chosen, "resume")?,
        manifest: chosen.get_str("manifest"),
        paths: texts_in(usage.alloc, chosen, "FILE")?,
    }))
}

/// The request on the table at a path.
fn table_job_in<'a>(usage: Usage<'_>, chosen: &ArgMatches<'a>) -> Result<FileJob<'a>, Error>
    requires { bytes_eq usage.command.now (codes "build") ≡ false }
    ensures job { IfOk result (IsJobIn usage.entry.command.now (found_of chosen.now)) }
    ensures none { IfErr result (IsJobError usage.entry.command.now (found_of chosen.now)) }
{
    let path = chosen.get_str("FILE").unwrap_or("");
    let Some((name, kind)) = named_as(naming_in(chosen), path) else {
        let message =
            "the file's ending is neither .rtbw nor .rtbz: give its kind by '--kind <KIND>'";
        return Err(usage.error(ErrorKind::MissingRequiredArgument, message)?);
    };
    let request = request_on(usage, chosen, name, kind)?;
    if request.action.is_look_up() && !is_given(chosen, "verify", "true") {
        return Ok(FileJob::LookUp {
            request,
            source: path,
        });
    }
    Ok(FileJob::Run {
        task: Task::OnTable(request),
        source: Some(path),
        target: chosen.get_str("output"),
    })
}
