//! The lines of a report.
ghost use Rattle.std.specs.Prelude.{◌≡◌, ◌++◌, ◌∷◌, [], ◌+◌, ◌/◌, ◌%◌, ◌^◌, ◌<◌, IfOk, OnOk, decimal, string_bytes};
ghost use Rattle.szg_archive.specs.Records.{escaped_byte_in, escaped_in, json_byte};
ghost use Rattle.szg_archive.specs.Lines.{IsLine, IsVerdictText, escaped, escaped_byte, hex_digit, path_text, skip_reason, more_text, summary_text};

use crate::counts::CheckCounts;
use crate::file_verdict::{FileVerdict, Skip};
use crate::reason_words::reason_word;
use std::alloc::{AllocError, Global};
use szg_named::{ReportFormat, error_text, fault_text, name_word};

/// Returns the hexadecimal digit of a number below 16.
fn hex_digit(value: u8) -> u8
    requires { value < 16 }
    ensures { result ≡ hex_digit value }
{
    if value < 10 { value + 48 } else { value + 87 }
}

/// Appends a byte of a path: control characters and backslashes as `\x` and two digits.
fn push_escaped(text: &mut Vec<u8>, byte: u8) -> Result<(), AllocError>
    ensures { OnOk result (text.new.items ≡ text.old.items ++ escaped_byte byte) }
{
    if byte < 32 || byte == 127 || byte == b'\\' {
        text.extend_from_slice(b"\\x")?;
        return push_hex(text, byte);
    }
    Ok(text.push(byte)?)
}

/// Appends a byte's two hexadecimal digits.
fn push_hex(text: &mut Vec<u8>, byte: u8) -> Result<(), AllocError>
    ensures { OnOk result (text.new.items ≡ text.old.items ++ (hex_digit (byte / 16) ∷ hex_digit (byte % 16) ∷ [])) }
{
    text.push(hex_digit(byte / 16))?;
    Ok(text.push(hex_digit(byte % 16))?)
}

/// Appends a byte of a JSON string: quotes and backslashes after a backslash, control characters by their number.
fn push_json(text: &mut Vec<u8>, byte: u8) -> Result<(), AllocError>
    ensures { OnOk result (text.new.items ≡ text.old.items ++ json_byte byte) }
{
    if byte == b'"' || byte == b'\\' {
        text.push(b'\\')?;
        return Ok(text.push(byte)?);
    }
    if byte < 32 || byte == 127 {
        text.extend_from_slice(b"\\u00")?;
        return push_hex(text, byte);
    }
    Ok(text.push(byte)?)
}

/// Appends a byte of a text as a report in this format has it.
fn push_escaped_in(text: &mut Vec<u8>, format: ReportFormat, byte: u8) -> Result<(), AllocError>
    ensures { OnOk result (text.new.items ≡ text.old.items ++ escaped_byte_in format byte) }
{
    match format {
        ReportFormat::Text | ReportFormat::Tsv => push_escaped(text, byte),
        ReportFormat::Json => push_json(text, byte),
    }
}

/// A text with its control characters and backslashes, in JSON also its quotes, escaped: it stays within one line and one
/// field.
pub(crate) fn escaped_in(
    alloc: Global,
    format: ReportFormat,
    source: &str,
) -> Result<Vec<u8>, AllocError>
    ensures { IfOk result (λ text. text.items ≡ escaped_in format source.now) }
{
    let mut text = Vec::new(alloc);
    'bytes: for byte in source.as_bytes() {
        push_escaped_in(&mut text, format, *byte)?;
    }
    Ok(text)
}

/// Returns the path of a file in a line: escaped, unless the verdict says that it is already.
pub(crate) fn path_text(
    alloc: Global,
    verdict: &FileVerdict,
    path: &str,
) -> Result<Vec<u8>, AllocError>
    ensures { IfOk result (λ text. text.items ≡ path_text verdict.now path.now) }
{
    match verdict {
        FileVerdict::NoText => {
            let mut text = Vec::new(alloc);
            text.extend_from_slice(path.as_bytes())?;
            Ok(text)
        }
        _ => escaped_in(alloc, ReportFormat::Text, path),
    }
}

/// Returns a path as a line has it: each control character and each backslash is `\xNN`.
pub fn escaped_path(alloc: Global, path: &str) -> Result<String, AllocError> {
    let escaped = escaped_in(alloc, ReportFormat::Text, path)?;
    match String::from_utf8(escaped) {
        Ok(text) => Ok(text),
        Err(_) => String::from_str(alloc, path),
    }
}

/// Returns the line of a file: its path and its verdict.
pub fn verdict_line(
    alloc: Global,
    path: &str,
    verdict: &FileVerdict,
    allow_trailing: bool,
) -> Result<Vec<u8>, AllocError>
    ensures { IfOk result (λ line. IsLine allow_trailing path.now verdict.now line.items) }
{
    let mut line = path_text(alloc, verdict, path)?;
    let rest = verdict_text(alloc, verdict, allow_trailing)?;
    line.extend_from_slice(rest.as_bytes())?;
    Ok(line)
}

/// Returns a line's end: a text, and a word.
fn worded(alloc: Global, text: &str, word: &str) -> Result<String, AllocError>
    ensures { IfOk result (λ end. string_bytes end ≡ text.now ++ (word.now ++ 10 ∷ [])) }
{
    format!(in alloc; "{text}{word}\n")
}

/// Returns a line's end: a text, a number, and what follows that.
fn numbered(alloc: Global, text: &str, number: u64, rest: &str) -> Result<String, AllocError>
    ensures { IfOk result (λ end. string_bytes end ≡ text.now ++ (decimal number ++ (rest.now ++ 10 ∷ []))) }
{
    format!(in alloc; "{text}{number}{rest}\n")
}

/// Returns the text of a verdict, up to the end of its line.
fn verdict_text(
    alloc: Global,
    verdict: &FileVerdict,
    allow_trailing: bool,
) -> Result<String, AllocError>
    ensures { IfOk result (λ text. IsVerdictText allow_trailing verdict.now (string_bytes text)) }
{
    match verdict {
        FileVerdict::Whole(size) => numbered(alloc, ": ok ", *size, ""),
        FileVerdict::Trailing(size) if allow_trailing => {
            numbered(alloc, ": ok ", *size, ", more bytes follow")
        }
        FileVerdict::Kept(size) => numbered(alloc, ": kept ", *size, ""),
        FileVerdict::Ending => worded(alloc, ": refused name: ", "Ending"),
        FileVerdict::Name(fault) => worded(alloc, ": refused name: ", name_word(*fault)),
        FileVerdict::At(offset, reason) => {
            let word = reason_word(*reason);
            format!(in alloc; ": refused at {offset}: {word}\n")
        }
        FileVerdict::Trailing(size) => numbered(alloc, ": refused at ", *size, ": Trailing"),
        FileVerdict::Unopened(fault) => {
            let reason = fault_text(alloc, fault)?;
            worded(alloc, ": ", reason.as_str())
        }
        FileVerdict::Unread(error) => {
            let reason = error_text(alloc, error)?;
            worded(alloc, ": ", reason.as_str())
        }
        FileVerdict::NoText => worded(alloc, ": ", NO_TEXT),
        FileVerdict::Empty => worded(alloc, ": ", EMPTY),
        FileVerdict::Skipped(skip) => worded(alloc, ": skipped: ", skip_reason(*skip)),
        FileVerdict::Differs => worded(alloc, ": refused sum: ", "Differs"),
        FileVerdict::Unlisted => worded(alloc, ": refused sum: ", "Unlisted"),
        FileVerdict::Missing => worded(alloc, ": refused sum: ", "Missing"),
    }
}

/// Why a file whose name is not UTF-8 is unread.
pub(crate) const NO_TEXT: &str = "its name is not UTF-8";

/// Why a folder without table files is unread.
pub(crate) const EMPTY: &str = "no table file is below it";

/// Returns why a path is not checked.
pub(crate) fn skip_reason(skip: Skip) -> &'static str
    ensures { result.now ≡ skip_reason skip }
{
    match skip {
        Skip::Ending => "it looks like a table, and ends in neither .rtbw nor .rtbz",
        Skip::Loop => "it leads to a folder that it is in",
        Skip::Again => "another link led to this folder",
    }
}

/// Returns the summary: the number of files, and how many of them are good, refused, unread and, if there are any, left out;
/// and the number of paths that were skipped, if there are any.
pub fn summary_line(alloc: Global, tally: &CheckCounts) -> Result<String, AllocError>
    requires { tally.now.good + tally.now.refused + tally.now.unread + tally.now.kept < 2 ^ 64 }
    ensures { IfOk result (λ line. string_bytes line ≡ summary_text tally.now) }
{
    let CheckCounts {
        good,
        refused,
        unread,
        kept,
        skipped,
    } = *tally;
    let count = tally.files();
    let left = more_text(alloc, "kept", kept)?;
    let more = more_text(alloc, "skipped", skipped)?;
    format!(in alloc; "files {count}: ok {good}, refused {refused}, unread {unread}{left}{more}\n")
}

/// Returns the part of a summary about what there may be none of: nothing if there is none.
fn more_text(alloc: Global, word: &str, count: u64) -> Result<String, AllocError>
    ensures { IfOk result (λ text. string_bytes text ≡ more_text word.now count) }
{
    if count == 0 {
        return Ok(String::new(alloc));
    }
    format!(in alloc; ", {word} {count}")
}
