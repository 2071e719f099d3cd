//! The records of a report for programs.
ghost use Rattle.std.specs.Prelude.{◌≡◌, ◌+◌, ◌++◌, ◌^◌, ◌<◌, IfOk, OnOk, flat_map, option_map, string_bytes};
ghost use Rattle.std.specs.Duration.{as_nanos};
ghost use Rattle.szg_archive.specs.Records.{IsJsonRecord, IsReasonField, IsReportLine, IsTsvRecord, bytes_field, json_others, json_reason, json_summary, json_times, listed_byte, listed_name, number_or, offset_field, quoted, seconds_or, sum_line, sum_mark, tsv_reason, verdict_word};

use crate::counts::CheckCounts;
use crate::file_verdict::FileVerdict;
use crate::lines::{EMPTY, NO_TEXT, escaped_in, path_text, skip_reason, verdict_line};
use crate::reason_words::reason_word;
use std::alloc::{AllocError, Global};
use std::time::Duration;
use szg_named::{ReportFormat, error_text, fault_text, name_word};

/// The word for what a file's check says: `ok`, `refused`, `unread`, `kept` or `skipped`.
fn verdict_word(verdict: &FileVerdict, allow_trailing: bool) -> &'static str
    ensures { result.now ≡ verdict_word allow_trailing verdict.now }
{
    match verdict {
        FileVerdict::Whole(_) => "ok",
        FileVerdict::Trailing(_) if allow_trailing => "ok",
        FileVerdict::Unopened(_)
        | FileVerdict::Unread(_)
        | FileVerdict::NoText
        | FileVerdict::Empty => "unread",
        FileVerdict::Kept(_) => "kept",
        FileVerdict::Skipped(_) => "skipped",
        _ => "refused",
    }
}

/// The table's length in bytes. None if there is no table.
fn bytes_field(verdict: &FileVerdict) -> Option<u64>
    ensures { result ≡ bytes_field verdict.now }
{
    match verdict {
        FileVerdict::Whole(size) | FileVerdict::Trailing(size) | FileVerdict::Kept(size) => {
            Some(*size)
        }
        _ => None,
    }
}

/// The offset of the first check that fails. None if none fails, or no byte was read.
fn offset_field(verdict: &FileVerdict) -> Option<u64>
    ensures { result ≡ offset_field verdict.now }
{
    match verdict {
        FileVerdict::At(offset, _) => Some(*offset),
        FileVerdict::Trailing(size) => Some(*size),
        _ => None,
    }
}

/// Why a file isn't just a table. None if it is.
fn reason_field(alloc: Global, verdict: &FileVerdict) -> Result<Option<String>, AllocError>
    ensures { IfOk result (λ reason. IsReasonField verdict.now (option_map (λ text. string_bytes text) reason)) }
{
    let word = match verdict {
        FileVerdict::Whole(_) | FileVerdict::Kept(_) => return Ok(None),
        FileVerdict::Unopened(fault) => return Ok(Some(fault_text(alloc, fault)?)),
        FileVerdict::Unread(error) => return Ok(Some(error_text(alloc, error)?)),
        FileVerdict::Ending => "Ending",
        FileVerdict::Name(fault) => name_word(*fault),
        FileVerdict::At(_, reason) => reason_word(*reason),
        FileVerdict::Trailing(_) => "Trailing",
        FileVerdict::NoText => NO_TEXT,
        FileVerdict::Empty => EMPTY,
        FileVerdict::Skipped(skip) => skip_reason(*skip),
        FileVerdict::Differs => "Differs",
        FileVerdict::Unlisted => "Unlisted",
        FileVerdict::Missing => "Missing",
    };
    Ok(Some(String::from_str(alloc, word)?))
}

/// Appends a field after a mark.
fn push_field(text: &mut Vec<u8>, mark: &str, field: &[u8]) -> Result<(), AllocError>
    ensures { OnOk result (text.new.items ≡ text.old.items ++ (mark.now ++ field.now)) }
{
    text.extend_from_slice(mark.as_bytes())?;
    Ok(text.extend_from_slice(field)?)
}

/// Appends a number's digits after a mark, or `absent` if there is none.
fn push_number(
    alloc: Global,
    text: &mut Vec<u8>,
    mark: &str,
    number: Option<u64>,
    absent: &str,
) -> Result<(), AllocError>
    ensures { OnOk result (text.new.items ≡ text.old.items ++ (mark.now ++ number_or absent.now number)) }
{
    let Some(number) = number else {
        return push_field(text, mark, absent.as_bytes());
    };
    let digits = format!(in alloc; "{number}")?;
    push_field(text, mark, digits.as_bytes())
}

/// Appends a time in seconds with six digits after the point, or `absent` if it isn't known, after a mark.
fn push_seconds(
    alloc: Global,
    text: &mut Vec<u8>,
    mark: &str,
    elapsed: &Option<Duration>,
    absent: &str,
) -> Result<(), AllocError>
    ensures { OnOk result (text.new.items ≡ text.old.items ++ (mark.now ++ seconds_or absent.now (option_map (λ d. as_nanos d) elapsed.now))) }
{
    let Some(elapsed) = elapsed else {
        return push_field(text, mark, absent.as_bytes());
    };
    let seconds = elapsed.as_secs();
    let micros = elapsed.subsec_micros();
    let [a, b, c] = [
        micros / 100000 % 10,
        micros / 10000 % 10,
        micros / 1000 % 10,
    ];
    let [d, e, f] = [micros / 100 % 10, micros / 10 % 10, micros % 10];
    let time = format!(in alloc; "{seconds}.{a}{b}{c}{d}{e}{f}")?;
    push_field(text, mark, time.as_bytes())
}

/// These parts, one after another.
fn joined(alloc: Global, parts: &[&[u8]]) -> Result<Vec<u8>, AllocError>
    ensures { IfOk result (λ text. text.items ≡ flat_map (λ part. part.now) parts.now) }
{
    let mut text = Vec::new(alloc);
    'parts: for part in parts {
        text.extend_from_slice(part)?;
    }
    Ok(text)
}

/// A text as a JSON string.
fn quoted(alloc: Global, text: &str) -> Result<Vec<u8>, AllocError>
    ensures { IfOk result (λ string. string.items ≡ quoted text.now) }
{
    let escaped = escaped_in(alloc, ReportFormat::Json, text)?;
    joined(alloc, &["\"".as_bytes(), &escaped, "\"".as_bytes()])
}

/// A reason as a TSV field: nothing if there is none.
fn tsv_reason(alloc: Global, reason: &Option<String>) -> Result<Vec<u8>, AllocError>
    ensures { IfOk result (λ text. text.items ≡ tsv_reason (option_map (λ text. string_bytes text) reason.now)) }
{
    match reason {
        Some(reason) => escaped_in(alloc, ReportFormat::Tsv, reason.as_str()),
        None => Ok(Vec::new(alloc)),
    }
}

/// A reason as a JSON value: `null` if there is none.
fn json_reason(alloc: Global, reason: &Option<String>) -> Result<Vec<u8>, AllocError>
    ensures { IfOk result (λ text. text.items ≡ json_reason (option_map (λ text. string_bytes text) reason.now)) }
{
    match reason {
        Some(reason) => quoted(alloc, reason.as_str()),
        None => joined(alloc, &["null".as_bytes()]),
    }
}

/// When and how long a file was checked.
#[derive(Clone, Copy)]
pub(crate) struct Timing {
    pub elapsed: Option<Duration>,
    /// The nanoseconds from 1970 to the file's last change.
    pub modified: Option<u64>,
}

/// Returns the record of a file in a line, its fields separated by tabs.
fn tsv_record(
    alloc: Global,
    allow_trailing: bool,
    path: &str,
    verdict: &FileVerdict,
    timing: Timing,
) -> Result<Vec<u8>, AllocError>
    ensures { IfOk result (λ line. IsTsvRecord allow_trailing path.now verdict.now line.items) }
{
    let word = verdict_word(verdict, allow_trailing);
    let reason = tsv_reason(alloc, &reason_field(alloc, verdict)?)?;
    let mut line = path_text(alloc, verdict, path)?;
    push_field(&mut line, "\t", word.as_bytes())?;
    push_number(alloc, &mut line, "\t", bytes_field(verdict), "")?;
    push_field(&mut line, "\t", &reason)?;
    push_number(alloc, &mut line, "\t", offset_field(verdict), "")?;
    push_seconds(alloc, &mut line, "\t", &timing.elapsed, "")?;
    push_number(alloc, &mut line, "\t", timing.modified, "")?;
    line.push(b'\n')?;
    Ok(line)
}

/// Appends the times in a JSON object, and its end.
fn push_json_times(alloc: Global, text: &mut Vec<u8>, timing: Timing) -> Result<(), AllocError>
    ensures { OnOk result (text.new.items ≡ text.old.items ++ json_times (option_map (λ d. as_nanos d) timing.elapsed) timing.modified) }
{
    push_seconds(alloc, text, ",\"seconds\":", &timing.elapsed, "null")?;
    push_number(alloc, text, ",\"modified\":", timing.modified, "null")?;
    Ok(text.extend_from_slice(b"}\n")?)
}

/// Returns the record of a file as a JSON object in a line.
fn json_record(
    alloc: Global,
    allow_trailing: bool,
    path: &str,
    verdict: &FileVerdict,
    timing: Timing,
) -> Result<Vec<u8>, AllocError>
    ensures { IfOk result (λ line. IsJsonRecord allow_trailing path.now verdict.now line.items) }
{
    let word = verdict_word(verdict, allow_trailing);
    let reason = json_reason(alloc, &reason_field(alloc, verdict)?)?;
    let mut line = Vec::new(alloc);
    push_field(&mut line, "{\"path\":", &quoted(alloc, path)?)?;
    push_field(&mut line, ",\"verdict\":\"", word.as_bytes())?;
    let bytes = bytes_field(verdict);
    push_number(alloc, &mut line, "\",\"bytes\":", bytes, "null")?;
    push_field(&mut line, ",\"reason\":", &reason)?;
    let offset = offset_field(verdict);
    push_number(alloc, &mut line, ",\"offset\":", offset, "null")?;
    push_json_times(alloc, &mut line, timing)?;
    Ok(line)
}

/// What a report has of a file: its line; or its record, which has its path, what its check says, the seconds that the check
/// took, and the nanoseconds from 1970 to the file's last change.
pub(crate) fn report_line(
    alloc: Global,
    format: ReportFormat,
    allow_trailing: bool,
    path: &str,
    verdict: &FileVerdict,
    timing: Timing,
) -> Result<Vec<u8>, AllocError>
    ensures { IfOk result (λ line. IsReportLine format allow_trailing path.now verdict.now line.items) }
{
    match format {
        ReportFormat::Text => verdict_line(alloc, path, verdict, allow_trailing),
        ReportFormat::Tsv => tsv_record(alloc, allow_trailing, path, verdict, timing),
        ReportFormat::Json => json_record(alloc, allow_trailing, path, verdict, timing),
    }
}

/// The end of the summary: the numbers of files that weren't read or were left out, and that of skipped paths.
fn json_others(alloc: Global, tally: &CheckCounts) -> Result<String, AllocError>
    ensures { IfOk result (λ text. string_bytes text ≡ json_others tally.now) }
{
    let CheckCounts {
        unread,
        kept,
        skipped,
        ..
    } = *tally;
    format!(in alloc; ",\"unread\":{unread},\"kept\":{kept},\"skipped\":{skipped}}}\n")
}

/// The summary as a JSON object in a line.
pub(crate) fn json_summary(alloc: Global, tally: &CheckCounts) -> Result<String, AllocError>
    requires { tally.now.good + tally.now.refused + tally.now.unread + tally.now.kept < 2 ^ 64 }
    ensures { IfOk result (λ line. string_bytes line ≡ json_summary tally.now) }
{
    let CheckCounts { good, refused, .. } = *tally;
    let count = tally.files();
    let others = json_others(alloc, tally)?;
    format!(in alloc; "{{\"files\":{count},\"ok\":{good},\"refused\":{refused}{others}")
}

// ---- lines of sums

/// Appends a byte of a name, escaped if it ends a line or begins an escape.
fn push_listed_byte(text: &mut Vec<u8>, byte: u8) -> Result<(), AllocError>
    ensures { OnOk result (text.new.items ≡ text.old.items ++ listed_byte byte) }
{
    match byte {
        b'\n' => Ok(text.extend_from_slice(b"\\n")?),
        b'\r' => Ok(text.extend_from_slice(b"\\r")?),
        b'\\' => Ok(text.extend_from_slice(b"\\\\")?),
        _ => Ok(text.push(byte)?),
    }
}

/// Returns a name with its escapes.
fn listed_name(alloc: Global, name: &str) -> Result<Vec<u8>, AllocError>
    ensures { IfOk result (λ text. text.items ≡ listed_name name.now) }
{
    let mut text = Vec::new(alloc);
    'bytes: for byte in name.as_bytes() {
        push_listed_byte(&mut text, *byte)?;
    }
    Ok(text)
}

/// What a line begins with: a backslash if its name has escapes.
fn sum_mark(name: &str, text: &[u8]) -> &'static str
    ensures { result.now ≡ sum_mark name.now text.now }
{
    if text == name.as_bytes() { "" } else { "\\" }
}

/// Returns the line of a file in a list of sums, as `sha256sum` writes it.
pub(crate) fn sum_line(alloc: Global, digest: &[u8], name: &str) -> Result<Vec<u8>, AllocError>
    ensures { IfOk result (λ line. line.items ≡ sum_line digest.now name.now) }
{
    let text = listed_name(alloc, name)?;
    let mark = sum_mark(name, &text);
    let digits = hex::encode(alloc, digest)?;
    joined(
        alloc,
        &[
            mark.as_bytes(),
            digits.as_bytes(),
            "  ".as_bytes(),
            &text,
            "\n".as_bytes(),
        ],
    )
}
