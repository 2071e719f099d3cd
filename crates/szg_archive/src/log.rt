//! Logs: the records of earlier runs.
ghost use Rattle.std.specs.Prelude.{◌≡◌};
ghost use Rattle.szg_archive.specs.Logs.{entry_of, past_of};

use std::alloc::{AllocError, Global};
use szg_sums::{FromLines, normal};

/// A file's length in bytes, and the nanoseconds from 1970 to its last change.
#[derive(Clone, Copy)]
pub struct FileState {
    pub length: u64,
    pub modified: u64,
}

/// A record of an earlier run.
#[derive(Drop)]
struct LogEntry {
    /// The path without detours.
    path: Vec<u8>,
    /// The state in which the file was good. None if it wasn't.
    good: Option<FileState>,
}

/// The records of earlier runs, in their order.
#[derive(Drop)]
pub struct Log {
    entries: Vec<LogEntry>,
}

impl Log {
    ghost use Rattle.std.specs.Prelude.{◌≡◌, IfOk, []};
    ghost use Rattle.szg_archive.specs.Logs.{entries_of, last_state};

    /// Creates a log without records.
    pub fn new(alloc: Global) -> Log
        ensures { entries_of result ≡ [] }
    {
        Log {
            entries: Vec::new(alloc),
        }
    }

    /// Returns the state in which the file at a path was good by its last record. None if that isn't good, or there is none.
    pub fn last_state(&self, alloc: Global, path: &str) -> Result<Option<FileState>, AllocError>
        ensures { IfOk result (λ state. state ≡ last_state (entries_of self.now) path.now) }
    {
        let normal = normal(alloc, path.as_bytes())?;
        let mut known = None;
        'entries: for entry in &self.entries {
            known = past(&normal, known, entry);
        }
        Ok(known)
    }
}

impl FromLines for Log {
    /// Adds the records of a text, as a check writes them with `--format tsv` or `json`. Summaries and empty lines are passed
    /// over, and what follows the last line's end: a run that was cut off wrote it.
    fn add_lines(&mut self, alloc: Global, text: &[u8]) -> Result<Option<u64>, AllocError> {
        let Some(end) = text.iter().rposition(|byte| *byte == b'\n') else {
            return Ok(None);
        };
        let mut number = 0u64;
        'lines: for line in text[..end].split(|byte| *byte == b'\n') {
            number = number.saturating_add(1);
            let is_summary = (line.starts_with(b"files ".as_slice()) && !line.contains(&b'\t'))
                || line.starts_with(b"{\"files\":".as_slice());
            if line.is_empty() || is_summary {
                continue;
            }
            match entry_in(alloc, line)? {
                Some(entry) => self.entries.push(entry)?,
                None => return Ok(Some(number)),
            }
        }
        Ok(None)
    }
}

/// What is known after one more record.
fn past(path: &[u8], known: Option<FileState>, entry: &LogEntry) -> Option<FileState>
    ensures { result ≡ past_of path.now known (entry_of entry.now) }
{
    if entry.path.as_slice() == path {
        entry.good
    } else {
        known
    }
}

/// Returns the record in a line. None if it has none.
fn entry_in(alloc: Global, line: &[u8]) -> Result<Option<LogEntry>, AllocError> {
    let (parts, mark) = match line.strip_prefix(b"{\"path\":\"".as_slice()) {
        Some(rest) => (json_parts(rest), b"\\u00".as_slice()),
        None => (tsv_parts(line), b"\\x".as_slice()),
    };
    let Some((text, good)) = parts else {
        return Ok(None);
    };
    let path = normal(alloc, &unescaped(alloc, text, mark)?)?;
    Ok(Some(LogEntry { path, good }))
}

/// Returns the number that decimal digits are.
fn number_in(digits: &[u8]) -> Option<u64> {
    std::str::from_utf8(digits).ok()?.parse::<u64>().ok()
}

/// The state that a record has, if its verdict and reason say that the file was good.
fn state_in(word: &[u8], reason: &[u8], bytes: &[u8], modified: &[u8]) -> Option<FileState> {
    let is_good = word == b"ok".as_slice() || word == b"kept".as_slice();
    if !is_good || !reason.is_empty() {
        return None;
    }
    let length = number_in(bytes)?;
    let modified = number_in(modified)?;
    Some(FileState { length, modified })
}

/// Returns a text up to a mark, and what follows the mark.
fn split_at_mark<'a>(text: &'a [u8], mark: &[u8]) -> Option<(&'a [u8], &'a [u8])> {
    (0..text.len()).find_map(|at| Some((text.get(..at)?, text.get(at..)?.strip_prefix(mark)?)))
}

/// Returns the escaped path of a TSV record, and the state in which the file was good.
fn tsv_parts(line: &[u8]) -> Option<(&[u8], Option<FileState>)> {
    let tab = b"\t".as_slice();
    let (path, rest) = split_at_mark(line, tab)?;
    let (word, rest) = split_at_mark(rest, tab)?;
    let (bytes, rest) = split_at_mark(rest, tab)?;
    let (reason, rest) = split_at_mark(rest, tab)?;
    let (_, rest) = split_at_mark(rest, tab)?;
    let (_, modified) = split_at_mark(rest, tab)?;
    if modified.contains(&b'\t') {
        return None;
    }
    Some((path, state_in(word, reason, bytes, modified)))
}

/// Returns the escaped path of a JSON record, and the state in which the file was good. The text begins with the path.
fn json_parts(text: &[u8]) -> Option<(&[u8], Option<FileState>)> {
    let (path, rest) = split_at_mark(text, b"\",\"verdict\":\"".as_slice())?;
    let (word, rest) = split_at_mark(rest, b"\",\"bytes\":".as_slice())?;
    let (bytes, rest) = split_at_mark(rest, b",\"reason\":".as_slice())?;
    let (reason, rest) = split_at_mark(rest, b",\"offset\":".as_slice())?;
    let (_, rest) = split_at_mark(rest, b",\"modified\":".as_slice())?;
    let modified = rest.strip_suffix(b"}".as_slice())?;
    let reason = if reason == b"null".as_slice() {
        b"".as_slice()
    } else {
        reason
    };
    Some((path, state_in(word, reason, bytes, modified)))
}

/// Returns the byte that two hexadecimal digits at the beginning of a text are.
fn hex_byte(text: &[u8]) -> Option<u8> {
    let mut byte = [0];
    hex::decode_to_slice(text.get(..2)?, &mut byte).ok()?;
    Some(byte[0])
}

/// Returns a text without its escapes: `mark` and two hexadecimal digits, or a backslash before another byte.
fn unescaped(alloc: Global, text: &[u8], mark: &[u8]) -> Result<Vec<u8>, AllocError> {
    let mut bytes = Vec::new(alloc);
    let mut passed = 0usize;
    'bytes: for (at, byte) in text.iter().enumerate() {
        if at < passed {
            continue;
        }
        let (_, rest) = text.split_at(at);
        match rest.strip_prefix(mark).and_then(hex_byte) {
            Some(escaped) => {
                bytes.push(escaped)?;
                passed = at.saturating_add(mark.len()).saturating_add(2);
            }
            None if *byte == b'\\' => {
                if let Some(next) = rest.get(1) {
                    bytes.push(*next)?;
                }
                passed = at.saturating_add(2);
            }
            None => bytes.push(*byte)?,
        }
    }
    Ok(bytes)
}
