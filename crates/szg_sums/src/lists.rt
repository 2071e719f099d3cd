//! Lists of sums, as `md5sum`, `sha1sum`, `sha256sum` and `sha512sum` write them.

ghost use Rattle.std.specs.Prelude.{◌≡◌, IfOk, None, map, option_map};
ghost use Rattle.szg_sums.specs.Names.{best, better, name_of};

use crate::paths::normal;
use crate::sum::Sum;
use std::alloc::{AllocError, Global};

/// A name in a list, with its digest.
#[derive(Drop)]
struct Listed {
    /// The name, without escapes.
    name: Vec<u8>,
    /// The name without detours.
    path: Vec<u8>,
    sum: Sum,
}

/// Lists of sums.
#[derive(Drop)]
pub struct Sums {
    listed: Vec<Listed>,
}

/// What is read from lines.
pub trait FromLines {
    /// Adds the lines of a text; returns the number, from 1 on, of the first one that is none of its lines, if there is one.
    fn add_lines(&mut self, alloc: Global, text: &[u8]) -> Result<Option<u64>, AllocError>;
}

impl Sums {
    ghost use Rattle.std.specs.Prelude.{◌≡◌, IfOk, []};
    ghost use Rattle.szg_sums.specs.Names.{names_of, sum_for};

    /// Creates an empty list.
    pub fn new(alloc: Global) -> Sums
        ensures { names_of result ≡ [] }
    {
        Sums {
            listed: Vec::new(alloc),
        }
    }

    /// Returns the digest for a path: that of the longest name that is the path, or its end after a slash, and of several
    /// the last. None if there is none.
    pub fn sum_for(&self, alloc: Global, path: &str) -> Result<Option<Sum>, AllocError>
        ensures { IfOk result (λ sum. sum ≡ sum_for (names_of self.now) path.now) }
    {
        let path = normal(alloc, path.as_bytes())?;
        match longest(&self.listed, &path) {
            Some(listed) => Ok(Some(listed.sum)),
            None => Ok(None),
        }
    }

    /// Returns the names that are for none of these normal paths.
    pub fn unused(&self, alloc: Global, paths: &[Vec<u8>]) -> Result<Vec<&[u8]>, AllocError> {
        let mut names = Vec::new(alloc);
        'names: for listed in self.listed.iter() {
            if !paths.iter().any(|path| path.ends_with(&listed.path)) {
                names.push(listed.name.as_slice())?;
            }
        }
        Ok(names)
    }
}

impl FromLines for Sums {
    /// Adds the lines of a list: each is a digest in hexadecimal digits, two spaces or a space and `*`, and a name; or an
    /// algorithm, a name in parentheses, `=` and the digest. If a line begins with a backslash, its name has escapes. Empty
    /// lines and those that begin with `#` are passed over.
    fn add_lines(&mut self, alloc: Global, text: &[u8]) -> Result<Option<u64>, AllocError> {
        let mut number = 0u64;
        'lines: for line in text.split(|byte| *byte == b'\n') {
            number = number.saturating_add(1);
            let line = line.strip_suffix(b"\r".as_slice()).unwrap_or(line);
            if line.is_empty() || line.starts_with(b"#".as_slice()) {
                continue;
            }
            match listed_in(alloc, line)? {
                Some(listed) => self.listed.push(listed)?,
                None => return Ok(Some(number)),
            }
        }
        Ok(None)
    }
}

/// Returns the better name for a normal path, of the one that was found and the next.
fn better<'a>(path: &[u8], found: Option<&'a Listed>, next: &'a Listed) -> Option<&'a Listed>
    ensures { option_map (λ one. name_of one.now) result ≡ better path.now (option_map (λ one. name_of one.now) found.entry) (name_of next.now) }
{
    if !path.ends_with(&next.path) {
        return found;
    }
    let Some(other) = found else {
        return Some(next);
    };
    if other.path.len() > next.path.len() {
        found
    } else {
        Some(next)
    }
}

/// Returns the longest name for a normal path, and of several the last.
fn longest<'a>(listed: &'a [Listed], path: &[u8]) -> Option<&'a Listed>
    ensures { option_map (λ one. name_of one.now) result ≡ best path.now None (map name_of listed.now) }
{
    let mut found: Option<&'a Listed> = None;
    'names: for one in listed {
        found = better(path, found, one);
    }
    found
}

/// Returns the name and the digest of a line. None if it isn't one.
fn listed_in(alloc: Global, line: &[u8]) -> Result<Option<Listed>, AllocError> {
    let (has_escapes, line) = match line.strip_prefix(b"\\".as_slice()) {
        Some(rest) => (true, rest),
        None => (false, line),
    };
    let Some((digits, text)) = plain_parts(line).or(tagged_parts(line)) else {
        return Ok(None);
    };
    let digest = match hex::decode(alloc, digits) {
        Ok(digest) => digest,
        Err(hex::FromHexError::OutOfMemory) => return Err(AllocError),
        Err(_) => return Ok(None),
    };
    let Some(sum) = Sum::of_bytes(&digest) else {
        return Ok(None);
    };
    let name = if has_escapes {
        unescaped(alloc, text)?
    } else {
        text.to_vec(alloc)?
    };
    let path = normal(alloc, &name)?;
    Ok(Some(Listed { name, path, sum }))
}

/// Returns the digits and the name of a line that begins with the digest.
fn plain_parts(line: &[u8]) -> Option<(&[u8], &[u8])> {
    let at = line.iter().position(|byte| *byte == b' ')?;
    let (digits, rest) = line.split_at(at);
    let plain = rest.strip_prefix(b"  ".as_slice());
    let name = plain.or(rest.strip_prefix(b" *".as_slice()))?;
    (!digits.is_empty() && !name.is_empty()).then_some((digits, name))
}

/// Returns the digits and the name of a line that begins with the algorithm.
fn tagged_parts(line: &[u8]) -> Option<(&[u8], &[u8])> {
    let tags = [
        b"MD5 (".as_slice(),
        b"SHA1 (".as_slice(),
        b"SHA256 (".as_slice(),
        b"SHA512 (".as_slice(),
    ];
    let rest = tags.iter().find_map(|tag| line.strip_prefix(*tag))?;
    (1..rest.len()).rev().find_map(|at| {
        let digits = rest.get(at..)?.strip_prefix(b") = ".as_slice())?;
        Some((digits, rest.get(..at)?))
    })
}

/// Returns a name without its escapes: `\n`, `\r`, and a backslash after another one.
fn unescaped(alloc: Global, text: &[u8]) -> Result<Vec<u8>, AllocError> {
    let mut name = Vec::new(alloc);
    let mut is_escaped = false;
    'bytes: for byte in text {
        if !is_escaped && *byte == b'\\' {
            is_escaped = true;
            continue;
        }
        name.push(match byte {
            b'n' if is_escaped => b'\n',
            b'r' if is_escaped => b'\r',
            _ => *byte,
        })?;
        is_escaped = false;
    }
    Ok(name)
}
