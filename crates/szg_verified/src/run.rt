//! A run of a verification: its words, its lines.

ghost use Rattle.std.specs.Prelude.{◌≡◌, IfOk, IsNone, IsSomeAnd, is_some};
ghost use Rattle.szg_verified.specs.Runs.{AreNamed, IsFolderRun, IsRun, IsShardRun, is_passed};

use crate::changes::add_once;
use crate::folder::{
    ShardVerification, Verification, VerifyStop, materials_in, verify_folder, verify_folder_shard,
};
use crate::log::shard_of;
use crate::verifying::write_line;
use std::alloc::{AllocError, Global};
use std::fs;
use std::io::{self, Read, Write};
use std::rt::Files;
use szg_files::{Disk, FileFault};
use szg_named::{fault_text, name_word};
use szg_results::{ResultStop, stop_text};
use szg_values::Material;
use szg_verify::Watcher;

/// What a verification is asked for.
#[derive(Clone, Copy)]
pub struct VerificationAsked<'a> {
    /// The folder of the tables.
    pub folder: &'a str,
    /// The names of materials; none: all that the folder has.
    pub names: &'a [&'a str],
    /// The path of a log: the output of earlier verifications.
    pub log: Option<&'a str>,
    /// The shard of the one material that is named, such as `2/5`.
    pub shard: Option<&'a str>,
}

/// What a run came to.
#[derive(Drop)]
pub enum Run {
    /// What was found of the materials.
    Folder(Verification),
    /// What was found of a shard.
    Shard(ShardVerification),
    /// It was not done.
    Refused,
}

impl Run {
    /// Returns whether all materials are verified or logged, or each position of the shard passes.
    pub fn is_passed(&self) -> bool
        ensures { result ≡ is_passed self.now }
    {
        match self {
            Run::Folder(found) => found.is_all,
            Run::Shard(found) => found.positions.is_ok(),
            Run::Refused => false,
        }
    }
}

/// Verifies the tables of the materials with these names in a folder, or of all that the folder has if there is none, and
/// of those that captures and promotions lead to, but for those that the log has; or one shard of a material. Writes a line
/// for each material and a summary, or the line of the shard, or why it was not done.
///
/// Errors: the output's; an allocation was refused.
pub fn run_verification<R: Files, W: Write, P: Watcher>(
    alloc: Global,
    files: &R,
    asked: VerificationAsked<'_>,
    output: &mut W,
    progress: &mut P,
) -> io::Result<Run>
    ensures { IfOk result (λ run. IsRun asked.entry run) }
{
    let found = match asked.shard {
        Some(shard) => shard_verified(alloc, files, asked, shard, output, progress),
        None => verified(alloc, files, asked, output, progress),
    };
    let stop = match found {
        Ok(run) => return Ok(run),
        Err(VerifyStop::Output(error)) => return Err(error),
        Err(VerifyStop::Read(ResultStop::Memory)) => return Err(AllocError.into()),
        Err(stop) => stop,
    };
    let text = text_of(alloc, asked, &stop)?;
    write_line(output, text.as_str())?;
    Ok(Run::Refused)
}

/// Verifies the tables of materials.
fn verified<R: Files, W: Write, P: Watcher>(
    alloc: Global,
    files: &R,
    asked: VerificationAsked<'_>,
    output: &mut W,
    progress: &mut P,
) -> Result<Run, VerifyStop>
    requires { IsNone asked.shard }
    ensures { IfOk result (λ run. IsRun asked.entry run) }
{
    let materials = materials_asked(alloc, files, asked)?;
    let log = log_asked(alloc, files, asked)?;
    let log = text_in(&log);
    let mut disk = Disk::new(alloc, files);
    let folder = asked.folder;
    let found = verify_folder(alloc, &mut disk, folder, materials, log, output, progress)?;
    Ok(Run::Folder(found))
}

/// Checks a shard.
fn shard_verified<R: Files, W: Write, P: Watcher>(
    alloc: Global,
    files: &R,
    asked: VerificationAsked<'_>,
    shard: &str,
    output: &mut W,
    progress: &mut P,
) -> Result<Run, VerifyStop>
    requires { IsSomeAnd asked.shard (λ text. text.now ≡ shard.now) }
    ensures { IfOk result (λ run. IsRun asked.entry run) }
{
    let (Some(shard), [name], None) = (shard_of(shard), asked.names, asked.log) else {
        return Err(VerifyStop::Shard);
    };
    let material = match Material::parse(name) {
        Ok(material) => material,
        Err(fault) => return Err(VerifyStop::Name(fault)),
    };
    let mut disk = Disk::new(alloc, files);
    let folder = asked.folder;
    let found = verify_folder_shard(alloc, &mut disk, folder, &material, shard, output, progress)?;
    Ok(Run::Shard(found))
}

/// Returns the materials that are named, or those that the folder has if none is.
///
/// Errors: a name is no material's; the folder can't be read; an allocation was refused.
fn materials_asked<R: Files>(
    alloc: Global,
    files: &R,
    asked: VerificationAsked<'_>,
) -> Result<Vec<Material>, VerifyStop>
    ensures { IfOk result (λ materials. AreNamed asked.entry.names.now materials.items) }
{
    if asked.names.is_empty() {
        return Ok(materials_in(alloc, files, asked.folder)?);
    }
    materials_of(alloc, asked.names)
}

/// Returns the bytes of the log, if there is to be one.
fn log_asked<R: Files>(
    alloc: Global,
    files: &R,
    asked: VerificationAsked<'_>,
) -> Result<Option<Vec<u8>>, VerifyStop>
    ensures { IfOk result (λ log. is_some log ≡ is_some asked.entry.log) }
{
    match asked.log {
        Some(path) => Ok(Some(log_at(alloc, files, path)?)),
        None => Ok(None),
    }
}

/// Returns the text of a log; an empty one if its bytes are no text.
fn text_in(log: &Option<Vec<u8>>) -> Option<&str>
    ensures { is_some result ≡ is_some log.now }
{
    match log {
        Some(bytes) => Some(str::from_utf8(bytes).unwrap_or("")),
        None => None,
    }
}

/// Returns the bytes of a log.
fn log_at<R: Files>(alloc: Global, files: &R, path: &str) -> Result<Vec<u8>, VerifyStop> {
    match bytes_at(alloc, files, path) {
        Ok(bytes) => Ok(bytes),
        Err(FileFault::Memory) => Err(VerifyStop::Read(ResultStop::Memory)),
        Err(fault) => Err(VerifyStop::Log(fault)),
    }
}

/// Returns the bytes of the file at a path.
fn bytes_at<R: Files>(alloc: Global, files: &R, path: &str) -> Result<Vec<u8>, FileFault> {
    let mut bytes = Vec::new(alloc);
    fs::open(files, path)?.read_to_end(&mut bytes)?;
    Ok(bytes)
}

/// Returns the materials with these names, each once.
///
/// Errors: the first name that is no material's; an allocation was refused.
fn materials_of(alloc: Global, names: &[&str]) -> Result<Vec<Material>, VerifyStop>
    ensures { IfOk result (λ materials. AreNamed names.now materials.items) }
{
    let mut materials = Vec::new(alloc);
    'names: for name in names {
        let material = match Material::parse(name) {
            Ok(material) => material,
            Err(fault) => return Err(VerifyStop::Name(fault)),
        };
        if add_once(&mut materials, material).is_err() {
            return Err(VerifyStop::Read(ResultStop::Memory));
        }
    }
    Ok(materials)
}

/// Returns why a folder was not verified, as a line.
fn text_of(
    alloc: Global,
    asked: VerificationAsked<'_>,
    stop: &VerifyStop,
) -> Result<String, AllocError> {
    match stop {
        VerifyStop::Name(fault) => {
            let word = name_word(*fault);
            format!(in alloc; "refused name: {word}\n")
        }
        VerifyStop::Shard => String::from_str(alloc, "refused shard\n"),
        VerifyStop::Log(fault) => unread_line(alloc, asked.log.unwrap_or(""), fault),
        VerifyStop::Read(ResultStop::Failed(fault)) => unread_line(alloc, asked.folder, fault),
        VerifyStop::Read(stop) => {
            let text = stop_text(alloc, stop)?;
            format!(in alloc; "{text}\n")
        }
        VerifyStop::Output(error) => format!(in alloc; "{error}\n"),
    }
}

/// Returns the line of a path that can't be read.
fn unread_line(alloc: Global, path: &str, fault: &FileFault) -> Result<String, AllocError> {
    let reason = fault_text(alloc, fault)?;
    format!(in alloc; "{path}: {reason}\n")
}
