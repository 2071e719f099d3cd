//! The check of one file.
ghost use Rattle.std.specs.Prelude.{◌≡◌, ◌⊎◌, ◌^◌, ◌≤◌, ◌++◌, ℕ, List, length, IfOk, OnErr, OnOk, [], if◌then◌else◌};
ghost use Rattle.std.specs.Io.KnownBytes.{IsAtEnd};
ghost use Rattle.szg_io.specs.Device.{HasFailed};
ghost use Rattle.std.specs.Str.{bytes_eq};
ghost use Rattle.szg_archive.specs.Verdicts.{IsDigestedOn, IsDueVerdictOn, IsFileVerdict, IsFoundOn, IsHashedVerdictOn, IsVerdictOn, is_table};

use crate::due::Due;
use crate::file_verdict::FileVerdict;
use crate::hashed::Hashed;
use std::alloc::{AllocError, Global};
use szg_file::{NoSink, ReadFault, scan};
use szg_files::{FileFault, FileSystem, Reasons};
use szg_io::{Input, IoFault, take_whole};
use szg_named::{Naming, named_as};
use szg_sums::{Hasher, Md5, Sha1, Sha256, Sha512, Sum};
use szg_values::{Kind, Material};

/// Checks an opened file: it must be a table, and nothing else.
fn check_opened<F: Input + Reasons>(
    alloc: Global,
    material: &Material,
    kind: Kind,
    file: &mut F,
) -> Result<FileVerdict, AllocError>
    requires { F.moved file.old ≡ [] }
    ensures { IfOk result (λ verdict. IsVerdictOn F.Input material.now kind file.old file.new verdict) }
{
    let size = match scan(alloc, material.copy(), kind, file, &mut NoSink, &mut ()) {
        Ok(scanned) => scanned.length,
        Err(ReadFault::Refused { place, reason }) => return Ok(FileVerdict::At(place, reason)),
        Err(ReadFault::Device) => return Ok(FileVerdict::Unread(file.reason())),
        Err(ReadFault::Memory) => return Err(AllocError),
    };
    let mut next = [0; 1];
    match take_whole(file, &mut next) {
        Ok(0) => Ok(FileVerdict::Whole(size)),
        Ok(_) => Ok(FileVerdict::Trailing(size)),
        Err(_) => Ok(FileVerdict::Unread(file.reason())),
    }
}

/// Whether a file begins with a table.
fn is_table(verdict: &FileVerdict) -> bool
    ensures { result ≡ is_table verdict.now }
{
    matches!(verdict, FileVerdict::Whole(_) | FileVerdict::Trailing(_))
}

/// Reads an input on to its end.
fn read_on<F: Input>(input: &mut F) -> Result<(), IoFault>
    ensures end { OnOk result (IsAtEnd (F.coming input.new)) }
    ensures rest { (rest : List ℕ) × (F.moved input.new ≡ F.moved input.old ++ rest) }
    ensures failed { OnErr result (HasFailed (F.failures input.old) (F.failures input.new) (F.interrupted input.new) ⊎ (2 ^ 64 ≤ length (F.moved input.new))) }
{
    let mut chunk = [0; 4096];
    let mut left = u64::MAX;
    'chunks: while left > 0 {
        if take_whole(input, &mut chunk)? < chunk.len() {
            return Ok(());
        }
        left -= 1;
    }
    Err(IoFault::Failed)
}

/// An input that was read for a check, and the verdict on it.
#[derive(Drop)]
struct Checked<F> {
    input: F,
    verdict: FileVerdict,
}

/// The verdict on a file, and, where they are asked for and it is a table, the SHA-256 digest of its bytes.
#[derive(Clone, Copy)]
pub struct CheckedFile {
    pub verdict: FileVerdict,
    pub digest: Option<[u8; 32]>,
}

impl CheckedFile {
    ghost use Rattle.std.specs.Prelude.{◌≡◌, None};
    ghost use Rattle.szg_archive.specs.Verdicts.{found_as};

    /// Returns a verdict without a digest.
    pub(crate) fn undigested(verdict: FileVerdict) -> CheckedFile
        ensures { result ≡ found_as verdict None }
    {
        CheckedFile {
            verdict,
            digest: None,
        }
    }
}

/// Checks an opened file, and compares `due` with the digest of the same bytes, and of those that follow a table.
#[tactic(auto, using(crate::proofs::Hashing::no_table))]
fn check_hashed<F: Input + Reasons + Drop, H: Hasher>(
    alloc: Global,
    material: &Material,
    kind: Kind,
    file: F,
    due: &[u8],
) -> Result<Checked<F>, AllocError>
    requires { F.moved file ≡ [] }
    ensures { IfOk result (λ checked. IsHashedVerdictOn F.Input (λ m. bytes_eq (H.sum_of m) due.now) material.now kind file checked.input checked.verdict) }
{
    let mut hashed: Hashed<F, H> = Hashed::new(file);
    let found = check_opened(alloc, material, kind, &mut hashed)?;
    if !is_table(&found) {
        return Ok(Checked {
            input: hashed.into_input(),
            verdict: found,
        });
    }
    if read_on(&mut hashed).is_err() {
        let verdict = FileVerdict::Unread(hashed.reason());
        return Ok(Checked {
            input: hashed.into_input(),
            verdict,
        });
    }
    let (input, is_met) = hashed.compared(due);
    let verdict = if is_met { found } else { FileVerdict::Differs };
    Ok(Checked { input, verdict })
}

/// Checks an opened file, and what its digest has to be.
fn check_due<F: Input + Reasons + Drop>(
    alloc: Global,
    material: &Material,
    kind: Kind,
    mut file: F,
    due: Due,
) -> Result<Checked<F>, AllocError>
    requires { F.moved file ≡ [] }
    ensures { IfOk result (λ checked. IsDueVerdictOn F.Input due material.now kind file checked.input checked.verdict) }
{
    match due {
        Due::Any => {
            let verdict = check_opened(alloc, material, kind, &mut file)?;
            Ok(Checked {
                input: file,
                verdict,
            })
        }
        Due::Unlisted => {
            let found = check_opened(alloc, material, kind, &mut file)?;
            let verdict = if is_table(&found) {
                FileVerdict::Unlisted
            } else {
                found
            };
            Ok(Checked {
                input: file,
                verdict,
            })
        }
        Due::Sum(Sum::Md5(due)) => check_hashed::<F, Md5>(alloc, material, kind, file, &due),
        Due::Sum(Sum::Sha1(due)) => check_hashed::<F, Sha1>(alloc, material, kind, file, &due),
        Due::Sum(Sum::Sha256(due)) => check_hashed::<F, Sha256>(alloc, material, kind, file, &due),
        Due::Sum(Sum::Sha512(due)) => check_hashed::<F, Sha512>(alloc, material, kind, file, &due),
    }
}

/// Checks an opened file, and what its digest has to be; of a table it computes the SHA-256 digest of the bytes that were
/// checked, and of those that follow it.
fn check_digested<F: Input + Reasons + Drop>(
    alloc: Global,
    material: &Material,
    kind: Kind,
    file: F,
    due: Due,
) -> Result<CheckedFile, AllocError>
    requires { F.moved file ≡ [] }
    ensures { IfOk result (λ found. (read : F) × IsDigestedOn F.Input due material.now kind file read found) }
{
    let fresh: Hashed<F, Sha256> = Hashed::new(file);
    let Checked {
        input: mut hashed,
        verdict,
    } = check_due(alloc, material, kind, fresh, due)?;
    if !is_table(&verdict) {
        return Ok(CheckedFile::undigested(verdict));
    }
    if read_on(&mut hashed).is_err() {
        return Ok(CheckedFile::undigested(FileVerdict::Unread(hashed.reason())));
    }
    Ok(CheckedFile {
        verdict,
        digest: Some(hashed.digest()),
    })
}

/// Checks an opened file, what its digest has to be, and computes its SHA-256 digest if that is asked for.
#[tactic(auto, using(crate::proofs::Hashing::found_digested))]
fn check_file<F: Input + Reasons + Drop>(
    alloc: Global,
    material: &Material,
    kind: Kind,
    file: F,
    due: Due,
    has_digest: bool,
) -> Result<CheckedFile, AllocError>
    requires { F.moved file ≡ [] }
    ensures { IfOk result (λ found. (read : F) × IsFoundOn has_digest F.Input due material.now kind file read found) }
{
    if has_digest {
        return check_digested(alloc, material, kind, file, due);
    }
    let Checked { verdict, .. } = check_due(alloc, material, kind, file, due)?;
    Ok(CheckedFile::undigested(verdict))
}

/// Checks the file at a path, as a table of the name and kind that are given or in the path, and its digest; computes that by
/// SHA-256 if it is asked for.
pub fn check_path<S: FileSystem>(
    alloc: Global,
    system: &mut S,
    naming: Naming<'_>,
    path: &str,
    due: Due,
    has_digest: bool,
) -> Result<CheckedFile, AllocError>
    ensures { IfOk result (λ found. IsFileVerdict S.content S.failures S.File.Input naming.entry due has_digest path.now system.old system.new found) }
{
    let Some((name, kind)) = named_as(naming, path) else {
        return Ok(CheckedFile::undigested(FileVerdict::Ending));
    };
    let material = match Material::parse(name) {
        Ok(material) => material,
        Err(fault) => return Ok(CheckedFile::undigested(FileVerdict::Name(fault))),
    };
    match system.open(path) {
        Ok(file) => check_file(alloc, &material, kind, file, due, has_digest),
        Err(FileFault::Memory) => Err(AllocError),
        Err(fault) => Ok(CheckedFile::undigested(FileVerdict::Unopened(fault))),
    }
}
