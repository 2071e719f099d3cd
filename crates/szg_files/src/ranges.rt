//! Ranges of a file's bytes.
ghost use Rattle.std.specs.Prelude.{◌≡◌, ◌+◌, ◌<◌, ◌⊎◌, IfErr, IfSome, IsErrOf, OnOk, length};
ghost use Rattle.szg_files.specs.Ranges.{HasFailedIn, IsRangeOf};

use crate::file_system::{FileFault, FileSystem, Reasons};
use szg_io::take_whole;

/// Skips `skipped` bytes of an opened file, and reads the bytes after them into the whole of `bytes`.
///
/// Errors: `Ended` if the file has fewer bytes, else the system's reason.
pub fn read_range<S: FileSystem>(
    system: &S,
    file: S::File,
    skipped: u64,
    bytes: &mut [u8],
) -> Result<(), FileFault>
    ensures range { OnOk result (IsRangeOf S.File.Input file skipped bytes.new) }
    ensures ended { IsErrOf result FileFault.Ended → IfSome (S.File.coming file) (λ coming. length coming < skipped + length bytes.old) }
    ensures failed { IfErr result (λ fault. fault ≡ FileFault.Ended ⊎ HasFailedIn S.File.Input file) }
{
    let mut rest = system.skip(file, skipped)?;
    match take_whole(&mut rest, bytes) {
        Ok(read) if read == bytes.len() => Ok(()),
        Ok(_) => Err(FileFault::Ended),
        Err(_) => Err(FileFault::of(rest.reason())),
    }
}
