//! Files by path.
ghost use Rattle.std.specs.Prelude.{◌≡◌, ◌+◌, ◌<◌, ◌⊎◌, ℕ, List, None, Option, Some, [], IfErr, IfOk, IfSome, IsErrOf, OnOk, OnErr, drop, length, take};
ghost use Rattle.szg_io.specs.Device.{raised};

use std::io::{Error, ErrorKind};
use szg_io::Input;

/// Why a file is not opened, read or written.
#[derive(Clone, Copy)]
pub enum FileFault {
    /// It is a directory, a pipe or a device: only regular files are opened.
    NotRegular,
    /// What was to be written isn't the table that its name says.
    OtherTable,
    /// It ends before the bytes that are to be read do, or it has another length than it is to have.
    Ended,
    /// The system's reason.
    System(Error),
    /// An allocation was refused.
    Memory,
}

impl FileFault {
    ghost use Rattle.std.specs.Prelude.{◌≡◌};
    ghost use Rattle.std.specs.declared.io.Error.{Error};

    /// Returns why a device failed, by its reason if it has one.
    pub fn of(reason: Option<Error>) -> FileFault
        ensures { (error : Error) × (result ≡ FileFault.System error) }
    {
        FileFault::System(reason.unwrap_or(ErrorKind::Other.into()))
    }
}

/// A device that may return the reason of its last failure.
pub trait Reasons {
    /// Returns the system's error of the last failure. None if there is none.
    fn reason(&self) -> Option<Error>;
}

/// Opens files by their paths.
pub trait FileSystem {
    /// An opened file.
    type File: Input + Reasons + Drop;

    /// the bytes of the file at a path, if the system specifies them
    ghost content: { Self → List ℕ → Option (List ℕ) };

    /// the number of paths that `open` could not open so far
    ghost failures: { Self → ℕ };

    /// Opens the regular file at a path, at its first byte. Errors: `FileFault`, only if the system failed, and doesn't
    /// specify the file's bytes.
    fn open(&mut self, path: &str) -> Result<Self::File, FileFault>
        ensures unread { IfOk result (λ file. Self.File.moved file ≡ []) }
        ensures coming { IfOk result (λ file. IfSome (content self.old path.now) (λ bytes. Self.File.coming file ≡ Some bytes)) }
        ensures content { content self.new ≡ content self.old }
        ensures quiet { OnOk result (failures self.new ≡ failures self.old) }
        ensures failed { OnErr result (failures self.new ≡ raised (failures self.old)) }
        ensures absent { OnErr result (content self.old path.now ≡ None) };

    /// Returns the number of bytes of an opened file. Errors: the system's reason, only if the bytes are not known.
    fn len(&self, file: &Self::File) -> Result<u64, FileFault>
        requires unread { Self.File.moved file.now ≡ [] }
        ensures size { IfSome (Self.File.coming file.now) (λ bytes. IfOk result (λ count. count ≡ length bytes)) }
        ensures failed { IfErr result (λ fault. Self.File.coming file.now ≡ None) };

    /// Skips the next `count` bytes of an opened file without reading them. Returns a device that has moved no byte,
    /// at the byte after them. Errors: the system's reason, only if the bytes are not known.
    fn skip(&self, file: Self::File, count: u64) -> Result<Self::File, FileFault>
        ensures unread { IfOk result (λ rest. Self.File.moved rest ≡ []) }
        ensures coming { IfOk result (λ rest. IfSome (Self.File.coming file) (λ bytes. Self.File.coming rest ≡ Some (drop count bytes))) }
        ensures failed { IfErr result (λ fault. Self.File.coming file ≡ None) };

    /// Reads the bytes from offset `at` on of the file at a path, which is to have `len` bytes, into the whole of `out`. The
    /// file may stay open for the next call.
    ///
    /// Errors: `Ended` if its length is another one, or if it ends before the range does; else the system's reason,
    /// only if the bytes are not known.
    fn read_at(&mut self, path: &str, len: u64, at: u64, out: &mut [u8]) -> Result<(), FileFault>
        ensures range { OnOk result (IfSome (content self.old path.now) (λ known. out.new ≡ take (length out.old) (drop at known))) }
        ensures size { OnOk result (IfSome (content self.old path.now) (λ known. length known ≡ len)) }
        ensures content { content self.new ≡ content self.old }
        ensures quiet { failures self.new ≡ failures self.old }
        ensures ended { IsErrOf result FileFault.Ended → IfSome (content self.old path.now) (λ known. (length known ≡ len → length known < at + length out.old)) }
        ensures failed { IfErr result (λ fault. fault ≡ FileFault.Ended ⊎ content self.old path.now ≡ None) };
}
