//! Digests of bytes that come in chunks.
ghost use Rattle.std.specs.Prelude.{◌≡◌, ◌++◌, [], List, ℕ};
ghost use Rattle.std.specs.Str.{bytes_eq};
ghost use Rattle.md5.specs.Md5.{md5};
ghost use Rattle.md5.specs.Md5 as of_md5;
ghost use Rattle.sha1.specs.Sha1.{sha1};
ghost use Rattle.sha1.specs.Sha1 as of_sha1;
ghost use Rattle.sha2.specs.Sha256.{sha256};
ghost use Rattle.sha2.specs.Sha512.{sha512};
ghost use Rattle.sha2.specs.Hashers.{Holds256, Holds512};

use md5::{Digest as Md5Digest, Md5};
use sha1::Sha1;
use sha2::{Digest, Sha256, Sha512};

/// The state of a digest. Its type is the algorithm.
pub trait Hasher: Drop {
    /// The hasher has taken this message.
    ghost has_taken: { Self → List ℕ → Type 0 };

    /// The digest of a message.
    ghost sum_of: { List ℕ → List ℕ };

    /// Creates a hasher that has taken no bytes.
    fn empty() -> Self
        ensures { has_taken result [] };

    /// Takes the next bytes.
    fn feed(&mut self, bytes: &[u8])
        ensures { (m : List ℕ) → has_taken self.old m → has_taken self.new (m ++ bytes.now) };

    /// Returns whether the bytes that were taken have the digest `due`.
    fn is_met(self, due: &[u8]) -> bool
        ensures { (m : List ℕ) → has_taken self m → result ≡ bytes_eq (sum_of m) due.now };
}

impl Hasher for Md5 {
    ghost has_taken = { λ state m. of_md5.Holds state m };

    ghost sum_of = { λ m. md5 m };

    fn empty() -> Md5 {
        Md5::new()
    }

    fn feed(&mut self, bytes: &[u8]) {
        self.update(bytes);
    }

    fn is_met(self, due: &[u8]) -> bool {
        self.finalize().as_slice() == due
    }
}

impl Hasher for Sha1 {
    ghost has_taken = { λ state m. of_sha1.Holds state m };

    ghost sum_of = { λ m. sha1 m };

    fn empty() -> Sha1 {
        Sha1::new()
    }

    fn feed(&mut self, bytes: &[u8]) {
        self.update(bytes);
    }

    fn is_met(self, due: &[u8]) -> bool {
        self.finalize().as_slice() == due
    }
}

impl Hasher for Sha256 {
    ghost has_taken = { λ state m. Holds256 state m };

    ghost sum_of = { λ m. sha256 m };

    fn empty() -> Sha256 {
        Sha256::new()
    }

    fn feed(&mut self, bytes: &[u8]) {
        self.update(bytes);
    }

    fn is_met(self, due: &[u8]) -> bool {
        self.finalize().as_slice() == due
    }
}

impl Hasher for Sha512 {
    ghost has_taken = { λ state m. Holds512 state m };

    ghost sum_of = { λ m. sha512 m };

    fn empty() -> Sha512 {
        Sha512::new()
    }

    fn feed(&mut self, bytes: &[u8]) {
        self.update(bytes);
    }

    fn is_met(self, due: &[u8]) -> bool {
        self.finalize().as_slice() == due
    }
}
