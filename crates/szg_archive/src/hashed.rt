//! An input whose bytes are hashed while they are read.

use sha2::Digest;
use std::io::Error;
use szg_files::Reasons;
use szg_io::{Input, IoFault};
use szg_sums::{Hasher, Sha256};

/// An input, and the state of the digest of the bytes that were read from it.
#[derive(Drop)]
pub(crate) struct Hashed<F: Input, H: Hasher> {
    input: F,
    hasher: H,
    ghost fed: { ∥ H.has_taken hasher (F.moved input) ∥₁ },
}

impl<F: Input, H: Hasher> Hashed<F, H> {
    ghost use Rattle.std.specs.Prelude.{◌≡◌, []};
    ghost use Rattle.std.specs.Str.{bytes_eq};
    ghost use Rattle.szg_archive.specs.Hashing.{input_of};

    /// Wraps an input that nothing was read from.
    pub(crate) fn new(input: F) -> Hashed<F, H>
        requires { F.moved input ≡ [] }
        ensures { input_of result ≡ input }
    {
        Hashed {
            input,
            hasher: H::empty(),
        }
    }

    /// Returns the input.
    pub(crate) fn into_input(self) -> F
        ensures { result ≡ input_of self }
    {
        self.input
    }

    /// Returns the input, and whether the bytes that were read have the digest `due`.
    pub(crate) fn compared(self, due: &[u8]) -> (F, bool)
        ensures input { result.0 ≡ input_of self }
        ensures met { result.1 ≡ bytes_eq (H.sum_of (F.moved (input_of self))) due.now }
    {
        let is_met = self.hasher.is_met(due);
        (self.input, is_met)
    }
}

impl<F: Input + Drop> Hashed<F, Sha256> {
    ghost use Rattle.std.specs.Prelude.{◌≡◌};
    ghost use Rattle.sha2.specs.Sha256.{sha256};
    ghost use Rattle.szg_archive.specs.Hashing.{input_of};

    /// Returns the digest of the bytes that were read.
    pub(crate) fn digest(self) -> [u8; 32]
        ensures { result ≡ sha256 (F.moved (input_of self)) }
    {
        self.hasher.finalize()
    }
}

impl<F: Input, H: Hasher> Input for Hashed<F, H> {
    ghost coming = { λ hashed. F.coming hashed.input };

    ghost calls = { λ hashed. F.calls hashed.input };

    ghost moved = { λ hashed. F.moved hashed.input };

    ghost failures = { λ hashed. F.failures hashed.input };

    ghost interrupted = { λ hashed. F.interrupted hashed.input };

    ghost may_fail = { λ hashed. F.may_fail hashed.input };

    fn take(&mut self, chunk: &mut [u8]) -> Result<usize, IoFault> {
        let answer = self.input.take(chunk);
        if let Ok(count) = answer {
            self.hasher.feed(&chunk[..count]);
        }
        answer
    }

    fn expect(&mut self, bytes: u64) {
        self.input.expect(bytes);
    }
}

impl<F: Input + Reasons, H: Hasher> Reasons for Hashed<F, H> {
    fn reason(&self) -> Option<Error> {
        self.input.reason()
    }
}
