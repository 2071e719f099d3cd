//! What the digest of a file has to be.
ghost use Rattle.std.specs.Prelude.{◌≡◌, IfOk};
ghost use Rattle.szg_archive.specs.Verdicts.{due_in};

use std::alloc::{AllocError, Global};
use szg_sums::{Sum, Sums};

/// What the digest of a file has to be.
#[derive(Clone, Copy)]
pub enum Due {
    /// Anything: no lists of sums are given.
    Any,
    /// Nothing: the lists don't name the file.
    Unlisted,
    /// This digest.
    Sum(Sum),
}

/// Returns what the digest of the file at a path has to be, by lists of sums if there are any.
pub fn due_of(alloc: Global, sums: Option<&Sums>, path: &str) -> Result<Due, AllocError>
    ensures { IfOk result (λ due. due ≡ due_in sums.entry path.now) }
{
    let Some(sums) = sums else {
        return Ok(Due::Any);
    };
    match sums.sum_for(alloc, path)? {
        Some(sum) => Ok(Due::Sum(sum)),
        None => Ok(Due::Unlisted),
    }
}
