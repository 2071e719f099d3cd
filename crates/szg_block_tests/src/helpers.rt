//! Helpers for tests: calls that must succeed.

use std::fmt::Debug;
use std::process::Abort;

/// The value of a call that must succeed.
pub fn made<T, E: Debug>(rt: &impl Abort, answer: Result<T, E>) -> T {
    match answer {
        Ok(made) => made,
        Err(fault) => panic!(rt; "{fault:?}"),
    }
}
