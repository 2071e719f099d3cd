//! Lists of sums, and digests of bytes that come in chunks.
#![tactic(auto)]

mod hasher;
mod lists;
mod paths;
mod sum;

pub use hasher::Hasher;
pub use lists::{FromLines, Sums};
pub use md5::Md5;
pub use paths::normal;
pub use sha1::Sha1;
pub use sha2::{Sha256, Sha512};
pub use sum::Sum;
