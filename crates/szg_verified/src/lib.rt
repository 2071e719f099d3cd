//! The verification of the tables in a folder: each position against its own moves, material by material.
#![tactic(auto)]

mod changes;
mod digests;
mod folder;
pub mod laws;
mod lines;
mod log;
mod run;
mod verifying;

pub use folder::{ShardVerification, Verification, VerifyStop, verify_folder, verify_folder_shard};
pub use run::{Run, VerificationAsked, run_verification};
pub use verifying::{Cause, Unverified};
