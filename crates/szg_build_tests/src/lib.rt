//! Tests of the builder and of dumps, through the public items of `szg_build` alone: examples of the format, texts, refused
//! memory, and the calls of devices. What a contract says is not tested again.
#![tactic(auto)]

#[cfg(test)]
mod building;
#[cfg(test)]
mod dumps;
#[cfg(test)]
mod files;
#[cfg(test)]
mod texts;
