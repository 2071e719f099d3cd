//! Tests of files and of placements, through public items alone: examples of the format, texts, refused memory, and
//! sources that fail. What a contract says is not tested again.
//!
//! Tests of the layers below are in `szg_block_tests`, those of the builder in `szg_build_tests`, those of chess, probing and
//! verification in `szg_probe_tests`, those of the program's commands in `szg_program_tests`: the five crates are proved side
//! by side.
#![tactic(auto)]

#[cfg(test)]
mod costs;
#[cfg(test)]
mod file;
#[cfg(test)]
mod files;
#[cfg(test)]
mod place;
#[cfg(test)]
mod readme;
#[cfg(test)]
mod standing;
#[cfg(test)]
mod texts;
