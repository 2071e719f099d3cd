//! Tests of positions, probing, verification and results, through the public items of their crates alone.
#![tactic(auto)]

#[cfg(test)]
mod chess;
#[cfg(test)]
mod helpers;
#[cfg(test)]
mod mapped;
#[cfg(test)]
mod probe;
#[cfg(test)]
mod results;
#[cfg(test)]
mod verified;
#[cfg(test)]
mod verify;
