//! Tests of blocks and of what they are made of, of men, counts and devices, through public items alone: examples of the
//! format, refused memory, and devices that are interrupted or fail. What a contract says is not tested again.
#![tactic(auto)]

#[cfg(test)]
mod block;
#[cfg(test)]
mod code;
#[cfg(test)]
mod count;
#[cfg(test)]
mod helpers;
#[cfg(test)]
mod io;
#[cfg(test)]
mod pairs;
#[cfg(test)]
mod values;
