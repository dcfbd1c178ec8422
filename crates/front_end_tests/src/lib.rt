//! Tests of the crates that read, copy and generate, and of numbers: of what no clause of a
//! contract says.
//!
//! They are here, over the finished crates, since a crate with tests of its own is proved twice. A
//! module names the part that it tests.
#![tactic(auto)]

#[cfg(test)]
mod conditions;
#[cfg(test)]
mod copying;
#[cfg(test)]
mod errors;
#[cfg(test)]
mod lines;
#[cfg(test)]
mod masks;
#[cfg(test)]
mod nested;
#[cfg(test)]
mod numbers;
#[cfg(test)]
mod orders;
#[cfg(test)]
mod pictures;
#[cfg(test)]
mod stored;
#[cfg(test)]
mod streams;
#[cfg(test)]
mod texts;
#[cfg(test)]
mod tokens;
#[cfg(test)]
mod words;
