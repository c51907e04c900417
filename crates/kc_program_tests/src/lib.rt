//! Tests of `kc_top` and `kc_claims`.
//!
//! Whole runs, as bytes of both sinks. What a sweep over a stream of edges tells of claims, which streams and claims it does not judge, and
//! which line of a stream that has to ascend is the first that is wrong, also where it comes in pieces.
//!
//! The crate has no code but its tests. They stand apart from those crates, whose own functions would be proved once more beside them.
#![tactic(auto)]

#[cfg(test)]
mod ascending;
#[cfg(test)]
mod checks;
#[cfg(test)]
mod faults;
#[cfg(test)]
mod gates;
#[cfg(test)]
mod generated;
#[cfg(test)]
mod leaving;
#[cfg(test)]
mod limits;
#[cfg(test)]
mod outputs;
#[cfg(test)]
mod pieces;
#[cfg(test)]
mod refusals;
#[cfg(test)]
mod streams;
#[cfg(test)]
mod triangle;
#[cfg(test)]
mod words;
