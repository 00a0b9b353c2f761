//! Tests of the recorder, by the public calls of `fit_recorder`. They are in a crate above it, so that no library is proved again with
//! its tests.
#![tactic(auto)]

#[cfg(test)]
mod equality;
#[cfg(test)]
mod recorder;
