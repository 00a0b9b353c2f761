//! Tests of activities, by the public calls of `fit_activity`. They are in a crate above it, so that no library is proved again with
//! its tests.
#![tactic(auto)]

#[cfg(test)]
mod activity;
#[cfg(test)]
mod equality;
