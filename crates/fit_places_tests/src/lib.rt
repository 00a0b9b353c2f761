//! Tests of the replacing of a file, by the public calls of `fit_places` over the place in memory. They are in a crate above it, so that it
//! is not proved again with them.
#![tactic(auto)]

#[cfg(test)]
mod cuts;
#[cfg(test)]
mod faults;
#[cfg(test)]
mod memory;
#[cfg(test)]
mod named;
#[cfg(test)]
mod refusals;
#[cfg(test)]
mod ride;
