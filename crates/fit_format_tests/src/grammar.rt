// The grammar: values from outside, sizes, and failures of memory and of writers.

mod decoding;
mod developer;
mod files;
mod fronts;
mod items;
pub mod pieces;
mod places;
mod plain;
mod sizes;
