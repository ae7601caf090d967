//! Accumulators and partitions: objects that keep numbers.
//!
//! How the values of their states are laid out stands in `hpx_calls::content`. In short: an accumulator keeps an Int, and
//! a partition a list of Ints.
#![tactic(auto)]

pub mod act;
mod number;
mod row;
