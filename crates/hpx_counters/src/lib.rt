//! The names of counters, and what they count.
#![tactic(auto)]

pub mod counter;
pub mod counters;
