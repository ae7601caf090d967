//! Where objects were last said to be: a list of bounded length, the latest first.
#![tactic(auto)]

pub mod cache;
