//! The applications that compute, by what a person reads.
#![tactic(auto)]

#[cfg(test)]
mod rows;
