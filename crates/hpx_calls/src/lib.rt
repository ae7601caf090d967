//! Calls on objects: what an action asks, what an object holds, and what a call does to it.
#![tactic(auto)]

pub mod answer;
pub mod codes;
pub mod content;
pub mod effect;
pub mod laws;
pub mod read;
pub mod request;
