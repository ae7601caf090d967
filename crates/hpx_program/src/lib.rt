//! The program as a function of what surrounds it: its words, its input, its two outputs, and a fabric.
#![tactic(auto)]

pub mod program;
pub mod start;
