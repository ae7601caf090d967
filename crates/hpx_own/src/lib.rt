//! The lines of a console that the top call handles itself, and what it prints for them.
#![tactic(auto)]

pub mod lines;
pub mod texts;
