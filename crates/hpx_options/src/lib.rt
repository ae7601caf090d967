//! The words of the command line.
#![tactic(auto)]

mod line;
mod meaning;
mod number;
pub mod options;
pub mod settings;
mod table;
pub mod texts;
