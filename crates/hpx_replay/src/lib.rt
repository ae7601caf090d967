//! Journals, judged: `replay` is the plain program of the definitions.
#![tactic(auto)]

mod act_rows;
mod changes;
mod credit_rows;
mod entries;
mod frame_rows;
mod object_rows;
pub mod replay;
pub mod space;
mod tokens;
