//! For tests: one locality with its journal, or two of them, step by step. The session stands at the first; the number, at the second.
#![tactic(auto)]

pub mod pair;
pub mod site;
