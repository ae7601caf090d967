//! What `load` feeds and prints: the lines of a made session of `space`, one by one, and its summary.
#![tactic(auto)]

pub mod line;
pub mod load_law;
pub mod session;
