//! Promises, dataflows, channels, latches and barriers: objects that order the work.
//!
//! How the values of their states are laid out stands in `hpx_calls::content`. In short: a promise keeps its value, or
//! none; a dataflow its code and the number of its inputs, and then for each value that came the number of its input
//! and the value; one that has started its code, the number of its inputs and Unit; a channel a Flag, whether it is
//! closed, and then its values, the oldest first; a latch how many DOWNs are left; a barrier how many are to arrive.
#![tactic(auto)]

pub mod act;
mod channel;
mod dataflow;
pub mod laws;
mod meeting;
mod promise;
