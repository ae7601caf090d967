//! Hands of a pool of workers: each has a deque of jobs and steals from the others'. What was put is what was got and what is left.
#![tactic(auto)]

pub mod hand;
pub mod jobs;
pub mod pool;
mod rows;
pub mod rule;
