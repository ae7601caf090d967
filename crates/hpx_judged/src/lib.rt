//! Worlds in tests: turns of them, what they printed, and whether the judge accepts their journals.
#![tactic(auto)]

pub mod worlds;
