//! One locality step by step: which changes of its tables go with which entry of the journal, and what each of them keeps.
#![tactic(auto)]

pub mod law;
